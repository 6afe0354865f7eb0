//! Where the range of a search ends among rows of an index, as far as it is known before they are read.
ghost use Rattle.std.specs.Prelude.{◌≡◌, ◌∷◌};
ghost use Rattle.mg_scan.specs.RangeEnd.{AreBeforeEnd, EndsOnce};
ghost use Rattle.mg_scan.specs.Walked.{is_late_row};

use crate::search::{Search, is_late_row};
use mg_pages::Cursor;
use mg_rows::RowBytes;

// The last row of a run is compared ahead of the others only if at least this many rows come before it: otherwise that would save too
// little.
const FEW: usize = 3;

/// What is known of where a range ends among rows that are read in order.
#[derive(Clone, Copy)]
pub(crate) struct RangeEnd {
    /// How many of the next rows are known to come before the end of the range.
    pub(crate) sure: usize,
    /// Whether the range is known to end within the run that is being read.
    pub(crate) in_run: bool,
}

impl RangeEnd {
    // Makes a `RangeEnd` for which nothing is known yet.
    pub(crate) fn unknown() -> RangeEnd
        ensures { result.sure ≡ 0 }
    {
        RangeEnd {
            sure: 0,
            in_run: false,
        }
    }

    // Whether the range ends before a row that was just read; `rows` are those after it, and `self` keeps what is learned about them. Cost:
    // nothing is compared if the row is known to come before the end; otherwise one comparison of bytes, and at most one more for each run.
    #[inline(always)]
    pub(crate) fn comes_before(
        &mut self,
        search: Search<'_>,
        row: &RowBytes,
        rows: &Cursor<'_, RowBytes>,
    ) -> bool
        requires ordered { EndsOnce search (row.now ∷ rows.now) }
        requires sure { AreBeforeEnd search (row.now ∷ rows.now) self.old.sure }
        ensures late { result ≡ is_late_row search.entry.direction search.entry.range.now row.now }
        ensures sure { AreBeforeEnd search.entry rows.now self.new.sure }
    {
        if self.sure > 0 {
            self.sure -= 1;
            return false;
        }
        if is_late_row(search, row) {
            return true;
        }
        self.look_ahead(search, rows);
        false
    }

    // Compares the end of the range with the last row of the run that is being read. If that row is not past the end, no row of the run is,
    // since rows are in order.
    fn look_ahead(&mut self, search: Search<'_>, rows: &Cursor<'_, RowBytes>)
        requires ordered { EndsOnce search rows.now }
        requires none { self.old.sure ≡ 0 }
        ensures { AreBeforeEnd search.entry rows.now self.new.sure }
    {
        if self.in_run {
            return;
        }
        let Some((place, last)) = rows.run_end() else {
            return;
        };
        if place < FEW {
            return;
        }
        if is_late_row(search, last) {
            self.in_run = true;
            return;
        }
        self.sure = place;
    }
}
