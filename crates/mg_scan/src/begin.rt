//! Where a search begins: among the rows of an index, or among documents, whose keys are their ids.
use crate::search::{Search, begin_at_id, begin_at_row};
use mg_collate::Direction;
use mg_pages::{Identified, Keyed, Probe, Shared, text_hint};
use mg_rows::RowBytes;
use mg_value::Json;
use std::cmp::Ordering;

/// The place where a search begins: before the first row, in its direction, that is at or past the start of its range, and that comes after
/// `after` if the search has one.
#[derive(Clone, Copy)]
pub(crate) struct Begin<'a> {
    pub(crate) search: Search<'a>,
}

impl<'a> Probe<RowBytes> for Begin<'a> {
    ghost use Rattle.mg_scan.specs.Begins.{begin_probes_rows};
    ghost use Rattle.mg_scan.specs.Way.{begin_at};

    ghost against = { λ b row. begin_at b.search row };

    ghost probes = { λ b. begin_probes_rows b.search };

    fn hint(&self) -> u64 {
        match self.search.after {
            Some(after) => Keyed::hint(after),
            None => self.search.range.entry_hint(self.search.direction),
        }
    }

    fn against(&self, element: &RowBytes) -> Ordering {
        begin_at_row(self.search, element)
    }
}

impl<'a, X: Identified> Probe<Shared<X>> for Begin<'a> {
    ghost use Rattle.mg_scan.specs.Begins.{begin_probes_ids};
    ghost use Rattle.mg_scan.specs.Way.{begin_at};
    ghost use Rattle.mg_scan.specs.Walked.{id_row};

    ghost against = { λ b x. begin_at b.search (id_row (X.id x)) };

    ghost probes = { λ b. begin_probes_ids X.id b.search };

    fn hint(&self) -> u64 {
        match self.search.after {
            Some(after) => text_hint(after.id()),
            None => id_hint(self.search),
        }
    }

    fn against(&self, element: &Shared<X>) -> Ordering {
        begin_at_id(self.search, element.get().id())
    }
}

// Returns the hint of the id at which the range is entered in the search's direction; if no id is named there, the first hint in that
// direction.
fn id_hint(search: Search<'_>) -> u64 {
    match search.range.key_range().entered_at(search.direction) {
        Some((Json::Text(id), _)) => text_hint(id.as_str()),
        _ if search.direction == Direction::Asc => 0,
        _ => u64::MAX,
    }
}
