//! Scouts: one in each shard, which steps over rows by counts.
ghost use Rattle.std.specs.Prelude.{◌<◌, ◌≤◌, length};

use crate::search::{Search, is_late_row};
use mg_collate::Direction;
use mg_pages::Cursor;
use mg_rows::RowBytes;
use mg_value::NoMemory;

// A row of a shard, and the rows after it.
#[derive(Drop)]
pub(crate) struct Scout<'a> {
    pub(crate) row: &'a RowBytes,
    pub(crate) rows: Cursor<'a, RowBytes>,
}

// Makes the scout at the `stride`-th of these rows; `None` if there are fewer, or the search's range ends before that row.
pub(crate) fn scout_of<'a>(
    mut rows: Cursor<'a, RowBytes>,
    search: Search<'_>,
    stride: usize,
) -> Option<Scout<'a>>
    requires { 0 < stride }
{
    rows.advance(stride - 1);
    let row = rows.next()?;
    if is_late_row(search, row) {
        return None;
    }
    Some(Scout { row, rows })
}

// Inserts a scout into a list of scouts, which is in the reverse order of their rows: the scout whose row comes first is at the end.
// Errors: `NoMemory` if an allocation fails.
pub(crate) fn insert_scout<'a>(
    scouts: &mut Vec<Scout<'a>>,
    scout: Scout<'a>,
    direction: Direction,
) -> Result<(), NoMemory> {
    let place = place_of(scouts, scout.row, direction);
    scouts.insert(place, scout)?;
    Ok(())
}

// Finds, by binary search, where a scout at this row belongs in the list.
fn place_of(scouts: &[Scout<'_>], row: &RowBytes, direction: Direction) -> usize
    ensures { result ≤ length scouts.now }
{
    let mut low = 0;
    let mut high = scouts.len();
    while low < high {
        let middle = low + (high - low) / 2;
        if direction.apply(scouts[middle].row.compare(row)).is_gt() {
            low = middle + 1;
        } else {
            high = middle;
        }
    }
    low
}
