//! What is searched, and where a search begins and ends.
ghost use Rattle.std.specs.Prelude.{◌≡◌, option_map, IfOk, if◌then◌else◌};
ghost use Rattle.std.specs.declared.cmp.Ordering.TheVariants.{Less, Greater};
ghost use Rattle.mg_collate.specs.Direction.{directed};
ghost use Rattle.mg_collate.specs.Row.{row_value_order, row_view};
ghost use Rattle.mg_range.specs.RangeSide.{is_early, is_late};
ghost use Rattle.mg_scan.specs.Begins.{reached};
ghost use Rattle.mg_scan.specs.Search.{after_of};
ghost use Rattle.mg_scan.specs.Way.{begin_at};
ghost use Rattle.mg_scan.specs.Walked.{id_row, is_beyond, is_late_row};

use crate::target_ref::TargetRef;
use mg_collate::{Direction, Row};
use mg_normal::Normal;
use mg_range::{RangeSide, RowRange};
use mg_rows::RowBytes;
use mg_value::NoMemory;
use std::alloc::Global;
use std::cmp::Ordering;

/// What is searched in each shard. The range and the row after which the search begins are compared as bytes, which are made once per
/// query.
#[derive(Clone, Copy)]
pub struct Search<'a> {
    /// What is read.
    pub target: TargetRef<'a>,
    /// The selector that has to hold of a document, in normal form.
    pub normal: &'a Normal,
    /// The range in which a key has to be.
    pub range: &'a RowRange<'a>,
    /// The row after which the search begins, if one is named.
    pub after: Option<&'a RowBytes>,
    /// How many hits are found at most: in each shard by `scan_lent`, in all shards together by `pull_lent` and `pull_rows`.
    pub take: usize,
    /// The direction in which rows are listed.
    pub direction: Direction,
}

// Makes the bytes of the row after which a search begins; `None` without such a row. Errors: `NoMemory` if an allocation fails.
pub(crate) fn bytes_of(alloc: Global, after: Option<&Row>) -> Result<Option<RowBytes>, NoMemory>
    ensures { IfOk result (λ bytes. bytes ≡ option_map (λ r. row_view r.now) after.entry) }
{
    match after {
        Some(after) => Ok(Some(RowBytes::of(alloc, &after.key, &after.id)?)),
        None => Ok(None),
    }
}

// Whether a key on this side of the range comes before the range in the direction.
fn is_early(direction: Direction, side: RangeSide) -> bool
    ensures { result ≡ is_early direction side }
{
    match (direction, side) {
        (Direction::Asc, RangeSide::Before) => true,
        (Direction::Desc, RangeSide::Past) => true,
        _ => false,
    }
}

// Whether a key on this side of the range comes after the range in the direction.
fn is_late(direction: Direction, side: RangeSide) -> bool
    ensures { result ≡ is_late direction side }
{
    match (direction, side) {
        (Direction::Asc, RangeSide::Past) => true,
        (Direction::Desc, RangeSide::Before) => true,
        _ => false,
    }
}

// Whether this ordering puts an item past the row after which the search begins; true without such a row.
#[inline(always)]
fn is_beyond(direction: Direction, order: Option<Ordering>) -> bool
    ensures { result ≡ is_beyond direction order }
{
    match order {
        Some(order) => direction.apply(order).is_gt(),
        None => true,
    }
}

// Compares the place where a search begins to an item; `is_reached` says whether the item is at or after that place.
#[inline(always)]
fn order_of_begin(direction: Direction, is_reached: bool) -> Ordering
    ensures { result ≡ directed direction (if is_reached then Less else Greater) }
{
    if is_reached {
        direction.apply(Ordering::Less)
    } else {
        direction.apply(Ordering::Greater)
    }
}

// Compares a row to `after`; `None` without `after`.
#[inline(always)]
fn row_order(row: &RowBytes, after: Option<&RowBytes>) -> Option<Ordering>
    ensures { result ≡ option_map (row_value_order row.now) (option_map (λ r. r.now) after.entry) }
{
    match after {
        Some(after) => Some(row.compare(after)),
        None => None,
    }
}

// Compares the row of an id in the index of all documents to `after`; `None` without `after`.
fn id_order(id: &str, after: Option<&RowBytes>) -> Option<Ordering>
    ensures { result ≡ option_map (row_value_order (id_row id.now)) (option_map (λ r. r.now) after.entry) }
{
    match after {
        Some(after) => Some(after.compare_to_id(id).reverse()),
        None => None,
    }
}

// Whether a row is at or after the place where a search begins. Cost: a comparison of bytes with the beginning of the range, and one
// with the row after which the search begins, if there is one.
#[inline(always)]
pub(crate) fn is_reached(search: Search<'_>, row: &RowBytes) -> bool
    ensures { result ≡ reached search.entry.direction search.entry.range.now (after_of search.entry) row.now }
{
    let is_early = search.range.is_early(search.direction, row);
    !is_early && is_beyond(search.direction, row_order(row, search.after))
}

// Compares the place where the search begins to a row. Cost: that of `is_reached`.
#[inline(always)]
pub(crate) fn begin_at_row(search: Search<'_>, row: &RowBytes) -> Ordering
    ensures { result ≡ begin_at search.entry row.now }
{
    order_of_begin(search.direction, is_reached(search, row))
}

// Compares the place where the search begins to the row of an id in the index of all documents.
pub(crate) fn begin_at_id(search: Search<'_>, id: &str) -> Ordering
    ensures { result ≡ begin_at search.entry (id_row id.now) }
{
    let is_early = is_early(search.direction, search.range.key_range().side_at_text(id));
    let is_reached = !is_early && is_beyond(search.direction, id_order(id, search.after));
    order_of_begin(search.direction, is_reached)
}

// Whether a row comes after the search's range in the search's direction: if it does, the search ends before the row. Cost: one comparison
// of bytes.
#[inline(always)]
pub(crate) fn is_late_row(search: Search<'_>, row: &RowBytes) -> bool
    ensures { result ≡ is_late_row search.entry.direction search.entry.range.now row.now }
{
    search.range.is_late(search.direction, row)
}

// Whether the row of an id in the index of all documents comes after the search's range in the search's direction.
pub(crate) fn is_late_id(search: Search<'_>, id: &str) -> bool
    ensures { result ≡ is_late_row search.entry.direction search.entry.range.now (id_row id.now) }
{
    is_late(search.direction, search.range.key_range().side_at_text(id))
}
