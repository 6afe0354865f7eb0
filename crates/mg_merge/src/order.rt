ghost use Rattle.std.specs.Prelude.{◌≡◌, ◌↔◌, All, IsTrue};
ghost use Rattle.mg_collate.specs.Sorted.{IsInOrder};
ghost use Rattle.mg_merge.specs.Merged.{IsInOrderBy, contents_of, lists_view, order_by};

use crate::ranked::Ranked;
use mg_collate::{Direction, Row};
use std::cmp::Ordering;

/// Whether each list is in the direction's order, as `merge` requires.
///
/// Cost: at most a comparison for each row. Takes no memory.
pub fn are_in_order(lists: &[Vec<Row>], direction: Direction) -> bool
    ensures { IsTrue result ↔ All (IsInOrder direction) (lists_view lists.now) }
{
    items_are_in_order(lists, direction)
}

/// Whether each list is in the direction's order, as `merge_items` requires.
///
/// Cost: at most a comparison for each item. Takes no memory.
pub fn items_are_in_order<T: Ranked>(lists: &[Vec<T>], direction: Direction) -> bool
    ensures { IsTrue result ↔ All (IsInOrderBy T.row_of direction) (contents_of lists.now) }
{
    for list in lists {
        if !is_in_order(list, direction) {
            return false;
        }
    }
    true
}

fn is_in_order<T: Ranked>(items: &[T], direction: Direction) -> bool
    ensures { IsTrue result ↔ IsInOrderBy T.row_of direction items.now }
{
    for place in 1..items.len() {
        if comes_before(&items[place], &items[place - 1], direction) {
            return false;
        }
    }
    true
}

// Whether the direction lists the row of `item` before that of `other`.
fn comes_before<T: Ranked>(item: &T, other: &T, direction: Direction) -> bool
    ensures { IsTrue result ↔ (order_by T.row_of direction item.now other.now ≡ Ordering.Less) }
{
    direction.apply(item.order(other)) == Ordering::Less
}
