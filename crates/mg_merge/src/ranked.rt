ghost use Rattle.std.specs.Prelude.{◌≡◌};
ghost use Rattle.mg_collate.specs.Row.{RowValue, row_view, row_value_order};

use mg_collate::Row;
use std::cmp::Ordering;

/// An item with a row of an index, by which it is merged: a row itself, or a hit of a search.
pub trait Ranked {
    // its row
    ghost row_of: { Self → RowValue };

    /// Compares the rows of two items. Takes no memory.
    fn order(&self, other: &Self) -> Ordering
        ensures { result ≡ row_value_order (row_of self.now) (row_of other.now) };
}

impl Ranked for Row {
    ghost row_of = { row_view };

    fn order(&self, other: &Row) -> Ordering {
        self.cmp(other)
    }
}

// A lent item has the row of the item.
impl<'a, T: Ranked> Ranked for &'a T {
    ghost row_of = { λ item. T.row_of item.now };

    fn order(&self, other: &&'a T) -> Ordering {
        T::order(*self, *other)
    }
}
