ghost use Rattle.std.specs.Prelude.{◌≡◌, ◌∷◌, [], List, IfSome, IfNone, ⊤};
ghost use Rattle.std.proofs.Common.{refl};
ghost use Rattle.mg_collate.specs.Row.{RowValue};

use crate::ranked::Ranked;

/// A source of items, which looks for an item only when it is asked for the next one. `merge_pulled` requires that the
/// rows of the items are in order.
pub trait RowSource<T: Ranked> {
    // the rows of the items that were not pulled yet
    ghost rest: { Self → List RowValue };

    // a property of each item that the source gives
    ghost gives: { Self → T → Type 0 };

    /// Returns the next item; `None` once nothing is left. Takes no memory.
    fn next(&mut self) -> Option<T>
        ensures item { IfSome result (λ item. rest self.old ≡ T.row_of item ∷ rest self.new) }
        ensures given { IfSome result (gives self.old) }
        ensures same { (item : T) → gives self.new item → gives self.old item }
        ensures end { IfNone result (rest self.old ≡ []) };
}

// What is known of the items that a source still has: their rows.
pub(crate) struct ByRow;

// What is known of the items that a source still has: the items themselves.
pub(crate) struct ByItem;

// What a merge takes its items from. `By` is what is known of the items that the source still has.
pub(crate) trait Source<T: Ranked, By> {
    // what is known of an item
    ghost Key: { Type 0 };

    ghost key_of: { T → Key };

    // the row of an item, by what is known of it
    ghost key_row: { Key → RowValue };

    // the items that were not pulled yet
    ghost left: { Self → List Key };

    // a property of each item that the source gives
    ghost offers: { Self → T → Type 0 };

    // Returns the next item; `None` once nothing is left. Takes no memory.
    fn pull(&mut self) -> Option<T>
        ensures item { IfSome result (λ item. left self.old ≡ key_of item ∷ left self.new) }
        ensures given { IfSome result (offers self.old) }
        ensures same { (item : T) → offers self.new item → offers self.old item }
        ensures end { IfNone result (left self.old ≡ []) };

    ghost same_row: { (item : T) → key_row (key_of item) ≡ T.row_of item };
}

impl<T: Ranked, S: RowSource<T>> Source<T, ByRow> for S {
    ghost Key = { RowValue };

    ghost key_of = { T.row_of };

    ghost key_row = { λ row. row };

    ghost left = { S.rest };

    ghost offers = { S.gives };

    ghost same_row = { λ _. refl };

    fn pull(&mut self) -> Option<T> {
        self.next()
    }
}

// What was not taken of a list.
#[derive(Drop)]
pub(crate) struct Rest<'a, T> {
    pub(crate) items: &'a [T],
}

impl<'a, T: Ranked> Source<&'a T, ByItem> for Rest<'a, T> {
    ghost Key = { T };

    ghost key_of = { λ item. item.now };

    ghost key_row = { T.row_of };

    ghost left = { λ rest. rest.items.now };

    ghost offers = { λ _ _. ⊤ };

    ghost same_row = { λ _. refl };

    fn pull(&mut self) -> Option<&'a T> {
        let (item, rest) = self.items.split_first()?;
        self.items = rest;
        Some(item)
    }
}
