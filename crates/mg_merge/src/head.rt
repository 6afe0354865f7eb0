//! Heads of lists that are merged, in the order in which they are taken.
ghost use Rattle.std.specs.Prelude.{◌≡◌};
ghost use Rattle.mg_merge.specs.Turns.{turn_order};

use crate::ranked::Ranked;
use mg_collate::Direction;
use std::cmp::Ordering;

// The head of a list: the item that was pulled from it and is not taken yet. Heads are ordered for a `BinaryHeap`, which gives the greatest
// element first: the head that is taken first is the greatest.
#[derive(Drop)]
pub(crate) struct Head<T> {
    pub(crate) item: T,
    // the number of the list
    pub(crate) list: usize,
    // the direction of the merge
    pub(crate) direction: Direction,
}

impl<T: Ranked> Head<T> {
    // Compares two heads of a merge: the lesser row in its direction is taken first; of equal rows, that of the lesser list. Heads of an
    // ascending merge come before those of a descending one, so that the order is total.
    fn turn(&self, other: &Head<T>) -> Ordering
        ensures { result ≡ turn_order T.row_of self.now other.now }
    {
        match (self.direction, other.direction) {
            (Direction::Asc, Direction::Desc) => Ordering::Less,
            (Direction::Desc, Direction::Asc) => Ordering::Greater,
            (direction, _) => {
                let rows = direction.apply(self.item.order(&other.item));
                rows.then(self.list.cmp(&other.list))
            }
        }
    }
}

impl<T: Ranked> PartialEq for Head<T> {
    ghost use Rattle.std.specs.Ordering.{eq_by_cmp};
    ghost use Rattle.mg_merge.specs.Turns.{head_eq_laws, head_order};

    ghost eq = { eq_by_cmp (head_order T.row_of) };

    ghost laws = { head_eq_laws T.row_of };

    fn eq(&self, other: &Head<T>) -> bool {
        self.cmp(other) == Ordering::Equal
    }
}

impl<T: Ranked> Eq for Head<T> {
    ghost use Rattle.mg_merge.specs.Turns.{head_equivalence};

    ghost laws = { head_equivalence T.row_of };
}

impl<T: Ranked> PartialOrd for Head<T> {
    ghost use Rattle.std.specs.Ordering.{as_partial_cmp};
    ghost use Rattle.mg_merge.specs.Turns.{head_partial_laws, head_order};

    ghost partial_cmp = { as_partial_cmp (head_order T.row_of) };

    ghost laws = { head_partial_laws T.row_of };

    fn partial_cmp(&self, other: &Head<T>) -> Option<Ordering> {
        Some(self.cmp(other))
    }
}

impl<T: Ranked> Ord for Head<T> {
    ghost use Rattle.std.proofs.Common.{refl};
    ghost use Rattle.mg_merge.specs.Turns.{head_total, head_order};

    ghost cmp = { head_order T.row_of };

    ghost total = { head_total T.row_of };

    ghost matches_partial_cmp = { λ _ _. refl };

    ghost matches_eq = { λ _ _. refl };

    fn cmp(&self, other: &Head<T>) -> Ordering {
        other.turn(self)
    }
}
