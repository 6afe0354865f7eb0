//! Searches in a page, and among the children of a level. Each begins at the guess of the hints.
ghost use Rattle.std.specs.Prelude.{◌<◌, ◌+◌, length, take, drop, IfSome, MatchResult};
ghost use Rattle.mg_pages.specs.Order.{Ascends};
ghost use Rattle.mg_pages.specs.Search.{AllAbove, AllBelow, BelongsAt, BelongsWithin, IsTie};
ghost use Rattle.mg_pages.specs.Subtree.{elements_of};

use crate::hint::{guess, next_guess};
use crate::keyed::{Keyed, Probe};
use crate::tree::Child;
use std::cmp::Ordering;

/// Finds the place of the element that ties with a key (`Ok`), or, if there is no such element, the place where one belongs (`Err`).
/// Cost: the logarithm of the number of elements, in comparisons.
pub fn find<T: Keyed, Q: Probe<T>>(elements: &[T], key: &Q) -> Result<usize, usize>
    requires { Ascends T.order elements.now }
    ensures { MatchResult result (IsTie (Q.against key.now) elements.now)
        (BelongsAt (Q.against key.now) elements.now) }
{
    let first = guess(elements, key.hint());
    let mut low = 0;
    let mut high = elements.len();
    while low < high {
        let middle = next_guess(low, high, first);
        match key.against(&elements[middle]) {
            Ordering::Greater => low = middle + 1,
            Ordering::Less => high = middle,
            Ordering::Equal => return Ok(middle),
        }
    }
    Err(low)
}

/// Finds the place where a key belongs; `None` if an element ties with the key, or all elements are on one side of the key.
pub fn place_within<T: Keyed, Q: Probe<T>>(elements: &[T], key: &Q) -> Option<usize>
    requires { Ascends T.order elements.now }
    ensures { IfSome result (BelongsWithin (Q.against key.now) elements.now) }
{
    let Err(i) = find::<T, Q>(elements, key) else {
        return None;
    };
    if 0 < i && i < elements.len() {
        Some(i)
    } else {
        None
    }
}

/// Finds the child where a key belongs: the elements of earlier children are below the key, those of later children above it.
/// Cost: the logarithm of the number of children, in comparisons with their last elements.
pub fn place<T: Keyed, Q: Probe<T>>(children: &[Child<T>], key: &Q) -> usize
    requires some { 0 < length children.now }
    requires sorted { Ascends T.order (elements_of children.now) }
    ensures within { result < length children.now }
    ensures below { AllBelow (Q.against key.now) (elements_of (take result children.now)) }
    ensures above { AllAbove (Q.against key.now) (elements_of (drop (result + 1) children.now)) }
{
    let mut low = 0;
    let mut high = children.len() - 1;
    let first = guess(children, key.hint()).min(high);
    while low < high {
        let middle = next_guess(low, high, first);
        if key.against(children[middle].tree().last()).is_gt() {
            low = middle + 1;
        } else {
            high = middle;
        }
    }
    low
}
