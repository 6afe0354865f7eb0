//! The merge: pulls the first item of each source, and then, for each item that it takes, the next one of the same source.
ghost use Rattle.std.specs.Prelude.{◌≡◌, ◌≤◌, ◌<◌, ◌+◌, [], ◌∷◌, List, All, IfOk, IfSome, IfNone, OnOk, length, map};
ghost use Rattle.std.specs.BinaryHeap.{KeepsHeap, heap_items};
ghost use Rattle.std.specs.List.Sorted.{IsPermutation};
ghost use Rattle.mg_collate.specs.Sorted.{IsInOrder};
ghost use Rattle.mg_collate.specs.declared.direction.Direction.{Direction as DirectionValue};
ghost use Rattle.mg_merge.specs.Heads.{GoesOn, IsAtEnd, IsUnderWay, with_head};
ghost use Rattle.mg_merge.specs.Merged.{IsInOrderBy, joined, merged, merged_by, order_by};
ghost use Rattle.mg_merge.specs.Pulled.{ArePulled, ArePulledBy, GiveFrom, IsGivenBy};
ghost use Rattle.mg_merge.specs.Turns.{head_order};

use crate::head::Head;
use crate::ranked::Ranked;
use crate::source::{ByRow, RowSource, Source};
use mg_collate::Direction;
use mg_value::NoMemory;
use std::alloc::Global;
use std::collections::BinaryHeap;

// The most items that the result has room for at first.
const FIRST_ROOM: usize = 64;

/// Merges the sources. Returns their first `take` items in the direction's order of their rows (fewer only if
/// the sources have fewer; none lost or repeated), and how many items were pulled: those of the result, and
/// the next one of each source that has more, so at most `take` plus the number of sources. Items that were
/// pulled and are not in the result are dropped. Each source must be in the direction's order; sources may be
/// empty.
///
/// Errors: `NoMemory` if an allocation fails; then items may have been pulled from the sources, and are lost.
/// Cost: what the sources need for the items that are pulled; for each item that is pulled at most as many
/// comparisons as the logarithm of the number of sources to base 2, and for each item of the result at most
/// twice as many again. Memory: the items of the result, and for each source an item, a number and a direction.
pub fn merge_pulled<T: Ranked + Copy, S: RowSource<T>>(
    alloc: Global,
    sources: &mut [S],
    direction: Direction,
    take: usize,
) -> Result<(Vec<T>, u64), NoMemory>
    requires { All (IsInOrder direction) (map S.rest sources.old) }
    ensures rows { IfOk result
        (λ made. map T.row_of made.0.items ≡ merged direction take (map S.rest sources.old)) }
    ensures given { IfOk result (λ made. All (IsGivenBy S.gives sources.old) made.0.items) }
    ensures number { IfOk result (λ made. ArePulled direction (map S.rest sources.old)
        (map T.row_of made.0.items) made.1) }
    ensures pulled { IfOk result (λ made. made.1 ≤ take + length sources.old) }
    ensures left { IfOk result (λ made. length (joined (map S.rest sources.old))
        ≤ made.1 + length (joined (map S.rest sources.new))) }
{
    merge_sources::<T, ByRow, S>(alloc, sources, direction, take)
}

// Merges the sources as `merge_pulled` does. Of items with equal rows, those of an earlier source come first.
pub(crate) fn merge_sources<T: Ranked + Copy, By, S: Source<T, By>>(
    alloc: Global,
    sources: &mut [S],
    direction: Direction,
    take: usize,
) -> Result<(Vec<T>, u64), NoMemory>
    requires { All (IsInOrderBy S.key_row direction) (map S.left sources.old) }
    ensures items { IfOk result (λ made. map S.key_of made.0.items
        ≡ merged_by S.key_row direction take (map S.left sources.old)) }
    ensures given { IfOk result (λ made. All (IsGivenBy S.offers sources.old) made.0.items) }
    ensures number { IfOk result (λ made. ArePulledBy (order_by S.key_row direction)
        (map S.left sources.old) (map S.key_of made.0.items) made.1) }
    ensures pulled { IfOk result (λ made. made.1 ≤ take + length sources.old) }
    ensures left { IfOk result (λ made. length (joined (map S.left sources.old))
        ≤ made.1 + length (joined (map S.left sources.new))) }
{
    let mut heads = first_heads(alloc, sources, direction)?;
    let items = take_items(alloc, &mut heads, sources, take)?;
    let pulled = (items.len() + heads.len()) as u64;
    Ok((items, pulled))
}

// Pulls the first item of each source. A source that is empty has no head.
fn first_heads<T: Ranked + Copy, By, S: Source<T, By>>(
    alloc: Global,
    sources: &mut [S],
    direction: Direction,
) -> Result<BinaryHeap<Head<T>>, NoMemory>
    requires { All (IsInOrderBy S.key_row direction) (map S.left sources.old) }
    ensures under_way { IfOk result (λ heads. IsUnderWay S.key_of T.row_of S.key_row direction
        (map S.left sources.old) (map S.left sources.new) (heap_items heads)) }
    ensures given { IfOk result (λ heads.
        All (λ head. IsGivenBy S.offers sources.old head.item) (heap_items heads)) }
    ensures gives { OnOk result (GiveFrom S.offers sources.old sources.new) }
{
    let mut heads = BinaryHeap::with_capacity(alloc, sources.len())?;
    for list in 0..sources.len() {
        let item = sources[list].pull();
        push_head(&mut heads, item, list, direction)?;
    }
    Ok(heads)
}

// Takes the first `take` items; fewer only if nothing is left.
fn take_items<T: Ranked + Copy, By, S: Source<T, By>>(
    alloc: Global,
    heads: &mut BinaryHeap<Head<T>>,
    sources: &mut [S],
    take: usize,
) -> Result<Vec<T>, NoMemory>
    requires { All (λ head. head.list < length sources.old) (heap_items heads.old) }
    ensures within { IfOk result (λ items. length items.items ≤ take) }
    ensures goes_on { (direction : DirectionValue) → IfOk result
        (λ items. GoesOn S.key_of T.row_of S.key_row direction
        (map S.left sources.old) (heap_items heads.old) items.items
        (map S.left sources.new) (heap_items heads.new)) }
    ensures end { (direction : DirectionValue) → IfOk result (λ items. length items.items < take
        → IsAtEnd S.key_of T.row_of S.key_row direction (map S.left sources.new) (heap_items heads.new)) }
    ensures given { (start : List S)
        → All (λ head. IsGivenBy S.offers start head.item) (heap_items heads.old)
        → GiveFrom S.offers start sources.old
        → IfOk result (λ items. All (IsGivenBy S.offers start) items.items) }
{
    let mut items = Vec::with_capacity(alloc, take.min(FIRST_ROOM))?;
    while items.len() < take {
        let taken = take_first(heads, sources)?;
        match taken {
            Some(item) => items.push(item)?,
            None => return Ok(items),
        }
    }
    Ok(items)
}

// Takes the head that comes first, and pulls the next item of its source. `None` if nothing is left.
fn take_first<T: Ranked + Copy, By, S: Source<T, By>>(
    heads: &mut BinaryHeap<Head<T>>,
    sources: &mut [S],
) -> Result<Option<T>, NoMemory>
    requires { All (λ head. head.list < length sources.old) (heap_items heads.old) }
    ensures within { OnOk result (All (λ head. head.list < length sources.new) (heap_items heads.new)) }
    ensures goes_on { (direction : DirectionValue) → IfOk result (λ taken. IfSome taken
        (λ item. GoesOn S.key_of T.row_of S.key_row direction
        (map S.left sources.old) (heap_items heads.old) (item ∷ [])
        (map S.left sources.new) (heap_items heads.new))) }
    ensures given { (start : List S)
        → All (λ head. IsGivenBy S.offers start head.item) (heap_items heads.old)
        → GiveFrom S.offers start sources.old
        → IfOk result (λ taken. IfSome taken (IsGivenBy S.offers start)
        × All (λ head. IsGivenBy S.offers start head.item) (heap_items heads.new)
        × GiveFrom S.offers start sources.new) }
    ensures end { IfOk result (λ taken. IfNone taken (heap_items heads.new ≡ [])) }
    ensures stays { IfOk result (λ taken. IfNone taken
        ((heap_items heads.new ≡ heap_items heads.old) × (sources.new ≡ sources.old))) }
{
    let Some(first) = heads.pop() else {
        return Ok(None);
    };
    let list = first.list;
    let next = sources[list].pull();
    push_head(heads, next, list, first.direction)?;
    Ok(Some(first.item))
}

// Pushes the head of a list, if an item was pulled from the list.
fn push_head<T: Ranked + Copy>(
    heads: &mut BinaryHeap<Head<T>>,
    item: Option<T>,
    list: usize,
    direction: Direction,
) -> Result<(), NoMemory>
    ensures heads { OnOk result
        (IsPermutation (with_head item list direction (heap_items heads.old)) (heap_items heads.new)) }
    ensures order { OnOk result
        (KeepsHeap (head_order T.row_of) (heap_items heads.old) (heap_items heads.new)) }
{
    if let Some(item) = item {
        heads.push(Head {
            item,
            list,
            direction,
        })?;
    }
    Ok(())
}
