ghost use Rattle.std.specs.Prelude.{◌≡◌, All, IfOk, length, map, take};
ghost use Rattle.mg_merge.specs.Merged.{IsInOrderBy, contents_of, lent_view, merged_by};

use crate::pulled::merge_sources;
use crate::ranked::Ranked;
use crate::source::{ByItem, Rest};
use crate::work::Work;
use mg_collate::Direction;
use mg_value::NoMemory;
use std::alloc::Global;

/// Merges the lists. Returns their first `take` items in the direction's order of their rows (fewer only if
/// the lists have fewer; none lost or repeated), and the lengths of the lists and of the result. Of items with
/// equal rows, those of an earlier list come first. Each list must be in the direction's order, which
/// `items_are_in_order` tests; lists may be empty.
///
/// Errors: `NoMemory` if an allocation fails.
/// Cost: the comparisons of `merge_pulled`. No row is copied. Memory: for each item of the result an item and a
/// reference, however large `take` is; for each list a slice, a reference, a number and a direction.
pub fn merge_items<T: Ranked + Copy>(
    alloc: Global,
    lists: &[Vec<T>],
    direction: Direction,
    take: usize,
) -> Result<(Vec<T>, Work), NoMemory>
    requires { All (IsInOrderBy T.row_of direction) (contents_of lists.now) }
    ensures items { IfOk result
        (λ made. made.0.items ≡ merged_by T.row_of direction take (contents_of lists.now)) }
    ensures handed { IfOk result (λ made. made.1.handed ≡ map (λ l. length l.items) lists.now) }
    ensures taken { IfOk result (λ made. made.1.taken ≡ length made.0.items) }
{
    let lent = first_lent(alloc, lists, direction, take)?;
    let items = copy_all(alloc, &lent)?;
    let work = Work::of(alloc, lists, items.len())?;
    Ok((items, work))
}

// Borrows the first `take` items of the lists, in the direction's order.
pub(crate) fn first_lent<'a, T: Ranked>(
    alloc: Global,
    lists: &'a [Vec<T>],
    direction: Direction,
    take: usize,
) -> Result<Vec<&'a T>, NoMemory>
    requires { All (IsInOrderBy T.row_of direction) (contents_of lists.now) }
    ensures { IfOk result
        (λ lent. lent_view lent.items ≡ merged_by T.row_of direction take (contents_of lists.now)) }
{
    let mut rests = whole_lists(alloc, lists)?;
    let (lent, _) = merge_sources::<&'a T, ByItem, Rest<'a, T>>(
        alloc, &mut rests, direction, take,
    )?;
    Ok(lent)
}

// Lends the whole lists, of which nothing is taken yet.
fn whole_lists<'a, T>(alloc: Global, lists: &'a [Vec<T>]) -> Result<Vec<Rest<'a, T>>, NoMemory>
    ensures { IfOk result (λ rests. map (λ rest. rest.items.now) rests.items ≡ contents_of lists.now) }
{
    let mut rests = Vec::with_capacity(alloc, lists.len())?;
    for list in lists {
        rests.push(Rest {
            items: list.as_slice(),
        })?;
    }
    Ok(rests)
}

fn copy_all<T: Copy>(alloc: Global, lent: &[&T]) -> Result<Vec<T>, NoMemory>
    ensures { IfOk result (λ items. items.items ≡ lent_view lent.now) }
{
    let mut items = Vec::with_capacity(alloc, lent.len())?;
    for item in lent {
        items.push(**item)?;
    }
    Ok(items)
}
