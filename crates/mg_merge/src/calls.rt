//! The library's surface, for callers other than this program: a merge of rows, and what it tells of itself.
ghost use Rattle.std.specs.Prelude.{◌≡◌, All, IfOk, length, map, take};
ghost use Rattle.mg_collate.specs.Row.{rows_view};
ghost use Rattle.mg_collate.specs.Sorted.{IsInOrder};
ghost use Rattle.mg_merge.specs.Merged.{lent_view, lists_view, merged};

use crate::merging::first_lent;
use crate::work::Work;
use mg_collate::{Direction, Row};
use mg_value::NoMemory;
use std::alloc::Global;

/// Merges the lists. Returns their first `take` rows in the direction's order (fewer only if the lists have
/// fewer; none lost or repeated), and the lengths of the lists and of the result. Each list must be in that
/// order, which `are_in_order` tests; lists may be empty.
///
/// Errors: `NoMemory` if an allocation fails.
/// Cost: a copy of each row of the result, and the comparisons of `merge_pulled`. In each list at most one row
/// that is not in the result is read: the first such row. Memory: for each row of the result its copy and a reference,
/// however large `take` is; for each list a slice, a reference, a number and a direction.
pub fn merge(
    alloc: Global,
    lists: &[Vec<Row>],
    direction: Direction,
    take: usize,
) -> Result<(Vec<Row>, Work), NoMemory>
    requires { All (IsInOrder direction) (lists_view lists.now) }
    ensures rows { IfOk result
        (λ made. rows_view made.0.items ≡ merged direction take (lists_view lists.now)) }
    ensures handed { IfOk result (λ made. made.1.handed ≡ map (λ l. length l.items) lists.now) }
    ensures taken { IfOk result (λ made. made.1.taken ≡ length made.0.items) }
{
    let lent = first_lent(alloc, lists, direction, take)?;
    let rows = copy_rows(alloc, &lent)?;
    let work = Work::of(alloc, lists, rows.len())?;
    Ok((rows, work))
}

fn copy_rows(alloc: Global, lent: &[&Row]) -> Result<Vec<Row>, NoMemory>
    ensures { IfOk result (λ rows. rows_view rows.items ≡ rows_view (lent_view lent.now)) }
{
    let mut rows = Vec::with_capacity(alloc, lent.len())?;
    for row in lent {
        rows.push(row.copy(alloc)?)?;
    }
    Ok(rows)
}

impl Work {
    /// Lends the lengths of the lists, in the order of the lists. Takes no memory.
    pub fn handed(&self) -> &[u64]
        ensures { result.now ≡ self.now.handed }
    {
        &self.handed
    }

    /// Returns the length of the result. Takes no memory.
    pub fn taken(&self) -> u64
        ensures { result ≡ self.now.taken }
    {
        self.taken
    }
}
