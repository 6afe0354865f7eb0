//! The library's surface, for callers other than this program: a scan that is given by its parts.
ghost use Rattle.std.specs.Prelude.{◌≡◌, ◌<◌, ◌≤◌, map, option_map, IfOk};
ghost use Rattle.mg_collate.specs.Row.{row_view, rows_view};
ghost use Rattle.mg_scan.specs.Found.{input_of_parts};
ghost use Rattle.mg_scan.specs.Named.{found_named};
ghost use Rattle.mg_shard.specs.Shard.{shards_view};
ghost use Rattle.mg_scan.specs.Hit.{hit_rows};

use crate::gate::Gate;
use crate::hit::Hit;
use crate::scanning::scan_lent;
use crate::search::{Search, bytes_of};
use crate::target::Target;
use crate::worker_count::Workers;
use mg_collate::{Direction, Row};
use mg_normal::Normal;
use mg_range::KeyRange;
use mg_shard::Shard;
use mg_value::NoMemory;
use std::alloc::Global;
use std::sync::Arc;
use std::thread::Threads;

/// Finds the hits that `scan_lent` finds, and returns copies of their rows. The search is given by its parts, and `workers`, 1 to 32, is
/// exact.
///
/// Errors: `NoMemory` if an allocation fails. Cost: as for `scan_lent`, and the size of the range, of `after` and of the rows.
pub fn scan<R: Threads + Sync, G: Gate + Sync>(
    rt: &R,
    alloc: Global,
    shards: &[Arc<Shard>],
    target: &Target,
    normal: &Normal,
    range: &KeyRange,
    after: Option<&Row>,
    take: usize,
    direction: Direction,
    workers: usize,
    gate: &G,
) -> Result<Vec<Vec<Row>>, NoMemory>
    requires { (0 < workers) × (workers ≤ 32) }
    ensures { IfOk result (λ lists. map (λ rows. rows_view rows.items) lists.items
        ≡ map (found_named target.now
        (input_of_parts normal.now range.now (option_map (λ r. row_view r.now) after.entry) take direction))
        (shards_view shards.now)) }
{
    let row_range = range.in_rows(alloc)?;
    let after_row = bytes_of(alloc, after)?;
    let search = Search {
        target: target.lend(),
        normal,
        range: &row_range,
        after: after_row.as_ref(),
        take,
        direction,
    };
    let found = scan_lent(rt, alloc, shards, search, Workers::exactly(workers), gate)?;
    let lists = copy_row_lists(alloc, &found)?;
    Ok(lists)
}

// Copies the rows of hits, list by list. Errors: `NoMemory` if an allocation fails.
fn copy_row_lists(alloc: Global, found: &[Vec<Hit<'_>>]) -> Result<Vec<Vec<Row>>, NoMemory>
    ensures { IfOk result (λ lists. map (λ rows. rows_view rows.items) lists.items
        ≡ map (λ hits. hit_rows hits.items) found.now) }
{
    let mut lists = Vec::with_capacity(alloc, found.len())?;
    for hits in found {
        let rows = copy_rows(alloc, hits)?;
        lists.push(rows)?;
    }
    Ok(lists)
}

// Copies the rows of hits. Errors: `NoMemory` if an allocation fails.
fn copy_rows(alloc: Global, hits: &[Hit<'_>]) -> Result<Vec<Row>, NoMemory>
    ensures { IfOk result (λ rows. rows_view rows.items ≡ hit_rows hits.now) }
{
    let mut rows = Vec::with_capacity(alloc, hits.len())?;
    for hit in hits {
        rows.push(hit.row(alloc)?)?;
    }
    Ok(rows)
}
