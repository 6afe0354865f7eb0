//! Scans of shards by scoped workers.
ghost use Rattle.std.specs.Prelude.{◌≡◌, ◌<◌, map, IfOk};
ghost use Rattle.std.specs.List.{AllZip};
ghost use Rattle.mg_scan.specs.Search.{found_by};
ghost use Rattle.mg_shard.specs.Shard.{shards_view};
ghost use Rattle.mg_scan.specs.Hit.{AreHitsOf, hit_rows};

use crate::gate::Gate;
use crate::hit::Hit;
use crate::search::Search;
use crate::threads::map_from_one_thread;
use crate::worker_count::Workers;
use crate::workers::{fill_slots, hits_in_order, search_claimed};
use mg_shard::Shard;
use mg_value::NoMemory;
use std::alloc::Global;
use std::sync::Arc;
use std::sync::atomic::AtomicU64;
use std::thread::Threads;

/// Returns, per shard, in the order of the shards, the first `take` hits in the search's direction: rows of the target after `after`, whose
/// key is in the range and whose document matches the selector. A shard that lacks the index has no hits. The hits do not depend on the
/// number of workers, nor on the gate. The number of workers is that of `workers`, even if it is a maximum, but no more than there are
/// shards. One worker starts no thread.
///
/// The gate is passed before a shard's first row is read, and after the last row that is read unless an allocation fails in that shard.
/// Errors: `NoMemory` if an allocation fails. Cost: a thread for each worker but one; in each shard, finding the index and one look-up of
/// where to begin, then for each row of an index that is read a look-up of its document, and for each document that is read the selector;
/// memory for the lists of hits, which lend the documents.
pub fn scan_lent<'a, R: Threads + Sync, G: Gate + Sync>(
    rt: &R,
    alloc: Global,
    shards: &'a [Arc<Shard>],
    search: Search<'_>,
    workers: Workers,
    gate: &G,
) -> Result<Vec<Vec<Hit<'a>>>, NoMemory>
    ensures rows { IfOk result (λ lists. map (λ hits. hit_rows hits.items) lists.items
        ≡ map (found_by search.entry) (shards_view shards.now)) }
    ensures hits { IfOk result
        (λ lists. AllZip (λ s hits. AreHitsOf s hits.items) (shards_view shards.now) lists.items) }
{
    let next = AtomicU64::new(0);
    let given = map_from_one_thread(
        rt,
        alloc,
        workers.count().min(shards.len()),
        &|_worker| search_claimed(alloc, shards, search, &next, gate),
    )?;
    let slots = fill_slots(alloc, given, shards, search)?;
    let lists = hits_in_order(alloc, slots, shards, search, gate)?;
    Ok(lists)
}
