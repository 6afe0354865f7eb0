//! Builds indexes over shards, and extracts their rows in parallel.
ghost use Rattle.std.specs.Prelude.{◌≡◌, ◌+◌, ◌^◌, ◌<◌, ◌≤◌, List, Some, length, map, slice_get, vec_len, IfOk};
ghost use Rattle.mg_scan.specs.Built.{with_index};
ghost use Rattle.mg_scan.specs.Building.{AreRowsAt, AreRowsFrom, HasRowsAt};
ghost use Rattle.mg_index.specs.Definition.{IndexDefinition};
ghost use Rattle.mg_shard.specs.Shard.{ShardView, shards_view};
ghost use Rattle.std.specs.Thread.{IsSync};

use crate::gate::{Gate, Place};
use crate::threads::map_from_one_thread;
use mg_index::IndexDef;
use mg_pages::Pages;
use mg_rows::RowBytes;
use mg_shard::Shard;
use mg_value::NoMemory;
use std::alloc::{AllocError, Global};
use std::mem::replace;
use std::sync::Arc;
use std::thread::Threads;

// Extracts the rows that the index has in the i-th shard, as `Shard::rows_for` does with this number of workers. Passes the gate before it
// reads the shard, and again at the end unless an allocation fails. Errors: `NoMemory` if an allocation fails.
fn extract_at<R: Threads + Sync, G: Gate>(
    rt: &R,
    alloc: Global,
    shards: &[Arc<Shard>],
    definition: &IndexDef,
    i: usize,
    workers: usize,
    gate: &G,
) -> Result<Pages<RowBytes>, NoMemory>
    requires { i < length shards.now }
    ensures { HasRowsAt definition.now (shards_view shards.now) i result }
{
    gate.at(Place::ShardBegun(i));
    let shard: &Shard = &shards[i];
    let rows = shard.rows_for(rt, alloc, definition, workers)?;
    gate.at(Place::ShardDone(i));
    Ok(rows)
}

// Extracts the rows of one shard after the other. Returns, per shard, the rows that the index has there or the error. Errors: `NoMemory` if
// memory for the list is refused.
fn extract_in_turn<R: Threads + Sync, G: Gate>(
    rt: &R,
    alloc: Global,
    shards: &[Arc<Shard>],
    definition: &IndexDef,
    workers: usize,
    gate: &G,
) -> Result<Vec<Result<Pages<RowBytes>, NoMemory>>, NoMemory>
    ensures rows { IfOk result (λ v. AreRowsAt definition.now (shards_view shards.now) v.items) }
    ensures len { IfOk result (λ v. vec_len v ≡ length shards.now) }
{
    let mut all = Vec::new(alloc);
    for i in 0..shards.len() {
        let rows = extract_at(rt, alloc, shards, definition, i, workers, gate);
        all.push(rows)?;
    }
    Ok(all)
}

// Extracts the rows of the `count` shards from the shard `from` on, all at once. Returns, per shard, the rows that the index has there or
// the error. Each shard but the last has a thread of its own; the last has the caller's thread, and so has each shard for which no thread
// can be started. Each thread extracts its rows as `Shard::rows_for` does with this number of workers. Errors: `AllocError` if memory for
// the list is refused.
fn extract_at_once<R: Threads + Sync, G: Gate + Sync>(
    rt: &R,
    alloc: Global,
    shards: &[Arc<Shard>],
    definition: &IndexDef,
    from: usize,
    count: usize,
    workers: usize,
    gate: &G,
) -> Result<Vec<Result<Pages<RowBytes>, NoMemory>>, AllocError>
    requires { from + count ≤ length shards.now }
    ensures rows { IfOk result (λ v. AreRowsFrom definition.now (shards_view shards.now) from v.items) }
    ensures len { IfOk result (λ v. vec_len v ≡ count) }
{
    let rows = map_from_one_thread(
        rt,
        alloc,
        count,
        &|k: usize| -> Result<Pages<RowBytes>, NoMemory>
            requires { IsSync R.row × (from + k < length shards.now) × (from + k < 2 ^ 64) }
            ensures { HasRowsAt definition.entry.now (shards_view shards.entry.now) (from + k) result }
        { extract_at(rt, alloc, shards, definition, from + k, workers, gate) },
    )?;
    Ok(rows)
}

// Extracts the rows of all shards in rounds, in which each worker takes a shard. If a round has at least twice as many workers as shards,
// each shard gets several workers. Returns, per shard, the rows that the index has there or the error. Errors: `NoMemory` if memory for the
// list is refused.
fn extract_by_threads<R: Threads + Sync, G: Gate + Sync>(
    rt: &R,
    alloc: Global,
    shards: &[Arc<Shard>],
    definition: &IndexDef,
    workers: usize,
    gate: &G,
) -> Result<Vec<Result<Pages<RowBytes>, NoMemory>>, NoMemory>
    requires { 0 < workers }
    ensures rows { IfOk result (λ v. AreRowsAt definition.now (shards_view shards.now) v.items) }
    ensures len { IfOk result (λ v. vec_len v ≡ length shards.now) }
{
    let mut all = Vec::new(alloc);
    while all.len() < shards.len() {
        let from = all.len();
        let count = workers.min(shards.len() - from);
        let each = workers / count;
        let mut more = extract_at_once(rt, alloc, shards, definition, from, count, each, gate)?;
        all.append(&mut more)?;
    }
    Ok(all)
}

// Extracts the rows of all shards, one shard after the other or several at once. Returns, per shard, the rows that the index has there or
// the error. Errors: `NoMemory` if memory for the list is refused.
fn extract<R: Threads + Sync, G: Gate + Sync>(
    rt: &R,
    alloc: Global,
    shards: &[Arc<Shard>],
    definition: &IndexDef,
    workers: usize,
    gate: &G,
) -> Result<Vec<Result<Pages<RowBytes>, NoMemory>>, NoMemory>
    ensures rows { IfOk result (λ v. AreRowsAt definition.now (shards_view shards.now) v.items) }
    ensures len { IfOk result (λ v. vec_len v ≡ length shards.now) }
{
    if workers < 2 || shards.len() < 2 {
        return extract_in_turn(rt, alloc, shards, definition, workers, gate);
    }
    extract_by_threads(rt, alloc, shards, definition, workers, gate)
}

// Makes the i-th shard with an index of this definition and these rows. Errors: the error given in place of the rows, or `NoMemory` if an
// allocation fails.
fn index_shard(
    alloc: Global,
    shards: &[Arc<Shard>],
    definition: &IndexDef,
    i: usize,
    rows: Result<Pages<RowBytes>, NoMemory>,
) -> Result<Shard, NoMemory>
    requires inside { i < length shards.now }
    requires rows { HasRowsAt definition.now (shards_view shards.now) i rows }
    ensures { IfOk result
        (λ s. slice_get (map (with_index definition.now) (shards_view shards.now)) i ≡ Some s) }
{
    let shard: &Shard = &shards[i];
    Ok(shard.with_pages(alloc, definition, rows?)?)
}

// Takes out the rows of the i-th shard, or the error given in their place, and leaves an error instead.
fn take_rows(
    given: &mut Vec<Result<Pages<RowBytes>, NoMemory>>,
    i: usize,
) -> Result<Pages<RowBytes>, NoMemory>
    requires inside { i < vec_len given.old }
    ensures rows { (d : IndexDefinition) (shards : List ShardView) → AreRowsAt d shards given.old.items
        → HasRowsAt d shards i result }
    ensures given { (d : IndexDefinition) (shards : List ShardView) → AreRowsAt d shards given.old.items
        → AreRowsAt d shards given.new.items }
    ensures len { vec_len given.new ≡ vec_len given.old }
{
    replace(&mut given[i], Err(NoMemory))
}

// Makes the shards, each with an index of this definition that has the rows given for the shard. Errors: the first error given in place of
// rows, or `NoMemory` if an allocation fails.
fn index_shards(
    alloc: Global,
    shards: &[Arc<Shard>],
    definition: &IndexDef,
    given: Vec<Result<Pages<RowBytes>, NoMemory>>,
) -> Result<Vec<Shard>, NoMemory>
    requires rows { AreRowsAt definition.now (shards_view shards.now) given.items }
    requires len { vec_len given ≡ length shards.now }
    ensures { IfOk result (λ v. v.items ≡ map (with_index definition.now) (shards_view shards.now)) }
{
    let mut built = Vec::new(alloc);
    let mut given = given;
    for i in 0..shards.len() {
        let rows = take_rows(&mut given, i);
        let shard = index_shard(alloc, shards, definition, i, rows)?;
        built.push(shard)?;
    }
    Ok(built)
}

/// Returns the shards, each with an index of this definition, as `Shard::with_index` makes them: an index of the same design document and
/// name is replaced. The result is the same for every number of workers, 1 to 32, and for every gate. There are at most `workers` threads,
/// the caller's among them. Several workers take a shard each; if there are at least twice as many workers as shards left, they are shared
/// out among these shards, and `Shard::rows_for` uses those of a shard.
///
/// The gate is passed before a shard's first document is read, and after its last row is made unless an allocation fails in that shard.
/// Errors: `NoMemory` if an allocation fails; the given shards stay as they are. Cost: for each shard that of `Shard::rows_for` and of
/// `Shard::with_pages`; if several workers take several shards at once, a thread for each of these shards but one.
pub fn build<R: Threads + Sync, G: Gate + Sync>(
    rt: &R,
    alloc: Global,
    shards: &[Arc<Shard>],
    definition: &IndexDef,
    workers: usize,
    gate: &G,
) -> Result<Vec<Shard>, NoMemory>
    requires { (0 < workers) × (workers ≤ 32) }
    ensures { IfOk result (λ v. v.items ≡ map (with_index definition.now) (shards_view shards.now)) }
{
    let given = extract(rt, alloc, shards, definition, workers, gate)?;
    index_shards(alloc, shards, definition, given)
}
