//! Workers claim shards and search them. What they find does not depend on which worker claims which shard.
ghost use Rattle.std.specs.Prelude.{◌≡◌, ◌<◌, List, length, vec_len, All, IfOk, IfSome};
ghost use Rattle.std.specs.List.{AllZip};
ghost use Rattle.mg_shard.specs.Shard.{ShardView, shards_view};
ghost use Rattle.mg_scan.specs.Worked.{AllShardHits, AllSlots, AreHitsFoundAt, AreHitsFound};

use crate::finding::hits_in;
use crate::gate::{Gate, Place};
use crate::hit::Hit;
use crate::search::Search;
use mg_shard::Shard;
use mg_value::NoMemory;
use std::alloc::Global;
use std::sync::Arc;
use std::sync::atomic::{AtomicU64, Ordering};

/// The hits of one shard, and the number of the shard, counted from 0.
#[derive(Drop)]
pub(crate) struct ShardHits<'a> {
    pub(crate) shard: usize,
    pub(crate) hits: Vec<Hit<'a>>,
}

// Searches the i-th shard. Passes the gate before the search, and again after it unless an allocation fails. Errors: `NoMemory` if an
// allocation fails.
fn search_shard<'a, G: Gate>(
    alloc: Global,
    shards: &'a [Arc<Shard>],
    search: Search<'_>,
    i: usize,
    gate: &G,
) -> Result<Vec<Hit<'a>>, NoMemory>
    requires { i < length shards.now }
    ensures { IfOk result (λ v. AreHitsFoundAt search.entry (shards_view shards.now) i v.items) }
{
    gate.at(Place::ShardBegun(i));
    let shard: &Shard = &shards[i];
    let hits = hits_in(alloc, shard, search)?;
    gate.at(Place::ShardDone(i));
    Ok(hits)
}

/// Claims shards and searches them, until no shard is left. Returns the hits of each shard that it claimed. All workers share `next`, the
/// number of the next shard to claim. Errors: `NoMemory` if an allocation fails; then it claims no further shard, and drops the hits that
/// it found.
pub(crate) fn search_claimed<'a, G: Gate>(
    alloc: Global,
    shards: &'a [Arc<Shard>],
    search: Search<'_>,
    next: &AtomicU64,
    gate: &G,
) -> Result<Vec<ShardHits<'a>>, NoMemory>
    ensures { IfOk result (λ v. AllShardHits search.entry (shards_view shards.now) v.items) }
{
    let mut all = Vec::new(alloc);
    for _turn in 0..shards.len() {
        let claimed = next.fetch_add(1, Ordering::SeqCst);
        if claimed >= shards.len() as u64 {
            break;
        }
        let shard = claimed as usize;
        let hits = search_shard(alloc, shards, search, shard, gate)?;
        all.push(ShardHits { shard, hits })?;
    }
    Ok(all)
}

// Puts each list of hits into the slot of its shard; drops a list whose shard has no slot. If a slot is filled twice, both lists have the
// same rows, since both are what the search finds in that shard.
fn put_in_slots<'a>(slots: &mut Vec<Option<Vec<Hit<'a>>>>, given: Vec<ShardHits<'a>>)
    ensures slots { (search : Search) (shards : List ShardView) → AllShardHits search shards given.entry.items
        → AllSlots search shards slots.old.items → AllSlots search shards slots.new.items }
    ensures len { vec_len slots.new ≡ vec_len slots.old }
{
    let mut given = given;
    while let Some(ShardHits { shard, hits }) = given.pop() {
        if shard < slots.len() {
            slots[shard] = Some(hits);
        }
    }
}

// Makes an empty slot for each of `count` shards. Errors: `NoMemory` if an allocation fails.
fn empty_slots<'a>(alloc: Global, count: usize) -> Result<Vec<Option<Vec<Hit<'a>>>>, NoMemory>
    ensures slots { IfOk result
        (λ v. (search : Search) (shards : List ShardView) → AllSlots search shards v.items) }
    ensures len { IfOk result (λ v. vec_len v ≡ count) }
{
    let mut slots = Vec::new(alloc);
    for _slot in 0..count {
        slots.push(None)?;
    }
    Ok(slots)
}

/// Puts the hits that the workers found into slots, one for each shard. Errors: `NoMemory` if an allocation fails, or failed in a worker.
pub(crate) fn fill_slots<'a>(
    alloc: Global,
    given: Vec<Result<Vec<ShardHits<'a>>, NoMemory>>,
    shards: &[Arc<Shard>],
    search: Search<'_>,
) -> Result<Vec<Option<Vec<Hit<'a>>>>, NoMemory>
    requires { All (λ r. IfOk r (λ v. AllShardHits search (shards_view shards.now) v.items)) given.items }
    ensures slots { IfOk result (λ v. AllSlots search.entry (shards_view shards.now) v.items) }
    ensures len { IfOk result (λ v. vec_len v ≡ length shards.now) }
{
    let mut slots = empty_slots(alloc, shards.len())?;
    let mut given = given;
    while let Some(done) = given.pop() {
        put_in_slots(&mut slots, done?);
    }
    Ok(slots)
}

// Takes the hits out of a slot, and leaves it empty.
fn take_slot<'a>(slots: &mut Vec<Option<Vec<Hit<'a>>>>, i: usize) -> Option<Vec<Hit<'a>>>
    requires inside { i < vec_len slots.old }
    ensures hits { (search : Search) (shards : List ShardView) → AllSlots search shards slots.old.items
        → IfSome result (λ v. AreHitsFoundAt search shards i v.items) }
    ensures slots { (search : Search) (shards : List ShardView) → AllSlots search shards slots.old.items
        → AllSlots search shards slots.new.items }
    ensures len { vec_len slots.new ≡ vec_len slots.old }
{
    slots[i].take()
}

// Returns the hits taken from a slot; if the slot was empty, searches the shard on this thread. Errors: `NoMemory` if an allocation fails.
fn hits_or_search<'a, G: Gate>(
    alloc: Global,
    found: Option<Vec<Hit<'a>>>,
    shards: &'a [Arc<Shard>],
    search: Search<'_>,
    i: usize,
    gate: &G,
) -> Result<Vec<Hit<'a>>, NoMemory>
    requires inside { i < length shards.now }
    requires found { IfSome found (λ v. AreHitsFoundAt search (shards_view shards.now) i v.items) }
    ensures { IfOk result (λ v. AreHitsFoundAt search.entry (shards_view shards.now) i v.items) }
{
    match found {
        Some(hits) => Ok(hits),
        None => search_shard(alloc, shards, search, i, gate),
    }
}

/// Returns the hits of all shards, in the order of the shards. Searches on this thread each shard whose slot is empty. Errors: `NoMemory`
/// if an allocation fails.
pub(crate) fn hits_in_order<'a, G: Gate>(
    alloc: Global,
    slots: Vec<Option<Vec<Hit<'a>>>>,
    shards: &'a [Arc<Shard>],
    search: Search<'_>,
    gate: &G,
) -> Result<Vec<Vec<Hit<'a>>>, NoMemory>
    requires slots { AllSlots search (shards_view shards.now) slots.items }
    requires len { vec_len slots ≡ length shards.now }
    ensures { IfOk result
        (λ lists. AllZip (λ s v. AreHitsFound search.entry s v.items) (shards_view shards.now) lists.items) }
{
    let mut slots = slots;
    let mut all = Vec::new(alloc);
    for i in 0..shards.len() {
        let found = take_slot(&mut slots, i);
        let hits = hits_or_search(alloc, found, shards, search, i, gate)?;
        all.push(hits)?;
    }
    Ok(all)
}
