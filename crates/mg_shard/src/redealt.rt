//! Documents that are dealt anew to another number of shards.
ghost use Rattle.std.specs.Prelude.{◌≡◌, ◌<◌, IfOk, List, length};
ghost use Rattle.mg_index.specs.Catalog.{IsCatalog};
ghost use Rattle.mg_shard.specs.Index.{definitions_of};
ghost use Rattle.mg_shard.specs.Redealt.{AreMade, Redeals, documents_view, first_definitions};
ghost use Rattle.mg_shard.specs.Shard.{ShardView, shards_view};

use crate::document::Document;
use crate::index_entry::IndexEntry;
use crate::index_list::share_indexes;
use crate::new_shards::make_by_threads;
use crate::placed::{all_documents, places_of};
use crate::placement::Placement;
use crate::shard::Shard;
use mg_pages::Shared;
use mg_value::NoMemory;
use std::alloc::Global;
use std::sync::Arc;
use std::thread::Threads;

/// Deals the documents of these shards as `redeal` does; the result does not depend on the number of workers. At most `workers` threads,
/// the caller's among them, and at most two for each processor, make the new shards, each of which is made by one thread. No thread is
/// started for fewer than two workers, or for one new shard.
///
/// Errors and cost: those of `redeal`.
pub fn redeal_by<P: Placement, R: Threads + Sync>(
    rt: &R,
    alloc: Global,
    shards: &[Arc<Shard>],
    placement: &P,
    count: usize,
    workers: usize,
) -> Result<Vec<Shard>, NoMemory>
    requires { 0 < count }
    ensures { IfOk result
        (λ v. Redeals (P.place placement.now) count (shards_view shards.now) v.items) }
{
    let dealt = deal(alloc, shards, placement, count)?;
    let made = make_by_threads(
        rt,
        alloc,
        &dealt.documents,
        &dealt.places,
        &dealt.indexes,
        count,
        workers,
    )?;
    Ok(made)
}

// What new shards are made of: documents, the number of the shard of each, and indexes, whose definitions each shard gets.
#[derive(Drop)]
pub(crate) struct Dealt<'a> {
    pub(crate) documents: Vec<&'a Shared<Document>>,
    pub(crate) places: Vec<usize>,
    pub(crate) indexes: Vec<IndexEntry>,
}

// Lists the documents of these shards, the place of each among `count` new shards, and the indexes of the first shard.
pub(crate) fn deal<'a, P: Placement>(
    alloc: Global,
    shards: &'a [Arc<Shard>],
    placement: &P,
    count: usize,
) -> Result<Dealt<'a>, NoMemory>
    requires { 0 < count }
    ensures number { IfOk result (λ d. length d.places.items ≡ length d.documents.items) }
    ensures catalog { IfOk result (λ d. IsCatalog (definitions_of d.indexes.items)) }
    ensures dealt { IfOk result (λ d. (made : List ShardView) → length made ≡ count
        → AreMade (documents_view d.documents.items) d.places.items (definitions_of d.indexes.items) made
        → Redeals (P.place placement.now) count (shards_view shards.now) made) }
{
    let documents = all_documents(alloc, shards)?;
    let places = places_of(alloc, placement, &documents, count)?;
    let indexes = first_indexes(alloc, shards)?;
    Ok(Dealt {
        documents,
        places,
        indexes,
    })
}

// Lists the indexes of the first shard, with their rows shared. The list is empty if there is no shard.
fn first_indexes(alloc: Global, shards: &[Arc<Shard>]) -> Result<Vec<IndexEntry>, NoMemory>
    ensures catalog { IfOk result (λ v. IsCatalog (definitions_of v.items)) }
    ensures first { IfOk result
        (λ v. definitions_of v.items ≡ first_definitions (shards_view shards.now)) }
{
    match shards.first() {
        Some(shard) => Ok(share_indexes(alloc, shard.indexes())?),
        None => Ok(Vec::new(alloc)),
    }
}
