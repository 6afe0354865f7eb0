//! The new shards of a `redeal`.
ghost use Rattle.std.specs.Prelude.{◌≡◌, IfOk, length};
ghost use Rattle.std.specs.List.{AllByRecursion};
ghost use Rattle.mg_index.specs.Catalog.{IsCatalog};
ghost use Rattle.mg_shard.specs.Documents.{kept_documents};
ghost use Rattle.mg_shard.specs.Index.{HasRows, definitions_of};
ghost use Rattle.mg_shard.specs.Redealt.{AreMade, IsMade, documents_view};

use crate::document::Document;
use crate::document_pages::DocumentPages;
use crate::extracted::share_of;
use crate::index_entry::IndexEntry;
use crate::index_list::list_in_pages;
use crate::placed::documents_at;
use crate::shard::Shard;
use mg_index::IndexDef;
use mg_pages::{Pages, Shared};
use mg_value::NoMemory;
use rayon::prelude::*;
use std::alloc::Global;
use std::thread::Threads;

// Makes an index of a shard's documents. It shares the definition.
fn index_over(alloc: Global, shard: &Shard, definition: &IndexDef) -> Result<IndexEntry, NoMemory>
    ensures definition { IfOk result (λ x. x.0 ≡ definition.now) }
    ensures rows { IfOk result (λ x. HasRows shard.now.documents x) }
{
    let rows = shard.rows_alone(alloc, definition.columns())?;
    let index = IndexEntry::of(alloc, definition.copy()?, rows)?;
    Ok(index)
}

// Makes indexes of a shard's documents, with the definitions of `indexes`.
fn indexes_over(
    alloc: Global,
    shard: &Shard,
    indexes: &[IndexEntry],
) -> Result<Vec<IndexEntry>, NoMemory>
    ensures definitions { IfOk result (λ v. definitions_of v.items ≡ definitions_of indexes.now) }
    ensures rows { IfOk result (λ v. AllByRecursion (HasRows shard.now.documents) v.items) }
{
    let mut all = Vec::with_capacity(alloc, indexes.len())?;
    for index in indexes {
        all.push(index_over(alloc, shard, index.definition())?)?;
    }
    Ok(all)
}

// Makes a shard of these documents, with the definitions of `indexes`.
fn index_documents(
    alloc: Global,
    documents: Pages<Shared<Document>>,
    indexes: &[IndexEntry],
) -> Result<Shard, NoMemory>
    requires { IsCatalog (definitions_of indexes.now) }
    ensures documents { IfOk result (λ s. s.documents ≡ kept_documents documents) }
    ensures definitions { IfOk result (λ s. s.definitions ≡ definitions_of indexes.now) }
{
    let documents = DocumentPages::of(alloc, documents)?;
    let unindexed = Shard {
        documents: documents.share(alloc)?,
        indexes: Pages::new(alloc),
    };
    let own = indexes_over(alloc, &unindexed, indexes)?;
    let indexes = list_in_pages(alloc, &own)?;
    Ok(Shard { documents, indexes })
}

// Makes the new shard with the number `place`: the documents that go there, with the definitions of `indexes`.
fn make_shard(
    alloc: Global,
    documents: &[&Shared<Document>],
    places: &[usize],
    indexes: &[IndexEntry],
    place: usize,
) -> Result<Shard, NoMemory>
    requires number { length places.now ≡ length documents.now }
    requires catalog { IsCatalog (definitions_of indexes.now) }
    ensures { IfOk result (IsMade (documents_view documents.now) places.now
        (definitions_of indexes.now) place) }
{
    let there = documents_at(alloc, documents, places, place)?;
    index_documents(alloc, there, indexes)
}

/// Makes `count` new shards one after the other, by the caller's thread: each has those of the documents whose place is its number, with the
/// definitions of `indexes`.
///
/// Errors: `NoMemory` if an allocation fails.
pub(crate) fn make_in_turn(
    alloc: Global,
    documents: &[&Shared<Document>],
    places: &[usize],
    indexes: &[IndexEntry],
    count: usize,
) -> Result<Vec<Shard>, NoMemory>
    requires number { length places.now ≡ length documents.now }
    requires catalog { IsCatalog (definitions_of indexes.now) }
    ensures number { IfOk result (λ v. length v.items ≡ count) }
    ensures made { IfOk result
        (λ v. AreMade (documents_view documents.now) places.now (definitions_of indexes.now) v.items) }
{
    let mut shards = Vec::with_capacity(alloc, count)?;
    for i in 0..count {
        shards.push(make_shard(alloc, documents, places, indexes, i)?)?;
    }
    Ok(shards)
}

/// Makes what `make_in_turn` makes, by at most `workers` threads, the caller's among them: each makes some of the shards.
///
/// Errors: `NoMemory` if an allocation fails.
pub(crate) fn make_by_threads<R: Threads + Sync>(
    rt: &R,
    alloc: Global,
    documents: &[&Shared<Document>],
    places: &[usize],
    indexes: &[IndexEntry],
    count: usize,
    workers: usize,
) -> Result<Vec<Shard>, NoMemory>
    requires number { length places.now ≡ length documents.now }
    requires catalog { IsCatalog (definitions_of indexes.now) }
    ensures number { IfOk result (λ v. length v.items ≡ count) }
    ensures made { IfOk result
        (λ v. AreMade (documents_view documents.now) places.now (definitions_of indexes.now) v.items) }
{
    let made: Result<Vec<Shard>, NoMemory> = (0..count)
        .into_par_iter()
        .with_min_len(share_of(count, workers))
        .map(
            |place: usize| -> Result<Shard, NoMemory>
                requires { (length places.now ≡ length documents.now) × IsCatalog (definitions_of indexes.now) }
                ensures { IfOk result (IsMade (documents_view documents.entry.now) places.entry.now
                    (definitions_of indexes.entry.now) place) }
            { make_shard(alloc, documents, places, indexes, place) },
        )
        .collect(rt, alloc)?;
    made
}
