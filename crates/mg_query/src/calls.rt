//! The library's surface, for callers other than this program: a page as values.
ghost use Rattle.std.specs.Prelude.{◌≡◌, ◌+◌, ◌<◌, ◌≤◌, List, Err, IfOk, length, map};
ghost use Rattle.mg_value.specs.View.{view};
ghost use Rattle.mg_index.specs.Definition.{Steps};
ghost use Rattle.mg_shard.specs.Shard.{HaveIndexes, shards_view};
ghost use Rattle.mg_shard.specs.Dealt.{Placing, ShardsStandFor};
ghost use Rattle.mg_shard.specs.Histories.{Histories};
ghost use Rattle.mg_query.specs.Page.{Candidate, Unanswered, answer_of, candidates_of, served_by, shown_of};
ghost use Rattle.mg_query.specs.Paged.{IsWorkWithin, handed_of, page_view};
ghost use Rattle.mg_query.specs.Lent.{LendEach};
ghost use Rattle.mg_query.specs.View.{query_view};
ghost use Rattle.mg_query.specs.Served.{PageAnswers, HaveIdsAndRevs, error_of};

use crate::answer::last_bookmark;
use crate::error::PageError;
use crate::found::find;
use crate::query::Query;
use crate::shown::{Page, show};
use mg_index::Catalog;
use mg_merge::Work;
use mg_scan::{Gate, Hit, Workers};
use mg_shard::Shard;
use mg_value::{Json, NoMemory};
use std::alloc::Global;
use std::sync::Arc;
use std::thread::Threads;

/// Returns the page that answers a query over the indexes of the catalog. Also returns how many rows each shard handed over for it (all
/// that the query finds there, but at most skip + limit), and how many of these were merged. Each shard must have the indexes of the
/// catalog; other indexes that it has are ignored. Each document must have an object as its body. The page does not depend on the number of
/// workers, from 1 to 32, nor on how documents are placed on shards. The gate is passed before a shard's first row is read, and after the
/// last row that is read unless an allocation fails in that shard.
///
/// Errors: `NoUsableIndex` if no index serves the query, then `BadBookmark` if its bookmark is of another index, direction or number of
/// columns; otherwise `NoMemory` if an allocation fails. Cost: the choice of the index; a thread for each worker but one, with at most as many
/// workers as shards; in each shard a look-up of where to begin, then, until skip + limit hits are found, for each row of an index a
/// look-up of its document, and for each document the selector; the merge of the hits; copies of what is shown. Source: `_find` of
/// CouchDB's API reference.
pub fn page<R: Threads + Sync, G: Gate + Sync>(
    rt: &R,
    alloc: Global,
    query: &Query<'_>,
    catalog: &Catalog,
    shards: &[Arc<Shard>],
    workers: usize,
    gate: &G,
) -> Result<(Page, Work), PageError>
    requires workers { (0 < workers) × (workers ≤ 32) }
    requires indexes { HaveIndexes catalog.now (shards_view shards.now) }
    ensures answers { (place : Placing) (hs : Histories)
        → ShardsStandFor place (shards_view shards.now) hs → HaveIdsAndRevs (candidates_of hs)
        → PageAnswers (λ r. page_view r.0) result
        (answer_of catalog.now (query_view query.now) (candidates_of hs)) }
    ensures refused { (why : Unanswered) → served_by catalog.now (query_view query.now) ≡ Err why
        → result ≡ Err (error_of why) }
    ensures work { IfOk result
        (λ r. IsWorkWithin (length shards.now) (query.now.skip + query.now.limit) r.1) }
    ensures handed { (place : Placing) (hs : Histories)
        → ShardsStandFor place (shards_view shards.now) hs → HaveIdsAndRevs (candidates_of hs)
        → PageAnswers (λ r. r.1.handed) result
        (handed_of catalog.now (query_view query.now) place (length shards.now) hs) }
{
    let found = find(
        rt,
        alloc,
        query,
        catalog,
        shards,
        Workers::exactly(workers),
        gate,
    )?;
    let hits = found.page.shown();
    let docs = show_all(alloc, query, hits)?;
    let bookmark = last_bookmark(alloc, query, found.source, hits)?;
    Ok((Page { docs, bookmark }, found.page.reads.work()))
}

// Makes what the page shows of the documents of these hits. Errors: `NoMemory` if an allocation fails.
fn show_all(alloc: Global, query: &Query<'_>, hits: &[Hit<'_>]) -> Result<Vec<Json>, NoMemory>
    ensures { IfOk result (λ v. (columns : List Steps) (cs : List Candidate) → LendEach columns hits.now cs
        → map view v.items ≡ map (shown_of (query_view query.now)) cs) }
{
    let mut docs = Vec::with_capacity(alloc, hits.len())?;
    for hit in hits {
        let doc = show(alloc, query, hit)?;
        docs.push(doc)?;
    }
    Ok(docs)
}
