//! What a query finds for its page: the first hits of all shards together; those that the page skips may be left out.
ghost use Rattle.std.specs.Prelude.{◌≡◌, ◌+◌, ◌||◌, true, false, Err, IfOk, drop, length, nat_lt, option_map};
ghost use Rattle.mg_shard.specs.Shard.{HaveIndexes, shards_view};
ghost use Rattle.mg_shard.specs.Dealt.{Placing, ShardsStandFor};
ghost use Rattle.mg_shard.specs.Histories.{Histories};
ghost use Rattle.mg_query.specs.Plan.{IsPlanOf};
ghost use Rattle.mg_query.specs.Page.{Unanswered, candidates_of, source_columns, page_candidates, served_by};
ghost use Rattle.mg_query.specs.Read.{IsReadOf, IsReadWithin, is_pulled};
ghost use Rattle.mg_query.specs.Lent.{LendEach, row_at};
ghost use Rattle.mg_query.specs.View.{query_view};
ghost use Rattle.mg_query.specs.Served.{PageAnswers, HaveIdsAndRevs, IsInCatalog, error_of, source_view};

use crate::error::PageError;
use crate::page_search::{PageHits, PageSearch};
use crate::query::Query;
use crate::source::{Source, served_by};
use mg_index::Catalog;
use mg_normal::Normal;
use mg_range::KeyRange;
use mg_range::laws::ranges_are_complete;
use mg_rows::RowBytes;
use mg_scan::{Gate, Workers};
use mg_shard::Shard;
use mg_shard::laws::definitions_are_catalogs;
use mg_value::NoMemory;
use std::alloc::Global;
use std::sync::Arc;
use std::thread::Threads;

// The index that serves a query, and the hits of the query's page.
#[derive(Drop)]
pub(crate) struct Found<'a> {
    pub(crate) source: Source<'a>,
    pub(crate) page: PageHits<'a>,
}

// The plan of a query: the index that serves it, its selector in normal form, its range of keys in that index, the row of its bookmark as
// bytes, and `is_decided`: whether the range decides the whole selector.
#[derive(Drop)]
pub(crate) struct Plan<'a> {
    pub(crate) source: Source<'a>,
    pub(crate) normal: &'a Normal,
    pub(crate) range: KeyRange,
    pub(crate) after: Option<RowBytes>,
    pub(crate) is_decided: bool,
}

// Finds the hits of the query's page, over the indexes of the catalog; each shard has these indexes, and maybe others. Hits that the page
// skips may be missing. If the number of workers is a maximum, the caller's thread pulls the hits one by one, as the merge asks for them,
// and passes no gate, in each of these cases: there is one worker; there are fewer than two shards; a second thread is expected to cost more
// than it saves. Otherwise each shard hands over its first hits: at most as many as the page skips and shows. Errors: those of `served_by`,
// and `NoMemory` if an allocation fails.
pub(crate) fn find<'a, R: Threads + Sync, G: Gate + Sync>(
    rt: &R,
    alloc: Global,
    query: &'a Query<'_>,
    catalog: &'a Catalog,
    shards: &'a [Arc<Shard>],
    workers: Workers,
    gate: &G,
) -> Result<Found<'a>, PageError>
    requires indexes { HaveIndexes catalog.now (shards_view shards.now) }
    ensures source { PageAnswers (λ f. source_view f.source) result
        (served_by catalog.now (query_view query.now)) }
    ensures refused { (why : Unanswered) → served_by catalog.now (query_view query.now) ≡ Err why
        → result ≡ Err (error_of why) }
    ensures hits { IfOk result (λ f. (place : Placing) (hs : Histories)
        → ShardsStandFor place (shards_view shards.now) hs → HaveIdsAndRevs (candidates_of hs)
        → LendEach (source_columns (source_view f.source)) (drop f.page.skip f.page.hits.items)
        (page_candidates (source_columns (source_view f.source)) (query_view query.now) (candidates_of hs))) }
    ensures within { IfOk result (λ f. IsReadWithin (length shards.now)
        (query.now.skip + query.now.limit) f.page.reads) }
    ensures read { IfOk result (λ f. (place : Placing) (hs : Histories)
        → ShardsStandFor place (shards_view shards.now) hs → HaveIdsAndRevs (candidates_of hs)
        → IsReadOf (source_view f.source) query.now place (length shards.now) hs f.page.reads) }
    ensures alone { workers.1 ≡ true → (nat_lt workers.0 2 || nat_lt (length shards.now) 2) ≡ true
        → IfOk result (λ f. is_pulled f.page.reads ≡ true) }
    ensures exact { workers.1 ≡ false → IfOk result (λ f. is_pulled f.page.reads ≡ false) }
{
    ranges_are_complete();
    definitions_are_catalogs(shards);
    let plan = plan_of(alloc, query, catalog)?;
    let range = plan.range.in_rows(alloc)?;
    let search = PageSearch {
        query,
        plan: &plan,
        range: &range,
        shards,
    };
    let page = search.page_hits(rt, alloc, workers, gate)?;
    Ok(Found {
        source: plan.source,
        page,
    })
}

// Chooses an index of the catalog for the query, and makes the query's plan. Errors: those of `served_by`, and `NoMemory` for a query that
// an index serves.
fn plan_of<'a>(
    alloc: Global,
    query: &'a Query<'_>,
    catalog: &'a Catalog,
) -> Result<Plan<'a>, PageError>
    ensures answers { PageAnswers (λ a. source_view a.source) result
        (served_by catalog.now (query_view query.now)) }
    ensures refused { (why : Unanswered) → served_by catalog.now (query_view query.now) ≡ Err why
        → result ≡ Err (error_of why) }
    ensures listed { IfOk result (λ a. IsInCatalog catalog.now (source_view a.source)) }
    ensures plan { IfOk result (λ a. IsPlanOf (query_view query.now) a) }
    ensures normal { IfOk result (λ a. a.normal.now ≡ query.now.normal) }
{
    let source = served_by(query, catalog)?;
    let (range, is_decided) = source.range(alloc, &query.normal)?;
    let after = after_row(alloc, query)?;
    Ok(Plan {
        source,
        normal: &query.normal,
        range,
        after,
        is_decided,
    })
}

// Makes the bytes of the row after which the page begins; `None` without a bookmark. Errors: `NoMemory` if an allocation fails.
fn after_row(alloc: Global, query: &Query<'_>) -> Result<Option<RowBytes>, NoMemory>
    ensures { IfOk result (λ after. after ≡ option_map row_at (query_view query.now).bookmark) }
{
    match &query.bookmark {
        Some(bookmark) => Ok(Some(RowBytes::of(alloc, &bookmark.key, &bookmark.id)?)),
        None => Ok(None),
    }
}
