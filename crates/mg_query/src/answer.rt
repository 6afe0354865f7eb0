//! The page that answers a query: as values, as text, and lent.
ghost use Rattle.std.specs.Prelude.{◌≡◌, ◌+◌, ◌<◌, ◌||◌, List, Ok, Err, true, IfOk, length, map, nat_lt, string_bytes};
ghost use Rattle.mg_value.specs.Text.{compact};
ghost use Rattle.mg_bookmark.specs.Bookmark.{spelled};
ghost use Rattle.mg_index.specs.Choice.{Source as IndexChosen};
ghost use Rattle.mg_index.specs.Definition.{Steps};
ghost use Rattle.mg_scan.specs.Hit.{hit_row};
ghost use Rattle.mg_shard.specs.Shard.{HaveIndexes, shards_view};
ghost use Rattle.mg_shard.specs.Dealt.{Placing, ShardsStandFor};
ghost use Rattle.mg_shard.specs.Histories.{Histories};
ghost use Rattle.mg_query.specs.Page.{Candidate, Unanswered, answer_of, bookmark_after, candidates_of, source_columns, ddoc_of, name_of, page_of, page_value, served_by, shown_of};
ghost use Rattle.mg_query.specs.Paged.{lent_page_view, shown_view, text_of};
ghost use Rattle.mg_query.specs.Lent.{LendEach};
ghost use Rattle.mg_query.specs.Read.{IsReadOf, IsReadWithin, is_pulled};
ghost use Rattle.mg_query.specs.View.{query_view};
ghost use Rattle.mg_query.specs.Served.{PageAnswers, HaveIdsAndRevs, error_of, source_view};

use crate::error::PageError;
use crate::found::find;
use crate::query::Query;
use crate::reads::Reads;
use crate::shown::{LentPage, Shown, bookmark_of, lend};
use crate::source::Source;
use crate::text::text_with;
use mg_collate::Direction;
use mg_index::Catalog;
use mg_scan::{Gate, Hit, Workers};
use mg_shard::Shard;
use mg_value::NoMemory;
use std::alloc::Global;
use std::sync::Arc;
use std::thread::Threads;

/// Writes the compact text of the page that answers a query, `{"bookmark":..,"docs":[..]}`, and tells how much was read for it. The shards and
/// documents must be as for `page`.
/// If the query shows documents whole and without conflicts, the texts that shards keep of them are copied. If the number of workers is a
/// maximum, the search runs on the caller's thread, and passes no gate, in each of these cases: there is one worker; there are fewer than
/// two shards; a second thread is expected to cost more than it saves.
///
/// Errors: those of `page`. Cost: that of `page`, but documents whose texts are copied are not made into values; with several workers and
/// several shards, also that of `mg_scan::reads_at_most`. On the caller's thread, all shards together find at most skip + limit hits and
/// one more for each shard, and read no further. If moreover the range of the index decides the whole selector, documents are looked up
/// only for the hits that the page shows, and most rows that a long skip passes are counted and not read.
pub fn page_text<R: Threads + Sync, G: Gate + Sync>(
    rt: &R,
    alloc: Global,
    query: &Query<'_>,
    catalog: &Catalog,
    shards: &[Arc<Shard>],
    workers: Workers,
    gate: &G,
) -> Result<(Vec<u8>, Reads), PageError>
    requires indexes { HaveIndexes catalog.now (shards_view shards.now) }
    ensures answers { (place : Placing) (hs : Histories)
        → ShardsStandFor place (shards_view shards.now) hs → HaveIdsAndRevs (candidates_of hs)
        → PageAnswers (λ made. made.0.items) result
        (text_of (answer_of catalog.now (query_view query.now) (candidates_of hs))) }
    ensures refused { (why : Unanswered) → served_by catalog.now (query_view query.now) ≡ Err why
        → result ≡ Err (error_of why) }
    ensures within { IfOk result (λ made. IsReadWithin (length shards.now)
        (query.now.skip + query.now.limit) made.1) }
    ensures read { (place : Placing) (hs : Histories) (s : IndexChosen)
        → ShardsStandFor place (shards_view shards.now) hs → HaveIdsAndRevs (candidates_of hs)
        → served_by catalog.now (query_view query.now) ≡ Ok s
        → IfOk result (λ made. IsReadOf s query.now place (length shards.now) hs made.1) }
    ensures alone { workers.1 ≡ true → (nat_lt workers.0 2 || nat_lt (length shards.now) 2) ≡ true
        → IfOk result (λ made. is_pulled made.1 ≡ true) }
{
    let found = find(rt, alloc, query, catalog, shards, workers, gate)?;
    let text = write_page(alloc, query, found.source, found.page.shown())?;
    Ok((text, found.page.reads))
}

/// Returns the page that answers a query, as `page` does, but documents that are shown as they are served are lent by their shards. The shards
/// and documents must be as for `page`, and the search is that of `page_text`.
///
/// Errors: those of `page`. Cost: that of `page_text`, but no text is copied, and each document that is shown in part or with its conflicts is
/// made a block.
pub fn lend_page<'a, R: Threads + Sync, G: Gate + Sync>(
    rt: &R,
    alloc: Global,
    query: &'a Query<'_>,
    catalog: &'a Catalog,
    shards: &'a [Arc<Shard>],
    workers: Workers,
    gate: &G,
) -> Result<LentPage<'a>, PageError>
    requires indexes { HaveIndexes catalog.now (shards_view shards.now) }
    ensures answers { (place : Placing) (hs : Histories)
        → ShardsStandFor place (shards_view shards.now) hs → HaveIdsAndRevs (candidates_of hs)
        → PageAnswers lent_page_view result
        (answer_of catalog.now (query_view query.now) (candidates_of hs)) }
    ensures refused { (why : Unanswered) → served_by catalog.now (query_view query.now) ≡ Err why
        → result ≡ Err (error_of why) }
{
    let found = find(rt, alloc, query, catalog, shards, workers, gate)?;
    let hits = found.page.shown();
    let docs = lend_all(alloc, query, hits)?;
    let bookmark = last_bookmark(alloc, query, found.source, hits)?;
    Ok(LentPage { docs, bookmark })
}

// Writes the text of the page that shows the documents of these hits. Errors: `NoMemory` if an allocation fails.
fn write_page(
    alloc: Global,
    query: &Query<'_>,
    source: Source<'_>,
    hits: &[Hit<'_>],
) -> Result<Vec<u8>, NoMemory>
    ensures { IfOk result (λ text. (cs : List Candidate)
        → LendEach (source_columns (source_view source.entry)) hits.now cs
        → text.items ≡ compact (page_value (page_of (source_view source.entry) (query_view query.now) cs))) }
{
    let bookmark = last_bookmark(alloc, query, source, hits)?;
    text_with(alloc, query, &bookmark, hits)
}

// Lends or makes what the page shows of the documents of these hits. Errors: `NoMemory` if an allocation fails.
fn lend_all<'a>(
    alloc: Global,
    query: &Query<'_>,
    hits: &[Hit<'a>],
) -> Result<Vec<Shown<'a>>, NoMemory>
    ensures { IfOk result (λ v. (columns : List Steps) (cs : List Candidate) → LendEach columns hits.now cs
        → map shown_view v.items ≡ map (shown_of (query_view query.now)) cs) }
{
    let mut docs = Vec::with_capacity(alloc, hits.len())?;
    for hit in hits {
        let doc = lend(alloc, query, hit)?;
        docs.push(doc)?;
    }
    Ok(docs)
}

// Makes the bookmark of the last hit; without a hit, copies the bookmark's text as the query gave it. Errors: `NoMemory`.
pub(crate) fn last_bookmark(
    alloc: Global,
    query: &Query<'_>,
    source: Source<'_>,
    hits: &[Hit<'_>],
) -> Result<String, NoMemory>
    ensures { IfOk result
        (λ t. (cs : List Candidate) → LendEach (source_columns (source_view source.entry)) hits.now cs
        → string_bytes t ≡ bookmark_after (source_view source.entry) (query_view query.now) cs) }
{
    match hits.last() {
        Some(hit) => bookmark_at(alloc, source, query.sort.direction, hit),
        None => Ok(String::from_str(alloc, query.given_bookmark)?),
    }
}

// Makes the bookmark of a hit. Errors: `NoMemory` if an allocation fails.
fn bookmark_at(
    alloc: Global,
    source: Source<'_>,
    direction: Direction,
    hit: &Hit<'_>,
) -> Result<String, NoMemory>
    ensures { IfOk result (λ t. string_bytes t ≡ spelled (record {
      ddoc = ddoc_of (source_view source.entry);
      name = name_of (source_view source.entry);
      direction = direction;
      key = (hit_row hit.now).0;
      id = (hit_row hit.now).1;
    })) }
{
    let key = hit.key(alloc)?;
    let bookmark = bookmark_of(alloc, source, direction, &key, hit.id())?;
    Ok(bookmark)
}
