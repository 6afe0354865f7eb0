//! The rows of a range of ids.
ghost use Rattle.std.specs.Prelude.{◌≡◌, IfOk, Ok, Some, filter, length, map, min, option_map, string_bytes};
ghost use Rattle.mg_shard.specs.Dealt.{Placing, ShardsStandFor};
ghost use Rattle.mg_shard.specs.Documents.{docs_of};
ghost use Rattle.mg_shard.specs.Histories.{Histories};
ghost use Rattle.mg_shard.specs.Shard.{HaveIndexes, shards_view};
ghost use Rattle.mg_query.specs.Page.{candidates_of};
ghost use Rattle.mg_query.specs.Paged.{shown_view};
ghost use Rattle.mg_query.specs.Served.{HaveIdsAndRevs};
ghost use Rattle.mg_query.specs.View.{query_view};
ghost use Rattle.mg_engine.specs.Answering.{MakesAnswer};
ghost use Rattle.mg_engine.specs.Bodies.{line_of};
ghost use Rattle.mg_engine.specs.Counted.{counted_before};
ghost use Rattle.mg_engine.specs.Listing.{comes_before, count_before, offset_of, opposite};
ghost use Rattle.mg_engine.specs.Questions.{doc_count, listed_row, range_answer, range_found, rows_value};
ghost use Rattle.mg_engine.specs.QuestionView.{listing_view};
ghost use Rattle.mg_engine.specs.Stands.{StateStandsFor};
ghost use Rattle.mg_engine.specs.View.{reply_view};
ghost use Rattle.mg_engine.specs.World.{World};

use crate::context::Context;
use crate::database::{add, count_docs};
use crate::fault::Fault;
use crate::listing::Listing;
use crate::query::make_reply;
use crate::range_query::range_json;
use crate::reply::Reply;
use crate::rows::write_rows;
use crate::state::State;
use mg_collate::Direction;
use mg_index::Catalog;
use mg_query::{Query, Shown, lend_page};
use mg_scan::Gate;
use mg_shard::Shard;
use mg_value::NoMemory;
use std::alloc::Global;
use std::sync::Arc;
use std::thread::Threads;

impl State {
    /// Makes the reply with the rows of a range of ids.
    ///
    /// Errors: `NoMemory` if an allocation fails, or as for `add`. Cost: that of the query, in each shard that of `Shard::count_docs_beyond`,
    /// and for each row a look-up of its `_id` and its `_rev` and a copy of the row's text.
    pub(crate) fn list_range<R: Threads + Sync, G: Gate + Sync>(
        &self,
        context: &Context<'_, R, G>,
        listing: &Listing,
    ) -> Result<Reply, NoMemory>
        ensures { IfOk result (λ r. (place : Placing) (w : World) → StateStandsFor place self.now w
            → reply_view r ≡ Some (range_answer w (listing_view listing.now))) }
    {
        let line = range_line(context, &self.catalog, self.indexed_shards(), listing);
        let reply = make_reply(context.alloc, line)?;
        Ok(reply)
    }
}

// Writes the line with the rows of a range. Each shard has the indexes of the catalog. Errors: as for `listed_line`.
fn range_line<R: Threads + Sync, G: Gate + Sync>(
    context: &Context<'_, R, G>,
    catalog: &Catalog,
    shards: &[Arc<Shard>],
    listing: &Listing,
) -> Result<Vec<u8>, Fault>
    requires indexes { HaveIndexes catalog.now (shards_view shards.now) }
    ensures { (place : Placing) (w : World) → ShardsStandFor place (shards_view shards.now) w.docs
        → HaveIdsAndRevs (candidates_of w.docs)
        → w.indexes ≡ catalog.now → MakesAnswer result (range_answer w (listing_view listing.now)) }
{
    let body = range_json(context.alloc, listing)?;
    let query = Query::read(context.alloc, &body)?;
    listed_line(context, catalog, shards, listing, &query)
}

// Writes the line with the rows of the documents that a query finds. Errors: those of `lend_page` and of `rows_line`, as faults.
fn listed_line<R: Threads + Sync, G: Gate + Sync>(
    context: &Context<'_, R, G>,
    catalog: &Catalog,
    shards: &[Arc<Shard>],
    listing: &Listing,
    query: &Query<'_>,
) -> Result<Vec<u8>, Fault>
    requires indexes { HaveIndexes catalog.now (shards_view shards.now) }
    ensures { (place : Placing) (w : World) → ShardsStandFor place (shards_view shards.now) w.docs
        → HaveIdsAndRevs (candidates_of w.docs)
        → w.indexes ≡ catalog.now
        → MakesAnswer result (range_found w (listing_view listing.now) (Ok (query_view query.now))) }
{
    let Context {
        rt,
        alloc,
        workers,
        gate,
    } = context;
    match lend_page(*rt, *alloc, query, catalog, shards, *workers, *gate) {
        Ok(page) => {
            let line = rows_line(*alloc, shards, listing, &page.docs)?;
            Ok(line)
        }
        Err(fault) => Err(Fault::from(fault)),
    }
}

// Writes the line with the rows of these documents. Errors: `NoMemory` if an allocation fails, or as for `add`.
fn rows_line(
    alloc: Global,
    shards: &[Arc<Shard>],
    listing: &Listing,
    docs: &[Shown<'_>],
) -> Result<Vec<u8>, NoMemory>
    ensures { IfOk result (λ line. (place : Placing) (hs : Histories) → ShardsStandFor place (shards_view shards.now) hs
        → line.items ≡ line_of (rows_value (offset_of hs (listing_view listing.now)) (doc_count hs)
        (map (listed_row listing.now.documents) (map shown_view docs.now)))) }
{
    let total = count_docs(shards)?;
    let before = count_before(shards, listing.direction(), &listing.start)?;
    let passed = add(before, listing.skip as usize)?;
    let offset = least(total, passed);
    let line = write_rows(alloc, offset, total, docs, listing.documents)?;
    Ok(line)
}

fn least(a: usize, b: usize) -> usize
    ensures { result ≡ min a b }
{
    if a <= b { a } else { b }
}

// Counts the documents of these shards that come before the start of a range. Errors: as for `add`.
fn count_before(
    shards: &[Arc<Shard>],
    direction: Direction,
    start: &Option<String>,
) -> Result<usize, NoMemory>
    ensures { IfOk result (λ n. (place : Placing) (hs : Histories) → ShardsStandFor place (shards_view shards.now) hs
        → n ≡ count_before direction (option_map string_bytes start.now) hs) }
{
    match start {
        Some(start) => {
            let count = count_before_id(shards, direction, start)?;
            Ok(count)
        }
        None => Ok(0),
    }
}

// Counts the documents of these shards that come before an id. Errors: as for `add`.
fn count_before_id(
    shards: &[Arc<Shard>],
    direction: Direction,
    start: &str,
) -> Result<usize, NoMemory>
    ensures { IfOk result (λ n. n ≡ counted_before direction start.now (shards_view shards.now)) }
{
    let mut count: usize = 0;
    for i in 0..shards.len() {
        let shard: &Shard = &shards[i];
        count = add(count, count_on(shard, direction, start))?;
    }
    Ok(count)
}

// Counts the documents of a shard that come before an id.
fn count_on(shard: &Shard, direction: Direction, start: &str) -> usize
    ensures { result ≡ length (filter (λ d. comes_before direction start.now d.0) (docs_of shard.now.documents)) }
{
    shard.count_docs_beyond(&start, opposite(direction))
}

fn opposite(direction: Direction) -> Direction
    ensures { result ≡ opposite direction }
{
    match direction {
        Direction::Asc => Direction::Desc,
        Direction::Desc => Direction::Asc,
    }
}
