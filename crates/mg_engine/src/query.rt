//! Queries and their explanations.
ghost use Rattle.std.specs.Prelude.{◌≡◌, IfOk, Ok, Some};
ghost use Rattle.mg_value.specs.View.{view};
ghost use Rattle.mg_shard.specs.Dealt.{Placing, ShardsStandFor};
ghost use Rattle.mg_query.specs.Page.{candidates_of};
ghost use Rattle.mg_query.specs.Query.{query_of};
ghost use Rattle.mg_query.specs.View.{query_view};
ghost use Rattle.mg_query.specs.Served.{HaveIdsAndRevs};
ghost use Rattle.mg_engine.specs.Commands.{Answer, explain, explain_answer, find, answer_of_query, reply_of};
ghost use Rattle.mg_engine.specs.Stands.{StateStandsFor};
ghost use Rattle.mg_shard.specs.Shard.{HaveIndexes, shards_view};
ghost use Rattle.mg_engine.specs.Answering.{MakesAnswer};
ghost use Rattle.mg_engine.specs.View.{reply_view};
ghost use Rattle.mg_engine.specs.World.{World};

use crate::body::{line, with_line_feed};
use crate::context::Context;
use crate::fault::Fault;
use crate::reply::Reply;
use crate::state::State;
use mg_index::Catalog;
use mg_query::{Query, explain, page_text};
use mg_scan::Gate;
use mg_shard::Shard;
use mg_value::{Json, NoMemory};
use std::alloc::Global;
use std::sync::Arc;
use std::thread::Threads;

impl State {
    /// Makes the reply to a query: its page, or its refusal.
    ///
    /// Errors: `NoMemory` if an allocation fails. Cost: the choice of the index, a look-up in each shard, the rows or documents that are
    /// read until the page is found, and the page.
    pub(crate) fn find<R: Threads + Sync, G: Gate + Sync>(
        &self,
        context: &Context<'_, R, G>,
        body: &Json,
    ) -> Result<Reply, NoMemory>
        ensures { IfOk result
            (λ r. (place : Placing) (w : World) → StateStandsFor place self.now w
            → reply_view r ≡ Some (reply_of w (find (view body.now)))) }
    {
        let line = page_line(context, &self.catalog, self.indexed_shards(), body);
        let reply = make_reply(context.alloc, line)?;
        Ok(reply)
    }

    /// Makes the reply that explains a query or refuses it. Errors: `NoMemory` if an allocation fails. Cost: the choice of the index, and
    /// the size of the query.
    pub(crate) fn explain(&self, alloc: Global, body: &Json) -> Result<Reply, NoMemory>
        ensures { IfOk result
            (λ r. (place : Placing) (w : World) → StateStandsFor place self.now w
            → reply_view r ≡ Some (reply_of w (explain (view body.now)))) }
    {
        let line = explanation_line(alloc, &self.name, &self.catalog, body);
        let reply = make_reply(alloc, line)?;
        Ok(reply)
    }
}

// Reads a query and writes the line of its page. Each shard has the indexes of the catalog. Errors: those of `Query::read` and of
// `page_text`, as faults.
fn page_line<R: Threads + Sync, G: Gate + Sync>(
    context: &Context<'_, R, G>,
    catalog: &Catalog,
    shards: &[Arc<Shard>],
    body: &Json,
) -> Result<Vec<u8>, Fault>
    requires indexes { HaveIndexes catalog.now (shards_view shards.now) }
    ensures { (place : Placing) (w : World) → ShardsStandFor place (shards_view shards.now) w.docs
        → HaveIdsAndRevs (candidates_of w.docs)
        → w.indexes ≡ catalog.now → MakesAnswer result (answer_of_query w (query_of (view body.now))) }
{
    let query = Query::read(context.alloc, body)?;
    answer_line(context, catalog, shards, &query)
}

// Writes the line of a query's page. Errors: those of `page_text`, as faults.
fn answer_line<R: Threads + Sync, G: Gate + Sync>(
    context: &Context<'_, R, G>,
    catalog: &Catalog,
    shards: &[Arc<Shard>],
    query: &Query<'_>,
) -> Result<Vec<u8>, Fault>
    requires indexes { HaveIndexes catalog.now (shards_view shards.now) }
    ensures { (place : Placing) (w : World) → ShardsStandFor place (shards_view shards.now) w.docs
        → HaveIdsAndRevs (candidates_of w.docs)
        → w.indexes ≡ catalog.now → MakesAnswer result (answer_of_query w (Ok (query_view query.now))) }
{
    let Context {
        rt,
        alloc,
        workers,
        gate,
    } = context;
    let (text, _) = page_text(*rt, *alloc, query, catalog, shards, *workers, *gate)?;
    let line = with_line_feed(text)?;
    Ok(line)
}

// Reads a query and writes the line that explains it, for a database of this name and catalog. Errors: those of `Query::read` and of
// `mg_query::explain`, as faults.
fn explanation_line(
    alloc: Global,
    name: &str,
    catalog: &Catalog,
    body: &Json,
) -> Result<Vec<u8>, Fault>
    ensures { (w : World) → w.name ≡ name.now → w.indexes ≡ catalog.now
        → MakesAnswer result (explain_answer w (query_of (view body.now))) }
{
    let query = Query::read(alloc, body)?;
    let value = explain(alloc, name, &query, catalog)?;
    Ok(line(alloc, &value)?)
}

/// Makes the reply: status 200 with the body, or the refusal. Errors: `NoMemory` if the body is that error, or if an allocation fails.
pub(crate) fn make_reply(alloc: Global, body: Result<Vec<u8>, Fault>) -> Result<Reply, NoMemory>
    ensures { IfOk result (λ r. (a : Answer) → MakesAnswer body a → reply_view r ≡ Some a) }
{
    match body {
        Ok(body) => Ok(Reply::Full { status: 200, body }),
        Err(Fault::Refused(refusal)) => Ok(Reply::refusing(alloc, refusal)?),
        Err(Fault::NoMemory) => Err(NoMemory),
    }
}
