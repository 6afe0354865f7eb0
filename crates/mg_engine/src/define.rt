//! The commands on indexes.
ghost use Rattle.std.specs.Prelude.{◌≡◌, ◌<◌, ◌≤◌, ◌∷◌, codes, IfOk, Ok, Some, true, is_some, length, map, unwrap_or, if◌then◌else◌};
ghost use Rattle.mg_value.specs.View.{view};
ghost use Rattle.mg_index.specs.Definition.{listed_all_docs, listed_of};
ghost use Rattle.mg_index.specs.Catalog.{definition_at, with_definition};
ghost use Rattle.mg_engine.specs.Bodies.{index_value, indexes_value, line_of};
ghost use Rattle.mg_engine.specs.Commands.{create_index, create_answer, drop_index, list_indexes, next, reply_of, world_defined};
ghost use Rattle.mg_engine.specs.Settled.{IsSettled, accepts, shard_without, state_with, state_without};
ghost use Rattle.mg_scan.specs.Built.{with_index};
ghost use Rattle.mg_engine.specs.Stands.{StateStandsFor};
ghost use Rattle.mg_shard.specs.Shard.{shards_view};
ghost use Rattle.mg_engine.specs.View.{reply_view};
ghost use Rattle.mg_engine.specs.World.{World};
ghost use Rattle.mg_shard.specs.Dealt.{Placing};

use crate::body::{done_line, line};
use crate::context::Context;
use crate::fault::Fault;
use crate::refusal::Refusal;
use crate::reply::Reply;
use crate::shards::wrap_shards;
use crate::state::State;
use mg_index::{Catalog, IndexDef, all_docs_listed, design_document};
use mg_scan::{NoGate, Workers, build};
use mg_shard::Shard;
use mg_value::{Json, NoMemory};
use std::alloc::Global;
use std::sync::Arc;
use std::thread::Threads;

// An index over at most this many documents is small: to start a thread for each shard costs more than to read them.
const SMALL_INDEX: usize = 4_000;

impl State {
    /// Creates an index; an index of the same design document and name is replaced. Returns the reply, and the next state. If the body
    /// defines no index, the reply refuses it and there is no next state.
    ///
    /// Errors: `NoMemory` if an allocation fails, or if there are too many references to a part of this state. Cost: the size of the body
    /// and the numbers of indexes and of shards; unless the catalog has an equal definition already, also a copy of the catalog, a step for
    /// each document, and a sort of the rows.
    pub(crate) fn create_index<R: Threads + Sync, G>(
        &self,
        context: &Context<'_, R, G>,
        body: &Json,
    ) -> Result<(Reply, Option<State>), NoMemory>
        ensures does { IfOk result (λ r. (place : Placing) (w : World) → StateStandsFor place self.now w
            → (reply_view r.0 ≡ Some (reply_of w (create_index (view body.now))))
            × StateStandsFor place (unwrap_or r.1 self.now) (next w (create_index (view body.now)))) }
        ensures settled { IfOk result (λ r. IsSettled r.0 r.1) }
        ensures number { IfOk result (λ r. length (unwrap_or r.1 self.now).shards ≡ length self.now.shards) }
    {
        match IndexDef::read(context.alloc, body) {
            Ok(definition) => {
                let (reply, next) = self.define(context, definition)?;
                Ok((reply, Some(next)))
            }
            Err(fault) => match Fault::from(fault) {
                Fault::Refused(refusal) => Ok((Reply::refusing(context.alloc, refusal)?, None)),
                Fault::NoMemory => Err(NoMemory),
            },
        }
    }

    // Makes the reply to a definition, and the state whose catalog has this definition.
    fn define<R: Threads + Sync, G>(
        &self,
        context: &Context<'_, R, G>,
        definition: IndexDef,
    ) -> Result<(Reply, State), NoMemory>
        ensures does { IfOk result (λ r. (place : Placing) (w : World) → StateStandsFor place self.now w
            → (reply_view r.0 ≡ Some (create_answer w (Ok definition)))
            × StateStandsFor place r.1 (world_defined w (Ok definition))) }
        ensures accepted { IfOk result (λ r. accepts r.0 ≡ true) }
        ensures number { IfOk result (λ r. length r.1.shards ≡ length self.now.shards) }
    {
        let there = self.catalog.has(&definition);
        let body = created_line(context.alloc, &definition, there)?;
        let next = self.with_definition(context, definition, there)?;
        Ok((Reply::Full { status: 200, body }, next))
    }

    // Makes the state with a definition. If the catalog has an equal one already (`there`), the result shares all parts of this state.
    fn with_definition<R: Threads + Sync, G>(
        &self,
        context: &Context<'_, R, G>,
        definition: IndexDef,
        there: bool,
    ) -> Result<State, NoMemory>
        requires same { there ≡ true → with_definition definition self.now.catalog ≡ self.now.catalog }
        ensures stands { IfOk result
            (λ s. (place : Placing) (w : World) → StateStandsFor place self.now w
            → StateStandsFor place s (world_defined w (Ok definition))) }
        ensures number { IfOk result (λ s. length s.shards ≡ length self.now.shards) }
    {
        if there {
            let state = self.share(context.alloc)?;
            Ok(state)
        } else {
            let state = self.with_index(context, definition)?;
            Ok(state)
        }
    }

    // Builds an index of this definition on all shards, and makes the state with this index.
    fn with_index<R: Threads + Sync, G>(
        &self,
        context: &Context<'_, R, G>,
        definition: IndexDef,
    ) -> Result<State, NoMemory>
        ensures { IfOk result (λ s. s ≡ state_with definition self.now) }
    {
        let shards = build_on_all(context, &self.shards, &definition)?;
        let mut catalog = self.catalog.copy(context.alloc)?;
        catalog.add(definition)?;
        self.with_catalog(context.alloc, catalog, shards)
    }

    /// Drops an index. `ddoc` may lack `_design/`. Returns the reply, and the next state. If there is no such index, the reply refuses the
    /// command and there is no next state.
    ///
    /// Errors: `NoMemory` if an allocation fails, or if there are too many references to a part of this state. Cost: a look-up in the
    /// catalog; if the index is there, also a copy of the catalog and, for each shard, the cost of `Shard::without_index`.
    pub(crate) fn drop_index(
        &self,
        alloc: Global,
        ddoc: &str,
        name: &str,
    ) -> Result<(Reply, Option<State>), NoMemory>
        ensures does { IfOk result (λ r. (place : Placing) (w : World) → StateStandsFor place self.now w
            → (reply_view r.0 ≡ Some (reply_of w (drop_index ddoc.now name.now)))
            × StateStandsFor place (unwrap_or r.1 self.now) (next w (drop_index ddoc.now name.now))) }
        ensures settled { IfOk result (λ r. IsSettled r.0 r.1) }
        ensures number { IfOk result (λ r. length (unwrap_or r.1 self.now).shards ≡ length self.now.shards) }
    {
        let ddoc = design_document(alloc, ddoc)?;
        if !has_index(&self.catalog, &ddoc, name) {
            return Ok((Reply::refusing(alloc, Refusal::Missing)?, None));
        }
        let body = done_line(alloc)?;
        let next = self.without_index(alloc, &ddoc, name)?;
        Ok((Reply::Full { status: 200, body }, Some(next)))
    }

    // Drops an index from all shards, and makes the state without this index.
    fn without_index(&self, alloc: Global, ddoc: &str, name: &str) -> Result<State, NoMemory>
        ensures { IfOk result (λ s. s ≡ state_without ddoc.now name.now self.now) }
    {
        let shards = drop_from_all(alloc, &self.shards, ddoc, name)?;
        let mut catalog = self.catalog.copy(alloc)?;
        catalog.remove(ddoc, name);
        self.with_catalog(alloc, catalog, shards)
    }

    /// Makes the reply that lists the indexes, `_all_docs` first. Errors: `NoMemory` if an allocation fails. Cost: the bytes of the reply.
    pub(crate) fn list_indexes(&self, alloc: Global) -> Result<Reply, NoMemory>
        ensures { IfOk result
            (λ r. (place : Placing) (w : World) → StateStandsFor place self.now w
            → reply_view r ≡ Some (reply_of w list_indexes)) }
    {
        let indexes = indexes_json(alloc, self.catalog.list())?;
        let body = line(alloc, &indexes)?;
        Ok(Reply::Full { status: 200, body })
    }
}

fn has_index(catalog: &Catalog, ddoc: &str, name: &str) -> bool
    ensures { result ≡ is_some (definition_at ddoc.now name.now catalog.now) }
{
    catalog.find(ddoc, name).is_some()
}

// Makes the value of the reply that lists the indexes, `_all_docs` first.
fn indexes_json(alloc: Global, definitions: &[IndexDef]) -> Result<Json, NoMemory>
    ensures { IfOk result (λ v. view v ≡ indexes_value definitions.now) }
{
    let listed = list_definitions(alloc, definitions)?;
    let rows = listed.len() as i64;
    let mut indexes = Json::empty_object(alloc);
    indexes.insert(alloc, "total_rows", Json::Whole(rows))?;
    indexes.insert(alloc, "indexes", Json::List(listed))?;
    Ok(indexes)
}

// Writes the body of the reply to a definition. The `result` is `exists` if the catalog has an equal definition already (`there`),
// otherwise `created`.
fn created_line(alloc: Global, definition: &IndexDef, there: bool) -> Result<Vec<u8>, NoMemory>
    ensures { IfOk result
        (λ b. b.items
        ≡ line_of (index_value definition.now (if there then codes "exists" else codes "created"))) }
{
    let word = if there { "exists" } else { "created" };
    let mut created = Json::empty_object(alloc);
    created.insert(
        alloc,
        "id",
        Json::Text(String::from_str(alloc, definition.ddoc())?),
    )?;
    created.insert(
        alloc,
        "name",
        Json::Text(String::from_str(alloc, definition.name())?),
    )?;
    created.insert(alloc, "result", Json::Text(String::from_str(alloc, word)?))?;
    line(alloc, &created)
}

// Whether the shards have at most `SMALL_INDEX` documents, deleted ones too.
fn is_small(shards: &[Arc<Shard>]) -> bool {
    let mut left = SMALL_INDEX;
    for shard in shards {
        let count = shard.count_docs().saturating_add(shard.count_deleted());
        if count > left {
            return false;
        }
        left -= count;
    }
    true
}

// Returns how many workers build an index: one if it is small, and the number of workers is only a maximum.
fn count_builders(workers: Workers, shards: &[Arc<Shard>]) -> usize
    ensures { (0 < result) × (result ≤ 32) }
{
    if workers.is_alone(is_small(shards)) {
        return 1;
    }
    workers.count()
}

// Builds an index of this definition on each shard. Returns the shards with it; the given shards do not change.
fn build_on_all<R: Threads + Sync, G>(
    context: &Context<'_, R, G>,
    shards: &[Arc<Shard>],
    definition: &IndexDef,
) -> Result<Vec<Arc<Shard>>, NoMemory>
    ensures { IfOk result
        (λ v. shards_view v.items ≡ map (with_index definition.now) (shards_view shards.now)) }
{
    let alloc = context.alloc;
    let workers = count_builders(context.workers, shards);
    let built = build(context.rt, alloc, shards, definition, workers, &NoGate)?;
    wrap_shards(alloc, built)
}

// Returns the shards without the index of this design document and name; the given shards do not change.
fn drop_from_all(
    alloc: Global,
    shards: &[Arc<Shard>],
    ddoc: &str,
    name: &str,
) -> Result<Vec<Arc<Shard>>, NoMemory>
    ensures { IfOk result
        (λ v. shards_view v.items ≡ map (shard_without ddoc.now name.now) (shards_view shards.now)) }
{
    let mut all = Vec::with_capacity(alloc, shards.len())?;
    for shard in shards {
        all.push(Arc::new(alloc, shard.without_index(alloc, ddoc, name)?)?)?;
    }
    Ok(all)
}

// Returns the entries of the reply that lists the indexes: `_all_docs`, and then each definition.
fn list_definitions(alloc: Global, definitions: &[IndexDef]) -> Result<Vec<Json>, NoMemory>
    ensures { IfOk result (λ v. map view v.items ≡ listed_all_docs ∷ map listed_of definitions.now) }
{
    let mut listed = Vec::new(alloc);
    listed.push(all_docs_listed(alloc)?)?;
    for definition in definitions {
        listed.push(definition.listed(alloc)?)?;
    }
    Ok(listed)
}
