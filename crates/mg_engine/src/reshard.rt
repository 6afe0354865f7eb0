//! Changes the number of shards.
ghost use Rattle.std.specs.Prelude.{◌≡◌, ◌<◌, IfOk, IfSome, List, Some, length, option_map, unwrap_or};
ghost use Rattle.mg_value.specs.Value.{whole};
ghost use Rattle.mg_value.specs.View.{view};
ghost use Rattle.mg_index.specs.Definition.{IndexDefinition};
ghost use Rattle.mg_shard.specs.Dealt.{ShardsStandFor};
ghost use Rattle.mg_shard.specs.Histories.{Histories};
ghost use Rattle.mg_shard.specs.Shard.{shards_view};
ghost use Rattle.mg_engine.specs.Commands.{next, reply_of, reshard, shards_after};
ghost use Rattle.mg_engine.specs.Reshard.{shard_number, shards_asked};
ghost use Rattle.mg_engine.specs.Settled.{IsSettled};
ghost use Rattle.mg_engine.specs.Stands.{HaveRows, StateStandsFor};
ghost use Rattle.mg_engine.specs.View.{reply_view};
ghost use Rattle.mg_engine.specs.World.{World};

use crate::body::done_line;
use crate::context::Context;
use crate::refusal::Refusal;
use crate::reply::Reply;
use crate::shards::wrap_shards;
use crate::state::State;
use mg_shard::{Placement, Shard, redeal_by};
use mg_value::{Json, NoMemory};
use std::sync::Arc;
use std::thread::Threads;

impl State {
    /// Deals the documents to the number of shards that the body asks for. Returns the reply, and the next state. If the body does not ask
    /// for a whole number from 1 to 64, the command is refused as `WrongShape` and there is no next state. The documents, the indexes and
    /// the counter stay as they are.
    ///
    /// Errors: `NoMemory` if an allocation fails, or if there are too many references to a part of this state. Cost: the number of shards
    /// if that number does not change; otherwise the cost of `mg_shard::redeal_by`.
    pub(crate) fn reshard<P: Placement, R: Threads + Sync, G>(
        &self,
        context: &Context<'_, R, G>,
        placement: &P,
        body: &Json,
    ) -> Result<(Reply, Option<State>), NoMemory>
        ensures does { IfOk result (λ r. (w : World) → StateStandsFor (P.place placement.now) self.now w
            → (reply_view r.0 ≡ Some (reply_of w (reshard (view body.now))))
            × StateStandsFor (P.place placement.now) (unwrap_or r.1 self.now)
            (next w (reshard (view body.now)))) }
        ensures settled { IfOk result (λ r. IsSettled r.0 r.1) }
        ensures number { IfOk result (λ r. length (unwrap_or r.1 self.now).shards
            ≡ shards_after (length self.now.shards) (reshard (view body.now))) }
    {
        let Some(count) = shards_asked(body) else {
            return Ok((Reply::refusing(context.alloc, Refusal::WrongShape)?, None));
        };
        let body = done_line(context.alloc)?;
        let next = self.over_shards(context, placement, count)?;
        Ok((Reply::Full { status: 200, body }, Some(next)))
    }

    // Makes the state over `count` shards. If this state has `count` shards already, the result shares all parts of this state.
    fn over_shards<P: Placement, R: Threads + Sync, G>(
        &self,
        context: &Context<'_, R, G>,
        placement: &P,
        count: usize,
    ) -> Result<State, NoMemory>
        requires { 0 < count }
        ensures stands { IfOk result
            (λ s. (w : World) → StateStandsFor (P.place placement.now) self.now w
            → StateStandsFor (P.place placement.now) s w) }
        ensures number { IfOk result (λ s. length s.shards ≡ count) }
    {
        if count == self.shards.len() {
            let state = self.share(context.alloc)?;
            Ok(state)
        } else {
            let shards = deal_shards(context, &self.shards, placement, count)?;
            let state = self.with_shards(shards, self.counter)?;
            Ok(state)
        }
    }
}

// Deals the documents of these shards to `count` new shards, which have the rows of the indexes that these shards have.
fn deal_shards<P: Placement, R: Threads + Sync, G>(
    context: &Context<'_, R, G>,
    shards: &[Arc<Shard>],
    placement: &P,
    count: usize,
) -> Result<Vec<Arc<Shard>>, NoMemory>
    requires { 0 < count }
    ensures number { IfOk result (λ v. length (shards_view v.items) ≡ count) }
    ensures stands { IfOk result
        (λ v. (hs : Histories) → ShardsStandFor (P.place placement.now) (shards_view shards.now) hs
        → ShardsStandFor (P.place placement.now) (shards_view v.items) hs) }
    ensures rows { IfOk result
        (λ v. (ds : List IndexDefinition) → 0 < length shards.now → HaveRows ds (shards_view shards.now)
        → HaveRows ds (shards_view v.items)) }
{
    let workers = context.workers.count();
    let dealt = redeal_by(context.rt, context.alloc, shards, placement, count, workers)?;
    let shards = wrap_shards(context.alloc, dealt)?;
    Ok(shards)
}

// Returns the number of shards that a body asks for in its member `shards`; `None` unless that is a whole number from 1 to 64.
fn shards_asked(body: &Json) -> Option<usize>
    ensures asked { result ≡ shards_asked (view body.now) }
    ensures some { IfSome result (λ n. 0 < n) }
{
    shard_number(body.member("shards"))
}

// Returns the value of the member `shards` as a number of shards; `None` if it is absent, or not a whole number from 1 to 64.
fn shard_number(value: Option<&Json>) -> Option<usize>
    ensures asked { result ≡ shard_number (option_map (λ j. view j.now) value.entry) }
    ensures some { IfSome result (λ n. 0 < n) }
{
    match value {
        Some(Json::Whole(count)) => shards_within(*count),
        _ => None,
    }
}

// Returns a whole number as a number of shards; `None` unless it is from 1 to 64.
fn shards_within(count: i64) -> Option<usize>
    ensures asked { result ≡ shard_number (Some (whole count)) }
    ensures some { IfSome result (λ n. 0 < n) }
{
    if 1 <= count && count <= 64 {
        Some(count as usize)
    } else {
        None
    }
}
