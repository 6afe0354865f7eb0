//! Executes bulks of edits.
ghost use Rattle.std.specs.Prelude.{◌≡◌, IfOk, Some, true, length, unwrap_or};
ghost use Rattle.mg_value.specs.View.{view};
ghost use Rattle.mg_engine.specs.Commands.{Asked, bulk, edits_effect, next, reply_of};
ghost use Rattle.mg_engine.specs.Objects.{BringObjects};
ghost use Rattle.mg_engine.specs.Prepared.{Determines};
ghost use Rattle.mg_engine.specs.Settled.{IsSettled, accepts};
ghost use Rattle.mg_engine.specs.Stands.{StateStandsFor};
ghost use Rattle.mg_engine.specs.View.{reply_view};
ghost use Rattle.mg_engine.specs.World.{World};

mod apply;
mod number;
mod read;
mod reply;

use crate::reply::Reply;
use crate::state::State;
use apply::apply_edits;
use mg_doc::Edit;
use mg_packed::Packed;
use mg_shard::Placement;
use mg_value::{Json, NoMemory};
use number::number_edits;
pub(crate) use read::PreparedBulk;
use reply::entries_line;
use std::alloc::Global;

impl State {
    /// Executes a bulk, whose body is packed first. Returns the reply, and the next state (`None` if the bulk is refused).
    ///
    /// Errors and cost: those of `Packed::of` and of `packed_bulk`.
    pub(crate) fn bulk<P: Placement>(
        &self,
        alloc: Global,
        placement: &P,
        body: &Json,
    ) -> Result<(Reply, Option<State>), NoMemory>
        ensures does { IfOk result (λ r. (w : World) → StateStandsFor (P.place placement.now) self.now w
            → (reply_view r.0 ≡ Some (reply_of w (bulk (view body.now))))
            × StateStandsFor (P.place placement.now) (unwrap_or r.1 self.now)
            (next w (bulk (view body.now)))) }
        ensures settled { IfOk result (λ r. IsSettled r.0 r.1) }
        ensures number { IfOk result (λ r. length (unwrap_or r.1 self.now).shards ≡ length self.now.shards) }
    {
        let body = Packed::of(alloc, body)?;
        self.packed_bulk(alloc, placement, &body)
    }

    /// Executes a bulk, whose documents are read in place. Returns the reply, and the next state (`None` if the bulk is refused).
    ///
    /// Errors: `NoMemory` if an allocation fails, or if there are too many references to a part of this state. Cost: that of
    /// `PreparedBulk::of` and of `apply`.
    pub(crate) fn packed_bulk<P: Placement>(
        &self,
        alloc: Global,
        placement: &P,
        body: &Packed,
    ) -> Result<(Reply, Option<State>), NoMemory>
        ensures does { IfOk result (λ r. (w : World) → StateStandsFor (P.place placement.now) self.now w
            → (reply_view r.0 ≡ Some (reply_of w (bulk body.now)))
            × StateStandsFor (P.place placement.now) (unwrap_or r.1 self.now)
            (next w (bulk body.now))) }
        ensures settled { IfOk result (λ r. IsSettled r.0 r.1) }
        ensures number { IfOk result (λ r. length (unwrap_or r.1 self.now).shards ≡ length self.now.shards) }
    {
        let read = PreparedBulk::of(alloc, body)?;
        self.apply(alloc, placement, read)
    }

    /// Executes a bulk whose body was read. Returns the reply, and the next state (`None` if the bulk is refused). The contract holds for
    /// every command whose effect `read` determines.
    ///
    /// Errors: `NoMemory` if an allocation fails, or if there are too many references to a part of this state. Cost: that of
    /// `apply_edits`, and the length of the reply.
    pub(crate) fn apply<P: Placement>(
        &self,
        alloc: Global,
        placement: &P,
        read: PreparedBulk,
    ) -> Result<(Reply, Option<State>), NoMemory>
        ensures does { IfOk result
            (λ r. (c : Asked) → Determines read c → (w : World)
            → StateStandsFor (P.place placement.now) self.now w
            → (reply_view r.0 ≡ Some (reply_of w c))
            × StateStandsFor (P.place placement.now) (unwrap_or r.1 self.now) (next w c)) }
        ensures settled { IfOk result (λ r. IsSettled r.0 r.1) }
        ensures number { IfOk result (λ r. length (unwrap_or r.1 self.now).shards ≡ length self.now.shards) }
    {
        match read {
            PreparedBulk::Edits { new_edits, edits } => {
                let (reply, next) = self.accept(alloc, placement, new_edits, edits)?;
                Ok((reply, Some(next)))
            }
            PreparedBulk::Refused(refusal) => Ok((Reply::refusing(alloc, refusal)?, None)),
        }
    }

    // Executes the edits of an accepted bulk. Returns the reply and the next state.
    fn accept<P: Placement>(
        &self,
        alloc: Global,
        placement: &P,
        new_edits: bool,
        edits: Vec<Edit>,
    ) -> Result<(Reply, State), NoMemory>
        ensures reply { IfOk result (λ r. (w : World) → StateStandsFor (P.place placement.now) self.now w
            → reply_view r.0 ≡ Some (edits_effect w new_edits edits.items).answer) }
        ensures holds { IfOk result
            (λ r. (w : World) → BringObjects edits.items → StateStandsFor (P.place placement.now) self.now w
            → StateStandsFor (P.place placement.now) r.1 (edits_effect w new_edits edits.items).world) }
        ensures accepted { IfOk result (λ r. accepts r.0 ≡ true) }
        ensures number { IfOk result (λ r. length r.1.shards ≡ length self.now.shards) }
    {
        let (edits, counter) = number_edits(alloc, edits, self.counter)?;
        let (outcomes, shards) = apply_edits(alloc, placement, &self.shards, edits)?;
        let body = entries_line(alloc, new_edits, &outcomes)?;
        let next = self.with_shards(shards, counter)?;
        Ok((Reply::Full { status: 201, body }, next))
    }
}
