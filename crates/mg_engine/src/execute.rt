//! Executes one command on a state.
ghost use Rattle.std.specs.Prelude.{◌≡◌, IfSome, None, false, length, true, unwrap_or};
ghost use Rattle.mg_engine.specs.Commands.{is_write, shards_after};
ghost use Rattle.mg_engine.specs.Execution.{Answers};
ghost use Rattle.mg_engine.specs.Settled.{IsSettled, reply_made, settled_of};
ghost use Rattle.mg_engine.specs.Stands.{StateStandsFor};
ghost use Rattle.mg_engine.specs.View.{command_view, reply_view};
ghost use Rattle.mg_engine.specs.World.{World};

use crate::command::Command;
use crate::context::Context;
use crate::prepared::{Prepared, Task};
use crate::reply::Reply;
use crate::state::State;
use mg_scan::Gate;
use mg_shard::Placement;
use mg_value::NoMemory;
use std::thread::Threads;

impl State {
    /// Executes a command. Returns the reply, and the next state if the command is a write and was accepted. If an allocation fails, or if
    /// there are too many references to a part of this state, the reply is `NoMemory`, without a next state. A query passes the gate where
    /// `Engine::answer_by` says.
    pub(crate) fn execute<P: Placement, R: Threads + Sync, G: Gate + Sync>(
        &self,
        context: &Context<'_, R, G>,
        placement: &P,
        command: &Command,
    ) -> (Reply, Option<State>)
        ensures answers { (w : World) → StateStandsFor (P.place placement.now) self.now w
            → Answers w (command_view command.now) (reply_view result.0)
            (StateStandsFor (P.place placement.now) (unwrap_or result.1 self.now)) }
        ensures write { is_write (command_view command.now) ≡ true → IsSettled result.0 result.1 }
        ensures read { is_write (command_view command.now) ≡ false → result.1 ≡ None }
        ensures number { IfSome (reply_view result.0) (λ _. length (unwrap_or result.1 self.now).shards
            ≡ shards_after (length self.now.shards) (command_view command.now)) }
    {
        match command {
            Command::Bulk(body) => answer_write(self.bulk(context.alloc, placement, body)),
            Command::PackedBulk(body) => answer_write(self.packed_bulk(
                context.alloc,
                placement,
                body,
            )),
            Command::CreateIndex(body) => answer_write(self.create_index(context, body)),
            Command::DropIndex { ddoc, name } => answer_write(self.drop_index(
                context.alloc,
                ddoc,
                name,
            )),
            Command::ListIndexes => answer_read(self.list_indexes(context.alloc)),
            Command::Find(body) => answer_read(self.find(context, body)),
            Command::Explain(body) => answer_read(self.explain(context.alloc, body)),
            Command::Get { id, conflicts } => answer_read(self.get(
                context.alloc,
                placement,
                id,
                *conflicts,
            )),
            Command::Reshard(body) => answer_write(self.reshard(context, placement, body)),
        }
    }

    /// Executes a prepared command as `execute` does.
    pub(crate) fn execute_prepared<P: Placement, R: Threads + Sync, G: Gate + Sync>(
        &self,
        context: &Context<'_, R, G>,
        placement: &P,
        prepared: Prepared,
    ) -> (Reply, Option<State>)
        ensures answers { (w : World) → StateStandsFor (P.place placement.now) self.now w
            → Answers w prepared (reply_view result.0)
            (StateStandsFor (P.place placement.now) (unwrap_or result.1 self.now)) }
        ensures write { is_write prepared ≡ true → IsSettled result.0 result.1 }
        ensures number { IfSome (reply_view result.0) (λ _. length (unwrap_or result.1 self.now).shards
            ≡ shards_after (length self.now.shards) prepared) }
    {
        let Prepared { given: _, task } = prepared;
        match task {
            Task::Apply(read) => answer_write(self.apply(context.alloc, placement, read)),
            Task::Execute(command) => self.execute(context, placement, &command),
        }
    }
}

// Returns what a write made: its reply, and the next state if it was accepted. An error gives `NoMemory` without a next state.
fn answer_write(made: Result<(Reply, Option<State>), NoMemory>) -> (Reply, Option<State>)
    ensures { result ≡ settled_of made }
{
    match made {
        Ok(answered) => answered,
        Err(NoMemory) => (Reply::NoMemory, None),
    }
}

// Returns the reply to a read, without a next state. An error gives `NoMemory`.
fn answer_read(made: Result<Reply, NoMemory>) -> (Reply, Option<State>)
    ensures { result ≡ (reply_made made, None) }
{
    match made {
        Ok(reply) => (reply, None),
        Err(NoMemory) => (Reply::NoMemory, None),
    }
}
