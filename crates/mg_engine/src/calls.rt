//! The library's surface, for callers other than this program: commands by reference, one at a time and as a list.
ghost use Rattle.std.specs.Prelude.{◌≡◌, ◌≤◌, IfOk, IfSome, OnErr, false, map, true, unwrap_or};
ghost use Rattle.mg_engine.specs.Commands.{is_write, reply_of, shards_after, shards_after_all};
ghost use Rattle.mg_engine.specs.Settled.{IsSettled};
ghost use Rattle.mg_engine.specs.World.{World};
ghost use Rattle.mg_engine.specs.View.{command_view, reply_view};
ghost use Rattle.mg_engine.specs.Stands.{Stands, shard_count};
ghost use Rattle.mg_engine.specs.Execution.{Answers, IsExecution, answered_commands};

use crate::command::Command;
use crate::engine::Engine;
use crate::prepared::Prepared;
use crate::reply::Reply;
use mg_scan::{Gate, Workers};
use mg_shard::Placement;
use mg_value::NoMemory;
use std::alloc::Global;
use std::thread::Threads;

impl<P: Placement + Drop> Engine<P> {
    /// Returns the reply to a read; `NoMemory` if an allocation fails. A query is executed by exactly `workers` workers. Unless it is
    /// refused, it passes the gate at `ShardBegun` before it reads the first row of a shard, and at `ShardDone` after the last row. If an
    /// allocation fails in a shard, the gate is not passed at that shard's `ShardDone`. The gate does not change the reply. Cost: as for
    /// `step`.
    pub fn answer<R: Threads + Sync, G: Gate + Sync>(
        &self,
        rt: &R,
        alloc: Global,
        command: &Command,
        workers: usize,
        gate: &G,
    ) -> Reply
        requires read { is_write (command_view command.now) ≡ false }
        requires some { 1 ≤ workers }
        requires most { workers ≤ 32 }
        ensures { (w : World) → Stands P.place self.now w
            → IfSome (reply_view result) (λ a. a ≡ reply_of w (command_view command.now)) }
    {
        self.answer_by(rt, alloc, command, Workers::exactly(workers), gate)
    }

    /// Returns the reply to a write, and the engine after the write if the status is 200 or 201, otherwise `None`. `self` does not change.
    /// The reply is `NoMemory` if an allocation fails, or if there are too many references to a part of the engine. Cost: as for `step`.
    pub fn commit<R: Threads + Sync>(
        &self,
        rt: &R,
        alloc: Global,
        command: &Command,
        workers: usize,
    ) -> (Reply, Option<Engine<P>>)
        requires write { is_write (command_view command.now) ≡ true }
        requires some { 1 ≤ workers }
        requires most { workers ≤ 32 }
        ensures answers { (w : World) → Stands P.place self.now w
            → Answers w (command_view command.now) (reply_view result.0) (Stands P.place (unwrap_or result.1 self.now)) }
        ensures next { IsSettled result.0 result.1 }
        ensures shards { IfSome (reply_view result.0) (λ _. shard_count (unwrap_or result.1 self.now)
            ≡ shards_after (shard_count self.now) (command_view command.now)) }
        ensures placement { IfSome result.1 (λ next. next.0 ≡ self.now.0) }
    {
        match Prepared::of(alloc, command) {
            Ok(prepared) => self.commit_prepared(rt, alloc, prepared, Workers::most(workers)),
            Err(NoMemory) => (Reply::NoMemory, None),
        }
    }

    /// Executes commands in order, and returns one reply for each. A command whose reply is `NoMemory` has changed nothing; the other
    /// replies are the same as if only the other commands had been given.
    ///
    /// Errors: `NoMemory` if the list of replies was refused memory; then no command was executed. Cost: that of `step` for each command.
    pub fn run<R: Threads + Sync>(
        &mut self,
        rt: &R,
        alloc: Global,
        commands: &[Command],
        workers: usize,
    ) -> Result<Vec<Reply>, NoMemory>
        requires some { 1 ≤ workers }
        requires most { workers ≤ 32 }
        ensures run { (w : World) → Stands P.place self.old w → IfOk result
            (λ replies. IsExecution w (map command_view commands.now) (map reply_view replies.items)
            (Stands P.place self.new)) }
        ensures none_run { OnErr result (self.new ≡ self.old) }
        ensures shards { IfOk result (λ replies. shard_count self.new
            ≡ shards_after_all (shard_count self.old)
            (answered_commands (map command_view commands.now) (map reply_view replies.items))) }
        ensures placement { self.new.0 ≡ self.old.0 }
    {
        let mut replies = Vec::with_capacity(alloc, commands.len())?;
        for command in commands {
            let reply = self.step(rt, alloc, command, workers);
            replies.push_reserved(reply);
        }
        Ok(replies)
    }
}
