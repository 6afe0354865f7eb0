ghost use Rattle.std.specs.Prelude.{◌≡◌, ◌≤◌, All, IfOk, IfNone, IfSome, false, true, unwrap_or};
ghost use Rattle.mg_engine.specs.Commands.{is_write, reply_of, shards_after};
ghost use Rattle.mg_engine.specs.Questions.{answer_to, doc_count};
ghost use Rattle.mg_engine.specs.QuestionView.{question_view};
ghost use Rattle.mg_engine.specs.Settled.{IsSettled};
ghost use Rattle.mg_engine.specs.World.{World, empty_world};
ghost use Rattle.mg_engine.specs.View.{command_view, reply_view};
ghost use Rattle.mg_engine.specs.Stands.{Stands, shard_count};
ghost use Rattle.mg_shard.specs.Shard.{shards_view};
ghost use Rattle.mg_engine.specs.Execution.{Answers};

use crate::command::Command;
use crate::context::Context;
use crate::database::count_docs;
use crate::prepared::Prepared;
use crate::question::Question;
use crate::reply::Reply;
use crate::state::State;
use mg_index::Catalog;
use mg_scan::{Gate, NoGate, Workers};
use mg_shard::{Placement, Shard};
use mg_value::NoMemory;
use std::alloc::Global;
use std::marker::Model;
use std::sync::Arc;
use std::thread::Threads;

/// A database for one caller: documents placed on shards, and indexes over them. It executes commands. A write makes a new state, which
/// shares with the old one all that the write does not change.
#[derive(Drop)]
pub struct Engine<P> {
    placement: Arc<P>,
    state: State,
}

impl<P> Model for Engine<P> {
    ghost use Rattle.std.specs.Arc.{arc_value};
    ghost use Rattle.std.specs.Coded.{coded×};
    ghost use Rattle.mg_engine.specs.Stands.{StateView, state_view_code};

    ghost Value = { P × StateView };

    ghost coded = { coded× P.code state_view_code };

    ghost view = { λ e. (arc_value e.placement, e.state) };
}

impl<P: Placement + Drop> Engine<P> {
    /// Makes an empty database named `db`, with 1 to 64 shards. `Command::Reshard` can change their number later.
    ///
    /// Errors: `NoMemory` if an allocation fails. Cost: the number of shards, and the name.
    pub fn new(alloc: Global, db: &str, placement: P, shards: usize) -> Result<Engine<P>, NoMemory>
        requires some { 1 ≤ shards }
        requires most { shards ≤ 64 }
        ensures stands { IfOk result (λ e. Stands P.place e (empty_world db.now)) }
        ensures shards { IfOk result (λ e. shard_count e ≡ shards) }
        ensures placement { IfOk result (λ e. e.0 ≡ placement) }
    {
        let placement = Arc::new(alloc, placement)?;
        let state = State::new(alloc, db, shards)?;
        Ok(Engine { placement, state })
    }

    /// Executes one command and returns its reply. If an allocation fails, or if there are too many references to a part of the engine, the
    /// reply is `NoMemory` and nothing changes.
    ///
    /// The number of workers, 1 to 32, does not change the reply. For a query it is a maximum: a query that is not worth a second thread
    /// runs on the thread of the caller. So it is for a new index and a reshard, as `mg_scan::build` and `mg_shard::redeal_by` say.
    ///
    /// Cost: a bulk costs its edits, each with its document and its rows. A query costs its page, and the rows of its index that it reads
    /// until the page is found; if the index of all documents serves it, the documents that it reads. A new index, or another number of
    /// shards, costs every document. Dropping an index costs a copy of the catalog, the top level of the pages of each shard, and the rows
    /// of the index unless another engine shares them. Every other command costs its reply, and a look-up or the choice of an index.
    pub fn step<R: Threads + Sync>(
        &mut self,
        rt: &R,
        alloc: Global,
        command: &Command,
        workers: usize,
    ) -> Reply
        requires some { 1 ≤ workers }
        requires most { workers ≤ 32 }

        // For each world that the engine stands for, the reply is the one that the definitions give, and the engine
        // then stands for the world that the command leaves; or memory was refused, and it stands for the same world.
        ensures answers { (w : World) → Stands P.place self.old w
            → Answers w (command_view command.now) (reply_view result) (Stands P.place self.new) }
        ensures refused { IfNone (reply_view result) (self.new ≡ self.old) }
        ensures shards { IfSome (reply_view result)
            (λ _. shard_count self.new ≡ shards_after (shard_count self.old) (command_view command.now)) }
        ensures placement { self.new.0 ≡ self.old.0 }
    {
        let context = Context {
            rt,
            alloc,
            workers: Workers::most(workers),
            gate: &NoGate,
        };
        let (reply, next) = self.state.execute(&context, &*self.placement, command);
        if let Some(next) = next {
            self.state = next;
        }
        reply
    }

    /// Does what `step` does, but takes the command by value: the body of a bulk is dropped once its documents are read. Cost: as for
    /// `step`.
    pub fn execute<R: Threads + Sync>(
        &mut self,
        rt: &R,
        alloc: Global,
        command: Command,
        workers: usize,
    ) -> Reply
        requires some { 1 ≤ workers }
        requires most { workers ≤ 32 }
        ensures answers { (w : World) → Stands P.place self.old w
            → Answers w (command_view command) (reply_view result) (Stands P.place self.new) }
        ensures refused { IfNone (reply_view result) (self.new ≡ self.old) }
        ensures shards { IfSome (reply_view result)
            (λ _. shard_count self.new ≡ shards_after (shard_count self.old) (command_view command)) }
        ensures placement { self.new.0 ≡ self.old.0 }
    {
        if !command.is_write() {
            return self.step(rt, alloc, &command, workers);
        }
        let Ok(prepared) = Prepared::of(alloc, &command) else {
            return Reply::NoMemory;
        };
        drop(command);
        let (reply, next) = self.commit_prepared(rt, alloc, prepared, Workers::most(workers));
        if let Some(next) = next {
            *self = next;
        }
        reply
    }

    /// Does what `answer` does, but the number of workers may be a maximum. Then a query over one shard, with one worker, or not worth a
    /// second thread runs on the thread of the caller and passes no gate.
    pub fn answer_by<R: Threads + Sync, G: Gate + Sync>(
        &self,
        rt: &R,
        alloc: Global,
        command: &Command,
        workers: Workers,
        gate: &G,
    ) -> Reply
        requires read { is_write (command_view command.now) ≡ false }
        ensures { (w : World) → Stands P.place self.now w
            → IfSome (reply_view result) (λ a. a ≡ reply_of w (command_view command.now)) }
    {
        let context = Context {
            rt,
            alloc,
            workers,
            gate,
        };
        let (reply, _) = self.state.execute(&context, &*self.placement, command);
        reply
    }

    /// Returns the reply to a question, at a point of the log with this many commits; `NoMemory` if an allocation fails, or if there are more
    /// than 9,223,372,036,854,775,807 documents. The workers are those of `answer_by`. Cost: for `Database` the number of shards; for `Leaf`
    /// and `Winner` the placement, one look-up in one shard, a copy of the body, and that of `RevTree::ancestry` if the path is shown; for
    /// `Keys` the number of shards, and for each id the placement, one look-up, and a copy of the body if documents are asked for; for `Range`
    /// that of its query, and in each shard that of `Shard::count_docs_beyond`.
    pub fn look<R: Threads + Sync>(
        &self,
        rt: &R,
        alloc: Global,
        question: &Question,
        commits: u64,
        workers: Workers,
    ) -> Reply
        ensures { (w : World) → Stands P.place self.now w
            → IfSome (reply_view result) (λ a. a ≡ answer_to w commits (question_view question.now)) }
    {
        let context = Context {
            rt,
            alloc,
            workers,
            gate: &NoGate,
        };
        match self
            .state
            .look(&context, &*self.placement, question, commits)
        {
            Ok(reply) => reply,
            Err(NoMemory) => Reply::NoMemory,
        }
    }

    /// Does what `commit` does, for a command that `Prepared::of` has prepared. Cost: as for `step`, but without the reading of a
    /// bulk's documents.
    pub fn commit_prepared<R: Threads + Sync>(
        &self,
        rt: &R,
        alloc: Global,
        prepared: Prepared,
        workers: Workers,
    ) -> (Reply, Option<Engine<P>>)
        requires write { is_write prepared ≡ true }
        ensures answers { (w : World) → Stands P.place self.now w
            → Answers w prepared (reply_view result.0) (Stands P.place (unwrap_or result.1 self.now)) }
        ensures next { IsSettled result.0 result.1 }
        ensures shards { IfSome (reply_view result.0) (λ _. shard_count (unwrap_or result.1 self.now)
            ≡ shards_after (shard_count self.now) prepared) }
        ensures placement { IfSome result.1 (λ next. next.0 ≡ self.now.0) }
    {
        let Ok(placement) = self.placement.clone() else {
            return (Reply::NoMemory, None);
        };
        let context = Context {
            rt,
            alloc,
            workers,
            gate: &NoGate,
        };
        match self
            .state
            .execute_prepared(&context, &*self.placement, prepared)
        {
            (reply, Some(state)) => (reply, Some(Engine { placement, state })),
            (reply, None) => (reply, None),
        }
    }

    /// Counts the documents that are not deleted; `None` if there are more than a `usize` counts. Takes no memory. Cost: the number of
    /// shards.
    pub fn count(&self) -> Option<usize>
        ensures { (w : World) → Stands P.place self.now w → IfSome result (λ n. n ≡ doc_count w.docs) }
    {
        match count_docs(self.shards()) {
            Ok(count) => Some(count),
            Err(NoMemory) => None,
        }
    }

    /// Returns the catalog of the indexes. Takes no memory.
    pub fn catalog(&self) -> &Catalog
        ensures { result.now ≡ self.now.1.catalog }
    {
        &self.state.catalog
    }

    /// Returns the shards. Each has the rows of the indexes of the catalog, and of no other index. Takes no memory.
    pub fn shards(&self) -> &[Arc<Shard>]
        ensures shards { shards_view result.now ≡ self.now.1.shards }
        ensures rows { All (λ s. s.definitions ≡ self.now.1.catalog) (shards_view result.now) }
    {
        self.state.indexed_shards()
    }
}
