//! Points of a database's commit log.
ghost use Rattle.std.specs.Prelude.{◌≡◌, ◌<◌, ◌≤◌, ℕ, List, [], IfOk, Some, true, false, is_some};
ghost use Rattle.std.specs.Arc.{arc_value};
ghost use Rattle.mg_engine.specs.Commands.{is_write, reply_of};
ghost use Rattle.mg_engine.specs.Questions.{answer_to};
ghost use Rattle.mg_engine.specs.QuestionView.{question_view};
ghost use Rattle.mg_engine.specs.View.{command_view, reply_view};
ghost use Rattle.mg_engine.specs.Stands.{Stands};
ghost use Rattle.mg_engine.specs.World.{World};
ghost use Rattle.mg_machine.specs.Machine.{Commit, after_write, write_reply};
ghost use Rattle.mg_machine.specs.Points.{IsAfter, HasShardsAfter};

use mg_engine::{Command, Engine, Prepared, Question, Refusal, Reply};
use mg_scan::{Gate, Workers};
use mg_shard::Placement;
use mg_value::NoMemory;
use std::alloc::Global;
use std::sync::Arc;
use std::thread::Threads;

/// A point of a database's commit log: the engine as the commits before the point leave it, and the number of these commits.
#[derive(Drop)]
pub struct Point<P> {
    pub engine: Arc<Engine<P>>,
    pub commits: u64,
}

impl<P: Placement + Drop> Point<P> {
    /// Makes the point before the first commit to a database of this name, with 1 to 64 shards, on which `placement` places the documents.
    ///
    /// Errors: `NoMemory` if an allocation fails. Cost: the number of shards, and the name.
    pub fn first(alloc: Global, db: &str, placement: P, shards: usize) -> Result<Point<P>, NoMemory>
        requires some { 1 ≤ shards }
        requires most { shards ≤ 64 }
        ensures after { IfOk result (λ p. IsAfter P.place db.now p []) }
        ensures dealt { IfOk result (λ p. HasShardsAfter shards p []) }
    {
        let engine = Engine::new(alloc, db, placement, shards)?;
        let engine = Arc::new(alloc, engine)?;
        Ok(Point { engine, commits: 0 })
    }

    /// Makes a copy of this point, which shares the engine. Takes no memory.
    ///
    /// Errors: `NoMemory` if there are too many references to the engine.
    pub fn again(&self) -> Result<Point<P>, NoMemory>
        ensures after { IfOk result
            (λ p. (name : List ℕ) (cs : List Commit) → IsAfter P.place name self.now cs
            → IsAfter P.place name p cs) }
        ensures engine { IfOk result (λ p. arc_value p.engine ≡ arc_value self.now.engine) }
    {
        let engine = self.engine.clone()?;
        Ok(Point {
            engine,
            commits: self.commits,
        })
    }

    /// Returns the reply to a read, by these workers. The gate does not change the reply. `Engine::answer_by` says which queries pass the
    /// gate.
    ///
    /// Errors: `NoMemory` if an allocation fails. Cost: that of the engine's reply.
    pub fn read<R: Threads + Sync, G: Gate + Sync>(
        &self,
        rt: &R,
        alloc: Global,
        command: &Command,
        workers: Workers,
        gate: &G,
    ) -> Result<Reply, NoMemory>
        requires read { is_write (command_view command.now) ≡ false }
        ensures { IfOk result (λ r. (w : World) → Stands P.place (arc_value self.now.engine) w
            → reply_view r ≡ Some (reply_of w (command_view command.now))) }
    {
        into_result(self.engine.answer_by(rt, alloc, command, workers, gate))
    }

    /// Returns the reply to a question at this point, by these workers.
    ///
    /// Errors: `NoMemory` if an allocation fails, or at a limit that `Engine::look` has. Cost: that of `Engine::look`.
    pub fn look<R: Threads + Sync>(
        &self,
        rt: &R,
        alloc: Global,
        question: &Question,
        workers: Workers,
    ) -> Result<Reply, NoMemory>
        ensures { IfOk result (λ r. (w : World) → Stands P.place (arc_value self.now.engine) w
            → reply_view r ≡ Some (answer_to w self.now.commits (question_view question.now))) }
    {
        into_result(self.engine.look(rt, alloc, question, self.commits, workers))
    }

    /// Executes a write, and returns its reply and the point after it: one commit later if the write is accepted, otherwise a copy of this
    /// point. This point does not change. After 18,446,744,073,709,551,615 commits each write is refused as `TooLarge`.
    ///
    /// Errors: `NoMemory` if an allocation fails, or if there are too many references to the engine or to a part of it. Cost: that of the
    /// engine's `commit`.
    pub fn write<R: Threads + Sync>(
        &self,
        rt: &R,
        alloc: Global,
        command: &Command,
        workers: Workers,
    ) -> Result<(Reply, Point<P>), NoMemory>
        requires write { is_write (command_view command.now) ≡ true }
        ensures after { IfOk result
            (λ r. (name : List ℕ) (cs : List Commit) (seat : ℕ) → IsAfter P.place name self.now cs
            → (reply_view r.0 ≡ Some (write_reply name cs (command_view command.now)))
            × IsAfter P.place name r.1 (after_write name cs seat (command_view command.now))) }
        ensures dealt { IfOk result (λ r. (name : List ℕ) (shards : ℕ) (cs : List Commit) (seat : ℕ)
            → IsAfter P.place name self.now cs → HasShardsAfter shards self.now cs
            → HasShardsAfter shards r.1 (after_write name cs seat (command_view command.now))) }
    {
        let prepared = Prepared::of(alloc, command)?;
        self.write_prepared(rt, alloc, prepared, workers)
    }

    /// Does what `write` does, for a prepared command.
    ///
    /// Errors: as for `write`. Cost: that of the engine's `commit_prepared`.
    pub fn write_prepared<R: Threads + Sync>(
        &self,
        rt: &R,
        alloc: Global,
        prepared: Prepared,
        workers: Workers,
    ) -> Result<(Reply, Point<P>), NoMemory>
        requires write { is_write prepared ≡ true }
        ensures after { IfOk result
            (λ r. (name : List ℕ) (cs : List Commit) (seat : ℕ) → IsAfter P.place name self.now cs
            → (reply_view r.0 ≡ Some (write_reply name cs prepared))
            × IsAfter P.place name r.1 (after_write name cs seat prepared)) }
        ensures dealt { IfOk result (λ r. (name : List ℕ) (shards : ℕ) (cs : List Commit) (seat : ℕ)
            → IsAfter P.place name self.now cs → HasShardsAfter shards self.now cs
            → HasShardsAfter shards r.1 (after_write name cs seat prepared)) }
    {
        if self.commits == u64::MAX {
            let reply = Reply::refusing(alloc, Refusal::TooLarge)?;
            return Ok((reply, self.again()?));
        }
        self.commit(rt, alloc, prepared, workers)
    }

    // Does what `write_prepared` does, if one more commit can be counted.
    fn commit<R: Threads + Sync>(
        &self,
        rt: &R,
        alloc: Global,
        prepared: Prepared,
        workers: Workers,
    ) -> Result<(Reply, Point<P>), NoMemory>
        requires write { is_write prepared ≡ true }
        requires room { self.now.commits < 18446744073709551615 }
        ensures after { IfOk result
            (λ r. (name : List ℕ) (cs : List Commit) (seat : ℕ) → IsAfter P.place name self.now cs
            → (reply_view r.0 ≡ Some (write_reply name cs prepared))
            × IsAfter P.place name r.1 (after_write name cs seat prepared)) }
        ensures dealt { IfOk result (λ r. (name : List ℕ) (shards : ℕ) (cs : List Commit) (seat : ℕ)
            → IsAfter P.place name self.now cs → HasShardsAfter shards self.now cs
            → HasShardsAfter shards r.1 (after_write name cs seat prepared)) }
    {
        let (reply, engine) = self.engine.commit_prepared(rt, alloc, prepared, workers);
        let reply = into_result(reply)?;
        match engine {
            Some(engine) => {
                let engine = Arc::new(alloc, engine)?;
                let commits = self.commits + 1;
                Ok((reply, Point { engine, commits }))
            }
            None => {
                let engine = self.engine.clone()?;
                let commits = self.commits;
                Ok((reply, Point { engine, commits }))
            }
        }
    }
}

// Returns the reply if it is complete. `Reply::NoMemory` becomes the error.
fn into_result(reply: Reply) -> Result<Reply, NoMemory>
    ensures { IfOk result (λ r. (r ≡ reply) × (is_some (reply_view r) ≡ true)) }
{
    match reply {
        Reply::NoMemory => Err(NoMemory),
        Reply::Full { status, body } => Ok(Reply::Full { status, body }),
    }
}
