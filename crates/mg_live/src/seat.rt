//! Seats, at which sessions read and write.
ghost use Rattle.std.specs.Prelude.{◌≡◌, ◌≤◌, true, false, length, IfErr, IfOk, IfSome, OnErr, OnOk};
ghost use Rattle.mg_engine.specs.Commands.{is_write};
ghost use Rattle.mg_engine.specs.QuestionView.{question_view};
ghost use Rattle.mg_engine.specs.View.{command_view, reply_view};
ghost use Rattle.mg_live.specs.Keeping.{IsRecordOf};
ghost use Rattle.mg_live.specs.Snapshots.{StandsAfter, HasSnapshot};
ghost use Rattle.mg_machine.specs.Machine.{commands_of};
ghost use Rattle.mg_live.specs.View.{commits_view};
ghost use Rattle.mg_live.specs.SeatView.{Answered, IsLater, SeatLooks, SeatReads, Learned, SeatWrites};

use crate::commit_log::{Prefix, Write};
use crate::database::{Database, Keeper};
use crate::desk::Desk;
use crate::lock;
use crate::publication::{SnapshotReader, copy_published};
use crate::record::Record;
use crate::snapshot::Snapshot;
use crate::tally::Tally;
use left_right::Absorb;
use mg_engine::{Command, Prepared, Question, Reply};
use mg_scan::{Gate, NoGate, Place, Workers};
use mg_shard::{Md5Placement, Placement};
use mg_value::NoMemory;
use std::alloc::Global;
use std::marker::{Model, PhantomData};
use std::snapshot::Snapshot as GhostCopy;
use std::sync::{Arc, Mutex, Wait};
use std::thread::Threads;

/// A seat at a database. Contracts see its number, the commits that it has seen, and the tally of those that it has made.
#[derive(Drop)]
pub struct Seat<D: Database, C: Keeper, P: Placement + Drop = Md5Placement>
where
    Snapshot<P>: Absorb<(), State = ()>,
{
    pub(crate) number: usize,
    pub(crate) alloc: Global,
    pub(crate) prefix: Prefix,
    pub(crate) tally: Tally<D>,
    pub(crate) reader: Option<SnapshotReader<D, P>>,
    pub(crate) desk: Arc<Mutex<Desk<D, C, P>>>,
}

impl<D: Database, C: Keeper, P: Placement + Drop> Model for Seat<D, C, P>
where
    Snapshot<P>: Absorb<(), State = ()>,
{
    ghost use Rattle.std.specs.Prelude.{◌≡◌};
    ghost use Rattle.mg_live.specs.SeatView.{SeatView, seat_view_code};

    ghost Value = { SeatView };

    ghost coded = { seat_view_code };

    ghost use Rattle.mg_live.specs.View.{commits_view};

    ghost view = { λ s.
        record { number = s.number; seen = commits_view s.prefix.seen.log; tally = s.tally } };

    ghost invariant = { λ s. s.prefix.seen.book ≡ D.commit_log };
}

/// The commits that a seat has seen, for another seat to `learn`.
#[derive(Drop)]
pub struct Seen<D: Database> {
    prefix: Prefix,
    of: PhantomData<D>,
}

impl<D: Database> Model for Seen<D> {
    ghost use Rattle.std.specs.Prelude.{◌≡◌, List};
    ghost use Rattle.mg_live.specs.Code.{commits_code};
    ghost use Rattle.mg_machine.specs.Machine.{Commit};

    ghost Value = { List Commit };

    ghost coded = { commits_code };

    ghost use Rattle.mg_live.specs.View.{commits_view};

    ghost view = { λ s. commits_view s.prefix.seen.log };

    ghost invariant = { λ s. s.prefix.seen.book ≡ D.commit_log };
}

impl<D: Database> Seen<D> {
    // Makes what a seat that has seen this prefix lets others learn.
    fn of(prefix: &Prefix) -> Seen<D>
        requires { prefix.now.seen.book ≡ D.commit_log }
        ensures { result ≡ commits_view prefix.now.seen.log }
    {
        Seen {
            prefix: prefix.again(),
            of: PhantomData,
        }
    }
}

impl<D: Database, C: Keeper, P: Placement + Drop> Seat<D, C, P>
where
    Snapshot<P>: Absorb<(), State = ()>,
{
    /// Catches up with what is published, and returns the database after the commits that the seat has then seen. It waits for nobody, and
    /// takes no memory.
    ///
    /// Errors: `NoMemory` if there are too many references to the engine, or if the seat has seen more commits than are published; then the
    /// seat has seen what it had seen before. Cost: constant. Dropping the snapshot frees what it alone holds.
    pub fn snapshot(&mut self) -> Result<Snapshot<P>, NoMemory>
        ensures later { IsLater self.old self.new }
        ensures snapshot { IfOk result (λ s. StandsAfter P.place D.db D.shards s self.new.seen) }
    {
        let Some(reader) = self.reader.take() else {
            return Err(NoMemory);
        };
        let (reader, snapshot) = copy_published(reader);
        self.reader = Some(reader);
        let snapshot = snapshot?;
        if !self.prefix.begins(&snapshot.prefix) {
            return Err(NoMemory);
        }
        self.prefix = snapshot.prefix.again();
        Ok(snapshot)
    }

    /// Executes a command and returns its reply. There are 1 to 32 workers, which count as in `Engine::step`. A read is answered over one
    /// snapshot, and waits for nobody. A write is answered after all commits; if it is accepted, it is one more commit. A write may wait
    /// for the writer's lock, and for seats that take a snapshot.
    ///
    /// The reply is `NoMemory` if an allocation fails, if there are too many references to the engine or to a part of it, if the write may not
    /// be kept, or if the seat has seen more commits than are published; a write is then not a commit, and leaves the seat as it was; at a read the seat may have
    /// caught up. A write after 18,446,744,073,709,551,615 commits is refused as `TooLarge`. Cost: that of the engine's reply. The
    /// documents of a bulk are read from the body in place.
    pub fn answer<R: Wait + Threads + Sync>(
        &mut self,
        rt: &R,
        command: Command,
        workers: usize,
    ) -> Reply
        requires some { 1 ≤ workers }
        requires most { workers ≤ 32 }
        ensures { Answered D.db self.old (command_view command) (reply_view result) self.new }
    {
        if command.is_write() {
            self.write(rt, command, Workers::most(workers))
        } else {
            self.read(rt, &command, Workers::most(workers), &NoGate)
        }
    }

    /// Answers a question over one snapshot: after the commits that the seat has then seen. There are 1 to 32 workers, as in `answer`. It waits
    /// for nobody.
    ///
    /// The reply is `NoMemory` if an allocation fails, at a limit that `Engine::look` has, if there are too many references to the engine,
    /// or if the seat has seen more commits than are published; the seat may then have caught up. Cost: that of `Engine::look`.
    pub fn look<R: Threads + Sync>(&mut self, rt: &R, question: &Question, workers: usize) -> Reply
        requires some { 1 ≤ workers }
        requires most { workers ≤ 32 }
        ensures { SeatLooks D.db self.old (question_view question.now) (reply_view result) self.new }
    {
        let Ok(snapshot) = self.snapshot() else {
            return Reply::NoMemory;
        };
        match snapshot
            .point
            .look(rt, self.alloc, question, Workers::most(workers))
        {
            Ok(reply) => reply,
            Err(_) => Reply::NoMemory,
        }
    }

    // Returns the reply to a read, over one snapshot, by these workers; `NoMemory` as `answer` says. The gate is passed at `Snapshot`, once
    // the snapshot is taken, and then where `Engine::answer_by` passes it.
    pub(crate) fn read<R: Threads + Sync, G: Gate + Sync>(
        &mut self,
        rt: &R,
        command: &Command,
        workers: Workers,
        gate: &G,
    ) -> Reply
        requires read { is_write (command_view command.now) ≡ false }
        ensures { SeatReads D.db self.old (command_view command.now) (reply_view result) self.new }
    {
        let Ok(snapshot) = self.snapshot() else {
            return Reply::NoMemory;
        };
        gate.at(Place::Snapshot);
        match snapshot.point.read(rt, self.alloc, command, workers, gate) {
            Ok(reply) => reply,
            Err(_) => Reply::NoMemory,
        }
    }

    // Executes a write, after all commits, and returns its reply; `NoMemory` as `answer` says. To hold the lock briefly, the documents of a
    // bulk are read and its record is made before the lock is taken, and the copy that `publish` replaces is dropped after the lock is released.
    pub(crate) fn write<R: Wait + Threads + Sync>(
        &mut self,
        rt: &R,
        command: Command,
        workers: Workers,
    ) -> Reply
        requires write { is_write (command_view command) ≡ true }
        ensures { SeatWrites D.db self.old (command_view command) (reply_view result) self.new }
    {
        let write = Write::of(self.number, &command, workers);
        let Ok(text) = C::record(self.alloc, &command) else {
            return Reply::NoMemory;
        };
        match Prepared::of(self.alloc, &command) {
            Ok(prepared) => {
                drop(command);
                self.commit(rt, write, prepared, text)
            }
            Err(_) => Reply::NoMemory,
        }
    }

    /// Executes a write that was prepared elsewhere, as `answer` does; `command` is what contracts see of it. No record is made, so with a
    /// keeper that needs one the reply is `NoMemory`.
    pub fn execute<R: Wait + Threads + Sync>(
        &mut self,
        rt: &R,
        command: GhostCopy<Command>,
        prepared: Prepared,
        workers: usize,
    ) -> Reply
        requires write { is_write (command_view command.value) ≡ true }
        requires prepared { prepared ≡ command_view command.value }
        requires some { 1 ≤ workers }
        requires most { workers ≤ 32 }
        ensures { SeatWrites D.db self.old (command_view command.value) (reply_view result) self.new }
    {
        let write = Write {
            seat: self.number,
            command,
            workers: Workers::most(workers),
        };
        self.commit(rt, write, prepared, None)
    }

    // Executes a prepared write of this seat, after all commits, and returns its reply; `NoMemory` as `answer` says. A record is that of the
    // write.
    fn commit<R: Wait + Threads + Sync>(
        &mut self,
        rt: &R,
        write: Write,
        prepared: Prepared,
        text: Option<Record>,
    ) -> Reply
        requires seat { write.seat ≡ self.old.number }
        requires write { is_write (command_view write.command.value) ≡ true }
        requires prepared { prepared ≡ command_view write.command.value }
        requires text { IfSome text (λ r. IsRecordOf r (command_view write.command.value)) }
        ensures { SeatWrites D.db self.old (command_view write.command.value) (reply_view result) self.new }
    {
        let Seat {
            alloc,
            prefix,
            tally,
            desk,
            ..
        } = self;
        let (reply, before) = {
            let mut desk = lock::take(rt, desk);
            desk.write(rt, *alloc, write, prepared, text, tally, prefix)
        };
        drop(before);
        reply
    }

    /// Catches up with all commits, under the writer's lock, and returns what another seat can `learn`: all commits that are published at
    /// that time. It may wait for the lock. Takes no memory. Cost: constant.
    ///
    /// Errors: `NoMemory` if the seat has seen more commits than are published; then the seat is as it was.
    pub fn share<R: Wait>(&mut self, rt: &R) -> Result<Seen<D>, NoMemory>
        ensures later { IsLater self.old self.new }
        ensures seen { IfOk result (λ s. s ≡ self.new.seen) }
        ensures published { OnOk result (HasSnapshot P.place D.db D.shards self.new.seen) }
        ensures refused { OnErr result (self.new ≡ self.old) }
    {
        let desk = self.desk.lock(rt);
        if !desk.catch_up(&mut self.prefix) {
            return Err(NoMemory);
        }
        Ok(Seen::of(&self.prefix))
    }

    /// Returns the number of commits that this seat has seen. Takes no lock and no memory. Cost: constant.
    pub fn count(&self) -> u64
        ensures { result ≡ length self.now.seen }
    {
        self.prefix.len()
    }

    /// Has another keeper keep the commits after those that this seat has seen, which it keeps already. Returns the keeper before. Waits for
    /// the writer's lock. Takes no memory.
    ///
    /// Errors: the keeper comes back, and nothing has changed, if there are commits that the seat has not seen.
    pub fn replace_keeper<R: Wait>(&self, rt: &R, keeper: C) -> Result<C, C>
        requires keeps { C.keeps keeper (commands_of self.now.seen) }
        ensures back { IfErr result (λ k. k ≡ keeper) }
    {
        let mut desk = self.desk.lock(rt);
        desk.replace_keeper(&self.prefix, keeper)
    }

    /// Returns the commits that this seat has seen, for another seat to `learn`. Takes no lock and no memory. Cost: constant.
    pub fn seen(&self) -> Seen<D>
        ensures { result ≡ self.now.seen }
    {
        Seen::of(&self.prefix)
    }

    /// Learns what another seat has seen: this seat has then seen the longer of the two prefixes. Takes no memory. Cost: constant.
    pub fn learn(&mut self, seen: &Seen<D>)
        ensures { Learned self.old seen.now self.new }
    {
        if self.prefix.begins(&seen.prefix) {
            self.prefix = seen.prefix.again();
        }
    }
}
