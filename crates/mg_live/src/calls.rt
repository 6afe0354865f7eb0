//! The library's surface, for callers other than this program: a call of a seat for each kind of command.
ghost use Rattle.std.specs.Prelude.{◌≤◌};
ghost use Rattle.mg_value.specs.View.{view};
ghost use Rattle.mg_engine.specs.Commands.{bulk, create_index, drop_index, explain, find, get, list_indexes, reshard};
ghost use Rattle.mg_engine.specs.View.{reply_view};
ghost use Rattle.mg_live.specs.SeatView.{Answered};

use crate::database::{Database, Keeper};
use crate::seat::Seat;
use crate::snapshot::Snapshot;
use left_right::Absorb;
use mg_engine::{Command, Reply};
use mg_packed::Packed;
use mg_scan::{Gate, NoGate, Workers};
use mg_shard::Placement;
use mg_value::Json;
use std::sync::Wait;
use std::thread::Threads;

/// Each call makes a command from copies of its arguments, and returns the reply that `Seat::answer` gives to that command. The reply is
/// also `NoMemory` if an allocation for a copy fails.
impl<D: Database, C: Keeper, P: Placement + Drop> Seat<D, C, P>
where
    Snapshot<P>: Absorb<(), State = ()>,
{
    /// Answers a query with its page, by at most `workers` workers, 1 to 32. The query passes the gate where `find_with` does; the gate is
    /// `NoGate`.
    pub fn find<R: Threads + Sync>(&mut self, rt: &R, body: &Json, workers: usize) -> Reply
        requires some { 1 ≤ workers }
        requires most { workers ≤ 32 }
        ensures { Answered D.db self.old (find (view body.now)) (reply_view result) self.new }
    {
        match body.copy(self.alloc) {
            Ok(body) => self.read(rt, &Command::Find(body), Workers::most(workers), &NoGate),
            Err(_) => Reply::NoMemory,
        }
    }

    /// Answers a query with its page, by exactly `workers` workers, 1 to 32. The query passes the gate at `Snapshot`, once it has taken its
    /// snapshot, and then where `Engine::answer` passes it; the gate does not change the reply. The query takes no lock, and no writer
    /// waits for it once it has its snapshot.
    pub fn find_with<R: Threads + Sync, G: Gate + Sync>(
        &mut self,
        rt: &R,
        body: &Json,
        workers: usize,
        gate: &G,
    ) -> Reply
        requires some { 1 ≤ workers }
        requires most { workers ≤ 32 }
        ensures { Answered D.db self.old (find (view body.now)) (reply_view result) self.new }
    {
        match body.copy(self.alloc) {
            Ok(body) => self.read(rt, &Command::Find(body), Workers::exactly(workers), gate),
            Err(_) => Reply::NoMemory,
        }
    }

    /// Explains a query: which index serves it, and which range of the index it reads.
    pub fn explain<R: Threads + Sync>(&mut self, rt: &R, body: &Json) -> Reply
        ensures { Answered D.db self.old (explain (view body.now)) (reply_view result) self.new }
    {
        match body.copy(self.alloc) {
            Ok(body) => self.read(rt, &Command::Explain(body), Workers::most(1), &NoGate),
            Err(_) => Reply::NoMemory,
        }
    }

    /// Lists the indexes.
    pub fn list_indexes<R: Threads + Sync>(&mut self, rt: &R) -> Reply
        ensures { Answered D.db self.old list_indexes (reply_view result) self.new }
    {
        self.read(rt, &Command::ListIndexes, Workers::most(1), &NoGate)
    }

    /// Gets the document of an id, with its conflicts if `conflicts` is true. Refused as `Missing` if there is no such document, and as
    /// `Deleted` if the document is deleted.
    pub fn get<R: Threads + Sync>(&mut self, rt: &R, id: &str, conflicts: bool) -> Reply
        ensures { Answered D.db self.old (get id.now conflicts) (reply_view result) self.new }
    {
        match String::from_str(self.alloc, id) {
            Ok(id) => self.read(
                rt,
                &Command::Get { id, conflicts },
                Workers::most(1),
                &NoGate,
            ),
            Err(_) => Reply::NoMemory,
        }
    }

    /// Applies a bulk of edits, on the thread of the caller. `workers` is 1 to 32 and has no effect. The body is packed first; the reply is
    /// `NoMemory` if the packed body would take more than 4,294,967,295 bytes.
    pub fn bulk<R: Wait + Threads + Sync>(&mut self, rt: &R, body: &Json, workers: usize) -> Reply
        requires some { 1 ≤ workers }
        requires most { workers ≤ 32 }
        ensures { Answered D.db self.old (bulk (view body.now)) (reply_view result) self.new }
    {
        match Packed::of(self.alloc, body) {
            Ok(body) => self.write(rt, Command::PackedBulk(body), Workers::most(workers)),
            Err(_) => Reply::NoMemory,
        }
    }

    /// Creates an index, with 1 to 32 workers. With one worker no thread is started; with more, there may be more threads than workers, as
    /// `mg_scan::build` says.
    pub fn create_index<R: Wait + Threads + Sync>(
        &mut self,
        rt: &R,
        body: &Json,
        workers: usize,
    ) -> Reply
        requires some { 1 ≤ workers }
        requires most { workers ≤ 32 }
        ensures { Answered D.db self.old (create_index (view body.now)) (reply_view result) self.new }
    {
        match body.copy(self.alloc) {
            Ok(body) => self.write(rt, Command::CreateIndex(body), Workers::most(workers)),
            Err(_) => Reply::NoMemory,
        }
    }

    /// Drops the index of a design document and a name, on the thread of the caller; refused as `Missing` if there is no such index.
    /// `workers` is 1 to 32 and has no effect.
    pub fn drop_index<R: Wait + Threads + Sync>(
        &mut self,
        rt: &R,
        ddoc: &str,
        name: &str,
        workers: usize,
    ) -> Reply
        requires some { 1 ≤ workers }
        requires most { workers ≤ 32 }
        ensures { Answered D.db self.old (drop_index ddoc.now name.now) (reply_view result) self.new }
    {
        let Ok(ddoc) = String::from_str(self.alloc, ddoc) else {
            return Reply::NoMemory;
        };
        match String::from_str(self.alloc, name) {
            Ok(name) => self.write(
                rt,
                Command::DropIndex { ddoc, name },
                Workers::most(workers),
            ),
            Err(_) => Reply::NoMemory,
        }
    }

    /// Deals the documents to the number of shards that the body asks for, 1 to 64; refused as `WrongShape` if the body asks for no such
    /// number. This changes no other reply. With one worker no thread is started; with 2 to 32, at most so many threads make the new shards,
    /// as `mg_shard::redeal_by` says.
    pub fn reshard<R: Wait + Threads + Sync>(
        &mut self,
        rt: &R,
        body: &Json,
        workers: usize,
    ) -> Reply
        requires some { 1 ≤ workers }
        requires most { workers ≤ 32 }
        ensures { Answered D.db self.old (reshard (view body.now)) (reply_view result) self.new }
    {
        match body.copy(self.alloc) {
            Ok(body) => self.write(rt, Command::Reshard(body), Workers::most(workers)),
            Err(_) => Reply::NoMemory,
        }
    }
}
