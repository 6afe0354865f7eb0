//! The seats of a database, all driven by one caller. After an error of a method the seats must not be used again: the latest point may
//! have a write that the seat of the write has not seen.
ghost use Rattle.std.specs.Prelude.{◌≡◌, ◌<◌, ℕ, List, All, IfOk, OnOk, false, true, vec_len};
ghost use Rattle.mg_engine.specs.Commands.{is_write};
ghost use Rattle.mg_engine.specs.View.{command_view, reply_view};
ghost use Rattle.mg_machine.specs.Machine.{Machine, Commit, answer, entered, happens, opened, publish, read, told, written};
ghost use Rattle.mg_machine.specs.Seats.{SeatsStandFor, by_md5};
ghost use Rattle.mg_machine.specs.Points.{IsAfter};

use crate::point::Point;
use mg_engine::{Command, Reply};
use mg_scan::{NoGate, Workers};
use mg_shard::Md5Placement;
use mg_value::NoMemory;
use std::alloc::Global;
use std::thread::Threads;

/// The latest point of a database, and for each seat the point after the commits that the seat has seen.
#[derive(Drop)]
pub(crate) struct Seats {
    pub(crate) latest: Point<Md5Placement>,
    pub(crate) each: Vec<Point<Md5Placement>>,
}

impl Seats {
    /// Opens an empty database of this name, with one shard and this number of seats.
    ///
    /// Errors: `NoMemory` if an allocation fails, or if there are too many references to the engine. Cost: the number of seats, and the
    /// name.
    pub(crate) fn open(alloc: Global, db: &str, seats: usize) -> Result<Seats, NoMemory>
        ensures follow { IfOk result (λ s. SeatsStandFor db.now s (opened seats)) }
        ensures number { IfOk result (λ s. vec_len s.each ≡ seats) }
    {
        let latest = Point::first(alloc, db, Md5Placement, 1)?;
        let each = copies(alloc, &latest, seats)?;
        Ok(Seats { latest, each })
    }

    /// Publishes a command at a seat and returns its reply. For a read, the seat first catches up with all commits.
    ///
    /// Errors: those of `Point::write`, `Point::read` and `Point::again`. Cost: that of the engine's reply.
    pub(crate) fn publish<R: Threads + Sync>(
        &mut self,
        rt: &R,
        alloc: Global,
        seat: usize,
        command: &Command,
    ) -> Result<Reply, NoMemory>
        requires { seat < vec_len self.old.each }
        ensures follow { IfOk result (λ r. (name : List ℕ) (m : Machine) → SeatsStandFor name self.old m
            → (reply_view r ≡ (happens name m (publish seat (command_view command.now))).1)
            × SeatsStandFor name self.new (happens name m (publish seat (command_view command.now))).0) }
        ensures number { vec_len self.new.each ≡ vec_len self.old.each }
    {
        if command.is_write() {
            self.write(rt, alloc, seat, command)
        } else {
            self.enter(seat)?;
            self.read(rt, alloc, seat, command)
        }
    }

    /// Answers a command at a seat: a read after the commits that the seat has seen, a write after all commits.
    ///
    /// Errors and cost: those of `publish`.
    pub(crate) fn answer<R: Threads + Sync>(
        &mut self,
        rt: &R,
        alloc: Global,
        seat: usize,
        command: &Command,
    ) -> Result<Reply, NoMemory>
        requires { seat < vec_len self.old.each }
        ensures follow { IfOk result (λ r. (name : List ℕ) (m : Machine) → SeatsStandFor name self.old m
            → (reply_view r ≡ (happens name m (answer seat (command_view command.now))).1)
            × SeatsStandFor name self.new (happens name m (answer seat (command_view command.now))).0) }
        ensures number { vec_len self.new.each ≡ vec_len self.old.each }
    {
        if command.is_write() {
            self.write(rt, alloc, seat, command)
        } else {
            self.read(rt, alloc, seat, command)
        }
    }

    /// Lets a seat catch up with all commits. Errors: those of `Point::again`; the seat is then as it was. Cost: constant, and the freeing
    /// of what only the seat's old point held.
    pub(crate) fn enter(&mut self, seat: usize) -> Result<(), NoMemory>
        requires { seat < vec_len self.old.each }
        ensures follow { OnOk result ((name : List ℕ) (m : Machine) → SeatsStandFor name self.old m
            → SeatsStandFor name self.new (entered m seat)) }
        ensures number { vec_len self.new.each ≡ vec_len self.old.each }
    {
        self.each[seat] = self.latest.again()?;
        Ok(())
    }

    /// Lets a seat learn what seat `by` has seen; nothing changes unless `by` has seen more. Errors and cost: those of `enter`.
    pub(crate) fn learn(&mut self, seat: usize, by: usize) -> Result<(), NoMemory>
        requires seat { seat < vec_len self.old.each }
        requires by { by < vec_len self.old.each }
        ensures follow { OnOk result ((name : List ℕ) (m : Machine) → SeatsStandFor name self.old m
            → SeatsStandFor name self.new (happens name m (told seat by)).0) }
        ensures number { vec_len self.new.each ≡ vec_len self.old.each }
    {
        if self.each[seat].commits < self.each[by].commits {
            self.each[seat] = self.each[by].again()?;
        }
        Ok(())
    }

    // Returns the reply to a read, after the commits that its seat has seen.
    fn read<R: Threads + Sync>(
        &self,
        rt: &R,
        alloc: Global,
        seat: usize,
        command: &Command,
    ) -> Result<Reply, NoMemory>
        requires read { is_write (command_view command.now) ≡ false }
        requires seat { seat < vec_len self.now.each }
        ensures { IfOk result (λ r. (name : List ℕ) (m : Machine) → SeatsStandFor name self.now m
            → reply_view r ≡ (read name m seat (command_view command.now)).1) }
    {
        let seen = &self.each[seat];
        let reply = seen.read(rt, alloc, command, Workers::exactly(1), &NoGate)?;
        Ok(reply)
    }

    // Executes a write after all commits, and returns its reply. The seat has then seen all commits.
    fn write<R: Threads + Sync>(
        &mut self,
        rt: &R,
        alloc: Global,
        seat: usize,
        command: &Command,
    ) -> Result<Reply, NoMemory>
        requires write { is_write (command_view command.now) ≡ true }
        requires seat { seat < vec_len self.old.each }
        ensures follow { IfOk result (λ r. (name : List ℕ) (m : Machine) → SeatsStandFor name self.old m
            → (reply_view r ≡ (written name m seat (command_view command.now)).1)
            × SeatsStandFor name self.new (written name m seat (command_view command.now)).0) }
        ensures number { vec_len self.new.each ≡ vec_len self.old.each }
    {
        let (reply, next) = self.latest.write(rt, alloc, command, Workers::exactly(1))?;
        self.latest = next;
        self.enter(seat)?;
        Ok(reply)
    }
}

// Copies a point `number` times.
fn copies(
    alloc: Global,
    point: &Point<Md5Placement>,
    number: usize,
) -> Result<Vec<Point<Md5Placement>>, NoMemory>
    ensures after { IfOk result
        (λ v. (name : List ℕ) (cs : List Commit) → IsAfter by_md5 name point.now cs
        → All (λ p. IsAfter by_md5 name p cs) v.items) }
    ensures number { IfOk result (λ v. vec_len v ≡ number) }
{
    let mut copies = Vec::with_capacity(alloc, number)?;
    for _ in 0..number {
        copies.push(point.again()?)?;
    }
    Ok(copies)
}
