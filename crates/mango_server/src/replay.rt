//! Executes the commits of a file again.
ghost use Rattle.std.specs.Prelude.{◌≡◌, ◌<◌, ◌≤◌, ◌+◌, ◌==◌, ◌||◌, ◌∷◌, ◌++◌, [], true, IfOk, length};
ghost use Rattle.mg_engine.specs.View.{command_view};
ghost use Rattle.mg_log.specs.Entry.{entries_of, entry_of};
ghost use Rattle.mg_machine.specs.Machine.{commands_of};
ghost use Rattle.mango_server.specs.Kept.{AreRowsOf, HasRowsOf, IsRowOf};
ghost use Rattle.mango_server.specs.Ready.{writes_of};

use crate::keeper::{FileKeeper, FileLog};
use crate::ready::Ready;
use mg_live::{Database, Seat};
use mg_log::{Commit, OpenError, Replay, Stopped, open_file};
use rayon::prelude::*;
use sqlite::Unknown;
use std::alloc::Global;
use std::sync::Wait;
use std::thread::{Threads, join};

/// How many bytes the bodies of rows have that are read and prepared side by side, while those before them are executed one after another.
const GROUP_BYTES: usize = 2_097_152;

/// The rows of a file, in their order.
#[derive(Drop)]
struct Reading {
    rows: Vec<Commit>,
}

impl Replay for Reading {
    ghost use Rattle.std.specs.Prelude.{◌≡◌};
    ghost use Rattle.mg_log.specs.Entry.{entries_of};

    // These are the rows.
    ghost follows = { λ reading rows. entries_of reading.rows.items ≡ rows };

    fn take(&mut self, commit: Commit) -> Result<(), Stopped> {
        match self.rows.push(commit) {
            Ok(()) => Ok(()),
            Err(_) => Err(Stopped),
        }
    }
}

/// Reads and prepares the writes of rows, side by side.
///
/// Errors: `Stopped` if a row is not one of a write, or an allocation fails.
fn all_ready<H: Threads + Sync>(
    rt: &H,
    alloc: Global,
    rows: &[Commit],
) -> Result<Vec<Ready>, Stopped>
    ensures { IfOk result (λ v. AreRowsOf (entries_of rows.now) (writes_of v.items)) }
{
    let made = rows
        .par_iter()
        .with_min_len(1)
        .map(
            |row: &Commit| -> Result<Ready, Stopped>
                ensures { IfOk result (λ r. IsRowOf (entry_of row.now) (command_view r.command.value)) }
            { Ready::of(alloc, row) },
        )
        .collect::<Result<Vec<Ready>, Stopped>>(rt, alloc);
    match made {
        Ok(all) => all,
        Err(_) => Err(Stopped),
    }
}

/// Returns how many of the rows are prepared together: at least one, if there is one.
fn group_len(rows: &[Commit]) -> usize
    requires { 0 < length rows.now }
    ensures some { 1 ≤ result }
    ensures most { result ≤ length rows.now }
{
    let mut bytes: usize = 0;
    for (place, row) in rows.iter().enumerate() {
        bytes = bytes.saturating_add(row.body.len());
        if bytes >= GROUP_BYTES {
            return place + 1;
        }
    }
    rows.len()
}

/// Whether a status is that of an accepted write.
fn is_success(status: u16) -> bool
    ensures { result ≡ (status == 200 || status == 201) }
{
    status == 200 || status == 201
}

/// Whether a number of commits comes next after another.
fn is_next(before: u64, now: u64) -> bool
    ensures { result ≡ true → now ≡ before + 1 }
{
    before.checked_add(1) == Some(now)
}

/// Executes a write at a seat, and returns whether it is the next commit of those that the seat has seen.
fn is_executed<D: Database, H: Wait + Threads + Sync + Drop>(
    rt: &H,
    seat: &mut Seat<D, FileKeeper<H>>,
    write: Ready,
    workers: usize,
) -> bool
    requires { (1 ≤ workers) × (workers ≤ 32) }
    ensures { result ≡ true → commands_of seat.new.seen ≡ commands_of seat.old.seen ++ command_view write.command.value ∷ [] }
{
    let before = seat.count();
    let Ready { command, prepared } = write;
    let reply = seat.execute(rt, command, prepared, workers);
    if !is_success(reply.status()) {
        return false;
    }
    is_next(before, seat.count())
}

/// Executes writes at a seat, in their order, and returns the seat.
///
/// Errors: `Stopped` if one is not accepted.
fn executed<D: Database, H: Wait + Threads + Sync + Drop>(
    rt: &H,
    mut seat: Seat<D, FileKeeper<H>>,
    writes: Vec<Ready>,
    workers: usize,
) -> Result<Seat<D, FileKeeper<H>>, Stopped>
    requires { (1 ≤ workers) × (workers ≤ 32) }
    ensures { IfOk result (λ s. commands_of s.seen ≡ commands_of seat.seen ++ writes_of writes.items) }
{
    for write in writes {
        if !is_executed(rt, &mut seat, write, workers) {
            return Err(Stopped);
        }
    }
    Ok(seat)
}

/// Executes writes at a seat, in their order, while the writes of the next rows are read and prepared on other threads. Returns the seat and
/// those writes.
///
/// Errors: `Stopped` if a row is not one of a write, or a write is not accepted, or an allocation fails.
fn executed_beside<D: Database, H: Wait + Threads + Sync + Drop>(
    rt: &H,
    alloc: Global,
    seat: Seat<D, FileKeeper<H>>,
    writes: Vec<Ready>,
    next: &[Commit],
    workers: usize,
) -> Result<(Seat<D, FileKeeper<H>>, Vec<Ready>), Stopped>
    requires { (1 ≤ workers) × (workers ≤ 32) }
    ensures seen { IfOk result (λ r. commands_of r.0.seen ≡ commands_of seat.seen ++ writes_of writes.items) }
    ensures ready { IfOk result (λ r. AreRowsOf (entries_of next.now) (writes_of r.1.items)) }
{
    let (ready, seat) = join(
        rt,
        move || -> Result<Vec<Ready>, Stopped>
            ensures { IfOk result (λ v. AreRowsOf (entries_of next.entry.now) (writes_of v.items)) }
        { all_ready(rt, alloc, next) },
        move || -> Result<Seat<D, FileKeeper<H>>, Stopped>
            requires { (1 ≤ workers) × (workers ≤ 32) }
            ensures { IfOk result (λ s. commands_of s.seen ≡ commands_of seat.seen ++ writes_of writes.items) }
        { executed(rt, seat, writes, workers) },
    );
    Ok((seat?, ready?))
}

/// Executes the writes of rows at a seat that has seen nothing, in their order, and returns the seat. A group of rows is read and prepared
/// while the group before it is executed.
///
/// Errors: `Stopped` if a row is not one of a write, or one is not accepted, or an allocation fails.
fn executed_rows<D: Database, H: Wait + Threads + Sync + Drop>(
    rt: &H,
    alloc: Global,
    mut seat: Seat<D, FileKeeper<H>>,
    rows: &[Commit],
    workers: usize,
) -> Result<Seat<D, FileKeeper<H>>, Stopped>
    requires fresh { seat.seen ≡ [] }
    requires workers { (1 ≤ workers) × (workers ≤ 32) }
    ensures { IfOk result (λ s. AreRowsOf (entries_of rows.now) (commands_of s.seen)) }
{
    let mut ready: Vec<Ready> = Vec::new(alloc);
    let mut rest = rows;
    while !rest.is_empty() {
        let (group, more) = rest.split_at(group_len(rest));
        (seat, ready) = executed_beside(rt, alloc, seat, ready, group, workers)?;
        rest = more;
    }
    executed(rt, seat, ready, workers)
}

/// Opens the file of a database, and executes its commits at a seat that has seen nothing. Returns its log and the seat. Until all are
/// executed, the rows take memory too.
///
/// Errors: those of `open_file`; `Stopped` if a commit is not accepted.
pub(crate) fn replayed<D: Database, H: Wait + Threads + Sync + Copy + Drop + AllocGlobal>(
    host: HostRuntime,
    rt: H,
    path: &str,
    database: &str,
    seat: Seat<D, FileKeeper<H>>,
    workers: usize,
) -> Result<(FileLog, Seat<D, FileKeeper<H>>), OpenError>
    requires fresh { seat.seen ≡ [] }
    requires workers { (1 ≤ workers) × (workers ≤ 32) }
    ensures { IfOk result (λ r. HasRowsOf r.0 (commands_of r.1.seen)) }
{
    let alloc = rt.alloc();
    let mut reading = Reading {
        rows: Vec::new(alloc),
    };
    let log = open_file(&host, path, Unknown, database, &mut reading)?;
    match executed_rows(&rt, alloc, seat, reading.rows.as_slice(), workers) {
        Ok(seat) => Ok((log, seat)),
        Err(Stopped) => Err(OpenError::Stopped),
    }
}
