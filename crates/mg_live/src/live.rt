//! Opens a database with seats, and closes it.
ghost use Rattle.std.specs.Prelude.{◌≡◌, ◌≢◌, ◌≤◌, ◌+◌, [], List, All, IfErr, IfOk, MatchBool, OnOk, length, vec_len};
ghost use Rattle.mg_machine.specs.Laws.{IsPrefix};
ghost use Rattle.mg_machine.specs.Machine.{Commit};
ghost use Rattle.mg_live.specs.SeatView.{AreAll, HasSeenMore, all_tallies, new_seats};
ghost use Rattle.mg_live.specs.View.{commits_view};
ghost use Rattle.mg_live.specs.declared.live.CloseError.TheVariants.{Ahead, Missing};

use crate::commit_log::{CommitLog, Prefix};
use crate::database::{Database, Keeper};
use crate::desk::Desk;
use crate::markers::SnapshotRule;
use crate::publication::SnapshotWriter;
use crate::seat::Seat;
use crate::snapshot::Snapshot;
use crate::tally::Tally;
use left_right::Absorb;
use left_right::reader::Factory;
use left_right::writer::Writer;
use mg_machine::Point;
use mg_shard::{Md5Placement, Placement};
use mg_value::NoMemory;
use std::alloc::Global;
use std::marker::Model;
use std::sync::ledger::{Blank, Share};
use std::sync::{Arc, Mutex, Wait};
use thiserror::Error;

/// An open database. Contracts see the number of its seats.
#[derive(Drop)]
pub struct Live<D: Database, C: Keeper, P: Placement + Drop = Md5Placement>
where
    Snapshot<P>: Absorb<(), State = ()>,
{
    desk: Arc<Mutex<Desk<D, C, P>>>,
    empty: Prefix,
    last_share: Share<D>,
    seats: usize,
}

impl<D: Database, C: Keeper, P: Placement + Drop> Model for Live<D, C, P>
where
    Snapshot<P>: Absorb<(), State = ()>,
{
    ghost use Rattle.std.specs.Prelude.{◌≡◌, ℕ, []};

    ghost Value = { ℕ };

    ghost view = { λ l. l.seats };

    ghost invariant = { λ l. (l.last_share.parts ≡ 0) × (l.last_share.amount ≡ 0)
        × (l.empty.seen.book ≡ D.commit_log) × (l.empty.seen.log ≡ []) };
}

/// A database that was closed. Contracts see the number of its commits.
#[derive(Debug, Drop)]
pub struct Closed {
    commits: u64,
}

impl Model for Closed {
    ghost use Rattle.std.specs.Prelude.{ℕ};

    ghost Value = { ℕ };

    ghost view = { λ c. c.commits };
}

/// Why a database was not closed.
#[derive(Clone, Copy, PartialEq, Eq, Debug, Drop, Error)]
pub enum CloseError {
    /// A seat is absent.
    #[error("a seat is absent")]
    Missing,
    /// A seat has seen more commits than all seats together have made.
    #[error("a seat has seen more commits than all seats have made")]
    Ahead,
}

// What an empty database begins with: the desk that its seats share, what makes their readers, the empty prefix, and all parts of the ledger.
struct Opening<D: Database, C: Keeper, P: Placement + Drop>
where
    Snapshot<P>: Absorb<(), State = ()>,
{
    desk: Mutex<Desk<D, C, P>>,
    factory: Factory<Snapshot<P>, (), SnapshotRule<D, P>>,
    prefix: Prefix,
    all: Share<D>,
}

impl Closed {
    /// Returns the number of the database's commits. Takes no memory.
    pub fn commits(&self) -> u64
        ensures { result ≡ self.now }
    {
        self.commits
    }
}

// Makes the `Opening` of an empty database with this name, for this number of seats.
fn begin<D: Database, C: Keeper, P: Placement + Drop>(
    keeper: C,
    alloc: Global,
    blank: Blank,
    commit_log: CommitLog,
    db: &str,
    placement: P,
    shards: usize,
    seats: usize,
) -> Result<Opening<D, C, P>, NoMemory>
where
    Snapshot<P>: Absorb<(), State = ()>,
    requires name { db.now ≡ D.db }
    requires commit_log { commit_log ≡ D.commit_log }
    requires ledger { (blank.name ≡ D.name) × (blank.parts ≡ D.parts) }
    requires keeps { C.keeps keeper [] }
    requires opened { shards ≡ D.shards }
    requires shards { (1 ≤ shards) × (shards ≤ 64) }
    requires seats { (1 ≤ seats) × (seats ≤ 16) }
    ensures all { IfOk result (λ s. (s.all.parts ≡ D.parts) × (s.all.amount ≡ 0)) }
    ensures prefix { IfOk result (λ s. (s.prefix.seen.book ≡ D.commit_log) × (s.prefix.seen.log ≡ [])) }
{
    let (log, prefix) = commit_log.parts()?;
    let (tally_book, all) = blank.open::<D>();
    let first = Snapshot {
        point: Point::first(alloc, db, placement, shards)?,
        prefix: prefix.again(),
    };
    let second = first.again()?;
    let writer: SnapshotWriter<D, P> = Writer::new(alloc, first, second, seats)?;
    let factory = writer.factory().another();
    let desk = Desk::new(keeper, log, writer, tally_book);
    Ok(Opening {
        desk: Mutex::new(desk),
        factory: factory?,
        prefix,
        all,
    })
}

// Adds up how many commits the seats have made. The sum of fewer than 2^64 tallies, each of which is a `u64`, fits into a `u128`.
fn all_made<D: Database, C: Keeper, P: Placement + Drop>(seats: &[Seat<D, C, P>]) -> u128
where
    Snapshot<P>: Absorb<(), State = ()>,
    ensures { result ≡ all_tallies seats.now }
{
    let mut made = 0u128;
    for seat in seats {
        made += u128::from(seat.tally.count());
    }
    made
}

// Whether a seat has seen more than `made` commits.
fn has_seen_more<D: Database, C: Keeper, P: Placement + Drop>(
    seats: &[Seat<D, C, P>],
    made: u128,
) -> bool
where
    Snapshot<P>: Absorb<(), State = ()>,
    ensures { MatchBool result (HasSeenMore seats.now made) (All (λ s. length s.seen ≤ made) seats.now) }
{
    for seat in seats {
        if u128::from(seat.prefix.len()) > made {
            return true;
        }
    }
    false
}

// Returns the longest prefix of the commit log that a seat has seen; `empty` if there is no seat. What every other seat has seen is a
// prefix of the result, which has at most `made` commits if each seat has seen at most so many.
fn longest<D: Database, C: Keeper, P: Placement + Drop>(
    empty: &Prefix,
    seats: &[Seat<D, C, P>],
    made: u128,
) -> Prefix
where
    Snapshot<P>: Absorb<(), State = ()>,
    requires empty { (empty.now.seen.book ≡ D.commit_log) × (empty.now.seen.log ≡ []) }
    requires within { All (λ s. length s.seen ≤ made) seats.now }
    ensures here { result.seen.book ≡ D.commit_log }
    ensures within { length (commits_view result.seen.log) ≤ made }
    ensures begins { All (λ s. IsPrefix s.seen (commits_view result.seen.log)) seats.now }
{
    let mut longest = empty.again();
    for seat in seats {
        longest = longest.longer(&seat.prefix);
    }
    longest
}

// Joins the seats' parts of the ledger to `last_share`, and returns them as one. Drops all else that the seats hold.
fn join_all<D: Database, C: Keeper, P: Placement + Drop>(
    last_share: Share<D>,
    seats: Vec<Seat<D, C, P>>,
) -> Share<D>
where
    Snapshot<P>: Absorb<(), State = ()>,
    requires { (last_share.parts ≡ 0) × (last_share.amount ≡ 0) }
    ensures parts { result.parts ≡ vec_len seats }
    ensures amount { result.amount ≡ all_tallies seats.items }
{
    let mut all = last_share;
    for seat in seats {
        let Seat { tally, .. } = seat;
        tally.join(&mut all);
    }
    all
}

impl<D: Database, C: Keeper, P: Placement + Drop> Live<D, C, P>
where
    Snapshot<P>: Absorb<(), State = ()>,
{
    /// Opens an empty database named `db`, with 1 to 64 shards, on which `placement` places the documents, and 1 to 16 seats, which are
    /// numbered from 0. `blank` is the new ledger of its tallies, with one part for each seat; `commit_log` is its new commit log. `keeper`
    /// keeps the commits, and ends the writer once this `Live` and all seats are dropped or the database is closed.
    ///
    /// Errors: `NoMemory` if an allocation fails, or if the commit log is not new. Cost: the number of shards and of seats, and the name.
    pub fn open(
        keeper: C,
        alloc: Global,
        blank: Blank,
        commit_log: CommitLog,
        db: &str,
        placement: P,
        shards: usize,
        seats: usize,
    ) -> Result<(Live<D, C, P>, Vec<Seat<D, C, P>>), NoMemory>
        requires name { db.now ≡ D.db }
        requires commit_log { commit_log ≡ D.commit_log }
        requires ledger { (blank.name ≡ D.name) × (blank.parts ≡ D.parts) }
        requires parts { blank.parts ≡ seats }
        requires keeps { C.keeps keeper [] }
        requires opened { shards ≡ D.shards }
        requires shards { (1 ≤ shards) × (shards ≤ 64) }
        requires seats { (1 ≤ seats) × (seats ≤ 16) }
        ensures live { IfOk result (λ t. t.0 ≡ seats) }
        ensures seats { IfOk result (λ t. t.1.items ≡ new_seats seats) }
    {
        let Opening {
            desk,
            factory,
            prefix,
            mut all,
        } = begin(
            keeper, alloc, blank, commit_log, db, placement, shards, seats,
        )?;
        let desk = Arc::new(alloc, desk)?;
        let mut each = Vec::new(alloc);
        for number in 0..seats {
            let seat = Seat {
                number,
                alloc,
                prefix: prefix.again(),
                tally: Tally::new(&mut all),
                reader: Some(factory.reader()?),
                desk: Arc::try_clone(&desk)?,
            };
            each.push(seat)?;
        }
        let live = Live {
            desk,
            empty: prefix,
            last_share: all,
            seats,
        };
        Ok((live, each))
    }

    /// Closes the database, and counts its commits. The caller hands over all its seats.
    ///
    /// Errors: `Missing` if a seat is absent, else `Ahead` if a seat has seen more commits than all seats together have made. An error
    /// hands the database and the seats back. Takes no memory. Cost: the number of seats, and freeing the documents and indexes that no
    /// snapshot still holds. Waits for the writer's lock, and for what its keeper waits for.
    pub fn close<R: Wait>(
        self,
        rt: &R,
        seats: Vec<Seat<D, C, P>>,
    ) -> Result<Closed, (Live<D, C, P>, Vec<Seat<D, C, P>>, CloseError)>
        requires { self ≡ D.parts }
        ensures closed { IfOk result (λ c. (commits : List Commit) × AreAll commits seats.items c) }
        ensures whole { OnOk result (vec_len seats ≡ self) }
        ensures back { IfErr result (λ r. (r.0 ≡ self) × (r.1 ≡ seats)) }
        ensures missing { IfErr result (λ r. r.2 ≡ Missing → vec_len seats ≢ self) }
        ensures ahead { IfErr result (λ r. r.2 ≡ Ahead → HasSeenMore seats.items (all_tallies seats.items)) }
    {
        if seats.len() != self.seats {
            return Err((self, seats, CloseError::Missing));
        }
        let made = all_made(seats.as_slice());
        if has_seen_more(seats.as_slice(), made) {
            return Err((self, seats, CloseError::Ahead));
        }
        let seen = longest(&self.empty, seats.as_slice(), made);
        let Live {
            desk,
            last_share,
            ..
        } = self;
        let mut all = join_all(last_share, seats);
        let commits = desk.lock(rt).count_commits(&mut all, &seen);
        Ok(Closed { commits })
    }
}
