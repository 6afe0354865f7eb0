//! A write while a query is held at its snapshot, by seats on two threads. A wait that gives up after 100,000,000 tries fails the test.
ghost use Rattle.std.specs.Prelude.{◌≡◌, string_bytes};

use crate::given::string;
use mg_live::{CommitLog, Database, Keeper, Live, Seat, WaitForReaders};
use mg_scan::{Gate, Place};
use mg_shard::Md5Placement;
use mg_value::read;
use std::alloc::Global;
use std::marker::Brand;
use std::process::Abort;
use std::sync::Wait;
use std::sync::atomic::{AtomicU64, Ordering};
use std::sync::ledger::Blank;
use std::thread;
use std::thread::Threads;

// The number of tries before a waiting thread gives up.
const TRIES: u64 = 100_000_000;

// Holds a query at its snapshot until a write was answered.
#[derive(Drop)]
struct Held {
    // how many threads started: the first queries, the second writes
    started: AtomicU64,
    // 1: the query may begin
    ready: AtomicU64,
    // 1: the query is held
    held: AtomicU64,
    // 1: the write was answered
    answered: AtomicU64,
    // the status of the write
    status: AtomicU64,
    // 1: the reply to the query was as expected, and the same as without the write
    same: AtomicU64,
    // how many waits gave up
    faults: AtomicU64,
}

// Waits until a value is 1. Returns false if the wait gives up.
fn wait_for(flag: &AtomicU64) -> bool {
    for _turn in 0..TRIES {
        if flag.load(Ordering::SeqCst) == 1 {
            return true;
        }
    }
    false
}

impl Held {
    fn new() -> Held {
        Held {
            started: AtomicU64::new(0),
            ready: AtomicU64::new(0),
            held: AtomicU64::new(0),
            answered: AtomicU64::new(0),
            status: AtomicU64::new(0),
            same: AtomicU64::new(0),
            faults: AtomicU64::new(0),
        }
    }

    fn wait(&self, flag: &AtomicU64) {
        if !wait_for(flag) {
            self.faults.fetch_add(1, Ordering::SeqCst);
        }
    }
}

impl Gate for Held {
    fn at(&self, place: Place) {
        if let Place::Snapshot = place {
            self.held.store(1, Ordering::SeqCst);
            self.wait(&self.answered);
        }
    }
}

// The write made while a query is held.
#[derive(Clone, Copy)]
enum During {
    Bulk,
    Reshard,
}

impl During {
    // Returns the expected reply to the query, which does not see the write. The database is empty before the bulk; before the reshard it
    // has one document.
    fn page(self) -> &'static str {
        match self {
            During::Bulk => "{\"bookmark\":\"nil\",\"docs\":[]}\n",
            During::Reshard => {
                "{\"bookmark\":\"W251bGwsIl9hbGxfZG9jcyIsImFzYyIsWyJsMSJdLCJsMSJd\",\"docs\":[{\"_id\":\"l1\"}]}\n"
            }
        }
    }

    fn status(self) -> u64 {
        match self {
            During::Bulk => 201,
            During::Reshard => 200,
        }
    }
}

// Queries the ids of all documents twice once the writer is ready: without the write, and then held by the gate at its snapshot until the
// write was answered. Makes no query if the body cannot be read.
fn ask<D: Database, C: Keeper, R: Wait + Threads + Sync>(
    rt: &R,
    alloc: Global,
    seat: Seat<D, C>,
    gate: &Held,
    during: During,
) -> Seat<D, C> {
    let mut seat = seat;
    let Ok(body) = read(alloc, b"{\"selector\":{},\"fields\":[\"_id\"]}") else {
        return seat;
    };
    gate.wait(&gate.ready);
    let without = seat.find(rt, &body, 1);
    let reply = seat.find_with(rt, &body, 1, gate);
    let same = reply.body() == during.page().as_bytes() && without.body() == reply.body();
    gate.same.store(u64::from(same), Ordering::SeqCst);
    seat
}

// Lets the query begin, and makes the write while the query is held. Before a reshard, first writes a document, and then lets the query
// begin. Does none of this if a body cannot be read.
fn write<D: Database, C: Keeper, R: Wait + Threads + Sync>(
    rt: &R,
    alloc: Global,
    seat: Seat<D, C>,
    gate: &Held,
    during: During,
) -> Seat<D, C> {
    let mut seat = seat;
    let Ok(bulk) = read(
        alloc,
        b"{\"docs\":[{\"_id\":\"l1\",\"_rev\":\"1-a\"}],\"new_edits\":false}",
    ) else {
        return seat;
    };
    let Ok(shards) = read(alloc, b"{\"shards\":7}") else {
        return seat;
    };
    if let During::Reshard = during {
        let _ = seat.bulk(rt, &bulk, 1);
    }
    gate.ready.store(1, Ordering::SeqCst);
    gate.wait(&gate.held);
    let reply = match during {
        During::Bulk => seat.bulk(rt, &bulk, 1),
        During::Reshard => seat.reshard(rt, &shards, 1),
    };
    gate.status
        .store(u64::from(reply.status()), Ordering::SeqCst);
    gate.answered.store(1, Ordering::SeqCst);
    seat
}

// Queries if this thread is the first to start; otherwise writes.
fn act<D: Database, C: Keeper, R: Wait + Threads + Sync>(
    rt: &R,
    alloc: Global,
    seat: Seat<D, C>,
    gate: &Held,
    during: During,
) -> Seat<D, C> {
    if gate.started.fetch_add(1, Ordering::SeqCst) == 0 {
        ask(rt, alloc, seat, gate, during)
    } else {
        write(rt, alloc, seat, gate, during)
    }
}

// Makes the write during a query, at two seats of a database of one shard. Fails the test unless both replies are as expected.
fn write_during_query<
    D: Database + Send + Sync,
    R: Threads + Wait + Abort + Sync + Send + Drop + Copy,
>(rt: R, alloc: Global, blank: Blank, commit_log: CommitLog, db: String, during: During)
    requires name { string_bytes db ≡ D.db }
    requires commit_log { commit_log ≡ D.commit_log }
    requires ledger { (blank.name ≡ D.name) × (blank.parts ≡ D.parts) }
    requires parts { blank.parts ≡ 2 }
    requires opened { 1 ≡ D.shards }
{
    let ends = WaitForReaders(rt);
    let Ok((_live, seats)) = Live::<D, WaitForReaders<R>>::open(
        ends,
        alloc,
        blank,
        commit_log,
        db.as_str(),
        Md5Placement,
        1,
        2,
    ) else {
        rt.panic("memory")
    };
    let gate = Held::new();
    let Ok(_seats) = thread::map_vec(&rt, seats, &|seat| act(&rt, alloc, seat, &gate, during))
    else {
        rt.panic("memory")
    };
    assert!(rt; gate.faults.load(Ordering::SeqCst) == 0);
    assert!(rt; gate.status.load(Ordering::SeqCst) == during.status());
    assert!(rt; gate.same.load(Ordering::SeqCst) == 1);
}

// A bulk is answered while a query is held at its snapshot. The query then finds no document.
#[test]
fn bulk_during_query(rt: HostRuntime) {
    let alloc = rt.alloc();
    let db = string(&rt, alloc, "db");
    write_during_query::<Brand, _>(rt, alloc, Blank::new(2), CommitLog::new(), db, During::Bulk)
}

// A reshard is answered while a query is held at its snapshot. The query's page does not depend on the number of shards.
#[test]
fn reshard_during_query(rt: HostRuntime) {
    let alloc = rt.alloc();
    let db = string(&rt, alloc, "db");
    write_during_query::<Brand, _>(
        rt,
        alloc,
        Blank::new(2),
        CommitLog::new(),
        db,
        During::Reshard,
    )
}
