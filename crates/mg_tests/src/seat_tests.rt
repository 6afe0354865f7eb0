//! A query at a seat over two shards: each shard must be begun, by a thread of its own, before the other is done. And the service of a seat.
ghost use Rattle.std.specs.Prelude.{◌≡◌, string_bytes};

use crate::command_tests::is_served;
use crate::engine_tests::{DOCUMENTS, IDS, PAGE};
use crate::given::{json, string};
use crate::scan_tests::BothBegin;
use mg_engine::Command;
use mg_http::SeatService;
use mg_live::{CommitLog, Database, Keeper, Live, Seat, WaitForReaders};
use mg_shard::{Md5Placement, Placement};
use std::alloc::Global;
use std::marker::Brand;
use std::process::Abort;
use std::sync::Wait;
use std::sync::ledger::Blank;
use std::thread::Threads;

// A placement of the test's own: all documents on the first shard.
#[derive(Clone, Copy, Drop)]
struct OnFirst;

impl Placement for OnFirst {
    ghost place = { λ _ _ _. 0 };

    fn shard_of(&self, _id: &str, _shards: usize) -> usize {
        0
    }
}

// Whether the seat writes the documents.
fn is_written<D: Database, C: Keeper, R: Wait + Threads + Sync + Abort>(
    rt: &R,
    alloc: Global,
    seat: &mut Seat<D, C, OnFirst>,
) -> bool {
    let bulk = json(rt, alloc, DOCUMENTS);
    seat.bulk(rt, &bulk, 1).status() == 201
}

// Whether a query at the seat finds all ids.
fn is_found<D: Database, C: Keeper, R: Threads + Sync + Abort>(
    rt: &R,
    alloc: Global,
    seat: &mut Seat<D, C, OnFirst>,
    gate: &BothBegin,
) -> bool {
    let query = json(rt, alloc, IDS);
    seat.find_with(rt, &query, 2, gate).body() == PAGE.as_bytes()
}

// Writes the documents at the only seat of a database of two shards, and queries them there.
fn run_query<D: Database + Send + Sync, R: Threads + Wait + Abort + Sync + Send + Drop + Copy>(
    rt: R,
    alloc: Global,
    blank: Blank,
    commit_log: CommitLog,
    db: String,
)
    requires name { string_bytes db ≡ D.db }
    requires commit_log { commit_log ≡ D.commit_log }
    requires ledger { (blank.name ≡ D.name) × (blank.parts ≡ D.parts) }
    requires parts { blank.parts ≡ 1 }
    requires opened { 2 ≡ D.shards }
{
    let ends = WaitForReaders(rt);
    let Ok((_live, mut seats)) = Live::<D, WaitForReaders<R>, OnFirst>::open(
        ends,
        alloc,
        blank,
        commit_log,
        db.as_str(),
        OnFirst,
        2,
        1,
    ) else {
        rt.panic("memory")
    };
    let Some(mut seat) = seats.pop() else {
        rt.panic("a seat")
    };
    assert!(rt; is_written(&rt, alloc, &mut seat));
    let gate = BothBegin::new();
    assert!(rt; is_found(&rt, alloc, &mut seat, &gate));
    assert!(rt; gate.is_passed());
}

#[test]
fn two_shards_begun_on_find_with(rt: HostRuntime) {
    let alloc = rt.alloc();
    let db = string(&rt, alloc, "db");
    run_query::<Brand, _>(rt, alloc, Blank::new(1), CommitLog::new(), db)
}

// Asks the service of the only seat for the documents, and for their ids.
fn ask_service<D: Database + Send + Sync, R: Threads + Wait + Abort + Sync + Send + Drop + Copy>(
    rt: R,
    alloc: Global,
    blank: Blank,
    commit_log: CommitLog,
    db: String,
)
    requires name { string_bytes db ≡ D.db }
    requires commit_log { commit_log ≡ D.commit_log }
    requires ledger { (blank.name ≡ D.name) × (blank.parts ≡ D.parts) }
    requires parts { blank.parts ≡ 1 }
    requires opened { 2 ≡ D.shards }
{
    let Ok((_live, mut seats)) = Live::<D, WaitForReaders<R>>::open(
        WaitForReaders(rt),
        alloc,
        blank,
        commit_log,
        db.as_str(),
        Md5Placement,
        2,
        1,
    ) else {
        rt.panic("memory")
    };
    let Some(seat) = seats.pop() else {
        rt.panic("a seat")
    };
    let mut service = SeatService { seat, workers: 2 };
    let bulk = Command::Bulk(json(&rt, alloc, DOCUMENTS));
    assert!(rt; is_served(&rt, alloc, &mut service, &bulk));
}

#[test]
fn a_seat_is_asked_for_a_bulk(rt: HostRuntime) {
    let alloc = rt.alloc();
    let db = string(&rt, alloc, "db");
    ask_service::<Brand, _>(rt, alloc, Blank::new(1), CommitLog::new(), db)
}
