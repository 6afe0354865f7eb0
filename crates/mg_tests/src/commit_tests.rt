//! Seats that read and write concurrently, and how many commits a database has when it is closed.
ghost use Rattle.std.specs.Prelude.{◌≡◌, ◌≤◌, length, string_bytes};

use crate::given::{check, string};
use mg_engine::Reply;
use mg_live::{CloseError, CommitLog, Database, Keeper, Live, Seat, WaitForReaders};
use mg_shard::Md5Placement;
use mg_value::{Json, read};
use std::alloc::Global;
use std::marker::Brand;
use std::process::Abort;
use std::sync::Wait;
use std::sync::atomic::{AtomicUsize, Ordering};
use std::sync::ledger::Blank;
use std::thread;
use std::thread::Threads;

// Writes as many bulks of one document at a seat as the next of the numbers says; the threads take them in turn. Writes none if the body
// cannot be read.
fn write_bulks<D: Database, C: Keeper, R: Wait + Threads + Sync>(
    rt: &R,
    alloc: Global,
    seat: Seat<D, C>,
    numbers: &[u32],
    taken: &AtomicUsize,
) -> Seat<D, C> {
    let mut seat = seat;
    let Ok(body) = read(alloc, b"{\"docs\":[{\"a\":7}]}") else {
        return seat;
    };
    let turn = taken.fetch_add(1, Ordering::SeqCst);
    for _ in 0..numbers.get(turn).copied().unwrap_or(0) {
        let _ = seat.bulk(rt, &body, 2);
    }
    seat
}

// Writes these numbers of bulks at as many seats, each on a thread, then closes the database and checks how many commits it has.
fn count_commits<D: Database + Send + Sync, R: Threads + Wait + Abort + Sync + Send + Drop + Copy>(
    rt: R,
    alloc: Global,
    blank: Blank,
    commit_log: CommitLog,
    db: String,
    numbers: &[u32],
    commits: u64,
)
    requires name { string_bytes db ≡ D.db }
    requires commit_log { commit_log ≡ D.commit_log }
    requires ledger { (blank.name ≡ D.name) × (blank.parts ≡ D.parts) }
    requires parts { blank.parts ≡ length numbers.now }
    requires seats { (1 ≤ length numbers.now) × (length numbers.now ≤ 16) }
    requires opened { 3 ≡ D.shards }
{
    let Ok((live, seats)) = Live::<D, WaitForReaders<R>>::open(
        WaitForReaders(rt),
        alloc,
        blank,
        commit_log,
        db.as_str(),
        Md5Placement,
        3,
        numbers.len(),
    ) else {
        rt.panic("memory")
    };
    let taken = AtomicUsize::new(0);
    let Ok(seats) = thread::map_vec(
        &rt,
        seats,
        &|seat| { write_bulks(&rt, alloc, seat, numbers, &taken) },
    ) else {
        rt.panic("memory")
    };
    let Ok(closed) = live.close(&rt, seats) else {
        rt.panic("it is not closed")
    };
    assert!(rt; closed.commits() == commits);
}

#[test]
fn four_seats_make_a_hundred_commits(rt: HostRuntime) {
    let alloc = rt.alloc();
    let db = string(&rt, alloc, "db");
    let log = CommitLog::new();
    count_commits::<Brand, _>(rt, alloc, Blank::new(4), log, db, &[25, 25, 25, 25], 100)
}

// Two threads add 3 and 4 units to their tallies; the book that joins them says 7.
#[test]
fn tally(rt: HostRuntime) {
    let alloc = rt.alloc();
    let db = string(&rt, alloc, "db");
    count_commits::<Brand, _>(rt, alloc, Blank::new(2), CommitLog::new(), db, &[3, 4], 7)
}

#[derive(Clone, Copy, Drop)]
enum Ask {
    Get,
    Find,
    Explain,
    ListIndexes,
    Bulk,
    CreateIndex,
    DropIndex,
    Reshard,
}

// The number of the seat, the command, its id, body or index name (empty: it has none), and the status and the body of the expected reply.
#[derive(Clone, Copy, Drop)]
struct Call(usize, Ask, &'static str, u16, &'static str);

const ALL: &str = r#"{"selector":{},"fields":["_id"]}"#;

const INDEX: &str = r#"{"index":{"fields":["a"]},"ddoc":"x","name":"ia"}"#;

const MISSING: &str = "{\"error\":\"not_found\",\"reason\":\"missing\"}\n";

// The bookmark spells `[null,"_all_docs","asc",["l1"],"l1"]`; that of `BOTH` has l2 for l1.
const FIRST: &str =
    "{\"bookmark\":\"W251bGwsIl9hbGxfZG9jcyIsImFzYyIsWyJsMSJdLCJsMSJd\",\"docs\":[{\"_id\":\"l1\"}]}\n";

const BOTH: &str =
    "{\"bookmark\":\"W251bGwsIl9hbGxfZG9jcyIsImFzYyIsWyJsMiJdLCJsMiJd\",\"docs\":[{\"_id\":\"l1\"},{\"_id\":\"l2\"}]}\n";

const CREATED: &str = "{\"id\":\"_design/x\",\"name\":\"ia\",\"result\":\"created\"}\n";

const EXPLAINED: &str =
    "{\"dbname\":\"db\",\"fields\":\"all_fields\",\"index\":{\"ddoc\":\"_design/x\",\"def\":{\"fields\":[{\"a\":\"asc\"}]},\"name\":\"ia\",\"type\":\"json\"},\"limit\":25,\"range\":{\"equal\":[1],\"lower\":null,\"upper\":null},\"selector\":{\"a\":1},\"skip\":0}\n";

const LISTED: &str =
    "{\"indexes\":[{\"ddoc\":null,\"def\":{\"fields\":[{\"_id\":\"asc\"}]},\"name\":\"_all_docs\",\"type\":\"special\"},{\"ddoc\":\"_design/x\",\"def\":{\"fields\":[{\"a\":\"asc\"}]},\"name\":\"ia\",\"type\":\"json\"}],\"total_rows\":2}\n";

const OK: &str = "{\"ok\":true}\n";

const WRONG_SHAPE: &str = "{\"error\":\"bad_request\",\"reason\":\"Wrong shape.\"}\n";

// The calls before the second seat learns of the first one's write.
const BEFORE: &[Call] = &[
    Call(1, Ask::Get, "l1", 404, MISSING),
    Call(
        0,
        Ask::Bulk,
        r#"{"docs":[{"_id":"l1","_rev":"1-a"}],"new_edits":false}"#,
        201,
        "[]\n",
    ),
    Call(0, Ask::Find, ALL, 200, FIRST),
];

// The calls after that. Each call sees the latest commit: the second seat also finds later writes of the first, which it did not learn of.
const AFTER: &[Call] = &[
    Call(1, Ask::Find, ALL, 200, FIRST),
    Call(
        1,
        Ask::Get,
        "l1",
        200,
        "{\"_id\":\"l1\",\"_rev\":\"1-a\"}\n",
    ),
    Call(
        0,
        Ask::Bulk,
        r#"{"docs":[{"_id":"l2","_rev":"1-a"}],"new_edits":false}"#,
        201,
        "[]\n",
    ),
    Call(1, Ask::Find, ALL, 200, BOTH),
    Call(1, Ask::DropIndex, "ia", 404, MISSING),
    Call(0, Ask::CreateIndex, INDEX, 200, CREATED),
    Call(1, Ask::Explain, r#"{"selector":{"a":1}}"#, 200, EXPLAINED),
    Call(1, Ask::ListIndexes, "", 200, LISTED),
    Call(0, Ask::DropIndex, "ia", 200, OK),
];

const RESHARDED: &[Call] = &[
    Call(0, Ask::Reshard, r#"{"shards":7}"#, 200, OK),
    Call(1, Ask::Find, ALL, 200, BOTH),
    Call(1, Ask::Reshard, r#"{"shards":65}"#, 400, WRONG_SHAPE),
    Call(1, Ask::Reshard, r#"{"shards":1}"#, 200, OK),
    Call(0, Ask::Find, ALL, 200, BOTH),
];

fn reply_with<D: Database, C: Keeper, R: Wait + Threads + Sync>(
    rt: &R,
    seat: &mut Seat<D, C>,
    ask: Ask,
    body: &Json,
) -> Reply {
    match ask {
        Ask::Bulk => seat.bulk(rt, body, 1),
        Ask::CreateIndex => seat.create_index(rt, body, 1),
        Ask::Reshard => seat.reshard(rt, body, 1),
        Ask::Explain => seat.explain(rt, body),
        _ => seat.find(rt, body, 1),
    }
}

fn reply_to<D: Database, C: Keeper, R: Wait + Threads + Sync>(
    rt: &R,
    alloc: Global,
    seat: &mut Seat<D, C>,
    call: &Call,
) -> Reply {
    match call.1 {
        Ask::Get => seat.get(rt, call.2, false),
        Ask::ListIndexes => seat.list_indexes(rt),
        Ask::DropIndex => seat.drop_index(rt, "x", call.2, 1),
        with_body => match read(alloc, call.2.as_bytes()) {
            Ok(body) => reply_with(rt, seat, with_body, &body),
            Err(_) => Reply::NoMemory,
        },
    }
}

// Whether the seat gives the expected reply. If the call is refused memory, this is counted and the call is made once more, since it had
// no effect.
fn is_answered<D: Database, C: Keeper, R: Wait + Threads + Sync>(
    rt: &R,
    alloc: Global,
    seat: &mut Seat<D, C>,
    call: &Call,
    refused: &mut u32,
) -> bool {
    let mut reply = reply_to(rt, alloc, seat, call);
    if reply.status() == 503 {
        *refused = refused.saturating_add(1);
        reply = reply_to(rt, alloc, seat, call);
    }
    reply.status() == call.3 && reply.body() == call.4.as_bytes()
}

fn are_answered<D: Database, C: Keeper, R: Wait + Threads + Sync>(
    rt: &R,
    alloc: Global,
    a: &mut Seat<D, C>,
    b: &mut Seat<D, C>,
    calls: &[Call],
    refused: &mut u32,
) -> bool {
    for call in calls {
        let is_fine = if call.0 == 0 {
            is_answered(rt, alloc, a, call, refused)
        } else {
            is_answered(rt, alloc, b, call, refused)
        };
        if !is_fine {
            return false;
        }
    }
    true
}

// Lets the second seat learn what the first has seen; false if `share` was refused memory, which `refused` counts.
fn teach<D: Database, C: Keeper, R: Wait>(
    rt: &R,
    a: &mut Seat<D, C>,
    b: &mut Seat<D, C>,
    refused: &mut u32,
) -> bool {
    match a.share(rt) {
        Ok(seen) => {
            b.learn(&seen);
            true
        }
        Err(_) => {
            *refused = refused.saturating_add(1);
            false
        }
    }
}

// Whether the seat's snapshot has no index and one shard; false also if `snapshot` was refused memory, which `refused` counts.
fn is_bare<D: Database, C: Keeper>(seat: &mut Seat<D, C>, refused: &mut u32) -> bool {
    match seat.snapshot() {
        Ok(snapshot) => snapshot.catalog().list().is_empty() && snapshot.shards().len() == 1,
        Err(_) => {
            *refused = refused.saturating_add(1);
            false
        }
    }
}

// Whether the two seats give all expected replies to `BEFORE`, `AFTER` and `calls`, and the snapshot of the second then has no index and
// one shard.
fn both_answer<D: Database, C: Keeper, R: Wait + Threads + Sync>(
    rt: &R,
    alloc: Global,
    a: &mut Seat<D, C>,
    b: &mut Seat<D, C>,
    calls: &[Call],
    refused: &mut u32,
) -> bool {
    are_answered(rt, alloc, a, b, BEFORE, refused)
        && (teach(rt, a, b, refused) || teach(rt, a, b, refused))
        && are_answered(rt, alloc, a, b, AFTER, refused)
        && are_answered(rt, alloc, a, b, calls, refused)
        && (is_bare(b, refused) || is_bare(b, refused))
}

// Closes the database and returns the number of its commits. A first try, without one of the seats, must be refused.
fn close<D: Database, C: Keeper, R: Wait + Abort>(
    rt: &R,
    live: Live<D, C>,
    seats: Vec<Seat<D, C>>,
    last: Seat<D, C>,
) -> u64
    requires { live ≡ D.parts }
{
    let Err((live, mut seats, CloseError::Missing)) = live.close(rt, seats) else {
        rt.panic("a seat is absent")
    };
    seats.push(last).expect(rt, "memory");
    let Ok(closed) = live.close(rt, seats) else {
        rt.panic("it is not closed")
    };
    closed.commits()
}

// Makes the calls of `BEFORE` and `AFTER`, and then these, at two seats, and checks the number of commits. If a call is refused memory, the
// test fails with that message only at the end: all the rest must still be as expected.
fn run_two<D: Database + Send + Sync, R: Threads + Wait + Abort + Sync + Send + Drop + Copy>(
    rt: R,
    alloc: Global,
    blank: Blank,
    commit_log: CommitLog,
    db: String,
    calls: &[Call],
    commits: u64,
)
    requires name { string_bytes db ≡ D.db }
    requires commit_log { commit_log ≡ D.commit_log }
    requires ledger { (blank.name ≡ D.name) × (blank.parts ≡ D.parts) }
    requires parts { blank.parts ≡ 2 }
    requires opened { 1 ≡ D.shards }
{
    let Ok((live, mut seats)) = Live::<D, WaitForReaders<R>>::open(
        WaitForReaders(rt),
        alloc,
        blank,
        commit_log,
        db.as_str(),
        Md5Placement,
        1,
        2,
    ) else {
        rt.panic("memory")
    };
    let Some(mut b) = seats.pop() else {
        rt.panic("a seat")
    };
    let Some(mut a) = seats.pop() else {
        rt.panic("a seat")
    };
    let mut refused = 0;
    assert!(rt; both_answer(&rt, alloc, &mut a, &mut b, calls, &mut refused));
    seats.push(a).expect(&rt, "memory");
    assert!(rt; close(&rt, live, seats, b) == commits);
    check(&rt, refused == 0, "a call was refused memory");
}

#[test]
fn two_seats(rt: HostRuntime) {
    let alloc = rt.alloc();
    let db = string(&rt, alloc, "db");
    run_two::<Brand, _>(rt, alloc, Blank::new(2), CommitLog::new(), db, &[], 4)
}

#[test]
fn two_seats_reshard(rt: HostRuntime) {
    let alloc = rt.alloc();
    let db = string(&rt, alloc, "db");
    run_two::<Brand, _>(rt, alloc, Blank::new(2), CommitLog::new(), db, RESHARDED, 6)
}
