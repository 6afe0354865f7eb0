//! Searches and index builds over two shards. Each shard must be begun, by a thread of its own, before the other is done.
use crate::engine_tests::two_shards;
use crate::given::json;
use mg_collate::{Direction, Row};
use mg_index::IndexDef;
use mg_normal::Normal;
use mg_path::Path;
use mg_range::KeyRange;
use mg_scan::{Gate, Place, Target, build, scan};
use mg_selector::Sel;
use mg_shard::Shard;
use std::alloc::Global;
use std::process::Abort;
use std::sync::Arc;
use std::sync::atomic::{AtomicU64, Ordering};
use std::thread::Threads;

// Holds the first shard that begins until the second has begun. Counts faults: a shard begins twice, is done before it began or is done
// twice, or a wait gives up.
#[derive(Drop)]
pub(crate) struct BothBegin {
    begun: AtomicU64,
    done: AtomicU64,
    faults: AtomicU64,
    first: AtomicU64,
    second: AtomicU64,
}

impl BothBegin {
    pub(crate) fn new() -> BothBegin {
        BothBegin {
            begun: AtomicU64::new(0),
            done: AtomicU64::new(0),
            faults: AtomicU64::new(0),
            first: AtomicU64::new(0),
            second: AtomicU64::new(0),
        }
    }

    // Whether both shards began before one was done, and there was no fault.
    pub(crate) fn is_passed(&self) -> bool {
        let begun = self.begun.load(Ordering::SeqCst);
        let done = self.done.load(Ordering::SeqCst);
        let faults = self.faults.load(Ordering::SeqCst);
        begun == 2 && done == 2 && faults == 0
    }

    // Moves the shard on to its next state (0: not begun, 1: begun, 2: done). It is a fault if the shard was not in the state `from`.
    fn advance(&self, shard: usize, from: u64) {
        let state = if shard == 0 {
            &self.first
        } else {
            &self.second
        };
        if state.fetch_add(1, Ordering::SeqCst) != from {
            self.faults.fetch_add(1, Ordering::SeqCst);
        }
    }

    fn wait_for_both(&self) {
        for _ in 0..100_000_000u64 {
            if self.begun.load(Ordering::SeqCst) >= 2 {
                return;
            }
        }
        self.faults.fetch_add(1, Ordering::SeqCst);
    }
}

impl Gate for BothBegin {
    fn at(&self, place: Place) {
        match place {
            Place::Snapshot => {}
            Place::ShardBegun(shard) => {
                self.advance(shard, 0);
                self.begun.fetch_add(1, Ordering::SeqCst);
                self.wait_for_both();
            }
            Place::ShardDone(shard) => {
                self.advance(shard, 1);
                self.done.fetch_add(1, Ordering::SeqCst);
            }
        }
    }
}

// Makes the normal form of the selector for documents with an n above 1.
pub(crate) fn above_one<R: Abort>(rt: &R, alloc: Global) -> Normal {
    let text = json(rt, alloc, r#"{"n":{"$gt":1}}"#);
    let Ok(selector) = Sel::read(alloc, &text) else {
        rt.panic("no selector")
    };
    Normal::of(alloc, &selector).expect(rt, "memory")
}

// Makes the range of ids of a normal form.
pub(crate) fn ids_of<R: Abort>(rt: &R, alloc: Global, normal: &Normal) -> KeyRange {
    let path = Path::parse(alloc, "_id").expect(rt, "a path");
    let mut columns = Vec::new(alloc);
    columns.push(path).expect(rt, "memory");
    KeyRange::of(alloc, &columns, normal).expect(rt, "memory")
}

// Returns the id of the row at a place of a shard's list; `None` past the last row or the last shard.
fn id_at(lists: &[Vec<Row>], shard: usize, place: usize) -> Option<&str> {
    let row = lists.get(shard)?.get(place)?;
    Some(row.id.as_str())
}

// Returns, for each shard, the rows of the documents with an n above 1. They are searched by two workers.
fn find_rows<R: Threads + Sync + Abort>(
    rt: &R,
    alloc: Global,
    shards: &[Arc<Shard>],
    gate: &BothBegin,
) -> Vec<Vec<Row>> {
    let normal = above_one(rt, alloc);
    let range = ids_of(rt, alloc, &normal);
    let all = Target::AllDocs;
    let up = Direction::Asc;
    scan(
        rt, alloc, shards, &all, &normal, &range, None, 25, up, 2, gate,
    )
    .expect(rt, "memory")
}

// A shard, a place in its list, and the expected id there; `None`: the list ends before this place.
const FOUND: &[(usize, usize, Option<&str>)] = &[
    (0, 0, Some("b")),
    (0, 1, None),
    (1, 0, Some("d1")),
    (1, 1, Some("d2")),
    (1, 2, None),
];

fn is_scanned<R: Threads + Sync + Abort>(rt: &R, alloc: Global, shards: &[Arc<Shard>]) -> bool {
    let gate = BothBegin::new();
    let lists = find_rows(rt, alloc, shards, &gate);
    for (shard, place, id) in FOUND {
        if id_at(&lists, *shard, *place) != *id {
            return false;
        }
    }
    gate.is_passed()
}

// Whether an index on n is built, and both shards began before one was done.
fn is_built<R: Threads + Sync + Abort>(rt: &R, alloc: Global, shards: &[Arc<Shard>]) -> bool {
    let gate = BothBegin::new();
    let body = json(
        rt,
        alloc,
        r#"{"ddoc":"d","name":"n","index":{"fields":["n"]}}"#,
    );
    let definition = IndexDef::read(alloc, &body).expect(rt, "a definition");
    let built = build(rt, alloc, shards, &definition, 2, &gate).expect(rt, "memory");
    built.len() == 2 && gate.is_passed()
}

#[test]
fn two_shards_begun_on_scan(rt: HostRuntime) {
    let engine = two_shards(&rt, rt.alloc());
    assert!(rt; is_scanned(&rt, rt.alloc(), engine.shards()));
}

#[test]
fn two_shards_begun_on_build(rt: HostRuntime) {
    let engine = two_shards(&rt, rt.alloc());
    assert!(rt; is_built(&rt, rt.alloc(), engine.shards()));
}
