//! A scan reads as many shards at a time as it has workers, never more, and reads each shard once.

use crate::engine_tests::DOCUMENTS;
use crate::given::packed;
use crate::scan_tests::{above_one, ids_of};
use mg_collate::Direction;
use mg_engine::{Command, Engine};
use mg_scan::{Gate, Place, Target, Workers, scan};
use mg_shard::{Md5Placement, Shard};
use std::alloc::Global;
use std::process::Abort;
use std::sync::Arc;
use std::sync::atomic::{AtomicU64, Ordering};
use std::thread::Threads;

// Counts the shards that are being read, and holds each shard that begins until as many have begun as there are workers. Counts faults: a
// shard begins while every worker is reading another, a shard begins or is done twice or is done before it began, a shard has a number
// above 3, or a wait gives up.
#[derive(Drop)]
struct AtOnce {
    workers: u64,
    begun: AtomicU64,
    being_read: AtomicU64,
    done: AtomicU64,
    faults: AtomicU64,
    // the state of each shard: 0 before it began, 1 after that, 2 after it was done
    states: [AtomicU64; 4],
}

impl AtOnce {
    fn new(workers: u64) -> AtOnce {
        AtOnce {
            workers,
            begun: AtomicU64::new(0),
            being_read: AtomicU64::new(0),
            done: AtomicU64::new(0),
            faults: AtomicU64::new(0),
            states: [
                AtomicU64::new(0),
                AtomicU64::new(0),
                AtomicU64::new(0),
                AtomicU64::new(0),
            ],
        }
    }

    // Whether all four shards began and were done without a fault.
    fn is_passed(&self) -> bool {
        let begun = self.begun.load(Ordering::SeqCst);
        let done = self.done.load(Ordering::SeqCst);
        let faults = self.faults.load(Ordering::SeqCst);
        begun == 4 && done == 4 && faults == 0
    }

    fn fault(&self) {
        self.faults.fetch_add(1, Ordering::SeqCst);
    }

    fn advance(&self, shard: usize, from: u64) {
        let Some(state) = self.states.get(shard) else {
            self.fault();
            return;
        };
        if state.fetch_add(1, Ordering::SeqCst) != from {
            self.fault();
        }
    }

    fn begin(&self) {
        if self.being_read.fetch_add(1, Ordering::SeqCst) >= self.workers {
            self.fault();
        }
        self.begun.fetch_add(1, Ordering::SeqCst);
        for _ in 0..100_000_000u64 {
            if self.begun.load(Ordering::SeqCst) >= self.workers {
                return;
            }
        }
        self.fault();
    }
}

impl Gate for AtOnce {
    fn at(&self, place: Place) {
        match place {
            Place::Snapshot => {}
            Place::ShardBegun(shard) => {
                self.advance(shard, 0);
                self.begin();
            }
            Place::ShardDone(shard) => {
                self.advance(shard, 1);
                self.done.fetch_add(1, Ordering::SeqCst);
                self.being_read.fetch_sub(1, Ordering::SeqCst);
            }
        }
    }
}

// Makes an engine with four documents on four shards.
fn four_shards<R: Threads + Sync + Abort>(rt: &R, alloc: Global) -> Engine<Md5Placement> {
    let bulk = Command::PackedBulk(packed(rt, alloc, DOCUMENTS));
    let mut engine = Engine::new(alloc, "db", Md5Placement, 4).expect(rt, "memory");
    assert!(rt; engine.step(rt, alloc, &bulk, 1).status() == 201);
    engine
}

// Counts the documents with an n above 1 that a scan with this number of workers finds.
fn count_rows<R: Threads + Sync + Abort>(
    rt: &R,
    alloc: Global,
    shards: &[Arc<Shard>],
    workers: Workers,
    gate: &AtOnce,
) -> usize {
    let normal = above_one(rt, alloc);
    let range = ids_of(rt, alloc, &normal);
    let all = Target::AllDocs;
    let up = Direction::Asc;
    let lists = scan(
        rt,
        alloc,
        shards,
        &all,
        &normal,
        &range,
        None,
        25,
        up,
        workers.count(),
        gate,
    )
    .expect(rt, "memory");
    let mut found = 0usize;
    for list in &lists {
        found = found.wrapping_add(list.len());
    }
    found
}

// Whether a scan with this number of workers reads each shard once, that many at a time, and finds the three documents with an n above 1.
fn is_scanned<R: Threads + Sync + Abort>(
    rt: &R,
    alloc: Global,
    shards: &[Arc<Shard>],
    workers: Workers,
) -> bool {
    let gate = AtOnce::new(workers.count() as u64);
    count_rows(rt, alloc, shards, workers, &gate) == 3 && gate.is_passed()
}

#[test]
fn a_scan_reads_as_many_shards_at_once_as_it_has_workers(rt: HostRuntime) {
    let engine = four_shards(&rt, rt.alloc());
    assert!(rt; is_scanned(&rt, rt.alloc(), engine.shards(), Workers::exactly(1)));
    assert!(rt; is_scanned(&rt, rt.alloc(), engine.shards(), Workers::exactly(2)));
}
