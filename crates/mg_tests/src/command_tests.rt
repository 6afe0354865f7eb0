//! Commands that are lent: an engine that commits one, and services that are asked. The body of a bulk is a `Json`, or packed.
use crate::engine_tests::{DOCUMENTS, IDS, PAGE};
use crate::given::{json, packed};
use mg_engine::{Command, Engine, Reply};
use mg_http::{Service, Solo};
use mg_scan::NoGate;
use mg_shard::Md5Placement;
use std::alloc::Global;
use std::process::Abort;
use std::sync::Wait;
use std::thread::Threads;

// The page of an empty database.
const NOTHING: &str = "{\"bookmark\":\"nil\",\"docs\":[]}\n";

// A service that is only asked: it executes by the body that the trait gives.
#[derive(Drop)]
struct Asked {
    engine: Engine<Md5Placement>,
}

impl Service for Asked {
    ghost answers = { λ _ _ _ _. Unit {0} };

    fn ask<H: Wait + Threads + Sync>(&mut self, rt: &H, alloc: Global, command: &Command) -> Reply {
        self.engine.step(rt, alloc, command, 1)
    }
}

fn empty<R: Abort>(rt: &R, alloc: Global) -> Engine<Md5Placement> {
    Engine::new(alloc, "db", Md5Placement, 2).expect(rt, "memory")
}

// Whether a query for all ids gives this page.
fn has_page<R: Threads + Sync + Abort>(
    rt: &R,
    alloc: Global,
    engine: &Engine<Md5Placement>,
    page: &str,
) -> bool {
    let find = Command::Find(json(rt, alloc, IDS));
    engine.answer(rt, alloc, &find, 1, &NoGate).body() == page.as_bytes()
}

// Whether a commit of the bulk gives an engine with the documents, and leaves the first engine without them.
fn is_committed<R: Threads + Sync + Abort>(rt: &R, alloc: Global, bulk: &Command) -> bool {
    if !bulk.is_write() {
        return false;
    }
    let engine = empty(rt, alloc);
    let (reply, next) = engine.commit(rt, alloc, bulk, 2);
    let Some(next) = next else {
        return false;
    };
    reply.status() == 201
        && has_page(rt, alloc, &next, PAGE)
        && has_page(rt, alloc, &engine, NOTHING)
}

// Whether the service is asked for the bulk and then for all ids, and executes the same query again.
pub(crate) fn is_served<H: Wait + Threads + Sync + Abort, S: Service>(
    rt: &H,
    alloc: Global,
    service: &mut S,
    bulk: &Command,
) -> bool {
    let find = Command::Find(json(rt, alloc, IDS));
    service.ask(rt, alloc, bulk).status() == 201
        && service.ask(rt, alloc, &find).body() == PAGE.as_bytes()
        && service.execute(rt, alloc, find).body() == PAGE.as_bytes()
}

#[test]
fn a_bulk_is_committed_as_a_json_and_packed(rt: HostRuntime) {
    let alloc = rt.alloc();
    let bulk = Command::Bulk(json(&rt, alloc, DOCUMENTS));
    assert!(rt; is_committed(&rt, alloc, &bulk));
    let bulk = Command::PackedBulk(packed(&rt, alloc, DOCUMENTS));
    assert!(rt; is_committed(&rt, alloc, &bulk));
}

#[test]
fn an_engine_is_asked_for_a_bulk(rt: HostRuntime) {
    let alloc = rt.alloc();
    let mut service = Solo {
        engine: empty(&rt, alloc),
        workers: 2,
    };
    let bulk = Command::Bulk(json(&rt, alloc, DOCUMENTS));
    assert!(rt; is_served(&rt, alloc, &mut service, &bulk));
}

#[test]
fn a_service_that_is_asked_executes_too(rt: HostRuntime) {
    let alloc = rt.alloc();
    let mut service = Asked {
        engine: empty(&rt, alloc),
    };
    let bulk = Command::Bulk(json(&rt, alloc, DOCUMENTS));
    assert!(rt; is_served(&rt, alloc, &mut service, &bulk));
}
