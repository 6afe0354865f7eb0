//! Queries over two shards. Each shard must be begun, by a thread of its own, before the other is done.
use crate::given::json;
use crate::scan_tests::BothBegin;
use mg_engine::{Command, Engine};
use mg_query::{Query, Reads, page, page_text};
use mg_scan::{NoGate, Workers};
use mg_shard::Md5Placement;
use std::alloc::Global;
use std::process::Abort;
use std::thread::Threads;

// By their MD5, a and b are on the first of two shards, d1 and d2 on the second.
pub(crate) const DOCUMENTS: &str =
    r#"{"docs":[{"_id":"d2","_rev":"1-a","n":4},{"_id":"b","_rev":"1-a","n":2},{"_id":"d1","_rev":"1-a","n":3},{"_id":"a","_rev":"1-a","n":1}],"new_edits":false}"#;

pub(crate) const IDS: &str = r#"{"selector":{},"fields":["_id"]}"#;

// The page of these ids. Its bookmark spells `[null,"_all_docs","asc",["d2"],"d2"]`.
pub(crate) const PAGE: &str =
    "{\"bookmark\":\"W251bGwsIl9hbGxfZG9jcyIsImFzYyIsWyJkMiJdLCJkMiJd\",\"docs\":[{\"_id\":\"a\"},{\"_id\":\"b\"},{\"_id\":\"d1\"},{\"_id\":\"d2\"}]}\n";

// Makes an engine with these documents on two shards.
pub(crate) fn two_shards<R: Threads + Sync + Abort>(rt: &R, alloc: Global) -> Engine<Md5Placement> {
    let bulk = Command::Bulk(json(rt, alloc, DOCUMENTS));
    let mut engine = Engine::new(alloc, "db", Md5Placement, 2).expect(rt, "memory");
    assert!(rt; engine.step(rt, alloc, &bulk, 1).status() == 201);
    engine
}

// Whether the query for all ids gives the expected page, and both shards began before one was done.
fn is_answered<R: Threads + Sync + Abort>(
    rt: &R,
    alloc: Global,
    engine: &Engine<Md5Placement>,
) -> bool {
    let gate = BothBegin::new();
    let find = Command::Find(json(rt, alloc, IDS));
    let reply = engine.answer(rt, alloc, &find, 2, &gate);
    reply.body() == PAGE.as_bytes() && gate.is_passed()
}

// Whether the page has two documents, each shard hands over two rows for it, and three rows are taken, since one is skipped; and whether
// both shards began before one was done.
fn has_page<R: Threads + Sync>(
    rt: &R,
    alloc: Global,
    engine: &Engine<Md5Placement>,
    query: &Query<'_>,
) -> bool {
    let gate = BothBegin::new();
    let catalog = engine.catalog();
    let shards = engine.shards();
    let Ok((found, work)) = page(rt, alloc, query, catalog, shards, 2, &gate) else {
        return false;
    };
    found.docs.len() == 2
        && work.handed() == [2, 2].as_slice()
        && work.taken() == 3
        && gate.is_passed()
}

// Whether a query for two documents after a skip of one is answered as `has_page` says.
fn is_paged<R: Threads + Sync + Abort>(
    rt: &R,
    alloc: Global,
    engine: &Engine<Md5Placement>,
) -> bool {
    let body = json(rt, alloc, r#"{"selector":{},"limit":2,"skip":1}"#);
    let Ok(query) = Query::read(alloc, &body) else {
        return false;
    };
    has_page(rt, alloc, engine, &query)
}

#[test]
fn two_shards_begun_on_answer(rt: HostRuntime) {
    let engine = two_shards(&rt, rt.alloc());
    assert!(rt; is_answered(&rt, rt.alloc(), &engine));
}

#[test]
fn two_shards_begun_on_page(rt: HostRuntime) {
    let engine = two_shards(&rt, rt.alloc());
    assert!(rt; is_paged(&rt, rt.alloc(), &engine));
}

// The page of b and d1, whose bookmark spells `[null,"_all_docs","asc",["d1"],"d1"]`.
const PULLED: &str =
    "{\"bookmark\":\"W251bGwsIl9hbGxfZG9jcyIsImFzYyIsWyJkMSJdLCJkMSJd\",\"docs\":[{\"_id\":\"b\",\"_rev\":\"1-a\",\"n\":2},{\"_id\":\"d1\",\"_rev\":\"1-a\",\"n\":3}]}";

// Whether one worker finds the page after a skip of one. It pulls a, b and d1, and d2 as the next row of the second shard; the first shard has
// no other row. The documents of b and d1 are looked up.
fn is_pulled<R: Threads + Sync>(
    rt: &R,
    alloc: Global,
    engine: &Engine<Md5Placement>,
    query: &Query<'_>,
) -> bool {
    let catalog = engine.catalog();
    let shards = engine.shards();
    let workers = Workers::most(1);
    let Ok((text, reads)) = page_text(rt, alloc, query, catalog, shards, workers, &NoGate) else {
        return false;
    };
    match reads {
        Reads::Pulled { rows, documents } => {
            rows == 4 && documents == 2 && text.as_slice() == PULLED.as_bytes()
        }
        Reads::Handed(_) => false,
    }
}

#[test]
fn a_page_of_one_thread_tells_what_it_read(rt: HostRuntime) {
    let alloc = rt.alloc();
    let engine = two_shards(&rt, alloc);
    let body = json(&rt, alloc, r#"{"selector":{},"limit":2,"skip":1}"#);
    match Query::read(alloc, &body) {
        Ok(query) => assert!(rt; is_pulled(&rt, alloc, &engine, &query)),
        Err(_) => assert!(rt; false),
    }
}
