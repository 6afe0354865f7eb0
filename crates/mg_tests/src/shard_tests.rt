//! The placement of documents; what a shard lends: a served form, and its documents and rows in both directions; an index of given rows; and
//! documents dealt to more shards.
use crate::given::{check, json, packed};
use mg_collate::Direction;
use mg_engine::{Command, Engine};
use mg_index::IndexDef;
use mg_packed::Part;
use mg_rows::RowBytes;
use mg_shard::{Docs, Md5Placement, Placement, Rows, Shard, redeal};
use mg_value::Json;
use std::alloc::Global;
use std::process::Abort;
use std::thread::Threads;

// Ids, and the expected shard of each among 1, 2, 7 and 64 shards. They were computed with another implementation of MD5: the first eight
// bytes of the digest, as a big-endian number, modulo the number of shards.
const PLACES: &[(&str, [usize; 4])] = &[
    ("a", [0, 0, 6, 40]),
    ("abc", [0, 0, 0, 48]),
    ("b", [0, 0, 3, 44]),
    ("d1", [0, 1, 0, 55]),
    ("d2", [0, 1, 1, 7]),
    ("\u{e9}", [0, 0, 6, 50]),
    ("00000000000000000000000000000001", [0, 1, 3, 9]),
];

fn places(id: &str) -> [usize; 4] {
    let place = Md5Placement;
    [
        place.shard_of(id, 1),
        place.shard_of(id, 2),
        place.shard_of(id, 7),
        place.shard_of(id, 64),
    ]
}

#[test]
fn md5_placement(rt: HostRuntime) {
    for (id, wanted) in PLACES {
        check(&rt, places(id) == *wanted, id);
    }
}

// Four documents of a replica, of which `b` is deleted and `d` has no `k`.
const BULK: &str =
    r#"{"docs":[{"_id":"a","_rev":"1-x","k":2},{"_id":"b","_rev":"1-x","_deleted":true},{"_id":"c","_rev":"1-x","k":1},{"_id":"d","_rev":"1-x"}],"new_edits":false}"#;

const INDEX: &str = r#"{"index":{"fields":["k"]},"ddoc":"x","name":"k_idx"}"#;

// Makes an engine of one shard with the documents and the index.
fn engine_of<R: Threads + Sync + Abort>(rt: &R, alloc: Global) -> Engine<Md5Placement> {
    let mut engine = Engine::new(alloc, "db", Md5Placement, 1).expect(rt, "memory");
    let bulk = Command::PackedBulk(packed(rt, alloc, BULK));
    check(
        rt,
        engine.execute(rt, alloc, bulk, 1).status() == 201,
        "a bulk",
    );
    let index = Command::CreateIndex(json(rt, alloc, INDEX));
    check(
        rt,
        engine.execute(rt, alloc, index, 1).status() == 200,
        "an index",
    );
    engine
}

fn is_form<R: Abort>(rt: &R, alloc: Global, form: Option<Part<'_>>, text: &str) -> bool {
    match form {
        Some(form) => form.compact_text(alloc).expect(rt, "memory").as_slice() == text.as_bytes(),
        None => false,
    }
}

fn are_documents(documents: Docs<'_>, ids: &[&str]) -> bool {
    let mut at = 0usize;
    for (id, _) in documents {
        match ids.get(at) {
            Some(wanted) if *wanted == id => at = at.saturating_add(1),
            _ => return false,
        }
    }
    at == ids.len()
}

fn are_rows(rows: Option<Rows<'_>>, ids: &[&str]) -> bool {
    let Some(rows) = rows else {
        return false;
    };
    let mut at = 0usize;
    for row in rows {
        match ids.get(at) {
            Some(wanted) if *wanted == row.id() => at = at.saturating_add(1),
            _ => return false,
        }
    }
    at == ids.len()
}

fn is_document(document: Option<(&str, Part<'_>)>, wanted: &str) -> bool {
    match document {
        Some((id, _)) => id == wanted,
        None => false,
    }
}

fn is_row(row: Option<&RowBytes>, wanted: &str) -> bool {
    match row {
        Some(row) => row.id() == wanted,
        None => false,
    }
}

// Reads documents from both ends: each is given once.
fn are_documents_from_both_ends(mut documents: Docs<'_>) -> bool {
    is_document(documents.next_back(), "d")
        && is_document(documents.next(), "a")
        && is_document(documents.next_back(), "c")
        && documents.next().is_none()
        && documents.next_back().is_none()
}

// Reads rows from both ends: each is given once.
fn are_rows_from_both_ends(rows: Option<Rows<'_>>) -> bool {
    let Some(mut rows) = rows else {
        return false;
    };
    is_row(rows.next_back(), "a")
        && is_row(rows.next(), "c")
        && rows.next_back().is_none()
        && rows.next().is_none()
}

fn lends_documents<R: Abort>(rt: &R, alloc: Global, shard: &Shard) {
    let form = r#"{"_id":"a","_rev":"1-x","k":2}"#;
    check(rt, is_form(rt, alloc, shard.served("a"), form), "a form");
    check(rt, shard.served("b").is_none(), "a deleted document");
    check(rt, shard.served("e").is_none(), "no document");
    check(
        rt,
        are_documents(shard.docs(), &["a", "c", "d"]),
        "documents",
    );
    check(
        rt,
        are_documents_from_both_ends(shard.docs()),
        "documents from both ends",
    );
}

fn lends_rows<R: Abort>(rt: &R, alloc: Global, shard: &Shard) {
    let (ddoc, name) = ("_design/x", "k_idx");
    check(rt, are_rows(shard.rows(ddoc, name), &["c", "a"]), "rows");
    check(
        rt,
        are_rows_from_both_ends(shard.rows(ddoc, name)),
        "rows from both ends",
    );
    let first = RowBytes::of(alloc, &[Json::Whole(1)], "c").expect(rt, "memory");
    let after = shard.rows_after(ddoc, name, &first, Direction::Asc);
    check(rt, are_rows(after, &["a"]), "rows after the first");
    let after = shard.rows_after(ddoc, name, &first, Direction::Desc);
    check(rt, are_rows(after, &[]), "rows before the first");
    let last = RowBytes::of(alloc, &[Json::Whole(2)], "a").expect(rt, "memory");
    let after = shard.rows_after(ddoc, name, &last, Direction::Desc);
    check(rt, are_rows(after, &["c"]), "rows before the last");
    check(rt, shard.rows(ddoc, "j_idx").is_none(), "no index");
}

#[test]
fn a_shard_lends_its_forms_documents_and_rows(rt: HostRuntime) {
    let engine = engine_of(&rt, rt.alloc());
    match engine.shards() {
        [shard] => {
            lends_documents(&rt, rt.alloc(), shard);
            lends_rows(&rt, rt.alloc(), shard);
        }
        _ => rt.panic("one shard"),
    }
}

#[test]
fn an_index_is_made_of_its_rows(rt: HostRuntime) {
    let alloc = rt.alloc();
    let body = json(&rt, alloc, INDEX);
    let definition = IndexDef::read(alloc, &body).expect(&rt, "a definition");
    let shard = Shard::new(alloc);
    let indexed = shard
        .with_rows(alloc, &definition, Vec::new(alloc))
        .expect(&rt, "memory");
    check(
        &rt,
        are_rows(indexed.rows("_design/x", "k_idx"), &[]),
        "no rows",
    );
}

#[test]
fn documents_and_rows_are_dealt_to_more_shards(rt: HostRuntime) {
    let alloc = rt.alloc();
    let engine = engine_of(&rt, alloc);
    let dealt = redeal(alloc, engine.shards(), &Md5Placement, 2).expect(&rt, "memory");
    let (ddoc, name) = ("_design/x", "k_idx");
    match dealt.as_slice() {
        [first, second] => {
            check(&rt, are_documents(first.docs(), &["a"]), "documents");
            check(&rt, are_documents(second.docs(), &["c", "d"]), "documents");
            check(&rt, are_rows(first.rows(ddoc, name), &["a"]), "rows");
            check(&rt, are_rows(second.rows(ddoc, name), &["c"]), "rows");
        }
        _ => rt.panic("two shards"),
    }
}
