//! Logs in memory: what is written is read again, in its order, and stands in the table as the documents show it.
use crate::given::check;
use crate::log_tests::given::{Taken, at_most, commit, group, in_memory, new_log, opened};
use mg_log::{Commit, Kind, Log, OpenError};
use sqlite::{Connection, MemStore};
use std::process::Abort;

// Whether the replay has the three commits of a group first.
fn has_group(seen: &Taken) -> bool {
    if seen.commits.len() < 3 {
        return false;
    }
    seen.commits[0].kind == Kind::Bulk
        && seen.commits[0].body.as_str() == "{\"docs\":[{\"_id\":\"a\"}]}"
        && seen.commits[1].kind == Kind::CreateIndex
        && seen.commits[1].body.as_str() == "{\"index\":{\"fields\":[\"a\"]}}"
        && seen.commits[2].kind == Kind::DropIndex
        && seen.commits[2].body.as_str() == "{}"
}

fn has_four<R: Abort + AllocGlobal>(rt: &R, seen: &Taken) {
    assert!(rt; seen.commits.len() == 4);
    check(rt, has_group(seen), "the first three");
    check(rt, seen.commits[3].kind == Kind::Reshard, "the last kind");
    check(
        rt,
        seen.commits[3].body.as_str() == "{\"shards\":2}",
        "the last body",
    );
}

// A log with four commits, in two groups.
fn four<R: Abort + AllocGlobal>(rt: &R) -> Log<MemStore> {
    let mut log = new_log(rt);
    check(rt, log.append(&group(rt)).is_ok(), "three");
    check(rt, log.append(&[]).is_ok(), "none");
    let last = [commit(rt, Kind::Reshard, "{\"shards\":2}")];
    check(rt, log.append(&last).is_ok(), "one");
    log
}

#[test]
fn an_open_log_is_read_in_its_order(rt: HostRuntime) {
    let mut log = four(&rt);
    check(&rt, log.count() == 4, "count");
    let mut seen = at_most(rt.alloc(), 4);
    check(&rt, log.read(rt.alloc(), &mut seen).is_ok(), "read");
    has_four(&rt, &seen);
}

#[test]
fn a_log_that_is_opened_again_is_read_in_its_order(rt: HostRuntime) {
    let conn = four(&rt).into_connection();
    let mut seen = at_most(rt.alloc(), 4);
    let log = opened(rt.alloc(), conn, &mut seen).expect(&rt, "open");
    check(&rt, log.count() == 4, "count");
    check(&rt, log.header().database.as_str() == "fruit", "name");
    check(
        &rt,
        log.header().counter == 0 && log.header().commits == 0,
        "header",
    );
    has_four(&rt, &seen);
}

#[test]
fn a_long_log_is_read_whole(rt: HostRuntime) {
    let mut log = new_log(&rt);
    let mut commits: Vec<Commit> = Vec::new(rt.alloc());
    for _ in 0..3000u32 {
        let one = commit(
            &rt,
            Kind::Bulk,
            "{\"docs\":[{\"_id\":\"apple\"},{\"_id\":\"pear\"}]}",
        );
        check(&rt, commits.push(one).is_ok(), "memory");
    }
    check(&rt, log.append(&commits).is_ok(), "append");
    let mut seen = at_most(rt.alloc(), 3000);
    check(&rt, log.read(rt.alloc(), &mut seen).is_ok(), "read");
    check(&rt, seen.commits.len() == 3000, "all");
}

fn text_at<R: Abort + AllocGlobal>(rt: &R, conn: &mut Connection<MemStore>, text: &str) -> String {
    let row = conn.query_row(text, &[]).expect(rt, "row");
    row.get(0).expect(rt, "text")
}

#[test]
fn the_table_has_the_rows_that_the_documents_show(rt: HostRuntime) {
    let mut conn = four(&rt).into_connection();
    let cases = [
        ("SELECT kind FROM commits WHERE number = 0", "header"),
        (
            "SELECT body FROM commits WHERE number = 0",
            "{\"commits\":0,\"counter\":0,\"database\":\"fruit\",\"mark\":\"mango_server 1\"}",
        ),
        ("SELECT kind FROM commits WHERE number = 1", "bulk"),
        ("SELECT kind FROM commits WHERE number = 2", "create_index"),
        ("SELECT kind FROM commits WHERE number = 3", "drop_index"),
        ("SELECT kind FROM commits WHERE number = 4", "reshard"),
        (
            "SELECT body FROM commits WHERE number = 4",
            "{\"shards\":2}",
        ),
    ];
    for (text, want) in cases {
        check(&rt, text_at(&rt, &mut conn, text).as_str() == want, text);
    }
}

#[test]
fn a_log_that_sqlite3_wrote_is_read(rt: HostRuntime) {
    let conn = in_memory(
        &rt,
        "CREATE TABLE commits (number INTEGER PRIMARY KEY, kind TEXT NOT NULL, body TEXT NOT NULL) STRICT; INSERT INTO commits VALUES (1, 'reshard', '{}'), (0, 'header', '{\"mark\":\"mango_server 1\",\"note\":null,\"database\":\"fruit\",\"counter\":12,\"commits\":1}')",
    );
    let mut seen = at_most(rt.alloc(), 1);
    let log = opened(rt.alloc(), conn, &mut seen).expect(&rt, "open");
    check(&rt, log.count() == 1, "count");
    check(&rt, log.header().counter == 12, "counter");
    check(&rt, log.header().commits == 1, "commits");
}

#[test]
fn a_replay_that_stops_ends_a_read_and_not_the_log(rt: HostRuntime) {
    let mut log = four(&rt);
    let stopped = log.read(rt.alloc(), &mut at_most(rt.alloc(), 1));
    check(&rt, stopped == Err(OpenError::Stopped), "read");
    check(&rt, log.append(&group(&rt)).is_ok(), "append");
    let refused = opened(
        rt.alloc(),
        log.into_connection(),
        &mut at_most(rt.alloc(), 6),
    )
    .err();
    check(&rt, refused == Some(OpenError::Stopped), "open");
}
