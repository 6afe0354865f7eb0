//! Databases that are no log of this name: each is refused by its reason, and the reason has its text.
use crate::given::check;
use crate::log_tests::given::{at_most, in_memory, opened};
use mg_log::{AppendError, OpenError};
use sqlite::{Error, ErrorCode};
use std::process::Abort;

const LOG: &str =
    "CREATE TABLE commits (number INTEGER PRIMARY KEY, kind TEXT NOT NULL, body TEXT NOT NULL) STRICT; INSERT INTO commits VALUES (0, 'header', '{\"mark\":\"mango_server 1\",\"database\":\"fruit\",\"counter\":0,\"commits\":0}')";

// Why a log is refused after this statement.
fn refusal<R: Abort + AllocGlobal>(rt: &R, text: &str) -> Option<OpenError> {
    let mut conn = in_memory(rt, LOG);
    check(rt, conn.execute_batch(text).is_ok(), text);
    opened(rt.alloc(), conn, &mut at_most(rt.alloc(), 9)).err()
}

const OTHER_SCHEMAS: [&str; 4] = [
    "DROP TABLE commits; CREATE TABLE note (a)",
    "CREATE TABLE note (a)",
    "CREATE INDEX by_kind ON commits (kind)",
    "DROP TABLE commits; CREATE TABLE commits (number INTEGER PRIMARY KEY, kind TEXT NOT NULL, body TEXT NOT NULL)",
];

const OTHER_PROGRAMS: [&str; 5] = [
    "DELETE FROM commits",
    "UPDATE commits SET kind = 'bulk'",
    "UPDATE commits SET body = '{}'",
    "UPDATE commits SET body = 'x'",
    "UPDATE commits SET body = replace(body, 'server 1', 'server 2')",
];

const DAMAGED: [&str; 6] = [
    "UPDATE commits SET body = '{\"mark\":\"mango_server 1\"}'",
    "UPDATE commits SET body = replace(body, '\"counter\":0', '\"counter\":-1')",
    "UPDATE commits SET body = replace(body, '\"fruit\"', '7')",
    "INSERT INTO commits VALUES (2, 'bulk', '{}')",
    "INSERT INTO commits VALUES (-1, 'bulk', '{}')",
    "INSERT INTO commits VALUES (1, 'bulks', '{}')",
];

#[test]
fn each_refusal_has_its_reason(rt: HostRuntime) {
    check(&rt, refusal(&rt, "").is_none(), "a log");
    for text in OTHER_SCHEMAS {
        check(
            &rt,
            refusal(&rt, text) == Some(OpenError::OtherSchema),
            text,
        );
    }
    for text in OTHER_PROGRAMS {
        check(
            &rt,
            refusal(&rt, text) == Some(OpenError::OtherProgram),
            text,
        );
    }
    for text in DAMAGED {
        check(&rt, refusal(&rt, text) == Some(OpenError::Damaged), text);
    }
    let other = refusal(
        &rt,
        "UPDATE commits SET body = replace(body, 'fruit', 'Fruit')",
    );
    check(&rt, other == Some(OpenError::OtherDatabase), "a name");
}

fn open_text<R: Abort + AllocGlobal>(rt: &R, error: OpenError) -> String {
    format!(in rt.alloc(); "{error}").expect(rt, "memory")
}

fn append_text<R: Abort + AllocGlobal>(rt: &R, error: AppendError) -> String {
    format!(in rt.alloc(); "{error}").expect(rt, "memory")
}

#[test]
fn each_reason_has_its_text(rt: HostRuntime) {
    let cases = [
        (OpenError::Held, "the file is held by another process"),
        (OpenError::Damaged, "the file is damaged"),
        (OpenError::OtherSchema, "the file has another schema"),
        (
            OpenError::OtherProgram,
            "the file belongs to another program",
        ),
        (OpenError::OtherDatabase, "the file has another database"),
    ];
    for (error, want) in cases {
        check(&rt, open_text(&rt, error).as_str() == want, want);
    }
    let full = AppendError::Storage(Error::SqliteFailure(ErrorCode::DiskFull));
    check(
        &rt,
        append_text(&rt, full).as_str()
            == "the commits may or may not be stored: database or disk is full",
        "a full disk",
    );
}
