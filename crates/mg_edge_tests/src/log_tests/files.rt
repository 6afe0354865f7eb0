//! Logs in real files.
use crate::given::check;
use crate::log_tests::given::{at_most, group};
use mg_log::{OpenError, open_file};
use sqlite::Unknown;
use std::fs;

// Opens the file, and counts its commits.
fn count_at(rt: &HostRuntime, path: &str, database: &str) -> Result<u32, OpenError> {
    let mut seen = at_most(rt.alloc(), 9);
    match open_file(rt, path, Unknown, database, &mut seen) {
        Ok(log) => Ok(log.count()),
        Err(error) => Err(error),
    }
}

const LOG: &str = "mg_log_test.db";

const WRITE_AHEAD: &str = "mg_log_test.db-wal";

fn remove(rt: &HostRuntime) {
    let _ = fs::remove_file(rt, LOG);
    let _ = fs::remove_file(rt, WRITE_AHEAD);
}

#[test]
fn a_file_has_one_opener_and_one_name(rt: HostRuntime) {
    remove(&rt);
    let mut none = at_most(rt.alloc(), 0);
    let mut log = open_file(&rt, LOG, Unknown, "fruit", &mut none).expect(&rt, "a new file");
    check(&rt, log.append(&group(&rt)).is_ok(), "append");
    let held = count_at(&rt, LOG, "fruit");
    check(&rt, held == Err(OpenError::Held), "held");
    check(&rt, log.append(&group(&rt)).is_ok(), "append again");
    drop(log);
    let other = count_at(&rt, LOG, "other");
    check(&rt, other == Err(OpenError::OtherDatabase), "name");
    check(&rt, count_at(&rt, LOG, "fruit") == Ok(6), "found");
    remove(&rt);
}

const TEXT: &str = "mg_log_test.txt";

#[test]
fn a_file_that_is_no_database_stays_as_it_is(rt: HostRuntime) {
    check(&rt, fs::write(&rt, TEXT, "not a database").is_ok(), "write");
    let refused = count_at(&rt, TEXT, "fruit");
    check(&rt, refused == Err(OpenError::Damaged), "no database");
    let left = fs::read_to_string(&rt, TEXT).expect(&rt, "read");
    check(&rt, left.as_str() == "not a database", "as it was");
    let _ = fs::remove_file(&rt, TEXT);
}
