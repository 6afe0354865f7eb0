//! Files in memory that fail: all of a group is left or none of it, and a log that has failed is not used again.
use crate::given::check;
use crate::log_tests::disks::Full;
use crate::log_tests::given::{Taken, at_most, group, opened};
use mg_log::{AppendError, Log, OpenError};
use sqlite::{Connection, Error, ErrorCode, FileStore, Files, Options};
use sqlite_disk::{Crash, Disk, Fuse, Memory};
use std::alloc::Global;
use std::process::Abort;

fn connected<D: Disk + Drop>(
    alloc: Global,
    files: Files<D>,
) -> Result<Connection<FileStore<D>>, OpenError> {
    if !files.may_be_used() {
        return Err(OpenError::Lost);
    }
    match Connection::open_files(alloc, files, Options::new(7)) {
        Ok(conn) => Ok(conn),
        Err((error, _)) => Err(OpenError::from(error)),
    }
}

fn reached<D: Disk + Drop>(
    alloc: Global,
    files: Files<D>,
    seen: &mut Taken,
) -> Result<Log<FileStore<D>>, OpenError> {
    match connected(alloc, files) {
        Ok(conn) => opened(alloc, conn, seen),
        Err(error) => Err(error),
    }
}

// The files of a log with three commits, as a process that ended leaves them.
fn base<R: Abort + AllocGlobal>(rt: &R) -> Files<Memory> {
    let files = Files {
        log: Memory::new(rt.alloc()),
        db: Memory::new(rt.alloc()),
    };
    let mut log = reached(rt.alloc(), files, &mut at_most(rt.alloc(), 0)).expect(rt, "new files");
    check(rt, log.append(&group(rt)).is_ok(), "append");
    log.into_connection().close_files().ok().expect(rt, "close")
}

fn copy<R: Abort + AllocGlobal>(rt: &R, file: &Memory, len: usize) -> Memory {
    let mut other = Memory::new(rt.alloc());
    let bytes = file.bytes();
    let front = bytes.get(..len).unwrap_or(bytes);
    check(rt, other.write_at(0, front).is_ok(), "write");
    check(rt, other.sync().is_ok(), "sync");
    other
}

// Appends three commits to the files. `None` if they were not opened.
fn append_to<R: Abort + AllocGlobal, D: Disk + Drop>(
    rt: &R,
    files: Files<D>,
) -> Option<(Result<(), AppendError>, Files<D>)> {
    let mut log = reached(rt.alloc(), files, &mut at_most(rt.alloc(), 9)).ok()?;
    let done = log.append(&group(rt));
    let again = log.append(&[]);
    check(
        rt,
        done.is_ok() || again == Err(AppendError::Lost),
        "used again",
    );
    Some((done, log.into_connection().into_store().close()))
}

// How many commits the files have.
fn count_in<R: Abort + AllocGlobal, D: Disk + Drop>(rt: &R, files: Files<D>) -> u32 {
    let mut seen = at_most(rt.alloc(), 9);
    reached(rt.alloc(), files, &mut seen)
        .expect(rt, "open after a failure")
        .count()
}

// Checks what was left. Returns whether the commits were acknowledged.
fn is_all_or_none<R: Abort + AllocGlobal>(
    rt: &R,
    done: Result<(), AppendError>,
    count: u32,
) -> bool {
    if done.is_ok() {
        check(rt, count == 6, "acknowledged");
    } else {
        check(rt, count == 3 || count == 6, "all or none");
    }
    done.is_ok()
}

// Whether the append was acknowledged, where the file of the log passes so many calls on and then crashes.
fn crashed_after<R: Abort + AllocGlobal>(rt: &R, base: &Files<Memory>, calls: u64) -> Option<bool> {
    let files = Files {
        log: Fuse::new(copy(rt, &base.log, usize::MAX), calls),
        db: Fuse::new(copy(rt, &base.db, usize::MAX), u64::MAX),
    };
    let (done, mut left) = append_to(rt, files)?;
    left.log.crash();
    left.db.crash();
    Some(is_all_or_none(rt, done, count_in(rt, left)))
}

#[test]
fn a_crash_at_any_call_leaves_all_or_none(rt: HostRuntime) {
    let base = base(&rt);
    let (mut stored, mut lost) = (0u32, 0u32);
    for calls in 0..40u64 {
        match crashed_after(&rt, &base, calls) {
            Some(true) => stored = stored.saturating_add(1),
            Some(false) => lost = lost.saturating_add(1),
            None => {}
        }
    }
    check(&rt, 0 < stored, "some append is acknowledged");
    check(&rt, 0 < lost, "some append is lost");
}

// Whether the append was acknowledged, where the disk has so many bytes for the file of the log.
fn full_after<R: Abort + AllocGlobal>(rt: &R, base: &Files<Memory>, room: usize) -> Option<bool> {
    let files = Files {
        log: Full::new(copy(rt, &base.log, usize::MAX), room),
        db: Full::new(copy(rt, &base.db, usize::MAX), usize::MAX),
    };
    let (done, left) = append_to(rt, files)?;
    if let Err(error) = done {
        let full = AppendError::Storage(Error::SqliteFailure(ErrorCode::DiskFull));
        check(rt, error == full, "a full disk");
    }
    let left = Files {
        log: left.log.into_inner(),
        db: left.db.into_inner(),
    };
    Some(is_all_or_none(rt, done, count_in(rt, left)))
}

#[test]
fn a_full_disk_leaves_all_or_none(rt: HostRuntime) {
    let base = base(&rt);
    let roomy = full_after(&rt, &base, 1 << 20);
    check(&rt, roomy == Some(true), "room for a megabyte");
    let scarce = full_after(&rt, &base, 2000);
    check(&rt, scarce == Some(false), "room for less than a page");
}

#[test]
fn the_last_append_is_found_in_the_files(rt: HostRuntime) {
    let log = reached(rt.alloc(), base(&rt), &mut at_most(rt.alloc(), 3)).expect(&rt, "open");
    let (done, store) = log.append_last(&group(&rt));
    check(&rt, done.is_ok(), "append");
    check(&rt, count_in(&rt, store.close()) == 6, "found");
}

#[test]
fn half_a_file_is_refused(rt: HostRuntime) {
    let files = base(&rt);
    let half = Files {
        log: Memory::new(rt.alloc()),
        db: copy(&rt, &files.db, files.db.bytes().len() / 2),
    };
    let refused = connected(rt.alloc(), half).err();
    check(&rt, refused == Some(OpenError::Damaged), "half");
}
