//! What the tests share: commits, logs in memory, and a replay that keeps what it takes.
use crate::given::check;
use mg_log::{Commit, Kind, Log, OpenError, Replay, Stopped};
use sqlite::{Alter, Connection, MemStore};
use std::alloc::Global;
use std::process::Abort;

/// Takes at most so many commits, and keeps them.
#[derive(Drop)]
pub(crate) struct Taken {
    pub(crate) commits: Vec<Commit>,
    most: usize,
}

impl Replay for Taken {
    ghost use Rattle.std.specs.Prelude.{⊤};

    ghost follows = { λ _ _. ⊤ };

    fn take(&mut self, commit: Commit) -> Result<(), Stopped> {
        if self.commits.len() >= self.most {
            return Err(Stopped);
        }
        match self.commits.push(commit) {
            Ok(()) => Ok(()),
            Err(_) => Err(Stopped),
        }
    }
}

pub(crate) fn at_most(alloc: Global, most: usize) -> Taken {
    Taken {
        commits: Vec::new(alloc),
        most,
    }
}

pub(crate) fn commit<R: Abort + AllocGlobal>(rt: &R, kind: Kind, body: &str) -> Commit {
    Commit {
        kind,
        body: String::from_str(rt.alloc(), body).expect(rt, "memory"),
    }
}

/// Three commits, of three kinds.
pub(crate) fn group<R: Abort + AllocGlobal>(rt: &R) -> Vec<Commit> {
    let commits = [
        commit(rt, Kind::Bulk, "{\"docs\":[{\"_id\":\"a\"}]}"),
        commit(rt, Kind::CreateIndex, "{\"index\":{\"fields\":[\"a\"]}}"),
        commit(rt, Kind::DropIndex, "{}"),
    ];
    Vec::from_array(rt.alloc(), commits).expect(rt, "memory")
}

/// Opens the log of `fruit`, and keeps only the error of a refused one.
pub(crate) fn opened<S: Alter + Drop>(
    alloc: Global,
    conn: Connection<S>,
    seen: &mut Taken,
) -> Result<Log<S>, OpenError> {
    if !conn.is_autocommit() {
        return Err(OpenError::Lost);
    }
    match Log::open(alloc, conn, "fruit", seen) {
        Ok(log) => Ok(log),
        Err((error, _)) => Err(error),
    }
}

/// A database in memory after these statements.
pub(crate) fn in_memory<R: Abort + AllocGlobal>(rt: &R, text: &str) -> Connection<MemStore> {
    let mut conn = Connection::open_in_memory(rt.alloc()).expect(rt, "memory");
    check(rt, conn.execute_batch(text).is_ok(), text);
    conn
}

pub(crate) fn new_log<R: Abort + AllocGlobal>(rt: &R) -> Log<MemStore> {
    opened(rt.alloc(), in_memory(rt, ""), &mut at_most(rt.alloc(), 0)).expect(rt, "a new log")
}
