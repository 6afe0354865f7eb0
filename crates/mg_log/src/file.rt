//! A log in a file.
ghost use Rattle.std.specs.Prelude.{◌≡◌, ◌⊎◌, ◌++◌, [], true, List, string_bytes, IfOk, OnOk};
ghost use Rattle.sqlite.specs.Tree.{Trees};
ghost use Rattle.sqlite.specs.Files.{over_files, HoldsDatabase};
ghost use Rattle.sqlite.specs.WalFiles.{image_at};
ghost use Rattle.sqlite.specs.Recovery.{Image};
ghost use Rattle.sqlite.specs.FileStore.{view, state as files_state};
ghost use Rattle.sqlite_trees.specs.View.{IsClean};
ghost use Rattle.mg_log.specs.Header.{Heading, heading_of};
ghost use Rattle.mg_log.specs.Entry.{Entry, entries_of};
ghost use Rattle.mg_log.specs.Rows.{IsLogIn};
ghost use Rattle.mg_log.specs.Log.{IsHonest, Keeps};
ghost use Rattle.mg_log.specs.Files.{HoldsLog, HoldsEither};

use crate::commit::Commit;
use crate::error::{AppendError, OpenError};
use crate::log::Log;
use crate::replay::Replay;
use sqlite::{Connection, FileFrom, FileStore, Start};
use sqlite_disk::Disk;

/// Opens the log of a database in the file at `path`, or makes it there. Gives its commits to `replay`, one at a time.
///
/// The write-ahead log stands beside the file, as `path-wal`; keep the two together. `start` says how a crash before this open is read:
/// `Unknown` supposes that a torn write leaves each byte old or new, `Wary` does not, and then a group costs two syncs.
///
/// Errors: one for each reason, and a file that held a database holds the same; a refused open of an empty or missing file may leave
/// two files that hold no database yet. Cost: the file is read and tested whole, and then its rows are read in pieces of 256 kB.
pub fn open_file<S: Start, R: Replay>(
    rt: &HostRuntime,
    path: &str,
    start: S,
    database: &str,
    replay: &mut R,
) -> Result<Log<FileStore<FileFrom<S>>>, OpenError>
    requires { R.Replay.follows replay.old [] }

    // What is read are the rows: `replay` follows the commits that the log has.
    ensures opened { IfOk result (λ log. (entries : List Entry) × R.Replay.follows replay.new entries
        × (IsHonest over_files log → Keeps over_files log entries)) }

    // These are the commits that the files held.
    ensures found { IfOk result (λ log. IsHonest over_files log → (db : Trees) (h : Heading) (entries : List Entry)
        → HoldsDatabase (image_at S.Start) db → IsLogIn h entries db
        → (heading_of log.header ≡ h) × Keeps over_files log entries × R.Replay.follows replay.new entries) }
    ensures named { IfOk result (λ log. string_bytes log.header.database ≡ database.now) }
    ensures usable { IfOk result (λ log. log.is_usable ≡ true) }
{
    let conn = match Connection::open_from(rt, path, false, start) {
        Ok(conn) => conn,
        Err((error, _)) => return Err(OpenError::from(error)),
    };
    match Log::open(rt.alloc(), conn, database, replay) {
        Ok(log) => Ok(log),
        Err((error, _)) => Err(error),
    }
}

impl<D: Disk + Drop> Log<FileStore<D>> {
    /// Appends the commits and stops. The run over two disks that fail from some call on stands for a crash at that moment.
    pub fn append_last(mut self, commits: &[Commit]) -> (Result<(), AppendError>, FileStore<D>)
        // Whatever a crash leaves of the two files holds the log as it was, or with all of the commits.
        ensures crash { IsClean (view result.1) → (entries : List Entry) → Keeps over_files self entries
            → (left : Image) → (files_state result.1).may_leave left
            → HoldsEither (heading_of self.header) entries (entries ++ entries_of commits.now) left }

        // After `Ok` it holds them all.
        ensures durable { IsClean (view result.1) → (entries : List Entry) → Keeps over_files self entries
            → OnOk result.0 ((left : Image) → (files_state result.1).may_leave left
            → HoldsLog (heading_of self.header) (entries ++ entries_of commits.now) left) }
    {
        let result = self.append(commits);
        (result, self.into_connection().into_store())
    }
}
