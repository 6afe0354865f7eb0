ghost use Rattle.std.specs.Prelude.{◌≡◌, ◌≢◌, ◌⊎◌, ◌++◌, ◌+◌, ◌-◌, ◌^◌, ◌<◌, List, Err, length, IsTrue, IfErr, IsErrAnd, OnOk, OnErr};
ghost use Rattle.sqlite.specs.Tree.{Trees};
ghost use Rattle.mg_log.specs.Entry.{Entry, entries_of};
ghost use Rattle.mg_log.specs.Failures.{IsStorageFailure};
ghost use Rattle.mg_log.specs.Rows.{ClosesIfFaulty};
ghost use Rattle.mg_log.specs.Log.{connection_of, IsHonest, IsLogOf, Keeps, may_leave, IsLost};

use crate::commit::Commit;
use crate::error::AppendError;
use crate::header::Header;
use crate::log::Log;
use crate::rows::MOST;
use crate::writing::write_group;
use sqlite::Alter;

impl<S: Alter> Log<S> {
    /// Returns what the log says of itself. Takes no memory.
    pub fn header(&self) -> &Header
        ensures { result.now ≡ self.now.header }
    {
        &self.header
    }

    /// Returns the number of commits in the file. Takes no memory.
    pub fn count(&self) -> u32
        ensures { (entries : List Entry) → Keeps S.Store self.now entries → result ≡ length entries }
    {
        self.count
    }

    /// Appends the commits, all in one transaction.
    ///
    /// Errors: `NoMemory`, if memory ran out before the commit: nothing is stored, and the log may be used again, as after `Full`. After
    /// `Storage` the commits may or may not be stored, and the log is lost: end it, and open the file again. Cost: one sync over a file
    /// opened with `Unknown`, whatever the number of commits, and two with `Wary`.
    pub fn append(&mut self, commits: &[Commit]) -> Result<(), AppendError>
        ensures appended { IsHonest S.Store self.new → (entries : List Entry) → Keeps S.Store self.old entries
            → OnOk result (Keeps S.Store self.new (entries ++ entries_of commits.now)) }

        // From then on each crash leaves a file that has them.
        ensures durable { IsHonest S.Store self.new → (entries : List Entry) → Keeps S.Store self.old entries
            → OnOk result ((db : Trees) → may_leave S.Store self.new db
            → IsLogOf self.new (entries ++ entries_of commits.now) db) }

        // A crash during the call leaves the rows before it, or those of the whole group too.
        ensures crash { IsHonest S.Store self.new → (entries : List Entry) → Keeps S.Store self.old entries
            → (db : Trees) → may_leave S.Store self.new db
            → IsLogOf self.new entries db ⊎ IsLogOf self.new (entries ++ entries_of commits.now) db }

        // After `NoMemory` and `Full` no crash leaves any of them.
        ensures not_stored { IsHonest S.Store self.new → (entries : List Entry) → Keeps S.Store self.old entries
            → (result ≡ Err AppendError.NoMemory) ⊎ (result ≡ Err AppendError.Full)
            → (db : Trees) → may_leave S.Store self.new db → IsLogOf self.new entries db }

        // A log that is still open after an error is as it was.
        ensures refused { IsHonest S.Store self.new → (entries : List Entry) → Keeps S.Store self.old entries
            → OnErr result (IsTrue (connection_of S.Store self.new).is_open → Keeps S.Store self.new entries) }

        // Any other error ends the log, and a log that has ended asks nothing of the file.
        ensures ends { IfErr result (λ e. e ≢ AppendError.NoMemory → e ≢ AppendError.Full → IsLost self.new) }
        ensures lost { IsLost self.old → (result ≡ Err AppendError.Lost) × (self.new ≡ self.old) }
        ensures was_lost { result ≡ Err AppendError.Lost → IsLost self.old }

        // A log that is not lost stays so, unless the storage fails.
        ensures stays { IsLost self.new → IsLost self.old ⊎ IsErrAnd result IsStorageFailure }

        // `Full` says that no number is left for so many commits.
        ensures full { (entries : List Entry) → Keeps S.Store self.old entries → result ≡ Err AppendError.Full
            → 2 ^ 32 - 2 < length entries + length commits.now }

        // `Ok` says that the file was open before the call: then it held what `refused` says of an earlier error.
        ensures was_open { IsHonest S.Store self.new → OnOk result (IsTrue (connection_of S.Store self.old).is_open) }

        // A file that was shut before is shut after `NoMemory` too.
        ensures stays_shut { IsHonest S.Store self.new → result ≡ Err AppendError.NoMemory
            → IsTrue (connection_of S.Store self.new).is_open → IsTrue (connection_of S.Store self.old).is_open }

        // Only a fault of the disk shuts the file, so after `NoMemory` without one the log is as it was.
        ensures closes { IsHonest S.Store self.new
            → ClosesIfFaulty (connection_of S.Store self.old) (connection_of S.Store self.new) }

        ensures header { self.new.header ≡ self.old.header }

        // A disk that is honest now was honest before.
        ensures honest { IsHonest S.Store self.new → IsHonest S.Store self.old }
    {
        if !self.is_usable {
            return Err(AppendError::Lost);
        }
        if commits.len() > (MOST - self.count) as usize {
            return Err(AppendError::Full);
        }
        let done = write_group(&mut self.conn, self.count, commits);
        match done {
            Ok(()) => self.count += commits.len() as u32,
            Err(AppendError::NoMemory) => {}
            Err(_) => self.is_usable = false,
        }
        done
    }
}
