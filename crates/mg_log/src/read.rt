ghost use Rattle.std.specs.Prelude.{◌≡◌, ◌≢◌, ◌⊎◌, [], false, List, Err, IsTrue, IfErr, OnOk, OnErr};
ghost use Rattle.sqlite.specs.State.{Survives};
ghost use Rattle.mg_log.specs.Entry.{Entry};
ghost use Rattle.mg_log.specs.Log.{connection_of, IsHonest, Keeps, IsLost};

use crate::error::OpenError;
use crate::log::Log;
use crate::replay::Replay;
use crate::rows::replay_rows;
use crate::schema::is_log;
use sqlite::Alter;
use std::alloc::Global;

// Whether the log can go on after this error: the file was not at fault.
fn is_harmless(error: OpenError) -> bool
    ensures harm { (result ≡ false) ⊎ ((error ≡ OpenError.NoMemory) ⊎ (error ≡ OpenError.Stopped)) }
    ensures none { (error ≡ OpenError.NoMemory) ⊎ (error ≡ OpenError.Stopped) → IsTrue result }
{
    matches!(error, OpenError::NoMemory | OpenError::Stopped)
}

impl<S: Alter> Log<S> {
    /// Gives all commits to `replay`, one at a time. Nothing is written.
    ///
    /// Errors: `NoMemory`; `Stopped` if `replay` refuses a commit; any other error ends the log. After an error `replay` may have
    /// taken the first commits. Cost: the rows are read in pieces of up to about 256 kB.
    pub fn read<R: Replay>(&mut self, alloc: Global, replay: &mut R) -> Result<(), OpenError>
        requires { R.Replay.follows replay.old [] }
        ensures read { IsHonest S.Store self.new → (entries : List Entry) → Keeps S.Store self.old entries
            → OnOk result (R.Replay.follows replay.new entries) }
        ensures same { IsHonest S.Store self.new → (entries : List Entry) → Keeps S.Store self.old entries
            → OnOk result (Keeps S.Store self.new entries) }

        // A log that is still open after an error is as it was.
        ensures refused { IsHonest S.Store self.new → (entries : List Entry) → Keeps S.Store self.old entries
            → OnErr result (IsTrue (connection_of S.Store self.new).is_open → Keeps S.Store self.new entries) }

        // No crash leaves anything else than before the call.
        ensures crash { Survives (connection_of S.Store self.old) (connection_of S.Store self.new) (λ _. ⊥) }
        ensures ends { IfErr result (λ e. e ≢ OpenError.NoMemory → e ≢ OpenError.Stopped → IsLost self.new) }
        ensures stays { OnOk result (IsLost self.new → IsLost self.old) }
        ensures stopped { (result ≡ Err OpenError.NoMemory) ⊎ (result ≡ Err OpenError.Stopped)
            → IsLost self.new → IsLost self.old }
        ensures lost { IsLost self.old → (result ≡ Err OpenError.Lost) × (self.new ≡ self.old) }
        ensures header { self.new.header ≡ self.old.header }
    {
        if !self.is_usable {
            return Err(OpenError::Lost);
        }
        if !is_log(self.conn.schema()) {
            self.is_usable = false;
            return Err(OpenError::OtherSchema);
        }
        match replay_rows(alloc, &mut self.conn, &self.header.database, replay) {
            Ok((_header, _count)) => Ok(()),
            Err(error) => {
                self.is_usable = is_harmless(error);
                Err(error)
            }
        }
    }
}
