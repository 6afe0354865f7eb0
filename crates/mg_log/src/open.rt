ghost use Rattle.std.specs.Prelude.{◌≡◌, [], true, false, List, string_bytes, IsTrue, IfOk, IfErr};
ghost use Rattle.sqlite.specs.State.{Survives};
ghost use Rattle.sqlite.specs.Held.{state};
ghost use Rattle.mg_log.specs.Table.{no_schema};
ghost use Rattle.mg_log.specs.Header.{Heading, IsHeaderText, heading_of, new_heading};
ghost use Rattle.mg_log.specs.Entry.{Entry};
ghost use Rattle.mg_log.specs.Rows.{IsLogIn, IsFirstLog};
ghost use Rattle.mg_log.specs.Log.{connection_of, IsHonest, Keeps};

use crate::error::OpenError;
use crate::header::{Header, new_text};
use crate::log::Log;
use crate::replay::Replay;
use crate::rows::replay_rows;
use crate::schema::{is_blank, is_log};
use crate::writing::create;
use sqlite::{Alter, Connection};
use std::alloc::Global;

// Makes the header of a new log, and its text.
fn new_header(alloc: Global, database: &str) -> Result<(Header, String), OpenError>
    ensures header { IfOk result (λ r. heading_of r.0 ≡ new_heading database.now) }
    ensures text { IfOk result (λ r. IsHeaderText (new_heading database.now) (string_bytes r.1)) }
{
    let text = new_text(alloc, database)?;
    let database = String::from_str(alloc, database)?;
    Ok((
        Header {
            database,
            counter: 0,
            commits: 0,
        },
        text,
    ))
}

impl<S: Alter> Log<S> {
    // Makes the log of an empty database.
    fn make(
        alloc: Global,
        mut conn: Connection<S>,
        database: &str,
    ) -> Result<Log<S>, (OpenError, Connection<S>)>
        requires idle { (state S.Store conn).in_transaction ≡ false }
        requires blank { (state S.Store conn).now.schema ≡ no_schema }
        ensures made { IfOk result (λ log. IsHonest S.Store log
            → IsTrue (state S.Store conn).is_open × Keeps S.Store log []) }
        ensures header { IfOk result (λ log. heading_of log.header ≡ new_heading database.now) }
        ensures usable { IfOk result (λ log. log.is_usable ≡ true) }
        ensures survives { IfOk result (λ log. Survives (state S.Store conn) (connection_of S.Store log)
            (IsLogIn (new_heading database.now) [])) }
        ensures survives_err { IfErr result (λ e. Survives (state S.Store conn) (state S.Store e.1)
            (IsLogIn (new_heading database.now) [])) }
    {
        match new_header(alloc, database) {
            Ok((header, text)) => match create(&mut conn, &text) {
                Ok(()) => Ok(Log {
                    conn,
                    header,
                    count: 0,
                    is_usable: true,
                }),
                Err(error) => Err((error.into(), conn)),
            },
            Err(error) => Err((error, conn)),
        }
    }

    /// Opens the log of the database with this name, or makes it if `conn` has an empty database. Gives its commits to `replay`, one at
    /// a time.
    ///
    /// Errors: one for each reason. The connection comes back, and a database that was not empty is as it was. After an error
    /// `replay` may have taken the first commits. Cost: the rows are read in pieces of up to about 256 kB.
    pub fn open<R: Replay>(
        alloc: Global,
        mut conn: Connection<S>,
        database: &str,
        replay: &mut R,
    ) -> Result<Log<S>, (OpenError, Connection<S>)>
        requires idle { (state S.Store conn).in_transaction ≡ false }
        requires start { R.Replay.follows replay.old [] }

        // What is read are the rows: `replay` follows the commits that the log has.
        ensures opened { IfOk result (λ log. (entries : List Entry) × R.Replay.follows replay.new entries
            × (IsHonest S.Store log → Keeps S.Store log entries)) }

        // These are the commits that the database held.
        ensures found { IfOk result (λ log. IsHonest S.Store log → (h : Heading) (entries : List Entry)
            → IsLogIn h entries (state S.Store conn).committed.trees
            → (heading_of log.header ≡ h) × Keeps S.Store log entries × R.Replay.follows replay.new entries) }
        // Of an empty database it makes the log without commits.
        ensures fresh { IfOk result (λ log. IsHonest S.Store log → (state S.Store conn).now.schema ≡ no_schema
            → (heading_of log.header ≡ new_heading database.now) × Keeps S.Store log [] × R.Replay.follows replay.new []) }
        ensures named { IfOk result (λ log. string_bytes log.header.database ≡ database.now) }
        ensures usable { IfOk result (λ log. log.is_usable ≡ true) }

        // A crash during the call leaves what was there, or of an empty database a log without commits.
        ensures crash { IfOk result (λ log. Survives (state S.Store conn) (connection_of S.Store log)
            (IsFirstLog database.now (state S.Store conn))) }
        ensures crash_err { IfErr result (λ e. Survives (state S.Store conn) (state S.Store e.1)
            (IsFirstLog database.now (state S.Store conn))) }
    {
        // Outside a transaction the rows are those of the last commit.
        let _is_idle = conn.is_autocommit();
        if is_blank(conn.schema()) {
            return Log::make(alloc, conn, database);
        }
        if !is_log(conn.schema()) {
            return Err((OpenError::OtherSchema, conn));
        }
        match replay_rows(alloc, &mut conn, database, replay) {
            Ok((header, count)) => Ok(Log {
                conn,
                header,
                count,
                is_usable: true,
            }),
            Err(error) => Err((error, conn)),
        }
    }
}
