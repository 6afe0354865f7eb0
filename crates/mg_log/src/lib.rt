//! A log of commits in a file, which is a SQLite database that sqlite3 reads.
//!
//! The file has one table, `commits (number INTEGER PRIMARY KEY, kind TEXT NOT NULL, body TEXT NOT NULL) STRICT`. Row 0 is the
//! header: kind `header`, and a JSON object with the mark of this program, the database's name, the counter of ids and the number of
//! commits with which the log begins. The rows 1, 2, 3 .. are the commits in their order.
//!
//! Promises, where the disk has returned what was written (`IsHonest`). `Log::open` and `open_file` give `replay` exactly the commits
//! of the rows, in their order (`opened`, `found`), of a log with the name that was asked for (`named`), or refuse the file with a
//! reason. After `Ok` of `append` every outcome of a crash has the commits (`durable`), and a crash within it leaves the rows before
//! it or those of the whole group (`crash`). After `NoMemory` and `Full` the log goes on as it was (`refused`, `closes`, `was_open`, `stays_shut`).
//! After a fault nothing is asked of the file (`ends`, `lost`), and without one no log is lost (`stays`). `append_last` says the same
//! of what a crash leaves of the two files.
//!
//! Only tested: that a call succeeds, and which reason a refused file gets.
//!
//! Trusted, from the crates of `sqlite`: that files keep what was synced and nothing else writes them (`sqlite_std_file`), that a
//! crash in the middle of a call leaves what the run over two failing disks leaves (`sqlite_wal`), and that a run of `main` with
//! `Unknown` is covered by the theorem over `S: Start` (`sqlite_disk`). What lies between such a call and a crash while other threads
//! run is not said here.
//!
//! A call that allocates can answer `NoMemory`; what then holds is said at each.
#![tactic(auto)]

mod append;
mod commit;
mod error;
mod file;
mod header;
mod log;
mod open;
mod read;
mod replay;
mod rows;
mod schema;
mod writing;

pub use commit::{Commit, Kind};
pub use error::{AppendError, OpenError};
pub use file::open_file;
pub use header::Header;
pub use log::Log;
pub use replay::{Replay, Stopped};
