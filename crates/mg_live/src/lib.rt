//! The live database: sessions that read and write side by side, each at a seat of its own.
//!
//! Promises. `Live::open` returns 1 to 16 seats that have seen nothing, for every placement of documents;
//! the program's is `Md5Placement`. docs/MODEL.md, section 9, explains `Seat::answer`. `Seat::look` answers a
//! question after what the seat has then seen. `Seat::snapshot` is the database after what the seat has
//! seen. `share` makes a seat see all published commits (`published`), and returns them for another seat to
//! `learn`; `seen` returns what the seat has seen, without a lock. `Live::close` counts the commits
//! (`closed`), or hands everything back (`back`): `Missing` only if a seat is absent, `Ahead` only if a seat
//! has seen more commits than all seats made.
#![tactic(auto)]

mod calls;
mod commit_log;
mod database;
mod desk;
mod live;
mod lock;
mod markers;
mod publication;
mod record;
mod seat;
mod snapshot;
mod tally;

pub use commit_log::CommitLog;
pub use database::{Database, Keeper, Lost, WaitForReaders};
pub use live::{CloseError, Closed, Live};
pub use mg_machine::{interleave, laws};
pub use publication::SnapshotWriter;
pub use record::{Record, RecordKind};
pub use seat::{Seat, Seen};
pub use snapshot::Snapshot;
