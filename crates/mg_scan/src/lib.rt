//! Searches all shards, by scoped workers or on the caller's thread, and builds indexes over shards.
//!
//! Promises. A `Search` is what a search asks of each shard: the target, the selector, the range, the row of
//! the bookmark, how many rows, and the direction. Range and bookmark are kept as the bytes of rows, which
//! are made once per query. `scan_lent` returns for each shard the first rows of the index past the bookmark,
//! in the direction, whose key is in the range and whose document matches (`rows`), each lent as bytes with
//! its document (`hits`), for every number of workers and every gate. `scan` copies these rows. `pull_lent`
//! returns the first rows of all shards together (`rows`, `hits`), on the caller's thread: it pulls at most
//! as many as it was asked for and one for each shard (`pulled`). `pull_rows` returns the same without the
//! first `skip`, for a selector that the range decides in each shard (`decided`). It looks up no document of
//! a row of an index: a hit does so when it is asked for its document. It skips rows of an index by counts:
//! with one shard all of them, with several most (passing.rt). `HasPageOf` of specs/Passed.antt says that the page stays the same:
//! the search begins after some row, and the page skips as many rows fewer as there are up to that row.
//! `reads_at_most` says whether at most a given number of rows or documents, of all shards together, come
//! after the place where a search begins. `build` returns each shard with the index, for every number of
//! workers.
#![tactic(auto)]

mod begin;
mod building;
mod calls;
mod counting;
mod finding;
mod gate;
mod hit;
mod hit_row;
mod hits;
mod passing;
mod pulling;
mod range_end;
mod scanning;
mod scout;
mod search;
mod source;
mod target;
mod target_ref;
mod threads;
mod unread;
mod worker_count;
mod workers;

pub use building::build;
pub use calls::scan;
pub use counting::reads_at_most;
pub use gate::{Gate, NoGate, Place};
pub use hit::Hit;
pub use pulling::{pull_lent, pull_rows};
pub use scanning::scan_lent;
pub use search::Search;
pub use target::Target;
pub use target_ref::TargetRef;
pub use worker_count::Workers;
