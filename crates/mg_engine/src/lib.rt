//! The engine: executes commands on documents, indexes and shards. specs/Commands.antt defines each reply, over plain revision paths.
//!
//! Promises. `Engine::new` returns an engine of the empty world (`stands`) with as many shards as asked for
//! (`shards`). `step` returns, for each world that the engine represents, the definition's reply, and the
//! engine then represents the next world; or memory was refused and the engine is as it was (`answers`,
//! `refused`); `execute` does so for a command that it takes by value. `answer` and `answer_by` are for
//! commands that read, and `look` for questions, which are reads beside the commands
//! (specs/Questions.antt). `commit` returns the next engine exactly if the status is 200 or 201 (`next`);
//! `commit_prepared` does so for a command that `Prepared::of` has prepared, which for a bulk reads the
//! documents. `run` answers a list of commands; after an `Err` it has executed no command (`none_run`). Laws:
//! `where_memory_suffices`, `reshards_change_no_reply`, `reshards_change_no_world`, `pages_join`.
#![tactic(auto)]

mod body;
mod bulk;
mod calls;
mod command;
mod context;
mod database;
mod define;
mod design;
mod engine;
mod execute;
mod fault;
mod keys;
pub mod laws;
mod listing;
mod look;
mod more;
mod prepared;
mod query;
mod question;
mod range;
mod range_query;
mod read;
mod refusal;
mod reply;
mod reshard;
mod rows;
mod shards;
mod state;

pub use command::Command;
pub use engine::Engine;
pub use listing::Listing;
pub use prepared::Prepared;
pub use question::{More, Question};
pub use refusal::Refusal;
pub use reply::Reply;
