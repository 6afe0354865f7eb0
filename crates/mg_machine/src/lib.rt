//! The machine of sessions side by side: events at the seats of a database, one after another, and the laws that hold of them.
//!
//! Promises. A machine has one list of commits and, for each seat, the prefix of it that the seat has seen
//! (docs/MODEL.md, section 9, which also has the law `running_sessions`). `replay` answers a list of events
//! as the machine does. A `Point` is an engine with the number of commits before it; `first` is the point
//! before any commit (`after`). `write` returns the reply after the commits of the point and, if the write is
//! accepted, the point after one more (`after`), with as many shards as the last accepted reshard asked for
//! (`dealt`). `read` returns the reply after the commits of the point.
#![tactic(auto)]

pub mod interleave;
pub mod laws;
mod point;
mod seats;

pub use point::Point;
