//! The edge of a server, for any kind of conversation and of service: many clients on some threads.
//!
//! Promises. A `Conversation` is right if what was received was answered by what was sent and is pending
//! (`told`); each of its calls keeps that, and after `advance` each whole message that was received is
//! answered (`rests`). `turn` answers what was received, then writes or reads once: what the reader lost was
//! received (`read`), what the writer gained was sent (`wrote`), and it reads only once all answers are sent
//! (`answered`). A client that goes from service to service misses nothing that it has seen: each service
//! learns it first (`visit`). Each connection waits, is queued, or is in the hand of one thread (`Table`): none
//! is lost and none is served twice at a time; and together they hold a bounded number of bytes.
#![tactic(auto)]

mod closing;
mod connection;
mod conversation;
mod edge;
mod faults;
mod in_turn;
mod learner;
mod limits;
mod place;
mod table;
mod threads;
mod turns;
mod visit;
mod work;

pub use conversation::{Conversation, Handover};
pub use edge::Edge;
pub use in_turn::serve_in_turn;
pub use learner::Learner;
pub use turns::{Fault, Outcome, turn};
pub use work::serve;
