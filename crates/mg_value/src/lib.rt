//! JSON values whose numbers are `i64`: reading, writing, copying and lending them, and access to the
//! members of objects.
//!
//! Promises. `read` returns a value only if the bytes read as that value (`ok`), `NotJson` only if they are
//! not a JSON text nested at most 127 deep (`not_json`), and `NotWhole` only if some number is not an `i64`
//! (`not_whole`). Bytes that are not UTF-8, and the empty text, never give `NoMemory` (`no_memory`).
//! `read_in` does the same with a `ReadBuffer` that its caller keeps. `write` returns the compact text
//! (`text`), which reads as the value again (`reads_back`). `copy`, `copy_items` and `copy_texts` return
//! equal values. A `LentValue` is a value that is read in place: a reference to a `Json`, or a `Part` of
//! `mg_packed`. The code of selectors, paths and row bytes is written once, for every `LentValue`.
#![tactic(auto)]

mod borrowed;
mod copy;
mod error;
mod kind;
mod lent;
mod reader;
mod value;
mod writer;

pub use borrowed::{LONGEST_KEPT, MAX_DEPTH, ReadBuffer, read_tree, whole_number};
pub use copy::{copy_items, copy_texts};
pub use error::{NoMemory, ReadError};
pub use kind::Kind;
pub use lent::{LentValue, lend_part};
pub use reader::{read, read_in};
pub use value::Json;
pub use writer::write;
