//! Selectors: the conditions of CouchDB's `_find` on a JSON document.
//!
//! Promises. `Sel::read` returns the selector that a value spells or its first fault, which lack of memory
//! never hides (`refused`), and `Shape` for a value that is not an object (`shape`). `Sel::holds`,
//! `Op::holds_in` and `JsonType::is_of` are true exactly where the definition says so.
#![tactic(auto)]

mod argument;
mod calls;
mod copy;
mod error;
mod fault;
mod json_type;
mod meaning;
mod name_kind;
mod operator;
mod predicate;
mod reader;
mod selector;
mod sense;

pub use error::SelError;
pub use fault::fault_of;
pub use json_type::JsonType;
pub use operator::Op;
pub use selector::Sel;
pub use sense::Sense;
