//! Paths into JSON values, the part of a value at a path, and projections.
//!
//! Promises. `Path::parse` returns the steps of a text (`ok`), and `Empty` exactly if a step is empty
//! (`empty`); `is_path` says beforehand, without memory, which of the two `parse` returns. `get` and `get_in`
//! lend the part at the path, `project` returns the projection of any lent value.
#![tactic(auto)]

mod error;
mod part;
mod path;
mod pieces;
mod projection;

pub use error::PathError;
pub use part::part_of;
pub use path::{Path, is_path};
pub use projection::project;
