//! The known revisions of a tree with their parents.

mod fold;
mod known;
mod list;
mod lookup;
mod node;
mod older;
mod pair;
mod parts;
mod room;

pub(crate) use known::KnownLinks;
pub(crate) use lookup::{LookUp, all_agree, all_known};
