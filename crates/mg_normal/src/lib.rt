//! The normal form of a selector: only operators are negated, and atoms (operators that have to hold) are kept apart from the rest.
//!
//! Promises. `Normal::of` is the normal form of a selector: its atoms, and the rest, in which only
//! operators are negated (`IsNormalOf`). The form holds exactly where the selector does. `Atom::steps`
//! gives the steps from the top of the document, and `Atom::is_on` says whether they are those of a path.
//! Law: `atoms_are_necessary`.
#![tactic(auto)]

mod atom;
mod calls;
mod condition;
pub mod laws;
mod meaning;
mod normal;
mod prefix;
mod pushed;
mod rest;

pub use atom::Atom;
pub use normal::Normal;
