//! Documents of a bulk, their edits, and the form in which they are served.
//!
//! Promises. `Edit::read_part` returns the edit of a document or its first fault, which lack of memory
//! never hides (`refused`). `Edit::read` packs a `Json` first, so lack of memory may hide its fault.
//! `Edit::look` finds a refusal, or that a path is known whole, before the tree is touched
//! (`foreseen`). It returns any other edit as a `ReadyEdit` (`edit`). `ReadyEdit::apply` does not look
//! again: it requires that the edit is ready on its tree, which is the tree that was looked at, or a
//! copy. `Edit::apply` and `ReadyEdit::apply` do to the tree what the definition does to the paths (`applied`), and a refusal
//! leaves the tree as it was (`unchanged`). `ReadyEdit::apply` reports a refusal whatever memory there is,
//! if the edit names the revision that it extends or makes its document's first (`refused`). `rev_id` is
//! the digest that names new revisions, `served` the served document, and `serve_form` the same in a block
//! that the tree shares; `with_conflicts` adds the losers. `leaf_document` is the document as a leaf has
//! it, and `with_revisions` adds the path of a revision.
#![tactic(auto)]

mod ahead;
mod calls;
mod change;
mod conflicts;
mod digest;
mod document;
mod edit;
mod error;
mod fault;
mod leaf;
mod members;
mod revisions;

pub use calls::{rev_id, served};
pub use change::Change;
pub use conflicts::with_conflicts;
pub use document::serve_form;
pub use edit::{Edit, Look, ReadyEdit};
pub use error::{DocError, EditError, EditRefusal};
pub use leaf::{leaf_document, with_revisions};
