//! Revision histories of documents, after the replication and conflict model of CouchDB.
//!
//! Promises. For each list of accepted paths that a tree represents, `winner`, `leaves` and `losers` are
//! the definition's. `fits`, `knows_whole` and `next_position` say beforehand, without memory, what
//! `merge` will return, and what `extend` will return unless the new revision is already known. `merge`
//! returns `BadHistory` exactly for a path that does not fit (`refused`, `fitting`); otherwise the tree
//! then represents those paths and this one (`accepted`). `extend` makes a revision over a leaf
//! (`accepted`) or returns the refusal (`decided`). A refusal changes nothing (`err`). `merge_with` and
//! `extend_with` do the same with a `Body` in place of a `Json`. A `Body` represents
//! the body of a leaf. It is kept in a block of its own, in the block of the form in which its document is
//! served, or, as the object without members, in no block. A `RevId` is the id of a revision; one of 32
//! bytes has no block, and is copied without memory (`inline`). `move_body_into` moves the winner's body
//! into the block of its form, and the tree still represents the same paths. Laws: `replicas_agree`,
//! `nothing_is_lost`, `winner_is_best`, `deleted_do_not_win`, `known_changes_nothing`.
#![tactic(auto)]

mod body;
mod calls;
mod capacity;
mod error;
mod form;
mod grown;
mod growth;
mod history;
pub mod laws;
mod leaf;
mod leaf_list;
mod links;
mod pair;
mod rev_id;
mod revision;
mod tree;

pub use body::Body;
pub use error::{MergeError, Merged, RevError, TreeError, TreeRefusal};
pub use form::Form;
pub use history::History;
pub use leaf::Leaf;
pub use rev_id::RevId;
pub use revision::{Rev, is_rev_id};
pub use tree::RevTree;
