//! The ordered merge: the first rows of all lists together, as CouchDB's coordinator merges the lists of its
//! shards.
//!
//! Promises. `merge` returns the first rows of all lists in the direction's order, each as often as it
//! occurs (`rows`), and `merge_items` does so for any type of items that have rows (`items`).
//! `merge_pulled` takes the same rows from sources, item by item (`rows`); each item comes from one of the
//! sources (`given`), and it pulls the items of the result and the next one of each source that has more
//! (`number`), so at most as many as it was asked for and one for each source (`pulled`). All three are
//! one merge, of sources: the heads of the sources are in a `BinaryHeap`, in the order of their turns
//! (`turn_order` in specs/Turns.antt), which is total. A `Work` has the lengths of the lists and of the
//! result; only `merge` and `merge_items` make one. Laws: it does not matter how documents are dealt to
//! lists (`any_sharding`), and lists may be cut at the page's size before the merge (`cut_lists`).
#![tactic(auto)]

mod calls;
mod head;
pub mod laws;
mod merging;
mod order;
mod pulled;
mod ranked;
mod source;
mod work;

pub use calls::merge;
pub use merging::merge_items;
pub use order::{are_in_order, items_are_in_order};
pub use pulled::merge_pulled;
pub use ranked::Ranked;
pub use source::RowSource;
pub use work::Work;
