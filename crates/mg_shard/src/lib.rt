//! Shards: documents by their ids and rows of indexes, in shared pages; edits of a bulk; and placements, which say on which shard a
//! document is kept.
//!
//! Where a function returns `NoMemory` if an allocation fails, it also does so if a shared block has 2^63 - 1 owners already.
//!
//! Promises. A `Placement` is a function that gives, for an id and a number of shards, the shard of the id
//! (`place`), as a number below that of the shards (`below`). A `Shard` is documents by id and the
//! definitions of its indexes; an invariant of the type says that the rows of each index are those made
//! from scratch, and that each design document and name occurs once (law: `definitions_are_catalogs`).
//! `Draft` and `apply` make edits (`outcome`, `replies`, `stands`), and lack of memory never hides from
//! `Draft::apply` what a look finds (`foreseen`); `with_index`, `with_rows`, `with_pages` and
//! `without_index` change one index only, and copy one page of the list of indexes (index_entry.rt,
//! index_list.rt), while `finish` makes that list anew; `redeal` deals documents to another number of
//! shards, whatever placement dealt them before (`Redeals`), and `redeal_by` does the same with several
//! workers (new_shards.rt). `rows_for` extracts and sorts the rows of an index and puts them into pages
//! (shard_indexes.rt), with several workers by `rayon` (extracted.rt). Where a function takes a number of
//! workers, it has at most that many threads.
#![tactic(auto)]

mod calls;
mod docs;
mod document;
mod document_id;
mod document_pages;
mod documents;
mod draft;
mod extracted;
mod index_entry;
mod index_list;
mod index_ref;
mod index_rows;
pub mod laws;
mod new_shards;
mod placed;
mod placement;
mod redealt;
mod reply;
mod served;
mod shard;
mod shard_indexes;

pub use calls::{Rows, redeal};
pub use docs::Docs;
pub use document::Document;
pub use documents::Documents;
pub use draft::{Draft, id_in};
pub use index_ref::IndexRef;
pub use placement::{Md5Placement, Placement};
pub use redealt::redeal_by;
pub use reply::EditReply;
pub use shard::Shard;
