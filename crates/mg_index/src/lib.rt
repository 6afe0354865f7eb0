//! Index definitions, the catalog of a database's indexes, and the choice of the index that serves a query.
//!
//! Promises. `IndexDef::read` returns the definition of a body or its fault (`Shape` before `Mixed`),
//! which lack of memory never hides (`refused`). Copies of a definition share its block. A `Catalog` is a
//! list by design document, then name (`in_order`), with `find`, `add`, `remove` and `has`; `add` needs
//! memory only for a definition whose design document and name are new (`room`). `choose` returns the index
//! that the definition chooses for atoms, sort and hint, or `NoUsableIndex`. Laws: preference is a total
//! order, and no usable index is preferred to the chosen one.
#![tactic(auto)]

mod bound;
mod catalog;
mod choice;
mod column;
mod definition;
mod error;
mod fault;
mod field;
pub mod laws;
mod listing;
mod query;
mod reader;
mod usable;

pub use bound::{Bound, Comparison, bounded_count, fixed_value};
pub use catalog::{Added, Catalog};
pub use choice::{Choice, choose};
pub use definition::IndexDef;
pub use error::{IndexError, NoUsableIndex};
pub use field::{all_have_direction, field_direction, field_path};
pub use listing::{all_docs_listed, design_document};
pub use query::{Hint, Sort};
