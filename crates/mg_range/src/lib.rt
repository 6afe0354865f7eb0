//! Key ranges: which keys of an index a query looks at, and whether a key is before, within or past a range.
//!
//! Promises. `KeyRange::of` is the range by the tightest bounds (`range`). A key of one value per column is
//! in it exactly if the value of each bounded column meets all bounds of that column (`keys`). `contains`,
//! `side_at_text`, `entered_at`, `is_empty` and `to_json` are the definition's. `in_rows` is the range with
//! its ends as two bounds of rows; `is_early` and `is_late` of this `RowRange` compare a row's bytes with
//! them. `decides` says whether the range decides each atom: then the key of a document shows whether they
//! hold. Laws: `ranges_are_complete`, `range_decides`, and that in ordered rows those before a range come
//! first, then those in it, then those past it (`ranges_stand_together`).
#![tactic(auto)]

mod calls;
mod decided;
mod explained;
pub mod laws;
mod lent_limit;
mod range;
mod row_range;
mod side;
mod span;
mod text;

pub use decided::decides;
pub use range::KeyRange;
pub use row_range::RowRange;
pub use side::RangeSide;
