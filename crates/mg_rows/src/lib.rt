//! Rows of an index as bytes, whose order is the order of rows.
//!
//! Promises. A `RowBytes` is a row: `of` makes it from a key and an id, `key`, `id` and `row` give these
//! back, and `compare` is the order of rows and of bytes (`rows`, `bytes`); `compare_to_id` compares it with
//! the row of an id in the index of all documents. `KeyBytes` collects the values of a key, and makes rows
//! and bounds of them. A `RowBound` is before or after all rows whose key begins with some values (`rows`).
//! Laws: rows are in the order of their bytes (`rows_are_in_the_order_of_their_bytes`), the bytes determine
//! the row (`bytes_give_the_row`), and they begin with the bytes of the first columns
//! (`first_columns_are_a_prefix`).
#![tactic(auto)]

mod edge;
mod element;
mod error;
mod hint;
mod id_row;
mod key;
pub mod laws;
mod read;
mod row;
mod row_bound;
mod split;
mod write;

pub use edge::Edge;
pub use hint::value_hint;
pub use key::KeyBytes;
pub use row::RowBytes;
pub use row_bound::RowBound;
