//! The order of values, keys and index rows: CouchDB's view collation, but strings by code point and members by name.
//!
//! Promises. `compare` orders values, `compare_keys` lists of values, and `Row` is ordered by key, then id.
//! `Direction::apply` reverses an order exactly if the direction is descending. Laws: the order of values
//! (docs/MODEL.md), and that a list of rows has one sorted form (`rows_are_sorted_one_way`).
#![tactic(auto)]

mod direction;
pub mod laws;
mod order;
mod row;

pub use direction::Direction;
pub use order::{compare, compare_keys, compare_of, compare_text};
pub use row::Row;
