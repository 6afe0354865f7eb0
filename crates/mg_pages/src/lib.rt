//! Ordered collections in shared pages: persistent trees of dynamic height. Sharing a collection copies only its top level. A change copies at
//! most one page and the levels above it, and splits or joins what is then too large or small.
//!
//! Promises. A `Pages` is a list that ascends (`ascends`). What is in a page is an `Element`. Its `again`
//! makes a duplicate: a copy of a row, or another reference to a `Shared` value. `get` is the element that
//! ties with the key, `at` the one at a place. `iter` and `past` iterate over the list, or what comes after a
//! place, from both ends. `beyond` and `upto` read from a place on in one direction, and `advance` of their
//! `Cursor` skips a number of the elements that are left, in the logarithm of the length. `insert` and `remove` change the list in one place (`ok`, `had`) or not at
//! all (`err`), and removing an absent key takes no memory (`absent`); `share` returns the same list; `runs`
//! lends it page by page, and `from_pages` makes it of pages (`NewPage`); `count_below` and `count_above`
//! count the elements on one side of a place, in the logarithm of the length. Law: elements by their ids are
//! a finite map (`ids_make_a_map`). Hints (`hint`, `text_hint`, and `value_hint` of `mg_rows`) have no
//! clause: they are only for speed, and a wrong hint costs time.
#![tactic(auto)]

mod build;
mod cursor;
mod element;
mod hint;
mod identified;
mod insertion;
mod iter;
mod keyed;
pub mod laws;
mod look;
mod mend;
mod new_page;
mod over;
mod page;
mod pages;
mod removal;
mod runs;
mod search;
mod sizes;
mod tree;

pub use cursor::Cursor;
pub use element::{Element, Shared};
pub use hint::text_hint;
pub use identified::Identified;
pub use iter::Iter;
pub use keyed::{Keyed, Probe};
pub use new_page::{NewPage, PAGE_FILL};
pub use pages::Pages;
