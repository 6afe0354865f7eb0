//! Tests of the libraries of values, revisions, rows and selectors that need code: public calls that the program does not make, borders of pages
//! and blocks, and worked examples as calls of libraries. A failing test ends the process, and so does a call that is refused memory: no function
//! needs an exit for such a call, which keeps the proofs of the tests small.
#![tactic(auto)]

#[cfg(test)]
mod bookmark_tests;
#[cfg(test)]
mod given;
#[cfg(test)]
mod merge_tests;
#[cfg(test)]
mod packed_read_tests;
#[cfg(test)]
mod packed_tables_tests;
#[cfg(test)]
mod packed_tests;
#[cfg(test)]
mod packed_text_tests;
#[cfg(test)]
mod packed_with_text_tests;
#[cfg(test)]
mod pages_tests;
#[cfg(test)]
mod path_tests;
#[cfg(test)]
mod range_tests;
#[cfg(test)]
mod revtree_tests;
#[cfg(test)]
mod rows_tests;
#[cfg(test)]
mod selector_tests;
#[cfg(test)]
mod value_tests;
