//! Queries: how the body of a `_find` is read, and which page answers it.
//!
//! Promises. `Query::read` returns the query or its first fault, and never `NoMemory` in place of a fault that
//! is found without memory: a wrong shape, a fault of the selector, a letter that no bookmark has, and a sort in
//! both directions without a bookmark (`refused`). `page` returns the definition's answer as values, `page_text`
//! as text, and `lend_page` as parts of blocks, which shards lend of the documents that are shown as they are
//! served, for all histories that the shards represent (`answers`). They require that the shards have the
//! indexes of the catalog; they may have others (`indexes`). Each shard hands over the rows that the query
//! finds there, but at most as many as the page skips and shows (`handed`, `work`); where one thread finds the
//! page of `page_text`, all shards together give at most as many, and one more each, and if the index decides
//! the selector, only documents that are shown are looked up (`within`, `read`, `alone`). `explain` is the
//! definition's. A query that no index serves, or whose bookmark is of another index, is refused for that by
//! `page`, `page_text`, `lend_page` and `explain`, and never with `NoMemory` (`refused`). Laws: `pages_join`,
//! `pages_that_read_back_join`, `bookmarks_change_nothing_else`.
#![tactic(auto)]

mod answer;
mod calls;
mod error;
mod explanation;
mod fault;
mod field;
mod found;
pub mod laws;
mod member;
mod page_search;
mod query;
mod reader;
mod reads;
mod shown;
mod source;
mod text;

pub use answer::{lend_page, page_text};
pub use calls::page;
pub use error::{PageError, QueryError};
pub use explanation::explain;
pub use query::Query;
pub use reads::Reads;
pub use shown::{LentPage, Page, Shown};
pub use text::with_comma;
