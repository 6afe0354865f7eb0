//! Bookmarks: the place of a page's last row in its index, as text.
//!
//! Promises. `encode` returns the only spelling of a place in an index. `decode` returns `None` exactly
//! for `nil`, a bookmark only if the text is its spelling, and `Invalid` only for any other text (`none`,
//! `some`, `invalid`). `has_only_letters` says without memory whether a text has only the letters of
//! URL-safe base64; any other text is not a bookmark. Laws: what is spelled is read back, and each text
//! has one reading (`each_text_has_one_reading`).
#![tactic(auto)]

mod bookmark;
mod error;
pub mod laws;
mod letters;
mod parts;
mod reader;
mod spelling;
mod text;

pub use bookmark::Bookmark;
pub use error::BookmarkError;
pub use letters::has_only_letters;
pub use parts::{BookmarkParts, RowKey};
