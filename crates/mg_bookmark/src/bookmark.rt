ghost use Rattle.std.specs.Prelude.{◌≡◌, ◌↔◌, codes, None, Some, Ok, Err, IfOk, IfSome, option_map, string_bytes};

use crate::error::BookmarkError;
use crate::parts::{BookmarkParts, RowKey};
use crate::spelling::read_spelling;
use mg_collate::Direction;
use mg_value::{Json, NoMemory};
use std::alloc::Global;

/// A bookmark: the last row of a page, as a place in an index that is read in a direction.
#[derive(Debug, Drop)]
pub struct Bookmark {
    /// The design document of the index; `None` for `_all_docs`.
    pub ddoc: Option<String>,
    /// The name of the index.
    pub name: String,
    /// The direction in which the index is read.
    pub direction: Direction,
    /// The row's key, one value for each column.
    pub key: Vec<Json>,
    /// The document's id.
    pub id: String,
}

impl Bookmark {
    ghost use Rattle.mg_bookmark.specs.Bookmark.{RowPlace, Spells, spelled};
    ghost use Rattle.mg_bookmark.specs.Reading.{bookmark_read};
    ghost use Rattle.mg_bookmark.specs.View.{place_at, bookmark_place};

    /// Writes the text that a client gets: the five parts as a compact JSON array, in URL-safe base64 without
    /// padding (RFC 4648). The design document of `_all_docs` is null, and the direction is `asc` or
    /// `desc`. `decode` reads the text back if the values of the key nest at most 125 deep.
    ///
    /// Errors: `NoMemory` if an allocation fails. Cost: the length of the text.
    pub fn encode(&self, alloc: Global) -> Result<String, NoMemory>
        ensures { IfOk result (λ t. string_bytes t ≡ spelled (bookmark_place self.now)) }
    {
        self.lent().spell(alloc)
    }

    // Lends the parts of the bookmark.
    pub(crate) fn lent(&self) -> BookmarkParts<'_>
        ensures { place_at result ≡ bookmark_place self.now }
    {
        BookmarkParts {
            ddoc: self.ddoc.as_deref(),
            name: self.name.as_str(),
            direction: self.direction,
            key: RowKey::Columns(&self.key),
            id: self.id.as_str(),
        }
    }

    /// Reads a text that a client sends back: one that `encode` wrote, or `nil`, which stands for the
    /// beginning and gives `Ok(None)`.
    ///
    /// Errors: `Invalid` for a text that is neither, even if it is another spelling of such an array, and for
    /// an array that nests more than 127 deep, the limit of `mg_value::read`; `NoMemory` if an allocation fails.
    /// Cost: that of `mg_value::read` on the array's text, and of writing that text again.
    pub fn decode(alloc: Global, text: &str) -> Result<Option<Bookmark>, BookmarkError>
        ensures none { (result ≡ Ok None) ↔ (text.now ≡ codes "nil") }
        ensures some { IfOk result (λ found. IfSome found (λ b. Spells text.now (bookmark_place b))) }
        ensures invalid { result ≡ Err BookmarkError.Invalid
            → (¬ (text.now ≡ codes "nil")) × ((p : RowPlace) → ¬ Spells text.now p) }
        ensures read { IfOk result
            (λ found. bookmark_read text.now ≡ Some (option_map bookmark_place found)) }
        ensures unread { result ≡ Err BookmarkError.Invalid → bookmark_read text.now ≡ None }
    {
        match text {
            "nil" => Ok(None),
            _ => Ok(Some(read_spelling(alloc, text)?)),
        }
    }
}
