ghost use Rattle.std.specs.Prelude.{◌≡◌, IfOk, string_bytes};
ghost use Rattle.mg_value.specs.Text.{compact};
ghost use Rattle.mg_bookmark.specs.Bookmark.{place_value, spelled};
ghost use Rattle.mg_bookmark.specs.View.{place_at};

use crate::text::{with_ddoc, with_direction, with_key, with_text};
use base64::engine::general_purpose::URL_SAFE_NO_PAD;
use mg_collate::Direction;
use mg_value::{Json, NoMemory};
use std::alloc::Global;

// The first capacity of the buffer, in bytes: the arrays of most rows fit.
const FIRST_ROOM: usize = 256;

/// The key of a row, lent.
#[derive(Clone, Copy)]
pub enum RowKey<'a> {
    /// The values of an index's columns.
    Columns(&'a [Json]),
    /// The document's id as the only value, as in `_all_docs`.
    Id,
}

/// The parts of a bookmark, lent: a place in an index that is read in a direction.
#[derive(Clone, Copy)]
pub struct BookmarkParts<'a> {
    /// The design document of the index; `None` for `_all_docs`.
    pub ddoc: Option<&'a str>,
    /// The name of the index.
    pub name: &'a str,
    /// The direction in which the index is read.
    pub direction: Direction,
    /// The row's key.
    pub key: RowKey<'a>,
    /// The document's id.
    pub id: &'a str,
}

impl BookmarkParts<'_> {
    /// Writes the text that a client gets for a page that ends with this row, as `Bookmark::encode` writes it
    /// for a bookmark of these parts. No `Bookmark` is made.
    ///
    /// Errors: `NoMemory` if an allocation fails. Cost: the length of the text.
    pub fn spell(&self, alloc: Global) -> Result<String, NoMemory>
        ensures { IfOk result (λ t. string_bytes t ≡ spelled (place_at self.now)) }
    {
        let text = self.array_text(alloc)?;
        Ok(URL_SAFE_NO_PAD.encode(alloc, &text)?)
    }

    // Writes the compact text of the array of the five parts.
    pub(crate) fn array_text(&self, alloc: Global) -> Result<Vec<u8>, NoMemory>
        ensures { IfOk result (λ b. b.items ≡ compact (place_value (place_at self.now))) }
    {
        let mut text = Vec::with_capacity(alloc, FIRST_ROOM)?;
        text.push(b'[')?;
        let mut text = with_ddoc(text, self.ddoc)?;
        text.push(b',')?;
        let mut text = with_text(text, self.name)?;
        text.push(b',')?;
        let mut text = with_direction(text, self.direction)?;
        text.push(b',')?;
        let mut text = with_key(alloc, text, self.key, self.id)?;
        text.push(b',')?;
        let mut text = with_text(text, self.id)?;
        text.push(b']')?;
        Ok(text)
    }
}
