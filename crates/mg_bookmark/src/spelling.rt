//! Decodes a text: from base64 to bytes, from the bytes to a JSON value, and from the value to a bookmark.
ghost use Rattle.std.specs.Prelude.{◌≡◌, ◌↔◌, None, Err, IfOk, IsTrue};
ghost use Rattle.base64.specs.GeneralPurpose.{decoded_of};
ghost use Rattle.base64.specs.Engines.{url_safe_no_pad};
ghost use Rattle.mg_value.specs.Text.{Reads, compact};
ghost use Rattle.mg_value.specs.Value.{Value};
ghost use Rattle.mg_value.specs.View.{view};
ghost use Rattle.mg_bookmark.specs.Bookmark.{RowPlace, Spells, place_value};
ghost use Rattle.mg_bookmark.specs.View.{bookmark_place};
ghost use Rattle.mg_bookmark.specs.Decoding.{IsDecoded};

use crate::bookmark::Bookmark;
use crate::error::BookmarkError;
use crate::reader::bookmark_in;
use base64::DecodeAllocError;
use base64::engine::general_purpose::URL_SAFE_NO_PAD;
use mg_value::{Json, NoMemory, ReadError, read};
use std::alloc::Global;

// Reads the bookmark that the text spells; `Invalid` if it spells none. The bookmark's array is written again, to refuse
// other spellings of this array.
pub(crate) fn read_spelling(alloc: Global, text: &str) -> Result<Bookmark, BookmarkError>
    ensures ok { IfOk result (λ b. Spells text.now (bookmark_place b)) }
    ensures invalid { result ≡ Err BookmarkError.Invalid → (p : RowPlace) → ¬ Spells text.now p }
{
    let bytes = from_base64(alloc, text)?;
    let value = from_json(alloc, &bytes)?;
    let bookmark = bookmark_in(alloc, &value)?;
    let same = is_array_of(alloc, &bytes, &bookmark)?;
    if same {
        Ok(bookmark)
    } else {
        Err(BookmarkError::Invalid)
    }
}

fn from_base64(alloc: Global, text: &str) -> Result<Vec<u8>, BookmarkError>
    ensures ok { IfOk result (λ bytes. IsDecoded text.now bytes.items) }
    ensures invalid { result ≡ Err BookmarkError.Invalid
        → decoded_of url_safe_no_pad text.now ≡ None }
{
    match URL_SAFE_NO_PAD.decode(alloc, text.as_bytes()) {
        Ok(bytes) => Ok(bytes),
        Err(DecodeAllocError::OutOfMemory) => Err(BookmarkError::NoMemory),
        Err(DecodeAllocError::DecodeError(_)) => Err(BookmarkError::Invalid),
    }
}

fn from_json(alloc: Global, bytes: &[u8]) -> Result<Json, BookmarkError>
    ensures ok { IfOk result (λ value. Reads bytes.now (view value)) }
    ensures invalid { result ≡ Err BookmarkError.Invalid → (v : Value) → ¬ Reads bytes.now v }
{
    match read(alloc, bytes) {
        Ok(value) => Ok(value),
        Err(ReadError::NoMemory) => Err(BookmarkError::NoMemory),
        Err(ReadError::NotJson) => Err(BookmarkError::Invalid),
        Err(ReadError::NotWhole) => Err(BookmarkError::Invalid),
    }
}

// Whether the bytes are the compact text of the bookmark's array.
fn is_array_of(alloc: Global, bytes: &[u8], bookmark: &Bookmark) -> Result<bool, NoMemory>
    ensures { IfOk result
        (λ same. IsTrue same ↔ (bytes.now ≡ compact (place_value (bookmark_place bookmark.now)))) }
{
    let text = bookmark.lent().array_text(alloc)?;
    Ok(bytes == text.as_slice())
}
