//! The pieces of a text between its dots.
ghost use Rattle.std.specs.Prelude.{◌≡◌, map, string_bytes, IfOk};
ghost use Rattle.std.specs.List.{list_any};
ghost use Rattle.mg_path.specs.Part.{pieces_of, is_empty};

use mg_value::NoMemory;
use std::alloc::Global;

// Whether any piece of the text is empty. Takes no memory.
pub(crate) fn has_empty_piece(text: &str) -> bool
    ensures { result ≡ list_any is_empty (pieces_of text.now) }
{
    let bytes = text.as_bytes();
    let mut is_empty = true;
    let mut escaped = false;
    for byte in bytes {
        if *byte != b'.' || escaped {
            is_empty = false;
            escaped = *byte == b'\\';
        } else if is_empty {
            return true;
        } else {
            is_empty = true;
        }
    }
    is_empty
}

// Cuts the text into its pieces, including the empty ones. A text without a dot, which is the most common path, is
// copied whole as the only piece, and the memory has no unused room.
pub(crate) fn pieces(alloc: Global, text: &str) -> Result<Vec<String>, NoMemory>
    ensures { IfOk result (λ pieces. map string_bytes pieces.items ≡ pieces_of text.now) }
{
    if text.as_bytes().contains(&b'.') {
        return cut_at_dots(alloc, text);
    }
    let mut pieces = Vec::with_capacity(alloc, 1)?;
    pieces.push(String::from_str(alloc, text)?)?;
    Ok(pieces)
}

// Does what `pieces` does, for any text, character by character.
fn cut_at_dots(alloc: Global, text: &str) -> Result<Vec<String>, NoMemory>
    ensures { IfOk result (λ pieces. map string_bytes pieces.items ≡ pieces_of text.now) }
{
    let mut pieces = Vec::new(alloc);
    let mut piece = String::new(alloc);
    for letter in text.chars() {
        if letter != '.' {
            piece.push(letter)?;
        } else if piece.ends_with('\\') {
            piece.pop();
            piece.push('.')?;
        } else {
            pieces.push(piece)?;
            piece = String::new(alloc);
        }
    }
    pieces.push(piece)?;
    Ok(pieces)
}
