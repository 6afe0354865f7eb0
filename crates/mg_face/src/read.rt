//! Reads JSON, with a buffer that is kept from text to text.
ghost use Rattle.std.specs.Prelude.{◌≡◌, ◌-◌, take, length, option_and_then, IfOk};
ghost use Rattle.json.specs.Json.{Json as Tree};
ghost use Rattle.json.specs.Find.{BeginsWith, as_str, get};
ghost use Rattle.std.specs.Option.{option_map};
ghost use Rattle.std.specs.String.{string_bytes};
ghost use Rattle.mg_value.specs.View.{view};
ghost use Rattle.mg_face.specs.Json.{json_of, is_json, text_at};
ghost use Rattle.mg_face.specs.Answer.{revision_in};

use crate::number::value_of;
use json::{Error, Scratch, Tape};
use mg_packed::Packed;
use mg_value::{Json, LONGEST_KEPT, NoMemory, ReadBuffer, ReadError, read_in};
use serde_json::Value;
use std::alloc::Global;

/// Reads a value whose whole numbers have any spelling; `None`: the bytes are no JSON text whose numbers are whole.
///
/// Errors: out of memory. Cost: the length of the text, for each object its members times the logarithm of their count, and
/// a table of 16 KiB that is cleared.
#[tactic(auto, using(crate::proofs::JsonLemmas::json_of_data, crate::proofs::JsonLemmas::no_json))]
fn read_numbers(alloc: Global, bytes: &[u8]) -> Result<Option<Json>, NoMemory>
    ensures { IfOk result (λ o. option_map view o ≡ json_of bytes.now) }
{
    match Value::from_slice(alloc, bytes) {
        Ok(value) => value_of(alloc, value),
        Err(error) => if error.is_memory() {
            Err(NoMemory)
        } else {
            Ok(None)
        },
    }
}

/// Reads a value as `read_numbers` does, into one block.
///
/// Errors: out of memory. Cost: that of `read_numbers`.
fn pack_numbers(alloc: Global, bytes: &[u8]) -> Result<Option<Packed>, NoMemory>
    ensures { IfOk result (λ o. o ≡ json_of bytes.now) }
{
    match read_numbers(alloc, bytes)? {
        Some(value) => Ok(Some(Packed::of(alloc, &value)?)),
        None => Ok(None),
    }
}

/// Reads a value into one block; `None`: the bytes are no JSON text whose numbers are whole.
///
/// Errors: out of memory. Cost: that of `Packed::read_in`; a text with a number such as `1.0` or `1e3` is then read once more.
#[tactic(auto, using(crate::proofs::JsonLemmas::reads_json, crate::proofs::JsonLemmas::not_json))]
pub(crate) fn read_packed(
    alloc: Global,
    bytes: &[u8],
    buffer: &mut ReadBuffer,
) -> Result<Option<Packed>, NoMemory>
    ensures { IfOk result (λ o. o ≡ json_of bytes.now) }
{
    match Packed::read_in(alloc, bytes, buffer) {
        Ok(packed) => Ok(Some(packed)),
        Err(ReadError::NotJson) => Ok(None),
        Err(ReadError::NotWhole) => pack_numbers(alloc, bytes),
        Err(ReadError::NoMemory) => Err(NoMemory),
    }
}

/// Reads a value; `None`: the bytes are no JSON text whose numbers are whole.
///
/// Errors: out of memory. Cost: that of `mg_value::read_in`; a text with a number such as `1.0` or `1e3` is then read once more.
#[tactic(auto, using(crate::proofs::JsonLemmas::reads_json, crate::proofs::JsonLemmas::not_json))]
pub(crate) fn read_tree(
    alloc: Global,
    bytes: &[u8],
    buffer: &mut ReadBuffer,
) -> Result<Option<Json>, NoMemory>
    ensures { IfOk result (λ o. option_map view o ≡ json_of bytes.now) }
{
    match read_in(alloc, bytes, buffer) {
        Ok(value) => Ok(Some(value)),
        Err(ReadError::NotJson) => Ok(None),
        Err(ReadError::NotWhole) => read_numbers(alloc, bytes),
        Err(ReadError::NoMemory) => Err(NoMemory),
    }
}

/// Whether bytes that no value was read from are a JSON text, with a number that is not whole.
///
/// Errors: out of memory.
#[tactic(auto, using(crate::proofs::JsonLemmas::is_value, crate::proofs::JsonLemmas::is_text, crate::proofs::JsonLemmas::is_no_text))]
pub(crate) fn is_json(
    alloc: Global,
    bytes: &[u8],
    buffer: &mut ReadBuffer,
) -> Result<bool, NoMemory>
    ensures { IfOk result (λ b. b ≡ is_json bytes.now) }
{
    match read_in(alloc, bytes, buffer) {
        Ok(_) => Ok(true),
        Err(ReadError::NotJson) => Ok(false),
        Err(ReadError::NotWhole) => Ok(true),
        Err(ReadError::NoMemory) => Err(NoMemory),
    }
}

/// Returns the bytes of a line without the last one.
pub(crate) fn text_of_line(line: &[u8]) -> &[u8]
    ensures { result.now ≡ take (length line.now - 1) line.now }
{
    match line.split_last() {
        Some((_, text)) => text,
        None => line,
    }
}

/// Copies the text that the object which the tape begins with has at a name.
///
/// Errors: out of memory.
fn text_in(alloc: Global, tape: &Tape<'_>, name: &str) -> Result<Option<String>, NoMemory>
    ensures { (j : Tree) → BeginsWith tape.now j
        → IfOk result (λ o. option_map string_bytes o ≡ option_and_then as_str (get name.now j)) }
{
    let root = tape.root();
    let Some(part) = root.get(name) else {
        return Ok(None);
    };
    let Some(text) = part.as_str() else {
        return Ok(None);
    };
    Ok(Some(String::from_str(alloc, text)?))
}

/// Copies the text that the object of a JSON text has at a name; `None`: the bytes are no text of an object with a text there.
///
/// Errors: out of memory. Cost: the length of the text, and 24 bytes for each of its tokens.
#[tactic(auto, using(crate::proofs::JsonLemmas::text_at_utf8, crate::proofs::JsonLemmas::no_text_at))]
fn text_at(
    alloc: Global,
    bytes: &[u8],
    name: &str,
    scratch: &mut Scratch,
) -> Result<Option<String>, NoMemory>
    ensures { IfOk result (λ o. option_map string_bytes o ≡ text_at name.now bytes.now) }
{
    let Ok(text) = str::from_utf8(bytes) else {
        return Ok(None);
    };
    match Tape::parse(text, scratch, Vec::new(alloc)) {
        Ok(tape) => text_in(alloc, &tape, name),
        Err(Error::Invalid) => Ok(None),
        Err(_) => Err(NoMemory),
    }
}

/// Returns the `_rev` of the document that a body shows. No value is made of the body.
///
/// Errors: out of memory. Cost: the length of the body. A body of more than `LONGEST_KEPT` bytes is read with memory of its own.
pub(crate) fn revision_in(
    alloc: Global,
    body: &[u8],
    buffer: &mut ReadBuffer,
) -> Result<Option<String>, NoMemory>
    ensures { IfOk result (λ o. option_map string_bytes o ≡ revision_in body.now) }
{
    let text = text_of_line(body);
    if text.len() > LONGEST_KEPT {
        let mut scratch = Scratch::new(alloc);
        return text_at(alloc, text, "_rev", &mut scratch);
    }
    text_at(alloc, text, "_rev", buffer.scratch())
}
