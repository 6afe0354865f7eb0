ghost use Rattle.std.specs.Prelude.{◌≡◌, ◌<◌, length, None, Some, Err, IfOk, IsUtf8};
ghost use Rattle.serde_json.specs.Data.{Data};
ghost use Rattle.serde_json.specs.View.{view as data_view, items_view as data_items_view, members_view as data_members_view};
ghost use Rattle.mg_value.specs.Text.{Reads, IsText, whole_of, whole_items, whole_members};
ghost use Rattle.mg_value.specs.View.{view, items_view, members_view};

use crate::borrowed::{ReadBuffer, read_fast};
use crate::error::ReadError;
use crate::value::Json;
use serde_json::{Map, Value};
use std::alloc::Global;
use std::collections::BTreeMap;

/// Reads a JSON text (RFC 8259, in UTF-8), with any white space that the grammar allows.
///
/// Arrays and objects may nest 127 deep, as in `serde_json`. Of members with the same name in an
/// object the last one counts: `{"a":1.5,"a":1}` is `{"a":1}`.
///
/// Errors: `NotJson` if the bytes are not such a text, or a number is too large for a 64-bit float;
/// `NotWhole` if they are such a text, but a number of the value is not an `i64` (`1.5`, `1.0`, `1e2`,
/// `-0` and `9223372036854775808` are not); `NoMemory` if an allocation fails. Bytes that are not UTF-8,
/// and the empty text, are `NotJson` even where there is no memory.
/// Cost: the length of the text, for each object its members times the logarithm of their count, and a table
/// of 16 KiB that is cleared (`read_in` saves this). A text in UTF-8 is read twice if it is refused, has a
/// number that is not an `i64`, or memory runs out.
pub fn read(alloc: Global, bytes: &[u8]) -> Result<Json, ReadError>
    ensures ok { IfOk result (λ v. Reads bytes.now (view v)) }
    ensures not_json { result ≡ Err ReadError.NotJson → (d : Data) → ¬ IsText bytes.now d }
    ensures not_whole { result ≡ Err ReadError.NotWhole
        → (d : Data) × IsText bytes.now d × (whole_of d ≡ None) }
    ensures no_memory { result ≡ Err ReadError.NoMemory
        → IsUtf8 bytes.now × (0 < length bytes.now) }
{
    let mut buffer = ReadBuffer::new(alloc);
    read_in(alloc, bytes, &mut buffer)
}

/// Reads a JSON text as `read` does, with a buffer that is kept from text to text.
///
/// Errors: those of `read`. Cost: that of `read`, but the table of 16 KiB is cleared only for a text that has more than
/// `LONGEST_KEPT` bytes or is read twice.
pub fn read_in(alloc: Global, bytes: &[u8], buffer: &mut ReadBuffer) -> Result<Json, ReadError>
    ensures ok { IfOk result (λ v. Reads bytes.now (view v)) }
    ensures not_json { result ≡ Err ReadError.NotJson → (d : Data) → ¬ IsText bytes.now d }
    ensures not_whole { result ≡ Err ReadError.NotWhole
        → (d : Data) × IsText bytes.now d × (whole_of d ≡ None) }
    ensures no_memory { result ≡ Err ReadError.NoMemory
        → IsUtf8 bytes.now × (0 < length bytes.now) }
{
    match str::from_utf8(bytes) {
        Ok(text) => read_text(alloc, text, buffer),
        Err(_) => Err(ReadError::NotJson),
    }
}

fn read_text(alloc: Global, text: &str, buffer: &mut ReadBuffer) -> Result<Json, ReadError>
    ensures ok { IfOk result (λ v. Reads text.now (view v)) }
    ensures not_json { result ≡ Err ReadError.NotJson → (d : Data) → ¬ IsText text.now d }
    ensures not_whole { result ≡ Err ReadError.NotWhole
        → (d : Data) × IsText text.now d × (whole_of d ≡ None) }
    ensures no_memory { result ≡ Err ReadError.NoMemory → 0 < length text.now }
{
    match read_fast(alloc, text, buffer) {
        Some(value) => Ok(value),
        None => read_again(alloc, text),
    }
}

// The slow path of `read`, over a parse tree that has each number's value. It finds why a text is refused, and accepts
// texts such as `{"a":1.5,"a":1}`, where a later member replaces the number that is not an `i64`.
fn read_again(alloc: Global, text: &str) -> Result<Json, ReadError>
    ensures ok { IfOk result (λ v. Reads text.now (view v)) }
    ensures not_json { result ≡ Err ReadError.NotJson → (d : Data) → ¬ IsText text.now d }
    ensures not_whole { result ≡ Err ReadError.NotWhole
        → (d : Data) × IsText text.now d × (whole_of d ≡ None) }
    ensures no_memory { result ≡ Err ReadError.NoMemory → 0 < length text.now }
{
    match Value::from_str(alloc, text) {
        Ok(value) => whole(alloc, value),
        Err(error) => if error.is_memory() {
            Err(ReadError::NoMemory)
        } else {
            Err(ReadError::NotJson)
        },
    }
}

// Makes a `Json` from parsed data. It moves the texts and the names, and copies none. Errors: `NotWhole` if a number is
// not an `i64`; `NoMemory` if an allocation fails.
#[cycle(whole)]
fn whole(alloc: Global, value: Value) -> Result<Json, ReadError>
    ensures ok { IfOk result (λ v. whole_of (data_view value) ≡ Some (view v)) }
    ensures json { result ≡ Err ReadError.NotJson → ⊥ }
    ensures not_whole { result ≡ Err ReadError.NotWhole → whole_of (data_view value) ≡ None }
{
    match value {
        Value::Null => Ok(Json::Null),
        Value::Bool(flag) => Ok(Json::Flag(flag)),
        Value::Number(number) => match number.as_i64() {
            Some(number) => Ok(Json::Whole(number)),
            None => Err(ReadError::NotWhole),
        },
        Value::String(text) => Ok(Json::Text(text)),
        Value::Array(items) => Ok(Json::List(items_whole(alloc, items)?)),
        Value::Object(members) => Ok(Json::Object(members_whole(alloc, members)?)),
    }
}

#[cycle(whole)]
fn items_whole(alloc: Global, items: Vec<Value>) -> Result<Vec<Json>, ReadError>
    ensures ok { IfOk result
        (λ v. whole_items (data_items_view items.items) ≡ Some (items_view v.items)) }
    ensures json { result ≡ Err ReadError.NotJson → ⊥ }
    ensures not_whole { result ≡ Err ReadError.NotWhole
        → whole_items (data_items_view items.items) ≡ None }
{
    let mut found = Vec::with_capacity(alloc, items.len())?;
    for item in items {
        found.push(whole(alloc, item)?)?;
    }
    Ok(found)
}

#[cycle(whole)]
fn members_whole(
    alloc: Global,
    members: Map<String, Value>,
) -> Result<BTreeMap<String, Json>, ReadError>
    ensures ok { IfOk result
        (λ m. whole_members (data_members_view members.entries) ≡ Some (members_view m.entries)) }
    ensures json { result ≡ Err ReadError.NotJson → ⊥ }
    ensures not_whole { result ≡ Err ReadError.NotWhole
        → whole_members (data_members_view members.entries) ≡ None }
{
    let mut found = BTreeMap::new(alloc);
    for (name, member) in members {
        let member = whole(alloc, member)?;
        drop(found.insert(name, member)?);
    }
    Ok(found)
}
