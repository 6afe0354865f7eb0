// Reads values from the front of bytes, and returns the bytes that follow. The bytes of a value are read back as the value
// (`value`), and are never refused as `NotStored` (`stored`).
ghost use Rattle.std.specs.Prelude.{◌≡◌, ◌<◌, ◌≤◌, [], List, ℕ, ℤ, IfOk, IfErr, IsUtf8, FitsSigned, length, string_bytes};
ghost use Rattle.std.specs.Int.{w64};
ghost use Rattle.mg_value.specs.Value.{Value, Items, Members};
ghost use Rattle.mg_value.specs.View.{view, items_view, members_view};
ghost use Rattle.mg_rows.specs.Bytes.{big_endian, sign_turned, text_before, value_before, items_before, members_before};
ghost use Rattle.mg_value.specs.Stored.{IsStored, AreStored, MembersAreStored};

use crate::error::DecodeError;
use mg_value::Json;
use std::alloc::Global;
use std::collections::BTreeMap;

// Reads a key from its bytes, with the byte that ends it.
pub(crate) fn read_key(alloc: Global, bytes: &[u8]) -> Result<Vec<Json>, DecodeError>
    ensures value { (vs : Items) → AreStored vs → bytes.now ≡ items_before vs []
        → IfOk result (λ key. items_view key.items ≡ vs) }
    ensures stored { (vs : Items) → AreStored vs → bytes.now ≡ items_before vs []
        → IfErr result (λ e. e ≡ DecodeError.NoMemory) }
{
    let (key, _) = read_items(alloc, bytes)?;
    Ok(key)
}

#[cycle(read_value)]
fn read_value(alloc: Global, bytes: &[u8]) -> Result<(Json, &[u8]), DecodeError>
    ensures value { (v : Value) (rest : List ℕ) → IsStored v → bytes.now ≡ value_before v rest
        → IfOk result (λ p. (view p.0 ≡ v) × (p.1.now ≡ rest)) }
    ensures stored { (v : Value) (rest : List ℕ) → IsStored v → bytes.now ≡ value_before v rest
        → IfErr result (λ e. e ≡ DecodeError.NoMemory) }
    ensures less { IfOk result (λ p. length p.1.now < length bytes.now) }
{
    let Some((tag, after)) = bytes.split_first() else {
        return Err(DecodeError::NotStored);
    };
    match *tag {
        1 => Ok((Json::Null, after)),
        2 => Ok((Json::Flag(false), after)),
        3 => Ok((Json::Flag(true), after)),
        4 => {
            let (number, rest) = read_whole(after)?;
            Ok((Json::Whole(number), rest))
        }
        5 => {
            let (text, rest) = read_text(alloc, after)?;
            Ok((Json::Text(text), rest))
        }
        6 => {
            let (items, rest) = read_items(alloc, after)?;
            Ok((Json::List(items), rest))
        }
        7 => {
            let (members, rest) = read_members(alloc, after)?;
            Ok((Json::Object(members), rest))
        }
        _ => Err(DecodeError::NotStored),
    }
}

#[cycle(read_value)]
fn read_items(alloc: Global, bytes: &[u8]) -> Result<(Vec<Json>, &[u8]), DecodeError>
    ensures value { (vs : Items) (rest : List ℕ) → AreStored vs → bytes.now ≡ items_before vs rest
        → IfOk result (λ p. (items_view p.0.items ≡ vs) × (p.1.now ≡ rest)) }
    ensures stored { (vs : Items) (rest : List ℕ) → AreStored vs → bytes.now ≡ items_before vs rest
        → IfErr result (λ e. e ≡ DecodeError.NoMemory) }
    ensures less { IfOk result (λ p. length p.1.now ≤ length bytes.now) }
{
    let mut items = Vec::new(alloc);
    let mut left = bytes;
    while let Some((tag, after)) = left.split_first() {
        if *tag == 0 {
            return Ok((items, after));
        }
        let (item, rest) = read_value(alloc, left)?;
        items.push(item)?;
        left = rest;
    }
    Err(DecodeError::NotStored)
}

#[cycle(read_value)]
fn read_members(alloc: Global, bytes: &[u8]) -> Result<(BTreeMap<String, Json>, &[u8]), DecodeError>
    ensures value { (ms : Members) (rest : List ℕ) → MembersAreStored ms
        → bytes.now ≡ members_before ms rest
        → IfOk result (λ p. (members_view p.0.entries ≡ ms) × (p.1.now ≡ rest)) }
    ensures stored { (ms : Members) (rest : List ℕ) → MembersAreStored ms
        → bytes.now ≡ members_before ms rest
        → IfErr result (λ e. e ≡ DecodeError.NoMemory) }
    ensures less { IfOk result (λ p. length p.1.now ≤ length bytes.now) }
{
    let mut members = BTreeMap::new(alloc);
    let mut left = bytes;
    while let Some((tag, after)) = left.split_first() {
        if *tag == 0 {
            return Ok((members, after));
        }
        let (name, named) = read_text(alloc, after)?;
        let (member, rest) = read_value(alloc, named)?;
        drop(members.insert(name, member)?);
        left = rest;
    }
    Err(DecodeError::NotStored)
}

// Reads a string from the bytes after its type.
fn read_text(alloc: Global, bytes: &[u8]) -> Result<(String, &[u8]), DecodeError>
    ensures value { (s : List ℕ) (rest : List ℕ) → bytes.now ≡ text_before s rest
        → IfOk result (λ p. (string_bytes p.0 ≡ s) × (p.1.now ≡ rest)) }
    ensures stored { (s : List ℕ) (rest : List ℕ) → IsUtf8 s → bytes.now ≡ text_before s rest
        → IfErr result (λ e. e ≡ DecodeError.NoMemory) }
    ensures less { IfOk result (λ p. length p.1.now < length bytes.now) }
{
    let mut text = Vec::new(alloc);
    let mut left = bytes;
    while let Some((byte, after)) = left.split_first() {
        if *byte == 0 {
            let text = text_of(text)?;
            return Ok((text, after));
        }
        text.push(*byte - 1)?;
        left = after;
    }
    Err(DecodeError::NotStored)
}

// Makes a text of its bytes; `NotStored` if they are not UTF-8.
fn text_of(bytes: Vec<u8>) -> Result<String, DecodeError>
    ensures value { IfOk result (λ text. string_bytes text ≡ bytes.items) }
    ensures stored { IsUtf8 bytes.items → IfErr result (λ e. e ≡ DecodeError.NoMemory) }
{
    match String::from_utf8(bytes) {
        Ok(text) => Ok(text),
        Err(_) => Err(DecodeError::NotStored),
    }
}

// Reads a whole number from the bytes after its type.
fn read_whole(bytes: &[u8]) -> Result<(i64, &[u8]), DecodeError>
    ensures value { (z : ℤ) (rest : List ℕ) → FitsSigned w64 z
        → bytes.now ≡ big_endian 8 (sign_turned z) rest
        → IfOk result (λ p. (p.0 ≡ z) × (p.1.now ≡ rest)) }
    ensures stored { (z : ℤ) (rest : List ℕ) → bytes.now ≡ big_endian 8 (sign_turned z) rest
        → IfErr result (λ e. e ≡ DecodeError.NoMemory) }
    ensures less { IfOk result (λ p. length p.1.now ≤ length bytes.now) }
{
    let Some((number, rest)) = bytes.split_first_chunk::<8>() else {
        return Err(DecodeError::NotStored);
    };
    let turned = u64::from_be_bytes(*number);
    Ok((turned.wrapping_add(1 << 63).cast_signed(), rest))
}
