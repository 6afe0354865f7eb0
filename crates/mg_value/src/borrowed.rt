// The fast path of `read`, over a parse tree that borrows its strings. It gives up (`None`) if the text is not JSON or
// nests more than 127 deep, a number is not an `i64`, or memory ran out.
ghost use Rattle.std.specs.Prelude.{◌≡◌, ◌<◌, ◌==◌, true, false, length, slice_index, Some, IsTrue, IfSome, option_and_then};
ghost use Rattle.json.specs.Value.{value_view, items_view as tree_items, members_view as tree_members};
ghost use Rattle.serde_json.specs.Find.{as_i64};
ghost use Rattle.serde_json.specs.Read.{number_from};
ghost use Rattle.mg_value.specs.Borrowed.{whole_number_of, IsTreeOf, AreItemTreesOf, AreMemberTreesOf};
ghost use Rattle.mg_value.specs.Text.{Reads};
ghost use Rattle.mg_value.specs.Value.{Value};
ghost use Rattle.mg_value.specs.View.{view, items_view, members_view};

use crate::value::Json;
use fast_float::Numeral;
use json::{Reader, Scratch, Value as Tree};
use std::alloc::Global;
use std::collections::BTreeMap;

/// How deep arrays and objects may nest: the limit of `serde_json`.
pub const MAX_DEPTH: usize = 127;

/// The longest text, in bytes, that is read with the memory of a `ReadBuffer`. A longer text is read with memory that
/// is freed after the read, so that one large text does not hold memory from then on.
pub const LONGEST_KEPT: usize = 65_536;

/// Memory that reading needs besides the value, kept from one text to the next: a table of 16 KiB, which is cleared
/// when the buffer is made, and room for as many bytes as the longest text that was read with the buffer, at most
/// `LONGEST_KEPT`. The room grows by doubling, so it takes less than 128 KiB.
#[derive(Drop)]
pub struct ReadBuffer {
    scratch: Scratch,
}

impl ReadBuffer {
    /// Makes a buffer, and clears its table of 16 KiB, which is part of the buffer itself. Allocates nothing.
    pub fn new(alloc: Global) -> ReadBuffer {
        ReadBuffer {
            scratch: Scratch::new(alloc),
        }
    }

    /// Lends the memory for `read_tree`. The buffer keeps as much as the longest text needs, so use it only for texts of
    /// at most `LONGEST_KEPT` bytes.
    pub fn scratch(&mut self) -> &mut Scratch {
        &mut self.scratch
    }
}

// Reads the value of the text; `None` if the text is not JSON, nests more than 127 deep, one of its numbers is not an
// `i64`, or memory ran out.
pub(crate) fn read_fast(alloc: Global, text: &str, buffer: &mut ReadBuffer) -> Option<Json>
    ensures { IfSome result (λ v. Reads text.now (view v)) }
{
    if text.len() > LONGEST_KEPT {
        let mut scratch = Scratch::new(alloc);
        return read_with(alloc, text, &mut scratch);
    }
    read_with(alloc, text, &mut buffer.scratch)
}

// Does what `read_fast` does, with this scratch for a text of any length.
fn read_with(alloc: Global, text: &str, scratch: &mut Scratch) -> Option<Json>
    ensures { IfSome result (λ v. Reads text.now (view v)) }
{
    let tree = read_tree(alloc, text, scratch)?;
    whole(alloc, &tree)
}

/// Reads the parse tree of a JSON text; `None` if the text is not JSON, nests more than 127 deep, or memory ran out. A
/// number stays text, and its size is not checked. A string is borrowed from the text, or from `scratch` if it has an
/// escape.
///
/// Cost: the length of the text. `scratch` grows to hold as many bytes as the text has.
pub fn read_tree<'a>(alloc: Global, text: &'a str, scratch: &'a mut Scratch) -> Option<Tree<'a>>
    ensures { IfSome result (λ tree. (v : Value) → IsTreeOf (value_view tree) v → Reads text.now v) }
{
    let Ok(mut reader) = Reader::new(text, scratch) else {
        return None;
    };
    let Ok(tree) = Tree::read(alloc, &mut reader, MAX_DEPTH) else {
        return None;
    };
    if reader.next().is_some() {
        return None;
    }
    Some(tree)
}

#[cycle(whole)]
#[inline(always)]
fn whole(alloc: Global, tree: &Tree<'_>) -> Option<Json>
    ensures { IfSome result (λ v. IsTreeOf (value_view tree.now) (view v)) }
{
    match tree {
        Tree::Null => Some(Json::Null),
        Tree::Bool(flag) => Some(Json::Flag(*flag)),
        Tree::Number(text) => Some(Json::Whole(whole_number(text)?)),
        Tree::String(text) => Some(Json::Text(String::from_str(alloc, text).ok()?)),
        Tree::Array(items) => Some(Json::List(whole_items(alloc, items)?)),
        Tree::Object(members) => Some(Json::Object(whole_members(alloc, members)?)),
    }
}

#[cycle(whole)]
#[inline(never)]
fn whole_items(alloc: Global, items: &[Tree<'_>]) -> Option<Vec<Json>>
    ensures { IfSome result (λ vs. AreItemTreesOf (tree_items items.now) (items_view vs.items)) }
{
    let mut values = Vec::with_capacity(alloc, items.len()).ok()?;
    for item in items {
        values.push(whole(alloc, item)?).ok()?;
    }
    Some(values)
}

#[cycle(whole)]
#[inline(never)]
fn whole_members(alloc: Global, members: &[(&str, Tree<'_>)]) -> Option<BTreeMap<String, Json>>
    ensures { IfSome result
        (λ m. AreMemberTreesOf (tree_members members.now) (members_view m.entries)) }
{
    let mut copies = BTreeMap::new(alloc);
    for member in members {
        let name = String::from_str(alloc, member.0).ok()?;
        let value = whole(alloc, &member.1)?;
        drop(copies.insert(name, value).ok()?);
    }
    Some(copies)
}

/// Returns the number that a JSON numeral stands for; `None` if it is not an `i64`: `1.0`, `1e2` and `-0` are not. The
/// text must be a numeral; this is not checked, and bytes after the numeral are ignored. Cost: the length of the text.
pub fn whole_number(text: &str) -> Option<i64>
    ensures { IfSome result (λ z. whole_number_of text.now ≡ Some z) }
{
    let bytes = text.as_bytes();
    if has_minus(bytes) {
        with_minus(&Numeral::scan(&bytes[1..]))
    } else {
        without_minus(&Numeral::scan(bytes))
    }
}

fn has_minus(bytes: &[u8]) -> bool
    ensures value { result ≡ (slice_index bytes.now 0 == 45) }
    ensures len { IsTrue result → 0 < length bytes.now }
{
    !bytes.is_empty() && bytes[0] == b'-'
}

fn without_minus(numeral: &Numeral<'_>) -> Option<i64>
    ensures { IfSome result
        (λ z. option_and_then as_i64 (number_from false numeral.now) ≡ Some z) }
{
    numeral.to_i64(false)
}

// `-0` counts as a float, so it gives `None`.
fn with_minus(numeral: &Numeral<'_>) -> Option<i64>
    ensures { IfSome result
        (λ z. option_and_then as_i64 (number_from true numeral.now) ≡ Some z) }
{
    let number = numeral.to_i64(true)?;
    if number < 0 { Some(number) } else { None }
}
