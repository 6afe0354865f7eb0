// Writes the compact text of a value into one buffer and its tables into another, in one walk.
// Errors: `NoMemory` if an allocation fails, or a place needs more than four bytes; the buffers may then have more bytes than before.
ghost use Rattle.std.specs.Prelude.{◌≡◌, ◌++◌, OnOk};
ghost use Rattle.mg_value.specs.Value.{list, object};
ghost use Rattle.mg_value.specs.Stored.{IsStored, AreStored, MembersAreStored};
ghost use Rattle.mg_value.specs.Text.{compact};
ghost use Rattle.mg_value.specs.View.{view, items_view, members_view};
ghost use Rattle.mg_packed.specs.Tables.{tables};

use crate::build::{push_text, push_whole};
use crate::pieces::Pieces;
use mg_value::{Json, NoMemory};
use std::alloc::Global;
use std::collections::BTreeMap;

// Adds the text of the value, and its tables.
#[cycle(fill_value)]
pub(crate) fn fill_value(
    alloc: Global,
    out: &mut Vec<u8>,
    inner: &mut Vec<u8>,
    value: &Json,
) -> Result<(), NoMemory>
    ensures text { OnOk result (out.new.items ≡ out.old.items ++ compact (view value.now)) }
    ensures tables { OnOk result (inner.new.items ≡ inner.old.items ++ tables (view value.now)) }
    ensures stored { OnOk result (IsStored (view value.now)) }
{
    match value {
        Json::Null => {
            out.extend_from_slice(b"null")?;
            Ok(())
        }
        Json::Flag(false) => {
            out.extend_from_slice(b"false")?;
            Ok(())
        }
        Json::Flag(true) => {
            out.extend_from_slice(b"true")?;
            Ok(())
        }
        Json::Whole(number) => push_whole(out, *number),
        Json::Text(text) => push_text(out, inner, text),
        Json::List(items) => fill_list(alloc, out, inner, items),
        Json::Object(members) => fill_object(alloc, out, inner, members),
    }
}

#[cycle(fill_value)]
fn fill_list(
    alloc: Global,
    out: &mut Vec<u8>,
    inner: &mut Vec<u8>,
    items: &[Json],
) -> Result<(), NoMemory>
    ensures text { OnOk result
        (out.new.items ≡ out.old.items ++ compact (list (items_view items.now))) }
    ensures tables { OnOk result
        (inner.new.items ≡ inner.old.items ++ tables (list (items_view items.now))) }
    ensures stored { OnOk result (AreStored (items_view items.now)) }
{
    let mut pieces = Pieces::begin(alloc, out, inner, b'[', items.len())?;
    for item in items {
        pieces.mark(out, inner, b',')?;
        fill_value(alloc, out, inner, item)?;
    }
    pieces.end(out, inner, b']')?;
    Ok(())
}

#[cycle(fill_value)]
fn fill_object(
    alloc: Global,
    out: &mut Vec<u8>,
    inner: &mut Vec<u8>,
    members: &BTreeMap<String, Json>,
) -> Result<(), NoMemory>
    ensures text { OnOk result
        (out.new.items ≡ out.old.items ++ compact (object (members_view members.now.entries))) }
    ensures tables { OnOk result
        (inner.new.items ≡ inner.old.items ++ tables (object (members_view members.now.entries))) }
    ensures stored { OnOk result (MembersAreStored (members_view members.now.entries)) }
{
    let mut pieces = Pieces::begin(alloc, out, inner, b'{', members.len().saturating_mul(2))?;
    for (name, member) in members.iter() {
        pieces.mark(out, inner, b',')?;
        push_text(out, inner, name)?;
        pieces.mark(out, inner, b':')?;
        fill_value(alloc, out, inner, member)?;
    }
    pieces.end(out, inner, b'}')?;
    Ok(())
}
