ghost use Rattle.std.specs.Prelude.{◌≡◌, ◌≤◌, ◌++◌, IfOk, OnOk};
ghost use Rattle.mg_value.specs.Text.{Reads, compact};
ghost use Rattle.mg_value.specs.Held.{IsHeld, ItemsAreHeld, MembersAreHeld, tokens_of, items_tokens_of, members_tokens_of};
ghost use Rattle.mg_value.specs.Value.{depth};
ghost use Rattle.mg_value.specs.View.{view, items_view, members_view};

use crate::error::NoMemory;
use crate::value::Json;
use json::Writer;
use std::alloc::{AllocError, Global};
use std::collections::BTreeMap;

// The first size of the buffer, in bytes.
const FIRST_ROOM: usize = 256;

/// Writes the value as compact JSON text (RFC 8259). `read` gives the value back if the value nests at
/// most 127 deep.
///
/// There is no white space, members are ordered by the code points of their names, and numbers are
/// decimal. Only what RFC 8259 requires is escaped: quotes and backslashes by a backslash, control
/// characters by their letter (such as `\n`) or, where they have none, by their number (`\u001f`).
///
/// Errors: `NoMemory` if an allocation fails. Cost: the length of the text, in one buffer that grows.
pub fn write(alloc: Global, value: &Json) -> Result<Vec<u8>, NoMemory>
    ensures text { IfOk result (λ b. b.items ≡ compact (view value.now)) }
    ensures reads_back { IfOk result (λ b. depth (view value.now) ≤ 127
        → Reads b.items (view value.now)) }
{
    let mut out = Writer::new(Vec::with_capacity(alloc, FIRST_ROOM)?);
    write_value(value, &mut out)?;
    Ok(out.into_inner())
}

// Appends the tokens of the value to the text. After an error, some of them may have been appended.
#[cycle(write_value)]
fn write_value(value: &Json, out: &mut Writer) -> Result<(), AllocError>
    ensures tokens { OnOk result (out.new.tokens ≡ out.old.tokens ++ tokens_of (view value.now)) }
    ensures before { out.new.before ≡ out.old.before }
    ensures held { OnOk result (IsHeld (view value.now)) }
{
    match value {
        Json::Null => out.null(),
        Json::Flag(flag) => out.boolean(*flag),
        Json::Whole(number) => out.i64(*number),
        Json::Text(text) => out.string(text),
        Json::List(items) => {
            out.begin_array()?;
            write_items(items, out)
        }
        Json::Object(members) => {
            out.begin_object()?;
            write_members(members, out)
        }
    }
}

#[cycle(write_value)]
fn write_items(items: &[Json], out: &mut Writer) -> Result<(), AllocError>
    ensures tokens { OnOk result
        (out.new.tokens ≡ out.old.tokens ++ items_tokens_of (items_view items.now)) }
    ensures before { out.new.before ≡ out.old.before }
    ensures held { OnOk result (ItemsAreHeld (items_view items.now)) }
{
    for item in items {
        write_value(item, out)?;
    }
    out.end_array()
}

#[cycle(write_value)]
fn write_members(members: &BTreeMap<String, Json>, out: &mut Writer) -> Result<(), AllocError>
    ensures tokens { OnOk result
        (out.new.tokens ≡ out.old.tokens ++ members_tokens_of (members_view members.now.entries)) }
    ensures before { out.new.before ≡ out.old.before }
    ensures held { OnOk result (MembersAreHeld (members_view members.now.entries)) }
{
    for (name, member) in members.iter() {
        out.key(name)?;
        write_value(member, out)?;
    }
    out.end_object()
}
