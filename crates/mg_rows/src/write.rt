// Appends the bytes of values to a buffer. After an error, some of them may have been appended, unless a function says otherwise.
ghost use Rattle.std.specs.Prelude.{◌≡◌, ◌++◌, [], ◌∷◌, suc, map, OnOk, OnErr, IsUtf8};
ghost use Rattle.mg_value.specs.Value.{Items};
ghost use Rattle.mg_value.specs.View.{items_view};
ghost use Rattle.mg_rows.specs.Bytes.{big_endian, sign_turned, text_before, value_before};
ghost use Rattle.mg_rows.specs.Bytes.{columns_before, items_before, members_before};
ghost use Rattle.mg_value.specs.Stored.{IsStored, AreStored, MembersAreStored};
ghost use Rattle.mg_rows.specs.Stored.{IsKey};
ghost use Rattle.mg_rows.specs.StandsFor.{KeyOf};

use mg_value::{Json, Kind, LentValue, NoMemory};

// The byte after a string: below every byte of the string, since these are stored plus 1.
const TEXT_END: u8 = 0;

// The byte after the items of an array or the members of an object: below every type.
const LIST_END: u8 = 0;

// Appends the value of a key's next column. After an error the buffer is empty.
pub(crate) fn write_column<L: LentValue>(value: L, out: &mut Vec<u8>) -> Result<(), NoMemory>
    ensures bytes { OnOk result
        (out.new.items ≡ out.old.items ++ value_before (L.value value) []) }
    ensures stored { OnOk result (IsStored (L.value value)) }
    ensures refused { OnErr result (out.new.items ≡ []) }
    ensures key { (key : Items) → IsKey out.old.items key → KeyOf out.new.items }
{
    match write_value(value, out) {
        Ok(()) => Ok(()),
        Err(NoMemory) => {
            out.clear();
            Err(NoMemory)
        }
    }
}

// Appends the values of a key's next columns, without the byte that ends a key.
pub(crate) fn write_columns(values: &[Json], out: &mut Vec<u8>) -> Result<(), NoMemory>
    ensures bytes { OnOk result
        (out.new.items ≡ out.old.items ++ columns_before (items_view values.now) []) }
    ensures stored { OnOk result (AreStored (items_view values.now)) }
{
    for value in values {
        write_value(value, out)?;
    }
    Ok(())
}

// Appends the items of an array, and the byte that ends them.
#[cycle(write_value)]
fn write_items<L: LentValue>(items: L::List, out: &mut Vec<u8>) -> Result<(), NoMemory>
    ensures bytes { OnOk result (out.new.items ≡ out.old.items ++ items_before (L.items items) []) }
    ensures stored { OnOk result (AreStored (L.items items)) }
{
    for place in 0..L::len(&items) {
        write_value(L::item(&items, place), out)?;
    }
    out.push(LIST_END)?;
    Ok(())
}

#[cycle(write_value)]
fn write_value<L: LentValue>(value: L, out: &mut Vec<u8>) -> Result<(), NoMemory>
    ensures bytes { OnOk result
        (out.new.items ≡ out.old.items ++ value_before (L.value value) []) }
    ensures stored { OnOk result (IsStored (L.value value)) }
{
    match value.kind() {
        Kind::Null => out.push(1)?,
        Kind::Flag(false) => out.push(2)?,
        Kind::Flag(true) => out.push(3)?,
        Kind::Whole(number) => write_whole(number, out)?,
        Kind::Text(text) => write_text(L::as_str(&text), out)?,
        Kind::List(items) => {
            out.push(6)?;
            write_items::<L>(items, out)?;
        }
        Kind::Object(members) => {
            out.push(7)?;
            write_members::<L>(members, out)?;
        }
    }
    Ok(())
}

#[cycle(write_value)]
fn write_members<L: LentValue>(members: L::Object, out: &mut Vec<u8>) -> Result<(), NoMemory>
    ensures bytes { OnOk result
        (out.new.items ≡ out.old.items ++ members_before (L.members members) []) }
    ensures stored { OnOk result (MembersAreStored (L.members members)) }
{
    L::ascends(&members);
    let mut walk = L::walk(&members);
    while let Some((name, member)) = L::next(&mut walk) {
        write_text(L::as_str(&name), out)?;
        write_value(member, out)?;
    }
    out.push(LIST_END)?;
    Ok(())
}

// Appends a string with its type, and makes room for a byte that may follow. A member's name is also written as a string.
fn write_text(text: &str, out: &mut Vec<u8>) -> Result<(), NoMemory>
    ensures bytes { OnOk result (out.new.items ≡ out.old.items ++ 5 ∷ text_before text.now []) }
    ensures utf8 { IsUtf8 text.now }
{
    let bytes = text.as_bytes();
    out.reserve(bytes.len().saturating_add(3))?;
    out.push(5)?;
    let start = out.len();
    out.extend_from_slice(bytes)?;
    raise(&mut out[start..]);
    out.push(TEXT_END)?;
    Ok(())
}

// Adds 1 to each byte; no byte of UTF-8 is 255.
fn raise(bytes: &mut [u8])
    requires { IsUtf8 bytes.old }
    ensures { bytes.new ≡ map suc bytes.old }
{
    for byte in bytes.iter_mut() {
        *byte += 1;
    }
}

// Appends a whole number with its type, and makes room for a byte that may follow.
fn write_whole(number: i64, out: &mut Vec<u8>) -> Result<(), NoMemory>
    ensures { OnOk result
        (out.new.items ≡ out.old.items ++ 4 ∷ big_endian 8 (sign_turned number) []) }
{
    let turned = number.cast_unsigned().wrapping_add(1 << 63);
    out.reserve(10)?;
    out.push(4)?;
    out.extend_from_slice(&turned.to_be_bytes())?;
    Ok(())
}
