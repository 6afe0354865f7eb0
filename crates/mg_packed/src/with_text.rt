// Copies an object with a text as one of its members. The texts and the tables of the other members are copied as they are.
// Errors: `NoMemory` if an allocation fails, or a place needs more than four bytes.
ghost use Rattle.std.specs.Prelude.{◌≡◌, ◌++◌, ℕ, List, IfOk, OnOk};
ghost use Rattle.mg_value.specs.Value.{text as string, object, put, member, no_members};
ghost use Rattle.mg_packed.specs.Tables.{Piece, member_pieces};
ghost use Rattle.mg_packed.specs.Writing.{IsOpen, IsSomeOpen};

use crate::build::push_text;
use crate::object::Object;
use crate::packed::Packed;
use crate::pieces::Pieces;
use mg_value::NoMemory;
use std::alloc::Global;

// Copies the object, with the text as its member of this name.
pub(crate) fn object_with_text(
    alloc: Global,
    members: &Object<'_>,
    name: &str,
    text: &str,
) -> Result<Packed, NoMemory>
    ensures { IfOk result (λ packed. packed ≡ object (put name.now (string text.now) members.now)) }
{
    let count = members.len();
    let gap = members.gap(name);
    let mut out = Vec::with_capacity(alloc, members.block_len())?;
    let mut inner = Vec::with_capacity(alloc, members.block_len())?;
    let mut pieces = Pieces::begin(alloc, &mut out, &inner, b'{', count.saturating_mul(2))?;
    members.push_range(&mut pieces, &mut out, &mut inner, 0, gap.before)?;
    push_member(&mut pieces, &mut out, &mut inner, name, text)?;
    members.push_range(&mut pieces, &mut out, &mut inner, gap.after, count)?;
    pieces.end(&mut out, &mut inner, b'}')?;
    let packed = Packed::joined(alloc, &out, &inner)?;
    Ok(packed)
}

// Adds a member with this text.
fn push_member(
    pieces: &mut Pieces,
    out: &mut Vec<u8>,
    inner: &mut Vec<u8>,
    name: &str,
    text: &str,
) -> Result<(), NoMemory>
    requires { IsSomeOpen out.old.items inner.old.items pieces.old.text pieces.old.tables pieces.old.marks.items }
    ensures { OnOk result ((b t : List ℕ) (bracket : ℕ) (ps : List Piece)
        → IsOpen b t bracket ps out.old.items inner.old.items pieces.old.text pieces.old.tables pieces.old.marks.items
        → IsOpen b t bracket (ps ++ member_pieces (member name.now (string text.now) no_members)) out.new.items inner.new.items
        pieces.new.text pieces.new.tables pieces.new.marks.items) }
{
    pieces.mark(out, inner, b',')?;
    push_text(out, inner, name)?;
    pieces.mark(out, inner, b':')?;
    push_text(out, inner, text)?;
    Ok(())
}
