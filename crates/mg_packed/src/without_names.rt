// Copies an object without the members whose names begin with a byte. The texts and the tables of the others are copied as they are.
// Errors: `NoMemory` if an allocation fails.
ghost use Rattle.std.specs.Prelude.{◌≡◌, IfOk};
ghost use Rattle.mg_value.specs.Value.{object};
ghost use Rattle.mg_packed.specs.Front.{without_names_beginning};

use crate::object::Object;
use crate::packed::Packed;
use crate::pieces::Pieces;
use mg_value::NoMemory;
use std::alloc::Global;

// Copies the object, without the members whose names begin with this byte.
pub(crate) fn object_without(
    alloc: Global,
    members: &Object<'_>,
    front: u8,
) -> Result<Packed, NoMemory>
    ensures { IfOk result
        (λ packed. packed ≡ object (without_names_beginning front members.now)) }
{
    let count = members.len();
    let gap = members.front_gap(front);
    let mut out = Vec::with_capacity(alloc, members.block_len())?;
    let mut inner = Vec::with_capacity(alloc, members.block_len())?;
    let mut pieces = Pieces::begin(alloc, &mut out, &inner, b'{', count.saturating_mul(2))?;
    members.push_range(&mut pieces, &mut out, &mut inner, 0, gap.before)?;
    members.push_range(&mut pieces, &mut out, &mut inner, gap.after, count)?;
    pieces.end(&mut out, &mut inner, b'}')?;
    let packed = Packed::joined(alloc, &out, &inner)?;
    Ok(packed)
}
