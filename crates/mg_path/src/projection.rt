ghost use Rattle.std.specs.Prelude.{◌≡◌, ◌∷◌, IfOk, map, string_bytes};
ghost use Rattle.mg_value.specs.Value.{object};
ghost use Rattle.mg_value.specs.View.{view, members_view};
ghost use Rattle.mg_path.specs.Part.{placed, projection_of};

use crate::part::part_of;
use crate::path::Path;
use mg_value::{Json, LentValue, NoMemory};
use std::alloc::Global;
use std::collections::BTreeMap;
use std::mem;

/// Builds an object from the parts of the lent value at the paths. Each part goes under the steps of its
/// path, as names of nested objects; a later path replaces what an earlier one put there. A path is
/// skipped where its part is missing, or where an earlier path put something other than an object on its way.
///
/// Errors: `NoMemory` if an allocation fails.
/// Cost: for each path, one look-up for each step in the value; if the part is there, also a copy of the part, even if it
/// is not put in or is replaced later, and for each step up to two look-ups in the object that is built, and a copy
/// of the step.
/// Source: `fields` of CouchDB's `_find`.
pub fn project<L: LentValue>(alloc: Global, value: L, paths: &[Path]) -> Result<Json, NoMemory>
    ensures { IfOk result (λ projected. view projected ≡ projection_of paths.now (L.value value)) }
{
    let mut projected = Json::empty_object(alloc);
    for path in paths {
        if let Some(part) = part_of(path.steps(), value.lend()) {
            let part = part.to_json(alloc)?;
            projected = place(alloc, projected, path.steps(), part)?;
        }
    }
    Ok(projected)
}

// Places the part under the steps in the value; without steps the part replaces the value. An object that is missing on
// the way is made; if a value on the way is not an object, nothing changes.
#[cycle(place)]
fn place(alloc: Global, value: Json, steps: &[String], part: Json) -> Result<Json, NoMemory>
    ensures { IfOk result (λ filled. view filled
        ≡ placed (map string_bytes steps.now) (view part) (view value)) }
{
    let Some((name, deeper)) = steps.split_first() else {
        return Ok(part);
    };
    match value {
        Json::Object(members) => {
            Ok(Json::Object(place_member(alloc, members, name, deeper, part)?))
        }
        other => Ok(other),
    }
}

#[cycle(place)]
fn place_member(
    alloc: Global,
    mut members: BTreeMap<String, Json>,
    name: &String,
    deeper: &[String],
    part: Json,
) -> Result<BTreeMap<String, Json>, NoMemory>
    ensures { IfOk result (λ filled. object (members_view filled.entries)
        ≡ placed (string_bytes name.now ∷ map string_bytes deeper.now) (view part)
        (object (members_view members.entries))) }
{
    if let Some(there) = members.get_mut(name.as_str()) {
        let filled = place(alloc, mem::replace(there, Json::Null), deeper, part)?;
        drop(mem::replace(there, filled));
        return Ok(members);
    }
    let filled = place(alloc, Json::empty_object(alloc), deeper, part)?;
    drop(members.insert(name.clone()?, filled)?);
    Ok(members)
}
