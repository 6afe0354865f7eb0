ghost use Rattle.std.specs.Arc.{arc_value};
ghost use Rattle.std.specs.Prelude.{◌≡◌, ◌++◌, IfOk, OnOk, option_map};
ghost use Rattle.mg_normal.specs.Condition.{within};
ghost use Rattle.mg_normal.specs.Says.{condition_atoms, conditions_atoms, rest_of, rests_of};
ghost use Rattle.mg_normal.specs.View.{above_steps, condition_of, conditions_view, atoms_view};

use crate::atom::{Atom, is_negated};
use crate::condition::Condition;
use crate::prefix::{Prefix, lengthen, share};
use mg_path::Path;
use mg_value::NoMemory;
use std::alloc::Global;
use std::sync::Arc;

// Makes an atom of each operator in a condition, and adds it to `atoms`; leaves out the operators inside an `Any`, even if that has only
// one condition. Returns what else the condition requires; `None` if it requires nothing else. The condition is on the part of the
// document below `above`. Errors: `NoMemory` if an allocation fails; then `atoms` may have more items than before.
#[cycle(take_atoms)]
pub(crate) fn take_atoms(
    alloc: Global,
    condition: Condition,
    above: &Option<Arc<Prefix>>,
    atoms: &mut Vec<Atom>,
) -> Result<Option<Condition>, NoMemory>
    ensures atoms { OnOk result (atoms_view atoms.new.items
        ≡ atoms_view atoms.old.items ++ condition_atoms (condition_of condition) (above_steps above.now)) }
    ensures rest { IfOk result (λ rest. option_map condition_of rest ≡ rest_of (condition_of condition)) }
{
    match condition {
        Condition::All(conditions) => {
            let rest = take_all(alloc, conditions, above, atoms)?;
            if rest.is_empty() {
                return Ok(None);
            }
            Ok(Some(Condition::All(rest)))
        }
        Condition::Any(conditions) => Ok(Some(Condition::Any(conditions))),
        Condition::At(path, inner) => take_below(alloc, path, Box::into_inner(inner), above, atoms),
        Condition::Ask(op, sense) => {
            atoms.push(Atom {
                above: share(above)?,
                op,
                negated: is_negated(sense),
            })?;
            Ok(None)
        }
    }
}

// Does what `take_atoms` does, for several conditions. A condition that requires nothing else is left out of the result.
#[cycle(take_atoms)]
fn take_all(
    alloc: Global,
    conditions: Vec<Condition>,
    above: &Option<Arc<Prefix>>,
    atoms: &mut Vec<Atom>,
) -> Result<Vec<Condition>, NoMemory>
    ensures atoms { OnOk result (atoms_view atoms.new.items ≡ atoms_view atoms.old.items
        ++ conditions_atoms (conditions_view conditions.items) (above_steps above.now)) }
    ensures rest { IfOk result
        (λ rest. conditions_view rest.items ≡ rests_of (conditions_view conditions.items)) }
{
    let mut rest = Vec::new(alloc);
    for condition in conditions {
        if let Some(left) = take_atoms(alloc, condition, above, atoms)? {
            rest.push(left)?;
        }
    }
    Ok(rest)
}

// Does what `take_atoms` does for `Condition::At(path, inner)`; the path begins at the part below `above`.
#[cycle(take_atoms)]
fn take_below(
    alloc: Global,
    path: Arc<Path>,
    inner: Condition,
    above: &Option<Arc<Prefix>>,
    atoms: &mut Vec<Atom>,
) -> Result<Option<Condition>, NoMemory>
    ensures atoms { OnOk result (atoms_view atoms.new.items ≡ atoms_view atoms.old.items
        ++ condition_atoms (condition_of inner) (above_steps above.now ++ arc_value path)) }
    ensures rest { IfOk result (λ rest. option_map condition_of rest
        ≡ option_map (within (arc_value path)) (rest_of (condition_of inner))) }
{
    let longer = lengthen(alloc, above, &path)?;
    let Some(rest) = take_atoms(alloc, inner, &longer, atoms)? else {
        return Ok(None);
    };
    Ok(Some(Condition::At(path, Box::new(alloc, rest)?)))
}
