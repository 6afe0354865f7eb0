ghost use Rattle.std.specs.Prelude.{◌||◌, IfOk};
ghost use Rattle.mg_selector.specs.Meaning.{holds_in, every_arm, some_arm, is_no_arms};
ghost use Rattle.mg_selector.specs.Selector.{members, every, some};
ghost use Rattle.mg_selector.specs.View.{selector_of, arms_view};
ghost use Rattle.mg_normal.specs.Atoms.{atoms_in, arms_atoms};
ghost use Rattle.mg_normal.specs.Says.{Says, AllSay, no_atoms};
ghost use Rattle.mg_normal.specs.View.{condition_of, conditions_view};

use crate::condition::Condition;
use mg_selector::{Sel, Sense};
use mg_value::NoMemory;
use std::alloc::Global;
use std::sync::Arc;

/// Makes the condition that says what the selector says in the sense. Negations are pushed inwards to the operators.
///
/// Errors: `NoMemory` if an allocation fails. Cost: the size of the selector.
#[cycle(push_inwards)]
pub(crate) fn push_inwards(alloc: Global, sel: &Sel, sense: Sense) -> Result<Condition, NoMemory>
    ensures { IfOk result (λ condition. Says (holds_in (selector_of sel.now) sense)
        (atoms_in (selector_of sel.now) sense) (condition_of condition)) }
{
    match sel {
        Sel::Members(arms) => object(alloc, arms, sense),
        Sel::And(arms) => conjunction(alloc, arms, sense),
        Sel::Or(arms) => disjunction(alloc, arms, sense),
        Sel::Nor(arms) => disjunction(alloc, arms, sense.flip()),
        Sel::Not(inner) => push_inwards(alloc, inner, sense.flip()),
        Sel::At(path, inner) => {
            let inner = push_inwards(alloc, inner, sense)?;
            let path = Arc::new(alloc, path.copy(alloc)?)?;
            Ok(Condition::At(path, Box::new(alloc, inner)?))
        }
        Sel::Ask(op) => Ok(Condition::Ask(op.copy(alloc)?, sense)),
    }
}

// Makes the condition of an object. An object of one member counts as that member, in both senses.
#[cycle(push_inwards)]
fn object(alloc: Global, arms: &[Sel], sense: Sense) -> Result<Condition, NoMemory>
    ensures { IfOk result (λ condition. Says (holds_in (members (arms_view arms.now)) sense)
        (atoms_in (members (arms_view arms.now)) sense) (condition_of condition)) }
{
    match arms {
        [only] => push_inwards(alloc, only, sense),
        _ => conjunction(alloc, arms, sense),
    }
}

#[cycle(push_inwards)]
fn conjunction(alloc: Global, arms: &[Sel], sense: Sense) -> Result<Condition, NoMemory>
    ensures { IfOk result (λ condition. Says (holds_in (every (arms_view arms.now)) sense)
        (atoms_in (every (arms_view arms.now)) sense) (condition_of condition)) }
{
    match sense {
        Sense::Plain => all_of(alloc, arms, sense),
        Sense::Negated => any_of(alloc, arms, sense),
    }
}

#[cycle(push_inwards)]
fn disjunction(alloc: Global, arms: &[Sel], sense: Sense) -> Result<Condition, NoMemory>
    ensures { IfOk result (λ condition. Says (holds_in (some (arms_view arms.now)) sense)
        (atoms_in (some (arms_view arms.now)) sense) (condition_of condition)) }
{
    match sense {
        Sense::Plain => any_of(alloc, arms, sense),
        Sense::Negated => all_of(alloc, arms, sense),
    }
}

// Makes the condition that holds if each arm holds in the sense.
#[cycle(push_inwards)]
fn all_of(alloc: Global, arms: &[Sel], sense: Sense) -> Result<Condition, NoMemory>
    ensures { IfOk result (λ condition. Says (every_arm (arms_view arms.now) sense)
        (arms_atoms (arms_view arms.now) sense) (condition_of condition)) }
{
    Ok(Condition::All(push_arms(alloc, arms, sense)?))
}

// Makes the condition that holds if some arm holds in the sense, or if there are no arms.
#[cycle(push_inwards)]
fn any_of(alloc: Global, arms: &[Sel], sense: Sense) -> Result<Condition, NoMemory>
    ensures { IfOk result (λ condition. Says
        (λ x. is_no_arms (arms_view arms.now) || some_arm (arms_view arms.now) sense x)
        no_atoms (condition_of condition)) }
{
    Ok(Condition::Any(push_arms(alloc, arms, sense)?))
}

// Makes one condition for each arm, in the sense.
#[cycle(push_inwards)]
fn push_arms(alloc: Global, arms: &[Sel], sense: Sense) -> Result<Vec<Condition>, NoMemory>
    ensures { IfOk result
        (λ conditions. AllSay (arms_view arms.now) sense (conditions_view conditions.items)) }
{
    let mut conditions = Vec::with_capacity(alloc, arms.len())?;
    for arm in arms {
        conditions.push(push_inwards(alloc, arm, sense)?)?;
    }
    Ok(conditions)
}
