ghost use Rattle.std.specs.Prelude.{◌≡◌, IfOk};
ghost use Rattle.mg_selector.specs.View.{selector_of, operator_of, arms_view};

use crate::operator::Op;
use crate::selector::Sel;
use mg_value::{NoMemory, copy_items};
use std::alloc::Global;

#[cycle(copy_selector)]
pub(crate) fn copy_selector(alloc: Global, sel: &Sel) -> Result<Sel, NoMemory>
    ensures { IfOk result (λ copy. selector_of copy ≡ selector_of sel.now) }
{
    match sel {
        Sel::Members(arms) => Ok(Sel::Members(copy_arms(alloc, arms)?)),
        Sel::And(arms) => Ok(Sel::And(copy_arms(alloc, arms)?)),
        Sel::Or(arms) => Ok(Sel::Or(copy_arms(alloc, arms)?)),
        Sel::Nor(arms) => Ok(Sel::Nor(copy_arms(alloc, arms)?)),
        Sel::Not(inner) => Ok(Sel::Not(Box::new(alloc, copy_selector(alloc, inner)?)?)),
        Sel::At(path, inner) => Ok(Sel::At(
            path.copy(alloc)?,
            Box::new(alloc, copy_selector(alloc, inner)?)?,
        )),
        Sel::Ask(op) => Ok(Sel::Ask(copy_operator(alloc, op)?)),
    }
}

#[cycle(copy_selector)]
fn copy_arms(alloc: Global, arms: &[Sel]) -> Result<Vec<Sel>, NoMemory>
    ensures { IfOk result (λ copies. arms_view copies.items ≡ arms_view arms.now) }
{
    let mut copies = Vec::with_capacity(alloc, arms.len())?;
    for arm in arms {
        copies.push(copy_selector(alloc, arm)?)?;
    }
    Ok(copies)
}

#[cycle(copy_selector)]
pub(crate) fn copy_operator(alloc: Global, op: &Op) -> Result<Op, NoMemory>
    ensures { IfOk result (λ copy. operator_of copy ≡ operator_of op.now) }
{
    match op {
        Op::Lt(bound) => Ok(Op::Lt(bound.copy(alloc)?)),
        Op::Lte(bound) => Ok(Op::Lte(bound.copy(alloc)?)),
        Op::Eq(bound) => Ok(Op::Eq(bound.copy(alloc)?)),
        Op::Ne(bound) => Ok(Op::Ne(bound.copy(alloc)?)),
        Op::Gte(bound) => Ok(Op::Gte(bound.copy(alloc)?)),
        Op::Gt(bound) => Ok(Op::Gt(bound.copy(alloc)?)),
        Op::Exists(there) => Ok(Op::Exists(*there)),
        Op::Type(json_type) => Ok(Op::Type(*json_type)),
        Op::In(arguments) => Ok(Op::In(copy_items(alloc, arguments)?)),
        Op::Nin(arguments) => Ok(Op::Nin(copy_items(alloc, arguments)?)),
        Op::Size(size) => Ok(Op::Size(*size)),
        Op::Mod(divisor, remainder) => Ok(Op::Mod(*divisor, *remainder)),
        Op::All(arguments) => Ok(Op::All(copy_items(alloc, arguments)?)),
        Op::ElemMatch(inner) => Ok(Op::ElemMatch(Box::new(alloc, copy_selector(alloc, inner)?)?)),
        Op::AllMatch(inner) => Ok(Op::AllMatch(Box::new(alloc, copy_selector(alloc, inner)?)?)),
    }
}
