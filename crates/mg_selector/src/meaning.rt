ghost use Rattle.std.specs.Prelude.{◌≡◌, ◌||◌, Some, None, option_map};
ghost use Rattle.mg_selector.specs.Predicate.{some_item, every_of_some};
ghost use Rattle.mg_selector.specs.Meaning.{holds_in, every_arm, some_arm, is_no_arms, operator_holds};
ghost use Rattle.mg_selector.specs.View.{selector_of, operator_of, arms_view};

use crate::operator::Op;
use crate::predicate;
use crate::selector::Sel;
use crate::sense::Sense;
use mg_collate::compare_of;
use mg_value::{Kind, LentValue, lend_part};

/// Whether the selector holds of `part` in this sense. `None`: the part is missing.
#[cycle(holds)]
pub(crate) fn holds_in<L: LentValue>(sel: &Sel, sense: Sense, part: Option<L>) -> bool
    ensures { result ≡ holds_in (selector_of sel.now) sense (option_map L.value part) }
{
    match sel {
        Sel::Members(arms) | Sel::And(arms) => match sense {
            Sense::Plain => every_arm(arms, sense, part),
            Sense::Negated => some_arm_if_any(arms, sense, part),
        },
        Sel::Or(arms) => match sense {
            Sense::Plain => some_arm_if_any(arms, sense, part),
            Sense::Negated => every_arm(arms, sense, part),
        },
        Sel::Nor(arms) => match sense {
            Sense::Plain => every_arm(arms, Sense::Negated, part),
            Sense::Negated => some_arm_if_any(arms, Sense::Plain, part),
        },
        Sel::Not(inner) => holds_in(inner, sense.flip(), part),
        Sel::At(path, inner) => holds_in(inner, sense, path.get_in(part)),
        Sel::Ask(op) => operator_holds(op, sense, part),
    }
}

#[cycle(holds)]
fn every_arm<L: LentValue>(arms: &[Sel], sense: Sense, part: Option<L>) -> bool
    ensures { result ≡ every_arm (arms_view arms.now) sense (option_map L.value part) }
{
    for arm in arms {
        if !holds_in(arm, sense, lend_part(&part)) {
            return false;
        }
    }
    true
}

// Whether some arm holds, or there is no arm.
#[cycle(holds)]
fn some_arm_if_any<L: LentValue>(arms: &[Sel], sense: Sense, part: Option<L>) -> bool
    ensures { result ≡ (is_no_arms (arms_view arms.now)
        || some_arm (arms_view arms.now) sense (option_map L.value part)) }
{
    for arm in arms {
        if holds_in(arm, sense, lend_part(&part)) {
            return true;
        }
    }
    arms.is_empty()
}

/// Whether the operator holds of `part` in this sense. `None`: the part is missing.
#[cycle(holds)]
pub(crate) fn operator_holds<L: LentValue>(op: &Op, sense: Sense, part: Option<L>) -> bool
    ensures { result ≡ operator_holds (operator_of op.now) sense
        (option_map L.value part) }
{
    match part {
        Some(value) => sense.of(holds_on(op, value)),
        None => holds_on_missing(op, sense),
    }
}

fn holds_on_missing(op: &Op, sense: Sense) -> bool
    ensures { result ≡ operator_holds (operator_of op.now) sense None }
{
    match op {
        Op::Exists(there) => sense.of(!*there),
        _ => false,
    }
}

// Whether the operator holds of the value in the plain sense.
#[cycle(holds)]
fn holds_on<L: LentValue>(op: &Op, value: L) -> bool
    ensures { result ≡ operator_holds (operator_of op.now) Sense.Plain (Some (L.value value)) }
{
    match op {
        Op::Lt(bound) => compare_of(value, bound).is_lt(),
        Op::Lte(bound) => compare_of(value, bound).is_le(),
        Op::Eq(bound) => compare_of(value, bound).is_eq(),
        Op::Ne(bound) => compare_of(value, bound).is_ne(),
        Op::Gte(bound) => compare_of(value, bound).is_ge(),
        Op::Gt(bound) => compare_of(value, bound).is_gt(),
        Op::Exists(there) => *there,
        Op::Type(json_type) => json_type.is_of(value),
        Op::In(arguments) => predicate::meets_some(arguments, value),
        Op::Nin(arguments) => !predicate::meets_some(arguments, value),
        Op::Size(size) => predicate::has_size(*size, value),
        Op::Mod(divisor, remainder) => predicate::has_remainder(*divisor, *remainder, value),
        Op::All(arguments) => predicate::contains_all(arguments, value),
        Op::ElemMatch(inner) => match value.kind() {
            Kind::List(items) => some_element::<L>(inner, items),
            _ => false,
        },
        Op::AllMatch(inner) => match value.kind() {
            Kind::List(items) => each_element::<L>(inner, items),
            _ => false,
        },
    }
}

#[cycle(holds)]
fn some_element<L: LentValue>(inner: &Sel, items: L::List) -> bool
    ensures { result ≡ some_item (λ v. holds_in (selector_of inner.now) Sense.Plain (Some v))
        (L.items items) }
{
    for place in 0..L::len(&items) {
        if holds_in(inner, Sense::Plain, Some(L::item(&items, place))) {
            return true;
        }
    }
    false
}

// Whether the selector holds of each item, and there is at least one item.
#[cycle(holds)]
fn each_element<L: LentValue>(inner: &Sel, items: L::List) -> bool
    ensures { result ≡ every_of_some (λ v. holds_in (selector_of inner.now) Sense.Plain (Some v))
        (L.items items) }
{
    let count = L::len(&items);
    for place in 0..count {
        if !holds_in(inner, Sense::Plain, Some(L::item(&items, place))) {
            return false;
        }
    }
    count > 0
}
