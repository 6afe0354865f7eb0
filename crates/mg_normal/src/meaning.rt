ghost use Rattle.std.specs.Prelude.{◌≡◌, ◌||◌, Some, option_map};
ghost use Rattle.mg_normal.specs.Condition.{condition_holds, every_condition, some_condition, is_no_conditions};
ghost use Rattle.mg_normal.specs.Normal.{rest_holds};
ghost use Rattle.mg_normal.specs.View.{condition_of, conditions_view};

use crate::condition::Condition;
use mg_value::{LentValue, lend_part};

// Whether the condition holds of the document; true without a condition.
pub(crate) fn rest_holds<L: LentValue>(rest: Option<&Condition>, document: L) -> bool
    ensures { result ≡ rest_holds (option_map (λ f. condition_of f.now) rest.entry)
        (Some (L.value document)) }
{
    match rest {
        Some(condition) => holds(condition, Some(document)),
        None => true,
    }
}

// Whether the condition holds of the part, which may be missing.
#[cycle(holds)]
fn holds<L: LentValue>(condition: &Condition, part: Option<L>) -> bool
    ensures { result ≡ condition_holds (condition_of condition.now) (option_map L.value part) }
{
    match condition {
        Condition::All(conditions) => every_condition(conditions, part),
        Condition::Any(conditions) => some_condition(conditions, part),
        Condition::At(path, inner) => holds(inner, path.get_in(part)),
        Condition::Ask(op, sense) => op.holds_of(*sense, part),
    }
}

// Whether each condition holds of the part; true also for an empty list.
#[cycle(holds)]
fn every_condition<L: LentValue>(conditions: &[Condition], part: Option<L>) -> bool
    ensures { result ≡ every_condition (conditions_view conditions.now) (option_map L.value part) }
{
    for condition in conditions {
        if !holds(condition, lend_part(&part)) {
            return false;
        }
    }
    true
}

// Whether some condition holds of the part; true also for an empty list.
#[cycle(holds)]
fn some_condition<L: LentValue>(conditions: &[Condition], part: Option<L>) -> bool
    ensures { result ≡ (is_no_conditions (conditions_view conditions.now)
        || some_condition (conditions_view conditions.now) (option_map L.value part)) }
{
    for condition in conditions {
        if holds(condition, lend_part(&part)) {
            return true;
        }
    }
    conditions.is_empty()
}
