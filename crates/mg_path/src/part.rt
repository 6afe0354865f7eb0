ghost use Rattle.std.specs.Prelude.{◌≡◌, ◌≤◌, ◌^◌, ℕ, Some, map, string_bytes, option_map, MatchOption, slice_get};
ghost use Rattle.std.specs.Option.{option_and_then};
ghost use Rattle.mg_value.specs.Value.{item_list};
ghost use Rattle.mg_value.specs.View.{view};
ghost use Rattle.mg_path.specs.Part.{part_of, part_of_step, item_place};

use mg_value::{Kind, LentValue};

/// Finds the part of a lent value that the steps lead to. In an object a step is the name of a member; in an array
/// it is the place of an item, from 0 and without leading zeros. `None` if the part is missing; without steps the
/// part is the value itself. Takes no memory.
///
/// Cost: for each step a look-up in an object or an array.
#[inline]
pub fn part_of<L: LentValue>(steps: &[String], value: L) -> Option<L>
    ensures { option_map L.value result ≡ part_of (map string_bytes steps.now) (L.value value) }
{
    let mut part = value;
    for step in steps {
        part = step_in(step.as_str(), part)?;
    }
    Some(part)
}

// Finds the part of the value that one step leads to; `None` if it is missing.
fn step_in<L: LentValue>(step: &str, value: L) -> Option<L>
    ensures { option_map L.value result ≡ part_of_step step.now (L.value value) }
{
    match value.kind() {
        Kind::Object(members) => L::member(&members, step),
        Kind::List(items) => item_at::<L>(step, items),
        _ => None,
    }
}

fn item_at<L: LentValue>(step: &str, items: L::List) -> Option<L>
    ensures { option_map L.value result
        ≡ option_and_then (λ n. slice_get (item_list (L.items items)) n) (item_place step.now) }
{
    let count = L::len(&items);
    let place = place_of(step)?;
    if place < count {
        Some(L::item(&items, place))
    } else {
        None
    }
}

// Reads the place that the step names. `None` if the step is not a number without leading zeros, or if no `usize` holds
// the number, since no array is that long.
fn place_of(step: &str) -> Option<usize>
    ensures { MatchOption result
        ((n : ℕ) → item_place step.now ≡ Some n → 2 ^ 64 ≤ n)
        (λ n. item_place step.now ≡ Some n) }
{
    match step.as_bytes().first()? {
        b'0' if step.len() == 1 => Some(0),
        b'1'..=b'9' => step.parse().ok(),
        _ => None,
    }
}
