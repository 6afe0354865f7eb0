// What `$in`, `$nin`, `$size`, `$mod` and `$all` ask of a value.
ghost use Rattle.std.specs.Prelude.{◌≡◌};
ghost use Rattle.std.specs.Int.NonZero.{non_zero_i64_get};
ghost use Rattle.mg_value.specs.View.{view, items_view};
ghost use Rattle.mg_selector.specs.Predicate.{are_equal, is_among, every_of_some, some_item, meets_some, has_size, has_remainder, contains_all, equals_only};

use mg_collate::compare_of;
use mg_value::{Json, Kind, LentValue};
use std::num::NonZeroI64;

/// For an array: whether some item equals some argument. For any other value: whether the value equals some
/// argument.
pub(crate) fn meets_some<L: LentValue>(arguments: &[Json], value: L) -> bool
    ensures { result ≡ meets_some (items_view arguments.now) (L.value value) }
{
    match value.kind() {
        Kind::List(items) => some_is_among::<L>(arguments, items),
        _ => is_among(arguments, value),
    }
}

/// Whether the value is an array of that length.
pub(crate) fn has_size<L: LentValue>(size: u64, value: L) -> bool
    ensures { result ≡ has_size size (L.value value) }
{
    match value.kind() {
        Kind::List(items) => L::len(&items) as u64 == size,
        _ => false,
    }
}

/// Whether the value is a number that has this remainder after division by the divisor. The remainder has
/// the number's own sign.
pub(crate) fn has_remainder<L: LentValue>(divisor: NonZeroI64, remainder: i64, value: L) -> bool
    ensures { result ≡ has_remainder (non_zero_i64_get divisor) remainder (L.value value) }
{
    match value.kind() {
        Kind::Whole(number) => number.wrapping_rem(divisor.get()) == remainder,
        _ => false,
    }
}

/// Whether the value is an array that has every argument as an item, or that equals the only argument; false
/// without arguments.
pub(crate) fn contains_all<L: LentValue>(arguments: &[Json], value: L) -> bool
    ensures { result ≡ contains_all (items_view arguments.now) (L.value value) }
{
    match value.kind() {
        Kind::List(items) => each_is_among::<L>(items, arguments) || equals_only(arguments, value),
        _ => false,
    }
}

fn are_equal<L: LentValue>(value: L, other: &Json) -> bool
    ensures { result ≡ are_equal (L.value value) (view other.now) }
{
    compare_of(value, other).is_eq()
}

fn is_among<L: LentValue>(items: &[Json], value: L) -> bool
    ensures { result ≡ is_among (items_view items.now) (L.value value) }
{
    for item in items {
        if are_equal(value.lend(), item) {
            return true;
        }
    }
    false
}

fn some_is_among<L: LentValue>(items: &[Json], values: L::List) -> bool
    ensures { result ≡ some_item (is_among (items_view items.now)) (L.items values) }
{
    for place in 0..L::len(&values) {
        if is_among(items, L::item(&values, place)) {
            return true;
        }
    }
    false
}

// Whether each value equals some item, and there is at least one value.
fn each_is_among<L: LentValue>(items: L::List, values: &[Json]) -> bool
    ensures { result ≡ every_of_some (is_among (L.items items)) (items_view values.now) }
{
    for value in values {
        if !has_item::<L>(&items, value) {
            return false;
        }
    }
    !values.is_empty()
}

fn has_item<L: LentValue>(items: &L::List, value: &Json) -> bool
    ensures { result ≡ is_among (L.items items.now) (view value.now) }
{
    for place in 0..L::len(items) {
        if are_equal(L::item(items, place), value) {
            return true;
        }
    }
    false
}

fn equals_only<L: LentValue>(arguments: &[Json], value: L) -> bool
    ensures { result ≡ equals_only (items_view arguments.now) (L.value value) }
{
    if arguments.len() == 1 {
        are_equal(value, &arguments[0])
    } else {
        false
    }
}
