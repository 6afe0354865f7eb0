ghost use Rattle.std.specs.Prelude.{◌≡◌};
ghost use Rattle.std.specs.Cmp.Lexicographic.{slice_cmp};
ghost use Rattle.std.specs.Ordering.{nat_cmp, ordering_then};
ghost use Rattle.mg_value.specs.Value.{text as string, item, no_items};
ghost use Rattle.mg_value.specs.View.{view, items_view, members_view};
ghost use Rattle.mg_collate.specs.Order.{value_order, items_order};
ghost use Rattle.mg_collate.specs.Compared.{members_order, rank};

use mg_value::{Json, Kind, LentValue};
use std::cmp::Ordering;
use std::collections::BTreeMap;

/// Compares two values. The order of types is that of CouchDB's view collation: null, false, true,
/// numbers, strings, arrays, objects.
///
/// Numbers are ordered by value, and strings by their UTF-8 bytes, which is the order of their code
/// points, and not that of ICU as in CouchDB. Arrays are ordered item by item, and objects member by
/// member in the order of their names, each by its name and then by its value. A proper prefix is below.
/// Only equal values tie.
///
/// Cost: one pass over both values, up to the first difference. Takes no memory.
#[inline]
pub fn compare(a: &Json, b: &Json) -> Ordering
    ensures { result ≡ value_order (view a.now) (view b.now) }
{
    compare_of(a, b)
}

/// Compares a lent value with a `Json`, as `compare` does. Takes no memory. Cost: that of `compare`.
#[cycle(compare)]
pub fn compare_of<L: LentValue>(value: L, other: &Json) -> Ordering
    ensures { result ≡ value_order (L.value value) (view other.now) }
{
    match (value.kind(), other) {
        (Kind::Whole(x), Json::Whole(y)) => x.cmp(y),
        (Kind::Text(x), Json::Text(y)) => L::as_str(&x).cmp(y.as_str()),
        (Kind::List(xs), Json::List(ys)) => compare_items::<L>(xs, ys),
        (Kind::Object(xs), Json::Object(ys)) => compare_members::<L>(xs, ys),
        _ => rank_of(&value).cmp(&rank_of(&other)),
    }
}

/// Compares two keys as arrays: by the first value that differs; a proper prefix is below.
///
/// Cost: one pass over both keys, up to the first difference. Takes no memory.
#[inline]
pub fn compare_keys(a: &[Json], b: &[Json]) -> Ordering
    ensures { result ≡ items_order (items_view a.now) (items_view b.now) }
{
    compare_items::<&Json>(a, b)
}

// Compares two arrays by their items.
#[cycle(compare)]
fn compare_items<L: LentValue>(items: L::List, others: &[Json]) -> Ordering
    ensures { result ≡ items_order (L.items items) (items_view others.now) }
{
    let count = L::len(&items);
    for (place, other) in others.iter().enumerate() {
        if place >= count {
            return Ordering::Less;
        }
        match compare_of(L::item(&items, place), other) {
            Ordering::Equal => {}
            order => return order,
        }
    }
    count.cmp(&others.len())
}

// Compares two objects by their members.
#[cycle(compare)]
fn compare_members<L: LentValue>(members: L::Object, others: &BTreeMap<String, Json>) -> Ordering
    ensures { result ≡ members_order (L.members members) (members_view others.now.entries) }
{
    let mut walk = L::walk(&members);
    for (other_name, other) in others.iter() {
        match L::next(&mut walk) {
            Some((name, value)) => match compare_member(
                L::as_str(&name),
                value,
                other_name.as_str(),
                other,
            ) {
                Ordering::Equal => {}
                order => return order,
            },
            None => return Ordering::Less,
        }
    }
    match L::next(&mut walk) {
        Some(_) => Ordering::Greater,
        None => Ordering::Equal,
    }
}

// Compares two members: by name, and then by value.
#[cycle(compare)]
fn compare_member<L: LentValue>(name: &str, value: L, other_name: &str, other: &Json) -> Ordering
    ensures { result ≡ ordering_then (slice_cmp nat_cmp name.now other_name.now)
        (value_order (L.value value) (view other.now)) }
{
    match name.cmp(other_name) {
        Ordering::Equal => compare_of(value, other),
        order => order,
    }
}

// Ranks the value by its type, from 1 to 7: null, false, true, numbers, strings, arrays, objects.
fn rank_of<L: LentValue>(value: &L) -> u8
    ensures { result ≡ rank (L.value value.now) }
{
    match value.kind() {
        Kind::Null => 1,
        Kind::Flag(false) => 2,
        Kind::Flag(true) => 3,
        Kind::Whole(_) => 4,
        Kind::Text(_) => 5,
        Kind::List(_) => 6,
        Kind::Object(_) => 7,
    }
}

/// Compares `text`, as a JSON string, with `value`, as `compare` does. Takes no memory. Cost: the length of the
/// text, up to the first difference.
pub fn compare_text(text: &str, value: &Json) -> Ordering
    ensures { result ≡ value_order (string text.now) (view value.now) }
{
    match value {
        Json::Null => Ordering::Greater,
        Json::Flag(false) => Ordering::Greater,
        Json::Flag(true) => Ordering::Greater,
        Json::Whole(_) => Ordering::Greater,
        Json::Text(other) => text.cmp(other.as_str()),
        Json::List(_) => Ordering::Less,
        Json::Object(_) => Ordering::Less,
    }
}
