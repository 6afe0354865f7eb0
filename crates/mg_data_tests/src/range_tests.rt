//! Calls that the program does not make: the direction of an index definition, and whether a key range has a key. They need no
//! threads; they are here beside the other tests that use mg_index and mg_range.
use crate::given::{check, json};
use mg_collate::Direction;
use mg_index::IndexDef;
use mg_normal::Normal;
use mg_path::Path;
use mg_range::KeyRange;
use mg_selector::Sel;
use mg_value::Json;
use std::alloc::Global;
use std::process::Abort;

// Makes the key range of an index on `a` for the selector.
fn range_of<R: Abort>(rt: &R, alloc: Global, selector: &str) -> KeyRange {
    let text = json(rt, alloc, selector);
    let Ok(selector) = Sel::read(alloc, &text) else {
        rt.panic("no selector")
    };
    let normal = Normal::of(alloc, &selector).expect(rt, "memory");
    let path = Path::parse(alloc, "a").expect(rt, "a path");
    let mut columns = Vec::new(alloc);
    columns.push(path).expect(rt, "memory");
    KeyRange::of(alloc, &columns, &normal).expect(rt, "memory")
}

// Whether the range has the key, which is given as an array.
fn has_key<R: Abort>(rt: &R, alloc: Global, range: &KeyRange, key: &str) -> bool {
    match json(rt, alloc, key) {
        Json::List(key) => range.contains(&key),
        _ => false,
    }
}

// A selector, a key, and whether the range of an index on `a` has the key.
const KEYS: &[(&str, &str, bool)] = &[
    (r#"{"a":{"$gt":3,"$lte":9}}"#, "[3]", false),
    (r#"{"a":{"$gt":3,"$lte":9}}"#, "[4]", true),
    (r#"{"a":{"$gt":3,"$lte":9}}"#, "[9]", true),
    (r#"{"a":{"$gt":3,"$lte":9}}"#, "[10]", false),
    (r#"{"$not":{"a":{"$ne":4}}}"#, "[4]", true),
    (r#"{"$not":{"a":{"$ne":4}}}"#, "[5]", false),
    (r#"{"a":{"$in":[1]}}"#, "[null]", true),
    (r#"{"$and":[{"a":1},{"a":2}]}"#, "[1]", false),
];

#[test]
fn ranges_have_their_keys(rt: HostRuntime) {
    let alloc = rt.alloc();
    for (selector, key, expected) in KEYS {
        let range = range_of(&rt, alloc, selector);
        check(&rt, has_key(&rt, alloc, &range, key) == *expected, selector);
    }
}

#[test]
fn a_range_of_two_fixed_values_is_empty(rt: HostRuntime) {
    let alloc = rt.alloc();
    let two = range_of(&rt, alloc, r#"{"$and":[{"a":1},{"a":2}]}"#);
    let one = range_of(&rt, alloc, r#"{"a":1}"#);
    assert!(rt; two.is_empty());
    assert!(rt; !one.is_empty());
}

// Returns the direction of the index that the body of an `_index` defines.
fn direction_of<R: Abort>(rt: &R, alloc: Global, body: &str) -> Direction {
    let body = json(rt, alloc, body);
    let definition = IndexDef::read(alloc, &body).expect(rt, "a definition");
    definition.direction()
}

#[test]
fn a_definition_has_the_direction_of_its_fields(rt: HostRuntime) {
    let alloc = rt.alloc();
    let down = direction_of(&rt, alloc, r#"{"index":{"fields":[{"a":"desc"}]}}"#);
    let up = direction_of(&rt, alloc, r#"{"index":{"fields":["a"]}}"#);
    assert!(rt; down == Direction::Desc);
    assert!(rt; up == Direction::Asc);
}
