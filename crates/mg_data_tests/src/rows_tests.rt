//! Rows of an index as bytes. The bytes and their order were worked out by hand from the documentation of `RowBytes` and `RowBound`.
use crate::given::{check, json};
use mg_pages::{Element, Keyed};
use mg_rows::{Edge, KeyBytes, RowBound, RowBytes, value_hint};
use mg_value::Json;
use std::alloc::Global;
use std::cmp::Ordering;
use std::process::Abort;

// The JSON text of a key, the id, and the bytes of the row.
#[derive(Clone, Copy, Drop)]
struct RowCase(&'static str, &'static str, &'static [u8]);

// Rows in order: null, false, true, numbers, texts, arrays, objects. Each key, text and array is above its own prefixes.
const ROWS: &[RowCase] = &[
    RowCase("[]", "z", &[0, 122]),
    RowCase("[null]", "b", &[1, 0, 98]),
    RowCase("[null,false,true]", "b", &[1, 2, 3, 0, 98]),
    RowCase("[false]", "a", &[2, 0, 97]),
    RowCase("[true]", "a", &[3, 0, 97]),
    RowCase(
        "[-1]",
        "a",
        &[4, 127, 255, 255, 255, 255, 255, 255, 255, 0, 97],
    ),
    RowCase("[0]", "a", &[4, 128, 0, 0, 0, 0, 0, 0, 0, 0, 97]),
    RowCase("[1]", "a", &[4, 128, 0, 0, 0, 0, 0, 0, 1, 0, 97]),
    RowCase("[1]", "b", &[4, 128, 0, 0, 0, 0, 0, 0, 1, 0, 98]),
    RowCase(r#"["a"]"#, "", &[5, 98, 0, 0]),
    RowCase(r#"["a\u0000"]"#, "", &[5, 98, 1, 0, 0]),
    RowCase(r#"["ab"]"#, "", &[5, 98, 99, 0, 0]),
    // 30 bytes, one more than fit in the row itself
    RowCase(
        r#"["xxxxxxxxxxxxxxxxxxxxxxxxxx"]"#,
        "a",
        &[
            5, 121, 121, 121, 121, 121, 121, 121, 121, 121, 121, 121, 121, 121, 121, 121, 121, 121,
            121, 121, 121, 121, 121, 121, 121, 121, 121, 0, 0, 97,
        ],
    ),
    RowCase(r#"["é"]"#, "é", &[5, 196, 170, 0, 0, 195, 169]),
    RowCase("[[]]", "a", &[6, 0, 0, 97]),
    RowCase("[[true,[]]]", "a", &[6, 3, 6, 0, 0, 0, 97]),
    RowCase("[{}]", "a", &[7, 0, 0, 97]),
    RowCase(r#"[{"a":null}]"#, "a", &[7, 5, 98, 0, 1, 0, 0, 97]),
];

// The values of a bound, its side, and how many of the rows are below it.
const BOUNDS: &[(&str, Edge, usize)] = &[
    ("[]", Edge::Before, 0),
    ("[]", Edge::After, 18),
    ("[null,false]", Edge::Before, 2),
    ("[null,false]", Edge::After, 3),
    ("[1]", Edge::Before, 7),
    ("[1]", Edge::After, 9),
    (r#"["a"]"#, Edge::Before, 9),
    (r#"["a"]"#, Edge::After, 10),
    (r#"["é"]"#, Edge::After, 14),
    ("[[]]", Edge::After, 15),
    ("[{}]", Edge::Before, 16),
];

fn values_of<R: Abort>(rt: &R, alloc: Global, text: &str) -> Vec<Json> {
    match json(rt, alloc, text) {
        Json::List(values) => values,
        _ => rt.panic("no array"),
    }
}

fn row_of<R: Abort>(rt: &R, alloc: Global, written: &RowCase) -> RowBytes {
    let key = values_of(rt, alloc, written.0);
    RowBytes::of(alloc, &key, written.1).expect(rt, "memory")
}

// Puts these columns into a key, in place of those of an earlier row.
fn put_columns<R: Abort>(rt: &R, alloc: Global, key: &mut KeyBytes, columns: &str) {
    key.clear();
    for column in &values_of(rt, alloc, columns) {
        key.push(column).expect(rt, "memory");
    }
}

// Whether the row, read back as a whole, has the expected key and id.
fn reads_back<R: Abort>(rt: &R, alloc: Global, row: &RowBytes, written: &RowCase) -> bool {
    let read = row.row(alloc).expect(rt, "memory");
    read.key == values_of(rt, alloc, written.0) && read.id.as_str() == written.1
}

// Whether the row has the expected bytes, id and key.
fn is_written<R: Abort>(rt: &R, alloc: Global, row: &RowBytes, written: &RowCase) -> bool {
    let key = values_of(rt, alloc, written.0);
    let found = row.key(alloc).expect(rt, "memory");
    found == key && row.id() == written.1 && row.as_bytes() == written.2
}

fn all_rows<R: Abort>(rt: &R, alloc: Global) -> Vec<RowBytes> {
    let mut rows = Vec::new(alloc);
    for written in ROWS {
        rows.push(row_of(rt, alloc, written)).expect(rt, "memory");
    }
    rows
}

// Whether the row compares with each of `rows` as the row at this place does.
fn is_in_place(rows: &[RowBytes], row: &RowBytes, place: usize) -> bool {
    for (other_place, other) in rows.iter().enumerate() {
        let wanted = place.cmp(&other_place);
        let equal = wanted == Ordering::Equal;
        if row.compare(other) != wanted || row.cmp(other) != wanted || (row == other) != equal {
            return false;
        }
    }
    true
}

// Whether exactly the first `below` rows are below the bound.
fn parts_rows(rows: &[RowBytes], bound: &RowBound, below: usize) -> bool {
    for (place, row) in rows.iter().enumerate() {
        let wanted = below.cmp(&place).then(Ordering::Less);
        if bound.against(row) != wanted {
            return false;
        }
    }
    true
}

#[test]
fn rows_have_the_bytes_that_their_key_and_id_ask_for(rt: HostRuntime) {
    let alloc = rt.alloc();
    let mut key = KeyBytes::new(alloc);
    for written in ROWS {
        let row = row_of(&rt, alloc, written);
        let again = row.again().expect(&rt, "memory");
        check(&rt, is_written(&rt, alloc, &again, written), written.0);
        check(&rt, reads_back(&rt, alloc, &again, written), written.0);
        put_columns(&rt, alloc, &mut key, written.0);
        let row = key.row(alloc, written.1).expect(&rt, "memory");
        check(&rt, is_written(&rt, alloc, &row, written), written.0);
    }
}

#[test]
fn rows_are_in_the_order_of_json_types(rt: HostRuntime) {
    let rows = all_rows(&rt, rt.alloc());
    for (place, row) in rows.iter().enumerate() {
        check(&rt, is_in_place(&rows, row, place), "a row");
    }
}

#[test]
fn a_bound_is_between_rows_and_never_on_one(rt: HostRuntime) {
    let alloc = rt.alloc();
    let rows = all_rows(&rt, alloc);
    for (values, edge, below) in BOUNDS {
        let key = values_of(&rt, alloc, values);
        let bound = RowBound::at(alloc, &key, *edge).expect(&rt, "memory");
        check(&rt, parts_rows(&rows, &bound, *below), values);
        let mut columns = KeyBytes::new(alloc);
        put_columns(&rt, alloc, &mut columns, values);
        let bound = columns.into_bound(*edge).expect(&rt, "memory");
        check(&rt, parts_rows(&rows, &bound, *below), values);
    }
}

// An id, how many of the rows are below its row in `_all_docs`, and how the next row compares with it.
const IDS: &[(&str, usize, Ordering)] = &[
    ("", 9, Ordering::Greater),
    ("a", 10, Ordering::Greater),
    ("aa", 11, Ordering::Greater),
    ("b", 12, Ordering::Greater),
    ("xx", 12, Ordering::Greater),
    ("é", 13, Ordering::Equal),
    ("êêê", 14, Ordering::Greater),
];

// Whether the first `below` rows are below the row of the id in `_all_docs`, the next row compares with it as `next` says, and the others
// are above it.
fn parts_by_id(rows: &[RowBytes], id: &str, below: usize, next: Ordering) -> bool {
    for (place, row) in rows.iter().enumerate() {
        let wanted = match place.cmp(&below) {
            Ordering::Less => Ordering::Less,
            Ordering::Equal => next,
            Ordering::Greater => Ordering::Greater,
        };
        if row.compare_to_id(id) != wanted {
            return false;
        }
    }
    true
}

#[test]
fn the_row_of_an_id_has_the_id_alone_as_its_key(rt: HostRuntime) {
    let rows = all_rows(&rt, rt.alloc());
    for (id, below, next) in IDS {
        check(&rt, parts_by_id(&rows, id, *below, *next), id);
    }
}

// Keys in order, for the tests of search hints.
const KEYS: &[&str] = &[
    "[]",
    "[null,7]",
    "[false]",
    "[true]",
    "[-9223372036854775808]",
    "[-576460752303423489]",
    "[-576460752303423488]",
    "[-1]",
    "[0,null]",
    "[1]",
    "[255]",
    "[576460752303423487]",
    "[576460752303423488]",
    "[9223372036854775807]",
    r#"[""]"#,
    r#"["",1]"#,
    r#"["a"]"#,
    r#"["a\u0000"]"#,
    r#"["a\u0000\u0000\u0000\u0000\u0000\u0000\u0000b"]"#,
    r#"["abcdefg"]"#,
    r#"["abcdefgh"]"#,
    r#"["abcdefgh","x"]"#,
    r#"["abcdefghi"]"#,
    r#"["abcdefgp"]"#,
    r#"["êêêêê"]"#,
    "[[]]",
    "[[1],2]",
    "[{}]",
];

#[test]
fn hints_do_not_fall_along_the_rows(rt: HostRuntime) {
    let alloc = rt.alloc();
    let mut last = 0;
    let mut rises = 0u32;
    for text in KEYS {
        let key = values_of(&rt, alloc, text);
        let row = RowBytes::of(alloc, &key, "b").expect(&rt, "memory");
        check(&rt, row.hint() == value_hint(key.first()), text);
        check(&rt, last <= row.hint(), text);
        if last < row.hint() {
            rises = rises.saturating_add(1);
        }
        last = row.hint();
    }
    // Equal hints would pass the checks above, but would not tell rows apart.
    check(&rt, rises > 1, "hints tell rows apart");
}

// Whether the hint of each row below the bound is at most the bound's hint, and the hint of each other row at least the bound's hint.
fn parts_hints(rows: &[RowBytes], bound: &RowBound) -> bool {
    for row in rows {
        let wanted = match bound.against(row) {
            Ordering::Greater => row.hint() <= bound.hint(),
            _ => bound.hint() <= row.hint(),
        };
        if !wanted {
            return false;
        }
    }
    true
}

#[test]
fn hints_of_bounds_are_between_those_of_rows(rt: HostRuntime) {
    let alloc = rt.alloc();
    let mut rows = all_rows(&rt, alloc);
    for text in KEYS {
        let key = values_of(&rt, alloc, text);
        rows.push(RowBytes::of(alloc, &key, "b").expect(&rt, "memory"))
            .expect(&rt, "memory");
    }
    for text in KEYS {
        let key = values_of(&rt, alloc, text);
        for edge in [Edge::Before, Edge::After] {
            let bound = RowBound::at(alloc, &key, edge).expect(&rt, "memory");
            check(&rt, parts_hints(&rows, &bound), text);
        }
    }
}

#[test]
fn an_element_once_more_is_the_same_row(rt: HostRuntime) {
    for row in &all_rows(&rt, rt.alloc()) {
        let again = Element::again(row).expect(&rt, "memory");
        check(
            &rt,
            again == *row && row.order(&again) == Ordering::Equal,
            "a row",
        );
    }
}
