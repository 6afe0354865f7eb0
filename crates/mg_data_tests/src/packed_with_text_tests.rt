//! An object in one block gets a text as the value of a name: before, between and after its members, and in place of the first member, of
//! one in the middle and of the last. A value that is not an object stays as it is.
use crate::given::{check, json};
use mg_packed::Packed;
use std::alloc::Global;
use std::process::Abort;

// A value, a name, and the compact text of the value with the text "t" at this name.
const TEXTS: &[(&str, &str, &str)] = &[
    ("{}", "", r#"{"":"t"}"#),
    (
        r#"{"b":[1,{"x":2}],"d":4}"#,
        "a",
        r#"{"a":"t","b":[1,{"x":2}],"d":4}"#,
    ),
    (
        r#"{"b":[1,{"x":2}],"d":4}"#,
        "c",
        r#"{"b":[1,{"x":2}],"c":"t","d":4}"#,
    ),
    (
        r#"{"b":[1,{"x":2}],"d":4}"#,
        "da",
        r#"{"b":[1,{"x":2}],"d":4,"da":"t"}"#,
    ),
    (
        r#"{"b":[1,{"x":2}],"d":4,"e":null}"#,
        "b",
        r#"{"b":"t","d":4,"e":null}"#,
    ),
    (
        r#"{"b":[1,{"x":2}],"d":4,"e":null}"#,
        "d",
        r#"{"b":[1,{"x":2}],"d":"t","e":null}"#,
    ),
    (
        r#"{"b":[1,{"x":2}],"d":4,"e":[{}]}"#,
        "e",
        r#"{"b":[1,{"x":2}],"d":4,"e":"t"}"#,
    ),
    ("null", "a", "null"),
    (r#""a""#, "a", r#""a""#),
    ("[{}]", "a", "[{}]"),
];

fn has_text<R: Abort>(rt: &R, alloc: Global, value: &str, name: &str, text: &str) -> bool {
    let packed = Packed::of(alloc, &json(rt, alloc, value)).expect(rt, "memory");
    let with_text = packed.with_text(alloc, name, "t").expect(rt, "memory");
    let found = with_text.part().compact_text(alloc).expect(rt, "memory");
    found.as_slice() == text.as_bytes()
}

#[test]
fn a_text_stands_at_its_name(rt: HostRuntime) {
    for (value, name, text) in TEXTS {
        check(&rt, has_text(&rt, rt.alloc(), value, name, text), text);
    }
}
