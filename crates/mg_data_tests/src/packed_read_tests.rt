//! Tests of values in one block: copies of an object without the members whose names begin with a given byte, where other bytes follow the
//! object in its block; and texts that are read into a block.
use crate::given::{check, json};
use mg_packed::{Kind, Packed};
use mg_value::{ReadBuffer, ReadError};
use std::alloc::Global;
use std::process::Abort;

// The text of an object, and its compact text without the members whose names begin with `_`.
const OBJECTS: &[(&str, &str)] = &[
    ("{}", "{}"),
    (r#"{"_":1}"#, "{}"),
    (r#"{"_id":"a","_rev":"1-b"}"#, "{}"),
    (
        r#"{"":0,"Z":[1],"_id":"a","__":2,"a":{},"é":3}"#,
        r#"{"":0,"Z":[1],"a":{},"é":3}"#,
    ),
    (r#"{"^":1,"`":2}"#, r#"{"^":1,"`":2}"#),
    (
        r#"{"_a":{"b":1},"b":{"_c":[{"_d":2}]}}"#,
        r#"{"b":{"_c":[{"_d":2}]}}"#,
    ),
];

fn without_names_beginning<R: Abort>(rt: &R, alloc: Global, object: &str, text: &str) -> bool {
    let within = format!(in alloc; "[{object},7]").expect(rt, "memory");
    let packed = Packed::of(alloc, &json(rt, alloc, &within)).expect(rt, "memory");
    let Kind::List(items) = packed.part().kind() else {
        return false;
    };
    let Some(first) = items.get(0) else {
        return false;
    };
    let Kind::Object(members) = first.kind() else {
        return false;
    };
    let left = members
        .without_names_beginning(alloc, b'_')
        .expect(rt, "memory");
    let copy = left.copy(alloc).expect(rt, "memory");
    let found = copy.part().compact_text(alloc).expect(rt, "memory");
    found.as_slice() == text.as_bytes()
}

#[test]
fn members_are_left_out_by_the_first_byte_of_their_names(rt: HostRuntime) {
    for (object, text) in OBJECTS {
        check(
            &rt,
            without_names_beginning(&rt, rt.alloc(), object, text),
            object,
        );
    }
}

// A text, and the compact text of its value. If a name is repeated, only the last member with this name counts.
const READ: &[(&str, &str)] = &[
    (" null ", "null"),
    (
        r#"{"b":[true,false,null],"a":-1,"c":"\u00e9"}"#,
        r#"{"a":-1,"b":[true,false,null],"c":"é"}"#,
    ),
    (r#"{"a":1,"a":2}"#, r#"{"a":2}"#),
    (r#"{"a":1.5,"b":0,"a":2}"#, r#"{"a":2,"b":0}"#),
    (
        "[9223372036854775807,-9223372036854775808]",
        "[9223372036854775807,-9223372036854775808]",
    ),
];

#[test]
fn texts_are_read_into_a_block(rt: HostRuntime) {
    let mut buffer = ReadBuffer::new(rt.alloc());
    for (given, text) in READ {
        let packed = Packed::read_in(rt.alloc(), given.as_bytes(), &mut buffer).expect(&rt, "text");
        let found = packed.part().compact_text(rt.alloc()).expect(&rt, "memory");
        check(&rt, found.as_slice() == text.as_bytes(), given);
    }
}

#[test]
fn refusals_are_those_of_read(rt: HostRuntime) {
    let mut buffer = ReadBuffer::new(rt.alloc());
    for text in ["", "nul", "[1]]", r#"{"a":1"#] {
        let read = Packed::read_in(rt.alloc(), text.as_bytes(), &mut buffer);
        check(&rt, matches!(read, Err(ReadError::NotJson)), text);
    }
    for text in ["1.5", "-0", "[9223372036854775808]", r#"{"a":1,"b":1e2}"#] {
        let read = Packed::read_in(rt.alloc(), text.as_bytes(), &mut buffer);
        check(&rt, matches!(read, Err(ReadError::NotWhole)), text);
    }
}
