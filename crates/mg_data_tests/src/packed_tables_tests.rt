//! The tables of values in blocks: containers on both sides of 64 KiB, and names and texts with escapes, found by their names and places.
use crate::given::{check, json};
use mg_packed::{Kind, Packed, Part};
use std::alloc::Global;
use std::process::Abort;

// An object with a name that has an escape, and with a text that has one. Names are in the order of their bytes, not of their spelling.
const ESCAPED: &str = r#"{"a\"b":"x\ny","a#":1,"\u0001":[{"\\":"\\"}],"z":""}"#;

// Names and the compact texts of their values; `None`: there is no such member.
const MEMBERS: &[(&str, Option<&str>)] = &[
    ("a\"b", Some(r#""x\ny""#)),
    ("a\\\"b", None),
    ("a#", Some("1")),
    ("\u{1}", Some(r#"[{"\\":"\\"}]"#)),
    ("z", Some(r#""""#)),
];

fn has_text(part: Option<Part<'_>>, text: Option<&str>) -> bool {
    match (part, text) {
        (Some(part), Some(text)) => part.text() == text.as_bytes(),
        (None, None) => true,
        _ => false,
    }
}

#[test]
fn escaped_names_are_found_by_their_letters(rt: HostRuntime) {
    let packed = Packed::of(rt.alloc(), &json(&rt, rt.alloc(), ESCAPED)).expect(&rt, "memory");
    for (name, text) in MEMBERS {
        check(&rt, has_text(packed.part().member(*name), *text), name);
    }
    match packed.part().member("a\"b") {
        Some(part) => check(&rt, matches!(part.kind(), Kind::Text("x\ny")), "the text"),
        None => check(&rt, false, "the member"),
    }
}

// The text of an object with a text of `len` letters, a member after it, and an array of `len / 8` empty arrays and a 7. The tables of the
// array are longer than its text.
fn long_text<R: Abort>(rt: &R, alloc: Global, len: usize) -> String {
    let mut text = String::from_str(alloc, "{\"a\":\"").expect(rt, "memory");
    for _ in 0..len {
        text.push('x').expect(rt, "memory");
    }
    text.push_str("\",\"b\":-1,\"c\":[").expect(rt, "memory");
    for _ in 0..len / 8 {
        text.push_str("[],").expect(rt, "memory");
    }
    text.push_str("7]}").expect(rt, "memory");
    text
}

fn keeps_its_members<R: Abort>(rt: &R, alloc: Global, len: usize) -> bool {
    let text = long_text(rt, alloc, len);
    let packed = Packed::of(alloc, &json(rt, alloc, &text)).expect(rt, "memory");
    let with = packed.with_text(alloc, "ab", "t").expect(rt, "memory");
    let whole = with.part();
    let Some(list) = whole.member("c") else {
        return false;
    };
    let Kind::List(items) = list.kind() else {
        return false;
    };
    packed.compact_text() == text.as_bytes()
        && has_text(whole.member("b"), Some("-1"))
        && has_text(whole.member("ab"), Some("\"t\""))
        && items.len() == len / 8 + 1
        && has_text(items.get(len / 8), Some("7"))
        && has_text(items.get(len / 16), Some("[]"))
}

#[test]
fn containers_on_both_sides_of_64_kib_keep_their_members(rt: HostRuntime) {
    for len in [
        8, 16, 20_000, 47_600, 65_480, 65_520, 65_536, 70_000, 90_000,
    ] {
        check(&rt, keeps_its_members(&rt, rt.alloc(), len), "a long text");
    }
}
