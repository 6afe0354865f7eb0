//! Selectors evaluated directly, on a document and on a packed document, and their normal form on a document. The program evaluates only
//! the normal form, on packed documents. Other tests of selectors are in tests/conversations/selectors.txt.
use crate::given::{check, json};
use mg_normal::Normal;
use mg_packed::Packed;
use mg_selector::Sel;
use std::alloc::Global;
use std::process::Abort;

fn selector_of<R: Abort>(rt: &R, alloc: Global, text: &str) -> Sel {
    let value = json(rt, alloc, text);
    let Ok(selector) = Sel::read(alloc, &value) else {
        rt.panic("no selector")
    };
    selector
}

// Whether a copy of the selector matches the document.
fn holds<R: Abort>(rt: &R, alloc: Global, selector: &Sel, document: &str) -> bool {
    let document = json(rt, alloc, document);
    let copy = selector.copy(alloc).expect(rt, "memory");
    copy.holds(&document)
}

#[test]
fn a_copied_selector_matches_the_same_documents(rt: HostRuntime) {
    let alloc = rt.alloc();
    let selector = selector_of(&rt, alloc, r#"{"$not":{"a.b":{"$lt":5}}}"#);
    assert!(rt; holds(&rt, alloc, &selector, r#"{"a":{"b":5}}"#));
    assert!(rt; !holds(&rt, alloc, &selector, r#"{"a":{}}"#));
}

// A selector, a document, and whether it matches, by CouchDB's documentation of selectors.
const SELECTIONS: &[(&str, &str, bool)] = &[
    (r#"{"a.b":{"$lt":5}}"#, r#"{"a":{"b":4}}"#, true),
    (r#"{"a.b":{"$lt":5}}"#, r#"{"a":{"b":5}}"#, false),
    (r#"{"$not":{"a.b":{"$lt":5}}}"#, r#"{"a":{"b":5}}"#, true),
    (r#"{"$not":{"a.b":{"$lt":5}}}"#, r#"{"a":{}}"#, false),
    (r#"{"a":{"$in":["y","x"]}}"#, r#"{"a":"x"}"#, true),
    (r#"{"a":{"$in":["y","x"]}}"#, r#"{"a":["z","x"]}"#, true),
    (r#"{"a":{"$in":["y","x"]}}"#, r#"{"a":["z"]}"#, false),
    (r#"{"a":{"$all":[1,3]}}"#, r#"{"a":[3,2,1]}"#, true),
    (r#"{"a":{"$all":[1,3]}}"#, r#"{"a":[3,2]}"#, false),
    (
        r#"{"a":{"$elemMatch":{"b":{"$gt":1}}}}"#,
        r#"{"a":[{"b":1},{"b":2}]}"#,
        true,
    ),
    (
        r#"{"a":{"$elemMatch":{"b":{"$gt":1}}}}"#,
        r#"{"a":[{"b":1},{"c":2}]}"#,
        false,
    ),
    (r#"{"a":{"$size":2}}"#, r#"{"a":[{},[]]}"#, true),
    (r#"{"a":{"$mod":[4,3]}}"#, r#"{"a":7}"#, true),
    (r#"{"a":{"$type":"object"}}"#, r#"{"a":[]}"#, false),
    (
        r#"{"a":{"b":[1,"x"],"c":null}}"#,
        r#"{"a":{"c":null,"b":[1,"x"]}}"#,
        true,
    ),
    (r#"{"a":{"$exists":false}}"#, r#"{"b":1}"#, true),
];

// Whether a selector matches a packed document.
fn holds_in_a_block<R: Abort>(rt: &R, alloc: Global, selector: &str, document: &str) -> bool {
    let selector = selector_of(rt, alloc, selector);
    let document = json(rt, alloc, document);
    let packed = Packed::of(alloc, &document).expect(rt, "memory");
    selector.holds_of(packed.part())
}

#[test]
fn a_selector_matches_packed_documents(rt: HostRuntime) {
    let alloc = rt.alloc();
    for (selector, document, wanted) in SELECTIONS {
        let found = holds_in_a_block(&rt, alloc, selector, document);
        check(&rt, found == *wanted, selector);
    }
}

// Whether the normal form of a selector matches a document.
fn holds_in_normal_form<R: Abort>(rt: &R, alloc: Global, selector: &str, document: &str) -> bool {
    let selector = selector_of(rt, alloc, selector);
    let normal = Normal::of(alloc, &selector).expect(rt, "memory");
    normal.holds(&json(rt, alloc, document))
}

#[test]
fn a_normal_form_matches_what_its_selector_matches(rt: HostRuntime) {
    let alloc = rt.alloc();
    for (selector, document, wanted) in SELECTIONS {
        let found = holds_in_normal_form(&rt, alloc, selector, document);
        check(&rt, found == *wanted, selector);
    }
}
