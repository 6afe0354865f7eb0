//! What the tests share: JSON values, texts, and a check. A test fails with the message `memory` if one of its calls is refused memory.
use mg_packed::Packed;
use mg_value::{Json, read};
use std::alloc::Global;
use std::process::Abort;

/// Reads a text as JSON.
pub(crate) fn json<R: Abort>(rt: &R, alloc: Global, text: &str) -> Json {
    read(alloc, text.as_bytes()).expect(rt, "memory")
}

/// Reads a text as JSON, into one block.
pub(crate) fn packed<R: Abort>(rt: &R, alloc: Global, text: &str) -> Packed {
    Packed::of(alloc, &json(rt, alloc, text)).expect(rt, "memory")
}

/// Copies a text.
pub(crate) fn string<R: Abort>(rt: &R, alloc: Global, text: &str) -> String {
    String::from_str(alloc, text).expect(rt, "memory")
}

/// Fails the test with the name of the case, unless the condition holds.
pub(crate) fn check<R: Abort>(rt: &R, holds: bool, case: &str) {
    if !holds {
        rt.panic(case)
    }
}
