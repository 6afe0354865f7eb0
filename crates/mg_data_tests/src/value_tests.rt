//! Refusals of `read` as a call of the library, and the texts of the errors, which the program does not print. Other tests of values are in
//! tests/conversations/bodies.txt.
use mg_value::{ReadError, read};

#[test]
fn numbers_outside_i64(rt: HostRuntime) {
    let alloc = rt.alloc();
    let outside = br#"{"docs":[{"_id":"a1"},{"_id":"a2","v":9223372036854775808}]}"#;
    assert!(rt; matches!(read(alloc, outside), Err(ReadError::NotWhole)));
    assert!(rt; matches!(read(alloc, b"1.5"), Err(ReadError::NotWhole)));
    assert!(rt; matches!(read(alloc, br#"{"a":"#), Err(ReadError::NotJson)));
}

#[test]
fn errors_have_texts(rt: HostRuntime) {
    let text = format!(in rt.alloc(); "{}, {}", ReadError::NotJson, ReadError::NotWhole).expect(
        &rt, "memory",
    );
    assert!(rt; text.as_str() == "not a JSON text, a number is not a whole number of 64 bits");
}
