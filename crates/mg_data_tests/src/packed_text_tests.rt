//! The compact text of a packed value, its copy as a `Json`, and its copy as a block.
use crate::given::json;
use crate::packed_tests::{COMPACT, block, is_part};
use mg_packed::{Packed, Part};
use mg_value::Json;
use std::alloc::Global;
use std::process::Abort;

// Whether `append_compact_text` keeps the bytes that were there, and appends `COMPACT`.
fn is_added<R: Abort>(rt: &R, alloc: Global, whole: &Part<'_>) -> bool {
    let front = Vec::from_slice(alloc, b"[").expect(rt, "memory");
    let all = whole.append_compact_text(front).expect(rt, "memory");
    all.first() == Some(&b'[') && all.get(1..) == Some(COMPACT.as_bytes())
}

// Makes a `Json` of a packed value, and drops the packed value.
fn copy_and_drop<R: Abort>(rt: &R, alloc: Global, gone: Packed) -> Json {
    gone.part().to_json(alloc).expect(rt, "memory")
}

#[test]
fn a_block_has_the_text_of_its_value(rt: HostRuntime) {
    let packed = block(&rt, rt.alloc());
    let whole = packed.part();
    assert!(rt; is_part(&rt, rt.alloc(), Some(whole.lend()), Some(COMPACT)));
    assert!(rt; is_added(&rt, rt.alloc(), &whole));
}

#[test]
fn a_copy_outlives_its_block(rt: HostRuntime) {
    let copy = copy_and_drop(&rt, rt.alloc(), block(&rt, rt.alloc()));
    assert!(rt; copy == json(&rt, rt.alloc(), COMPACT));
}

#[test]
fn a_copy_of_a_block_lends_its_text(rt: HostRuntime) {
    let copy = block(&rt, rt.alloc())
        .copy(rt.alloc())
        .expect(&rt, "memory");
    assert!(rt; copy.compact_text() == COMPACT.as_bytes());
    assert!(rt; is_part(&rt, rt.alloc(), Some(copy.part()), Some(COMPACT)));
}
