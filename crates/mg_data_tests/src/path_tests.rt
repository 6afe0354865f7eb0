//! Paths, parts of values and projections, as calls of the library.
use crate::given::{check, json};
use mg_path::{Path, PathError, project};
use mg_value::{Json, write};
use std::alloc::Global;
use std::process::Abort;

fn path<R: Abort>(rt: &R, alloc: Global, text: &str) -> Path {
    Path::parse(alloc, text).expect(rt, "a path")
}

// Whether the path has these two steps.
fn has_steps(path: &Path, first: &str, second: &str) -> bool {
    match path.steps() {
        [one, two] => one.as_str() == first && two.as_str() == second,
        _ => false,
    }
}

// A value, the paths of a projection of it, and the projection.
#[derive(Clone, Copy, Drop)]
struct Projected(&'static str, &'static [&'static str], &'static str);

const PROJECTIONS: &[Projected] = &[
    Projected(
        r#"{"a":{"b":1,"c":2},"d":3}"#,
        &["a.b", "d", "z"],
        r#"{"a":{"b":1},"d":3}"#,
    ),
    Projected(r#"{"a":[7]}"#, &["a", "a.0"], r#"{"a":[7]}"#),
    Projected(r#"{"a":[7]}"#, &["a.0"], r#"{"a":{"0":7}}"#),
];

fn is_projected<R: Abort>(rt: &R, alloc: Global, case: &Projected) -> bool {
    let value = json(rt, alloc, case.0);
    let mut paths = Vec::new(alloc);
    for text in case.1 {
        paths.push(path(rt, alloc, text)).expect(rt, "memory");
    }
    let projection = project(alloc, &value, &paths).expect(rt, "memory");
    let text = write(alloc, &projection).expect(rt, "memory");
    text.as_slice() == case.2.as_bytes()
}

#[test]
fn paths(rt: HostRuntime) {
    let alloc = rt.alloc();
    let parsed = path(&rt, alloc, r"a\.b.0");
    assert!(rt; has_steps(&parsed, "a.b", "0"));
    let value = json(&rt, alloc, r#"{"a.b":[5]}"#);
    assert!(rt; matches!(parsed.get(&value), Some(Json::Whole(5))));
    assert!(rt; path(&rt, alloc, r"a\.b.00").get(&value).is_none());
    assert!(rt; matches!(Path::parse(alloc, "a..b"), Err(PathError::Empty)));
    for case in PROJECTIONS {
        check(&rt, is_projected(&rt, alloc, case), case.2);
    }
}
