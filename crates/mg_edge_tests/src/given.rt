//! What the tests share: a check. A test fails with the message `memory` if one of its calls is refused memory.
use std::process::Abort;

/// Fails the test with the name of the case, unless the condition holds.
pub(crate) fn check<R: Abort>(rt: &R, holds: bool, case: &str) {
    if !holds {
        rt.panic(case)
    }
}
