use mg_path::Path;
use mg_selector::{Op, Sense};
use std::sync::Arc;

/// A selector in which only operators are negated.
#[derive(Debug, Drop)]
pub(crate) enum Condition {
    /// All of these.
    All(Vec<Condition>),
    /// At least one of these; true also for an empty list.
    Any(Vec<Condition>),
    /// The condition, on the part at the path, which is shared with the atoms below it.
    At(Arc<Path>, Box<Condition>),
    /// The operator, in the sense, on the current part.
    Ask(Op, Sense),
}
