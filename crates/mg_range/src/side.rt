/// Whether a key is before, within or past a range, in the order of keys.
#[derive(Clone, Copy, PartialEq, Eq, Debug, Drop)]
pub enum RangeSide {
    /// Below each key of the range, which is not empty.
    Before,
    /// One of the range's keys.
    Within,
    /// Above each key of the range, or the range is empty.
    Past,
}
