//! The library's surface, for callers other than this program: whether a key is in a range.
ghost use Rattle.std.specs.Prelude.{◌≡◌, map};
ghost use Rattle.mg_value.specs.View.{view as json_view};
ghost use Rattle.mg_range.specs.RangeSide.{has_key, is_side_within};

use crate::range::KeyRange;
use crate::side::RangeSide;
use crate::span::side_in;
use mg_value::Json;

impl KeyRange {
    /// Whether the key is in the range. Takes no memory. Cost: at most two passes over the key.
    pub fn contains(&self, key: &[Json]) -> bool
        ensures { result ≡ has_key self.now (map json_view key.now) }
    {
        match &self.span {
            Some(span) => is_side_within(side_in(span, key)),
            None => false,
        }
    }
}

fn is_side_within(side: RangeSide) -> bool
    ensures { result ≡ is_side_within side }
{
    match side {
        RangeSide::Before => false,
        RangeSide::Within => true,
        RangeSide::Past => false,
    }
}
