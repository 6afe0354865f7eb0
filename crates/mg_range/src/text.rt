// Compares a span with a key whose only value is a text.
ghost use Rattle.std.specs.Prelude.{◌≡◌, [], ◌∷◌, map, option_map};
ghost use Rattle.mg_value.specs.Value.{text as string};
ghost use Rattle.mg_value.specs.View.{view};
ghost use Rattle.mg_range.specs.RangeSide.{side_from, is_before, is_past, is_within};
ghost use Rattle.mg_range.specs.View.{limit_view};

use crate::side::RangeSide;
use crate::span::{Limit, Span, admits, side_at_limits};
use mg_collate::{Direction, compare_text};
use mg_value::Json;
use std::cmp::Ordering;

// Whether the key whose only value is this text is before, within or past the span.
pub(crate) fn side_in(span: &Span, text: &str) -> RangeSide
    ensures { result ≡ side_from (map view span.now.equal.items) (option_map limit_view span.now.lower)
        (option_map limit_view span.now.upper) (string text.now ∷ []) }
{
    let Some((fixed, others)) = span.equal.split_first() else {
        return side_of_text(&span.lower, &span.upper, text);
    };
    match compare_text(text, fixed) {
        Ordering::Less => RangeSide::Before,
        Ordering::Equal => side_of_ended(others, &span.lower, &span.upper),
        Ordering::Greater => RangeSide::Past,
    }
}

// Whether a key that ends after the first fixed value is before, within or past the span, where `equal` has the
// other fixed values.
fn side_of_ended(equal: &[Json], lower: &Option<Limit>, upper: &Option<Limit>) -> RangeSide
    ensures { result ≡ side_from (map view equal.now) (option_map limit_view lower.now)
        (option_map limit_view upper.now) [] }
{
    match equal.split_first() {
        Some(_) => RangeSide::Before,
        None => side_at_limits(lower, upper, &[]),
    }
}

// Whether the key whose only value is this text is before, within or past the limits.
fn side_of_text(lower: &Option<Limit>, upper: &Option<Limit>, text: &str) -> RangeSide
    ensures { result ≡ side_from [] (option_map limit_view lower.now) (option_map limit_view upper.now)
        (string text.now ∷ []) }
{
    if is_before(lower, text) {
        RangeSide::Before
    } else if is_past(upper, text) {
        RangeSide::Past
    } else {
        RangeSide::Within
    }
}

fn is_before(lower: &Option<Limit>, text: &str) -> bool
    ensures { result ≡ is_before [] (option_map limit_view lower.now) (string text.now ∷ []) }
{
    match lower {
        Some(lower) => !is_within(Direction::Asc, lower, text),
        None => false,
    }
}

fn is_past(upper: &Option<Limit>, text: &str) -> bool
    ensures { result ≡ is_past [] (option_map limit_view upper.now) (string text.now ∷ []) }
{
    match upper {
        Some(upper) => !is_within(Direction::Desc, upper, text),
        None => false,
    }
}

// Whether the text is within the limit, a lower one (`Asc`) or an upper one (`Desc`).
fn is_within(direction: Direction, limit: &Limit, text: &str) -> bool
    ensures { result ≡ is_within direction (limit_view limit.now) (string text.now) }
{
    admits(limit, direction.apply(compare_text(text, &limit.value)))
}
