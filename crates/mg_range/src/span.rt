// The keys that begin with fixed values and have their next value between two limits.
ghost use Rattle.std.specs.Prelude.{◌≡◌, List, [], Some, IfOk, map, not, option_map};
ghost use Rattle.mg_value.specs.View.{view};
ghost use Rattle.mg_normal.specs.View.{atoms_view};
ghost use Rattle.mg_collate.specs.declared.direction.Direction.TheVariants.{Asc, Desc};
ghost use Rattle.mg_range.specs.LentLimit.{lent_limit_view};
ghost use Rattle.mg_range.specs.Range.{range_of, between, are_crossed, is_crossed};
ghost use Rattle.mg_range.specs.RangeSide.{admits, side_from, is_before, is_past, is_within};
ghost use Rattle.mg_range.specs.View.{limit_view, span_view, with_equals};

use crate::lent_limit::{LentLimit, meets_all, tightest};
use crate::side::RangeSide;
use mg_collate::{Direction, compare};
use mg_index::fixed_value;
use mg_normal::Atom;
use mg_path::Path;
use mg_value::{Json, NoMemory};
use std::alloc::Global;
use std::cmp::Ordering;

// A limit on the values of a column, which owns its value.
#[derive(Debug, Drop)]
pub(crate) struct Limit {
    pub(crate) value: Json,
    pub(crate) inclusive: bool,
}

// The fixed values of the leading columns, and the limits on the value of the next one.
#[derive(Debug, Drop)]
pub(crate) struct Span {
    pub(crate) equal: Vec<Json>,
    pub(crate) lower: Option<Limit>,
    pub(crate) upper: Option<Limit>,
}

// Makes the span that the atoms give an index of these columns; `None` if a fixed value breaks another bound on its
// column, or if the limits cross. Errors: `NoMemory` if an allocation fails.
pub(crate) fn span_of(
    alloc: Global,
    columns: &[Path],
    atoms: &[Atom],
) -> Result<Option<Span>, NoMemory>
    ensures { IfOk result (λ s. option_map span_view s ≡ range_of (atoms_view atoms.now) columns.now) }
{
    let mut equal = Vec::new(alloc);
    for column in columns {
        let Some(value) = fixed_value(column, atoms) else {
            let lower = tightest(Direction::Asc, column, atoms);
            let upper = tightest(Direction::Desc, column, atoms);
            return span_between(alloc, equal, lower, upper);
        };
        if !meets_all(column, atoms, value) {
            return Ok(None);
        }
        equal.push(value.copy(alloc)?)?;
    }
    Ok(Some(Span {
        equal,
        lower: None,
        upper: None,
    }))
}

// Makes the span of these values and limits; `None` if the limits cross. Errors: `NoMemory` if an allocation fails.
fn span_between(
    alloc: Global,
    equal: Vec<Json>,
    lower: Option<LentLimit<'_>>,
    upper: Option<LentLimit<'_>>,
) -> Result<Option<Span>, NoMemory>
    ensures { IfOk result (λ s. option_map span_view s ≡ with_equals (map view equal.items)
        (between (option_map lent_limit_view lower.entry) (option_map lent_limit_view upper.entry))) }
{
    if is_crossed(lower, upper) {
        return Ok(None);
    }
    Ok(Some(Span {
        equal,
        lower: keep_limit(alloc, lower)?,
        upper: keep_limit(alloc, upper)?,
    }))
}

// Whether both limits are there and cross: the lower is above the upper, or equal to it while one of them is
// exclusive.
fn is_crossed(lower: Option<LentLimit<'_>>, upper: Option<LentLimit<'_>>) -> bool
    ensures { result ≡ is_crossed (option_map lent_limit_view lower.entry)
        (option_map lent_limit_view upper.entry) }
{
    match (lower, upper) {
        (Some(lower), Some(upper)) => are_crossed(lower, upper),
        _ => false,
    }
}

fn are_crossed(lower: LentLimit<'_>, upper: LentLimit<'_>) -> bool
    ensures { result ≡ are_crossed (lent_limit_view lower.entry) (lent_limit_view upper.entry) }
{
    match compare(lower.value, upper.value) {
        Ordering::Less => false,
        Ordering::Equal => !(lower.inclusive && upper.inclusive),
        Ordering::Greater => true,
    }
}

// Copies the value of a limit, if there is one, into a limit that owns it. Errors: `NoMemory` if an allocation fails.
fn keep_limit(alloc: Global, limit: Option<LentLimit<'_>>) -> Result<Option<Limit>, NoMemory>
    ensures { IfOk result (λ l. option_map limit_view l ≡ option_map lent_limit_view limit.entry) }
{
    match limit {
        None => Ok(None),
        Some(limit) => Ok(Some(Limit {
            value: limit.value.copy(alloc)?,
            inclusive: limit.inclusive,
        })),
    }
}

// Whether the key is before, within or past the span. A key whose values all equal their fixed values, and that has
// fewer values than there are fixed ones, is before the span.
pub(crate) fn side_in(span: &Span, key: &[Json]) -> RangeSide
    ensures { result ≡ side_from (map view span.now.equal.items) (option_map limit_view span.now.lower)
        (option_map limit_view span.now.upper) (map view key.now) }
{
    for (place, fixed) in span.equal.iter().enumerate() {
        let Some(value) = key.get(place) else {
            return RangeSide::Before;
        };
        match compare(value, fixed) {
            Ordering::Less => return RangeSide::Before,
            Ordering::Equal => {}
            Ordering::Greater => return RangeSide::Past,
        }
    }
    side_at_limits(&span.lower, &span.upper, &key[span.equal.len()..])
}

// Whether a key is before, within or past the limits, where `rest` is what follows the fixed values in the key. If
// nothing follows, the key is before a lower limit, and within the limits if there is no lower one.
pub(crate) fn side_at_limits(
    lower: &Option<Limit>,
    upper: &Option<Limit>,
    rest: &[Json],
) -> RangeSide
    ensures { result ≡ side_from [] (option_map limit_view lower.now) (option_map limit_view upper.now)
        (map view rest.now) }
{
    if is_before(lower, rest) {
        RangeSide::Before
    } else if is_past(upper, rest) {
        RangeSide::Past
    } else {
        RangeSide::Within
    }
}

fn is_before(lower: &Option<Limit>, rest: &[Json]) -> bool
    ensures { result ≡ is_before [] (option_map limit_view lower.now) (map view rest.now) }
{
    let Some(lower) = lower else {
        return false;
    };
    let Some((value, _)) = rest.split_first() else {
        return true;
    };
    !is_within(Direction::Asc, lower, value)
}

fn is_past(upper: &Option<Limit>, rest: &[Json]) -> bool
    ensures { result ≡ is_past [] (option_map limit_view upper.now) (map view rest.now) }
{
    let Some(upper) = upper else {
        return false;
    };
    let Some((value, _)) = rest.split_first() else {
        return false;
    };
    !is_within(Direction::Desc, upper, value)
}

// Whether the value is within the limit, a lower one (`Asc`) or an upper one (`Desc`).
fn is_within(direction: Direction, limit: &Limit, value: &Json) -> bool
    ensures { result ≡ is_within direction (limit_view limit.now) (view value.now) }
{
    admits(limit, direction.apply(compare(value, &limit.value)))
}

// Whether a value with this order to the limit's value is within the limit. For an upper limit, the caller reverses
// the order.
pub(crate) fn admits(limit: &Limit, order: Ordering) -> bool
    ensures { result ≡ admits limit.now.inclusive order }
{
    if limit.inclusive {
        order.is_ge()
    } else {
        order.is_gt()
    }
}
