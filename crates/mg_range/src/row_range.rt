//! Key ranges that are compared with rows kept as bytes.
ghost use Rattle.std.specs.Prelude.{◌≡◌, [], IfOk, OnOk, map, option_map};
ghost use Rattle.std.specs.Ordering.{is_gt, is_lt};
ghost use Rattle.mg_value.specs.Value.{item_list};
ghost use Rattle.mg_value.specs.View.{items_view, view as json_view};
ghost use Rattle.mg_rows.specs.RowBound.{bound_order};
ghost use Rattle.mg_rows.specs.Laws.{joined_items};
ghost use Rattle.mg_range.specs.SpanEnds.{end_values, high_edge, low_edge};
ghost use Rattle.mg_range.specs.InRows.{ends_at, ends_of};
ghost use Rattle.mg_range.specs.RangeSide.{is_early, is_late, is_side_before, is_side_past, side_of};
ghost use Rattle.mg_range.specs.View.{limit_view, span_view};

use crate::range::KeyRange;
use crate::span::{Limit, Span};
use mg_collate::Direction;
use mg_rows::{Edge, KeyBytes, RowBound, RowBytes, value_hint};
use mg_value::{Json, NoMemory};
use std::alloc::Global;
use std::marker::Model;

// The ends of a span: the rows in the span are those after the low end and before the high end.
#[derive(Drop)]
pub(crate) struct SpanEnds {
    pub(crate) low: RowBound,
    pub(crate) high: RowBound,
}

/// A key range with its two ends as bytes, so that rows are compared with the ends byte by byte. An empty range has
/// no ends. In contracts, a `RowRange` stands for its key range.
#[derive(Drop)]
pub struct RowRange<'a> {
    keys: &'a KeyRange,
    ends: Option<SpanEnds>,
    // the hints at which an ascending search (`up`) and a descending search (`down`) enter the range
    up: u64,
    down: u64,
}

impl<'a> Model for RowRange<'a> {
    ghost use Rattle.mg_range.specs.Range.{Range, range_code};

    ghost Value = { Range };

    ghost coded = { range_code };

    ghost use Rattle.mg_range.specs.InRows.{HasEnds};

    ghost view = { λ r. r.keys.now };

    ghost invariant = { λ r. HasEnds r.keys.now r.ends };
}

impl KeyRange {
    /// Makes the range with its two ends as bytes.
    ///
    /// Errors: `NoMemory` if an allocation fails. Cost: the size of the range's values.
    pub fn in_rows(&self, alloc: Global) -> Result<RowRange<'_>, NoMemory>
        ensures { IfOk result (λ r. r ≡ self.now) }
    {
        let ends = ends_if(alloc, &self.span)?;
        Ok(RowRange {
            keys: self,
            ends,
            up: entry_hint(self, Direction::Asc),
            down: entry_hint(self, Direction::Desc),
        })
    }
}

impl<'a> RowRange<'a> {
    /// Returns the key range. Takes no memory.
    pub fn key_range(&self) -> &'a KeyRange
        ensures { result.now ≡ self.now }
    {
        self.keys
    }

    /// Returns the hint at which a search in the direction enters the range. The search compares it with the hints of
    /// rows, to choose where it looks first; no answer depends on the hint. Takes no memory. Cost: constant, because
    /// `in_rows` has computed the hint.
    pub fn entry_hint(&self, direction: Direction) -> u64 {
        match direction {
            Direction::Asc => self.up,
            Direction::Desc => self.down,
        }
    }

    /// Whether the row comes before the range in the direction. Every row is above an empty range: early in
    /// `Desc`, late in `Asc`. Takes no memory. Cost: a comparison of bytes.
    #[inline(always)]
    pub fn is_early(&self, direction: Direction, row: &RowBytes) -> bool
        ensures { result ≡ is_early direction (side_of self.now (item_list row.now.0)) }
    {
        match direction {
            Direction::Asc => self.is_below(row),
            Direction::Desc => self.is_above(row),
        }
    }

    /// Whether the row comes after the range in the direction. Every row is above an empty range: early in
    /// `Desc`, late in `Asc`. Takes no memory. Cost: a comparison of bytes.
    #[inline(always)]
    pub fn is_late(&self, direction: Direction, row: &RowBytes) -> bool
        ensures { result ≡ is_late direction (side_of self.now (item_list row.now.0)) }
    {
        match direction {
            Direction::Asc => self.is_above(row),
            Direction::Desc => self.is_below(row),
        }
    }

    // Whether the row is below each key of the range; false if the range is empty.
    #[inline(always)]
    fn is_below(&self, row: &RowBytes) -> bool
        ensures { result ≡ is_side_before (side_of self.now (item_list row.now.0)) }
    {
        match &self.ends {
            Some(ends) => is_before(ends, row),
            None => false,
        }
    }

    // Whether the row is above each key of the range; true if the range is empty.
    #[inline(always)]
    fn is_above(&self, row: &RowBytes) -> bool
        ensures { result ≡ is_side_past (side_of self.now (item_list row.now.0)) }
    {
        match &self.ends {
            Some(ends) => is_past(ends, row),
            None => true,
        }
    }
}

// Computes the hint at which a search in the direction enters the range. If the search enters at a value, the hint
// comes, in the direction, just before the hint of the rows with that value if they may be in the range, and just
// after it otherwise. If the search enters at no value, the hint is the first one in the direction.
fn entry_hint(keys: &KeyRange, direction: Direction) -> u64 {
    let is_up = direction == Direction::Asc;
    match keys.entered_at(direction) {
        Some((value, inclusive)) if is_up == inclusive => value_hint(Some(value)).saturating_sub(1),
        Some((value, _)) => value_hint(Some(value)).saturating_add(1),
        None if is_up => 0,
        None => u64::MAX,
    }
}

// Whether the row is before the low end.
fn is_before(ends: &SpanEnds, row: &RowBytes) -> bool
    ensures { result ≡ is_gt (bound_order ends.now.low.0 ends.now.low.1 row.now) }
{
    ends.low.against(row).is_gt()
}

// Whether the row is after the high end.
fn is_past(ends: &SpanEnds, row: &RowBytes) -> bool
    ensures { result ≡ is_lt (bound_order ends.now.high.0 ends.now.high.1 row.now) }
{
    ends.high.against(row).is_lt()
}

// Makes the ends of a span, if there is one. Errors: `NoMemory` if an allocation fails.
fn ends_if(alloc: Global, span: &Option<Span>) -> Result<Option<SpanEnds>, NoMemory>
    ensures { IfOk result (λ ends. option_map ends_at ends
        ≡ option_map (λ s. ends_of (span_view s)) span.now) }
{
    match span {
        Some(span) => Ok(Some(ends_of(alloc, span)?)),
        None => Ok(None),
    }
}

fn ends_of(alloc: Global, span: &Span) -> Result<SpanEnds, NoMemory>
    ensures { IfOk result (λ ends. ends_at ends ≡ ends_of (span_view span.now)) }
{
    let lower = span.lower.as_ref();
    let upper = span.upper.as_ref();
    let low = end_at(alloc, &span.equal, lower, low_edge(lower))?;
    let high = end_at(alloc, &span.equal, upper, high_edge(upper))?;
    Ok(SpanEnds { low, high })
}

// Makes the end before or after (`edge`) all rows whose key begins with these values, followed by the limit's value
// if there is a limit. Errors: `NoMemory` if an allocation fails.
fn end_at(
    alloc: Global,
    equal: &[Json],
    limit: Option<&Limit>,
    edge: Edge,
) -> Result<RowBound, NoMemory>
    ensures { IfOk result (λ bound. bound
        ≡ (edge, end_values (map json_view equal.now) (option_map (λ l. limit_view l.now) limit.entry))) }
{
    let mut key = KeyBytes::new(alloc);
    push_all(&mut key, equal)?;
    push_limit(&mut key, limit)?;
    Ok(key.into_bound(edge)?)
}

// Appends the values to a key. Errors: `NoMemory` if an allocation fails; then the key is empty.
fn push_all(key: &mut KeyBytes, values: &[Json]) -> Result<(), NoMemory>
    ensures { OnOk result (key.new ≡ joined_items key.old (items_view values.now)) }
{
    for value in values {
        key.push(value)?;
    }
    Ok(())
}

// Appends the value of a limit, if there is one, to a key. Errors: `NoMemory` if an allocation fails; then the key
// is empty.
fn push_limit(key: &mut KeyBytes, limit: Option<&Limit>) -> Result<(), NoMemory>
    ensures { OnOk result (key.new
        ≡ joined_items key.old (end_values [] (option_map (λ l. limit_view l.now) limit.entry))) }
{
    match limit {
        Some(limit) => {
            key.push(&limit.value)?;
            Ok(())
        }
        None => Ok(()),
    }
}

// Returns the edge of the low end: before the rows with its values if the limit includes them or there is no limit,
// otherwise after them.
fn low_edge(limit: Option<&Limit>) -> Edge
    ensures { result ≡ low_edge (option_map (λ l. limit_view l.now) limit.entry) }
{
    match limit {
        Some(limit) => if limit.inclusive {
            Edge::Before
        } else {
            Edge::After
        },
        None => Edge::Before,
    }
}

// Returns the edge of the high end: after the rows with its values if the limit includes them or there is no limit,
// otherwise before them.
fn high_edge(limit: Option<&Limit>) -> Edge
    ensures { result ≡ high_edge (option_map (λ l. limit_view l.now) limit.entry) }
{
    match limit {
        Some(limit) => if limit.inclusive {
            Edge::After
        } else {
            Edge::Before
        },
        None => Edge::After,
    }
}
