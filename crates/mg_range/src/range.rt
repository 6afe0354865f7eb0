ghost use Rattle.std.specs.Prelude.{◌≡◌, ℕ, List, [], ◌∷◌, IfOk, is_none, length, option_map};
ghost use Rattle.mg_value.specs.Value.{Value, text as string};
ghost use Rattle.mg_value.specs.View.{view as json_view};
ghost use Rattle.mg_range.specs.Explained.{range_value};
ghost use Rattle.mg_range.specs.RangeSide.{has_key, side_of};
ghost use Rattle.mg_range.specs.Enter.{limit_entered};
ghost use Rattle.mg_range.specs.Range.{in_range, limit_at, range_of};

use crate::explained::{empty_json, span_json};
use crate::side::RangeSide;
use crate::span::{Span, side_in, span_of};
use crate::text;
use mg_collate::Direction;
use mg_normal::Normal;
use mg_path::Path;
use mg_value::{Json, NoMemory};
use std::alloc::Global;
use std::marker::Model;

/// The keys of an index that a query looks at: the values of the leading columns that the query fixes, and
/// limits on the value of the next column. A range may be empty.
#[derive(Debug, Drop)]
pub struct KeyRange {
    pub(crate) span: Option<Span>,
}

impl Model for KeyRange {
    ghost use Rattle.std.specs.Prelude.{option_map};
    ghost use Rattle.mg_range.specs.Range.{Range, range_code};

    ghost Value = { Range };

    ghost coded = { range_code };

    ghost use Rattle.mg_range.specs.SpanEnds.{IsUncrossed};
    ghost use Rattle.mg_range.specs.View.{span_view};

    ghost view = { λ r. option_map span_view r.span };

    ghost invariant = { λ r. IsUncrossed (option_map span_view r.span) };
}

impl KeyRange {
    /// Makes the range that a query has in an index of these columns.
    ///
    /// The bounds come from the atoms alone, as `Bound::on` gives them. They fix the value of each leading column
    /// that an `$eq` or a negated `$ne` bounds; the value of the next column lies between its tightest bounds. A
    /// key that has a value for each column is in the range if and only if its values meet all bounds on these
    /// columns.
    ///
    /// Errors: `NoMemory` if an allocation fails. Cost: the columns times the atoms, in comparisons of paths
    /// and of values, and a copy of each value that the range keeps.
    pub fn of(alloc: Global, columns: &[Path], normal: &Normal) -> Result<KeyRange, NoMemory>
        ensures range { IfOk result (λ r. r ≡ range_of normal.now.atoms columns.now) }
        ensures keys { IfOk result (λ r. (key : List Value) → length key ≡ length columns.now
            → has_key r key ≡ in_range normal.now.atoms columns.now key) }
    {
        Ok(KeyRange {
            span: span_of(alloc, columns, normal.atoms())?,
        })
    }

    /// Whether the key whose only value is this text is before, within or past the range; every key is past an empty
    /// range. Takes no memory. Cost: at most two passes over the text.
    ///
    /// Among rows in order, those before the range come first, then those in it, then those past it. So a binary
    /// search finds the ends of the range.
    pub fn side_at_text(&self, text: &str) -> RangeSide
        ensures { result ≡ side_of self.now (string text.now ∷ []) }
    {
        match &self.span {
            Some(span) => text::side_in(span, text),
            None => RangeSide::Past,
        }
    }

    /// Finds the range's limit on the first column, on the side where a search in the direction enters: the limit's
    /// value, and whether keys with that value may be in the range. The value is the column's fixed value, if it has
    /// one; otherwise that of the lower limit for `Asc`, or of the upper limit for `Desc`. `None` if the first column
    /// has no such limit, or if the range is empty. Takes no memory. Cost: constant.
    pub fn entered_at(&self, direction: Direction) -> Option<(&Json, bool)>
        ensures { option_map (λ l. limit_at (json_view l.0.now) l.1) result
            ≡ limit_entered direction self.now }
    {
        let span = self.span.as_ref()?;
        if let Some(value) = span.equal.first() {
            return Some((value, true));
        }
        let limit = match direction {
            Direction::Asc => span.lower.as_ref()?,
            Direction::Desc => span.upper.as_ref()?,
        };
        Some((&limit.value, limit.inclusive))
    }

    /// Whether the range is empty: a fixed value breaks another bound on its column, or the lower limit is
    /// above the upper one, or equal to it while one of them is exclusive. Takes no memory.
    pub fn is_empty(&self) -> bool
        ensures { result ≡ is_none self.now }
    {
        match &self.span {
            Some(_) => false,
            None => true,
        }
    }

    /// Makes the JSON of the range, as `_explain` shows it: `{"empty":true}`, or
    /// `{"equal":[..],"lower":..,"upper":..}`, with each limit as null or `{"inclusive":..,"value":..}`.
    ///
    /// Errors: `NoMemory` if an allocation fails. Cost: the size of the values.
    pub fn to_json(&self, alloc: Global) -> Result<Json, NoMemory>
        ensures { IfOk result (λ v. json_view v ≡ range_value self.now) }
    {
        match &self.span {
            Some(span) => span_json(alloc, span),
            None => empty_json(alloc),
        }
    }
}
