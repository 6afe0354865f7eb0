// The limits that the atoms of a selector give on one column, lent by the atoms.
ghost use Rattle.std.specs.Prelude.{◌≡◌, List, option_map};
ghost use Rattle.std.specs.List.{cons_option, filter_map, fold};
ghost use Rattle.mg_value.specs.View.{view};
ghost use Rattle.mg_normal.specs.View.{atom_view, atoms_view};
ghost use Rattle.mg_index.specs.Bound.{Bound as BoundValue, bound_on, bounds_on, meets_all};
ghost use Rattle.mg_range.specs.Range.{inclusive_from, limit_by, limit_of, tightest};
ghost use Rattle.mg_range.specs.LentLimit.{lent_limit_view, tightened, tighter};

use mg_collate::{Direction, compare};
use mg_index::{Bound, Comparison};
use mg_normal::Atom;
use mg_path::Path;
use mg_value::Json;
use std::cmp::Ordering;

// A limit on the values of a column, with a value that an atom lends.
#[derive(Clone, Copy, Debug)]
pub(crate) struct LentLimit<'a> {
    pub(crate) value: &'a Json,
    pub(crate) inclusive: bool,
}

// Finds the limit that the bound gives from below (`Asc`) or from above (`Desc`); `None` if the bound gives none.
fn find_limit(direction: Direction, bound: Bound<'_>) -> Option<LentLimit<'_>>
    ensures { option_map lent_limit_view result
        ≡ limit_by direction bound.entry.comparison (view bound.entry.value.now) }
{
    let inclusive = inclusive_from(direction, bound.comparison)?;
    Some(LentLimit {
        value: bound.value,
        inclusive,
    })
}

// Whether the comparison allows the value itself. `None` if the comparison gives no limit from below (`Asc`) or
// from above (`Desc`).
fn inclusive_from(direction: Direction, comparison: Comparison) -> Option<bool>
    ensures { result ≡ inclusive_from direction comparison }
{
    match direction {
        Direction::Asc => match comparison {
            Comparison::Below => None,
            Comparison::AtMost => None,
            Comparison::Exactly => Some(true),
            Comparison::AtLeast => Some(true),
            Comparison::Above => Some(false),
        },
        Direction::Desc => match comparison {
            Comparison::Below => Some(false),
            Comparison::AtMost => Some(true),
            Comparison::Exactly => Some(true),
            Comparison::AtLeast => None,
            Comparison::Above => None,
        },
    }
}

// Returns the tighter of two limits from below (`Asc`) or from above (`Desc`). Of two limits with equal values, an
// exclusive one is the tighter.
fn tighter<'a>(direction: Direction, a: LentLimit<'a>, b: LentLimit<'a>) -> LentLimit<'a>
    ensures { lent_limit_view result
        ≡ tighter direction (lent_limit_view a.entry) (lent_limit_view b.entry) }
{
    match direction.apply(compare(a.value, b.value)) {
        Ordering::Less => b,
        Ordering::Equal => if a.inclusive { b } else { a },
        Ordering::Greater => a,
    }
}

// Returns the tightest limit after one more atom, where `best` is the tightest limit so far, if there is one.
fn tighten<'a>(
    direction: Direction,
    best: Option<LentLimit<'a>>,
    column: &Path,
    atom: &'a Atom,
) -> Option<LentLimit<'a>>
    ensures { (rest : List BoundValue)
        → fold (tightened direction) (option_map lent_limit_view result)
        (filter_map (limit_of direction) rest)
        ≡ fold (tightened direction) (option_map lent_limit_view best.entry)
        (filter_map (limit_of direction) (cons_option (bound_on column.now (atom_view atom.now)) rest)) }
{
    let Some(bound) = Bound::on(column, atom) else {
        return best;
    };
    let Some(limit) = find_limit(direction, bound) else {
        return best;
    };
    match best {
        None => Some(limit),
        Some(best) => Some(tighter(direction, best, limit)),
    }
}

// Finds the tightest limit that the atoms give on the column from below (`Asc`) or from above (`Desc`); `None` if
// they give no such limit.
pub(crate) fn tightest<'a>(
    direction: Direction,
    column: &Path,
    atoms: &'a [Atom],
) -> Option<LentLimit<'a>>
    ensures { option_map lent_limit_view result
        ≡ tightest direction (bounds_on (atoms_view atoms.now) column.now) }
{
    let mut best = None;
    for atom in atoms {
        best = tighten(direction, best, column, atom);
    }
    best
}

// Whether the value meets every bound that the atoms give on the column.
pub(crate) fn meets_all(column: &Path, atoms: &[Atom], value: &Json) -> bool
    ensures { result ≡ meets_all (view value.now) (bounds_on (atoms_view atoms.now) column.now) }
{
    for atom in atoms {
        if let Some(bound) = Bound::on(column, atom) {
            if !bound.comparison.allows(compare(value, bound.value)) {
                return false;
            }
        }
    }
    true
}
