ghost use Rattle.std.specs.Prelude.{◌≡◌, ◌≤◌, length, option_map};
ghost use Rattle.std.specs.List.{find};
ghost use Rattle.mg_value.specs.View.{view};
ghost use Rattle.mg_selector.specs.View.{operator_of};
ghost use Rattle.mg_normal.specs.View.{atom_view, atoms_view, sense_of};
ghost use Rattle.mg_index.specs.Bound.{allows, bound_by, bound_in, bound_on, bounds_on, is_exact, is_fixed, is_bounded, bounded_count};

use mg_normal::Atom;
use mg_path::Path;
use mg_selector::Op;
use mg_value::Json;
use std::cmp::Ordering;

/// How the values that meet a bound compare with the bound's value, in the collation order.
#[derive(Clone, Copy, PartialEq, Eq, Debug, Drop)]
pub enum Comparison {
    Below,
    AtMost,
    Exactly,
    AtLeast,
    Above,
}

impl Comparison {
    /// Whether the comparison allows a value that has this order to the bound's value. Takes no memory.
    pub fn allows(self, order: Ordering) -> bool
        ensures { result ≡ allows self order }
    {
        match self {
            Comparison::Below => order.is_lt(),
            Comparison::AtMost => order.is_le(),
            Comparison::Exactly => order.is_eq(),
            Comparison::AtLeast => order.is_ge(),
            Comparison::Above => order.is_gt(),
        }
    }
}

/// A bound on the values of a column: how an atom of a selector requires them to compare with a value.
#[derive(Clone, Copy, Debug, Drop)]
pub struct Bound<'a> {
    /// How the values of the column have to compare with the bound's value.
    pub comparison: Comparison,
    /// The value, lent by the atom.
    pub value: &'a Json,
}

impl<'a> Bound<'a> {
    /// Finds the bound that the atom gives on the column; `None` if it gives no bound. The atom gives one if it is
    /// on the part at the column's path and its operator is one of these: in the plain sense `$lt`, `$lte`, `$eq`,
    /// `$gte` or `$gt`; in the negated sense `$lt`, `$lte`, `$gte` or `$gt`, which give the bounds of their
    /// opposites, or `$ne`, which gives the bound of `$eq`. Takes no memory. Cost: a comparison of two paths.
    pub fn on(column: &Path, atom: &'a Atom) -> Option<Bound<'a>>
        ensures { option_map (λ b. bound_by b.comparison (view b.value.now)) result
            ≡ bound_on column.now (atom_view atom.now) }
    {
        if atom.is_on(column) {
            bound_of(&atom.op, atom.negated)
        } else {
            None
        }
    }
}

// Finds the bound that the operator gives in the negated or the plain sense; `None` if it gives no bound.
fn bound_of(op: &Op, negated: bool) -> Option<Bound<'_>>
    ensures { option_map (λ b. bound_by b.comparison (view b.value.now)) result
        ≡ bound_in (sense_of negated) (operator_of op.now) }
{
    let (value, plain, opposite) = match op {
        Op::Lt(value) => (value, Some(Comparison::Below), Some(Comparison::AtLeast)),
        Op::Lte(value) => (value, Some(Comparison::AtMost), Some(Comparison::Above)),
        Op::Eq(value) => (value, Some(Comparison::Exactly), None),
        Op::Ne(value) => (value, None, Some(Comparison::Exactly)),
        Op::Gte(value) => (value, Some(Comparison::AtLeast), Some(Comparison::Below)),
        Op::Gt(value) => (value, Some(Comparison::Above), Some(Comparison::AtMost)),
        Op::Exists(_) | Op::Type(_) | Op::In(_) | Op::Nin(_) | Op::Size(_) => return None,
        Op::Mod(_, _) | Op::All(_) | Op::ElemMatch(_) | Op::AllMatch(_) => return None,
    };
    let comparison = if negated { opposite? } else { plain? };
    Some(Bound { comparison, value })
}

/// Counts the bounded columns: the leading ones whose value the atoms fix, and the next one if the atoms give a
/// bound on it. Takes no memory. Cost: the columns times the atoms.
pub fn bounded_count(columns: &[Path], atoms: &[Atom]) -> usize
    ensures count { result ≡ bounded_count (atoms_view atoms.now) columns.now }
    ensures within { result ≤ length columns.now }
{
    for (place, column) in columns.iter().enumerate() {
        if !is_fixed(column, atoms) {
            return place + usize::from(is_bounded(column, atoms));
        }
    }
    columns.len()
}

/// Finds the first value that an atom requires the column to equal; `None` if no atom requires one. Takes no
/// memory. Cost: at most one comparison of paths for each atom.
pub fn fixed_value<'a>(column: &Path, atoms: &'a [Atom]) -> Option<&'a Json>
    ensures { option_map (λ v. bound_by Comparison.Exactly (view v.now)) result
        ≡ find is_exact (bounds_on (atoms_view atoms.now) column.now) }
{
    for atom in atoms {
        if let Some(bound) = Bound::on(column, atom) {
            if bound.comparison == Comparison::Exactly {
                return Some(bound.value);
            }
        }
    }
    None
}

#[tactic(auto, using(crate::proofs::Bounds::some_found))]
fn is_fixed(column: &Path, atoms: &[Atom]) -> bool
    ensures { result ≡ is_fixed (atoms_view atoms.now) column.now }
{
    fixed_value(column, atoms).is_some()
}

fn is_bounded(column: &Path, atoms: &[Atom]) -> bool
    ensures { result ≡ is_bounded (atoms_view atoms.now) column.now }
{
    for atom in atoms {
        if Bound::on(column, atom).is_some() {
            return true;
        }
    }
    false
}
