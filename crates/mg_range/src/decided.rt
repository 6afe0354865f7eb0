// Whether a range decides the atoms of a selector.
ghost use Rattle.std.specs.Prelude.{◌≡◌, take};
ghost use Rattle.mg_normal.specs.View.{atom_view, atoms_view};
ghost use Rattle.mg_index.specs.Bound.{bounded_count};
ghost use Rattle.mg_range.specs.Decided.{bounds_one, decides_of};

use mg_index::{Bound, bounded_count};
use mg_normal::Atom;
use mg_path::Path;

/// Whether the range that the atoms give an index of these columns decides every atom, so that a document's
/// key shows whether all of them hold. The range decides the atoms that give a bound on a bounded column, and no
/// others. The bounded columns are the leading ones that an `$eq` or a negated `$ne` bounds, and the next one if
/// any atom bounds it. True without atoms. Takes no memory. Cost: the columns times the atoms.
pub fn decides(columns: &[Path], atoms: &[Atom]) -> bool
    ensures { result ≡ decides_of (atoms_view atoms.now) columns.now }
{
    let bounded = bounded_columns(columns, atoms);
    for atom in atoms {
        if !bounds_one(bounded, atom) {
            return false;
        }
    }
    true
}

// Returns the bounded columns: the leading ones whose value the atoms fix, and the next one if the atoms bound it.
fn bounded_columns<'a>(columns: &'a [Path], atoms: &[Atom]) -> &'a [Path]
    ensures { result.now ≡ take (bounded_count (atoms_view atoms.now) columns.now) columns.now }
{
    &columns[..bounded_count(columns, atoms)]
}

// Whether the atom gives a bound on one of the columns.
fn bounds_one(columns: &[Path], atom: &Atom) -> bool
    ensures { result ≡ bounds_one columns.now (atom_view atom.now) }
{
    for column in columns {
        if Bound::on(column, atom).is_some() {
            return true;
        }
    }
    false
}
