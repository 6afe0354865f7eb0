// Which indexes are usable for a query.
ghost use Rattle.std.specs.Prelude.{◌≡◌, [], ◌∷◌};
ghost use Rattle.std.specs.List.{list_all, list_any};
ghost use Rattle.mg_path.specs.Equal.{path_eq};
ghost use Rattle.mg_normal.specs.View.{atom_view, atoms_view};
ghost use Rattle.mg_index.specs.Choice.{is_usable, is_covered, needs_part, all_docs_usable, requires_column};

use mg_normal::Atom;
use mg_path::Path;
use mg_selector::Sense;

// Whether an index of these columns is usable for a query with these atoms and this sort.
pub(crate) fn is_usable(atoms: &[Atom], sort: &[Path], columns: &[Path]) -> bool
    ensures { result ≡ is_usable (atoms_view atoms.now) sort.now columns.now }
{
    are_covered(atoms, sort, columns) && columns.starts_with(sort)
}

fn are_covered(atoms: &[Atom], sort: &[Path], columns: &[Path]) -> bool
    ensures { result ≡ list_all (is_covered (atoms_view atoms.now) sort.now) columns.now }
{
    for column in columns {
        if !is_covered(atoms, sort, column) {
            return false;
        }
    }
    true
}

// Whether each document that the query finds must have the column.
fn is_covered(atoms: &[Atom], sort: &[Path], column: &Path) -> bool
    ensures { result ≡ is_covered (atoms_view atoms.now) sort.now column.now }
{
    is_member(column, "_id")
        || is_member(column, "_rev")
        || is_among(sort, column)
        || some_requires_column(atoms, column)
}

fn is_among(paths: &[Path], column: &Path) -> bool
    ensures { result ≡ list_any (path_eq column.now) paths.now }
{
    for path in paths {
        if column == path {
            return true;
        }
    }
    false
}

// Whether some atom fails if the column is missing.
fn some_requires_column(atoms: &[Atom], column: &Path) -> bool
    ensures { result ≡ list_any (requires_column column.now) (atoms_view atoms.now) }
{
    for atom in atoms {
        if requires_column(column, atom) {
            return true;
        }
    }
    false
}

// Whether the atom fails if the column is missing.
fn requires_column(column: &Path, atom: &Atom) -> bool
    ensures { result ≡ requires_column column.now (atom_view atom.now) }
{
    atom.is_on(column) && needs_part(atom)
}

// Whether the atom fails if its part is missing.
fn needs_part(atom: &Atom) -> bool
    ensures { result ≡ needs_part (atom_view atom.now) }
{
    let sense = if atom.negated {
        Sense::Negated
    } else {
        Sense::Plain
    };
    !atom.op.holds_in(sense, None)
}

// Whether the index of all documents is usable for the sort: there is no sort, or it is by `_id` alone.
pub(crate) fn is_all_docs_usable(sort: &[Path]) -> bool
    ensures { result ≡ all_docs_usable sort.now }
{
    match sort {
        [] => true,
        [path] => is_member(path, "_id"),
        _ => false,
    }
}

// Whether the path has one step, and the step is this name.
fn is_member(path: &Path, name: &str) -> bool
    ensures { result ≡ path_eq path.now (name.now ∷ []) }
{
    match path.steps() {
        [step] => step.as_str() == name,
        _ => false,
    }
}
