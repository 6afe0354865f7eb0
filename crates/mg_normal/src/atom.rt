ghost use Rattle.std.specs.Prelude.{◌≡◌, Some};
ghost use Rattle.mg_normal.specs.Atoms.{atom_holds};
ghost use Rattle.mg_normal.specs.Normal.{all_hold};
ghost use Rattle.mg_normal.specs.View.{atom_view, atoms_view, sense_of};

use crate::prefix::{Prefix, copy_steps, has_steps, part_below};
use mg_path::Path;
use mg_selector::{Op, Sense};
use mg_value::{LentValue, NoMemory};
use std::alloc::Global;
use std::sync::Arc;

/// An operator that a selector requires in every case, with its sense, and the path to its part from the top of
/// the document. Atoms below the same path of the selector share its steps.
#[derive(Debug, Drop)]
pub struct Atom {
    pub(crate) above: Option<Arc<Prefix>>,
    /// The operator, with its argument.
    pub op: Op,
    /// Whether the sense is negated: the operator's negation has to hold.
    pub negated: bool,
}

impl Atom {
    ghost use Rattle.std.specs.Prelude.{IfOk, map, string_bytes};
    ghost use Rattle.mg_path.specs.Equal.{path_eq};

    /// Copies the steps from the top of the document to the atom's part; empty for the document itself.
    ///
    /// Errors: `NoMemory` if an allocation fails. Cost: the size of the steps.
    pub fn steps(&self, alloc: Global) -> Result<Vec<String>, NoMemory>
        ensures { IfOk result (λ steps. map string_bytes steps.items ≡ (atom_view self.now).steps) }
    {
        copy_steps(alloc, &self.above)
    }

    /// Whether the atom is on the part at the path. Takes no memory. Cost: a comparison of two paths.
    pub fn is_on(&self, path: &Path) -> bool
        ensures { result ≡ path_eq (atom_view self.now).steps path.now }
    {
        has_steps(&self.above, path.steps())
    }
}

// Whether each of the atoms holds of the document; true also without atoms.
pub(crate) fn all_hold<L: LentValue>(atoms: &[Atom], document: L) -> bool
    ensures { result ≡ all_hold (Some (L.value document)) (atoms_view atoms.now) }
{
    for atom in atoms {
        if !holds(atom, document.lend()) {
            return false;
        }
    }
    true
}

fn holds<L: LentValue>(atom: &Atom, document: L) -> bool
    ensures { result ≡ atom_holds (Some (L.value document)) (atom_view atom.now) }
{
    atom.op
        .holds_of(sense_of(atom.negated), part_below(&atom.above, document))
}

fn sense_of(negated: bool) -> Sense
    ensures { result ≡ sense_of negated }
{
    if negated {
        Sense::Negated
    } else {
        Sense::Plain
    }
}

pub(crate) fn is_negated(sense: Sense) -> bool
    ensures { sense_of result ≡ sense }
{
    match sense {
        Sense::Plain => false,
        Sense::Negated => true,
    }
}
