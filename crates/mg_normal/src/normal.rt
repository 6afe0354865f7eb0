ghost use Rattle.std.specs.Prelude.{◌≡◌, Some, IfOk, is_some};
ghost use Rattle.mg_value.specs.View.{view};
ghost use Rattle.mg_selector.specs.View.{selector_of};
ghost use Rattle.mg_normal.specs.Normal.{IsNormalOf, normal_holds};
ghost use Rattle.mg_normal.specs.View.{atoms_view};

use crate::atom::{Atom, all_hold};
use crate::condition::Condition;
use crate::meaning::rest_holds;
use crate::pushed::push_inwards;
use crate::rest::take_atoms;
use mg_selector::{Sel, Sense};
use mg_value::{LentValue, NoMemory};
use std::alloc::Global;
use std::marker::Model;

/// A selector in its normal form: its negations are pushed inwards until each negates an operator. The
/// atoms (operators that have to hold for the selector to hold, see `atoms`) are kept apart from the rest.
///
/// The negation of an operator is not its complement: on a missing part, neither the operator nor its negation
/// holds. `$exists` is the exception: either it or its negation holds. An empty list of arms holds in both senses.
#[derive(Debug, Drop)]
pub struct Normal {
    atoms: Vec<Atom>,
    rest: Option<Condition>,
}

impl Model for Normal {
    ghost use Rattle.mg_normal.specs.Normal.{NormalForm, normal_code};

    ghost Value = { NormalForm };

    ghost coded = { normal_code };

    ghost use Rattle.std.specs.Prelude.{option_map};
    ghost use Rattle.mg_normal.specs.View.{atoms_view, condition_of};

    ghost view = { λ n. record { atoms = atoms_view n.atoms.items; rest = option_map condition_of n.rest } };
}

impl Normal {
    /// Makes the normal form of the selector.
    ///
    /// Errors: `NoMemory` if an allocation fails. Cost: the size of the selector: each operator and each path is
    /// copied once.
    /// Source: `$not`, `$and`, `$or` and `$nor` of CouchDB's `_find`.
    pub fn of(alloc: Global, selector: &Sel) -> Result<Normal, NoMemory>
        ensures { IfOk result (λ normal. IsNormalOf (selector_of selector.now) normal) }
    {
        let condition = push_inwards(alloc, selector, Sense::Plain)?;
        let mut atoms = Vec::new(alloc);
        let rest = take_atoms(alloc, condition, &None, &mut atoms)?;
        Ok(Normal { atoms, rest })
    }

    /// Does what `holds` does, for any lent document. Takes no memory. Cost: that of `holds`.
    #[inline]
    pub fn holds_of<L: LentValue>(&self, value: L) -> bool
        ensures { result ≡ normal_holds self.now (Some (L.value value)) }
    {
        all_hold(&self.atoms, value.lend()) && rest_holds(self.rest.as_ref(), value)
    }

    /// Returns the atoms: operators that have to hold for the selector to hold, in reading order.
    ///
    /// An operator is an atom if nothing is around it but paths, `$not`, and lists that need every arm: an object,
    /// `$and` and `$nor` in the plain sense, and `$or` in the negated sense. An object of one member counts as that
    /// member in both senses. Operators inside any other list are not atoms, even if it has only one arm. Operators
    /// inside `$elemMatch` and `$allMatch` are left out: `$elemMatch` and `$allMatch` are atoms themselves.
    ///
    /// Takes no memory. Cost: constant.
    pub fn atoms(&self) -> &[Atom]
        ensures { atoms_view result.now ≡ self.now.atoms }
    {
        &self.atoms
    }

    /// Whether the selector requires anything besides its atoms. Takes no memory. Cost: constant.
    pub fn has_rest(&self) -> bool
        ensures { result ≡ is_some self.now.rest }
    {
        self.rest.is_some()
    }
}
