//! Elements that are ordered by an id.
ghost use Rattle.std.specs.Prelude.{◌≡◌, ℕ, List, IfOk};

use crate::element::Shared;
use crate::hint::text_hint;
use crate::keyed::{Keyed, Probe};
use mg_value::NoMemory;
use std::alloc::Global;
use std::cmp::Ordering;
use std::sync::Arc;

/// Values that have an id. `Shared` makes such a value an element; the elements are in the order of their ids, byte by byte.
pub trait Identified: Drop {
    // the bytes of the id
    ghost id: { Self → List ℕ };

    /// Lends the id. Takes no memory.
    fn id(&self) -> &str
        ensures { result.now ≡ id self.now };
}

impl<X: Identified> Shared<X> {
    /// Puts the value into a block of its own. Errors: `NoMemory` if the allocation fails.
    pub fn new(alloc: Global, value: X) -> Result<Shared<X>, NoMemory>
        ensures { IfOk result (λ s. s ≡ value) }
    {
        let hint = text_hint(value.id());
        let arc = Arc::new(alloc, value)?;
        Ok(Shared { arc, hint })
    }
}

impl<X: Identified> Keyed for Shared<X> {
    ghost use Rattle.mg_pages.specs.Identified.{id_order, id_order_total};

    ghost order = { id_order X.id };

    ghost total = { id_order_total X.id };

    fn hint(&self) -> u64 {
        self.hint
    }

    fn order(&self, other: &Shared<X>) -> Ordering {
        self.get().id().cmp(other.get().id())
    }
}

impl<'a, X: Identified> Probe<Shared<X>> for &'a str {
    ghost use Rattle.mg_pages.specs.Identified.{id_against, id_probes};

    ghost against = { λ key x. id_against X.id key.now x };

    ghost probes = { λ key. id_probes X.id key.now };

    fn hint(&self) -> u64 {
        text_hint(self)
    }

    fn against(&self, element: &Shared<X>) -> Ordering {
        (*self).cmp(element.get().id())
    }

    fn ties(&self, element: &Shared<X>) -> bool {
        *self == element.get().id()
    }
}
