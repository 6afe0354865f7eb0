//! The order of elements, and the keys by which they are found.
ghost use Rattle.std.specs.Prelude.{◌≡◌};
ghost use Rattle.std.specs.Cmp.{IsTotalOrder};
ghost use Rattle.std.specs.Ordering.{is_eq};
ghost use Rattle.std.specs.declared.cmp.Ordering.{Ordering};
ghost use Rattle.mg_pages.specs.Order.{IsProbe};

use crate::element::Element;
use std::cmp::Ordering;

/// Elements with a total order. Of elements that tie, a collection has at most one.
pub trait Keyed: Element {
    // the order
    ghost order: { Self → Self → Ordering };

    /// Returns the hint: a number that says where searches begin. It should never fall as elements ascend: a hint that falls costs time,
    /// but changes no result.
    fn hint(&self) -> u64 {
        0
    }

    /// Compares two elements. Takes no memory.
    fn order(&self, other: &Self) -> Ordering
        ensures { result ≡ order self.now other.now };

    ghost total: { IsTotalOrder order };
}

/// A key by which elements are looked up: it has one place in their order, where it may tie with an element.
///
/// A key need not be an element: a borrowed id is a key, and so is the start of a range.
pub trait Probe<T: Keyed> {
    // the order of the key against an element
    ghost against: { Self → T → Ordering };

    /// Returns the hint of the key: a number that says where a search begins. It should be no less than the hints of the elements below
    /// the key, and no greater than the hints of the elements above the key; otherwise a search takes longer, with no other result.
    fn hint(&self) -> u64 {
        0
    }

    /// Compares the key with an element: `Less` if the key is below the element. Takes no memory.
    fn against(&self, element: &T) -> Ordering
        ensures { result ≡ against self.now element.now };

    /// Whether the key ties with an element. Takes no memory. A type overrides this method if its test is faster than a comparison.
    fn ties(&self, element: &T) -> bool
        ensures { result ≡ is_eq (against self.now element.now) }
    {
        self.against(element).is_eq()
    }

    ghost probes: { (key : Self) → IsProbe T.order (against key) };
}

/// An element is a key too.
impl<T: Keyed> Probe<T> for T {
    ghost use Rattle.mg_pages.specs.Order.{probe_from_total};

    ghost against = { T.order };

    ghost probes = { probe_from_total T.total };

    fn hint(&self) -> u64 {
        <T as Keyed>::hint(self)
    }

    fn against(&self, element: &T) -> Ordering {
        self.order(element)
    }
}
