//! A key that is moved just past the element that it ties with.
use crate::keyed::{Keyed, Probe};
use std::cmp::Ordering;

/// The key, moved just past the element that it ties with, if there is one.
#[derive(Drop)]
pub struct Over<'a, Q> {
    pub key: &'a Q,
}

impl<'a, T: Keyed, Q: Probe<T>> Probe<T> for Over<'a, Q> {
    ghost use Rattle.mg_pages.specs.Order.{over, probe_over};

    ghost against = { λ o t. over (Q.against o.key.now t) };

    ghost probes = { λ o. probe_over T.order (Q.against o.key.now) (Q.probes o.key.now) };

    fn hint(&self) -> u64 {
        self.key.hint()
    }

    fn against(&self, element: &T) -> Ordering {
        match self.key.against(element) {
            Ordering::Less => Ordering::Less,
            _ => Ordering::Greater,
        }
    }
}
