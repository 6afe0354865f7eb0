//! Rows as elements of pages.
use crate::hint::row_hint;
use crate::row::RowBytes;
use mg_pages::{Element, Keyed};
use mg_value::NoMemory;
use std::alloc::AllocError;
use std::cmp::Ordering;

impl Element for RowBytes {
    #[inline(always)]
    fn again(&self) -> Result<RowBytes, AllocError> {
        match RowBytes::again(self) {
            Ok(row) => Ok(row),
            Err(NoMemory) => Err(AllocError),
        }
    }

    #[inline(always)]
    fn push_again(&self, list: &mut Vec<RowBytes>) -> Result<(), AllocError> {
        match self.copy_inline() {
            Some(row) => list.push_reserved(row),
            None => list.push_reserved(Element::again(self)?),
        }
        Ok(())
    }

    #[inline(always)]
    fn owners(&self) -> usize {
        self.owners()
    }
}

impl Keyed for RowBytes {
    ghost use Rattle.mg_collate.specs.Row.{row_value_order, row_value_order_total};

    ghost order = { row_value_order };

    ghost total = { row_value_order_total };

    fn hint(&self) -> u64 {
        row_hint(self.as_bytes())
    }

    fn order(&self, other: &RowBytes) -> Ordering {
        self.compare(other)
    }
}
