use crate::order::compare_keys;
use mg_value::{Json, NoMemory, copy_items};
use std::alloc::Global;
use std::cmp::Ordering;

/// A row of an index: the values of its columns, and the id of the document that has them.
///
/// Rows are ordered by key, as `compare_keys` orders keys, and rows of equal keys by the bytes of their ids.
/// Two rows are equal if and only if their keys and their ids are equal.
#[derive(Debug, Drop)]
pub struct Row {
    pub key: Vec<Json>,
    pub id: String,
}

impl Row {
    ghost use Rattle.std.specs.Prelude.{◌≡◌, IfOk};
    ghost use Rattle.mg_collate.specs.Row.{row_view};

    /// Copies the row deeply: the copy shares no memory with it.
    ///
    /// Errors: `NoMemory` if an allocation fails. Cost: that of `copy_items` on the key, and the length of the id.
    pub fn copy(&self, alloc: Global) -> Result<Row, NoMemory>
        ensures { IfOk result (λ row. row_view row ≡ row_view self.now) }
    {
        Ok(Row {
            key: copy_items(alloc, &self.key)?,
            id: self.id.clone()?,
        })
    }
}

impl PartialEq for Row {
    ghost use Rattle.std.specs.Ordering.{eq_by_cmp};
    ghost use Rattle.mg_collate.specs.Row.{row_order, row_eq_laws};

    ghost eq = { eq_by_cmp row_order };

    ghost laws = { row_eq_laws };

    fn eq(&self, other: &Row) -> bool {
        self.cmp(other) == Ordering::Equal
    }
}

impl Eq for Row {
    ghost use Rattle.mg_collate.specs.Row.{row_equivalence};

    ghost laws = { row_equivalence };
}

impl PartialOrd for Row {
    ghost use Rattle.std.specs.Ordering.{as_partial_cmp};
    ghost use Rattle.mg_collate.specs.Row.{row_order, row_partial_laws};

    ghost partial_cmp = { as_partial_cmp row_order };

    ghost laws = { row_partial_laws };

    fn partial_cmp(&self, other: &Row) -> Option<Ordering> {
        Some(self.cmp(other))
    }
}

impl Ord for Row {
    ghost use Rattle.std.proofs.Common.{refl};
    ghost use Rattle.mg_collate.specs.Row.{row_order, row_order_total};

    ghost cmp = { row_order };

    ghost total = { row_order_total };

    ghost matches_partial_cmp = { λ _ _. refl };

    ghost matches_eq = { λ _ _. refl };

    fn cmp(&self, other: &Row) -> Ordering {
        compare_keys(&self.key, &other.key).then(self.id.as_str().cmp(other.id.as_str()))
    }
}
