use crate::edge::Edge;
use crate::hint::bound_hint;
use crate::row::RowBytes;
use crate::write::write_columns;
use mg_value::{Json, NoMemory};
use std::alloc::Global;
use std::cmp::Ordering;
use std::marker::Model;

// A byte above every byte that can follow a value of a key in a row: a type is at most 7, and the end of a key is 0.
const ABOVE_ALL: u8 = 255;

ghost use Rattle.std.specs.Prelude.{◌≡◌, ◌++◌, OnOk};
ghost use Rattle.mg_rows.specs.RowBound.{edge_bytes};
ghost use Rattle.mg_rows.specs.StandsFor.{BoundOf, BoundOf-prop};

/// A bound among rows: before or after all rows whose key begins with some values. Contracts see the edge and the
/// values.
#[derive(Drop)]
pub struct RowBound {
    bytes: Vec<u8>,
    ghost place: { BoundOf bytes.items } by { BoundOf-prop bytes.items },
}

impl Model for RowBound {
    ghost use Rattle.mg_value.specs.Value.{Items};
    ghost use Rattle.mg_rows.specs.declared.edge.Edge.{Edge as Side};
    ghost use Rattle.mg_rows.specs.Code.{bound_code};

    ghost Value = { Side × Items };

    ghost coded = { bound_code };

    ghost view = { λ bound. bound.place.0 };
}

impl RowBound {
    ghost use Rattle.std.specs.Prelude.{IfOk};
    ghost use Rattle.mg_value.specs.Value.{Items};
    ghost use Rattle.mg_value.specs.View.{items_view};
    ghost use Rattle.mg_rows.specs.Bytes.{bytes_order, columns_before, row_bytes};
    ghost use Rattle.mg_rows.specs.RowBound.{bound_order};
    ghost use Rattle.mg_rows.specs.Stored.{IsKey};

    /// Makes the bound before or after all rows whose key begins with these values. Without values, the bound is
    /// before or after all rows.
    ///
    /// Errors: `NoMemory` if an allocation fails. Cost: the size of the values.
    pub fn at(alloc: Global, values: &[Json], edge: Edge) -> Result<RowBound, NoMemory>
        ensures { IfOk result (λ bound. bound ≡ (edge, items_view values.now)) }
    {
        let mut column_bytes = Vec::new(alloc);
        write_columns(values, &mut column_bytes)?;
        RowBound::of_bytes(column_bytes, edge)
    }

    // Makes a bound from the bytes of its values.
    pub(crate) fn of_bytes(column_bytes: Vec<u8>, edge: Edge) -> Result<RowBound, NoMemory>
        requires { (values : Items) × IsKey column_bytes.items values }
        ensures { (values : Items) → IsKey column_bytes.items values
            → IfOk result (λ bound. bound ≡ (edge, values)) }
    {
        let mut bytes = column_bytes;
        write_edge(edge, &mut bytes)?;
        Ok(RowBound { bytes })
    }

    /// Compares the bound with a row: `Less` if the bound is before the row, `Greater` if it is after the row, and never
    /// `Equal`. Compares bytes, and takes no memory. Cost: up to the first difference.
    #[inline(always)]
    pub fn against(&self, row: &RowBytes) -> Ordering
        ensures bytes { result
            ≡ bytes_order (columns_before self.now.1 (edge_bytes self.now.0)) (row_bytes row.now) }
        ensures rows { result ≡ bound_order self.now.0 self.now.1 row.now }
    {
        self.bytes.as_slice().cmp(row.as_bytes())
    }

    /// Returns the hint of the bound, which says where a search among the hints of rows begins. Takes no memory. Cost:
    /// constant, or the length of the first value if that is a string.
    pub fn hint(&self) -> u64 {
        bound_hint(self.bytes.as_slice())
    }
}

// Appends, after the values of a bound, the byte that stands for the edge; `Before` has no such byte.
fn write_edge(edge: Edge, bytes: &mut Vec<u8>) -> Result<(), NoMemory>
    ensures { OnOk result (bytes.new.items ≡ bytes.old.items ++ edge_bytes edge) }
{
    match edge {
        Edge::Before => Ok(()),
        Edge::After => {
            bytes.push(ABOVE_ALL)?;
            Ok(())
        }
    }
}
