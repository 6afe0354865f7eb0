ghost use Rattle.mg_rows.specs.StandsFor.{KeyOf, KeyOf-prop};

use crate::edge::Edge;
use crate::row::RowBytes;
use crate::row_bound::RowBound;
use crate::write::write_column;
use mg_value::{LentValue, NoMemory};
use std::alloc::Global;
use std::marker::Model;

/// The bytes of a key, which is built value by value and made into rows. Contracts see its values.
///
/// `KeyBytes` is a buffer for reuse: it keeps its room when it is cleared. A further key takes memory only if it needs
/// more room than all keys before.
#[derive(Drop)]
pub struct KeyBytes {
    bytes: Vec<u8>,
    ghost key: { KeyOf bytes.items } by { KeyOf-prop bytes.items },
}

impl Model for KeyBytes {
    ghost use Rattle.mg_value.specs.Value.{Items};
    ghost use Rattle.mg_value.specs.Code.{items_code};

    ghost Value = { Items };

    ghost coded = { items_code };

    ghost view = { λ k. k.key.0 };
}

impl KeyBytes {
    ghost use Rattle.std.specs.Prelude.{◌≡◌, IfOk, OnOk, OnErr};
    ghost use Rattle.mg_value.specs.Value.{no_items, item};
    ghost use Rattle.mg_rows.specs.Laws.{joined_items};

    /// Makes the empty key. Takes no memory.
    pub fn new(alloc: Global) -> KeyBytes
        ensures { result ≡ no_items }
    {
        KeyBytes {
            bytes: Vec::new(alloc),
        }
    }

    /// Removes all values, and keeps the room.
    pub fn clear(&mut self)
        ensures { self.new ≡ no_items }
    {
        self.bytes.clear();
    }

    /// Appends the value of the next column.
    ///
    /// Errors: `NoMemory` if an allocation fails; then the key is empty. Cost: the size of the value.
    pub fn push<L: LentValue>(&mut self, value: L) -> Result<(), NoMemory>
        ensures pushed { OnOk result
            (self.new ≡ joined_items self.old (item (L.value value) no_items)) }
        ensures refused { OnErr result (self.new ≡ no_items) }
    {
        write_column(value, &mut self.bytes)?;
        Ok(())
    }

    /// Makes the row of the key and the id of a document. A row of up to 29 bytes takes no memory.
    ///
    /// Errors: `NoMemory` if an allocation fails. Cost: the size of the key and the id.
    pub fn row(&self, alloc: Global, id: &str) -> Result<RowBytes, NoMemory>
        ensures { IfOk result (λ row. row ≡ (self.now, id.now)) }
    {
        RowBytes::of_columns(alloc, self.bytes.as_slice(), id)
    }

    /// Makes the bound before or after all rows whose key begins with these values. The bound takes over the bytes of
    /// the key.
    ///
    /// Errors: `NoMemory` if an allocation fails; then the key is dropped. Cost: constant, or a copy of the bytes if there
    /// is no room for one more.
    pub fn into_bound(self, edge: Edge) -> Result<RowBound, NoMemory>
        ensures { IfOk result (λ bound. bound ≡ (edge, self)) }
    {
        RowBound::of_bytes(self.bytes, edge)
    }
}
