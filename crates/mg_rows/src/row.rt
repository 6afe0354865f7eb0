ghost use Rattle.mg_rows.specs.StandsFor.{RowOf, RowOf-prop};

use crate::error::DecodeError;
use crate::id_row::against_id_row;
use crate::read::read_key;
use crate::split::SplitBytes;
use crate::write::write_columns;
use mg_collate::Row;
use mg_value::{Json, NoMemory};
use std::alloc::Global;
use std::cmp::Ordering;
use std::marker::Model;

// The first size of the buffer, in bytes: most keys fit.
const FIRST_ROOM: usize = 64;

// The byte that ends a key: below every type.
const KEY_END: u8 = 0;

/// A row of an index as one string of bytes: the values of its columns, and then the id of its document. Contracts
/// see the row.
///
/// The order of the bytes is the order of rows: by key, as `mg_collate::compare_keys` orders keys, and rows of equal
/// keys by the bytes of the id. A `RowBytes` takes 32 bytes of memory, and stores up to 29 bytes of a row in itself;
/// the bytes of a longer row are in a block that copies share. The bytes of a row are, for each column, the type of
/// the value (null 1, false 2, true 3, numbers 4, strings 5, arrays 6, objects 7) and what the value holds, then 0,
/// and then the id. A number takes 9 bytes, and a string takes two more than its own.
///
/// Source: the order of JSON types in CouchDB's view collation, in an order-preserving encoding of tuples.
#[derive(Drop)]
pub struct RowBytes {
    bytes: SplitBytes,
    ghost row: { RowOf bytes } by { RowOf-prop bytes },
}

impl Model for RowBytes {
    ghost use Rattle.mg_collate.specs.Row.{RowValue};
    ghost use Rattle.mg_rows.specs.Code.{row_code};

    ghost Value = { RowValue };

    ghost coded = { row_code };

    ghost view = { λ r. r.row.0 };
}

impl RowBytes {
    ghost use Rattle.std.specs.Prelude.{◌≡◌, IfOk, IfSome};
    ghost use Rattle.mg_value.specs.Value.{Items, no_items, item, text};
    ghost use Rattle.mg_value.specs.View.{items_view};
    ghost use Rattle.mg_collate.specs.Row.{row_view, row_value_order};
    ghost use Rattle.mg_rows.specs.Bytes.{bytes_order, row_bytes};
    ghost use Rattle.mg_rows.specs.Stored.{IsKey, IsStoredRow};

    /// Makes the row of a key, with one value for each column, and the id of a document.
    ///
    /// Errors: `NoMemory` if an allocation fails. Cost: the size of the key and the id, and a buffer, which `KeyBytes`
    /// saves for many rows.
    pub fn of(alloc: Global, key: &[Json], id: &str) -> Result<RowBytes, NoMemory>
        ensures { IfOk result (λ row. row ≡ (items_view key.now, id.now)) }
    {
        let mut column_bytes = Vec::with_capacity(alloc, FIRST_ROOM)?;
        write_columns(key, &mut column_bytes)?;
        RowBytes::of_columns(alloc, &column_bytes, id)
    }

    // Makes a row from the bytes of its columns' values.
    pub(crate) fn of_columns(
        alloc: Global,
        column_bytes: &[u8],
        id: &str,
    ) -> Result<RowBytes, NoMemory>
        requires { (key : Items) × IsKey column_bytes.now key }
        ensures { (key : Items) → IsKey column_bytes.now key
            → IfOk result (λ row. row ≡ (key, id.now)) }
    {
        let bytes = SplitBytes::of(alloc, column_bytes, KEY_END, id.as_bytes())?;
        Ok(RowBytes { bytes })
    }

    /// Duplicates the row: copies up to 29 bytes, and shares the block of a longer row. Takes no memory.
    ///
    /// Errors: `NoMemory` if the block of a longer row has 2^63 - 1 owners. Cost: constant.
    #[inline(always)]
    pub fn again(&self) -> Result<RowBytes, NoMemory>
        ensures { IfOk result (λ row. row ≡ self.now) }
    {
        let bytes = self.bytes.again()?;
        Ok(RowBytes { bytes })
    }

    // Copies a row that has no block; `None` if it has one.
    #[inline(always)]
    pub(crate) fn copy_inline(&self) -> Option<RowBytes>
        ensures { IfSome result (λ row. row ≡ self.now) }
    {
        match self.bytes.copy_inline() {
            Some(bytes) => Some(RowBytes { bytes }),
            None => None,
        }
    }

    /// Compares two rows: by key, and rows of equal keys by id. Compares bytes, and takes no memory. Cost: up to the first
    /// difference.
    #[inline(always)]
    pub fn compare(&self, other: &RowBytes) -> Ordering
        ensures bytes { result ≡ bytes_order (row_bytes self.now) (row_bytes other.now) }
        ensures rows { result ≡ row_value_order self.now other.now }
    {
        self.as_bytes().cmp(other.as_bytes())
    }

    /// Compares the row with this id's row in the index of all documents; the key of that row is the id alone. Takes
    /// no memory. Cost: up to the first difference.
    pub fn compare_to_id(&self, id: &str) -> Ordering
        ensures { result ≡ row_value_order self.now (item (text id.now) no_items, id.now) }
    {
        against_id_row(self.as_bytes(), id)
    }

    /// Lends the bytes of the row. Takes no memory.
    #[inline(always)]
    pub fn as_bytes(&self) -> &[u8]
        ensures bytes { result.now ≡ row_bytes self.now }
        ensures stored { IsStoredRow self.now }
    {
        self.bytes.bytes()
    }

    /// Lends the id of the row's document. Takes no memory. Cost: constant.
    #[inline(always)]
    pub fn id(&self) -> &str
        ensures { result.now ≡ self.now.1 }
    {
        let (_, id) = self.bytes.parts();
        unsafe { str::from_utf8_unchecked(id) }
    }

    /// Reads the values of the row's columns.
    ///
    /// Errors: `NoMemory` if an allocation fails.
    /// Cost: the size of the key, and for each object its members times the logarithm of their count.
    pub fn key(&self, alloc: Global) -> Result<Vec<Json>, NoMemory>
        ensures { IfOk result (λ key. items_view key.items ≡ self.now.0) }
    {
        let (key, _) = self.bytes.parts();
        match read_key(alloc, key) {
            Ok(values) => Ok(values),
            Err(DecodeError::NoMemory) => Err(NoMemory),
            Err(DecodeError::NotStored) => unreachable!(),
        }
    }

    /// Reads the row: its values and its id.
    ///
    /// Errors: `NoMemory` if an allocation fails. Cost: that of `key`, and the length of the id.
    pub fn row(&self, alloc: Global) -> Result<Row, NoMemory>
        ensures { IfOk result (λ row. row_view row ≡ self.now) }
    {
        let key = self.key(alloc)?;
        let id = String::from_str(alloc, self.id())?;
        Ok(Row { key, id })
    }

    // Counts the copies that share the row's block, with this one; 0 if it has no block.
    #[inline(always)]
    pub(crate) fn owners(&self) -> usize {
        self.bytes.owners()
    }
}

impl PartialEq for RowBytes {
    ghost use Rattle.std.specs.Ordering.{eq_by_cmp};
    ghost use Rattle.mg_collate.specs.Row.{row_value_order};
    ghost use Rattle.mg_rows.specs.Order.{row_value_eq_laws};

    ghost eq = { eq_by_cmp row_value_order };

    ghost laws = { row_value_eq_laws };

    fn eq(&self, other: &RowBytes) -> bool {
        self.cmp(other) == Ordering::Equal
    }
}

impl Eq for RowBytes {
    ghost use Rattle.mg_rows.specs.Order.{row_value_equivalence};

    ghost laws = { row_value_equivalence };
}

impl PartialOrd for RowBytes {
    ghost use Rattle.std.specs.Ordering.{as_partial_cmp};
    ghost use Rattle.mg_collate.specs.Row.{row_value_order};
    ghost use Rattle.mg_rows.specs.Order.{row_value_partial_laws};

    ghost partial_cmp = { as_partial_cmp row_value_order };

    ghost laws = { row_value_partial_laws };

    fn partial_cmp(&self, other: &RowBytes) -> Option<Ordering> {
        Some(self.cmp(other))
    }
}

impl Ord for RowBytes {
    ghost use Rattle.std.proofs.Common.{refl};
    ghost use Rattle.mg_collate.specs.Row.{row_value_order, row_value_order_total};

    ghost cmp = { row_value_order };

    ghost total = { row_value_order_total };

    ghost matches_partial_cmp = { λ _ _. refl };

    ghost matches_eq = { λ _ _. refl };

    fn cmp(&self, other: &RowBytes) -> Ordering {
        self.compare(other)
    }
}
