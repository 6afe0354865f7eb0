//! The row of a hit, lent by a shard.
ghost use Rattle.std.specs.Prelude.{◌≡◌, IfOk};
ghost use Rattle.mg_collate.specs.Row.{row_value_order, row_view};
ghost use Rattle.mg_value.specs.View.{items_view};
ghost use Rattle.mg_scan.specs.HitRow.{hit_row_view};
ghost use Rattle.mg_scan.specs.Walked.{id_row};

use mg_collate::Row;
use mg_rows::RowBytes;
use mg_value::{Json, NoMemory};
use std::alloc::Global;
use std::cmp::Ordering;

/// A row that a search found.
#[derive(Clone, Copy)]
pub(crate) enum HitRow<'a> {
    /// A row of an index.
    Bytes(&'a RowBytes),
    /// The row of this id in the index of all documents: the id is also its key.
    Id(&'a str),
}

impl<'a> HitRow<'a> {
    /// Returns the id of the row's document. Takes no memory.
    #[inline(always)]
    pub(crate) fn id(&self) -> &'a str
        ensures { result.now ≡ (hit_row_view self.now).1 }
    {
        match self {
            HitRow::Bytes(row) => row.id(),
            HitRow::Id(id) => id,
        }
    }

    /// Copies the row's key. Errors: `NoMemory` if an allocation fails. Cost: the size of the key.
    pub(crate) fn key(&self, alloc: Global) -> Result<Vec<Json>, NoMemory>
        ensures { IfOk result (λ key. items_view key.items ≡ (hit_row_view self.now).0) }
    {
        match self {
            HitRow::Bytes(row) => row.key(alloc),
            HitRow::Id(id) => id_key(alloc, id),
        }
    }

    /// Copies the row. Errors: `NoMemory` if an allocation fails. Cost: the size of the row.
    pub(crate) fn row(&self, alloc: Global) -> Result<Row, NoMemory>
        ensures { IfOk result (λ row. row_view row ≡ hit_row_view self.now) }
    {
        match self {
            HitRow::Bytes(row) => row.row(alloc),
            HitRow::Id(id) => id_row(alloc, id),
        }
    }

    /// Compares two rows: by key, then by the bytes of the id. Takes no memory.
    #[inline(always)]
    pub(crate) fn compare(&self, other: &HitRow<'a>) -> Ordering
        ensures { result ≡ row_value_order (hit_row_view self.now) (hit_row_view other.now) }
    {
        match self {
            HitRow::Bytes(row) => compare_row(row, other),
            HitRow::Id(id) => compare_id(id, other),
        }
    }
}

// Compares a row of an index to another row.
#[inline(always)]
fn compare_row(row: &RowBytes, other: &HitRow<'_>) -> Ordering
    ensures { result ≡ row_value_order row.now (hit_row_view other.now) }
{
    match other {
        HitRow::Bytes(other) => row.compare(other),
        HitRow::Id(id) => row.compare_to_id(id),
    }
}

// Compares the row of an id in the index of all documents to another row.
fn compare_id(id: &str, other: &HitRow<'_>) -> Ordering
    ensures { result ≡ row_value_order (id_row id.now) (hit_row_view other.now) }
{
    match other {
        HitRow::Bytes(other) => other.compare_to_id(id).reverse(),
        HitRow::Id(other) => id.cmp(other),
    }
}

// Makes the key that an id has in the index of all documents. Errors: `NoMemory` if an allocation fails.
fn id_key(alloc: Global, id: &str) -> Result<Vec<Json>, NoMemory>
    ensures { IfOk result (λ key. items_view key.items ≡ (id_row id.now).0) }
{
    let mut key = Vec::with_capacity(alloc, 1)?;
    key.push(Json::Text(String::from_str(alloc, id)?))?;
    Ok(key)
}

// Makes the row that an id has in the index of all documents. Errors: `NoMemory` if an allocation fails.
fn id_row(alloc: Global, id: &str) -> Result<Row, NoMemory>
    ensures { IfOk result (λ row. row_view row ≡ id_row id.now) }
{
    Ok(Row {
        key: id_key(alloc, id)?,
        id: String::from_str(alloc, id)?,
    })
}
