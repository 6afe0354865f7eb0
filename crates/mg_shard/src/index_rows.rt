//! The rows of an index in a shard: how a document's row is made, and how the rows are mended when a document changes.
ghost use Rattle.std.specs.Prelude.{◌≡◌, IfOk, None, OnOk, Some, cond, option_map, true};
ghost use Rattle.std.specs.Arc.{arc_value};
ghost use Rattle.std.specs.FinMap.{insert};
ghost use Rattle.mg_collate.specs.Row.{row_value_order, rows_view};
ghost use Rattle.mg_pages.specs.Order.{Ascends};
ghost use Rattle.mg_shard.specs.Documents.{KeptDocument, KeptDocuments, docs_of, form_at};
ghost use Rattle.mg_shard.specs.Mended.{HaveSameRow, own_row, with_row, without_row};
ghost use Rattle.mg_shard.specs.Rows.{row_key, row_of, rows_of};

use mg_collate::Row;
use mg_index::IndexDef;
use mg_packed::{Kind, Packed, Part};
use mg_pages::Pages;
use mg_path::Path;
use mg_rows::{KeyBytes, RowBytes};
use mg_value::NoMemory;
use std::alloc::Global;
use std::sync::Arc;

// Clears the lent scratch and pushes the document's part at each column. Returns whether the document has every column; if not, the
// scratch holds only some of the parts.
fn key_in(scratch: &mut KeyBytes, columns: &[Path], form: &Part<'_>) -> Result<bool, NoMemory>
    ensures { IfOk result (λ all. cond all (Some scratch.new) None ≡ row_key columns.now form.now) }
{
    scratch.clear();
    for column in columns {
        match form.get(column) {
            Some(part) => scratch.push(part)?,
            None => return Ok(false),
        }
    }
    Ok(true)
}

/// Makes the row of a document in an index with these columns; `None` if the document lacks a column. The key is built in the lent scratch.
///
/// Errors: `NoMemory` if an allocation fails. Cost: the bytes of the key, and a block of memory if the row is too long to be stored
/// in the value itself.
pub(crate) fn row_in(
    alloc: Global,
    scratch: &mut KeyBytes,
    columns: &[Path],
    id: &str,
    form: &Part<'_>,
) -> Result<Option<RowBytes>, NoMemory>
    ensures { IfOk result (λ row. row ≡ row_of columns.now (id.now, form.now)) }
{
    if key_in(scratch, columns, form)? {
        return Ok(Some(scratch.row(alloc, id)?));
    }
    Ok(None)
}

// Makes the row of a document; `None` if the document is deleted or lacks a column.
fn row_if(
    alloc: Global,
    scratch: &mut KeyBytes,
    columns: &[Path],
    id: &str,
    form: Option<&Packed>,
) -> Result<Option<RowBytes>, NoMemory>
    ensures { IfOk result (λ row. row
        ≡ own_row columns.now id.now (option_map (λ v. v.now) form.entry)) }
{
    match form {
        Some(form) => Ok(row_in(alloc, scratch, columns, id, &form.part())?),
        None => Ok(None),
    }
}

// Whether two parts are known to be equal. Equal parts may give `false`: arrays and objects are not compared.
fn is_same(part: Part<'_>, other: Part<'_>) -> bool
    ensures { result ≡ true → part.entry ≡ other.entry }
{
    match (part.kind(), other.kind()) {
        (Kind::Null, Kind::Null) => true,
        (Kind::Flag(flag), Kind::Flag(other)) => flag == other,
        (Kind::Whole(number), Kind::Whole(other)) => number == other,
        (Kind::Text(text), Kind::Text(other)) => text == other,
        _ => false,
    }
}

// Whether two parts are known to be equal, or both are missing.
fn are_same(part: Option<Part<'_>>, other: Option<Part<'_>>) -> bool
    ensures { result ≡ true → part.entry ≡ other.entry }
{
    match (part, other) {
        (Some(part), Some(other)) => is_same(part, other),
        (None, None) => true,
        _ => false,
    }
}

// Whether two forms are known to have, at each column, equal parts or no part. Takes no memory.
fn have_same_key(columns: &[Path], form: &Part<'_>, other: &Part<'_>) -> bool
    ensures { result ≡ true → row_key columns.now form.now ≡ row_key columns.now other.now }
{
    for column in columns {
        if !are_same(form.get(column), other.get(column)) {
            return false;
        }
    }
    true
}

// Whether a document is known to have equal rows with both forms, or no row with either. A form of `None`: the document is not served.
// Takes no memory.
fn have_same_row(columns: &[Path], form: Option<&Packed>, other: Option<&Packed>) -> bool
    ensures { result ≡ true → HaveSameRow columns.now (option_map (λ v. v.now) form.entry)
        (option_map (λ v. v.now) other.entry) }
{
    match (form, other) {
        (Some(form), Some(other)) => have_same_key(columns, &form.part(), &other.part()),
        (None, None) => true,
        _ => false,
    }
}

// Takes a row out of the rows, if one is given.
fn take_row(
    alloc: Global,
    rows: &mut Pages<RowBytes>,
    row: Option<RowBytes>,
) -> Result<(), NoMemory>
    ensures { OnOk result (rows.new ≡ without_row row rows.old) }
{
    if let Some(row) = row {
        rows.remove(alloc, &row)?;
    }
    Ok(())
}

// Puts a row into the rows, if one is given.
fn put_row(alloc: Global, rows: &mut Pages<RowBytes>, row: Option<RowBytes>) -> Result<(), NoMemory>
    ensures { OnOk result (rows.new ≡ with_row row rows.old) }
{
    if let Some(row) = row {
        rows.insert(alloc, row)?;
    }
    Ok(())
}

// Takes out `old_row` and puts in `new_row`, if they are given.
fn change_rows(
    alloc: Global,
    rows: &mut Pages<RowBytes>,
    old_row: Option<RowBytes>,
    new_row: Option<RowBytes>,
) -> Result<(), NoMemory>
    ensures { OnOk result (rows.new ≡ with_row new_row (without_row old_row rows.old)) }
{
    take_row(alloc, rows, old_row)?;
    put_row(alloc, rows, new_row)?;
    Ok(())
}

// Takes out `old_row` and puts in `new_row`, if they are given. If others share `rows`, the changes go into a copy of the top of their
// pages, and the shared rows stay as they were. If neither row is given, nothing is copied.
fn change_shared(
    alloc: Global,
    rows: &mut Arc<Pages<RowBytes>>,
    old_row: Option<RowBytes>,
    new_row: Option<RowBytes>,
) -> Result<(), NoMemory>
    ensures { OnOk result (arc_value rows.new
        ≡ with_row new_row (without_row old_row (arc_value rows.old))) }
{
    if old_row.is_none() && new_row.is_none() {
        return Ok(());
    }
    if let Some(own) = Arc::get_mut(rows) {
        return change_rows(alloc, own, old_row, new_row);
    }
    let mut own = rows.share(alloc)?;
    change_rows(alloc, &mut own, old_row, new_row)?;
    *rows = Arc::new(alloc, own)?;
    Ok(())
}

/// Mends the rows of an index for a change of the document with this id from the form `before` to the form `after`. `None`: the document is
/// not served.
///
/// Errors: `NoMemory` if an allocation fails; the rows are then useless.
/// Cost: a comparison of both forms at the columns. If the forms are not known to be equal there: both rows, built in the lent scratch;
/// the pages on the way to each; and a copy of the top of the pages if others share it. A row that does not change takes no memory, unless
/// one of its columns holds an array or an object.
pub(crate) fn mend_rows(
    alloc: Global,
    scratch: &mut KeyBytes,
    definition: &IndexDef,
    rows: &mut Arc<Pages<RowBytes>>,
    id: &str,
    before: Option<&Packed>,
    after: Option<&Packed>,
) -> Result<(), NoMemory>
    ensures { OnOk result ((ds : KeptDocuments) (d : KeptDocument)
        → option_map (λ v. v.now) before.entry ≡ form_at ds id.now → option_map (λ v. v.now) after.entry ≡ d.1
        → arc_value rows.old ≡ rows_of definition.now.columns (docs_of ds)
        → arc_value rows.new ≡ rows_of definition.now.columns (docs_of (insert ds id.now d))) }
{
    if have_same_row(definition.columns(), before, after) {
        return Ok(());
    }
    let old_row = row_if(alloc, scratch, definition.columns(), id, before)?;
    let new_row = row_if(alloc, scratch, definition.columns(), id, after)?;
    change_shared(alloc, rows, old_row, new_row)?;
    let rows: &Pages<RowBytes> = rows;
    rows.ascends();
    Ok(())
}

/// Puts rows, which must ascend by key, then id, into pages. All pages but the last are filled to three quarters.
///
/// Errors: `NoMemory` if an allocation fails. Cost: the bytes of the rows, and a step for each.
pub(crate) fn pages_of_rows(alloc: Global, rows: &[Row]) -> Result<Pages<RowBytes>, NoMemory>
    requires { Ascends row_value_order (rows_view rows.now) }
    ensures { IfOk result (λ pages. pages ≡ rows_view rows.now) }
{
    let bytes = bytes_of_rows(alloc, rows)?;
    Pages::from_sorted(alloc, &bytes)
}

// Copies rows as bytes. Errors: `NoMemory` if an allocation fails.
fn bytes_of_rows(alloc: Global, rows: &[Row]) -> Result<Vec<RowBytes>, NoMemory>
    ensures { IfOk result (λ bytes. bytes.items ≡ rows_view rows.now) }
{
    let mut bytes = Vec::with_capacity(alloc, rows.len())?;
    for row in rows {
        bytes.push(RowBytes::of(alloc, &row.key, row.id.as_str())?)?;
    }
    Ok(bytes)
}
