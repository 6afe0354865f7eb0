//! The list of the indexes of a shard, in the order of design document and name.
ghost use Rattle.std.specs.Prelude.{◌≡◌, not, IfOk, OnOk, option_map};
ghost use Rattle.std.specs.FinMap.{insert};
ghost use Rattle.std.specs.List.{filter, find, AllByRecursion};
ghost use Rattle.mg_index.specs.Catalog.{IsCatalog, is_named};
ghost use Rattle.mg_shard.specs.Documents.{form_at, id_bytes, kept_of, kept_documents};
ghost use Rattle.mg_shard.specs.Index.{HasRows, definitions_of, index_order};
ghost use Rattle.mg_pages.specs.Order.{inserted};

use crate::document::Document;
use crate::index_entry::IndexEntry;
use crate::index_ref::IndexRef;
use mg_packed::Packed;
use mg_pages::{Element, Pages, Shared};
use mg_rows::{KeyBytes, RowBytes};
use mg_value::NoMemory;
use std::alloc::Global;

/// Makes a list of the indexes, which the caller can change. Their rows are shared, not copied.
///
/// Errors: `NoMemory` if an allocation fails. Cost: their number.
pub(crate) fn share_indexes(
    alloc: Global,
    indexes: &Pages<IndexEntry>,
) -> Result<Vec<IndexEntry>, NoMemory>
    ensures { IfOk result (λ v. v.items ≡ indexes.now) }
{
    let mut all = Vec::with_capacity(alloc, indexes.len())?;
    for index in indexes.iter() {
        all.push(index.again()?)?;
    }
    Ok(all)
}

/// Puts the list of a shard's indexes into pages. The definitions of `indexes` must be a catalog.
///
/// Errors: `NoMemory` if an allocation fails. Cost: their number.
pub(crate) fn list_in_pages(
    alloc: Global,
    indexes: &[IndexEntry],
) -> Result<Pages<IndexEntry>, NoMemory>
    requires { IsCatalog (definitions_of indexes.now) }
    ensures { IfOk result (λ p. p ≡ indexes.now) }
{
    Pages::from_sorted(alloc, indexes)
}

// Returns the index that is named, if there is one: looks first at its place, and then for its name.
#[inline(always)]
fn index_there<'a>(indexes: &'a Pages<IndexEntry>, index: IndexRef<'_>) -> Option<&'a IndexEntry>
    ensures { option_map (λ x. x.now) result
        ≡ find (λ x. is_named index.entry.ddoc.now index.entry.name.now x.0) indexes.now }
{
    indexes.ascends();
    if let Some(entry) = indexes.at(index.place) {
        if entry.is_named(index.ddoc, index.name) {
            return Some(entry);
        }
    }
    indexes.get(&index)
}

/// Returns the rows of the index that is named, if there is one. Takes no memory. Cost: a comparison of names at the index's place; one
/// look-up by name if another index is there.
#[inline(always)]
pub(crate) fn rows_there<'a>(
    indexes: &'a Pages<IndexEntry>,
    index: IndexRef<'_>,
) -> Option<&'a Pages<RowBytes>>
    ensures { option_map (λ rows. rows.now) result
        ≡ option_map (λ x. x.1)
        (find (λ x. is_named index.entry.ddoc.now index.entry.name.now x.0) indexes.now) }
{
    match index_there(indexes, index) {
        Some(entry) => Some(entry.rows()),
        None => None,
    }
}

/// Makes the indexes with this one inserted; it replaces an index of the same design document and name. All pages but those on the way
/// to it are shared.
///
/// Errors: `NoMemory` if an allocation fails. Cost: that of `Pages::share`, one look-up, and a copy of the page of the list where the
/// index belongs.
pub(crate) fn insert_index(
    alloc: Global,
    indexes: &Pages<IndexEntry>,
    index: IndexEntry,
) -> Result<Pages<IndexEntry>, NoMemory>
    ensures { IfOk result (λ v. v ≡ inserted index_order index indexes.now) }
{
    let mut all = indexes.share(alloc)?;
    all.insert(alloc, index)?;
    Ok(all)
}

/// Makes the indexes without the one of this design document and name, if there is one. All pages but those on the way to it are shared.
///
/// Errors: `NoMemory` if an allocation fails. Cost: as for `insert_index`.
pub(crate) fn remove_index(
    alloc: Global,
    indexes: &Pages<IndexEntry>,
    ddoc: &str,
    name: &str,
) -> Result<Pages<IndexEntry>, NoMemory>
    ensures { IfOk result (λ v. v ≡ filter (λ x. not (is_named ddoc.now name.now x.0)) indexes.now) }
{
    indexes.ascends();
    let mut left = indexes.share(alloc)?;
    let place = 0;
    left.remove(alloc, &IndexRef { ddoc, name, place })?;
    Ok(left)
}

// Returns the form in which the document with this id is served; `None` if there is no such document, or it is deleted.
fn form_at<'a>(documents: &'a Pages<Shared<Document>>, id: &str) -> Option<&'a Packed>
    ensures { option_map (λ v. v.now) result ≡ form_at (kept_documents documents.now) id.now }
{
    match documents.get(&id) {
        Some(document) => document.get().written(),
        None => None,
    }
}

/// Mends the rows of all indexes for a document that the caller then inserts into `documents`, where it replaces the document with the
/// same id, if there is one.
///
/// Errors: `NoMemory` if an allocation fails; the indexes are then useless.
/// Cost: a look-up of the document, and that of `mend_rows` for each index.
pub(crate) fn mend_all(
    alloc: Global,
    scratch: &mut KeyBytes,
    indexes: &mut [IndexEntry],
    documents: &Pages<Shared<Document>>,
    document: &Document,
) -> Result<(), NoMemory>
    ensures definitions { OnOk result (definitions_of indexes.new ≡ definitions_of indexes.old) }
    ensures rows { OnOk result (AllByRecursion (HasRows (kept_documents documents.now)) indexes.old
        → AllByRecursion
        (HasRows (insert (kept_documents documents.now) (id_bytes document.now)
        (kept_of document.now))) indexes.new) }
{
    let before = form_at(documents, document.id());
    let after = document.written();
    for i in 0..indexes.len() {
        let index = &mut indexes[i];
        index.mend(alloc, scratch, document.id(), before, after)?;
    }
    Ok(())
}
