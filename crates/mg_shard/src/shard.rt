//! A shard: documents by their ids, and the rows of indexes over them.
ghost use Rattle.std.specs.Prelude.{◌≡◌, ℕ, List, [], Some, length, map, option_map, IfOk, IfSome};
ghost use Rattle.std.specs.FinMap as finite;
ghost use Rattle.std.specs.FinMap.{entries, get};
ghost use Rattle.std.specs.List.{filter_map};
ghost use Rattle.std.specs.declared.cmp.Ordering.{Ordering};
ghost use Rattle.mg_shard.specs.Documents.{KeptDocument, deleted_of, doc_entry, docs_of, kept_entry, form_at, id_bytes, kept_of};
ghost use Rattle.mg_shard.specs.Own.{HasOwnId};
ghost use Rattle.mg_pages.specs.Reading.{beyond};
ghost use Rattle.mg_shard.specs.declared.document.Document.{Document};
ghost use Rattle.mg_value.specs.Value.{Value};
ghost use Rattle.mg_shard.specs.Shard.{rows_at};
ghost use Rattle.mg_index.specs.Catalog.{IsCatalog};
ghost use Rattle.mg_shard.specs.Index.{definitions_of};

use crate::document::Document;
use crate::document_pages::DocumentPages;
use crate::documents::Documents;
use crate::index_entry::IndexEntry;
use crate::index_list::rows_there;
use crate::index_ref::IndexRef;
use mg_collate::Direction;
use mg_pages::{Cursor, Pages, Probe, Shared};
use mg_rows::RowBytes;
use mg_value::NoMemory;
use std::alloc::Global;
use std::cmp::Ordering;
use std::marker::Model;

/// Documents by their ids and the rows of indexes, in shared pages. Sharing a shard copies only the top levels. An edit makes its document
/// anew, with a copy of the tree, removes at most one row from each index and adds at most one, and copies the pages on the way to them.
///
/// The rows of an index are always those of an index that is made from scratch of the served documents, in the order of key, then id.
#[derive(Drop)]
pub struct Shard {
    pub(crate) documents: DocumentPages,
    pub(crate) indexes: Pages<IndexEntry>,
}

impl Model for Shard {
    ghost use Rattle.mg_shard.specs.Shard.{ShardView, shard_code};

    ghost Value = { ShardView };

    ghost coded = { shard_code };

    ghost use Rattle.mg_shard.specs.Documents.{kept_documents};
    ghost use Rattle.mg_shard.specs.Index.{AreIndexes, definitions_of};

    ghost view = { λ s.
        record { documents = kept_documents s.documents; definitions = definitions_of s.indexes } };

    ghost invariant = { λ s. AreIndexes (kept_documents s.documents) s.indexes };
}

impl Shard {
    /// Makes a shard without documents and indexes. Takes no memory.
    pub fn new(alloc: Global) -> Shard
        ensures documents { result.documents ≡ finite.empty }
        ensures indexes { result.definitions ≡ [] }
    {
        Shard {
            documents: DocumentPages::new(alloc),
            indexes: Pages::new(alloc),
        }
    }

    /// Makes a second shard with these documents and indexes, which both shards then share.
    ///
    /// Errors: `NoMemory` if an allocation fails. Cost: the top levels of the documents and of the list of indexes, as for `Pages::share`.
    pub fn share(&self, alloc: Global) -> Result<Shard, NoMemory>
        ensures { IfOk result (λ s. s ≡ self.now) }
    {
        let documents = self.documents.share(alloc)?;
        let indexes = self.indexes.share(alloc)?;
        Ok(Shard { documents, indexes })
    }

    /// Returns the document with this id, deleted or not; `None` if there is no such document. Takes no memory. Cost: one look-up.
    #[inline(always)]
    pub fn document(&self, id: &str) -> Option<&Document>
        ensures kept { option_map (λ d. kept_of d.now) result ≡ get self.now.documents id.now }
        ensures id { IfSome result (λ d. id_bytes d.now ≡ id.now) }
    {
        match self.documents.all().get(&id) {
            Some(document) => Some(document.get()),
            None => None,
        }
    }

    /// Lists the documents that come after a place in a direction, deleted ones too: ascending, those above the place; descending, those
    /// below it, from the last to the first. There need not be a document at the place; one that ties with it is not listed. Takes no
    /// memory. Cost: one look-up, and then a step a document.
    pub fn documents_beyond<Q: Probe<Shared<Document>>>(
        &self,
        place: &Q,
        direction: Direction,
    ) -> Documents<'_>
        ensures { (order : List ℕ × KeptDocument → Ordering)
            → ((d : Document) → Q.against place.now d ≡ order (kept_entry d))
            → map kept_entry result ≡ beyond direction order (entries self.now.documents) }
    {
        Documents::beyond(self.documents.all(), place, direction)
    }

    /// Counts the documents, deleted ones too, that `documents_beyond` lists after a place in a direction. They are not read one by one.
    /// Takes no memory. Cost: one look-up, and a read of the count of each part before the place, at most 16 on each level.
    pub fn count_documents_beyond<Q: Probe<Shared<Document>>>(
        &self,
        place: &Q,
        direction: Direction,
    ) -> usize
        ensures { (order : List ℕ × KeptDocument → Ordering)
            → ((d : Document) → Q.against place.now d ≡ order (kept_entry d))
            → result ≡ length (beyond direction order (entries self.now.documents)) }
    {
        self.documents.all().count_beyond(place, direction)
    }

    /// Counts the documents that are not deleted. Takes no memory. Cost: constant.
    pub fn count_docs(&self) -> usize
        ensures { result ≡ length (docs_of self.now.documents) }
    {
        let all = self.documents.all().len();
        let deleted = self.documents.deleted().len();
        all - deleted
    }

    /// Counts the deleted documents. Takes no memory. Cost: constant.
    pub fn count_deleted(&self) -> usize
        ensures { result ≡ length (deleted_of self.now.documents) }
    {
        self.documents.deleted().len()
    }

    /// Counts the documents after a place in a direction, without the deleted ones. Takes no memory. Cost: that of
    /// `count_documents_beyond`, twice if there are deleted documents.
    pub fn count_docs_beyond<Q: Probe<Shared<Document>>>(
        &self,
        place: &Q,
        direction: Direction,
    ) -> usize
        ensures { (order : List ℕ × KeptDocument → Ordering)
            → ((d : Document) → Q.against place.now d ≡ order (kept_entry d))
            → result ≡ length
            (filter_map doc_entry (beyond direction order (entries self.now.documents))) }
    {
        let all = self.documents.all().count_beyond(place, direction);
        let deleted = self.documents.deleted().count_beyond(place, direction);
        all - deleted
    }

    /// Does nothing. From its contract the proofs of callers know that the `_id` of a served document, if there is one, is the document's
    /// own id.
    pub fn ids_are_own(&self)
        ensures { (id : List ℕ) (form : Value) → form_at self.now.documents id ≡ Some form
            → HasOwnId id form }
    {
        // read only because the contract follows from the shard's invariant
        let _ = &self.documents;
    }

    // Returns the shard's indexes. Takes no memory.
    pub(crate) fn indexes(&self) -> &Pages<IndexEntry>
        ensures catalog { IsCatalog self.now.definitions }
        ensures definitions { definitions_of result.now ≡ self.now.definitions }
    {
        &self.indexes
    }

    // Returns the rows of the index that is named, if there is one. Takes no memory. Cost: one comparison of names if the index is at the
    // place that the name says, otherwise one look-up by name.
    #[inline(always)]
    pub(crate) fn index_rows(&self, index: IndexRef<'_>) -> Option<&Pages<RowBytes>>
        ensures { option_map (λ rows. rows.now) result
            ≡ rows_at index.entry.ddoc.now index.entry.name.now self.now }
    {
        rows_there(&self.indexes, index)
    }

    /// Lists the rows that come after a place in a direction, in the index that is named; `None` if there is no such index. Ascending,
    /// these are the rows above the place; descending, those below it, from the last to the first. There need not be a row at the place,
    /// which may be the beginning of a range of keys; rows that tie with it are not listed. Takes no memory. Cost: one comparison of names
    /// if the index is where the name says, otherwise a look-up of the index by its name; one look-up of the place, and then a step a row.
    pub fn rows_beyond<Q: Probe<RowBytes>>(
        &self,
        index: IndexRef<'_>,
        place: &Q,
        direction: Direction,
    ) -> Option<Cursor<'_, RowBytes>>
        ensures { result
            ≡ option_map (beyond direction (Q.against place.now))
            (rows_at index.entry.ddoc.now index.entry.name.now self.now) }
    {
        match self.index_rows(index) {
            Some(rows) => Some(rows.beyond(place, direction)),
            None => None,
        }
    }

    /// Counts the rows that `rows_beyond` lists after a place in a direction; `None` if there is no such index. The rows are not read one
    /// by one. Takes no memory. Cost: that of finding the index, as for `rows_beyond`, one look-up of the place, and a read of the count of
    /// each part before the place, on each level.
    pub fn count_rows_beyond<Q: Probe<RowBytes>>(
        &self,
        index: IndexRef<'_>,
        place: &Q,
        direction: Direction,
    ) -> Option<usize>
        ensures { result ≡ option_map (λ rows. length (beyond direction (Q.against place.now) rows))
            (rows_at index.entry.ddoc.now index.entry.name.now self.now) }
    {
        match self.index_rows(index) {
            Some(rows) => Some(rows.count_beyond(place, direction)),
            None => None,
        }
    }
}
