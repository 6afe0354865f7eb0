//! The documents of a shard in shared pages.
ghost use Rattle.std.specs.Prelude.{◌≡◌, [], IfOk, OnOk, List};
ghost use Rattle.mg_pages.specs.Identified.{id_order};
ghost use Rattle.mg_pages.specs.Order.{Ascends, inserted};
ghost use Rattle.mg_shard.specs.Documents.{deleted_among, id_bytes, is_deleted};
ghost use Rattle.mg_shard.specs.declared.document.Document.{Document as DocumentValue};

use crate::document::Document;
use mg_pages::{Element, Pages, Shared};
use mg_value::NoMemory;
use std::alloc::Global;
use std::marker::Model;

/// Documents in the order of their ids. The deleted ones are listed once more, so that they are counted, and passed over in counts, without a
/// look at each document. Contracts see the list of all documents.
#[derive(Drop)]
pub(crate) struct DocumentPages {
    all: Pages<Shared<Document>>,
    deleted: Pages<Shared<Document>>,
}

impl Model for DocumentPages {
    ghost use Rattle.std.specs.Prelude.{◌≡◌, List};
    ghost use Rattle.mg_shard.specs.declared.document.Document.{Document};

    ghost Value = { List Document };

    ghost use Rattle.std.specs.Coded.{coded_list};
    ghost use Rattle.mg_shard.specs.contracts.document.Document as document;

    ghost coded = { coded_list document.the_row.coded };

    ghost use Rattle.mg_shard.specs.Documents.{deleted_among};

    ghost view = { λ d. d.all };

    ghost invariant = { λ d. d.deleted ≡ deleted_among d.all };
}

impl DocumentPages {
    /// Makes an empty list. Takes no memory.
    pub fn new(alloc: Global) -> DocumentPages
        ensures { result ≡ [] }
    {
        DocumentPages {
            all: Pages::new(alloc),
            deleted: Pages::new(alloc),
        }
    }

    /// Makes the list of these documents. Errors: `NoMemory` if an allocation fails. Cost: a step a document.
    pub fn of(alloc: Global, all: Pages<Shared<Document>>) -> Result<DocumentPages, NoMemory>
        ensures { IfOk result (λ d. d ≡ all) }
    {
        let listed = list_deleted(alloc, &all)?;
        let deleted = Pages::from_sorted(alloc, &listed)?;
        Ok(DocumentPages { all, deleted })
    }

    /// Makes another list of the same documents, which shares all pages with this one. Errors: `NoMemory` if an allocation fails. Cost: as
    /// for `Pages::share`.
    pub fn share(&self, alloc: Global) -> Result<DocumentPages, NoMemory>
        ensures { IfOk result (λ d. d ≡ self.now) }
    {
        let all = self.all.share(alloc)?;
        let deleted = self.deleted.share(alloc)?;
        Ok(DocumentPages { all, deleted })
    }

    /// Returns all documents. Takes no memory.
    pub fn all(&self) -> &Pages<Shared<Document>>
        ensures all { result.now ≡ self.now }
        ensures ascends { Ascends (id_order id_bytes) self.now }
    {
        self.all.ascends();
        &self.all
    }

    /// Returns the deleted documents. Takes no memory.
    pub fn deleted(&self) -> &Pages<Shared<Document>>
        ensures deleted { result.now ≡ deleted_among self.now }
        ensures ascends { Ascends (id_order id_bytes) self.now }
    {
        self.all.ascends();
        &self.deleted
    }

    /// Makes the list with this document, which replaces the one with the same id, if there is one. Errors: `NoMemory` if an allocation
    /// fails; the list is then dropped. Cost: that of `Pages::insert`; if documents are deleted, a look-up among them; and if this document
    /// or the one that it replaces is deleted, the change there.
    pub fn with(self, alloc: Global, document: Document) -> Result<DocumentPages, NoMemory>
        ensures { IfOk result (λ d. d ≡ inserted (id_order id_bytes) document self) }
    {
        let DocumentPages {
            mut all,
            mut deleted,
        } = self;
        let document = Shared::new(alloc, document)?;
        mend_deleted(alloc, &mut deleted, &document)?;
        all.insert(alloc, document)?;
        Ok(DocumentPages { all, deleted })
    }
}

// Lists the deleted documents. Errors: `NoMemory` if an allocation fails.
fn list_deleted(
    alloc: Global,
    all: &Pages<Shared<Document>>,
) -> Result<Vec<Shared<Document>>, NoMemory>
    ensures listed { IfOk result (λ v. v.items ≡ deleted_among all.now) }
    ensures ascends { IfOk result (λ v. Ascends (id_order id_bytes) v.items) }
{
    all.ascends();
    let mut listed = Vec::new(alloc);
    for document in all.iter() {
        if document.get().is_deleted() {
            listed.push(document.again()?)?;
        }
    }
    Ok(listed)
}

// Lists the document among the deleted ones if it is deleted; otherwise takes the document with its id from their list. Errors: `NoMemory`
// if an allocation fails; the list is then useless.
fn mend_deleted(
    alloc: Global,
    deleted: &mut Pages<Shared<Document>>,
    document: &Shared<Document>,
) -> Result<(), NoMemory>
    ensures { OnOk result ((ds : List DocumentValue) → deleted.old ≡ deleted_among ds
        → deleted.new ≡ deleted_among (inserted (id_order id_bytes) document.now ds)) }
{
    if document.get().is_deleted() {
        deleted.insert(alloc, document.again()?)?;
    } else {
        deleted.remove(alloc, document)?;
    }
    Ok(())
}
