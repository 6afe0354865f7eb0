//! Documents as they are kept.
ghost use Rattle.std.specs.Prelude.{◌≡◌, IfOk};
ghost use Rattle.mg_revtree.specs.History.{Paths};
ghost use Rattle.mg_revtree.specs.Tree.{StandsFor};
ghost use Rattle.mg_doc.specs.Served.{served_of};
ghost use Rattle.mg_shard.specs.Own.{form_in, IsServedOwn, IsServedOwn-prop};

use crate::document_id::DocumentId;
use crate::served::Served;
use mg_doc::serve_form;
use mg_packed::{Packed, Part};
use mg_pages::Identified;
use mg_revtree::RevTree;
use mg_value::NoMemory;
use std::alloc::Global;

/// A document: its id, its revision tree, and the form in which it is served, if it is not deleted.
#[derive(Drop)]
pub struct Document {
    pub(crate) id: DocumentId,
    pub(crate) tree: RevTree,
    pub(crate) served: Served,
    ghost own_id: { IsServedOwn id served } by { IsServedOwn-prop id served },
}

impl Identified for Document {
    ghost use Rattle.mg_shard.specs.Documents.{id_bytes};

    ghost id = { id_bytes };

    fn id(&self) -> &str {
        self.id.as_str()
    }
}

// Makes the form in which the document with this id is served, with the form's text; `Deleted` if the winner is deleted or the tree is
// empty. The winner's body moves into the form's block, as for `serve_form`.
fn served_in(alloc: Global, id: &str, tree: &mut RevTree) -> Result<Served, NoMemory>
    ensures own { IfOk result (λ served. IsServedOwn id.now served) }
    ensures served { IfOk result
        (λ served. (h : Paths) → StandsFor tree.old h → form_in served ≡ served_of id.now h) }
    ensures tree { tree.new ≡ tree.old }
{
    match serve_form(alloc, id, tree)? {
        Some(form) => Ok(Served::of(form)),
        None => Ok(Served::Deleted),
    }
}

impl Document {
    ghost use Rattle.std.specs.Prelude.{◌≡◌, string_bytes, option_and_then, option_map, IfOk, IfSome};
    ghost use Rattle.mg_value.specs.Value.{item, no_items, text};
    ghost use Rattle.mg_value.specs.Text.{compact};
    ghost use Rattle.mg_revtree.specs.History.{Paths};
    ghost use Rattle.mg_revtree.specs.Tree.{StandsFor};
    ghost use Rattle.mg_doc.specs.Served.{served_of};
    ghost use Rattle.mg_shard.specs.Documents.{form_of, id_bytes, is_deleted, kept_of};
    ghost use Rattle.mg_shard.specs.Rows.{row_key};
    ghost use Rattle.mg_shard.specs.Own.{id_columns};

    /// Makes the document with this id and this revision tree. The winner's body moves into the block of the form in which the document
    /// is served, as for `serve_form`.
    ///
    /// Errors: `NoMemory` as for `serve_form`. Cost: that of `serve_form`, and a look-up of the form's member `_id`.
    pub(crate) fn of(alloc: Global, id: String, mut tree: RevTree) -> Result<Document, NoMemory>
        ensures id { IfOk result (λ d. d.id ≡ string_bytes id) }
        ensures tree { IfOk result (λ d. d.tree ≡ tree) }
        ensures served { IfOk result
            (λ d. (h : Paths) → StandsFor tree h → form_of d ≡ served_of (string_bytes id) h) }
    {
        let served = served_in(alloc, &id, &mut tree)?;
        let id = DocumentId::of(id);
        Ok(Document { id, tree, served })
    }

    /// Returns the document's id. Takes no memory.
    pub fn id(&self) -> &str
        ensures { result.now ≡ id_bytes self.now }
    {
        self.id.as_str()
    }

    /// Returns the document's revision tree. Takes no memory.
    pub fn tree(&self) -> &RevTree
        ensures { result.now ≡ (kept_of self.now).0 }
    {
        &self.tree
    }

    /// Returns the form in which the document is served; `None` if it is deleted. Takes no memory.
    pub fn form(&self) -> Option<Part<'_>>
        ensures { result ≡ form_of self.now }
    {
        match self.written() {
            Some(form) => Some(form.part()),
            None => None,
        }
    }

    /// Whether the document is deleted. Takes no memory.
    pub fn is_deleted(&self) -> bool
        ensures { result ≡ is_deleted self.now }
    {
        self.written().is_none()
    }

    /// Returns the block of the form in which the document is served, with the form's text; `None` if the document is deleted. Takes no
    /// memory.
    pub fn written(&self) -> Option<&Packed>
        ensures { option_map (λ v. v.now) result ≡ form_of self.now }
    {
        self.served.written()
    }

    /// Returns the compact text of the form in which the document is served; `None` if the document is deleted. The text was made when
    /// the bulk that last touched the document was finished. Takes no memory.
    pub fn compact_text(&self) -> Option<&[u8]>
        ensures { option_map (λ t. t.now) result ≡ option_map compact (form_of self.now) }
    {
        match self.written() {
            Some(form) => Some(form.compact_text()),
            None => None,
        }
    }

    /// Returns the document's id, which is the key of its row in the list of all documents; `None` if it has no such row, because it is
    /// deleted or its form has no `_id`. Takes no memory. Cost: constant.
    pub fn id_key(&self) -> Option<&str>
        ensures key { option_map (λ id. item (text id.now) no_items) result
            ≡ option_and_then (row_key id_columns) (form_of self.now) }
        ensures own { IfSome result (λ id. id.now ≡ id_bytes self.now) }
    {
        if self.served.has_id() {
            Some(self.id())
        } else {
            None
        }
    }
}
