//! A shard while a bulk is applied.
ghost use Rattle.std.specs.Prelude.{◌≡◌, Err, None, Some, unwrap_or, IfOk, OnErr, OnOk, map, option_map};
ghost use Rattle.std.specs.FinMap as finite;
ghost use Rattle.std.specs.FinMap.{get};
ghost use Rattle.mg_revtree.specs.History.{Paths};
ghost use Rattle.mg_revtree.specs.Tree.{StandsFor};
ghost use Rattle.mg_doc.specs.Applied.{IsReady, refusal_in};
ghost use Rattle.mg_doc.specs.Edit.{edited, first_refusal, outcome_of};
ghost use Rattle.mg_shard.specs.Documents.{StandFor, kept_documents, tree_at};
ghost use Rattle.mg_shard.specs.Draft.{DraftStandsFor, TouchedStandFor, Touches, touched_of};
ghost use Rattle.std.specs.List.{AllByRecursion};
ghost use Rattle.mg_shard.specs.Index.{HasRows, definitions_of};
ghost use Rattle.mg_shard.specs.Edits.{after_edit, after_edits, first_refusal_in, id_in, outcome_in, outcome_view, outcomes};
ghost use Rattle.mg_shard.specs.Histories.{Histories};

use crate::document::Document;
use crate::document_pages::DocumentPages;
use crate::index_entry::IndexEntry;
use crate::index_list::{list_in_pages, mend_all, share_indexes};
use crate::reply::EditReply;
use crate::shard::Shard;
use mg_doc::{Edit, EditError, Look, ReadyEdit};
use mg_revtree::RevTree;
use mg_rows::KeyBytes;
use mg_value::NoMemory;
use std::alloc::Global;
use std::collections::BTreeMap;
use std::marker::Model;

/// A shard while a bulk is applied: the shard as it was, lent, and the trees of the documents that the bulk has touched.
#[derive(Drop)]
pub struct Draft<'a> {
    shard: &'a Shard,
    touched: BTreeMap<String, RevTree>,
}

impl<'a> Model for Draft<'a> {
    ghost use Rattle.mg_shard.specs.Draft.{DraftView, draft_code, touched_of};

    ghost Value = { DraftView };

    ghost coded = { draft_code };

    ghost view = { λ d. record { shard = d.shard.now; touched = touched_of d.touched.entries } };
}

/// Returns the id of an edit; the empty text if it has none. Takes no memory.
pub fn id_in(edit: &Edit) -> &str
    ensures { result.now ≡ id_in edit.now }
{
    match edit.id() {
        Some(id) => id,
        None => "",
    }
}

impl<'a> Draft<'a> {
    /// Makes a draft of the shard, which has touched no document yet. Takes no memory.
    pub fn new(alloc: Global, shard: &'a Shard) -> Draft<'a>
        ensures shard { result.shard ≡ shard.now }
        ensures touched { result.touched ≡ finite.empty }
    {
        Draft {
            shard,
            touched: BTreeMap::new(alloc),
        }
    }

    /// Applies one edit that has an id, and moves its body into the tree of its document. An edit that is refused, or whose path is
    /// known whole, touches no document.
    ///
    /// Errors: `NoMemory` if an allocation fails, or at a limit that `RevTree::merge_with` lists. The draft must then not be used again. A
    /// refused edit is not an error: the reply is `Conflict` or `BadHistory`. Lack of memory never hides a refusal that `Edit::look` finds.
    /// Cost: that of `Edit::look` and `ReadyEdit::apply`, and a copy of the document's tree if the draft has not touched the
    /// document yet. No copy of the body.
    pub fn apply(&mut self, alloc: Global, edit: Edit) -> Result<EditReply, NoMemory>
        ensures outcome { IfOk result
            (λ r. (hs : Histories) → DraftStandsFor self.old hs → outcome_view r ≡ outcome_in hs edit) }
        ensures stands { OnOk result ((hs : Histories) → DraftStandsFor self.old hs
            → DraftStandsFor self.new (after_edit hs edit)) }
        ensures foreseen { OnErr result ((hs : Histories) → DraftStandsFor self.old hs
            → first_refusal_in hs edit ≡ None) }
        ensures shard { OnOk result (self.new.shard ≡ self.old.shard) }
    {
        if let Some(tree) = self.touched.get_mut(id_in(&edit)) {
            return Ok(edit_tree(alloc, tree, edit)?);
        }
        Ok(edit_first(alloc, self.shard, &mut self.touched, edit)?)
    }

    /// Applies copies of edits that have ids, in order, and returns the outcome of each.
    ///
    /// Errors: those of `apply`; and `NoMemory` if memory for the replies or for the copy of an edit is refused, whatever the outcome of
    /// the edits. Cost: that of `apply`, and a copy of each edit, with its body.
    pub fn apply_all(&mut self, alloc: Global, edits: &[Edit]) -> Result<Vec<EditReply>, NoMemory>
        ensures outcomes { IfOk result
            (λ rs. (hs : Histories) → DraftStandsFor self.old hs
            → map outcome_view rs.items ≡ outcomes hs edits.now) }
        ensures stands { OnOk result ((hs : Histories) → DraftStandsFor self.old hs
            → DraftStandsFor self.new (after_edits hs edits.now)) }
        ensures shard { OnOk result (self.new.shard ≡ self.old.shard) }
    {
        let mut replies = Vec::with_capacity(alloc, edits.len())?;
        for edit in edits {
            let copy = edit.copy(alloc)?;
            let reply = self.apply(alloc, copy)?;
            replies.push(reply)?;
        }
        Ok(replies)
    }

    /// Returns the shard after the bulk; `None` if the bulk has touched no document: the shard is then as it was. The form, text and rows
    /// of a document are made once, however often it was edited.
    ///
    /// Errors: `NoMemory` if an allocation fails, or as for `serve_form`; the draft is dropped. Cost: for each touched document its form
    /// and text, as for `Document::of`, its rows that change, and the pages on the way to it and to these rows; the top level of the
    /// documents; and a new list of the indexes.
    pub fn finish(self, alloc: Global) -> Result<Option<Shard>, NoMemory>
        ensures stands { IfOk result
            (λ s. (hs : Histories) → DraftStandsFor self.entry hs
            → StandFor (unwrap_or s self.entry.shard).documents hs) }
        ensures indexes { IfOk result
            (λ s. (unwrap_or s self.entry.shard).definitions ≡ self.entry.shard.definitions) }
    {
        if self.touched.is_empty() {
            return Ok(None);
        }
        Ok(Some(keep_trees(alloc, self.shard, self.touched)?))
    }
}

// Turns the refusal of an edit into a reply. `NoMemory` has no such reply, and stays an error.
fn reply_of(error: EditError) -> Result<EditReply, NoMemory>
    ensures reply { IfOk result (λ r. option_map Err (refusal_in error) ≡ Some (outcome_view r)) }
    ensures err { OnErr result (refusal_in error ≡ None) }
{
    match error {
        EditError::Conflict => Ok(EditReply::Conflict),
        EditError::BadHistory => Ok(EditReply::BadHistory),
        EditError::NoMemory => Err(NoMemory),
    }
}

// Applies an edit after a look at this tree, or at the tree of which this one is a copy. Returns the outcome of the edit. Unless the edit
// is refused, its body has moved into the tree.
fn apply_ready(alloc: Global, ready: ReadyEdit, tree: &mut RevTree) -> Result<EditReply, NoMemory>
    requires { (h : Paths) → StandsFor tree.old h → IsReady h ready }
    ensures outcome { IfOk result
        (λ r. (h : Paths) → StandsFor tree.old h → outcome_view r ≡ outcome_of h ready) }
    ensures stands { OnOk result ((h : Paths) → StandsFor tree.old h
        → StandsFor tree.new (edited h ready)) }
{
    match ready.apply(alloc, tree) {
        Ok(rev) => Ok(EditReply::Done(rev)),
        Err(error) => Ok(reply_of(error)?),
    }
}

// Looks at an edit and applies it to the tree of a document that was touched before. Returns the outcome of the edit. If the edit is
// refused or its path is known whole, the tree is unchanged and the edit's body is dropped.
fn edit_tree(alloc: Global, tree: &mut RevTree, edit: Edit) -> Result<EditReply, NoMemory>
    ensures outcome { IfOk result
        (λ r. (h : Paths) → StandsFor tree.old h → outcome_view r ≡ outcome_of h edit) }
    ensures stands { OnOk result ((h : Paths) → StandsFor tree.old h
        → StandsFor tree.new (edited h edit)) }
    ensures foreseen { OnErr result ((h : Paths) → StandsFor tree.old h
        → first_refusal h edit.change ≡ None) }
{
    match edit.look(tree) {
        Ok(Look::Known(rev)) => Ok(EditReply::Done(rev)),
        Ok(Look::Ready(ready)) => Ok(apply_ready(alloc, ready, tree)?),
        Err(error) => Ok(reply_of(error)?),
    }
}

// Applies an edit to a document that was not touched before. The document is then touched, unless the edit is refused or its path is
// known whole.
fn edit_first(
    alloc: Global,
    shard: &Shard,
    touched: &mut BTreeMap<String, RevTree>,
    edit: Edit,
) -> Result<EditReply, NoMemory>
    requires { get (touched_of touched.old.entries) (id_in edit) ≡ None }
    ensures outcome { IfOk result
        (λ r. (hs : Histories) → TouchedStandFor shard.now.documents (touched_of touched.old.entries) hs
        → outcome_view r ≡ outcome_in hs edit) }
    ensures stands { OnOk result ((hs : Histories)
        → TouchedStandFor shard.now.documents (touched_of touched.old.entries) hs
        → TouchedStandFor shard.now.documents (touched_of touched.new.entries) (after_edit hs edit)) }
    ensures foreseen { OnErr result ((hs : Histories)
        → TouchedStandFor shard.now.documents (touched_of touched.old.entries) hs
        → first_refusal_in hs edit ≡ None) }
{
    let empty = RevTree::new(alloc);
    let before = tree_or(shard, id_in(&edit), &empty);
    match edit.look(before) {
        Ok(Look::Known(rev)) => Ok(EditReply::Done(rev)),
        Ok(Look::Ready(ready)) => Ok(touch(alloc, touched, ready, before)?),
        Err(error) => Ok(reply_of(error)?),
    }
}

// Returns the tree of the document with this id; `other` if there is no such document.
fn tree_or<'a>(shard: &'a Shard, id: &str, other: &'a RevTree) -> &'a RevTree
    ensures { result.now ≡ unwrap_or (tree_at shard.now.documents id.now) other.now }
{
    match shard.tree(id) {
        Some(tree) => tree,
        None => other,
    }
}

// Applies an edit to a copy of `before`, the tree at which its look was made. Unless the edit is refused, its document is then
// touched, with the copy as its tree.
fn touch(
    alloc: Global,
    touched: &mut BTreeMap<String, RevTree>,
    ready: ReadyEdit,
    before: &RevTree,
) -> Result<EditReply, NoMemory>
    requires { (h : Paths) → StandsFor before.now h → IsReady h ready }
    ensures outcome { IfOk result
        (λ r. (h : Paths) → StandsFor before.now h → outcome_view r ≡ outcome_of h ready) }
    ensures touched { IfOk result
        (λ r. (h : Paths) → StandsFor before.now h
        → Touches h ready (outcome_view r) (touched_of touched.old.entries)
        (touched_of touched.new.entries)) }
{
    let key = String::from_str(alloc, id_in(ready.edit()))?;
    let mut tree = before.copy(alloc)?;
    let reply = apply_ready(alloc, ready, &mut tree)?;
    if !reply.is_done() {
        return Ok(reply);
    }
    drop(touched.insert(key, tree)?);
    Ok(reply)
}

// Makes the shard in which each of these trees is the tree of its document.
fn keep_trees(
    alloc: Global,
    shard: &Shard,
    touched: BTreeMap<String, RevTree>,
) -> Result<Shard, NoMemory>
    ensures stands { IfOk result
        (λ s. (hs : Histories) → TouchedStandFor shard.now.documents (touched_of touched.entries) hs
        → StandFor s.documents hs) }
    ensures indexes { IfOk result (λ s. s.definitions ≡ shard.now.definitions) }
{
    let documents = shard.documents.share(alloc)?;
    let own = share_indexes(alloc, &shard.indexes)?;
    let (documents, mended) = keep_all(alloc, documents, own, touched)?;
    let indexes = list_in_pages(alloc, &mended)?;
    Ok(Shard { documents, indexes })
}

// Keeps a document with each of these trees, under its id and with its served form, and mends the rows of the indexes.
fn keep_all(
    alloc: Global,
    mut documents: DocumentPages,
    mut indexes: Vec<IndexEntry>,
    mut touched: BTreeMap<String, RevTree>,
) -> Result<(DocumentPages, Vec<IndexEntry>), NoMemory>
    ensures stands { IfOk result
        (λ r. (hs : Histories) → TouchedStandFor (kept_documents documents) (touched_of touched.entries) hs
        → StandFor (kept_documents r.0) hs) }
    ensures definitions { IfOk result (λ r. definitions_of r.1.items ≡ definitions_of indexes.items) }
    ensures rows { IfOk result
        (λ r. AllByRecursion (HasRows (kept_documents documents)) indexes.items
        → AllByRecursion (HasRows (kept_documents r.0)) r.1.items) }
{
    let mut scratch = KeyBytes::new(alloc);
    while let Some((id, tree)) = touched.pop_first() {
        let document = Document::of(alloc, id, tree)?;
        mend_all(
            alloc,
            &mut scratch,
            &mut indexes,
            documents.all(),
            &document,
        )?;
        documents = documents.with(alloc, document)?;
    }
    Ok((documents, indexes))
}
