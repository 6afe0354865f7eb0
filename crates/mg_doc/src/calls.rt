//! The library's surface, for callers other than this program: documents as values, and edits that are lent.
ghost use Rattle.std.specs.Prelude.{◌≡◌, IfOk, IsOk, OnErr, None, option_copied, string_bytes, option_map, true, IfSome};
ghost use Rattle.mg_revtree.specs.History.{Paths, Leaf as Winner};
ghost use Rattle.mg_revtree.specs.Tree.{StandsFor};
ghost use Rattle.mg_doc.specs.Applied.{Applied};
ghost use Rattle.mg_doc.specs.Digest.{digest_of};
ghost use Rattle.mg_value.specs.View.{view};
ghost use Rattle.mg_doc.specs.Document.{ReadsAs, edit_of, is_object};
ghost use Rattle.mg_doc.specs.Served.{served_form, served_of};

use crate::digest::rev_id_of_text;
use crate::document::served_form;
use crate::edit::{Edit, ReadyEdit};
use crate::error::{DocError, EditError};
use mg_packed::Packed;
use mg_revtree::{Rev, RevTree};
use mg_value::{Json, NoMemory, write};
use std::alloc::Global;

impl Edit {
    /// Reads a document of a bulk as `read_part` does, from a `Json`, which is packed into a block before any member is read. An edit, and
    /// every error but `NoMemory`, is the one that the document gives.
    ///
    /// Errors: `NoMemory` if an allocation fails, or if the block would be longer than 4,294,967,295 bytes, also for a document that has
    /// a fault; else those of `read_part`. Cost: that of `read_part`, and the size of the document.
    pub fn read(alloc: Global, document: Json, new_edits: bool) -> Result<Edit, DocError>
        requires { is_object (view document) ≡ true }
        ensures { ReadsAs (edit_of new_edits (view document)) result }
    {
        let packed = Packed::of(alloc, &document)?;
        Edit::read_part(alloc, packed.part(), new_edits)
    }

    /// Applies the edit to the tree of its document, and returns the revision that was made, or the newest one of the replica's path.
    ///
    /// A new edit makes a revision over the one that it names, which has to be a leaf. If it names none, it
    /// makes one over a deleted winner, or at position 1 in an empty tree. The path of
    /// a replica is merged; one that is known whole changes nothing.
    ///
    /// Errors: `Conflict` if the named revision is not a leaf, if none is named but the winner is not deleted, or if the made revision is
    /// already known; `BadHistory` if the extended leaf has the last position, 4,294,967,295, or if a replica's path does not fit; else
    /// `NoMemory` if an allocation fails, or at a limit that `RevTree::merge_with` lists. Only the refusal of a made revision that is already
    /// known needs memory. An error leaves the tree as it was. Cost: that of `look`; and, unless a path is known whole, a copy of the
    /// edit and the cost of `ReadyEdit::apply`. Source: CouchDB's `_bulk_docs` with `new_edits` true and false.
    pub fn apply(&self, alloc: Global, tree: &mut RevTree) -> Result<Rev, EditError>
        ensures applied { (h : Paths) → StandsFor tree.old h → Applied h self.now result tree.new }
        ensures unchanged { OnErr result (tree.new ≡ tree.old) }
    {
        if let Some(rev) = self.foresee(tree)? {
            return Ok(rev);
        }
        let edit = self.copy(alloc)?;
        ReadyEdit { edit }.apply(alloc, tree)
    }
}

/// Makes the id of a new revision over a parent, or of a document's first revision: the MD5 of the compact text of
/// `[deleted, parent, body]`, in 32 lower-case hexadecimal digits. The parent is written as its text `N-id`, or as null if there is none.
///
/// Errors: `NoMemory` if an allocation fails. Cost: the length of the body's text. Source: CouchDB's deterministic revision ids,
/// RFC 1321.
pub fn rev_id(
    alloc: Global,
    deleted: bool,
    parent: Option<&Rev>,
    body: &Json,
) -> Result<String, NoMemory>
    ensures { IfOk result
        (λ id. string_bytes id ≡ digest_of deleted (option_copied parent.entry) (view body.now)) }
{
    let text = write(alloc, body)?;
    rev_id_of_text(alloc, deleted, parent, &text)
}

/// Makes the document that is served for an id: the body of the winning revision with `_id` and `_rev`. `None` if that revision deletes
/// the document, or if the tree is empty.
///
/// Errors: `NoMemory` if an allocation fails; if there is no document, no memory is needed. Cost: a copy of the body. Source: `GET` of a
/// document in CouchDB's API reference.
pub fn served(alloc: Global, id: &str, tree: &RevTree) -> Result<Option<Json>, NoMemory>
    ensures served { IfOk result
        (λ o. (h : Paths) → StandsFor tree.now h → option_map view o ≡ served_of id.now h) }
    ensures form { IfOk result (λ o. IfSome o (λ form. (l : Winner) × (view form ≡ served_form id.now l))) }
    ensures none { (h : Paths) → StandsFor tree.now h → served_of id.now h ≡ None → IsOk result }
{
    match tree.winner() {
        None => Ok(None),
        Some(leaf) => if leaf.deleted {
            Ok(None)
        } else {
            Ok(Some(served_form(alloc, id, leaf)?))
        },
    }
}
