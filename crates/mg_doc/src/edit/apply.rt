ghost use Rattle.std.specs.Prelude.{◌≡◌, Err, IfErr, IfOk, IsOk, Ok, OnErr, OnOk, None, Some, option_copied, string_bytes};
ghost use Rattle.std.specs.Result.{result_map_both};
ghost use Rattle.mg_revtree.specs.History.{Paths};
ghost use Rattle.mg_revtree.specs.Tree.{StandsFor};
ghost use Rattle.mg_doc.specs.Applied.{Applied, Foreseen, GivesBack, IsReady, NamesItsBase, error_of};
ghost use Rattle.mg_doc.specs.Base.{IsCopyOf, LooksFor, base_found, extended_by, look_of, extended_over};
ghost use Rattle.mg_doc.specs.Acceptance.{AcceptsAs, HidesNone};
ghost use Rattle.mg_doc.specs.Digest.{digest_of};
ghost use Rattle.mg_doc.specs.Edit.{base_of, first_refusal, outcome_of, replicated};
ghost use Rattle.mg_doc.specs.declared.change.Change.TheVariants.{New};

use crate::ahead::position_over;
use crate::change::Change;
use crate::digest::rev_id_of_body;
use crate::edit::Edit;
use crate::error::{EditError, EditRefusal};
use mg_revtree::{Body, History, Rev, RevId, RevTree};
use std::alloc::Global;
use std::marker::Model;

/// What a look at an edit finds.
#[derive(Drop)]
pub enum Look {
    /// The edit is a replica's path that is known whole: it changes nothing. Holds the newest revision of the path.
    Known(Rev),
    /// The edit is any other that is not refused. `ReadyEdit::apply` can still refuse it, if the revision that the edit makes is already
    /// known.
    Ready(ReadyEdit),
}

/// An edit that was looked at and not refused, and whose path, if it is a replica's, is not known whole. Made by `Edit::look`.
#[derive(Drop)]
pub struct ReadyEdit {
    pub(crate) edit: Edit,
}

impl Model for ReadyEdit {
    ghost use Rattle.mg_doc.specs.Code.{edit_code};
    ghost use Rattle.mg_doc.specs.Document.{Edit as EditValue};

    ghost Value = { EditValue };

    ghost coded = { edit_code };

    ghost view = { λ r. r.edit };
}

impl Edit {
    /// Foresees what the edit does to the tree of its document, without changing the tree. The edit comes back in `Look::Ready`; else it
    /// is dropped.
    ///
    /// Errors: those of `apply`, except the `Conflict` of a made revision that is already known, which only `ReadyEdit::apply` finds. No
    /// refusal needs memory. Cost: for a replica's path, that of `RevTree::knows_whole`; then, if the path is known whole, a copy of its
    /// newest revision, and if it is not, the cost of `RevTree::fits`. For a new edit, one look-up among the leaves.
    pub fn look(self, tree: &RevTree) -> Result<Look, EditError>
        ensures foreseen { (h : Paths) → StandsFor tree.now h → Foreseen h self result tree.now }
        ensures edit { IfOk result (GivesBack self) }
    {
        match self.foresee(tree)? {
            Some(rev) => Ok(Look::Known(rev)),
            None => Ok(Look::Ready(ReadyEdit { edit: self })),
        }
    }

    // Finds what `look` finds: the newest revision of a path that is known whole; `None` if the edit is ready. Errors: those of `look`.
    pub(crate) fn foresee(&self, tree: &RevTree) -> Result<Option<Rev>, EditError>
        ensures { (h : Paths) → StandsFor tree.now h
            → Foreseen h self.now (result_map_both (look_of self.now) (λ e. e) result) tree.now }
    {
        match &self.change {
            Change::New(named) => {
                check_base(tree, named.as_ref())?;
                Ok(None)
            }
            Change::Replica(path) => look_for(tree, path),
        }
    }
}

impl ReadyEdit {
    /// Returns the edit. Takes no memory.
    pub fn edit(&self) -> &Edit
        ensures { result.now ≡ self.now }
    {
        &self.edit
    }

    /// Applies the edit to the tree that was looked at, or to a copy of it, and returns what `Edit::apply` returns. Does not look again.
    ///
    /// Errors: `Conflict` if the made revision is already known; `NoMemory` if an allocation fails, or at a limit that `RevTree::merge_with`
    /// lists. Lack of memory hides the `Conflict` only if the edit names no revision and a deleted winner is extended: then the revision's
    /// id has to be made here. An error leaves the tree as it was. Cost: that of `RevTree::extend_with` or `RevTree::merge_with`, and the length of
    /// the body's text if the id has to be made here.
    pub fn apply(self, alloc: Global, tree: &mut RevTree) -> Result<Rev, EditError>
        requires { (h : Paths) → StandsFor tree.old h → IsReady h self }
        ensures applied { (h : Paths) → StandsFor tree.old h → Applied h self result tree.new }
        ensures refused { (h : Paths) → StandsFor tree.old h → NamesItsBase h self.change
            → (x : EditRefusal) → outcome_of h self ≡ Err x → result ≡ Err (error_of x) }
        ensures unchanged { OnErr result (tree.new ≡ tree.old) }
    {
        let edit = self.edit;
        let Edit {
            id: _,
            change,
            deleted,
            body,
            ahead,
        } = edit;
        match change {
            Change::New(named) => {
                let Some(id) = ahead else { unreachable!() };
                extend(alloc, tree, named.as_ref(), deleted, body, id)
            }
            Change::Replica(path) => merge(tree, &path, deleted, body),
        }
    }
}

// Looks up a replica's path, and returns its newest revision if the path is known whole; `None` if it is not known whole, but fits.
// Errors: `BadHistory` if it does not fit; `NoMemory` if it is known whole and an allocation fails.
fn look_for(tree: &RevTree, path: &History) -> Result<Option<Rev>, EditError>
    ensures { (h : Paths) → StandsFor tree.now h → LooksFor h path.now result }
{
    if tree.knows_whole(path) {
        return Ok(Some(path.newest()?));
    }
    if !tree.fits(path) {
        return Err(EditError::BadHistory);
    }
    Ok(None)
}

// Merges the path of a replica, and returns the path's newest revision. Errors: `NoMemory` if the revision cannot be copied, and those of
// `RevTree::merge_with`; the tree is then as it was.
fn merge(tree: &mut RevTree, path: &History, deleted: bool, body: Body) -> Result<Rev, EditError>
    ensures accepts { (h : Paths) → StandsFor tree.old h
        → AcceptsAs h deleted body (replicated h path.now) result tree.new }
    ensures unchanged { OnErr result (tree.new ≡ tree.old) }
{
    let rev = path.newest()?;
    tree.merge_with(path, deleted, body)?;
    Ok(rev)
}

// Checks whether a new edit may extend the revision that it names, or make a revision if it names none. Does not check whether the
// revision that the edit would make is already known. Errors: `Conflict` if the named revision is not a leaf, or if none is named but the
// winner is not deleted; `BadHistory` if the base has the last position.
fn check_base(tree: &RevTree, named: Option<&Rev>) -> Result<(), EditRefusal>
    ensures ok { OnOk result ((h : Paths) → StandsFor tree.now h
        → first_refusal h (New (option_copied named.entry)) ≡ None) }
    ensures err { IfErr result
        (λ e. (h : Paths) → StandsFor tree.now h
        → first_refusal h (New (option_copied named.entry)) ≡ Some e) }
{
    let base = base_over(tree, named)?;
    tree.next_position(base)?;
    Ok(())
}

// Finds the base that is extended: the named revision; if none is named, a deleted winner, or `None` in an empty tree. Errors: `Conflict`
// if none is named and the winner is not deleted.
fn base_over<'a>(tree: &'a RevTree, named: Option<&'a Rev>) -> Result<Option<&'a Rev>, EditRefusal>
    ensures { (h : Paths) → StandsFor tree.now h
        → base_found h (option_copied named.entry) ≡ result_map_both option_copied (λ e. e) result }
{
    match named {
        Some(rev) => Ok(Some(rev)),
        None => base_unnamed(tree),
    }
}

// Finds the base that is extended if no revision is named: a deleted winner, or `None` in an empty tree. Errors: `Conflict` if the winner
// is not deleted.
fn base_unnamed(tree: &RevTree) -> Result<Option<&Rev>, EditRefusal>
    ensures { (h : Paths) → StandsFor tree.now h
        → base_found h None ≡ result_map_both option_copied (λ e. e) result }
{
    match tree.winner() {
        None => Ok(None),
        Some(leaf) => if leaf.deleted {
            Ok(Some(&leaf.rev))
        } else {
            Err(EditRefusal::Conflict)
        },
    }
}

// Copies the base that is extended if no revision is named. Errors: `Conflict` if the winner is not deleted; `NoMemory` if an allocation
// fails, which only a base needs.
fn copy_base(alloc: Global, tree: &RevTree) -> Result<Option<Rev>, EditError>
    ensures base { (h : Paths) → StandsFor tree.now h → IsCopyOf (base_found h None) result }
    ensures none { (h : Paths) → StandsFor tree.now h → base_found h None ≡ Ok None → IsOk result }
{
    match base_unnamed(tree)? {
        None => Ok(None),
        Some(rev) => Ok(Some(rev.copy(alloc)?)),
    }
}

// Makes a revision over the named one. If none is named, makes one over a deleted winner, or the document's first revision. `ahead` is
// the id of a revision over the named one or, if none is named, of a first revision. Errors: as for `Edit::apply`; the tree is then as it
// was.
fn extend(
    alloc: Global,
    tree: &mut RevTree,
    named: Option<&Rev>,
    deleted: bool,
    body: Body,
    ahead: String,
) -> Result<Rev, EditError>
    requires { string_bytes ahead ≡ digest_of deleted (option_copied named) body }
    ensures accepts { (h : Paths) → StandsFor tree.old h → AcceptsAs h deleted body
        (extended_by h deleted body (option_copied named.entry)) result tree.new }
    ensures refused { (h : Paths) → StandsFor tree.old h
        → base_of h (option_copied named.entry) ≡ option_copied named.entry
        → HidesNone (extended_by h deleted body (option_copied named.entry)) result }
    ensures unchanged { OnErr result (tree.new ≡ tree.old) }
{
    match named {
        Some(rev) => extend_over(alloc, tree, Some(rev), deleted, body, ahead),
        None => extend_unnamed(alloc, tree, deleted, body, ahead),
    }
}

// Makes a revision over a deleted winner, or the document's first revision, whose id is `ahead`. Errors: as for `extend`.
fn extend_unnamed(
    alloc: Global,
    tree: &mut RevTree,
    deleted: bool,
    body: Body,
    ahead: String,
) -> Result<Rev, EditError>
    requires { string_bytes ahead ≡ digest_of deleted None body }
    ensures accepts { (h : Paths) → StandsFor tree.old h
        → AcceptsAs h deleted body (extended_by h deleted body None) result tree.new }
    ensures refused { (h : Paths) → StandsFor tree.old h → base_of h None ≡ None
        → HidesNone (extended_by h deleted body None) result }
    ensures unchanged { OnErr result (tree.new ≡ tree.old) }
{
    match copy_base(alloc, tree)? {
        None => extend_over(alloc, tree, None, deleted, body, ahead),
        Some(base) => {
            let id = rev_id_of_body(alloc, deleted, Some(&base), &body)?;
            extend_over(alloc, tree, Some(&base), deleted, body, id)
        }
    }
}

// Makes a revision over a base, or the first revision of a document. `id` is the revision's id, of 32 bytes. Errors: those of
// `RevTree::extend_with`; the tree is then as it was.
fn extend_over(
    alloc: Global,
    tree: &mut RevTree,
    base: Option<&Rev>,
    deleted: bool,
    body: Body,
    id: String,
) -> Result<Rev, EditError>
    requires { string_bytes id ≡ digest_of deleted (option_copied base) body }
    ensures accepts { (h : Paths) → StandsFor tree.old h → AcceptsAs h deleted body
        (extended_over h deleted body (option_copied base.entry)) result tree.new }
    ensures refused { (h : Paths) → StandsFor tree.old h
        → HidesNone (extended_over h deleted body (option_copied base.entry)) result }
    ensures unchanged { OnErr result (tree.new ≡ tree.old) }
{
    let rev = Rev {
        pos: position_over(base),
        id: RevId::copy_of(alloc, &id)?,
    };
    tree.extend_with(base, id, deleted, body)?;
    Ok(rev)
}
