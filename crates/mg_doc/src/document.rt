ghost use Rattle.std.specs.Prelude.{◌≡◌, IfOk, IfSome, IsOk, None};
ghost use Rattle.mg_value.specs.View.{view};
ghost use Rattle.mg_revtree.specs.History.{Paths, Leaf as Winner, first_of};
ghost use Rattle.mg_revtree.specs.Tree.{StandsFor};
ghost use Rattle.mg_doc.specs.Served.{served_form, served_of};

use mg_revtree::{Form, Leaf, RevTree};
use mg_value::{Json, NoMemory};
use std::alloc::Global;

// Makes a leaf's form: its body with the document's id as `_id` and the leaf's revision as `_rev`. Errors: `NoMemory` if an allocation
// fails.
pub(crate) fn served_form(alloc: Global, id: &str, leaf: &Leaf) -> Result<Json, NoMemory>
    ensures { IfOk result (λ form. view form ≡ served_form id.now leaf.now) }
{
    let mut form = leaf.body.copy(alloc)?;
    form.insert(alloc, "_rev", Json::Text(leaf.rev.text(alloc)?))?;
    form.insert(alloc, "_id", Json::Text(String::from_str(alloc, id)?))?;
    Ok(form)
}

/// Makes the document that `served` returns, in one block of memory with its text. The winner's body moves into that block, as for
/// `RevTree::move_body_into`. Contracts see no change of the tree.
///
/// Errors: those of `Body::form`; if there is no document, no memory is needed. Cost: that of `Body::form` and of
/// `RevTree::move_body_into`. Source: `GET` of a document in CouchDB's API reference.
pub fn serve_form(alloc: Global, id: &str, tree: &mut RevTree) -> Result<Option<Form>, NoMemory>
    ensures served { IfOk result (λ o. (h : Paths) → StandsFor tree.old h → o ≡ served_of id.now h) }
    ensures form { IfOk result (λ o. IfSome o (λ form. (l : Winner) × (form ≡ served_form id.now l))) }
    ensures none { (h : Paths) → StandsFor tree.old h → served_of id.now h ≡ None → IsOk result }
    ensures tree { tree.new ≡ tree.old }
{
    let form = winner_form(alloc, id, tree)?;
    if let Some(form) = &form {
        let own = form.share()?;
        tree.move_body_into(own);
    }
    Ok(form)
}

// Makes the form of the winner; `None` if the winner is deleted, or the tree is empty. Errors: as for `serve_form`.
fn winner_form(alloc: Global, id: &str, tree: &RevTree) -> Result<Option<Form>, NoMemory>
    ensures served { IfOk result (λ o. (h : Paths) → StandsFor tree.now h → o ≡ served_of id.now h) }
    ensures form { IfOk result (λ o. IfSome o (λ form. (l : Winner) × (form ≡ served_form id.now l))) }
    ensures first { IfOk result
        (λ o. IfSome o (λ form. IfSome (first_of tree.now.leaves) (λ l. form ≡ served_form id.now l))) }
    ensures none { (h : Paths) → StandsFor tree.now h → served_of id.now h ≡ None → IsOk result }
{
    match tree.winner() {
        Some(leaf) if !leaf.deleted => Ok(Some(leaf_form(alloc, id, leaf)?)),
        _ => Ok(None),
    }
}

// Makes the form of a leaf, in one block with its text. Errors: as for `serve_form`.
fn leaf_form(alloc: Global, id: &str, leaf: &Leaf) -> Result<Form, NoMemory>
    ensures { IfOk result (λ form. form ≡ served_form id.now leaf.now) }
{
    leaf.body.form(alloc, id, &leaf.rev.text(alloc)?)
}
