//! Documents as their leaves have them.
ghost use Rattle.std.specs.Prelude.{◌≡◌, IfOk, map, string_bytes};
ghost use Rattle.mg_value.specs.View.{view};
ghost use Rattle.mg_revtree.specs.History.{Paths};
ghost use Rattle.mg_revtree.specs.Tree.{StandsFor};
ghost use Rattle.mg_doc.specs.Leaf.{id_texts, leaf_form, revisions_value, with_revisions_of};

use crate::document::served_form;
use mg_revtree::{Leaf, Rev, RevTree};
use mg_value::{Json, NoMemory};
use std::alloc::Global;

/// Makes the document that a leaf has: the leaf's body with `_id` and `_rev`, and with `"_deleted":true` if the leaf deletes the document.
///
/// Errors: `NoMemory` if an allocation fails. Cost: a copy of the body. Source: `rev` of `GET` of a document in CouchDB's API reference.
pub fn leaf_document(alloc: Global, id: &str, leaf: &Leaf) -> Result<Json, NoMemory>
    ensures { IfOk result (λ form. view form ≡ leaf_form id.now leaf.now) }
{
    let form = served_form(alloc, id, leaf)?;
    if !leaf.deleted {
        return Ok(form);
    }
    let mut marked = form;
    marked.insert(alloc, "_deleted", Json::Flag(true))?;
    Ok(marked)
}

/// Adds `_revisions` to a document: `{"ids":[..],"start":N}`, the ids of a revision and of its known ancestors, newest first, and the
/// position of the revision. A value that is not an object comes back as it was.
///
/// Errors: `NoMemory` if an allocation fails; the document is then dropped. Cost: that of `RevTree::ancestry`. Source: `revs` of `GET` of a
/// document in CouchDB's API reference.
pub fn with_revisions(
    alloc: Global,
    document: Json,
    tree: &RevTree,
    rev: &Rev,
) -> Result<Json, NoMemory>
    ensures { IfOk result (λ v. (h : Paths) → StandsFor tree.now h
        → view v ≡ with_revisions_of h rev.now (view document)) }
{
    let ids = tree.ancestry(alloc, rev)?;
    let revisions = revisions_json(alloc, rev.pos, ids)?;
    let mut shown = document;
    shown.insert(alloc, "_revisions", revisions)?;
    Ok(shown)
}

// Makes `{"ids":[..],"start":N}`. Errors: `NoMemory` if an allocation fails.
fn revisions_json(alloc: Global, start: u32, ids: Vec<String>) -> Result<Json, NoMemory>
    ensures { IfOk result (λ v. view v ≡ revisions_value start (map string_bytes ids.items)) }
{
    let texts = id_texts(alloc, ids)?;
    let mut revisions = Json::empty_object(alloc);
    revisions.insert(alloc, "ids", Json::List(texts))?;
    revisions.insert(alloc, "start", Json::Whole(i64::from(start)))?;
    Ok(revisions)
}

// Makes a text of each id. Errors: `NoMemory` if an allocation fails.
fn id_texts(alloc: Global, ids: Vec<String>) -> Result<Vec<Json>, NoMemory>
    ensures { IfOk result (λ texts. map view texts.items ≡ id_texts (map string_bytes ids.items)) }
{
    let mut texts = Vec::with_capacity(alloc, ids.len())?;
    for id in ids {
        texts.push(Json::Text(id))?;
    }
    Ok(texts)
}
