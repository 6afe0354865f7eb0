//! Documents with more than their bodies.
ghost use Rattle.std.specs.Prelude.{◌≡◌, IfOk, drop, map, string_bytes};
ghost use Rattle.std.specs.List.{filter, list_any};
ghost use Rattle.std.specs.Option.{option_copied};
ghost use Rattle.mg_value.specs.Value.{list};
ghost use Rattle.mg_value.specs.View.{items_of, view};
ghost use Rattle.mg_revtree.specs.History.{Paths};
ghost use Rattle.mg_revtree.specs.Revision.{run_from, same_revision};
ghost use Rattle.mg_revtree.specs.Tree.{StandsFor};
ghost use Rattle.mg_doc.specs.Conflicts.{leaf_text};
ghost use Rattle.mg_engine.specs.Commands.{with_conflicts_if};
ghost use Rattle.mg_engine.specs.More.{info_value, latest_of, leaf_asked, with_deleted_conflicts_if, with_info_if, with_more, with_revisions_if, with_values};

use crate::question::More;
use mg_doc::{with_conflicts, with_revisions};
use mg_revtree::{Leaf, Rev, RevTree};
use mg_value::{Json, NoMemory};
use std::alloc::Global;

// Returns the leaf of a revision; if `latest` is true, the best leaf on whose path the revision is. `None` if there is none. Errors:
// `NoMemory` if an allocation fails. Cost: if `latest` is true, the number of all revisions on the paths of the leaves.
pub(crate) fn leaf_asked<'t>(
    alloc: Global,
    tree: &'t RevTree,
    rev: &Rev,
    latest: bool,
) -> Result<Option<&'t Leaf>, NoMemory>
    ensures { IfOk result (λ o. (h : Paths) → StandsFor tree.now h
        → option_copied o ≡ leaf_asked latest h rev.now) }
{
    if latest {
        latest_of(alloc, tree, rev)
    } else {
        Ok(tree.leaf(rev))
    }
}

// Returns the best leaf on whose path a revision is. Errors: `NoMemory` if an allocation fails.
fn latest_of<'t>(alloc: Global, tree: &'t RevTree, rev: &Rev) -> Result<Option<&'t Leaf>, NoMemory>
    ensures { IfOk result (λ o. (h : Paths) → StandsFor tree.now h
        → option_copied o ≡ latest_of h rev.now) }
{
    let leaves = tree.leaves()?;
    for leaf in leaves {
        let ids = tree.ancestry(alloc, &leaf.rev)?;
        if is_on_path(rev, leaf.rev.pos, ids.as_slice()) {
            return Ok(Some(leaf));
        }
    }
    Ok(None)
}

// Whether a revision is on the path of these ids, newest first, the first of which has this position.
fn is_on_path(rev: &Rev, newest: u32, ids: &[String]) -> bool
    ensures { result ≡ list_any (same_revision rev.now) (run_from newest (map string_bytes ids.now)) }
{
    let mut pos = newest;
    for id in ids {
        if is_at(rev, pos, id.as_str()) {
            return true;
        }
        pos = pos.saturating_sub(1);
    }
    false
}

// Whether a revision has this position and this id.
fn is_at(rev: &Rev, pos: u32, id: &str) -> bool
    ensures { result ≡ same_revision rev.now (pos, id.now) }
{
    let order = rev.pos.cmp(&pos);
    order.then(rev.id.as_bytes().cmp(id.as_bytes())).is_eq()
}

// Adds to a document what is asked for; the revision is the one that is shown. Errors: `NoMemory` if an allocation fails.
pub(crate) fn with_more(
    alloc: Global,
    document: Json,
    tree: &RevTree,
    rev: &Rev,
    more: More,
) -> Result<Json, NoMemory>
    ensures { IfOk result (λ v. (h : Paths) → StandsFor tree.now h
        → view v ≡ with_more more h rev.now (view document)) }
{
    let shown = with_conflicts_if(alloc, document, tree, more.conflicts)?;
    let shown = with_deleted_conflicts_if(alloc, shown, tree, more.deleted_conflicts)?;
    let shown = with_revisions_if(alloc, shown, tree, rev, more.revisions)?;
    let shown = with_info_if(alloc, shown, tree, rev, more.revisions_info)?;
    Ok(shown)
}

// Adds its conflicts to a document, if they are asked for. Errors: `NoMemory` if an allocation fails.
fn with_conflicts_if(
    alloc: Global,
    document: Json,
    tree: &RevTree,
    asked: bool,
) -> Result<Json, NoMemory>
    ensures { IfOk result (λ v. (h : Paths) → StandsFor tree.now h
        → view v ≡ with_conflicts_if asked h (view document)) }
{
    if asked {
        Ok(with_conflicts(alloc, document, tree)?)
    } else {
        Ok(document)
    }
}

// Adds the path of a revision to a document, if it is asked for. Errors: `NoMemory` if an allocation fails.
pub(crate) fn with_revisions_if(
    alloc: Global,
    document: Json,
    tree: &RevTree,
    rev: &Rev,
    asked: bool,
) -> Result<Json, NoMemory>
    ensures { IfOk result (λ v. (h : Paths) → StandsFor tree.now h
        → view v ≡ with_revisions_if asked h rev.now (view document)) }
{
    if asked {
        Ok(with_revisions(alloc, document, tree, rev)?)
    } else {
        Ok(document)
    }
}

// Adds `_revs_info` to a document, if it is asked for. Errors: `NoMemory` if an allocation fails.
fn with_info_if(
    alloc: Global,
    document: Json,
    tree: &RevTree,
    rev: &Rev,
    asked: bool,
) -> Result<Json, NoMemory>
    ensures { IfOk result (λ v. (h : Paths) → StandsFor tree.now h
        → view v ≡ with_info_if asked h rev.now (view document)) }
{
    if !asked {
        return Ok(document);
    }
    let ids = tree.ancestry(alloc, rev)?;
    let infos = infos_json(alloc, rev.pos, ids)?;
    let mut shown = document;
    shown.insert(alloc, "_revs_info", infos)?;
    Ok(shown)
}

// Makes the array of `_revs_info`. Errors: `NoMemory` if an allocation fails.
fn infos_json(alloc: Global, newest: u32, ids: Vec<String>) -> Result<Json, NoMemory>
    ensures { IfOk result (λ v. view v
        ≡ list (items_of (map (info_value newest) (run_from newest (map string_bytes ids.items))))) }
{
    Ok(Json::List(infos(alloc, newest, ids)?))
}

// Makes an entry of each id. Errors: `NoMemory` if an allocation fails.
fn infos(alloc: Global, newest: u32, ids: Vec<String>) -> Result<Vec<Json>, NoMemory>
    ensures { IfOk result (λ infos. map view infos.items
        ≡ map (info_value newest) (run_from newest (map string_bytes ids.items))) }
{
    let mut infos = Vec::with_capacity(alloc, ids.len())?;
    let mut pos = newest;
    for id in ids {
        infos.push(info(alloc, newest, pos, id.as_str())?)?;
        pos = pos.saturating_sub(1);
    }
    Ok(infos)
}

// Makes `{"rev":..,"status":..}`. Errors: `NoMemory` if an allocation fails.
fn info(alloc: Global, newest: u32, pos: u32, id: &str) -> Result<Json, NoMemory>
    ensures { IfOk result (λ v. view v ≡ info_value newest (pos, id.now)) }
{
    let status = if pos == newest {
        "available"
    } else {
        "missing"
    };
    let mut info = Json::empty_object(alloc);
    info.insert(alloc, "rev", Json::Text(format!(in alloc; "{pos}-{id}")?))?;
    info.insert(
        alloc,
        "status",
        Json::Text(String::from_str(alloc, status)?),
    )?;
    Ok(info)
}

// Adds the deleted conflicts to a document, if they are asked for. Errors: `NoMemory` if an allocation fails.
fn with_deleted_conflicts_if(
    alloc: Global,
    document: Json,
    tree: &RevTree,
    asked: bool,
) -> Result<Json, NoMemory>
    ensures { IfOk result (λ v. (h : Paths) → StandsFor tree.now h
        → view v ≡ with_deleted_conflicts_if asked h (view document)) }
{
    if !asked {
        return Ok(document);
    }
    let leaves = tree.leaves()?;
    let texts = deleted_texts(alloc, leaves.as_slice())?;
    let shown = with_values(alloc, document, "_deleted_conflicts", texts)?;
    Ok(shown)
}

// Writes the revisions of the deleted ones of these leaves but the first, as texts. Errors: `NoMemory` if an allocation fails.
fn deleted_texts(alloc: Global, leaves: &[&Leaf]) -> Result<Vec<Json>, NoMemory>
    ensures { IfOk result (λ texts. map view texts.items
        ≡ map leaf_text (filter (λ l. l.deleted) (drop 1 (map (λ l. l.now) leaves.now)))) }
{
    match leaves {
        [_, losers @ ..] => texts_of_deleted(alloc, losers),
        [] => Ok(Vec::new(alloc)),
    }
}

// Writes the revisions of the deleted ones of these leaves, as texts. Errors: `NoMemory` if an allocation fails.
fn texts_of_deleted(alloc: Global, leaves: &[&Leaf]) -> Result<Vec<Json>, NoMemory>
    ensures { IfOk result (λ texts. map view texts.items
        ≡ map leaf_text (filter (λ l. l.deleted) (map (λ l. l.now) leaves.now))) }
{
    let mut texts = Vec::new(alloc);
    for leaf in leaves {
        if leaf.deleted {
            texts.push(Json::Text(leaf.rev.text(alloc)?))?;
        }
    }
    Ok(texts)
}

// Puts values at a name, if there are any. Errors: `NoMemory` if an allocation fails.
fn with_values(
    alloc: Global,
    document: Json,
    name: &str,
    values: Vec<Json>,
) -> Result<Json, NoMemory>
    ensures { IfOk result (λ v. view v ≡ with_values name.now (map view values.items) (view document)) }
{
    if values.is_empty() {
        return Ok(document);
    }
    let mut shown = document;
    shown.insert(alloc, name, Json::List(values))?;
    Ok(shown)
}
