ghost use Rattle.std.specs.Prelude.{◌≡◌, IfOk, IsOk, [], map};
ghost use Rattle.mg_value.specs.View.{view};
ghost use Rattle.mg_revtree.specs.History.{Paths};
ghost use Rattle.mg_revtree.specs.Losers.{losers_of};
ghost use Rattle.mg_revtree.specs.Tree.{StandsFor};
ghost use Rattle.mg_doc.specs.Conflicts.{leaf_text, with_conflicts_of};

use mg_revtree::{Leaf, RevTree};
use mg_value::{Json, NoMemory};
use std::alloc::Global;

/// Adds `_conflicts` to a document: an array of the revisions of its losers, as texts, best first. The losers are the leaves
/// that are neither deleted nor the winner. A document without losers comes back as it was, and so does a value that is not
/// an object.
///
/// Errors: `NoMemory` if an allocation fails; the document is then dropped. Without losers, no memory is needed. Cost: the number of the
/// leaves, and the length of the texts. Source: `conflicts` of `GET` and `_find` in CouchDB's API reference.
pub fn with_conflicts(alloc: Global, document: Json, tree: &RevTree) -> Result<Json, NoMemory>
    ensures shown { IfOk result
        (λ v. (h : Paths) → StandsFor tree.now h → view v ≡ with_conflicts_of h (view document)) }
    ensures none { (h : Paths) → StandsFor tree.now h → losers_of h ≡ [] → IsOk result }
{
    let losers = tree.losers()?;
    if losers.is_empty() {
        return Ok(document);
    }
    let mut shown = document;
    shown.insert(
        alloc,
        "_conflicts",
        Json::List(revision_texts(alloc, &losers)?),
    )?;
    Ok(shown)
}

// Writes the revisions of leaves as texts. Errors: `NoMemory` if an allocation fails.
fn revision_texts(alloc: Global, leaves: &[&Leaf]) -> Result<Vec<Json>, NoMemory>
    ensures { IfOk result (λ texts. map view texts.items ≡ map (λ l. leaf_text l.now) leaves.now) }
{
    let mut texts = Vec::with_capacity(alloc, leaves.len())?;
    for leaf in leaves {
        texts.push(Json::Text(leaf.rev.text(alloc)?))?;
    }
    Ok(texts)
}
