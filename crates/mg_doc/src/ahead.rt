//! What is made of an edit before the tree of its document is known.
ghost use Rattle.std.specs.Prelude.{◌≡◌, ◌+◌, ◌==◌, IfOk, false, option_copied, option_map, string_bytes};
ghost use Rattle.mg_revtree.specs.Changes.{position_below};
ghost use Rattle.mg_doc.specs.Ahead.{ahead_of};

use crate::change::Change;
use crate::digest::part_rev_id;
use mg_packed::Packed;
use mg_revtree::{Body, Rev, RevId};
use mg_value::NoMemory;
use std::alloc::Global;

// Makes the id of a new edit's revision before the tree is known. The id is right if the edit extends the revision that it names, or
// makes the first revision of its document. `None` for a replica's change. Errors: those of `part_rev_id`.
pub(crate) fn id_ahead(
    alloc: Global,
    change: &Change,
    deleted: bool,
    body: &Packed,
) -> Result<Option<String>, NoMemory>
    ensures { IfOk result
        (λ o. option_map string_bytes o ≡ ahead_of change.now deleted body.now) }
{
    match change {
        Change::New(named) => Ok(Some(part_rev_id(alloc, deleted, named.as_ref(), &body.part())?)),
        Change::Replica(_) => Ok(None),
    }
}

// Keeps the body of an edit. The body of a new edit that has an id and does not delete goes into the block of the form with that id and with
// the revision that is made ahead: it is served in this block if that revision is made and wins, so that no form has to be made then. Any
// other body keeps its block. Errors: `NoMemory` if an allocation fails. Cost: for a new edit that of `Body::form`; else constant.
pub(crate) fn body_ahead(
    alloc: Global,
    id: Option<&str>,
    change: &Change,
    deleted: bool,
    ahead: Option<&str>,
    body: Packed,
) -> Result<Body, NoMemory>
    ensures { IfOk result (λ made. made ≡ body) }
{
    match (id, change, ahead) {
        (Some(id), Change::New(named), Some(ahead)) if !deleted => {
            form_ahead(alloc, id, named.as_ref(), ahead, body)
        }
        _ => Ok(Body::of(body)),
    }
}

// Keeps a body in the block of its form with this id, and with the revision of the id `ahead` over the named one. Errors: `NoMemory` if an
// allocation fails.
fn form_ahead(
    alloc: Global,
    id: &str,
    named: Option<&Rev>,
    ahead: &str,
    body: Packed,
) -> Result<Body, NoMemory>
    ensures { IfOk result (λ made. made ≡ body) }
{
    let rev = Rev {
        pos: position_over(named),
        id: RevId::copy_of(alloc, ahead)?,
    };
    Body::in_form(alloc, body, id, &rev.text(alloc)?)
}

// Returns the position over a base, or 1 without a base. For a base at the last position, returns that position; `RevTree::extend_with`
// refuses such a base.
pub(crate) fn position_over(base: Option<&Rev>) -> u32
    ensures { (position_below (option_copied base.entry) == 4294967295) ≡ false
        → result ≡ position_below (option_copied base.entry) + 1 }
{
    match base {
        None => 1,
        Some(rev) => rev.pos.saturating_add(1),
    }
}
