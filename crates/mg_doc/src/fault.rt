//! Whether `_rev` and `_revisions` give a change. The answer does not depend on memory, and is found before the edit is copied, so that
//! `NoMemory` never hides a fault.
ghost use Rattle.std.specs.Prelude.{◌≡◌, Some, codes, is_some, option_and_then, option_map, pos};
ghost use Rattle.mg_value.specs.Value.{get_member, whole};
ghost use Rattle.mg_revtree.specs.Revision.{revision_of, run_of};
ghost use Rattle.mg_doc.specs.Document.{change_given, path_ids, rev_of, revisions_of, run_at};
ghost use Rattle.mg_doc.specs.WellFormed.{are_ids, is_enough, is_rev_id_value};

use crate::revisions::position;
use mg_packed::{Array, Kind, Object, Part};
use mg_revtree::{Rev, RevError, is_rev_id};
use std::alloc::Global;

// Whether the members give a change: `_rev` and `_revisions` are each well formed or absent, and a replica gives at least one of them.
// Lack of memory does not change the answer.
pub(crate) fn gives_change(alloc: Global, members: &Object<'_>, new_edit: bool) -> bool
    ensures { result ≡ is_some (change_given new_edit members.now) }
{
    let rev = names_revision(alloc, members.get("_rev"));
    let path = gives_path(members.get("_revisions"));
    is_change(new_edit, rev, path)
}

// Whether `_rev` and `_revisions` are enough for a change, by whether each is there. `None` stands for a malformed one, with which there is
// no change. A replica needs one of them, a new edit neither.
fn is_change(new_edit: bool, rev: Option<bool>, path: Option<bool>) -> bool
    ensures { result ≡ is_enough new_edit rev path }
{
    match (rev, path) {
        (Some(rev), Some(path)) => new_edit || rev || path,
        _ => false,
    }
}

// Whether `_rev` is there; `None` if it is malformed.
#[tactic(auto, using(crate::proofs::Forms::there_or_none))]
fn names_revision(alloc: Global, member: Option<Part<'_>>) -> Option<bool>
    ensures { result ≡ option_map is_some (rev_of member.entry) }
{
    let Some(value) = member else {
        return Some(false);
    };
    match value.kind() {
        Kind::Text(text) => is_revision(alloc, text).then_some(true),
        _ => None,
    }
}

// Whether a text is a revision. `Rev::parse` checks the text before it copies the id, so `NoMemory` means that the text is a revision.
#[tactic(auto, using(crate::proofs::Forms::there_unless_none))]
fn is_revision(alloc: Global, text: &str) -> bool
    ensures { result ≡ is_some (revision_of text.now) }
{
    match Rev::parse(alloc, text).err() {
        Some(RevError::Bad) => false,
        Some(RevError::NoMemory) => true,
        None => true,
    }
}

// Whether `_revisions` is there; `None` if it is malformed.
#[tactic(auto, using(crate::proofs::Forms::there_or_none))]
fn gives_path(member: Option<Part<'_>>) -> Option<bool>
    ensures { result ≡ option_map is_some (revisions_of member.entry) }
{
    let Some(value) = member else {
        return Some(false);
    };
    match value.kind() {
        Kind::Object(members) => is_path(&members).then_some(true),
        _ => None,
    }
}

// Whether `start` and `ids` give a path.
fn is_path(members: &Object<'_>) -> bool
    ensures { result
        ≡ is_some (run_at (get_member (codes "start") members.now) (get_member (codes "ids") members.now)) }
{
    is_path_from(members.get("start"), members.get("ids"))
}

fn is_path_from(start: Option<Part<'_>>, ids: Option<Part<'_>>) -> bool
    ensures { result ≡ is_some (run_at start.entry ids.entry) }
{
    match position(start) {
        Some(start) => is_path_at(start, ids),
        None => false,
    }
}

// Whether `ids` gives the ids of a path whose newest revision is at position `start`.
fn is_path_at(start: u32, ids: Option<Part<'_>>) -> bool
    ensures { result ≡ is_some (run_at (Some (whole (pos start))) ids.entry) }
{
    let Some(ids) = ids else {
        return false;
    };
    match ids.kind() {
        Kind::List(ids) => is_path_of(start, &ids),
        _ => false,
    }
}

// Whether these are 1 to `start` ids of revisions.
#[tactic(auto, using(crate::proofs::Forms::path_of_ids))]
fn is_path_of(start: u32, ids: &Array<'_>) -> bool
    ensures { result ≡ is_some (option_and_then (run_of start) (path_ids ids.now)) }
{
    ids.len() > 0 && ids.len() <= start as usize && are_ids(ids)
}

// Whether each item is the id of a revision.
fn are_ids(ids: &Array<'_>) -> bool
    ensures { result ≡ are_ids ids.now }
{
    for index in 0..ids.len() {
        if !is_id_text(&ids.item(index)) {
            return false;
        }
    }
    true
}

fn is_id_text(value: &Part<'_>) -> bool
    ensures { result ≡ is_rev_id_value value.now }
{
    match value.kind() {
        Kind::Text(id) => is_rev_id(id),
        _ => false,
    }
}
