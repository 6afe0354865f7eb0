ghost use Rattle.std.specs.Prelude.{◌≡◌, [], ◌∷◌, codes, map, pos, string_bytes, IfOk, IfSome, MatchOption, Ok, Option, Some, None, ok_or};
ghost use Rattle.std.specs.Result.{result_map_both};
ghost use Rattle.mg_value.specs.Value.{Items, Value, get_member, item, text, whole};
ghost use Rattle.mg_doc.specs.Document.{ReadsAs, IsRevision, change_by, change_given, path_ids, rev_of, revisions_of, run_at};

use crate::change::Change;
use crate::error::DocError;
use mg_packed::{Array, Kind, Object, Part};
use mg_revtree::{History, Rev};
use std::alloc::Global;

// Reads the change that a document asks for. If both `_revisions` and `_rev` are there, `_revisions` decides. Errors: `BadRev` if either
// is malformed, or if a replica gives neither; `NoMemory` if an allocation fails, which can hide a `BadRev`.
pub(crate) fn change_asked(
    alloc: Global,
    members: &Object<'_>,
    new_edit: bool,
) -> Result<Change, DocError>
    ensures { ReadsAs (ok_or (change_given new_edit members.now) DocError.BadRev) result }
{
    let rev = rev_in(alloc, members.get("_rev"))?;
    let revisions = revisions_in(alloc, members.get("_revisions"))?;
    change_in(alloc, rev, revisions, new_edit)
}

// Makes the change that `_rev` and `_revisions` ask for, which were read as a revision and a path, `run`. If both are there, the path
// decides. Errors: those of `change_of`.
fn change_in(
    alloc: Global,
    rev: Option<Rev>,
    run: Option<History>,
    new_edit: bool,
) -> Result<Change, DocError>
    requires { IfSome rev IsRevision }
    ensures { ReadsAs (ok_or (change_by new_edit rev run) DocError.BadRev) result }
{
    let Some(run) = run else {
        return change_of(alloc, rev, new_edit);
    };
    Ok(if new_edit {
        Change::New(Some(run.into_newest()))
    } else {
        Change::Replica(run)
    })
}

// Makes the change that `_rev` asks for, without `_revisions`. Errors: `BadRev` if a replica gives no `_rev`; `NoMemory` if an allocation
// fails.
fn change_of(alloc: Global, rev: Option<Rev>, new_edit: bool) -> Result<Change, DocError>
    requires { IfSome rev IsRevision }
    ensures { ReadsAs (ok_or (change_by new_edit rev None) DocError.BadRev) result }
{
    if new_edit {
        return Ok(Change::New(rev));
    }
    match rev {
        None => Err(DocError::BadRev),
        Some(rev) => Ok(Change::Replica(path_of(alloc, rev)?)),
    }
}

// Reads the revision that `_rev` gives, if it is there. Errors: `BadRev` if `_rev` is malformed; `NoMemory` if an allocation fails.
fn rev_in(alloc: Global, member: Option<Part<'_>>) -> Result<Option<Rev>, DocError>
    ensures rev { ReadsAs (ok_or (rev_of member.entry) DocError.BadRev) result }
    ensures revision { IfOk result (λ o. IfSome o IsRevision) }
{
    let Some(value) = member else {
        return Ok(None);
    };
    match value.kind() {
        Kind::Text(text) => Ok(Some(Rev::parse(alloc, text)?)),
        _ => Err(DocError::BadRev),
    }
}

// Makes the path of this revision alone. Errors: `NoMemory` if an allocation fails.
fn path_of(alloc: Global, rev: Rev) -> Result<History, DocError>
    requires { IsRevision rev }
    ensures { ReadsAs (Ok (rev ∷ [])) result }
{
    let id = String::from_str(alloc, rev.id.as_str())?;
    History::new(rev.pos, vec![in alloc; id]?).ok_or(DocError::BadRev)
}

// Reads the path that `_revisions` gives, `{"start":N,"ids":[..]}`, if it is there. Errors: `BadRev` if `_revisions` is malformed;
// `NoMemory` if an allocation fails.
fn revisions_in(alloc: Global, member: Option<Part<'_>>) -> Result<Option<History>, DocError>
    ensures { ReadsAs (ok_or (revisions_of member.entry) DocError.BadRev) result }
{
    let Some(value) = member else {
        return Ok(None);
    };
    match value.kind() {
        Kind::Object(members) => Ok(Some(path_in(alloc, &members)?)),
        _ => Err(DocError::BadRev),
    }
}

// Reads the path that the members `start` and `ids` give. Errors: `BadRev` if they give none; `NoMemory` if an allocation fails.
fn path_in(alloc: Global, members: &Object<'_>) -> Result<History, DocError>
    ensures { ReadsAs (ok_or
        (run_at (get_member (codes "start") members.now) (get_member (codes "ids") members.now))
        DocError.BadRev) result }
{
    match position(members.get("start")) {
        Some(start) => path_at(alloc, start, members.get("ids")),
        None => Err(DocError::BadRev),
    }
}

// Reads the position that `start` gives: a whole number from 0 to 4,294,967,295. `None` if it is absent or any other value.
pub(crate) fn position(member: Option<Part<'_>>) -> Option<u32>
    ensures { MatchOption result
        ((ids : Option Value) → run_at member.entry ids ≡ None)
        (λ n. member.entry ≡ Some (whole (pos n))) }
{
    match member?.kind() {
        Kind::Whole(start) => u32::try_from(start).ok(),
        _ => None,
    }
}

// Reads the path whose newest revision is at position `start`, from `ids`. Errors: those of `path_in`.
fn path_at(alloc: Global, start: u32, member: Option<Part<'_>>) -> Result<History, DocError>
    ensures { ReadsAs (ok_or (run_at (Some (whole (pos start))) member.entry) DocError.BadRev) result }
{
    let Some(ids) = member else {
        return Err(DocError::BadRev);
    };
    match ids.kind() {
        Kind::List(ids) => {
            let ids = path_ids(alloc, &ids)?;
            History::new(start, ids).ok_or(DocError::BadRev)
        }
        _ => Err(DocError::BadRev),
    }
}

// Copies the ids of a path. Errors: `BadRev` if one of them is not a text; `NoMemory` if an allocation fails.
fn path_ids(alloc: Global, ids: &Array<'_>) -> Result<Vec<String>, DocError>
    ensures { ReadsAs (ok_or (path_ids ids.now) DocError.BadRev)
        (result_map_both (λ texts. map string_bytes texts.items) (λ e. e) result) }
{
    let count = ids.len();
    let mut texts = Vec::with_capacity(alloc, count)?;
    for index in 0..count {
        let Some(id) = given_text(&ids.item(index)) else {
            return Err(DocError::BadRev);
        };
        texts.push(String::from_str(alloc, id)?)?;
    }
    Ok(texts)
}

// Returns the text of a value; `None` if the value is not a text.
fn given_text<'a>(value: &Part<'a>) -> Option<&'a str>
    ensures { MatchOption result
        ((rest : Items) → path_ids (item value.now rest) ≡ None)
        (λ id. value.now ≡ text id.now) }
{
    match value.kind() {
        Kind::Text(id) => Some(id),
        _ => None,
    }
}
