//! An edit that was made elsewhere, as `new_edits=false` says of it.
ghost use Rattle.std.specs.Prelude.{◌≡◌, IfOk};
ghost use Rattle.std.specs.Option.{option_map};
ghost use Rattle.std.specs.String.{string_bytes};
ghost use Rattle.mg_value.specs.View.{view};
ghost use Rattle.mg_revtree.specs.Revision.{revision_text};
ghost use Rattle.mg_face.specs.Replica.{as_replica, bulk_with, first_item, position_of, revision_at, newest_in, newest_or_rev, revision_named, made_entry, entry_with, replica_entry};

use crate::edited::copy_at;
use mg_packed::Packed;
use mg_value::{Json, NoMemory};
use std::alloc::Global;

/// Says of the body of a bulk that its edits are not new, if they are a replica's.
///
/// Errors: out of memory.
fn as_replica(alloc: Global, replica: bool, body: Json) -> Result<Json, NoMemory>
    ensures { IfOk result (λ v. view v ≡ as_replica replica (view body)) }
{
    if !replica {
        return Ok(body);
    }
    let mut body = body;
    body.insert(alloc, "new_edits", Json::Flag(false))?;
    Ok(body)
}

/// Makes a bulk of one document.
///
/// Errors: out of memory.
pub(crate) fn bulk_with(alloc: Global, replica: bool, document: Json) -> Result<Packed, NoMemory>
    ensures { IfOk result (λ packed. packed ≡ bulk_with replica (view document)) }
{
    let mut documents = Vec::new(alloc);
    documents.push(document)?;
    let mut body = Json::empty_object(alloc);
    body.insert(alloc, "docs", Json::List(documents))?;
    let body = as_replica(alloc, replica, body)?;
    Packed::of(alloc, &body)
}

/// Returns the first item of an array.
fn first_item(value: Option<&Json>) -> Option<&Json>
    ensures { option_map (λ v. view v.now) result ≡ first_item (option_map (λ v. view v.now) value.entry) }
{
    match value {
        Some(Json::List(items)) => items.first(),
        _ => None,
    }
}

/// Returns the position that a number is.
fn position_of(number: i64) -> Option<u64>
    ensures { result ≡ position_of number }
{
    u64::try_from(number).ok()
}

/// Writes the revision of an id at a position.
///
/// Errors: out of memory.
fn revision_text(alloc: Global, position: u64, id: &str) -> Result<String, NoMemory>
    ensures { IfOk result (λ s. string_bytes s ≡ revision_text (position, id.now)) }
{
    Ok(format!(in alloc; "{position}-{id}")?)
}

/// Writes the revision of an id at a position, if there is one.
///
/// Errors: out of memory.
fn revision_of(alloc: Global, position: Option<u64>, id: &str) -> Result<Option<String>, NoMemory>
    ensures { IfOk result
        (λ o. option_map string_bytes o ≡ option_map (λ n. revision_text (n, id.now)) position) }
{
    match position {
        Some(position) => Ok(Some(revision_text(alloc, position, id)?)),
        None => Ok(None),
    }
}

/// Writes the revision of an id, a text, at a position.
///
/// Errors: out of memory.
fn revision_at(
    alloc: Global,
    position: Option<&Json>,
    id: Option<&Json>,
) -> Result<Option<String>, NoMemory>
    ensures { IfOk result (λ o. option_map string_bytes o
        ≡ revision_at (option_map (λ v. view v.now) position.entry) (option_map (λ v. view v.now) id.entry)) }
{
    match (position, id) {
        (Some(Json::Whole(position)), Some(Json::Text(id))) => {
            revision_of(alloc, position_of(*position), id.as_str())
        }
        _ => Ok(None),
    }
}

/// Writes the newest revision of a path.
///
/// Errors: out of memory.
fn newest_in(alloc: Global, path: &Json) -> Result<Option<String>, NoMemory>
    ensures { IfOk result (λ o. option_map string_bytes o ≡ newest_in (view path.now)) }
{
    revision_at(alloc, path.member("start"), first_item(path.member("ids")))
}

/// Writes the revision of the edit that a replica's document is.
///
/// Errors: out of memory.
fn revision_named(alloc: Global, document: &Json) -> Result<Option<String>, NoMemory>
    ensures { IfOk result (λ o. option_map string_bytes o ≡ revision_named (view document.now)) }
{
    match document.member("_revisions") {
        Some(path) => newest_in(alloc, path),
        None => copy_at(alloc, document, "_rev"),
    }
}

/// Makes the entry of an edit that was made.
///
/// Errors: out of memory.
fn made_entry(alloc: Global, id: String, revision: String) -> Result<Json, NoMemory>
    ensures { IfOk result (λ v. view v ≡ made_entry (string_bytes id) (string_bytes revision)) }
{
    let mut entry = Json::empty_object(alloc);
    entry.insert(alloc, "rev", Json::Text(revision))?;
    entry.insert(alloc, "ok", Json::Flag(true))?;
    entry.insert(alloc, "id", Json::Text(id))?;
    Ok(entry)
}

/// Makes the entry of these; `None` if either is missing.
///
/// Errors: out of memory.
fn entry_with(
    alloc: Global,
    id: Option<String>,
    revision: Option<String>,
) -> Result<Option<Json>, NoMemory>
    ensures { IfOk result (λ o. option_map view o
        ≡ entry_with (option_map string_bytes id) (option_map string_bytes revision)) }
{
    match (id, revision) {
        (Some(id), Some(revision)) => Ok(Some(made_entry(alloc, id, revision)?)),
        _ => Ok(None),
    }
}

/// Makes the entry of a replica's edit that is made; `None`: the document names no revision.
///
/// Errors: out of memory.
pub(crate) fn replica_entry(alloc: Global, document: &Json) -> Result<Option<Json>, NoMemory>
    ensures { IfOk result (λ o. option_map view o ≡ replica_entry (view document.now)) }
{
    let id = copy_at(alloc, document, "_id")?;
    let revision = revision_named(alloc, document)?;
    entry_with(alloc, id, revision)
}
