//! A bulk some of whose documents have a number that is not whole.
ghost use Rattle.std.specs.Prelude.{◌≡◌, None, map, option_and_then, IfOk};
ghost use Rattle.std.specs.Option.{option_map};
ghost use Rattle.std.specs.String.{string_bytes};
ghost use Rattle.serde_json.specs.Data as parsed;
ghost use Rattle.serde_json.specs.Find.{as_array};
ghost use Rattle.serde_json.specs.View.{view as data_view, items_view as data_items, members_view as data_members};
ghost use Rattle.mg_value.specs.View.{view};
ghost use Rattle.mg_face.specs.Bulk.{are_documents, not_whole_entry, id_in, refusals_of, executed, partial_with, partial_of, partial_in};
ghost use Rattle.mg_face.specs.Sorting.{IsSortedOut};

use crate::number::value_of;
use mg_value::{Json, NoMemory};
use serde_json::{Map, Value};
use std::alloc::Global;

const REASON: &str =
    "numbers are whole here: a number of the document has a fraction, or more than 64 bits.";

/// A document of a bulk.
pub(crate) enum Document {
    /// Its value, which is executed.
    Executed(Json),
    /// The entry that says why it is refused.
    Refused(Json),
}

/// Makes the entry of a document that is refused.
///
/// Errors: out of memory.
fn entry_without_id(alloc: Global) -> Result<Json, NoMemory>
    ensures { IfOk result (λ v. view v ≡ not_whole_entry None) }
{
    let mut entry = Json::empty_object(alloc);
    entry.insert(
        alloc,
        "reason",
        Json::Text(String::from_str(alloc, REASON)?),
    )?;
    entry.insert(
        alloc,
        "error",
        Json::Text(String::from_str(alloc, "not_whole")?),
    )?;
    Ok(entry)
}

/// Makes the entry of a document that is refused, with its id if it has one.
///
/// Errors: out of memory.
fn not_whole_entry(alloc: Global, id: Option<String>) -> Result<Json, NoMemory>
    ensures { IfOk result (λ v. view v ≡ not_whole_entry (option_map string_bytes id)) }
{
    let mut entry = entry_without_id(alloc)?;
    let Some(id) = id else {
        return Ok(entry);
    };
    entry.insert(alloc, "id", Json::Text(id))?;
    Ok(entry)
}

/// Copies the id of a document.
///
/// Errors: out of memory.
fn id_in(alloc: Global, document: &Value) -> Result<Option<String>, NoMemory>
    ensures { IfOk result (λ o. option_map string_bytes o ≡ id_in (data_view document.now)) }
{
    match document.get("_id").and_then(Value::as_str) {
        Some(id) => Ok(Some(String::from_str(alloc, id)?)),
        None => Ok(None),
    }
}

/// Returns the value of a document, or the entry that says that it has none.
///
/// Errors: out of memory.
fn judged(alloc: Global, document: Value) -> Result<Document, NoMemory>
    ensures { IfOk result (IsSortedOut (data_view document)) }
{
    let id = id_in(alloc, &document)?;
    match value_of(alloc, document)? {
        Some(value) => Ok(Document::Executed(value)),
        None => Ok(Document::Refused(not_whole_entry(alloc, id)?)),
    }
}

/// Sorts the documents of a bulk: those that are executed, and for each document its entry if it is refused.
///
/// Errors: out of memory.
fn sorted(alloc: Global, documents: Vec<Value>) -> Result<(Vec<Json>, Vec<Option<Json>>), NoMemory>
    ensures executed { IfOk result (λ r. map view r.0.items ≡ executed (data_items documents.items)) }
    ensures refusals { IfOk result (λ r. map (option_map view) r.1.items ≡ refusals_of (data_items documents.items)) }
{
    let mut found = Vec::with_capacity(alloc, documents.len())?;
    let mut refusals = Vec::with_capacity(alloc, documents.len())?;
    for document in documents {
        match judged(alloc, document)? {
            Document::Executed(value) => {
                found.push(value)?;
                refusals.push(None)?;
            }
            Document::Refused(entry) => refusals.push(Some(entry))?,
        }
    }
    Ok((found, refusals))
}

/// Returns the items of an array.
fn array_of(value: Option<Value>) -> Option<Vec<Value>>
    ensures { option_map (λ v. data_items v.items) result
        ≡ option_and_then as_array (option_map data_view value) }
{
    match value {
        Some(Value::Array(items)) => Some(items),
        _ => None,
    }
}

/// Whether each item of a bulk is a document: an object.
fn are_documents(items: &[Value]) -> bool
    ensures { result ≡ are_documents (data_items items.now) }
{
    items.iter().all(|item| item.is_object())
}

/// Returns the bulk of those of these documents that are executed, with the rest of a body, and the entries of the others; `None`: an item is no
/// document.
///
/// Errors: out of memory.
fn partial_with(
    alloc: Global,
    documents: Option<Vec<Value>>,
    rest: Option<Json>,
) -> Result<Option<(Json, Vec<Option<Json>>)>, NoMemory>
    ensures { IfOk result (λ o. option_map (λ p. (view p.0, map (option_map view) p.1.items)) o
        ≡ partial_with (option_map (λ v. data_items v.items) documents) (option_map view rest)) }
{
    let (Some(documents), Some(rest)) = (documents, rest) else {
        return Ok(None);
    };
    if !are_documents(&documents) {
        return Ok(None);
    }
    let (found, refusals) = sorted(alloc, documents)?;
    let mut body = rest;
    body.insert(alloc, "docs", Json::List(found))?;
    Ok(Some((body, refusals)))
}

/// Does what `partial_of` does, with the members of a body.
///
/// Errors: out of memory.
fn partial_members(
    alloc: Global,
    members: Map<String, Value>,
) -> Result<Option<(Json, Vec<Option<Json>>)>, NoMemory>
    ensures { IfOk result (λ o. option_map (λ p. (view p.0, map (option_map view) p.1.items)) o
        ≡ partial_of (parsed.object (data_members members.entries))) }
{
    let mut members = members;
    let name = String::from_str(alloc, "docs")?;
    let found = members.insert(name, Value::Null)?;
    let documents = array_of(found);
    let rest = value_of(alloc, Value::Object(members))?;
    partial_with(alloc, documents, rest)
}

/// Returns the bulk of the documents of a body that are executed, and the entries of the others.
///
/// Errors: out of memory.
fn partial_of(alloc: Global, body: Value) -> Result<Option<(Json, Vec<Option<Json>>)>, NoMemory>
    ensures { IfOk result (λ o. option_map (λ p. (view p.0, map (option_map view) p.1.items)) o
        ≡ partial_of (data_view body)) }
{
    match body {
        Value::Object(members) => partial_members(alloc, members),
        _ => Ok(None),
    }
}

/// Does what `partial_of` does, with the bytes of a body.
///
/// Errors: out of memory.
#[tactic(auto, using(crate::proofs::BulkLemmas::partial_text, crate::proofs::BulkLemmas::no_partial))]
pub(crate) fn partial_in(
    alloc: Global,
    bytes: &[u8],
) -> Result<Option<(Json, Vec<Option<Json>>)>, NoMemory>
    ensures { IfOk result (λ o. option_map (λ p. (view p.0, map (option_map view) p.1.items)) o
        ≡ partial_in bytes.now) }
{
    match Value::from_slice(alloc, bytes) {
        Ok(value) => partial_of(alloc, value),
        Err(error) => if error.is_memory() {
            Err(NoMemory)
        } else {
            Ok(None)
        },
    }
}
