//! Ids for documents that come without one.
ghost use Rattle.std.specs.Prelude.{◌≡◌, ◌<◌, ◌*◌, ◌+◌, ◌^◌, map, IfOk};
ghost use Rattle.std.specs.Option.{option_map};
ghost use Rattle.std.specs.String.{string_bytes};
ghost use Rattle.rand_core.specs.Stream.{next_u64};
ghost use Rattle.mg_value.specs.Value.{text};
ghost use Rattle.mg_value.specs.View.{view};
ghost use Rattle.mg_face.specs.Ids.{id_text, with_id, with_ids, id_list, lacks_id, lack_ids, needs_ids, documents_with_ids, given_ids, bulk_with_ids};

use mg_packed::{Array, Kind, Packed, Part};
use mg_value::{Json, NoMemory};
use rand_core::Rng;
use std::alloc::Global;

/// Draws the number from which the ids of a request are counted: two words of the generator.
pub(crate) fn draw<R: Rng>(source: &mut R) -> u128
    ensures drawn { let first = next_u64 (R.stream source.old) in
        let second = next_u64 first.1 in
        result ≡ first.0 * 2 ^ 64 + second.0 }
    ensures small { result < 2 ^ 128 }
{
    let first = source.next_u64();
    let second = source.next_u64();
    u128::from(first) * 18_446_744_073_709_551_616 + u128::from(second)
}

/// Writes a number as an id: its 32 lowercase hexadecimal digits.
///
/// Errors: out of memory.
fn id_text(alloc: Global, number: u128) -> Result<String, NoMemory>
    ensures { IfOk result (λ s. string_bytes s ≡ id_text number) }
{
    Ok(hex::encode(alloc, number.to_be_bytes())?)
}

/// Makes so many ids, the first of which has this number.
///
/// Errors: out of memory.
pub(crate) fn id_list(alloc: Global, first: u128, count: usize) -> Result<Vec<Json>, NoMemory>
    ensures { IfOk result (λ v. map view v.items ≡ map text (id_list first count)) }
{
    let mut found = Vec::new(alloc);
    let mut number = first;
    for _ in 0..count {
        let id = id_text(alloc, number)?;
        found.push(Json::Text(id))?;
        number = number.wrapping_add(1);
    }
    Ok(found)
}

/// Gives a document the id of this number, unless it has one.
///
/// Errors: out of memory.
pub(crate) fn with_id(alloc: Global, number: u128, document: Json) -> Result<Json, NoMemory>
    ensures { IfOk result (λ v. view v ≡ with_id number (view document)) }
{
    if document.member("_id").is_some() {
        return Ok(document);
    }
    let id = id_text(alloc, number)?;
    let mut document = document;
    document.insert(alloc, "_id", Json::Text(id))?;
    Ok(document)
}

/// Gives ids to the documents that have none: to the first one that of this number.
///
/// Errors: out of memory.
fn with_ids(alloc: Global, first: u128, documents: Vec<Json>) -> Result<Vec<Json>, NoMemory>
    ensures { IfOk result (λ v. map view v.items ≡ with_ids first (map view documents.items)) }
{
    let mut found = Vec::with_capacity(alloc, documents.len())?;
    let mut number = first;
    for document in documents {
        let named = with_id(alloc, number, document)?;
        found.push(named)?;
        number = number.wrapping_add(1);
    }
    Ok(found)
}

/// Whether a document has no id.
fn lacks_id(document: &Part<'_>) -> bool
    ensures { result ≡ lacks_id document.now }
{
    match document.kind() {
        Kind::Object(members) => members.get("_id").is_none(),
        _ => false,
    }
}

/// Whether one of the documents has no id.
fn lack_ids(documents: &Array<'_>) -> bool
    ensures { result ≡ lack_ids documents.now }
{
    for index in 0..documents.len() {
        if lacks_id(&documents.item(index)) {
            return true;
        }
    }
    false
}

/// Whether a document of the bulk has no id.
fn needs_ids(body: &Packed) -> bool
    ensures { result ≡ needs_ids body.now }
{
    match body.part().member("docs") {
        Some(documents) => match documents.kind() {
            Kind::List(documents) => lack_ids(&documents),
            _ => false,
        },
        None => false,
    }
}

fn documents_with_ids(alloc: Global, first: u128, documents: Json) -> Result<Json, NoMemory>
    ensures { IfOk result (λ v. view v ≡ documents_with_ids first (view documents)) }
{
    match documents {
        Json::List(documents) => Ok(Json::List(with_ids(alloc, first, documents)?)),
        other => Ok(other),
    }
}

fn given_ids(alloc: Global, first: u128, body: Json) -> Result<Json, NoMemory>
    ensures { IfOk result (λ v. view v ≡ given_ids first (view body)) }
{
    let mut body = body;
    match body.take("docs") {
        Some(documents) => {
            let documents = documents_with_ids(alloc, first, documents)?;
            body.insert(alloc, "docs", documents)?;
            Ok(body)
        }
        None => Ok(body),
    }
}

/// Gives ids to the documents of a bulk that have none. A bulk whose documents have ids is not copied.
///
/// Errors: out of memory.
pub(crate) fn bulk_with_ids(alloc: Global, first: u128, body: Packed) -> Result<Packed, NoMemory>
    ensures { IfOk result (λ p. p ≡ bulk_with_ids first body) }
{
    if !needs_ids(&body) {
        return Ok(body);
    }
    let value = body.part().to_json(alloc)?;
    let value = given_ids(alloc, first, value)?;
    Packed::of(alloc, &value)
}
