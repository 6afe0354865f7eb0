//! One edit of a document.
ghost use Rattle.std.specs.Prelude.{◌≡◌, bytes_eq, codes, map, IfOk};
ghost use Rattle.std.specs.Option.{option_map};
ghost use Rattle.std.specs.String.{string_bytes};
ghost use Rattle.std.specs.Str.Lossy.{utf8_lossy};
ghost use Rattle.form_urlencoded.specs.Form.{decode};
ghost use Rattle.mg_value.specs.View.{view};
ghost use Rattle.mg_wire.specs.Request.{field_parts};
ghost use Rattle.mg_face.specs.Edit.{value_in_query, revision_in_query, unquoted, field_of, revision_in_fields, agrees, with_given, with_revisions, deletion};

use form_urlencoded::{decode, raw_pairs};
use http1::text::eq_ignore_case;
use mg_value::{Json, NoMemory};
use mg_wire::Field;
use std::alloc::{AllocError, Global};

/// Whether a name of a query encodes this one.
///
/// Errors: out of memory.
fn encodes(alloc: Global, encoded: &[u8], name: &str) -> Result<bool, AllocError>
    ensures { IfOk result (λ b. b ≡ bytes_eq (utf8_lossy (decode encoded.now)) name.now) }
{
    let decoded = decode(alloc, encoded)?;
    Ok(decoded.as_str() == name)
}

/// Returns the text that a value of a query encodes.
///
/// Errors: out of memory.
fn value_text(alloc: Global, value: &[u8]) -> Result<String, AllocError>
    ensures { IfOk result (λ s. string_bytes s ≡ utf8_lossy (decode value.now)) }
{
    let value = decode(alloc, value)?;
    String::from_str(alloc, value.as_str())
}

/// Returns the value that a query gives the parameter of this name.
///
/// Errors: out of memory.
pub(crate) fn value_in_query(
    alloc: Global,
    query: &[u8],
    name: &str,
) -> Result<Option<String>, AllocError>
    ensures { IfOk result (λ o. option_map string_bytes o ≡ value_in_query name.now query.now) }
{
    for (encoded, value) in raw_pairs(query) {
        if encodes(alloc, encoded, name)? {
            return Ok(Some(value_text(alloc, value)?));
        }
    }
    Ok(None)
}

/// Returns an entity tag without its quotes; another text as it is.
fn unquoted(tag: &[u8]) -> &[u8]
    ensures { result.now ≡ unquoted tag.now }
{
    match tag {
        [b'"', middle @ .., b'"'] => middle,
        _ => tag,
    }
}

/// Returns the value of the first field with this name, in any case.
pub(crate) fn field_of<'f>(fields: &'f [Field], name: &[u8]) -> Option<&'f [u8]>
    ensures { option_map (λ v. v.now) result ≡ field_of name.now (map field_parts fields.now) }
{
    for field in fields {
        if eq_ignore_case(field.name.as_slice(), name) {
            return Some(field.value.as_slice());
        }
    }
    None
}

/// Returns the revision that `If-Match` names.
///
/// Errors: out of memory.
fn revision_in_fields(alloc: Global, fields: &[Field]) -> Result<Option<String>, AllocError>
    ensures { IfOk result (λ o. option_map string_bytes o ≡ revision_in_fields (map field_parts fields.now)) }
{
    match field_of(fields, b"if-match") {
        Some(tag) => Ok(Some(String::from_utf8_lossy(alloc, unquoted(tag))?)),
        None => Ok(None),
    }
}

/// Whether a value that a document has at a name agrees with a text.
fn agrees(text: &str, value: Option<&Json>) -> bool
    ensures { result ≡ agrees text.now (option_map (λ v. view v.now) value.entry) }
{
    match value {
        None => true,
        Some(Json::Text(other)) => text.as_bytes() == other.as_bytes(),
        Some(_) => false,
    }
}

/// Puts a text at a name into a document, if one is given; `None`: it has another value there.
///
/// Errors: out of memory.
pub(crate) fn with_given(
    alloc: Global,
    name: &str,
    given: Option<String>,
    document: Json,
) -> Result<Option<Json>, NoMemory>
    ensures { IfOk result (λ o. option_map view o
        ≡ with_given name.now (option_map string_bytes given) (view document)) }
{
    let Some(text) = given else {
        return Ok(Some(document));
    };
    if !agrees(text.as_str(), document.member(name)) {
        return Ok(None);
    }
    let mut document = document;
    document.insert(alloc, name, Json::Text(text))?;
    Ok(Some(document))
}

/// Puts the revisions that a query and the fields name into a document; `None`: two revisions disagree.
///
/// Errors: out of memory.
pub(crate) fn with_revisions(
    alloc: Global,
    query: &[u8],
    fields: &[Field],
    document: Json,
) -> Result<Option<Json>, NoMemory>
    ensures { IfOk result
        (λ o. option_map view o
        ≡ with_revisions (revision_in_query query.now) (revision_in_fields (map field_parts fields.now))
        (view document)) }
{
    let revision = value_in_query(alloc, query, "rev")?;
    let tag = revision_in_fields(alloc, fields)?;
    match with_given(alloc, "_rev", revision, document)? {
        Some(document) => with_given(alloc, "_rev", tag, document),
        None => Ok(None),
    }
}

/// Makes the document of a deletion.
///
/// Errors: out of memory.
pub(crate) fn deletion(alloc: Global) -> Result<Json, NoMemory>
    ensures { IfOk result (λ v. view v ≡ deletion) }
{
    let mut document = Json::empty_object(alloc);
    document.insert(alloc, "_deleted", Json::Flag(true))?;
    Ok(document)
}
