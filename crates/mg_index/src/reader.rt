// Reads the body of `POST _index`.
ghost use Rattle.std.specs.Prelude.{◌≡◌, IfOk, Some, is_err, is_none, option_map, ok_or};
ghost use Rattle.mg_value.specs.Value.{object};
ghost use Rattle.mg_value.specs.View.{view, members_view};
ghost use Rattle.mg_index.specs.Reading.{ReadsAs, definition_of, columns_read, is_json_index, is_json_type, is_no_filter, is_not_partitioned, member_of_index, definition_named, text_given};
ghost use Rattle.mg_index.specs.View.{columns_view};

use crate::column::{Columns, read_columns};
use crate::definition::{IndexDef, Parts};
use crate::error::IndexError;
use crate::listing::{design_document, fields_digest};
use mg_value::{Json, NoMemory};
use std::alloc::Global;
use std::collections::BTreeMap;

// Reads the definition that a body gives. Errors: those of `IndexDef::read`, except that a failed allocation gives
// `NoMemory` even if `fields` has a fault.
pub(crate) fn read_definition(alloc: Global, body: &Json) -> Result<IndexDef, IndexError>
    ensures { ReadsAs (λ d. d) result (definition_of (view body.now)) }
{
    if !is_json_index(body) {
        return Err(IndexError::Shape);
    }
    let ddoc = text_given(body.member("ddoc"))?;
    let name = text_given(body.member("name"))?;
    let columns = read_fields(alloc, member_of_index(body, "fields"))?;
    Ok(name_definition(alloc, ddoc, name, columns)?)
}

// Reads the columns of `fields`. Errors: `Shape` if it is absent or not an array; for an array, those of `read_columns`.
fn read_fields(alloc: Global, fields: Option<&Json>) -> Result<Columns, IndexError>
    ensures { ReadsAs columns_view result (columns_read (option_map (λ j. view j.now) fields.entry)) }
{
    match fields {
        Some(Json::List(fields)) => read_columns(alloc, fields),
        _ => Err(IndexError::Shape),
    }
}

// Returns the text; `None` if there is no value. Errors: `Shape` for an empty text, or for a value that is not a
// text.
pub(crate) fn text_given(value: Option<&Json>) -> Result<Option<&str>, IndexError>
    ensures text { ReadsAs (option_map (λ t. t.now)) result
        (ok_or (text_given (option_map (λ j. view j.now) value.entry)) IndexError.Shape) }
    ensures fault { is_err result ≡ is_none (text_given (option_map (λ j. view j.now) value.entry)) }
{
    match value {
        None => Ok(None),
        Some(Json::Text(text)) if !text.is_empty() => Ok(Some(text.as_str())),
        Some(_) => Err(IndexError::Shape),
    }
}

// Makes the definition of these columns. Without a given name, the name is the digest of the fields; without a given
// design document, the design document is `_design/` and the digest. `_design/` is put before a given design document
// that does not begin with it. Errors: `NoMemory` if an allocation fails.
fn name_definition(
    alloc: Global,
    ddoc: Option<&str>,
    name: Option<&str>,
    columns: Columns,
) -> Result<IndexDef, NoMemory>
    ensures { IfOk result (λ d. d ≡ definition_named (option_map (λ t. t.now) ddoc.entry)
        (option_map (λ t. t.now) name.entry) (columns_view columns)) }
{
    let digest = fields_digest(alloc, columns.direction, &columns.texts)?;
    let ddoc = match ddoc {
        Some(ddoc) => design_document(alloc, ddoc)?,
        None => format!(in alloc; "_design/{digest}")?,
    };
    let name = match name {
        Some(name) => String::from_str(alloc, name)?,
        None => digest,
    };
    let parts = Parts {
        ddoc,
        name,
        texts: columns.texts,
        columns: columns.paths,
        direction: columns.direction,
    };
    IndexDef::of(alloc, parts)
}

// Whether the body asks for an index of type `json` that is neither filtered nor partitioned.
pub(crate) fn is_json_index(body: &Json) -> bool
    ensures { result ≡ is_json_index (view body.now) }
{
    is_json_type(body.member("type"))
        && is_not_partitioned(body.member("partitioned"))
        && is_no_filter(body.member("partial_filter_selector"))
        && is_no_filter(member_of_index(body, "partial_filter_selector"))
}

fn is_json_type(value: Option<&Json>) -> bool
    ensures { result ≡ is_json_type (option_map (λ j. view j.now) value.entry) }
{
    match value {
        None => true,
        Some(Json::Text(name)) => name.as_str() == "json",
        Some(_) => false,
    }
}

fn is_no_filter(value: Option<&Json>) -> bool
    ensures { result ≡ is_no_filter (option_map (λ j. view j.now) value.entry) }
{
    match value {
        None => true,
        Some(Json::Object(members)) => has_no_member(members),
        Some(_) => false,
    }
}

fn has_no_member(members: &BTreeMap<String, Json>) -> bool
    ensures { result ≡ is_no_filter (Some (object (members_view members.now.entries))) }
{
    members.iter().next().is_none()
}

fn is_not_partitioned(value: Option<&Json>) -> bool
    ensures { result ≡ is_not_partitioned (option_map (λ j. view j.now) value.entry) }
{
    match value {
        None => true,
        Some(Json::Flag(partitioned)) => !partitioned,
        Some(_) => false,
    }
}

// Finds the member of `index` that has this name; `None` if `index` or the member is missing.
pub(crate) fn member_of_index<'a>(body: &'a Json, name: &str) -> Option<&'a Json>
    ensures { option_map (λ v. view v.now) result ≡ member_of_index name.now (view body.now) }
{
    body.member("index")?.member(name)
}
