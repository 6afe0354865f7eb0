//! How the answer to one edit is shown.
ghost use Rattle.std.specs.Prelude.{◌≡◌, ◌++◌, ◌∷◌, [], codes, OnOk, IfOk};
ghost use Rattle.std.specs.Option.{option_map};
ghost use Rattle.std.specs.String.{string_bytes};
ghost use Rattle.percent_encoding.specs.Percent.{percent_encode};
ghost use Rattle.mg_value.specs.Value.{list};
ghost use Rattle.mg_value.specs.View.{view, items_view};
ghost use Rattle.mg_engine.specs.Bodies.{line_of};
ghost use Rattle.mg_wire.specs.Response.{listed};
ghost use Rattle.mg_face.specs.Json.{string_at};
ghost use Rattle.mg_face.specs.Edited.{only_item, entry_in, path_of, location_of, made_answer, refused_answer, entry_answer, edited};
ghost use Rattle.mg_face.specs.Answer.{IsAnswered, IsBegun, tag_of, if_short};

use crate::answer::{MAX_VALUE, add_field, add_tag, fill, status_of};
use crate::read::{read_tree, text_of_line};
use bytes::Bytes;
use mg_value::{Json, NoMemory, ReadBuffer, write};
use mg_wire::{Response, Status};
use percent_encoding::{AsciiSet, NON_ALPHANUMERIC, ascii_set, percent_encode};
use std::alloc::Global;

/// The bytes of a segment that are encoded (RFC 3986, section 2.3).
pub const SEGMENT: AsciiSet = ascii_set!(
    NON_ALPHANUMERIC
        .remove(b'-')
        .remove(b'.')
        .remove(b'_')
        .remove(b'~')
);

/// What one edit does.
#[derive(Clone, Copy, Debug, PartialEq, Eq)]
pub enum Change {
    Written,
    Deleted,
}

/// Returns the text that an object has at a name.
fn text_at<'v>(value: &'v Json, name: &str) -> Option<&'v str>
    ensures { option_map (λ s. s.now) result ≡ string_at name.now (view value.now) }
{
    match value.member(name) {
        Some(Json::Text(text)) => Some(text.as_str()),
        _ => None,
    }
}

/// Returns the only one of these values; if there is none, the other one.
fn only_of(otherwise: Option<Json>, values: Vec<Json>) -> Option<Json>
    ensures { option_map view result ≡ only_item (option_map view otherwise) (list (items_view values.items)) }
{
    let mut values = values;
    if values.len() == 0 {
        otherwise
    } else if values.len() == 1 {
        Some(values.remove(0))
    } else {
        None
    }
}

/// Returns the only item of a list; of one without items, the other value.
fn only_item(otherwise: Option<Json>, value: Json) -> Option<Json>
    ensures { option_map view result ≡ only_item (option_map view otherwise) (view value) }
{
    match value {
        Json::List(values) => only_of(otherwise, values),
        _ => None,
    }
}

/// Returns the entry of the only edit of a bulk that was executed; the other one, if the answer lists none.
///
/// Errors: out of memory.
fn entry_in(
    alloc: Global,
    otherwise: Option<Json>,
    status: u16,
    body: &[u8],
    buffer: &mut ReadBuffer,
) -> Result<Option<Json>, NoMemory>
    ensures { IfOk result (λ o. option_map view o
        ≡ entry_in (option_map view otherwise) (record { status = status; body = body.now })) }
{
    if status != 201 {
        return Ok(None);
    }
    match read_tree(alloc, text_of_line(body), buffer)? {
        Some(value) => Ok(only_item(otherwise, value)),
        None => Ok(None),
    }
}

/// Returns the compact text of a value and a line feed.
///
/// Errors: out of memory.
pub(crate) fn line_of(alloc: Global, value: &Json) -> Result<Vec<u8>, NoMemory>
    ensures { IfOk result (λ v. v.items ≡ line_of (view value.now)) }
{
    let mut body = write(alloc, value)?;
    body.push(b'\n')?;
    Ok(body)
}

/// Returns the path of a document.
///
/// Errors: out of memory.
fn path_of(alloc: Global, db: &str, id: &str) -> Result<String, NoMemory>
    ensures { IfOk result (λ s. string_bytes s ≡ path_of db.now id.now) }
{
    let mut path = String::from_str(alloc, "/")?;
    path.push_str(db)?;
    path.push_str("/")?;
    percent_encode(id.as_bytes(), SEGMENT).append_to(&mut path)?;
    Ok(path)
}

/// Adds the path of the document as `Location`, unless it is too long for a field.
///
/// Errors: out of memory.
fn add_location(
    alloc: Global,
    response: &mut Response,
    db: &str,
    id: Option<&str>,
) -> Result<(), NoMemory>
    ensures fields { OnOk result (listed response.new.fields
        ≡ listed response.old.fields ++ location_of db.now (option_map (λ s. s.now) id.entry)) }
    ensures status { response.new.status ≡ response.old.status }
    ensures body { response.new.body ≡ response.old.body }
{
    let Some(id) = id else {
        return Ok(());
    };
    let path = path_of(alloc, db, id)?;
    if path.len() > MAX_VALUE {
        return Ok(());
    }
    let path = Bytes::from_string(path)?;
    add_field(response, b"location", path)
}

/// Copies the text that an object has at a name.
///
/// Errors: out of memory.
pub(crate) fn copy_at(alloc: Global, value: &Json, name: &str) -> Result<Option<String>, NoMemory>
    ensures { IfOk result (λ o. option_map string_bytes o ≡ string_at name.now (view value.now)) }
{
    match text_at(value, name) {
        Some(text) => Ok(Some(String::from_str(alloc, text)?)),
        None => Ok(None),
    }
}

/// Says that an edit was made, at a revision.
///
/// Errors: out of memory.
fn show_made(
    alloc: Global,
    db: &str,
    response: &mut Response,
    change: Change,
    entry: &Json,
    revision: &str,
) -> Result<(), NoMemory>
    requires { IsBegun response.old }
    ensures { OnOk result (IsAnswered (made_answer db.now change (view entry.now) revision.now) response.new) }
{
    let body = line_of(alloc, entry)?;
    match change {
        Change::Written => {
            fill(response, Status::Created, body);
            add_tag(alloc, response, revision)?;
            add_location(alloc, response, db, text_at(entry, "id"))
        }
        Change::Deleted => {
            fill(response, Status::Ok, body);
            add_tag(alloc, response, revision)
        }
    }
}

/// Says why an edit was refused.
///
/// Errors: out of memory.
fn show_refused(alloc: Global, response: &mut Response, entry: Json) -> Result<(), NoMemory>
    requires { IsBegun response.old }
    ensures { OnOk result (IsAnswered (refused_answer (view entry)) response.new) }
{
    let mut entry = entry;
    let _ = entry.take("id");
    let body = line_of(alloc, &entry)?;
    fill(response, Status::Conflict, body);
    Ok(())
}

/// Says what became of the only edit of a bulk.
///
/// Errors: out of memory.
fn show_entry(
    alloc: Global,
    db: &str,
    response: &mut Response,
    change: Change,
    entry: Json,
) -> Result<(), NoMemory>
    requires { IsBegun response.old }
    ensures { OnOk result (IsAnswered (entry_answer db.now change (view entry)) response.new) }
{
    match copy_at(alloc, &entry, "rev")? {
        Some(revision) => show_made(alloc, db, response, change, &entry, revision.as_str()),
        None => show_refused(alloc, response, entry),
    }
}

/// Shows the answer to a bulk of one edit as that to the edit, which has the other entry where the bulk lists none.
///
/// Errors: out of memory.
pub(crate) fn show_edit(
    alloc: Global,
    db: &str,
    response: &mut Response,
    change: Change,
    otherwise: Option<Json>,
    status: u16,
    body: Vec<u8>,
    buffer: &mut ReadBuffer,
) -> Result<(), NoMemory>
    requires { IsBegun response.old }
    ensures { OnOk result
        (IsAnswered (edited db.now change (option_map view otherwise) (record { status = status; body = body.items }))
        response.new) }
{
    match entry_in(alloc, otherwise, status, body.as_slice(), buffer)? {
        Some(entry) => show_entry(alloc, db, response, change, entry),
        None => {
            fill(response, status_of(status), body);
            Ok(())
        }
    }
}
