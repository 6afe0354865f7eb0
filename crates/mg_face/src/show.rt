//! Shows answers of the database.
ghost use Rattle.std.specs.Prelude.{◌≡◌, [], map, OnOk, IfOk};
ghost use Rattle.std.specs.Option.{option_map};
ghost use Rattle.std.specs.String.{string_bytes};
ghost use Rattle.mg_engine.specs.View.{reply_view};
ghost use Rattle.mg_wire.specs.Request.{field_parts};
ghost use Rattle.mg_face.specs.Answer.{json, document_answer, has_revision, is_listed, unmodified, IsAnswered, IsBegun};
ghost use Rattle.mg_face.specs.Face.{Shows};
ghost use Rattle.mg_face.specs.Shown.{shown};
ghost use Rattle.mg_face.specs.Way as ways;
ghost use Rattle.mg_face.specs.Way.{way_view};

use crate::answer::{add_tag, fill, lack, quoted, status_of};
use crate::edit::field_of;
use crate::edited::show_edit;
use crate::entries::show_bulk;
use crate::plan::Way;
use crate::read::revision_in;
use crate::tag::is_current;
use mg_engine::Reply;
use mg_value::{NoMemory, ReadBuffer};
use mg_wire::{Field, Response, Status};
use std::alloc::Global;

/// Whether the client says that it has the document at the revision.
///
/// Errors: out of memory.
fn has_revision(alloc: Global, fields: &[Field], revision: &str) -> Result<bool, NoMemory>
    ensures { IfOk result (λ b. b ≡ has_revision (map field_parts fields.now) revision.now) }
{
    match field_of(fields, b"if-none-match") {
        Some(tags) => {
            let current = quoted(alloc, revision)?;
            Ok(is_current(tags, current.as_slice()))
        }
        None => Ok(false),
    }
}

/// Shows a document at its revision, or that the client has it.
///
/// Errors: out of memory.
fn show_revision(
    alloc: Global,
    fields: &[Field],
    response: &mut Response,
    status: Status,
    body: Vec<u8>,
    revision: Option<String>,
) -> Result<(), NoMemory>
    requires { IsBegun response.old }
    ensures { OnOk result
        (IsAnswered (document_answer (map field_parts fields.now) (option_map string_bytes revision)
        (json status body.items)) response.new) }
{
    let Some(revision) = revision else {
        fill(response, status, body);
        return Ok(());
    };
    if has_revision(alloc, fields, revision.as_str())? {
        fill(response, Status::NotModified, Vec::new(alloc));
        add_tag(alloc, response, revision.as_str())
    } else {
        fill(response, status, body);
        add_tag(alloc, response, revision.as_str())
    }
}

/// Shows an answer that may show a document.
///
/// Errors: out of memory.
fn show_document(
    alloc: Global,
    fields: &[Field],
    response: &mut Response,
    status: u16,
    body: Vec<u8>,
    buffer: &mut ReadBuffer,
) -> Result<(), NoMemory>
    requires { IsBegun response.old }
    ensures { OnOk result
        (IsAnswered (shown [] (map field_parts fields.now) ways.document
        (record { status = status; body = body.items })) response.new) }
{
    if status == 200 {
        let revision = revision_in(alloc, body.as_slice(), buffer)?;
        show_revision(alloc, fields, response, status_of(status), body, revision)
    } else {
        fill(response, status_of(status), body);
        Ok(())
    }
}

/// Shows an answer of the database, to a request with these fields, in a response that has begun.
pub(crate) fn show(
    alloc: Global,
    db: &str,
    fields: &[Field],
    response: &mut Response,
    way: Way,
    reply: Reply,
    buffer: &mut ReadBuffer,
)
    requires { IsBegun response.old }
    ensures { Shows db.now (map field_parts fields.now) (way_view way) (reply_view reply) response.new }
{
    match reply {
        Reply::NoMemory => lack(alloc, response),
        Reply::Full { status, body } => match way {
            Way::Plain => fill(response, status_of(status), body),
            Way::Document => {
                if show_document(alloc, fields, response, status, body, buffer).is_err() {
                    lack(alloc, response);
                }
            }
            Way::Edit(change, entry) => {
                if show_edit(alloc, db, response, change, entry, status, body, buffer).is_err() {
                    lack(alloc, response);
                }
            }
            Way::Bulk(refusals) => {
                if show_bulk(alloc, response, refusals, status, body, buffer).is_err() {
                    lack(alloc, response);
                }
            }
        },
    }
}
