//! `/{db}/{id}`.
ghost use Rattle.std.specs.Prelude.{◌≡◌, map, IfOk};
ghost use Rattle.std.specs.Option.{option_map};
ghost use Rattle.std.specs.String.{string_bytes};
ghost use Rattle.mg_value.specs.View.{view};
ghost use Rattle.mg_wire.specs.Request.{field_parts};
ghost use Rattle.mg_face.specs.Json.{json_of};
ghost use Rattle.mg_face.specs.Edit.{with_given, with_revisions, revision_in_query, revision_in_fields};
ghost use Rattle.mg_revtree.specs.Revision.{revision_of};
ghost use Rattle.mg_face.specs.Plan.{plan_view, way_of, leaf_of, more_of, served_of, document_at, document_of, read_document, entry_of, edit_of, edit_at, post_document, put_at, put_document, if_found, delete_at, delete_document};
ghost use Rattle.mg_face.specs.Way.{way_view};

use crate::edit::{deletion, value_in_query, with_given, with_revisions};
use crate::edited::Change;
use crate::endpoint::unread;
use crate::ids::with_id;
use crate::parameter::{asks_flag, is_replica};
use crate::plan::{Plan, Way};
use crate::read::read_tree;
use crate::replica::{bulk_with, replica_entry};
use crate::said::{Clash, Said};
use crate::text::text_in;
use mg_engine::{Command, More, Question, Refusal};
use mg_revtree::{Rev, RevError};
use mg_value::{Json, NoMemory, ReadBuffer};
use mg_wire::Field;
use std::alloc::Global;

/// Reads a revision; `None`: the text is none.
///
/// Errors: out of memory.
fn read_revision(alloc: Global, text: &str) -> Result<Option<Rev>, NoMemory>
    ensures { IfOk result (λ o. o ≡ revision_of text.now) }
{
    match Rev::parse(alloc, text) {
        Ok(rev) => Ok(Some(rev)),
        Err(RevError::Bad) => Ok(None),
        Err(RevError::NoMemory) => Err(NoMemory),
    }
}

/// Returns how a document is shown: with a tag, unless more is shown than its revision and its body.
fn way_of(more: bool) -> Way
    ensures { way_view result ≡ way_of more }
{
    if more { Way::Plain } else { Way::Document }
}

fn leaf_of(id: String, latest: bool, path: bool, rev: Option<Rev>) -> Plan
    ensures { plan_view result ≡ leaf_of (string_bytes id) latest path rev }
{
    match rev {
        Some(rev) => {
            let question = Question::Leaf {
                id,
                rev,
                latest,
                path,
            };
            Plan::Looks(question, way_of(path))
        }
        None => Plan::Says(Said::BadRevision),
    }
}

/// Returns what a query asks for beside the document.
///
/// Errors: out of memory.
fn more_of(alloc: Global, query: &[u8]) -> Result<More, NoMemory>
    ensures { IfOk result (λ more. more ≡ more_of query.now) }
{
    let meta = asks_flag(alloc, query, "meta")?;
    let revisions = asks_flag(alloc, query, "revs")?;
    let revisions_info = asks_flag(alloc, query, "revs_info")?;
    let conflicts = asks_flag(alloc, query, "conflicts")?;
    let deleted_conflicts = asks_flag(alloc, query, "deleted_conflicts")?;
    Ok(More {
        revisions,
        revisions_info: meta || revisions_info,
        conflicts: meta || conflicts,
        deleted_conflicts: meta || deleted_conflicts,
    })
}

fn served_of(id: String, more: More) -> Plan
    ensures { plan_view result ≡ served_of (string_bytes id) more }
{
    if more.revisions || more.revisions_info || more.deleted_conflicts {
        Plan::Looks(Question::Winner { id, more }, Way::Plain)
    } else {
        let conflicts = more.conflicts;
        Plan::Asks(Command::Get { id, conflicts }, way_of(conflicts))
    }
}

/// Returns what is asked of the document of an id, at the revision of a text if there is one.
///
/// Errors: out of memory.
fn document_at(
    alloc: Global,
    id: String,
    latest: bool,
    more: More,
    rev: Option<String>,
) -> Result<Plan, NoMemory>
    ensures { IfOk result (λ p. plan_view p
        ≡ document_at (string_bytes id) latest more (option_map string_bytes rev)) }
{
    match rev {
        Some(rev) => {
            let rev = read_revision(alloc, rev.as_str())?;
            Ok(leaf_of(id, latest, more.revisions, rev))
        }
        None => Ok(served_of(id, more)),
    }
}

/// Returns what a query asks of the document of an id.
///
/// Errors: out of memory.
fn document_of(alloc: Global, id: Option<String>, query: &[u8]) -> Result<Plan, NoMemory>
    ensures { IfOk result (λ p. plan_view p ≡ document_of (option_map string_bytes id) query.now) }
{
    let Some(id) = id else {
        return Ok(Plan::Says(Said::Refuses(Refusal::Missing)));
    };
    let latest = asks_flag(alloc, query, "latest")?;
    let more = more_of(alloc, query)?;
    let rev = value_in_query(alloc, query, "rev")?;
    document_at(alloc, id, latest, more, rev)
}

/// Returns what `/{db}/{id}` asks to read.
///
/// Errors: out of memory.
pub(crate) fn read_document(
    alloc: Global,
    segments: &[&[u8]],
    query: &[u8],
) -> Result<Plan, NoMemory>
    ensures { IfOk result (λ p. plan_view p ≡ read_document (map (λ s. s.now) segments.now) query.now) }
{
    match segments {
        [_, id] => document_of(alloc, text_in(alloc, *id)?, query),
        _ => Ok(Plan::Says(Said::Refuses(Refusal::Missing))),
    }
}

/// Returns the entry that is shown where the answer lists none: that of a replica's edit.
///
/// Errors: out of memory.
fn entry_of(alloc: Global, replica: bool, document: &Json) -> Result<Option<Json>, NoMemory>
    ensures { IfOk result (λ o. option_map view o ≡ entry_of replica (view document.now)) }
{
    if replica {
        replica_entry(alloc, document)
    } else {
        Ok(None)
    }
}

/// Returns the edit of a document that has its id and its revision.
///
/// Errors: out of memory.
fn edit_of(
    alloc: Global,
    replica: bool,
    document: Option<Json>,
    change: Change,
) -> Result<Plan, NoMemory>
    ensures { IfOk result (λ p. plan_view p ≡ edit_of replica (option_map view document) change) }
{
    match document {
        Some(document) => {
            if document.member("_attachments").is_some() {
                return Ok(Plan::Says(Said::Attached));
            }
            let entry = entry_of(alloc, replica, &document)?;
            let bulk = bulk_with(alloc, replica, document)?;
            Ok(Plan::Asks(Command::PackedBulk(bulk), Way::Edit(change, entry)))
        }
        None => Ok(Plan::Says(Said::Clashes(Clash::Revisions))),
    }
}

/// Returns the edit of a document that has its id, at the revisions that the query and the fields name.
///
/// Errors: out of memory.
fn edit_at(
    alloc: Global,
    document: Option<Json>,
    query: &[u8],
    fields: &[Field],
    change: Change,
) -> Result<Plan, NoMemory>
    ensures { IfOk result (λ p. plan_view p
        ≡ edit_at (option_map view document) query.now (map field_parts fields.now) change) }
{
    match document {
        Some(document) => {
            let replica = is_replica(alloc, query)?;
            let document = with_revisions(alloc, query, fields, document)?;
            edit_of(alloc, replica, document, change)
        }
        None => Ok(Plan::Says(Said::Clashes(Clash::Ids))),
    }
}

/// Returns what a `POST` to a database asks for.
///
/// Errors: out of memory.
pub(crate) fn post_document(
    alloc: Global,
    drawn: u128,
    query: &[u8],
    fields: &[Field],
    body: &[u8],
    buffer: &mut ReadBuffer,
) -> Result<Plan, NoMemory>
    ensures { IfOk result (λ p. plan_view p
        ≡ post_document drawn body.now (json_of body.now) query.now (map field_parts fields.now)) }
{
    match read_tree(alloc, body, buffer)? {
        Some(document) => {
            let document = with_id(alloc, drawn, document)?;
            edit_at(alloc, Some(document), query, fields, Change::Written)
        }
        None => unread(alloc, body, buffer),
    }
}

/// Returns the edit of the document in a body, at an id.
///
/// Errors: out of memory.
fn put_at(
    alloc: Global,
    id: Option<String>,
    query: &[u8],
    fields: &[Field],
    body: &[u8],
    buffer: &mut ReadBuffer,
) -> Result<Plan, NoMemory>
    ensures { IfOk result
        (λ p. plan_view p
        ≡ put_at (option_map string_bytes id) body.now (json_of body.now) query.now
        (map field_parts fields.now)) }
{
    let Some(id) = id else {
        return Ok(Plan::Says(Said::Refuses(Refusal::Missing)));
    };
    match read_tree(alloc, body, buffer)? {
        Some(document) => {
            let document = with_given(alloc, "_id", Some(id), document)?;
            edit_at(alloc, document, query, fields, Change::Written)
        }
        None => unread(alloc, body, buffer),
    }
}

/// Returns what a `PUT` of `/{db}/{id}` asks for.
///
/// Errors: out of memory.
pub(crate) fn put_document(
    alloc: Global,
    segments: &[&[u8]],
    query: &[u8],
    fields: &[Field],
    body: &[u8],
    buffer: &mut ReadBuffer,
) -> Result<Plan, NoMemory>
    ensures { IfOk result
        (λ p. plan_view p
        ≡ put_document (map (λ s. s.now) segments.now) body.now (json_of body.now) query.now
        (map field_parts fields.now)) }
{
    match segments {
        [_, id] => {
            let id = text_in(alloc, *id)?;
            put_at(alloc, id, query, fields, body, buffer)
        }
        _ => Ok(Plan::Says(Said::Refuses(Refusal::Missing))),
    }
}

/// Returns the command of a plan, only if a document with this id is found.
fn if_found(id: String, plan: Plan) -> Plan
    ensures { plan_view result ≡ if_found (string_bytes id) (plan_view plan) }
{
    match plan {
        Plan::Asks(command, way) => Plan::Finds(id, command, way),
        plan => plan,
    }
}

/// Returns the deletion of the document of an id, which has to be there.
///
/// Errors: out of memory.
fn delete_at(
    alloc: Global,
    id: Option<String>,
    query: &[u8],
    fields: &[Field],
) -> Result<Plan, NoMemory>
    ensures { IfOk result (λ p. plan_view p
        ≡ delete_at (option_map string_bytes id) query.now (map field_parts fields.now)) }
{
    let Some(id) = id else {
        return Ok(Plan::Says(Said::Refuses(Refusal::Missing)));
    };
    let named = String::from_str(alloc, id.as_str())?;
    let document = deletion(alloc)?;
    let document = with_given(alloc, "_id", Some(named), document)?;
    let plan = edit_at(alloc, document, query, fields, Change::Deleted)?;
    Ok(if_found(id, plan))
}

/// Returns what a `DELETE` of `/{db}/{id}` asks for.
///
/// Errors: out of memory.
pub(crate) fn delete_document(
    alloc: Global,
    segments: &[&[u8]],
    query: &[u8],
    fields: &[Field],
) -> Result<Plan, NoMemory>
    ensures { IfOk result (λ p. plan_view p
        ≡ delete_document (map (λ s. s.now) segments.now) query.now (map field_parts fields.now)) }
{
    match segments {
        [_, id] => {
            let id = text_in(alloc, *id)?;
            delete_at(alloc, id, query, fields)
        }
        _ => Ok(Plan::Says(Said::Refuses(Refusal::Missing))),
    }
}
