//! From a request to what is said at once, or what is asked of the database.
ghost use Rattle.std.specs.Prelude.{◌≡◌, codes, map, IfOk};
ghost use Rattle.mg_wire.specs.Request.{field_parts, fields_in};
ghost use Rattle.std.specs.Option.{option_map};
ghost use Rattle.std.specs.String.{string_bytes};
ghost use Rattle.mg_face.specs.Count.{count_given};
ghost use Rattle.mg_face.specs.Edit.{value_in_query};
ghost use Rattle.mg_face.specs.Plan.{plan_view, ids_of, asked_for, elsewhere, plan_by, plan_at, plan_of};

use crate::action::{Action, Verb, action_of, verb_of};
use crate::count::{CountFault, count_in};
use crate::document::{delete_document, post_document, put_document, read_document};
use crate::edit::value_in_query;
use crate::edited::Change;
use crate::endpoint::{bulk_docs, taken};
use crate::index::{drop_design_plan, drop_plan, read_design};
use crate::listing::{list_by_body, list_by_query};
use crate::parameter::unanswered_in;
use crate::route::{Resource, is_here, is_nowhere, resource_of, segments_of};
use crate::said::Said;
use crate::text::split_query;
use mg_engine::{Command, Question, Refusal};
use mg_value::{Json, NoMemory, ReadBuffer};
use mg_wire::{Field, Request};
use std::alloc::Global;

/// How an answer of the database is shown.
#[derive(Debug, Drop)]
pub enum Way {
    /// As it is.
    Plain,
    /// With the revision of the document that it shows as `ETag`.
    Document,
    /// As the answer to one edit, which has this entry where the answer to its bulk lists none: an edit of a replica that is made.
    Edit(Change, Option<Json>),
    /// As the answer to a bulk, for each of whose documents, in order, its entry is given if it was refused before.
    Bulk(Vec<Option<Json>>),
}

/// What a request asks for.
#[derive(Debug, Drop)]
pub enum Plan {
    /// This is said at once.
    Says(Said),
    /// The command is executed, and its answer is shown in this way.
    Asks(Command, Way),
    /// The same, if a document with this id is found; else the answer of its `Get` is shown.
    Finds(String, Command, Way),
    /// The question is asked, and its answer is shown in this way.
    Looks(Question, Way),
}

/// Returns the ids that a query asks for, counted from the number that was drawn.
///
/// Errors: out of memory.
fn ids_of(alloc: Global, drawn: u128, query: &[u8]) -> Result<Plan, NoMemory>
    ensures { IfOk result (λ p. plan_view p
        ≡ ids_of drawn (count_given (value_in_query (codes "count") query.now))) }
{
    let count = value_in_query(alloc, query, "count")?;
    match count_of(count) {
        Ok(count) => Ok(Plan::Says(Said::Ids(drawn, count))),
        Err(fault) => Ok(Plan::Says(Said::BadCount(fault))),
    }
}

/// Returns how many ids a text asks for.
fn count_of(text: Option<String>) -> Result<usize, CountFault>
    ensures { result ≡ count_given (option_map string_bytes text) }
{
    match text {
        Some(text) => count_in(Some(text.as_str())),
        None => count_in(None),
    }
}

/// Returns what an action asks for.
///
/// Errors: out of memory.
fn asked_for(
    alloc: Global,
    drawn: u128,
    action: Action,
    segments: &[&[u8]],
    query: &[u8],
    fields: &[Field],
    body: &[u8],
    buffer: &mut ReadBuffer,
) -> Result<Plan, NoMemory>
    ensures { IfOk result (λ p. plan_view p
        ≡ asked_for drawn action (map (λ s. s.now) segments.now) query.now (map field_parts fields.now) body.now) }
{
    match action {
        Action::Welcome => Ok(Plan::Says(Said::Welcome)),
        Action::Up => Ok(Plan::Says(Said::Up)),
        Action::ListDatabases => Ok(Plan::Says(Said::Databases)),
        Action::MakeIds => ids_of(alloc, drawn, query),
        Action::ReadDatabase => Ok(Plan::Looks(Question::Database, Way::Plain)),
        Action::CreateDatabase => Ok(Plan::Says(Said::DatabaseExists)),
        Action::DeleteDatabase => Ok(Plan::Says(Said::OneDatabase)),
        Action::ListDocuments => list_by_query(alloc, query, buffer),
        Action::ListDocumentsBy => list_by_body(alloc, query, body, buffer),
        Action::Commit => Ok(Plan::Says(Said::Committed)),
        Action::WriteBulk => bulk_docs(alloc, drawn, body, buffer),
        Action::Takes(endpoint) => taken(alloc, endpoint, body, buffer),
        Action::ListIndexes => Ok(Plan::Asks(Command::ListIndexes, Way::Plain)),
        Action::DropIndex => drop_plan(alloc, segments),
        Action::DropDesignIndex => drop_design_plan(alloc, segments),
        Action::ReadDocument => read_document(alloc, segments, query),
        Action::PostDocument => post_document(alloc, drawn, query, fields, body, buffer),
        Action::PutDocument => put_document(alloc, segments, query, fields, body, buffer),
        Action::DeleteDocument => delete_document(alloc, segments, query, fields),
        Action::ReadDesign => read_design(alloc, segments),
        Action::PutDesign => Ok(Plan::Says(Said::NoDesign)),
    }
}

/// Returns what is said to a request of another database.
fn elsewhere(resource: Resource, verb: Verb) -> Plan
    ensures { plan_view result ≡ elsewhere resource verb }
{
    match resource {
        Resource::Database => match verb {
            Verb::Put => Plan::Says(Said::OneDatabase),
            _ => Plan::Says(Said::Refuses(Refusal::NoDatabase)),
        },
        _ => Plan::Says(Said::Refuses(Refusal::NoDatabase)),
    }
}

/// Returns what a request asks of the resource that its path names.
///
/// Errors: out of memory.
fn plan_by(
    alloc: Global,
    drawn: u128,
    action: Option<Action>,
    resource: Resource,
    segments: &[&[u8]],
    query: &[u8],
    fields: &[Field],
    body: &[u8],
    buffer: &mut ReadBuffer,
) -> Result<Plan, NoMemory>
    ensures { IfOk result (λ p. plan_view p
        ≡ plan_by drawn action resource (map (λ s. s.now) segments.now) query.now (map field_parts fields.now)
        body.now) }
{
    let Some(action) = action else {
        return Ok(Plan::Says(Said::NotAllowed(resource)));
    };
    match unanswered_in(alloc, action, query)? {
        Some(parameter) => Ok(Plan::Says(Said::Unanswered(parameter))),
        None => asked_for(alloc, drawn, action, segments, query, fields, body, buffer),
    }
}

/// Returns what a request asks of what its path names.
///
/// Errors: out of memory.
fn plan_at(
    alloc: Global,
    db: &str,
    drawn: u128,
    segments: &[&[u8]],
    query: &[u8],
    request: &Request,
    buffer: &mut ReadBuffer,
) -> Result<Plan, NoMemory>
    ensures { IfOk result
        (λ p. plan_view p
        ≡ plan_at db.now drawn (map (λ s. s.now) segments.now) request.now.method query.now
        (fields_in request.now) request.now.body.items) }
{
    let resource = resource_of(segments);
    if is_nowhere(resource) {
        return Ok(Plan::Says(Said::Refuses(Refusal::Missing)));
    }
    let verb = verb_of(request.method.as_slice());
    if is_here(alloc, db, resource, segments)? {
        let action = action_of(verb, resource);
        plan_by(
            alloc,
            drawn,
            action,
            resource,
            segments,
            query,
            request.fields.as_slice(),
            request.body.as_slice(),
            buffer,
        )
    } else {
        Ok(elsewhere(resource, verb))
    }
}

/// Returns what a request asks of the database and its server, where `drawn` is the number that was drawn for it.
///
/// Errors: out of memory.
pub(crate) fn plan_of(
    alloc: Global,
    db: &str,
    drawn: u128,
    request: &Request,
    buffer: &mut ReadBuffer,
) -> Result<Plan, NoMemory>
    ensures { IfOk result (λ p. plan_view p ≡ plan_of db.now drawn request.now) }
{
    let (path, query) = split_query(request.target.as_slice());
    let segments = segments_of(alloc, path)?;
    plan_at(
        alloc,
        db,
        drawn,
        segments.as_slice(),
        query,
        request,
        buffer,
    )
}
