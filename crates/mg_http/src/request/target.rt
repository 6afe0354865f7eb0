//! Translates the method and the target of a head to what they ask for: an endpoint, a command or a refusal.
ghost use Rattle.std.specs.Prelude.{◌≡◌, map, IfOk, true};
ghost use Rattle.std.specs.List.{list_all};
ghost use Rattle.std.specs.Str.{is_utf8};
ghost use Rattle.mg_http.specs.RouteViews.{match_in};
ghost use Rattle.mg_http.specs.Target.{path_in, query_in, names, document_asked, drop_asked, request_of};
ghost use Rattle.mg_engine.specs.View.{command_view};
ghost use Rattle.mg_http.specs.Steps.{bodiless_view, request_in};
ghost use Rattle.mg_http.specs.Walk.{request_at};

use crate::request::decode::asks_conflicts;
use crate::request::route_match::RouteMatch;
use crate::request::routes::{Action, Endpoint};
use mg_engine::{Command, Refusal};
use std::alloc::{AllocError, Global};

/// A command that needs no body.
#[derive(Drop)]
pub enum BodilessCommand {
    ListIndexes,
    DropIndex { ddoc: String, name: String },
    Get { id: String, conflicts: bool },
}

impl BodilessCommand {
    /// Returns the service's command.
    pub(crate) fn into_command(self) -> Command
        ensures { command_view result ≡ bodiless_view self }
    {
        match self {
            BodilessCommand::ListIndexes => Command::ListIndexes,
            BodilessCommand::DropIndex { ddoc, name } => Command::DropIndex { ddoc, name },
            BodilessCommand::Get { id, conflicts } => Command::Get { id, conflicts },
        }
    }
}

/// What the method and the target of a head ask for (`Request` in the definitions).
#[derive(Drop)]
pub enum ParsedRequest {
    /// What the endpoint does with the body.
    Body(Endpoint),
    /// A command without a body; what the message has as its body is ignored.
    Asks(BodilessCommand),
    /// A refusal. It is written after the body was read; or at once, if the body lacks a length that it needs, has a Transfer-Encoding or
    /// is too large.
    Refuses(Refusal),
}

/// Splits the target at its first question mark into the path and the query; without one, the query is empty.
fn split_query(target: &[u8]) -> (&[u8], &[u8])
    ensures path { result.0.now ≡ path_in target.now }
    ensures query { result.1.now ≡ query_in target.now }
{
    match target.iter().position(|&b| b == b'?') {
        Some(i) => (&target[..i], &target[i + 1..]),
        None => (target, &[]),
    }
}

/// Whether the bytes are UTF-8.
fn is_text(bytes: &[u8]) -> bool
    ensures { result ≡ is_utf8 bytes.now }
{
    match str::from_utf8(bytes) {
        Ok(_) => true,
        Err(_) => false,
    }
}

/// Whether each parameter is UTF-8.
fn are_texts(parameters: &[Vec<u8>]) -> bool
    ensures { result ≡ list_all is_utf8 (map (λ v. v.items) parameters.now) }
{
    parameters.iter().all(|parameter| is_text(parameter))
}

/// Whether the first parameter is the database's name.
fn names(db: &str, parameters: &[Vec<u8>]) -> bool
    ensures { result ≡ names db.now (map (λ v. v.items) parameters.now) }
{
    match parameters.first() {
        Some(name) => name.as_slice() == db.as_bytes(),
        None => false,
    }
}

/// Returns the bytes, which are UTF-8, as a `str`.
fn as_text(bytes: &[u8]) -> &str
    requires { is_utf8 bytes.now ≡ true }
    ensures { result.now ≡ bytes.now }
{
    match str::from_utf8(bytes) {
        Ok(text) => text,
        Err(_) => unreachable!(),
    }
}

/// Returns the command that reads a document (`conflicts`: with its conflicts). The parameters are UTF-8: the database's name and the id.
/// If there are not two, the request is refused as missing.
///
/// Errors: out of memory.
fn document(
    alloc: Global,
    parameters: &[Vec<u8>],
    conflicts: bool,
) -> Result<ParsedRequest, AllocError>
    requires { list_all is_utf8 (map (λ v. v.items) parameters.now) ≡ true }
    ensures { IfOk result (λ t. request_in t ≡ document_asked (map (λ v. v.items) parameters.now) conflicts) }
{
    match parameters {
        [_, id] => {
            let id = String::from_str(alloc, as_text(id))?;
            Ok(ParsedRequest::Asks(BodilessCommand::Get { id, conflicts }))
        }
        _ => Ok(ParsedRequest::Refuses(Refusal::Missing)),
    }
}

/// Returns the command that drops an index. The parameters are UTF-8: the database's name, the design document's name without the
/// `prefix`, and the index's name. If there are not three, the request is refused as missing.
///
/// Errors: out of memory.
fn drop_index(
    alloc: Global,
    prefix: &str,
    parameters: &[Vec<u8>],
) -> Result<ParsedRequest, AllocError>
    requires { list_all is_utf8 (map (λ v. v.items) parameters.now) ≡ true }
    ensures { IfOk result (λ t. request_in t ≡ drop_asked prefix.now (map (λ v. v.items) parameters.now)) }
{
    match parameters {
        [_, rest, name] => {
            let mut ddoc = String::from_str(alloc, prefix)?;
            ddoc.push_str(as_text(rest))?;
            let name = String::from_str(alloc, as_text(name))?;
            Ok(ParsedRequest::Asks(BodilessCommand::DropIndex { ddoc, name }))
        }
        _ => Ok(ParsedRequest::Refuses(Refusal::Missing)),
    }
}

/// Returns what the method and the query ask for; `matched` is the state after all segments of the path. Refuses, in this order: a path
/// that no route matches, or a parameter that is not UTF-8; another database's name; a method that no route with this path has.
///
/// Errors: out of memory.
fn request_at(
    alloc: Global,
    db: &str,
    method: &[u8],
    query: &[u8],
    matched: RouteMatch,
) -> Result<ParsedRequest, AllocError>
    ensures { IfOk result (λ t. request_in t ≡ request_at db.now method.now query.now (match_in matched)) }
{
    if !matched.has_whole_match() || !are_texts(&matched.parameters) {
        return Ok(ParsedRequest::Refuses(Refusal::Missing));
    }
    if !names(db, &matched.parameters) {
        return Ok(ParsedRequest::Refuses(Refusal::NoDatabase));
    }
    match matched.action(method) {
        None => Ok(ParsedRequest::Refuses(Refusal::MethodNotAllowed)),
        Some(Action::Body(endpoint)) => Ok(ParsedRequest::Body(endpoint)),
        Some(Action::Document) => {
            document(alloc, &matched.parameters, asks_conflicts(alloc, query)?)
        }
        Some(Action::ListIndexes) => Ok(ParsedRequest::Asks(BodilessCommand::ListIndexes)),
        Some(Action::DropIndex) => drop_index(alloc, "", &matched.parameters),
        Some(Action::DropDesignIndex) => drop_index(alloc, "_design/", &matched.parameters),
    }
}

/// Returns what the method and the target ask of the database.
///
/// Errors: out of memory for the decoded target.
pub(crate) fn read_target(
    alloc: Global,
    db: &str,
    method: &[u8],
    target: &[u8],
) -> Result<ParsedRequest, AllocError>
    ensures { IfOk result (λ t. request_in t ≡ request_of db.now method.now target.now) }
{
    let (path, query) = split_query(target);
    let matched = RouteMatch::of(alloc, path)?;
    request_at(alloc, db, method, query, matched)
}
