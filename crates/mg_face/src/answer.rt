//! Fills responses.
ghost use Rattle.std.specs.Prelude.{Ok, Err, MatchResult, ◌≡◌, ◌++◌, ◌∷◌, [], codes, map, OnOk, IfOk};
ghost use Rattle.std.specs.Option.{option_map};
ghost use Rattle.std.specs.String.{string_bytes};
ghost use Rattle.mg_wire.specs.Response.{listed, IsBlank};
ghost use Rattle.mg_face.specs.Answer.{Answer, json, databases, ids_body, count_body, wrong_body, unanswered_body, status_of, answer_of_said, quoted, tag_of, passed, IsAnswered, IsBegun, IsLack};

use crate::action::allowed;
use crate::count::CountFault;
use crate::fault::Fault;
use crate::ids::id_list;
use crate::parameter::Parameter;
use crate::place::not_whole_body;
use crate::route::Resource;
use crate::said::{Clash, Said};
use bytes::Bytes;
use httpdate::HttpDate;
use mg_engine::Refusal;
use mg_value::{Json, NoMemory, write};
use mg_wire::{Response, Status};
use std::alloc::Global;

const WELCOME: &str =
    "{\"couchdb\":\"Welcome\",\"version\":\"3.3.3\",\"vendor\":{\"name\":\"mango_server\",\"version\":\"1.0.0\"}}\n";

const DATABASE_EXISTS: &str =
    "{\"error\":\"file_exists\",\"reason\":\"The database could not be created, the file already exists.\"}\n";

const ONE_DATABASE: &str =
    "{\"error\":\"forbidden\",\"reason\":\"This server keeps one database.\"}\n";

const LOST: &str =
    "{\"error\":\"storage\",\"reason\":\"The last writes may or may not be stored.\"}\n";

const COMMITTED: &str = "{\"instance_start_time\":\"0\",\"ok\":true}\n";

const BAD_REVISION: &str = "{\"error\":\"bad_request\",\"reason\":\"Invalid rev format\"}\n";

const ATTACHED: &str =
    "{\"error\":\"doc_validation\",\"reason\":\"_attachments: this server keeps no attachments.\"}\n";

const NO_DESIGN: &str =
    "{\"error\":\"forbidden\",\"reason\":\"A design document is made by POST to _index.\"}\n";

/// A longer text is no field of a response: so its fields always have room.
pub(crate) const MAX_VALUE: usize = 2048;

/// Adds a field. Each field of a face can be sent, so there is no other error.
///
/// Errors: out of memory.
pub(crate) fn add_field(
    response: &mut Response,
    name: &'static [u8],
    value: Bytes,
) -> Result<(), NoMemory>
    ensures fields { OnOk result (listed response.new.fields
        ≡ listed response.old.fields ++ (name.now, value) ∷ []) }
    ensures status { response.new.status ≡ response.old.status }
    ensures body { response.new.body ≡ response.old.body }
{
    match response.fields.add(name, value) {
        Ok(()) => Ok(()),
        Err(_) => Err(NoMemory),
    }
}

/// Gives a blank response its date and the type of its body.
///
/// Errors: out of memory.
pub(crate) fn begin(response: &mut Response, date: Option<HttpDate>) -> Result<(), NoMemory>
    requires { IsBlank response.old }
    ensures { OnOk result (IsBegun response.new) }
{
    response.date = date;
    add_field(
        response,
        b"content-type",
        Bytes::from_static(b"application/json"),
    )
}

/// Gives a response that has begun its status and its body.
pub(crate) fn fill(response: &mut Response, status: Status, body: Vec<u8>)
    requires { IsBegun response.old }
    ensures { IsAnswered (json status body.items) response.new }
{
    response.status = status;
    response.body = body;
}

/// Gives a response that has begun its status and this text as its body.
///
/// Errors: out of memory.
fn fill_text(
    alloc: Global,
    response: &mut Response,
    status: Status,
    text: &str,
) -> Result<(), NoMemory>
    requires { IsBegun response.old }
    ensures { OnOk result (IsAnswered (json status text.now) response.new) }
{
    let body = Vec::from_slice(alloc, text.as_bytes())?;
    fill(response, status, body);
    Ok(())
}

/// Gives a response that has begun its status and a body that was made.
///
/// Errors: there was no memory for the body.
fn fill_made(
    response: &mut Response,
    status: Status,
    body: Result<Vec<u8>, NoMemory>,
) -> Result<(), NoMemory>
    requires { IsBegun response.old }
    ensures { MatchResult body (λ b. (result ≡ Ok tt) × IsAnswered (json status b.items) response.new)
        (λ e. result ≡ Err e) }
{
    fill(response, status, body?);
    Ok(())
}

/// Makes the list of the databases.
///
/// Errors: out of memory.
fn databases(alloc: Global, db: &str) -> Result<Vec<u8>, NoMemory>
    ensures { IfOk result (λ v. v.items ≡ databases db.now) }
{
    let mut names = Vec::new(alloc);
    names.push(Json::Text(String::from_str(alloc, db)?))?;
    let mut body = write(alloc, &Json::List(names))?;
    body.push(b'\n')?;
    Ok(body)
}

/// Lists so many ids, the first of which has this number.
///
/// Errors: out of memory.
fn ids_body(alloc: Global, first: u128, count: usize) -> Result<Vec<u8>, NoMemory>
    ensures { IfOk result (λ v. v.items ≡ ids_body first count) }
{
    let ids = id_list(alloc, first, count)?;
    let mut value = Json::empty_object(alloc);
    value.insert(alloc, "uuids", Json::List(ids))?;
    let mut body = write(alloc, &value)?;
    body.push(b'\n')?;
    Ok(body)
}

fn count_body(fault: CountFault) -> &'static str
    ensures { result.now ≡ count_body fault }
{
    match fault {
        CountFault::NotPositive => {
            "{\"error\":\"bad_request\",\"reason\":\"count must be a positive integer\"}\n"
        }
        CountFault::TooLarge => {
            "{\"error\":\"bad_request\",\"reason\":\"count parameter too large\"}\n"
        }
    }
}

fn wrong_body(fault: Fault) -> &'static str
    ensures { result.now ≡ wrong_body fault }
{
    match fault {
        Fault::Documents => {
            "{\"error\":\"bad_request\",\"reason\":\"docs: an array of objects\"}\n"
        }
        Fault::NewEdits => "{\"error\":\"bad_request\",\"reason\":\"new_edits: true or false\"}\n",
        Fault::Selector => "{\"error\":\"bad_request\",\"reason\":\"selector: an object\"}\n",
        Fault::Limit => {
            "{\"error\":\"bad_request\",\"reason\":\"limit: a whole number from 0 to 2147483647\"}\n"
        }
        Fault::Skip => {
            "{\"error\":\"bad_request\",\"reason\":\"skip: a whole number from 0 to 2147483647\"}\n"
        }
        Fault::Bookmark => "{\"error\":\"bad_request\",\"reason\":\"bookmark: a string\"}\n",
        Fault::Conflicts => "{\"error\":\"bad_request\",\"reason\":\"conflicts: true or false\"}\n",
        Fault::Options => "{\"error\":\"bad_request\",\"reason\":\"options: a JSON object\"}\n",
        Fault::Key => "{\"error\":\"bad_request\",\"reason\":\"key: a string\"}\n",
        Fault::Keys => "{\"error\":\"bad_request\",\"reason\":\"keys: an array of strings\"}\n",
        Fault::KeysAlone =>
            "{\"error\":\"bad_request\",\"reason\":\"keys: with no other option than include_docs and inclusive_end\"}\n",
        Fault::StartKey => "{\"error\":\"bad_request\",\"reason\":\"startkey: a string\"}\n",
        Fault::EndKey => "{\"error\":\"bad_request\",\"reason\":\"endkey: a string\"}\n",
        Fault::InclusiveEnd =>
            "{\"error\":\"bad_request\",\"reason\":\"inclusive_end: true or false\"}\n",
        Fault::Descending =>
            "{\"error\":\"bad_request\",\"reason\":\"descending: true or false\"}\n",
        Fault::IncludeDocuments =>
            "{\"error\":\"bad_request\",\"reason\":\"include_docs: true or false\"}\n",
    }
}

/// Refuses a parameter, with its name.
///
/// Errors: out of memory.
fn unanswered_body(alloc: Global, parameter: Parameter) -> Result<Vec<u8>, NoMemory>
    ensures { IfOk result (λ v. v.items ≡ unanswered_body parameter) }
{
    let mut body = Vec::new(alloc);
    body.extend_from_slice(b"{\"error\":\"bad_request\",\"reason\":\"")?;
    body.extend_from_slice(parameter.name().as_bytes())?;
    body.extend_from_slice(b": this server does not answer this parameter.\"}\n")?;
    Ok(body)
}

/// Returns the status of an answer of the database.
pub(crate) fn status_of(code: u16) -> Status
    ensures { result ≡ status_of code }
{
    if code == 200 {
        Status::Ok
    } else if code == 201 {
        Status::Created
    } else if code == 400 {
        Status::BadRequest
    } else if code == 404 {
        Status::NotFound
    } else if code == 405 {
        Status::MethodNotAllowed
    } else if code == 413 {
        Status::ContentTooLarge
    } else if code == 503 {
        Status::ServiceUnavailable
    } else {
        Status::InternalServerError
    }
}

/// Says which methods the resource has.
///
/// Errors: out of memory.
fn refuse_method(alloc: Global, response: &mut Response, resource: Resource) -> Result<(), NoMemory>
    requires { IsBegun response.old }
    ensures { OnOk result (IsAnswered (answer_of_said [] (Said.NotAllowed resource)) response.new) }
{
    fill_text(
        alloc,
        response,
        Status::MethodNotAllowed,
        Refusal::MethodNotAllowed.body(),
    )?;
    add_field(response, b"allow", Bytes::from_static(allowed(resource)))
}

/// Says ids, which a cache is not to keep.
///
/// Errors: out of memory.
fn say_ids(
    alloc: Global,
    response: &mut Response,
    first: u128,
    count: usize,
) -> Result<(), NoMemory>
    requires { IsBegun response.old }
    ensures { OnOk result (IsAnswered (answer_of_said [] (Said.Ids first count)) response.new) }
{
    fill_made(response, Status::Ok, ids_body(alloc, first, count))?;
    add_field(response, b"cache-control", Bytes::from_static(b"no-cache"))
}

/// Says where a document and its request disagree.
///
/// Errors: out of memory.
fn say_clash(alloc: Global, response: &mut Response, clash: Clash) -> Result<(), NoMemory>
    requires { IsBegun response.old }
    ensures { OnOk result (IsAnswered (answer_of_said [] (Said.Clashes clash)) response.new) }
{
    match clash {
        Clash::Ids => fill_text(
            alloc,
            response,
            Status::BadRequest,
            "{\"error\":\"bad_request\",\"reason\":\"_id: the document has another one than the path.\"}\n",
        ),
        Clash::Revisions => fill_text(
            alloc,
            response,
            Status::BadRequest,
            "{\"error\":\"bad_request\",\"reason\":\"_rev: the document, rev and If-Match have different ones.\"}\n",
        ),
    }
}

/// Fills a response that has begun with what is said; `db` is the name of the database.
///
/// Errors: out of memory.
pub(crate) fn say(
    alloc: Global,
    db: &str,
    response: &mut Response,
    said: Said,
) -> Result<(), NoMemory>
    requires { IsBegun response.old }
    ensures { OnOk result (IsAnswered (answer_of_said db.now said) response.new) }
{
    match said {
        Said::Welcome => fill_text(alloc, response, Status::Ok, WELCOME),
        Said::Up => fill_text(alloc, response, Status::Ok, "{\"status\":\"ok\"}\n"),
        Said::Databases => fill_made(response, Status::Ok, databases(alloc, db)),
        Said::Ids(first, count) => say_ids(alloc, response, first, count),
        Said::BadCount(fault) => fill_text(alloc, response, Status::BadRequest, count_body(fault)),
        Said::DatabaseExists => fill_text(
            alloc,
            response,
            Status::PreconditionFailed,
            DATABASE_EXISTS,
        ),
        Said::OneDatabase => fill_text(alloc, response, Status::Forbidden, ONE_DATABASE),
        Said::Committed => fill_text(alloc, response, Status::Created, COMMITTED),
        Said::NotAllowed(resource) => refuse_method(alloc, response, resource),
        Said::Unanswered(parameter) => fill_made(
            response,
            Status::BadRequest,
            unanswered_body(alloc, parameter),
        ),
        Said::Clashes(clash) => say_clash(alloc, response, clash),
        Said::BadRevision => fill_text(alloc, response, Status::BadRequest, BAD_REVISION),
        Said::Wrong(fault) => fill_text(alloc, response, Status::BadRequest, wrong_body(fault)),
        Said::NotWhole(found) => fill_made(
            response,
            Status::BadRequest,
            not_whole_body(alloc, &found),
        ),
        Said::Attached => fill_text(alloc, response, Status::BadRequest, ATTACHED),
        Said::NoDesign => fill_text(alloc, response, Status::Forbidden, NO_DESIGN),
        Said::Refuses(refusal) => {
            fill_text(alloc, response, status_of(refusal.status()), refusal.body())
        }
    }
}

/// Says why the server cannot answer, as far as there is memory for it, whatever the response held.
fn fail(alloc: Global, response: &mut Response, text: &str)
    ensures { IsLack response.new }
{
    response.status = Status::ServiceUnavailable;
    match Vec::from_slice(alloc, text.as_bytes()) {
        Ok(body) => response.body = body,
        Err(_) => response.body = Vec::new(alloc),
    }
}

/// Says that memory ran out.
pub(crate) fn lack(alloc: Global, response: &mut Response)
    ensures { IsLack response.new }
{
    fail(alloc, response, Refusal::OutOfMemory.body());
}

/// Says that the store is lost.
pub(crate) fn say_lost(alloc: Global, response: &mut Response)
    ensures { IsLack response.new }
{
    fail(alloc, response, LOST);
}

/// Writes a text in double quotes.
///
/// Errors: out of memory.
pub(crate) fn quoted(alloc: Global, text: &str) -> Result<Vec<u8>, NoMemory>
    ensures { IfOk result (λ v. v.items ≡ quoted text.now) }
{
    let mut tag = Vec::with_capacity(alloc, text.len().saturating_add(2))?;
    tag.push(b'"')?;
    tag.extend_from_slice(text.as_bytes())?;
    tag.push(b'"')?;
    Ok(tag)
}

/// Adds a revision as `ETag`, unless it is too long for a field.
///
/// Errors: out of memory.
pub(crate) fn add_tag(
    alloc: Global,
    response: &mut Response,
    revision: &str,
) -> Result<(), NoMemory>
    ensures fields { OnOk result (listed response.new.fields
        ≡ listed response.old.fields ++ tag_of revision.now) }
    ensures status { response.new.status ≡ response.old.status }
    ensures body { response.new.body ≡ response.old.body }
{
    if revision.len() > MAX_VALUE {
        return Ok(());
    }
    let tag = Bytes::from_vec(quoted(alloc, revision)?)?;
    add_field(response, b"etag", tag)
}
