//! Makes the reply to one message, without sending it.
ghost use Rattle.std.specs.Prelude.{◌≡◌, IfOk, Err};
ghost use Rattle.mg_value.specs.Text.{Reads};
ghost use Rattle.mg_value.specs.Value.{Value};
ghost use Rattle.mg_engine.specs.View.{command_view};
ghost use Rattle.mg_http.specs.Session.{asked_by, HandlesBody, Handles};
ghost use Rattle.mg_http.specs.Steps.{answer_in, request_in};

use crate::request::{Endpoint, ParsedRequest};
use crate::sessions::service::Service;
use mg_engine::{Command, Refusal, Reply};
use mg_packed::Packed;
use mg_value::{ReadBuffer, ReadError, read_in};
use std::alloc::Global;
use std::sync::Wait;
use std::thread::Threads;

/// Reads the body as JSON, and returns the endpoint's command with this value. The body of a bulk is read into one block.
///
/// Errors: the body is not JSON; a number of its value is not an `i64`; out of memory, also for a bulk whose block would be longer than
/// 4,294,967,295 bytes.
fn read_command(
    alloc: Global,
    endpoint: Endpoint,
    body: &[u8],
    buffer: &mut ReadBuffer,
) -> Result<Command, ReadError>
    ensures ok { IfOk result
        (λ command. (value : Value) × Reads body.now value × (command_view command ≡ asked_by endpoint value)) }
    ensures not_json { result ≡ Err ReadError.NotJson → (value : Value) → ¬ (Reads body.now value) }
    ensures not_whole { result ≡ Err ReadError.NotWhole → (value : Value) → ¬ (Reads body.now value) }
{
    match endpoint {
        Endpoint::BulkDocs => Ok(Command::PackedBulk(Packed::read_in(alloc, body, buffer)?)),
        Endpoint::Find => Ok(Command::Find(read_in(alloc, body, buffer)?)),
        Endpoint::Explain => Ok(Command::Explain(read_in(alloc, body, buffer)?)),
        Endpoint::CreateIndex => Ok(Command::CreateIndex(read_in(alloc, body, buffer)?)),
        Endpoint::Reshard => Ok(Command::Reshard(read_in(alloc, body, buffer)?)),
    }
}

/// The reply to a message.
#[derive(Drop)]
pub(crate) enum MessageReply {
    /// A reply of the service; or out of memory, if there was no memory for the body. Then the service was not asked.
    Service(Reply),
    /// A refusal of the message. The service was not asked.
    Refusal(Refusal),
}

/// Reads the body as JSON, and asks the service for the endpoint's command.
///
/// Refuses a body that is not JSON, or whose value has a number that is not an `i64`; replies out of memory if there is no memory for the
/// body's value. In both cases the service is not asked.
fn answer_body<H: Wait + Threads + Sync, S: Service>(
    rt: &H,
    alloc: Global,
    service: &mut S,
    endpoint: Endpoint,
    body: &[u8],
) -> MessageReply
    ensures { HandlesBody S.answers endpoint body.now
        (record { old = service.old; reply = answer_in result; new = service.new }) }
{
    let mut buffer = ReadBuffer::new(alloc);
    match read_command(alloc, endpoint, body, &mut buffer) {
        Ok(command) => MessageReply::Service(service.execute(rt, alloc, command)),
        Err(ReadError::NoMemory) => MessageReply::Service(Reply::NoMemory),
        Err(ReadError::NotJson) => MessageReply::Refusal(Refusal::InvalidJson),
        Err(ReadError::NotWhole) => MessageReply::Refusal(Refusal::InvalidJson),
    }
}

/// Answers a message that asks for this request and has this body. Only an endpoint reads the body.
pub(crate) fn answer_request<H: Wait + Threads + Sync, S: Service>(
    rt: &H,
    alloc: Global,
    service: &mut S,
    request: ParsedRequest,
    body: &[u8],
) -> MessageReply
    ensures { Handles S.answers (request_in request) body.now
        (record { old = service.old; reply = answer_in result; new = service.new }) }
{
    match request {
        ParsedRequest::Body(endpoint) => answer_body(rt, alloc, service, endpoint, body),
        ParsedRequest::Asks(asked) => {
            MessageReply::Service(service.execute(rt, alloc, asked.into_command()))
        }
        ParsedRequest::Refuses(refusal) => MessageReply::Refusal(refusal),
    }
}
