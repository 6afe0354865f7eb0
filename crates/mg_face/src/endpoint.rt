//! The endpoints that take the body of a request as a command.
ghost use Rattle.std.specs.Prelude.{◌≡◌, map, IfOk};
ghost use Rattle.std.specs.Option.{option_map};
ghost use Rattle.mg_engine.specs.View.{command_view};
ghost use Rattle.mg_value.specs.View.{view};
ghost use Rattle.mg_face.specs.Bulk.{partial_in};
ghost use Rattle.mg_face.specs.Json.{json_of};
ghost use Rattle.mg_face.specs.Plan.{plan_view, bulk_asked, bulk_docs, command_of, fault_of, partial_docs, taken, unless_faulty, unread};
ghost use Rattle.mg_face.specs.Way.{way_view};

use crate::action::Endpoint;
use crate::bulk::partial_in;
use crate::fault::{Fault, bulk_fault, query_fault};
use crate::ids::bulk_with_ids;
use crate::place::first_fraction;
use crate::plan::{Plan, Way};
use crate::read::{is_json, read_packed, read_tree};
use crate::said::Said;
use mg_engine::{Command, Refusal};
use mg_packed::Packed;
use mg_value::{Json, NoMemory, ReadBuffer};
use std::alloc::Global;

/// Says why no value was read from a body.
///
/// Errors: out of memory.
pub(crate) fn unread(alloc: Global, body: &[u8], buffer: &mut ReadBuffer) -> Result<Plan, NoMemory>
    ensures { IfOk result (λ p. plan_view p ≡ unread body.now) }
{
    if is_json(alloc, body, buffer)? {
        Ok(Plan::Says(Said::NotWhole(first_fraction(alloc, body)?)))
    } else {
        Ok(Plan::Says(Said::Refuses(Refusal::InvalidJson)))
    }
}

/// Returns the command, unless a member of its body has the wrong shape.
fn unless_faulty(fault: Option<Fault>, command: Command, way: Way) -> Plan
    ensures { plan_view result ≡ unless_faulty fault (command_view command) (way_view way) }
{
    match fault {
        None => Plan::Asks(command, way),
        Some(fault) => Plan::Says(Said::Wrong(fault)),
    }
}

/// Returns what a bulk of documents asks for. Those that have no id get one, counted from the number that was drawn.
///
/// Errors: out of memory.
fn bulk_asked(alloc: Global, drawn: u128, bulk: Packed, way: Way) -> Result<Plan, NoMemory>
    ensures { IfOk result (λ p. plan_view p ≡ bulk_asked drawn bulk (way_view way)) }
{
    let fault = bulk_fault(&bulk);
    let bulk = bulk_with_ids(alloc, drawn, bulk)?;
    Ok(unless_faulty(fault, Command::PackedBulk(bulk), way))
}

/// Returns what a bulk asks for that has a number that is not whole: the documents with such a number are refused by themselves.
///
/// Errors: out of memory.
fn partial_docs(
    alloc: Global,
    drawn: u128,
    body: &[u8],
    buffer: &mut ReadBuffer,
) -> Result<Plan, NoMemory>
    ensures { IfOk result (λ p. plan_view p ≡ partial_docs drawn body.now (partial_in body.now)) }
{
    match partial_in(alloc, body)? {
        Some((bulk, refusals)) => {
            let bulk = Packed::of(alloc, &bulk)?;
            bulk_asked(alloc, drawn, bulk, Way::Bulk(refusals))
        }
        None => unread(alloc, body, buffer),
    }
}

/// Returns what the bulk in a body asks for. Cost: a body with a number that is not whole is read three times.
///
/// Errors: out of memory.
pub(crate) fn bulk_docs(
    alloc: Global,
    drawn: u128,
    body: &[u8],
    buffer: &mut ReadBuffer,
) -> Result<Plan, NoMemory>
    ensures { IfOk result (λ p. plan_view p ≡ bulk_docs drawn body.now (json_of body.now)) }
{
    match read_packed(alloc, body, buffer)? {
        Some(bulk) => bulk_asked(alloc, drawn, bulk, Way::Plain),
        None => partial_docs(alloc, drawn, body, buffer),
    }
}

/// Returns the member of a body whose shape the endpoint refuses.
fn fault_of(endpoint: Endpoint, body: &Json) -> Option<Fault>
    ensures { result ≡ fault_of endpoint (view body.now) }
{
    match endpoint {
        Endpoint::Find | Endpoint::Explain => query_fault(body),
        Endpoint::CreateIndex | Endpoint::Reshard => None,
    }
}

/// Returns the command of an endpoint for a body.
fn command_of(endpoint: Endpoint, body: Json) -> Command
    ensures { command_view result ≡ command_of endpoint (view body) }
{
    match endpoint {
        Endpoint::Find => Command::Find(body),
        Endpoint::Explain => Command::Explain(body),
        Endpoint::CreateIndex => Command::CreateIndex(body),
        Endpoint::Reshard => Command::Reshard(body),
    }
}

/// Returns what a request to an endpoint asks for.
///
/// Errors: out of memory.
pub(crate) fn taken(
    alloc: Global,
    endpoint: Endpoint,
    body: &[u8],
    buffer: &mut ReadBuffer,
) -> Result<Plan, NoMemory>
    ensures { IfOk result (λ p. plan_view p ≡ taken endpoint body.now (json_of body.now)) }
{
    match read_tree(alloc, body, buffer)? {
        Some(value) => {
            let fault = fault_of(endpoint, &value);
            Ok(unless_faulty(fault, command_of(endpoint, value), Way::Plain))
        }
        None => unread(alloc, body, buffer),
    }
}
