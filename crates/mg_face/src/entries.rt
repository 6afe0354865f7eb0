//! How the answer to a bulk is shown, some of whose documents were refused before.
ghost use Rattle.std.specs.Prelude.{◌≡◌, ◌++◌, map, OnOk, IfOk};
ghost use Rattle.std.specs.Option.{option_map};
ghost use Rattle.std.specs.Vec.Iter.{into_iter_items};
ghost use Rattle.mg_value.specs.Value.{list};
ghost use Rattle.mg_value.specs.View.{items_of, view};
ghost use Rattle.mg_engine.specs.Bodies.{line_of};
ghost use Rattle.mg_face.specs.Answer.{IsAnswered, IsBegun};
ghost use Rattle.mg_face.specs.Entries.{with_refusals, listed, entries_in, completed};

use crate::answer::{fill, status_of};
use crate::edited::line_of;
use crate::read::{read_tree, text_of_line};
use mg_value::{Json, NoMemory, ReadBuffer};
use mg_wire::{Response, Status};
use std::alloc::Global;
use std::vec::IntoIter;

/// Appends the entries that are left.
///
/// Errors: out of memory.
fn append(found: Vec<Json>, entries: IntoIter<Json>) -> Result<Vec<Json>, NoMemory>
    ensures { IfOk result (λ v. map view v.items ≡ map view found.items ++ map view (into_iter_items entries)) }
{
    let mut found = found;
    for entry in entries {
        found.push(entry)?;
    }
    Ok(found)
}

/// Puts the entries of refused documents among the others.
///
/// Errors: out of memory.
fn with_refusals(
    alloc: Global,
    refusals: Vec<Option<Json>>,
    entries: Vec<Json>,
) -> Result<Vec<Json>, NoMemory>
    ensures { IfOk result (λ v. map view v.items
        ≡ with_refusals (map (option_map view) refusals.items) (map view entries.items)) }
{
    let mut found = Vec::with_capacity(alloc, refusals.len())?;
    let mut entries = entries.into_iter();
    for refusal in refusals {
        match refusal {
            Some(refused) => found.push(refused)?,
            None => match entries.next() {
                Some(entry) => found.push(entry)?,
                None => {}
            },
        }
    }
    append(found, entries)
}

/// Returns the items of a list.
fn listed(value: Json) -> Option<Vec<Json>>
    ensures { option_map (λ v. map view v.items) result ≡ listed (view value) }
{
    match value {
        Json::List(values) => Some(values),
        _ => None,
    }
}

/// Returns the entries of a bulk that was executed.
///
/// Errors: out of memory.
fn entries_in(
    alloc: Global,
    status: u16,
    body: &[u8],
    buffer: &mut ReadBuffer,
) -> Result<Option<Vec<Json>>, NoMemory>
    ensures { IfOk result (λ o. option_map (λ v. map view v.items) o
        ≡ entries_in (record { status = status; body = body.now })) }
{
    if status != 201 {
        return Ok(None);
    }
    match read_tree(alloc, text_of_line(body), buffer)? {
        Some(value) => Ok(listed(value)),
        None => Ok(None),
    }
}

/// Writes the entries, with those of refused documents, as a line.
///
/// Errors: out of memory.
fn entries_line(
    alloc: Global,
    refusals: Vec<Option<Json>>,
    entries: Vec<Json>,
) -> Result<Vec<u8>, NoMemory>
    ensures { IfOk result (λ v. v.items
        ≡ line_of (list (items_of (with_refusals (map (option_map view) refusals.items) (map view entries.items))))) }
{
    let entries = with_refusals(alloc, refusals, entries)?;
    line_of(alloc, &Json::List(entries))
}

/// Shows the answer to a bulk with the entries of the documents that were refused before.
///
/// Errors: out of memory.
pub(crate) fn show_bulk(
    alloc: Global,
    response: &mut Response,
    refusals: Vec<Option<Json>>,
    status: u16,
    body: Vec<u8>,
    buffer: &mut ReadBuffer,
) -> Result<(), NoMemory>
    requires { IsBegun response.old }
    ensures { OnOk result
        (IsAnswered (completed (map (option_map view) refusals.items) (record { status = status; body = body.items }))
        response.new) }
{
    match entries_in(alloc, status, body.as_slice(), buffer)? {
        Some(entries) => {
            let body = entries_line(alloc, refusals, entries)?;
            fill(response, Status::Created, body);
            Ok(())
        }
        None => {
            fill(response, status_of(status), body);
            Ok(())
        }
    }
}
