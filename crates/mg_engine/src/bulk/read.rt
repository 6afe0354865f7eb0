//! Reads the body of a bulk. No state is needed for this.
ghost use Rattle.std.specs.Prelude.{◌≡◌, IfOk, option_map, Some, true};
ghost use Rattle.mg_value.specs.Value.{list};
ghost use Rattle.mg_doc.specs.Document.{is_object};
ghost use Rattle.mg_engine.specs.Prepared.{Determines};
ghost use Rattle.mg_engine.specs.Bulk.{are_objects, bulk_of, edits_of, edits_or_refusal, of_objects, shaped};
ghost use Rattle.mg_engine.specs.BulkView.{bulk_view, edits_view};
ghost use Rattle.mg_engine.specs.Commands.{bulk};
ghost use Rattle.mg_engine.specs.Faults.{ReadsAs};

use crate::fault::Fault;
use crate::refusal::Refusal;
use mg_doc::Edit;
use mg_packed::{Array, Kind, Packed, Part};
use mg_value::NoMemory;
use std::alloc::Global;

/// What the body of a bulk says: its edits and whether they are new, or why it is refused.
#[derive(Drop)]
pub(crate) enum PreparedBulk {
    Edits { new_edits: bool, edits: Vec<Edit> },
    Refused(Refusal),
}

// The documents of a bulk, each an object, and whether their edits are new.
#[derive(Drop)]
struct Bulk<'a> {
    new_edits: bool,
    documents: Array<'a>,
}

impl PreparedBulk {
    /// Reads the body of a bulk: first its shape, and then its documents in order, up to the first fault.
    ///
    /// The documents are read in place. Only what `Edit::read_part` keeps of them is copied.
    ///
    /// Errors: `NoMemory` if an allocation fails. Cost: a step for each document, and then that of `Edit::read_part` for each.
    pub(crate) fn of(alloc: Global, body: &Packed) -> Result<PreparedBulk, NoMemory>
        ensures { IfOk result (λ read. Determines read (bulk body.now)) }
    {
        let Some(bulk) = read_bulk(body.part()) else {
            return Ok(PreparedBulk::Refused(Refusal::WrongShape));
        };
        let Bulk {
            new_edits,
            documents,
        } = bulk;
        match read_edits(alloc, new_edits, documents) {
            Ok(edits) => Ok(PreparedBulk::Edits { new_edits, edits }),
            Err(Fault::Refused(refusal)) => Ok(PreparedBulk::Refused(refusal)),
            Err(Fault::NoMemory) => Err(NoMemory),
        }
    }
}

// Reads the shape of a body, and returns the bulk, whose edits are not read yet. `None` if the body is not an object, has no array `docs`,
// has a `new_edits` that is neither true nor false, or has a document that is not an object.
fn read_bulk(body: Part<'_>) -> Option<Bulk<'_>>
    ensures { option_map bulk_view result ≡ bulk_of body.entry }
{
    let Some(docs) = body.member("docs") else {
        return None;
    };
    match docs.kind() {
        Kind::List(documents) => read_documents(documents, body.member("new_edits")),
        _ => None,
    }
}

// Makes a bulk of these documents and the member `new_edits`; if the member is absent, the edits are new. `None` if the member is neither
// true nor false, or if a document is not an object.
fn read_documents<'a>(documents: Array<'a>, new_edits: Option<Part<'a>>) -> Option<Bulk<'a>>
    ensures { option_map bulk_view result ≡ shaped (Some (list documents.entry)) new_edits.entry }
{
    let Some(new_edits) = new_edits else {
        return read_objects(true, documents);
    };
    match new_edits.kind() {
        Kind::Flag(new_edits) => read_objects(new_edits, documents),
        _ => None,
    }
}

// Makes a bulk of these documents. `None` if one of them is not an object.
fn read_objects(new_edits: bool, documents: Array<'_>) -> Option<Bulk<'_>>
    ensures { option_map bulk_view result ≡ of_objects new_edits documents.entry }
{
    if are_objects(&documents) {
        Some(Bulk {
            new_edits,
            documents,
        })
    } else {
        None
    }
}

fn are_objects(documents: &Array<'_>) -> bool
    ensures { result ≡ are_objects documents.now }
{
    for index in 0..documents.len() {
        if !is_object(&documents.item(index)) {
            return false;
        }
    }
    true
}

fn is_object(value: &Part<'_>) -> bool
    ensures { result ≡ is_object value.now }
{
    match value.kind() {
        Kind::Object(_) => true,
        _ => false,
    }
}

// Reads the edit of each document, in order. Errors: the first fault of a document, or `NoMemory` if an allocation fails before it.
fn read_edits(alloc: Global, new_edits: bool, documents: Array<'_>) -> Result<Vec<Edit>, Fault>
    requires { are_objects documents ≡ true }
    ensures { ReadsAs (edits_view new_edits) result
        (edits_or_refusal new_edits (edits_of new_edits documents.entry)) }
{
    let count = documents.len();
    let mut edits = Vec::with_capacity(alloc, count)?;
    for index in 0..count {
        let edit = Edit::read_part(alloc, documents.item(index), new_edits)?;
        edits.push(edit)?;
    }
    Ok(edits)
}
