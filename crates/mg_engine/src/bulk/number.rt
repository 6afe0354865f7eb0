//! Gives ids to the edits of a bulk that have none.
ghost use Rattle.std.specs.Prelude.{◌≡◌, IfOk, is_some, string_bytes, if◌then◌else◌};
ghost use Rattle.mg_engine.specs.Bulk.{counter_after, number_after, number_text, numbered, with_number};

use mg_doc::Edit;
use mg_value::NoMemory;
use std::alloc::Global;

/// Gives the k-th edit without an id the k-th number after `last` as its id; numbers count modulo 2^64. Returns all edits, and the number
/// that was given last (`last` if none was).
///
/// Errors: `NoMemory` if an allocation fails. Cost: the number of edits.
pub(crate) fn number_edits(
    alloc: Global,
    edits: Vec<Edit>,
    last: u64,
) -> Result<(Vec<Edit>, u64), NoMemory>
    ensures edits { IfOk result (λ r. r.0.items ≡ numbered last edits.items) }
    ensures last { IfOk result (λ r. r.1 ≡ counter_after last edits.items) }
{
    let mut found = Vec::with_capacity(alloc, edits.len())?;
    let mut number = last;
    for edit in edits {
        let (edit, given) = number_edit(alloc, edit, number)?;
        found.push(edit)?;
        number = given;
    }
    Ok((found, number))
}

// Gives an edit without an id the number after `last` as its id. Returns the edit, and the number that was given last (`last` if the edit
// has an id).
fn number_edit(alloc: Global, edit: Edit, last: u64) -> Result<(Edit, u64), NoMemory>
    ensures edit { IfOk result (λ r. r.0 ≡ with_number (number_after last) edit) }
    ensures last { IfOk result (λ r. r.1 ≡ (if is_some edit.id then last else number_after last)) }
{
    if edit.id().is_some() {
        return Ok((edit, last));
    }
    let number = last.wrapping_add(1);
    let id = number_text(alloc, number)?;
    Ok((edit.with_id(id), number))
}

// Writes a number as an id: 16 zeros, then its 16 lowercase hexadecimal digits.
fn number_text(alloc: Global, number: u64) -> Result<String, NoMemory>
    ensures { IfOk result (λ t. string_bytes t ≡ number_text number) }
{
    let mut text = String::from_str(alloc, "0000000000000000")?;
    let digits = hex::encode(alloc, number.to_be_bytes())?;
    text.push_str(digits.as_str())?;
    Ok(text)
}
