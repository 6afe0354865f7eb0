ghost use Rattle.std.specs.Prelude.{◌≡◌, IfOk, codes, option_map};
ghost use Rattle.mg_value.specs.Value.{get_member, object};
ghost use Rattle.mg_doc.specs.Document.{has_known_names, id_of, is_document_id, is_reserved, is_special, mark_of, mark_read, own_members};
ghost use Rattle.mg_doc.specs.WellFormed.{is_known_name};

use crate::error::DocError;
use mg_packed::{Kind, Object, Packed, Part};
use mg_value::NoMemory;
use std::alloc::Global;

// Reads the deletion mark of a document, `_deleted`. Errors: `BadMember` if the mark is malformed, or if the document has an unknown
// reserved name.
pub(crate) fn checked_mark(members: &Object<'_>) -> Result<bool, DocError>
    ensures { result ≡ mark_read members.now }
{
    if !has_known_names(members) {
        return Err(DocError::BadMember);
    }
    mark(members.get("_deleted")).ok_or(DocError::BadMember)
}

// Reads the id of a document, without a copy. `None` if `_id` is malformed, `Some(None)` if it is absent.
pub(crate) fn id_in<'a>(members: &Object<'a>) -> Option<Option<&'a str>>
    ensures { option_map (option_map (λ s. s.now)) result ≡ id_of (get_member (codes "_id") members.now) }
{
    document_id(members.get("_id"))
}

// Copies the body into a block of its own: the members whose names are not reserved. Errors: `NoMemory` if an allocation fails.
pub(crate) fn own_body(alloc: Global, members: &Object<'_>) -> Result<Packed, NoMemory>
    ensures { IfOk result (λ body. body ≡ object (own_members members.now)) }
{
    members.without_names_beginning(alloc, b'_')
}

// Whether each reserved name is one that a document may have.
fn has_known_names(members: &Object<'_>) -> bool
    ensures { result ≡ has_known_names members.now }
{
    for index in 0..members.len() {
        if !is_known(members.name(index)) {
            return false;
        }
    }
    true
}

// Whether a document may have a member of this name.
fn is_known(name: &str) -> bool
    ensures { result ≡ is_known_name name.now }
{
    !is_reserved(name) || is_special(name)
}

// Whether a reserved name is one that a document may have.
fn is_special(name: &str) -> bool
    ensures { result ≡ is_special name.now }
{
    matches!(
        name,
        "_id"
            | "_rev"
            | "_revisions"
            | "_deleted"
            | "_conflicts"
            | "_deleted_conflicts"
            | "_revs_info"
            | "_local_seq"
    )
}

// Reads the mark that `_deleted` gives: true or false; false if `_deleted` is absent, `None` if it is malformed.
fn mark(member: Option<Part<'_>>) -> Option<bool>
    ensures { result ≡ mark_of member.entry }
{
    let Some(value) = member else {
        return Some(false);
    };
    match value.kind() {
        Kind::Flag(deleted) => Some(deleted),
        _ => None,
    }
}

// Reads the id that `_id` gives. `None` if `_id` is malformed, `Some(None)` if it is absent.
fn document_id<'a>(member: Option<Part<'a>>) -> Option<Option<&'a str>>
    ensures { option_map (option_map (λ s. s.now)) result ≡ id_of member.entry }
{
    let Some(value) = member else {
        return Some(None);
    };
    match value.kind() {
        Kind::Text(id) => if is_document_id(id) {
            Some(Some(id))
        } else {
            None
        },
        _ => None,
    }
}

// Whether a text may be an id: it is not empty and does not begin with an underscore.
fn is_document_id(id: &str) -> bool
    ensures { result ≡ is_document_id id.now }
{
    !id.is_empty() && !is_reserved(id)
}

// Whether a name is reserved: it begins with an underscore.
fn is_reserved(name: &str) -> bool
    ensures { result ≡ is_reserved name.now }
{
    name.as_bytes().first() == Some(&b'_')
}
