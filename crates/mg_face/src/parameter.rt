//! The parameters of a query that ask for more of a document, and those that are not answered.
ghost use Rattle.std.specs.Prelude.{◌≡◌, IfOk};
ghost use Rattle.mg_face.specs.Parameters.{asks_flag, default_of, gives, has_pair, is_new_edits, is_replica, name_of, is_of_read, is_revision, if_named, parameter_of, takes, unless_taken, unanswered, unanswered_in};

use crate::action::Action;
use form_urlencoded::{decode, raw_pairs};
use std::alloc::{AllocError, Global};

/// A parameter that changes a meaning in CouchDB and that this server does not answer.
#[derive(Clone, Copy, Debug, PartialEq, Eq)]
pub enum Parameter {
    Attachments,
    AttachmentEncoding,
    AttachmentsSince,
    Batch,
    DeletedConflicts,
    Latest,
    LocalSequence,
    Meta,
    NewEdits,
    OpenRevisions,
    Revision,
    Revisions,
    RevisionsInfo,
    UpdateSequence,
}

impl Parameter {
    fn is_revision(self) -> bool
        ensures { result ≡ is_revision self }
    {
        match self {
            Parameter::Revision => true,
            _ => false,
        }
    }

    fn is_new_edits(self) -> bool
        ensures { result ≡ is_new_edits self }
    {
        match self {
            Parameter::NewEdits => true,
            _ => false,
        }
    }

    /// Returns the value with which it changes nothing.
    fn default(self) -> &'static str
        ensures { result.now ≡ default_of self }
    {
        match self {
            Parameter::NewEdits => "true",
            _ => "false",
        }
    }

    fn is_of_read(self) -> bool
        ensures { result ≡ is_of_read self }
    {
        match self {
            Parameter::Revision
            | Parameter::Latest
            | Parameter::Revisions
            | Parameter::RevisionsInfo
            | Parameter::DeletedConflicts
            | Parameter::Meta => true,
            _ => false,
        }
    }

    /// Returns its name.
    pub fn name(self) -> &'static str
        ensures { result.now ≡ name_of self }
    {
        match self {
            Parameter::Attachments => "attachments",
            Parameter::AttachmentEncoding => "att_encoding_info",
            Parameter::AttachmentsSince => "atts_since",
            Parameter::Batch => "batch",
            Parameter::DeletedConflicts => "deleted_conflicts",
            Parameter::Latest => "latest",
            Parameter::LocalSequence => "local_seq",
            Parameter::Meta => "meta",
            Parameter::NewEdits => "new_edits",
            Parameter::OpenRevisions => "open_revs",
            Parameter::Revision => "rev",
            Parameter::Revisions => "revs",
            Parameter::RevisionsInfo => "revs_info",
            Parameter::UpdateSequence => "update_seq",
        }
    }
}

/// Returns the parameter if the name is its name, else the other one.
fn if_named(name: &str, parameter: Parameter, other: Option<Parameter>) -> Option<Parameter>
    ensures { result ≡ if_named name.now parameter other }
{
    if name.as_bytes() == parameter.name().as_bytes() {
        Some(parameter)
    } else {
        other
    }
}

/// Returns the parameter of a name.
fn parameter_of(name: &str) -> Option<Parameter>
    ensures { result ≡ parameter_of name.now }
{
    let found = if_named(name, Parameter::UpdateSequence, None);
    let found = if_named(name, Parameter::RevisionsInfo, found);
    let found = if_named(name, Parameter::Revisions, found);
    let found = if_named(name, Parameter::Revision, found);
    let found = if_named(name, Parameter::OpenRevisions, found);
    let found = if_named(name, Parameter::NewEdits, found);
    let found = if_named(name, Parameter::Meta, found);
    let found = if_named(name, Parameter::LocalSequence, found);
    let found = if_named(name, Parameter::Latest, found);
    let found = if_named(name, Parameter::DeletedConflicts, found);
    let found = if_named(name, Parameter::Batch, found);
    let found = if_named(name, Parameter::AttachmentsSince, found);
    let found = if_named(name, Parameter::AttachmentEncoding, found);
    if_named(name, Parameter::Attachments, found)
}

/// Whether the action takes the parameter.
fn takes(action: Action, parameter: Parameter) -> bool
    ensures { result ≡ takes action parameter }
{
    match action {
        Action::PostDocument => parameter.is_new_edits(),
        Action::PutDocument => parameter.is_revision() || parameter.is_new_edits(),
        Action::DeleteDocument => parameter.is_revision(),
        Action::ReadDocument => parameter.is_of_read(),
        _ => false,
    }
}

/// Returns the parameter with this value, unless it changes nothing or the action takes it.
fn unless_taken(action: Action, value: &str, parameter: Option<Parameter>) -> Option<Parameter>
    ensures { result ≡ unless_taken action value.now parameter }
{
    match parameter {
        Some(parameter) => {
            if value.as_bytes() == parameter.default().as_bytes() || takes(action, parameter) {
                None
            } else {
                Some(parameter)
            }
        }
        None => None,
    }
}

/// Returns the parameter that a name and a value give, still encoded, unless it changes nothing or the action takes it.
///
/// Errors: out of memory.
fn unanswered(
    alloc: Global,
    action: Action,
    name: &[u8],
    value: &[u8],
) -> Result<Option<Parameter>, AllocError>
    ensures { IfOk result (λ o. o ≡ unanswered action (name.now, value.now)) }
{
    let name = decode(alloc, name)?;
    let value = decode(alloc, value)?;
    Ok(unless_taken(action, value.as_str(), parameter_of(name.as_str())))
}

/// Returns the first parameter of a query that is not answered.
///
/// Errors: out of memory.
pub(crate) fn unanswered_in(
    alloc: Global,
    action: Action,
    query: &[u8],
) -> Result<Option<Parameter>, AllocError>
    ensures { IfOk result (λ o. o ≡ unanswered_in action query.now) }
{
    for (name, value) in raw_pairs(query) {
        match unanswered(alloc, action, name, value)? {
            Some(parameter) => return Ok(Some(parameter)),
            None => {}
        }
    }
    Ok(None)
}

/// Whether a name and a value, still encoded, are this name and this value.
///
/// Errors: out of memory.
fn gives(
    alloc: Global,
    name: &str,
    value: &str,
    encoded: &[u8],
    given: &[u8],
) -> Result<bool, AllocError>
    ensures { IfOk result (λ b. b ≡ gives name.now value.now (encoded.now, given.now)) }
{
    let decoded = decode(alloc, encoded)?;
    let given = decode(alloc, given)?;
    Ok(decoded.as_str() == name && given.as_str() == value)
}

/// Whether some parameter of the query has this name and this value.
///
/// Errors: out of memory.
fn has_pair(alloc: Global, query: &[u8], name: &str, value: &str) -> Result<bool, AllocError>
    ensures { IfOk result (λ b. b ≡ has_pair name.now value.now query.now) }
{
    for (encoded, given) in raw_pairs(query) {
        if gives(alloc, name, value, encoded, given)? {
            return Ok(true);
        }
    }
    Ok(false)
}

/// Whether some parameter of the query has this name and the value `true`.
///
/// Errors: out of memory.
pub(crate) fn asks_flag(alloc: Global, query: &[u8], name: &str) -> Result<bool, AllocError>
    ensures { IfOk result (λ b. b ≡ asks_flag name.now query.now) }
{
    has_pair(alloc, query, name, "true")
}

/// Whether the query says that the edits were made elsewhere.
///
/// Errors: out of memory.
pub(crate) fn is_replica(alloc: Global, query: &[u8]) -> Result<bool, AllocError>
    ensures { IfOk result (λ b. b ≡ is_replica query.now) }
{
    has_pair(alloc, query, "new_edits", "false")
}
