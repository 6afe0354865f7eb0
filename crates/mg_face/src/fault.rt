//! Members of a body, or options of a query, that have the wrong shape.
ghost use Rattle.std.specs.Prelude.{◌≡◌};
ghost use Rattle.std.specs.Option.{option_map};
ghost use Rattle.mg_value.specs.View.{view};
ghost use Rattle.mg_face.specs.Fault.{is_object, is_count, is_bookmark, is_flag, is_list, query_fault, bulk_fault};

use mg_packed::{Kind, Packed, Part};
use mg_value::Json;

/// The greatest `limit` and `skip`.
const GREATEST_COUNT: i64 = 2_147_483_647;

/// A member of a body whose value has the wrong shape.
#[derive(Clone, Copy, Debug, PartialEq, Eq)]
pub enum Fault {
    /// `docs` of a bulk.
    Documents,
    /// `new_edits` of a bulk.
    NewEdits,
    /// `selector` of a query.
    Selector,
    /// `limit` of a query.
    Limit,
    /// `skip` of a query.
    Skip,
    /// `bookmark` of a query.
    Bookmark,
    /// `conflicts` of a query, or of `_all_docs`.
    Conflicts,
    /// The body of `_all_docs`.
    Options,
    /// `key` of `_all_docs`; the next ones too are of it.
    Key,
    Keys,
    /// Another option beside `keys`.
    KeysAlone,
    StartKey,
    EndKey,
    InclusiveEnd,
    Descending,
    IncludeDocuments,
}

pub(crate) fn is_object(value: Option<&Json>) -> bool
    ensures { result ≡ is_object (option_map (λ v. view v.now) value.entry) }
{
    match value {
        Some(Json::Object(_)) => true,
        _ => false,
    }
}

pub(crate) fn is_count(value: Option<&Json>) -> bool
    ensures { result ≡ is_count (option_map (λ v. view v.now) value.entry) }
{
    match value {
        None => true,
        Some(Json::Whole(n)) => 0 <= *n && *n <= GREATEST_COUNT,
        Some(_) => false,
    }
}

fn is_bookmark(value: Option<&Json>) -> bool
    ensures { result ≡ is_bookmark (option_map (λ v. view v.now) value.entry) }
{
    match value {
        None => true,
        Some(Json::Null) => true,
        Some(Json::Text(_)) => true,
        Some(_) => false,
    }
}

pub(crate) fn is_flag(value: Option<&Json>) -> bool
    ensures { result ≡ is_flag (option_map (λ v. view v.now) value.entry) }
{
    match value {
        None => true,
        Some(Json::Flag(_)) => true,
        Some(_) => false,
    }
}

/// Returns the first member of a query that has the wrong shape.
pub(crate) fn query_fault(body: &Json) -> Option<Fault>
    ensures { result ≡ query_fault (view body.now) }
{
    if !is_object(body.member("selector")) {
        Some(Fault::Selector)
    } else if !is_count(body.member("limit")) {
        Some(Fault::Limit)
    } else if !is_count(body.member("skip")) {
        Some(Fault::Skip)
    } else if !is_bookmark(body.member("bookmark")) {
        Some(Fault::Bookmark)
    } else if !is_flag(body.member("conflicts")) {
        Some(Fault::Conflicts)
    } else {
        None
    }
}

fn is_list(value: Option<Part<'_>>) -> bool
    ensures { result ≡ is_list value.entry }
{
    match value {
        Some(part) => match part.kind() {
            Kind::List(_) => true,
            _ => false,
        },
        None => false,
    }
}

fn is_flag_part(value: Option<Part<'_>>) -> bool
    ensures { result ≡ is_flag value.entry }
{
    match value {
        Some(part) => match part.kind() {
            Kind::Flag(_) => true,
            _ => false,
        },
        None => true,
    }
}

/// Returns the first member of a bulk that has the wrong shape.
pub(crate) fn bulk_fault(body: &Packed) -> Option<Fault>
    ensures { result ≡ bulk_fault body.now }
{
    if !is_list(body.part().member("docs")) {
        Some(Fault::Documents)
    } else if !is_flag_part(body.part().member("new_edits")) {
        Some(Fault::NewEdits)
    } else {
        None
    }
}
