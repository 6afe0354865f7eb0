//! Finds faults of a body without taking memory: a wrong shape; otherwise the first fault of its selector; otherwise a letter that no
//! bookmark has, or, with the bookmark `nil`, a sort in both directions.
ghost use Rattle.std.specs.Prelude.{◌≡◌, None, Some, if◌then◌else◌, is_some, map};
ghost use Rattle.std.specs.List.{list_all};
ghost use Rattle.std.specs.Result.{result_err};
ghost use Rattle.mg_value.specs.View.{view};
ghost use Rattle.mg_selector.specs.Reading.{reading};
ghost use Rattle.mg_index.specs.Fault.{is_directed};
ghost use Rattle.mg_query.specs.Given.{fault_given, fault_in_turn, given_view, gives_path, gives_sort, parsed, sort_fault};
ghost use Rattle.mg_query.specs.Query.{bookmark_fault, early_fault, selector_or_fault};

use crate::error::QueryError;
use crate::member::{Members, NO_BOOKMARK, members_in};
use mg_bookmark::has_only_letters;
use mg_collate::Direction;
use mg_index::{field_direction, field_path};
use mg_path::is_path;
use mg_value::Json;

// Finds the fault of a body; `None` if there is none that is found without taking memory. A bookmark of the right letters is not read, and
// a sort beside it is not checked.
pub(crate) fn fault_of(body: &Json) -> Option<QueryError>
    ensures { result ≡ early_fault (view body.now) }
{
    match members_in(body) {
        Some(members) => members_fault(members),
        None => Some(QueryError::Shape),
    }
}

fn members_fault(members: Members<'_>) -> Option<QueryError>
    ensures { result ≡ fault_given (given_view members.entry) }
{
    if are_shaped(members) {
        fault_in_turn(members)
    } else {
        Some(QueryError::Shape)
    }
}

// Finds the first fault of the selector, otherwise that of the bookmark and the sort. The shapes must be right.
fn fault_in_turn(members: Members<'_>) -> Option<QueryError>
    ensures { result ≡ fault_in_turn (given_view members.entry) }
{
    match selector_fault(members.selector) {
        Some(fault) => Some(fault),
        None => bookmark_fault(members.bookmark, members.sort),
    }
}

// Whether each item of `fields` gives a path, and each item of `sort` a path and a direction.
fn are_shaped(members: Members<'_>) -> bool
    ensures { result ≡ is_some (parsed (given_view members.entry)) }
{
    are_paths(members.fields) && are_sort_fields(members.sort)
}

fn selector_fault(selector: &Json) -> Option<QueryError>
    ensures { result ≡ result_err (selector_or_fault (reading (view selector.now))) }
{
    match mg_selector::fault_of(selector) {
        Some(fault) => Some(QueryError::from(fault)),
        None => None,
    }
}

fn are_paths(texts: &[Json]) -> bool
    ensures { result ≡ list_all gives_path (map view texts.now) }
{
    for text in texts {
        if !is_path_text(text) {
            return false;
        }
    }
    true
}

fn is_path_text(text: &Json) -> bool
    ensures { result ≡ gives_path (view text.now) }
{
    match text {
        Json::Text(text) => is_path(text),
        _ => false,
    }
}

fn are_sort_fields(fields: &[Json]) -> bool
    ensures { result ≡ list_all gives_sort (map view fields.now) }
{
    for field in fields {
        if !is_sort_field(field) {
            return false;
        }
    }
    true
}

fn is_sort_field(field: &Json) -> bool
    ensures { result ≡ gives_sort (view field.now) }
{
    match field_path(field) {
        Some(path) => is_path(path) && field_direction(field).is_some(),
        None => false,
    }
}

// Finds the fault of the sort if the bookmark is `nil`, otherwise a letter that no bookmark has.
fn bookmark_fault(bookmark: &str, sort: &[Json]) -> Option<QueryError>
    ensures { result ≡ bookmark_fault bookmark.now (sort_fault (map view sort.now)) }
{
    if bookmark == NO_BOOKMARK {
        sort_fault(sort)
    } else if has_only_letters(bookmark) {
        None
    } else {
        Some(QueryError::BadBookmark)
    }
}

// Returns `MixedSort` if a field of the sort does not have the direction of the first one. Each field must give a direction.
fn sort_fault(sort: &[Json]) -> Option<QueryError>
    ensures { result ≡ sort_fault (map view sort.now) }
{
    let Some((first, others)) = sort.split_first() else {
        return None;
    };
    match field_direction(first) {
        Some(direction) => mixed_fault(direction, others),
        None => None,
    }
}

// Returns `MixedSort` if one of the other fields does not have this direction.
fn mixed_fault(direction: Direction, others: &[Json]) -> Option<QueryError>
    ensures { result ≡ (if list_all (is_directed direction) (map view others.now)
        then None else Some QueryError.MixedSort) }
{
    for field in others {
        if !is_directed(direction, field) {
            return Some(QueryError::MixedSort);
        }
    }
    None
}

fn is_directed(direction: Direction, field: &Json) -> bool
    ensures { result ≡ is_directed direction (view field.now) }
{
    match field_direction(field) {
        Some(given) => direction == given,
        None => false,
    }
}
