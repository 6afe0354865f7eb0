// Finds the fault of a body of `POST _index` without memory.
ghost use Rattle.std.specs.Prelude.{◌≡◌, None, Some, if◌then◌else◌, is_some, map, option_map, true};
ghost use Rattle.std.specs.List.{list_all};
ghost use Rattle.std.specs.Result.{result_err};
ghost use Rattle.mg_value.specs.View.{view, items_view};
ghost use Rattle.mg_value.specs.Value.{list};
ghost use Rattle.mg_index.specs.Fault.{is_column, is_directed, fault_of_directions};
ghost use Rattle.mg_index.specs.Reading.{each_of, definition_of, columns_read, field_direction};

use crate::error::IndexError;
use crate::field::{field_direction, field_path};
use crate::reader::{is_json_index, member_of_index, text_given};
use mg_collate::Direction;
use mg_path::is_path;
use mg_value::Json;

// Finds the error that `IndexDef::read` returns for a body if memory suffices; `None` if the body defines an index.
pub(crate) fn fault_of(body: &Json) -> Option<IndexError>
    ensures { result ≡ result_err (definition_of (view body.now)) }
{
    if !is_json_index(body) {
        return Some(IndexError::Shape);
    }
    if text_given(body.member("ddoc")).is_err() || text_given(body.member("name")).is_err() {
        return Some(IndexError::Shape);
    }
    fields_fault(member_of_index(body, "fields"))
}

// Finds the fault of `fields`; `None` if it is an array of columns in one direction.
fn fields_fault(fields: Option<&Json>) -> Option<IndexError>
    ensures { result ≡ result_err (columns_read (option_map (λ j. view j.now) fields.entry)) }
{
    match fields {
        Some(Json::List(fields)) => columns_fault(fields),
        _ => Some(IndexError::Shape),
    }
}

// Finds the fault of the items of `fields`: `Shape` comes before `Mixed`.
fn columns_fault(fields: &[Json]) -> Option<IndexError>
    ensures { result ≡ result_err (columns_read (Some (list (items_view fields.now)))) }
{
    if are_columns(fields) {
        direction_fault(fields)
    } else {
        Some(IndexError::Shape)
    }
}

// Whether each field gives a path and a direction.
fn are_columns(fields: &[Json]) -> bool
    ensures { result ≡ list_all is_column (map view fields.now) }
{
    for field in fields {
        if !is_column(field) {
            return false;
        }
    }
    true
}

fn is_column(field: &Json) -> bool
    ensures { result ≡ is_column (view field.now) }
{
    match field_path(field) {
        Some(path) => is_path(path) && field_direction(field).is_some(),
        None => false,
    }
}

// Finds the fault of the directions, of which each field has one: `Shape` without fields, `Mixed` if the directions
// differ, otherwise `None`.
fn direction_fault(fields: &[Json]) -> Option<IndexError>
    requires { is_some (each_of field_direction (map view fields.now)) ≡ true }
    ensures { result ≡ fault_of_directions (map view fields.now) }
{
    let Some((first, others)) = fields.split_first() else {
        return Some(IndexError::Shape);
    };
    match field_direction(first) {
        Some(direction) => mixed_fault(direction, others),
        None => Some(IndexError::Shape),
    }
}

// Returns `Mixed` if one of the others does not have this direction, otherwise `None`.
fn mixed_fault(direction: Direction, others: &[Json]) -> Option<IndexError>
    ensures { result ≡ (if list_all (is_directed direction) (map view others.now)
        then None else Some IndexError.Mixed) }
{
    for field in others {
        if !is_directed(direction, field) {
            return Some(IndexError::Mixed);
        }
    }
    None
}

fn is_directed(direction: Direction, field: &Json) -> bool
    ensures { result ≡ is_directed direction (view field.now) }
{
    match field_direction(field) {
        Some(given) => direction == given,
        None => false,
    }
}
