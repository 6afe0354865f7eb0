//! The options of `_all_docs`.
ghost use Rattle.std.specs.Prelude.{◌≡◌, IfOk, Some, map};
ghost use Rattle.std.specs.List.{list_all};
ghost use Rattle.std.specs.Option.{option_map};
ghost use Rattle.std.specs.String.{string_bytes};
ghost use Rattle.mg_value.specs.Value.{list};
ghost use Rattle.mg_value.specs.View.{items_view, view};
ghost use Rattle.mg_face.specs.Listing.{option_value, with_value, with_spelled, with_option, with_options, start_in, end_in, is_text, is_id, are_ids, has_range, keys_fault, flags_fault, listing_fault};

use crate::edit::value_in_query;
use crate::fault::{Fault, is_count, is_flag};
use crate::read::read_tree;
use mg_value::{Json, NoMemory, ReadBuffer};
use std::alloc::Global;

/// Reads a value of a query as a JSON text; null if it is none.
///
/// Errors: out of memory.
fn option_value(alloc: Global, text: &[u8], buffer: &mut ReadBuffer) -> Result<Json, NoMemory>
    ensures { IfOk result (λ v. view v ≡ option_value text.now) }
{
    match read_tree(alloc, text, buffer)? {
        Some(value) => Ok(value),
        None => Ok(Json::Null),
    }
}

/// Gives the options this one, if there is a value for it.
///
/// Errors: out of memory.
fn with_value(
    alloc: Global,
    name: &str,
    given: Option<String>,
    options: Json,
    buffer: &mut ReadBuffer,
) -> Result<Json, NoMemory>
    ensures { IfOk result (λ v. view v ≡ with_value name.now (option_map string_bytes given) (view options)) }
{
    match given {
        Some(text) => {
            let value = option_value(alloc, text.as_bytes(), buffer)?;
            let mut options = options;
            options.insert(alloc, name, value)?;
            Ok(options)
        }
        None => Ok(options),
    }
}

/// Gives the options the one of this name, if the query has it in this spelling.
///
/// Errors: out of memory.
fn with_spelled(
    alloc: Global,
    query: &[u8],
    spelling: &str,
    name: &str,
    options: Json,
    buffer: &mut ReadBuffer,
) -> Result<Json, NoMemory>
    ensures { IfOk result (λ v. view v ≡ with_spelled query.now spelling.now name.now (view options)) }
{
    let given = value_in_query(alloc, query, spelling)?;
    with_value(alloc, name, given, options, buffer)
}

/// Gives the options the one of this name, if the query has it.
///
/// Errors: out of memory.
fn with_option(
    alloc: Global,
    query: &[u8],
    name: &str,
    options: Json,
    buffer: &mut ReadBuffer,
) -> Result<Json, NoMemory>
    ensures { IfOk result (λ v. view v ≡ with_option query.now name.now (view options)) }
{
    with_spelled(alloc, query, name, name, options, buffer)
}

/// Gives the options those of a query.
///
/// Errors: out of memory.
pub(crate) fn with_options(
    alloc: Global,
    query: &[u8],
    options: Json,
    buffer: &mut ReadBuffer,
) -> Result<Json, NoMemory>
    ensures { IfOk result (λ v. view v ≡ with_options query.now (view options)) }
{
    let options = with_option(alloc, query, "key", options, buffer)?;
    let options = with_option(alloc, query, "keys", options, buffer)?;
    let options = with_option(alloc, query, "startkey", options, buffer)?;
    let options = with_spelled(alloc, query, "start_key", "startkey", options, buffer)?;
    let options = with_option(alloc, query, "endkey", options, buffer)?;
    let options = with_spelled(alloc, query, "end_key", "endkey", options, buffer)?;
    let options = with_option(alloc, query, "conflicts", options, buffer)?;
    let options = with_option(alloc, query, "descending", options, buffer)?;
    let options = with_option(alloc, query, "include_docs", options, buffer)?;
    let options = with_option(alloc, query, "inclusive_end", options, buffer)?;
    let options = with_option(alloc, query, "limit", options, buffer)?;
    let options = with_option(alloc, query, "skip", options, buffer)?;
    Ok(options)
}

/// Returns the option with which the range begins.
pub(crate) fn start_in(options: &Json) -> Option<&Json>
    ensures { option_map (λ v. view v.now) result ≡ start_in (view options.now) }
{
    match options.member("startkey") {
        Some(value) => Some(value),
        None => options.member("start_key"),
    }
}

/// Returns the option with which the range ends.
pub(crate) fn end_in(options: &Json) -> Option<&Json>
    ensures { option_map (λ v. view v.now) result ≡ end_in (view options.now) }
{
    match options.member("endkey") {
        Some(value) => Some(value),
        None => options.member("end_key"),
    }
}

fn is_text(value: &Json) -> bool
    ensures { result ≡ is_text (view value.now) }
{
    match value {
        Json::Text(_) => true,
        _ => false,
    }
}

fn is_id(value: Option<&Json>) -> bool
    ensures { result ≡ is_id (option_map (λ v. view v.now) value.entry) }
{
    match value {
        None => true,
        Some(value) => is_text(value),
    }
}

fn all_texts(items: &[Json]) -> bool
    ensures { result ≡ list_all is_text (map view items.now) }
{
    for item in items {
        if !is_text(item) {
            return false;
        }
    }
    true
}

fn are_texts(items: &[Json]) -> bool
    ensures { result ≡ are_ids (Some (list (items_view items.now))) }
{
    all_texts(items)
}

fn are_ids(value: Option<&Json>) -> bool
    ensures { result ≡ are_ids (option_map (λ v. view v.now) value.entry) }
{
    match value {
        None => true,
        Some(Json::List(items)) => are_texts(items),
        Some(_) => false,
    }
}

fn has_range(options: &Json) -> bool
    ensures { result ≡ has_range (view options.now) }
{
    options.member("key").is_some()
        || start_in(options).is_some()
        || end_in(options).is_some()
        || options.member("limit").is_some()
        || options.member("skip").is_some()
        || options.member("descending").is_some()
        || options.member("conflicts").is_some()
}

fn keys_fault(options: &Json) -> Option<Fault>
    ensures { result ≡ keys_fault (view options.now) }
{
    if options.member("keys").is_some() {
        if has_range(options) {
            Some(Fault::KeysAlone)
        } else {
            None
        }
    } else {
        None
    }
}

fn flags_fault(options: &Json) -> Option<Fault>
    ensures { result ≡ flags_fault (view options.now) }
{
    if !is_flag(options.member("conflicts")) {
        Some(Fault::Conflicts)
    } else if !is_flag(options.member("descending")) {
        Some(Fault::Descending)
    } else if !is_flag(options.member("include_docs")) {
        Some(Fault::IncludeDocuments)
    } else if !is_flag(options.member("inclusive_end")) {
        Some(Fault::InclusiveEnd)
    } else {
        keys_fault(options)
    }
}

/// Returns the first option of the wrong shape.
pub(crate) fn listing_fault(options: &Json) -> Option<Fault>
    ensures { result ≡ listing_fault (view options.now) }
{
    if !are_ids(options.member("keys")) {
        Some(Fault::Keys)
    } else if !is_id(options.member("key")) {
        Some(Fault::Key)
    } else if !is_id(start_in(options)) {
        Some(Fault::StartKey)
    } else if !is_id(end_in(options)) {
        Some(Fault::EndKey)
    } else if !is_count(options.member("limit")) {
        Some(Fault::Limit)
    } else if !is_count(options.member("skip")) {
        Some(Fault::Skip)
    } else {
        flags_fault(options)
    }
}
