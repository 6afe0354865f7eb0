//! `/{db}/_all_docs`.
ghost use Rattle.std.specs.Prelude.{◌≡◌, IfOk, Some, map};
ghost use Rattle.std.specs.Option.{option_map, option_or};
ghost use Rattle.std.specs.String.{string_bytes};
ghost use Rattle.mg_value.specs.Value.{list, no_members, object};
ghost use Rattle.mg_value.specs.View.{items_view, view};
ghost use Rattle.mg_engine.specs.QuestionView.{listing_view, question_view};
ghost use Rattle.mg_face.specs.Json.{json_of};
ghost use Rattle.mg_face.specs.Listing.{with_options, id_given, flag_given, count_given, text_given, range_of, rows_asked, listing_asked};
ghost use Rattle.mg_face.specs.Plan.{plan_view, listed, listed_by, listed_with, unless_wrong};

use crate::endpoint::unread;
use crate::fault::{Fault, is_object};
use crate::options::{end_in, listing_fault, start_in, with_options};
use crate::plan::{Plan, Way};
use crate::read::read_tree;
use crate::said::Said;
use mg_engine::{Listing, Question};
use mg_value::{Json, NoMemory, ReadBuffer};
use std::alloc::Global;

/// Copies the text that an option is.
///
/// Errors: out of memory.
fn id_given(alloc: Global, value: Option<&Json>) -> Result<Option<String>, NoMemory>
    ensures { IfOk result
        (λ o. option_map string_bytes o ≡ id_given (option_map (λ v. view v.now) value.entry)) }
{
    match value {
        Some(Json::Text(text)) => Ok(Some(String::from_str(alloc, text)?)),
        _ => Ok(None),
    }
}

/// Copies the text that the first option is; if it is none, that of the second one.
///
/// Errors: out of memory.
fn id_of(
    alloc: Global,
    first: Option<&Json>,
    second: Option<&Json>,
) -> Result<Option<String>, NoMemory>
    ensures { IfOk result (λ o. option_map string_bytes o
        ≡ option_or (id_given (option_map (λ v. view v.now) first.entry))
        (id_given (option_map (λ v. view v.now) second.entry))) }
{
    match id_given(alloc, first)? {
        Some(id) => Ok(Some(id)),
        None => id_given(alloc, second),
    }
}

fn flag_given(otherwise: bool, value: Option<&Json>) -> bool
    ensures { result ≡ flag_given otherwise (option_map (λ v. view v.now) value.entry) }
{
    match value {
        Some(Json::Flag(flag)) => *flag,
        _ => otherwise,
    }
}

fn count_given(otherwise: u32, value: Option<&Json>) -> u32
    ensures { result ≡ count_given otherwise (option_map (λ v. view v.now) value.entry) }
{
    match value {
        Some(Json::Whole(count)) => match u32::try_from(*count) {
            Ok(count) => count,
            Err(_) => otherwise,
        },
        _ => otherwise,
    }
}

/// Copies the text that an item is; the empty text for any other value.
///
/// Errors: out of memory.
fn text_given(alloc: Global, value: &Json) -> Result<String, NoMemory>
    ensures { IfOk result (λ s. string_bytes s ≡ text_given (view value.now)) }
{
    match value {
        Json::Text(text) => Ok(String::from_str(alloc, text)?),
        _ => Ok(String::new(alloc)),
    }
}

/// Copies the texts that items are.
///
/// Errors: out of memory.
fn texts_given(alloc: Global, items: &[Json]) -> Result<Vec<String>, NoMemory>
    ensures { IfOk result (λ v. map string_bytes v.items ≡ map text_given (map view items.now)) }
{
    let mut texts = Vec::with_capacity(alloc, items.len())?;
    for item in items {
        texts.push(text_given(alloc, item)?)?;
    }
    Ok(texts)
}

/// Returns the range that options ask for.
///
/// Errors: out of memory.
fn range_of(alloc: Global, options: &Json) -> Result<Listing, NoMemory>
    ensures { IfOk result (λ l. listing_view l ≡ range_of (view options.now)) }
{
    let start = id_of(alloc, options.member("key"), start_in(options))?;
    let last = id_of(alloc, options.member("key"), end_in(options))?;
    Ok(Listing {
        start,
        last,
        with_last: flag_given(true, options.member("inclusive_end")),
        descending: flag_given(false, options.member("descending")),
        limit: count_given(2_147_483_647, options.member("limit")),
        skip: count_given(0, options.member("skip")),
        documents: flag_given(false, options.member("include_docs")),
        conflicts: flag_given(false, options.member("conflicts")),
    })
}

/// Returns the rows of these ids.
///
/// Errors: out of memory.
fn keys_asked(alloc: Global, items: &[Json], options: &Json) -> Result<Question, NoMemory>
    ensures { IfOk result (λ q. question_view q ≡ rows_asked (Some (list (items_view items.now))) (view options.now)) }
{
    let ids = texts_given(alloc, items)?;
    let documents = flag_given(false, options.member("include_docs"));
    Ok(Question::Keys { ids, documents })
}

/// Returns the rows of some ids, or of the range that options ask for.
///
/// Errors: out of memory.
fn rows_asked(alloc: Global, ids: Option<&Json>, options: &Json) -> Result<Question, NoMemory>
    ensures { IfOk result (λ q. question_view q
        ≡ rows_asked (option_map (λ v. view v.now) ids.entry) (view options.now)) }
{
    match ids {
        Some(Json::List(items)) => keys_asked(alloc, items, options),
        _ => Ok(Question::Range(range_of(alloc, options)?)),
    }
}

/// Returns the question, unless an option has the wrong shape.
fn unless_wrong(fault: Option<Fault>, question: Question) -> Plan
    ensures { plan_view result ≡ unless_wrong fault (question_view question) }
{
    match fault {
        None => Plan::Looks(question, Way::Plain),
        Some(fault) => Plan::Says(Said::Wrong(fault)),
    }
}

/// Returns what options ask for.
///
/// Errors: out of memory.
fn listed(alloc: Global, options: &Json) -> Result<Plan, NoMemory>
    ensures { IfOk result (λ p. plan_view p ≡ listed (view options.now)) }
{
    let question = rows_asked(alloc, options.member("keys"), options)?;
    Ok(unless_wrong(listing_fault(options), question))
}

/// Returns what the options of a query ask for.
///
/// Errors: out of memory.
pub(crate) fn list_by_query(
    alloc: Global,
    query: &[u8],
    buffer: &mut ReadBuffer,
) -> Result<Plan, NoMemory>
    ensures { IfOk result (λ p. plan_view p ≡ listed (with_options query.now (object no_members))) }
{
    let options = with_options(alloc, query, Json::empty_object(alloc), buffer)?;
    listed(alloc, &options)
}

/// Returns what the options of a query and those of a body, a value, ask for.
///
/// Errors: out of memory.
fn list_by_options(
    alloc: Global,
    query: &[u8],
    options: Json,
    buffer: &mut ReadBuffer,
) -> Result<Plan, NoMemory>
    ensures { IfOk result (λ p. plan_view p ≡ listed_with query.now (view options)) }
{
    if !is_object(Some(&options)) {
        return Ok(Plan::Says(Said::Wrong(Fault::Options)));
    }
    let options = with_options(alloc, query, options, buffer)?;
    listed(alloc, &options)
}

/// Returns what the options of a query and of a body ask for.
///
/// Errors: out of memory.
pub(crate) fn list_by_body(
    alloc: Global,
    query: &[u8],
    body: &[u8],
    buffer: &mut ReadBuffer,
) -> Result<Plan, NoMemory>
    ensures { IfOk result (λ p. plan_view p ≡ listed_by query.now body.now (json_of body.now)) }
{
    match read_tree(alloc, body, buffer)? {
        Some(options) => list_by_options(alloc, query, options, buffer),
        None => unread(alloc, body, buffer),
    }
}
