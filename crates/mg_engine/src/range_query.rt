//! The query that finds the documents of a range of ids.
ghost use Rattle.std.specs.Prelude.{◌≡◌, IfOk, option_map, string_bytes};
ghost use Rattle.mg_value.specs.Value.{text, with_member};
ghost use Rattle.mg_value.specs.View.{view};
ghost use Rattle.mg_engine.specs.Listing.{direction_of, from_id, ids_in, range_query, selector_of, sort_by, up_to_id};
ghost use Rattle.mg_engine.specs.QuestionView.{listing_view};

use crate::listing::Listing;
use mg_collate::Direction;
use mg_value::{Json, NoMemory};
use std::alloc::Global;

/// Makes the query that finds the documents of a range. Errors: `NoMemory` if an allocation fails.
pub(crate) fn range_json(alloc: Global, listing: &Listing) -> Result<Json, NoMemory>
    ensures { IfOk result (λ v. view v ≡ range_query (listing_view listing.now)) }
{
    let conflicts = listing.documents && listing.conflicts;
    let mut query = Json::empty_object(alloc);
    query.insert(alloc, "conflicts", Json::Flag(conflicts))?;
    query.insert(alloc, "limit", Json::Whole(i64::from(listing.limit)))?;
    query.insert(alloc, "selector", selector_json(alloc, listing)?)?;
    query.insert(alloc, "skip", Json::Whole(i64::from(listing.skip)))?;
    query.insert(alloc, "sort", sort_json(alloc, listing.direction())?)?;
    Ok(query)
}

// Makes the sort by ids. Errors: `NoMemory` if an allocation fails.
fn sort_json(alloc: Global, direction: Direction) -> Result<Json, NoMemory>
    ensures { IfOk result (λ v. view v ≡ sort_by direction) }
{
    let mut sorted = Json::empty_object(alloc);
    sorted.insert(alloc, "_id", text_json(alloc, direction.name())?)?;
    let mut sort = Vec::new(alloc);
    sort.push(sorted)?;
    Ok(Json::List(sort))
}

// Makes the selector of a range. Errors: `NoMemory` if an allocation fails.
fn selector_json(alloc: Global, listing: &Listing) -> Result<Json, NoMemory>
    ensures { IfOk result (λ v. view v ≡ selector_of (listing_view listing.now)) }
{
    let ids = ids_json(alloc, listing)?;
    let mut selector = Json::empty_object(alloc);
    selector.insert(alloc, "_id", ids)?;
    Ok(selector)
}

// Makes the condition that the ids of a range meet. Errors: `NoMemory` if an allocation fails.
fn ids_json(alloc: Global, listing: &Listing) -> Result<Json, NoMemory>
    ensures { IfOk result (λ v. view v ≡ ids_in (direction_of (listing_view listing.now)) (listing_view listing.now)) }
{
    match listing.direction() {
        Direction::Asc => {
            let ids = up_to_id(alloc, &listing.last, listing.with_last)?;
            from_id(alloc, &listing.start, true, ids)
        }
        Direction::Desc => {
            let ids = up_to_id(alloc, &listing.start, true)?;
            from_id(alloc, &listing.last, listing.with_last, ids)
        }
    }
}

// Makes the condition that an id comes up to this one. Errors: `NoMemory` if an allocation fails.
fn up_to_id(alloc: Global, high: &Option<String>, with_it: bool) -> Result<Json, NoMemory>
    ensures { IfOk result (λ v. view v ≡ up_to_id (option_map string_bytes high.now) with_it) }
{
    let ids = Json::empty_object(alloc);
    match high {
        None => Ok(ids),
        Some(high) => {
            if with_it {
                with_text(alloc, ids, "$lte", high)
            } else {
                with_text(alloc, ids, "$lt", high)
            }
        }
    }
}

// Adds the condition that an id begins with this one. Errors: `NoMemory` if an allocation fails.
fn from_id(
    alloc: Global,
    low: &Option<String>,
    with_it: bool,
    condition: Json,
) -> Result<Json, NoMemory>
    ensures { IfOk result (λ v. view v ≡ from_id (option_map string_bytes low.now) with_it (view condition)) }
{
    match low {
        None => with_text(alloc, condition, "$gte", ""),
        Some(low) => {
            if with_it {
                with_text(alloc, condition, "$gte", low)
            } else {
                with_text(alloc, condition, "$gt", low)
            }
        }
    }
}

// Puts a text into an object. Errors: `NoMemory` if an allocation fails.
fn with_text(alloc: Global, value: Json, name: &str, given: &str) -> Result<Json, NoMemory>
    ensures { IfOk result (λ v. view v ≡ with_member name.now (text given.now) (view value)) }
{
    let mut value = value;
    value.insert(alloc, name, text_json(alloc, given)?)?;
    Ok(value)
}

fn text_json(alloc: Global, given: &str) -> Result<Json, NoMemory>
    ensures { IfOk result (λ v. view v ≡ text given.now) }
{
    Ok(Json::Text(String::from_str(alloc, given)?))
}
