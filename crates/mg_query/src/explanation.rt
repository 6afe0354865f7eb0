ghost use Rattle.std.specs.Prelude.{◌≡◌, ◌<◌, Err, None, Some, IfOk, length};
ghost use Rattle.mg_value.specs.Value.{list};
ghost use Rattle.mg_value.specs.View.{view, items_view};
ghost use Rattle.mg_query.specs.Explain.{explanation_of, explanation_with};
ghost use Rattle.mg_query.specs.Page.{Unanswered, served_by};
ghost use Rattle.mg_query.specs.Query.{rendered_fields_of};
ghost use Rattle.mg_query.specs.View.{optional_view, query_view};
ghost use Rattle.mg_query.specs.Served.{PageAnswers, error_of};

use crate::error::PageError;
use crate::query::Query;
use crate::source::served_by;
use mg_index::Catalog;
use mg_value::{Json, NoMemory, copy_items};
use std::alloc::Global;

/// Explains how a query would be answered in a database of this name, over the indexes of the catalog: returns
/// `{"dbname":..,"fields":..,"index":..,"limit":..,"range":..,"selector":..,"skip":..}`, with `fields` and `selector` as they were given
/// (`"all_fields"` if the fields are absent or empty), the index as it is listed, and the range of keys that the query has to read in it.
///
/// Errors: `NoUsableIndex` if no index serves the query, then `BadBookmark` if its bookmark is of another index, direction or number of
/// columns; otherwise `NoMemory` if an allocation fails. Cost: the size of the query; for each definition, the number of its columns times
/// the number of the query's atoms and sort paths. Source: `_explain` of CouchDB's API reference.
pub fn explain(
    alloc: Global,
    db: &str,
    query: &Query<'_>,
    catalog: &Catalog,
) -> Result<Json, PageError>
    ensures answers { PageAnswers view result (explanation_of db.now catalog.now (query_view query.now)) }
    ensures refused { (why : Unanswered) → served_by catalog.now (query_view query.now) ≡ Err why
        → result ≡ Err (error_of why) }
{
    let source = served_by(query, catalog)?;
    let (range, _) = source.range(alloc, &query.normal)?;
    let range = range.to_json(alloc)?;
    let index = source.listed(alloc)?;
    Ok(render_explanation(alloc, db, query, index, range)?)
}

// Makes the explanation from an index and a range as they are shown. Errors: `NoMemory` if an allocation fails.
fn render_explanation(
    alloc: Global,
    db: &str,
    query: &Query<'_>,
    index: Json,
    range: Json,
) -> Result<Json, NoMemory>
    ensures { IfOk result
        (λ v. view v ≡ explanation_with db.now (query_view query.now) (view index) (view range)) }
{
    let fields = render_fields(alloc, query.given_fields)?;
    let db = Json::Text(String::from_str(alloc, db)?);
    let selector = query.given_selector.copy(alloc)?;
    let mut explanation = Json::empty_object(alloc);
    explanation.insert(alloc, "skip", Json::Whole(i64::from(query.skip)))?;
    explanation.insert(alloc, "selector", selector)?;
    explanation.insert(alloc, "range", range)?;
    explanation.insert(alloc, "limit", Json::Whole(i64::from(query.limit)))?;
    explanation.insert(alloc, "index", index)?;
    explanation.insert(alloc, "fields", fields)?;
    explanation.insert(alloc, "dbname", db)?;
    Ok(explanation)
}

// Copies the fields as they were given; makes `"all_fields"` if they are absent or empty. Errors: `NoMemory` if an allocation fails.
fn render_fields(alloc: Global, fields: Option<&Json>) -> Result<Json, NoMemory>
    ensures { IfOk result (λ v. view v ≡ rendered_fields_of (optional_view fields.entry)) }
{
    match fields {
        Some(fields) => render_given(alloc, fields),
        None => all_fields(alloc),
    }
}

fn render_given(alloc: Global, fields: &Json) -> Result<Json, NoMemory>
    ensures { IfOk result (λ v. view v ≡ rendered_fields_of (Some (view fields.now))) }
{
    match fields {
        Json::List(paths) => render_list(alloc, paths),
        _ => fields.copy(alloc),
    }
}

fn render_list(alloc: Global, paths: &[Json]) -> Result<Json, NoMemory>
    ensures { IfOk result (λ v. view v ≡ rendered_fields_of (Some (list (items_view paths.now)))) }
{
    if paths.is_empty() {
        all_fields(alloc)
    } else {
        copy_list(alloc, paths)
    }
}

fn copy_list(alloc: Global, paths: &[Json]) -> Result<Json, NoMemory>
    requires { 0 < length paths.now }
    ensures { IfOk result (λ v. view v ≡ rendered_fields_of (Some (list (items_view paths.now)))) }
{
    let copy = copy_items(alloc, paths)?;
    Ok(array_of(copy))
}

fn array_of(items: Vec<Json>) -> Json
    ensures { view result ≡ list (items_view items.items) }
{
    Json::List(items)
}

fn all_fields(alloc: Global) -> Result<Json, NoMemory>
    ensures { IfOk result (λ v. view v ≡ rendered_fields_of None) }
{
    Ok(Json::Text(String::from_str(alloc, "all_fields")?))
}
