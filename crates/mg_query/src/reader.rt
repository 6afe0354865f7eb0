//! Reads the query in a body.
ghost use Rattle.std.specs.Prelude.{◌≡◌, option_map, unwrap_or, ok_or};
ghost use Rattle.mg_value.specs.View.{view};
ghost use Rattle.mg_bookmark.specs.Reading.{bookmark_read};
ghost use Rattle.mg_bookmark.specs.View.{bookmark_place};
ghost use Rattle.mg_query.specs.Given.{given_view, query_given};
ghost use Rattle.mg_query.specs.Query.{early_fault, query_of};
ghost use Rattle.mg_query.specs.View.{ReadsAs, optional_view, query_view};

use crate::error::QueryError;
use crate::fault::fault_of;
use crate::field::{one_direction, read_directions, read_paths, read_sort_paths};
use crate::member::{Members, members_in};
use crate::query::Query;
use mg_bookmark::{Bookmark, BookmarkError};
use mg_index::Sort;
use mg_normal::Normal;
use mg_selector::Sel;
use mg_value::Json;
use std::alloc::Global;

// The fault of a body that is found without taking memory; if there is none, the fault that was met.
pub(crate) fn first_fault(body: &Json, met: QueryError) -> QueryError
    ensures { result ≡ unwrap_or (early_fault (view body.now)) met }
{
    fault_of(body).unwrap_or(met)
}

// Reads the query in a body. Errors: those of `Query::read`, but if an allocation fails, `NoMemory` may be returned although the body has a
// fault.
pub(crate) fn query_in(alloc: Global, body: &Json) -> Result<Query<'_>, QueryError>
    ensures { ReadsAs query_view result (query_of (view body.now)) }
{
    match members_in(body) {
        Some(members) => query_with(alloc, members, body.member("fields")),
        None => Err(QueryError::Shape),
    }
}

// Makes the query of these members; `given_fields` are the fields as they were given. Errors: those of `query_in`.
fn query_with<'a>(
    alloc: Global,
    members: Members<'a>,
    given_fields: Option<&'a Json>,
) -> Result<Query<'a>, QueryError>
    ensures { ReadsAs query_view result (query_given (optional_view given_fields.entry) (given_view members.entry)) }
{
    let fields = read_paths(alloc, members.fields)?;
    let paths = read_sort_paths(alloc, members.sort)?;
    let directions = read_directions(alloc, members.sort)?;
    let selector = Sel::read(alloc, members.selector)?;
    let bookmark = read_bookmark(alloc, members.bookmark)?;
    let direction = one_direction(&directions)?;
    let hint = members.hint.to_hint(alloc)?;
    let normal = Normal::of(alloc, &selector)?;
    Ok(Query {
        selector,
        normal,
        fields,
        limit: members.limit,
        skip: members.skip,
        sort: Sort { paths, direction },
        hint,
        bookmark,
        conflicts: members.conflicts,
        given_selector: members.selector,
        given_fields,
        given_bookmark: members.bookmark,
    })
}

// Reads the place that a bookmark's text names; `None` for `nil`. Errors: `BadBookmark` if the text is not a bookmark; `NoMemory`.
fn read_bookmark(alloc: Global, text: &str) -> Result<Option<Bookmark>, QueryError>
    ensures { ReadsAs (option_map bookmark_place) result
        (ok_or (bookmark_read text.now) QueryError.BadBookmark) }
{
    match Bookmark::decode(alloc, text) {
        Ok(found) => Ok(found),
        Err(BookmarkError::Invalid) => Err(QueryError::BadBookmark),
        Err(BookmarkError::NoMemory) => Err(QueryError::NoMemory),
    }
}
