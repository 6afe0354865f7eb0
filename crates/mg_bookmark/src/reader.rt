//! Reads a bookmark's parts from its JSON array.
ghost use Rattle.std.specs.Prelude.{◌≡◌, ℕ, List, Option, Err, IfOk, option_map, string_bytes};
ghost use Rattle.mg_value.specs.Value.{list, text, Items};
ghost use Rattle.mg_value.specs.View.{view, items_view};
ghost use Rattle.mg_bookmark.specs.Bookmark.{RowPlace, place_value, ddoc_value};
ghost use Rattle.mg_bookmark.specs.Decoding.{five};
ghost use Rattle.mg_bookmark.specs.View.{bookmark_place};
ghost use Rattle.mg_collate.specs.Direction.{direction_name};
ghost use Rattle.mg_collate.specs.declared.direction.Direction.{Direction as DirectionValue};

use crate::bookmark::Bookmark;
use crate::error::BookmarkError;
use mg_collate::Direction;
use mg_value::{Json, copy_items};
use std::alloc::Global;

// Reads the bookmark whose array is this value; `Invalid` if the value is not such an array.
pub(crate) fn bookmark_in(alloc: Global, value: &Json) -> Result<Bookmark, BookmarkError>
    ensures ok { IfOk result (λ b. view value.now ≡ place_value (bookmark_place b)) }
    ensures invalid { result ≡ Err BookmarkError.Invalid
        → (p : RowPlace) → ¬ (view value.now ≡ place_value p) }
{
    match value {
        Json::List(items) => bookmark_of(alloc, items),
        _ => Err(BookmarkError::Invalid),
    }
}

fn bookmark_of(alloc: Global, items: &[Json]) -> Result<Bookmark, BookmarkError>
    ensures ok { IfOk result (λ b. list (items_view items.now) ≡ place_value (bookmark_place b)) }
    ensures invalid { result ≡ Err BookmarkError.Invalid
        → (p : RowPlace) → ¬ (list (items_view items.now) ≡ place_value p) }
{
    if items.len() != 5 {
        return Err(BookmarkError::Invalid);
    }
    bookmark_with(alloc, &items[0], &items[1], &items[2], &items[3], &items[4])
}

fn bookmark_with(
    alloc: Global,
    ddoc: &Json,
    name: &Json,
    direction: &Json,
    key: &Json,
    id: &Json,
) -> Result<Bookmark, BookmarkError>
    ensures ok { IfOk result (λ b. five (view ddoc.now) (view name.now) (view direction.now)
        (view key.now) (view id.now) ≡ place_value (bookmark_place b)) }
    ensures invalid { result ≡ Err BookmarkError.Invalid → (p : RowPlace)
        → ¬ (five (view ddoc.now) (view name.now) (view direction.now) (view key.now) (view id.now)
        ≡ place_value p) }
{
    let ddoc = ddoc_in(ddoc)?;
    let name = text_in(name)?;
    let direction = direction_in(direction)?;
    let key = key_in(alloc, key)?;
    let id = text_in(id)?;
    Ok(Bookmark {
        ddoc,
        name,
        direction,
        key,
        id,
    })
}

fn ddoc_in(value: &Json) -> Result<Option<String>, BookmarkError>
    ensures ok { IfOk result (λ ddoc. view value.now ≡ ddoc_value (option_map string_bytes ddoc)) }
    ensures invalid { result ≡ Err BookmarkError.Invalid
        → (ddoc : Option (List ℕ)) → ¬ (view value.now ≡ ddoc_value ddoc) }
{
    match value {
        Json::Null => Ok(None),
        Json::Text(ddoc) => Ok(Some(ddoc.clone()?)),
        _ => Err(BookmarkError::Invalid),
    }
}

fn text_in(value: &Json) -> Result<String, BookmarkError>
    ensures ok { IfOk result (λ t. view value.now ≡ text (string_bytes t)) }
    ensures invalid { result ≡ Err BookmarkError.Invalid
        → (t : List ℕ) → ¬ (view value.now ≡ text t) }
{
    match value {
        Json::Text(text) => Ok(text.clone()?),
        _ => Err(BookmarkError::Invalid),
    }
}

fn direction_in(value: &Json) -> Result<Direction, BookmarkError>
    ensures ok { IfOk result (λ direction. view value.now ≡ text (direction_name direction)) }
    ensures invalid { result ≡ Err BookmarkError.Invalid
        → (direction : DirectionValue) → ¬ (view value.now ≡ text (direction_name direction)) }
{
    match value {
        Json::Text(word) => direction_named(word.as_str()),
        _ => Err(BookmarkError::Invalid),
    }
}

fn direction_named(word: &str) -> Result<Direction, BookmarkError>
    ensures ok { IfOk result (λ direction. word.now ≡ direction_name direction) }
    ensures invalid { result ≡ Err BookmarkError.Invalid
        → (direction : DirectionValue) → ¬ (word.now ≡ direction_name direction) }
{
    match Direction::named(word) {
        Some(direction) => Ok(direction),
        None => Err(BookmarkError::Invalid),
    }
}

fn key_in(alloc: Global, value: &Json) -> Result<Vec<Json>, BookmarkError>
    ensures ok { IfOk result (λ key. view value.now ≡ list (items_view key.items)) }
    ensures invalid { result ≡ Err BookmarkError.Invalid
        → (key : Items) → ¬ (view value.now ≡ list key) }
{
    match value {
        Json::List(items) => Ok(copy_items(alloc, items)?),
        _ => Err(BookmarkError::Invalid),
    }
}
