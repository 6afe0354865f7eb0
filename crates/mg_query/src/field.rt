//! The paths of `fields`, and the paths and directions of `sort`.
ghost use Rattle.std.specs.Prelude.{map, ok_or};
ghost use Rattle.mg_value.specs.View.{view};
ghost use Rattle.mg_index.specs.Reading.{each_of, field_direction};
ghost use Rattle.mg_query.specs.Query.{one_direction, path_of, sort_path};
ghost use Rattle.mg_query.specs.View.{ReadsAs};

use crate::error::QueryError;
use mg_collate::Direction;
use mg_index::{all_have_direction, field_direction, field_path};
use mg_path::Path;
use mg_value::Json;
use std::alloc::Global;

// Reads the paths that these values spell. Errors: `Shape` if a value is not a text, or its text has an empty step; `NoMemory`.
pub(crate) fn read_paths(alloc: Global, texts: &[Json]) -> Result<Vec<Path>, QueryError>
    ensures { ReadsAs (λ v. v.items) result
        (ok_or (each_of path_of (map view texts.now)) QueryError.Shape) }
{
    let mut paths = Vec::with_capacity(alloc, texts.len())?;
    for text in texts {
        let path = read_path(alloc, text)?;
        paths.push(path)?;
    }
    Ok(paths)
}

fn read_path(alloc: Global, text: &Json) -> Result<Path, QueryError>
    ensures { ReadsAs (λ path. path) result (ok_or (path_of (view text.now)) QueryError.Shape) }
{
    match text {
        Json::Text(text) => Ok(Path::parse(alloc, text.as_str())?),
        _ => Err(QueryError::Shape),
    }
}

// Reads the paths of a sort's fields. Errors: `Shape` if a field has no path, or its path has an empty step; `NoMemory`.
pub(crate) fn read_sort_paths(alloc: Global, fields: &[Json]) -> Result<Vec<Path>, QueryError>
    ensures { ReadsAs (λ v. v.items) result
        (ok_or (each_of sort_path (map view fields.now)) QueryError.Shape) }
{
    let mut paths = Vec::with_capacity(alloc, fields.len())?;
    for field in fields {
        let path = read_sort_path(alloc, field)?;
        paths.push(path)?;
    }
    Ok(paths)
}

fn read_sort_path(alloc: Global, field: &Json) -> Result<Path, QueryError>
    ensures { ReadsAs (λ path. path) result
        (ok_or (sort_path (view field.now)) QueryError.Shape) }
{
    match field_path(field) {
        Some(path) => Ok(Path::parse(alloc, path)?),
        None => Err(QueryError::Shape),
    }
}

// Reads the directions of a sort's fields. Errors: `Shape` if a field has no direction; `NoMemory`.
pub(crate) fn read_directions(alloc: Global, fields: &[Json]) -> Result<Vec<Direction>, QueryError>
    ensures { ReadsAs (λ v. v.items) result
        (ok_or (each_of field_direction (map view fields.now)) QueryError.Shape) }
{
    let mut directions = Vec::with_capacity(alloc, fields.len())?;
    for field in fields {
        let Some(direction) = field_direction(field) else {
            return Err(QueryError::Shape);
        };
        directions.push(direction)?;
    }
    Ok(directions)
}

// Returns the direction that all fields share; ascending without fields. Errors: `MixedSort` if the directions differ.
pub(crate) fn one_direction(directions: &[Direction]) -> Result<Direction, QueryError>
    ensures { ReadsAs (λ d. d) result (ok_or (one_direction directions.now) QueryError.MixedSort) }
{
    let Some((first, others)) = directions.split_first() else {
        return Ok(Direction::Asc);
    };
    if all_have_direction(*first, others) {
        Ok(*first)
    } else {
        Err(QueryError::MixedSort)
    }
}
