// The columns of an index, as `fields` of CouchDB's `_index` gives them.
ghost use Rattle.std.specs.Prelude.{◌≡◌, Some, map, string_bytes, ok_or};
ghost use Rattle.mg_value.specs.View.{view, items_view};
ghost use Rattle.mg_value.specs.Value.{list};
ghost use Rattle.mg_path.specs.Part.{steps_of};
ghost use Rattle.mg_index.specs.Reading.{ReadsAs, each_of, field_path, field_direction, one_direction, columns_of, columns_read};
ghost use Rattle.mg_index.specs.View.{columns_view};

use crate::error::IndexError;
use crate::field::{all_have_direction, field_direction, field_path};
use mg_collate::Direction;
use mg_path::Path;
use mg_value::Json;
use std::alloc::Global;

// The columns of an index: the texts of their paths, the paths, and their direction.
#[derive(Debug, Drop)]
pub(crate) struct Columns {
    pub(crate) texts: Vec<String>,
    pub(crate) paths: Vec<Path>,
    pub(crate) direction: Direction,
}

// Reads the columns of the array `fields`.
//
// Errors: `Shape` for an empty array, or for an item that is not a column or whose path has an empty step; otherwise
// `Mixed` for columns in both directions. `NoMemory` if an allocation fails, even if the array has a fault.
pub(crate) fn read_columns(alloc: Global, fields: &[Json]) -> Result<Columns, IndexError>
    ensures { ReadsAs columns_view result (columns_read (Some (list (items_view fields.now)))) }
{
    columns_in(alloc, fields)
}

fn columns_in(alloc: Global, fields: &[Json]) -> Result<Columns, IndexError>
    ensures { ReadsAs columns_view result (columns_of (map view fields.now)) }
{
    let texts = read_texts(alloc, fields)?;
    let paths = read_paths(alloc, &texts)?;
    let directions = read_directions(alloc, fields)?;
    let direction = one_direction(&directions)?;
    Ok(Columns {
        texts,
        paths,
        direction,
    })
}

fn read_texts(alloc: Global, fields: &[Json]) -> Result<Vec<String>, IndexError>
    ensures { ReadsAs (λ v. map string_bytes v.items) result
        (ok_or (each_of field_path (map view fields.now)) IndexError.Shape) }
{
    let mut texts = Vec::with_capacity(alloc, fields.len())?;
    for field in fields {
        let Some(text) = field_path(field) else {
            return Err(IndexError::Shape);
        };
        texts.push(String::from_str(alloc, text)?)?;
    }
    Ok(texts)
}

fn read_paths(alloc: Global, texts: &[String]) -> Result<Vec<Path>, IndexError>
    ensures { ReadsAs (λ v. v.items) result
        (ok_or (each_of steps_of (map string_bytes texts.now)) IndexError.Shape) }
{
    let mut paths = Vec::with_capacity(alloc, texts.len())?;
    for text in texts {
        let path = Path::parse(alloc, text.as_str())?;
        paths.push(path)?;
    }
    Ok(paths)
}

fn read_directions(alloc: Global, fields: &[Json]) -> Result<Vec<Direction>, IndexError>
    ensures { ReadsAs (λ v. v.items) result
        (ok_or (each_of field_direction (map view fields.now)) IndexError.Shape) }
{
    let mut directions = Vec::with_capacity(alloc, fields.len())?;
    for field in fields {
        let Some(direction) = field_direction(field) else {
            return Err(IndexError::Shape);
        };
        directions.push(direction)?;
    }
    Ok(directions)
}

// Finds the direction that all columns have. Errors: `Shape` without columns, `Mixed` if the directions differ.
fn one_direction(directions: &[Direction]) -> Result<Direction, IndexError>
    ensures { ReadsAs (λ d. d) result (one_direction directions.now) }
{
    let Some((first, others)) = directions.split_first() else {
        return Err(IndexError::Shape);
    };
    if all_have_direction(*first, others) {
        Ok(*first)
    } else {
        Err(IndexError::Mixed)
    }
}
