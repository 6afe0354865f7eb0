//! The JSON text of a bookmark's array, part by part. Each function appends its part to the buffer, and
//! returns the buffer.
ghost use Rattle.std.specs.Prelude.{◌≡◌, ◌++◌, None, IfOk, option_map};
ghost use Rattle.json.specs.Print.{quoted};
ghost use Rattle.mg_value.specs.Text.{compact};
ghost use Rattle.mg_value.specs.Value.{list, item, text, no_items};
ghost use Rattle.mg_value.specs.View.{items_view};
ghost use Rattle.mg_bookmark.specs.Bookmark.{ddoc_value};
ghost use Rattle.mg_bookmark.specs.View.{key_at};
ghost use Rattle.mg_collate.specs.Direction.{direction_name};

use crate::parts::RowKey;
use json::Writer;
use mg_collate::Direction;
use mg_value::{Json, NoMemory, write};
use std::alloc::Global;

pub(crate) fn with_text(out: Vec<u8>, text: &str) -> Result<Vec<u8>, NoMemory>
    ensures { IfOk result (λ b. b.items ≡ out.items ++ quoted text.now) }
{
    let mut writer = Writer::new(out);
    writer.string(text)?;
    Ok(writer.into_inner())
}

pub(crate) fn with_ddoc(out: Vec<u8>, ddoc: Option<&str>) -> Result<Vec<u8>, NoMemory>
    ensures { IfOk result
        (λ b. b.items ≡ out.items ++ compact (ddoc_value (option_map (λ s. s.now) ddoc.entry))) }
{
    match ddoc {
        Some(ddoc) => with_text(out, ddoc),
        None => with_null(out),
    }
}

fn with_null(mut out: Vec<u8>) -> Result<Vec<u8>, NoMemory>
    ensures { IfOk result (λ b. b.items ≡ out.items ++ compact (ddoc_value None)) }
{
    out.extend_from_slice(b"null")?;
    Ok(out)
}

pub(crate) fn with_direction(out: Vec<u8>, direction: Direction) -> Result<Vec<u8>, NoMemory>
    ensures { IfOk result (λ b. b.items ≡ out.items ++ quoted (direction_name direction)) }
{
    with_text(out, direction.name())
}

// Appends the key of the row; for `RowKey::Id` the key is an array of the document's id alone.
pub(crate) fn with_key(
    alloc: Global,
    out: Vec<u8>,
    key: RowKey<'_>,
    id: &str,
) -> Result<Vec<u8>, NoMemory>
    ensures { IfOk result (λ b. b.items ≡ out.items ++ compact (list (key_at key.entry id.now))) }
{
    match key {
        RowKey::Columns(columns) => with_columns(alloc, out, columns),
        RowKey::Id => with_id(out, id),
    }
}

fn with_id(mut out: Vec<u8>, id: &str) -> Result<Vec<u8>, NoMemory>
    ensures { IfOk result
        (λ b. b.items ≡ out.items ++ compact (list (item (text id.now) no_items))) }
{
    out.push(b'[')?;
    let mut out = with_text(out, id)?;
    out.push(b']')?;
    Ok(out)
}

fn with_columns(alloc: Global, mut out: Vec<u8>, columns: &[Json]) -> Result<Vec<u8>, NoMemory>
    ensures { IfOk result (λ b. b.items ≡ out.items ++ compact (list (items_view columns.now))) }
{
    out.push(b'[')?;
    for (place, column) in columns.iter().enumerate() {
        if place > 0 {
            out.push(b',')?;
        }
        out.extend_from_slice(&write(alloc, column)?)?;
    }
    out.push(b']')?;
    Ok(out)
}
