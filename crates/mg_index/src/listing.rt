// Lists indexes as JSON, and makes their names.
ghost use Rattle.std.specs.Prelude.{◌≡◌, IfOk, map, string_bytes};
ghost use Rattle.mg_value.specs.View.{view};
ghost use Rattle.mg_index.specs.Definition.{fields_value, fields_digest, field_value, design_document, design_prefix, listed_all_docs};

use md5::{Digest, Md5};
use mg_collate::Direction;
use mg_value::{Json, NoMemory, write};
use std::alloc::Global;

const DESIGN_PREFIX: &str = "_design/";

/// Makes the name of a design document: puts `_design/` before a text that does not begin with it.
///
/// Errors: `NoMemory` if an allocation fails. Cost: the length of the text.
pub fn design_document(alloc: Global, text: &str) -> Result<String, NoMemory>
    ensures { IfOk result (λ t. string_bytes t ≡ design_document text.now) }
{
    if text.starts_with(DESIGN_PREFIX) {
        Ok(String::from_str(alloc, text)?)
    } else {
        Ok(format!(in alloc; "_design/{text}")?)
    }
}

/// Makes the JSON in which the index of all documents is listed:
/// `{"ddoc":null,"def":{"fields":[{"_id":"asc"}]},"name":"_all_docs","type":"special"}`.
///
/// Errors: `NoMemory` if an allocation fails. Cost: constant. Source: `_index` of CouchDB's API reference.
pub fn all_docs_listed(alloc: Global) -> Result<Json, NoMemory>
    ensures { IfOk result (λ v. view v ≡ listed_all_docs) }
{
    let paths = vec![in alloc; String::from_str(alloc, "_id")?]?;
    let fields = fields_json(alloc, Direction::Asc, &paths)?;
    let mut listed = Json::empty_object(alloc);
    listed.insert(
        alloc,
        "type",
        Json::Text(String::from_str(alloc, "special")?),
    )?;
    listed.insert(
        alloc,
        "name",
        Json::Text(String::from_str(alloc, "_all_docs")?),
    )?;
    listed.insert(alloc, "def", fields)?;
    listed.insert(alloc, "ddoc", Json::Null)?;
    Ok(listed)
}

// Makes the JSON of an index's fields: `{"fields":[{path: direction},..]}`. Errors: `NoMemory` if an allocation
// fails.
pub(crate) fn fields_json(
    alloc: Global,
    direction: Direction,
    texts: &[String],
) -> Result<Json, NoMemory>
    ensures { IfOk result (λ v. view v ≡ fields_value direction (map string_bytes texts.now)) }
{
    let mut fields = Vec::with_capacity(alloc, texts.len())?;
    for text in texts {
        let field = field_json(alloc, direction, text.as_str())?;
        fields.push(field)?;
    }
    let mut object = Json::empty_object(alloc);
    object.insert(alloc, "fields", Json::List(fields))?;
    Ok(object)
}

fn field_json(alloc: Global, direction: Direction, text: &str) -> Result<Json, NoMemory>
    ensures { IfOk result (λ v. view v ≡ field_value direction text.now) }
{
    let name = String::from_str(alloc, direction.name())?;
    let mut field = Json::empty_object(alloc);
    field.insert(alloc, text, Json::Text(name))?;
    Ok(field)
}

// Computes the MD5 of the compact text of the fields' JSON, in lower-case hexadecimal. Errors: `NoMemory` if an
// allocation fails.
pub(crate) fn fields_digest(
    alloc: Global,
    direction: Direction,
    texts: &[String],
) -> Result<String, NoMemory>
    ensures { IfOk result
        (λ t. string_bytes t ≡ fields_digest direction (map string_bytes texts.now)) }
{
    let fields = fields_json(alloc, direction, texts)?;
    let text = write(alloc, &fields)?;
    let mut hasher = Md5::new();
    hasher.update(&text);
    Ok(hex::encode(alloc, hasher.finalize())?)
}
