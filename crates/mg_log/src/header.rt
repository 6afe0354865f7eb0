ghost use Rattle.std.specs.Prelude.{◌≡◌, ◌≤◌, pos, codes, Some, string_bytes, IfOk, IfSome, IsTrue};
ghost use Rattle.mg_value.specs.Value.{member_of, depth, text, whole};
ghost use Rattle.mg_value.specs.View.{view};
ghost use Rattle.mg_log.specs.Header.{Heading, IsHeader, IsHeaderText, heading_of, mark, new_heading};

use crate::error::OpenError;
use mg_value::{Json, NoMemory, ReadError as JsonError, read, write};
use std::alloc::Global;

/// What a log says of itself, in its row 0: `{"commits":0,"counter":0,"database":"db","mark":"mango_server 1"}`.
#[derive(PartialEq, Eq, Debug, Drop)]
pub struct Header {
    /// The name of the database.
    pub database: String,
    /// The counter of ids before the first commit.
    pub counter: u64,
    /// With how many commits the log begins that stand for older ones; 0 for a log that has all its commits.
    pub commits: u64,
}

// Makes the value of a new log's header.
fn new_value(alloc: Global, database: &str) -> Result<Json, NoMemory>
    ensures says { IfOk result (λ v. IsHeader (new_heading database.now) (view v)) }
    ensures depth { IfOk result (λ v. depth (view v) ≤ 127) }
{
    let mark = String::from_str(alloc, "mango_server 1")?;
    let name = String::from_str(alloc, database)?;
    let mut value = Json::empty_object(alloc);
    value.insert(alloc, "commits", Json::Whole(0))?;
    value.insert(alloc, "counter", Json::Whole(0))?;
    value.insert(alloc, "database", Json::Text(name))?;
    value.insert(alloc, "mark", Json::Text(mark))?;
    Ok(value)
}

// Writes the header of a new log.
pub(crate) fn new_text(alloc: Global, database: &str) -> Result<String, NoMemory>
    ensures { IfOk result (λ s. IsHeaderText (new_heading database.now) (string_bytes s)) }
{
    let value = new_value(alloc, database)?;
    let bytes = write(alloc, &value)?;
    match String::from_utf8(bytes) {
        Ok(text) => Ok(text),
        Err(_) => Err(NoMemory),
    }
}

// Finds a member that is a whole number from 0.
fn number_in(value: &Json, name: &str) -> Option<u64>
    ensures { IfSome result (λ n. member_of name.now (view value.now) ≡ Some (whole (pos n))) }
{
    match value.member(name) {
        Some(Json::Whole(number)) if *number >= 0 => Some(*number as u64),
        _ => None,
    }
}

// Copies a member that is a text.
fn text_in(alloc: Global, value: &Json, name: &str) -> Result<Option<String>, NoMemory>
    ensures { IfOk result (λ found. IfSome found (λ s. member_of name.now (view value.now) ≡ Some (text (string_bytes s)))) }
{
    match value.member(name) {
        Some(Json::Text(text)) => Ok(Some(String::from_str(alloc, text)?)),
        _ => Ok(None),
    }
}

// Whether the value has the mark of a log.
fn has_mark(value: &Json) -> bool
    ensures { IsTrue result → member_of (codes "mark") (view value.now) ≡ Some (text mark) }
{
    match value.member("mark") {
        Some(Json::Text(found)) => found.as_str() == "mango_server 1",
        _ => false,
    }
}

// Reads the members of a header.
fn header_in(alloc: Global, value: &Json) -> Result<Header, OpenError>
    ensures { IfOk result (λ h. IsHeader (heading_of h) (view value.now)) }
{
    if !has_mark(value) {
        return Err(OpenError::OtherProgram);
    }
    let Some(counter) = number_in(value, "counter") else {
        return Err(OpenError::Damaged);
    };
    let Some(commits) = number_in(value, "commits") else {
        return Err(OpenError::Damaged);
    };
    let Some(database) = text_in(alloc, value, "database")? else {
        return Err(OpenError::Damaged);
    };
    Ok(Header {
        database,
        counter,
        commits,
    })
}

// Reads a header from its text.
pub(crate) fn read_header(alloc: Global, bytes: &[u8]) -> Result<Header, OpenError>
    ensures { IfOk result (λ h. IsHeaderText (heading_of h) bytes.now) }
{
    match read(alloc, bytes) {
        Ok(value) => header_in(alloc, &value),
        Err(JsonError::NoMemory) => Err(OpenError::NoMemory),
        Err(_) => Err(OpenError::OtherProgram),
    }
}
