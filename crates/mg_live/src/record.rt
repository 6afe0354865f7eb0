//! Writes as text that outlives the program.
ghost use Rattle.std.specs.Prelude.{◌≡◌, false, true, string_bytes, IfNone, IfOk, IfSome, IsUtf8, OnOk};
ghost use Rattle.mg_value.specs.Text.{compact};
ghost use Rattle.mg_value.specs.View.{view};
ghost use Rattle.mg_engine.specs.Commands.{Asked, is_write};
ghost use Rattle.mg_engine.specs.View.{command_view};
ghost use Rattle.mg_live.specs.Keeping.{IsRecordOf, IsTextOf, dropped_value};

use mg_engine::Command;
use mg_packed::Packed;
use mg_value::{Json, NoMemory, ReadBuffer, ReadError, read, write};
use std::alloc::Global;

/// The kind of the write that a record is of.
#[derive(Clone, Copy, PartialEq, Eq, Debug)]
pub enum RecordKind {
    Bulk,
    CreateIndex,
    DropIndex,
    Reshard,
}

/// A write as text.
#[derive(Debug, Drop)]
pub struct Record {
    pub kind: RecordKind,
    /// The body of its command as compact JSON text; of a dropped index `{"ddoc":..,"name":..}`.
    pub body: String,
}

// Returns bytes that are UTF-8 as text. Errors: they are not.
fn text_of(bytes: Vec<u8>) -> Result<String, NoMemory>
    ensures text { IfOk result (λ text. string_bytes text ≡ bytes.items) }
    ensures utf8 { OnOk result (IsUtf8 bytes.items) }
{
    match String::from_utf8(bytes) {
        Ok(text) => Ok(text),
        Err(_) => Err(NoMemory),
    }
}

// Returns the text of the body that names a dropped index.
fn dropped_text(alloc: Global, ddoc: &str, name: &str) -> Result<Vec<u8>, NoMemory>
    ensures { IfOk result (λ text. text.items ≡ compact (dropped_value ddoc.now name.now)) }
{
    let mut body = Json::empty_object(alloc);
    let ddoc = String::from_str(alloc, ddoc)?;
    let name = String::from_str(alloc, name)?;
    body.insert(alloc, "ddoc", Json::Text(ddoc))?;
    body.insert(alloc, "name", Json::Text(name))?;
    write(alloc, &body)
}

// Reads the design document and the name of a dropped index. Errors: the text is not JSON, or has no such members; out of memory.
fn dropped_names(alloc: Global, text: &str) -> Result<(String, String), ReadError> {
    let body = read(alloc, text.as_bytes())?;
    let (Some(Json::Text(ddoc)), Some(Json::Text(name))) = (
        body.member("ddoc"),
        body.member("name"),
    ) else {
        return Err(ReadError::NotJson);
    };
    let ddoc = String::from_str(alloc, ddoc.as_str())?;
    let name = String::from_str(alloc, name.as_str())?;
    Ok((ddoc, name))
}

// Whether the bytes are those of the text.
fn is_same(bytes: &[u8], text: &str) -> bool
    ensures { result ≡ true → bytes.now ≡ text.now }
{
    bytes == text.as_bytes()
}

// Reads the command that drops an index from the text that `dropped_text` gives. Errors: it is not such a text; out of memory.
fn read_dropped(alloc: Global, text: &str) -> Result<Command, ReadError>
    ensures { IfOk result (λ c. IsTextOf RecordKind.DropIndex text.now (command_view c)) }
{
    let (ddoc, name) = dropped_names(alloc, text)?;
    let Ok(again) = dropped_text(alloc, ddoc.as_str(), name.as_str()) else {
        return Err(ReadError::NoMemory);
    };
    if !is_same(again.as_slice(), text) {
        return Err(ReadError::NotJson);
    }
    Ok(Command::DropIndex { ddoc, name })
}

// Makes the record of a write from its text. Errors: the text is not UTF-8.
fn recorded(kind: RecordKind, text: Vec<u8>) -> Result<Record, NoMemory>
    ensures { (c : Asked) → (IsUtf8 text.items → IsTextOf kind text.items c) → IfOk result (λ r. IsRecordOf r c) }
{
    let body = text_of(text)?;
    Ok(Record { kind, body })
}

impl RecordKind {
    /// Returns the write of this kind that a text is of.
    ///
    /// Errors: the text is not JSON, or not that of such a write; out of memory. Cost: the size of the text.
    pub fn command(self, alloc: Global, text: &str) -> Result<Command, ReadError>
        ensures { IfOk result (λ c. IsTextOf self text.now (command_view c)) }
    {
        let bytes = text.as_bytes();
        match self {
            RecordKind::Bulk => {
                let mut buffer = ReadBuffer::new(alloc);
                Ok(Command::PackedBulk(Packed::read_in(alloc, bytes, &mut buffer)?))
            }
            RecordKind::CreateIndex => Ok(Command::CreateIndex(read(alloc, bytes)?)),
            RecordKind::DropIndex => read_dropped(alloc, text),
            RecordKind::Reshard => Ok(Command::Reshard(read(alloc, bytes)?)),
        }
    }
}

impl Record {
    /// Returns the record of a write; `None`: the command is a read.
    ///
    /// Errors: `NoMemory` if an allocation fails. Cost: the size of the body.
    pub fn of(alloc: Global, command: &Command) -> Result<Option<Record>, NoMemory>
        ensures write { IfOk result (λ o. IfSome o (λ r. IsRecordOf r (command_view command.now))) }
        ensures read { IfOk result (λ o. IfNone o (is_write (command_view command.now) ≡ false)) }
    {
        match command {
            Command::Bulk(body) => {
                let text = write(alloc, body)?;
                Ok(Some(recorded(RecordKind::Bulk, text)?))
            }
            Command::PackedBulk(body) => {
                let text = body.part().compact_text(alloc)?;
                Ok(Some(recorded(RecordKind::Bulk, text)?))
            }
            Command::CreateIndex(body) => {
                let text = write(alloc, body)?;
                Ok(Some(recorded(RecordKind::CreateIndex, text)?))
            }
            Command::DropIndex { ddoc, name } => {
                let text = dropped_text(alloc, ddoc.as_str(), name.as_str())?;
                Ok(Some(recorded(RecordKind::DropIndex, text)?))
            }
            Command::Reshard(body) => {
                let text = write(alloc, body)?;
                Ok(Some(recorded(RecordKind::Reshard, text)?))
            }
            _ => Ok(None),
        }
    }
}
