ghost use Rattle.std.specs.Prelude.{◌≡◌, IfOk};
ghost use Rattle.mg_engine.specs.Commands.{is_write};
ghost use Rattle.mg_engine.specs.View.{command_view};

use mg_packed::Packed;
use mg_value::{Json, NoMemory};
use std::alloc::Global;

/// One command to the engine. Each `Json` or `Packed` is the body of a request.
#[derive(Debug, Drop)]
pub enum Command {
    /// Applies a bulk of edits: `{"docs":[..],"new_edits":..}`.
    Bulk(Json),
    /// Does what `Bulk` does. The body is in one block, as a session reads it.
    PackedBulk(Packed),
    /// Creates an index: `{"index":{"fields":[..]},"ddoc":..,"name":..}`, where `ddoc` and `name` may be absent. It replaces an index of
    /// the same design document and name. `mg_index::IndexDef::read` lists all members.
    CreateIndex(Json),
    /// Drops the index with this design document and name. `ddoc` may lack `_design/`.
    DropIndex { ddoc: String, name: String },
    /// Lists the indexes.
    ListIndexes,
    /// Answers a query: `{"selector":{..},"fields":[..],"sort":[..],"limit":..,"skip":..,"bookmark":..,"use_index":..,"conflicts":..}`,
    /// where only `selector` is required. `mg_query::Query::read` says which values are allowed.
    Find(Json),
    /// Explains a query: which index serves it, and which range of the index it reads. The body is that of `Find`.
    Explain(Json),
    /// Gets the document with this id, and its conflicts if `conflicts` is true.
    Get { id: String, conflicts: bool },
    /// Changes the number of shards to a number from 1 to 64: `{"shards":..}`.
    Reshard(Json),
}

impl Command {
    /// Whether the command is a write, that is, may change documents, indexes or the number of shards. Takes no memory.
    pub fn is_write(&self) -> bool
        ensures { result ≡ is_write (command_view self.now) }
    {
        match self {
            Command::Bulk(_) => true,
            Command::PackedBulk(_) => true,
            Command::CreateIndex(_) => true,
            Command::DropIndex { ddoc: _, name: _ } => true,
            Command::ListIndexes => false,
            Command::Find(_) => false,
            Command::Explain(_) => false,
            Command::Get {
                id: _,
                conflicts: _,
            } => false,
            Command::Reshard(_) => true,
        }
    }

    /// Copies the command. Errors: `NoMemory` if an allocation fails. Cost: the size of what the command carries.
    pub fn copy(&self, alloc: Global) -> Result<Command, NoMemory>
        ensures { IfOk result (λ c. command_view c ≡ command_view self.now) }
    {
        match self {
            Command::Bulk(body) => Ok(Command::Bulk(body.copy(alloc)?)),
            Command::PackedBulk(body) => Ok(Command::PackedBulk(body.copy(alloc)?)),
            Command::CreateIndex(body) => Ok(Command::CreateIndex(body.copy(alloc)?)),
            Command::DropIndex { ddoc, name } => {
                let ddoc = String::from_str(alloc, ddoc)?;
                let name = String::from_str(alloc, name)?;
                Ok(Command::DropIndex { ddoc, name })
            }
            Command::ListIndexes => Ok(Command::ListIndexes),
            Command::Find(body) => Ok(Command::Find(body.copy(alloc)?)),
            Command::Explain(body) => Ok(Command::Explain(body.copy(alloc)?)),
            Command::Get { id, conflicts } => {
                let id = String::from_str(alloc, id)?;
                Ok(Command::Get {
                    id,
                    conflicts: *conflicts,
                })
            }
            Command::Reshard(body) => Ok(Command::Reshard(body.copy(alloc)?)),
        }
    }
}
