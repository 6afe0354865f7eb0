//! Prepared commands: the documents of a bulk are read before the command is executed, since this needs no state.
ghost use Rattle.std.specs.Prelude.{◌≡◌, IfOk};
ghost use Rattle.mg_engine.specs.Prepared.{Does};
ghost use Rattle.mg_engine.specs.View.{command_view};

use crate::bulk::PreparedBulk;
use crate::command::Command;
use mg_packed::Packed;
use mg_value::NoMemory;
use std::alloc::Global;
use std::marker::Model;
use std::snapshot::Snapshot;

/// A command to be executed. The documents of a bulk are already read into edits. Contracts see what the command asks.
#[derive(Drop)]
pub struct Prepared {
    /// The command as it was given. Only contracts see this field; it takes no memory.
    pub(crate) given: Snapshot<Command>,
    pub(crate) task: Task,
}

/// What is to be done for a command.
#[derive(Drop)]
pub(crate) enum Task {
    /// Applies the edits of a bulk, or refuses the bulk.
    Apply(PreparedBulk),
    /// Executes any other command.
    Execute(Command),
}

impl Model for Prepared {
    ghost use Rattle.mg_engine.specs.Commands.{Asked};
    ghost use Rattle.mg_engine.specs.Code.{asked_code};

    ghost Value = { Asked };

    ghost coded = { asked_code };

    ghost use Rattle.mg_engine.specs.Prepared.{Does};
    ghost use Rattle.mg_engine.specs.View.{command_view};

    ghost view = { λ p. command_view p.given.value };

    ghost invariant = { λ p. Does p.task (command_view p.given.value) };
}

impl Prepared {
    /// Prepares a command: the documents of a bulk are read into edits, for which its body is no longer needed. Other commands are copied.
    /// This needs no engine, and therefore no lock on one. If the body of a bulk has a fault, the prepared bulk is refused when it is
    /// executed.
    ///
    /// Errors: `NoMemory` if an allocation fails. Cost: that of `Edit::read_part` for each document of a bulk, which is packed first if its body
    /// is a `Json`; that of `Command::copy` for any other command.
    pub fn of(alloc: Global, command: &Command) -> Result<Prepared, NoMemory>
        ensures { IfOk result (λ p. p ≡ command_view command.now) }
    {
        let given = Snapshot::of(command);
        let task = Task::of(alloc, command)?;
        Ok(Prepared { given, task })
    }
}

impl Task {
    // Returns what is to be done for a command. Reads the documents of a bulk into edits.
    fn of(alloc: Global, command: &Command) -> Result<Task, NoMemory>
        ensures { IfOk result (λ t. Does t (command_view command.now)) }
    {
        match command {
            Command::Bulk(body) => {
                let body = Packed::of(alloc, body)?;
                Ok(Task::Apply(PreparedBulk::of(alloc, &body)?))
            }
            Command::PackedBulk(body) => Ok(Task::Apply(PreparedBulk::of(alloc, body)?)),
            other => Ok(Task::Execute(other.copy(alloc)?)),
        }
    }
}
