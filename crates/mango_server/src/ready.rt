//! Writes of rows that are ready to be executed.
ghost use Rattle.std.specs.Prelude.{◌≡◌, true, IfOk};
ghost use Rattle.mg_engine.specs.Commands.{is_write};
ghost use Rattle.mg_engine.specs.View.{command_view};
ghost use Rattle.mg_log.specs.Entry.{entry_of};
ghost use Rattle.mango_server.specs.Kept.{IsRowOf};

use crate::keeper::record_kind;
use mg_engine::{Command, Prepared};
use mg_log::{Commit, Stopped};
use std::alloc::Global;
use std::snapshot::Snapshot;

/// The write of a row, ready to be executed. Contracts see the command.
#[derive(Drop)]
pub(crate) struct Ready {
    pub(crate) command: Snapshot<Command>,
    pub(crate) prepared: Prepared,
    ghost write: { is_write (command_view command.value) ≡ true },
    ghost same: { prepared ≡ command_view command.value },
}

impl Ready {
    /// Reads the write of a row, and prepares it.
    ///
    /// Errors: `Stopped` if the row is not one of a write, or an allocation fails.
    pub(crate) fn of(alloc: Global, row: &Commit) -> Result<Ready, Stopped>
        ensures { IfOk result (λ r. IsRowOf (entry_of row.now) (command_view r.command.value)) }
    {
        let Ok(command) = record_kind(row.kind).command(alloc, row.body.as_str()) else {
            return Err(Stopped);
        };
        if !command.is_write() {
            return Err(Stopped);
        }
        let given = Snapshot::of(&command);
        match Prepared::of(alloc, &command) {
            Ok(prepared) => Ok(Ready {
                command: given,
                prepared,
            }),
            Err(_) => Err(Stopped),
        }
    }
}
