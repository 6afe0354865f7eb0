//! Which database a seat belongs to, for contracts; what keeps its commits, and ends it.
use crate::publication::SnapshotWriter;
use crate::record::Record;
use crate::snapshot::Snapshot;
use left_right::Absorb;
use mg_engine::Command;
use mg_shard::Placement;
use mg_value::NoMemory;
use std::alloc::Global;
use std::marker::Brand;
use std::sync::Wait;
use std::sync::ledger::Ledger;

/// A database as contracts name it: its name, the number of shards that it is opened with, its commit log, and the ledger of its
/// tallies. The outermost function that is generic over it is called with `Brand`, and the proof of that call picks the database. That
/// function must have no `&str` as a parameter or result; the functions that it calls may have one.
pub trait Database: Ledger {
    ghost use Rattle.logbook.specs.Pages.{Book};
    ghost use Rattle.std.specs.Prelude.{ℕ, List};

    // its commit log
    ghost commit_log: { Book };

    // its name
    ghost db: { List ℕ };

    // the number of shards that it is opened with
    ghost shards: { ℕ };
}

impl Database for Brand {
    ghost use Rattle.std.specs.Prelude.{[]};

    ghost commit_log = { record { number = 0; log_name = 0; cells_name = 0 } };

    ghost db = { [] };

    ghost shards = { 0 };
}

/// Keeps the commits of a database where they outlive the program, or nowhere. Ends its writer, once the `Live` and all seats are dropped or
/// the database is closed; also if `Live::open` fails after it has made the writer.
pub trait Keeper: Drop {
    ghost use Rattle.std.specs.Prelude.{[], ◌∷◌, ◌++◌, List, IfOk, IfSome, OnErr, OnOk};
    ghost use Rattle.mg_engine.specs.Commands.{Asked};
    ghost use Rattle.mg_engine.specs.View.{command_view};
    ghost use Rattle.mg_live.specs.Keeping.{IsRecordOf};

    // it keeps these writes, in this order
    ghost keeps: { Self → List Asked → Type 0 };

    /// Returns the record of a write for `keep`; `None`: this keeper needs none.
    ///
    /// Errors: `NoMemory` if an allocation fails.
    fn record(alloc: Global, command: &Command) -> Result<Option<Record>, NoMemory>
        ensures { IfOk result (λ o. IfSome o (λ r. IsRecordOf r (command_view command.now))) };

    /// Keeps a write after those that it has kept, before anybody sees it.
    ///
    /// Errors: `Lost` if it may or may not be kept; then nothing is kept after it.
    fn keep(&mut self, text: Option<Record>) -> Result<(), Lost>
        ensures kept { (cs : List Asked) (c : Asked) → keeps self.old cs → IfSome text (λ r. IsRecordOf r c)
            → OnOk result (keeps self.new (cs ++ c ∷ [])) }
        ensures refused { (cs : List Asked) → keeps self.old cs → OnErr result (keeps self.new cs) };

    /// Ends the writer. May wait for readers.
    fn end<D: Database, P: Placement + Drop>(&self, writer: SnapshotWriter<D, P>)
    where
        Snapshot<P>: Absorb<(), State = ()>;
}

/// A commit may or may not be kept.
#[derive(Clone, Copy, PartialEq, Eq, Debug, Drop)]
pub struct Lost;

/// Keeps nothing, and ends a writer by waiting for its readers.
#[derive(Drop)]
pub struct WaitForReaders<R: Drop>(pub R);

impl<R: Wait + Drop> Keeper for WaitForReaders<R> {
    ghost keeps = { λ keeper writes. Unit {0} };

    fn record(_alloc: Global, _command: &Command) -> Result<Option<Record>, NoMemory> {
        Ok(None)
    }

    fn keep(&mut self, _text: Option<Record>) -> Result<(), Lost> {
        Ok(())
    }

    fn end<D: Database, P: Placement + Drop>(&self, writer: SnapshotWriter<D, P>)
    where
        Snapshot<P>: Absorb<(), State = ()>,
    {
        drop(writer.take(&self.0));
    }
}
