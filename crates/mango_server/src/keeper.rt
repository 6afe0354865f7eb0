//! Keeps the commits of a database in a file.
ghost use Rattle.std.specs.Prelude.{◌≡◌, None, Some, false};
ghost use Rattle.mg_live.specs.Keeping.{IsRecordOf, IsTextOf};
ghost use Rattle.mg_log.specs.Entry.{entry_of, kind_name};
ghost use Rattle.mango_server.specs.Kept.{HasRowsOf, IsRowOf, row_kind};

use left_right::Absorb;
use mg_engine::Command;
use mg_live::{
    Database, Keeper, Lost, Record, RecordKind, Snapshot, SnapshotWriter, WaitForReaders,
};
use mg_log::{AppendError, Commit, Kind, Log};
use mg_shard::Placement;
use mg_value::NoMemory;
use sqlite::{FileFrom, FileStore, Unknown};
use std::alloc::Global;
use std::sync::atomic::{AtomicBool, Ordering};
use std::sync::{Arc, Wait};

/// The log of commits in a file.
pub(crate) type FileLog = Log<FileStore<FileFrom<Unknown>>>;

/// Keeps commits in a file; nowhere, while those of the file are executed again.
#[derive(Drop)]
pub(crate) struct FileKeeper<H: Drop> {
    log: Option<FileLog>,
    /// Whether a commit may or may not be kept. Nothing is kept after it.
    is_lost: bool,
    /// The same for the services, which then serve nobody any more.
    lost: Arc<AtomicBool>,
    ends: WaitForReaders<H>,
}

impl<H: Drop> FileKeeper<H> {
    /// Keeps commits nowhere.
    pub(crate) fn nowhere(rt: H, lost: Arc<AtomicBool>) -> FileKeeper<H>
        ensures { result.log ≡ None }
    {
        FileKeeper {
            log: None,
            is_lost: false,
            lost,
            ends: WaitForReaders(rt),
        }
    }

    /// Keeps commits after those of a log.
    pub(crate) fn in_file(rt: H, log: FileLog, lost: Arc<AtomicBool>) -> FileKeeper<H>
        ensures log { result.log ≡ Some log }
        ensures lost { result.is_lost ≡ false }
    {
        FileKeeper {
            log: Some(log),
            is_lost: false,
            lost,
            ends: WaitForReaders(rt),
        }
    }
}

/// Returns the kind of the row for a record.
fn kind_of(kind: RecordKind) -> Kind
    ensures { result ≡ row_kind kind }
{
    match kind {
        RecordKind::Bulk => Kind::Bulk,
        RecordKind::CreateIndex => Kind::CreateIndex,
        RecordKind::DropIndex => Kind::DropIndex,
        RecordKind::Reshard => Kind::Reshard,
    }
}

/// Returns the kind of the record of a row.
pub(crate) fn record_kind(kind: Kind) -> RecordKind
    ensures { row_kind result ≡ kind }
{
    match kind {
        Kind::Bulk => RecordKind::Bulk,
        Kind::CreateIndex => RecordKind::CreateIndex,
        Kind::DropIndex => RecordKind::DropIndex,
        Kind::Reshard => RecordKind::Reshard,
    }
}

/// Returns the row of a record.
fn row_of(text: Record) -> Commit
    ensures kind { result.kind ≡ row_kind text.kind }
    ensures body { result.body ≡ text.body }
{
    let Record { kind, body } = text;
    Commit {
        kind: kind_of(kind),
        body,
    }
}

impl<H: Wait + Drop> Keeper for FileKeeper<H> {
    ghost use Rattle.mango_server.specs.Kept.{KeepsIn};

    ghost keeps = { λ keeper writes. KeepsIn keeper.log keeper.is_lost writes };

    fn record(alloc: Global, command: &Command) -> Result<Option<Record>, NoMemory> {
        Record::of(alloc, command)
    }

    fn keep(&mut self, text: Option<Record>) -> Result<(), Lost> {
        let Some(log) = &mut self.log else {
            return Ok(());
        };
        let Some(text) = text else {
            return Err(Lost);
        };
        if self.is_lost {
            return Err(Lost);
        }
        let row = [row_of(text)];
        match log.append(row.as_slice()) {
            Ok(()) => Ok(()),
            // The file is as it was: the client may try again.
            Err(AppendError::NoMemory) => Err(Lost),
            Err(_) => {
                self.is_lost = true;
                self.lost.store(true, Ordering::SeqCst);
                Err(Lost)
            }
        }
    }

    fn end<D: Database, P: Placement + Drop>(&self, writer: SnapshotWriter<D, P>)
    where
        Snapshot<P>: Absorb<(), State = ()>,
    {
        self.ends.end(writer);
    }
}
