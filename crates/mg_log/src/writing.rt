//! Writing of rows, in a transaction.
ghost use Rattle.std.specs.Prelude.{◌≡◌, ◌⊎◌, ◌+◌, ◌-◌, ◌^◌, ◌<◌, Err, false, [], ◌∷◌, length, string_bytes, IsTrue, IfErr, OnOk};
ghost use Rattle.sqlite.specs.State.{HasCleanDisk};
ghost use Rattle.sqlite.specs.Held.{state};
ghost use Rattle.mg_log.specs.Failures.{failure_of, IsFailure};
ghost use Rattle.mg_log.specs.Table.{no_schema};
ghost use Rattle.mg_log.specs.Entry.{entry_of, entries_of};
ghost use Rattle.mg_log.specs.Rows.{LeavesSame};
ghost use Rattle.mg_log.specs.Steps.{AddsRows, ClosesByFault, CommitsAllOrNone, CommitsNewLog, CommitsNothing, KeepsLog, KeepsRows, MakesLog, MakesTable, WasClean, WasOpen, WritesAll};

use crate::commit::Commit;
use crate::error::AppendError;
use sqlite::{Alter, Connection, Error, ErrorCode, Transaction, params};

// Adds the row with this number.
fn insert<S: Alter>(
    tx: &mut Transaction<'_, S>,
    number: u32,
    kind: &str,
    body: &String,
) -> Result<usize, Error>
    ensures same_reference { tx.new.conn.ghost_name ≡ tx.old.conn.ghost_name }
    ensures added { AddsRows S.Store tx.old.conn.now tx.new.conn.now number
        (record { kind = kind.now; body = string_bytes body.now } ∷ []) result }
    ensures kept { KeepsRows S.Store tx.old.conn.now tx.new.conn.now }
    ensures was_open { WasOpen S.Store tx.old.conn.now tx.new.conn.now }
    ensures survives { CommitsNothing S.Store tx.old.conn.now tx.new.conn.now }
{
    tx.execute(
        "INSERT INTO commits (number, kind, body) VALUES (?1, ?2, ?3)",
        params![number, kind, body],
    )
}

// Names the failure of a statement that was not committed.
fn insert_error(error: Error) -> AppendError
    ensures is { result ≡ failure_of error }
    ensures named { IsFailure result }
{
    match error {
        Error::SqliteFailure(ErrorCode::OutOfMemory) => AppendError::NoMemory,
        _ => AppendError::Storage(error),
    }
}

// Adds the row of a commit behind so many commits.
fn insert_commit<S: Alter>(
    tx: &mut Transaction<'_, S>,
    number: u32,
    commit: &Commit,
) -> Result<(), AppendError>
    ensures same_reference { tx.new.conn.ghost_name ≡ tx.old.conn.ghost_name }
    ensures added { AddsRows S.Store tx.old.conn.now tx.new.conn.now number (entry_of commit.now ∷ []) result }
    ensures named { IfErr result IsFailure }
    ensures kept { KeepsRows S.Store tx.old.conn.now tx.new.conn.now }
    ensures was_open { WasOpen S.Store tx.old.conn.now tx.new.conn.now }
    ensures survives { CommitsNothing S.Store tx.old.conn.now tx.new.conn.now }
{
    match insert(tx, number, commit.kind.name(), &commit.body) {
        Ok(_) => Ok(()),
        Err(error) => Err(insert_error(error)),
    }
}

// Adds the rows of commits behind so many commits.
fn insert_all<S: Alter>(
    tx: &mut Transaction<'_, S>,
    count: u32,
    commits: &[Commit],
) -> Result<(), AppendError>
    requires { count + length commits.now < 2 ^ 32 - 1 }
    ensures same_reference { tx.new.conn.ghost_name ≡ tx.old.conn.ghost_name }
    ensures added { AddsRows S.Store tx.old.conn.now tx.new.conn.now (count + 1) (entries_of commits.now) result }
    ensures named { IfErr result IsFailure }
    ensures kept { KeepsRows S.Store tx.old.conn.now tx.new.conn.now }
    ensures was_open { WasOpen S.Store tx.old.conn.now tx.new.conn.now }
    ensures survives { CommitsNothing S.Store tx.old.conn.now tx.new.conn.now }
{
    let mut number = count;
    for commit in commits {
        number += 1;
        insert_commit(tx, number, commit)?;
    }
    Ok(())
}

// Writes the rows of commits behind so many commits, in one transaction.
pub(crate) fn write_group<S: Alter>(
    conn: &mut Connection<S>,
    count: u32,
    commits: &[Commit],
) -> Result<(), AppendError>
    requires idle { (state S.Store conn.old).in_transaction ≡ false }
    requires room { count + length commits.now < 2 ^ 32 - 1 }
    ensures written { WritesAll S.Store conn.old conn.new count (entries_of commits.now) result }
    ensures crash { CommitsAllOrNone S.Store conn.old conn.new count (entries_of commits.now) }
    ensures refused { KeepsLog S.Store conn.old conn.new result }
    ensures not_stored { HasCleanDisk (state S.Store conn.new)
        → (result ≡ Err AppendError.NoMemory) ⊎ (result ≡ Err AppendError.Full)
        → LeavesSame (state S.Store conn.old) (state S.Store conn.new) }
    ensures named { IfErr result IsFailure }
    ensures closes { ClosesByFault S.Store conn.old conn.new }
    ensures was_open { HasCleanDisk (state S.Store conn.new) → OnOk result (IsTrue (state S.Store conn.old).is_open) }
    ensures stays_shut { HasCleanDisk (state S.Store conn.new) → result ≡ Err AppendError.NoMemory
        → IsTrue (state S.Store conn.new).is_open → IsTrue (state S.Store conn.old).is_open }
    ensures honest { WasClean S.Store conn.old conn.new }
    ensures idle { (state S.Store conn.new).in_transaction ≡ false }
{
    let mut tx = conn.transaction();
    insert_all(&mut tx, count, commits)?;
    match tx.commit() {
        Ok(()) => Ok(()),
        Err(error) => Err(AppendError::Storage(error)),
    }
}

// Makes the table, in a transaction.
fn create_table<S: Alter>(tx: &mut Transaction<'_, S>) -> Result<usize, Error>
    ensures same_reference { tx.new.conn.ghost_name ≡ tx.old.conn.ghost_name }
    ensures made { MakesTable S.Store tx.old.conn.now tx.new.conn.now result }
    ensures survives { CommitsNothing S.Store tx.old.conn.now tx.new.conn.now }
{
    tx.execute(
        "CREATE TABLE commits (number INTEGER PRIMARY KEY, kind TEXT NOT NULL, body TEXT NOT NULL) STRICT",
        &[],
    )
}

// Makes the table and its header's row, in one transaction.
pub(crate) fn create<S: Alter>(conn: &mut Connection<S>, head: &String) -> Result<(), Error>
    requires idle { (state S.Store conn.old).in_transaction ≡ false }
    requires blank { (state S.Store conn.old).now.schema ≡ no_schema }
    ensures made { MakesLog S.Store conn.old conn.new (string_bytes head.now) result }
    ensures survives { CommitsNewLog S.Store conn.old conn.new (string_bytes head.now) }
    ensures idle { (state S.Store conn.new).in_transaction ≡ false }
{
    let mut tx = conn.transaction();
    create_table(&mut tx)?;
    insert(&mut tx, 0, "header", head)?;
    tx.commit()?;
    Ok(())
}
