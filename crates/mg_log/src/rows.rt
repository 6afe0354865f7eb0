//! Reading of the table's rows, one at a time.
ghost use Rattle.std.specs.Prelude.{◌≡◌, ◌<◌, ◌-◌, ◌^◌, [], false, string_bytes, IfOk};
ghost use Rattle.sqlite.specs.State.{HasCleanDisk};
ghost use Rattle.sqlite.specs.Held.{state};
ghost use Rattle.mg_log.specs.Table.{log_schema};
ghost use Rattle.mg_log.specs.Entry.{entry_of};
ghost use Rattle.mg_log.specs.Header.{heading_of};
ghost use Rattle.mg_log.specs.Reading.{GivesHeader, GivesNext};
ghost use Rattle.mg_log.specs.Steps.{CommitsNothing, KeepsIfErr, OnlyReads, StaysIdle};
ghost use Rattle.mg_log.specs.Rows.{row_of, three_of, IsHeadRow, HasRead};

use crate::commit::{Commit, Kind};
use crate::error::OpenError;
use crate::header::{Header, read_header};
use crate::replay::Replay;
use sqlite::{Alter, Connection, Row, Rows};
use std::alloc::Global;

/// The most commits that a log has.
pub(crate) const MOST: u32 = u32::MAX - 1;

// Reads a row's commit, if the row has this number.
fn commit_in(row: &Row, number: u32) -> Result<Commit, OpenError>
    ensures { IfOk result (λ c. three_of row.now ≡ row_of number (entry_of c)) }
{
    let found: u32 = row.get(0)?;
    if found != number {
        return Err(OpenError::Damaged);
    }
    let Some(kind) = Kind::of(row.get_ref(1)?) else {
        return Err(OpenError::Damaged);
    };
    let body: String = row.get(2)?;
    Ok(Commit { kind, body })
}

// Reads the header's row.
fn header_in(alloc: Global, row: &Row) -> Result<Header, OpenError>
    ensures { IfOk result (λ h. IsHeadRow (heading_of h) row.now) }
{
    let number: u32 = row.get(0)?;
    let kind: String = row.get(1)?;
    if number != 0 || kind.as_str() != "header" {
        return Err(OpenError::OtherProgram);
    }
    let body: String = row.get(2)?;
    read_header(alloc, body.as_bytes())
}

// Reads the header's row, if it names this database.
fn named_header(alloc: Global, row: &Row, database: &str) -> Result<Header, OpenError>
    ensures is { IfOk result (λ h. IsHeadRow (heading_of h) row.now) }
    ensures named { IfOk result (λ h. string_bytes h.database ≡ database.now) }
{
    let header = header_in(alloc, row)?;
    if header.database.as_str() == database {
        Ok(header)
    } else {
        Err(OpenError::OtherDatabase)
    }
}

// Moves to the row of the header, and reads it, if it names this database.
fn next_header<S: Alter>(
    alloc: Global,
    rows: &mut Rows<'_, S>,
    database: &str,
) -> Result<Header, OpenError>
    ensures named { IfOk result (λ h. string_bytes h.database ≡ database.now) }
    ensures same_reference { rows.new.conn.ghost_name ≡ rows.old.conn.ghost_name }
    ensures gives { HasCleanDisk (state S.Store rows.new.conn.now)
        → IfOk result (λ h. GivesHeader S.Store rows.old.conn.now rows.new.conn.now (heading_of h)) }
    ensures same { OnlyReads S.Store rows.old.conn.now rows.new.conn.now result }
    ensures kept { KeepsIfErr S.Store rows.old.conn.now rows.new.conn.now result }
    ensures idle { StaysIdle S.Store rows.old.conn.now rows.new.conn.now }
    ensures survives { CommitsNothing S.Store rows.old.conn.now rows.new.conn.now }
{
    rows.advance()?;
    match rows.get() {
        Some(row) => named_header(alloc, row, database),
        None => Err(OpenError::OtherProgram),
    }
}

// Moves to the next row, and reads its commit, if the row has this number; `None` if there is no other row.
fn next_commit<S: Alter>(rows: &mut Rows<'_, S>, number: u32) -> Result<Option<Commit>, OpenError>
    ensures same_reference { rows.new.conn.ghost_name ≡ rows.old.conn.ghost_name }
    ensures gives { HasCleanDisk (state S.Store rows.new.conn.now)
        → IfOk result (GivesNext S.Store rows.old.conn.now rows.new.conn.now number) }
    ensures same { OnlyReads S.Store rows.old.conn.now rows.new.conn.now result }
    ensures kept { KeepsIfErr S.Store rows.old.conn.now rows.new.conn.now result }
    ensures idle { StaysIdle S.Store rows.old.conn.now rows.new.conn.now }
    ensures survives { CommitsNothing S.Store rows.old.conn.now rows.new.conn.now }
{
    rows.advance()?;
    match rows.get() {
        Some(row) => Ok(Some(commit_in(row, number)?)),
        None => Ok(None),
    }
}

// Gives each commit to `replay`, and returns the header and the number of commits.
pub(crate) fn replay_rows<S: Alter, R: Replay>(
    alloc: Global,
    conn: &mut Connection<S>,
    database: &str,
    replay: &mut R,
) -> Result<(Header, u32), OpenError>
    requires schema { (state S.Store conn.old).now.schema ≡ log_schema }
    requires idle { (state S.Store conn.old).in_transaction ≡ false }
    requires start { R.Replay.follows replay.old [] }
    ensures named { IfOk result (λ r. string_bytes r.0.database ≡ database.now) }
    ensures read { IfOk result (λ r. HasRead (state S.Store conn.old) (state S.Store conn.new)
        (R.Replay.follows replay.new) (heading_of r.0) r.1) }
    ensures kept { KeepsIfErr S.Store conn.old conn.new result }
    ensures bounded { IfOk result (λ r. r.1 < 2 ^ 32 - 1) }
    ensures idle { (state S.Store conn.new).in_transaction ≡ false }
    ensures survives { CommitsNothing S.Store conn.old conn.new }
{
    let mut rows = conn.query(
        "SELECT number, kind, body FROM commits ORDER BY number",
        &[],
    )?;
    let header = next_header(alloc, &mut rows, database)?;
    'rows: for count in 0..MOST {
        let Some(commit) = next_commit(&mut rows, count + 1)? else {
            return Ok((header, count));
        };
        let Ok(()) = replay.take(commit) else {
            return Err(OpenError::Stopped);
        };
    }
    Err(OpenError::Damaged)
}
