ghost use Rattle.std.specs.Prelude.{◌≡◌};
ghost use Rattle.sqlite.specs.declared.error.Error.TheVariants.{SqliteFailure};
ghost use Rattle.mg_log.specs.Failures.{refusal_of};

use mg_value::NoMemory;
use sqlite::{Error as SqliteError, ErrorCode};
use std::alloc::AllocError;
use thiserror::Error;

/// Why commits were not acknowledged.
#[derive(Clone, Copy, PartialEq, Eq, Debug, Drop, Error)]
pub enum AppendError {
    /// Memory ran out before the commits were written: the file is as it was, and stays so.
    #[error("out of memory")]
    NoMemory,
    /// The log has no number left for so many commits; then nothing has changed.
    #[error("the log is full")]
    Full,
    /// The file could not be written: the commits may or may not be stored, and the log is lost.
    #[error("the commits may or may not be stored: {0}")]
    Storage(SqliteError),
    /// An earlier fault has ended the log, and the file was not touched.
    #[error("the log was closed by an earlier failure")]
    Lost,
}

/// Why a log was not opened, or its rows were not read to their end.
#[derive(Clone, Copy, PartialEq, Eq, Debug, Drop, Error)]
pub enum OpenError {
    /// Memory ran out.
    #[error("out of memory")]
    NoMemory,
    /// Another handle has the file open, of this process or of another one.
    #[error("the file is held by another process")]
    Held,
    /// The file is no database, or it is damaged, or a row is missing or is no commit.
    #[error("the file is damaged")]
    Damaged,
    /// The file is a database with other tables than a log's.
    #[error("the file has another schema")]
    OtherSchema,
    /// Row 0 does not have the mark of this program.
    #[error("the file belongs to another program")]
    OtherProgram,
    /// Row 0 names another database.
    #[error("the file has another database")]
    OtherDatabase,
    /// The file could not be opened, read or written.
    #[error("{0}")]
    Storage(SqliteError),
    /// What takes the commits has stopped.
    #[error("a commit was refused")]
    Stopped,
    /// An earlier fault has ended the log, and the file was not touched.
    #[error("the log was closed by an earlier failure")]
    Lost,
}

impl From<SqliteError> for OpenError {
    ghost from_gives = { λ error refusal. refusal ≡ refusal_of error };

    fn from(error: SqliteError) -> OpenError {
        match error {
            SqliteError::SqliteFailure(code) => named(code),
            _ => OpenError::Damaged,
        }
    }
}

// Names a failure by its code.
fn named(code: ErrorCode) -> OpenError
    ensures { result ≡ refusal_of (SqliteFailure code) }
{
    match code {
        ErrorCode::OutOfMemory => OpenError::NoMemory,
        ErrorCode::DatabaseBusy => OpenError::Held,
        ErrorCode::DatabaseCorrupt | ErrorCode::NotADatabase => OpenError::Damaged,
        _ => OpenError::Storage(SqliteError::SqliteFailure(code)),
    }
}

impl From<AllocError> for OpenError {
    ghost use Rattle.mg_log.specs.declared.error.OpenError.{OpenError};

    ghost from_gives = { λ _ refusal. refusal ≡ OpenError.NoMemory };

    fn from(_refused: AllocError) -> OpenError {
        OpenError::NoMemory
    }
}

impl From<NoMemory> for OpenError {
    ghost use Rattle.mg_log.specs.declared.error.OpenError.{OpenError};

    ghost from_gives = { λ _ refusal. refusal ≡ OpenError.NoMemory };

    fn from(_refused: NoMemory) -> OpenError {
        OpenError::NoMemory
    }
}
