use std::alloc::{AllocError, AllocFailed};
use thiserror::Error;

/// An allocation failed, or a limit was reached: on the size of an allocation, or on the number of references to one block.
#[derive(Clone, Copy, PartialEq, Eq, Debug, Drop, Error)]
#[error("out of memory")]
pub struct NoMemory;

impl From<AllocError> for NoMemory {
    fn from(_refused: AllocError) -> NoMemory {
        NoMemory
    }
}

impl<T: Drop> From<AllocFailed<T>> for NoMemory {
    fn from(_refused: AllocFailed<T>) -> NoMemory {
        NoMemory
    }
}

/// Why bytes were not read as a value.
#[derive(Clone, Copy, PartialEq, Eq, Debug, Drop, Error)]
pub enum ReadError {
    /// The bytes are not a JSON text: they are not UTF-8, break the grammar of RFC 8259, nest more
    /// than 127 deep, or hold a number too large for a 64-bit float.
    #[error("not a JSON text")]
    NotJson,
    /// The bytes are a JSON text, but a number of its value is not an `i64`: `1.5`, `1.0`, `1e2`,
    /// `-0` and `9223372036854775808` are not.
    #[error("a number is not a whole number of 64 bits")]
    NotWhole,
    /// An allocation failed.
    #[error("out of memory")]
    NoMemory,
}

// Written by hand, so that clauses can name the error that a `?` makes.
impl From<AllocError> for ReadError {
    ghost use Rattle.std.specs.Prelude.{◌≡◌};
    ghost use Rattle.mg_value.specs.declared.error.ReadError.TheVariants.{NoMemory as want};

    ghost from_gives = { λ _ e. e ≡ want };

    fn from(_refused: AllocError) -> ReadError {
        ReadError::NoMemory
    }
}

impl<T: Drop> From<AllocFailed<T>> for ReadError {
    ghost use Rattle.std.specs.Prelude.{◌≡◌};
    ghost use Rattle.mg_value.specs.declared.error.ReadError.TheVariants.{NoMemory as want};

    ghost from_gives = { λ _ e. e ≡ want };

    fn from(_refused: AllocFailed<T>) -> ReadError {
        ReadError::NoMemory
    }
}
