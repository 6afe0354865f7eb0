use std::alloc::{AllocError, AllocFailed};

/// Why bytes were not read back as values.
#[derive(Clone, Copy, PartialEq, Eq, Debug, Drop)]
pub(crate) enum DecodeError {
    /// The bytes are not those of any value. Never returned for the bytes of a row's key.
    NotStored,
    /// An allocation failed.
    NoMemory,
}

// Written by hand, so that clauses can name the error that a `?` makes.
impl From<AllocError> for DecodeError {
    ghost use Rattle.std.specs.Prelude.{◌≡◌};
    ghost use Rattle.mg_rows.specs.declared.error.DecodeError.TheVariants.{NoMemory as want};

    ghost from_gives = { λ _ e. e ≡ want };

    fn from(_refused: AllocError) -> DecodeError {
        DecodeError::NoMemory
    }
}

impl<T: Drop> From<AllocFailed<T>> for DecodeError {
    ghost use Rattle.std.specs.Prelude.{◌≡◌};
    ghost use Rattle.mg_rows.specs.declared.error.DecodeError.TheVariants.{NoMemory as want};

    ghost from_gives = { λ _ e. e ≡ want };

    fn from(_refused: AllocFailed<T>) -> DecodeError {
        DecodeError::NoMemory
    }
}
