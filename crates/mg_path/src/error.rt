use mg_value::NoMemory;
use std::alloc::{AllocError, AllocFailed};
use thiserror::Error;

/// Why a text was not read as a path.
#[derive(Clone, Copy, PartialEq, Eq, Debug, Drop, Error)]
pub enum PathError {
    /// A step is empty: the text is empty, begins or ends with a dot, or has two dots in a row. The dot of
    /// `\.` does not count.
    #[error("a step of the path is empty")]
    Empty,
    /// An allocation failed.
    #[error("out of memory")]
    NoMemory,
}

impl From<AllocError> for PathError {
    ghost use Rattle.std.specs.Prelude.{◌≡◌};
    ghost use Rattle.mg_path.specs.declared.error.PathError.TheVariants.{NoMemory as refused};

    ghost from_gives = { λ _ error. error ≡ refused };

    fn from(_refused: AllocError) -> PathError {
        PathError::NoMemory
    }
}

impl<T: Drop> From<AllocFailed<T>> for PathError {
    ghost use Rattle.std.specs.Prelude.{◌≡◌};
    ghost use Rattle.mg_path.specs.declared.error.PathError.TheVariants.{NoMemory as refused};

    ghost from_gives = { λ _ error. error ≡ refused };

    fn from(_refused: AllocFailed<T>) -> PathError {
        PathError::NoMemory
    }
}

impl From<NoMemory> for PathError {
    ghost use Rattle.std.specs.Prelude.{◌≡◌};
    ghost use Rattle.mg_path.specs.declared.error.PathError.TheVariants.{NoMemory as refused};

    ghost from_gives = { λ _ error. error ≡ refused };

    fn from(_refused: NoMemory) -> PathError {
        PathError::NoMemory
    }
}
