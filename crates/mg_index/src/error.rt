use mg_path::PathError;
use mg_value::NoMemory;
use std::alloc::{AllocError, AllocFailed};
use thiserror::Error;

/// Why no index definition was read: the body defines no index, or memory ran out.
#[derive(Clone, Copy, PartialEq, Eq, Debug, Drop, Error)]
pub enum IndexError {
    /// The body or a member has the wrong shape, or a path has an empty step.
    #[error("wrong shape")]
    Shape,
    /// The columns have both directions.
    #[error("an index has one direction")]
    Mixed,
    /// An allocation failed.
    #[error("out of memory")]
    NoMemory,
}

/// No index serves the query, not even the index of all documents.
#[derive(Clone, Copy, PartialEq, Eq, Debug, Drop, Error)]
#[error("no index is usable")]
pub struct NoUsableIndex;

impl From<AllocError> for IndexError {
    ghost use Rattle.std.specs.Prelude.{◌≡◌};
    ghost use Rattle.mg_index.specs.declared.error.IndexError.TheVariants.{NoMemory as refused};

    ghost from_gives = { λ _ error. error ≡ refused };

    fn from(_refused: AllocError) -> IndexError {
        IndexError::NoMemory
    }
}

impl<T: Drop> From<AllocFailed<T>> for IndexError {
    ghost use Rattle.std.specs.Prelude.{◌≡◌};
    ghost use Rattle.mg_index.specs.declared.error.IndexError.TheVariants.{NoMemory as refused};

    ghost from_gives = { λ _ error. error ≡ refused };

    fn from(_refused: AllocFailed<T>) -> IndexError {
        IndexError::NoMemory
    }
}

impl From<NoMemory> for IndexError {
    ghost use Rattle.std.specs.Prelude.{◌≡◌};
    ghost use Rattle.mg_index.specs.declared.error.IndexError.TheVariants.{NoMemory as refused};

    ghost from_gives = { λ _ error. error ≡ refused };

    fn from(_refused: NoMemory) -> IndexError {
        IndexError::NoMemory
    }
}

impl From<PathError> for IndexError {
    ghost use Rattle.std.specs.Prelude.{◌≡◌};
    ghost use Rattle.mg_index.specs.Reading.{error_of_path};

    ghost from_gives = { λ fault error. error ≡ error_of_path fault };

    fn from(fault: PathError) -> IndexError {
        match fault {
            PathError::Empty => IndexError::Shape,
            PathError::NoMemory => IndexError::NoMemory,
        }
    }
}
