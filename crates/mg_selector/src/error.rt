use mg_path::PathError;
use mg_value::NoMemory;
use std::alloc::{AllocError, AllocFailed};
use thiserror::Error;

/// Why no selector was read: the value is not a selector, or memory ran out.
#[derive(Clone, Copy, PartialEq, Eq, Debug, Drop, Error)]
pub enum SelError {
    /// A member's name begins with `$` but is not an operator.
    #[error("unknown operator")]
    InvalidOperator,
    /// An operator does not take its argument, or a path has an empty step.
    #[error("bad argument for an operator")]
    BadArg,
    /// The value is not an object.
    #[error("a selector is an object")]
    Shape,
    /// An allocation failed.
    #[error("out of memory")]
    NoMemory,
}

impl From<AllocError> for SelError {
    ghost use Rattle.std.specs.Prelude.{◌≡◌};
    ghost use Rattle.mg_selector.specs.declared.error.SelError.TheVariants.{NoMemory as refused};

    ghost from_gives = { λ _ error. error ≡ refused };

    fn from(_refused: AllocError) -> SelError {
        SelError::NoMemory
    }
}

impl<T: Drop> From<AllocFailed<T>> for SelError {
    ghost use Rattle.std.specs.Prelude.{◌≡◌};
    ghost use Rattle.mg_selector.specs.declared.error.SelError.TheVariants.{NoMemory as refused};

    ghost from_gives = { λ _ error. error ≡ refused };

    fn from(_refused: AllocFailed<T>) -> SelError {
        SelError::NoMemory
    }
}

impl From<NoMemory> for SelError {
    ghost use Rattle.std.specs.Prelude.{◌≡◌};
    ghost use Rattle.mg_selector.specs.declared.error.SelError.TheVariants.{NoMemory as refused};

    ghost from_gives = { λ _ error. error ≡ refused };

    fn from(_refused: NoMemory) -> SelError {
        SelError::NoMemory
    }
}

impl From<PathError> for SelError {
    ghost use Rattle.mg_selector.specs.Fault.{error_of_path};
    ghost use Rattle.std.specs.Prelude.{◌≡◌};

    ghost from_gives = { λ fault error. error ≡ error_of_path fault };

    fn from(fault: PathError) -> SelError {
        match fault {
            PathError::Empty => SelError::BadArg,
            PathError::NoMemory => SelError::NoMemory,
        }
    }
}
