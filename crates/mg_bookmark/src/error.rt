use mg_value::NoMemory;
use std::alloc::{AllocError, AllocFailed};
use thiserror::Error;

/// Why a text was not read as a bookmark.
#[derive(Clone, Copy, PartialEq, Eq, Debug, Drop, Error)]
pub enum BookmarkError {
    /// The text is neither `nil` nor what `Bookmark::encode` writes, or its array nests more than 127 deep.
    #[error("invalid bookmark")]
    Invalid,
    /// An allocation failed.
    #[error("out of memory")]
    NoMemory,
}

impl From<AllocError> for BookmarkError {
    ghost use Rattle.std.specs.Prelude.{◌≡◌};
    ghost use Rattle.mg_bookmark.specs.declared.error.BookmarkError.TheVariants.{NoMemory as refused};

    ghost from_gives = { λ _ error. error ≡ refused };

    fn from(_refused: AllocError) -> BookmarkError {
        BookmarkError::NoMemory
    }
}

impl<T: Drop> From<AllocFailed<T>> for BookmarkError {
    ghost use Rattle.std.specs.Prelude.{◌≡◌};
    ghost use Rattle.mg_bookmark.specs.declared.error.BookmarkError.TheVariants.{NoMemory as refused};

    ghost from_gives = { λ _ error. error ≡ refused };

    fn from(_refused: AllocFailed<T>) -> BookmarkError {
        BookmarkError::NoMemory
    }
}

impl From<NoMemory> for BookmarkError {
    ghost use Rattle.std.specs.Prelude.{◌≡◌};
    ghost use Rattle.mg_bookmark.specs.declared.error.BookmarkError.TheVariants.{NoMemory as refused};

    ghost from_gives = { λ _ error. error ≡ refused };

    fn from(_refused: NoMemory) -> BookmarkError {
        BookmarkError::NoMemory
    }
}
