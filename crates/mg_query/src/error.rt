use mg_index::NoUsableIndex;
use mg_path::PathError;
use mg_selector::SelError;
use mg_value::NoMemory;
use std::alloc::{AllocError, AllocFailed};
use thiserror::Error;

/// Why the body of a query was not read.
#[derive(Clone, Copy, PartialEq, Eq, Debug, Drop, Error)]
pub enum QueryError {
    /// The body is not an object, `selector` is missing, a member has the wrong shape, or a path of `sort` or `fields` has an empty step.
    #[error("wrong shape")]
    Shape,
    /// The selector has an unknown operator.
    #[error("unknown operator")]
    InvalidOperator,
    /// An operator of the selector has an argument that it does not take, or a path of the selector has an empty step.
    #[error("bad argument for an operator")]
    BadArg,
    /// The text of `bookmark` is not a bookmark.
    #[error("invalid bookmark")]
    BadBookmark,
    /// The fields of the sort have both directions.
    #[error("a sort has one direction")]
    MixedSort,
    /// An allocation failed.
    #[error("out of memory")]
    NoMemory,
}

impl From<AllocError> for QueryError {
    ghost use Rattle.std.specs.Prelude.{◌≡◌};
    ghost use Rattle.mg_query.specs.declared.error.QueryError.TheVariants.{NoMemory as refused};

    ghost from_gives = { λ _ e. e ≡ refused };

    fn from(_refused: AllocError) -> QueryError {
        QueryError::NoMemory
    }
}

impl<T: Drop> From<AllocFailed<T>> for QueryError {
    ghost use Rattle.std.specs.Prelude.{◌≡◌};
    ghost use Rattle.mg_query.specs.declared.error.QueryError.TheVariants.{NoMemory as refused};

    ghost from_gives = { λ _ e. e ≡ refused };

    fn from(_refused: AllocFailed<T>) -> QueryError {
        QueryError::NoMemory
    }
}

impl From<NoMemory> for QueryError {
    ghost use Rattle.std.specs.Prelude.{◌≡◌};
    ghost use Rattle.mg_query.specs.declared.error.QueryError.TheVariants.{NoMemory as refused};

    ghost from_gives = { λ _ e. e ≡ refused };

    fn from(_refused: NoMemory) -> QueryError {
        QueryError::NoMemory
    }
}

impl From<PathError> for QueryError {
    ghost use Rattle.std.specs.Prelude.{◌≡◌};
    ghost use Rattle.mg_query.specs.Query.{error_of_path};

    ghost from_gives = { λ p e. e ≡ error_of_path p };

    fn from(fault: PathError) -> QueryError {
        match fault {
            PathError::Empty => QueryError::Shape,
            PathError::NoMemory => QueryError::NoMemory,
        }
    }
}

impl From<SelError> for QueryError {
    ghost use Rattle.std.specs.Prelude.{◌≡◌};
    ghost use Rattle.mg_query.specs.Query.{fault_of_selector};

    ghost from_gives = { λ s e. e ≡ fault_of_selector s };

    fn from(fault: SelError) -> QueryError {
        match fault {
            SelError::InvalidOperator => QueryError::InvalidOperator,
            SelError::BadArg => QueryError::BadArg,
            SelError::Shape => QueryError::Shape,
            SelError::NoMemory => QueryError::NoMemory,
        }
    }
}

/// Why a query that was read has no page.
#[derive(Clone, Copy, PartialEq, Eq, Debug, Drop, Error)]
pub enum PageError {
    /// No index is usable for the query and its sort. Without a sort, or with a sort by `_id` alone, the index of all documents is always
    /// usable.
    #[error("no index is usable")]
    NoUsableIndex,
    /// The bookmark is of another index or direction, or its key has another number of values than the index has columns.
    #[error("invalid bookmark")]
    BadBookmark,
    /// An allocation failed.
    #[error("out of memory")]
    NoMemory,
}

impl From<AllocError> for PageError {
    ghost use Rattle.std.specs.Prelude.{◌≡◌};
    ghost use Rattle.mg_query.specs.declared.error.PageError.TheVariants.{NoMemory as refused};

    ghost from_gives = { λ _ e. e ≡ refused };

    fn from(_refused: AllocError) -> PageError {
        PageError::NoMemory
    }
}

impl<T: Drop> From<AllocFailed<T>> for PageError {
    ghost use Rattle.std.specs.Prelude.{◌≡◌};
    ghost use Rattle.mg_query.specs.declared.error.PageError.TheVariants.{NoMemory as refused};

    ghost from_gives = { λ _ e. e ≡ refused };

    fn from(_refused: AllocFailed<T>) -> PageError {
        PageError::NoMemory
    }
}

impl From<NoMemory> for PageError {
    ghost use Rattle.std.specs.Prelude.{◌≡◌};
    ghost use Rattle.mg_query.specs.declared.error.PageError.TheVariants.{NoMemory as refused};

    ghost from_gives = { λ _ e. e ≡ refused };

    fn from(_refused: NoMemory) -> PageError {
        PageError::NoMemory
    }
}

impl From<NoUsableIndex> for PageError {
    ghost use Rattle.std.specs.Prelude.{◌≡◌};
    ghost use Rattle.mg_query.specs.declared.error.PageError.TheVariants.{NoUsableIndex as none_usable};

    ghost from_gives = { λ _ e. e ≡ none_usable };

    fn from(_none: NoUsableIndex) -> PageError {
        PageError::NoUsableIndex
    }
}
