use crate::refusal::Refusal;
use mg_doc::DocError;
use mg_index::IndexError;
use mg_query::{PageError, QueryError};
use mg_value::NoMemory;
use std::alloc::{AllocError, AllocFailed};

/// Why a body was not read, or why a query has no page or explanation: the request is refused, or an allocation failed.
#[derive(Clone, Copy, PartialEq, Eq, Debug, Drop)]
pub(crate) enum Fault {
    Refused(Refusal),
    NoMemory,
}

impl From<NoMemory> for Fault {
    ghost use Rattle.std.specs.Prelude.{◌≡◌};
    ghost use Rattle.mg_engine.specs.declared.fault.Fault.TheVariants.{NoMemory as want};

    ghost from_gives = { λ _ e. e ≡ want };

    fn from(_refused: NoMemory) -> Fault {
        Fault::NoMemory
    }
}

impl From<AllocError> for Fault {
    ghost use Rattle.std.specs.Prelude.{◌≡◌};
    ghost use Rattle.mg_engine.specs.declared.fault.Fault.TheVariants.{NoMemory as want};

    ghost from_gives = { λ _ e. e ≡ want };

    fn from(_refused: AllocError) -> Fault {
        Fault::NoMemory
    }
}

impl<T: Drop> From<AllocFailed<T>> for Fault {
    ghost use Rattle.std.specs.Prelude.{◌≡◌};
    ghost use Rattle.mg_engine.specs.declared.fault.Fault.TheVariants.{NoMemory as want};

    ghost from_gives = { λ _ e. e ≡ want };

    fn from(_refused: AllocFailed<T>) -> Fault {
        Fault::NoMemory
    }
}

impl From<DocError> for Fault {
    ghost use Rattle.std.specs.Prelude.{◌≡◌};
    ghost use Rattle.mg_engine.specs.Bulk.{refusal_of_document};
    ghost use Rattle.mg_engine.specs.Faults.{fault_of};

    ghost from_gives = { λ d e. e ≡ fault_of (refusal_of_document d) };

    fn from(fault: DocError) -> Fault {
        match fault {
            DocError::BadMember => Fault::Refused(Refusal::BadMember),
            DocError::BadId => Fault::Refused(Refusal::BadId),
            DocError::BadRev => Fault::Refused(Refusal::BadRev),
            DocError::NoMemory => Fault::NoMemory,
        }
    }
}

impl From<QueryError> for Fault {
    ghost use Rattle.std.specs.Prelude.{◌≡◌};
    ghost use Rattle.mg_engine.specs.Commands.{refusal_of_query};
    ghost use Rattle.mg_engine.specs.Faults.{fault_of};

    ghost from_gives = { λ q e. e ≡ fault_of (refusal_of_query q) };

    fn from(fault: QueryError) -> Fault {
        match fault {
            QueryError::Shape => Fault::Refused(Refusal::WrongShape),
            QueryError::InvalidOperator => Fault::Refused(Refusal::InvalidOperator),
            QueryError::BadArg => Fault::Refused(Refusal::BadArg),
            QueryError::BadBookmark => Fault::Refused(Refusal::BadBookmark),
            QueryError::MixedSort => Fault::Refused(Refusal::MixedSort),
            QueryError::NoMemory => Fault::NoMemory,
        }
    }
}

impl From<IndexError> for Fault {
    ghost use Rattle.std.specs.Prelude.{◌≡◌};
    ghost use Rattle.mg_engine.specs.Commands.{refusal_of_index};
    ghost use Rattle.mg_engine.specs.Faults.{fault_of};

    ghost from_gives = { λ i e. e ≡ fault_of (refusal_of_index i) };

    fn from(fault: IndexError) -> Fault {
        match fault {
            IndexError::Shape => Fault::Refused(Refusal::WrongShape),
            IndexError::Mixed => Fault::Refused(Refusal::MixedSort),
            IndexError::NoMemory => Fault::NoMemory,
        }
    }
}

impl From<PageError> for Fault {
    ghost use Rattle.std.specs.Prelude.{◌≡◌};
    ghost use Rattle.mg_engine.specs.Faults.{fault_of, refusal_of_page};

    ghost from_gives = { λ p e. e ≡ fault_of (refusal_of_page p) };

    fn from(fault: PageError) -> Fault {
        match fault {
            PageError::NoUsableIndex => Fault::Refused(Refusal::NoUsableIndex),
            PageError::BadBookmark => Fault::Refused(Refusal::BadBookmark),
            PageError::NoMemory => Fault::NoMemory,
        }
    }
}
