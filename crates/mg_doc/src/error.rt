use mg_revtree::{MergeError, RevError, TreeError, TreeRefusal};
use mg_value::NoMemory;
use std::alloc::{AllocError, AllocFailed};
use thiserror::Error;

/// Why a document of a bulk was not read.
#[derive(Clone, Copy, PartialEq, Eq, Debug, Drop, Error)]
pub enum DocError {
    /// A member with a reserved name that no document may have, or a `_deleted` that is not true or false.
    #[error("Bad special document member.")]
    BadMember,
    /// The `_id` is not a text, is empty, or begins with an underscore.
    #[error("Bad document id.")]
    BadId,
    /// `_rev` or `_revisions` is malformed, or a replica gives neither.
    #[error("Invalid rev format.")]
    BadRev,
    /// An allocation failed.
    #[error("out of memory")]
    NoMemory,
}

/// Why an edit is refused.
#[derive(Clone, Copy, PartialEq, Eq, Debug, Drop, Error)]
pub enum EditRefusal {
    /// The named revision is not a leaf; or none is named, but the winner is not deleted; or the revision that the edit makes is
    /// already known.
    #[error("Document update conflict.")]
    Conflict,
    /// The path gives a known revision a parent other than the known one, or the extended leaf has the last position.
    #[error("Revision history does not fit the document.")]
    BadHistory,
}

/// Why an edit was not applied.
#[derive(Clone, Copy, PartialEq, Eq, Debug, Drop, Error)]
pub enum EditError {
    /// The named revision is not a leaf; or none is named, but the winner is not deleted; or the revision that the edit makes is
    /// already known.
    #[error("Document update conflict.")]
    Conflict,
    /// The path gives a known revision a parent other than the known one, or the extended leaf has the last position.
    #[error("Revision history does not fit the document.")]
    BadHistory,
    /// An allocation failed, or a limit of the revision tree was reached: `RevTree::merge_with` lists the limits.
    #[error("out of memory")]
    NoMemory,
}

impl From<RevError> for DocError {
    ghost use Rattle.std.specs.Prelude.{◌≡◌};
    ghost use Rattle.mg_doc.specs.Document.{fault_of_rev};

    ghost from_gives = { λ error fault. fault ≡ fault_of_rev error };

    fn from(error: RevError) -> DocError {
        match error {
            RevError::Bad => DocError::BadRev,
            RevError::NoMemory => DocError::NoMemory,
        }
    }
}

impl<T: Drop> From<AllocFailed<T>> for DocError {
    ghost use Rattle.std.specs.Prelude.{◌≡◌};
    ghost use Rattle.mg_doc.specs.declared.error.DocError.TheVariants.{NoMemory as refused};

    ghost from_gives = { λ _ error. error ≡ refused };

    fn from(_refused: AllocFailed<T>) -> DocError {
        DocError::NoMemory
    }
}

impl From<AllocError> for DocError {
    ghost use Rattle.std.specs.Prelude.{◌≡◌};
    ghost use Rattle.mg_doc.specs.declared.error.DocError.TheVariants.{NoMemory as refused};

    ghost from_gives = { λ _ error. error ≡ refused };

    fn from(_refused: AllocError) -> DocError {
        DocError::NoMemory
    }
}

impl From<NoMemory> for DocError {
    ghost use Rattle.std.specs.Prelude.{◌≡◌};
    ghost use Rattle.mg_doc.specs.declared.error.DocError.TheVariants.{NoMemory as refused};

    ghost from_gives = { λ _ error. error ≡ refused };

    fn from(_refused: NoMemory) -> DocError {
        DocError::NoMemory
    }
}

impl From<NoMemory> for EditError {
    ghost use Rattle.std.specs.Prelude.{◌≡◌};
    ghost use Rattle.mg_doc.specs.declared.error.EditError.TheVariants.{NoMemory as refused};

    ghost from_gives = { λ _ error. error ≡ refused };

    fn from(_refused: NoMemory) -> EditError {
        EditError::NoMemory
    }
}

impl From<AllocError> for EditError {
    ghost use Rattle.std.specs.Prelude.{◌≡◌};
    ghost use Rattle.mg_doc.specs.declared.error.EditError.TheVariants.{NoMemory as refused};

    ghost from_gives = { λ _ error. error ≡ refused };

    fn from(_refused: AllocError) -> EditError {
        EditError::NoMemory
    }
}

impl From<TreeRefusal> for EditRefusal {
    ghost use Rattle.std.specs.Prelude.{◌≡◌};
    ghost use Rattle.mg_doc.specs.Edit.{refused_by};

    ghost from_gives = { λ refusal refused. refused ≡ refused_by refusal };

    fn from(refusal: TreeRefusal) -> EditRefusal {
        match refusal {
            TreeRefusal::NotLeaf | TreeRefusal::Known => EditRefusal::Conflict,
            TreeRefusal::Full => EditRefusal::BadHistory,
        }
    }
}

impl From<EditRefusal> for EditError {
    ghost use Rattle.std.specs.Prelude.{◌≡◌};
    ghost use Rattle.mg_doc.specs.Applied.{error_of};

    ghost from_gives = { λ refused error. error ≡ error_of refused };

    fn from(refused: EditRefusal) -> EditError {
        match refused {
            EditRefusal::Conflict => EditError::Conflict,
            EditRefusal::BadHistory => EditError::BadHistory,
        }
    }
}

impl From<MergeError> for EditError {
    ghost use Rattle.std.specs.Prelude.{◌≡◌};
    ghost use Rattle.mg_doc.specs.Conversions.{error_of_merge};

    ghost from_gives = { λ error refused. refused ≡ error_of_merge error };

    fn from(error: MergeError) -> EditError {
        match error {
            MergeError::BadHistory => EditError::BadHistory,
            MergeError::NoMemory => EditError::NoMemory,
        }
    }
}

impl From<TreeError> for EditError {
    ghost use Rattle.std.specs.Prelude.{◌≡◌};
    ghost use Rattle.mg_doc.specs.Conversions.{error_of_tree};

    ghost from_gives = { λ error refused. refused ≡ error_of_tree error };

    fn from(error: TreeError) -> EditError {
        match error {
            TreeError::NotLeaf | TreeError::Known => EditError::Conflict,
            TreeError::Full => EditError::BadHistory,
            TreeError::NoMemory => EditError::NoMemory,
        }
    }
}
