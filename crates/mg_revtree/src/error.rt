use mg_value::NoMemory;
use thiserror::Error;

/// Why a text was not read as a revision.
#[derive(Clone, Copy, PartialEq, Eq, Debug, Drop, Error)]
pub enum RevError {
    /// The text is not a revision.
    #[error("invalid revision")]
    Bad,
    /// An allocation failed.
    #[error("out of memory")]
    NoMemory,
}

impl From<NoMemory> for RevError {
    ghost use Rattle.std.specs.Prelude.{◌≡◌};
    ghost use Rattle.mg_revtree.specs.declared.error.RevError.TheVariants.{NoMemory as want};

    ghost from_gives = { λ _ e. e ≡ want };

    fn from(_refused: NoMemory) -> RevError {
        RevError::NoMemory
    }
}

/// Whether a merge found the newest revision of its path new or known.
#[derive(Clone, Copy, PartialEq, Eq, Debug, Drop)]
pub enum Merged {
    /// The tree did not know the revision.
    New,
    /// The tree knew the revision, and ignores the given mark and body.
    Known,
}

/// Why a path was not merged.
#[derive(Clone, Copy, PartialEq, Eq, Debug, Drop, Error)]
pub enum MergeError {
    /// The path gives a known revision a parent other than the known one.
    #[error("revision history does not fit the document")]
    BadHistory,
    /// An allocation failed, or a limit was reached: `RevTree::merge_with` lists the limits.
    #[error("out of memory")]
    NoMemory,
}

impl From<NoMemory> for MergeError {
    ghost use Rattle.std.specs.Prelude.{◌≡◌};
    ghost use Rattle.mg_revtree.specs.declared.error.MergeError.TheVariants.{NoMemory as want};

    ghost from_gives = { λ _ e. e ≡ want };

    fn from(_refused: NoMemory) -> MergeError {
        MergeError::NoMemory
    }
}

/// Why a new revision is not made.
#[derive(Clone, Copy, PartialEq, Eq, Debug, Drop)]
pub enum TreeRefusal {
    /// The revision to extend is not a leaf; or no revision is named, but the tree has leaves.
    NotLeaf,
    /// The revision to extend has the last position, 4,294,967,295.
    Full,
    /// The new revision is already known.
    Known,
}

/// Why a new revision was not made: a refusal, or lack of memory.
#[derive(Clone, Copy, PartialEq, Eq, Debug, Drop, Error)]
pub enum TreeError {
    /// The revision to extend is not a leaf; or no revision is named, but the tree has leaves.
    #[error("the revision is not a leaf")]
    NotLeaf,
    /// The revision to extend has the last position, 4,294,967,295.
    #[error("the revision has the last position")]
    Full,
    /// The new revision is already known.
    #[error("the new revision is known")]
    Known,
    /// An allocation failed, or a limit was reached: `RevTree::merge_with` lists the limits.
    #[error("out of memory")]
    NoMemory,
}

impl From<NoMemory> for TreeError {
    ghost use Rattle.std.specs.Prelude.{◌≡◌};
    ghost use Rattle.mg_revtree.specs.declared.error.TreeError.TheVariants.{NoMemory as want};

    ghost from_gives = { λ _ e. e ≡ want };

    fn from(_refused: NoMemory) -> TreeError {
        TreeError::NoMemory
    }
}

impl From<TreeRefusal> for TreeError {
    ghost use Rattle.std.specs.Prelude.{◌≡◌};
    ghost use Rattle.mg_revtree.specs.Changes.{error_of};

    ghost from_gives = { λ refusal e. e ≡ error_of refusal };

    fn from(refusal: TreeRefusal) -> TreeError {
        match refusal {
            TreeRefusal::NotLeaf => TreeError::NotLeaf,
            TreeRefusal::Full => TreeError::Full,
            TreeRefusal::Known => TreeError::Known,
        }
    }
}
