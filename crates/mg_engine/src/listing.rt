//! Ranges of ids.
ghost use Rattle.std.specs.Prelude.{◌≡◌};
ghost use Rattle.mg_engine.specs.Listing.{direction_of};
ghost use Rattle.mg_engine.specs.QuestionView.{listing_view};

use mg_collate::Direction;

/// Which rows of `_all_docs` are asked for.
#[derive(Debug, Drop)]
pub struct Listing {
    /// The id with which the range begins, in its order; `None` if it begins with the first of all.
    pub start: Option<String>,
    /// The id with which it ends; `None` if it ends with the last of all.
    pub last: Option<String>,
    /// Whether the last id belongs to the range.
    pub with_last: bool,
    /// Whether the rows come in the reverse order of their ids.
    pub descending: bool,
    /// How many rows are shown at most, up to 2,147,483,647.
    pub limit: u32,
    /// How many rows are skipped, up to 2,147,483,647.
    pub skip: u32,
    /// Whether a row has the document.
    pub documents: bool,
    /// Whether the document has its conflicts.
    pub conflicts: bool,
}

impl Listing {
    /// Returns the direction of the range.
    pub(crate) fn direction(&self) -> Direction
        ensures { result ≡ direction_of (listing_view self.now) }
    {
        if self.descending {
            Direction::Desc
        } else {
            Direction::Asc
        }
    }
}
