ghost use Rattle.std.specs.Prelude.{◌≡◌, is_ok};
ghost use Rattle.mg_shard.specs.Edits.{outcome_view};

use mg_revtree::Rev;

/// The outcome of an edit of a bulk.
#[derive(Debug, Drop)]
pub enum EditReply {
    /// The edit was applied, or its path is known whole. Holds the edit's revision: for a replica's path, the newest one.
    Done(Rev),
    /// The named revision is not a leaf; or none is named, but the winner is not deleted; or the revision that the edit makes is
    /// already known.
    Conflict,
    /// The path gives a known revision a parent other than the known one, or the extended leaf has the last position, 4,294,967,295.
    BadHistory,
}

impl EditReply {
    /// Whether the edit was done. Takes no memory.
    pub fn is_done(&self) -> bool
        ensures { result ≡ is_ok (outcome_view self.now) }
    {
        matches!(self, EditReply::Done(_))
    }
}
