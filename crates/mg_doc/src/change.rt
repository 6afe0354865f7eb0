ghost use Rattle.std.specs.Prelude.{◌≡◌, IfOk, option_copied};

use mg_revtree::{History, Rev};
use mg_value::NoMemory;
use std::alloc::Global;

/// What an edit does to the revisions of its document.
#[derive(Debug, Drop)]
pub enum Change {
    /// A new revision is made. It extends the named one; if none is named, it extends a deleted winner or is the document's first.
    New(Option<Rev>),
    /// The path of a replica is accepted.
    Replica(History),
}

impl Change {
    // Copies the change. Errors: `NoMemory` if an allocation fails. Cost: the length of the named revision, or of the path.
    pub(crate) fn copy(&self, alloc: Global) -> Result<Change, NoMemory>
        ensures { IfOk result (λ change. change ≡ self.now) }
    {
        match self {
            Change::New(named) => Ok(Change::New(copy_named(alloc, named.as_ref())?)),
            Change::Replica(path) => Ok(Change::Replica(path.copy(alloc)?)),
        }
    }
}

// Copies the named revision, if there is one. Errors: `NoMemory` if an allocation fails.
fn copy_named(alloc: Global, named: Option<&Rev>) -> Result<Option<Rev>, NoMemory>
    ensures { IfOk result (λ copy. copy ≡ option_copied named.entry) }
{
    match named {
        Some(rev) => Ok(Some(rev.copy(alloc)?)),
        None => Ok(None),
    }
}
