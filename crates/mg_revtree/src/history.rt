ghost use Rattle.std.specs.Prelude.{◌≡◌, ◌<◌, ◌≤◌, IfOk, Some, length, map, option_copied, string_bytes};
ghost use Rattle.std.specs.List.{list_all};
ghost use Rattle.mg_revtree.specs.Revision.{is_revision_id, run_from, run_of};
ghost use Rattle.mg_revtree.specs.History.{newest_of};
ghost use Rattle.mg_revtree.specs.Steps.{ids_over};

use crate::rev_id::RevId;
use crate::revision::{Rev, is_rev_id};
use mg_value::{NoMemory, copy_texts};
use std::alloc::Global;
use std::marker::Model;

/// A path as a replica sends it: revisions, newest first, each one position below the one before it.
/// Contracts see the list of those revisions.
#[derive(Debug, Drop)]
pub struct History {
    start: u32,
    ids: Vec<String>,
}

impl Model for History {
    ghost use Rattle.std.specs.Prelude.{◌<◌, ◌≤◌, List, length, map, string_bytes};
    ghost use Rattle.mg_revtree.specs.Revision.{Revision, run_from};

    ghost Value = { List Revision };

    ghost view = { λ h. run_from h.start (map string_bytes h.ids.items) };

    ghost invariant = { λ h. (0 < length h.ids.items) × (length h.ids.items ≤ h.start) };
}

impl History {
    /// Makes the path whose newest revision has position `start` and the first id. `None` unless there are 1 to `start` ids, each the id
    /// of a revision. Takes no memory. Cost: the length of the ids. Source: `_revisions` of CouchDB's API reference.
    pub fn new(start: u32, ids: Vec<String>) -> Option<History>
        ensures { result ≡ run_of start (map string_bytes ids.items) }
    {
        if ids.is_empty() || ids.len() > start as usize || !are_ids(&ids) {
            return None;
        }
        Some(History { start, ids })
    }

    /// Copies the newest revision. Takes no memory if its id has 32 bytes. Errors: `NoMemory` if an allocation fails.
    pub fn newest(&self) -> Result<Rev, NoMemory>
        ensures { IfOk result (λ rev. newest_of self.now ≡ Some rev) }
    {
        Ok(Rev {
            pos: self.start,
            id: RevId::copy_of(*self.ids.allocator(), &self.ids[0])?,
        })
    }

    /// Turns the path into its newest revision. Takes no memory.
    pub fn into_newest(self) -> Rev
        ensures { newest_of self ≡ Some result }
    {
        let History { start, mut ids } = self;
        Rev {
            pos: start,
            id: RevId::of(ids.swap_remove(0)),
        }
    }

    /// Copies the path. Errors: `NoMemory` if an allocation fails. Cost: the length of its ids.
    pub fn copy(&self, alloc: Global) -> Result<History, NoMemory>
        ensures { IfOk result (λ path. path ≡ self.now) }
    {
        let ids = copy_texts(alloc, &self.ids)?;
        Ok(History {
            start: self.start,
            ids,
        })
    }

    /// Returns the position of the newest revision, and the ids, newest first.
    pub(crate) fn run(&self) -> (u32, &[String])
        ensures run { self.now ≡ run_from result.0 (map string_bytes result.1.now) }
        ensures some { 0 < length result.1.now }
        ensures len { length result.1.now ≤ result.0 }
    {
        (self.start, self.ids.as_slice())
    }
}

// Whether each text is the id of a revision.
fn are_ids(ids: &[String]) -> bool
    ensures { result ≡ list_all (λ id. is_revision_id (string_bytes id)) ids.now }
{
    ids.iter().all(|id| is_rev_id(id))
}

/// Lists the ids of a new revision and of its parent, if there is one. Errors: `NoMemory` if an allocation fails.
pub(crate) fn ids_over(
    alloc: Global,
    id: String,
    parent: Option<&Rev>,
) -> Result<Vec<String>, NoMemory>
    ensures { IfOk result
        (λ ids. map string_bytes ids.items ≡ ids_over (string_bytes id) (option_copied parent.entry)) }
{
    let mut ids = Vec::with_capacity(alloc, 2)?;
    ids.push(id)?;
    if let Some(parent) = parent {
        ids.push(String::from_str(alloc, parent.id.as_str())?)?;
    }
    Ok(ids)
}
