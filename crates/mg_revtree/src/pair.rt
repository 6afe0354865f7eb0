//! Trees of a leaf and its parent, which has no known parent.
ghost use Rattle.std.specs.Prelude.{◌≡◌, ◌<◌, List, IfOk, IfSome, is_some, map, string_bytes};
ghost use Rattle.mg_revtree.specs.Revision.{run_from};
ghost use Rattle.mg_revtree.specs.Body.{IsFormOf};
ghost use Rattle.mg_revtree.specs.History.{Link, are_known_whole, first_of, fit, links};
ghost use Rattle.mg_revtree.specs.Growth.{line_tree};
ghost use Rattle.mg_revtree.specs.Pair.{pair_links};
ghost use Rattle.mg_revtree.specs.Tree.{AreKnownLinks, find};

use crate::form::Form;
use crate::grown::{Grown, list_of_leaf};
use crate::leaf::SharedLeaf;
use crate::links::{KnownLinks, LookUp, all_agree, all_known};
use crate::rev_id::inline_bytes;
use crate::revision::Rev;
use mg_value::NoMemory;
use std::alloc::Global;
use std::marker::Model;
use std::slice;

/// A leaf and the id of its parent: the tree of a document that was edited or deleted once. The parent is at the position below, and has
/// no known parent. Its id has exactly 32 bytes and is stored in the value itself, so the parent has no block; a tree whose parent has an
/// id of another length is kept as a line. Contracts see the tree.
#[derive(Drop)]
pub(crate) struct Pair {
    leaf: SharedLeaf,
    parent: [u8; 32],
}

impl Model for Pair {
    ghost use Rattle.std.specs.Prelude.{◌<◌};
    ghost use Rattle.mg_revtree.specs.Pair.{pair_tree};
    ghost use Rattle.mg_revtree.specs.Tree.{Tree, tree_code};

    ghost Value = { Tree };

    ghost coded = { tree_code };

    ghost view = { λ p. pair_tree p.leaf p.parent };

    ghost invariant = { λ p. 0 < p.leaf.rev.0 };
}

impl Pair {
    /// Makes the pair of a leaf and its parent. `None` unless exactly these two revisions are known, both in the newer list, and the
    /// parent's id has 32 bytes. Takes no memory. Errors: `NoMemory` if there are too many references to the leaf.
    pub fn of(leaf: &SharedLeaf, known: &KnownLinks) -> Result<Option<Pair>, NoMemory>
        ensures { IfOk result (λ found. IfSome found (λ pair. pair ≡ line_tree known.now leaf.now)) }
    {
        match parent_of(&leaf.leaf().rev, known) {
            Some(parent) => Ok(Some(Pair {
                leaf: leaf.share()?,
                parent,
            })),
            None => Ok(None),
        }
    }

    /// Returns the leaf as a list of one. Takes no memory.
    pub fn leaves(&self) -> &[SharedLeaf]
        ensures { result.now ≡ self.now.leaves }
    {
        slice::from_ref(&self.leaf)
    }

    /// Whether a revision is known. Takes no memory.
    pub fn knows(&self, pos: u32, id: &String) -> bool
        ensures { result ≡ is_some (find (pos, string_bytes id.now) self.now.links) }
    {
        self.look_up_parent(pos, id.as_bytes()).is_some()
    }

    /// Whether a run, given by its start and its ids, newest first, fits: if it gives the leaf a parent, that is the known one. Only the
    /// leaf has a known parent. Takes no memory. Cost: the length of the run.
    pub fn fits(&self, start: u32, ids: &[String]) -> bool
        ensures { (ls : List Link) → AreKnownLinks self.now.links ls
            → result ≡ fit ls (links (run_from start (map string_bytes ids.now))) }
    {
        all_agree(self, start, ids)
    }

    /// Whether all revisions of a run, given by its start and its ids, newest first, are known with the parents that the run
    /// gives them. Takes no memory. Cost: the length of the run.
    pub fn knows_whole(&self, start: u32, ids: &[String]) -> bool
        ensures { (ls : List Link) → AreKnownLinks self.now.links ls
            → result ≡ are_known_whole ls (links (run_from start (map string_bytes ids.now))) }
    {
        all_known(self, start, ids)
    }

    /// Moves the leaf's body into the block of `form`, as `SharedLeaf::move_into` does. Takes no memory.
    pub fn move_body_into(&mut self, form: Form)
        requires { IfSome (first_of self.old.leaves) (λ l. IsFormOf l.body form) }
        ensures { self.new ≡ self.old }
    {
        self.leaf.move_into(form);
    }

    /// Makes a copy that shares the leaf and its body. Takes no memory. Errors: `NoMemory` if there are too many references to the leaf.
    pub fn copy(&self) -> Result<Pair, NoMemory>
        ensures { IfOk result (λ pair. pair ≡ self.now) }
    {
        Ok(Pair {
            leaf: self.leaf.share()?,
            parent: self.parent,
        })
    }

    /// Copies the pair into lists. Errors: `NoMemory` if an allocation fails, if the ids take more than 4,294,967,295 bytes, or if there
    /// are too many references to the leaf.
    pub fn in_lists(&self, alloc: Global) -> Result<Grown, NoMemory>
        ensures { IfOk result (λ grown. grown ≡ self.now) }
    {
        let links = KnownLinks::of_pair(alloc, &self.leaf.leaf().rev, self.parent.as_slice())?;
        let leaves = list_of_leaf(alloc, &self.leaf)?;
        Ok(Grown { links, leaves })
    }
}

impl LookUp for Pair {
    ghost known_links = { λ pair. pair.links };

    fn look_up_parent(&self, pos: u32, id: &[u8]) -> Option<Option<&[u8]>> {
        let rev = &self.leaf.leaf().rev;
        let parent = self.parent.as_slice();
        let below = rev.pos.saturating_sub(1);
        if pos.cmp(&below).then(id.cmp(parent)).is_eq() {
            return Some(None);
        }
        if rev.is(pos, id) {
            return Some(Some(parent));
        }
        None
    }
}

// Finds the id of a revision's parent. `None` unless exactly these two revisions are known, both in the newer list, and the parent's id
// has 32 bytes.
fn parent_of(rev: &Rev, known: &KnownLinks) -> Option<[u8; 32]>
    ensures { IfSome result (λ parent. (0 < rev.now.0) × (known.now ≡ pair_links rev.now parent)) }
{
    match known.parent_in_pair(rev) {
        Some(id) => inline_bytes(id),
        None => None,
    }
}
