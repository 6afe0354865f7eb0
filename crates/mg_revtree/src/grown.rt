//! Trees as lists of known revisions and of leaves. A tree that has had several leaves is kept as lists. Any other tree is put into
//! lists while it accepts a run, unless the run is one revision and the tree had none.
ghost use Rattle.std.specs.Prelude.{◌≡◌, ◌+◌, ◌<◌, ◌≤◌, [], ◌∷◌, IfOk, IfSome, OnErr, OnOk, length, map, string_bytes};
ghost use Rattle.mg_revtree.specs.Revision.{run_from};
ghost use Rattle.mg_revtree.specs.Body.{IsFormOf};
ghost use Rattle.mg_revtree.specs.History.{Paths, first_of, links};
ghost use Rattle.mg_revtree.specs.Growth.{first_tree, line_tree};
ghost use Rattle.mg_revtree.specs.Tree.{AreKnownLinks, StandsFor};
ghost use Rattle.mg_revtree.specs.Changes.{found_of, path_of, with_path};

use crate::body::Body;
use crate::capacity::reserve;
use crate::error::Merged;
use crate::form::Form;
use crate::leaf::{Leaf, SharedLeaf};
use crate::leaf_list::{add_leaf, copy_leaves, unleaf};
use crate::links::KnownLinks;
use crate::rev_id::RevId;
use crate::revision::Rev;
use mg_value::NoMemory;
use std::alloc::Global;
use std::marker::Model;
use std::{mem, slice};

/// The known revisions of a tree, and its leaves, best first.
#[derive(Drop)]
pub(crate) struct Grown {
    pub(crate) links: KnownLinks,
    pub(crate) leaves: Vec<SharedLeaf>,
}

impl Model for Grown {
    ghost use Rattle.mg_revtree.specs.Tree.{Tree, tree_code};

    ghost Value = { Tree };

    ghost coded = { tree_code };

    ghost view = { λ t. record { links = t.links; leaves = t.leaves.items } };
}

impl Grown {
    /// Makes lists without revisions. Takes no memory.
    pub fn new(alloc: Global) -> Grown
        ensures { StandsFor result [] }
    {
        Grown {
            links: KnownLinks::new(alloc),
            leaves: Vec::new(alloc),
        }
    }

    /// Makes the lists of a tree of one revision. Errors: `NoMemory` if an allocation fails, if the id takes more than 4,294,967,295
    /// bytes, or if there are too many references to the leaf.
    pub fn of_first(alloc: Global, first: &SharedLeaf) -> Result<Grown, NoMemory>
        ensures { IfOk result
            (λ grown. (h : Paths) → StandsFor (first_tree first.now) h → StandsFor grown h) }
    {
        let links = links_of_first(alloc, &first.leaf().rev)?;
        let leaves = list_of_leaf(alloc, first)?;
        Ok(Grown { links, leaves })
    }

    /// Makes the lists of a tree of one leaf with these known revisions. Errors and cost: as for `KnownLinks::copy`; also `NoMemory` if
    /// there are too many references to the leaf.
    pub fn of_line(alloc: Global, leaf: &SharedLeaf, known: &KnownLinks) -> Result<Grown, NoMemory>
        ensures { IfOk result (λ grown. grown ≡ line_tree known.now leaf.now) }
    {
        Ok(Grown {
            links: known.copy(alloc)?,
            leaves: list_of_leaf(alloc, leaf)?,
        })
    }

    /// Makes lists of this leaf and no known revision. `exchange` then gives them the known revisions. Errors: `NoMemory` if an
    /// allocation fails, or if there are too many references to the leaf.
    pub fn without_links(alloc: Global, leaf: &SharedLeaf) -> Result<Grown, NoMemory>
        ensures { IfOk result (λ grown. grown ≡ line_tree [] leaf.now) }
    {
        Ok(Grown {
            links: KnownLinks::new(alloc),
            leaves: list_of_leaf(alloc, leaf)?,
        })
    }

    /// Swaps the known revisions of these lists with `known`. Takes no memory.
    pub fn exchange(&mut self, known: &mut KnownLinks)
        ensures given { self.new ≡ record self.old { links = known.old } }
        ensures taken { known.new ≡ self.old.links }
    {
        mem::swap(&mut self.links, known);
    }

    /// Moves the winner's body into the block of `form`, as `SharedLeaf::move_into` does. Changes nothing in lists without leaves. Takes
    /// no memory.
    pub fn move_body_into(&mut self, form: Form)
        requires { IfSome (first_of self.old.leaves) (λ l. IsFormOf l.body form) }
        ensures { self.new ≡ self.old }
    {
        if self.leaves.is_empty() {
            return;
        }
        let winner = &mut self.leaves[0];
        winner.move_into(form);
    }

    /// Makes a copy that shares the leaves, their bodies, and the older known revisions. Errors and cost: as for `RevTree::copy`.
    pub fn copy(&self, alloc: Global) -> Result<Grown, NoMemory>
        ensures { IfOk result (λ grown. grown ≡ self.now) }
    {
        Ok(Grown {
            links: self.links.copy(alloc)?,
            leaves: copy_leaves(alloc, &self.leaves)?,
        })
    }

    /// Accepts a run that fits, given by its start and its ids, newest first. Returns whether the newest revision was new or known; if it
    /// was known, `deleted` and `body` are ignored. Errors: `NoMemory` if an allocation fails, or as for `KnownLinks::join`; the lists
    /// are then as they were.
    pub fn accept(
        &mut self,
        start: u32,
        ids: &[String],
        deleted: bool,
        body: Body,
    ) -> Result<Merged, NoMemory>
        requires some { 0 < length ids.now }
        requires run { length ids.now ≤ start + 1 }
        ensures accepted { OnOk result ((h : Paths) → StandsFor self.old h
            → StandsFor self.new
            (with_path h (path_of (run_from start (map string_bytes ids.now)) deleted body))) }
        ensures found { IfOk result
            (λ m. (h : Paths) → StandsFor self.old h
            → m ≡ found_of h (run_from start (map string_bytes ids.now))) }
        ensures err { OnErr result (self.new ≡ self.old) }
    {
        let alloc = *self.leaves.allocator();
        let id = &ids[0];
        let known = self.links.knows(start, id);
        let rev = Rev {
            pos: start,
            id: RevId::copy_of(alloc, id)?,
        };
        let leaf = SharedLeaf::new(alloc, Leaf { rev, deleted, body })?;
        reserve(&mut self.leaves, 1)?;
        self.links.join(start, ids)?;
        unleaf(&mut self.leaves, start, ids);
        if known {
            return Ok(Merged::Known);
        }
        add_leaf(&mut self.leaves, leaf);
        Ok(Merged::New)
    }
}

// Makes the known revisions of a tree of this revision alone. Errors: `NoMemory` if an allocation fails, or as for `KnownLinks::join`.
fn links_of_first(alloc: Global, rev: &Rev) -> Result<KnownLinks, NoMemory>
    ensures { IfOk result (λ known. AreKnownLinks known (links (rev.now ∷ []))) }
{
    let mut known = KnownLinks::new(alloc);
    let id = String::from_str(alloc, rev.id.as_str())?;
    known.join(rev.pos, slice::from_ref(&id))?;
    Ok(known)
}

/// Makes the list of this leaf alone, with capacity for one more. Errors: `NoMemory` if an allocation fails, or if there are too many
/// references to the leaf.
pub(crate) fn list_of_leaf(alloc: Global, first: &SharedLeaf) -> Result<Vec<SharedLeaf>, NoMemory>
    ensures { IfOk result (λ leaves. leaves.items ≡ first.now ∷ []) }
{
    let mut leaves = Vec::with_capacity(alloc, 2)?;
    leaves.push(first.share()?)?;
    Ok(leaves)
}

/// Takes the only leaf out of these lists, and frees the lists. Takes no memory.
pub(crate) fn only_leaf(grown: Box<Grown>) -> SharedLeaf
    requires { length grown.value.leaves ≡ 1 }
    ensures { grown.value.leaves ≡ result ∷ [] }
{
    let Grown {
        links: _,
        mut leaves,
    } = Box::into_inner(grown);
    leaves.swap_remove(0)
}
