//! The ways in which a revision tree is kept, from the smallest tree to the largest.
ghost use Rattle.std.specs.Prelude.{◌≡◌, ◌<◌, ◌≤◌, ◌+◌, List, IfOk, IfSome, OnErr, OnOk, is_some, length, map, option_and_then, option_copied, option_map, string_bytes};
ghost use Rattle.mg_revtree.specs.Revision.{run_from};
ghost use Rattle.mg_revtree.specs.Body.{IsFormOf};
ghost use Rattle.mg_revtree.specs.History.{Paths, Link, are_known_whole, first_of, fit, links};
ghost use Rattle.mg_revtree.specs.Growth.{after_line, first_tree, is_empty, is_run_of, line_tree, tree_in};
ghost use Rattle.mg_revtree.specs.Known.{parent_below};
ghost use Rattle.mg_revtree.specs.Tree.{AreKnownLinks, AreSorted, StandsFor, find};
ghost use Rattle.mg_revtree.specs.Changes.{found_of, path_of, with_path};

use crate::body::Body;
use crate::error::Merged;
use crate::form::Form;
use crate::grown::{Grown, only_leaf};
use crate::leaf::{Leaf, SharedLeaf};
use crate::links::{KnownLinks, LookUp};
use crate::pair::Pair;
use crate::revision::Rev;
use mg_value::NoMemory;
use std::alloc::Global;
use std::slice;

/// How a tree is kept. Most documents have one revision, and their tree is one leaf. The tree of a document that was edited or deleted
/// once is its leaf and the id of the leaf's parent, if that id has 32 bytes.
#[derive(Drop)]
pub(crate) enum Growth {
    // no revision
    Empty,
    // one revision, which has no known parent and is the leaf
    First(SharedLeaf),
    // the leaf and its parent, which has no known parent
    Pair(Pair),
    // one leaf, and all known revisions: the tree of an edited document that never had a second leaf
    Line(SharedLeaf, Box<KnownLinks>),
    // all known revisions, and a list of the leaves
    Grown(Box<Grown>),
}

// Every document has a tree, so the size of this type counts. `Pair` is the largest case, since it holds the id of the parent in place: a
// block for that id would take more memory.
const _: () = prove!(size_of::<Growth>() == 48);

impl Growth {
    /// Returns the leaves, best first. Takes no memory.
    pub fn leaves(&self) -> &[SharedLeaf]
        ensures { result.now ≡ (tree_in self.now).leaves }
    {
        match self {
            Growth::Empty => &[],
            Growth::First(leaf) => slice::from_ref(leaf),
            Growth::Pair(pair) => pair.leaves(),
            Growth::Line(leaf, _) => slice::from_ref(leaf),
            Growth::Grown(grown) => &grown.leaves,
        }
    }

    /// Whether a revision is known. Takes no memory. Cost: the logarithm of the known revisions.
    pub fn knows(&self, pos: u32, id: &String) -> bool
        ensures { AreSorted (tree_in self.now).links
            → result ≡ is_some (find (pos, string_bytes id.now) (tree_in self.now).links) }
    {
        match self {
            Growth::Empty => false,
            Growth::First(leaf) => leaf.leaf().rev.is(pos, id.as_bytes()),
            Growth::Pair(pair) => pair.knows(pos, id),
            Growth::Line(_, known) => known.knows(pos, id),
            Growth::Grown(grown) => grown.links.knows(pos, id),
        }
    }

    /// Whether a run, given by its start and its ids, newest first, gives no known revision a parent other than the known one. Every run
    /// fits a tree of one revision or none, since no parent is known there. Takes no memory. Cost: the length of the run times the
    /// logarithm of the known revisions.
    pub fn fits(&self, start: u32, ids: &[String]) -> bool
        ensures { (ls : List Link) → AreKnownLinks (tree_in self.now).links ls
            → result ≡ fit ls (links (run_from start (map string_bytes ids.now))) }
    {
        match self {
            Growth::Empty => true,
            Growth::First(_) => true,
            Growth::Pair(pair) => pair.fits(start, ids),
            Growth::Line(_, known) => known.fits(start, ids),
            Growth::Grown(grown) => grown.links.fits(start, ids),
        }
    }

    /// Whether all revisions of a run, given by its start and its ids, newest first, are known with the parents that the run
    /// gives them. Cost: as for `fits`.
    pub fn knows_whole(&self, start: u32, ids: &[String]) -> bool
        requires { 0 < length ids.now }
        ensures { (ls : List Link) → AreKnownLinks (tree_in self.now).links ls
            → result ≡ are_known_whole ls (links (run_from start (map string_bytes ids.now))) }
    {
        match self {
            Growth::Empty => false,
            Growth::First(leaf) => is_run_of(&leaf.leaf().rev, start, ids),
            Growth::Pair(pair) => pair.knows_whole(start, ids),
            Growth::Line(_, known) => known.knows_whole(start, ids),
            Growth::Grown(grown) => grown.links.knows_whole(start, ids),
        }
    }

    /// Returns the id of a revision's parent, which is at the position below; `None` if no parent of the revision is known. Takes no memory.
    /// Cost: the logarithm of the known revisions.
    pub fn parent(&self, pos: u32, id: &[u8]) -> Option<&[u8]>
        ensures { parent_below pos (option_copied result)
            ≡ option_and_then (λ p. p) (find (pos, id.now) (tree_in self.now).links) }
    {
        match self {
            Growth::Empty => None,
            Growth::First(_) => None,
            Growth::Pair(pair) => pair.look_up_parent(pos, id).flatten(),
            Growth::Line(_, known) => known.look_up_parent(pos, id).flatten(),
            Growth::Grown(grown) => grown.links.look_up_parent(pos, id).flatten(),
        }
    }

    /// Moves the winner's body into the block of `form`, as `SharedLeaf::move_into` does. Changes nothing in an empty tree. Takes no
    /// memory.
    pub fn move_body_into(&mut self, form: Form)
        requires { IfSome (first_of (tree_in self.old).leaves) (λ l. IsFormOf l.body form) }
        ensures { tree_in self.new ≡ tree_in self.old }
    {
        match self {
            Growth::Empty => {}
            Growth::First(leaf) => leaf.move_into(form),
            Growth::Pair(pair) => pair.move_body_into(form),
            Growth::Line(leaf, _) => leaf.move_into(form),
            Growth::Grown(grown) => grown.move_body_into(form),
        }
    }

    /// Makes a copy that shares the leaves, their bodies, and the older known revisions. Errors and cost: as for `RevTree::copy`.
    pub fn copy(&self, alloc: Global) -> Result<Growth, NoMemory>
        ensures { IfOk result (λ made. tree_in made ≡ tree_in self.now) }
    {
        match self {
            Growth::Empty => Ok(Growth::Empty),
            Growth::First(leaf) => Ok(Growth::First(leaf.share()?)),
            Growth::Pair(pair) => Ok(Growth::Pair(pair.copy()?)),
            Growth::Line(leaf, known) => Ok(Growth::Line(leaf.share()?, copy_boxed(alloc, known)?)),
            Growth::Grown(grown) => Ok(Growth::Grown(Box::new(alloc, grown.copy(alloc)?)?)),
        }
    }

    /// Whether no revision is known.
    pub fn is_empty(&self) -> bool
        ensures { result ≡ is_empty self.now }
    {
        match self {
            Growth::Empty => true,
            _ => false,
        }
    }

    /// Makes a tree whose only revision is this one, without a known parent. Errors: `NoMemory` if an allocation fails.
    pub fn first(alloc: Global, rev: Rev, deleted: bool, body: Body) -> Result<Growth, NoMemory>
        ensures { IfOk result
            (λ made. tree_in made ≡ first_tree
            (record { rev = rev; deleted = deleted; body = body })) }
    {
        let leaf = SharedLeaf::new(alloc, Leaf { rev, deleted, body })?;
        Ok(Growth::First(leaf))
    }

    /// Accepts a run that fits, given by its start and its ids, newest first. The tree is then a pair or a line if it has one leaf and
    /// never had more; otherwise it is `Grown`. Returns whether the newest revision of the run was new or known. Errors: `NoMemory`, as
    /// for `RevTree::merge_with`; the tree is then as it was.
    pub fn accept(
        &mut self,
        alloc: Global,
        start: u32,
        ids: &[String],
        deleted: bool,
        body: Body,
    ) -> Result<Merged, NoMemory>
        requires some { 0 < length ids.now }
        requires run { length ids.now ≤ start + 1 }
        ensures accepted { OnOk result ((h : Paths) → StandsFor (tree_in self.old) h
            → StandsFor (tree_in self.new)
            (with_path h (path_of (run_from start (map string_bytes ids.now)) deleted body))) }
        ensures found { IfOk result
            (λ m. (h : Paths) → StandsFor (tree_in self.old) h
            → m ≡ found_of h (run_from start (map string_bytes ids.now))) }
        ensures err { OnErr result (tree_in self.new ≡ tree_in self.old) }
    {
        match self {
            Growth::Grown(grown) => grown.accept(start, ids, deleted, body),
            Growth::Line(leaf, known) => {
                let (merged, grown) = accept_on_line(
                    alloc, leaf, known, start, ids, deleted, body,
                )?;
                match grown {
                    Some(grown) => *self = Growth::Grown(grown),
                    None => {}
                }
                Ok(merged)
            }
            _ => {
                let (growth, merged) = self.accept_in_copy(alloc, start, ids, deleted, body)?;
                *self = growth;
                Ok(merged)
            }
        }
    }

    // Makes a copy that has accepted a run, and returns what `accept` does. Errors: `NoMemory`, as for `RevTree::merge_with`.
    fn accept_in_copy(
        &self,
        alloc: Global,
        start: u32,
        ids: &[String],
        deleted: bool,
        body: Body,
    ) -> Result<(Growth, Merged), NoMemory>
        requires some { 0 < length ids.now }
        requires run { length ids.now ≤ start + 1 }
        ensures accepted { IfOk result (λ r. (h : Paths) → StandsFor (tree_in self.now) h
            → StandsFor (tree_in r.0)
            (with_path h (path_of (run_from start (map string_bytes ids.now)) deleted body))) }
        ensures found { IfOk result (λ r. (h : Paths) → StandsFor (tree_in self.now) h
            → r.1 ≡ found_of h (run_from start (map string_bytes ids.now))) }
    {
        let mut grown = self.in_lists(alloc)?;
        let merged = grown.accept(start, ids, deleted, body)?;
        let growth = growth_of(alloc, grown)?;
        Ok((growth, merged))
    }

    // Copies the tree into lists, in which any tree can be kept. Errors: `NoMemory` if an allocation fails, if the ids take more than
    // 4,294,967,295 bytes, or if there are too many references to what is shared.
    fn in_lists(&self, alloc: Global) -> Result<Grown, NoMemory>
        ensures { IfOk result (λ grown. (h : Paths) → StandsFor (tree_in self.now) h → StandsFor grown h) }
    {
        match self {
            Growth::Empty => Ok(Grown::new(alloc)),
            Growth::First(leaf) => Grown::of_first(alloc, leaf),
            Growth::Pair(pair) => pair.in_lists(alloc),
            Growth::Line(leaf, known) => Grown::of_line(alloc, leaf, known),
            Growth::Grown(grown) => grown.copy(alloc),
        }
    }
}

// Copies known revisions into a box. Errors: `NoMemory` if an allocation fails, or as for `KnownLinks::copy`.
fn copy_boxed(alloc: Global, known: &KnownLinks) -> Result<Box<KnownLinks>, NoMemory>
    ensures { IfOk result (λ copy. copy.value ≡ known.now) }
{
    Ok(Box::new(alloc, known.copy(alloc)?)?)
}

// Keeps a tree of lists as a pair or a line if it has one leaf; else as `Grown`. Errors: `NoMemory` if an allocation fails, or if there
// are too many references to the leaf.
fn growth_of(alloc: Global, grown: Grown) -> Result<Growth, NoMemory>
    ensures { IfOk result (λ growth. tree_in growth ≡ grown) }
{
    if grown.leaves.len() != 1 {
        return Ok(Growth::Grown(Box::new(alloc, grown)?));
    }
    let Grown { links, mut leaves } = grown;
    let leaf = leaves.swap_remove(0);
    match Pair::of(&leaf, &links)? {
        Some(pair) => Ok(Growth::Pair(pair)),
        None => Ok(Growth::Line(leaf, Box::new(alloc, links)?)),
    }
}

// Accepts a run on a line, which is given by its leaf and all known revisions. If there are then several leaves, also returns the lists
// that replace the line; `known` is then empty. Errors: `NoMemory`, as for `RevTree::merge_with`; the line is then as it was.
fn accept_on_line(
    alloc: Global,
    leaf: &mut SharedLeaf,
    known: &mut KnownLinks,
    start: u32,
    ids: &[String],
    deleted: bool,
    body: Body,
) -> Result<(Merged, Option<Box<Grown>>), NoMemory>
    requires some { 0 < length ids.now }
    requires run { length ids.now ≤ start + 1 }
    ensures accepted { IfOk result (λ r. (h : Paths) → StandsFor (line_tree known.old leaf.old) h
        → StandsFor (after_line (option_map (λ b. b.value) r.1) known.new leaf.new)
        (with_path h (path_of (run_from start (map string_bytes ids.now)) deleted body))) }
    ensures found { IfOk result (λ r. (h : Paths) → StandsFor (line_tree known.old leaf.old) h
        → r.0 ≡ found_of h (run_from start (map string_bytes ids.now))) }
    ensures err { OnErr result (line_tree known.new leaf.new ≡ line_tree known.old leaf.old) }
{
    let mut grown = Box::new(alloc, Grown::without_links(alloc, leaf)?)?;
    grown.exchange(known);
    let merged = match grown.accept(start, ids, deleted, body) {
        Ok(merged) => merged,
        Err(refused) => {
            grown.exchange(known);
            return Err(refused);
        }
    };
    if grown.leaves.len() != 1 {
        return Ok((merged, Some(grown)));
    }
    grown.exchange(known);
    *leaf = only_leaf(grown);
    Ok((merged, None))
}

// Whether a run, given by its start and its ids, is this revision alone.
fn is_run_of(rev: &Rev, start: u32, ids: &[String]) -> bool
    ensures { result ≡ is_run_of rev.now (run_from start (map string_bytes ids.now)) }
{
    if ids.len() != 1 {
        return false;
    }
    rev.is(start, ids[0].as_bytes())
}
