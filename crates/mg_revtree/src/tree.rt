ghost use Rattle.std.specs.Prelude.{◌≡◌, ◌+◌, ◌<◌, ◌≤◌, [], Err, IfOk, IfSome, IsOk, IsOkUnless, Ok, OnErr, OnOk, false, length, map, option_copied, string_bytes, true};
ghost use Rattle.mg_value.specs.View.{view};
ghost use Rattle.mg_revtree.specs.Revision.{run_from};
ghost use Rattle.mg_revtree.specs.Body.{IsFormOf};
ghost use Rattle.mg_revtree.specs.History.{Paths, first_of, fits, is_known_whole, leaf_of, leaves_of, winner_of};
ghost use Rattle.mg_revtree.specs.Ancestry.{ancestry};
ghost use Rattle.mg_revtree.specs.Growth.{empty_tree, first_tree};
ghost use Rattle.mg_revtree.specs.Tree.{AreLeaves, AreLosers, StandsFor};
ghost use Rattle.mg_revtree.specs.Losers.{losers_of};
ghost use Rattle.mg_revtree.specs.Changes.{Decides, extension, found_of, next_position, open_position, path_of, position_below, refusal_of, with_path};

use crate::body::Body;
use crate::error::{MergeError, Merged, TreeError, TreeRefusal};
use crate::form::Form;
use crate::growth::Growth;
use crate::history::{History, ids_over};
use crate::leaf::Leaf;
use crate::leaf_list::{leaf_of, lent_leaves, position_under, undeleted_among};
use crate::rev_id::{RevId, text_of};
use crate::revision::Rev;
use mg_value::NoMemory;
use std::alloc::Global;
use std::marker::Model;

/// The revision tree of a document: its known revisions with their parents, and its leaves with their deletion marks
/// and bodies. Contracts speak of every list of accepted paths that the tree stands for.
///
/// A body is kept once, at its leaf, in at most one block of memory. Most documents have one revision, and their tree is one leaf. The
/// tree of a document that was edited or deleted once is its leaf and the id of the leaf's parent, if that id has 32 bytes. Any other
/// tree that has revisions has two lists of them, an older and a newer one. The id of a revision is in one of these lists, or in both,
/// and once more in the leaf if the revision is a leaf.
#[derive(Drop)]
pub struct RevTree {
    pub(crate) alloc: Global,
    growth: Growth,
}

impl Model for RevTree {
    ghost use Rattle.mg_revtree.specs.Growth.{tree_in};
    ghost use Rattle.mg_revtree.specs.Tree.{Tree, tree_code};

    ghost Value = { Tree };

    ghost coded = { tree_code };

    ghost view = { λ t. tree_in t.growth };
}

impl RevTree {
    /// Makes the tree without revisions. Takes no memory.
    pub fn new(alloc: Global) -> RevTree
        ensures { StandsFor result [] }
    {
        RevTree {
            alloc,
            growth: Growth::Empty,
        }
    }

    /// Returns the best leaf, by `Leaf::order`; `None` in a tree without leaves. Takes no memory.
    pub fn winner(&self) -> Option<&Leaf>
        ensures winner { (h : Paths) → StandsFor self.now h → option_copied result ≡ winner_of h }
        ensures first { option_copied result ≡ first_of self.now.leaves }
    {
        let leaves = self.growth.leaves();
        if leaves.is_empty() {
            return None;
        }
        Some(leaves[0].leaf())
    }

    /// Moves the winner's body into the block of the form in which the document is served, so that both take one block. `form` must be a
    /// form of that body. The body stays where it is if a copy of the tree shares the winner, if the body has no block of its own, or if
    /// the body has `_id` or `_rev` as a member. Does nothing in a tree without leaves. Contracts see no change. Takes no memory. Cost:
    /// two look-ups of a member in the body.
    pub fn move_body_into(&mut self, form: Form)
        requires { IfSome (first_of self.old.leaves) (λ l. IsFormOf l.body form) }
        ensures { self.new ≡ self.old }
    {
        self.growth.move_body_into(form);
    }

    /// Returns the leaf with this revision, the winner or another, deleted or not; `None` if the revision is not a leaf. Takes no memory.
    /// Cost: the logarithm of the leaves.
    pub fn leaf(&self, rev: &Rev) -> Option<&Leaf>
        ensures { (h : Paths) → StandsFor self.now h → option_copied result ≡ leaf_of h rev.now }
    {
        leaf_of(self.growth.leaves(), rev.pos, rev.id.as_bytes())
    }

    /// Lists the ids of a revision and of its known ancestors, newest first. Each is that of a revision at the position below the one before
    /// it, and its parent.
    ///
    /// Errors: `NoMemory` if an allocation fails. Cost: the number of the revisions, and for each the logarithm of the known revisions.
    /// Source: `_revisions` of CouchDB's API reference.
    pub fn ancestry(&self, alloc: Global, rev: &Rev) -> Result<Vec<String>, NoMemory>
        ensures { IfOk result (λ ids. (h : Paths) → StandsFor self.now h
            → map string_bytes ids.items ≡ map (λ r. r.1) (ancestry h rev.now)) }
    {
        let mut ids = Vec::new(alloc);
        let mut id = rev.id.as_bytes();
        let mut pos = rev.pos;
        while pos > 0 {
            ids.push(text_of(alloc, id)?)?;
            let Some(parent) = self.growth.parent(pos, id) else {
                return Ok(ids);
            };
            id = parent;
            pos -= 1;
        }
        Ok(ids)
    }

    /// Lists the leaves, best first. Errors: `NoMemory` if an allocation fails. Cost: their number.
    pub fn leaves(&self) -> Result<Vec<&Leaf>, NoMemory>
        ensures each { IfOk result
            (λ found. (h : Paths) → StandsFor self.now h → AreLeaves h (map (λ l. l.now) found.items)) }
        ensures list { IfOk result
            (λ found. (h : Paths) → StandsFor self.now h → map (λ l. l.now) found.items ≡ leaves_of h) }
    {
        let found = lent_leaves(self.alloc, self.growth.leaves())?;
        Ok(found)
    }

    /// Lists the leaves other than the winner that are not deleted, best first. Takes no memory if there is no such leaf.
    ///
    /// Errors: `NoMemory` if an allocation fails. Cost: the number of the leaves.
    pub fn losers(&self) -> Result<Vec<&Leaf>, NoMemory>
        ensures each { IfOk result
            (λ found. (h : Paths) → StandsFor self.now h → AreLosers h (map (λ l. l.now) found.items)) }
        ensures list { IfOk result
            (λ found. (h : Paths) → StandsFor self.now h → map (λ l. l.now) found.items ≡ losers_of h) }
        ensures none { (h : Paths) → StandsFor self.now h → losers_of h ≡ [] → IsOk result }
    {
        let leaves = self.growth.leaves();
        if leaves.is_empty() {
            return Ok(Vec::new(self.alloc));
        }
        Ok(undeleted_among(self.alloc, &leaves[1..])?)
    }

    /// Makes a copy that shares the leaves, their bodies, and the older known revisions.
    ///
    /// Errors: `NoMemory` if an allocation fails, or if there are too many references to what is shared. Cost: one reference count for
    /// each leaf; for a tree with two lists of known revisions also copies of the two blocks that hold the newer list. That list has at
    /// most 64 revisions or about four times the square root of the number of older ones, whichever is more.
    pub fn copy(&self, alloc: Global) -> Result<RevTree, NoMemory>
        ensures { IfOk result (λ tree. tree ≡ self.now) }
    {
        Ok(RevTree {
            alloc,
            growth: self.growth.copy(alloc)?,
        })
    }

    /// Whether a path fits: it gives no known revision a parent other than the known one. Takes no memory. Cost: the length of the
    /// path times the logarithm of the known revisions.
    pub fn fits(&self, path: &History) -> bool
        ensures { (h : Paths) → StandsFor self.now h → result ≡ fits h path.now }
    {
        let (start, ids) = path.run();
        self.growth.fits(start, ids)
    }

    /// Whether a path is known whole: each of its revisions is known, with the parent that the path gives it. To merge such a
    /// path changes nothing. Takes no memory. Cost: as for `fits`, up to the first revision that is not known with its parent.
    pub fn knows_whole(&self, path: &History) -> bool
        ensures { (h : Paths) → StandsFor self.now h → result ≡ is_known_whole h path.now }
    {
        let (start, ids) = path.run();
        self.growth.knows_whole(start, ids)
    }

    /// Returns the position of a new revision over the leaf `parent`; without a parent, 1 in a tree without leaves. Takes no memory.
    ///
    /// Errors, in this order: `NotLeaf` if the parent is not a leaf, or if there is no parent but the tree has leaves;
    /// `Full` if the parent's position is 4,294,967,295. Cost: the logarithm of the leaves.
    pub fn next_position(&self, parent: Option<&Rev>) -> Result<u32, TreeRefusal>
        ensures position { (h : Paths) → StandsFor self.now h
            → result ≡ next_position h (option_copied parent.entry) }
        ensures above { IfOk result (λ n. n ≡ position_below (option_copied parent.entry) + 1) }
    {
        match position_under(self.growth.leaves(), parent) {
            Some(below) => below.checked_add(1).ok_or(TreeRefusal::Full),
            None => Err(TreeRefusal::NotLeaf),
        }
    }

    /// Accepts a path as a replica sends it, with the mark and the body of its newest revision. Unknown revisions become known, and known
    /// ones without a parent get the parent that the path gives them. If the newest revision is already known, the given mark and body
    /// are ignored. A path that is known whole changes nothing. Returns whether the newest revision was new or known.
    ///
    /// Errors: `BadHistory` if the path does not fit, as for `fits`; else `NoMemory` if an allocation fails, if the ids in one list of
    /// known revisions would take more than 4,294,967,295 bytes, or if there are too many references to a leaf. A path that does not fit,
    /// or is known whole, needs no memory. An error leaves the tree as it was.
    ///
    /// Cost: the length of the path times the logarithms of the known revisions and of the leaves; for each leaf that is added or
    /// removed, a move of one pointer for each leaf after it; and one pass over those revisions in the newer list that come after the
    /// lowest revision of the path that is not in that list. There are no such revisions if the path is a new revision over the greatest
    /// known revision. The body keeps its block and is not copied. If the newer revisions and those of the path are more than 64, and
    /// more than about four times the square root of the number of older ones, all known revisions are copied too. Source: the
    /// replication model of CouchDB.
    pub fn merge_with(
        &mut self,
        path: &History,
        deleted: bool,
        body: Body,
    ) -> Result<Merged, MergeError>
        ensures accepted { OnOk result ((h : Paths) → StandsFor self.old h
            → StandsFor self.new (with_path h (path_of path.now deleted body))) }
        ensures found { IfOk result (λ m. (h : Paths) → StandsFor self.old h → m ≡ found_of h path.now) }
        ensures fitting { (h : Paths) → StandsFor self.old h → fits h path.now ≡ true
            → IsOkUnless result MergeError.NoMemory }
        ensures refused { (h : Paths) → StandsFor self.old h → fits h path.now ≡ false
            → result ≡ Err MergeError.BadHistory }
        ensures whole { (h : Paths) → StandsFor self.old h → is_known_whole h path.now ≡ true
            → (result ≡ Ok Merged.Known) × (self.new ≡ self.old) }
        ensures err { OnErr result (self.new ≡ self.old) }
    {
        if self.is_merged(path)? {
            return Ok(Merged::Known);
        }
        let (start, ids) = path.run();
        Ok(self.accept(start, ids, deleted, body)?)
    }

    // Whether a path is known whole, so that a merge has nothing to do. Takes no memory. Errors: `BadHistory` if the path does not fit.
    pub(crate) fn is_merged(&self, path: &History) -> Result<bool, MergeError>
        ensures whole { IfOk result
            (λ whole. (h : Paths) → StandsFor self.now h → whole ≡ is_known_whole h path.now) }
        ensures fitting { (h : Paths) → StandsFor self.now h → fits h path.now ≡ true → IsOk result }
        ensures refused { (h : Paths) → StandsFor self.now h → fits h path.now ≡ false
            → result ≡ Err MergeError.BadHistory }
        ensures known { IfOk result (λ whole. (h : Paths) → StandsFor self.now h → whole ≡ true
            → Merged.Known ≡ found_of h path.now) }
    {
        let (start, ids) = path.run();
        if self.growth.knows_whole(start, ids) {
            return Ok(true);
        }
        if !self.growth.fits(start, ids) {
            return Err(MergeError::BadHistory);
        }
        Ok(false)
    }

    // Accepts a run that fits, given by its start and its ids, newest first. Errors: `NoMemory`, as for `merge_with`; the tree is then as it
    // was.
    pub(crate) fn accept(
        &mut self,
        start: u32,
        ids: &[String],
        deleted: bool,
        body: Body,
    ) -> Result<Merged, NoMemory>
        requires some { 0 < length ids.now }
        requires run { length ids.now ≤ start + 1 }
        ensures accepted { OnOk result ((h : Paths) → StandsFor self.old h
            → StandsFor self.new
            (with_path h (path_of (run_from start (map string_bytes ids.now)) deleted body))) }
        ensures found { IfOk result
            (λ m. (h : Paths) → StandsFor self.old h
            → m ≡ found_of h (run_from start (map string_bytes ids.now))) }
        ensures err { OnErr result (self.new ≡ self.old) }
    {
        if ids.len() > 1 || !self.growth.is_empty() {
            return self.growth.accept(self.alloc, start, ids, deleted, body);
        }
        let rev = Rev {
            pos: start,
            id: RevId::copy_of(self.alloc, &ids[0])?,
        };
        self.begin(rev, deleted, body)?;
        Ok(Merged::New)
    }

    // Makes the first revision of a tree without revisions. Errors: `NoMemory` if an allocation fails; the tree is then as it was.
    fn begin(&mut self, rev: Rev, deleted: bool, body: Body) -> Result<(), NoMemory>
        requires { self.old ≡ empty_tree }
        ensures begun { OnOk result
            (self.new ≡ first_tree (record { rev = rev; deleted = deleted; body = body })) }
        ensures err { OnErr result (self.new ≡ self.old) }
    {
        self.growth = Growth::first(self.alloc, rev, deleted, body)?;
        Ok(())
    }

    /// Makes a new revision over the leaf `parent`; without a parent, at position 1 in a tree without leaves. `id` should be one that
    /// `is_rev_id` allows; this is not checked.
    ///
    /// Errors, in this order: those of `next_position`, then `Known` if the revision is already known, all found without memory;
    /// else `NoMemory`, as for `merge_with`. An error leaves the tree as it was. Cost: as for `merge_with`, with a path of the new revision
    /// and its parent.
    pub fn extend_with(
        &mut self,
        parent: Option<&Rev>,
        id: String,
        deleted: bool,
        body: Body,
    ) -> Result<(), TreeError>
        ensures accepted { OnOk result ((h : Paths) → StandsFor self.old h
            → StandsFor self.new
            (with_path h (extension (option_copied parent.entry) (string_bytes id) deleted body))) }
        ensures decided { (h : Paths) → StandsFor self.old h
            → Decides (refusal_of h (option_copied parent.entry) (string_bytes id)) result }
        ensures err { OnErr result (self.new ≡ self.old) }
    {
        let pos = self.open_position(parent, &id)?;
        self.make_revision(pos, parent, id, deleted, body)?;
        Ok(())
    }

    // Returns the position at which a new revision may be made over its parent, or without one. Takes no memory. Errors: those of
    // `next_position`, then `Known`.
    pub(crate) fn open_position(&self, parent: Option<&Rev>, id: &String) -> Result<u32, TreeError>
        ensures decided { (h : Paths) → StandsFor self.now h
            → result ≡ open_position h (option_copied parent.entry) (string_bytes id.now) }
        ensures above { IfOk result (λ n. n ≡ position_below (option_copied parent.entry) + 1) }
    {
        let pos = self.next_position(parent)?;
        if self.growth.knows(pos, id) {
            return Err(TreeError::Known);
        }
        Ok(pos)
    }

    // Makes a new revision at position `pos` over its parent, or without one. Errors: `NoMemory`, as for `merge_with`; the tree is then as it
    // was.
    pub(crate) fn make_revision(
        &mut self,
        pos: u32,
        parent: Option<&Rev>,
        id: String,
        deleted: bool,
        body: Body,
    ) -> Result<(), NoMemory>
        requires { pos ≡ position_below (option_copied parent) + 1 }
        ensures accepted { OnOk result ((h : Paths) → StandsFor self.old h
            → StandsFor self.new
            (with_path h (extension (option_copied parent.entry) (string_bytes id) deleted body))) }
        ensures err { OnErr result (self.new ≡ self.old) }
    {
        if parent.is_none() && self.growth.is_empty() {
            let id = RevId::of(id);
            self.begin(Rev { pos, id }, deleted, body)?;
            return Ok(());
        }
        let ids = ids_over(self.alloc, id, parent)?;
        self.growth.accept(self.alloc, pos, &ids, deleted, body)?;
        Ok(())
    }
}
