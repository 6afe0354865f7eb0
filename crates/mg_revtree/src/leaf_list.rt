ghost use Rattle.std.specs.Prelude.{◌≡◌, ◌<◌, ◌≤◌, [], IfErr, IfNone, IfOk, IfSome, IsOk, None, filter, is_some, length, map, not, option_copied, option_map, string_bytes, vec_capacity, vec_len};
ghost use Rattle.std.specs.List.{insert};
ghost use Rattle.mg_revtree.specs.Revision.{run_from, same_revision};
ghost use Rattle.mg_revtree.specs.History.{has_child, links, ranked_with};
ghost use Rattle.mg_revtree.specs.Tree.{AreApart, AreRanked, leaf_in};
ghost use Rattle.mg_revtree.specs.Changes.{position_below};
ghost use Rattle.mg_revtree.specs.Steps.{IsBetween, IsLeafAt, IsTied, base_in, marked_as};

use crate::leaf::{Leaf, SharedLeaf};
use crate::revision::Rev;
use mg_value::NoMemory;
use std::alloc::Global;

// Searches leaves, which are sorted best first, for one with this mark and revision: `Ok` with its place, or `Err` with the place where
// it would go.
fn place_of(leaves: &[SharedLeaf], deleted: bool, pos: u32, id: &[u8]) -> Result<usize, usize>
    ensures found { IfOk result
        (λ i. (i < length leaves.now) × IsTied (marked_as deleted (pos, id.now)) leaves.now i) }
    ensures absent { IfErr result
        (λ i. (i ≤ length leaves.now)
        × (AreRanked leaves.now → IsBetween (marked_as deleted (pos, id.now)) leaves.now i)) }
{
    leaves.binary_search_by(|leaf| leaf.leaf().against(deleted, pos, id))
}

// Finds the place of a revision's leaf; `None` if the revision is not a leaf. Leaves are ordered by their marks first, and the mark is
// not given, so the search tries both marks.
fn place_among(leaves: &[SharedLeaf], pos: u32, id: &[u8]) -> Option<usize>
    ensures found { IfSome result (λ i. (i < length leaves.now) × IsLeafAt (pos, id.now) leaves.now i) }
    ensures absent { IfNone result (AreRanked leaves.now → leaf_in (pos, id.now) leaves.now ≡ None) }
{
    if let Ok(at) = place_of(leaves, false, pos, id) {
        return Some(at);
    }
    match place_of(leaves, true, pos, id) {
        Ok(at) => Some(at),
        Err(_) => None,
    }
}

/// Whether a revision is a leaf. Takes no memory. Cost: the logarithm of the leaves.
pub fn is_leaf(leaves: &[SharedLeaf], pos: u32, id: &[u8]) -> bool
    ensures { AreRanked leaves.now → result ≡ is_some (leaf_in (pos, id.now) leaves.now) }
{
    place_among(leaves, pos, id).is_some()
}

/// Returns the leaf of a revision; `None` if the revision is not a leaf. Takes no memory. Cost: the logarithm of the leaves.
pub fn leaf_of<'a>(leaves: &'a [SharedLeaf], pos: u32, id: &[u8]) -> Option<&'a Leaf>
    ensures { AreRanked leaves.now → AreApart leaves.now
        → option_copied result ≡ option_map
        (λ m. record { rev = (pos, id.now); deleted = m.0; body = m.1 }) (leaf_in (pos, id.now) leaves.now) }
{
    match place_among(leaves, pos, id) {
        Some(at) => Some(leaves[at].leaf()),
        None => None,
    }
}

// Removes the leaf of a revision, if there is one.
fn take_away(leaves: &mut Vec<SharedLeaf>, pos: u32, id: &[u8])
    ensures kept { AreRanked leaves.old.items → AreApart leaves.old.items
        → leaves.new.items ≡ filter (λ l. not (same_revision l.rev (pos, id.now))) leaves.old.items }
    ensures capacity { vec_capacity leaves.new ≡ vec_capacity leaves.old }
    ensures len { vec_len leaves.new ≤ vec_len leaves.old }
{
    if let Some(at) = place_among(leaves, pos, id) {
        drop(leaves.remove(at));
    }
}

/// Removes the leaves that are parents in a run, given by its start and its ids, newest first. Cost: for each revision of the run the
/// logarithm of the leaves, and a move of one pointer for each leaf after a removed one.
pub fn unleaf(leaves: &mut Vec<SharedLeaf>, start: u32, ids: &[String])
    ensures kept { AreRanked leaves.old.items → AreApart leaves.old.items
        → leaves.new.items ≡ filter
        (λ l. not (has_child l.rev (links (run_from start (map string_bytes ids.now))))) leaves.old.items }
    ensures capacity { vec_capacity leaves.new ≡ vec_capacity leaves.old }
    ensures len { vec_len leaves.new ≤ vec_len leaves.old }
{
    let mut pos = start;
    for i in 1..ids.len() {
        pos = pos.saturating_sub(1);
        take_away(leaves, pos, ids[i].as_bytes());
    }
}

// Searches leaves, which are sorted best first, for one that ties with `leaf`: `Ok` with its place, or `Err` with the place where it
// would go.
fn place_for(leaves: &[SharedLeaf], leaf: &Leaf) -> Result<usize, usize>
    ensures found { IfOk result (λ i. (i < length leaves.now) × IsTied leaf.now leaves.now i) }
    ensures absent { IfErr result
        (λ i. (i ≤ length leaves.now) × (AreRanked leaves.now → IsBetween leaf.now leaves.now i)) }
{
    leaves.binary_search_by(|other| leaf.order(other.leaf()))
}

// Finds the place for a leaf whose revision none of these leaves has.
fn rank(leaves: &[SharedLeaf], leaf: &Leaf) -> usize
    ensures within { result ≤ length leaves.now }
    ensures ranked { AreRanked leaves.now → leaf_in leaf.now.rev leaves.now ≡ None
        → insert leaves.now result leaf.now ≡ ranked_with leaf.now leaves.now }
{
    match place_for(leaves, leaf) {
        Ok(at) => at,
        Err(at) => at,
    }
}

/// Adds a leaf whose revision none of the leaves has. The vector must have capacity for it. Cost: the logarithm of the leaves, and
/// a move of one pointer for each worse leaf.
pub fn add_leaf(leaves: &mut Vec<SharedLeaf>, leaf: SharedLeaf)
    requires { vec_len leaves.old < vec_capacity leaves.old }
    ensures { AreRanked leaves.old.items → leaf_in leaf.rev leaves.old.items ≡ None
        → leaves.new.items ≡ ranked_with leaf leaves.old.items }
{
    let at = rank(leaves, leaf.leaf());
    drop(leaves.insert(at, leaf));
}

/// Lists references to the leaves. Errors: `NoMemory` if an allocation fails. Cost: their number.
pub fn lent_leaves(alloc: Global, leaves: &[SharedLeaf]) -> Result<Vec<&Leaf>, NoMemory>
    ensures { IfOk result (λ found. map (λ l. l.now) found.items ≡ leaves.now) }
{
    let mut found = Vec::with_capacity(alloc, leaves.len())?;
    for shared in leaves {
        found.push(shared.leaf())?;
    }
    Ok(found)
}

/// Lists references to the leaves that are not deleted. Errors: `NoMemory` if an allocation fails; without such a leaf, no memory is
/// needed. Cost: the number of all leaves.
pub fn undeleted_among(alloc: Global, leaves: &[SharedLeaf]) -> Result<Vec<&Leaf>, NoMemory>
    ensures kept { IfOk result
        (λ found. map (λ l. l.now) found.items ≡ filter (λ l. not l.deleted) leaves.now) }
    ensures none { filter (λ l. not l.deleted) leaves.now ≡ [] → IsOk result }
{
    let mut found = Vec::new(alloc);
    for shared in leaves {
        let leaf = shared.leaf();
        if !leaf.deleted {
            found.push(leaf)?;
        }
    }
    Ok(found)
}

/// Makes a list that shares these leaves, with capacity for one more, so that an edit of the copy does not reallocate the list. Errors:
/// `NoMemory` if an allocation fails, or if there are too many references to a leaf. Cost: one reference count for each leaf.
pub fn copy_leaves(alloc: Global, leaves: &[SharedLeaf]) -> Result<Vec<SharedLeaf>, NoMemory>
    ensures { IfOk result (λ made. made.items ≡ leaves.now) }
{
    let mut made = Vec::with_capacity(alloc, leaves.len().saturating_add(1))?;
    for leaf in leaves {
        made.push(leaf.share()?)?;
    }
    Ok(made)
}

/// Finds the position below a new revision: that of its parent, or 0 without a parent. `None` if the parent is not a leaf, or if there is
/// no parent but there are leaves.
pub fn position_under(leaves: &[SharedLeaf], parent: Option<&Rev>) -> Option<u32>
    ensures asked { AreRanked leaves.now → base_in leaves.now (option_copied parent.entry) ≡ is_some result }
    ensures below { IfSome result (λ n. n ≡ position_below (option_copied parent.entry)) }
{
    match parent {
        None => if leaves.is_empty() { Some(0) } else { None },
        Some(parent) => if is_leaf(leaves, parent.pos, parent.id.as_bytes()) {
            Some(parent.pos)
        } else {
            None
        },
    }
}
