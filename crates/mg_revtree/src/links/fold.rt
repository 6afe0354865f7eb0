ghost use Rattle.std.specs.Prelude.{◌≡◌, ◌≤◌, ◌++◌, ℕ, IfOk, OnOk, drop, length, option_map};
ghost use Rattle.mg_revtree.specs.Revision.{Revision, revision_order};
ghost use Rattle.mg_revtree.specs.Tree.{AreSorted};
ghost use Rattle.mg_revtree.specs.Nodes.{NodesWithin, IsExtendedBy, LiesWithin, NodeWithin, ParentWithin, link_in, links_in, text_of_part};
ghost use Rattle.mg_revtree.specs.Known.{AreBelow, with_link, with_links};
ghost use Rattle.std.specs.declared.cmp.Ordering.TheVariants.{Less};

use crate::links::list::SPARE_NODES;
use crate::links::lookup::place;
use crate::links::node::{IdPart, Node};
use crate::links::parts::part_for;
use mg_value::NoMemory;
use std::alloc::Global;

// Returns the part of `texts` that holds the id of a revision. If neither list has the revision, adds its id to `texts`. Errors: those of
// `add`.
fn part_among(
    texts: &mut Vec<u8>,
    older: &[Node],
    made: &[Node],
    pos: u32,
    id: &[u8],
) -> Result<IdPart, NoMemory>
    ensures grows { IsExtendedBy texts.old.items texts.new.items }
    ensures within { IfOk result
        (λ p. NodesWithin (length texts.old.items) older.now → NodesWithin (length texts.old.items) made.now
        → LiesWithin (length texts.new.items) p) }
    ensures part { IfOk result
        (λ p. AreSorted (links_in texts.old.items older.now) → AreSorted (links_in texts.old.items made.now)
        → text_of_part texts.new.items p ≡ id.now) }
{
    match place(texts, older, pos, id) {
        Ok(at) => Ok(older[at].id),
        Err(_) => part_for(texts, made, pos, id),
    }
}

// Returns the part of `texts` that holds the id of a node's parent, if the parent is known. The parts of the node itself are in `other`.
// If neither list has the parent, adds its id to `texts`. Errors: those of `add`.
fn parent_for(
    texts: &mut Vec<u8>,
    older: &[Node],
    made: &[Node],
    other: &[u8],
    node: Node,
) -> Result<Option<IdPart>, NoMemory>
    ensures grows { IsExtendedBy texts.old.items texts.new.items }
    ensures within { IfOk result
        (λ p. NodesWithin (length texts.old.items) older.now → NodesWithin (length texts.old.items) made.now
        → ParentWithin (length texts.new.items) p) }
    ensures part { IfOk result
        (λ p. AreSorted (links_in texts.old.items older.now) → AreSorted (links_in texts.old.items made.now)
        → option_map (text_of_part texts.new.items) p ≡ option_map (text_of_part other.now) node.parent) }
{
    match node.parent {
        Some(parent) => Ok(Some(part_among(
            texts,
            older,
            made,
            node.pos.saturating_sub(1),
            parent.of(other),
        )?)),
        None => Ok(None),
    }
}

// Makes the node over `texts` for the link that `node`, a node over `other`, stands for. Adds to `texts` the ids of revisions that
// neither list has. Errors: those of `add`.
fn node_for(
    texts: &mut Vec<u8>,
    older: &[Node],
    made: &[Node],
    other: &[u8],
    node: Node,
) -> Result<Node, NoMemory>
    ensures grows { IsExtendedBy texts.old.items texts.new.items }
    ensures within { IfOk result
        (λ x. NodesWithin (length texts.old.items) older.now → NodesWithin (length texts.old.items) made.now
        → NodeWithin (length texts.new.items) x) }
    ensures link { IfOk result
        (λ x. NodesWithin (length texts.old.items) older.now → NodesWithin (length texts.old.items) made.now
        → AreSorted (links_in texts.old.items older.now) → AreSorted (links_in texts.old.items made.now)
        → link_in texts.new.items x ≡ link_in other.now node) }
{
    let id = part_among(texts, older, made, node.pos, node.id.of(other))?;
    let parent = parent_for(texts, older, made, other, node)?;
    Ok(Node {
        pos: node.pos,
        id,
        parent,
    })
}

// Appends to `made` the older nodes below `node`, and then `node`. If an older node has the revision of `node`, appends that older node
// instead of `node`, and gives it the parent of `node` if it has none. Returns how many older nodes are used up. Errors: `NoMemory` if an
// allocation fails; `made` may then be longer.
fn add_through(
    texts: &[u8],
    made: &mut Vec<Node>,
    older: &[Node],
    node: Node,
) -> Result<usize, NoMemory>
    ensures inside { IfOk result (λ i. i ≤ length older.now) }
    ensures within { OnOk result ((n : ℕ) → NodesWithin n made.old.items → NodesWithin n older.now
        → NodeWithin n node → NodesWithin n made.new.items) }
    ensures links { IfOk result
        (λ i. AreSorted (links_in texts.now older.now)
        → links_in texts.now made.new.items ++ links_in texts.now (drop i older.now)
        ≡ links_in texts.now made.old.items ++ with_link (link_in texts.now node)
        (links_in texts.now older.now)) }
    ensures below { OnOk result ((r : Revision) → AreSorted (links_in texts.now older.now)
        → revision_order (link_in texts.now node).rev r ≡ Less
        → AreBelow r (links_in texts.now made.old.items) → AreBelow r (links_in texts.now made.new.items)) }
{
    match place(texts, older, node.pos, node.id.of(texts)) {
        Ok(at) => {
            let mut known = older[at];
            known.join(node.parent);
            made.extend_from_slice(&older[..at])?;
            made.push(known)?;
            Ok(at + 1)
        }
        Err(at) => {
            made.extend_from_slice(&older[..at])?;
            made.push(node)?;
            Ok(at)
        }
    }
}

/// Merges sorted older nodes over `texts` with sorted newer nodes over `other` into one sorted list over `texts`. Adds to `texts` the ids
/// of revisions that the older nodes lack. Errors: `NoMemory` if an allocation fails, or if `texts` would take more than 4,294,967,295
/// bytes; ids that were added before an error stay in `texts`. Cost: one pass over all nodes, and a few logarithms of their number for
/// each newer one.
pub fn fold_links(
    alloc: Global,
    texts: &mut Vec<u8>,
    older: &[Node],
    other: &[u8],
    newer: &[Node],
) -> Result<Vec<Node>, NoMemory>
    ensures within { IfOk result
        (λ made. NodesWithin (length texts.old.items) older.now
        → NodesWithin (length texts.new.items) made.items) }
    ensures links { IfOk result
        (λ made. NodesWithin (length texts.old.items) older.now
        → AreSorted (links_in texts.old.items older.now) → AreSorted (links_in other.now newer.now)
        → links_in texts.new.items made.items
        ≡ with_links (links_in texts.old.items older.now) (links_in other.now newer.now)) }
{
    let room = older
        .len()
        .saturating_add(newer.len())
        .saturating_add(SPARE_NODES);
    let mut made = Vec::with_capacity(alloc, room)?;
    let mut from = 0;
    for node in newer {
        let copy = node_for(texts, older, &made, other, *node)?;
        from += add_through(texts, &mut made, &older[from..], copy)?;
    }
    made.extend_from_slice(&older[from..])?;
    Ok(made)
}
