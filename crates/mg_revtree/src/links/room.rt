ghost use Rattle.std.specs.Prelude.{◌≡◌, ◌+◌, ◌-◌, ◌<◌, ◌≤◌, ◌++◌, ◌∷◌, ℕ, List, drop, length, map, take, vec_capacity, vec_len};
ghost use Rattle.std.specs.List.{insert};
ghost use Rattle.mg_revtree.specs.Revision.{run_from};
ghost use Rattle.mg_revtree.specs.History.{Link, links};
ghost use Rattle.mg_revtree.specs.Tree.{AreKnownLinks, AreSorted};
ghost use Rattle.mg_revtree.specs.Nodes.{NodesWithin, PartsWithin, NodeWithin, links_in, text_of_part};
ghost use Rattle.mg_revtree.specs.Room.{AreFrom, Joins, used};

use crate::links::lookup::place;
use crate::links::node::{IdPart, Node};

/// A gap of unused places among the nodes: there are nodes before place `till`, and from place `from` on.
#[derive(Clone, Copy, Debug)]
pub struct Room {
    pub till: usize,
    pub from: usize,
}

// Inserts a node at place `at`: the nodes from there to the room move to the far end of the room. Returns the room that is left.
fn put(nodes: &mut [Node], room: Room, at: usize, node: Node) -> Room
    requires at { at ≤ room.till }
    requires room { room.till < room.from }
    requires within { room.from ≤ length nodes.old }
    ensures used { used nodes.new result.till result.from
        ≡ insert (used nodes.old room.till room.from) at node }
    ensures after { drop result.from nodes.new ≡ node ∷ drop at (used nodes.old room.till room.from) }
    ensures till { result.till ≡ at }
    ensures left { result.from + 1 ≡ at + (room.from - room.till) }
{
    let from = room.from - (room.till - at);
    nodes.copy_within(at..room.till, from);
    nodes[from - 1] = node;
    Room {
        till: at,
        from: from - 1,
    }
}

// Joins a node. If a node before the room has the revision of `node`, that one gets the parent of `node`, unless it already has a parent.
// Otherwise `node` is inserted in order. The nodes after the room must be at higher positions. Returns the room that is left.
fn join(texts: &[u8], nodes: &mut [Node], room: Room, node: Node) -> Room
    requires room { room.till < room.from }
    requires within { room.from ≤ length nodes.old }
    ensures joins { AreSorted (links_in texts.now (used nodes.old room.till room.from))
        → AreFrom (node.pos + 1) (links_in texts.now (drop room.from nodes.old))
        → Joins texts.now node (used nodes.old room.till room.from) (used nodes.new result.till result.from)
        (drop result.from nodes.new) }
    ensures within { (n : ℕ) → NodesWithin n (used nodes.old room.till room.from) → NodeWithin n node
        → NodesWithin n (used nodes.new result.till result.from) }
    ensures left { result.till + (room.from - room.till) ≤ result.from + 1 }
    ensures from { result.from ≤ room.from }
{
    match place(texts, &nodes[..room.till], node.pos, node.id.of(texts)) {
        Ok(at) => {
            nodes[at].join(node.parent);
            room
        }
        Err(at) => put(nodes, room, at, node),
    }
}

// Joins a run, given by its start and the parts of its ids, newest first, to the known nodes. All places after the known nodes are
// unused, and there are enough of them for the run. Returns the room that is left.
fn join_each(texts: &[u8], nodes: &mut [Node], known: usize, start: u32, parts: &[IdPart]) -> Room
    requires room { known + length parts.now ≤ length nodes.old }
    requires run { length parts.now ≤ start + 1 }
    ensures joined { (ls : List Link) → AreKnownLinks (links_in texts.now (take known nodes.old)) ls
        → AreKnownLinks (links_in texts.now (used nodes.new result.till result.from))
        (ls ++ links (run_from start (map (text_of_part texts.now) parts.now))) }
    ensures within { (n : ℕ) → NodesWithin n (take known nodes.old) → PartsWithin n parts.now
        → NodesWithin n (used nodes.new result.till result.from) }
    ensures ordered { result.till ≤ result.from }
    ensures inside { result.from ≤ length nodes.new }
{
    let mut room = Room {
        till: known,
        from: nodes.len(),
    };
    let mut pos = start;
    for (i, id) in parts.iter().enumerate() {
        let node = Node {
            pos,
            id: *id,
            parent: parts.get(i + 1).copied(),
        };
        room = join(texts, nodes, room, node);
        pos = pos.saturating_sub(1);
    }
    room
}

// Closes the room: the nodes after it move down to its start.
fn close(nodes: &mut Vec<Node>, room: Room)
    requires ordered { room.till ≤ room.from }
    requires inside { room.from ≤ vec_len nodes.old }
    ensures { nodes.new.items ≡ used nodes.old.items room.till room.from }
{
    let left = nodes.len() - (room.from - room.till);
    nodes.copy_within(room.from.., room.till);
    nodes.truncate(left);
}

// Fills an unused place.
const UNUSED: Node = Node {
    pos: 0,
    id: IdPart { from: 0, len: 0 },
    parent: None,
};

/// Joins a run, given by its start and the parts of its ids, newest first. The vector must have capacity for the run. Cost: for each
/// revision of the run the logarithm of the known ones, and at most two moves of each node after the lowest revision of the run that no
/// node had.
pub fn join_all(texts: &[u8], nodes: &mut Vec<Node>, start: u32, parts: &[IdPart])
    requires room { vec_len nodes.old + length parts.now ≤ vec_capacity nodes.old }
    requires run { length parts.now ≤ start + 1 }
    ensures joined { (ls : List Link) → AreKnownLinks (links_in texts.now nodes.old.items) ls
        → AreKnownLinks (links_in texts.now nodes.new.items)
        (ls ++ links (run_from start (map (text_of_part texts.now) parts.now))) }
    ensures within { (n : ℕ) → NodesWithin n nodes.old.items → PartsWithin n parts.now
        → NodesWithin n nodes.new.items }
{
    let known = nodes.len();
    drop(nodes.resize(known + parts.len(), UNUSED));
    let room = join_each(texts, nodes, known, start, parts);
    close(nodes, room);
}
