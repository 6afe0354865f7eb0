ghost use Rattle.std.specs.Prelude.{◌≡◌, ◌+◌, ◌<◌, ◌≤◌, ◌++◌, List, [], IfOk, IfSome, OnErr, OnOk, length, map, option_copied, option_map, string_bytes};
ghost use Rattle.mg_revtree.specs.Revision.{run_from};
ghost use Rattle.mg_revtree.specs.History.{Link, links};
ghost use Rattle.mg_revtree.specs.Tree.{AreKnownLinks, AreSorted, find};
ghost use Rattle.mg_revtree.specs.Known.{parent_below, with_links};
ghost use Rattle.mg_revtree.specs.Pair.{pair_links};

use crate::capacity::reserve;
use crate::links::fold::fold_links;
use crate::links::lookup::place;
use crate::links::node::Node;
use crate::links::pair::{is_pair, pair_nodes};
use crate::links::parts::parts_for;
use crate::links::room::join_all;
use crate::revision::Rev;
use mg_value::NoMemory;
use std::alloc::Global;
use std::marker::Model;

// The spare capacity of a copy for the texts of ids: the 32 bytes of one edit's id, so that this edit does not reallocate them.
const SPARE_BYTES: usize = 32;

/// The spare capacity of a copy for nodes, so that one edit does not reallocate them.
pub const SPARE_NODES: usize = 2;

// Copies the items into a vector with capacity for `more` further items. Errors: `NoMemory` if an allocation fails.
fn copy_items<T: Copy>(alloc: Global, items: &[T], more: usize) -> Result<Vec<T>, NoMemory>
    ensures { IfOk result (λ made. made.items ≡ items.now) }
{
    let mut made = Vec::with_capacity(alloc, items.len().saturating_add(more))?;
    made.extend_from_slice(items)?;
    Ok(made)
}

/// Revisions with their parents, in the order of the revisions. Contracts see the list of them.
///
/// The id of each revision is kept once, in one text of all ids, and a revision with its parent is a node of a few
/// numbers: no revision has a block of memory of its own.
#[derive(Drop)]
pub struct Links {
    texts: Vec<u8>,
    nodes: Vec<Node>,
}

impl Model for Links {
    ghost use Rattle.std.specs.Prelude.{List, length};
    ghost use Rattle.std.specs.Coded.{coded_list};
    ghost use Rattle.mg_revtree.specs.History.{Link};
    ghost use Rattle.mg_revtree.specs.Tree.{link_code};
    ghost use Rattle.mg_revtree.specs.Nodes.{NodesWithin, links_in};

    ghost Value = { List Link };

    ghost coded = { coded_list link_code };

    ghost view = { λ l. links_in l.texts.items l.nodes.items };

    ghost invariant = { λ l. NodesWithin (length l.texts.items) l.nodes.items };
}

impl Links {
    /// Makes the list without revisions. Takes no memory.
    pub fn new(alloc: Global) -> Links
        ensures { result ≡ [] }
    {
        Links {
            texts: Vec::new(alloc),
            nodes: Vec::new(alloc),
        }
    }

    /// Returns the number of revisions.
    pub fn len(&self) -> usize
        ensures { result ≡ length self.now }
    {
        self.nodes.len()
    }

    /// Returns the allocator that the memory comes from.
    pub fn allocator(&self) -> Global {
        *self.nodes.allocator()
    }

    /// Looks up a revision: the id of its parent, `Some(None)` if it has no known parent, `None` if it is unknown. Cost: the
    /// logarithm of the revisions.
    pub fn look_up_parent(&self, pos: u32, id: &[u8]) -> Option<Option<&[u8]>>
        ensures { AreSorted self.now
            → option_map (λ p. parent_below pos (option_copied p)) result ≡ find (pos, id.now) self.now }
    {
        match place(&self.texts, &self.nodes, pos, id) {
            Ok(at) => Some(self.nodes[at].parent_id(&self.texts)),
            Err(_) => None,
        }
    }

    /// Adds a run, given by its start and its ids, newest first. Errors: `NoMemory` if an allocation fails, or if the text of all ids
    /// would take more than 4,294,967,295 bytes; nothing changes then. Cost: the length of the run times the logarithm of the revisions,
    /// and one pass over the run and the nodes after the lowest revision of the run that is not in the list. There are no such nodes if
    /// the run is a new revision over the greatest revision in the list.
    pub fn join(&mut self, start: u32, ids: &[String]) -> Result<(), NoMemory>
        requires { length ids.now ≤ start + 1 }
        ensures joined { OnOk result ((ls : List Link) → AreKnownLinks self.old ls
            → AreKnownLinks self.new (ls ++ links (run_from start (map string_bytes ids.now)))) }
        ensures err { OnErr result (self.new ≡ self.old) }
    {
        reserve(&mut self.nodes, ids.len())?;
        let old_len = self.texts.len();
        let parts = match parts_for(&mut self.texts, &self.nodes, start, ids) {
            Ok(parts) => parts,
            Err(refused) => {
                self.texts.truncate(old_len);
                return Err(refused);
            }
        };
        join_all(&self.texts, &mut self.nodes, start, &parts);
        Ok(())
    }

    /// Makes the links of a revision and its parent, which is given by its id and has no known parent. Errors: `NoMemory` if an
    /// allocation fails, or if the two ids take more than 4,294,967,295 bytes.
    pub fn of_pair(alloc: Global, rev: &Rev, parent: &[u8]) -> Result<Links, NoMemory>
        ensures { IfOk result (λ links. links ≡ pair_links rev.now parent.now) }
    {
        let id = rev.id.as_bytes();
        let bytes = parent
            .len()
            .saturating_add(id.len())
            .saturating_add(SPARE_BYTES);
        let mut texts = Vec::with_capacity(alloc, bytes)?;
        let (below, child) = pair_nodes(&mut texts, rev.pos, id, parent)?;
        let mut nodes = Vec::with_capacity(alloc, 2 + SPARE_NODES)?;
        nodes.push(below)?;
        nodes.push(child)?;
        Ok(Links { texts, nodes })
    }

    /// Returns the id of a revision's parent. `None` unless the links are exactly those of the two, and the parent has no known parent.
    /// Takes no memory.
    pub fn parent_in_pair(&self, rev: &Rev) -> Option<&[u8]>
        ensures { IfSome result
            (λ parent. (0 < rev.now.0) × (self.now ≡ pair_links rev.now parent.now)) }
    {
        if self.nodes.len() != 2 {
            return None;
        }
        let below = self.nodes[0];
        if !is_pair(&self.texts, below, self.nodes[1], rev) {
            return None;
        }
        Some(below.id.of(&self.texts))
    }

    /// Copies the links. Errors: `NoMemory` if an allocation fails. Cost: a copy of two blocks, with no work for each revision.
    pub fn copy(&self, alloc: Global) -> Result<Links, NoMemory>
        ensures { IfOk result (λ links. links ≡ self.now) }
    {
        Ok(Links {
            texts: copy_items(alloc, &self.texts, SPARE_BYTES)?,
            nodes: copy_items(alloc, &self.nodes, SPARE_NODES)?,
        })
    }

    /// Makes a list of these links with newer ones joined. Errors: those of `fold_links`. Cost: that of `fold_links`, and a copy of the
    /// text of all ids.
    pub fn with(&self, alloc: Global, newer: &Links) -> Result<Links, NoMemory>
        ensures { IfOk result
            (λ links. AreSorted self.now → AreSorted newer.now → links ≡ with_links self.now newer.now) }
    {
        let mut texts = copy_items(
            alloc,
            &self.texts,
            newer.texts.len().saturating_add(SPARE_BYTES),
        )?;
        let nodes = fold_links(alloc, &mut texts, &self.nodes, &newer.texts, &newer.nodes)?;
        Ok(Links { texts, nodes })
    }
}
