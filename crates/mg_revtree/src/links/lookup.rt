ghost use Rattle.std.specs.Prelude.{◌≡◌, ◌-◌, ◌<◌, ◌≤◌, IfErr, IfOk, List, length, map, option_copied, option_map, string_bytes};
ghost use Rattle.mg_revtree.specs.Revision.{run_from};
ghost use Rattle.mg_revtree.specs.History.{Link, fit, are_known_whole, links};
ghost use Rattle.mg_revtree.specs.Tree.{AreKnownLinks, AreSorted, find};
ghost use Rattle.mg_revtree.specs.Nodes.{links_in};
ghost use Rattle.mg_revtree.specs.Known.{parent_below};
ghost use Rattle.mg_revtree.specs.Steps.{BelongsAt, IsLinkAt, agrees_found, known_found};

use crate::links::node::Node;

/// Known revisions with their parents, in which a revision can be looked up.
pub(crate) trait LookUp {
    // the known revisions with their parents, as a list
    ghost known_links: { Self → List Link };

    /// Looks up a revision: the id of its parent, `Some(None)` if it has no known parent, `None` if it is unknown. Takes no memory.
    fn look_up_parent(&self, pos: u32, id: &[u8]) -> Option<Option<&[u8]>>
        ensures { option_map (λ p. parent_below pos (option_copied p)) result
            ≡ find (pos, id.now) (known_links self.now) };
}

/// Searches sorted nodes for a revision: `Ok` with its place, or `Err` with the place where it would go. Cost: the logarithm of the
/// nodes.
pub fn place(texts: &[u8], nodes: &[Node], pos: u32, id: &[u8]) -> Result<usize, usize>
    ensures found { IfOk result
        (λ i. (i < length nodes.now)
        × (AreSorted (links_in texts.now nodes.now)
        → IsLinkAt (pos, id.now) (links_in texts.now nodes.now) i)) }
    ensures absent { IfErr result
        (λ i. (i ≤ length nodes.now)
        × (AreSorted (links_in texts.now nodes.now)
        → BelongsAt (pos, id.now) (links_in texts.now nodes.now) i)) }
{
    nodes.binary_search_by(|node| node.order(texts, pos, id))
}

// Whether the known parent of a revision is the given one; true also if the revision is unknown, or if either parent is missing.
fn agrees<K: LookUp>(known: &K, pos: u32, id: &String, parent: Option<&String>) -> bool
    ensures { result
        ≡ agrees_found (find (pos, string_bytes id.now) (K.known_links known.now)) (option_map
        (λ p. (pos - 1, string_bytes p)) (option_copied parent.entry)) }
{
    match (known.look_up_parent(pos, id.as_bytes()), parent) {
        (Some(Some(kept)), Some(given)) => kept.cmp(given.as_bytes()).is_eq(),
        _ => true,
    }
}

/// Whether a run, given by its start and its ids, newest first, gives no known revision a parent other than the known one. Takes no
/// memory. Cost: a look-up for each revision of the run.
pub fn all_agree<K: LookUp>(known: &K, start: u32, ids: &[String]) -> bool
    ensures { (ls : List Link) → AreKnownLinks (K.known_links known.now) ls
        → result ≡ fit ls (links (run_from start (map string_bytes ids.now))) }
{
    let mut pos = start;
    for (i, id) in ids.iter().enumerate() {
        if !agrees(known, pos, id, ids.get(i + 1)) {
            return false;
        }
        pos = pos.saturating_sub(1);
    }
    true
}

// Whether a revision is known, and with the given parent, if one is given.
fn is_known_with<K: LookUp>(known: &K, pos: u32, id: &String, parent: Option<&String>) -> bool
    ensures { result
        ≡ known_found (find (pos, string_bytes id.now) (K.known_links known.now)) (option_map
        (λ p. (pos - 1, string_bytes p)) (option_copied parent.entry)) }
{
    match (known.look_up_parent(pos, id.as_bytes()), parent) {
        (Some(Some(kept)), Some(given)) => kept.cmp(given.as_bytes()).is_eq(),
        (Some(_), None) => true,
        _ => false,
    }
}

/// Whether all revisions of a run, given by its start and its ids, newest first, are known with the parents that the run gives them; true
/// for an empty run. Takes no memory. Cost: a look-up for each revision of the run.
pub fn all_known<K: LookUp>(known: &K, start: u32, ids: &[String]) -> bool
    ensures { (ls : List Link) → AreKnownLinks (K.known_links known.now) ls
        → result ≡ are_known_whole ls (links (run_from start (map string_bytes ids.now))) }
{
    let mut pos = start;
    for (i, id) in ids.iter().enumerate() {
        if !is_known_with(known, pos, id, ids.get(i + 1)) {
            return false;
        }
        pos = pos.saturating_sub(1);
    }
    true
}
