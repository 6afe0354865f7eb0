ghost use Rattle.std.specs.Prelude.{◌≡◌, IfOk, length, map, string_bytes};
ghost use Rattle.mg_revtree.specs.Tree.{AreSorted};
ghost use Rattle.mg_revtree.specs.Nodes.{NodesWithin, IsExtendedBy, LiesWithin, PartsWithin, links_in, text_of_part};

use crate::links::lookup::place;
use crate::links::node::{IdPart, Node};
use mg_value::NoMemory;

// The texts take at most this many bytes, so that a place in them has 32 bits.
const MOST_BYTES: usize = 4_294_967_295;

/// Adds an id to the texts, and returns the part that holds it. Errors: `NoMemory` if an allocation fails, or if the texts would take
/// more than `MOST_BYTES`.
pub fn add(texts: &mut Vec<u8>, id: &[u8]) -> Result<IdPart, NoMemory>
    ensures grows { IsExtendedBy texts.old.items texts.new.items }
    ensures part { IfOk result
        (λ p. LiesWithin (length texts.new.items) p × (text_of_part texts.new.items p ≡ id.now)) }
{
    if texts.len().saturating_add(id.len()) > MOST_BYTES {
        return Err(NoMemory);
    }
    let part = IdPart {
        from: texts.len() as u32,
        len: id.len() as u32,
    };
    texts.extend_from_slice(id)?;
    Ok(part)
}

/// Returns the part that holds the id of a revision. If no node has the revision, adds its id to the texts. Errors: those of `add`.
pub fn part_for(
    texts: &mut Vec<u8>,
    nodes: &[Node],
    pos: u32,
    id: &[u8],
) -> Result<IdPart, NoMemory>
    ensures grows { IsExtendedBy texts.old.items texts.new.items }
    ensures within { IfOk result
        (λ p. NodesWithin (length texts.old.items) nodes.now → LiesWithin (length texts.new.items) p) }
    ensures part { IfOk result
        (λ p. AreSorted (links_in texts.old.items nodes.now) → text_of_part texts.new.items p ≡ id.now) }
{
    match place(texts, nodes, pos, id) {
        Ok(at) => Ok(nodes[at].id),
        Err(_) => add(texts, id),
    }
}

/// Returns the parts that hold the ids of a run, given by its start and its ids, newest first. Adds to the texts the ids of the revisions
/// that no node has. Errors: those of `add`, and `NoMemory` if the list of parts cannot be allocated; ids that were added before an error
/// stay in the texts.
pub fn parts_for(
    texts: &mut Vec<u8>,
    nodes: &[Node],
    start: u32,
    ids: &[String],
) -> Result<Vec<IdPart>, NoMemory>
    ensures grows { IsExtendedBy texts.old.items texts.new.items }
    ensures within { IfOk result
        (λ ps. NodesWithin (length texts.old.items) nodes.now → PartsWithin (length texts.new.items) ps.items) }
    ensures parts { IfOk result
        (λ ps. NodesWithin (length texts.old.items) nodes.now → AreSorted (links_in texts.old.items nodes.now)
        → map (text_of_part texts.new.items) ps.items ≡ map string_bytes ids.now) }
    ensures len { IfOk result (λ ps. length ps.items ≡ length ids.now) }
{
    let mut parts = Vec::with_capacity(*texts.allocator(), ids.len())?;
    let mut pos = start;
    for id in ids {
        let part = part_for(texts, nodes, pos, id.as_bytes())?;
        parts.push(part)?;
        pos = pos.saturating_sub(1);
    }
    Ok(parts)
}
