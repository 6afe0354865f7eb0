ghost use Rattle.std.specs.Prelude.{◌≡◌, ◌-◌, ◌<◌, [], ◌∷◌, IfOk, None, length, true};
ghost use Rattle.mg_revtree.specs.Nodes.{NodesWithin, links_in, text_of_part};
ghost use Rattle.mg_revtree.specs.Pair.{pair_links};

use crate::links::node::Node;
use crate::links::parts::add;
use crate::revision::Rev;
use mg_value::NoMemory;

// Whether a node is one position below `pos`, and has no known parent.
fn is_root_below(node: Node, pos: u32) -> bool
    ensures { result ≡ true → (0 < pos) × (node.pos ≡ pos - 1) × (node.parent ≡ None) }
{
    pos > 0 && node.pos == pos - 1 && node.parent.is_none()
}

/// Whether `child` is the node of `rev`, and `below` that of its parent, which has no known parent.
pub fn is_pair(texts: &[u8], below: Node, child: Node, rev: &Rev) -> bool
    ensures { result ≡ true → (0 < rev.now.0) × (links_in texts.now (below ∷ child ∷ [])
        ≡ pair_links rev.now (text_of_part texts.now below.id)) }
{
    if !is_root_below(below, rev.pos) {
        return false;
    }
    if !child.order(texts, rev.pos, rev.id.as_bytes()).is_eq() {
        return false;
    }
    match child.parent {
        Some(parent) => parent.of(texts).cmp(below.id.of(texts)).is_eq(),
        None => false,
    }
}

/// Makes the nodes of a revision's parent, given by its id, and of the revision, in this order. The parent has no known parent. Adds both
/// ids to the texts. Errors: those of `add`; an id that was added before an error stays in the texts.
pub fn pair_nodes(
    texts: &mut Vec<u8>,
    pos: u32,
    id: &[u8],
    parent: &[u8],
) -> Result<(Node, Node), NoMemory>
    ensures within { IfOk result (λ r. NodesWithin (length texts.new.items) (r.0 ∷ r.1 ∷ [])) }
    ensures links { IfOk result
        (λ r. links_in texts.new.items (r.0 ∷ r.1 ∷ []) ≡ pair_links (pos, id.now) parent.now) }
{
    let below = add(texts, parent)?;
    let child = add(texts, id)?;
    Ok((
        Node {
            pos: pos.saturating_sub(1),
            id: below,
            parent: None,
        },
        Node {
            pos,
            id: child,
            parent: Some(below),
        },
    ))
}
