ghost use Rattle.std.specs.Prelude.{◌≡◌, option_copied};
ghost use Rattle.mg_revtree.specs.Revision.{revision_order};
ghost use Rattle.std.specs.Option.{option_or};
ghost use Rattle.mg_revtree.specs.Nodes.{link_in, text_of_part};
ghost use Rattle.mg_revtree.specs.Known.{parent_below};

use std::cmp::Ordering;

/// Where an id is in the text of all ids: the place of its first byte, and its length. Both have 32 bits, so that a node takes 24
/// bytes.
#[derive(Clone, Copy, Debug)]
pub struct IdPart {
    pub from: u32,
    pub len: u32,
}

impl IdPart {
    /// Returns the bytes of the id. Bytes beyond the end of the texts are left out.
    pub fn of(self, texts: &[u8]) -> &[u8]
        ensures { result.now ≡ text_of_part texts.now self }
    {
        let rest = &texts[texts.len().min(self.from as usize)..];
        &rest[..rest.len().min(self.len as usize)]
    }
}

/// A link, kept as numbers: the position of a known revision, where its id is in the text of all ids, and, if its parent is known, where
/// the parent's id is. The parent is at the position below.
#[derive(Clone, Copy, Debug)]
pub struct Node {
    pub pos: u32,
    pub id: IdPart,
    pub parent: Option<IdPart>,
}

impl Node {
    /// Compares the node's revision to the one of this position and id.
    pub fn order(&self, texts: &[u8], pos: u32, id: &[u8]) -> Ordering
        ensures { result ≡ revision_order (link_in texts.now self.now).rev (pos, id.now) }
    {
        self.pos.cmp(&pos).then(self.id.of(texts).cmp(id))
    }

    /// Sets the parent, if none is known.
    pub fn join(&mut self, parent: Option<IdPart>)
        ensures { self.new ≡ record self.old { parent = option_or self.old.parent parent } }
    {
        if self.parent.is_none() {
            self.parent = parent;
        }
    }

    /// Returns the id of the parent, if the parent is known.
    pub fn parent_id(self, texts: &[u8]) -> Option<&[u8]>
        ensures { parent_below self.pos (option_copied result) ≡ (link_in texts.now self).parent }
    {
        match self.parent {
            Some(parent) => Some(parent.of(texts)),
            None => None,
        }
    }
}
