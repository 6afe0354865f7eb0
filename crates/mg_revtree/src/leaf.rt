ghost use Rattle.std.specs.Prelude.{◌≡◌, IfOk};
ghost use Rattle.mg_value.specs.View.{view};
ghost use Rattle.mg_revtree.specs.Body.{IsFormOf};
ghost use Rattle.mg_revtree.specs.History.{leaf_order};
ghost use Rattle.mg_revtree.specs.Steps.{marked_as};

use crate::body::Body;
use crate::form::Form;
use crate::revision::Rev;
use mg_value::NoMemory;
use std::alloc::Global;
use std::cmp::Ordering;
use std::marker::Model;
use std::sync::Arc;

/// A revision that is the parent of no other, with its deletion mark and its body.
#[derive(Drop)]
pub struct Leaf {
    pub rev: Rev,
    /// Whether the revision deletes the document.
    pub deleted: bool,
    /// The body, in at most one block of memory.
    pub body: Body,
}

impl Model for Leaf {
    ghost use Rattle.mg_revtree.specs.History.{Leaf as LeafValue};
    ghost use Rattle.mg_revtree.specs.Tree.{leaf_code};

    ghost Value = { LeafValue };

    ghost coded = { leaf_code };

    ghost view = { λ l. record { rev = l.rev; deleted = l.deleted; body = l.body } };
}

impl Leaf {
    /// Orders leaves; the greatest wins. A leaf that is not deleted is greater than a deleted one; then the higher position is
    /// greater; then the greater id.
    pub fn order(&self, other: &Leaf) -> Ordering
        ensures { result ≡ leaf_order self.now other.now }
    {
        (!self.deleted)
            .cmp(&!other.deleted)
            .then(self.rev.order(&other.rev))
    }

    // Compares two leaves: one that has the given mark and revision, and this one, in that order.
    pub(crate) fn against(&self, deleted: bool, pos: u32, id: &[u8]) -> Ordering
        ensures { result ≡ leaf_order (marked_as deleted (pos, id.now)) self.now }
    {
        (!deleted)
            .cmp(&!self.deleted)
            .then(self.rev.against(pos, id))
    }
}

/// A leaf that the copies of a tree share. Contracts see the leaf.
#[derive(Drop)]
pub(crate) struct SharedLeaf {
    leaf: Arc<Leaf>,
}

impl Model for SharedLeaf {
    ghost use Rattle.std.specs.Arc.{arc_value};
    ghost use Rattle.mg_revtree.specs.History.{Leaf as LeafValue};
    ghost use Rattle.mg_revtree.specs.Tree.{leaf_code};

    ghost Value = { LeafValue };

    ghost coded = { leaf_code };

    ghost view = { λ s. arc_value s.leaf };
}

impl SharedLeaf {
    /// Puts a leaf into a block that the copies of a tree can share. Errors: `NoMemory` if an allocation fails.
    pub fn new(alloc: Global, leaf: Leaf) -> Result<SharedLeaf, NoMemory>
        ensures { IfOk result (λ shared. shared ≡ leaf) }
    {
        Ok(SharedLeaf {
            leaf: Arc::new(alloc, leaf)?,
        })
    }

    /// Returns the leaf.
    pub fn leaf(&self) -> &Leaf
        ensures { result.now ≡ self.now }
    {
        &self.leaf
    }

    /// Moves the leaf's body into the block of `form`, as `Body::move_into` does. Changes nothing if a copy of the tree shares the leaf.
    /// Takes no memory.
    pub fn move_into(&mut self, form: Form)
        requires { IsFormOf self.old.body form }
        ensures { self.new ≡ self.old }
    {
        if let Some(leaf) = Arc::get_mut(&mut self.leaf) {
            leaf.body.move_into(form);
        }
    }

    /// Makes another reference to the leaf. Takes no memory. Errors: `NoMemory` if there are too many references.
    pub fn share(&self) -> Result<SharedLeaf, NoMemory>
        ensures { IfOk result (λ shared. shared ≡ self.now) }
    {
        Ok(SharedLeaf {
            leaf: self.leaf.clone()?,
        })
    }
}
