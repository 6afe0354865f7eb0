//! The tree of a collection: pages of elements, and levels above them. A `Child` is a reference to a page, or to a level with all below it.
//! Copies of a level share its children, so a copy changes one reference count for each of them.
//!
//! Errors: `AllocError` if an allocation fails, or a block that gets another owner has 2^63 - 1 owners; then no element has changed.
ghost use Rattle.std.specs.Prelude.{◌≡◌, ◌<◌, ◌^◌, length, IfOk};
ghost use Rattle.mg_pages.specs.Subtree.{IsLast, elements_of};
ghost use Rattle.mg_pages.specs.Tree.{IsNodeAt, node_elements, node_levels};

use crate::element::{Element, copy_elements};
use crate::keyed::Keyed;
use std::alloc::{AllocError, Global};
use std::marker::Model;
use std::sync::Arc;

/// A page or a level, never empty, with its last element, so that a search need not read what is below, and the number of elements that are
/// in it. Contracts see the elements, and the number of levels above the pages.
#[cycle(tree)]
#[derive(Drop)]
pub struct Tree<T: Element> {
    pub(crate) last: T,
    pub(crate) count: usize,
    pub(crate) node: Node<T>,
}

/// A page of elements, or a level of children; each in order.
#[cycle(tree)]
#[derive(Drop)]
pub enum Node<T: Element> {
    Page(Vec<T>),
    Level(Vec<Child<T>>),
}

/// A tree that copies of a level share, and the hint of its last element.
#[cycle(tree)]
#[derive(Drop)]
pub struct Child<T: Element> {
    pub(crate) hint: u64,
    pub(crate) tree: Arc<Tree<T>>,
}

impl<T: Element> Model for Tree<T> {
    ghost use Rattle.mg_pages.specs.Subtree.{Subtree};

    ghost Value = { Subtree T };

    ghost use Rattle.mg_pages.specs.Tree.{node_elements, node_levels, IsTree};

    ghost view = { λ t. record { elements = node_elements t.node; levels = node_levels t.node } };

    ghost invariant = { λ t. IsTree t.last t.count (node_elements t.node) };

    ghost use Rattle.mg_pages.specs.Subtree.{tree_rank};

    ghost size = { tree_rank };

    ghost use Rattle.mg_pages.specs.Falls.{node_falls};

    ghost size_decreases = { λ t h. node_falls t.node };
}

impl<T: Element> Model for Child<T> {
    ghost use Rattle.mg_pages.specs.Subtree.{Subtree};

    ghost Value = { Subtree T };

    ghost use Rattle.std.specs.Arc.{arc_value};

    ghost view = { λ c. arc_value c.tree };

    ghost use Rattle.mg_pages.specs.Subtree.{child_rank};

    ghost size = { child_rank };

    ghost use Rattle.mg_pages.specs.Falls.{child_falls};

    ghost size_decreases = { λ c h. child_falls c.tree };
}

impl<T: Element> Element for Child<T> {
    fn again(&self) -> Result<Child<T>, AllocError> {
        let tree = self.tree.clone()?;
        let hint = self.hint;
        Ok(Child { hint, tree })
    }

    fn owners(&self) -> usize {
        Arc::strong_count(&self.tree)
    }
}

impl<T: Element> Tree<T> {
    /// How many elements there are.
    pub fn count(&self) -> usize
        ensures { result ≡ length self.now.elements }
    {
        self.count
    }

    /// Lends the last element.
    pub fn last(&self) -> &T
        ensures { IsLast result.now self.now.elements }
    {
        &self.last
    }
}

impl<T: Element> Child<T> {
    /// Lends what the child refers to.
    pub fn tree(&self) -> &Tree<T>
        ensures { result.now ≡ self.now }
    {
        &self.tree
    }
}

// Makes a child of a tree.
fn child_of<T: Keyed>(alloc: Global, tree: Tree<T>) -> Result<Child<T>, AllocError>
    ensures { IfOk result (λ c. c ≡ tree) }
{
    let hint = Keyed::hint(&tree.last);
    let tree = Arc::new(alloc, tree)?;
    Ok(Child { hint, tree })
}

/// Makes a page.
pub fn page_of<T: Keyed>(alloc: Global, elements: Vec<T>) -> Result<Child<T>, AllocError>
    requires { 0 < length elements.items }
    ensures { IfOk result (λ c. c.elements ≡ elements.items) }
{
    let count = elements.len();
    let last = elements[count - 1].again()?;
    let node = Node::Page(elements);
    child_of(alloc, Tree { last, count, node })
}

/// Makes a level. Cost: reads the count of each child.
pub fn level_of<T: Keyed>(alloc: Global, children: Vec<Child<T>>) -> Result<Child<T>, AllocError>
    requires some { 0 < length children.items }
    requires few { length (elements_of children.items) < 2 ^ 64 }
    ensures { IfOk result (λ c. c.elements ≡ elements_of children.items) }
{
    let count = count_of(&children);
    let last = children[children.len() - 1].tree().last().again()?;
    let node = Node::Level(children);
    child_of(alloc, Tree { last, count, node })
}

/// Adds up how many elements the children have. Cost: reads the count of each child.
pub fn count_of<T: Element>(children: &[Child<T>]) -> usize
    requires { length (elements_of children.now) < 2 ^ 64 }
    ensures { result ≡ length (elements_of children.now) }
{
    let mut count = 0;
    for child in children {
        count += child.tree().count();
    }
    count
}

/// Lends what the child at `i` is: a page, or a level.
pub fn node_at<T: Element>(children: &[Child<T>], i: usize) -> &Node<T>
    requires { i < length children.now }
    ensures { IsNodeAt result.now children.now i }
{
    let child = &children[i];
    let tree: &Tree<T> = &child.tree;
    &tree.node
}

// Copies a page, or a level, whose children the copy shares.
fn copy_node<T: Element>(alloc: Global, node: &Node<T>) -> Result<Node<T>, AllocError>
    ensures elements { IfOk result (λ n. node_elements n ≡ node_elements node.now) }
    ensures levels { IfOk result (λ n. node_levels n ≡ node_levels node.now) }
{
    match node {
        Node::Page(elements) => {
            let elements = copy_elements(alloc, elements)?;
            Ok(Node::Page(elements))
        }
        Node::Level(children) => {
            let children = copy_elements(alloc, children)?;
            Ok(Node::Level(children))
        }
    }
}

/// Copies a tree. The copy shares what is below its page or level.
pub fn copy_tree<T: Element>(alloc: Global, tree: &Tree<T>) -> Result<Tree<T>, AllocError>
    ensures { IfOk result (λ t. t ≡ tree.now) }
{
    let last = tree.last.again()?;
    let count = tree.count;
    let node = copy_node(alloc, &tree.node)?;
    Ok(Tree { last, count, node })
}
