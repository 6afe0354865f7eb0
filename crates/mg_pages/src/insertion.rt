//! Insertions. What an insertion does not touch stays shared: the page and the levels on the way to it are copied if others share them.
//!
//! Errors: those of `tree`; then no element has changed.
ghost use Rattle.std.specs.Prelude.{◌≡◌, ◌<◌, ◌+◌, List, true, false, is_some, length, IfOk, OnOk, OnErr};
ghost use Rattle.std.specs.Arc.{arc_value};
ghost use Rattle.mg_pages.specs.Order.{Ascends, found, inserted};
ghost use Rattle.mg_pages.specs.Subtree.{IsLast, elements_of};
ghost use Rattle.mg_pages.specs.Tree.{node_elements};

use crate::keyed::Keyed;
use crate::mend::{SplitAt, split_at, split_full};
use crate::page::put_in_page;
use crate::search::place;
use crate::tree::{Child, Node, Tree, copy_tree, page_of};
use std::alloc::{AllocError, Global};
use std::sync::Arc;

// Duplicates the element that is the last one once `element` is put among elements that end with `last`.
fn last_with<T: Keyed>(last: &T, element: &T) -> Result<T, AllocError>
    ensures { IfOk result (λ a. (xs : List T) → Ascends T.order xs → IsLast last.now xs
        → IsLast a (inserted T.order element.now xs)) }
{
    let kept = if element.order(last).is_lt() {
        last
    } else {
        element
    };
    let kept = kept.again()?;
    Ok(kept)
}

/// Returns the count after an insertion. `more` is the count before it, plus one; `had` says whether an element was replaced, and then the
/// count stays what it was.
pub fn count_after_put(more: usize, had: bool) -> usize
    requires { 0 < more }
    ensures over { had ≡ true → result + 1 ≡ more }
    ensures new { had ≡ false → result ≡ more }
{
    if had { more - 1 } else { more }
}

/// Puts an element into the child where it belongs, which is then split if it is too large. Returns whether the element replaced one that
/// ties with it.
#[cycle(put)]
pub fn put_among<T: Keyed>(
    alloc: Global,
    children: &mut Vec<Child<T>>,
    element: T,
) -> Result<bool, AllocError>
    requires some { 0 < length children.old.items }
    requires sorted { Ascends T.order (elements_of children.old.items) }
    ensures had { IfOk result
        (λ had. had ≡ is_some (found (T.order element) (elements_of children.old.items))) }
    ensures ok { OnOk result (elements_of children.new.items
        ≡ inserted T.order element (elements_of children.old.items)) }
    ensures err { OnErr result (elements_of children.new.items ≡ elements_of children.old.items) }
{
    let i = place::<T, T>(children, &element);
    let at = split_at(&children[i], &element);
    let had = put_in_child(alloc, &mut children[i], element)?;
    split_full(alloc, children, i, at);
    Ok(had)
}

// Puts an element into a child.
#[cycle(put)]
fn put_in_child<T: Keyed>(
    alloc: Global,
    child: &mut Child<T>,
    element: T,
) -> Result<bool, AllocError>
    requires { Ascends T.order child.old.elements }
    ensures had { IfOk result (λ had. had ≡ is_some (found (T.order element) child.old.elements)) }
    ensures ok { OnOk result (child.new.elements ≡ inserted T.order element child.old.elements) }
    ensures err { OnErr result (child.new.elements ≡ child.old.elements) }
{
    let had = put_shared(alloc, &mut child.tree, element)?;
    child.hint = Keyed::hint(child.tree.last());
    Ok(had)
}

// Puts an element into a tree, which is copied first if others share it.
#[cycle(put)]
fn put_shared<T: Keyed>(
    alloc: Global,
    tree: &mut Arc<Tree<T>>,
    element: T,
) -> Result<bool, AllocError>
    requires { Ascends T.order (arc_value tree.old).elements }
    ensures had { IfOk result
        (λ had. had ≡ is_some (found (T.order element) (arc_value tree.old).elements)) }
    ensures ok { OnOk result ((arc_value tree.new).elements
        ≡ inserted T.order element (arc_value tree.old).elements) }
    ensures err { OnErr result ((arc_value tree.new).elements ≡ (arc_value tree.old).elements) }
{
    if let Some(own) = Arc::get_mut(tree) {
        return put_in_tree(alloc, own, element);
    }
    let mut own = copy_tree(alloc, tree)?;
    let had = put_in_tree(alloc, &mut own, element)?;
    *tree = Arc::new(alloc, own)?;
    Ok(had)
}

// Puts an element into a tree that nobody shares.
#[cycle(put)]
fn put_in_tree<T: Keyed>(alloc: Global, tree: &mut Tree<T>, element: T) -> Result<bool, AllocError>
    requires { Ascends T.order tree.old.elements }
    ensures had { IfOk result (λ had. had ≡ is_some (found (T.order element) tree.old.elements)) }
    ensures ok { OnOk result (tree.new.elements ≡ inserted T.order element tree.old.elements) }
    ensures err { OnErr result (tree.new.elements ≡ tree.old.elements) }
{
    let Some(more) = tree.count.checked_add(1) else {
        return Err(AllocError);
    };
    let last = last_with(&tree.last, &element)?;
    let had = put_in_node(alloc, &mut tree.node, element)?;
    tree.last = last;
    tree.count = count_after_put(more, had);
    Ok(had)
}

// Puts an element into a page, or below a level.
#[cycle(put)]
fn put_in_node<T: Keyed>(alloc: Global, node: &mut Node<T>, element: T) -> Result<bool, AllocError>
    requires some { 0 < length (node_elements node.old) }
    requires sorted { Ascends T.order (node_elements node.old) }
    ensures had { IfOk result (λ had. had ≡ is_some (found (T.order element) (node_elements node.old))) }
    ensures ok { OnOk result (node_elements node.new ≡ inserted T.order element (node_elements node.old)) }
    ensures err { OnErr result (node_elements node.new ≡ node_elements node.old) }
{
    match node {
        Node::Page(elements) => put_in_page(elements, element),
        Node::Level(children) => put_among(alloc, children, element),
    }
}

/// Puts an element into a root that may be empty, and returns whether it replaced one that ties with it.
pub fn put_in_root<T: Keyed>(
    alloc: Global,
    root: &mut Vec<Child<T>>,
    element: T,
) -> Result<bool, AllocError>
    requires { Ascends T.order (elements_of root.old.items) }
    ensures had { IfOk result
        (λ had. had ≡ is_some (found (T.order element) (elements_of root.old.items))) }
    ensures ok { OnOk result (elements_of root.new.items
        ≡ inserted T.order element (elements_of root.old.items)) }
    ensures err { OnErr result (elements_of root.new.items ≡ elements_of root.old.items) }
{
    if root.len() == 0 {
        let mut elements = Vec::with_capacity(alloc, 1)?;
        elements.push(element)?;
        let page = page_of(alloc, elements)?;
        root.push(page)?;
        return Ok(false);
    }
    put_among(alloc, root, element)
}
