//! Removals. What a removal does not touch stays shared: the page and the levels on the way to it are copied if others share them.
//!
//! Errors: those of `tree`; then no element has changed.
ghost use Rattle.std.specs.Prelude.{◌≡◌, ◌<◌, length, IfOk, IsSome, OnOk, OnErr};
ghost use Rattle.std.specs.Arc.{arc_value};
ghost use Rattle.mg_pages.specs.Order.{Ascends, below, found, removed};
ghost use Rattle.mg_pages.specs.Runs.{IsEndRun};
ghost use Rattle.mg_pages.specs.Subtree.{IsLast, elements_of};
ghost use Rattle.mg_pages.specs.Tree.{node_elements};

use crate::keyed::{Keyed, Probe};
use crate::look::run_before;
use crate::mend::join_small;
use crate::page::{before_in_page, take_out_of_page};
use crate::search::place;
use crate::tree::{Child, Node, Tree, copy_tree};
use std::alloc::{AllocError, Global};
use std::sync::Arc;

// Lends the last elements below a key, from the start of their page; empty if there are no such elements.
fn run_before_in<'a, T: Keyed, Q: Probe<T>>(tree: &'a Tree<T>, key: &Q) -> &'a [T]
    requires { Ascends T.order tree.now.elements }
    ensures { IsEndRun result.now (below (Q.against key.now) tree.now.elements) }
{
    match &tree.node {
        Node::Page(elements) => before_in_page::<T, Q>(elements, key),
        Node::Level(children) => run_before::<T, Q>(children, key),
    }
}

// Duplicates the element that is the last one once the element that ties with a key is removed; the last one if no element is left.
fn last_without<T: Keyed, Q: Probe<T>>(tree: &Tree<T>, key: &Q) -> Result<T, AllocError>
    requires { Ascends T.order tree.now.elements }
    ensures { IfOk result (λ a. 0 < length (removed (Q.against key.now) tree.now.elements)
        → IsLast a (removed (Q.against key.now) tree.now.elements)) }
{
    let last = tree.last();
    if key.against(last).is_lt() {
        let kept = last.again()?;
        return Ok(kept);
    }
    let run = run_before_in::<T, Q>(tree, key);
    if run.len() > 0 {
        let kept = run[run.len() - 1].again()?;
        return Ok(kept);
    }
    let kept = last.again()?;
    Ok(kept)
}

/// Removes the element that ties with a key; there must be such an element. A child that is then empty is removed too; one that is small is
/// joined with its neighbour.
#[cycle(take_out)]
pub fn take_out_among<T: Keyed, Q: Probe<T>>(
    alloc: Global,
    children: &mut Vec<Child<T>>,
    key: &Q,
) -> Result<(), AllocError>
    requires sorted { Ascends T.order (elements_of children.old.items) }
    requires there { IsSome (found (Q.against key.now) (elements_of children.old.items)) }
    ensures ok { OnOk result (elements_of children.new.items
        ≡ removed (Q.against key.now) (elements_of children.old.items)) }
    ensures err { OnErr result (elements_of children.new.items ≡ elements_of children.old.items) }
{
    if children.len() == 0 {
        return Ok(());
    }
    let i = place::<T, Q>(children, key);
    if children[i].tree().count() == 1 {
        drop(children.remove(i));
        return Ok(());
    }
    take_out_of_child::<T, Q>(alloc, &mut children[i], key)?;
    join_small(alloc, children, i);
    Ok(())
}

// Removes the element that ties with a key from a child that has others.
#[cycle(take_out)]
fn take_out_of_child<T: Keyed, Q: Probe<T>>(
    alloc: Global,
    child: &mut Child<T>,
    key: &Q,
) -> Result<(), AllocError>
    requires several { 1 < length child.old.elements }
    requires sorted { Ascends T.order child.old.elements }
    requires there { IsSome (found (Q.against key.now) child.old.elements) }
    ensures ok { OnOk result (child.new.elements ≡ removed (Q.against key.now) child.old.elements) }
    ensures err { OnErr result (child.new.elements ≡ child.old.elements) }
{
    take_out_of_shared::<T, Q>(alloc, &mut child.tree, key)?;
    child.hint = Keyed::hint(child.tree.last());
    Ok(())
}

// Removes the element that ties with a key from a tree that has others, and is copied first if it is shared.
#[cycle(take_out)]
fn take_out_of_shared<T: Keyed, Q: Probe<T>>(
    alloc: Global,
    tree: &mut Arc<Tree<T>>,
    key: &Q,
) -> Result<(), AllocError>
    requires several { 1 < length (arc_value tree.old).elements }
    requires sorted { Ascends T.order (arc_value tree.old).elements }
    requires there { IsSome (found (Q.against key.now) (arc_value tree.old).elements) }
    ensures ok { OnOk result ((arc_value tree.new).elements
        ≡ removed (Q.against key.now) (arc_value tree.old).elements) }
    ensures err { OnErr result ((arc_value tree.new).elements ≡ (arc_value tree.old).elements) }
{
    if let Some(own) = Arc::get_mut(tree) {
        return take_out_of_tree::<T, Q>(alloc, own, key);
    }
    let mut own = copy_tree(alloc, tree)?;
    take_out_of_tree::<T, Q>(alloc, &mut own, key)?;
    *tree = Arc::new(alloc, own)?;
    Ok(())
}

// Removes the element that ties with a key from a tree that has others, and that nobody shares.
#[cycle(take_out)]
fn take_out_of_tree<T: Keyed, Q: Probe<T>>(
    alloc: Global,
    tree: &mut Tree<T>,
    key: &Q,
) -> Result<(), AllocError>
    requires several { 1 < length tree.old.elements }
    requires sorted { Ascends T.order tree.old.elements }
    requires there { IsSome (found (Q.against key.now) tree.old.elements) }
    ensures ok { OnOk result (tree.new.elements ≡ removed (Q.against key.now) tree.old.elements) }
    ensures err { OnErr result (tree.new.elements ≡ tree.old.elements) }
{
    let last = last_without::<T, Q>(tree, key)?;
    take_out_of_node::<T, Q>(alloc, &mut tree.node, key)?;
    tree.last = last;
    tree.count -= 1;
    Ok(())
}

// Removes the element that ties with a key from a page, or from below a level.
#[cycle(take_out)]
fn take_out_of_node<T: Keyed, Q: Probe<T>>(
    alloc: Global,
    node: &mut Node<T>,
    key: &Q,
) -> Result<(), AllocError>
    requires sorted { Ascends T.order (node_elements node.old) }
    requires there { IsSome (found (Q.against key.now) (node_elements node.old)) }
    ensures ok { OnOk result (node_elements node.new ≡ removed (Q.against key.now) (node_elements node.old)) }
    ensures err { OnErr result (node_elements node.new ≡ node_elements node.old) }
{
    match node {
        Node::Page(elements) => {
            take_out_of_page::<T, Q>(elements, key);
            Ok(())
        }
        Node::Level(children) => take_out_among::<T, Q>(alloc, children, key),
    }
}
