//! Pages and levels that are too large are split, and small neighbours are joined. Where there is no memory for it, they stay as they are: no
//! result depends on it.
ghost use Rattle.std.specs.Prelude.{◌≡◌, ◌<◌, ◌+◌, ◌^◌, ◌++◌, ◌∷◌, drop, length, take, IfOk, IfSome, OnErr, OnOk};
ghost use Rattle.mg_pages.specs.Subtree.{elements_of};

use crate::build::group;
use crate::element::{copy_elements, join_elements};
use crate::keyed::Keyed;
use crate::sizes::{LEVEL_JOIN, LEVEL_LIMIT, PAGE_JOIN, PAGE_LIMIT};
use crate::tree::{Child, Node, Tree, level_of, node_at, page_of};
use std::alloc::{AllocError, Global};

/// Where a page or a level is split.
#[derive(Clone, Copy)]
pub enum SplitAt {
    /// By halves.
    Middle,
    /// Before its last entry, so that the pages of keys that come in ascending order are full.
    End,
}

/// Where a child is to be split once an element is put into it: at its end if the element is above all that are there.
pub fn split_at<T: Keyed>(child: &Child<T>, element: &T) -> SplitAt {
    if element.order(child.tree().last()).is_gt() {
        SplitAt::End
    } else {
        SplitAt::Middle
    }
}

// How many of `count` entries are before the place where they are split.
fn front_len(count: usize, at: SplitAt) -> usize
    requires { 1 < count }
    ensures some { 0 < result }
    ensures less { result < count }
{
    match at {
        SplitAt::Middle => count / 2,
        SplitAt::End => count - 1,
    }
}

// Splits a page in two; `None` if it is not too large.
fn split_page<T: Keyed>(
    alloc: Global,
    elements: &[T],
    at: SplitAt,
) -> Result<Option<(Child<T>, Child<T>)>, AllocError>
    ensures { IfOk result (λ o. IfSome o (λ h. h.0.elements ++ h.1.elements ≡ elements.now)) }
{
    if elements.len() <= PAGE_LIMIT {
        return Ok(None);
    }
    let (front, back) = elements.split_at(front_len(elements.len(), at));
    let front = copy_elements(alloc, front)?;
    let back = copy_elements(alloc, back)?;
    let front = page_of(alloc, front)?;
    let back = page_of(alloc, back)?;
    Ok(Some((front, back)))
}

// Splits a level in two; `None` if it is not too large.
fn split_level<T: Keyed>(
    alloc: Global,
    children: &[Child<T>],
    at: SplitAt,
) -> Result<Option<(Child<T>, Child<T>)>, AllocError>
    requires { length (elements_of children.now) < 2 ^ 64 }
    ensures { IfOk result (λ o. IfSome o (λ h. h.0.elements ++ h.1.elements ≡ elements_of children.now)) }
{
    if children.len() <= LEVEL_LIMIT {
        return Ok(None);
    }
    let (front, back) = children.split_at(front_len(children.len(), at));
    let front = copy_elements(alloc, front)?;
    let back = copy_elements(alloc, back)?;
    let front = level_of(alloc, front)?;
    let back = level_of(alloc, back)?;
    Ok(Some((front, back)))
}

// Splits a tree in two; `None` if it is not too large.
fn split<T: Keyed>(
    alloc: Global,
    tree: &Tree<T>,
    at: SplitAt,
) -> Result<Option<(Child<T>, Child<T>)>, AllocError>
    ensures { IfOk result (λ o. IfSome o (λ h. h.0.elements ++ h.1.elements ≡ tree.now.elements)) }
{
    // called only for its contract: there are fewer than 2^64 elements
    let _all = tree.count();
    match &tree.node {
        Node::Page(elements) => split_page(alloc, elements, at),
        Node::Level(children) => split_level(alloc, children, at),
    }
}

// Replaces the child at `i` by two. Errors: `AllocError` if an allocation fails; then `children` is as it was.
fn replace<T: Keyed>(
    children: &mut Vec<Child<T>>,
    i: usize,
    front: Child<T>,
    back: Child<T>,
) -> Result<(), AllocError>
    requires { i < length children.old.items }
    ensures ok { OnOk result (children.new.items
        ≡ take i children.old.items ++ front ∷ back ∷ drop (i + 1) children.old.items) }
    ensures err { OnErr result (children.new.items ≡ children.old.items) }
{
    children.insert(i + 1, back)?;
    children[i] = front;
    Ok(())
}

// Splits the child at `i` in two if it is too large.
fn try_split<T: Keyed>(
    alloc: Global,
    children: &mut Vec<Child<T>>,
    i: usize,
    at: SplitAt,
) -> Result<(), AllocError>
    requires { i < length children.old.items }
    ensures { elements_of children.new.items ≡ elements_of children.old.items }
{
    match split(alloc, children[i].tree(), at)? {
        None => Ok(()),
        Some((front, back)) => {
            replace(children, i, front, back)?;
            Ok(())
        }
    }
}

/// Splits the child at `i` in two if it is too large, and there is memory for it.
pub fn split_full<T: Keyed>(alloc: Global, children: &mut Vec<Child<T>>, i: usize, at: SplitAt)
    requires { i < length children.old.items }
    ensures { elements_of children.new.items ≡ elements_of children.old.items }
{
    let _ = try_split(alloc, children, i, at);
}

// Joins two pages; `None` if they are too large.
fn join_pages<T: Keyed>(
    alloc: Global,
    front: &[T],
    back: &[T],
) -> Result<Option<Child<T>>, AllocError>
    requires { 0 < length front.now }
    ensures { IfOk result (λ o. IfSome o (λ c. c.elements ≡ front.now ++ back.now)) }
{
    if front.len().saturating_add(back.len()) > PAGE_JOIN {
        return Ok(None);
    }
    let all = join_elements(alloc, front, back)?;
    let page = page_of(alloc, all)?;
    Ok(Some(page))
}

// Joins two levels; `None` if they are too large.
fn join_levels<T: Keyed>(
    alloc: Global,
    front: &[Child<T>],
    back: &[Child<T>],
) -> Result<Option<Child<T>>, AllocError>
    requires some { 0 < length (elements_of front.now) }
    requires few { length (elements_of front.now ++ elements_of back.now) < 2 ^ 64 }
    ensures { IfOk result (λ o. IfSome o (λ c. c.elements ≡ elements_of front.now ++ elements_of back.now)) }
{
    if front.len().saturating_add(back.len()) > LEVEL_JOIN {
        return Ok(None);
    }
    let all = join_elements(alloc, front, back)?;
    let level = level_of(alloc, all)?;
    Ok(Some(level))
}

// Joins two trees; `None` if they are too large.
fn join<T: Keyed>(
    alloc: Global,
    front: &Tree<T>,
    back: &Tree<T>,
) -> Result<Option<Child<T>>, AllocError>
    ensures { IfOk result (λ o. IfSome o (λ c. c.elements ≡ front.now.elements ++ back.now.elements)) }
{
    let Some(_all) = front.count.checked_add(back.count) else {
        return Ok(None);
    };
    match (&front.node, &back.node) {
        (Node::Page(front), Node::Page(back)) => join_pages(alloc, front, back),
        (Node::Level(front), Node::Level(back)) => join_levels(alloc, front, back),
        _ => Ok(None),
    }
}

// Joins the child before `next` with the one at `next` if they are small together.
fn try_join<T: Keyed>(
    alloc: Global,
    children: &mut Vec<Child<T>>,
    next: usize,
) -> Result<(), AllocError>
    requires some { 0 < next }
    requires within { next < length children.old.items }
    ensures { elements_of children.new.items ≡ elements_of children.old.items }
{
    let before = next - 1;
    match join(alloc, children[before].tree(), children[next].tree())? {
        None => Ok(()),
        Some(joined) => {
            drop(children.remove(next));
            children[before] = joined;
            Ok(())
        }
    }
}

/// Joins the child at `i` with the one after it, or the last with the one before it, if they are small together, and there is memory for
/// it.
pub fn join_small<T: Keyed>(alloc: Global, children: &mut Vec<Child<T>>, i: usize)
    requires { i < length children.old.items }
    ensures { elements_of children.new.items ≡ elements_of children.old.items }
{
    let next = (i + 1).min(children.len() - 1);
    if next > 0 {
        let _ = try_join(alloc, children, next);
    }
}

/// Puts a level above the children of a root that has too many.
pub fn grow<T: Keyed>(alloc: Global, root: &mut Vec<Child<T>>)
    requires { length (elements_of root.old.items) < 2 ^ 64 }
    ensures { elements_of root.new.items ≡ elements_of root.old.items }
{
    if root.len() <= LEVEL_LIMIT {
        return;
    }
    if let Ok(levels) = group(alloc, root) {
        *root = levels;
    }
}

// Copies the children of the only child; `None` if there are others, or it is a page.
fn below_only<T: Keyed>(
    alloc: Global,
    children: &[Child<T>],
) -> Result<Option<Vec<Child<T>>>, AllocError>
    ensures { IfOk result (λ o. IfSome o (λ v. elements_of v.items ≡ elements_of children.now)) }
{
    if children.len() != 1 {
        return Ok(None);
    }
    match node_at(children, 0) {
        Node::Page(_) => Ok(None),
        Node::Level(below) => {
            let below = copy_elements(alloc, below)?;
            Ok(Some(below))
        }
    }
}

/// Takes away the top level of a root that has only that.
pub fn shrink<T: Keyed>(alloc: Global, root: &mut Vec<Child<T>>)
    ensures { elements_of root.new.items ≡ elements_of root.old.items }
{
    match below_only(alloc, root) {
        Ok(Some(below)) => *root = below,
        _ => (),
    }
}
