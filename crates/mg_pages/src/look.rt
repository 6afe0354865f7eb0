//! What is looked up below the children of a level.
ghost use Rattle.std.specs.Prelude.{◌≡◌, ◌<◌, ◌^◌, ◌++◌, List, Some, length, option_map, IfSome};
ghost use Rattle.mg_pages.specs.Order.{Ascends, above, below, found};
ghost use Rattle.mg_pages.specs.Runs.{IsEndRun, IsPageAt, IsPiece, IsRun};
ghost use Rattle.mg_pages.specs.Subtree.{IsChildAt, elements_of};

use crate::element::Element;
use crate::hint::guess;
use crate::keyed::{Keyed, Probe};
use crate::page::{after_in_page, before_in_page, count_in_page, find_in_page};
use crate::search::{place, place_within};
use crate::tree::{Child, Node, count_of, node_at};

/// Finds the element that ties with a key.
pub fn look_up<'a, T: Keyed, Q: Probe<T>>(children: &'a [Child<T>], key: &Q) -> Option<&'a T>
    requires { Ascends T.order (elements_of children.now) }
    ensures { option_map (λ t. t.now) result ≡ found (Q.against key.now) (elements_of children.now) }
{
    if children.len() == 0 {
        return None;
    }
    let i = place::<T, Q>(children, key);
    match node_at(children, i) {
        Node::Page(elements) => find_in_page::<T, Q>(elements, key),
        Node::Level(below) => look_up::<T, Q>(below, key),
    }
}

/// Counts the elements below a key: adds up the counts of the children before the key's place, on each level.
pub fn count_below<T: Keyed, Q: Probe<T>>(children: &[Child<T>], key: &Q) -> usize
    requires sorted { Ascends T.order (elements_of children.now) }
    requires few { length (elements_of children.now) < 2 ^ 64 }
    ensures { result ≡ length (below (Q.against key.now) (elements_of children.now)) }
{
    if children.len() == 0 {
        return 0;
    }
    let i = place::<T, Q>(children, key);
    let before = count_of(&children[..i]);
    match node_at(children, i) {
        Node::Page(elements) => before + count_in_page::<T, Q>(elements, key),
        Node::Level(below) => before + count_below::<T, Q>(below, key),
    }
}

/// Finds the page to which the hints lead for a key with the hint `number`; empty if there is no child. Compares no element.
pub fn guessed_page<T: Keyed>(children: &[Child<T>], number: u64) -> &[T]
    ensures { IsPiece result.now (elements_of children.now) }
{
    if children.len() == 0 {
        return &[];
    }
    let last = children.len() - 1;
    let i = guess(children, number).min(last);
    match node_at(children, i) {
        Node::Page(elements) => elements,
        Node::Level(below) => guessed_page::<T>(below, number),
    }
}

// Finds the child that holds the element at a place, counted over all the children, and the element's place in that child.
fn child_at<T: Element>(children: &[Child<T>], place: usize) -> (usize, usize)
    requires { place < length (elements_of children.now) }
    ensures { IsChildAt result.0 result.1 place children.now }
{
    let mut left = place;
    let mut i = 0;
    while i < children.len() {
        let count = children[i].tree().count();
        if left < count {
            return (i, left);
        }
        left -= count;
        i += 1;
    }
    (0, 0)
}

/// Finds the page that holds the element at a place, counted over all the children, and the element's place in that page. Cost: on each
/// level, reads the count of each child before the element's.
pub fn page_at<T: Keyed>(children: &[Child<T>], place: usize) -> (&[T], usize)
    requires { place < length (elements_of children.now) }
    ensures { IsPageAt result.0.now result.1 place (elements_of children.now) }
{
    let (i, left) = child_at(children, place);
    match node_at(children, i) {
        Node::Page(elements) => (elements.as_slice(), left),
        Node::Level(below) => page_at::<T>(below, left),
    }
}

/// Lends the first elements, up to the end of their page; empty if there is no child.
pub fn first_run<T: Element>(children: &[Child<T>]) -> &[T]
    ensures { IsRun result.now (elements_of children.now) }
{
    if children.len() == 0 {
        return &[];
    }
    match node_at(children, 0) {
        Node::Page(elements) => elements,
        Node::Level(below) => first_run::<T>(below),
    }
}

/// Lends the last elements, from the start of their page; empty if there is no child.
pub fn last_run<T: Element>(children: &[Child<T>]) -> &[T]
    ensures { IsEndRun result.now (elements_of children.now) }
{
    if children.len() == 0 {
        return &[];
    }
    let last = children.len() - 1;
    match node_at(children, last) {
        Node::Page(elements) => elements,
        Node::Level(below) => last_run::<T>(below),
    }
}

// Returns the run, or if it is empty the first elements of the children, up to the end of their page.
fn run_or_next<'a, T: Element>(run: &'a [T], children: &'a [Child<T>]) -> &'a [T]
    ensures { (xs : List T) → IsRun run.now xs → IsRun result.now (xs ++ elements_of children.now) }
{
    if run.len() > 0 {
        return run;
    }
    first_run::<T>(children)
}

// Returns the run, or if it is empty the last elements of the children, from the start of their page.
fn run_or_last<'a, T: Element>(run: &'a [T], children: &'a [Child<T>]) -> &'a [T]
    ensures { (xs : List T) → IsEndRun run.now xs → IsEndRun result.now (elements_of children.now ++ xs) }
{
    if run.len() > 0 {
        return run;
    }
    last_run::<T>(children)
}

/// Lends the first elements above a key, up to the end of their page; empty if there are no such elements.
pub fn run_after<'a, T: Keyed, Q: Probe<T>>(children: &'a [Child<T>], key: &Q) -> &'a [T]
    requires { Ascends T.order (elements_of children.now) }
    ensures { IsRun result.now (above (Q.against key.now) (elements_of children.now)) }
{
    if children.len() == 0 {
        return &[];
    }
    let i = place::<T, Q>(children, key);
    match node_at(children, i) {
        Node::Page(elements) => {
            run_or_next(after_in_page::<T, Q>(elements, key), &children[i + 1..])
        }
        Node::Level(below) => run_or_next(run_after::<T, Q>(below, key), &children[i + 1..]),
    }
}

/// Lends the last elements below a key, from the start of their page; empty if there are no such elements.
pub fn run_before<'a, T: Keyed, Q: Probe<T>>(children: &'a [Child<T>], key: &Q) -> &'a [T]
    requires { Ascends T.order (elements_of children.now) }
    ensures { IsEndRun result.now (below (Q.against key.now) (elements_of children.now)) }
{
    if children.len() == 0 {
        return &[];
    }
    let i = place::<T, Q>(children, key);
    match node_at(children, i) {
        Node::Page(elements) => {
            run_or_last(before_in_page::<T, Q>(elements, key), &children[..i])
        }
        Node::Level(below) => run_or_last(run_before::<T, Q>(below, key), &children[..i]),
    }
}

/// Finds the element that ties with a key, if the hints lead to the element; otherwise `None`. Cost: at most one comparison,
/// and hints on each level and in the page.
#[inline(always)]
pub fn find_tie<'a, T: Keyed, Q: Probe<T>>(children: &'a [Child<T>], key: &Q) -> Option<&'a T>
    requires { Ascends T.order (elements_of children.now) }
    ensures { IfSome result (λ t. found (Q.against key.now) (elements_of children.now) ≡ Some t.now) }
{
    let number = key.hint();
    let page = guessed_page::<T>(children, number);
    let i = guess(page, number);
    if i < page.len() {
        let element = &page[i];
        if key.ties(element) {
            return Some(element);
        }
    }
    None
}

/// Lends the first elements above a key, up to the end of their page; `None` unless the hints lead to a page that has elements on both
/// sides of the key, none of which ties with it. Cost: the logarithm of the number of elements in one page, in comparisons, and hints on
/// each level and in the page.
pub fn guessed_run_after<'a, T: Keyed, Q: Probe<T>>(
    children: &'a [Child<T>],
    key: &Q,
) -> Option<&'a [T]>
    requires { Ascends T.order (elements_of children.now) }
    ensures { IfSome result (λ run. IsRun run.now (above (Q.against key.now) (elements_of children.now))) }
{
    let page = guessed_page::<T>(children, key.hint());
    let i = place_within::<T, Q>(page, key)?;
    Some(&page[i..])
}

/// Lends the last elements below a key, from the start of their page; `None` unless the hints lead to a page that has elements on both
/// sides of the key, none of which ties with it. Cost: that of `guessed_run_after`.
pub fn guessed_run_before<'a, T: Keyed, Q: Probe<T>>(
    children: &'a [Child<T>],
    key: &Q,
) -> Option<&'a [T]>
    requires { Ascends T.order (elements_of children.now) }
    ensures { IfSome result (λ run. IsEndRun run.now (below (Q.against key.now) (elements_of children.now))) }
{
    let page = guessed_page::<T>(children, key.hint());
    let i = place_within::<T, Q>(page, key)?;
    Some(&page[..i])
}
