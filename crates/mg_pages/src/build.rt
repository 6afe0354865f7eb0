//! Builds trees from elements that are in order already. Errors: those of `tree`.
ghost use Rattle.std.specs.Prelude.{◌≡◌, ◌<◌, ◌^◌, length, IfOk};
ghost use Rattle.mg_pages.specs.Subtree.{elements_of};

use crate::element::copy_elements;
use crate::keyed::Keyed;
use crate::sizes::{LEVEL_FILL, LEVEL_LIMIT, PAGE_FILL};
use crate::tree::{Child, level_of, page_of};
use std::alloc::{AllocError, Global};

/// Groups the elements into pages. All pages but the last have `PAGE_FILL` elements. Without elements, there is no page.
pub fn make_pages<T: Keyed>(alloc: Global, elements: &[T]) -> Result<Vec<Child<T>>, AllocError>
    ensures { IfOk result (λ v. elements_of v.items ≡ elements.now) }
{
    let mut pages = Vec::with_capacity(alloc, elements.len().div_ceil(PAGE_FILL))?;
    let mut rest = elements;
    while rest.len() > 0 {
        let (chunk, others) = rest.split_at(rest.len().min(PAGE_FILL));
        let own = copy_elements(alloc, chunk)?;
        let page = page_of(alloc, own)?;
        pages.push(page)?;
        rest = others;
    }
    Ok(pages)
}

/// Groups the children into levels. All levels but the last have `LEVEL_FILL` children. Without children, there is no level.
pub fn group<T: Keyed>(alloc: Global, children: &[Child<T>]) -> Result<Vec<Child<T>>, AllocError>
    requires { length (elements_of children.now) < 2 ^ 64 }
    ensures { IfOk result (λ v. elements_of v.items ≡ elements_of children.now) }
{
    let mut levels = Vec::with_capacity(alloc, children.len().div_ceil(LEVEL_FILL))?;
    let mut rest = children;
    while rest.len() > 0 {
        let (chunk, others) = rest.split_at(rest.len().min(LEVEL_FILL));
        let own = copy_elements(alloc, chunk)?;
        let level = level_of(alloc, own)?;
        levels.push(level)?;
        rest = others;
    }
    Ok(levels)
}

// More levels than are needed for 2^64 elements.
const MOST_LEVELS: u32 = 64;

/// Puts levels above the children until there are few enough for a root.
pub fn raise<T: Keyed>(alloc: Global, children: Vec<Child<T>>) -> Result<Vec<Child<T>>, AllocError>
    requires { length (elements_of children.items) < 2 ^ 64 }
    ensures { IfOk result (λ v. elements_of v.items ≡ elements_of children.items) }
{
    let mut top = children;
    for _ in 0..MOST_LEVELS {
        if top.len() <= LEVEL_LIMIT {
            return Ok(top);
        }
        top = group(alloc, &top)?;
    }
    Ok(top)
}
