//! Pages that are made one by one, so that several threads can make the pages of one collection. `Pages::from_pages` builds the collection.
ghost use Rattle.std.specs.Prelude.{◌≡◌, ◌<◌, ◌^◌, IfOk, List, length};
ghost use Rattle.std.specs.List.{AllByRecursion, flat_map};
ghost use Rattle.mg_pages.specs.Order.{Ascends};
ghost use Rattle.mg_pages.specs.Subtree.{elements_of};

use crate::build::raise;
use crate::element::copy_elements;
use crate::keyed::Keyed;
use crate::pages::Pages;
use crate::sizes;
use crate::tree::{Child, count_of, page_of};
use mg_value::NoMemory;
use std::alloc::{AllocError, Global};
use std::marker::Model;

/// How many elements a new page should have, so that the next insertions find room in it.
pub const PAGE_FILL: usize = sizes::PAGE_FILL;

/// A page that is part of no collection yet. Contracts see the list of its elements.
#[derive(Drop)]
pub struct NewPage<T: Keyed> {
    elements: Vec<T>,
}

impl<T: Keyed> Model for NewPage<T> {
    ghost use Rattle.std.specs.Prelude.{List};

    ghost Value = { List T };

    ghost view = { λ p. p.elements.items };
}

impl<T: Keyed> NewPage<T> {
    /// Makes a page of duplicates of these elements. A page of many more than `PAGE_FILL` elements makes its collection slower.
    ///
    /// Errors: `NoMemory` if an allocation fails, or an element's block would get 2^63 owners. Cost: a step for each element.
    pub fn of(alloc: Global, elements: &[T]) -> Result<NewPage<T>, NoMemory>
        ensures { IfOk result (λ p. p ≡ elements.now) }
    {
        let elements = copy_elements(alloc, elements)?;
        Ok(NewPage { elements })
    }
}

// Turns the pages into children of a level.
fn children_of<T: Keyed>(alloc: Global, pages: Vec<NewPage<T>>) -> Result<Vec<Child<T>>, AllocError>
    requires { AllByRecursion (λ (p : List T). 0 < length p) pages.items }
    ensures { IfOk result (λ v. elements_of v.items ≡ flat_map (λ p. p) pages.items) }
{
    let mut children = Vec::with_capacity(alloc, pages.len())?;
    for page in pages {
        let NewPage { elements } = page;
        let child = page_of(alloc, elements)?;
        children.push(child)?;
    }
    Ok(children)
}

impl<T: Keyed> Pages<T> {
    /// Builds a collection of these pages, in this order. No page may be empty, and the elements of all pages must ascend. The contract
    /// requires fewer than 2^64 elements.
    ///
    /// Errors: `NoMemory` if an allocation fails. Cost: a step for each page.
    pub fn from_pages(alloc: Global, pages: Vec<NewPage<T>>) -> Result<Pages<T>, NoMemory>
        requires some { AllByRecursion (λ (p : List T). 0 < length p) pages.items }
        requires ascends { Ascends T.order (flat_map (λ p. p) pages.items) }
        requires few { length (flat_map (λ p. p) pages.items) < 2 ^ 64 }
        ensures { IfOk result (λ p. p ≡ flat_map (λ p. p) pages.items) }
    {
        let children = children_of(alloc, pages)?;
        let count = count_of(&children);
        let root = raise(alloc, children)?;
        Ok(Pages { root, count })
    }
}
