//! The elements of a collection page by page.
ghost use Rattle.std.specs.Prelude.{◌≡◌, ◌++◌, IfOk, OnOk};
ghost use Rattle.mg_pages.specs.Runs.{elements_view};
ghost use Rattle.mg_pages.specs.Subtree.{elements_of};

use crate::element::Element;
use crate::keyed::Keyed;
use crate::pages::Pages;
use crate::tree::{Child, Node, node_at};
use mg_value::NoMemory;
use std::alloc::{AllocError, Global};

// Adds a slice of the elements for each page. Errors: `AllocError` if an allocation fails; then some slices may have been added.
fn add_runs<'a, T: Element>(
    runs: &mut Vec<&'a [T]>,
    children: &'a [Child<T>],
) -> Result<(), AllocError>
    ensures { OnOk result (elements_view runs.new.items
        ≡ elements_view runs.old.items ++ elements_of children.now) }
{
    for i in 0..children.len() {
        match node_at(children, i) {
            Node::Page(elements) => runs.push(elements.as_slice())?,
            Node::Level(below) => add_runs(runs, below)?,
        }
    }
    Ok(())
}

impl<T: Keyed> Pages<T> {
    /// Lends the elements in order, as one slice for each page. The elements are not read.
    ///
    /// Errors: `NoMemory` if an allocation fails. Cost: a step for each page.
    pub fn runs(&self, alloc: Global) -> Result<Vec<&[T]>, NoMemory>
        ensures { IfOk result (λ v. elements_view v.items ≡ self.now) }
    {
        let mut runs = Vec::new(alloc);
        add_runs(&mut runs, &self.root)?;
        Ok(runs)
    }
}
