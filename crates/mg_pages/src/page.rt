//! What is asked of one page, and how it changes.
ghost use Rattle.std.specs.Prelude.{is_some, ◌≡◌, ◌≤◌, ◌++◌, ◌∷◌, drop, length, option_map, take, IfOk, OnOk, OnErr};
ghost use Rattle.mg_pages.specs.Order.{Ascends, above, below, found, inserted, removed};
ghost use Rattle.mg_pages.specs.Runs.{IsEndRun, IsRun};

use crate::keyed::{Keyed, Probe};
use crate::search::find;
use crate::sizes::PAGE_STEP;
use std::alloc::AllocError;

/// Finds the element that ties with a key.
pub fn find_in_page<'a, T: Keyed, Q: Probe<T>>(elements: &'a [T], key: &Q) -> Option<&'a T>
    requires { Ascends T.order elements.now }
    ensures { option_map (λ t. t.now) result ≡ found (Q.against key.now) elements.now }
{
    match find::<T, Q>(elements, key) {
        Ok(i) => Some(&elements[i]),
        Err(_) => None,
    }
}

/// How many elements are below a key.
pub fn count_in_page<T: Keyed, Q: Probe<T>>(elements: &[T], key: &Q) -> usize
    requires { Ascends T.order elements.now }
    ensures { result ≡ length (below (Q.against key.now) elements.now) }
{
    match find::<T, Q>(elements, key) {
        Ok(i) => i,
        Err(i) => i,
    }
}

/// Lends the elements above a key.
pub fn after_in_page<'a, T: Keyed, Q: Probe<T>>(elements: &'a [T], key: &Q) -> &'a [T]
    requires { Ascends T.order elements.now }
    ensures { IsRun result.now (above (Q.against key.now) elements.now) }
{
    match find::<T, Q>(elements, key) {
        Ok(i) => &elements[i + 1..],
        Err(i) => &elements[i..],
    }
}

/// Lends the elements below a key.
pub fn before_in_page<'a, T: Keyed, Q: Probe<T>>(elements: &'a [T], key: &Q) -> &'a [T]
    requires { Ascends T.order elements.now }
    ensures { IsEndRun result.now (below (Q.against key.now) elements.now) }
{
    match find::<T, Q>(elements, key) {
        Ok(i) => &elements[..i],
        Err(i) => &elements[..i],
    }
}

// Inserts an element at a place of a page. A full page gets room for some more elements.
fn insert_at<T: Keyed>(elements: &mut Vec<T>, i: usize, element: T) -> Result<(), AllocError>
    requires { i ≤ length elements.old.items }
    ensures ok { OnOk result (elements.new.items
        ≡ take i elements.old.items ++ element ∷ drop i elements.old.items) }
    ensures err { OnErr result (elements.new.items ≡ elements.old.items) }
{
    if elements.len() == elements.capacity() {
        elements.reserve_exact(elements.len().min(PAGE_STEP))?;
    }
    elements.insert(i, element)?;
    Ok(())
}

/// Inserts an element, and returns whether it replaced one that ties with it.
pub fn put_in_page<T: Keyed>(elements: &mut Vec<T>, element: T) -> Result<bool, AllocError>
    requires { Ascends T.order elements.old.items }
    ensures had { IfOk result (λ had. had ≡ is_some (found (T.order element) elements.old.items)) }
    ensures ok { OnOk result (elements.new.items ≡ inserted T.order element elements.old.items) }
    ensures err { OnErr result (elements.new.items ≡ elements.old.items) }
{
    match find::<T, T>(elements, &element) {
        Ok(i) => {
            elements[i] = element;
            Ok(true)
        }
        Err(i) => {
            insert_at(elements, i, element)?;
            Ok(false)
        }
    }
}

/// Removes the element that ties with a key, if there is one.
pub fn take_out_of_page<T: Keyed, Q: Probe<T>>(elements: &mut Vec<T>, key: &Q)
    requires { Ascends T.order elements.old.items }
    ensures { elements.new.items ≡ removed (Q.against key.now) elements.old.items }
{
    match find::<T, Q>(elements, key) {
        Ok(i) => drop(elements.remove(i)),
        Err(_) => (),
    }
}
