//! The elements of pages: values that are stored in the page, or blocks of memory that several pages share.
ghost use Rattle.std.specs.Prelude.{◌≡◌, ◌≤◌, ◌<◌, ◌+◌, ◌++◌, ◌∷◌, [], IfOk, OnOk, vec_len, vec_capacity};
ghost use Rattle.std.specs.Arc.{arc_value};

use std::alloc::{AllocError, Global};
use std::marker::Model;
use std::ops::Deref;
use std::sync::Arc;

/// An element that several pages can have.
pub trait Element: Drop + Sized {
    /// Makes a duplicate of the element: a copy of its bytes, or one more owner of its block. Takes no memory.
    ///
    /// Errors: `AllocError` if the block has 2^63 - 1 owners.
    fn again(&self) -> Result<Self, AllocError>
        ensures { IfOk result (λ e. e ≡ self.now) };

    /// Appends a duplicate to a list, which must have room for it. Takes no memory. A type overrides this method if it can write the
    /// duplicate directly into the list. Errors: those of `again`.
    #[inline(always)]
    fn push_again(&self, list: &mut Vec<Self>) -> Result<(), AllocError>
        requires { vec_len list.old < vec_capacity list.old }
        ensures items { OnOk result (list.new.items ≡ list.old.items ++ self.now ∷ []) }
        ensures capacity { vec_capacity list.new ≡ vec_capacity list.old }
        ensures len { OnOk result (vec_len list.new ≡ vec_len list.old + 1) }
    {
        let own = self.again()?;
        list.push_reserved(own);
        Ok(())
    }

    /// How many owners the element's block has, read from the block; 0 for an element that has no block.
    fn owners(&self) -> usize {
        0
    }
}

/// A value in a block of memory that all its owners share, and its hint, so that a search need not read the block.
#[derive(Drop)]
pub struct Shared<X: Drop> {
    pub(crate) arc: Arc<X>,
    pub(crate) hint: u64,
}

impl<X: Drop> Model for Shared<X> {
    ghost use Rattle.std.specs.Arc.{arc_value};

    ghost Value = { X };

    ghost view = { λ s. arc_value s.arc };
}

impl<X: Drop> Shared<X> {
    /// Lends the value. Takes no memory.
    pub fn get(&self) -> &X
        ensures { result.now ≡ self.now }
    {
        &self.arc
    }
}

impl<X: Drop> Element for Shared<X> {
    fn again(&self) -> Result<Shared<X>, AllocError> {
        let arc = self.arc.clone()?;
        let hint = self.hint;
        Ok(Shared { arc, hint })
    }

    fn owners(&self) -> usize {
        Arc::strong_count(&self.arc)
    }
}

impl<X: Drop> Deref for Shared<X> {
    type Target = X;

    ghost deref_gives = { λ s x. x ≡ s };

    fn deref(&self) -> &X
        ensures { result.now ≡ self.now }
    {
        &self.arc
    }
}

/// Prefetch: reads the reference count of each element before the first that has no block, and returns the sum, wrapped at 64 bits.
/// Cache misses of reads overlap, but those of updates follow one another; so this runs before elements are copied or dropped.
/// It stops at an element without a block, since most of its neighbours have none either.
pub fn owners_of<T: Element>(elements: &[T]) -> usize {
    let mut owners = 0usize;
    for element in elements {
        let count = element.owners();
        if count == 0 {
            return owners;
        }
        owners = owners.wrapping_add(count);
    }
    owners
}

/// Returns the capacity for a copy of a list of `count` items: one more, unless `count` is the greatest `usize`.
pub fn room_for(count: usize) -> usize
    ensures { count ≤ result }
{
    if count < usize::MAX { count + 1 } else { count }
}

/// Duplicates the elements into a list with room for one more. Errors: `AllocError` if the allocation or a duplicate fails.
pub fn copy_elements<T: Element>(alloc: Global, elements: &[T]) -> Result<Vec<T>, AllocError>
    ensures { IfOk result (λ v. v.items ≡ elements.now) }
{
    let mut copies = Vec::with_capacity(alloc, room_for(elements.len()))?;
    let _ = owners_of(elements);
    for element in elements {
        element.push_again(&mut copies)?;
    }
    Ok(copies)
}

// Appends duplicates of the elements to a list. Errors: `AllocError` if an allocation or a duplicate fails; then some may have been appended.
fn append_elements<T: Element>(list: &mut Vec<T>, elements: &[T]) -> Result<(), AllocError>
    ensures { OnOk result (list.new.items ≡ list.old.items ++ elements.now) }
{
    for element in elements {
        let own = element.again()?;
        list.push(own)?;
    }
    Ok(())
}

/// Duplicates the elements of one list and then those of another into a new list. Errors: `AllocError` if an allocation or a duplicate fails.
pub fn join_elements<T: Element>(
    alloc: Global,
    front: &[T],
    back: &[T],
) -> Result<Vec<T>, AllocError>
    ensures { IfOk result (λ v. v.items ≡ front.now ++ back.now) }
{
    let mut all = Vec::with_capacity(alloc, front.len().saturating_add(back.len()))?;
    append_elements(&mut all, front)?;
    append_elements(&mut all, back)?;
    Ok(all)
}
