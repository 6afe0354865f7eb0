//! Ordered collections in shared pages.
ghost use Rattle.std.specs.Prelude.{◌≡◌, ◌↔◌, ◌-◌, [], None, Ok, Some, false, drop, length, take, IfOk, IfSome, IsTrue, OnOk, OnErr, is_some, option_map, reverse, slice_get};
ghost use Rattle.mg_pages.specs.Order.{Ascends, above, below, found, inserted, removed, upto};
ghost use Rattle.mg_pages.specs.Reading.{beyond, past};
ghost use Rattle.mg_pages.specs.Runs.{IsRun, IsEndRun};

use crate::build::{make_pages, raise};
use crate::cursor::Cursor;
use crate::element::copy_elements;
use crate::insertion::{count_after_put, put_in_root};
use crate::iter::Iter;
use crate::keyed::{Keyed, Probe};
use crate::look::{
    count_below, find_tie, first_run, guessed_run_after, guessed_run_before, last_run, look_up,
    page_at, run_after, run_before,
};
use crate::mend::{grow, shrink};
use crate::over::Over;
use crate::removal::take_out_among;
use crate::tree::Child;
use mg_collate::Direction;
use mg_value::NoMemory;
use std::alloc::Global;
use std::marker::Model;

/// An ordered collection of elements, no two of which tie. Contracts see the list of the elements.
///
/// It takes as much memory as it holds: nothing if it is empty, one page if its elements are few. Collections share the pages and levels that
/// they have in common. Pages and levels that no other collection shares are changed in place.
/// Each method that can return `NoMemory`, except `runs`, also does so if a block would get 2^63 owners.
#[derive(Drop)]
pub struct Pages<T: Keyed> {
    // the top level
    pub(crate) root: Vec<Child<T>>,
    pub(crate) count: usize,
}

impl<T: Keyed> Model for Pages<T> {
    ghost use Rattle.std.specs.Prelude.{List};

    ghost Value = { List T };

    ghost use Rattle.mg_pages.specs.Subtree.{elements_of};
    ghost use Rattle.mg_pages.specs.Tree.{IsSound};

    ghost view = { λ a. elements_of a.root.items };

    ghost invariant = { λ a. IsSound T.order a.count (elements_of a.root.items) };
}

impl<T: Keyed> Pages<T> {
    /// Makes an empty collection. Takes no memory.
    pub fn new(alloc: Global) -> Pages<T>
        ensures { result ≡ [] }
    {
        Pages {
            root: Vec::new(alloc),
            count: 0,
        }
    }

    /// Builds a collection of duplicates of the elements, which must ascend. All pages but the last are filled to three quarters (48
    /// elements), so that the next insertions find room.
    ///
    /// Errors: `NoMemory` if an allocation fails. Cost: a step for each element, without a search.
    pub fn from_sorted(alloc: Global, elements: &[T]) -> Result<Pages<T>, NoMemory>
        requires { Ascends T.order elements.now }
        ensures { IfOk result (λ p. p ≡ elements.now) }
    {
        let pages = make_pages(alloc, elements)?;
        let root = raise(alloc, pages)?;
        let count = elements.len();
        Ok(Pages { root, count })
    }

    /// How many elements there are. Cost: constant.
    pub fn len(&self) -> usize
        ensures { result ≡ length self.now }
    {
        self.count
    }

    /// Whether there is no element. Cost: constant.
    pub fn is_empty(&self) -> bool
        ensures { IsTrue result ↔ (self.now ≡ []) }
    {
        self.count == 0
    }

    /// Does nothing. From its contract the proofs of callers know that the elements ascend.
    pub fn ascends(&self)
        ensures { Ascends T.order self.now }
    {
        // only for the invariant of the collection
        let _ = &self.root;
    }

    /// Finds the element that ties with the key; `None` if there is no such element. Takes no memory. Cost: one comparison if the hints
    /// lead to the element, otherwise the logarithm of the number of elements; and reads of hints on each level and in the page: that of
    /// every eighth part or element before the guess, and a few more.
    #[inline(always)]
    pub fn get<Q: Probe<T>>(&self, key: &Q) -> Option<&T>
        ensures { option_map (λ t. t.now) result ≡ found (Q.against key.now) self.now }
    {
        if let Some(element) = find_tie::<T, Q>(&self.root, key) {
            return Some(element);
        }
        look_up::<T, Q>(&self.root, key)
    }

    /// Returns the element at a place, counted from 0; `None` if there are not so many elements. Takes no memory. Cost: a read of the count
    /// of each part before the place, at most 16 on each level.
    pub fn at(&self, place: usize) -> Option<&T>
        ensures { option_map (λ t. t.now) result ≡ slice_get self.now place }
    {
        if place >= self.count {
            return None;
        }
        let (page, i) = page_at::<T>(&self.root, place);
        Some(&page[i])
    }

    /// Counts the elements below the key: adds up the counts of the parts before the key's place. Takes no memory. Cost: the logarithm
    /// of the number of elements, and a step for each of these parts, at most 16 on each level.
    pub fn count_below<Q: Probe<T>>(&self, key: &Q) -> usize
        ensures { result ≡ length (below (Q.against key.now) self.now) }
    {
        // called only for its contract: there are fewer than 2^64 elements
        let _all = self.len();
        count_below::<T, Q>(&self.root, key)
    }

    /// Counts the elements above the key. Cost: that of `count_below`. Takes no memory.
    pub fn count_above<Q: Probe<T>>(&self, key: &Q) -> usize
        ensures { result ≡ length (above (Q.against key.now) self.now) }
    {
        self.count - self.count_below(&Over { key })
    }

    /// Counts the elements that `beyond` reads. Cost: that of `count_below`. Takes no memory.
    #[tactic(auto, using(crate::proofs::Between::reversed_length))]
    pub fn count_beyond<Q: Probe<T>>(&self, key: &Q, direction: Direction) -> usize
        ensures { result ≡ length (beyond direction (Q.against key.now) self.now) }
    {
        match direction {
            Direction::Asc => self.count_above(key),
            Direction::Desc => self.count_below(key),
        }
    }

    // Lends the first elements, up to the end of their page; empty if there are no elements.
    pub(crate) fn first_run(&self) -> &[T]
        ensures run { IsRun result.now self.now }
        ensures ascends { Ascends T.order self.now }
    {
        first_run::<T>(&self.root)
    }

    // Lends the first elements above a key, up to the end of their page; empty if there are no such elements.
    pub(crate) fn run_after<Q: Probe<T>>(&self, key: &Q) -> &[T]
        ensures run { IsRun result.now (above (Q.against key.now) self.now) }
        ensures ascends { Ascends T.order self.now }
    {
        run_after::<T, Q>(&self.root, key)
    }

    // Returns what `run_after` returns, but looks first in the page to which the hints lead. If this is the right page, fewer elements are
    // compared.
    fn hinted_run_after<Q: Probe<T>>(&self, key: &Q) -> &[T]
        ensures run { IsRun result.now (above (Q.against key.now) self.now) }
        ensures ascends { Ascends T.order self.now }
    {
        match guessed_run_after::<T, Q>(&self.root, key) {
            Some(run) => run,
            None => self.run_after(key),
        }
    }

    // Lends the elements above a key without the first `count` of them, up to the end of the page of the first element that is left; empty
    // if no element is left.
    pub(crate) fn run_after_some<Q: Probe<T>>(&self, key: &Q, count: usize) -> &[T]
        ensures run { IsRun result.now (drop count (above (Q.against key.now) self.now)) }
        ensures ascends { Ascends T.order self.now }
    {
        let next = self.run_after(key);
        if count < next.len() {
            return &next[count..];
        }
        let left = self.count_above(key).saturating_sub(count);
        if left > 0 {
            let first = self.len() - left;
            let (page, place) = page_at::<T>(&self.root, first);
            return &page[place..];
        }
        &[]
    }

    // Lends the last elements, from the start of their page; empty if there are no elements.
    pub(crate) fn last_run(&self) -> &[T]
        ensures run { IsEndRun result.now self.now }
        ensures ascends { Ascends T.order self.now }
    {
        last_run::<T>(&self.root)
    }

    // Lends the last elements below a key, from the start of their page; empty if there are no such elements.
    pub(crate) fn run_before<Q: Probe<T>>(&self, key: &Q) -> &[T]
        ensures run { IsEndRun result.now (below (Q.against key.now) self.now) }
        ensures ascends { Ascends T.order self.now }
    {
        run_before::<T, Q>(&self.root, key)
    }

    // Returns what `run_before` returns, but looks first in the page to which the hints lead.
    fn hinted_run_before<Q: Probe<T>>(&self, key: &Q) -> &[T]
        ensures run { IsEndRun result.now (below (Q.against key.now) self.now) }
        ensures ascends { Ascends T.order self.now }
    {
        match guessed_run_before::<T, Q>(&self.root, key) {
            Some(run) => run,
            None => self.run_before(key),
        }
    }

    // Lends the elements below a key without the last `count` of them, from the start of the page of the last element that is left; empty
    // if no element is left.
    pub(crate) fn run_before_some<Q: Probe<T>>(&self, key: &Q, count: usize) -> &[T]
        ensures run { IsEndRun result.now
            (take (length (below (Q.against key.now) self.now) - count)
            (below (Q.against key.now) self.now)) }
        ensures ascends { Ascends T.order self.now }
    {
        let next = self.run_before(key);
        if count < next.len() {
            let end = next.len() - count;
            return &next[..end];
        }
        let left = self.count_below(key).saturating_sub(count);
        if left > 0 {
            let last = left - 1;
            let (page, place) = page_at::<T>(&self.root, last);
            return &page[..place + 1];
        }
        &[]
    }

    // Reads all elements in ascending order. Takes no memory. Cost: that of `beyond`.
    fn up(&self) -> Cursor<'_, T>
        ensures { result ≡ self.now }
    {
        let run = self.first_run();
        Cursor::at(self, run, Direction::Asc)
    }

    // Reads all elements from the last to the first. Takes no memory. Cost: that of `beyond`.
    fn down(&self) -> Cursor<'_, T>
        ensures { result ≡ reverse self.now }
    {
        let run = self.last_run();
        Cursor::at(self, run, Direction::Desc)
    }

    // Reads the elements above the key in ascending order. Takes no memory. Cost: that of `beyond`.
    fn after<Q: Probe<T>>(&self, key: &Q) -> Cursor<'_, T>
        ensures { result ≡ above (Q.against key.now) self.now }
    {
        let run = self.hinted_run_after(key);
        Cursor::at(self, run, Direction::Asc)
    }

    // Reads the elements below the key, from the last to the first. Takes no memory. Cost: that of `beyond`.
    fn before<Q: Probe<T>>(&self, key: &Q) -> Cursor<'_, T>
        ensures { result ≡ reverse (below (Q.against key.now) self.now) }
    {
        let run = self.hinted_run_before(key);
        Cursor::at(self, run, Direction::Desc)
    }

    /// Reads the elements that come after the key in a direction. Elements that tie with the key are left out; there need be none. Takes no
    /// memory. Cost: one look-up; then a step for each element, and a look-up for each further page.
    pub fn beyond<Q: Probe<T>>(&self, key: &Q, direction: Direction) -> Cursor<'_, T>
        ensures { result ≡ beyond direction (Q.against key.now) self.now }
    {
        match direction {
            Direction::Asc => self.after(key),
            Direction::Desc => self.before(key),
        }
    }

    /// Reads the elements that are not above the key, from the last to the first. Takes no memory. Cost: that of `beyond`.
    pub fn upto<Q: Probe<T>>(&self, key: &Q) -> Cursor<'_, T>
        ensures { result ≡ reverse (upto (Q.against key.now) self.now) }
    {
        self.before(&Over { key })
    }

    /// Iterates over the elements, from both ends. Takes no memory. Cost: two look-ups; then a step for each element, and a look-up for each
    /// further page.
    pub fn iter(&self) -> Iter<'_, T>
        ensures { result ≡ self.now }
    {
        Iter::between(self.up(), self.down(), self.count)
    }

    // Iterates over the elements above the key, from both ends. Takes no memory. Cost: that of `past`.
    fn iter_after<Q: Probe<T>>(&self, key: &Q) -> Iter<'_, T>
        ensures { result ≡ above (Q.against key.now) self.now }
    {
        self.ascends();
        Iter::between(self.after(key), self.down(), self.count_above(key))
    }

    // Iterates over the elements below the key, from both ends. Takes no memory. Cost: that of `past`.
    fn iter_before<Q: Probe<T>>(&self, key: &Q) -> Iter<'_, T>
        ensures { result ≡ below (Q.against key.now) self.now }
    {
        self.ascends();
        Iter::between(self.up(), self.before(key), self.count_below(key))
    }

    /// Iterates over the elements that come after the key in a direction, from both ends: ascending, over those above the key; descending,
    /// over those below it. In both directions `next` gives the least element that is left. Takes no memory. Cost: three look-ups; then that
    /// of `iter`.
    pub fn past<Q: Probe<T>>(&self, key: &Q, direction: Direction) -> Iter<'_, T>
        ensures { result ≡ past direction (Q.against key.now) self.now }
    {
        match direction {
            Direction::Asc => self.iter_after(key),
            Direction::Desc => self.iter_before(key),
        }
    }

    /// Makes another collection of the same elements, which shares all pages with this one.
    ///
    /// Errors: `NoMemory` if an allocation fails. Cost: a copy of the top level. Nothing below it is copied.
    pub fn share(&self, alloc: Global) -> Result<Pages<T>, NoMemory>
        ensures { IfOk result (λ p. p ≡ self.now) }
    {
        let root = copy_elements(alloc, &self.root)?;
        let count = self.count;
        Ok(Pages { root, count })
    }

    /// Inserts an element, and returns whether it replaced one that ties with it.
    ///
    /// Errors: `NoMemory` if an allocation fails, or there are 2^64 - 1 elements already; then no element has changed.
    /// Cost: the logarithm of the number of elements, and a copy of each part on the way that others share or that is full.
    pub fn insert(&mut self, alloc: Global, element: T) -> Result<bool, NoMemory>
        ensures had { IfOk result (λ had. had ≡ is_some (found (T.order element) self.old)) }
        ensures ok { OnOk result (self.new ≡ inserted T.order element self.old) }
        ensures err { OnErr result (self.new ≡ self.old) }
    {
        let Some(more) = self.count.checked_add(1) else {
            return Err(NoMemory);
        };
        let had = put_in_root(alloc, &mut self.root, element)?;
        self.count = count_after_put(more, had);
        grow(alloc, &mut self.root);
        Ok(had)
    }

    /// Removes the element that ties with the key, and returns whether there was one. If there is no such element, the call takes
    /// no memory and cannot fail.
    ///
    /// Errors: `NoMemory` if an allocation fails; then no element has changed. Cost: that of `get`, and that of `insert`.
    pub fn remove<Q: Probe<T>>(&mut self, alloc: Global, key: &Q) -> Result<bool, NoMemory>
        ensures had { IfOk result (λ had. had ≡ is_some (found (Q.against key.now) self.old)) }
        ensures ok { OnOk result (self.new ≡ removed (Q.against key.now) self.old) }
        ensures absent { found (Q.against key.now) self.old ≡ None → (result ≡ Ok false)
            × (self.new ≡ self.old) }
        ensures err { OnErr result (self.new ≡ self.old) }
    {
        if self.get(key).is_none() {
            return Ok(false);
        }
        take_out_among::<T, Q>(alloc, &mut self.root, key)?;
        self.count -= 1;
        shrink(alloc, &mut self.root);
        Ok(true)
    }
}
