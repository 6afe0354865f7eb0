//! Reading a collection from a place on, in one direction.
ghost use Rattle.std.specs.Prelude.{◌≡◌, ◌<◌, ◌∷◌, ◌++◌, [], List, Some, drop, length, reverse, slice_get, MatchOption};
ghost use Rattle.std.specs.Iterator.{at_most};
ghost use Rattle.std.specs.Map.Iter.{TakesFirst, deref};
ghost use Rattle.mg_pages.specs.Reading.{left_of};
ghost use Rattle.mg_pages.specs.Runs.{continued, continued_after, ended};

use crate::keyed::Keyed;
use crate::pages::Pages;
use mg_collate::Direction;
use std::marker::Model;

/// A place in a collection, and the direction in which the elements after it are read. Contracts see the elements that are left, in the order
/// in which they are read.
#[derive(Drop)]
pub struct Cursor<'a, T: Keyed> {
    pages: &'a Pages<T>,
    // the elements of one page that come next
    run: &'a [T],
    direction: Direction,
}

impl<'a, T: Keyed> Model for Cursor<'a, T> {
    ghost use Rattle.std.specs.Prelude.{List};

    ghost Value = { List T };

    ghost use Rattle.mg_pages.specs.Reading.{left_of};

    ghost view = { λ c. left_of T.order c.direction c.pages.now c.run.now };
}

// Finds the run with which to continue after the first element of this run: what is left of this run, or the next run; empty if no element
// is left.
#[inline(always)]
fn run_after_first<'a, T: Keyed>(pages: &'a Pages<T>, run: &'a [T]) -> &'a [T]
    requires { 0 < length run.now }
    ensures { (x : T) (xs : List T) → run.now ≡ x ∷ xs
        → continued T.order pages.now result.now ≡ continued_after T.order pages.now x xs }
{
    if run.len() > 1 {
        return &run[1..];
    }
    pages.run_after(&run[0])
}

// Finds the run with which to continue once `last`, the last element of the current run, is taken: `run`, which is the current run without
// `last`; or, if `run` is empty, the run that ends just before `last`. The result is empty if no element is left.
fn run_before_last<'a, T: Keyed>(pages: &'a Pages<T>, run: &'a [T], last: &'a T) -> &'a [T]
    ensures { ended T.order pages.now (run.now ++ last.now ∷ [])
        ≡ ended T.order pages.now result.now ++ last.now ∷ [] }
{
    if run.len() > 0 {
        return run;
    }
    pages.run_before(last)
}

// Finds the run with which to continue once `count` elements are skipped upwards: what is left of this run, or a later run; empty if no
// element is left.
fn run_after_skip<'a, T: Keyed>(pages: &'a Pages<T>, run: &'a [T], count: usize) -> &'a [T]
    ensures { continued T.order pages.now result.now
        ≡ drop count (continued T.order pages.now run.now) }
{
    if count < run.len() {
        return &run[count..];
    }
    if run.len() > 0 {
        let last = run.len() - 1;
        let more = count - run.len();
        return pages.run_after_some(&run[last], more);
    }
    run
}

// Finds the run with which to continue once `count` elements are skipped downwards: what is left of this run, or an earlier run; empty if
// no element is left.
fn run_before_skip<'a, T: Keyed>(pages: &'a Pages<T>, run: &'a [T], count: usize) -> &'a [T]
    ensures { reverse (ended T.order pages.now result.now)
        ≡ drop count (reverse (ended T.order pages.now run.now)) }
{
    if count < run.len() {
        let left = run.len() - count;
        return &run[..left];
    }
    if run.len() > 0 {
        let more = count - run.len();
        return pages.run_before_some(&run[0], more);
    }
    run
}

// Takes the first element of a run, and finds the run with which to continue upwards.
#[inline(always)]
fn first_of<'a, T: Keyed>(pages: &'a Pages<T>, run: &'a [T]) -> (&'a T, &'a [T])
    requires { 0 < length run.now }
    ensures { continued T.order pages.now run.now
        ≡ result.0.now ∷ continued T.order pages.now result.1.now }
{
    (&run[0], run_after_first(pages, run))
}

// Takes the last element of a run, and finds the run with which to continue downwards.
#[inline(always)]
fn last_of<'a, T: Keyed>(pages: &'a Pages<T>, run: &'a [T]) -> (&'a T, &'a [T])
    requires { 0 < length run.now }
    ensures { reverse (ended T.order pages.now run.now)
        ≡ result.0.now ∷ reverse (ended T.order pages.now result.1.now) }
{
    let (rest, last) = run.split_at(run.len() - 1);
    (&last[0], run_before_last(pages, rest, &last[0]))
}

// Takes the next element of a run, and finds the run with which to continue.
#[inline(always)]
fn next_of<'a, T: Keyed>(
    pages: &'a Pages<T>,
    run: &'a [T],
    direction: Direction,
) -> (&'a T, &'a [T])
    requires { 0 < length run.now }
    ensures { left_of T.order direction pages.now run.now
        ≡ result.0.now ∷ left_of T.order direction pages.now result.1.now }
{
    match direction {
        Direction::Asc => first_of(pages, run),
        Direction::Desc => last_of(pages, run),
    }
}

// Finds the run with which to continue once `count` elements are skipped.
fn run_skipped<'a, T: Keyed>(
    pages: &'a Pages<T>,
    run: &'a [T],
    count: usize,
    direction: Direction,
) -> &'a [T]
    ensures { left_of T.order direction pages.now result.now
        ≡ drop count (left_of T.order direction pages.now run.now) }
{
    match direction {
        Direction::Asc => run_after_skip(pages, run, count),
        Direction::Desc => run_before_skip(pages, run, count),
    }
}

impl<'a, T: Keyed> Cursor<'a, T> {
    pub(crate) fn at(pages: &'a Pages<T>, run: &'a [T], direction: Direction) -> Cursor<'a, T>
        ensures { result ≡ left_of T.order direction pages.now run.now }
    {
        Cursor {
            pages,
            run,
            direction,
        }
    }

    /// Skips `count` elements, or all elements if fewer are left. Takes no memory. Cost: constant within a page; otherwise the logarithm of
    /// the number of elements, and reads of the counts of the children before the place that it reaches, at most 16 on each level.
    pub fn advance(&mut self, count: usize)
        ensures { self.new ≡ drop count self.old }
    {
        let run = self.run;
        self.run = run_skipped(self.pages, run, count, self.direction);
    }

    /// Finds the end of the current run, which is the rest of one page: the element that is read last in the run, with its place among the
    /// elements that are left, counted from 0. `None` if no element is left. Takes no memory. Cost: constant.
    pub fn run_end(&self) -> Option<(usize, &'a T)>
        ensures { MatchOption result (self.now ≡ []) (λ end. slice_get self.now end.0 ≡ Some end.1.now) }
    {
        let run = self.run;
        if run.len() == 0 {
            return None;
        }
        let place = run.len() - 1;
        match self.direction {
            Direction::Asc => Some((place, &run[place])),
            Direction::Desc => Some((place, &run[0])),
        }
    }
}

impl<'a, T: Keyed> Iterator for Cursor<'a, T> {
    type Item = &'a T;

    ghost next_gives = { TakesFirst deref };

    ghost remaining = { λ s. at_most (length s) };

    #[inline(always)]
    fn next(&mut self) -> Option<&'a T> {
        let run = self.run;
        if run.len() == 0 {
            return None;
        }
        let (element, rest) = next_of(self.pages, run, self.direction);
        self.run = rest;
        Some(element)
    }
}
