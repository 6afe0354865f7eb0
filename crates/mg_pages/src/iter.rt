//! Iteration over a collection from both ends.
ghost use Rattle.std.specs.Prelude.{◌≡◌, length, take};
ghost use Rattle.std.specs.Iterator.{at_most};
ghost use Rattle.std.specs.Map.Iter.{TakesFirst, TakesLast, deref};
ghost use Rattle.mg_pages.specs.Reading.{AreBetween};

use crate::cursor::Cursor;
use crate::keyed::Keyed;
use std::marker::Model;

/// Iterates over elements in ascending order, and from the last to the first by `next_back`. Contracts see the elements that are left, in
/// ascending order. Its two cursors are not compared: it counts the elements between them.
#[derive(Drop)]
pub struct Iter<'a, T: Keyed> {
    up: Cursor<'a, T>,
    down: Cursor<'a, T>,
    left: usize,
}

impl<'a, T: Keyed> Model for Iter<'a, T> {
    ghost use Rattle.std.specs.Prelude.{List, take};

    ghost Value = { List T };

    ghost use Rattle.mg_pages.specs.Reading.{AreBetween};

    ghost view = { λ it. take it.left it.up };

    ghost invariant = { λ it. AreBetween it.up it.down it.left };
}

impl<'a, T: Keyed> Iter<'a, T> {
    // Makes an iterator over the `left` elements between two cursors, of which one reads upwards and one downwards.
    pub(crate) fn between(up: Cursor<'a, T>, down: Cursor<'a, T>, left: usize) -> Iter<'a, T>
        requires { AreBetween up down left }
        ensures { result ≡ take left up.entry }
    {
        Iter { up, down, left }
    }
}

impl<'a, T: Keyed> Iterator for Iter<'a, T> {
    type Item = &'a T;

    ghost next_gives = { TakesFirst deref };

    ghost remaining = { λ s. at_most (length s) };

    #[inline(always)]
    fn next(&mut self) -> Option<&'a T> {
        if self.left == 0 {
            return None;
        }
        let Some(element) = self.up.next() else {
            return None;
        };
        self.left -= 1;
        Some(element)
    }
}

impl<'a, T: Keyed> DoubleEndedIterator for Iter<'a, T> {
    ghost next_back_gives = { TakesLast deref };

    #[inline(always)]
    fn next_back(&mut self) -> Option<&'a T> {
        if self.left == 0 {
            return None;
        }
        let Some(last) = self.down.next() else {
            return None;
        };
        self.left -= 1;
        Some(last)
    }
}
