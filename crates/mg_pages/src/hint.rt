//! Hints: numbers that say where a search begins. A wrong hint makes a search longer, but does not change its result.
ghost use Rattle.std.specs.Prelude.{◌<◌, ◌≤◌, length};

use crate::element::Element;
use crate::keyed::Keyed;
use crate::tree::Child;

/// Returns the hint of a text: its first eight bytes as a big-endian number. A shorter text is filled up with zeros. Takes no memory.
pub fn text_hint(text: &str) -> u64 {
    match text.as_bytes() {
        [a, b, c, d, e, f, g, h, ..] => u64::from_be_bytes([*a, *b, *c, *d, *e, *f, *g, *h]),
        short => short_hint(short),
    }
}

// Returns the hint of a text of fewer than eight bytes.
fn short_hint(bytes: &[u8]) -> u64 {
    let mut padded = [0; 8];
    let len = bytes.len().min(8);
    padded[..len].copy_from_slice(&bytes[..len]);
    u64::from_be_bytes(padded)
}

/// What stands in a page or a level: it has a hint, which should not fall from one to the next.
pub trait Hinted {
    fn number(&self) -> u64;
}

impl<T: Keyed> Hinted for T {
    fn number(&self) -> u64 {
        Keyed::hint(self)
    }
}

impl<T: Element> Hinted for Child<T> {
    fn number(&self) -> u64 {
        self.hint
    }
}

/// Guesses the place of a key with the hint `number`: the place of the first entry whose hint is not below `number`, or the number of entries
/// if there is no such entry. Cost: the logarithm of the number of entries, in hints.
pub fn guess<E: Hinted>(entries: &[E], number: u64) -> usize {
    let mut low = 0;
    let mut high = entries.len();
    while low < high {
        let middle = low + (high - low) / 2;
        if entries[middle].number() < number {
            low = middle + 1;
        } else {
            high = middle;
        }
    }
    low
}

/// Chooses the next place that a search from `low` up to, but not including, `high` looks at: the guess, if the guess is one of these
/// places; the place beside the guess, if the guess is just outside; else the middle.
pub fn next_guess(low: usize, high: usize, guess: usize) -> usize
    requires { low < high }
    ensures low { low ≤ result }
    ensures high { result < high }
{
    if low <= guess && guess < high {
        return guess;
    }
    if guess == high {
        return high - 1;
    }
    if guess < low && low - guess == 1 {
        return low;
    }
    low + (high - low) / 2
}
