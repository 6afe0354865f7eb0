//! The tally of a seat: how many commits the seat has made, backed by its own part of a ledger. All parts together prove that the
//! database has as many commits as its seats have made.
ghost use Rattle.std.specs.Prelude.{◌≡◌, ◌+◌, ◌<◌};

use std::marker::Model;
use std::sync::ledger::{Book, Ledger, Share};

/// How many commits a seat has made. Contracts see this number.
#[derive(Drop)]
pub struct Tally<L: Ledger> {
    count: u64,
    share: Share<L>,
}

impl<L: Ledger> Model for Tally<L> {
    ghost use Rattle.std.specs.Prelude.{◌≡◌, ℕ};

    ghost Value = { ℕ };

    ghost view = { λ t. t.share.amount };

    ghost invariant = { λ t. (t.count ≡ t.share.amount) × (t.share.parts ≡ 1) };
}

impl<L: Ledger> Tally<L> {
    // Makes a tally of no commits, with one of the parts in `rest`. If this is the last part, `rest` has to count no commits.
    pub(crate) fn new(rest: &mut Share<L>) -> Tally<L>
        requires part { 0 < rest.old.parts }
        requires backed { rest.old.parts ≡ 1 → rest.old.amount ≡ 0 }
        ensures none { result ≡ 0 }
        ensures rest { (rest.new.parts + 1 ≡ rest.old.parts) × (rest.new.amount ≡ rest.old.amount) }
    {
        let share = rest.split_off(1, 0);
        Tally { count: 0, share }
    }

    // Returns how many commits this tally counts.
    pub(crate) fn count(&self) -> u64
        ensures { result ≡ self.now }
    {
        self.count
    }

    // Counts one more commit, here and in the book of all tallies.
    pub(crate) fn add(&mut self, tally_book: &mut Book<L>)
        requires room { tally_book.old.total < 18446744073709551615 }
        ensures tally { self.new ≡ self.old + 1 }
        ensures tally_book { tally_book.new.total ≡ tally_book.old.total + 1 }
    {
        tally_book.audit(&mut self.share);
        tally_book.add(&mut self.share, 1);
        self.count += 1;
    }

    // Adds the part of this tally, with what it counts, to other parts.
    pub(crate) fn join(self, all: &mut Share<L>)
        ensures parts { all.new.parts ≡ all.old.parts + 1 }
        ensures amount { all.new.amount ≡ all.old.amount + self }
    {
        let Tally { share, .. } = self;
        all.merge(share);
    }
}
