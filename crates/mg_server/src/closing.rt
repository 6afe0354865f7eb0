//! Which waiting connections of the table are closed: those whose time is over, and for want of memory or descriptors the one that has
//! been still longest.
ghost use Rattle.std.specs.Prelude.{◌≡◌, ◌≢◌, ℕ, ◌+◌, ◌⊎◌, true, None, IfErr, IfSome, IfNone, OnErr, OnOk, OnSome, IsTrue, option_copied};
ghost use Rattle.slab.specs.Slab.{get, slab_len};
ghost use Rattle.mg_server.specs.Places.{is_waiting};
ghost use Rattle.mg_server.specs.Closing.{Closes, earlier, is_overdue, IsMade, IsStillest, still_time, TakesOut, unless_overdue};
ghost use Rattle.mg_server.specs.GivingBack.{GivesBack, IsFull, IsInHand, MakesRoom, NeedsQueue};

use crate::limits::MOST_HELD;
use crate::place::{Entry, Place, Rest, Stay};
use crate::table::{Hand, Table};

/// Whether the connection waits, and its time is over.
fn is_overdue<T>(found: Option<&Entry<T>>, now: u64) -> bool
    ensures overdue { result ≡ is_overdue now (option_copied found.entry) }
    ensures waits { IsTrue result → is_waiting (option_copied found.entry) ≡ true }
{
    match found {
        Some(entry) => match &entry.place {
            Place::Waiting(_, stay) => stay.deadline <= now,
            Place::Queued(_, _) | Place::InHand(_) => false,
        },
        None => false,
    }
}

/// Returns since when the connection has been still. `None`: it does not wait, or holds fewer bytes than `least`.
fn still_time<T>(found: Option<&Entry<T>>, least: usize) -> Option<u64>
    ensures { result ≡ still_time least (option_copied found.entry) }
{
    match found {
        Some(entry) => match &entry.place {
            Place::Waiting(_, stay) if least <= stay.held => Some(stay.stirred),
            Place::Waiting(_, _) | Place::Queued(_, _) | Place::InHand(_) => None,
        },
        None => None,
    }
}

/// Returns the earlier of two times with its key; `None`: there is none. At equal times the first.
fn earlier(best: Option<(usize, u64)>, index: usize, time: Option<u64>) -> Option<(usize, u64)>
    ensures { result ≡ earlier best index time }
{
    match (best, time) {
        (None, Some(time)) => Some((index, time)),
        (Some((_, first)), Some(time)) if time < first => Some((index, time)),
        (best, _) => best,
    }
}

impl<T: Drop> Table<T> {
    /// Takes a connection that waits out of the table.
    fn take_out(&mut self, index: usize) -> T
        requires { is_waiting (get self.old.entries index) ≡ true }
        ensures taken { TakesOut (get self.old.entries index) (get self.new.entries index) result }
        ensures others { (k : ℕ) → k ≢ index → get self.new.entries k ≡ get self.old.entries k }
        ensures fewer { slab_len self.new.entries + 1 ≡ slab_len self.old.entries }
        ensures queue { self.new.queue.items ≡ self.old.queue.items }
    {
        let Entry { number: _, place } = self.entries.remove(index);
        let (item, stay) = place.from_waiting();
        self.held -= stay.held;
        item
    }

    /// Closes the connection of this key if it waits and its time is over.
    fn close_if_overdue(&mut self, index: usize, now: u64)
        ensures this { get self.new.entries index ≡ unless_overdue now (get self.old.entries index) }
        ensures others { (k : ℕ) → k ≢ index → get self.new.entries k ≡ get self.old.entries k }
        ensures queue { self.new.queue.items ≡ self.old.queue.items }
    {
        if is_overdue(self.entries.get(index), now) {
            drop(self.take_out(index));
        }
    }

    /// Closes the connections that wait and whose time is over. Cost: the most connections that there have been.
    pub(crate) fn close_overdue(&mut self, now: u64)
        ensures closed { (k : ℕ) → get self.new.entries k ≡ unless_overdue now (get self.old.entries k) }
        ensures queue { self.new.queue.items ≡ self.old.queue.items }
    {
        for index in 0..self.entries.capacity() {
            self.close_if_overdue(index, now);
        }
    }

    /// Returns the key of the connection that has been still longest, of those that wait and hold at least this many bytes.
    fn stillest(&self, least: usize) -> Option<usize>
        ensures some { IfSome result (λ index. IsStillest self.now.entries least index) }
        ensures waits { IfSome result (λ index. is_waiting (get self.now.entries index) ≡ true) }
        ensures none { IfNone result ((k : ℕ) → still_time least (get self.now.entries k) ≡ None) }
    {
        let mut best = None;
        for index in 0..self.entries.capacity() {
            best = earlier(best, index, still_time(self.entries.get(index), least));
        }
        match best {
            Some((index, _)) => Some(index),
            None => None,
        }
    }

    /// Takes out the connection that has been still longest, of those that wait and hold at least this many bytes. `None`: there is none.
    /// Cost: the most connections that there have been.
    pub(crate) fn take_stillest(&mut self, least: usize) -> Option<T>
        ensures taken { IfSome result (λ item. (index : ℕ) × IsStillest self.old.entries least index
            × TakesOut (get self.old.entries index) (get self.new.entries index) item
            × ((k : ℕ) → k ≢ index → get self.new.entries k ≡ get self.old.entries k)) }
        ensures none { IfNone result (((k : ℕ) → still_time least (get self.old.entries k) ≡ None)
            × (self.new.entries ≡ self.old.entries)) }
        ensures fewer { OnSome result (slab_len self.new.entries + 1 ≡ slab_len self.old.entries) }
        ensures queue { self.new.queue.items ≡ self.old.queue.items }
    {
        let index = self.stillest(least)?;
        Some(self.take_out(index))
    }

    /// Closes waiting connections that hold memory, those first that have been still longest, until this many bytes more may be held, or
    /// none of them is left. Closes none for more bytes than may be held by one.
    fn make_room(&mut self, wanted: usize)
        ensures closes { Closes wanted self.old.entries self.new.entries }
        ensures made { IsMade wanted self.new.entries }
        ensures queue { self.new.queue.items ≡ self.old.queue.items }
    {
        if wanted > MOST_HELD {
            return;
        }
        while wanted > MOST_HELD - self.held {
            let Some(item) = self.take_stillest(1) else {
                return;
            };
            drop(item);
        }
    }

    /// Gives a connection back, after room was made for what it holds. It waits for an event; or it is queued, if the thread asks for that
    /// or an event came meanwhile.
    ///
    /// Errors: the connection comes back, and is no longer in the table: there is no room for it, or it has to be queued and an allocation
    /// fails.
    pub(crate) fn give_back(&mut self, hand: Hand<T>, rest: Rest, stay: Stay) -> Result<(), T>
        ensures ok { OnOk result (GivesBack self.old.queue.items self.new.queue.items (get self.old.entries hand.index)
            (get self.new.entries hand.index) hand.index hand.number hand.item rest stay) }
        ensures err { IfErr result (λ back. back ≡ hand.item) }
        ensures gone { OnErr result (¬ (IsInHand hand.number (get self.new.entries hand.index))) }
        ensures refused { OnErr result ((¬ (IsInHand hand.number (get self.old.entries hand.index)))
            ⊎ (IsFull stay.held hand.index self.new.entries ⊎ NeedsQueue hand.number rest (get self.old.entries hand.index))) }
        ensures room { MakesRoom stay.held hand.index self.old.entries self.new.entries }
    {
        self.make_room(stay.held);
        self.put_back(hand, rest, stay)
    }
}
