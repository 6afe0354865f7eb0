//! The table of an edge's connections. Each waits, or is queued for a visit, or is in the hand of one thread: none is there twice, and none
//! is lost between threads.
ghost use Rattle.std.specs.Prelude.{◌≡◌, ◌≢◌, ◌↔◌, ℕ, ◌+◌, ◌<◌, ◌≤◌, ◌⊎◌, [], ◌∷◌, ◌++◌, false, IsTrue, nat_eq, count_by, IfOk, IfErr, IfSome, IfNone, OnErr, OnOk, OnSome};
ghost use Rattle.std.specs.List.{sum_by};
ghost use Rattle.std.specs.VecDeque.{deque_len};
ghost use Rattle.slab.specs.Slab.{get, HasRoomFor, SameValues, Updates};
ghost use Rattle.mg_server.specs.Places.{entry_called, held_of, in_hand, is_waiting, number_above, queued, TakesQueued, TakesWaiting, turns_of, waiting};
ghost use Rattle.mg_server.specs.GivingBack.{GivesBack, IsInHand, NeedsQueue};
ghost use Rattle.mg_server.specs.declared.limits.TheConstants.{MOST_HELD};

use crate::limits::MOST_HELD;
use crate::place::{Entry, Place, Rest, Stay};
use slab::Slab;
use std::alloc::{AllocError, Global};
use std::collections::VecDeque;

/// The connections of an edge, each under the key that its events carry.
#[derive(Drop)]
pub(crate) struct Table<T> {
    pub(crate) entries: Slab<Entry<T>>,
    /// The keys of the connections that are queued, in the order of their visits.
    pub(crate) queue: VecDeque<usize>,
    /// The bytes of memory of all connections that no thread has in hand.
    pub(crate) held: usize,
    /// How many connections were admitted so far.
    pub(crate) admitted: u64,
    // The queue names each queued connection once, and no other.
    ghost queued_once: { (k : ℕ) → count_by (nat_eq k) queue.items ≡ turns_of (get entries k) },
    ghost counted: { held ≡ sum_by held_of entries.slots },
    ghost bounded: { held ≤ MOST_HELD },
    // No number is given out twice.
    ghost numbered: { (k : ℕ) → number_above (get entries k) ≤ admitted },
}

/// A connection in the hand of a thread. It cannot be dropped or taken apart elsewhere: the thread gives it back, or closes it.
pub(crate) struct Hand<T> {
    item: T,
    index: usize,
    number: u64,
}

impl<T> Hand<T> {
    /// The key of the connection, which its events carry.
    pub(crate) fn key(&self) -> usize
        ensures { result ≡ self.now.index }
    {
        self.index
    }

    pub(crate) fn item(&self) -> &T
        ensures { result.now ≡ self.now.item }
    {
        &self.item
    }

    pub(crate) fn item_mut(&mut self) -> &mut T
        ensures { result.now ≡ self.old.item }
    {
        &mut self.item
    }
}

impl<T: Drop> Table<T> {
    /// Makes a table without connections, with room for this many. Errors: an allocation fails.
    pub(crate) fn with_capacity(alloc: Global, capacity: usize) -> Result<Table<T>, AllocError>
        ensures empty { IfOk result (λ t. t.entries.slots ≡ []) }
        ensures queue { IfOk result (λ t. t.queue.items ≡ []) }
    {
        let entries = Slab::with_capacity(alloc, capacity)?;
        let queue = VecDeque::with_capacity(alloc, capacity)?;
        Ok(Table {
            entries,
            queue,
            held: 0,
            admitted: 0,
        })
    }

    /// The key that the next connection gets.
    pub(crate) fn next_key(&self) -> usize
        ensures { result ≡ self.now.entries.vacant_key }
    {
        self.entries.vacant_key()
    }

    /// Admits a connection, which waits. It holds nothing yet.
    ///
    /// Errors: the connection comes back if an allocation fails, or if 18,446,744,073,709,551,615 connections were admitted; then nothing
    /// has changed.
    pub(crate) fn admit(&mut self, item: T, stirred: u64, deadline: u64) -> Result<(), T>
        ensures key { OnOk result (get self.old.entries self.old.entries.vacant_key ≡ None) }
        ensures waits { OnOk result (Updates self.old.entries self.new.entries self.old.entries.vacant_key
            (waiting self.old.admitted item (record { held = 0; stirred = stirred; deadline = deadline }))) }
        ensures numbered { OnOk result (self.new.admitted ≡ self.old.admitted + 1) }
        ensures err { IfErr result (λ back. (back ≡ item) × SameValues self.old.entries self.new.entries) }
        ensures queue { self.new.queue.items ≡ self.old.queue.items }
    {
        if self.admitted == u64::MAX {
            return Err(item);
        }
        if self.entries.reserve(1).is_err() {
            return Err(item);
        }
        let stay = Stay {
            held: 0,
            stirred,
            deadline,
        };
        self.entries.insert_reserved(Entry {
            number: self.admitted,
            place: Place::Waiting(item, stay),
        });
        self.admitted += 1;
        Ok(())
    }

    /// Passes on an event of the connection with this key. Returns the connection if it waited. If a thread has it in hand, that thread
    /// visits it again.
    pub(crate) fn call(&mut self, index: usize) -> Option<Hand<T>>
        ensures taken { IfSome result (λ hand. (hand.index ≡ index)
            × TakesWaiting (get self.old.entries index) (get self.new.entries index) hand.number hand.item) }
        ensures left { IfNone result ((is_waiting (get self.old.entries index) ≡ false)
            × (get self.new.entries index ≡ entry_called (get self.old.entries index))) }
        ensures others { (k : ℕ) → k ≢ index → get self.new.entries k ≡ get self.old.entries k }
        ensures queue { self.new.queue.items ≡ self.old.queue.items }
    {
        let Entry { number, place } = self.entries.try_remove(index)?;
        let (place, taken) = place.called();
        self.entries.insert_reserved(Entry { number, place });
        let (item, stay) = taken?;
        self.held -= stay.held;
        Some(Hand {
            item,
            index,
            number,
        })
    }

    /// Whether a connection is queued.
    pub(crate) fn has_queued(&self) -> bool
        ensures { IsTrue result ↔ (0 < deque_len self.now.queue) }
    {
        !self.queue.is_empty()
    }

    /// Takes the connection that is visited next. `None`: none is queued.
    pub(crate) fn next_queued(&mut self) -> Option<Hand<T>>
        ensures taken { IfSome result (λ hand. (self.old.queue.items ≡ hand.index ∷ self.new.queue.items)
            × TakesQueued (get self.old.entries hand.index) (get self.new.entries hand.index) hand.number hand.item) }
        ensures others { IfSome result (λ hand. (k : ℕ) → k ≢ hand.index
            → get self.new.entries k ≡ get self.old.entries k) }
        ensures none { IfNone result ((self.old.queue.items ≡ []) × (self.new.queue.items ≡ [])
            × (self.new.entries ≡ self.old.entries)) }
    {
        let index = self.queue.pop_front()?;
        let Some(Entry { number, place }) = self.entries.try_remove(index) else {
            unreachable!()
        };
        let (item, stay) = place.from_queue();
        self.entries.insert_reserved(Entry {
            number,
            place: Place::InHand(false),
        });
        self.held -= stay.held;
        Some(Hand {
            item,
            index,
            number,
        })
    }

    /// Takes the connection of this key and number out of the table, if a thread has it in hand. Returns whether an event came meanwhile.
    /// `None`: no thread has it in hand; then nothing changes.
    fn release(&mut self, index: usize, number: u64) -> Option<bool>
        ensures some { IfSome result (λ called. (get self.old.entries index ≡ in_hand number called)
            × (number + 1 ≤ self.new.admitted)) }
        ensures none { IfNone result (¬ (IsInHand number (get self.old.entries index)) × SameValues self.old.entries self.new.entries) }
        ensures gone { OnSome result (Updates self.old.entries self.new.entries index None) }
        ensures key { OnSome result (self.new.entries.vacant_key ≡ index) }
        ensures held { self.new.held ≡ self.old.held }
        ensures room { OnSome result (HasRoomFor self.new.entries 1) }
        ensures queue { self.new.queue.items ≡ self.old.queue.items }
    {
        let called = match self.entries.get(index) {
            Some(entry) => entry.is_called(number),
            None => None,
        };
        if called.is_some() {
            self.entries.remove(index);
        }
        called
    }

    /// Puts a connection under the next key, where it waits.
    fn put_waiting(&mut self, number: u64, item: T, stay: Stay)
        requires room { HasRoomFor self.old.entries 1 }
        requires number { number + 1 ≤ self.old.admitted }
        requires held { self.old.held + stay.held ≤ MOST_HELD }
        ensures entry { Updates self.old.entries self.new.entries self.old.entries.vacant_key (waiting number item stay) }
        ensures queue { self.new.queue.items ≡ self.old.queue.items }
    {
        self.entries.insert_reserved(Entry {
            number,
            place: Place::Waiting(item, stay),
        });
        self.held += stay.held;
    }

    /// Puts a connection under the next key, and this key at the end of the queue.
    ///
    /// Errors: an allocation fails; the connection comes back, and nothing changes.
    fn put_queued(&mut self, number: u64, item: T, stay: Stay) -> Result<(), T>
        requires room { HasRoomFor self.old.entries 1 }
        requires number { number + 1 ≤ self.old.admitted }
        requires held { self.old.held + stay.held ≤ MOST_HELD }
        ensures entry { OnOk result (Updates self.old.entries self.new.entries self.old.entries.vacant_key
            (queued number item stay)) }
        ensures queue { OnOk result (self.new.queue.items ≡ self.old.queue.items ++ self.old.entries.vacant_key ∷ []) }
        ensures err { IfErr result (λ back. (back ≡ item) × (self.new.entries ≡ self.old.entries)
            × (self.new.queue.items ≡ self.old.queue.items)) }
    {
        if self.queue.reserve(1).is_err() {
            return Err(item);
        }
        let index = self.entries.insert_reserved(Entry {
            number,
            place: Place::Queued(item, stay),
        });
        self.queue.push_back_reserved(index);
        self.held += stay.held;
        Ok(())
    }

    /// Puts a connection back. It waits for an event; or it is queued, if the thread asks for that or an event came meanwhile.
    ///
    /// Errors: the connection comes back, and is no longer in the table: with it the connections would hold too much, or it has to be
    /// queued and an allocation fails.
    pub(crate) fn put_back(&mut self, hand: Hand<T>, rest: Rest, stay: Stay) -> Result<(), T>
        ensures ok { OnOk result (GivesBack self.old.queue.items self.new.queue.items (get self.old.entries hand.index)
            (get self.new.entries hand.index) hand.index hand.number hand.item rest stay) }
        ensures err { IfErr result (λ back. back ≡ hand.item) }
        ensures gone { OnErr result (¬ (IsInHand hand.number (get self.new.entries hand.index))) }
        ensures refused { OnErr result ((¬ (IsInHand hand.number (get self.old.entries hand.index)))
            ⊎ ((MOST_HELD < self.old.held + stay.held) ⊎ NeedsQueue hand.number rest (get self.old.entries hand.index))) }
        ensures others { (k : ℕ) → k ≢ hand.index → get self.new.entries k ≡ get self.old.entries k }
    {
        let Hand {
            item,
            index,
            number,
        } = hand;
        let Some(called) = self.release(index, number) else {
            return Err(item);
        };
        if stay.held > MOST_HELD - self.held {
            return Err(item);
        }
        if rest.queues(called) {
            self.put_queued(number, item, stay)
        } else {
            self.put_waiting(number, item, stay);
            Ok(())
        }
    }

    /// Closes a connection: takes it out of the table, for the caller to drop.
    pub(crate) fn close(&mut self, hand: Hand<T>) -> T
        ensures item { result ≡ hand.item }
        ensures gone { ¬ (IsInHand hand.number (get self.new.entries hand.index)) }
        ensures others { (k : ℕ) → k ≢ hand.index → get self.new.entries k ≡ get self.old.entries k }
        ensures queue { self.new.queue.items ≡ self.old.queue.items }
    {
        let Hand {
            item,
            index,
            number,
        } = hand;
        self.release(index, number);
        item
    }
}
