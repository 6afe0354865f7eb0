//! The library's surface, for callers other than this program: sessions side by side, replayed one event after another.
ghost use Rattle.std.specs.Prelude.{◌≡◌, ◌↔◌, ℕ, List, IfOk, IsTrue, is_some, map, option_and_then, vec_len};
ghost use Rattle.mg_engine.specs.View.{reply_view};
ghost use Rattle.mg_machine.specs.Laws.{AreAt, IsAt};
ghost use Rattle.mg_machine.specs.Machine.{Machine, happens, opened, replies_of_events};
ghost use Rattle.mg_machine.specs.Seats.{SeatsStandFor};
ghost use Rattle.mg_machine.specs.View.{event_view, events_view};

use crate::seats::Seats;
use mg_engine::{Command, Reply};
use mg_value::NoMemory;
use std::alloc::Global;
use std::thread::Threads;

/// An event at a seat. The seats are numbered from 0.
///
/// The command decides what is done: `Publish` of a read does what `Enter` and then `Answer` do, and `Answer` of a write does what
/// `Publish` does.
#[derive(Debug, Drop)]
pub enum Event {
    /// A write, after all commits. If it is accepted, it is one more commit. Accepted or not, its seat has then seen all commits.
    Publish { seat: usize, command: Command },
    /// The seat catches up: it has then seen all commits.
    Enter { seat: usize },
    /// A read, after the commits that its seat has seen.
    Answer { seat: usize, command: Command },
    /// The seat learns what seat `by` has seen: the seat has then seen the longer of the two lists of commits.
    Told { seat: usize, by: usize },
}

/// Whether each seat that the events name is one of `seats` seats, as `replay` requires. Takes no memory. Cost: the number of events.
pub fn are_at(seats: usize, events: &[Event]) -> bool
    ensures { IsTrue result ↔ AreAt seats (events_view events.now) }
{
    for event in events {
        if !is_at(seats, event) {
            return false;
        }
    }
    true
}

// Whether each seat that an event names is one of `seats` seats.
fn is_at(seats: usize, event: &Event) -> bool
    ensures { IsTrue result ↔ IsAt seats (event_view event.now) }
{
    match event {
        Event::Publish { seat, command: _ } => *seat < seats,
        Event::Enter { seat } => *seat < seats,
        Event::Answer { seat, command: _ } => *seat < seats,
        Event::Told { seat, by } => *seat < seats && *by < seats,
    }
}

/// Replays events at `seats` seats of an empty database named `db`, with one worker and on this thread alone. The database has one shard
/// until a reshard. Returns for each event its reply: the complete reply to the command of a `Publish` or `Answer`, and `None` for `Enter`
/// and `Told`. Each seat that the events name has to be one of these seats, which `are_at` tests.
///
/// Errors: `NoMemory` if an allocation fails anywhere, or if there are too many references to an engine or to a part of one; therefore no
/// reply is `Reply::NoMemory`. A write after 18,446,744,073,709,551,615 commits is refused with 413 `too_large`. Cost: the number of seats
/// and of events; for each command that of `Engine::step`, and for a write that of `Prepared::of`. `Enter` and `Told` copy no document,
/// but free what only the seat's old state held.
pub fn replay<R: Threads + Sync>(
    rt: &R,
    alloc: Global,
    db: &str,
    seats: usize,
    events: &[Event],
) -> Result<Vec<Option<Reply>>, NoMemory>
    requires { AreAt seats (events_view events.now) }
    ensures replies { IfOk result
        (λ v. map (option_and_then reply_view) v.items
        ≡ replies_of_events db.now (opened seats) (events_view events.now)) }
    ensures some { IfOk result
        (λ v. map is_some v.items
        ≡ map is_some (replies_of_events db.now (opened seats) (events_view events.now))) }
{
    let mut at = Seats::open(alloc, db, seats)?;
    let mut replies = Vec::with_capacity(alloc, events.len())?;
    for event in events {
        let reply = happen(rt, alloc, &mut at, event)?;
        replies.push(reply)?;
    }
    Ok(replies)
}

// Executes an event and returns its reply.
fn happen<R: Threads + Sync>(
    rt: &R,
    alloc: Global,
    at: &mut Seats,
    event: &Event,
) -> Result<Option<Reply>, NoMemory>
    requires { IsAt (vec_len at.old.each) (event_view event.now) }
    ensures follow { IfOk result (λ r. (name : List ℕ) (m : Machine) → SeatsStandFor name at.old m
        → (option_and_then reply_view r ≡ (happens name m (event_view event.now)).1)
        × (is_some r ≡ is_some (happens name m (event_view event.now)).1)
        × SeatsStandFor name at.new (happens name m (event_view event.now)).0) }
    ensures number { vec_len at.new.each ≡ vec_len at.old.each }
{
    match event {
        Event::Publish { seat, command } => Ok(Some(at.publish(rt, alloc, *seat, command)?)),
        Event::Enter { seat } => {
            at.enter(*seat)?;
            Ok(None)
        }
        Event::Answer { seat, command } => Ok(Some(at.answer(rt, alloc, *seat, command)?)),
        Event::Told { seat, by } => {
            at.learn(*seat, *by)?;
            Ok(None)
        }
    }
}
