//! One visit of a client: a service learns what the client has seen, and then answers it for some turns.
ghost use Rattle.std.specs.Prelude.{◌≡◌, ℕ, [], true};
ghost use Rattle.mg_server.specs.Turns.{HasRead, HasWrote};
ghost use Rattle.mg_server.specs.Visits.{IsVisit};

use crate::conversation::{Conversation, Handover};
use crate::learner::Learner;
use crate::limits::Moved;
use crate::turns::{Fault, Outcome, turn};
use std::io::{ErrorKind, Read, Write};
use std::sync::Wait;
use std::thread::Threads;

/// A client: its conversation, and what the service that answered it last had seen.
#[derive(Drop)]
pub(crate) struct Client<C, K> {
    pub(crate) conversation: C,
    pub(crate) seen: K,
}

/// How a visit ended.
#[derive(Clone, Copy, PartialEq, Eq, Debug)]
pub(crate) enum End {
    /// It is the client's turn: it has to send or to read.
    Waits,
    /// The turns are used up. More may be done without waiting for the client.
    GoesOn,
    /// The conversation has ended, and all of it was sent.
    Done,
    /// The client ended its input, and all that it sent is answered; or the connection failed.
    Closes,
}

/// What a visit did.
#[derive(Clone, Copy, PartialEq, Eq, Debug)]
pub(crate) struct Visited {
    pub(crate) end: End,
    pub(crate) moved: Moved,
}

/// What a turn did, as far as the next one depends on it.
#[derive(Clone, Copy, PartialEq, Eq, Debug)]
enum Step {
    Wrote,
    Read,
    /// Nothing was read or written, but the next turn may do more.
    Again,
    Stops(End),
}

/// Returns what a failed call of the socket means.
fn step_after_fault(kind: ErrorKind) -> Step {
    match kind {
        ErrorKind::WouldBlock => Step::Stops(End::Waits),
        ErrorKind::Interrupted => Step::Again,
        _ => Step::Stops(End::Closes),
    }
}

/// Returns what a turn did.
fn step_after(turn: Result<Outcome, Fault>) -> Step {
    match turn {
        Ok(Outcome::Wrote(_)) => Step::Wrote,
        Ok(Outcome::Read(_)) => Step::Read,
        Ok(Outcome::NoMemory) => Step::Again,
        Ok(Outcome::Ended) => Step::Stops(End::Closes),
        Ok(Outcome::Done) => Step::Stops(End::Done),
        Err(Fault::Read(error)) => step_after_fault(error.kind()),
        Err(Fault::Write(error)) => step_after_fault(error.kind()),
    }
}

/// Adds what a turn moved.
fn moved_by(moved: Moved, step: Step) -> Moved {
    Moved {
        has_read: moved.has_read || step == Step::Read,
        has_written: moved.has_written || step == Step::Wrote,
    }
}

/// Answers a client for so many turns at most, for one at least. The service has to follow the one that answered the client last.
fn take_turns<H: Wait + Threads + Sync, S: Handover, C: Conversation<S>, R: Read, W: Write>(
    rt: &H,
    conversation: &mut C,
    service: &mut S,
    reader: &mut R,
    writer: &mut W,
    turns: u32,
) -> Visited
    ensures told { (from now : S) → C.told true from conversation.old now → S.follows now service.old
        → C.told true from conversation.new service.new }
    ensures read { HasRead (R.remaining reader.old) (R.remaining reader.new) (C.received conversation.old) (C.received conversation.new) }
    ensures wrote { HasWrote (W.contents writer.old) (W.contents writer.new) (C.sent conversation.old) (C.sent conversation.new) }
{
    let first = Moved {
        has_read: false,
        has_written: false,
    };
    let mut step = step_after(turn(rt, conversation, service, reader, writer));
    let mut moved = moved_by(first, step);
    'turns: for _turn in 1..turns {
        if let Step::Stops(end) = step {
            return Visited { end, moved };
        }
        step = step_after(turn(rt, conversation, service, reader, writer));
        moved = moved_by(moved, step);
    }
    match step {
        Step::Stops(end) => Visited { end, moved },
        Step::Wrote | Step::Read | Step::Again => Visited {
            end: End::GoesOn,
            moved,
        },
    }
}

/// Begins the conversation of a new client, which any service of the kind may answer.
pub(crate) fn welcome<S: Learner, C: Conversation<S>>(first: &C, service: &S) -> Client<C, S::Seen>
    ensures told { C.told true service.now result.conversation service.now }
    ensures shows { S.shows result.seen service.now }
    ensures received { C.received result.conversation ≡ [] }
    ensures sent { C.sent result.conversation ≡ [] }
{
    Client {
        conversation: first.another(),
        seen: service.seen(),
    }
}

/// Visits a client: the service learns what the client has seen, and then answers it for so many turns at most, for one at least.
pub(crate) fn visit<H: Wait + Threads + Sync, S: Learner, C: Conversation<S>, R: Read, W: Write>(
    rt: &H,
    client: &mut Client<C, S::Seen>,
    service: &mut S,
    reader: &mut R,
    writer: &mut W,
    turns: u32,
) -> Visited
    // What was received is answered right by what was sent and is pending, over all services that answered the client. Each had seen what
    // the one before it had seen, so the client never reads an older state than one that it has read, nor one without its own writes.
    ensures told { (from now : S) → C.told true from client.old.conversation now → S.shows client.old.seen now
        → C.told true from client.new.conversation service.new }
    ensures shows { S.shows client.new.seen service.new }
    ensures visit { IsVisit S.follows (C.told true) service.old client.old.conversation client.new.conversation service.new }
    ensures read { HasRead (R.remaining reader.old) (R.remaining reader.new)
        (C.received client.old.conversation) (C.received client.new.conversation) }
    ensures wrote { HasWrote (W.contents writer.old) (W.contents writer.new)
        (C.sent client.old.conversation) (C.sent client.new.conversation) }
{
    service.learn(&client.seen);
    let visited = take_turns(rt, &mut client.conversation, service, reader, writer, turns);
    client.seen = service.seen();
    visited
}
