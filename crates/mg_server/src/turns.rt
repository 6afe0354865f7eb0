//! One turn of a conversation over a reader and a writer, which block or do not.

ghost use Rattle.std.specs.Prelude.{◌≡◌, ℕ, ◌<◌, ◌+◌, Bool, List, [], ◌++◌, length, Ok, IfOk};
ghost use Rattle.std.specs.Io.KnownBytes.{IsAtEnd};
ghost use Rattle.mg_server.specs.Meeting.{Meets};
ghost use Rattle.mg_server.specs.Turns.{HasRead, HasWrote, IsOfReader, IsOfWriter, Reads, Writes, RestedBefore};

use crate::conversation::{Conversation, Handover};
use std::io;
use std::io::{ErrorKind, Read, Write};
use std::sync::Wait;
use std::thread::Threads;

/// What a turn did, once what was received was answered.
#[derive(Clone, Copy, PartialEq, Eq, Debug)]
pub enum Outcome {
    /// It wrote so many bytes, at least one.
    Wrote(usize),
    /// It read so many bytes, at least one.
    Read(usize),
    /// It read, and found the end of the input.
    Ended,
    /// There was no memory to read. The next turn tells the client.
    NoMemory,
    /// Nothing: the conversation has ended. Close the connection.
    Done,
}

/// Which side of a connection failed. `WouldBlock` is the end of a client's turn, and no fault of its connection.
#[derive(Debug, Drop)]
pub enum Fault {
    Read(io::Error),
    /// The writer failed, or took no byte (`WriteZero`).
    Write(io::Error),
}

/// Writes once, and counts what was written.
fn send<S: Handover, C: Conversation<S>, W: Write>(
    conversation: &mut C,
    writer: &mut W,
) -> io::Result<usize>
    requires { 0 < length (C.pending conversation.old) }
    ensures told { (moves : Bool) (from now : S) → C.told moves from conversation.old now → C.told moves from conversation.new now }
    ensures received { C.received conversation.new ≡ C.received conversation.old }
    ensures wrote { HasWrote (W.contents writer.old) (W.contents writer.new) (C.sent conversation.old) (C.sent conversation.new) }
    ensures count { IfOk result (λ n. (0 < n) × (length (C.sent conversation.new) ≡ length (C.sent conversation.old) + n)) }
{
    match writer.write(conversation.output()) {
        Ok(0) => Err(ErrorKind::WriteZero.into()),
        Ok(count) => {
            conversation.count_sent(count);
            Ok(count)
        }
        Err(error) => Err(error),
    }
}

/// Reads once.
fn receive<S: Handover, C: Conversation<S>, R: Read>(
    conversation: &mut C,
    reader: &mut R,
) -> io::Result<Outcome>
    ensures told { (moves : Bool) (from now : S) → C.told moves from conversation.old now → C.told moves from conversation.new now }
    ensures sent { C.sent conversation.new ≡ C.sent conversation.old }
    ensures pending { C.pending conversation.new ≡ C.pending conversation.old }
    ensures read { HasRead (R.remaining reader.old) (R.remaining reader.new) (C.received conversation.old) (C.received conversation.new) }
    ensures turn { IfOk result (λ t. IsOfReader t) }
    ensures count { IfOk result (λ t. (n : ℕ) → t ≡ Outcome.Read n
        → (0 < n) × (length (C.received conversation.new) ≡ length (C.received conversation.old) + n)) }
    ensures ended { result ≡ Ok Outcome.Ended → IsAtEnd (R.remaining reader.new) }
{
    match conversation.read_from(reader) {
        Ok(Some(0)) => Ok(Outcome::Ended),
        Ok(Some(count)) => Ok(Outcome::Read(count)),
        Ok(None) => Ok(Outcome::NoMemory),
        Err(error) => Err(error),
    }
}

/// Answers what was received, and then writes or reads once. It reads only once all of its answers are sent.
///
/// Errors: the one call of the reader or the writer failed. The turn may be tried again: what was answered is pending.
pub fn turn<H: Wait + Threads + Sync, S: Handover, C: Conversation<S>, R: Read, W: Write>(
    rt: &H,
    conversation: &mut C,
    service: &mut S,
    reader: &mut R,
    writer: &mut W,
) -> Result<Outcome, Fault>
    ensures told { (moves : Bool) (from now : S) → C.told moves from conversation.old now → Meets S.follows moves now service.old
        → C.told moves from conversation.new service.new }
    ensures read { HasRead (R.remaining reader.old) (R.remaining reader.new) (C.received conversation.old) (C.received conversation.new) }
    ensures wrote { HasWrote (W.contents writer.old) (W.contents writer.new) (C.sent conversation.old) (C.sent conversation.new) }
    ensures answered { (moves : Bool) (from now : S) → C.told moves from conversation.old now → Reads result
        → RestedBefore C.rests C.pending C.received conversation.old conversation.new }
    ensures reader { Writes result → reader.new ≡ reader.old }
    ensures writer { Reads result → writer.new ≡ writer.old }
    ensures wrote_some { (n : ℕ) → result ≡ Ok (Outcome.Wrote n)
        → (0 < n) × (length (C.sent conversation.new) ≡ length (C.sent conversation.old) + n) }
    ensures read_some { (n : ℕ) → result ≡ Ok (Outcome.Read n)
        → (0 < n) × (length (C.received conversation.new) ≡ length (C.received conversation.old) + n) }
    ensures ended { result ≡ Ok Outcome.Ended → IsAtEnd (R.remaining reader.new) }
    ensures done { result ≡ Ok Outcome.Done → C.done conversation.new × (C.pending conversation.new ≡ []) }
{
    conversation.advance(rt, service);
    if conversation.is_done() {
        return Ok(Outcome::Done);
    }
    if conversation.wants_write() {
        match send(conversation, writer) {
            Ok(count) => Ok(Outcome::Wrote(count)),
            Err(error) => Err(Fault::Write(error)),
        }
    } else {
        match receive(conversation, reader) {
            Ok(outcome) => Ok(outcome),
            Err(error) => Err(Fault::Read(error)),
        }
    }
}
