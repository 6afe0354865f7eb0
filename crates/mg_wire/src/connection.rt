//! A connection as a value: its buffers, and how far it came.
ghost use Rattle.std.specs.Prelude.{◌≡◌, ℕ, ◌<◌, ◌≤◌, ◌↔◌, ◌⊎◌, List, [], ◌++◌, length, take, drop, ◌-◌, ◌^◌, min, Some, None, Ok, IfOk, OnErr, MatchOption, IsTrue, true};
ghost use Rattle.std.specs.Io.KnownBytes.{Consumes, IsAtEnd, Keeps};
ghost use Rattle.bytes.specs.Unread.{IsChunkOf};
ghost use Rattle.mg_wire.specs.Connection.{received, sent, pending, Holds, IsIdle, IsDone, room_of};

use crate::body::Begun;
use crate::bounds::Bounds;
use crate::refusal::Refusal;
use crate::request::Request;
use crate::response::Response;
use bytes::BytesMut;
use http_server::Log;
use httpdate::HttpDate;
use std::alloc::Global;
use std::io;
use std::io::{ErrorKind, Read};

/// The least room that a read is given. New room is cleared, so an idle connection begins with little.
const FIRST_READ: usize = 1024;

/// A read is given room for as much as was received and is not used up, or for so much if that is less.
const READ_ROOM: usize = 16384;

/// Why a connection ends, once all of it is sent.
#[derive(Clone, Copy, Debug, PartialEq, Eq)]
pub enum Ending {
    /// The last request or its response asked for it.
    Closed,
    /// The client ended its side between two requests.
    InputEnded,
    /// The next request was refused.
    Refused(Refusal),
    /// There was no memory for the next request, and none to say so.
    NoMemory,
}

/// What a client and a service say to each other over one connection.
#[derive(Drop)]
pub struct Connection {
    pub(crate) alloc: Global,
    pub(crate) bounds: Bounds,
    pub(crate) end: Option<Ending>,
    /// The date of a refusal, from the service, as of the last run.
    pub(crate) date: Option<HttpDate>,
    /// A read found the end of the input.
    pub(crate) has_ended: bool,
    /// There was no memory for a read.
    pub(crate) is_starved: bool,
    /// The request whose head was read. The input begins where it begins.
    pub(crate) begun: Option<Begun>,
    pub(crate) input: BytesMut,
    pub(crate) output: BytesMut,
    /// The body of the last response, which is sent after the output.
    pub(crate) tail: BytesMut,
    /// What each read added: the input after it, and its length before it. Only proofs read the logs.
    pub(crate) reads: Log<BytesMut, usize>,
    /// What was sent: a buffer before, and the number of its bytes.
    pub(crate) writes: Log<BytesMut, usize>,
    /// What the service was asked, and what it responded.
    pub(crate) calls: Log<Request, Response>,
}

impl Connection {
    /// Begins a connection. Allocates nothing.
    pub fn new(alloc: Global, bounds: Bounds) -> Connection
        ensures received { received result ≡ [] }
        ensures sent { sent result ≡ [] }
        ensures pending { pending result ≡ [] }
        ensures calls { result.calls.items ≡ [] }
        ensures holds { Holds result }
    {
        Connection {
            alloc,
            bounds,
            end: None,
            date: None,
            has_ended: false,
            is_starved: false,
            begun: None,
            input: BytesMut::new(alloc),
            output: BytesMut::new(alloc),
            tail: BytesMut::new(alloc),
            reads: Log::new(),
            writes: Log::new(),
            calls: Log::new(),
        }
    }

    /// Ends the connection, once what is pending is sent.
    pub(crate) fn close(&mut self, ending: Ending)
        ensures { self.new ≡ record self.old { end = Some ending; begun = None } }
    {
        self.begun = None;
        self.end = Some(ending);
    }

    /// Gives the buffers back if the connection is idle.
    fn give_back(&mut self)
        ensures only { self.new ≡ record self.old { input = self.new.input; output = self.new.output; tail = self.new.tail } }
        ensures input { self.new.input.items ≡ self.old.input.items }
        ensures output { self.new.output.items ≡ self.old.output.items }
        ensures tail { self.new.tail.items ≡ self.old.tail.items }
        ensures gives_back { IsIdle self.new → room_of self.new ≡ 0 }
    {
        if self.is_unused() {
            self.input = BytesMut::new(self.alloc);
            self.output = BytesMut::new(self.alloc);
            self.tail = BytesMut::new(self.alloc);
        }
    }

    /// No request has begun, and nothing is pending.
    pub(crate) fn is_unused(&self) -> bool
        ensures { IsTrue result ↔ IsIdle self.now }
    {
        self.end.is_none()
            && self.begun.is_none()
            && self.input.is_empty()
            && self.output.is_empty()
            && self.tail.is_empty()
    }

    pub(crate) fn has_pending(&self) -> bool
        ensures { IsTrue result ↔ (0 < length (pending self.now)) }
    {
        !self.output.is_empty() || !self.tail.is_empty()
    }

    /// The connection ends, and all of it was sent.
    pub(crate) fn is_over(&self) -> bool
        ensures { IsTrue result ↔ IsDone self.now }
    {
        self.end.is_some() && !self.has_pending()
    }

    /// The bytes of memory that the buffers have taken.
    pub(crate) fn room(&self) -> usize
        ensures { result ≡ min (room_of self.now) (2 ^ 64 - 1) }
    {
        self.input
            .capacity()
            .saturating_add(self.output.capacity())
            .saturating_add(self.tail.capacity())
    }

    /// Reads once; 0: the input has ended, between two requests. `None`: there was no memory to read, which `run` tells the client.
    ///
    /// Errors: those of the reader; `Interrupted` if the input has ended within a request, which `run` then refuses; `NotConnected` if the
    /// connection has ended. Nothing was received.
    pub(crate) fn receive<R: Read>(&mut self, reader: &mut R) -> io::Result<Option<usize>>
        ensures ok { IfOk result (λ read. MatchOption read
            ((received self.new ≡ received self.old) × (R.remaining reader.new ≡ R.remaining reader.old))
            (λ n. (more : List ℕ) × (length more ≡ n)
            × Consumes (R.remaining reader.old) (R.remaining reader.new) more
            × (received self.new ≡ received self.old ++ more))) }
        ensures end { IfOk result (λ read. MatchOption read (Unit {0}) (λ n. n ≡ 0 → IsAtEnd (R.remaining reader.new))) }
        ensures between { result ≡ Ok (Some 0) → (self.new.begun ≡ None) × (self.new.input.items ≡ []) }
        ensures ended { IsTrue self.new.has_ended → IsTrue self.old.has_ended ⊎ IsAtEnd (R.remaining reader.new) }
        ensures starved { IsTrue self.new.is_starved → IsTrue self.old.is_starved ⊎ (result ≡ Ok None) }
        ensures err { OnErr result ((received self.new ≡ received self.old)
            × Keeps (R.remaining reader.old) (R.remaining reader.new)) }
        ensures sent { sent self.new ≡ sent self.old }
        ensures pending { pending self.new ≡ pending self.old }
        ensures calls { self.new.calls ≡ self.old.calls }
        ensures holds { Holds self.old → Holds self.new }
        ensures gives_back { OnErr result (IsIdle self.new → room_of self.new ≡ 0) }
    {
        if self.end.is_some() {
            return Err(ErrorKind::NotConnected.into());
        }
        let room = self.input.len().clamp(FIRST_READ, READ_ROOM);
        if self.input.reserve(room).is_err() {
            self.is_starved = true;
            return Ok(None);
        }
        let len = self.input.len();
        let count = match self.input.read_from(reader) {
            Ok(count) => count,
            Err(error) => {
                self.give_back();
                return Err(error);
            }
        };
        self.reads = self.reads.and(&self.input, &len);
        if count > 0 {
            Ok(Some(count))
        } else {
            self.note_end()
        }
    }

    /// The input has ended. Within a request that is not reported yet: the connection has to refuse the request first.
    fn note_end(&mut self) -> io::Result<Option<usize>>
        ensures only { self.new ≡ record self.old { has_ended = true } }
        ensures ok { IfOk result (λ read. (read ≡ Some 0) × (self.old.begun ≡ None) × (self.old.input.items ≡ [])) }
        ensures err { OnErr result (¬ (IsIdle self.new)) }
    {
        self.has_ended = true;
        if self.begun.is_none() && self.input.is_empty() {
            Ok(Some(0))
        } else {
            Err(ErrorKind::Interrupted.into())
        }
    }

    /// The next bytes to send.
    pub(crate) fn chunk(&self) -> &[u8]
        ensures { IsChunkOf result.now (pending self.now) }
    {
        if self.output.is_empty() {
            self.tail.as_slice()
        } else {
            self.output.as_slice()
        }
    }

    /// So many of the pending bytes were sent.
    pub(crate) fn count(&mut self, count: usize)
        requires { count ≤ length (pending self.old) }
        ensures sent { sent self.new ≡ sent self.old ++ take count (pending self.old) }
        ensures pending { pending self.new ≡ drop count (pending self.old) }
        ensures kept { (self.new.reads ≡ self.old.reads) × (self.new.calls ≡ self.old.calls) }
        ensures holds { Holds self.old → Holds self.new }
    {
        let head = count.min(self.output.len());
        self.writes = self.writes.and(&self.output, &head);
        self.output.advance(head);
        let rest = count - head;
        self.writes = self.writes.and(&self.tail, &rest);
        self.tail.advance(rest);
    }
}
