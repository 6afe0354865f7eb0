//! A connection as a value: it reads and writes nothing by itself.
ghost use Rattle.std.specs.Prelude.{◌≡◌, ◌↔◌, ◌<◌, ◌≤◌, ◌+◌, ◌-◌, List, ℕ, [], ◌++◌, length, take, drop, None, Some, IfOk, OnErr, MatchOption, MatchResult, IsTrue, IsFalse};
ghost use Rattle.std.specs.Io.KnownBytes.{Consumes, IsAtEnd, Keeps};

use crate::request::{Framed, Pending};
use crate::sessions::SessionEnd;
use crate::sessions::answer::answer_request;
use crate::sessions::input::Input;
use crate::sessions::output::Output;
use crate::sessions::service::Service;
use bytes::BytesMut;
use http_server::Log;
use mg_engine::Refusal;
use std::alloc::Global;
use std::io;
use std::io::{ErrorKind, Read};
use std::sync::Wait;
use std::thread::Threads;

/// Why a connection ends once all of it is sent. The names are those of `SessionEnd`.
#[derive(Clone, Copy, Debug, PartialEq, Eq)]
pub enum Ending {
    Closed,
    Refused,
    Limit,
}

impl Ending {
    ghost use Rattle.mg_http.specs.Connection.{end_of};

    /// Returns the end of a session over such a connection.
    pub(crate) fn session_end(self) -> SessionEnd
        ensures { result ≡ end_of self }
    {
        match self {
            Ending::Closed => SessionEnd::Closed,
            Ending::Refused => SessionEnd::Refused,
            Ending::Limit => SessionEnd::Limit,
        }
    }
}

/// What a client and a service say to each other over one connection. It holds at most one unfinished message, the bytes of one more read,
/// and the replies that are not sent yet.
#[derive(Drop)]
pub struct Connection<'a> {
    pub(crate) alloc: Global,
    /// The database's name: a request for another one gets a refusal.
    pub(crate) db: &'a str,
    pub(crate) input: Input,
    /// The head that the unanswered bytes begin with, if it was read.
    framed: Option<Framed>,
    pub(crate) output: Output,
    /// There was no memory for the last read.
    pub(crate) is_starved: bool,
    pub(crate) end: Option<Ending>,
    /// The number of messages answered.
    messages: u32,
    /// What each read added: the buffer after it, and its length before it. Only proofs read this and `writes`.
    reads: Log<BytesMut, usize>,
    /// What was sent: the output before, and the number of bytes.
    writes: Log<Output, usize>,
}

impl<'a> Connection<'a> {
    ghost use Rattle.mg_engine.specs.Commands.{refused};
    ghost use Rattle.mg_http.specs.declared.request.head.Pending.TheVariants as pending;
    ghost use Rattle.mg_http.specs.Connection.{unanswered, received, sent, waiting, IsKept, IsReady, IsQuiet, Runs, Transfers, GoesOnUnlessStarved, Rests, IsIdle, held_by};
    ghost use Rattle.mg_http.specs.Output.{left_of_last, HasRoom};
    ghost use Rattle.mg_http.specs.Reply.{text_of};
    ghost use Rattle.mg_http.specs.Steps.{IsPending};

    /// Begins a connection to the database of this name. Allocates nothing.
    pub fn new(alloc: Global, db: &'a str) -> Connection<'a>
        ensures db { result.db ≡ db.entry }
        ensures received { received result ≡ [] }
        ensures sent { sent result ≡ [] }
        ensures waits { waiting result ≡ [] }
        ensures input { unanswered result ≡ [] }
        ensures state { (result.end ≡ None) × (result.framed ≡ None) × (result.messages ≡ 0) }
        ensures starved { IsFalse result.is_starved }
    {
        Connection {
            alloc,
            db,
            input: Input::new(alloc),
            framed: None,
            output: Output::new(alloc),
            is_starved: false,
            end: None,
            messages: 0,
            reads: Log::new(),
            writes: Log::new(),
        }
    }

    /// Reads once; 0: the input has ended. `None`: there was no memory to read, which `run` tells the client.
    ///
    /// Errors: those of the reader, and `NotConnected` if the connection has ended. Nothing has changed.
    pub(crate) fn receive<R: Read>(&mut self, reader: &mut R) -> io::Result<Option<usize>>
        ensures ok { IfOk result (λ read. MatchOption read
            (Transfers self.old self.new [] × (R.remaining reader.new ≡ R.remaining reader.old))
            (λ n. (more : List ℕ) × (length more ≡ n)
            × Consumes (R.remaining reader.old) (R.remaining reader.new) more × Transfers self.old self.new more)) }
        ensures end { IfOk result (λ read. MatchOption read (Unit {0}) (λ n. n ≡ 0 → IsAtEnd (R.remaining reader.new))) }
        ensures err { OnErr result (Transfers self.old self.new [] × Keeps (R.remaining reader.old) (R.remaining reader.new)) }
        ensures starved { MatchResult result (λ read. MatchOption read (IsTrue self.new.is_starved) (λ n. IsFalse self.new.is_starved))
            (λ e. self.new.is_starved ≡ self.old.is_starved) }
        ensures transfers { (more : List ℕ) × Transfers self.old self.new more }
        ensures sent { sent self.new ≡ sent self.old }
        ensures waits { waiting self.new ≡ waiting self.old }
        ensures gives_back { OnErr result (IsIdle self.new → held_by self.new ≡ 0) }
    {
        if self.end.is_some() {
            return Err(ErrorKind::NotConnected.into());
        }
        let len = self.input.bytes.len();
        match self.input.receive(self.alloc, reader) {
            Ok(Some(count)) => {
                self.reads = self.reads.and(&self.input.bytes, &len);
                self.is_starved = false;
                Ok(Some(count))
            }
            Ok(None) => {
                self.is_starved = true;
                Ok(None)
            }
            Err(error) => {
                self.give_back();
                Err(error)
            }
        }
    }

    /// Gives the buffers back if the connection is idle.
    fn give_back(&mut self)
        ensures only { self.new ≡ record self.old { input = self.new.input; output = self.new.output } }
        ensures input { unanswered self.new ≡ unanswered self.old }
        ensures output { waiting self.new ≡ waiting self.old }
        ensures room { HasRoom self.new.output → HasRoom self.old.output }
        ensures busy { (¬ (IsIdle self.old)) → self.new ≡ self.old }
        ensures gives_back { IsIdle self.new → held_by self.new ≡ 0 }
    {
        if self.is_unused() {
            self.input = Input::new(self.alloc);
            self.output = Output::new(self.alloc);
        }
    }

    /// Returns the head that was read, or else reads the next one.
    fn next_head(&mut self) -> Pending
        ensures only { self.new ≡ record self.old { input = self.new.input; framed = None } }
        ensures input { unanswered self.new ≡ unanswered self.old }
        ensures pending { IsKept self.old.db.now (unanswered self.old) self.old.framed
            → IsPending self.old.db.now (unanswered self.old) result }
    {
        match self.framed.take() {
            Some(framed) => Pending::Head(framed),
            None => self.input.head(self.alloc, self.db),
        }
    }

    /// Says the refusal, and ends the connection.
    fn refuse(&mut self, refusal: Refusal, omits_body: bool)
        requires { left_of_last self.old.output ≡ [] }
        ensures only { self.new ≡ record self.old { output = self.new.output; end = Some Ending.Refused } }
        ensures text { waiting self.new ≡ waiting self.old ++ text_of omits_body (refused refusal) }
    {
        self.output.refuse(omits_body, refusal);
        self.end = Some(Ending::Refused);
    }

    /// Waits for more bytes. If there was no memory for the last read, says so instead, and ends the connection.
    fn wait(&mut self, omits_body: bool)
        requires { left_of_last self.old.output ≡ [] }
        ensures { GoesOnUnlessStarved omits_body self.old self.new }
    {
        if self.is_starved {
            self.refuse(Refusal::OutOfMemory, omits_body);
        }
    }

    /// Answers the message that the unanswered bytes begin with: its head was read, and it has `end` bytes.
    fn answer<H: Wait + Threads + Sync, S: Service>(
        &mut self,
        rt: &H,
        service: &mut S,
        framed: Framed,
        end: usize,
    )
        requires room { left_of_last self.old.output ≡ [] }
        requires body { framed.head_len ≤ end }
        requires whole { end ≤ length (unanswered self.old) }
        requires few { self.old.messages < 4294967295 }
        ensures quiet { IsQuiet self.old self.new }
        ensures runs { self.old.end ≡ None → self.old.framed ≡ None → end ≡ framed.head_len + framed.body_len
            → IsPending self.old.db.now (unanswered self.old) (pending.Head framed)
            → Runs S.answers self.old service.old self.new service.new }
        ensures counts { self.new.messages ≡ self.old.messages + 1 }
    {
        let Framed {
            request,
            head_len,
            body_len: _,
            omits_body,
            closes,
        } = framed;
        let body = &self.input.bytes.as_slice()[head_len..end];
        let answer = answer_request(rt, self.alloc, service, request, body);
        self.output.answer(omits_body, answer);
        self.input.drop_front(end);
        self.messages += 1;
        if closes {
            self.end = Some(Ending::Closed);
        }
    }

    /// Answers the message whose head was read, if it is whole. Returns whether there may be more to answer.
    fn go_on<H: Wait + Threads + Sync, S: Service>(
        &mut self,
        rt: &H,
        service: &mut S,
        framed: Framed,
    ) -> bool
        requires { left_of_last self.old.output ≡ [] }
        ensures quiet { IsQuiet self.old self.new }
        ensures runs { self.old.end ≡ None → self.old.framed ≡ None
            → IsPending self.old.db.now (unanswered self.old) (pending.Head framed)
            → Runs S.answers self.old service.old self.new service.new }
        ensures rests { IsPending self.old.db.now (unanswered self.old) (pending.Head framed) → IsFalse result → Rests self.new }
        ensures counts { IsTrue result → 4294967295 - self.new.messages < 4294967295 - self.old.messages }
    {
        let end = framed.head_len.saturating_add(framed.body_len as usize);
        if self.input.bytes.len() < end {
            let omits_body = framed.omits_body;
            self.framed = Some(framed);
            self.wait(omits_body);
            return false;
        }
        if self.messages == u32::MAX {
            self.end = Some(Ending::Limit);
            return false;
        }
        self.answer(rt, service, framed, end);
        true
    }

    /// Answers the next message, if it is whole and its reply may be said. Returns whether there may be more to answer.
    fn step<H: Wait + Threads + Sync, S: Service>(&mut self, rt: &H, service: &mut S) -> bool
        ensures quiet { IsQuiet self.old self.new }
        ensures runs { IsReady self.old → Runs S.answers self.old service.old self.new service.new }
        ensures stays { (¬ (self.old.end ≡ None)) → (self.new ≡ self.old) × (service.new ≡ service.old) }
        ensures rests { IsReady self.old → IsFalse result → Rests self.new }
        ensures counts { IsTrue result → 4294967295 - self.new.messages < 4294967295 - self.old.messages }
    {
        if self.end.is_some() || !self.output.has_room() {
            return false;
        }
        match self.next_head() {
            Pending::Head(framed) => self.go_on(rt, service, framed),
            Pending::Waiting => {
                self.wait(false);
                false
            }
            Pending::Refused(refusal, omits_body) => {
                self.refuse(refusal, omits_body);
                false
            }
        }
    }

    /// Answers the whole messages that were received, in order, until they are used up, as much waits to be sent as may, or the connection
    /// ends. It keeps its buffers.
    pub(crate) fn run<H: Wait + Threads + Sync, S: Service>(&mut self, rt: &H, service: &mut S)
        ensures quiet { IsQuiet self.old self.new }
        ensures runs { IsReady self.old → Runs S.answers self.old service.old self.new service.new }
        ensures stays { (¬ (self.old.end ≡ None)) → (self.new ≡ self.old) × (service.new ≡ service.old) }
        ensures rests { IsReady self.old → Rests self.new }
    {
        while self.step(rt, service) {}
    }

    /// So many of the bytes are sent.
    pub(crate) fn count(&mut self, count: usize)
        requires { count ≤ length (waiting self.old) }
        ensures only { self.new ≡ record self.old { output = self.new.output; writes = self.new.writes } }
        ensures sent { sent self.new ≡ sent self.old ++ take count (waiting self.old) }
        ensures waits { waiting self.new ≡ drop count (waiting self.old) }
    {
        self.writes = self.writes.and(&self.output, &count);
        self.output.count(count);
    }

    pub(crate) fn has_ended(&self) -> bool
        ensures { IsTrue result ↔ (¬ (self.now.end ≡ None)) }
    {
        self.end.is_some()
    }

    /// No message has begun, and nothing waits to be sent.
    pub(crate) fn is_unused(&self) -> bool
        ensures { IsTrue result ↔ IsIdle self.now }
    {
        self.end.is_none()
            && self.framed.is_none()
            && self.input.bytes.is_empty()
            && self.output.is_empty()
    }
}
