//! How a connection answers what was received: it reads a head, then the body piece by piece, asks the service, and sends the response.
ghost use Rattle.std.specs.Prelude.{◌≡◌, ◌≢◌, ℕ, ◌<◌, ◌≤◌, List, [], ◌++◌, length, drop, ◌⊎◌, min, Option, Some, None, if◌then◌else◌, IsTrue, IsFalse, MatchOption};
ghost use Rattle.http1.specs.Server.{is_head};
ghost use Rattle.mg_wire.specs.Body.{HasNoMessage, IsBegun, IsFresh, IsWhole};
ghost use Rattle.mg_wire.specs.Connection.{pending, IsQuiet, IsSilent, Holds, IsDue, Rests, Starts, work};
ghost use Rattle.mg_wire.specs.Refusal.{Refuses, begins_with_head, refusal_text};
ghost use Rattle.mg_wire.specs.Status.{has_content};
ghost use Rattle.mg_wire.specs.Transcript.{Asks};

use crate::body::{Begun, Step};
use crate::connection::{Connection, Ending};
use crate::refusal::{CONTINUE, Refusal, write_refusal};
use crate::reply::{ROOM, content_len, write_reply};
use crate::response::Response;
use crate::service::Service;
use crate::start::begin;
use crate::status::Status;
use bytes::BytesMut;
use http1::BodySize;
use http1::framing::MethodKind;
use std::alloc::Global;
use std::sync::Wait;
use std::thread::Threads;

/// A body that is no longer than this is sent with its head.
const FOLDED: usize = 65536;

/// So many bytes of a content are sent: to `HEAD` the head alone.
fn sent_len(method: MethodKind, len: usize) -> usize
    ensures { result ≡ (if is_head method then 0 else len) }
{
    if method == MethodKind::Head { 0 } else { len }
}

/// What is sent of a body.
fn sent_body(alloc: Global, method: MethodKind, status: Status, body: Vec<u8>) -> Vec<u8>
    ensures { result.items
        ≡ (if is_head method then [] else (if has_content status then body.items else [])) }
{
    if method == MethodKind::Head || !status.has_content() {
        Vec::new(alloc)
    } else {
        body
    }
}

impl Connection {
    /// Refuses the next request, and ends the connection. To `HEAD` the head of the refusal is sent alone.
    fn refuse(&mut self, refusal: Refusal)
        ensures quiet { IsQuiet self.old self.new }
        ensures calls { self.new.calls ≡ self.old.calls }
        ensures ends { self.new.end ≢ None }
        ensures says { self.new.end ≡ Some (Ending.Refused refusal)
            → self.new.output.items ≡ self.old.output.items ++ refusal_text self.old.date (begins_with_head self.old.input.items) refusal }
        ensures holds { (b : Option Begun) → self.old.tail.items ≡ [] → self.old.end ≡ None
            → Refuses self.old.bounds self.old.has_ended self.old.is_starved self.old.input.items refusal
            → Holds (record self.old { begun = b }) → Holds self.new }
    {
        let is_head = self.input.as_slice().starts_with(b"HEAD ");
        match write_refusal(&mut self.output, self.date, is_head, refusal) {
            Ok(()) => self.close(Ending::Refused(refusal)),
            Err(_) => self.close(Ending::NoMemory),
        }
    }

    /// Waits for more bytes. If there will be no more, or there was no memory for them, ends the connection.
    fn wait(&mut self)
        ensures quiet { IsQuiet self.old self.new }
        ensures calls { self.new.calls ≡ self.old.calls }
        ensures holds { self.old.tail.items ≡ [] → self.old.end ≡ None
            → HasNoMessage self.old.bounds.limits self.old.input.items → Holds self.old → Holds self.new }
        ensures waits { (self.new.end ≢ None)
            ⊎ ((self.new ≡ self.old) × IsFalse self.old.has_ended × IsFalse self.old.is_starved) }
    {
        if self.is_starved {
            self.refuse(Refusal::NoMemory);
        } else if self.has_ended {
            self.finish();
        }
    }

    /// The client ended its side, and no whole request is left.
    fn finish(&mut self)
        requires { IsTrue self.old.has_ended }
        ensures quiet { IsQuiet self.old self.new }
        ensures calls { self.new.calls ≡ self.old.calls }
        ensures ends { self.new.end ≢ None }
        ensures holds { self.old.tail.items ≡ [] → self.old.end ≡ None
            → HasNoMessage self.old.bounds.limits self.old.input.items → Holds self.old → Holds self.new }
    {
        if self.input.is_empty() {
            self.close(Ending::InputEnded);
        } else {
            self.refuse(Refusal::Cut);
        }
    }

    /// Reads the next head. Returns whether there may be more to do.
    fn start(&mut self) -> bool
        ensures quiet { IsQuiet self.old self.new }
        ensures calls { self.new.calls ≡ self.old.calls }
        ensures holds { self.old.tail.items ≡ [] → self.old.begun ≡ None → self.old.end ≡ None → Holds self.old → Holds self.new }
        ensures rests { self.old.begun ≡ None → IsFalse result → Rests self.new }
        ensures works { IsTrue result → Starts self.old self.new }
    {
        match begin(self.alloc, self.bounds, self.input.as_slice()) {
            Ok(Some(begun)) => self.accept(begun),
            Ok(None) => {
                self.wait();
                false
            }
            Err(refusal) => {
                self.refuse(refusal);
                false
            }
        }
    }

    /// Why the request with this head is refused.
    fn objection(&self, begun: &Begun) -> Option<Refusal>
        ensures { IsFresh self.now.bounds self.now.input.items begun.now
            → MatchOption result (Unit {0}) (Refuses self.now.bounds self.now.has_ended self.now.is_starved self.now.input.items) }
    {
        if begun.server.has_codings() {
            return Some(Refusal::UnknownCoding);
        }
        match begun.server.unread_size() {
            BodySize::Known(len) if len > self.bounds.max_body as u64 => {
                Some(Refusal::BodyTooLarge)
            }
            _ => None,
        }
    }

    /// Takes a request whose head was read, or refuses it.
    fn accept(&mut self, begun: Begun) -> bool
        ensures quiet { IsQuiet self.old self.new }
        ensures calls { self.new.calls ≡ self.old.calls }
        ensures holds { self.old.tail.items ≡ [] → self.old.begun ≡ None → self.old.end ≡ None
            → IsFresh self.old.bounds self.old.input.items begun → Holds self.old → Holds self.new }
        ensures ends { IsFalse result → self.new.end ≢ None }
        ensures works { IsTrue result → (self.new.begun ≡ Some begun) × (self.new.input.items ≡ self.old.input.items) }
    {
        match self.objection(&begun) {
            Some(refusal) => {
                self.refuse(refusal);
                false
            }
            None => self.admit(begun),
        }
    }

    /// Takes a request whose head was read. A client that waits for `100 Continue` gets it.
    fn admit(&mut self, begun: Begun) -> bool
        ensures quiet { IsQuiet self.old self.new }
        ensures calls { self.new.calls ≡ self.old.calls }
        ensures holds { self.old.tail.items ≡ [] → self.old.begun ≡ None → self.old.end ≡ None
            → IsBegun self.old.bounds self.old.input.items begun → Holds self.old → Holds self.new }
        ensures ends { IsFalse result → self.new.end ≢ None }
        ensures works { IsTrue result → (self.new.begun ≡ Some begun) × (self.new.input.items ≡ self.old.input.items) }
    {
        if !begun.expects_continue {
            self.begun = Some(begun);
            return true;
        }
        match self.output.extend_from_slice(CONTINUE) {
            Ok(()) => {
                self.begun = Some(begun);
                true
            }
            Err(_) => {
                self.close(Ending::NoMemory);
                false
            }
        }
    }

    /// Adds the body of a response whose head is the last of the output. A short one joins the output.
    fn attach(&mut self, body: Vec<u8>)
        ensures only { self.new ≡ record self.old { output = self.new.output; tail = self.new.tail } }
        ensures pending { pending self.new ≡ self.old.output.items ++ body.items }
    {
        if body.len() <= FOLDED && self.output.extend_from_slice(body.as_slice()).is_ok() {
            self.tail = BytesMut::new(self.alloc);
        } else {
            self.tail = BytesMut::from_vec(body);
        }
    }

    /// Sends the response to the request that was read.
    fn reply(&mut self, begun: Begun, response: Response)
        requires room { ROOM ≤ self.old.output.spare }
        ensures quiet { IsSilent self.old self.new }
        ensures calls { self.new.calls ≡ self.old.calls }
        ensures holds { IsDue self.old begun response → Holds self.new }
        ensures works { self.old.begun ≡ None → (self.new.begun ≡ None) × (self.new.input.items ≡ self.old.input.items) }
    {
        let Begun {
            server,
            request,
            at: _,
            expects_continue: _,
        } = begun;
        let mut server = server;
        let method = MethodKind::of(request.method.as_slice());
        let len = content_len(response.status, response.body.len());
        let sent = sent_len(method, len);
        write_reply(&mut server, &mut self.output, &response, sent);
        let body = sent_body(self.alloc, method, response.status, response.body);
        self.attach(body);
        self.settle(server.is_closed());
    }

    /// Ends the connection after a response that says so.
    fn settle(&mut self, closes: bool)
        ensures { ((self.new ≡ self.old) × IsFalse closes)
            ⊎ ((self.new ≡ record self.old { end = Some Ending.Closed; begun = None }) × IsTrue closes) }
    {
        if closes {
            self.close(Ending::Closed);
        }
    }

    /// Asks the service, once there is room for the head of its response.
    fn answer<H: Wait + Threads + Sync, S: Service>(
        &mut self,
        rt: &H,
        service: &mut S,
        begun: Begun,
    ) -> bool
        ensures quiet { IsSilent self.old self.new }
        ensures asks { Asks S.answers self.old.calls.items service.old self.new.calls.items service.new }
        ensures holds { (b : Begun) → self.old.tail.items ≡ [] → self.old.end ≡ None → self.old.begun ≡ None
            → begun.expects_continue ≡ b.expects_continue → Holds (record self.old { begun = Some b })
            → IsWhole self.old.bounds self.old.input.items begun → Holds self.new }
        ensures ends { IsFalse result → self.new.end ≢ None }
        ensures works { self.old.begun ≡ None → IsTrue result → (self.new.begun ≡ None)
            × (self.new.input.items ≡ drop (min begun.at (length self.old.input.items)) self.old.input.items) }
    {
        match self.output.reserve(ROOM) {
            Ok(()) => {}
            Err(_) => {
                self.close(Ending::NoMemory);
                return false;
            }
        }
        let mut response = Response::new(self.alloc);
        service.call(rt, &begun.request, &mut response);
        self.calls = self.calls.and(&begun.request, &response);
        self.input.advance(begun.at.min(self.input.len()));
        self.reply(begun, response);
        true
    }

    /// Reads on in the body of the request.
    fn go_on<H: Wait + Threads + Sync, S: Service>(
        &mut self,
        rt: &H,
        service: &mut S,
        begun: Begun,
    ) -> bool
        ensures quiet { IsSilent self.old self.new }
        ensures asks { Asks S.answers self.old.calls.items service.old self.new.calls.items service.new }
        ensures holds { self.old.tail.items ≡ [] → self.old.end ≡ None → self.old.begun ≡ None
            → Holds (record self.old { begun = Some begun }) → Holds self.new }
        ensures rests { self.old.end ≡ None → Holds (record self.old { begun = Some begun }) → IsFalse result → Rests self.new }
        ensures works { self.old.begun ≡ None → IsTrue result → work self.new < work (record self.old { begun = Some begun }) }
    {
        let mut begun = begun;
        match begun.step(self.bounds, self.input.as_slice()) {
            Ok(Step::Waits) => {
                self.begun = Some(begun);
                self.wait();
                false
            }
            Ok(Step::Goes) => {
                self.begun = Some(begun);
                true
            }
            Ok(Step::Whole) => self.answer(rt, service, begun),
            Err(refusal) => {
                self.refuse(refusal);
                false
            }
        }
    }

    /// Reads the next head, or the next piece of a body. Returns whether there may be more to do.
    fn step<H: Wait + Threads + Sync, S: Service>(&mut self, rt: &H, service: &mut S) -> bool
        ensures quiet { IsSilent self.old self.new }
        ensures asks { Asks S.answers self.old.calls.items service.old self.new.calls.items service.new }
        ensures holds { Holds self.old → Holds self.new }
        ensures rests { Holds self.old → IsFalse result → Rests self.new }
        ensures works { IsTrue result → work self.new < work self.old }
    {
        if self.end.is_some()
            || !self.tail.is_empty()
            || self.output.len() > self.bounds.max_pending
        {
            return false;
        }
        match self.begun.take() {
            None => self.start(),
            Some(begun) => self.go_on(rt, service, begun),
        }
    }

    /// Takes the date for a refusal, unless there is nothing to refuse.
    fn note_date<S: Service>(&mut self, service: &S)
        ensures { self.new ≡ record self.old { date = self.new.date } }
    {
        if !self.input.is_empty() || self.is_starved {
            self.date = service.date();
        }
    }

    /// Answers the whole requests that were received, in order, until they are used up, as much is pending as may be, or the connection ends.
    pub(crate) fn run<H: Wait + Threads + Sync, S: Service>(&mut self, rt: &H, service: &mut S)
        ensures quiet { IsSilent self.old self.new }
        ensures asks { Asks S.answers self.old.calls.items service.old self.new.calls.items service.new }
        ensures holds { Holds self.old → Holds self.new }
        ensures rests { Holds self.old → Rests self.new }
    {
        self.note_date(service);
        while self.step(rt, service) {}
    }
}
