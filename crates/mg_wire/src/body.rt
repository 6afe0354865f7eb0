//! A request whose head was read, and its body as it comes.
ghost use Rattle.std.specs.Prelude.{◌≡◌, ◌≤◌, true, false};
ghost use Rattle.http1.specs.Conn.{is_connect};
ghost use Rattle.http1.specs.Framing.{method_kind};
ghost use Rattle.http1.specs.Server.{is_head, may_respond, peer_method, peer_minor};

use crate::bounds::Bounds;
use crate::refusal::Refusal;
use crate::request::Request;
use http1::{Event, Server};
use httparse::spans::EMPTY_HEADER_SPAN;

/// A head or a trailer section may have so many fields.
pub(crate) const MAX_FIELDS: usize = 64;

/// A request whose head was read, and the first `at` bytes of whose text were read.
#[derive(Debug, Drop)]
pub(crate) struct Begun {
    pub(crate) server: Server,
    pub(crate) request: Request,
    pub(crate) at: usize,
    /// The client sends its body only after `100 Continue`.
    pub(crate) expects_continue: bool,
    // The server awaits the response to the request, which is no `CONNECT`.
    ghost awaits: { may_respond server ≡ true },
    ghost no_tunnel: { is_connect (peer_method server) ≡ false },
    ghost same_method: { is_head (peer_method server) ≡ is_head (method_kind request.method) },
    ghost minor: { peer_minor server ≤ 1 },
}

/// How far a step came.
pub(crate) enum Step {
    /// More bytes are needed.
    Waits,
    /// A piece of the body was read.
    Goes,
    /// The request is whole.
    Whole,
}

impl Begun {
    ghost use Rattle.std.specs.Prelude.{IfOk, IfErr, Bool};
    ghost use Rattle.mg_wire.specs.Body.{IsBegun, StepsTo, Moves};
    ghost use Rattle.mg_wire.specs.Refusal.{Refuses};

    /// Reads a piece of the body.
    pub(crate) fn step(&mut self, bounds: Bounds, input: &[u8]) -> Result<Step, Refusal>
        ensures read { IsBegun bounds input.now self.old
            → IfOk result (StepsTo bounds input.now self.old.at self.new) }
        ensures refused { (ended starved : Bool) → IsBegun bounds input.now self.old
            → IfErr result (Refuses bounds ended starved input.now) }
        ensures kept { self.new.expects_continue ≡ self.old.expects_continue }
        ensures moves { IfOk result (Moves input.now self.old.at self.new.at) }
    {
        let mut spans = [EMPTY_HEADER_SPAN; MAX_FIELDS];
        let Some(unread) = input.get(self.at..) else {
            return Ok(Step::Waits);
        };
        match self.server.read(unread, &mut spans) {
            Ok(read) => {
                self.at += read.consumed;
                match read.event {
                    Event::Data(piece) => {
                        if read.consumed == 0 {
                            return Ok(Step::Waits);
                        }
                        let piece = piece.of(unread);
                        if piece.len() > bounds.max_body.saturating_sub(self.request.body.len()) {
                            return Err(Refusal::BodyTooLarge);
                        }
                        match self.request.body.extend_from_slice(piece) {
                            Ok(()) => Ok(Step::Goes),
                            Err(_) => Err(Refusal::NoMemory),
                        }
                    }
                    Event::End(_) => Ok(Step::Whole),
                    _ => Ok(Step::Waits),
                }
            }
            Err(error) => Err(Refusal::Unreadable(error)),
        }
    }
}
