//! From the bytes that were received to the head of a request.
ghost use Rattle.std.specs.Prelude.{MatchOption, IfOk, IfErr, Bool};
ghost use Rattle.mg_wire.specs.Body.{AwaitsHead, IsFresh};
ghost use Rattle.mg_wire.specs.Refusal.{Refuses};

use crate::body::{Begun, MAX_FIELDS};
use crate::bounds::Bounds;
use crate::refusal::Refusal;
use crate::request::request_at;
use crate::target::line_refusal;
use http1::{Event, Server};
use httparse::spans::EMPTY_HEADER_SPAN;
use std::alloc::Global;

/// Reads the head that the input begins with, and checks its first line. `None`: it is not there yet.
pub(crate) fn begin(alloc: Global, bounds: Bounds, input: &[u8]) -> Result<Option<Begun>, Refusal>
    ensures read { IfOk result (λ r. MatchOption r (AwaitsHead bounds.limits input.now) (IsFresh bounds input.now)) }
    ensures refused { (ended starved : Bool) → IfErr result (Refuses bounds ended starved input.now) }
{
    let mut server = Server::new(bounds.limits);
    let mut spans = [EMPTY_HEADER_SPAN; MAX_FIELDS];
    match server.read(input, &mut spans) {
        Ok(read) => match read.event {
            Event::Head(head) => {
                let method = head.method.of(input);
                let target = head.path.of(input);
                match line_refusal(method, target) {
                    Some(refusal) => Err(refusal),
                    None => match request_at(alloc, input, &head, &spans) {
                        Ok(request) => {
                            let waits = server.expects_continue();
                            Ok(Some(Begun {
                                server,
                                request,
                                at: read.consumed,
                                expects_continue: waits,
                            }))
                        }
                        Err(_) => Err(Refusal::NoMemory),
                    },
                }
            }
            _ => Ok(None),
        },
        Err(error) => Err(Refusal::Unreadable(error)),
    }
}
