//! Reads the head, complete or not, that a connection's unanswered bytes begin with.
ghost use Rattle.std.specs.Prelude.{◌≤◌, ◌*◌, min, length};
ghost use Rattle.mg_http.specs.Steps.{IsPending};

mod decode;
mod fields;
mod head;
mod route_match;
mod routes;
mod target;
mod text;
mod unfinished;

use head::read_head;
pub(crate) use head::{Framed, Pending};
use httparse::spans::HeaderSpan;
use mg_engine::Refusal;
pub(crate) use routes::Endpoint;
use std::alloc::Global;
pub(crate) use target::ParsedRequest;

/// The most bytes of a head.
pub(crate) const MAX_HEAD: usize = 16_384;

/// Reads the head that the bytes begin with. `db` is the database's name; `spans` is room for the head's fields,
/// each of which has at least three bytes.
///
/// Refuses a head that is incomplete after `MAX_HEAD` bytes, bytes that can never become a head, a head with more than 64 fields, a head
/// whose fields give no acceptable length of the body, and a head for whose target there is no memory.
pub(crate) fn read_pending(
    alloc: Global,
    db: &str,
    bytes: &[u8],
    spans: &mut [HeaderSpan],
) -> Pending
    requires { min (length bytes.now) 16384 ≤ 3 * length spans.old }
    ensures { IsPending db.now bytes.now result }
{
    match read_head(alloc, db, &bytes[..bytes.len().min(MAX_HEAD)], spans) {
        Pending::Waiting if bytes.len() < MAX_HEAD => Pending::Waiting,
        Pending::Waiting => Pending::Refused(Refusal::HeadTooLarge, false),
        Pending::Refused(refusal, omits_body) => Pending::Refused(refusal, omits_body),
        Pending::Head(framed) => Pending::Head(framed),
    }
}
