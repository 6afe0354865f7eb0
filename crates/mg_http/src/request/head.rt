//! Reads a head: what it asks for, and how its body is framed.
ghost use Rattle.std.specs.Prelude.{◌≡◌, ◌==◌, ◌||◌, ℕ, ◌≤◌, ◌*◌, List, length, map, All, take, bytes_eq, codes};
ghost use Rattle.std.specs.List.{list_any};
ghost use Rattle.httparse.specs.Grammar.{RequestHead, NeverHasRequest};
ghost use Rattle.httparse.specs.Spans.{IsHeaderWithin, header_bytes, IsRequestWithin, IsRequestAt};
ghost use Rattle.mg_http.specs.Fields.{asks_close};
ghost use Rattle.mg_http.specs.Head.{framed_by, refusal_before, framing_by_parts};
ghost use Rattle.mg_http.specs.Steps.{IsHeadRead, request_in, IsBodyFramed, IsFramedBy};

use crate::request::fields::{Length, asks_close, has_field, length_in};
use crate::request::target::{ParsedRequest, read_target};
use crate::request::unfinished::ends_in_target;
use httparse::spans::{HeaderSpan, RequestSpans, parse_request};
use httparse::{Error, Status};
use mg_engine::Refusal;
use std::alloc::{AllocError, Global};

/// The most fields that a head may have. One with more is refused.
const MAX_FIELDS: usize = 64;

/// A complete head that is not refused, and the length of the body after it.
#[derive(Drop)]
pub struct Framed {
    /// What the head asks for.
    pub request: ParsedRequest,
    /// The number of bytes of the head.
    pub head_len: usize,
    /// The number of bytes of the body.
    pub body_len: u64,
    /// Whether the reply leaves out the bytes of its body.
    pub omits_body: bool,
    /// Whether the session ends after the reply.
    pub closes: bool,
}

/// What the unanswered bytes begin with.
#[derive(Drop)]
pub(crate) enum Pending {
    /// An incomplete head, or no byte.
    Waiting,
    /// Bytes that are refused, or a head for whose target there was no memory; `true`: the reply leaves out its body.
    Refused(Refusal, bool),
    /// A whole head; its body may still be incomplete.
    Head(Framed),
}

/// Returns the request's own refusal if it has one, else `refusal`.
fn refusal_before(refusal: Refusal, request: &ParsedRequest) -> Refusal
    ensures { result ≡ refusal_before refusal (request_in request.now) }
{
    match request {
        ParsedRequest::Refuses(first) => *first,
        ParsedRequest::Body(_) => refusal,
        ParsedRequest::Asks(_) => refusal,
    }
}

/// Returns the number of bytes of the body. `coded`: a Transfer-Encoding is given, which is refused. `post`: a length is required.
///
/// Errors: why the message is refused before its body: `BadHead` for a faulty length; else the request's own refusal if it has one;
/// else `LengthRequired` or `TooLarge`.
fn frame_body(
    length: Length,
    coded: bool,
    post: bool,
    request: &ParsedRequest,
) -> Result<u64, Refusal>
    requires { (n : ℕ) → length ≡ Length.Bytes n → n ≤ 8388608 }
    ensures { IsBodyFramed (framed_by length coded post (request_in request.now))
        (request_in request.now) result }
{
    match length {
        Length::Faulty => Err(Refusal::BadHead),
        Length::Absent if coded || post => Err(refusal_before(Refusal::LengthRequired, request)),
        Length::Absent => Ok(0),
        _ if coded => Err(refusal_before(Refusal::LengthRequired, request)),
        Length::Bytes(n) => Ok(n),
        Length::TooMany => Err(refusal_before(Refusal::TooLarge, request)),
    }
}

/// Returns what a head with this method, target and fields asks for, and the number of bytes of the body. The fields are spans of `bytes`.
///
/// Errors: why the message is refused before its body: more than `MAX_FIELDS` fields, out of memory for the decoded target, or an error
/// of `frame_body`.
fn read_framing(
    alloc: Global,
    db: &str,
    method: &[u8],
    target: &[u8],
    bytes: &[u8],
    fields: &[HeaderSpan],
) -> Result<(ParsedRequest, u64), Refusal>
    requires { All (IsHeaderWithin (length bytes.now)) fields.now }
    ensures { IsFramedBy (framing_by_parts db.now method.now target.now
        (map (header_bytes bytes.now) fields.now)) result }
{
    if fields.len() > MAX_FIELDS {
        return Err(Refusal::HeadTooLarge);
    }
    let request = match read_target(alloc, db, method, target) {
        Ok(request) => request,
        Err(AllocError) => return Err(Refusal::OutOfMemory),
    };
    let length = length_in(bytes, fields);
    let coded = has_field(bytes, fields, b"transfer-encoding");
    let body = frame_body(length, coded, method == b"POST".as_slice(), &request);
    match body {
        Ok(body) => Ok((request, body)),
        Err(refusal) => Err(refusal),
    }
}

/// Returns the first `count` spans.
fn front_of(spans: &[HeaderSpan], count: usize) -> &[HeaderSpan]
    requires { count ≤ length spans.now }
    ensures { result.now ≡ take count spans.now }
{
    &spans[..count]
}

/// Whether the method is HEAD.
fn is_head_method(method: &[u8]) -> bool
    ensures { result ≡ bytes_eq method.now (codes "HEAD") }
{
    method == b"HEAD".as_slice()
}

/// Whether the session ends after the reply: the version is 1.0, or a Connection field asks to close.
fn closes_after(minor: u8, bytes: &[u8], fields: &[HeaderSpan]) -> bool
    requires { All (IsHeaderWithin (length bytes.now)) fields.now }
    ensures { result ≡ (minor == 0 || list_any asks_close (map (header_bytes bytes.now) fields.now)) }
{
    minor == 0 || asks_close(bytes, fields)
}

/// Classifies bytes that the parser rejected: an unfinished target, or no head at all.
fn read_rejected(bytes: &[u8]) -> Pending
    requires { NeverHasRequest bytes.now }
    ensures { (db : List ℕ) → IsHeadRead db bytes.now result }
{
    if ends_in_target(bytes) {
        Pending::Waiting
    } else {
        Pending::Refused(Refusal::BadHead, false)
    }
}

/// Reads the head that the parser found in the bytes. Refuses it for an error of `read_framing`.
fn read_whole(
    alloc: Global,
    db: &str,
    bytes: &[u8],
    spans: &[HeaderSpan],
    head: RequestSpans,
) -> Pending
    requires { IsRequestWithin bytes.now spans.now head }
    ensures { (h : RequestHead) → IsRequestAt bytes.now spans.now head h
        → IsHeadRead db.now bytes.now result }
{
    let method = head.method.of(bytes);
    let fields = front_of(spans, head.headers);
    let omits_body = is_head_method(method);
    match read_framing(alloc, db, method, head.path.of(bytes), bytes, fields) {
        Err(refusal) => Pending::Refused(refusal, omits_body),
        Ok((request, body_len)) => Pending::Head(Framed {
            request,
            head_len: head.len,
            body_len,
            omits_body,
            closes: closes_after(head.version, bytes, fields),
        }),
    }
}

/// Reads the head that the bytes begin with. `spans` is room for the head's fields, each of which has at least three bytes.
pub(crate) fn read_head(alloc: Global, db: &str, bytes: &[u8], spans: &mut [HeaderSpan]) -> Pending
    requires { length bytes.now ≤ 3 * length spans.old }
    ensures { IsHeadRead db.now bytes.now result }
{
    match parse_request(bytes, spans) {
        Ok(Status::Complete(head)) => read_whole(alloc, db, bytes, spans, head),
        Ok(Status::Partial) => Pending::Waiting,
        Err(Error::TooManyHeaders) => unreachable!(),
        Err(_) => read_rejected(bytes),
    }
}
