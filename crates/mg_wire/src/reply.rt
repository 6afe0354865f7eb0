//! From a response to its bytes.
ghost use Rattle.std.specs.Prelude.{◌≡◌, ◌≤◌, ◌∷◌, length, take, codes, if◌then◌else◌, true, false, MatchOption};
ghost use Rattle.http1.specs.Conn.{is_connect};
ghost use Rattle.http1.specs.Head.{pairs};
ghost use Rattle.http1.specs.Server.{is_head, may_respond, peer_method, peer_minor};
ghost use Rattle.httpdate.specs.Date.{date_text};
ghost use Rattle.mg_wire.specs.Response.{content_of, fields_of};
ghost use Rattle.mg_wire.specs.Sendable.{are_sendable, lines_len, parts_of};
ghost use Rattle.mg_wire.specs.Status.{code_of, has_content};
ghost use Rattle.mg_wire.specs.Reply.{size_for, first_of, Heads};

use crate::fields::MAX_RESPONSE_FIELDS;
use crate::request::Field;
use crate::response::Response;
use crate::status::Status;
use bytes::BytesMut;
use http1::{BodySize, Header, Server};
use httpdate::HttpDate;

/// Room for the head of any response, which is taken before the service is asked.
pub(crate) const ROOM: usize = 8192;

/// The date of a response, and its other fields.
const MAX_FIELDS_SENT: usize = MAX_RESPONSE_FIELDS + 1;

const NO_HEADER: Header<'static> = Header {
    name: b"",
    value: b"",
};

/// The length of the content of a response with so long a body.
pub(crate) fn content_len(status: Status, len: usize) -> usize
    ensures { result ≡ (if has_content status then len else 0) }
{
    if status.has_content() { len } else { 0 }
}

/// A length, as `http1` is given it.
fn size_for(len: usize) -> BodySize
    ensures { result ≡ size_for len }
{
    if len == 0 {
        BodySize::Empty
    } else {
        BodySize::Known(len as u64)
    }
}

/// Appends the head of a response with these fields and so long a content, of which `sent` bytes are sent.
pub(crate) fn write_head(
    server: &mut Server,
    output: &mut BytesMut,
    status: Status,
    fields: &[Header<'_>],
    content_len: usize,
    sent: usize,
)
    requires awaits { may_respond server.old ≡ true }
    requires no_tunnel { is_connect (peer_method server.old) ≡ false }
    requires minor { peer_minor server.old ≤ 1 }
    requires sendable { are_sendable (pairs fields.now) ≡ true }
    requires short { lines_len (pairs fields.now) ≤ 7717 }
    requires room { ROOM ≤ output.old.spare }
    requires content { has_content status ≡ false → content_len ≡ 0 }
    requires sent { sent ≡ (if is_head (peer_method server.old) then 0 else content_len) }
    ensures { Heads server.old (code_of status) (pairs fields.now) content_len sent output.old.items output.new.items server.new }
{
    let size = size_for(content_len);
    match server.write_response(output, status.code(), status.reason(), fields, size) {
        Ok(()) => {}
        Err(_) => unreachable!(),
    }
    match server.frame_data(sent) {
        Ok(_) => {}
        Err(_) => unreachable!(),
    }
    match server.write_end(output, &[]) {
        Ok(()) => {}
        Err(_) => unreachable!(),
    }
}

/// The text of a date. Without one, blanks that are not sent.
fn date_bytes(date: Option<HttpDate>) -> [u8; 29]
    ensures { MatchOption date (Unit {0}) (λ d. result ≡ date_text d) }
{
    match date {
        Some(date) => date.to_bytes(),
        None => [b' '; 29],
    }
}

/// Where the fields of a response begin, in whose room the first one is for its date.
fn first_of(date: Option<HttpDate>) -> usize
    ensures first { result ≡ first_of date }
    ensures few { result ≤ 1 }
{
    match date {
        Some(_) => 0,
        None => 1,
    }
}

/// Returns room in which the first is a date, and the fields follow; and how many these are.
fn headers_of<'a>(date: &'a [u8], fields: &'a [Field]) -> ([Header<'a>; MAX_FIELDS_SENT], usize)
    requires few { length fields.now ≤ 16 }
    ensures room { result.1 ≤ length result.0 }
    ensures same { pairs (take result.1 result.0) ≡ (codes "date", date.now) ∷ parts_of fields.now }
{
    let mut headers = [NO_HEADER; MAX_FIELDS_SENT];
    headers[0] = Header {
        name: b"date",
        value: date,
    };
    let mut count = 1;
    for field in fields {
        headers[count] = Header {
            name: field.name.as_slice(),
            value: field.value.as_slice(),
        };
        count += 1;
    }
    (headers, count)
}

/// Appends the head of the response, of whose content so many bytes are sent.
pub(crate) fn write_reply(
    server: &mut Server,
    output: &mut BytesMut,
    response: &Response,
    sent: usize,
)
    requires awaits { may_respond server.old ≡ true }
    requires no_tunnel { is_connect (peer_method server.old) ≡ false }
    requires minor { peer_minor server.old ≤ 1 }
    requires room { ROOM ≤ output.old.spare }
    requires sent { sent ≡ (if is_head (peer_method server.old) then 0 else length (content_of response.now)) }
    ensures { Heads server.old (code_of response.now.status) (fields_of response.now)
        (length (content_of response.now)) sent output.old.items output.new.items server.new }
{
    let date = date_bytes(response.date);
    let (headers, count) = headers_of(&date, response.fields.list.as_slice());
    let len = content_len(response.status, response.body.len());
    let fields = &headers[..count];
    let first = first_of(response.date);
    write_head(server, output, response.status, &fields[first..], len, sent);
}
