//! The responses that a connection gives by itself, where no service is asked.
ghost use Rattle.std.specs.Prelude.{◌≡◌, ◌+◌, ◌≤◌, ◌++◌, length, OnOk, OnErr};
ghost use Rattle.mg_wire.specs.Refusal.{date_line, refusal_text, template_of};

use bytes::BytesMut;
use http1::ReadError;
use httpdate::HttpDate;
use std::alloc::AllocError;

/// Why a request is refused. Its response says so, and is the last one of the connection.
#[derive(Clone, Copy, Debug, PartialEq, Eq)]
pub enum Refusal {
    /// It is no HTTP, or passes a limit: 400, 414 or 431.
    Unreadable(ReadError),
    /// The client ended its side within the request: 400.
    Cut,
    /// Its body is longer than the bound: 413.
    BodyTooLarge,
    /// `Transfer-Encoding` lists a coding other than `chunked`: 501.
    UnknownCoding,
    /// Its target has no form that its method may have: 400.
    InvalidTarget,
    /// It is a `CONNECT`: 501.
    Tunnel,
    /// There was no memory for it: 503.
    NoMemory,
}

pub(crate) const CONTINUE: &[u8] = b"HTTP/1.1 100 Continue\r\n\r\n";

// The status lines of refusals.
pub(crate) const BAD_REQUEST: &[u8] = b"HTTP/1.1 400 Bad Request\r\n";

pub(crate) const CONTENT_TOO_LARGE: &[u8] = b"HTTP/1.1 413 Content Too Large\r\n";

pub(crate) const URI_TOO_LONG: &[u8] = b"HTTP/1.1 414 URI Too Long\r\n";

pub(crate) const HEADER_FIELDS_TOO_LARGE: &[u8] =
    b"HTTP/1.1 431 Request Header Fields Too Large\r\n";

pub(crate) const NOT_IMPLEMENTED: &[u8] = b"HTTP/1.1 501 Not Implemented\r\n";

pub(crate) const SERVICE_UNAVAILABLE: &[u8] = b"HTTP/1.1 503 Service Unavailable\r\n";

// The fields of a refusal that follow its date, and the empty line. The number in a name is the length of the content.
pub(crate) const FIELDS_55: &[u8] =
    b"content-type: application/json\r\ncontent-length: 55\r\nconnection: close\r\n\r\n";

pub(crate) const FIELDS_57: &[u8] =
    b"content-type: application/json\r\ncontent-length: 57\r\nconnection: close\r\n\r\n";

pub(crate) const FIELDS_58: &[u8] =
    b"content-type: application/json\r\ncontent-length: 58\r\nconnection: close\r\n\r\n";

pub(crate) const FIELDS_63: &[u8] =
    b"content-type: application/json\r\ncontent-length: 63\r\nconnection: close\r\n\r\n";

pub(crate) const FIELDS_65: &[u8] =
    b"content-type: application/json\r\ncontent-length: 65\r\nconnection: close\r\n\r\n";

pub(crate) const FIELDS_68: &[u8] =
    b"content-type: application/json\r\ncontent-length: 68\r\nconnection: close\r\n\r\n";

pub(crate) const FIELDS_70: &[u8] =
    b"content-type: application/json\r\ncontent-length: 70\r\nconnection: close\r\n\r\n";

// The contents of refusals.
pub(crate) const INVALID: &[u8] =
    b"{\"error\":\"bad_request\",\"reason\":\"the request is invalid\"}\n";

pub(crate) const CUT: &[u8] = b"{\"error\":\"bad_request\",\"reason\":\"the request was cut\"}\n";

pub(crate) const TOO_LARGE: &[u8] =
    b"{\"error\":\"too_large\",\"reason\":\"the request entity is too large\"}\n";

pub(crate) const TARGET_TOO_LONG: &[u8] =
    b"{\"error\":\"uri_too_long\",\"reason\":\"the request line is too long\"}\n";

pub(crate) const FIELDS_TOO_LARGE: &[u8] =
    b"{\"error\":\"fields_too_large\",\"reason\":\"the request head is too large\"}\n";

pub(crate) const UNKNOWN_CODING: &[u8] =
    b"{\"error\":\"not_implemented\",\"reason\":\"unknown transfer coding\"}\n";

pub(crate) const INVALID_TARGET: &[u8] =
    b"{\"error\":\"bad_request\",\"reason\":\"the target is invalid\"}\n";

pub(crate) const NO_TUNNELS: &[u8] =
    b"{\"error\":\"not_implemented\",\"reason\":\"CONNECT is not answered\"}\n";

pub(crate) const NO_MEMORY: &[u8] =
    b"{\"error\":\"out_of_memory\",\"reason\":\"the server lacks memory for it\"}\n";

/// The response to a request that is refused: its status line, the fields that follow its date, and its content.
fn template_of(refusal: Refusal) -> (&'static [u8], &'static [u8], &'static [u8])
    ensures same { (result.0.now, result.1.now, result.2.now) ≡ template_of refusal }
    ensures short { length result.0.now + length result.1.now + length result.2.now ≤ 219 }
{
    match refusal {
        Refusal::Unreadable(error) => unreadable_template(error),
        Refusal::Cut => (BAD_REQUEST, FIELDS_55, CUT),
        Refusal::BodyTooLarge => (CONTENT_TOO_LARGE, FIELDS_65, TOO_LARGE),
        Refusal::UnknownCoding => (NOT_IMPLEMENTED, FIELDS_63, UNKNOWN_CODING),
        Refusal::InvalidTarget => (BAD_REQUEST, FIELDS_57, INVALID_TARGET),
        Refusal::Tunnel => (NOT_IMPLEMENTED, FIELDS_63, NO_TUNNELS),
        Refusal::NoMemory => (SERVICE_UNAVAILABLE, FIELDS_68, NO_MEMORY),
    }
}

fn unreadable_template(error: ReadError) -> (&'static [u8], &'static [u8], &'static [u8])
    ensures same { (result.0.now, result.1.now, result.2.now) ≡ template_of (Refusal.Unreadable error) }
    ensures short { length result.0.now + length result.1.now + length result.2.now ≤ 219 }
{
    let status = error.status();
    if status == 414 {
        (URI_TOO_LONG, FIELDS_65, TARGET_TOO_LONG)
    } else if status == 431 {
        (HEADER_FIELDS_TOO_LARGE, FIELDS_70, FIELDS_TOO_LARGE)
    } else {
        (BAD_REQUEST, FIELDS_58, INVALID)
    }
}

/// Room for any refusal, with a date.
const ROOM: usize = 256;

/// Appends the line of the date, if there is one.
fn write_date(output: &mut BytesMut, date: Option<HttpDate>)
    requires { 37 ≤ output.old.spare }
    ensures items { output.new.items ≡ output.old.items ++ date_line date }
    ensures spare { output.old.spare ≤ output.new.spare + 37 }
{
    if let Some(date) = date {
        output.extend_reserved(b"date: ");
        output.extend_reserved(&date.to_bytes());
        output.extend_reserved(b"\r\n");
    }
}

/// Appends the response to a request that is refused: to `HEAD` the head alone. If there is no memory for it, appends nothing.
pub(crate) fn write_refusal(
    output: &mut BytesMut,
    date: Option<HttpDate>,
    is_head: bool,
    refusal: Refusal,
) -> Result<(), AllocError>
    ensures ok { OnOk result (output.new.items ≡ output.old.items ++ refusal_text date is_head refusal) }
    ensures err { OnErr result (output.new.items ≡ output.old.items) }
{
    output.reserve(ROOM)?;
    let (status_line, fields, content) = template_of(refusal);
    output.extend_reserved(status_line);
    write_date(output, date);
    output.extend_reserved(fields);
    if !is_head {
        output.extend_reserved(content);
    }
    Ok(())
}
