//! A request, as a service gets it.
ghost use Rattle.std.specs.Prelude.{◌≡◌, ◌≤◌, [], length, map, All, IfOk};
ghost use Rattle.httparse.specs.Spans.{IsHeaderWithin, IsRequestWithin, IsWithin, header_bytes, span_bytes};
ghost use Rattle.mg_wire.specs.Request.{field_parts, HasHeadAt};

use bytes::Bytes;
use httparse::spans::{HeaderSpan, RequestSpans, Span};
use std::alloc::{AllocError, Global};

/// A field of a head: its name, in the case that it came in, and its value without the blanks around it.
#[derive(Debug, Drop)]
pub struct Field {
    pub name: Bytes,
    pub value: Bytes,
}

/// A whole request. It is HTTP/1.`minor`.
#[derive(Debug, Drop)]
pub struct Request {
    pub method: Bytes,
    pub target: Bytes,
    pub minor: u8,
    pub fields: Vec<Field>,
    pub body: Vec<u8>,
}

/// The part of a head that a span covers. Copies no byte.
///
/// Errors: out of memory.
fn part_of(head: &Bytes, span: Span) -> Result<Bytes, AllocError>
    requires { IsWithin (length head.now) span }
    ensures { IfOk result (λ b. b ≡ span_bytes head.now span) }
{
    head.slice(span.start..span.end)
}

fn fields_at(alloc: Global, head: &Bytes, spans: &[HeaderSpan]) -> Result<Vec<Field>, AllocError>
    requires { All (IsHeaderWithin (length head.now)) spans.now }
    ensures { IfOk result (λ v. map field_parts v.items ≡ map (header_bytes head.now) spans.now) }
{
    let mut fields = Vec::with_capacity(alloc, spans.len())?;
    for span in spans {
        fields.push(Field {
            name: part_of(head, span.name)?,
            value: part_of(head, span.value)?,
        })?;
    }
    Ok(fields)
}

/// The request whose head this is, with no body yet. Its parts share one copy of the head.
pub(crate) fn request_at(
    alloc: Global,
    input: &[u8],
    head: &RequestSpans,
    spans: &[HeaderSpan],
) -> Result<Request, AllocError>
    requires { IsRequestWithin input.now spans.now head.now }
    ensures { IfOk result (HasHeadAt input.now spans.now head.now) }
{
    let text = Bytes::copy_from_slice(alloc, &input[..head.len])?;
    Ok(Request {
        method: part_of(&text, head.method)?,
        target: part_of(&text, head.path)?,
        minor: head.version,
        fields: fields_at(alloc, &text, &spans[..head.headers])?,
        body: Vec::new(alloc),
    })
}
