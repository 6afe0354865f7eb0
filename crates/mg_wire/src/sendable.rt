//! Which fields can be sent, and how long their lines are.
ghost use Rattle.std.specs.Prelude.{◌≡◌, ◌+◌, ◌-◌, ◌^◌, length, min};
ghost use Rattle.http1.specs.Head.{is_trimmed_value};
ghost use Rattle.mg_wire.specs.Sendable.{is_sendable, is_addable};

use http1::text::eq_ignore_case;
use httparse::{is_header_value, is_space_or_tab, is_token};

fn is_trimmed_value(value: &[u8]) -> bool
    ensures { result ≡ is_trimmed_value value.now }
{
    match value {
        [] => true,
        [first, ..] if is_space_or_tab(*first) => false,
        [.., last] if is_space_or_tab(*last) => false,
        _ => is_header_value(value),
    }
}

/// Whether the field can be sent, and does not state the length of the body.
fn is_sendable(name: &[u8], value: &[u8]) -> bool
    ensures { result ≡ is_sendable (name.now, value.now) }
{
    is_token(name)
        && is_trimmed_value(value)
        && !eq_ignore_case(name, b"content-length")
        && !eq_ignore_case(name, b"transfer-encoding")
}

/// Whether a service may add the field to a response.
pub(crate) fn is_addable(name: &[u8], value: &[u8]) -> bool
    ensures { result ≡ is_addable (name.now, value.now) }
{
    is_sendable(name, value) && !eq_ignore_case(name, b"date")
}

/// The bytes of the line of a field.
pub(crate) fn line_len(name: &[u8], value: &[u8]) -> usize
    ensures { result ≡ min (length name.now + length value.now + 4) (2 ^ 64 - 1) }
{
    name.len().saturating_add(value.len()).saturating_add(4)
}
