//! Texts that a target encodes.
ghost use Rattle.std.specs.Prelude.{◌≡◌, IfOk};
ghost use Rattle.std.specs.Option.{option_map};
ghost use Rattle.std.specs.String.{string_bytes};
ghost use Rattle.mg_http.specs.Target.{path_in, query_in};
ghost use Rattle.mg_face.specs.Plan.{text_of, text_in};

use percent_encoding::percent_decode;
use std::alloc::{AllocError, Global};
use std::borrow::CowSlice;

/// Copies the bytes as a text; `None`: they are not UTF-8.
///
/// Errors: out of memory.
fn text_of(alloc: Global, bytes: &[u8]) -> Result<Option<String>, AllocError>
    ensures { IfOk result (λ o. option_map string_bytes o ≡ text_of bytes.now) }
{
    match str::from_utf8(bytes) {
        Ok(text) => Ok(Some(String::from_str(alloc, text)?)),
        Err(_) => Ok(None),
    }
}

/// Returns the text that a segment encodes; `None`: it is not UTF-8.
///
/// Errors: out of memory.
pub(crate) fn text_in(alloc: Global, segment: &[u8]) -> Result<Option<String>, AllocError>
    ensures { IfOk result (λ o. option_map string_bytes o ≡ text_in segment.now) }
{
    match percent_decode(segment).into_cow(alloc)? {
        CowSlice::Borrowed(bytes) => text_of(alloc, bytes),
        CowSlice::Owned(bytes) => text_of(alloc, bytes.as_slice()),
    }
}

/// Splits the target at its first question mark into the path and the query; without one, the query is empty.
pub(crate) fn split_query(target: &[u8]) -> (&[u8], &[u8])
    ensures path { result.0.now ≡ path_in target.now }
    ensures query { result.1.now ≡ query_in target.now }
{
    match target.iter().position(|&b| b == b'?') {
        Some(i) => (&target[..i], &target[i + 1..]),
        None => (target, &[]),
    }
}
