ghost use Rattle.std.specs.Prelude.{◌≡◌, IfOk};
ghost use Rattle.percent_encoding.specs.Percent.{percent_decode};
ghost use Rattle.mg_http.specs.Target.{is_conflicts, asks_conflicts};

use form_urlencoded::{decode, raw_pairs};
use percent_encoding::percent_decode;
use std::alloc::{AllocError, Global};
use std::borrow::CowSlice;

/// Percent-decodes the segment.
///
/// Errors: out of memory.
pub(crate) fn decode_segment(alloc: Global, segment: &[u8]) -> Result<Vec<u8>, AllocError>
    ensures { IfOk result (λ v. v.items ≡ percent_decode segment.now) }
{
    match percent_decode(segment).into_cow(alloc)? {
        CowSlice::Borrowed(bytes) => Vec::from_slice(alloc, bytes),
        CowSlice::Owned(bytes) => Ok(bytes),
    }
}

/// Whether the name and value of a query parameter decode to `conflicts=true`.
///
/// Errors: out of memory.
fn is_conflicts(alloc: Global, name: &[u8], value: &[u8]) -> Result<bool, AllocError>
    ensures { IfOk result (λ b. b ≡ is_conflicts (name.now, value.now)) }
{
    let name = decode(alloc, name)?;
    let value = decode(alloc, value)?;
    Ok(name.as_str() == "conflicts" && value.as_str() == "true")
}

/// Whether some parameter of the query decodes to `conflicts=true`.
///
/// Errors: out of memory.
pub(crate) fn asks_conflicts(alloc: Global, query: &[u8]) -> Result<bool, AllocError>
    ensures { IfOk result (λ b. b ≡ asks_conflicts query.now) }
{
    for (name, value) in raw_pairs(query) {
        if is_conflicts(alloc, name, value)? {
            return Ok(true);
        }
    }
    Ok(false)
}
