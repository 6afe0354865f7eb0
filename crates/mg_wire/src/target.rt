//! The form of a request's target, and the methods that are not answered (RFC 9112, section 3.2).
ghost use Rattle.std.specs.Prelude.{◌≡◌};
ghost use Rattle.mg_wire.specs.Refusal.{line_refusal};
ghost use Rattle.mg_wire.specs.Target.{has_no_fragment, is_origin_form, begins_host, is_absolute_form, is_asterisk_form, is_target_for};

use crate::refusal::Refusal;
use http1::framing::MethodKind;
use http1::text::eq_ignore_case;

fn has_no_fragment(target: &[u8]) -> bool
    ensures { result ≡ has_no_fragment target.now }
{
    target.iter().all(|b| *b != b'#')
}

fn is_origin_form(target: &[u8]) -> bool
    ensures { result ≡ is_origin_form target.now }
{
    !target.is_empty() && target[0] == b'/' && has_no_fragment(target)
}

fn begins_host(b: u8) -> bool
    ensures { result ≡ begins_host b }
{
    b != b'/' && b != b'?' && b != b':'
}

fn is_absolute_form(target: &[u8]) -> bool
    ensures { result ≡ is_absolute_form target.now }
{
    target.len() > 7
        && eq_ignore_case(&target[..7], b"http://")
        && begins_host(target[7])
        && has_no_fragment(target)
}

fn is_asterisk_form(method: &[u8], target: &[u8]) -> bool
    ensures { result ≡ is_asterisk_form method.now target.now }
{
    method == b"OPTIONS".as_slice() && target == b"*".as_slice()
}

fn is_target_for(method: &[u8], target: &[u8]) -> bool
    ensures { result ≡ is_target_for method.now target.now }
{
    is_origin_form(target) || is_absolute_form(target) || is_asterisk_form(method, target)
}

/// Why a request with this method and this target is refused.
pub(crate) fn line_refusal(method: &[u8], target: &[u8]) -> Option<Refusal>
    ensures { result ≡ line_refusal method.now target.now }
{
    if MethodKind::of(method) == MethodKind::Connect {
        Some(Refusal::Tunnel)
    } else if is_target_for(method, target) {
        None
    } else {
        Some(Refusal::InvalidTarget)
    }
}
