//! Recognizes bytes that end within a target. The parser rejects some of them, although the rest of the target may still come.
ghost use Rattle.std.specs.Prelude.{◌≡◌, ◌↔◌, IsTrue, false};
ghost use Rattle.std.specs.List.{list_all};
ghost use Rattle.httparse.specs.Grammar.{EndsInTarget, is_token_byte, is_uri_byte};
ghost use Rattle.mg_http.specs.TargetScan.{skip_blank, is_method_and_target};

use httparse::is_token;

/// Skips the leading empty lines.
fn skip_blank(mut bytes: &[u8]) -> &[u8]
    ensures { result.now ≡ skip_blank bytes.now }
{
    loop {
        match bytes {
            [b'\n', rest @ ..] => bytes = rest,
            [b'\r', b'\n', rest @ ..] => bytes = rest,
            _ => return bytes,
        }
    }
}

/// Whether a method may contain the byte.
fn is_token_byte(byte: u8) -> bool
    ensures { result ≡ is_token_byte byte }
{
    is_token(&[byte])
}

/// Whether a target may contain the byte.
fn is_uri_byte(byte: u8) -> bool
    ensures { result ≡ is_uri_byte byte }
{
    byte > b' ' && byte != 0x7F
}

/// Whether a target may contain each of the bytes.
fn is_target(bytes: &[u8]) -> bool
    ensures { result ≡ list_all is_uri_byte bytes.now }
{
    bytes.iter().all(|b| is_uri_byte(*b))
}

/// Whether the bytes are a method, a space and the beginning of a target, which may be empty.
fn is_method_and_target(bytes: &[u8]) -> bool
    ensures { result ≡ is_method_and_target false bytes.now }
{
    let mut rest = bytes;
    while let [first, others @ ..] = rest
        && is_token_byte(*first)
    {
        rest = others;
    }
    match rest.split_first() {
        Some((first, target)) => { *first == b' ' && rest.len() < bytes.len() && is_target(target) }
        None => false,
    }
}

/// Whether the bytes end within a target.
pub(crate) fn ends_in_target(bytes: &[u8]) -> bool
    ensures { IsTrue result ↔ EndsInTarget bytes.now }
{
    is_method_and_target(skip_blank(bytes))
}
