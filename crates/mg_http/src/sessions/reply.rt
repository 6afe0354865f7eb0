//! The head of a reply.
ghost use Rattle.std.specs.Prelude.{◌≡◌, ℕ, ◌+◌, ◌≤◌, List, ◌++◌, length, decimal};
ghost use Rattle.mg_http.specs.Reply.{phrase_of, text_with};

use arrayvec::ArrayVec;
use http::StatusCode;
use itoa::Buffer;

/// The head of a reply: its status line, the type and the length of its body, and the empty line.
pub(crate) type ReplyHead = ArrayVec<u8, 256>;

/// Returns the standard reason phrase of the status; empty if it has none.
fn phrase(status: u16) -> &'static str
    ensures { result.now ≡ phrase_of status }
{
    match StatusCode::from_u16(status) {
        Ok(code) => code.canonical_reason().unwrap_or(""),
        Err(_) => "",
    }
}

/// Appends a part, for which there is room.
fn append(head: &mut ReplyHead, part: &[u8])
    requires { length head.old.items + length part.now ≤ 256 }
    ensures { head.new.items ≡ head.old.items ++ part.now }
{
    if head.try_extend_from_slice(part).is_err() {
        unreachable!()
    }
}

/// Returns the head with these parts.
fn head_with(code: &[u8], phrase: &[u8], size: &[u8]) -> ReplyHead
    requires code { length code.now ≤ 40 }
    requires phrase { length phrase.now ≤ 40 }
    requires size { length size.now ≤ 40 }
    ensures { (body : List ℕ) → result.items ++ body ≡ text_with code.now phrase.now size.now body }
{
    let mut head = ReplyHead::new();
    append(&mut head, b"HTTP/1.1 ");
    append(&mut head, code);
    append(&mut head, b" ");
    append(&mut head, phrase);
    append(
        &mut head,
        b"\r\nContent-Type: application/json\r\nContent-Length: ",
    );
    append(&mut head, size);
    append(&mut head, b"\r\n\r\n");
    head
}

/// Returns the head of a reply with this status, whose body has this size. Allocates nothing.
pub(crate) fn head_of(status: u16, size: usize) -> ReplyHead
    ensures { (body : List ℕ) → result.items ++ body ≡ text_with (decimal status) (phrase_of status) (decimal size) body }
{
    let mut code = Buffer::new();
    let mut digits = Buffer::new();
    head_with(
        code.format(status).as_bytes(),
        phrase(status).as_bytes(),
        digits.format(size).as_bytes(),
    )
}
