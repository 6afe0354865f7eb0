//! What waits to be sent of the replies on a connection.
ghost use Rattle.std.specs.Prelude.{◌≡◌, ◌↔◌, ◌≤◌, ◌-◌, ◌^◌, min, [], ◌++◌, drop, length, IsTrue, if◌then◌else◌};
ghost use Rattle.std.specs.Cow.{cow_slice_items};
ghost use Rattle.bytes.specs.Unread.{IsChunkOf};

use crate::sessions::answer::MessageReply;
use crate::sessions::reply::{ReplyHead, head_of};
use bytes::BytesMut;
use mg_engine::{Refusal, Reply};
use std::alloc::Global;
use std::borrow::CowSlice;

/// A longer body is not joined to the replies before it. Once more bytes than this are joined, no further message is answered.
const MOST_JOINED: usize = 65_536;

/// The replies that are not sent yet. The last one keeps its head and its body by itself if they are too long to be joined to those
/// before it, or if there is no memory: so no reply is lost.
#[derive(Drop)]
pub(crate) struct Output {
    /// The replies that were joined, without what was sent of them.
    joined: BytesMut,
    /// The head of the last reply, if it was not joined.
    head: ReplyHead,
    /// The body of the last reply, if it was not joined.
    body: CowSlice<'static, u8>,
    /// How many bytes of `head` and `body` were sent.
    sent: usize,
}

/// Returns the body to send: empty if the reply omits it.
fn body_to_send(omits_body: bool, body: CowSlice<'static, u8>) -> CowSlice<'static, u8>
    ensures { cow_slice_items result ≡ (if omits_body then [] else cow_slice_items body.entry) }
{
    if omits_body {
        CowSlice::Borrowed(&[])
    } else {
        body
    }
}

impl Output {
    ghost use Rattle.mg_engine.specs.Commands.{refused};
    ghost use Rattle.mg_http.specs.Output.{left_of_last, left_in, HasRoom, output_room};
    ghost use Rattle.mg_http.specs.Reply.{text_of, reply_text};
    ghost use Rattle.mg_http.specs.Steps.{answer_in};

    /// Makes an empty output. Allocates nothing.
    pub(crate) fn new(alloc: Global) -> Output
        ensures left { left_in result ≡ [] }
        ensures room { output_room result ≡ 0 }
    {
        Output {
            joined: BytesMut::new(alloc),
            head: ReplyHead::new(),
            body: CowSlice::Borrowed(&[]),
            sent: 0,
        }
    }

    /// The number of bytes of `head` and `body`.
    fn last_len(&self) -> usize
        ensures { result ≡ length (self.now.head.items ++ cow_slice_items self.now.body) }
    {
        self.head.len() + self.body.as_slice().len()
    }

    /// Whether the last reply was joined to those before it, or is sent.
    fn is_last_sent(&self) -> bool
        ensures { IsTrue result ↔ (left_of_last self.now ≡ []) }
    {
        self.sent >= self.last_len()
    }

    /// Whether another reply may be said.
    pub(crate) fn has_room(&self) -> bool
        ensures { IsTrue result ↔ HasRoom self.now }
    {
        self.is_last_sent() && self.joined.len() <= MOST_JOINED
    }

    /// Whether all is sent.
    pub(crate) fn is_empty(&self) -> bool
        ensures { IsTrue result ↔ (left_in self.now ≡ []) }
    {
        self.joined.is_empty() && self.is_last_sent()
    }

    /// The next bytes to send.
    pub(crate) fn chunk(&self) -> &[u8]
        ensures { IsChunkOf result.now (left_in self.now) }
    {
        let head = self.head.len();
        if !self.joined.is_empty() {
            self.joined.as_slice()
        } else if self.sent < head {
            &self.head.as_slice()[self.sent..]
        } else {
            &self.body.as_slice()[(self.sent - head).min(self.body.len())..]
        }
    }

    /// So many of the bytes are sent.
    pub(crate) fn count(&mut self, count: usize)
        requires { count ≤ length (left_in self.old) }
        ensures { left_in self.new ≡ drop count (left_in self.old) }
    {
        let first = count.min(self.joined.len());
        let sent = self.sent.saturating_add(count - first);
        self.sent = sent.min(self.last_len());
        self.joined.advance(first);
    }

    /// Joins the last reply to those before it, if it is short and there is memory.
    fn join(&mut self)
        requires { self.old.sent ≡ 0 }
        ensures { left_in self.new ≡ left_in self.old }
    {
        if self.body.len() > MOST_JOINED {
            return;
        }
        if self.joined.extend_from_slice(self.head.as_slice()).is_err() {
            return;
        }
        self.head.clear();
        if self.joined.extend_from_slice(self.body.as_slice()).is_err() {
            return;
        }
        self.body = CowSlice::Borrowed(&[]);
    }

    /// Says a reply with this status and body. A reply that omits its body still gives its length. Needs no memory.
    fn say(&mut self, omits_body: bool, status: u16, body: CowSlice<'static, u8>)
        requires { left_of_last self.old ≡ [] }
        ensures { left_in self.new ≡ left_in self.old
            ++ text_of omits_body (record { status = status; body = cow_slice_items body.entry }) }
    {
        self.head = head_of(status, body.len());
        self.body = body_to_send(omits_body, body);
        self.sent = 0;
        self.join();
    }

    /// Says a refusal.
    pub(crate) fn refuse(&mut self, omits_body: bool, refusal: Refusal)
        requires { left_of_last self.old ≡ [] }
        ensures { left_in self.new ≡ left_in self.old ++ text_of omits_body (refused refusal) }
    {
        let body = CowSlice::Borrowed(refusal.body().as_bytes());
        self.say(omits_body, refusal.status(), body);
    }

    /// Says the reply to a message.
    pub(crate) fn answer(&mut self, omits_body: bool, answer: MessageReply)
        requires { left_of_last self.old ≡ [] }
        ensures { left_in self.new ≡ left_in self.old ++ reply_text omits_body (answer_in answer) }
    {
        match answer {
            MessageReply::Service(Reply::Full { status, body }) => {
                self.say(omits_body, status, CowSlice::Owned(body));
            }
            MessageReply::Service(Reply::NoMemory) => {
                self.refuse(omits_body, Refusal::OutOfMemory);
            }
            MessageReply::Refusal(refusal) => self.refuse(omits_body, refusal),
        }
    }

    /// The bytes of memory that it has taken; at most `usize::MAX` are counted.
    pub(crate) fn held(&self) -> usize
        ensures { result ≡ min (output_room self.now) (2 ^ 64 - 1) }
    {
        self.joined.capacity().saturating_add(self.body.len())
    }
}
