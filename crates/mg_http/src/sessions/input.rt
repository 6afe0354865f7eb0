//! The bytes that a connection has received and not answered.
ghost use Rattle.std.specs.Prelude.{◌≡◌, ℕ, ◌<◌, ◌≤◌, ◌+◌, ◌*◌, min, List, [], ◌++◌, length, drop, vec_len, IfOk, OnOk, OnErr, MatchOption, ◌^◌, ◌-◌};
ghost use Rattle.std.specs.Io.KnownBytes.{Consumes, IsAtEnd, Keeps};

use crate::request::{MAX_HEAD, Pending, read_pending};
use bytes::BytesMut;
use httparse::spans::{EMPTY_HEADER_SPAN, HeaderSpan};
use std::alloc::{AllocError, Global};
use std::io;
use std::io::Read;

/// The least room for a read: as much as was read of the message, within these bounds. The buffer doubles, so that bytes are copied a few
/// times, however small the reads are.
const FIRST_READ: usize = 1_024;

const NEXT_READ: usize = 16_384;
/// The memory for one span of a head's fields.
const SPAN: usize = 32;
/// Empty spans, which are copied by the block.
const BLOCK: [HeaderSpan; 64] = [EMPTY_HEADER_SPAN; 64];

/// Makes room for so many fields of a head, or some more.
///
/// Errors: out of memory.
fn spans_for(alloc: Global, fields: usize) -> Result<Vec<HeaderSpan>, AllocError>
    requires { fields ≤ 5462 }
    ensures { IfOk result (λ spans. fields ≤ vec_len spans) }
{
    let mut spans = Vec::with_capacity(alloc, fields + BLOCK.len())?;
    while spans.len() < fields {
        spans.extend_from_slice(&BLOCK)?;
    }
    Ok(spans)
}

/// The unanswered bytes, and what reading the head of a message needs.
#[derive(Drop)]
pub(crate) struct Input {
    pub(crate) bytes: BytesMut,
    /// Room for the fields of a head, each of which has at least three bytes.
    pub(crate) spans: Vec<HeaderSpan>,
    ghost room: { min (length bytes.items) 16384 ≤ 3 * vec_len spans },
}

impl Input {
    ghost use Rattle.mg_http.specs.Steps.{IsPending};

    /// Makes an empty input. Allocates nothing.
    pub(crate) fn new(alloc: Global) -> Input
        ensures bytes { result.bytes.items ≡ [] }
        ensures room { (result.bytes.spare ≡ 0) × (vec_len result.spans ≡ 0) }
    {
        Input {
            bytes: BytesMut::new(alloc),
            spans: Vec::new(alloc),
        }
    }

    /// Takes room for a read, and for the fields of a head in all that the room may hold.
    ///
    /// Errors: out of memory. The bytes stay.
    fn reserve(&mut self, alloc: Global) -> Result<(), AllocError>
        ensures bytes { self.new.bytes.items ≡ self.old.bytes.items }
        ensures spare { OnOk result (0 < self.new.bytes.spare) }
        ensures fields { OnOk result (min (length self.new.bytes.items + self.new.bytes.spare) 16384 ≤ 3 * vec_len self.new.spans) }
    {
        let len = self.bytes.len();
        let least = len.max(FIRST_READ).min(NEXT_READ);
        if !self.bytes.try_reclaim(least) {
            // The bytes move to the front, so that the room for fields serves the whole buffer from then on.
            let mut bytes = BytesMut::new(alloc);
            bytes.reserve(len.saturating_add(len.max(FIRST_READ)))?;
            bytes.extend_from_slice(self.bytes.as_slice())?;
            bytes.reserve(least)?;
            self.bytes = bytes;
        }
        let fields = self.bytes.capacity().min(MAX_HEAD) / 3 + 1;
        if self.spans.len() < fields {
            self.spans = spans_for(alloc, fields)?;
        }
        Ok(())
    }

    /// Reads once; 0: the input has ended. `None`: there was no memory to read.
    ///
    /// Errors: those of the reader. The bytes stay.
    pub(crate) fn receive<R: Read>(
        &mut self,
        alloc: Global,
        reader: &mut R,
    ) -> io::Result<Option<usize>>
        ensures ok { IfOk result (λ read. MatchOption read
            ((self.new.bytes.items ≡ self.old.bytes.items) × (R.remaining reader.new ≡ R.remaining reader.old))
            (λ n. (more : List ℕ) × (length more ≡ n)
            × Consumes (R.remaining reader.old) (R.remaining reader.new) more
            × (self.new.bytes.items ≡ self.old.bytes.items ++ more))) }
        ensures end { IfOk result (λ read. MatchOption read (Unit {0}) (λ n. n ≡ 0 → IsAtEnd (R.remaining reader.new))) }
        ensures err { OnErr result ((self.new.bytes.items ≡ self.old.bytes.items)
            × Keeps (R.remaining reader.old) (R.remaining reader.new)) }
    {
        if self.reserve(alloc).is_err() {
            return Ok(None);
        }
        match self.bytes.read_from(reader) {
            Ok(count) => Ok(Some(count)),
            Err(error) => Err(error),
        }
    }

    /// Reads the head, complete or not, that the bytes begin with.
    pub(crate) fn head(&mut self, alloc: Global, db: &str) -> Pending
        ensures pending { IsPending db.now self.old.bytes.items result }
        ensures bytes { self.new.bytes ≡ self.old.bytes }
        ensures spans { vec_len self.new.spans ≡ vec_len self.old.spans }
    {
        read_pending(alloc, db, self.bytes.as_slice(), &mut self.spans)
    }

    /// Drops so many bytes at the front.
    pub(crate) fn drop_front(&mut self, count: usize)
        requires { count ≤ length self.old.bytes.items }
        ensures { self.new.bytes.items ≡ drop count self.old.bytes.items }
    {
        self.bytes.advance(count);
    }

    /// The bytes of memory that its buffers have taken; at most `usize::MAX` are counted.
    pub(crate) fn held(&self) -> usize
        ensures { result ≡ min ((length self.now.bytes.items + self.now.bytes.spare) + 32 * vec_len self.now.spans) (2 ^ 64 - 1) }
    {
        self.bytes
            .capacity()
            .saturating_add(self.spans.len().saturating_mul(SPAN))
    }
}
