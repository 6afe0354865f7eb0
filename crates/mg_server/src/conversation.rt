ghost use denote.Param.Send.{IsSync};
ghost use Rattle.std.specs.Prelude.{◌≡◌, ℕ, ◌<◌, ◌≤◌, ◌↔◌, Bool, List, [], ◌++◌, length, take, drop, IfOk, OnErr, IsTrue, MatchOption};
ghost use Rattle.std.specs.Io.KnownBytes.{Consumes, IsAtEnd, Keeps};
ghost use Rattle.bytes.specs.Unread.{IsChunkOf};
ghost use Rattle.mg_server.specs.Meeting.{Meets};

use std::io;
use std::io::Read;
use std::sync::Wait;
use std::thread::Threads;

/// A service that may take over a client from another of its kind.
pub trait Handover {
    // A client that the first state has answered may be answered from the second one next: the client misses nothing that it saw.
    ghost follows: { Self → Self → Type 0 };

    ghost same: { (a : Self) → follows a a };

    ghost onward: { (a b c : Self) → follows a b → follows b c → follows a c };
}

/// A conversation of one client with a service `S`, which is lent to each step. It reads and writes nothing by itself, so it waits as a value
/// between two steps, and may go from thread to thread.
pub trait Conversation<S: Handover> {
    // All bytes that were received, all that were sent, and those that wait to be sent.
    ghost received: { Self → List ℕ };

    ghost sent: { Self → List ℕ };

    ghost pending: { Self → List ℕ };

    // What was received was answered right by what was sent and is pending. The service was in the first state before the first answer, and is
    // in the last one now. `true`: between two answers, another service may have taken over, which follows the one before.
    ghost told: { Bool → S → Self → S → Type 0 };

    // Each whole message that was received is answered, unless the conversation ends before it, or as much is pending as may be.
    ghost rests: { Self → Type 0 };

    // The conversation has ended, and all of it was sent.
    ghost done: { Self → Type 0 };

    // No message has begun, and nothing is pending.
    ghost idle: { Self → Type 0 };

    // The bytes of memory that the conversation has taken.
    ghost held: { Self → ℕ };

    /// Begins another conversation of the same kind. Allocates nothing.
    fn another(&self) -> Self
        ensures received { received result ≡ [] }
        ensures sent { sent result ≡ [] }
        ensures pending { pending result ≡ [] }
        ensures told { (moves : Bool) (now : S) → told moves now result now };

    /// Reads once; 0: the input has ended. `None`: there was no memory to read. Then nothing was read, and `advance` tells the client.
    ///
    /// Errors: those of the reader; nothing has changed.
    fn read_from<R: Read>(&mut self, reader: &mut R) -> io::Result<Option<usize>>
        ensures ok { IfOk result (λ read. MatchOption read
            ((received self.new ≡ received self.old) × (R.remaining reader.new ≡ R.remaining reader.old))
            (λ n. (more : List ℕ) × (length more ≡ n)
            × Consumes (R.remaining reader.old) (R.remaining reader.new) more
            × (received self.new ≡ received self.old ++ more))) }
        ensures end { IfOk result (λ read. MatchOption read (Unit {0}) (λ n. n ≡ 0 → IsAtEnd (R.remaining reader.new))) }
        ensures err { OnErr result ((received self.new ≡ received self.old)
            × Keeps (R.remaining reader.old) (R.remaining reader.new)) }
        ensures sent { sent self.new ≡ sent self.old }
        ensures pending { pending self.new ≡ pending self.old }
        ensures told { (moves : Bool) (from now : S) → told moves from self.old now → told moves from self.new now }
        ensures gives_back { OnErr result (idle self.new → held self.new ≡ 0) };

    /// Answers the whole messages that were received, in order, until they are used up, as much is pending as may be, or the conversation
    /// ends. The clause `sync` repeats the bound `Sync`, since an impl does not get the bounds of its trait's method.
    fn advance<H: Wait + Threads + Sync>(&mut self, rt: &H, service: &mut S)
        requires sync { IsSync H.row }
        ensures received { received self.new ≡ received self.old }
        ensures sent { sent self.new ≡ sent self.old }
        ensures told { (moves : Bool) (from now : S) → told moves from self.old now → Meets S.follows moves now service.old
            → told moves from self.new service.new }
        ensures rests { (moves : Bool) (from now : S) → told moves from self.old now → rests self.new };

    /// The next bytes to send.
    fn output(&self) -> &[u8]
        ensures { IsChunkOf result.now (pending self.now) };

    /// So many of the pending bytes were sent.
    fn count_sent(&mut self, count: usize)
        requires { count ≤ length (pending self.old) }
        ensures received { received self.new ≡ received self.old }
        ensures sent { sent self.new ≡ sent self.old ++ take count (pending self.old) }
        ensures pending { pending self.new ≡ drop count (pending self.old) }
        ensures told { (moves : Bool) (from now : S) → told moves from self.old now → told moves from self.new now };

    /// Whether it is the client's turn: all that waited to be sent was sent, and the conversation goes on.
    fn wants_read(&self) -> bool
        ensures { IsTrue result ↔ ((pending self.now ≡ []) × (¬ (done self.now))) };

    fn wants_write(&self) -> bool
        ensures { IsTrue result ↔ (0 < length (pending self.now)) };

    /// Whether the conversation has ended: close the connection.
    fn is_done(&self) -> bool
        ensures done { IsTrue result ↔ done self.now }
        ensures sent { IsTrue result → pending self.now ≡ [] };

    fn is_idle(&self) -> bool
        ensures { IsTrue result ↔ idle self.now };

    fn held(&self) -> usize
        ensures { result ≡ held self.now };
}
