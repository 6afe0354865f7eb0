//! How long a connection may take, and how much memory all connections may hold. Times are in microseconds since the edge was opened.
ghost use Rattle.std.specs.Prelude.{◌≡◌, ◌+◌, min};
ghost use Rattle.mg_server.specs.Limits.{is_renewed, most_micros, pace_after};

/// The most bytes of memory that half messages and unread replies may hold, of all connections together that no thread has in hand. A
/// connection that would hold more closes those that have been still longest; one that would hold more alone is closed itself.
pub(crate) const MOST_HELD: usize = 1_073_741_824;

/// The most microseconds that a message may take from its first byte to its last, and that a client may take to read its replies.
const MESSAGE_MICROS: u64 = 60_000_000;
/// The most microseconds of silence between messages, and from the last reply to the client's end of the connection.
const SILENCE_MICROS: u64 = 5_000_000;

/// What a connection is about.
#[derive(Clone, Copy, PartialEq, Eq, Debug)]
pub(crate) enum Phase {
    /// No message has begun, and all replies are sent.
    Silent,
    /// A message has begun, and all replies are sent.
    Receiving,
    /// A reply is not sent to its end, since the client does not read.
    Replying,
    /// The last reply is sent. What still comes is dropped, until the client ends the connection.
    Leaving,
}

/// Whether bytes were read from a connection in one visit, and whether bytes were written to it.
#[derive(Clone, Copy, PartialEq, Eq, Debug)]
pub(crate) struct Moved {
    pub(crate) has_read: bool,
    pub(crate) has_written: bool,
}

/// What a connection is about, and since when.
#[derive(Clone, Copy, PartialEq, Eq, Debug)]
pub(crate) struct Pace {
    pub(crate) phase: Phase,
    /// When the phase began.
    pub(crate) began: u64,
    /// When a byte was last read or written.
    pub(crate) stirred: u64,
}

impl Phase {
    /// Returns the most microseconds that a connection may be in this phase.
    fn most_micros(self) -> u64
        ensures { result ≡ most_micros self }
    {
        match self {
            Phase::Silent | Phase::Leaving => SILENCE_MICROS,
            Phase::Receiving | Phase::Replying => MESSAGE_MICROS,
        }
    }

    /// Whether a connection that was in this phase before a visit, and is in it after, is in it anew. A silence begins with each byte; a
    /// message is another one if a reply was written; the replies are others if bytes were read, since a conversation reads only once all
    /// of its replies are sent. Bytes that are dropped change nothing.
    fn is_renewed(self, moved: Moved) -> bool
        ensures { result ≡ is_renewed self moved }
    {
        match self {
            Phase::Silent => moved.has_read || moved.has_written,
            Phase::Receiving => moved.has_written,
            Phase::Replying => moved.has_read,
            Phase::Leaving => false,
        }
    }
}

impl Pace {
    /// Returns the pace of a new connection.
    pub(crate) fn new(now: u64) -> Pace
        ensures { result ≡ record { phase = Phase.Silent; began = now; stirred = now } }
    {
        Pace {
            phase: Phase::Silent,
            began: now,
            stirred: now,
        }
    }

    /// Returns the pace after a visit that ended at this time, in this phase.
    pub(crate) fn after(self, phase: Phase, moved: Moved, now: u64) -> Pace
        ensures { result ≡ pace_after self phase moved now }
    {
        let began = if phase == self.phase && !phase.is_renewed(moved) {
            self.began
        } else {
            now
        };
        let stirred = if moved.has_read || moved.has_written {
            now
        } else {
            self.stirred
        };
        Pace {
            phase,
            began,
            stirred,
        }
    }

    /// Returns when the time of the phase is over.
    pub(crate) fn deadline(self) -> u64
        ensures { result ≡ min (self.began + most_micros self.phase) u64.MAX }
    {
        self.began.saturating_add(self.phase.most_micros())
    }
}
