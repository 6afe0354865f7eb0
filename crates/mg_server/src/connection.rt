//! One connection of an edge: its socket, its client, and its pace.
ghost use Rattle.std.specs.Prelude.{◌≡◌, ◌+◌, min, true, IsTrue, IsFalse};
ghost use Rattle.mg_server.specs.Connections.{IsAbout, IsPaced, is_quick, talk_held, tempo_after};
ghost use Rattle.mg_server.specs.Limits.{is_same_phase, most_micros};
ghost use Rattle.mg_server.specs.Visits.{HasVisited};
ghost use Rattle.mg_server.specs.declared.connection.TheConstants.{MOST_DROPPED};

use crate::conversation::Conversation;
use crate::learner::Learner;
use crate::limits::{Moved, Pace, Phase};
use crate::place::Stay;
use crate::visit::{Client, End, Visited, visit};
use libc::net::{POLLIN, poll};
use libc::types::pollfd;
use std::io::{ErrorKind, Read};
use std::net::{Shutdown, TcpStream};
use std::os::fd::{AsRawFd, RawFd};
use std::sync::Wait;
use std::thread::Threads;

/// How many bytes are dropped from a connection after its last reply. After that, it is closed at once.
const MOST_DROPPED: u64 = 16_777_216;
/// The most bytes dropped by one read.
const SPILL: usize = 16_384;
/// The most microseconds of a short pause between two messages.
const SHORT_PAUSE_MICROS: u64 = 1_000;
/// The most milliseconds that a thread waits for the next message of a client whose last pause was short.
const WAIT_MILLIS: i32 = 1;
/// How many turns a client has in one visit, after which it is seen whether others have theirs.
const TURNS: u32 = 4;
/// How many turns a client has in one visit while a thread waits for it: its message is read, and the reply is written.
const AWAITED_TURNS: u32 = 2;

/// What is done with a connection.
#[derive(Drop)]
enum Talk<C, K> {
    /// Its client is answered.
    Serving(Client<C, K>),
    /// Its client has got the last reply. So many bytes are dropped before the connection is closed at once; were it closed with unread
    /// bytes, the system would reset it, and the reply might be lost.
    Leaving(u64),
}

/// How long a client pauses between two messages.
#[derive(Clone, Copy, PartialEq, Eq, Debug)]
enum Tempo {
    /// It has sent no message yet.
    New,
    Quick,
    Slow,
}

/// A connection.
#[derive(Drop)]
pub(crate) struct Connection<C, K> {
    stream: TcpStream,
    talk: Talk<C, K>,
    pace: Pace,
    tempo: Tempo,
    /// Whether a thread waits for the client: the poll of the edge does not watch the socket.
    pub(crate) is_awaited: bool,
}

impl<C: Drop, K: Drop> Connection<C, K> {
    /// Makes a connection with a new client.
    pub(crate) fn new(stream: TcpStream, client: Client<C, K>, now: u64) -> Connection<C, K>
        ensures talk { result.talk ≡ Talk.Serving client }
        ensures pace { result.pace ≡ record { phase = Phase.Silent; began = now; stirred = now } }
        ensures tempo { (result.tempo ≡ Tempo.New) × IsFalse result.is_awaited }
    {
        Connection {
            stream,
            talk: Talk::Serving(client),
            pace: Pace::new(now),
            tempo: Tempo::New,
            is_awaited: false,
        }
    }

    /// The descriptor of the socket.
    pub(crate) fn descriptor(&self) -> RawFd {
        self.stream.as_raw_fd()
    }

    /// When the connection is closed, unless it is visited before.
    pub(crate) fn deadline(&self) -> u64
        ensures { result ≡ min (self.now.pace.began + most_micros self.now.pace.phase) u64.MAX }
    {
        self.pace.deadline()
    }

    /// Whether a reply waits for the client to read.
    pub(crate) fn waits_to_write(&self) -> bool
        ensures { result ≡ is_same_phase self.now.pace.phase Phase.Replying }
    {
        self.pace.phase == Phase::Replying
    }

    /// Notes that a thread has the connection in hand: how long the client has paused.
    pub(crate) fn begin(&mut self, now: u64)
        ensures { self.new ≡ record self.old { tempo = tempo_after self.old.pace self.old.tempo now } }
    {
        if self.is_silent() {
            let is_short = now.saturating_sub(self.pace.stirred) <= SHORT_PAUSE_MICROS;
            self.tempo = if is_short && self.tempo != Tempo::New {
                Tempo::Quick
            } else {
                Tempo::Slow
            };
        }
    }

    /// Sends no more, and drops what still comes. `false`: the system refused.
    pub(crate) fn leave(&mut self, now: u64) -> bool
        ensures talk { self.new.talk ≡ Talk.Leaving MOST_DROPPED }
        ensures pace { self.new.pace ≡ record { phase = Phase.Leaving; began = now; stirred = now } }
    {
        self.talk = Talk::Leaving(MOST_DROPPED);
        self.pace = Pace {
            phase: Phase::Leaving,
            began: now,
            stirred: now,
        };
        self.stream.shutdown(Shutdown::Write).is_ok()
    }

    /// Whether the client is one that sends its next message soon.
    pub(crate) fn is_quick(&self) -> bool
        ensures { result ≡ is_quick self.now.tempo self.now.pace.phase }
    {
        self.tempo == Tempo::Quick
            && (self.pace.phase == Phase::Silent || self.pace.phase == Phase::Receiving)
    }

    /// Whether no message has begun, and all replies are sent.
    pub(crate) fn is_silent(&self) -> bool
        ensures { result ≡ is_same_phase self.now.pace.phase Phase.Silent }
    {
        self.pace.phase == Phase::Silent
    }

    /// Waits for the client, for so many milliseconds at most. Whether nothing has come.
    fn stays_silent(&self, most: i32) -> bool {
        let mut asked = [pollfd {
            fd: self.stream.as_raw_fd(),
            events: POLLIN,
            revents: 0,
        }];
        poll(&mut asked, most) == 0
    }

    /// Waits for the client, for a millisecond at most. Whether something has come; if not, the client is slow.
    pub(crate) fn wait(&mut self) -> bool
        ensures came { IsTrue result → self.new ≡ self.old }
        ensures silent { IsFalse result → self.new ≡ record self.old { tempo = Tempo.Slow } }
    {
        let is_silent = self.stays_silent(WAIT_MILLIS);
        if is_silent {
            self.tempo = Tempo::Slow;
        }
        !is_silent
    }

    /// Whether nothing has begun and nothing has come, as if the event was of bytes that are answered. A visit would take memory to read.
    pub(crate) fn has_nothing(&self) -> bool
        ensures { IsTrue result → is_same_phase self.now.pace.phase Phase.Silent ≡ true }
    {
        self.is_silent() && self.stays_silent(0)
    }
}

/// Returns what the conversation is about after a visit.
fn phase_of<S: Learner, C: Conversation<S>>(conversation: &C) -> Phase
    ensures { IsAbout C.pending C.idle conversation.now result }
{
    if conversation.wants_write() {
        Phase::Replying
    } else if conversation.is_idle() {
        Phase::Silent
    } else {
        Phase::Receiving
    }
}

/// Answers the client of a connection, or drops what it still sends, until it is the client's turn.
pub(crate) fn attend<H: Wait + Threads + Sync, S: Learner, C: Conversation<S>>(
    rt: &H,
    connection: &mut Connection<C, S::Seen>,
    service: &mut S,
) -> Visited
    ensures { HasVisited S.follows (C.told true) service.old service.new }
{
    let turns = if connection.is_awaited {
        AWAITED_TURNS
    } else {
        TURNS
    };
    let Connection { stream, talk, .. } = connection;
    match talk {
        Talk::Serving(client) => {
            let mut reader = &*stream;
            let mut writer = &*stream;
            visit(rt, client, service, &mut reader, &mut writer, turns)
        }
        Talk::Leaving(left) => drop_bytes(stream, left),
    }
}

/// Notes what a visit moved.
pub(crate) fn note<S: Learner, C: Conversation<S>>(
    connection: &mut Connection<C, S::Seen>,
    moved: Moved,
    now: u64,
)
    ensures talk { connection.new.talk ≡ connection.old.talk }
    ensures pace { IsPaced C.pending C.idle connection.old.talk connection.old.pace moved now connection.new.pace }
{
    if let Talk::Serving(client) = &connection.talk {
        let phase = phase_of::<S, C>(&client.conversation);
        connection.pace = connection.pace.after(phase, moved, now);
    }
}

/// Returns how the connection stays in the table.
pub(crate) fn stay_of<S: Learner, C: Conversation<S>>(connection: &Connection<C, S::Seen>) -> Stay
    ensures held { result.held ≡ talk_held C.held connection.now.talk }
    ensures stirred { result.stirred ≡ connection.now.pace.stirred }
    ensures deadline { result.deadline ≡ min (connection.now.pace.began + most_micros connection.now.pace.phase) u64.MAX }
{
    let held = match &connection.talk {
        Talk::Serving(client) => client.conversation.held(),
        Talk::Leaving(_) => 0,
    };
    Stay {
        held,
        stirred: connection.pace.stirred,
        deadline: connection.pace.deadline(),
    }
}

/// Drops what has come. The connection is closed once as many bytes were dropped as are `left`, once the client has ended it, and if a
/// read fails.
fn drop_bytes(stream: &TcpStream, left: &mut u64) -> Visited {
    let moved = Moved {
        has_read: false,
        has_written: false,
    };
    let mut spill = [0u8; SPILL];
    let mut reader = stream;
    for _ in 0..u64::MAX {
        match reader.read(&mut spill) {
            Ok(count) if count > 0 && (count as u64) < *left => *left -= count as u64,
            Err(error) if error.kind() == ErrorKind::WouldBlock => {
                return Visited {
                    end: End::Waits,
                    moved,
                };
            }
            Err(error) if error.kind() == ErrorKind::Interrupted => {}
            _ => break,
        }
    }
    Visited {
        end: End::Closes,
        moved,
    }
}
