//! The sockets of a listener and of its connections, and the table that says where each connection is.
ghost use Rattle.std.specs.Prelude.{◌≡◌, ◌≢◌, ◌↔◌, false, IsNone};
ghost use Rattle.mg_server.specs.Connections.{IsAdmitted};

use crate::connection::Connection;
use crate::faults::AfterFault;
use crate::place::{Rest, Stay};
use crate::table::{Hand, Table};
use libc::net::listen;
use mio::unix::SourceFd;
use mio::{Events, Interest, Poll, Registry, Token};
use std::alloc::Global;
use std::io;
use std::net::{Net, TcpListener};
use std::os::fd::{AsRawFd, RawFd};
use std::sync::atomic::{AtomicU64, Ordering};
use std::sync::{Mutex, Wait};
use std::time::{Clock, Duration, Instant};

/// The token of the listener in events. The token of a connection is its key, which is smaller.
const LISTENER: Token = Token(usize::MAX);
/// How many connections may wait to be accepted, if the system allows as many.
const BACKLOG: i32 = 4_096;
/// The number of connections for which room is reserved at the start.
const CONNECTIONS: usize = 1_024;
/// The shortest time in microseconds between two searches for connections whose time is over.
const SEARCH_MICROS: u64 = 500_000;
/// The longest wait in milliseconds for an event.
const WATCH_MILLIS: u64 = 500;
/// The longest time in milliseconds until the next accept after descriptors or memory ran out.
const SHORTAGE_MILLIS: u64 = 20;

/// A listener and its connections. `C` is the conversation of a client, and `K` what a client carries from one service to the next.
#[derive(Drop)]
pub struct Edge<C, K> {
    pub(crate) listener: TcpListener,
    registry: Registry,
    pub(crate) watch: Mutex<Watch<C>>,
    table: Mutex<Table<Connection<C, K>>>,
    /// The number of threads that watch, or wait to do so.
    pub(crate) watchers: AtomicU64,
    opened: Instant,
}

/// What only the thread that watches uses.
#[derive(Drop)]
pub(crate) struct Watch<C> {
    poll: Poll,
    /// Room for one event.
    events: Events<Global>,
    /// The conversation from which those of new clients are begun.
    pub(crate) first: C,
    /// Whether a connection may be waiting to be accepted.
    pub(crate) is_accepting: bool,
    /// Whether descriptors or memory ran out at the last accept.
    pub(crate) has_shortage: bool,
    /// When connections were last searched for whose time is over.
    last_search: u64,
}

/// What a look at the sockets found.
pub(crate) enum Found<C, K> {
    /// A connection on which something has come.
    Came(Hand<Connection<C, K>>),
    /// No connection for this thread.
    Nothing,
    /// The listener or the poll has failed.
    Failed,
}

impl<C: Drop, K: Drop> Edge<C, K> {
    /// Opens an edge without connections, which accepts those of `listener`. The conversations of its clients are begun from `first`.
    ///
    /// Errors: those of the system and of the clock, and `OutOfMemory` if an allocation fails. The listener is then dropped.
    pub fn open<H: Net + Clock>(
        rt: &H,
        alloc: Global,
        listener: TcpListener,
        first: C,
    ) -> io::Result<Edge<C, K>> {
        let opened = Instant::now(rt)?;
        let watch = Watch {
            poll: Poll::new(rt)?,
            events: Events::with_capacity(alloc, 1)?,
            first,
            is_accepting: true,
            has_shortage: false,
            last_search: 0,
        };
        let table = Table::with_capacity(alloc, CONNECTIONS)?;
        let registry = watch.poll.registry().try_clone()?;
        listener.set_nonblocking(true)?;
        let descriptor = listener.as_raw_fd();
        // The listener works as well with the backlog that it had.
        let _status = listen(descriptor, BACKLOG);
        registry.register(&mut SourceFd(&descriptor), LISTENER, Interest::READABLE)?;
        Ok(Edge {
            listener,
            registry,
            watch: Mutex::new(watch),
            table: Mutex::new(table),
            watchers: AtomicU64::new(0),
            opened,
        })
    }

    /// Returns the microseconds since the edge was opened. `None`: the clock failed.
    pub(crate) fn now<H: Clock>(&self, rt: &H) -> Option<u64> {
        let Ok(now) = Instant::now(rt) else {
            return None;
        };
        let micros = now.saturating_duration_since(self.opened).as_micros();
        Some(u64::try_from(micros).unwrap_or(u64::MAX))
    }

    /// Admits a new connection. Only the thread that watches calls this, so nobody looks for its events meanwhile.
    pub(crate) fn admit<H: Wait>(&self, rt: &H, connection: Connection<C, K>, now: u64) {
        self.admit_to(&mut self.table.lock(rt), connection, now);
    }

    /// Admits a new connection to the table, where it waits. Closes it if memory runs out or it cannot be watched.
    fn admit_to(&self, table: &mut Table<Connection<C, K>>, connection: Connection<C, K>, now: u64)
        ensures entries { IsAdmitted table.old.entries table.new.entries table.old.entries.vacant_key table.old.admitted connection now }
        ensures queue { table.new.queue.items ≡ table.old.queue.items }
    {
        let deadline = connection.deadline();
        let descriptor = connection.descriptor();
        let token = Token(table.next_key());
        let source = &mut SourceFd(&descriptor);
        let interest = Interest::READABLE;
        if self.registry.register(source, token, interest).is_err() {
            return;
        }
        match table.admit(connection, now, deadline) {
            Ok(()) => {}
            Err(closed) => drop(closed),
        }
    }

    /// Whether a connection is queued.
    pub(crate) fn has_queued<H: Wait>(&self, rt: &H) -> bool {
        self.table.lock(rt).has_queued()
    }

    /// Takes the connection that is visited next. `None`: none is queued.
    pub(crate) fn queued<H: Wait>(&self, rt: &H) -> Option<Hand<Connection<C, K>>> {
        self.table.lock(rt).next_queued()
    }

    /// Has the poll watch the socket of a connection that is given back under this key, for writing too if a reply waits. If a thread waited
    /// for the client, what came meanwhile is an event at once. `false`: the system refused.
    fn watch_again(&self, key: usize, connection: &mut Connection<C, K>) -> bool
        ensures { connection.new ≡ record connection.old { is_awaited = false } }
    {
        let token = Token(key);
        let descriptor: RawFd = connection.descriptor();
        let source = &mut SourceFd(&descriptor);
        let writes = connection.waits_to_write();
        let interest = if writes {
            Interest::READABLE | Interest::WRITABLE
        } else {
            Interest::READABLE
        };
        let was_awaited = connection.is_awaited;
        connection.is_awaited = false;
        if was_awaited {
            self.registry.register(source, token, interest).is_ok()
        } else {
            !writes || self.registry.reregister(source, token, interest).is_ok()
        }
    }

    /// Has this thread alone wait for the client of a connection in hand: what comes does not wake the thread that watches. `false`: the
    /// system refused.
    pub(crate) fn wait_for(&self, connection: &mut Connection<C, K>) -> bool
        ensures { connection.new ≡ record connection.old { is_awaited = result } }
    {
        let descriptor: RawFd = connection.descriptor();
        let source = &mut SourceFd(&descriptor);
        connection.is_awaited = self.registry.deregister(source).is_ok();
        connection.is_awaited
    }

    /// Whether a thread watches.
    pub(crate) fn is_watched(&self) -> bool {
        self.watchers.load(Ordering::SeqCst) > 0
    }

    /// Gives a connection back to the table, and has the poll watch its socket. Closes it if the system refuses, or if there is no room for
    /// what it holds.
    pub(crate) fn give_back<H: Wait>(
        &self,
        rt: &H,
        hand: Hand<Connection<C, K>>,
        rest: Rest,
        stay: Stay,
    ) {
        let mut hand = hand;
        if !self.watch_again(hand.key(), hand.item_mut()) {
            return self.close(rt, hand);
        }
        let back = self.table.lock(rt).give_back(hand, rest, stay);
        drop(back);
    }

    /// Closes a connection.
    pub(crate) fn close<H: Wait>(&self, rt: &H, hand: Hand<Connection<C, K>>) {
        let connection = self.table.lock(rt).close(hand);
        drop(connection);
    }

    /// Closes the waiting connection that has been still longest, to free its descriptor and memory for another.
    fn close_stillest<H: Wait>(&self, rt: &H) {
        let connection = self.table.lock(rt).take_stillest(0);
        drop(connection);
    }

    /// Closes the connections whose time is over, at most once in `SEARCH_MICROS`.
    fn close_overdue<H: Wait + Clock>(&self, rt: &H, watch: &mut Watch<C>) {
        let Some(now) = self.now(rt) else {
            return;
        };
        if now.saturating_sub(watch.last_search) >= SEARCH_MICROS {
            watch.last_search = now;
            self.table.lock(rt).close_overdue(now);
        }
    }

    /// Waits for one event, as long as given, and passes it on to the connection. Then closes the connections whose time is over, however many events
    /// others have.
    pub(crate) fn look<H: Wait + Clock>(
        &self,
        rt: &H,
        watch: &mut Watch<C>,
        wait: Duration,
    ) -> Found<C, K> {
        if watch.poll.poll(&mut watch.events, Some(wait)).is_err() {
            return Found::Failed;
        }
        let found = match watch.token() {
            Some(token) if token == LISTENER => {
                watch.is_accepting = true;
                Found::Nothing
            }
            Some(token) => match self.table.lock(rt).call(token.0) {
                Some(hand) => Found::Came(hand),
                None => Found::Nothing,
            },
            None => {
                if watch.has_shortage {
                    self.close_stillest(rt);
                }
                Found::Nothing
            }
        };
        self.close_overdue(rt, watch);
        found
    }
}

impl<C> Watch<C> {
    /// Returns the token of the event; `None`: there was no event.
    fn token(&self) -> Option<Token> {
        self.events.iter().next().map(|event| event.token())
    }

    /// Returns the longest wait for an event while no connection may be waiting to be accepted.
    pub(crate) fn longest_wait() -> Duration {
        Duration::from_millis(WATCH_MILLIS)
    }

    /// Notes a failed accept. Returns the longest wait for the next event; `None`: the listener is gone.
    pub(crate) fn wait_after(&mut self, after: AfterFault) -> Option<Duration>
        ensures gone { IsNone result ↔ (after ≡ AfterFault.Never) }
        ensures accepts { after ≢ AfterFault.AtAnEvent → self.new.is_accepting ≡ self.old.is_accepting }
    {
        match after {
            AfterFault::Again => Some(Duration::ZERO),
            AfterFault::AtAnEvent => {
                self.is_accepting = false;
                Some(Duration::from_millis(WATCH_MILLIS))
            }
            AfterFault::Soon => Some(Duration::from_millis(SHORTAGE_MILLIS)),
            AfterFault::WithMore => {
                self.has_shortage = true;
                Some(Duration::from_millis(SHORTAGE_MILLIS))
            }
            AfterFault::Never => None,
        }
    }
}
