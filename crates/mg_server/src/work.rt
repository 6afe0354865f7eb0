//! What the threads of an edge do: each takes the next connection, answers it with its own service, and gives it back.
ghost use Rattle.std.specs.Prelude.{◌≡◌, ◌<◌, ℕ, List, true, IfOk, slice_index_or, vec_len};
ghost use Rattle.mg_server.specs.Visits.{HasVisited};

use crate::connection::{Connection, attend, note, stay_of};
use crate::conversation::Conversation;
use crate::edge::{Edge, Found, Watch};
use crate::faults::after_fault;
use crate::learner::Learner;
use crate::place::Rest;
use crate::table::Hand;
use crate::threads::on_threads;
use crate::visit::{End, Visited, welcome};
use std::alloc::AllocError;
use std::net::TcpStream;
use std::sync::Wait;
use std::sync::atomic::Ordering;
use std::thread::Threads;
use std::time::{Clock, Duration};

/// How many connections are accepted before others are served.
const ACCEPTS: u32 = 64;
/// How often, and for how many microseconds, one thread visits a connection before others have their turn.
const VISITS: u32 = 64;

const VISITS_MICROS: u64 = 1_000;
/// After how many visits of a quick client a thread waits for it alone.
const STEADY: u32 = 4;

/// Makes a connection of an accepted socket, and admits it; closes it if the system or the clock fails.
fn admit<H: Wait + Clock, S: Learner, C: Conversation<S> + Drop>(
    rt: &H,
    edge: &Edge<C, S::Seen>,
    first: &C,
    service: &S,
    stream: TcpStream,
) {
    if stream.set_nodelay(true).is_err() || stream.set_nonblocking(true).is_err() {
        return;
    }
    if let Some(now) = edge.now(rt) {
        let client = welcome::<S, C>(first, service);
        edge.admit(rt, Connection::new(stream, client, now), now);
    }
}

/// Accepts connections, if one may be waiting. Returns the longest wait for the next event; `None`: the listener is gone.
fn accept<H: Wait + Clock, S: Learner, C: Conversation<S> + Drop>(
    rt: &H,
    edge: &Edge<C, S::Seen>,
    watch: &mut Watch<C>,
    service: &S,
) -> Option<Duration> {
    if !watch.is_accepting {
        return Some(Watch::<C>::longest_wait());
    }
    watch.has_shortage = false;
    for _ in 0..ACCEPTS {
        match edge.listener.accept() {
            Ok((stream, _)) => admit(rt, edge, &watch.first, service, stream),
            Err(error) => {
                return watch.wait_after(after_fault(error.kind(), error.raw_os_error()));
            }
        }
    }
    Some(Duration::ZERO)
}

/// Accepts connections, and then waits for one event, for so long at most.
fn look<H: Wait + Clock, S: Learner, C: Conversation<S> + Drop>(
    rt: &H,
    edge: &Edge<C, S::Seen>,
    watch: &mut Watch<C>,
    service: &S,
    most: Duration,
) -> Found<C, S::Seen> {
    match accept(rt, edge, watch, service) {
        Some(wait) => edge.look(rt, watch, wait.min(most)),
        None => Found::Failed,
    }
}

/// Watches until something has come on a connection. `None`: the listener, the poll or the service failed.
fn watch_until<H: Wait + Clock, S: Learner, C: Conversation<S> + Drop>(
    rt: &H,
    edge: &Edge<C, S::Seen>,
    watch: &mut Watch<C>,
    service: &S,
) -> Option<Hand<Connection<C, S::Seen>>> {
    for _ in rt.forever() {
        if service.has_failed() {
            return None;
        }
        match look(rt, edge, watch, service, Watch::<C>::longest_wait()) {
            Found::Came(hand) => return Some(hand),
            Found::Nothing => {}
            Found::Failed => return None,
        }
    }
    unreachable!()
}

/// Looks at the sockets without waiting, unless another thread watches them.
fn glance<H: Wait + Clock, S: Learner, C: Conversation<S> + Drop>(
    rt: &H,
    edge: &Edge<C, S::Seen>,
    service: &S,
) -> Option<Hand<Connection<C, S::Seen>>> {
    let mut watch = edge.watch.try_lock()?;
    match look(rt, edge, &mut watch, service, Duration::ZERO) {
        Found::Came(hand) => Some(hand),
        Found::Nothing | Found::Failed => None,
    }
}

/// Takes the next connection: one that is queued, or else one on which something has come. `glances`: the sockets come before the queue.
/// Without that, connections that are queued again and again would keep others waiting. `None`: the listener or the poll failed.
fn next<H: Wait + Clock, S: Learner, C: Conversation<S> + Drop>(
    rt: &H,
    edge: &Edge<C, S::Seen>,
    service: &S,
    glances: bool,
) -> Option<Hand<Connection<C, S::Seen>>> {
    if glances && edge.has_queued(rt) {
        if let Some(hand) = glance(rt, edge, service) {
            return Some(hand);
        }
    }
    if let Some(hand) = edge.queued(rt) {
        return Some(hand);
    }
    edge.watchers.fetch_add(1, Ordering::SeqCst);
    let hand = watch_until(rt, edge, &mut edge.watch.lock(rt), service);
    edge.watchers.fetch_sub(1, Ordering::SeqCst);
    hand
}

/// What a thread does with a connection after a visit.
enum AfterVisit {
    /// It visits it once more.
    Again,
    /// It gives it back.
    GivesBack(Rest),
    /// It closes it.
    Closes,
}

/// Whether this thread waits for the client, which is quick, while another one watches. `is_steady`: it was quick in some visits before, so
/// that this thread waits for it alone.
fn waits_for<S: Learner, C: Conversation<S> + Drop>(
    edge: &Edge<C, S::Seen>,
    connection: &mut Connection<C, S::Seen>,
    is_steady: bool,
) -> bool {
    edge.is_watched()
        && connection.is_quick()
        && (connection.is_awaited || !is_steady || edge.wait_for(connection))
}

/// Whether this thread visits the connection once more: if more can be done, or if the client sends more within a moment. Where nothing has come
/// there is no visit, since that would take memory to read, and a refusal would end the connection of a client that asked nothing.
fn goes_on<S: Learner, C: Conversation<S> + Drop>(
    edge: &Edge<C, S::Seen>,
    connection: &mut Connection<C, S::Seen>,
    end: End,
    is_steady: bool,
) -> bool {
    if end == End::GoesOn && !(connection.is_awaited && connection.is_silent()) {
        return true;
    }
    waits_for::<S, C>(edge, connection, is_steady) && connection.wait()
}

/// Returns what is done after a visit: a connection that waits for its client is closed if its time is over, whatever the client sends.
/// `is_steady`: the client was quick in some visits before. `last`: when others have their turn.
fn after_visit<H: Clock, S: Learner, C: Conversation<S> + Drop>(
    rt: &H,
    edge: &Edge<C, S::Seen>,
    connection: &mut Connection<C, S::Seen>,
    visited: Visited,
    is_steady: bool,
    last: u64,
) -> AfterVisit
    // A connection that can go on never waits for an event, which might not come.
    ensures { result ≡ AfterVisit.GivesBack Rest.Event → visited.end ≡ End.Waits }
{
    let Some(now) = edge.now(rt) else {
        return AfterVisit::Closes;
    };
    note::<S, C>(connection, visited.moved, now);
    let end = visited.end;
    match end {
        End::Waits if connection.deadline() <= now => AfterVisit::Closes,
        End::Waits | End::GoesOn
            if now < last && goes_on::<S, C>(edge, connection, end, is_steady) => {
            AfterVisit::Again
        }
        End::Waits => AfterVisit::GivesBack(Rest::Event),
        End::GoesOn => AfterVisit::GivesBack(Rest::Visit),
        End::Done if connection.leave(now) => AfterVisit::Again,
        End::Done | End::Closes => AfterVisit::Closes,
    }
}

/// Visits a connection until it is the client's turn, or others have theirs: after the time `last`. Returns what is done with it; `None`: it is closed.
#[tactic(auto, using(crate::proofs::VisitLemmas::visits_then))]
fn visit_often<H: Wait + Threads + Clock + Sync, S: Learner, C: Conversation<S> + Drop>(
    rt: &H,
    edge: &Edge<C, S::Seen>,
    connection: &mut Connection<C, S::Seen>,
    service: &mut S,
    last: u64,
) -> Option<Rest>
    ensures { HasVisited S.follows (C.told true) service.old service.new }
{
    'visits: for visit in 0..VISITS {
        let visited = attend::<H, S, C>(rt, connection, service);
        match after_visit::<H, S, C>(rt, edge, connection, visited, visit >= STEADY, last) {
            AfterVisit::Again => {}
            AfterVisit::GivesBack(rest) => return Some(rest),
            AfterVisit::Closes => return None,
        }
    }
    Some(Rest::Visit)
}

/// Visits the connection in hand, unless it has nothing to do, and gives it back or closes it.
#[tactic(auto, using(crate::proofs::VisitLemmas::no_visits))]
fn serve_hand<H: Wait + Threads + Clock + Sync, S: Learner, C: Conversation<S> + Drop>(
    rt: &H,
    edge: &Edge<C, S::Seen>,
    hand: Hand<Connection<C, S::Seen>>,
    service: &mut S,
)
    ensures { HasVisited S.follows (C.told true) service.old service.new }
{
    let mut hand = hand;
    let now = edge.now(rt).unwrap_or(0);
    hand.item_mut().begin(now);
    let rest = if hand.item().has_nothing() {
        Some(Rest::Event)
    } else {
        let last = now.saturating_add(VISITS_MICROS);
        visit_often::<H, S, C>(rt, edge, hand.item_mut(), service, last)
    };
    put_away::<H, S, C>(rt, edge, hand, rest);
}

/// Gives a connection back, or closes it (`None`).
fn put_away<H: Wait, S: Learner, C: Conversation<S> + Drop>(
    rt: &H,
    edge: &Edge<C, S::Seen>,
    hand: Hand<Connection<C, S::Seen>>,
    rest: Option<Rest>,
) {
    let Some(rest) = rest else {
        return edge.close(rt, hand);
    };
    let stay = stay_of::<S, C>(hand.item());
    edge.give_back(rt, hand, rest, stay);
}

/// Serves connections, one after another, until the listener or the poll fails.
#[tactic(auto, using(crate::proofs::VisitLemmas::visits_then))]
fn work<H: Wait + Threads + Clock + Sync, S: Learner, C: Conversation<S> + Drop>(
    rt: &H,
    edge: &Edge<C, S::Seen>,
    service: &mut S,
)
    ensures { HasVisited S.follows (C.told true) service.old service.new }
{
    let mut glances = false;
    'rounds: for _round in rt.forever() {
        glances = !glances;
        let Some(hand) = next::<H, S, C>(rt, edge, service, glances) else {
            return;
        };
        serve_hand::<H, S, C>(rt, edge, hand, service);
        if service.has_failed() {
            return;
        }
    }
    unreachable!()
}

/// Serves connections with all services, each on a thread of its own, until the listener or the poll fails. Then returns the services. If
/// a thread cannot be started, its service waits until another thread has ended.
///
/// Errors: an allocation fails; then all services are dropped, and some may have served no connection.
pub fn serve<
    H: Wait + Threads + Clock + Sync,
    S: Learner + Send + Drop,
    C: Conversation<S> + Send + Drop,
>(rt: &H, edge: &Edge<C, S::Seen>, services: Vec<S>) -> Result<Vec<S>, AllocError>
where
    S::Seen: Send,
    ensures count { IfOk result (λ after. vec_len after ≡ vec_len services) }

    // Visits, one after another, took each service to its new state.
    ensures each { IfOk result (λ after. (i : ℕ) (d : S) → i < vec_len services
        → HasVisited S.follows (C.told true) (slice_index_or services.items i d) (slice_index_or after.items i d)) }
{
    on_threads::<_, _, C, _>(
        rt,
        services,
        &|service: S| -> S
            ensures { HasVisited S.follows (C.told true) service result }
        {
            let mut service = service;
            work::<H, S, C>(rt, edge, &mut service);
            service
        },
    )
}
