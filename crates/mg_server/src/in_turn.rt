//! An edge without events: each service answers one connection after another, each to its end.
ghost use Rattle.std.specs.Prelude.{◌≡◌, ◌<◌, ℕ, true, IfOk, slice_index_or, vec_len};
ghost use Rattle.mg_server.specs.Visits.{HasVisited};

use crate::connection::{Connection, attend};
use crate::conversation::Conversation;
use crate::learner::Learner;
use crate::threads::on_threads;
use crate::visit::{End, welcome};
use std::alloc::AllocError;
use std::net::TcpListener;
use std::sync::{Mutex, Wait};
use std::thread::Threads;

/// Visits a connection whose socket blocks. Whether another visit follows; `false`: it has come to its end.
fn attend_more<H: Wait + Threads + Sync, S: Learner, C: Conversation<S> + Drop>(
    rt: &H,
    connection: &mut Connection<C, S::Seen>,
    service: &mut S,
) -> bool
    ensures { HasVisited S.follows (C.told true) service.old service.new }
{
    match attend::<H, S, C>(rt, connection, service).end {
        End::Waits | End::GoesOn => true,
        End::Done => connection.leave(0),
        End::Closes => false,
    }
}

/// Answers a connection to its end.
#[tactic(auto, using(crate::proofs::VisitLemmas::visits_then))]
fn answer_to_end<H: Wait + Threads + Sync, S: Learner, C: Conversation<S> + Drop>(
    rt: &H,
    connection: &mut Connection<C, S::Seen>,
    service: &mut S,
)
    ensures { HasVisited S.follows (C.told true) service.old service.new }
{
    'visits: for _visit in rt.forever() {
        if !attend_more::<H, S, C>(rt, connection, service) {
            return;
        }
    }
    unreachable!()
}

/// Accepts `turns` connections, one after another, and answers each to its end. Stops if an accept fails.
#[tactic(auto, using(crate::proofs::VisitLemmas::visits_then))]
fn serve_turns<H: Wait + Threads + Sync, S: Learner, C: Conversation<S> + Drop>(
    rt: &H,
    listener: &TcpListener,
    first: &Mutex<C>,
    service: &mut S,
    turns: u64,
)
    ensures { HasVisited S.follows (C.told true) service.old service.new }
{
    'turns: for _turn in 0..turns {
        let Ok((stream, _)) = listener.accept() else {
            return;
        };
        let client = welcome::<S, C>(&first.lock(rt), service);
        let mut connection = Connection::new(stream, client, 0);
        answer_to_end::<H, S, C>(rt, &mut connection, service);
    }
}

/// Serves connections with all services, each on a thread of its own: each answers `turns` connections, one after another, each to its
/// end, without a time limit. The conversations of the clients are begun from `first`. A thread ends early if an accept fails. If a thread
/// cannot be started, its service waits until another thread has ended. Returns the services.
///
/// Errors: an allocation fails; then all services are dropped, and some may have served no connection.
pub fn serve_in_turn<
    H: Wait + Threads + Sync,
    S: Learner + Send + Drop,
    C: Conversation<S> + Send + Drop,
>(
    rt: &H,
    listener: &TcpListener,
    first: C,
    services: Vec<S>,
    turns: u64,
) -> Result<Vec<S>, AllocError>
where
    S::Seen: Send,
    ensures count { IfOk result (λ after. vec_len after ≡ vec_len services) }

    // Visits, one after another, took each service to its new state.
    ensures each { IfOk result (λ after. (i : ℕ) (d : S) → i < vec_len services
        → HasVisited S.follows (C.told true) (slice_index_or services.items i d) (slice_index_or after.items i d)) }
{
    let first = Mutex::new(first);
    on_threads::<_, _, C, _>(
        rt,
        services,
        &|service: S| -> S
            ensures { HasVisited S.follows (C.told true) service result }
        {
            let mut service = service;
            serve_turns::<H, S, C>(rt, listener, &first, &mut service, turns);
            service
        },
    )
}
