//! A thread for each service.
ghost use Rattle.std.specs.Prelude.{◌≡◌, ◌<◌, ℕ, true, IfOk, slice_index_or, vec_len};
ghost use Rattle.mg_server.specs.Visits.{HasVisited};

use crate::conversation::Conversation;
use crate::learner::Learner;
use std::alloc::AllocError;
use std::thread;
use std::thread::Threads;

/// Serves clients with all services, each on a thread of its own, and returns the services. If a thread cannot be started, its service waits
/// until another thread has ended.
///
/// Errors: an allocation fails; then all services are dropped, and some may have served nobody.
pub(crate) fn on_threads<
    H: Threads + Sync,
    S: Learner + Send + Drop,
    C: Conversation<S>,
    F: Fn(S) -> S + Sync,
>(rt: &H, services: Vec<S>, serve: &F) -> Result<Vec<S>, AllocError>
    requires callable { F.IsAlwaysCallable serve.now }
    requires visits { (before after : S) → F.post serve.now before after
        → HasVisited S.follows (C.told true) before after }
    ensures count { IfOk result (λ after. vec_len after ≡ vec_len services) }

    // Visits, one after another, took each service to its new state.
    ensures each { IfOk result (λ after. (i : ℕ) (d : S) → i < vec_len services
        → HasVisited S.follows (C.told true) (slice_index_or services.items i d) (slice_index_or after.items i d)) }
{
    thread::map_vec(rt, services, serve)
}
