//! Takes a lock that is held for a short time.
use crossbeam_utils::Backoff;
use std::sync::{Mutex, MutexGuard, Wait};

// How often `take` tries before it sleeps.
const TRIES: u32 = 300;

/// Takes a lock. Before it sleeps, it tries for a while, and lets other threads run between the tries: a thread that sleeps takes longer to
/// wake up than a write holds the lock.
pub(crate) fn take<'a, T, R: Wait>(rt: &R, lock: &'a Mutex<T>) -> MutexGuard<'a, T> {
    let backoff = Backoff::new();
    for _ in 0..TRIES {
        if let Some(guard) = lock.try_lock() {
            return guard;
        }
        backoff.snooze();
    }
    lock.lock(rt)
}
