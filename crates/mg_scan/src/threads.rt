//! Threads that are all started by one thread.
ghost use Rattle.std.specs.Prelude.{◌≡◌, ℕ, ◌+◌, ◌^◌, ◌<◌, ◌≤◌, vec_len, IfOk};
ghost use denote.Param.Send.{IsSync, IsSend};
ghost use Rattle.std.specs.Fork.{GivesEach};
ghost use Rattle.std.specs.Fork.Halves.{GivesFrom};

use std::alloc::{AllocError, Global};
use std::marker::{Send, Sync};
use std::thread;
use std::thread::Threads;

/// Calls `f(0)` to `f(n - 1)`, and returns the results in order. The caller's thread starts a thread for each call but the last. It makes
/// the last call itself, and each call for which no thread can be started. Errors: `AllocError` if memory for the results is refused; then
/// some calls may not have been made.
///
/// `thread::map_indices` returns the same results, but its threads start one another. Then Linux often puts two of them on one processor
/// while another is idle (docs/DECISIONS.md, "Scans and builds").
pub(crate) fn map_from_one_thread<R: Threads + Sync, X: Send + Drop, F: Fn(usize) -> X + Sync>(
    rt: &R,
    alloc: Global,
    n: usize,
    f: &F,
) -> Result<Vec<X>, AllocError>
    requires { (i : ℕ) → i < n → F.pre f.now i }
    ensures len { IfOk result (λ v. vec_len v ≡ n) }
    ensures each { IfOk result (λ v. GivesEach F.Fn f.now n v.items) }
{
    if n == 0 {
        return Ok(Vec::new(alloc));
    }
    calls_from(rt, alloc, 0, n, f)
}

// Makes the `count` calls from `f(from)` on, and returns their results in order. A thread is started for each call but the last.
// Errors: those of `map_from_one_thread`.
#[cycle(calls)]
fn calls_from<R: Threads + Sync, X: Send + Drop, F: Fn(usize) -> X + Sync>(
    rt: &R,
    alloc: Global,
    from: usize,
    count: usize,
    f: &F,
) -> Result<Vec<X>, AllocError>
    requires some { 0 < count }
    requires room { from + count < 2 ^ 64 }
    requires accepts { (i : ℕ) → from ≤ i → i < from + count → F.pre f.now i }
    ensures { IfOk result (λ v. GivesFrom F.Fn f.now from count v.items) }
{
    if count == 1 {
        return one_call(alloc, from, f);
    }
    let next = from + 1;
    let left = count - 1;
    let first = move || -> Result<Vec<X>, AllocError>
        requires { IsSync F.row × IsSend X.row × F.pre f.now from }
        ensures { IfOk result (λ v. GivesFrom F.Fn f.entry.now from 1 v.items) }
    { one_call(alloc, from, f) };
    let others = move || -> Result<Vec<X>, AllocError>
        requires threads { IsSync R.row × IsSync F.row × IsSend X.row }
        requires some { 0 < left }
        requires room { next + left < 2 ^ 64 }
        requires accepts { (i : ℕ) → next ≤ i → i < next + left → F.pre f.now i }
        ensures { IfOk result (λ v. GivesFrom F.Fn f.entry.now next left v.items) }
    { calls_from(rt, alloc, next, left, f) };
    let (first, others) = thread::join(rt, first, others);
    let mut all = first?;
    let mut rest = others?;
    all.append(&mut rest)?;
    Ok(all)
}

// Makes one call, and returns its result in a list. Errors: `AllocError` if memory for the list is refused; then the call is not made.
fn one_call<X: Drop, F: Fn(usize) -> X>(
    alloc: Global,
    at: usize,
    f: &F,
) -> Result<Vec<X>, AllocError>
    requires { F.pre f.now at }
    ensures { IfOk result (λ v. GivesFrom F.Fn f.now at 1 v.items) }
{
    let mut one = Vec::with_capacity(alloc, 1)?;
    one.push(f(at))?;
    Ok(one)
}
