//! A call of `Engine::run`. If no memory is refused, the test checks the reply to each command. tests/refused_calls.py repeats the test for
//! each request for memory that it makes, refuses that request, and accepts a failure only if the message says that memory was refused.
use crate::machine_tests::{commands_of, plain_reply};
use mg_engine::{Command, Engine, Reply};
use mg_shard::Md5Placement;
use std::alloc::Global;
use std::process::Abort;
use std::thread::Threads;

// The numbers of the commands, which create an index, write two bulks, query by the index, get a document, explain a query, list the
// indexes and drop the index.
const NUMBERS: [usize; 8] = [5, 0, 3, 8, 10, 9, 12, 11];

// Returns the replies to the commands, and whether the first call was refused memory. Such a call has executed no command; it is repeated.
fn replies_to<R: Threads + Sync + Abort>(
    rt: &R,
    alloc: Global,
    engine: &mut Engine<Md5Placement>,
    commands: &[Command],
) -> (Vec<Reply>, bool) {
    if let Ok(replies) = engine.run(rt, alloc, commands, 2) {
        return (replies, false);
    }
    let replies = engine.run(rt, alloc, commands, 2).expect(rt, "memory");
    (replies, true)
}

// Whether the reply is the one that a new engine gives to the command with this number, after it executed the commands `before`.
fn is_plain<R: Threads + Sync + Abort>(
    rt: &R,
    alloc: Global,
    before: &[usize],
    number: usize,
    reply: &Reply,
) -> bool {
    match plain_reply(rt, alloc, before, number) {
        Some(wanted) => reply.status() == wanted.status() && reply.body() == wanted.body(),
        None => false,
    }
}

// Counts the replies that are out of memory. Fails the test unless the other commands got the replies that they get from a new engine that
// executes only them.
fn refused_of<R: Threads + Sync + Abort>(rt: &R, alloc: Global, replies: &[Reply]) -> u32 {
    let mut before = Vec::new(alloc);
    let mut refused = 0u32;
    for (number, reply) in NUMBERS.iter().zip(replies) {
        if reply.status() == 503 {
            refused = refused.saturating_add(1);
        } else {
            assert!(rt; is_plain(rt, alloc, &before, *number, reply));
            before.push(*number).expect(rt, "memory");
        }
    }
    refused
}

#[test]
fn a_refused_run_has_run_nothing(rt: HostRuntime) {
    let alloc = rt.alloc();
    let commands = commands_of(&rt, alloc, &NUMBERS[..7], 11);
    let mut engine = Engine::new(alloc, "db", Md5Placement, 2).expect(&rt, "memory");
    let (replies, is_refused) = replies_to(&rt, alloc, &mut engine, &commands);
    assert!(rt; replies.len() == NUMBERS.len());
    match (refused_of(&rt, alloc, &replies), is_refused) {
        (0, false) => {}
        (0, true) => rt.panic("the run was refused memory"),
        (1, false) => rt.panic("a command was refused memory"),
        _ => rt.panic("more was refused than one request"),
    }
}
