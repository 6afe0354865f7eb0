//! Lists of events at seats: a fixed list, whose replies are written out, and random lists from a seed, whose replies must be those of
//! one engine that runs the commands one after another.
use crate::given::{check, json, packed, string};
use mg_engine::{Command, Engine, Reply};
use mg_machine::interleave;
use mg_machine::interleave::{Event, are_at};
use mg_shard::Md5Placement;
use std::alloc::Global;
use std::process::Abort;
use std::thread::Threads;

// The bodies of the commands 0 to 9: 5 bulks, 2 indexes, 2 queries and an explanation.
const BODIES: [&str; 10] = [
    r#"{"docs":[{"_id":"a","n":1},{"_id":"b","n":2}]}"#,
    r#"{"docs":[{"_id":"a","_rev":"2-f","n":3,"_revisions":{"start":2,"ids":["f","e"]}}],"new_edits":false}"#,
    r#"{"docs":[{"_id":"b","_rev":"3-0","_deleted":true}],"new_edits":false}"#,
    r#"{"docs":[{"n":4}]}"#,
    r#"{"docs":{}}"#,
    r#"{"index":{"fields":["n"]},"ddoc":"d","name":"by-n"}"#,
    r#"{"index":{}}"#,
    r#"{"selector":{"n":{"$gt":0}},"fields":["n","_rev"]}"#,
    r#"{"selector":{"n":{"$gt":0}},"sort":["n"]}"#,
    r#"{"selector":{"n":1}}"#,
];

// Makes a command from 0 to 9, with this body.
fn command_with_body<R: Abort>(rt: &R, alloc: Global, number: usize, text: &str) -> Command {
    match number {
        0..=4 => Command::PackedBulk(packed(rt, alloc, text)),
        5 | 6 => Command::CreateIndex(json(rt, alloc, text)),
        7 | 8 => Command::Find(json(rt, alloc, text)),
        _ => Command::Explain(json(rt, alloc, text)),
    }
}

// Makes a command from 10 to 13: 10 and 13 get a document, 11 drops the index, 12 lists the indexes.
fn command_without_body<R: Abort>(rt: &R, alloc: Global, number: usize) -> Command {
    match number {
        10 | 13 => Command::Get {
            id: string(rt, alloc, if number == 10 { "a" } else { "b" }),
            conflicts: true,
        },
        11 => Command::DropIndex {
            ddoc: string(rt, alloc, "d"),
            name: string(rt, alloc, "by-n"),
        },
        _ => Command::ListIndexes,
    }
}

// Makes the command with a number from 0 to 13.
fn command_of<R: Abort>(rt: &R, alloc: Global, number: usize) -> Command {
    match BODIES.get(number) {
        Some(text) => command_with_body(rt, alloc, number, text),
        None => command_without_body(rt, alloc, number),
    }
}

// An event: its kind and its seat. `by` is the number of its command or, modulo 3, of the seat that it learns from; an event that enters
// does not use it.
#[derive(Clone, Copy, Drop)]
struct Draw {
    kind: u64,
    seat: usize,
    by: usize,
}

// Makes the event of a draw. Of the six kinds, two publish, two answer, one enters, and one learns from one of the three seats.
fn event_of<R: Abort>(rt: &R, alloc: Global, draw: &Draw) -> Event {
    let Draw { kind, seat, by } = *draw;
    match kind {
        0 | 1 => Event::Publish {
            seat,
            command: command_of(rt, alloc, by),
        },
        2 | 3 => Event::Answer {
            seat,
            command: command_of(rt, alloc, by),
        },
        4 => Event::Enter { seat },
        _ => Event::Told { seat, by: by % 3 },
    }
}

fn events_of<R: Abort>(rt: &R, alloc: Global, draws: &[Draw]) -> Vec<Event> {
    let mut events = Vec::new(alloc);
    for draw in draws {
        events.push(event_of(rt, alloc, draw)).expect(rt, "memory");
    }
    events
}

// Returns the replies to the events, at three seats.
fn replies_to<R: Threads + Sync + Abort>(
    rt: &R,
    alloc: Global,
    draws: &[Draw],
) -> Vec<Option<Reply>> {
    let events = events_of(rt, alloc, draws);
    assert!(rt; are_at(3, &events));
    interleave::replay(rt, alloc, "db", 3, &events).expect(rt, "memory")
}

const MISSING: &str = "{\"error\":\"not_found\",\"reason\":\"missing\"}\n";

const INDEXES: &str =
    "{\"indexes\":[{\"ddoc\":null,\"def\":{\"fields\":[{\"_id\":\"asc\"}]},\"name\":\"_all_docs\",\"type\":\"special\"}],\"total_rows\":1}\n";

// Returns the status and the body of a reply; 0 and an empty body if there is no such event (`None`), or it has no reply (`Some(None)`).
fn status_and_body(reply: Option<&Option<Reply>>) -> (u16, &[u8]) {
    match reply {
        Some(Some(reply)) => (reply.status(), reply.body()),
        _ => (0, b""),
    }
}

fn is_reply(reply: Option<&Option<Reply>>, status: u16, text: &str) -> bool {
    status_and_body(reply) == (status, text.as_bytes())
}

const ONE_DOCUMENT: &str = r#"{"docs":[{"_id":"l1","_rev":"1-a"}],"new_edits":false}"#;

fn get_l1<R: Abort>(rt: &R, alloc: Global) -> Event {
    let id = string(rt, alloc, "l1");
    let command = Command::Get {
        id,
        conflicts: false,
    };
    Event::Answer { seat: 1, command }
}

// Seat 1 enters, seat 0 writes, and seat 1 reads before and after it learns of the write. Then seat 1 drops an index that does not exist,
// and seat 0 lists the indexes.
fn telling<R: Abort>(rt: &R, alloc: Global) -> Vec<Event> {
    let write = Command::Bulk(json(rt, alloc, ONE_DOCUMENT));
    let drop = Command::DropIndex {
        ddoc: string(rt, alloc, "x"),
        name: string(rt, alloc, "ia"),
    };
    let told = vec![in alloc;
        Event::Enter { seat: 1 },
        Event::Publish {
            seat: 0,
            command: write
        },
        get_l1(rt, alloc),
        Event::Told { seat: 1, by: 0 },
        get_l1(rt, alloc),
        Event::Publish {
            seat: 1,
            command: drop
        },
        Event::Answer {
            seat: 0,
            command: Command::ListIndexes
        },
    ];
    match told {
        Ok(events) => events,
        Err(_) => rt.panic("memory"),
    }
}

// The replies to these events: the status and the body (0 and empty: the event has no reply).
const TOLD: [(u16, &str); 7] = [
    (0, ""),
    (201, "[]\n"),
    (404, MISSING),
    (0, ""),
    (200, "{\"_id\":\"l1\",\"_rev\":\"1-a\"}\n"),
    (404, MISSING),
    (200, INDEXES),
];

#[test]
fn replay(rt: HostRuntime) {
    let events = telling(&rt, rt.alloc());
    assert!(rt; are_at(2, &events));
    let replies = interleave::replay(&rt, rt.alloc(), "db", 2, &events).expect(&rt, "memory");
    assert!(rt; replies.len() == TOLD.len());
    for (reply, (status, text)) in replies.iter().zip(TOLD) {
        check(&rt, is_reply(Some(reply), status, text), text);
    }
}

// The expected state: the commits, by the numbers of their commands, and how many of them each seat has seen.
#[derive(Drop)]
struct Plain {
    commits: Vec<usize>,
    seen: [usize; 3],
}

pub(crate) fn commands_of<R: Abort>(
    rt: &R,
    alloc: Global,
    numbers: &[usize],
    last: usize,
) -> Vec<Command> {
    let mut commands = Vec::new(alloc);
    for number in numbers {
        let command = command_of(rt, alloc, *number);
        commands.push(command).expect(rt, "memory");
    }
    let command = command_of(rt, alloc, last);
    commands.push(command).expect(rt, "memory");
    commands
}

// Fails the test if one of the replies is out of memory.
fn check_answered<R: Abort>(rt: &R, replies: &[Reply]) {
    for reply in replies {
        check(rt, reply.status() != 503, "memory");
    }
}

// Returns the reply of a new engine to the command, after it executed the commits. Fails the test if a reply is out of memory.
pub(crate) fn plain_reply<R: Threads + Sync + Abort>(
    rt: &R,
    alloc: Global,
    commits: &[usize],
    command: usize,
) -> Option<Reply> {
    let commands = commands_of(rt, alloc, commits, command);
    let mut engine = Engine::new(alloc, "db", Md5Placement, 1).expect(rt, "memory");
    let mut replies = engine.run(rt, alloc, &commands, 1).expect(rt, "memory");
    check_answered(rt, &replies);
    replies.pop()
}

impl Plain {
    // Executes a command. Returns the expected reply: that of an engine after the commits that the seat has seen. If the command is
    // published or is a write, the seat first sees every commit. A write that is accepted is one more commit, which the seat has seen.
    fn command<R: Threads + Sync + Abort>(
        &mut self,
        rt: &R,
        alloc: Global,
        draw: &Draw,
    ) -> Option<Reply> {
        let all = self.commits.len();
        let writes = draw.by < 7 || draw.by == 11;
        if writes || draw.kind < 2 {
            self.seen[draw.seat % 3] = all;
        }
        let seen = self.seen[draw.seat % 3].min(all);
        let reply = plain_reply(rt, alloc, &self.commits[..seen], draw.by);
        if writes && status_and_body(Some(&reply)).0 < 300 {
            self.commits.push(draw.by).expect(rt, "memory");
            self.seen[draw.seat % 3] = self.commits.len();
        }
        reply
    }

    // Executes an event, and returns the expected reply; `None` if the event has no reply.
    fn happens<R: Threads + Sync + Abort>(
        &mut self,
        rt: &R,
        alloc: Global,
        draw: &Draw,
    ) -> Option<Reply> {
        let seen = match draw.kind {
            0 | 1 | 2 | 3 => return self.command(rt, alloc, draw),
            4 => self.commits.len(),
            _ => self.seen[draw.by % 3],
        };
        self.seen[draw.seat % 3] = self.seen[draw.seat % 3].max(seen);
        None
    }
}

// Returns a pseudorandom number below the limit, and changes the state.
fn below(state: &mut u64, limit: u64) -> u64 {
    *state = state
        .wrapping_mul(6364136223846793005)
        .wrapping_add(1442695040888963407);
    (*state >> 33) % limit.max(1)
}

fn draw_events<R: Abort>(rt: &R, alloc: Global, seed: u64) -> Vec<Draw> {
    let mut state = seed;
    let mut draws = Vec::new(alloc);
    for _event in 0..60 {
        let draw = Draw {
            kind: below(&mut state, 6),
            seat: below(&mut state, 3) as usize,
            by: below(&mut state, 14) as usize,
        };
        draws.push(draw).expect(rt, "memory");
    }
    draws
}

// Whether each reply is the expected one. There must be more than 5 commits, so that the replies can differ.
fn are_plain<R: Threads + Sync + Abort>(
    rt: &R,
    alloc: Global,
    draws: &[Draw],
    replies: &[Option<Reply>],
) -> bool {
    let mut plain = Plain {
        commits: Vec::new(alloc),
        seen: [0; 3],
    };
    for (draw, reply) in draws.iter().zip(replies) {
        let wanted = plain.happens(rt, alloc, draw);
        if status_and_body(Some(reply)) != status_and_body(Some(&wanted)) {
            return false;
        }
    }
    replies.len() == draws.len() && plain.commits.len() > 5
}

#[test]
fn random_events_are_answered_as_by_one_engine(rt: HostRuntime) {
    for seed in 1..11 {
        let draws = draw_events(&rt, rt.alloc(), seed);
        let replies = replies_to(&rt, rt.alloc(), &draws);
        check(
            &rt,
            are_plain(&rt, rt.alloc(), &draws, &replies),
            "drawn events",
        );
    }
}
