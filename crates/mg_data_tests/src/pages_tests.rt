//! States that share their pages: a change of one does not show in the others.
use mg_pages::{Identified, Pages, Shared};
use std::alloc::Global;
use std::process::Abort;

// A note: an id and a version.
#[derive(Drop)]
struct Note {
    id: String,
    version: u64,
}

impl Identified for Note {
    ghost use Rattle.std.specs.Prelude.{string_bytes};

    ghost id = { λ n. string_bytes n.id };

    fn id(&self) -> &str {
        self.id.as_str()
    }
}

// Pages of notes, each note in a block that several pages can share.
type Notes = Pages<Shared<Note>>;

fn id_of<R: Abort>(rt: &R, alloc: Global, number: u64) -> String {
    format!(in alloc; "n{number:05}").expect(rt, "memory")
}

fn put<R: Abort>(rt: &R, alloc: Global, notes: &mut Notes, number: u64, version: u64) {
    let id = id_of(rt, alloc, number);
    let note = Shared::new(alloc, Note { id, version }).expect(rt, "memory");
    let _ = notes.insert(alloc, note).expect(rt, "memory");
}

fn take_out<R: Abort>(rt: &R, alloc: Global, notes: &mut Notes, number: u64) {
    let id = id_of(rt, alloc, number);
    let _ = notes.remove(alloc, &id.as_str()).expect(rt, "memory");
}

// Makes notes with the even numbers below a limit, inserted out of order.
fn even_notes<R: Abort>(rt: &R, alloc: Global, limit: u64) -> Notes {
    let mut notes = Pages::new(alloc);
    for k in 0..limit {
        let number = k.wrapping_mul(7919) % limit.max(1);
        if number % 2 == 0 {
            put(rt, alloc, &mut notes, number, 1);
        }
    }
    notes
}

// Inserts a note for each number below the limit, with version 2, and removes every fourth.
fn change_all<R: Abort>(rt: &R, alloc: Global, notes: &mut Notes, limit: u64) {
    for number in 0..limit {
        put(rt, alloc, notes, number, 2);
        if number % 4 == 0 {
            take_out(rt, alloc, notes, number);
        }
    }
}

// Whether there are `count` notes, all of one version.
fn are_all(notes: &Notes, count: usize, version: u64) -> bool {
    for one in notes.iter() {
        if one.version != version {
            return false;
        }
    }
    notes.len() == count
}

// Returns the greatest id of a note at or below `id`; `none` if there is no such note.
fn last_id<'a>(notes: &'a Notes, id: &str) -> &'a str {
    match notes.upto(&id).next() {
        Some(one) => one.id.as_str(),
        None => "none",
    }
}

// Whether the notes are still those of `even_notes`, in order. `limit` must be 6000, for which the count and the last id below are fixed.
fn are_as_they_were<R: Abort>(rt: &R, alloc: Global, notes: &Notes, limit: u64) -> bool {
    let mut number = 0u64;
    for one in notes.iter() {
        if one.id.as_str() != id_of(rt, alloc, number).as_str() {
            return false;
        }
        number = number.wrapping_add(2);
    }
    number == limit && are_all(notes, 3000, 1) && last_id(notes, "n05999") == "n05998"
}

// Makes a state that shares its pages with these notes, and changes all of it.
fn change_shared<R: Abort>(rt: &R, alloc: Global, notes: &Notes) -> Notes {
    let mut other = notes.share(alloc).expect(rt, "memory");
    change_all(rt, alloc, &mut other, 6000);
    other
}

// Makes a state that shares its pages with `gone`, and drops `gone`. The state must be as `gone` was; then all of it is changed.
fn change_survivor<R: Abort>(rt: &R, alloc: Global, gone: Notes) -> Notes {
    let mut left = gone.share(alloc).expect(rt, "memory");
    drop(gone);
    assert!(rt; are_as_they_were(rt, alloc, &left, 6000));
    change_all(rt, alloc, &mut left, 6000);
    left
}

#[test]
fn a_shared_state_stays_as_it_was(rt: HostRuntime) {
    let alloc = rt.alloc();
    let first = even_notes(&rt, alloc, 6000);
    let second = change_shared(&rt, alloc, &first);
    assert!(rt; are_as_they_were(&rt, alloc, &first, 6000));
    let third = change_survivor(&rt, alloc, first);
    assert!(rt; are_all(&second, 4500, 2));
    assert!(rt; are_all(&third, 4500, 2));
}
