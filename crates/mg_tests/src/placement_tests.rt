//! Worked examples over a placement of the tests' own: document `d1` is on shard 1 modulo the number of shards, `d2` on shard 2, and so on.
//! The bookmarks were made with Python's base64 and json, the revision with its hashlib.
ghost use Rattle.std.specs.Prelude.{◌≡◌};
ghost use Rattle.mg_tests.specs.ByNumber.{number_of, number_place};

use crate::given::{check, json, packed};
use mg_engine::{Command, Engine};
use mg_query::{Page, Query, page};
use mg_scan::NoGate;
use mg_shard::Placement;
use mg_value::{Json, write};
use std::alloc::Global;
use std::process::Abort;
use std::thread::Threads;

#[derive(Clone, Copy, Drop)]
struct ByNumber;

// Returns the value of an id's second byte as a digit; 0 if there is no such byte.
fn number_of(id: &str) -> usize
    ensures { result ≡ number_of id.now }
{
    match id.as_bytes() {
        [_, digit, ..] => usize::from(digit.saturating_sub(48)),
        _ => 0,
    }
}

impl Placement for ByNumber {
    ghost place = { λ _ id shards. number_place id shards };

    fn shard_of(&self, id: &str, shards: usize) -> usize {
        number_of(id) % shards
    }
}

#[derive(Clone, Copy, Drop)]
enum Ask {
    Bulk,
    CreateIndex,
    Find,
    Reshard,
}

// A command and its body, and the status and the body of the expected reply.
#[derive(Clone, Copy, Drop)]
struct Step(Ask, &'static str, u16, &'static str);

const PUTS: Step = Step(
    Ask::Bulk,
    r#"{"docs":[{"_id":"d1","_rev":"1-a","k":7},{"_id":"d2","_rev":"1-a","k":7},{"_id":"d3","_rev":"1-a","k":7},{"_id":"d4","_rev":"1-a","k":7},{"_id":"d5","_rev":"1-a","k":7}],"new_edits":false}"#,
    201,
    "[]\n",
);

const INDEX: Step = Step(
    Ask::CreateIndex,
    r#"{"index":{"fields":["k"]},"ddoc":"x","name":"k_idx"}"#,
    200,
    "{\"id\":\"_design/x\",\"name\":\"k_idx\",\"result\":\"created\"}\n",
);

// Another index on `k`. A query prefers it to `k_idx`, since its name is smaller.
const PREFERRED_INDEX: Step = Step(
    Ask::CreateIndex,
    r#"{"index":{"fields":["k"]},"ddoc":"x","name":"a_idx"}"#,
    200,
    "{\"id\":\"_design/x\",\"name\":\"a_idx\",\"result\":\"created\"}\n",
);

const FIRST_PAGE: Step = Step(
    Ask::Find,
    r#"{"selector":{"k":7},"limit":2,"fields":["_id"]}"#,
    200,
    "{\"bookmark\":\"WyJfZGVzaWduL3giLCJrX2lkeCIsImFzYyIsWzddLCJkMiJd\",\"docs\":[{\"_id\":\"d1\"},{\"_id\":\"d2\"}]}\n",
);

const SECOND_PAGE: Step = Step(
    Ask::Find,
    r#"{"selector":{"k":7},"limit":2,"fields":["_id"],"bookmark":"WyJfZGVzaWduL3giLCJrX2lkeCIsImFzYyIsWzddLCJkMiJd"}"#,
    200,
    "{\"bookmark\":\"WyJfZGVzaWduL3giLCJrX2lkeCIsImFzYyIsWzddLCJkNCJd\",\"docs\":[{\"_id\":\"d3\"},{\"_id\":\"d4\"}]}\n",
);

const THIRD_PAGE: Step = Step(
    Ask::Find,
    r#"{"selector":{"k":7},"limit":2,"fields":["_id"],"bookmark":"WyJfZGVzaWduL3giLCJrX2lkeCIsImFzYyIsWzddLCJkNCJd"}"#,
    200,
    "{\"bookmark\":\"WyJfZGVzaWduL3giLCJrX2lkeCIsImFzYyIsWzddLCJkNSJd\",\"docs\":[{\"_id\":\"d5\"}]}\n",
);

const LAST_PAGE: Step = Step(
    Ask::Find,
    r#"{"selector":{"k":7},"limit":2,"fields":["_id"],"bookmark":"WyJfZGVzaWduL3giLCJrX2lkeCIsImFzYyIsWzddLCJkNSJd"}"#,
    200,
    "{\"bookmark\":\"WyJfZGVzaWduL3giLCJrX2lkeCIsImFzYyIsWzddLCJkNSJd\",\"docs\":[]}\n",
);

const TIES: &[Step] = &[PUTS, INDEX, FIRST_PAGE, SECOND_PAGE, THIRD_PAGE, LAST_PAGE];

const DESCENDING: &[Step] = &[
    PUTS,
    Step(
        Ask::CreateIndex,
        r#"{"index":{"fields":["k"]},"ddoc":"x","name":"k_ix"}"#,
        200,
        "{\"id\":\"_design/x\",\"name\":\"k_ix\",\"result\":\"created\"}\n",
    ),
    Step(
        Ask::Find,
        r#"{"selector":{"k":7},"sort":[{"k":"desc"}],"limit":2,"fields":["_id"]}"#,
        200,
        "{\"bookmark\":\"WyJfZGVzaWduL3giLCJrX2l4IiwiZGVzYyIsWzddLCJkNCJd\",\"docs\":[{\"_id\":\"d5\"},{\"_id\":\"d4\"}]}\n",
    ),
    Step(
        Ask::Bulk,
        r#"{"docs":[{"_id":"d4","_rev":"1-a","_deleted":true}]}"#,
        201,
        "[{\"id\":\"d4\",\"ok\":true,\"rev\":\"2-2cd92fe6a454e3cdf4b1bea4fa4e434a\"}]\n",
    ),
    Step(
        Ask::Find,
        r#"{"selector":{"k":7},"sort":[{"k":"desc"}],"limit":2,"fields":["_id"],"bookmark":"WyJfZGVzaWduL3giLCJrX2l4IiwiZGVzYyIsWzddLCJkNCJd"}"#,
        200,
        "{\"bookmark\":\"WyJfZGVzaWduL3giLCJrX2l4IiwiZGVzYyIsWzddLCJkMiJd\",\"docs\":[{\"_id\":\"d3\"},{\"_id\":\"d2\"}]}\n",
    ),
    Step(
        Ask::Find,
        r#"{"selector":{"k":7},"limit":2,"bookmark":"WyJfZGVzaWduL3giLCJrX2l4IiwiZGVzYyIsWzddLCJkNCJd"}"#,
        400,
        "{\"error\":\"invalid_bookmark\",\"reason\":\"Invalid bookmark.\"}\n",
    ),
];

const SEVEN: Step = Step(Ask::Reshard, r#"{"shards":7}"#, 200, "{\"ok\":true}\n");

const ONE: Step = Step(Ask::Reshard, r#"{"shards":1}"#, 200, "{\"ok\":true}\n");

const SIXTY_FOUR: Step = Step(Ask::Reshard, r#"{"shards":64}"#, 200, "{\"ok\":true}\n");

const NO_SHARD: Step = Step(
    Ask::Reshard,
    r#"{"shards":0}"#,
    400,
    "{\"error\":\"bad_request\",\"reason\":\"Wrong shape.\"}\n",
);

const TOO_MANY: Step = Step(
    Ask::Reshard,
    r#"{"shards":65}"#,
    400,
    "{\"error\":\"bad_request\",\"reason\":\"Wrong shape.\"}\n",
);

const RESHARDING: &[Step] = &[
    PUTS,
    INDEX,
    FIRST_PAGE,
    SEVEN,
    SECOND_PAGE,
    ONE,
    THIRD_PAGE,
    SIXTY_FOUR,
    LAST_PAGE,
    NO_SHARD,
    TOO_MANY,
];

fn command_of<R: Abort>(rt: &R, alloc: Global, step: &Step) -> Command {
    let text = step.1;
    match step.0 {
        Ask::Bulk => Command::PackedBulk(packed(rt, alloc, text)),
        Ask::CreateIndex => Command::CreateIndex(json(rt, alloc, text)),
        Ask::Find => Command::Find(json(rt, alloc, text)),
        Ask::Reshard => Command::Reshard(json(rt, alloc, text)),
    }
}

// Executes the command of a step, and fails the test unless its reply is the expected one.
fn check_step<R: Threads + Sync + Abort>(
    rt: &R,
    alloc: Global,
    engine: &mut Engine<ByNumber>,
    step: &Step,
) {
    let command = command_of(rt, alloc, step);
    let reply = engine.execute(rt, alloc, command, 2);
    let holds = reply.status() == step.2 && reply.body() == step.3.as_bytes();
    check(rt, holds, step.1);
}

// Makes an engine of four shards and executes these steps. Fails the test unless each reply is the expected one.
fn after<R: Threads + Sync + Abort>(rt: &R, alloc: Global, steps: &[Step]) -> Engine<ByNumber> {
    let mut engine = Engine::new(alloc, "db", ByNumber, 4).expect(rt, "memory");
    for step in steps {
        check_step(rt, alloc, &mut engine, step);
    }
    engine
}

#[test]
fn ties_across_shards(rt: HostRuntime) {
    let _ = after(&rt, rt.alloc(), TIES);
}

#[test]
fn descending_pages(rt: HostRuntime) {
    let _ = after(&rt, rt.alloc(), DESCENDING);
}

#[test]
fn resharding(rt: HostRuntime) {
    let _ = after(&rt, rt.alloc(), RESHARDING);
}

// The body of a query, its expected page, how many rows each shard hands over for it, and how many of them are taken.
#[derive(Clone, Copy, Drop)]
struct Paged(&'static str, &'static str, &'static [u64], u64);

const OVER_FOUR: &[Paged] = &[
    Paged(
        r#"{"selector":{"k":7},"fields":["_id"],"skip":1,"limit":2}"#,
        r#"[{"_id":"d2"},{"_id":"d3"}]"#,
        &[1, 2, 1, 1],
        3,
    ),
    Paged(
        r#"{"selector":{"k":7},"fields":["_id"],"limit":1}"#,
        r#"[{"_id":"d1"}]"#,
        &[1, 1, 1, 1],
        1,
    ),
    Paged(
        r#"{"selector":{"k":7},"fields":["_id"],"limit":2,"bookmark":"WyJfZGVzaWduL3giLCJrX2lkeCIsImFzYyIsWzddLCJkMiJd"}"#,
        r#"[{"_id":"d3"},{"_id":"d4"}]"#,
        &[1, 1, 0, 1],
        2,
    ),
    Paged(
        r#"{"selector":{"k":7},"fields":["_id"],"limit":0}"#,
        "[]",
        &[0, 0, 0, 0],
        0,
    ),
];

const OVER_SEVEN: &[Paged] = &[Paged(
    r#"{"selector":{"k":7},"fields":["_id"],"skip":3}"#,
    r#"[{"_id":"d4"},{"_id":"d5"}]"#,
    &[0, 1, 1, 1, 1, 1, 0],
    5,
)];

fn shows<R: Abort>(rt: &R, alloc: Global, page: Page, text: &str) -> bool {
    let Page { docs, .. } = page;
    let shown = write(alloc, &Json::List(docs)).expect(rt, "memory");
    shown.as_slice() == text.as_bytes()
}

// Whether the page and its work are as expected. The catalog that is given lacks the preferred index, though the shards may have it.
fn has_page<R: Threads + Sync + Abort>(
    rt: &R,
    alloc: Global,
    engine: &Engine<ByNumber>,
    query: &Query<'_>,
    paged: &Paged,
) -> bool {
    let mut catalog = engine.catalog().copy(alloc).expect(rt, "memory");
    let _ = catalog.remove("_design/x", "a_idx");
    let shards = engine.shards();
    let Ok((page, work)) = page(rt, alloc, query, &catalog, shards, 2, &NoGate) else {
        return false;
    };
    work.handed() == paged.2 && work.taken() == paged.3 && shows(rt, alloc, page, paged.1)
}

fn is_paged<R: Threads + Sync + Abort>(
    rt: &R,
    alloc: Global,
    engine: &Engine<ByNumber>,
    paged: &Paged,
) -> bool {
    let body = json(rt, alloc, paged.0);
    match Query::read(alloc, &body) {
        Ok(query) => has_page(rt, alloc, engine, &query, paged),
        Err(_) => false,
    }
}

// Fails the test unless a new engine gives all these pages after these steps.
fn check_pages<R: Threads + Sync + Abort>(rt: &R, alloc: Global, steps: &[Step], all: &[Paged]) {
    let engine = after(rt, alloc, steps);
    for paged in all {
        check(rt, is_paged(rt, alloc, &engine, paged), paged.0);
    }
}

#[test]
fn rows_handed_over_by_each_shard(rt: HostRuntime) {
    check_pages(&rt, rt.alloc(), &[PUTS, INDEX], OVER_FOUR);
    check_pages(&rt, rt.alloc(), &[PUTS, INDEX, SEVEN], OVER_SEVEN);
}

#[test]
fn a_page_ignores_an_index_that_the_catalog_lacks(rt: HostRuntime) {
    check_pages(&rt, rt.alloc(), &[PUTS, INDEX, PREFERRED_INDEX], OVER_FOUR);
}
