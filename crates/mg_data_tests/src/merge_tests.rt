//! Merges of lists of rows: the rows taken, and the work that is counted.
use crate::given::{check, string};
use mg_collate::{Direction, Row};
use mg_merge::{are_in_order, merge};
use mg_value::Json;
use std::alloc::Global;
use std::process::Abort;

type Given = &'static [(i64, &'static str)];

// A case: lists of keys and ids, their direction, how many rows to take, the rows that the merge must give, and how many rows each list
// hands over, which is its length.
#[derive(Clone, Copy, Drop)]
struct Merge {
    name: &'static str,
    lists: &'static [Given],
    direction: Direction,
    take: usize,
    wanted: Given,
    handed: &'static [u64],
}

// Rows with equal keys in several lists. A row that is in two lists comes twice.
const TIES: &[Given] = &[
    &[(7, "d4")],
    &[(7, "d1"), (7, "d5")],
    &[],
    &[(7, "d2"), (7, "d4")],
];

const MERGES: &[Merge] = &[
    Merge {
        name: "nothing is taken",
        lists: TIES,
        direction: Direction::Asc,
        take: 0,
        wanted: &[],
        handed: &[1, 2, 0, 2],
    },
    Merge {
        name: "ties",
        lists: TIES,
        direction: Direction::Asc,
        take: 3,
        wanted: &[(7, "d1"), (7, "d2"), (7, "d4")],
        handed: &[1, 2, 0, 2],
    },
    Merge {
        name: "all of them",
        lists: TIES,
        direction: Direction::Asc,
        take: 9,
        wanted: &[(7, "d1"), (7, "d2"), (7, "d4"), (7, "d4"), (7, "d5")],
        handed: &[1, 2, 0, 2],
    },
    Merge {
        name: "keys and ids descend",
        lists: &[&[(10, "a"), (2, "c")], &[(10, "b"), (2, "b"), (-1, "z")]],
        direction: Direction::Desc,
        take: 4,
        wanted: &[(10, "b"), (10, "a"), (2, "c"), (2, "b")],
        handed: &[2, 3],
    },
    Merge {
        name: "two of five that descend",
        lists: &[
            &[(7, "d4")],
            &[(7, "d5"), (7, "d1")],
            &[(7, "d2")],
            &[(7, "d3")],
        ],
        direction: Direction::Desc,
        take: 2,
        wanted: &[(7, "d5"), (7, "d4")],
        handed: &[1, 2, 1, 1],
    },
    Merge {
        name: "no list",
        lists: &[],
        direction: Direction::Asc,
        take: 5,
        wanted: &[],
        handed: &[],
    },
    Merge {
        name: "a row of two lists",
        lists: &[&[(7, "d1")], &[(7, "d1")]],
        direction: Direction::Asc,
        take: 5,
        wanted: &[(7, "d1"), (7, "d1")],
        handed: &[1, 1],
    },
    // Five documents with one key, on four shards by their numbers: a page of two after a skip of one, and a page of two after `d2`.
    Merge {
        name: "a page after a skip",
        lists: &[
            &[(7, "d4")],
            &[(7, "d1"), (7, "d5")],
            &[(7, "d2")],
            &[(7, "d3")],
        ],
        direction: Direction::Asc,
        take: 3,
        wanted: &[(7, "d1"), (7, "d2"), (7, "d3")],
        handed: &[1, 2, 1, 1],
    },
    Merge {
        name: "a page after a row",
        lists: &[&[(7, "d4")], &[(7, "d5")], &[], &[(7, "d3")]],
        direction: Direction::Asc,
        take: 2,
        wanted: &[(7, "d3"), (7, "d4")],
        handed: &[1, 1, 0, 1],
    },
];

fn row<R: Abort>(rt: &R, alloc: Global, number: i64, id: &str) -> Row {
    let mut key = Vec::new(alloc);
    key.push(Json::Whole(number)).expect(rt, "memory");
    let id = string(rt, alloc, id);
    Row { key, id }
}

fn rows<R: Abort>(rt: &R, alloc: Global, given: &[(i64, &str)]) -> Vec<Row> {
    let mut rows = Vec::new(alloc);
    for (number, id) in given {
        rows.push(row(rt, alloc, *number, id)).expect(rt, "memory");
    }
    rows
}

fn lists<R: Abort>(rt: &R, alloc: Global, given: &[Given]) -> Vec<Vec<Row>> {
    let mut lists = Vec::new(alloc);
    for list in given {
        lists.push(rows(rt, alloc, list)).expect(rt, "memory");
    }
    lists
}

// Whether the merge of the lists gives the wanted rows and the right `Work`. The lists must be in order.
fn merges<R: Abort>(rt: &R, alloc: Global, case: &Merge) -> bool {
    let lists = lists(rt, alloc, case.lists);
    assert!(rt; are_in_order(&lists, case.direction));
    let (found, work) = merge(alloc, &lists, case.direction, case.take).expect(rt, "memory");
    let wanted = rows(rt, alloc, case.wanted);
    found == wanted && work.handed() == case.handed && work.taken() == wanted.len() as u64
}

#[test]
fn a_merge_takes_the_first_rows_of_all_lists(rt: HostRuntime) {
    for case in MERGES {
        check(&rt, merges(&rt, rt.alloc(), case), case.name);
    }
}

#[test]
fn lists_out_of_order_are_found(rt: HostRuntime) {
    let lists = lists(&rt, rt.alloc(), TIES);
    assert!(rt; !are_in_order(&lists, Direction::Desc));
}

#[test]
fn rows_by_key_then_id(rt: HostRuntime) {
    let first = row(&rt, rt.alloc(), 7, "d2");
    assert!(rt; first < row(&rt, rt.alloc(), 7, "d3"));
    assert!(rt; first > row(&rt, rt.alloc(), 5, "d3"));
}
