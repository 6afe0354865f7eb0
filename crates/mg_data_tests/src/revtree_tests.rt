//! Trees and documents by values: the list of leaves, a made revision, an edit, and the served document as a `Json`. The program shows only
//! the winner, read from its block, and the conflicts.
//! Other tests of trees are in tests/trees.py and tests/conversations/revisions.txt.
use crate::given::{json, string};
use mg_doc::{Edit, rev_id, served};
use mg_revtree::{History, Rev, RevTree, TreeError};
use mg_value::Json;
use std::alloc::Global;
use std::process::Abort;

// The ids of three roots, and whether they are deleted.
const ROOTS: &[(&str, bool)] = &[("d", true), ("b", false), ("c", false)];

fn path_of<R: Abort>(rt: &R, alloc: Global, id: &str) -> History {
    let mut ids = Vec::new(alloc);
    ids.push(string(rt, alloc, id)).expect(rt, "memory");
    History::new(1, ids).expect(rt, "a path")
}

fn tree_of_roots<R: Abort>(rt: &R, alloc: Global) -> RevTree {
    let mut tree = RevTree::new(alloc);
    for (id, deleted) in ROOTS {
        let path = path_of(rt, alloc, id);
        let _ = tree.merge(&path, *deleted, Json::Null);
    }
    tree
}

fn are_best_first<R: Abort>(rt: &R, tree: &RevTree) -> bool {
    let leaves = tree.leaves().expect(rt, "memory");
    match leaves.as_slice() {
        [first, second, third] => {
            first.rev.id.as_str() == "c"
                && second.rev.id.as_str() == "b"
                && third.rev.id.as_str() == "d"
        }
        _ => false,
    }
}

#[test]
fn leaves_are_listed_best_first(rt: HostRuntime) {
    let tree = tree_of_roots(&rt, rt.alloc());
    assert!(rt; are_best_first(&rt, &tree));
}

// Makes a tree of one revision, 1-x.
fn tree_of_one<R: Abort>(rt: &R, alloc: Global, deleted: bool, body: &str) -> RevTree {
    let mut tree = RevTree::new(alloc);
    let path = path_of(rt, alloc, "x");
    let merged = tree.merge(&path, deleted, json(rt, alloc, body));
    assert!(rt; merged.is_ok());
    tree
}

#[test]
fn a_served_document_has_its_id_and_revision(rt: HostRuntime) {
    let alloc = rt.alloc();
    let tree = tree_of_one(&rt, alloc, false, r#"{"price":3}"#);
    let form = served(alloc, "pear", &tree).expect(&rt, "memory");
    assert!(rt; form == Some(json(&rt, alloc, r#"{"_id":"pear","_rev":"1-x","price":3}"#)));
}

#[test]
fn a_deleted_document_is_not_served(rt: HostRuntime) {
    let alloc = rt.alloc();
    let tree = tree_of_one(&rt, alloc, true, "{}");
    let form = served(alloc, "pear", &tree).expect(&rt, "memory");
    assert!(rt; form.is_none());
}

#[test]
fn a_revision_is_made_over_its_leaf(rt: HostRuntime) {
    let alloc = rt.alloc();
    let mut tree = tree_of_one(&rt, alloc, false, "{}");
    let parent = Rev::new(1, string(&rt, alloc, "x"));
    let body = r#"{"price":4}"#;
    let made = tree.extend(
        Some(&parent),
        string(&rt, alloc, "y"),
        false,
        json(&rt, alloc, body),
    );
    assert!(rt; made.is_ok());
    let leaf = tree.winner().expect(&rt, "a winner");
    assert!(rt; leaf.rev.pos == 2 && leaf.rev.id.as_str() == "y");
    assert!(rt; leaf.json(alloc).expect(&rt, "memory") == json(&rt, alloc, body));
    let refused = tree.extend(Some(&parent), string(&rt, alloc, "z"), false, Json::Null);
    assert!(rt; refused.err() == Some(TreeError::NotLeaf));
}

// The MD5 of the text `[false,null,{"price":3}]`, by another implementation.
const ID: &str = "749749be10568cff86006de27e59812b";

#[test]
fn an_edit_makes_the_revision_of_its_body(rt: HostRuntime) {
    let alloc = rt.alloc();
    let Json::Object(members) = json(&rt, alloc, r#"{"_id":"pear","price":3}"#) else {
        rt.panic("an object")
    };
    let edit = Edit::read(alloc, Json::Object(members), true).expect(&rt, "an edit");
    assert!(rt; edit.id() == Some("pear"));
    let mut tree = RevTree::new(alloc);
    let made = edit.apply(alloc, &mut tree).expect(&rt, "a revision");
    assert!(rt; made.pos == 1 && made.id.as_str() == ID);
    let body = json(&rt, alloc, r#"{"price":3}"#);
    let id = rev_id(alloc, false, None, &body).expect(&rt, "memory");
    assert!(rt; id.as_str() == ID);
}
