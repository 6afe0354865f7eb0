//! A bookmark is written as a text and read back. The program itself writes the text from parts that it borrows. The expected text is
//! URL-safe base64 of a JSON array, computed by another program. Other tests of bookmarks are in tests/conversations/queries.txt.
use crate::given::string;
use mg_bookmark::{Bookmark, BookmarkError};
use mg_collate::Direction;
use mg_value::Json;
use std::alloc::Global;
use std::process::Abort;

// `["_design/by","price","desc",[5],"pear"]`
const TEXT: &str = "WyJfZGVzaWduL2J5IiwicHJpY2UiLCJkZXNjIixbNV0sInBlYXIiXQ";

fn bookmark_of_pear<R: Abort>(rt: &R, alloc: Global) -> Bookmark {
    let mut key = Vec::new(alloc);
    key.push(Json::Whole(5)).expect(rt, "memory");
    Bookmark {
        ddoc: Some(string(rt, alloc, "_design/by")),
        name: string(rt, alloc, "price"),
        direction: Direction::Desc,
        key,
        id: string(rt, alloc, "pear"),
    }
}

#[test]
fn a_bookmark_is_written(rt: HostRuntime) {
    let alloc = rt.alloc();
    let text = bookmark_of_pear(&rt, alloc)
        .encode(alloc)
        .expect(&rt, "memory");
    assert!(rt; text.as_str() == TEXT);
}

// Whether this is the design document of the index in `TEXT`.
fn is_by(ddoc: &Option<String>) -> bool {
    match ddoc {
        Some(name) => name.as_str() == "_design/by",
        None => false,
    }
}

#[test]
fn a_bookmark_is_read_back(rt: HostRuntime) {
    let alloc = rt.alloc();
    let Ok(Some(read)) = Bookmark::decode(alloc, TEXT) else {
        rt.panic("no bookmark")
    };
    assert!(rt; is_by(&read.ddoc) && read.name.as_str() == "price" && read.id.as_str() == "pear");
    assert!(rt;
        read.direction == Direction::Desc && read.key.as_slice() == [Json::Whole(5)].as_slice()
    );
}

// `[null,"_all_docs","asc",["d1"],"d1"]`
const OF_D1: &str = "W251bGwsIl9hbGxfZG9jcyIsImFzYyIsWyJkMSJdLCJkMSJd";

// The text above with padding; `[1]`; the JSON above with a space after its first comma; and no text.
const INVALID: &[&str] = &[
    "W251bGwsIl9hbGxfZG9jcyIsImFzYyIsWyJkMSJdLCJkMSJd=",
    "WzFd",
    "W251bGwsICJfYWxsX2RvY3MiLCJhc2MiLFsiZDEiXSwiZDEiXQ",
    "",
];

// Whether these are the five parts of the bookmark of `d1`.
fn is_of_d1<R: Abort>(rt: &R, alloc: Global, bookmark: &Bookmark) -> bool {
    let id = Json::Text(string(rt, alloc, "d1"));
    bookmark.ddoc.is_none()
        && bookmark.name.as_str() == "_all_docs"
        && bookmark.direction == Direction::Asc
        && bookmark.key.as_slice() == [id].as_slice()
        && bookmark.id.as_str() == "d1"
}

#[test]
fn bookmark_spelling(rt: HostRuntime) {
    let alloc = rt.alloc();
    assert!(rt; matches!(Bookmark::decode(alloc, "nil"), Ok(None)));
    let Ok(Some(bookmark)) = Bookmark::decode(alloc, OF_D1) else {
        rt.panic("no bookmark")
    };
    assert!(rt; is_of_d1(&rt, alloc, &bookmark));
    for text in INVALID {
        let decoded = Bookmark::decode(alloc, text);
        assert!(rt; matches!(decoded, Err(BookmarkError::Invalid)));
    }
}
