//! A packed value (in one block), whose parts were worked out by hand. It has an empty array, an empty object, a text with an escape, a
//! text beyond ASCII, a negative number, and a name that is a prefix of another.
use crate::given::{check, json};
use mg_packed::{Array, Kind, Object, Packed, Part};
use mg_path::Path;
use std::alloc::Global;
use std::process::Abort;

const GIVEN: &str =
    r#" { "n" : {"":0}, "list": [-7,"q\"",null,true,[false,"\u00e9"]], "ab":{}, "a":[] } "#;

// The compact text of the value: no white space, and members in the order of their names.
pub(crate) const COMPACT: &str =
    r#"{"a":[],"ab":{},"list":[-7,"q\"",null,true,[false,"é"]],"n":{"":0}}"#;

// The names of the members in order, with the texts of their values; `None`: there is no such member.
const MEMBERS: &[(&str, Option<&str>)] = &[
    ("a", Some("[]")),
    ("ab", Some("{}")),
    ("list", Some(r#"[-7,"q\"",null,true,[false,"é"]]"#)),
    ("n", Some(r#"{"":0}"#)),
    ("", None),
    ("abc", None),
    ("o", None),
];

// Paths and the texts of the parts at them; `None`: there is no such part.
const PARTS: &[(&str, Option<&str>)] = &[
    ("ab", Some("{}")),
    ("list.0", Some("-7")),
    ("list.1", Some(r#""q\"""#)),
    ("list.2", Some("null")),
    ("list.4.1", Some(r#""é""#)),
    ("list.4.2", None),
    ("list.5", None),
    ("list.00", None),
    ("list.n", None),
    ("list.0.0", None),
    ("a.0", None),
    ("n.a", None),
];

pub(crate) fn block<R: Abort>(rt: &R, alloc: Global) -> Packed {
    let value = json(rt, alloc, GIVEN);
    Packed::of(alloc, &value).expect(rt, "memory")
}

// Whether the part exists and has this text; without a text, whether there is no part.
pub(crate) fn is_part<R: Abort>(
    rt: &R,
    alloc: Global,
    part: Option<Part<'_>>,
    text: Option<&str>,
) -> bool {
    match (part, text) {
        (Some(part), Some(text)) => {
            let found = part.compact_text(alloc).expect(rt, "memory");
            found.as_slice() == text.as_bytes()
        }
        (None, None) => true,
        _ => false,
    }
}

fn is_at<R: Abort>(
    rt: &R,
    alloc: Global,
    whole: &Part<'_>,
    path: &str,
    text: Option<&str>,
) -> bool {
    let path = Path::parse(alloc, path).expect(rt, "memory");
    is_part(rt, alloc, whole.get(&path), text)
}

// Returns the item at a place, found by `item`; `None` past the last item.
fn item_at<'a>(items: &Array<'a>, place: usize) -> Option<Part<'a>> {
    if place < items.len() {
        Some(items.item(place))
    } else {
        None
    }
}

// Whether the item has the kind expected at that place of the list.
fn is_item(place: usize, item: &Part<'_>) -> bool {
    match (place, item.kind()) {
        (0, Kind::Whole(number)) => number == -7,
        (1, Kind::Text(text)) => text == "q\"",
        (2, Kind::Null) => true,
        (3, Kind::Flag(flag)) => flag,
        (4, Kind::List(items)) => items.len() == 2,
        _ => false,
    }
}

// Whether both `item` and `get` find the five items of the list, and there is no sixth.
fn has_items(list: &Part<'_>) -> bool {
    let Kind::List(items) = list.kind() else {
        return false;
    };
    for place in 0..5 {
        let (Some(item), Some(same)) = (item_at(&items, place), items.get(place)) else {
            return false;
        };
        if !is_item(place, &item) || !is_item(place, &same) {
            return false;
        }
    }
    items.len() == 5 && items.get(5).is_none()
}

// Returns the name and the value of the member at a place; `None` past the last member.
fn member_at<'a>(members: &Object<'a>, place: usize) -> Option<(&'a str, Part<'a>)> {
    if place < members.len() {
        Some((members.name(place), members.value(place)))
    } else {
        None
    }
}

// Whether the member of `MEMBERS` at this place is found by its place and by its name, in the object and in the part; for a member that
// does not exist, whether it is not found.
fn is_member<R: Abort>(rt: &R, alloc: Global, whole: &Part<'_>, place: usize) -> bool {
    let Kind::Object(members) = whole.lend().kind() else {
        return false;
    };
    let Some((name, text)) = MEMBERS.get(place) else {
        return false;
    };
    let by_place = match member_at(&members, place) {
        Some((found, value)) => found == *name && is_part(rt, alloc, Some(value), *text),
        None => text.is_none(),
    };
    by_place
        && is_part(rt, alloc, members.get(*name), *text)
        && is_part(rt, alloc, whole.member(*name), *text)
}

#[test]
fn parts_are_found_by_names_places_and_paths(rt: HostRuntime) {
    let packed = block(&rt, rt.alloc());
    let whole = packed.part();
    for place in 0..MEMBERS.len() {
        check(&rt, is_member(&rt, rt.alloc(), &whole, place), "a member");
    }
    for (path, text) in PARTS {
        check(&rt, is_at(&rt, rt.alloc(), &whole, path, *text), path);
    }
    match whole.member("list") {
        Some(list) => check(&rt, has_items(&list), "the items"),
        None => check(&rt, false, "the list"),
    }
}
