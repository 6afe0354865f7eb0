//! The members of a query's body, lent from the body. Only `to_hint` takes memory.
ghost use Rattle.std.specs.Prelude.{◌≡◌, Some, map, option_map};
ghost use Rattle.mg_value.specs.Value.{item, list, no_items, whole};
ghost use Rattle.mg_value.specs.View.{view, items_view};
ghost use Rattle.mg_query.specs.Given.{given, given_view, hint_view};
ghost use Rattle.mg_query.specs.Query.{bookmark_given, conflicts_of, count_of, hint_given, selector_given, items_given};
ghost use Rattle.mg_query.specs.View.{optional_view};

use mg_index::{Hint, design_document};
use mg_value::{Json, NoMemory};
use std::alloc::Global;

// The greatest `limit` and `skip`.
const GREATEST_COUNT: i64 = 2_147_483_647;

// The bookmark that stands for the first page.
pub(crate) const NO_BOOKMARK: &str = "nil";

// The members of a body whose shapes are right, apart from the items of `fields` and `sort`: these are checked later, and the selector and
// the bookmark are read later.
#[derive(Clone, Copy, Debug)]
pub(crate) struct Members<'a> {
    pub(crate) selector: &'a Json,
    pub(crate) fields: &'a [Json],
    pub(crate) limit: u32,
    pub(crate) skip: u32,
    pub(crate) sort: &'a [Json],
    pub(crate) hint: GivenHint<'a>,
    pub(crate) bookmark: &'a str,
    pub(crate) conflicts: bool,
}

// `use_index` as it is given: nothing (absent or `[]`), a design document, or a design document and a name.
#[derive(Clone, Copy, Debug)]
pub(crate) enum GivenHint<'a> {
    None,
    Ddoc(&'a str),
    Both(&'a str, &'a str),
}

// Returns the members of a body; `None` if the body is not an object, `selector` is missing, or a member has a wrong shape.
pub(crate) fn members_in(body: &Json) -> Option<Members<'_>>
    ensures { option_map given_view result ≡ given (view body.now) }
{
    let selector = selector_given(body.member("selector"))?;
    let fields = array_given(body.member("fields"))?;
    let limit = count_given(25, body.member("limit"))?;
    let skip = count_given(0, body.member("skip"))?;
    let sort = array_given(body.member("sort"))?;
    let hint = hint_given(body.member("use_index"))?;
    let bookmark = bookmark_given(body.member("bookmark"))?;
    let conflicts = conflicts_given(body.member("conflicts"))?;
    Some(Members {
        selector,
        fields,
        limit,
        skip,
        sort,
        hint,
        bookmark,
        conflicts,
    })
}

// Returns `selector`; `None` if it is missing, or is not an object.
fn selector_given<'a>(value: Option<&'a Json>) -> Option<&'a Json>
    ensures { option_map (λ v. view v.now) result ≡ selector_given (optional_view value.entry) }
{
    match value {
        Some(selector) => object_in(selector),
        None => None,
    }
}

fn object_in(value: &Json) -> Option<&Json>
    ensures { option_map (λ v. view v.now) result ≡ selector_given (Some (view value.now)) }
{
    match value {
        Json::Object(_) => Some(value),
        _ => None,
    }
}

// Returns the items of a member that is an array; no items if it is absent, and `None` if it is anything else.
fn array_given<'a>(value: Option<&'a Json>) -> Option<&'a [Json]>
    ensures { option_map (λ items. map view items.now) result ≡ items_given (optional_view value.entry) }
{
    match value {
        None => Some(&[]),
        Some(value) => items_in(value),
    }
}

fn items_in(value: &Json) -> Option<&[Json]>
    ensures { option_map (λ items. map view items.now) result ≡ items_given (Some (view value.now)) }
{
    match value {
        Json::List(items) => some_items(items),
        _ => None,
    }
}

fn some_items(items: &[Json]) -> Option<&[Json]>
    ensures { option_map (λ items. map view items.now) result
        ≡ items_given (Some (list (items_view items.now))) }
{
    Some(items)
}

// Returns `limit` or `skip`, a whole number from 0 to `GREATEST_COUNT`; `otherwise` if it is absent, and `None` if it is anything else.
fn count_given(otherwise: u32, value: Option<&Json>) -> Option<u32>
    ensures { result ≡ count_of otherwise (optional_view value.entry) }
{
    match value {
        None => Some(otherwise),
        Some(Json::Whole(count)) => count_in(otherwise, *count),
        Some(_) => None,
    }
}

fn count_in(_otherwise: u32, count: i64) -> Option<u32>
    ensures { result ≡ count_of _otherwise (Some (whole count)) }
{
    if 0 <= count && count <= GREATEST_COUNT {
        Some(count as u32)
    } else {
        None
    }
}

// Returns `use_index`: a design document, or an array: `[]`, `[ddoc]` or `[ddoc, name]`; no hint if it is absent, and `None` if it is
// anything else.
fn hint_given<'a>(value: Option<&'a Json>) -> Option<GivenHint<'a>>
    ensures { option_map hint_view result ≡ hint_given (optional_view value.entry) }
{
    match value {
        None => Some(GivenHint::None),
        Some(Json::Text(ddoc)) => Some(GivenHint::Ddoc(ddoc.as_str())),
        Some(Json::List(parts)) => hint_in(parts),
        Some(_) => None,
    }
}

fn hint_in(parts: &[Json]) -> Option<GivenHint<'_>>
    ensures { option_map hint_view result ≡ hint_given (Some (list (items_view parts.now))) }
{
    match parts {
        [] => Some(GivenHint::None),
        [ddoc] => hint_by_ddoc(ddoc),
        [ddoc, name] => hint_by_both(ddoc, name),
        _ => None,
    }
}

fn hint_by_ddoc(ddoc: &Json) -> Option<GivenHint<'_>>
    ensures { option_map hint_view result ≡ hint_given (Some (list (item (view ddoc.now) no_items))) }
{
    match ddoc {
        Json::Text(ddoc) => Some(GivenHint::Ddoc(ddoc.as_str())),
        _ => None,
    }
}

fn hint_by_both<'a>(ddoc: &'a Json, name: &'a Json) -> Option<GivenHint<'a>>
    ensures { option_map hint_view result
        ≡ hint_given (Some (list (item (view ddoc.now) (item (view name.now) no_items)))) }
{
    match (ddoc, name) {
        (Json::Text(ddoc), Json::Text(name)) => {
            Some(GivenHint::Both(ddoc.as_str(), name.as_str()))
        }
        _ => None,
    }
}

// Returns `bookmark`, a text; `nil` if it is null or absent, and `None` if it is anything else.
fn bookmark_given<'a>(value: Option<&'a Json>) -> Option<&'a str>
    ensures { option_map (λ t. t.now) result ≡ bookmark_given (optional_view value.entry) }
{
    match value {
        None => Some(NO_BOOKMARK),
        Some(Json::Null) => Some(NO_BOOKMARK),
        Some(Json::Text(bookmark)) => Some(bookmark.as_str()),
        Some(_) => None,
    }
}

// Returns `conflicts`, true or false; false if it is absent, and `None` if it is anything else.
fn conflicts_given(value: Option<&Json>) -> Option<bool>
    ensures { result ≡ conflicts_of (optional_view value.entry) }
{
    match value {
        None => Some(false),
        Some(Json::Flag(conflicts)) => Some(*conflicts),
        Some(_) => None,
    }
}

impl GivenHint<'_> {
    ghost use Rattle.std.specs.Prelude.{IfOk};
    ghost use Rattle.mg_index.specs.View.{hint_of};

    // Copies the hint, with `_design/` put before a design document that does not begin with it. Errors: `NoMemory` if an allocation fails.
    pub(crate) fn to_hint(self, alloc: Global) -> Result<Hint, NoMemory>
        ensures { IfOk result (λ hint. hint_of hint ≡ hint_view self.entry) }
    {
        match self {
            GivenHint::None => Ok(Hint::None),
            GivenHint::Ddoc(ddoc) => Ok(Hint::Ddoc(design_document(alloc, ddoc)?)),
            GivenHint::Both(ddoc, name) => {
                let ddoc = design_document(alloc, ddoc)?;
                let name = String::from_str(alloc, name)?;
                Ok(Hint::Both(ddoc, name))
            }
        }
    }
}
