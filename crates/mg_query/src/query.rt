ghost use Rattle.mg_normal.specs.Normal.{IsNormalOf};
ghost use Rattle.mg_selector.specs.View.{selector_of};
ghost use Rattle.mg_query.specs.Normalized.{IsNormalOf-prop};

use crate::error::QueryError;
use crate::reader::{first_fault, query_in};
use mg_bookmark::Bookmark;
use mg_index::{Hint, Sort};
use mg_normal::Normal;
use mg_path::Path;
use mg_selector::Sel;
use mg_value::Json;
use std::alloc::Global;

/// A query: what the body of a `_find` or an `_explain` asks for. The parts of the body that are shown again are lent from it.
#[derive(Debug, Drop)]
pub struct Query<'a> {
    /// Which documents are asked for.
    pub selector: Sel,
    /// The selector in its normal form, by which an index is chosen and documents are tested.
    pub normal: Normal,
    /// The paths of the parts that a page shows of a document; empty if it shows the whole.
    pub fields: Vec<Path>,
    /// How many documents a page has at most.
    pub limit: u32,
    /// How many documents the page skips before the first one that it shows.
    pub skip: u32,
    /// The order that is asked for.
    pub sort: Sort,
    /// Which indexes are preferred.
    pub hint: Hint,
    /// The place after which the page begins; `None` if it begins with the first document.
    pub bookmark: Option<Bookmark>,
    /// Whether documents are shown with their conflicts.
    pub conflicts: bool,
    /// The selector as it was given.
    pub given_selector: &'a Json,
    /// The fields as they were given; `None` if they were absent.
    pub given_fields: Option<&'a Json>,
    /// The bookmark's text as it was given; `nil` if it was null or absent.
    pub given_bookmark: &'a str,
    ghost is_normal: { IsNormalOf (selector_of selector) normal } by { IsNormalOf-prop (selector_of selector) normal },
}

impl<'a> Query<'a> {
    ghost use Rattle.std.specs.Prelude.{◌≡◌, Err, Some};
    ghost use Rattle.mg_value.specs.View.{view};
    ghost use Rattle.mg_query.specs.Query.{early_fault, query_of};
    ghost use Rattle.mg_query.specs.View.{ReadsAs, query_view};

    /// Reads the body of a `_find` or an `_explain`, an object:
    ///
    /// - `selector`, an object; required.
    /// - `limit` and `skip`, whole numbers from 0 to 2,147,483,647; 25 and 0 if they are absent.
    /// - `sort`, an array whose items are each a path, for ascending order, or `{path: "asc"}` or `{path: "desc"}`; empty if it is absent.
    /// - `fields`, an array whose items are paths. If it is absent or empty, documents are shown whole.
    /// - `use_index`, a design document, or an array: `[]`, `[ddoc]` or `[ddoc, name]`; `ddoc` may lack `_design/`.
    ///   If it is absent or `[]`, no index is preferred.
    /// - `conflicts`, true or false; false if it is absent.
    /// - `bookmark`, a text; `nil`, for the first page, if it is null or absent.
    ///
    /// Other members are ignored.
    ///
    /// Errors, in this order: `Shape` for any other body, or a path of `sort` or `fields` with an empty step; the selector's first fault,
    /// `InvalidOperator` or `BadArg`; `BadBookmark` if the text is not a bookmark; `MixedSort` for a sort in both directions. `NoMemory` if
    /// an allocation fails, and never in place of a fault that is found without memory: a wrong shape, the selector's fault, `BadBookmark`
    /// for a text with a letter that no bookmark has, and `MixedSort` if the bookmark is `nil`. Cost: the size of the selector, the sort,
    /// the fields and the bookmark. Source: `_find` of CouchDB's API reference.
    pub fn read(alloc: Global, body: &'a Json) -> Result<Query<'a>, QueryError>
        ensures query { ReadsAs query_view result (query_of (view body.now)) }
        ensures refused { (e : QueryError) → early_fault (view body.now) ≡ Some e → result ≡ Err e }
    {
        match query_in(alloc, body) {
            Ok(query) => Ok(query),
            Err(fault) => Err(first_fault(body, fault)),
        }
    }
}
