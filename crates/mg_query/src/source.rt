//! Chooses the index that serves a query, and checks that the query's bookmark belongs to it.
ghost use Rattle.std.specs.Prelude.{◌≡◌, List, Err, Some, true, IfOk, IfSome, length, option_map};
ghost use Rattle.mg_value.specs.View.{view, items_view};
ghost use Rattle.mg_value.specs.Value.{item_list};
ghost use Rattle.mg_bookmark.specs.View.{bookmark_place};
ghost use Rattle.mg_index.specs.Choice.{all_docs, choice_of, id_path};
ghost use Rattle.mg_index.specs.Definition.{IndexDefinition};
ghost use Rattle.mg_range.specs.Range.{range_of};
ghost use Rattle.mg_scan.specs.Found.{target_columns};
ghost use Rattle.mg_query.specs.Read.{is_decided};
ghost use Rattle.mg_query.specs.Explain.{listed_source};
ghost use Rattle.mg_query.specs.Page.{Unanswered, source_columns, ddoc_of, accepts_bookmark, is_same_ddoc, fits_source, name_of, served_by};
ghost use Rattle.mg_query.specs.View.{query_view};
ghost use Rattle.mg_query.specs.Served.{PageAnswers, IsInCatalog, error_of, source_view};

use crate::error::PageError;
use crate::query::Query;
use mg_bookmark::Bookmark;
use mg_index::{Catalog, Choice, IndexDef, all_docs_listed, choose};
use mg_normal::Normal;
use mg_path::{Path, PathError};
use mg_range::{KeyRange, decides};
use mg_scan::TargetRef;
use mg_shard::IndexRef;
use mg_value::{Json, NoMemory};
use std::alloc::Global;

// The column of the index of all documents.
const ID_COLUMN: &str = "_id";

// The name of the index of all documents.
const ALL_DOCS: &str = "_all_docs";

// The index that serves a query: that of all documents, or a defined one, lent by its catalog, and its place there.
#[derive(Clone, Copy)]
pub(crate) enum Source<'a> {
    AllDocs,
    Defined(&'a IndexDef, usize),
}

// Chooses the index that serves the query. Takes no memory. Errors: `NoUsableIndex` if no index is usable; otherwise `BadBookmark` if the
// query's bookmark does not belong to the chosen index.
pub(crate) fn served_by<'a>(
    query: &Query<'_>,
    catalog: &'a Catalog,
) -> Result<Source<'a>, PageError>
    ensures answers { PageAnswers source_view result (served_by catalog.now (query_view query.now)) }
    ensures refused { (why : Unanswered) → served_by catalog.now (query_view query.now) ≡ Err why
        → result ≡ Err (error_of why) }
    ensures listed { IfOk result (λ s. IsInCatalog catalog.now (source_view s)) }
{
    let Some(source) = choose_source(query, catalog) else {
        return Err(PageError::NoUsableIndex);
    };
    if accepts_bookmark(source, query) {
        Ok(source)
    } else {
        Err(PageError::BadBookmark)
    }
}

// Chooses the usable index that is preferred; `None` if no index is usable.
fn choose_source<'a>(query: &Query<'_>, catalog: &'a Catalog) -> Option<Source<'a>>
    ensures chosen { choice_of catalog.now query.now.normal.atoms (query_view query.now).sort
        (query_view query.now).hint ≡ option_map source_view result }
    ensures listed { IfSome result (λ s. IsInCatalog catalog.now (source_view s)) }
{
    match choose(catalog, &query.normal, &query.sort, &query.hint) {
        Ok(Choice::AllDocs) => Some(Source::AllDocs),
        Ok(Choice::Index(place)) => Some(Source::Defined(&catalog.list()[place], place)),
        Err(_) => None,
    }
}

// Whether the query's bookmark belongs to the index, read in the query's direction; true without a bookmark.
fn accepts_bookmark(source: Source<'_>, query: &Query<'_>) -> bool
    ensures { result ≡ accepts_bookmark (source_view source.entry) (query_view query.now) }
{
    match &query.bookmark {
        Some(bookmark) => fits_source(source, query, bookmark),
        None => true,
    }
}

fn fits_source(source: Source<'_>, query: &Query<'_>, bookmark: &Bookmark) -> bool
    ensures { result ≡ fits_source (source_view source.entry) (query_view query.now)
        (bookmark_place bookmark.now) }
{
    is_same_ddoc(bookmark.ddoc.as_deref(), source.ddoc())
        && bookmark.name.as_str() == source.name()
        && bookmark.direction == query.sort.direction
        && key_width(&bookmark.key) == source.width()
}

// How many values a key has.
fn key_width(key: &[Json]) -> usize
    ensures { result ≡ length (item_list (items_view key.now)) }
{
    key.len()
}

fn is_same_ddoc(a: Option<&str>, b: Option<&str>) -> bool
    ensures { result ≡ is_same_ddoc (option_map (λ t. t.now) a.entry) (option_map (λ t. t.now) b.entry) }
{
    match (a, b) {
        (None, None) => true,
        (Some(a), Some(b)) => a == b,
        _ => false,
    }
}

impl<'a> Source<'a> {
    // Returns the design document of the index; `None` for the index of all documents.
    pub(crate) fn ddoc(self) -> Option<&'a str>
        ensures { option_map (λ t. t.now) result ≡ ddoc_of (source_view self.entry) }
    {
        match self {
            Source::AllDocs => None,
            Source::Defined(definition, _) => Some(definition.ddoc()),
        }
    }

    pub(crate) fn name(self) -> &'a str
        ensures { result.now ≡ name_of (source_view self.entry) }
    {
        match self {
            Source::AllDocs => ALL_DOCS,
            Source::Defined(definition, _) => definition.name(),
        }
    }

    // How many columns the index has.
    pub(crate) fn width(self) -> usize
        ensures { result ≡ length (source_columns (source_view self.entry)) }
    {
        match self {
            Source::AllDocs => 1,
            Source::Defined(definition, _) => definition.columns().len(),
        }
    }

    // Returns the target of a search in this index, for each shard that has the index.
    pub(crate) fn target(self) -> TargetRef<'a>
        ensures { (ds : List IndexDefinition) → IsInCatalog ds (source_view self.entry)
            → target_columns result ds ≡ Some (source_columns (source_view self.entry)) }
    {
        match self {
            Source::AllDocs => TargetRef::AllDocs,
            Source::Defined(definition, place) => TargetRef::Index(IndexRef {
                ddoc: definition.ddoc(),
                name: definition.name(),
                place,
            }),
        }
    }

    // Makes the range of keys that a query with this selector has to read in this index, and tells whether it decides the whole selector, so
    // that no document has to be tested. Errors: `NoMemory` if an allocation fails.
    pub(crate) fn range(self, alloc: Global, normal: &Normal) -> Result<(KeyRange, bool), NoMemory>
        ensures range { IfOk result
            (λ r. r.0 ≡ range_of normal.now.atoms (source_columns (source_view self.entry))) }
        ensures decided { IfOk result
            (λ r. r.1 ≡ is_decided (source_columns (source_view self.entry)) normal.now) }
    {
        match self {
            Source::AllDocs => id_range(alloc, normal),
            Source::Defined(definition, _) => range_at(alloc, definition.columns(), normal),
        }
    }

    // Renders the index as it is listed. Errors: `NoMemory` if an allocation fails.
    pub(crate) fn listed(self, alloc: Global) -> Result<Json, NoMemory>
        ensures { IfOk result (λ v. view v ≡ listed_source (source_view self.entry)) }
    {
        match self {
            Source::AllDocs => all_docs_listed(alloc),
            Source::Defined(definition, _) => definition.listed(alloc),
        }
    }
}

// Makes the range of keys in the index of all documents, and tells whether it decides the selector. Errors: `NoMemory`.
fn id_range(alloc: Global, normal: &Normal) -> Result<(KeyRange, bool), NoMemory>
    ensures range { IfOk result (λ r. r.0 ≡ range_of normal.now.atoms (source_columns all_docs)) }
    ensures decided { IfOk result (λ r. r.1 ≡ is_decided (source_columns all_docs) normal.now) }
{
    let columns = vec![in alloc; id_column(alloc)?]?;
    range_at(alloc, &columns, normal)
}

// Makes the range of keys at these columns, and tells whether it decides the selector. Errors: `NoMemory` if an allocation fails.
fn range_at(alloc: Global, columns: &[Path], normal: &Normal) -> Result<(KeyRange, bool), NoMemory>
    ensures range { IfOk result (λ r. r.0 ≡ range_of normal.now.atoms columns.now) }
    ensures decided { IfOk result (λ r. r.1 ≡ is_decided columns.now normal.now) }
{
    let range = KeyRange::of(alloc, columns, normal)?;
    let is_decided = !normal.has_rest() && decides(columns, normal.atoms());
    Ok((range, is_decided))
}

fn id_column(alloc: Global) -> Result<Path, NoMemory>
    ensures { IfOk result (λ path. path ≡ id_path) }
{
    match Path::parse(alloc, ID_COLUMN) {
        Ok(path) => Ok(path),
        Err(PathError::NoMemory) => Err(NoMemory),
        Err(PathError::Empty) => unreachable!(),
    }
}
