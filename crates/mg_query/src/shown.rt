//! What a page shows of a document, and the bookmark of a row.
ghost use Rattle.std.specs.Prelude.{◌≡◌, ℕ, true, List, IfOk, string_bytes};
ghost use Rattle.mg_index.specs.Definition.{Steps};
ghost use Rattle.mg_value.specs.View.{view, items_view};
ghost use Rattle.mg_revtree.specs.History.{Paths};
ghost use Rattle.mg_revtree.specs.Tree.{StandsFor};
ghost use Rattle.mg_bookmark.specs.Bookmark.{spelled};
ghost use Rattle.mg_query.specs.Lent.{Lends, shows_whole};
ghost use Rattle.mg_query.specs.Page.{Candidate, ddoc_of, name_of, projected, shown_of};
ghost use Rattle.mg_query.specs.Paged.{shown_view};
ghost use Rattle.mg_query.specs.View.{query_view};
ghost use Rattle.mg_query.specs.Served.{source_view};

use crate::query::Query;
use crate::source::Source;
use mg_bookmark::{BookmarkParts, RowKey};
use mg_collate::Direction;
use mg_doc::with_conflicts;
use mg_packed::{Packed, Part};
use mg_path::{Path, project};
use mg_revtree::RevTree;
use mg_scan::Hit;
use mg_value::{Json, NoMemory};
use std::alloc::Global;

/// A page: what it shows of its documents, and the bookmark of the last one; without documents, the bookmark as the query gave it.
#[derive(Debug, Drop)]
pub struct Page {
    pub docs: Vec<Json>,
    pub bookmark: String,
}

/// A page whose documents are lent where they are shown as they are served, and the bookmark of `Page`.
#[derive(Drop)]
pub struct LentPage<'a> {
    pub docs: Vec<Shown<'a>>,
    pub bookmark: String,
}

/// What a page shows of a document: lent by its shard where it is shown as it is served, made where it is not.
#[derive(Drop)]
pub enum Shown<'a> {
    Lent(Part<'a>),
    Made(Packed),
}

impl<'a> Shown<'a> {
    /// Lends the value that is shown. Cost: constant; no memory is taken.
    pub fn part(&self) -> Part<'_>
        ensures { result ≡ shown_view self.now }
    {
        match self {
            Shown::Lent(part) => lend_part(part),
            Shown::Made(block) => block.part(),
        }
    }
}

// Lends a part for as long as it is borrowed here, which may be shorter than its shard lends it.
fn lend_part<'b>(part: &'b Part<'_>) -> Part<'b>
    ensures { result ≡ part.now }
{
    part.lend()
}

// Whether the query shows documents as they are served.
pub(crate) fn is_shown_whole(query: &Query<'_>) -> bool
    ensures { result ≡ shows_whole (query_view query.now) }
{
    !query.conflicts && query.fields.is_empty()
}

// Lends or makes what a query shows of a hit's document. Errors: `NoMemory` if an allocation fails.
pub(crate) fn lend<'a>(
    alloc: Global,
    query: &Query<'_>,
    hit: &Hit<'a>,
) -> Result<Shown<'a>, NoMemory>
    ensures { IfOk result (λ s. (columns : List Steps) (c : Candidate) → Lends columns hit.now c
        → shown_view s ≡ shown_of (query_view query.now) c) }
{
    if is_shown_whole(query) {
        Ok(Shown::Lent(hit.form()))
    } else {
        let block = show_packed(alloc, query, hit)?;
        Ok(Shown::Made(block))
    }
}

// Makes what a query shows of a hit's document, in one block. Errors: `NoMemory` if an allocation fails.
fn show_packed(alloc: Global, query: &Query<'_>, hit: &Hit<'_>) -> Result<Packed, NoMemory>
    ensures { IfOk result (λ block. (columns : List Steps) (c : Candidate) → Lends columns hit.now c
        → block ≡ shown_of (query_view query.now) c) }
{
    let doc = show(alloc, query, hit)?;
    Packed::of(alloc, &doc)
}

// Makes what a query shows of a hit's document: with its conflicts if they are asked for, and only its parts at the fields if any are
// given. Errors: `NoMemory` if an allocation fails.
pub(crate) fn show(alloc: Global, query: &Query<'_>, hit: &Hit<'_>) -> Result<Json, NoMemory>
    ensures { IfOk result (λ v. (columns : List Steps) (c : Candidate) → Lends columns hit.now c
        → view v ≡ shown_of (query_view query.now) c) }
{
    if query.conflicts {
        show_with_conflicts(alloc, query, hit.form(), hit.document().tree())
    } else {
        project_lent(alloc, &query.fields, hit.form())
    }
}

// Makes what a query that asks for conflicts shows of a document with this form and tree. Errors: `NoMemory` if an allocation fails.
fn show_with_conflicts(
    alloc: Global,
    query: &Query<'_>,
    form: Part<'_>,
    tree: &RevTree,
) -> Result<Json, NoMemory>
    requires { query.now.conflicts ≡ true }
    ensures { IfOk result (λ v. (id : List ℕ) (h : Paths) → StandsFor tree.now h
        → view v ≡ shown_of (query_view query.now) (record { id = id; form = form.entry; history = h })) }
{
    let whole = with_conflicts(alloc, form.to_json(alloc)?, tree)?;
    project_owned(alloc, &query.fields, whole)
}

// Returns the parts of a document at the fields; the whole document if no fields are given. Errors: `NoMemory` if an allocation fails.
fn project_owned(alloc: Global, fields: &[Path], document: Json) -> Result<Json, NoMemory>
    ensures { IfOk result (λ v. view v ≡ projected fields.now (view document)) }
{
    if fields.is_empty() {
        Ok(document)
    } else {
        project(alloc, &document, fields)
    }
}

// Copies the parts of a lent document at the fields; the whole document if no fields are given. Errors: `NoMemory` if an allocation fails.
fn project_lent(alloc: Global, fields: &[Path], document: Part<'_>) -> Result<Json, NoMemory>
    ensures { IfOk result (λ v. view v ≡ projected fields.now document.entry) }
{
    if fields.is_empty() {
        document.to_json(alloc)
    } else {
        project(alloc, document, fields)
    }
}

// Makes the bookmark of a row of this key and id, in an index that is read in this direction. Errors: `NoMemory` if an allocation fails.
pub(crate) fn bookmark_of(
    alloc: Global,
    source: Source<'_>,
    direction: Direction,
    key: &[Json],
    id: &str,
) -> Result<String, NoMemory>
    ensures { IfOk result (λ t. string_bytes t ≡ spelled (record {
      ddoc = ddoc_of (source_view source.entry);
      name = name_of (source_view source.entry);
      direction = direction;
      key = items_view key.now;
      id = id.now;
    })) }
{
    let place = BookmarkParts {
        ddoc: source.ddoc(),
        name: source.name(),
        direction,
        key: RowKey::Columns(key),
        id,
    };
    place.spell(alloc)
}
