//! Writes the text of a page, part by part. Each `with_` function takes a buffer and returns it with its part appended. Errors: `NoMemory`
//! if an allocation fails; then the buffer is dropped.
ghost use Rattle.std.specs.Prelude.{◌≡◌, ◌++◌, List, [], ◌∷◌, IfOk, IfSome, map, nat_lt, if◌then◌else◌};
ghost use Rattle.json.specs.Print.{quoted};
ghost use Rattle.mg_value.specs.Text.{compact};
ghost use Rattle.mg_value.specs.Value.{list};
ghost use Rattle.mg_value.specs.View.{items_of};
ghost use Rattle.mg_index.specs.Definition.{Steps};
ghost use Rattle.mg_scan.specs.Hit.{hit_text};
ghost use Rattle.mg_query.specs.Page.{Candidate, page_value, shown_of};
ghost use Rattle.mg_query.specs.Lent.{LendEach, Lends};
ghost use Rattle.mg_query.specs.View.{query_view};

use crate::query::Query;
use crate::shown::{is_shown_whole, show};
use json::Writer;
use mg_scan::Hit;
use mg_value::{NoMemory, write};
use std::alloc::Global;

// Room for what a page has besides documents that are shown whole: a bookmark of some 100 bytes, or a few documents that are shown in part.
const PAGE_ROOM: usize = 2048;

// Writes the text of the page that shows the documents of these hits and has this bookmark.
pub(crate) fn text_with(
    alloc: Global,
    query: &Query<'_>,
    bookmark: &str,
    hits: &[Hit<'_>],
) -> Result<Vec<u8>, NoMemory>
    ensures { IfOk result (λ t. (columns : List Steps) (cs : List Candidate) → LendEach columns hits.now cs
        → t.items ≡ compact (page_value (record {
          docs = map (shown_of (query_view query.now)) cs;
          bookmark = bookmark.now;
        }))) }
{
    let mut out = Vec::with_capacity(alloc, first_room(query, hits))?;
    out.extend_from_slice(b"{\"bookmark\":")?;
    let mut out = with_string(out, bookmark)?;
    out.extend_from_slice(b",\"docs\":")?;
    let mut out = with_documents(alloc, query, out, hits)?;
    out.push(b'}')?;
    Ok(out)
}

// How many bytes are allocated at first: the text of most pages that show documents of one size whole fits. One document is looked up.
fn first_room(query: &Query<'_>, hits: &[Hit<'_>]) -> usize {
    match hits.first() {
        Some(hit) if is_shown_whole(query) => {
            let document = hit.compact_text().len().saturating_add(1);
            hits.len()
                .saturating_mul(document)
                .saturating_add(PAGE_ROOM)
        }
        _ => PAGE_ROOM,
    }
}

fn with_string(out: Vec<u8>, text: &str) -> Result<Vec<u8>, NoMemory>
    ensures { IfOk result (λ b. b.items ≡ out.items ++ quoted text.now) }
{
    let mut writer = Writer::new(out);
    writer.string(text)?;
    Ok(writer.into_inner())
}

// Appends what the page shows of the documents, as an array.
fn with_documents(
    alloc: Global,
    query: &Query<'_>,
    mut out: Vec<u8>,
    hits: &[Hit<'_>],
) -> Result<Vec<u8>, NoMemory>
    ensures { IfOk result (λ b. (columns : List Steps) (cs : List Candidate) → LendEach columns hits.now cs
        → b.items ≡ out.items ++ compact (list (items_of (map (shown_of (query_view query.now)) cs)))) }
{
    out.push(b'[')?;
    for (place, hit) in hits.iter().enumerate() {
        let begun = with_comma(out, place)?;
        out = with_document(alloc, query, begun, hit)?;
    }
    out.push(b']')?;
    Ok(out)
}

/// Appends the comma before the item at this position, counted from 0; nothing before the first item.
///
/// Errors: `NoMemory` if an allocation fails; then the buffer is dropped.
pub fn with_comma(mut out: Vec<u8>, place: usize) -> Result<Vec<u8>, NoMemory>
    ensures { IfOk result (λ b. b.items ≡ out.items ++ (if nat_lt 0 place then 44 ∷ [] else [])) }
{
    if place > 0 {
        out.push(b',')?;
    }
    Ok(out)
}

// Appends what the page shows of one document.
fn with_document(
    alloc: Global,
    query: &Query<'_>,
    out: Vec<u8>,
    hit: &Hit<'_>,
) -> Result<Vec<u8>, NoMemory>
    ensures { IfOk result (λ b. (columns : List Steps) (c : Candidate) → Lends columns hit.now c
        → b.items ≡ out.items ++ compact (shown_of (query_view query.now) c)) }
{
    if is_shown_whole(query) {
        with_kept(out, hit)
    } else {
        with_shown(alloc, query, out, hit)
    }
}

// Appends the text that the shard keeps of a document, as it is served.
fn with_kept(mut out: Vec<u8>, hit: &Hit<'_>) -> Result<Vec<u8>, NoMemory>
    ensures { IfOk result (λ b. IfSome (hit_text hit.now) (λ t. b.items ≡ out.items ++ t)) }
{
    out.extend_from_slice(hit.compact_text())?;
    Ok(out)
}

// Appends the text of what the page shows of a document, made from its value: the query asks for parts of it, or for its conflicts.
fn with_shown(
    alloc: Global,
    query: &Query<'_>,
    mut out: Vec<u8>,
    hit: &Hit<'_>,
) -> Result<Vec<u8>, NoMemory>
    ensures { IfOk result (λ b. (columns : List Steps) (c : Candidate) → Lends columns hit.now c
        → b.items ≡ out.items ++ compact (shown_of (query_view query.now) c)) }
{
    let doc = show(alloc, query, hit)?;
    let text = write(alloc, &doc)?;
    out.extend_from_slice(&text)?;
    Ok(out)
}
