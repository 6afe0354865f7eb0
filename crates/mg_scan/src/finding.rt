//! What a search finds in a shard, found as it is asked for.
ghost use Rattle.std.specs.Prelude.{◌≡◌, ◌≤◌, ◌∷◌, [], IfNone, IfOk, IfSome, option_map};
ghost use Rattle.mg_scan.specs.Hit.{IsHitOf, hit_row};
ghost use Rattle.mg_scan.specs.RangeEnd.{AreBeforeEnd, EndsOnce};
ghost use Rattle.mg_scan.specs.Kept.{AreKept, AreServed};
ghost use Rattle.mg_scan.specs.Sourced.{IsSourceAfter, IsSourceOf, asked, rest_of, walked_documents, with_selector};
ghost use Rattle.mg_scan.specs.Way.{walked_all_by};
ghost use Rattle.mg_scan.specs.Worked.{AreHitsFound};

use crate::hit::Hit;
use crate::hits::{hit_at_document, hit_at_row};
use crate::range_end::RangeEnd;
use crate::search::{Search, is_late_id};
use crate::source::Source;
use crate::unread::{Unread, unread_after, unread_of};
use mg_merge::RowSource;
use mg_normal::Normal;
use mg_pages::Cursor;
use mg_rows::RowBytes;
use mg_shard::{Documents, Shard};
use mg_value::NoMemory;
use std::alloc::Global;

// A list of hits first gets room for at most this many.
const FIRST_ROOM: usize = 64;

impl<'a, 'b> RowSource<Hit<'a>> for Source<'a, 'b> {
    ghost rest = { rest_of };

    ghost gives = { λ s. IsHitOf s.shard.now };

    fn next(&mut self) -> Option<Hit<'a>> {
        let (shard, search, selector) = (self.shard, self.search, self.selector);
        match &mut self.unread {
            Unread::Rows(rows) => next_of_rows(shard, rows, search, selector, &mut self.range_end),
            Unread::Documents(documents) => next_of_documents(shard, documents, search, selector),
            Unread::Nothing => None,
        }
    }
}

// Reads rows of an index up to the next one that is found, and returns its hit; `None` if the range or the index ends first.
#[inline(always)]
fn next_of_rows<'a>(
    shard: &'a Shard,
    rows: &mut Cursor<'a, RowBytes>,
    search: Search<'_>,
    selector: Option<&Normal>,
    range_end: &mut RangeEnd,
) -> Option<Hit<'a>>
    requires { EndsOnce search rows.old × AreBeforeEnd search rows.old range_end.old.sure
        × AreServed shard.now.documents rows.old }
    ensures found { IfSome result
        (λ f. walked_all_by (with_selector (asked (option_map (λ n. n.now) selector.entry)) search.entry) shard.now.documents rows.old
        ≡ hit_row f ∷ walked_all_by (with_selector (asked (option_map (λ n. n.now) selector.entry)) search.entry) shard.now.documents rows.new) }
    ensures end { IfNone result
        (walked_all_by (with_selector (asked (option_map (λ n. n.now) selector.entry)) search.entry) shard.now.documents rows.old ≡ []) }
    ensures of { IfSome result (IsHitOf shard.now) }
    ensures ordered { EndsOnce search.entry rows.new }
    ensures sure { AreBeforeEnd search.entry rows.new range_end.new.sure }
    ensures served { AreServed shard.now.documents rows.new }
{
    while let Some(row) = rows.next() {
        if range_end.comes_before(search, row, rows) {
            return None;
        }
        let found = hit_at_row(shard, row, selector);
        if found.is_some() {
            return found;
        }
    }
    None
}

// Reads documents up to the next one that is found, and returns its hit; `None` if the range or the list of documents ends first. A
// document that is deleted, or whose form has no `_id`, is passed over.
fn next_of_documents<'a>(
    shard: &'a Shard,
    documents: &mut Documents<'a>,
    search: Search<'_>,
    selector: Option<&Normal>,
) -> Option<Hit<'a>>
    requires { AreKept shard.now.documents documents.old }
    ensures found { IfSome result
        (λ f. walked_documents (with_selector (asked (option_map (λ n. n.now) selector.entry)) search.entry) documents.old
        ≡ hit_row f ∷ walked_documents (with_selector (asked (option_map (λ n. n.now) selector.entry)) search.entry) documents.new) }
    ensures end { IfNone result
        (walked_documents (with_selector (asked (option_map (λ n. n.now) selector.entry)) search.entry) documents.old ≡ []) }
    ensures of { IfSome result (IsHitOf shard.now) }
    ensures kept { AreKept shard.now.documents documents.new }
{
    while let Some(document) = documents.next() {
        let Some(id) = document.id_key() else {
            continue;
        };
        if is_late_id(search, id) {
            return None;
        }
        let found = hit_at_document(shard, document, id, selector);
        if found.is_some() {
            return found;
        }
    }
    None
}

// Returns a source of what a search finds in a shard, if this selector is asked. Cost: finding the index, and one look-up of where to begin.
pub(crate) fn source_of<'a, 'b>(
    shard: &'a Shard,
    search: Search<'b>,
    selector: Option<&'b Normal>,
) -> Source<'a, 'b>
    ensures { IsSourceOf search.entry (asked (option_map (λ n. n.now) selector.entry)) shard.now result }
{
    Source {
        shard,
        unread: unread_of(shard, search),
        search,
        selector,
        range_end: RangeEnd::unknown(),
    }
}

// Returns a source that asks no selector, without its first `count` rows, and `count`. For all documents and for a missing index, returns
// the whole source, and 0. Cost: finding the index, and two look-ups: of where to begin, and of the row after the `count` rows.
pub(crate) fn source_after<'a, 'b>(
    shard: &'a Shard,
    search: Search<'b>,
    count: usize,
) -> (Source<'a, 'b>, usize)
    ensures source { IsSourceAfter result.1 search.entry shard.now result.0 }
    ensures within { result.1 ≤ count }
{
    let (unread, passed) = unread_after(unread_of(shard, search), count);
    let source = Source {
        shard,
        unread,
        search,
        selector: None,
        range_end: RangeEnd::unknown(),
    };
    (source, passed)
}

/// Finds the hits of a search in a shard, at most `take`; no hits if its target is an index that the shard does not have.
///
/// Errors: `NoMemory` if an allocation fails. Cost: finding the index, one look-up of where to begin, then for each row of an index that is
/// read a look-up of its document, and for each document that is read the selector.
pub(crate) fn hits_in<'a>(
    alloc: Global,
    shard: &'a Shard,
    search: Search<'_>,
) -> Result<Vec<Hit<'a>>, NoMemory>
    ensures { IfOk result (λ v. AreHitsFound search.entry shard.now v.items) }
{
    let mut hits = Vec::with_capacity(alloc, search.take.min(FIRST_ROOM))?;
    let mut source = source_of(shard, search, Some(search.normal));
    while hits.len() < search.take {
        let Some(hit) = source.next() else {
            return Ok(hits);
        };
        hits.push(hit)?;
    }
    Ok(hits)
}
