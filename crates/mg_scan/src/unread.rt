//! What a search has still to read in a shard: from where it begins, and after rows that were passed over.
ghost use Rattle.std.specs.Prelude.{◌≤◌, option_map};
ghost use Rattle.mg_index.specs.Catalog.{definition_at};
ghost use Rattle.mg_scan.specs.Begun.{AreBegun, IsBegun, IsBegunIn, IsUnreadAfter};

use crate::begin::Begin;
use crate::search::Search;
use crate::target_ref::TargetRef;
use mg_pages::Cursor;
use mg_rows::RowBytes;
use mg_shard::{Documents, IndexRef, Shard};

/// What a search has still to read in a shard.
#[derive(Drop)]
pub(crate) enum Unread<'a> {
    /// Rows of an index.
    Rows(Cursor<'a, RowBytes>),
    /// Documents, deleted ones too, in the order of their ids in the search's direction.
    Documents(Documents<'a>),
    /// Nothing: the shard has no such index.
    Nothing,
}

// Finds what a shard has from where the search begins; the range of the search may end earlier. Cost: finding the index, and one look-up of
// where to begin.
#[inline(always)]
pub(crate) fn unread_of<'a>(shard: &'a Shard, search: Search<'_>) -> Unread<'a>
    ensures { IsBegun search.entry shard.now result }
{
    match search.target {
        TargetRef::AllDocs => Unread::Documents(documents_of(shard, search)),
        TargetRef::Index(index) => unread_in_index(shard, index, search),
    }
}

// Finds all documents, deleted ones too, from where the search begins.
fn documents_of<'a>(shard: &'a Shard, search: Search<'_>) -> Documents<'a>
    ensures { AreBegun search.entry shard.now.documents result }
{
    shard.ids_are_own();
    shard.documents_beyond(&Begin { search }, search.direction)
}

// Finds the rows of an index from where the search begins; nothing if the shard has no such index.
#[inline(always)]
fn unread_in_index<'a>(shard: &'a Shard, index: IndexRef<'_>, search: Search<'_>) -> Unread<'a>
    ensures { IsBegunIn (option_map (λ d. d.columns)
        (definition_at index.entry.ddoc.now index.entry.name.now shard.now.definitions))
        search.entry shard.now result }
{
    match shard.rows_beyond(index, &Begin { search }, search.direction) {
        Some(rows) => Unread::Rows(rows),
        None => Unread::Nothing,
    }
}

// Passes over the first `count` rows of an index, or over all if there are fewer. Returns what is left, and `count`; for all documents
// and for a missing index it passes over nothing and returns 0: a count of documents would include deleted ones.
pub(crate) fn unread_after<'a>(unread: Unread<'a>, count: usize) -> (Unread<'a>, usize)
    ensures after { IsUnreadAfter result.1 unread.entry result.0 }
    ensures within { result.1 ≤ count }
{
    match unread {
        Unread::Rows(mut rows) => {
            rows.advance(count);
            (Unread::Rows(rows), count)
        }
        Unread::Documents(documents) => (Unread::Documents(documents), 0),
        Unread::Nothing => (Unread::Nothing, 0),
    }
}
