//! Counts how much a search can read at most, from the counts that the pages keep.
ghost use Rattle.std.specs.Prelude.{◌≡◌, length, nat_le};
ghost use Rattle.std.specs.List.{sum_by};
ghost use Rattle.std.specs.Option.{option_map_or};
ghost use Rattle.mg_shard.specs.Shard.{rows_at, shards_view};
ghost use Rattle.mg_pages.specs.Reading.{beyond};
ghost use Rattle.mg_scan.specs.Search.{after_of};
ghost use Rattle.mg_scan.specs.Upcoming.{count_upcoming};
ghost use Rattle.mg_scan.specs.Way.{begin_at};

use crate::begin::Begin;
use crate::search::Search;
use crate::target_ref::TargetRef;
use mg_shard::{IndexRef, Shard};
use std::sync::Arc;

/// Whether at most `most` documents (deleted ones too) or rows of all shards come after the place where a search begins. If they do, the
/// search reads at most `most` documents or rows, wherever its range ends and however many hits it takes. A shard that lacks the index
/// counts as 0. The documents or rows are not read one by one. Takes no memory.
///
/// Cost: in each shard, until the sum exceeds `most`, finding the index, one look-up of where to begin, and a read of the count of each
/// part before that place, on each level.
pub fn reads_at_most(shards: &[Arc<Shard>], search: Search<'_>, most: usize) -> bool
    ensures { result
        ≡ nat_le (sum_by
        (count_upcoming search.entry.target search.entry.range.now
        (after_of search.entry) search.entry.direction)
        (shards_view shards.now)) most }
{
    let mut left = most;
    for i in 0..shards.len() {
        let shard: &Shard = &shards[i];
        let count = count_upcoming(shard, search);
        if count > left {
            return false;
        }
        left -= count;
    }
    true
}

// How many documents (deleted ones too) or rows of a shard come after the place where the search begins; 0 if the shard lacks the index.
pub(crate) fn count_upcoming(shard: &Shard, search: Search<'_>) -> usize
    ensures { result
        ≡ count_upcoming search.entry.target search.entry.range.now
        (after_of search.entry) search.entry.direction shard.now }
{
    match search.target {
        TargetRef::AllDocs => shard.count_documents_beyond(&Begin { search }, search.direction),
        TargetRef::Index(index) => count_upcoming_rows(shard, index, search),
    }
}

// How many rows of an index come after the place where the search begins; 0 if there is no such index.
fn count_upcoming_rows(shard: &Shard, index: IndexRef<'_>, search: Search<'_>) -> usize
    ensures { result ≡ option_map_or
        (λ rows. length (beyond search.entry.direction (begin_at search.entry) rows))
        (rows_at index.entry.ddoc.now index.entry.name.now shard.now) 0 }
{
    match shard.count_rows_beyond(index, &Begin { search }, search.direction) {
        Some(count) => count,
        None => 0,
    }
}
