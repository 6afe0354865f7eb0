//! What a search has still to find in one shard.
ghost use Rattle.mg_scan.specs.Kept.{IsKept, IsKept-prop};
ghost use Rattle.mg_scan.specs.RangeEnd.{AreBeforeEnd, EndsOnce, index_rows};

use crate::range_end::RangeEnd;
use crate::search::Search;
use crate::unread::Unread;
use mg_normal::Normal;
use mg_shard::Shard;

/// What a search has still to find in one shard: what is unread there, and what is known of it.
#[derive(Drop)]
pub(crate) struct Source<'a, 'b> {
    pub(crate) shard: &'a Shard,
    pub(crate) unread: Unread<'a>,
    pub(crate) search: Search<'b>,
    // The selector that is asked of documents; `None` if the range decides it.
    pub(crate) selector: Option<&'b Normal>,
    pub(crate) range_end: RangeEnd,
    // Rows of an index are in order: if one comes after the range, so does each later one.
    ghost ordered: { EndsOnce search (index_rows unread) },
    ghost sure: { AreBeforeEnd search (index_rows unread) range_end.sure },
    ghost kept: { IsKept shard.now unread } by { IsKept-prop shard.now unread },
}
