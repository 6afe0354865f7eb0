//! A row that a search found, and its document, lent by a shard.
ghost use Rattle.std.specs.Prelude.{◌≡◌, true, is_some, option_map};
ghost use Rattle.mg_scan.specs.Kept.{IsLent, IsLent-prop};
ghost use Rattle.mg_scan.specs.HitRow.{hit_row_view};
ghost use Rattle.mg_shard.specs.Documents.{form_at};

use crate::hit_row::HitRow;
use mg_shard::{Document, Shard};

/// A row that a search found, and its document, lent by a shard. Hits are ordered by key, then by the bytes of the id. Where the range decides
/// the selector, the document of a row of an index is looked up only when it is asked for.
#[derive(Clone, Copy, Drop)]
pub struct Hit<'a> {
    pub(crate) shard: &'a Shard,
    pub(crate) row: HitRow<'a>,
    // The row's document, if it was looked up to find the row.
    pub(crate) document: Option<&'a Document>,
    // The shard serves a document under the row's id.
    ghost served: { is_some (form_at shard.now.documents (hit_row_view row).1) ≡ true },
    ghost lent: { IsLent shard.now.documents (hit_row_view row).1 (option_map (λ d. d.now) document) } by { IsLent-prop shard.now.documents (hit_row_view row).1 (option_map (λ d. d.now) document) },
}
