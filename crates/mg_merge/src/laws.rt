//! The laws of the merge: its result does not depend on how documents are distributed over lists, nor on what
//! follows the first rows of each list.
ghost use Rattle.std.specs.Prelude.{◌≡◌, ℕ, List, All, map, take};
ghost use Rattle.std.specs.List.Sorted.{IsPermutation};
ghost use Rattle.mg_collate.specs.Row.{RowValue};
ghost use Rattle.mg_collate.specs.Sorted.{IsInOrder, sorted_rows};
ghost use Rattle.mg_merge.specs.Merged.{joined, merged, merged_by};
ghost use Rattle.mg_merge.specs.Sharding.{Document, rows_of, lists_of};

use crate::ranked::Ranked;
use mg_collate::Direction;

/// However documents are distributed over shards, each in one shard, and whatever rows each document has: the
/// lists of all shards, joined and sorted, are the sorted rows of all documents, with no row lost or repeated.
/// Therefore a merge of the lists gives the first rows of all documents.
pub fn any_sharding()
    ensures joined_and_sorted { (direction : Direction) (rows : Document → List RowValue)
        (documents : List Document) (shards : List (List Document))
        → IsPermutation documents (joined shards)
        → sorted_rows direction (joined (lists_of direction rows shards))
        ≡ rows_of direction rows documents }
    ensures first_rows { (direction : Direction) (rows : Document → List RowValue)
        (documents : List Document) (shards : List (List Document)) (count : ℕ)
        → IsPermutation documents (joined shards)
        → merged direction count (lists_of direction rows shards)
        ≡ take count (rows_of direction rows documents) }
{}

/// Lists that are in order may be cut to their first `count` rows before they are merged: they stay in
/// order, and the merge gives the same rows. Therefore a shard need not hand over more rows than the page
/// skips and shows.
pub fn cut_lists()
    ensures in_order { (direction : Direction) (count : ℕ) (lists : List (List RowValue))
        → All (IsInOrder direction) lists
        → All (IsInOrder direction) (map (take count) lists) }
    ensures same_rows { (direction : Direction) (count : ℕ) (lists : List (List RowValue))
        → All (IsInOrder direction) lists
        → merged direction count (map (take count) lists) ≡ merged direction count lists }
{}

/// The rows of the items that `merge_items` returns are the merge of the rows of its lists.
pub fn rows_of_a_merge<T: Ranked>()
    ensures { (direction : Direction) (count : ℕ) (lists : List (List T))
        → map T.row_of (merged_by T.row_of direction count lists)
        ≡ merged direction count (map (map T.row_of) lists) }
{}
