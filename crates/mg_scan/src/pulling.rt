//! The first hits of all shards together, found as the merge asks for them.
ghost use Rattle.std.specs.Prelude.{◌≡◌, ◌+◌, ◌≤◌, drop, length, map, option_map, All, IfOk};
ghost use Rattle.std.specs.List.{AllZip};
ghost use Rattle.mg_merge.specs.Merged.{merged};
ghost use Rattle.mg_shard.specs.Shard.{shards_view};
ghost use Rattle.mg_scan.specs.Decided.{IsDecidedIn};
ghost use Rattle.mg_scan.specs.Hit.{AreHitsIn, hit_rows};
ghost use Rattle.mg_scan.specs.Search.{found_by};
ghost use Rattle.mg_scan.specs.Sourced.{IsSourceOf, asked, with_selector};

use crate::finding::{source_after, source_of};
use crate::hit::Hit;
use crate::passing::pass_over;
use crate::search::Search;
use crate::source::Source;
use mg_merge::merge_pulled;
use mg_normal::Normal;
use mg_shard::Shard;
use mg_value::NoMemory;
use std::alloc::Global;
use std::sync::Arc;

/// Returns the first `take` hits of a search in all shards together, in the search's direction: rows of the target after `after`, whose key
/// is in the range and whose document matches the selector. A shard that lacks the index has no hits. Also returns how many hits were
/// pulled from the shards: at most `take`, and one more for each shard. Runs on the caller's thread, and passes no gate.
///
/// Errors: `NoMemory` if an allocation fails. Cost: in each shard, finding the index and one look-up of where to begin; then, until those
/// hits are found, for each row of an index that is read a look-up of its document, and for each document that is read the selector; the
/// merge.
pub fn pull_lent<'a>(
    alloc: Global,
    shards: &'a [Arc<Shard>],
    search: Search<'_>,
) -> Result<(Vec<Hit<'a>>, u64), NoMemory>
    ensures rows { IfOk result
        (λ made. hit_rows made.0.items ≡ merged search.entry.direction search.entry.take
        (map (found_by search.entry) (shards_view shards.now))) }
    ensures hits { IfOk result (λ made. AreHitsIn (shards_view shards.now) made.0.items) }
    ensures pulled { IfOk result (λ made. made.1 ≤ search.entry.take + length shards.now) }
    ensures given { IfOk result (λ made. length made.0.items ≤ made.1) }
{
    pull(alloc, shards, search, Some(search.normal))
}

/// Returns hits of which all but the first n are the hits of `pull_lent` without the first `skip`; n; and how many rows were pulled from the
/// shards: at most `take`, and one more for each shard; rows that are passed over are not among them. Each shard must have the target, and
/// the range must decide the whole selector: whether a document matches follows from the key of its row alone. The selector is not
/// evaluated, and no document of a row of an index is looked up: the hit does so when it is asked for its document. Runs on the caller's
/// thread, and passes no gate.
///
/// Errors: `NoMemory` if an allocation fails. Cost: in each shard, finding the index and one look-up of where to begin; then a step for
/// each row that is read, until `take` are found, and the merge. Of an index, the first `skip` rows are passed over by their counts: with
/// one shard all at once; with several shards all but a few in each, in rounds of some ten look-ups in each shard, at most as many rounds
/// as `skip` has digits to base 8. The rows that are skipped are read if the target is all documents, or if there are several shards and
/// `skip` is below 16 times their number.
pub fn pull_rows<'a>(
    alloc: Global,
    shards: &'a [Arc<Shard>],
    search: Search<'_>,
    skip: usize,
) -> Result<(Vec<Hit<'a>>, usize, u64), NoMemory>
    requires decided { All (IsDecidedIn search.target search.normal.now search.range.now)
        (shards_view shards.now) }
    ensures rows { IfOk result (λ made. hit_rows (drop made.1 made.0.items) ≡ drop skip
        (merged search.entry.direction search.entry.take
        (map (found_by search.entry) (shards_view shards.now)))) }
    ensures hits { IfOk result (λ made. AreHitsIn (shards_view shards.now) made.0.items) }
    ensures pulled { IfOk result (λ made. made.2 ≤ search.entry.take + length shards.now) }
    ensures given { IfOk result (λ made. length made.0.items ≤ made.2) }
{
    if shards.len() == 1 {
        pull_rows_of_one(alloc, shards, search, skip)
    } else {
        pull_rows_of_several(alloc, shards, search, skip)
    }
}

// Does what `pull_rows` does, for any number of shards: in an index, most rows of a long skip are passed over by counts.
fn pull_rows_of_several<'a>(
    alloc: Global,
    shards: &'a [Arc<Shard>],
    search: Search<'_>,
    skip: usize,
) -> Result<(Vec<Hit<'a>>, usize, u64), NoMemory>
    requires decided { All (IsDecidedIn search.target search.normal.now search.range.now)
        (shards_view shards.now) }
    ensures rows { IfOk result (λ made. hit_rows (drop made.1 made.0.items) ≡ drop skip
        (merged search.entry.direction search.entry.take
        (map (found_by search.entry) (shards_view shards.now)))) }
    ensures hits { IfOk result (λ made. AreHitsIn (shards_view shards.now) made.0.items) }
    ensures pulled { IfOk result (λ made. made.2 ≤ search.entry.take + length shards.now) }
    ensures given { IfOk result (λ made. length made.0.items ≤ made.2) }
{
    let (rest, left) = pass_over(alloc, shards, search, skip)?;
    let (hits, pulled) = pull(alloc, shards, rest, None)?;
    Ok((hits, left, pulled))
}

// Does what `pull_rows` does, for one shard: passes at once over the rows of an index that are skipped.
fn pull_rows_of_one<'a>(
    alloc: Global,
    shards: &'a [Arc<Shard>],
    search: Search<'_>,
    skip: usize,
) -> Result<(Vec<Hit<'a>>, usize, u64), NoMemory>
    requires one { length shards.now ≡ 1 }
    requires decided { All (IsDecidedIn search.target search.normal.now search.range.now)
        (shards_view shards.now) }
    ensures rows { IfOk result (λ made. hit_rows (drop made.1 made.0.items) ≡ drop skip
        (merged search.entry.direction search.entry.take
        (map (found_by search.entry) (shards_view shards.now)))) }
    ensures hits { IfOk result (λ made. AreHitsIn (shards_view shards.now) made.0.items) }
    ensures pulled { IfOk result (λ made. made.2 ≤ search.entry.take + length shards.now) }
    ensures given { IfOk result (λ made. length made.0.items ≤ made.2) }
{
    let shard: &Shard = &shards[0];
    let (source, passed) = source_after(shard, search, skip);
    let mut sources = Vec::with_capacity(alloc, 1)?;
    sources.push(source)?;
    let wanted = search.take.saturating_sub(passed);
    let (hits, pulled) = merge_pulled::<Hit<'a>, Source<'a, '_>>(
        alloc,
        &mut sources,
        search.direction,
        wanted,
    )?;
    Ok((hits, skip - passed, pulled))
}

// Returns the first `take` hits of a search in all shards together, if this selector is asked, and how many were pulled. Errors: `NoMemory`
// if an allocation fails.
fn pull<'a, 'b>(
    alloc: Global,
    shards: &'a [Arc<Shard>],
    search: Search<'b>,
    selector: Option<&'b Normal>,
) -> Result<(Vec<Hit<'a>>, u64), NoMemory>
    ensures rows { IfOk result
        (λ made. hit_rows made.0.items ≡ merged search.entry.direction search.entry.take
        (map (found_by (with_selector (asked (option_map (λ n. n.now) selector.entry)) search.entry)) (shards_view shards.now))) }
    ensures hits { IfOk result (λ made. AreHitsIn (shards_view shards.now) made.0.items) }
    ensures pulled { IfOk result (λ made. made.1 ≤ search.entry.take + length shards.now) }
    ensures given { IfOk result (λ made. length made.0.items ≤ made.1) }
{
    let mut sources = sources_of(alloc, shards, search, selector)?;
    let (hits, pulled) = merge_pulled::<Hit<'a>, Source<'a, '_>>(
        alloc,
        &mut sources,
        search.direction,
        search.take,
    )?;
    Ok((hits, pulled))
}

// Makes a source of what the search finds in each shard, if this selector is asked. Errors: `NoMemory` if an allocation fails.
fn sources_of<'a, 'b>(
    alloc: Global,
    shards: &'a [Arc<Shard>],
    search: Search<'b>,
    selector: Option<&'b Normal>,
) -> Result<Vec<Source<'a, 'b>>, NoMemory>
    ensures { IfOk result
        (λ sources. AllZip (IsSourceOf search.entry (asked (option_map (λ n. n.now) selector.entry))) (shards_view shards.now) sources.items) }
{
    let mut sources = Vec::with_capacity(alloc, shards.len())?;
    for i in 0..shards.len() {
        let shard: &Shard = &shards[i];
        sources.push(source_of(shard, search, selector))?;
    }
    Ok(sources)
}
