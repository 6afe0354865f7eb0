//! A long skip on several shards: of the rows that a page skips, most are counted, and are not read.
ghost use Rattle.std.specs.Prelude.{◌≡◌, ◌<◌, IfOk, IfSome};
ghost use Rattle.mg_shard.specs.Shard.{shards_view};
ghost use Rattle.mg_scan.specs.Passed.{HasPageOf, IsIndex, IsWithin, beyond_row, count_all_upcoming};

use crate::begin::Begin;
use crate::counting::count_upcoming;
use crate::scout::{Scout, insert_scout, scout_of};
use crate::search::{Search, is_late_row, is_reached};
use crate::target_ref::TargetRef;
use mg_rows::RowBytes;
use mg_shard::{IndexRef, Shard};
use mg_value::NoMemory;
use std::alloc::Global;
use std::sync::Arc;

// The first stride is an eighth of each shard's part of the rows that the page skips; each further stride is an eighth of the one before.
const SHRINK: usize = 8;

// A long skip, after some of its rows were passed over.
#[derive(Clone, Copy)]
pub(crate) struct LongSkip<'a> {
    // The search, which begins after the rows that were passed over so far.
    pub(crate) search: Search<'a>,
    // How many rows the page still skips.
    pub(crate) skip: usize,
    // How many rows of all shards come after the place where the search begins.
    pub(crate) upcoming: usize,
}

// Passes over most of the first `skip` rows of a search whose range decides what it finds. Returns the search that begins after them, and
// how many of its rows the page still skips. Passes over nothing if `skip` is below 16 times the number of shards; if the target is all
// documents, since counts of documents include deleted ones; or if the rows of all shards are too many for a `usize`. Errors: `NoMemory` if
// an allocation fails.
pub(crate) fn pass_over<'a>(
    alloc: Global,
    shards: &'a [Arc<Shard>],
    search: Search<'a>,
    skip: usize,
) -> Result<(Search<'a>, usize), NoMemory>
    ensures { IfOk result (λ r. HasPageOf (shards_view shards.now) search.entry skip r.0 r.1) }
{
    if first_stride(skip, shards.len()) < 2 {
        return Ok((search, skip));
    }
    match search.target {
        TargetRef::AllDocs => Ok((search, skip)),
        TargetRef::Index(index) => pass_rows(alloc, shards, search, skip, index),
    }
}

// Returns the stride of the first round. If it is less than two, too few rows are skipped for counts to be worth their look-ups.
fn first_stride(skip: usize, shards: usize) -> usize {
    skip / SHRINK / shards.max(1)
}

// Does what `pass_over` does, for a long skip in an index.
fn pass_rows<'a>(
    alloc: Global,
    shards: &'a [Arc<Shard>],
    search: Search<'a>,
    skip: usize,
    index: IndexRef<'_>,
) -> Result<(Search<'a>, usize), NoMemory>
    requires { IsIndex search.target }
    ensures { IfOk result (λ r. HasPageOf (shards_view shards.now) search.entry skip r.0 r.1) }
{
    match count_all(shards, search) {
        None => Ok((search, skip)),
        Some(upcoming) => {
            let all = LongSkip {
                search,
                skip,
                upcoming,
            };
            let passed = pass_rounds(alloc, shards, all, index)?;
            Ok((passed.search, passed.skip))
        }
    }
}

// Passes over most of the rows that the page skips, in rounds with ever smaller strides. Errors: `NoMemory` if an allocation fails.
fn pass_rounds<'a>(
    alloc: Global,
    shards: &'a [Arc<Shard>],
    all: LongSkip<'a>,
    index: IndexRef<'_>,
) -> Result<LongSkip<'a>, NoMemory>
    requires index { IsIndex all.search.target }
    requires upcoming { all.upcoming ≡ count_all_upcoming (shards_view shards.now) all.search }
    ensures { IfOk result (λ r. HasPageOf (shards_view shards.now) all.entry.search all.entry.skip
        r.search r.skip) }
{
    let mut passed = all;
    let mut stride = first_stride(all.skip, shards.len());
    while stride > 1 {
        let next = pass_round(alloc, shards, passed, index, stride)?;
        passed = next;
        stride /= SHRINK;
    }
    Ok(passed)
}

// Passes over rows in one round. Reads some rows to choose the last one to pass over, and then counts how many rows it passes over. It
// may pass over nothing. Errors: `NoMemory` if an allocation fails.
fn pass_round<'a>(
    alloc: Global,
    shards: &'a [Arc<Shard>],
    passed: LongSkip<'a>,
    index: IndexRef<'_>,
    stride: usize,
) -> Result<LongSkip<'a>, NoMemory>
    requires index { IsIndex passed.search.target }
    requires upcoming { passed.upcoming ≡ count_all_upcoming (shards_view shards.now) passed.search }
    requires stride { 0 < stride }
    ensures page { IfOk result (λ r. HasPageOf (shards_view shards.now) passed.entry.search passed.entry.skip
        r.search r.skip) }
    ensures upcoming { IfOk result (λ r. r.upcoming ≡ count_all_upcoming (shards_view shards.now) r.search) }
{
    match row_near(alloc, shards, passed, index, stride)? {
        None => Ok(passed),
        Some(row) => Ok(pass_to(shards, passed, row)),
    }
}

// How many rows of all shards come after the place where a search begins; `None` if the sum is too large for a `usize`.
fn count_all(shards: &[Arc<Shard>], search: Search<'_>) -> Option<usize>
    ensures { IfSome result (λ n. n ≡ count_all_upcoming (shards_view shards.now) search.entry) }
{
    let mut all = 0usize;
    for i in 0..shards.len() {
        let shard: &Shard = &shards[i];
        let count = count_upcoming(shard, search);
        if count > usize::MAX - all {
            return None;
        }
        all += count;
    }
    Some(all)
}

// Passes over the rows up to this row, and over the row itself, if it is in the range and after the place where the search begins, and if
// the page skips all these rows; otherwise passes over nothing.
fn pass_to<'a>(shards: &[Arc<Shard>], passed: LongSkip<'a>, row: &'a RowBytes) -> LongSkip<'a>
    requires index { IsIndex passed.search.target }
    requires upcoming { passed.upcoming ≡ count_all_upcoming (shards_view shards.now) passed.search }
    ensures page { HasPageOf (shards_view shards.now) passed.entry.search passed.entry.skip
        result.search result.skip }
    ensures upcoming { result.upcoming ≡ count_all_upcoming (shards_view shards.now) result.search }
{
    if is_reached(passed.search, row) && !is_late_row(passed.search, row) {
        pass_counted(shards, passed, row)
    } else {
        passed
    }
}

// Does what `pass_to` does, for a row that is in the range and at or after the place where the search begins.
fn pass_counted<'a>(shards: &[Arc<Shard>], passed: LongSkip<'a>, row: &'a RowBytes) -> LongSkip<'a>
    requires index { IsIndex passed.search.target }
    requires upcoming { passed.upcoming ≡ count_all_upcoming (shards_view shards.now) passed.search }
    requires within { IsWithin passed.search row.now }
    ensures page { HasPageOf (shards_view shards.now) passed.entry.search passed.entry.skip
        result.search result.skip }
    ensures upcoming { result.upcoming ≡ count_all_upcoming (shards_view shards.now) result.search }
{
    let beyond = search_after(passed.search, row, 0);
    match count_all(shards, beyond) {
        None => passed,
        Some(upcoming) => {
            let count = passed.upcoming.saturating_sub(upcoming);
            if count > passed.skip {
                return passed;
            }
            let take = passed.search.take.saturating_sub(count);
            let search = search_after(passed.search, row, take);
            LongSkip {
                search,
                skip: passed.skip - count,
                upcoming,
            }
        }
    }
}

// Returns the search that begins after a row, and takes `take` rows.
fn search_after<'a>(search: Search<'a>, row: &'a RowBytes, take: usize) -> Search<'a>
    ensures { result ≡ beyond_row search.entry row.entry take }
{
    Search {
        after: Some(row),
        take,
        ..search
    }
}

// Finds a row near the last one that the page skips. In each shard a scout goes ahead by `stride` rows at a time. Of the rows that the
// scouts reach, this is the last one, in the order of the search, that the page skips for certain, wherever the rows between them are;
// `None` if no scout reaches such a row. Errors: `NoMemory` if an allocation fails.
fn row_near<'a>(
    alloc: Global,
    shards: &'a [Arc<Shard>],
    passed: LongSkip<'_>,
    index: IndexRef<'_>,
    stride: usize,
) -> Result<Option<&'a RowBytes>, NoMemory>
    requires { 0 < stride }
{
    let search = passed.search;
    let mut scouts = scouts_of(alloc, shards, search, index, stride)?;
    let steps = (passed.skip / stride).saturating_sub(shards.len());
    let mut last = None;
    for _ in 0..steps {
        let Some(scout) = scouts.pop() else {
            return Ok(last);
        };
        last = Some(scout.row);
        if let Some(next) = scout_of(scout.rows, search, stride) {
            insert_scout(&mut scouts, next, search.direction)?;
        }
    }
    Ok(last)
}

// Makes the first scout of each shard; the scout whose row comes first is at the end of the list. A shard has no scout if it lacks the
// index, or has fewer than `stride` rows to read before the range ends. Errors: `NoMemory` if an allocation fails.
fn scouts_of<'a>(
    alloc: Global,
    shards: &'a [Arc<Shard>],
    search: Search<'_>,
    index: IndexRef<'_>,
    stride: usize,
) -> Result<Vec<Scout<'a>>, NoMemory>
    requires { 0 < stride }
{
    let mut scouts = Vec::with_capacity(alloc, shards.len())?;
    for i in 0..shards.len() {
        let shard: &Shard = &shards[i];
        if let Some(rows) = shard.rows_beyond(index, &Begin { search }, search.direction) {
            if let Some(scout) = scout_of(rows, search, stride) {
                insert_scout(&mut scouts, scout, search.direction)?;
            }
        }
    }
    Ok(scouts)
}
