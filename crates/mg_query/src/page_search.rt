//! Searches for the hits of a page, by workers or on the caller's thread.
ghost use Rattle.std.specs.Prelude.{◌≡◌, ℕ, ◌+◌, ◌||◌, true, false, List, IfOk, drop, length, map, nat_lt};
ghost use Rattle.std.specs.List.{AllZip};
ghost use Rattle.mg_shard.specs.Shard.{shards_view};
ghost use Rattle.mg_scan.specs.Hit.{AreHitsOf, hit_rows};
ghost use Rattle.mg_query.specs.Plan.{AreFirst, AreOfPage, IsPlanned, IsSearchOf, rows_asked_of};
ghost use Rattle.mg_query.specs.Paged.{IsWorkWithin};
ghost use Rattle.mg_query.specs.Read.{IsReadFor, IsReadWithin, is_pulled};
ghost use Rattle.mg_query.specs.View.{query_view};

use crate::found::Plan;
use crate::query::Query;
use crate::reads::Reads;
use mg_collate::Direction;
use mg_merge::{Work, merge_items};
use mg_range::RowRange;
use mg_scan::{Gate, Hit, Search, Workers, pull_lent, pull_rows, reads_at_most, scan_lent};
use mg_shard::Shard;
use mg_value::NoMemory;
use std::alloc::Global;
use std::sync::Arc;
use std::thread::Threads;

// A page that skips and shows at most this many rows is small if the range of its query has a bound on the first column and is not empty: a
// thread costs some 100 µs, a row at most 1 µs.
const SMALL_PAGE: usize = 1000;

// A page that shows at most this many rows is small if its range decides the whole selector, whatever it skips: the caller's thread looks
// up no document for a row that it skips, while workers would find as many hits in each shard as the page skips and shows.
const SMALL_SHOWN: usize = 4000;

// A scan that can read at most this many documents or rows, in all shards together, is small.
const SMALL_SCAN: usize = 1000;

// What a search for the hits of a page needs: the query, its plan, the plan's range as bytes, and the shards, which have the plan's index.
#[derive(Drop)]
pub(crate) struct PageSearch<'a, 'b> {
    pub(crate) query: &'b Query<'b>,
    pub(crate) plan: &'b Plan<'b>,
    pub(crate) range: &'b RowRange<'b>,
    pub(crate) shards: &'a [Arc<Shard>],
}

// Hits of which a page shows all but the first `skip`, and how much was read for them.
#[derive(Drop)]
pub(crate) struct PageHits<'a> {
    pub(crate) hits: Vec<Hit<'a>>,
    pub(crate) skip: usize,
    pub(crate) reads: Reads,
}

impl<'a> PageHits<'a> {
    // Lends the hits that the page shows.
    pub(crate) fn shown(&self) -> &[Hit<'a>]
        ensures { result.now ≡ drop self.now.skip self.now.hits.items }
    {
        if self.skip < self.hits.len() {
            &self.hits[self.skip..]
        } else {
            &[]
        }
    }
}

impl<'a, 'b> PageSearch<'a, 'b> {
    // How many rows the page skips and shows, at most.
    fn row_count(&self) -> usize
        ensures { result ≡ self.now.query.now.skip + self.now.query.now.limit }
    {
        self.query.skip as usize + self.query.limit as usize
    }

    // Makes the search in each shard, for the rows that the page skips and shows.
    fn in_each_shard(&self) -> Search<'b>
        requires { IsPlanned self.now }
        ensures { IsSearchOf (query_view self.now.query.now) self.now.plan.now result }
    {
        Search {
            target: self.plan.source.target(),
            normal: self.plan.normal,
            range: self.range,
            after: self.plan.after.as_ref(),
            take: self.row_count(),
            direction: self.query.sort.direction,
        }
    }

    // Finds hits of which the page shows all but the first `skip`: those that the query skips and that were not passed over by counts. If
    // the number of workers is a maximum, the search runs on the caller's thread, and passes no gate, in each of these cases: there is one
    // worker; there are fewer than two shards; `is_small` is true. Errors: `NoMemory` if an allocation fails.
    pub(crate) fn page_hits<R: Threads + Sync, G: Gate + Sync>(
        &self,
        rt: &R,
        alloc: Global,
        workers: Workers,
        gate: &G,
    ) -> Result<PageHits<'a>, NoMemory>
        requires { IsPlanned self.now }
        ensures hits { IfOk result (λ made. AreOfPage (query_view self.now.query.now) self.now.plan.now
            (shards_view self.now.shards.now) made.skip made.hits.items) }
        ensures within { IfOk result (λ made. IsReadWithin (length self.now.shards.now)
            (self.now.query.now.skip + self.now.query.now.limit) made.reads) }
        ensures read { IfOk result (λ made. IsReadFor self.now.plan.now.is_decided
            (length (drop made.skip made.hits.items))
            (map (λ s. length (rows_asked_of (query_view self.now.query.now) self.now.plan.now s))
            (shards_view self.now.shards.now)) made.reads) }
        ensures alone { workers.1 ≡ true
            → (nat_lt workers.0 2 || nat_lt (length self.now.shards.now) 2) ≡ true
            → IfOk result (λ made. is_pulled made.reads ≡ true) }
        ensures exact { workers.1 ≡ false → IfOk result (λ made. is_pulled made.reads ≡ false) }
    {
        let has_one_thread = workers.count() < 2 || self.shards.len() < 2;
        if workers.is_alone(has_one_thread || self.is_small()) {
            return self.find_alone(alloc);
        }
        let (hits, work) = self.merge_first(rt, alloc, workers, gate)?;
        Ok(PageHits {
            hits,
            skip: self.query.skip as usize,
            reads: Reads::Handed(work),
        })
    }

    // Finds what `page_hits` returns, on the caller's thread. If the range decides the whole selector, no document of a row of an index is
    // looked up before its hit is shown. Errors: `NoMemory` if an allocation fails.
    fn find_alone(&self, alloc: Global) -> Result<PageHits<'a>, NoMemory>
        requires { IsPlanned self.now }
        ensures hits { IfOk result (λ made. AreOfPage (query_view self.now.query.now) self.now.plan.now
            (shards_view self.now.shards.now) made.skip made.hits.items) }
        ensures within { IfOk result (λ made. IsReadWithin (length self.now.shards.now)
            (self.now.query.now.skip + self.now.query.now.limit) made.reads) }
        ensures read { IfOk result (λ made. (handed : List ℕ) → IsReadFor self.now.plan.now.is_decided
            (length (drop made.skip made.hits.items)) handed made.reads) }
        ensures pulled { IfOk result (λ made. is_pulled made.reads ≡ true) }
    {
        if self.plan.is_decided {
            self.pull_page(alloc)
        } else {
            self.pull_hits(alloc)
        }
    }

    // Finds the first hits of all shards together, without those that are passed over by counts. The range must decide the whole selector.
    // Errors: `NoMemory`.
    fn pull_page(&self, alloc: Global) -> Result<PageHits<'a>, NoMemory>
        requires decided { self.now.plan.now.is_decided ≡ true }
        requires planned { IsPlanned self.now }
        ensures hits { IfOk result (λ made. AreOfPage (query_view self.now.query.now) self.now.plan.now
            (shards_view self.now.shards.now) made.skip made.hits.items) }
        ensures within { IfOk result (λ made. IsReadWithin (length self.now.shards.now)
            (self.now.query.now.skip + self.now.query.now.limit) made.reads) }
        ensures read { IfOk result (λ made. (handed : List ℕ) → IsReadFor true
            (length (drop made.skip made.hits.items)) handed made.reads) }
        ensures pulled { IfOk result (λ made. is_pulled made.reads ≡ true) }
    {
        let search = self.in_each_shard();
        let (hits, skip, rows) = pull_rows(alloc, self.shards, search, self.query.skip as usize)?;
        let documents = hits.len().saturating_sub(skip) as u64;
        Ok(PageHits {
            hits,
            skip,
            reads: Reads::Pulled { rows, documents },
        })
    }

    // Finds the first hits of all shards together, as many as the page skips and shows, pulled as the merge asks for them. Errors:
    // `NoMemory`.
    fn pull_hits(&self, alloc: Global) -> Result<PageHits<'a>, NoMemory>
        requires { IsPlanned self.now }
        ensures hits { IfOk result (λ made. AreOfPage (query_view self.now.query.now) self.now.plan.now
            (shards_view self.now.shards.now) made.skip made.hits.items) }
        ensures within { IfOk result (λ made. IsReadWithin (length self.now.shards.now)
            (self.now.query.now.skip + self.now.query.now.limit) made.reads) }
        ensures read { IfOk result (λ made. (handed : List ℕ) → IsReadFor false
            (length (drop made.skip made.hits.items)) handed made.reads) }
        ensures pulled { IfOk result (λ made. is_pulled made.reads ≡ true) }
    {
        let (hits, rows) = pull_lent(alloc, self.shards, self.in_each_shard())?;
        Ok(PageHits {
            hits,
            skip: self.query.skip as usize,
            reads: Reads::Pulled {
                rows,
                documents: rows,
            },
        })
    }

    // Finds the first hits of all shards together: workers search the shards, and the hits that each shard hands over are merged. Also
    // returns how many rows each shard handed over, and how many of these were merged. Errors: `NoMemory` if an allocation fails.
    fn merge_first<R: Threads + Sync, G: Gate + Sync>(
        &self,
        rt: &R,
        alloc: Global,
        workers: Workers,
        gate: &G,
    ) -> Result<(Vec<Hit<'a>>, Work), NoMemory>
        requires { IsPlanned self.now }
        ensures hits { IfOk result (λ made. AreFirst (query_view self.now.query.now) self.now.plan.now
            (shards_view self.now.shards.now) made.0.items) }
        ensures work { IfOk result (λ made. IsWorkWithin (length self.now.shards.now)
            (self.now.query.now.skip + self.now.query.now.limit) made.1) }
        ensures handed { IfOk result (λ made. made.1.handed
            ≡ map (λ s. length (rows_asked_of (query_view self.now.query.now) self.now.plan.now s))
            (shards_view self.now.shards.now)) }
    {
        let lists = self.lists(rt, alloc, workers, gate)?;
        let direction = self.query.sort.direction;
        let (hits, work) = merge_items(alloc, &lists, direction, self.row_count())?;
        Ok((hits, work))
    }

    // Finds the first hits in each shard, at most as many as the page skips and shows. Errors: `NoMemory` if an allocation fails.
    fn lists<R: Threads + Sync, G: Gate + Sync>(
        &self,
        rt: &R,
        alloc: Global,
        workers: Workers,
        gate: &G,
    ) -> Result<Vec<Vec<Hit<'a>>>, NoMemory>
        requires { IsPlanned self.now }
        ensures rows { IfOk result (λ lists. map (λ hits. hit_rows hits.items) lists.items
            ≡ map (rows_asked_of (query_view self.now.query.now) self.now.plan.now)
            (shards_view self.now.shards.now)) }
        ensures hits { IfOk result (λ lists. AllZip (λ s hits. AreHitsOf s hits.items)
            (shards_view self.now.shards.now) lists.items) }
    {
        let search = self.in_each_shard();
        scan_lent(rt, alloc, self.shards, search, workers, gate)
    }

    // Whether a second thread is expected to cost more than it saves: the page is small, or the shards have little to read.
    fn is_small(&self) -> bool
        requires { IsPlanned self.now }
    {
        self.is_small_page() || reads_at_most(self.shards, self.in_each_shard(), SMALL_SCAN)
    }

    // Whether the page is small, judged by the query and its plan, without reading the shards.
    fn is_small_page(&self) -> bool {
        let has_bound = self.plan.range.entered_at(Direction::Asc).is_some()
            || self.plan.range.entered_at(Direction::Desc).is_some();
        has_bound && self.row_count() <= SMALL_PAGE
            || self.plan.is_decided && self.query.limit as usize <= SMALL_SHOWN
    }
}
