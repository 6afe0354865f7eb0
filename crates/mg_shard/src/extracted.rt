//! Makes the rows of an index from documents, and pages from the rows: by the caller's thread, or by several.
ghost use Rattle.std.specs.Prelude.{◌≡◌, ◌<◌, ◌++◌, [], IfOk, List, OnOk, length};
ghost use Rattle.std.specs.List.{AllByRecursion, cons_option, flat_map};
ghost use Rattle.std.specs.List.Sorted.{IsPermutation, IsSorted};
ghost use Rattle.mg_collate.specs.Row.{RowValue, row_value_order};
ghost use Rattle.mg_collate.specs.Sorted.{sorted};
ghost use Rattle.mg_pages.specs.Order.{Ascends};
ghost use Rattle.mg_pages.specs.Runs.{elements_view};
ghost use Rattle.mg_shard.specs.Documents.{docs_in};
ghost use Rattle.mg_shard.specs.Extracted.{document_row, rows_in};
ghost use Rattle.mg_shard.specs.Rows.{rows_of};

use crate::document::Document;
use crate::index_rows::row_in;
use mg_pages::{NewPage, PAGE_FILL, Pages, Shared};
use mg_path::Path;
use mg_rows::{KeyBytes, RowBytes};
use mg_value::NoMemory;
use rayon::prelude::*;
use std::alloc::Global;
use std::thread::Threads;

/// Returns how many of `count` items a thread takes if at most `workers` threads share them; at least one.
pub(crate) fn share_of(count: usize, workers: usize) -> usize
    ensures { 0 < result }
{
    count.div_ceil(workers.max(1)).max(1)
}

// Makes the row of a document; `None` if the document is deleted or lacks a column.
fn row_if_served(
    alloc: Global,
    scratch: &mut KeyBytes,
    columns: &[Path],
    document: &Document,
) -> Result<Option<RowBytes>, NoMemory>
    ensures { IfOk result (λ row. row ≡ document_row columns.now document.now) }
{
    match document.form() {
        Some(form) => Ok(row_in(alloc, scratch, columns, document.id(), &form)?),
        None => Ok(None),
    }
}

// Appends a row, if there is one.
fn add_row(rows: &mut Vec<RowBytes>, row: Option<RowBytes>) -> Result<(), NoMemory>
    ensures { OnOk result (rows.new.items ≡ rows.old.items ++ cons_option row []) }
{
    if let Some(row) = row {
        rows.push(row)?;
    }
    Ok(())
}

// Appends the rows of those documents of a page that are served and have every column, in the order of the documents.
fn add_rows(
    alloc: Global,
    scratch: &mut KeyBytes,
    columns: &[Path],
    documents: &[Shared<Document>],
    rows: &mut Vec<RowBytes>,
) -> Result<(), NoMemory>
    ensures { OnOk result (rows.new.items ≡ rows.old.items ++ rows_in columns.now documents.now) }
{
    for document in documents {
        let row = row_if_served(alloc, scratch, columns, document.get())?;
        add_row(rows, row)?;
    }
    Ok(())
}

// Sorts the rows by key, then id. Takes no memory. Cost: the number of the rows times its logarithm.
fn sorted_rows(mut rows: Vec<RowBytes>) -> Vec<RowBytes>
    ensures { result.items ≡ sorted row_value_order rows.items }
{
    rows.sort_unstable();
    rows
}

/// Makes the rows of those documents of these pages that are served and have every column, in the order of key, then id.
///
/// Errors: `NoMemory` if an allocation fails. Cost: the bytes of each row, and a sort of the rows.
pub(crate) fn rows_in_order(
    alloc: Global,
    columns: &[Path],
    runs: &[&[Shared<Document>]],
) -> Result<Vec<RowBytes>, NoMemory>
    ensures { IfOk result (λ rows. rows.items ≡ rows_of columns.now (docs_in (elements_view runs.now))) }
{
    let mut scratch = KeyBytes::new(alloc);
    let mut rows = Vec::new(alloc);
    for run in runs {
        add_rows(alloc, &mut scratch, columns, run, &mut rows)?;
    }
    Ok(sorted_rows(rows))
}

// Joins lists of rows, one after the other. The joined list gets room for `count` rows at once, so that it need not grow.
fn join_lists(
    alloc: Global,
    count: usize,
    lists: Vec<Vec<RowBytes>>,
) -> Result<Vec<RowBytes>, NoMemory>
    ensures { IfOk result (λ rows. rows.items ≡ flat_map (λ list. list.items) lists.items) }
{
    let mut all = Vec::with_capacity(alloc, count)?;
    for list in lists {
        let mut list = list;
        all.append(&mut list)?;
    }
    Ok(all)
}

// Joins sorted lists of rows into a sorted one, which gets room for `count` rows. The sort finds the lists, and merges them.
fn merge_lists(
    alloc: Global,
    count: usize,
    lists: Vec<Vec<RowBytes>>,
) -> Result<Vec<RowBytes>, NoMemory>
    ensures permutation { IfOk result
        (λ rows. IsPermutation (flat_map (λ list. list.items) lists.items) rows.items) }
    ensures sorted { IfOk result (λ rows. IsSorted row_value_order rows.items) }
{
    let mut rows = join_lists(alloc, count, lists)?;
    rows.sort()?;
    Ok(rows)
}

// Cuts the pages into at most `workers` pieces of about the same length.
fn cut_pages<'a>(
    alloc: Global,
    runs: &'a [&'a [Shared<Document>]],
    workers: usize,
) -> Result<Vec<&'a [&'a [Shared<Document>]]>, NoMemory>
    ensures { IfOk result (λ pieces. elements_view pieces.items ≡ runs.now) }
{
    let share = share_of(runs.len(), workers);
    let mut pieces = Vec::new(alloc);
    let mut from = 0;
    'pieces: while from < runs.len() {
        let to = from + share.min(runs.len() - from);
        let piece = &runs[from..to];
        pieces.push(piece)?;
        from = to;
    }
    Ok(pieces)
}

// Makes the rows of each of these pieces of pages, sorted, by a thread for each piece.
fn lists_by_threads<R: Threads + Sync>(
    rt: &R,
    alloc: Global,
    columns: &[Path],
    pieces: &[&[&[Shared<Document>]]],
) -> Result<Vec<Vec<RowBytes>>, NoMemory>
    ensures { IfOk result (λ v. IsPermutation (rows_in columns.now (elements_view (elements_view pieces.now)))
        (flat_map (λ list. list.items) v.items)) }
{
    let lists: Result<Vec<Vec<RowBytes>>, NoMemory> = pieces
        .par_iter()
        .with_min_len(1)
        .map(
            |piece: &&[&[Shared<Document>]]| -> Result<Vec<RowBytes>, NoMemory>
                ensures { IfOk result (λ rows. rows.items
                    ≡ rows_of columns.entry.now (docs_in (elements_view piece.now.now))) }
            { rows_in_order(alloc, columns, piece) },
        )
        .collect(rt, alloc)?;
    lists
}

/// Makes what `rows_in_order` makes, by at most `workers` threads: each extracts and sorts the rows of a piece of the pages, and the
/// caller's thread merges them into a list with room for `count` rows.
///
/// Errors: `NoMemory` if an allocation fails. Cost: that of `rows_in_order`, shared among the threads, and a merge of their lists.
pub(crate) fn rows_by_threads<R: Threads + Sync>(
    rt: &R,
    alloc: Global,
    columns: &[Path],
    runs: &[&[Shared<Document>]],
    count: usize,
    workers: usize,
) -> Result<Vec<RowBytes>, NoMemory>
    ensures { IfOk result (λ rows. rows.items ≡ rows_of columns.now (docs_in (elements_view runs.now))) }
{
    let pieces = cut_pages(alloc, runs, workers)?;
    let lists = lists_by_threads(rt, alloc, columns, &pieces)?;
    let rows = merge_lists(alloc, count, lists)?;
    Ok(rows)
}

// Makes pages of these rows, by at most `workers` threads. All pages but the last have `PAGE_FILL` rows.
fn new_pages<R: Threads + Sync>(
    rt: &R,
    alloc: Global,
    rows: &[RowBytes],
    workers: usize,
) -> Result<Vec<NewPage<RowBytes>>, NoMemory>
    ensures some { IfOk result (λ v. AllByRecursion (λ (p : List RowValue). 0 < length p) v.items) }
    ensures rows { IfOk result (λ v. flat_map (λ p. p) v.items ≡ rows.now) }
{
    let pages: Result<Vec<NewPage<RowBytes>>, NoMemory> = rows
        .par_chunks(PAGE_FILL)
        .with_min_len(share_of(rows.len() / PAGE_FILL, workers))
        .map(
            |chunk: &[RowBytes]| -> Result<NewPage<RowBytes>, NoMemory>
                ensures { IfOk result (λ p. p ≡ chunk.now) }
            { NewPage::of(alloc, chunk) },
        )
        .collect(rt, alloc)?;
    pages
}

/// Puts rows that ascend into pages, by at most `workers` threads. All pages but the last have `PAGE_FILL` rows.
///
/// Errors: `NoMemory` if an allocation fails. Cost: a step a row, shared among the threads, and a step a page.
pub(crate) fn pages_by_threads<R: Threads + Sync>(
    rt: &R,
    alloc: Global,
    rows: &[RowBytes],
    workers: usize,
) -> Result<Pages<RowBytes>, NoMemory>
    requires { Ascends row_value_order rows.now }
    ensures { IfOk result (λ pages. pages ≡ rows.now) }
{
    let pages = new_pages(rt, alloc, rows, workers)?;
    let pages = Pages::from_pages(alloc, pages)?;
    Ok(pages)
}
