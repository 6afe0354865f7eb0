//! Methods of a shard for its indexes: they make the rows of an index, and add or remove an index.
ghost use Rattle.std.specs.Prelude.{◌≡◌, IfOk};
ghost use Rattle.mg_index.specs.Catalog.{with_definition, without_definition};
ghost use Rattle.mg_pages.specs.Runs.{elements_view};
ghost use Rattle.mg_shard.specs.Documents.{docs_in, docs_of};
ghost use Rattle.mg_shard.specs.Rows.{rows_of};

use crate::document::Document;
use crate::extracted::{pages_by_threads, rows_by_threads, rows_in_order};
use crate::index_entry::IndexEntry;
use crate::index_list::{insert_index, remove_index};
use crate::shard::Shard;
use mg_index::IndexDef;
use mg_pages::{Pages, Shared};
use mg_path::Path;
use mg_rows::RowBytes;
use mg_value::NoMemory;
use std::alloc::Global;
use std::thread::Threads;

impl Shard {
    // Lends the documents, as one slice for each page.
    fn runs(&self, alloc: Global) -> Result<Vec<&[Shared<Document>]>, NoMemory>
        ensures { IfOk result (λ v. docs_in (elements_view v.items) ≡ docs_of self.now.documents) }
    {
        let runs = self.documents.all().runs(alloc)?;
        Ok(runs)
    }

    /// Makes the rows that an index with these columns has, in the order of key, then id. The caller's thread does all the work.
    pub(crate) fn rows_alone(
        &self,
        alloc: Global,
        columns: &[Path],
    ) -> Result<Pages<RowBytes>, NoMemory>
        ensures { IfOk result (λ rows. rows ≡ rows_of columns.now (docs_of self.now.documents)) }
    {
        let runs = self.runs(alloc)?;
        let rows = rows_in_order(alloc, columns, &runs)?;
        let pages = Pages::from_sorted(alloc, &rows)?;
        Ok(pages)
    }

    // Makes what `rows_alone` makes, by at most `workers` threads.
    fn rows_together<R: Threads + Sync>(
        &self,
        rt: &R,
        alloc: Global,
        columns: &[Path],
        workers: usize,
    ) -> Result<Pages<RowBytes>, NoMemory>
        ensures { IfOk result (λ rows. rows ≡ rows_of columns.now (docs_of self.now.documents)) }
    {
        let runs = self.runs(alloc)?;
        let count = self.documents.all().len();
        let rows = rows_by_threads(rt, alloc, columns, &runs, count, workers)?;
        let pages = pages_by_threads(rt, alloc, &rows, workers)?;
        Ok(pages)
    }

    /// Makes the rows that an index of this definition has in this shard, in the order of key, then id, as `with_pages` takes them. They
    /// do not depend on the number of workers. At most `workers` threads, the caller's among them, and at most two for each processor,
    /// extract the rows, sort them and put them into pages; the caller's thread merges what they sorted. No thread is started for fewer
    /// than two workers, or for one page of documents.
    ///
    /// Errors: `NoMemory` if an allocation fails. Cost: a step for each document, the bytes of its row, a sort of the rows, and a step
    /// for each of them. A row takes a block of memory only if it is too long to be stored in the `RowBytes` itself.
    pub fn rows_for<R: Threads + Sync>(
        &self,
        rt: &R,
        alloc: Global,
        definition: &IndexDef,
        workers: usize,
    ) -> Result<Pages<RowBytes>, NoMemory>
        ensures { IfOk result (λ rows. rows ≡ rows_of definition.now.columns (docs_of self.now.documents)) }
    {
        if workers < 2 {
            return Ok(self.rows_alone(alloc, definition.columns())?);
        }
        Ok(self.rows_together(rt, alloc, definition.columns(), workers)?)
    }

    // Makes the shard that has an index of this definition with these rows. It replaces an index of the same design document and name.
    pub(crate) fn with(
        &self,
        alloc: Global,
        definition: IndexDef,
        rows: Pages<RowBytes>,
    ) -> Result<Shard, NoMemory>
        requires { rows ≡ rows_of definition.columns (docs_of self.now.documents) }
        ensures { IfOk result
            (λ s. s ≡ record self.now { definitions = with_definition definition self.now.definitions }) }
    {
        let index = IndexEntry::of(alloc, definition, rows)?;
        let indexes = insert_index(alloc, &self.indexes, index)?;
        let documents = self.documents.share(alloc)?;
        Ok(Shard { documents, indexes })
    }

    /// Makes the shard that also has an index of this definition. It replaces an index of the same design document and name.
    ///
    /// Errors: `NoMemory` if an allocation fails. Cost: that of `rows_for` with one worker, and that of `with_pages`.
    pub fn with_index(&self, alloc: Global, definition: &IndexDef) -> Result<Shard, NoMemory>
        ensures { IfOk result
            (λ s. s ≡ record self.now { definitions = with_definition definition.now self.now.definitions }) }
    {
        let rows = self.rows_alone(alloc, definition.columns())?;
        self.with(alloc, definition.copy()?, rows)
    }

    /// Makes the shard that also has an index of this definition with these rows, which must be those that `rows_for` returns. It replaces
    /// an index of the same design document and name.
    ///
    /// Errors: `NoMemory` if an allocation fails. Cost: that of `share`, a look-up, and a copy of one page of the list of indexes.
    pub fn with_pages(
        &self,
        alloc: Global,
        definition: &IndexDef,
        rows: Pages<RowBytes>,
    ) -> Result<Shard, NoMemory>
        requires { rows ≡ rows_of definition.now.columns (docs_of self.now.documents) }
        ensures { IfOk result
            (λ s. s ≡ record self.now { definitions = with_definition definition.now self.now.definitions }) }
    {
        self.with(alloc, definition.copy()?, rows)
    }

    /// Makes the shard without the index of this design document and name; if there is no such index, a shard with all that this one has.
    ///
    /// Errors: `NoMemory` if an allocation fails. Cost: that of `share`, a look-up, and a copy of one page of the list of indexes.
    pub fn without_index(&self, alloc: Global, ddoc: &str, name: &str) -> Result<Shard, NoMemory>
        ensures { IfOk result
            (λ s. s ≡ record self.now {
              definitions = without_definition ddoc.now name.now self.now.definitions;
            }) }
    {
        let documents = self.documents.share(alloc)?;
        let indexes = remove_index(alloc, &self.indexes, ddoc, name)?;
        Ok(Shard { documents, indexes })
    }
}
