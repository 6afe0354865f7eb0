//! An index of a shard, as an element of the shard's list of indexes.
ghost use Rattle.std.specs.Prelude.{◌≡◌};

use crate::index_ref::IndexRef;
use crate::index_rows::mend_rows;
use mg_index::IndexDef;
use mg_packed::Packed;
use mg_pages::{Element, Keyed, Pages, Probe};
use mg_rows::{KeyBytes, RowBytes};
use mg_value::NoMemory;
use std::alloc::{AllocError, Global};
use std::cmp::Ordering;
use std::marker::Model;
use std::sync::Arc;

/// An index of a shard: its definition, and its rows by key and id. Both are shared.
#[derive(Drop)]
pub(crate) struct IndexEntry {
    definition: IndexDef,
    rows: Arc<Pages<RowBytes>>,
}

impl Model for IndexEntry {
    ghost use Rattle.std.specs.Arc.{arc_value};
    ghost use Rattle.mg_shard.specs.Index.{Index, index_code};

    ghost Value = { Index };

    ghost coded = { index_code };

    ghost view = { λ x. (x.definition, arc_value x.rows) };
}

impl Element for IndexEntry {
    fn again(&self) -> Result<IndexEntry, AllocError> {
        let rows = self.rows.clone()?;
        match self.definition.copy() {
            Ok(definition) => Ok(IndexEntry { definition, rows }),
            Err(NoMemory) => Err(AllocError),
        }
    }

    fn owners(&self) -> usize {
        Arc::strong_count(&self.rows)
    }
}

impl Keyed for IndexEntry {
    ghost use Rattle.mg_shard.specs.Index.{index_order, index_order_total};

    ghost order = { index_order };

    ghost total = { index_order_total };

    fn order(&self, other: &IndexEntry) -> Ordering {
        self.definition.order(&other.definition)
    }
}

impl<'a> Probe<IndexEntry> for IndexRef<'a> {
    ghost use Rattle.mg_shard.specs.Index.{name_against, name_probes};

    ghost against = { λ key x. name_against key.ddoc.now key.name.now x };

    ghost probes = { λ key. name_probes key.ddoc.now key.name.now };

    fn against(&self, element: &IndexEntry) -> Ordering {
        let by_ddoc = self.ddoc.cmp(element.definition.ddoc());
        by_ddoc.then(self.name.cmp(element.definition.name()))
    }
}

impl IndexEntry {
    ghost use Rattle.std.specs.Prelude.{◌≡◌, IfOk, OnOk, option_map};
    ghost use Rattle.std.specs.FinMap.{insert};
    ghost use Rattle.mg_index.specs.Catalog.{is_named};
    ghost use Rattle.mg_shard.specs.Documents.{KeptDocument, KeptDocuments, form_at};
    ghost use Rattle.mg_shard.specs.Index.{HasRows};

    /// Makes the index of this definition with these rows.
    ///
    /// Errors: `NoMemory` if an allocation fails. Cost: a block for the top of the rows.
    pub(crate) fn of(
        alloc: Global,
        definition: IndexDef,
        rows: Pages<RowBytes>,
    ) -> Result<IndexEntry, NoMemory>
        ensures { IfOk result (λ x. x ≡ (definition, rows)) }
    {
        let rows = Arc::new(alloc, rows)?;
        Ok(IndexEntry { definition, rows })
    }

    /// Returns the definition of the index. Takes no memory.
    pub(crate) fn definition(&self) -> &IndexDef
        ensures { result.now ≡ self.now.0 }
    {
        &self.definition
    }

    /// Whether the index has this design document and name. Takes no memory. Cost: a comparison of both texts.
    pub(crate) fn is_named(&self, ddoc: &str, name: &str) -> bool
        ensures { result ≡ is_named ddoc.now name.now self.now.0 }
    {
        self.definition.is_named(ddoc, name)
    }

    /// Returns the rows of the index. Takes no memory.
    pub(crate) fn rows(&self) -> &Pages<RowBytes>
        ensures { result.now ≡ self.now.1 }
    {
        &self.rows
    }

    /// Mends the rows for a change of the document with this id from the form `before` to the form `after`. `None`: the document is not
    /// served.
    ///
    /// Errors: `NoMemory` if an allocation fails; the index is then useless. Cost: as for `mend_rows`.
    pub(crate) fn mend(
        &mut self,
        alloc: Global,
        scratch: &mut KeyBytes,
        id: &str,
        before: Option<&Packed>,
        after: Option<&Packed>,
    ) -> Result<(), NoMemory>
        ensures definition { OnOk result (self.new.0 ≡ self.old.0) }
        ensures rows { OnOk result ((ds : KeptDocuments) (d : KeptDocument)
            → option_map (λ v. v.now) before.entry ≡ form_at ds id.now
            → option_map (λ v. v.now) after.entry ≡ d.1
            → HasRows ds self.old → HasRows (insert ds id.now d) self.new) }
    {
        mend_rows(
            alloc,
            scratch,
            &self.definition,
            &mut self.rows,
            id,
            before,
            after,
        )
    }
}
