//! The library's surface, for callers other than this program: what a shard serves and keeps, edits that are lent, rows that are given, and
//! documents dealt without a thread.
ghost use Rattle.std.specs.Prelude.{◌≡◌, map, option_map, unwrap_or, IfOk, ◌<◌};
ghost use Rattle.mg_shard.specs.Documents.{docs_of, form_at, tree_at, StandFor};
ghost use Rattle.mg_pages.specs.Reading.{past};
ghost use Rattle.mg_shard.specs.Edits.{after_edits, outcome_view, outcomes};
ghost use Rattle.mg_shard.specs.Histories.{Histories};
ghost use Rattle.mg_shard.specs.Shard.{rows_at, shards_view};
ghost use Rattle.mg_collate.specs.Row.{row_value_order, rows_view};
ghost use Rattle.mg_index.specs.Catalog.{with_definition};
ghost use Rattle.mg_shard.specs.Rows.{rows_of};
ghost use Rattle.mg_shard.specs.Redealt.{Redeals};

use crate::docs::Docs;
use crate::draft::Draft;
use crate::index_ref::IndexRef;
use crate::index_rows::pages_of_rows;
use crate::new_shards::make_in_turn;
use crate::placement::Placement;
use crate::redealt::deal;
use crate::reply::EditReply;
use crate::shard::Shard;
use mg_collate::{Direction, Row};
use mg_doc::Edit;
use mg_index::IndexDef;
use mg_packed::Part;
use mg_pages::Iter;
use mg_revtree::RevTree;
use mg_rows::RowBytes;
use mg_value::NoMemory;
use std::alloc::Global;
use std::sync::Arc;

/// The rows of an index that are left, in the order of key, then id; `next_back` gives them from the last to the first.
pub type Rows<'a> = Iter<'a, RowBytes>;

impl Shard {
    /// Returns the form in which the document with this id is served; `None` if there is no such document, or it is deleted. Takes no
    /// memory. Cost: one look-up.
    pub fn served(&self, id: &str) -> Option<Part<'_>>
        ensures { result ≡ form_at self.now.documents id.now }
    {
        match self.document(id) {
            Some(document) => document.form(),
            None => None,
        }
    }

    /// Returns the revision tree of the document with this id, deleted or not; `None` if there is no such document. Takes no memory.
    /// Cost: one look-up.
    pub fn tree(&self, id: &str) -> Option<&RevTree>
        ensures { option_map (λ t. t.now) result ≡ tree_at self.now.documents id.now }
    {
        match self.document(id) {
            Some(document) => Some(&document.tree),
            None => None,
        }
    }

    /// Lists the served documents in the order of their ids, from both ends. Takes no memory. Cost: a step a document, deleted ones too.
    pub fn docs(&self) -> Docs<'_>
        ensures { result ≡ docs_of self.now.documents }
    {
        Docs::over(self.documents.all().iter())
    }

    /// Lists the rows of the index of this design document and name, in the order of key, then id, from both ends; `None` if there is no such
    /// index. They are the rows of an index that is made from scratch of the served documents. Takes no memory. Cost: one look-up of the
    /// index by its name, and then a step a row.
    pub fn rows(&self, ddoc: &str, name: &str) -> Option<Rows<'_>>
        ensures { result ≡ rows_at ddoc.now name.now self.now }
    {
        let place = 0;
        match self.index_rows(IndexRef { ddoc, name, place }) {
            Some(rows) => Some(rows.iter()),
            None => None,
        }
    }

    /// Lists the rows that come after a row in a direction, in the index of this design document and name: ascending, those above it;
    /// descending, those below it. They are listed as by `rows`, in the order of key, then id, from both ends. `None` if there is no such
    /// index. The row itself is not listed, and the index need not have it. Takes no memory. Cost: that of `rows`, and three look-ups.
    pub fn rows_after(
        &self,
        ddoc: &str,
        name: &str,
        row: &RowBytes,
        direction: Direction,
    ) -> Option<Rows<'_>>
        ensures { result
            ≡ option_map (past direction (row_value_order row.now)) (rows_at ddoc.now name.now self.now) }
    {
        let place = 0;
        match self.index_rows(IndexRef { ddoc, name, place }) {
            Some(rows) => Some(rows.past(row, direction)),
            None => None,
        }
    }

    /// Applies edits that have ids, in order, and returns the shard after them and the outcome of each. This shard does not change.
    ///
    /// Errors: `NoMemory` if an allocation fails, or at a limit that `RevTree::merge_with` or `serve_form` has. A refused edit is not an
    /// error. Cost: that of `Draft::apply_all`, which copies each edit and moves the copy's body into the tree of its document; and that of
    /// `Draft::finish` or, if the edits touch no document, that of `share`. `Draft::apply` takes an edit by value, and does not copy it.
    pub fn apply(&self, alloc: Global, edits: &[Edit]) -> Result<(Shard, Vec<EditReply>), NoMemory>
        ensures stands { IfOk result
            (λ r. (hs : Histories) → StandFor self.now.documents hs
            → StandFor r.0.documents (after_edits hs edits.now)) }
        ensures indexes { IfOk result (λ r. r.0.definitions ≡ self.now.definitions) }
        ensures replies { IfOk result
            (λ r. (hs : Histories) → StandFor self.now.documents hs
            → map outcome_view r.1.items ≡ outcomes hs edits.now) }
    {
        let mut draft = Draft::new(alloc, self);
        let replies = draft.apply_all(alloc, edits)?;
        let next = draft.finish(alloc)?;
        Ok((self.or_shared(alloc, next)?, replies))
    }

    // Returns `next`; if it is `None`, a shard that shares the pages of this one.
    fn or_shared(&self, alloc: Global, next: Option<Shard>) -> Result<Shard, NoMemory>
        ensures { IfOk result (λ s. s ≡ unwrap_or next self.now) }
    {
        match next {
            Some(shard) => Ok(shard),
            None => Ok(self.share(alloc)?),
        }
    }

    /// Makes the shard that also has an index of this definition with these rows, which must be those that `rows_for` returns, in the same
    /// order. It replaces an index of the same design document and name.
    ///
    /// Errors: `NoMemory` if an allocation fails. Cost: the bytes of the rows, and that of `with_pages`.
    pub fn with_rows(
        &self,
        alloc: Global,
        definition: &IndexDef,
        rows: Vec<Row>,
    ) -> Result<Shard, NoMemory>
        requires { rows_view rows.items ≡ rows_of definition.now.columns (docs_of self.now.documents) }
        ensures { IfOk result
            (λ s. s ≡ record self.now { definitions = with_definition definition.now self.now.definitions }) }
    {
        let rows = pages_of_rows(alloc, &rows)?;
        self.with(alloc, definition.copy()?, rows)
    }
}

/// Deals the documents of these former shards to a new number of shards: each document goes, with its tree, to the shard that the
/// placement gives, whatever placement dealt it before. If several former shards have a document with the same id, the last one is kept.
/// Each new shard has the indexes of the first former shard, with the rows of its own documents; if there is no former shard, the new ones
/// are empty. Documents, trees and definitions are shared with the lent shards, not copied. Starts no thread.
///
/// Errors: `NoMemory` if an allocation fails. Cost: for each document its placement, a step for each new shard, an insertion, and the
/// bytes of its row in each index; and a sort of the rows of each index in each shard.
pub fn redeal<P: Placement>(
    alloc: Global,
    former: &[Arc<Shard>],
    placement: &P,
    shards: usize,
) -> Result<Vec<Shard>, NoMemory>
    requires { 0 < shards }
    ensures { IfOk result
        (λ v. Redeals (P.place placement.now) shards (shards_view former.now) v.items) }
{
    let dealt = deal(alloc, former, placement, shards)?;
    let made = make_in_turn(
        alloc,
        &dealt.documents,
        &dealt.places,
        &dealt.indexes,
        shards,
    )?;
    Ok(made)
}
