//! What hits lend, and the hit of a row or a document.
ghost use Rattle.std.specs.Prelude.{◌≡◌, true, None, Some, is_some, option_map, IfOk, IfSome, if◌then◌else◌};
ghost use Rattle.mg_collate.specs.Row.{row_view};
ghost use Rattle.mg_value.specs.View.{items_view};
ghost use Rattle.mg_scan.specs.Hit.{IsHitOf, hit_form, hit_kept, hit_row, hit_text};
ghost use Rattle.mg_scan.specs.Kept.{IsRowAmong};
ghost use Rattle.mg_scan.specs.Sourced.{asked, holds_for};
ghost use Rattle.mg_scan.specs.Walked.{holds_at, id_row};
ghost use Rattle.mg_shard.specs.Documents.{form_at, kept_of};

use crate::hit::Hit;
use crate::hit_row::HitRow;
use mg_collate::Row;
use mg_merge::Ranked;
use mg_normal::Normal;
use mg_packed::{Packed, Part};
use mg_rows::RowBytes;
use mg_shard::{Document, Shard};
use mg_value::{Json, NoMemory};
use std::alloc::Global;
use std::cmp::Ordering;

impl<'a> Hit<'a> {
    /// Copies the key of the hit's row. Errors: `NoMemory` if an allocation fails. Cost: the size of the key.
    pub fn key(&self, alloc: Global) -> Result<Vec<Json>, NoMemory>
        ensures { IfOk result (λ key. items_view key.items ≡ (hit_row self.now).0) }
    {
        self.row.key(alloc)
    }

    /// Returns the id of the hit's document. Takes no memory.
    pub fn id(&self) -> &'a str
        ensures { result.now ≡ (hit_row self.now).1 }
    {
        self.row.id()
    }

    /// Returns the hit's document. Takes no memory. Cost: a look-up, if none was made to find the row.
    pub fn document(&self) -> &'a Document
        ensures { Some (kept_of result.now) ≡ hit_kept self.now }
    {
        match self.document {
            Some(document) => document,
            None => match self.shard.document(self.row.id()) {
                Some(document) => document,
                None => unreachable!(),
            },
        }
    }

    // Returns the form in which the hit's document is served. Cost: that of `document`.
    fn written(&self) -> &'a Packed
        ensures { Some result.now ≡ hit_form self.now }
    {
        match self.document().written() {
            Some(form) => form,
            None => unreachable!(),
        }
    }

    /// Returns the form in which the hit's document is served. Takes no memory. Cost: that of `document`.
    pub fn form(&self) -> Part<'a>
        ensures { Some result ≡ hit_form self.now }
    {
        self.written().part()
    }

    /// Returns the compact text of the form in which the hit's document is served. Takes no memory. Cost: that of `document`.
    pub fn compact_text(&self) -> &'a [u8]
        ensures { Some result.now ≡ hit_text self.now }
    {
        self.written().compact_text()
    }

    /// Copies the hit's row. Errors: `NoMemory` if an allocation fails. Cost: the size of the row.
    pub fn row(&self, alloc: Global) -> Result<Row, NoMemory>
        ensures { IfOk result (λ row. row_view row ≡ hit_row self.now) }
    {
        self.row.row(alloc)
    }
}

impl<'a> Ranked for Hit<'a> {
    ghost row_of = { hit_row };

    fn order(&self, other: &Hit<'a>) -> Ordering {
        self.row.compare(&other.row)
    }
}

// Whether a document is served and the selector holds of it.
fn holds(document: &Document, normal: &Normal) -> bool
    ensures { result ≡ holds_for normal.now document.now }
{
    match document.written() {
        Some(form) => normal.holds_of(form.part()),
        None => false,
    }
}

/// Returns the hit of a row whose document is served; `None` if a selector is asked that does not hold of it. Cost: with a selector a
/// look-up of the document, and the selector.
pub(crate) fn hit_at_row<'a>(
    shard: &'a Shard,
    row: &'a RowBytes,
    selector: Option<&Normal>,
) -> Option<Hit<'a>>
    requires { is_some (form_at shard.now.documents row.now.1) ≡ true }
    ensures row { option_map hit_row result
        ≡ if holds_at (asked (option_map (λ n. n.now) selector.entry)) shard.now.documents row.now.1 then Some row.now else None }
    ensures of { IfSome result (IsHitOf shard.now) }
{
    let found = HitRow::Bytes(row);
    let Some(normal) = selector else {
        return Some(Hit {
            shard,
            row: found,
            document: None,
        });
    };
    let document = shard.document(row.id())?;
    if !holds(document, normal) {
        return None;
    }
    Some(Hit {
        shard,
        row: found,
        document: Some(document),
    })
}

/// Returns the hit of a document that the shard keeps, and that has a row under this id in the index of all documents; `None` if a selector
/// is asked that does not hold of it. Cost: the selector.
pub(crate) fn hit_at_document<'a>(
    shard: &'a Shard,
    document: &'a Document,
    id: &'a str,
    selector: Option<&Normal>,
) -> Option<Hit<'a>>
    requires { IsRowAmong shard.now.documents document.now id.now }
    ensures row { option_map hit_row result
        ≡ if holds_for (asked (option_map (λ n. n.now) selector.entry)) document.now then Some (id_row id.now) else None }
    ensures of { IfSome result (IsHitOf shard.now) }
{
    let is_found = match selector {
        Some(normal) => holds(document, normal),
        None => true,
    };
    if !is_found {
        return None;
    }
    Some(Hit {
        shard,
        row: HitRow::Id(id),
        document: Some(document),
    })
}
