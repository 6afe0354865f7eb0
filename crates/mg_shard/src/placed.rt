//! Documents of several shards with the places that a placement gives them.
ghost use Rattle.std.specs.Prelude.{◌≡◌, ◌<◌, ◌==◌, ℕ, IfOk, List, OnOk, false, length, true};
ghost use Rattle.std.specs.FinMap.{get};
ghost use Rattle.std.specs.Option.{option_or};
ghost use Rattle.mg_pages.specs.Identified.{id_order};
ghost use Rattle.mg_pages.specs.Order.{inserted};
ghost use Rattle.mg_shard.specs.Documents.{id_bytes, kept_documents};
ghost use Rattle.mg_shard.specs.Redealt.{ArePlaces, KeepsThose, documents_in, documents_view, kept_in, last_kept};
ghost use Rattle.mg_shard.specs.Shard.{shards_view};

use crate::document::Document;
use crate::placement::Placement;
use crate::shard::Shard;
use mg_pages::{Element, Pages, Shared};
use mg_value::NoMemory;
use std::alloc::Global;
use std::sync::Arc;

/// Lists the documents of all these shards, deleted ones too, one shard after the other. They are lent, not copied.
///
/// Errors: `NoMemory` if an allocation fails. Cost: a step a document.
pub(crate) fn all_documents<'a>(
    alloc: Global,
    shards: &'a [Arc<Shard>],
) -> Result<Vec<&'a Shared<Document>>, NoMemory>
    ensures { IfOk result
        (λ v. (id : List ℕ)
        → last_kept (documents_view v.items) id ≡ kept_in (documents_in (shards_view shards.now)) id) }
{
    let mut all = Vec::new(alloc);
    for shard in shards {
        add_documents(shard, &mut all)?;
    }
    Ok(all)
}

// Appends the documents of one more shard to `all`.
fn add_documents<'a>(shard: &'a Shard, all: &mut Vec<&'a Shared<Document>>) -> Result<(), NoMemory>
    ensures { OnOk result ((id : List ℕ) → last_kept (documents_view all.new.items) id
        ≡ option_or (get shard.now.documents id) (last_kept (documents_view all.old.items) id)) }
{
    for document in shard.documents.all().iter() {
        all.push(document)?;
    }
    Ok(())
}

/// Finds the shard of each of these documents, among the given number of shards. Only the caller's thread asks the placement, which
/// therefore need not be `Sync`.
///
/// Errors: `NoMemory` if an allocation fails. Cost: the placement of each document.
pub(crate) fn places_of<P: Placement>(
    alloc: Global,
    placement: &P,
    documents: &[&Shared<Document>],
    count: usize,
) -> Result<Vec<usize>, NoMemory>
    requires { 0 < count }
    ensures { IfOk result
        (λ v. ArePlaces (P.place placement.now) count (documents_view documents.now) v.items) }
{
    let mut places = Vec::with_capacity(alloc, documents.len())?;
    for document in documents {
        places.push(placement.shard_of(document.get().id(), count))?;
    }
    Ok(places)
}

// Inserts a document of the shard `own` into `there`, the documents of the shard `place`, if `own` is `place`.
fn put_if(
    alloc: Global,
    there: &mut Pages<Shared<Document>>,
    document: &Shared<Document>,
    own: usize,
    place: usize,
) -> Result<(), NoMemory>
    ensures here { OnOk result ((own == place) ≡ true
        → there.new ≡ inserted (id_order id_bytes) document.now there.old) }
    ensures elsewhere { OnOk result ((own == place) ≡ false → there.new ≡ there.old) }
{
    if own == place {
        there.insert(alloc, document.again()?)?;
    }
    Ok(())
}

/// Collects the documents whose number in `places` is `place`. If several of them have one id, the last is kept.
///
/// Errors: `NoMemory` if an allocation fails. Cost: a step a document, and an insertion for each that is placed there.
pub(crate) fn documents_at(
    alloc: Global,
    documents: &[&Shared<Document>],
    places: &[usize],
    place: usize,
) -> Result<Pages<Shared<Document>>, NoMemory>
    requires { length places.now ≡ length documents.now }
    ensures { IfOk result
        (λ ds. KeepsThose (documents_view documents.now) places.now place (kept_documents ds)) }
{
    let mut there = Pages::new(alloc);
    for k in 0..documents.len() {
        put_if(alloc, &mut there, documents[k], places[k], place)?;
    }
    Ok(there)
}
