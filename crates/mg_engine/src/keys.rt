//! The rows of documents, by their ids.
ghost use Rattle.std.specs.Prelude.{◌≡◌, ◌<◌, IfOk, List, Option, Some, false, length, map, string_bytes};
ghost use Rattle.std.specs.FinMap as finite;
ghost use Rattle.std.specs.FinMap.{get};
ghost use Rattle.mg_value.specs.Value.{text};
ghost use Rattle.mg_value.specs.View.{view};
ghost use Rattle.mg_revtree.specs.History.{Leaf as LeafValue, Paths, winner_of};
ghost use Rattle.mg_revtree.specs.Tree.{StandsFor};
ghost use Rattle.mg_shard.specs.Documents.{StandsAt};
ghost use Rattle.mg_engine.specs.Commands.{ok_answer};
ghost use Rattle.mg_engine.specs.Questions.{absent_row, key_row, keys_value, revision_value, row_document, row_of_key, rows_value, winner_row};
ghost use Rattle.mg_engine.specs.Stands.{StateStandsFor};
ghost use Rattle.mg_engine.specs.View.{reply_view};
ghost use Rattle.mg_engine.specs.World.{World};

use crate::body::line;
use crate::database::{count_docs, count_json};
use crate::read::shard_of;
use crate::reply::Reply;
use crate::state::State;
use mg_doc::leaf_document;
use mg_revtree::{Leaf, RevTree};
use mg_shard::laws::each_id_has_its_shard;
use mg_shard::{Placement, Shard};
use mg_value::{Json, NoMemory};
use std::alloc::Global;

impl State {
    /// Makes the reply with the rows of these ids.
    ///
    /// Errors: `NoMemory` if an allocation fails, or if there are more than 9,223,372,036,854,775,807 documents. Cost: for each id the
    /// placement, one look-up in one shard, its row, and a copy of the document if it is asked for; and the number of shards.
    pub(crate) fn list_keys<P: Placement>(
        &self,
        alloc: Global,
        placement: &P,
        ids: &[String],
        documents: bool,
    ) -> Result<Reply, NoMemory>
        ensures { IfOk result (λ r. (w : World) → StateStandsFor (P.place placement.now) self.now w
            → reply_view r ≡ Some (ok_answer (keys_value w.docs documents (map string_bytes ids.now)))) }
    {
        let total = count_docs(&self.shards)?;
        let rows = self.rows_of(alloc, placement, ids, documents)?;
        let listed = rows_json(alloc, 0, total, rows)?;
        let body = line(alloc, &listed)?;
        Ok(Reply::Full { status: 200, body })
    }

    // Makes the rows of these ids, in their order. Errors: `NoMemory` if an allocation fails.
    fn rows_of<P: Placement>(
        &self,
        alloc: Global,
        placement: &P,
        ids: &[String],
        documents: bool,
    ) -> Result<Vec<Json>, NoMemory>
        ensures { IfOk result (λ rows. (w : World) → StateStandsFor (P.place placement.now) self.now w
            → map view rows.items
            ≡ map (λ id. row_of_key documents (string_bytes id) (finite.get w.docs (string_bytes id))) ids.now) }
    {
        let mut rows = Vec::with_capacity(alloc, ids.len())?;
        for id in ids {
            rows.push(self.row_of(alloc, placement, id, documents)?)?;
        }
        Ok(rows)
    }

    // Makes the row of an id. Errors: `NoMemory` if an allocation fails.
    fn row_of<P: Placement>(
        &self,
        alloc: Global,
        placement: &P,
        id: &str,
        documents: bool,
    ) -> Result<Json, NoMemory>
        ensures { IfOk result (λ row. (w : World) → StateStandsFor (P.place placement.now) self.now w
            → view row ≡ row_of_key documents id.now (finite.get w.docs id.now)) }
    {
        each_id_has_its_shard();
        let shard = shard_of(placement, &self.shards, id);
        let row = row_from(alloc, shard, id, documents)?;
        Ok(row)
    }
}

// Makes the row of an id that is placed on this shard. Errors: `NoMemory` if an allocation fails.
fn row_from(alloc: Global, shard: &Shard, id: &str, documents: bool) -> Result<Json, NoMemory>
    ensures { IfOk result (λ row. (o : Option Paths) → StandsAt id.now (get shard.now.documents id.now) o
        → view row ≡ row_of_key documents id.now o) }
{
    match shard.document(id) {
        Some(document) => row_in(alloc, document.tree(), id, documents),
        None => absent_json(alloc, id),
    }
}

// Makes the row of the document with this tree. Errors: `NoMemory` if an allocation fails.
fn row_in(alloc: Global, tree: &RevTree, id: &str, documents: bool) -> Result<Json, NoMemory>
    ensures { IfOk result (λ row. (h : Paths) → StandsFor tree.now h
        → view row ≡ winner_row documents id.now (winner_of h)) }
{
    match tree.winner() {
        Some(leaf) => leaf_row(alloc, leaf, id, documents),
        None => absent_json(alloc, id),
    }
}

// Makes the row of a document with this winner. Errors: `NoMemory` if an allocation fails.
fn leaf_row(alloc: Global, leaf: &Leaf, id: &str, documents: bool) -> Result<Json, NoMemory>
    ensures { IfOk result
        (λ row. view row ≡ key_row documents (text id.now) (revision_value leaf.now) (row_document id.now leaf.now)) }
{
    let row = bare_row(alloc, leaf, id)?;
    if !documents {
        return Ok(row);
    }
    let mut shown = row;
    shown.insert(alloc, "doc", row_document(alloc, leaf, id)?)?;
    Ok(shown)
}

// Makes the row of a document with this winner, without the document. Errors: `NoMemory` if an allocation fails.
fn bare_row(alloc: Global, leaf: &Leaf, id: &str) -> Result<Json, NoMemory>
    ensures { IfOk result
        (λ row. view row ≡ key_row false (text id.now) (revision_value leaf.now) (row_document id.now leaf.now)) }
{
    let mut row = Json::empty_object(alloc);
    row.insert(alloc, "id", Json::Text(String::from_str(alloc, id)?))?;
    row.insert(alloc, "key", Json::Text(String::from_str(alloc, id)?))?;
    row.insert(alloc, "value", revision_json(alloc, leaf)?)?;
    Ok(row)
}

// Makes `{"rev":..}`, with `"deleted":true` if the leaf deletes its document. Errors: `NoMemory` if an allocation fails.
fn revision_json(alloc: Global, leaf: &Leaf) -> Result<Json, NoMemory>
    ensures { IfOk result (λ v. view v ≡ revision_value leaf.now) }
{
    let mut revision = Json::empty_object(alloc);
    revision.insert(alloc, "rev", Json::Text(leaf.rev.text(alloc)?))?;
    if !leaf.deleted {
        return Ok(revision);
    }
    let mut marked = revision;
    marked.insert(alloc, "deleted", Json::Flag(true))?;
    Ok(marked)
}

// Makes the document that a row shows; null if it is deleted. Errors: `NoMemory` if an allocation fails.
fn row_document(alloc: Global, leaf: &Leaf, id: &str) -> Result<Json, NoMemory>
    ensures { IfOk result (λ v. view v ≡ row_document id.now leaf.now) }
{
    if leaf.deleted {
        return Ok(Json::Null);
    }
    leaf_document(alloc, id, leaf)
}

// Makes the row of an id that has no document. Errors: `NoMemory` if an allocation fails.
fn absent_json(alloc: Global, id: &str) -> Result<Json, NoMemory>
    ensures { IfOk result (λ v. view v ≡ absent_row id.now) }
{
    let mut row = Json::empty_object(alloc);
    row.insert(
        alloc,
        "error",
        Json::Text(String::from_str(alloc, "not_found")?),
    )?;
    row.insert(alloc, "key", Json::Text(String::from_str(alloc, id)?))?;
    Ok(row)
}

// Makes the value with these rows. Errors: `NoMemory` if an allocation fails, or as for `count_json`.
fn rows_json(alloc: Global, offset: usize, total: usize, rows: Vec<Json>) -> Result<Json, NoMemory>
    ensures { IfOk result (λ v. view v ≡ rows_value offset total (map view rows.items)) }
{
    let mut listed = Json::empty_object(alloc);
    listed.insert(alloc, "offset", count_json(offset)?)?;
    listed.insert(alloc, "rows", Json::List(rows))?;
    listed.insert(alloc, "total_rows", count_json(total)?)?;
    Ok(listed)
}
