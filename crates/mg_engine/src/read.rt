//! The command that gets a document.
ghost use Rattle.std.specs.Prelude.{◌≡◌, ◌<◌, IfOk, Option, Some, length, slice_get};
ghost use Rattle.std.specs.FinMap as finite;
ghost use Rattle.std.specs.FinMap.{get};
ghost use Rattle.mg_revtree.specs.History.{Paths};
ghost use Rattle.mg_revtree.specs.Tree.{StandsFor};
ghost use Rattle.mg_doc.specs.Conflicts.{with_conflicts_of};
ghost use Rattle.mg_shard.specs.Documents.{StandsAt, form_of};
ghost use Rattle.mg_engine.specs.Bodies.{line_of};
ghost use Rattle.mg_engine.specs.Commands.{get_answer};
ghost use Rattle.mg_engine.specs.Stands.{StateStandsFor};
ghost use Rattle.mg_shard.specs.Shard.{shards_view};
ghost use Rattle.mg_engine.specs.View.{reply_view};
ghost use Rattle.mg_engine.specs.World.{World};

use crate::body::{line, text_line, with_line_feed};
use crate::refusal::Refusal;
use crate::reply::Reply;
use crate::state::State;
use mg_doc::with_conflicts;
use mg_packed::Part;
use mg_revtree::RevTree;
use mg_shard::laws::each_id_has_its_shard;
use mg_shard::{Document, Placement, Shard};
use mg_value::NoMemory;
use std::alloc::Global;
use std::sync::Arc;

impl State {
    /// Makes the reply to a `GET` of a document: the document, or a refusal if there is none with this id or it is deleted.
    ///
    /// Errors: `NoMemory` if an allocation fails. Cost: the placement, one look-up in one shard, and a copy of the document's text; if
    /// conflicts are asked for, a copy of the document instead, the leaves of its tree, and the reply.
    pub(crate) fn get<P: Placement>(
        &self,
        alloc: Global,
        placement: &P,
        id: &str,
        conflicts: bool,
    ) -> Result<Reply, NoMemory>
        ensures { IfOk result (λ r. (w : World) → StateStandsFor (P.place placement.now) self.now w
            → reply_view r ≡ Some (get_answer id.now conflicts (finite.get w.docs id.now))) }
    {
        each_id_has_its_shard();
        let shard = shard_of(placement, &self.shards, id);
        let reply = get_from(alloc, shard, id, conflicts)?;
        Ok(reply)
    }
}

/// Returns the shard on which an id is placed. There must be a shard.
pub(crate) fn shard_of<'a, P: Placement>(
    placement: &P,
    shards: &'a [Arc<Shard>],
    id: &str,
) -> &'a Shard
    requires { 0 < length shards.now }
    ensures { slice_get (shards_view shards.now)
        (P.place placement.now id.now (length (shards_view shards.now))) ≡ Some result.now }
{
    let place = placement.shard_of(id, shards.len());
    let shard = &shards[place];
    shard
}

// Makes the reply to a `GET` of a document. Its id is placed on this shard.
fn get_from(alloc: Global, shard: &Shard, id: &str, conflicts: bool) -> Result<Reply, NoMemory>
    ensures { IfOk result (λ r. (o : Option Paths) → StandsAt id.now (get shard.now.documents id.now) o
        → reply_view r ≡ Some (get_answer id.now conflicts o)) }
{
    let Some(document) = shard.document(id) else {
        return Ok(Reply::refusing(alloc, Refusal::Missing)?);
    };
    let Some(form) = document.form() else {
        return Ok(Reply::refusing(alloc, Refusal::Deleted)?);
    };
    let body = if conflicts {
        conflicted_line(alloc, &form, document.tree())?
    } else {
        served_line(alloc, document, &form)?
    };
    Ok(Reply::Full { status: 200, body })
}

// Writes the line of a document with its conflicts.
fn conflicted_line(alloc: Global, form: &Part<'_>, tree: &RevTree) -> Result<Vec<u8>, NoMemory>
    ensures { IfOk result
        (λ b. (h : Paths) → StandsFor tree.now h → b.items ≡ line_of (with_conflicts_of h form.now)) }
{
    let document = form.to_json(alloc)?;
    let shown = with_conflicts(alloc, document, tree)?;
    let body = line(alloc, &shown)?;
    Ok(body)
}

// Writes the line of a document that is served in this form. A served document keeps its text, and this text is copied. Only a deleted
// document has no text (`None`), and it is not served.
fn served_line(alloc: Global, document: &Document, form: &Part<'_>) -> Result<Vec<u8>, NoMemory>
    requires { form_of document.now ≡ Some form.now }
    ensures { IfOk result (λ b. b.items ≡ line_of form.now) }
{
    let body = match document.compact_text() {
        Some(text) => text_line(alloc, text)?,
        None => with_line_feed(form.compact_text(alloc)?)?,
    };
    Ok(body)
}
