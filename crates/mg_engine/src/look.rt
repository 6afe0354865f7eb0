//! Answers questions.
ghost use Rattle.std.specs.Prelude.{◌≡◌, IfOk, Option, Some, option_and_then, option_map};
ghost use Rattle.std.specs.FinMap as finite;
ghost use Rattle.std.specs.FinMap.{get};
ghost use Rattle.mg_value.specs.View.{view};
ghost use Rattle.mg_revtree.specs.History.{Paths, winner_of};
ghost use Rattle.mg_revtree.specs.Tree.{StandsFor};
ghost use Rattle.mg_shard.specs.Documents.{StandsAt};
ghost use Rattle.mg_engine.specs.Questions.{answer_to, leaf_answer, winner_answer, winner_shown};
ghost use Rattle.mg_engine.specs.QuestionView.{question_view};
ghost use Rattle.mg_engine.specs.Stands.{StateStandsFor};
ghost use Rattle.mg_engine.specs.View.{reply_view};
ghost use Rattle.mg_engine.specs.World.{World};

use crate::body::line;
use crate::context::Context;
use crate::more::{leaf_asked, with_more, with_revisions_if};
use crate::question::{More, Question};
use crate::read::shard_of;
use crate::refusal::Refusal;
use crate::reply::Reply;
use crate::state::State;
use mg_doc::leaf_document;
use mg_revtree::{Rev, RevTree};
use mg_scan::Gate;
use mg_shard::laws::each_id_has_its_shard;
use mg_shard::{Placement, Shard};
use mg_value::{Json, NoMemory};
use std::alloc::Global;
use std::thread::Threads;

impl State {
    /// Makes the reply to a question, at a point of the log with this many commits. Errors: `NoMemory` if an allocation fails, or at a limit
    /// that `describe` has.
    pub(crate) fn look<P: Placement, R: Threads + Sync, G: Gate + Sync>(
        &self,
        context: &Context<'_, R, G>,
        placement: &P,
        question: &Question,
        commits: u64,
    ) -> Result<Reply, NoMemory>
        ensures { IfOk result (λ r. (w : World) → StateStandsFor (P.place placement.now) self.now w
            → reply_view r ≡ Some (answer_to w commits (question_view question.now))) }
    {
        let alloc = context.alloc;
        match question {
            Question::Database => Ok(self.describe(alloc, commits)?),
            Question::Leaf {
                id,
                rev,
                latest,
                path,
            } => Ok(self.leaf(alloc, placement, id, rev, *latest, *path)?),
            Question::Winner { id, more } => Ok(self.winner(alloc, placement, id, *more)?),
            Question::Keys { ids, documents } => Ok(self.list_keys(
                alloc, placement, ids, *documents,
            )?),
            Question::Range(listing) => Ok(self.list_range(context, listing)?),
            Question::Design(ddoc) => Ok(self.design(alloc, ddoc)?),
        }
    }

    // Makes the reply that shows the leaf of a document. Errors: `NoMemory` if an allocation fails.
    fn leaf<P: Placement>(
        &self,
        alloc: Global,
        placement: &P,
        id: &str,
        rev: &Rev,
        latest: bool,
        path: bool,
    ) -> Result<Reply, NoMemory>
        ensures { IfOk result (λ r. (w : World) → StateStandsFor (P.place placement.now) self.now w
            → reply_view r ≡ Some (leaf_answer id.now rev.now latest path (finite.get w.docs id.now))) }
    {
        each_id_has_its_shard();
        let shard = shard_of(placement, &self.shards, id);
        let reply = leaf_from(alloc, shard, id, rev, latest, path)?;
        Ok(reply)
    }

    // Makes the reply that shows the winner of a document with what is asked for beside it. Errors: `NoMemory` if an allocation fails.
    fn winner<P: Placement>(
        &self,
        alloc: Global,
        placement: &P,
        id: &str,
        more: More,
    ) -> Result<Reply, NoMemory>
        ensures { IfOk result (λ r. (w : World) → StateStandsFor (P.place placement.now) self.now w
            → reply_view r ≡ Some (winner_answer id.now more (finite.get w.docs id.now))) }
    {
        each_id_has_its_shard();
        let shard = shard_of(placement, &self.shards, id);
        let reply = winner_from(alloc, shard, id, more)?;
        Ok(reply)
    }
}

// Makes the reply that shows the winner of a document, whose id is placed on this shard. Errors: `NoMemory` if an allocation fails.
fn winner_from(alloc: Global, shard: &Shard, id: &str, more: More) -> Result<Reply, NoMemory>
    ensures { IfOk result (λ r. (o : Option Paths) → StandsAt id.now (get shard.now.documents id.now) o
        → reply_view r ≡ Some (winner_answer id.now more o)) }
{
    let Some(document) = shard.document(id) else {
        return Ok(Reply::refusing(alloc, Refusal::Missing)?);
    };
    match winner_json(alloc, id, document.tree(), more)? {
        Some(shown) => {
            let body = line(alloc, &shown)?;
            Ok(Reply::Full { status: 200, body })
        }
        None => Ok(Reply::refusing(alloc, Refusal::Deleted)?),
    }
}

// Makes the document that is served, with what is asked for beside it; `None` if the winner is deleted. Errors: `NoMemory` if an
// allocation fails.
fn winner_json(
    alloc: Global,
    id: &str,
    tree: &RevTree,
    more: More,
) -> Result<Option<Json>, NoMemory>
    ensures { IfOk result (λ o. (h : Paths) → StandsFor tree.now h
        → option_map view o ≡ option_and_then (winner_shown more id.now h) (winner_of h)) }
{
    let Some(leaf) = tree.winner() else {
        return Ok(None);
    };
    if leaf.deleted {
        return Ok(None);
    }
    let document = leaf_document(alloc, id, leaf)?;
    let shown = with_more(alloc, document, tree, &leaf.rev, more)?;
    Ok(Some(shown))
}

// Makes the reply that shows the leaf of a document, whose id is placed on this shard. Errors: `NoMemory` if an allocation fails.
fn leaf_from(
    alloc: Global,
    shard: &Shard,
    id: &str,
    rev: &Rev,
    latest: bool,
    path: bool,
) -> Result<Reply, NoMemory>
    ensures { IfOk result (λ r. (o : Option Paths) → StandsAt id.now (get shard.now.documents id.now) o
        → reply_view r ≡ Some (leaf_answer id.now rev.now latest path o)) }
{
    let Some(document) = shard.document(id) else {
        return Ok(Reply::refusing(alloc, Refusal::Missing)?);
    };
    let tree = document.tree();
    let Some(leaf) = leaf_asked(alloc, tree, rev, latest)? else {
        return Ok(Reply::refusing(alloc, Refusal::Missing)?);
    };
    let shown = leaf_document(alloc, id, leaf)?;
    let shown = with_revisions_if(alloc, shown, tree, &leaf.rev, path)?;
    let body = line(alloc, &shown)?;
    Ok(Reply::Full { status: 200, body })
}
