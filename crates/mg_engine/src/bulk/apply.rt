//! Applies the edits of a bulk, each on the shard of its document.
ghost use Rattle.std.specs.Prelude.{◌≡◌, ◌<◌, IfOk, OnOk, map, length};
ghost use Rattle.mg_shard.specs.Dealt.{DraftsStandFor, ShardsStandFor};
ghost use Rattle.mg_shard.specs.Edits.{after_edit, after_edits, id_in, outcome_in, outcomes};
ghost use Rattle.mg_shard.specs.Histories.{Histories};
ghost use Rattle.mg_engine.specs.Outcomes.{reply_in, id_view};
ghost use Rattle.mg_engine.specs.Stands.{definitions_of};
ghost use Rattle.mg_engine.specs.StateView.{AllFinishAs, FinishesAs, before, fresh};
ghost use Rattle.mg_shard.specs.Shard.{shards_view};
ghost use Rattle.std.specs.Arc.{arc_value};

use mg_doc::Edit;
use mg_shard::laws::{
    drafts_become_shards, its_shard_decides_each_edit, its_shard_makes_each_edit,
    shards_become_drafts,
};
use mg_shard::{Draft, EditReply, Placement, Shard, id_in};
use mg_value::NoMemory;
use std::alloc::Global;
use std::sync::Arc;

/// The outcome of an edit, with the edit's id.
#[derive(Drop)]
pub(crate) struct EditOutcome {
    pub(crate) id: String,
    pub(crate) reply: EditReply,
}

/// Applies edits that have ids, in order, and moves their bodies into the shards. Returns the outcome of each edit, and the shards
/// after all of them.
///
/// Errors: `NoMemory` if an allocation fails, or if there are too many references to a shard or to a part of it. Cost: for each edit its
/// placement, a copy of its id and the cost of `Draft::apply`; for each shard the cost of `Draft::finish`.
pub(crate) fn apply_edits<P: Placement>(
    alloc: Global,
    placement: &P,
    shards: &[Arc<Shard>],
    edits: Vec<Edit>,
) -> Result<(Vec<EditOutcome>, Vec<Arc<Shard>>), NoMemory>
    requires { 0 < length shards.now }
    ensures replies { IfOk result
        (λ r. (hs : Histories) → ShardsStandFor (P.place placement.now) (shards_view shards.now) hs
        → map reply_in r.0.items ≡ outcomes hs edits.items) }
    ensures ids { IfOk result (λ r. map id_view r.0.items ≡ map id_in edits.items) }
    ensures stands { IfOk result
        (λ r. (hs : Histories) → ShardsStandFor (P.place placement.now) (shards_view shards.now) hs
        → ShardsStandFor (P.place placement.now) (shards_view r.1.items) (after_edits hs edits.items)) }
    ensures definitions { IfOk result
        (λ r. definitions_of (shards_view r.1.items) ≡ definitions_of (shards_view shards.now)) }
{
    shards_become_drafts();
    drafts_become_shards();
    let mut drafts = make_drafts(alloc, shards)?;
    let replies = edit_all(alloc, placement, &mut drafts, edits)?;
    Ok((replies, finish_drafts(alloc, drafts, shards)?))
}

// Makes a draft of each shard, in which no document is touched yet.
fn make_drafts<'a>(alloc: Global, shards: &'a [Arc<Shard>]) -> Result<Vec<Draft<'a>>, NoMemory>
    ensures { IfOk result (λ v. v.items ≡ map fresh (shards_view shards.now)) }
{
    let mut drafts = Vec::with_capacity(alloc, shards.len())?;
    for shard in shards {
        drafts.push(Draft::new(alloc, shard))?;
    }
    Ok(drafts)
}

// Applies edits in order, and returns the outcome of each. Some edits may be applied if this fails.
fn edit_all<P: Placement>(
    alloc: Global,
    placement: &P,
    drafts: &mut [Draft<'_>],
    edits: Vec<Edit>,
) -> Result<Vec<EditOutcome>, NoMemory>
    requires { 0 < length drafts.old }
    ensures replies { IfOk result
        (λ v. (hs : Histories) → DraftsStandFor (P.place placement.now) drafts.old hs
        → map reply_in v.items ≡ outcomes hs edits.items) }
    ensures ids { IfOk result (λ v. map id_view v.items ≡ map id_in edits.items) }
    ensures stands { OnOk result ((hs : Histories) → DraftsStandFor (P.place placement.now) drafts.old hs
        → DraftsStandFor (P.place placement.now) drafts.new (after_edits hs edits.items)) }
    ensures before { OnOk result (before drafts.new ≡ before drafts.old) }
{
    let mut outcomes = Vec::with_capacity(alloc, edits.len())?;
    for edit in edits {
        let outcome = edit_one(alloc, placement, drafts, edit)?;
        outcomes.push(outcome)?;
    }
    Ok(outcomes)
}

// Applies one edit to the draft of the shard on which its id is placed.
fn edit_one<P: Placement>(
    alloc: Global,
    placement: &P,
    drafts: &mut [Draft<'_>],
    edit: Edit,
) -> Result<EditOutcome, NoMemory>
    requires { 0 < length drafts.old }
    ensures reply { IfOk result (λ o. (hs : Histories) → DraftsStandFor (P.place placement.now) drafts.old hs
        → reply_in o ≡ outcome_in hs edit) }
    ensures id { IfOk result (λ o. id_view o ≡ id_in edit) }
    ensures stands { OnOk result ((hs : Histories) → DraftsStandFor (P.place placement.now) drafts.old hs
        → DraftsStandFor (P.place placement.now) drafts.new (after_edit hs edit)) }
    ensures before { OnOk result (before drafts.new ≡ before drafts.old) }
{
    its_shard_decides_each_edit();
    its_shard_makes_each_edit();
    let id = String::from_str(alloc, id_in(&edit))?;
    let place = placement.shard_of(id_in(&edit), drafts.len());
    let draft = &mut drafts[place];
    let reply = draft.apply(alloc, edit)?;
    Ok(EditOutcome { id, reply })
}

// Finishes the drafts, and returns the shard that each leaves. A shard whose draft touched no document is shared as it is.
fn finish_drafts(
    alloc: Global,
    drafts: Vec<Draft<'_>>,
    shards: &[Arc<Shard>],
) -> Result<Vec<Arc<Shard>>, NoMemory>
    requires { before drafts.items ≡ shards_view shards.now }
    ensures { IfOk result (λ v. AllFinishAs drafts.entry.items (shards_view v.items)) }
{
    let mut next_shards = Vec::with_capacity(alloc, shards.len())?;
    for draft in drafts {
        let shard = &shards[next_shards.len()];
        next_shards.push(finish_draft(alloc, draft, shard)?)?;
    }
    Ok(next_shards)
}

// Finishes the draft of a shard. If the draft touched no document, the shard is shared as it is. Errors: `NoMemory` if an allocation
// fails, or if there are too many references to the shard or to a part of it.
fn finish_draft(alloc: Global, draft: Draft<'_>, shard: &Arc<Shard>) -> Result<Arc<Shard>, NoMemory>
    requires { draft.shard ≡ arc_value shard.now }
    ensures { IfOk result (λ s. FinishesAs draft.entry (arc_value s)) }
{
    match draft.finish(alloc)? {
        Some(next) => Ok(Arc::new(alloc, next)?),
        None => Ok(shard.clone()?),
    }
}
