//! The entries of the reply to a bulk, written as text.
ghost use Rattle.std.specs.Prelude.{◌≡◌, ◌++◌, IfOk, OnOk};
ghost use Rattle.mg_value.specs.Held.{items_tokens_of, tokens_of};
ghost use Rattle.mg_value.specs.Value.{Items, list};
ghost use Rattle.mg_engine.specs.Bodies.{line_of};
ghost use Rattle.mg_engine.specs.Bulk.{done_entry, entry_before, entry_of, refused_entry};
ghost use Rattle.mg_engine.specs.Outcomes.{entries_view, reply_in, id_view};

use crate::body::with_line_feed;
use crate::bulk::apply::EditOutcome;
use crate::refusal::{BAD_HISTORY_ERROR, BAD_HISTORY_REASON, CONFLICT_ERROR, CONFLICT_REASON};
use json::Writer;
use mg_revtree::Rev;
use mg_shard::EditReply;
use mg_value::NoMemory;
use std::alloc::Global;

// How many bytes are reserved for each edit at first. Most entries fit: with a first revision, an entry takes 63 bytes and the id.
const ENTRY_ROOM: usize = 96;

/// Writes the line of the reply to a bulk: an entry for each edit or, if `new_edits` is false, for each edit that is refused.
///
/// Errors: `NoMemory` if an allocation fails. Cost: the length of the line, in one buffer that starts with `first_room` bytes.
pub(crate) fn entries_line(
    alloc: Global,
    new_edits: bool,
    outcomes: &[EditOutcome],
) -> Result<Vec<u8>, NoMemory>
    ensures { IfOk result (λ b. b.items ≡ line_of (list (entries_view new_edits outcomes.now))) }
{
    let room = first_room(new_edits, outcomes.len());
    let mut out = Writer::new(Vec::with_capacity(alloc, room)?);
    out.begin_array()?;
    write_entries(alloc, new_edits, outcomes, &mut out)?;
    Ok(with_line_feed(out.into_inner())?)
}

// Returns how many bytes are reserved at first for the entries of this many edits. If `new_edits` is false, only a refused edit has an
// entry: nothing is reserved, and the buffer grows with the entries.
fn first_room(new_edits: bool, edits: usize) -> usize {
    if new_edits {
        edits.saturating_mul(ENTRY_ROOM)
    } else {
        0
    }
}

// Writes the entries and the closing bracket.
fn write_entries(
    alloc: Global,
    new_edits: bool,
    outcomes: &[EditOutcome],
    out: &mut Writer,
) -> Result<(), NoMemory>
    ensures tokens { OnOk result (out.new.tokens
        ≡ out.old.tokens ++ items_tokens_of (entries_view new_edits outcomes.now)) }
    ensures before { OnOk result (out.new.before ≡ out.old.before) }
{
    for outcome in outcomes {
        write_entry(alloc, new_edits, outcome, out)?;
    }
    out.end_array()?;
    Ok(())
}

// Writes the entry of an edit, if the edit has one. In the contract, `vs` are the entries that follow.
fn write_entry(
    alloc: Global,
    new_edits: bool,
    outcome: &EditOutcome,
    out: &mut Writer,
) -> Result<(), NoMemory>
    ensures tokens { OnOk result ((vs : Items) → out.new.tokens ++ items_tokens_of vs
        ≡ out.old.tokens ++ items_tokens_of
        (entry_before (entry_of new_edits (id_view outcome.now) (reply_in outcome.now)) vs)) }
    ensures before { OnOk result (out.new.before ≡ out.old.before) }
{
    let id = outcome.id.as_str();
    match &outcome.reply {
        EditReply::Done(rev) => if new_edits {
            Ok(write_done(alloc, id, rev, out)?)
        } else {
            Ok(())
        },
        EditReply::Conflict => Ok(write_refused(CONFLICT_ERROR, id, CONFLICT_REASON, out)?),
        EditReply::BadHistory => Ok(write_refused(BAD_HISTORY_ERROR, id, BAD_HISTORY_REASON, out)?),
    }
}

fn write_done(alloc: Global, id: &str, rev: &Rev, out: &mut Writer) -> Result<(), NoMemory>
    ensures tokens { OnOk result (out.new.tokens ≡ out.old.tokens ++ tokens_of (done_entry id.now rev.now)) }
    ensures before { OnOk result (out.new.before ≡ out.old.before) }
{
    let rev = rev.text(alloc)?;
    out.begin_object()?;
    out.key("id")?;
    out.string(id)?;
    out.key("ok")?;
    out.boolean(true)?;
    out.key("rev")?;
    out.string(&rev)?;
    out.end_object()?;
    Ok(())
}

fn write_refused(error: &str, id: &str, reason: &str, out: &mut Writer) -> Result<(), NoMemory>
    ensures tokens { OnOk result (out.new.tokens
        ≡ out.old.tokens ++ tokens_of (refused_entry error.now id.now reason.now)) }
    ensures before { OnOk result (out.new.before ≡ out.old.before) }
{
    out.begin_object()?;
    out.key("error")?;
    out.string(error)?;
    out.key("id")?;
    out.string(id)?;
    out.key("reason")?;
    out.string(reason)?;
    out.end_object()?;
    Ok(())
}
