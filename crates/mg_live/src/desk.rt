//! The desk, which the writer's lock guards: the right to add to the commit log; the writer, which publishes all commits; the book of the
//! tallies, which count them; and what keeps the commits.
ghost use Rattle.std.specs.Prelude.{◌≡◌, ◌≤◌, true, [], length, IfErr, IfSome, MatchBool, MatchOption};
ghost use Rattle.mg_engine.specs.Commands.{is_write};
ghost use Rattle.mg_engine.specs.View.{command_view, reply_view};
ghost use Rattle.mg_machine.specs.Laws.{IsPrefix};
ghost use Rattle.mg_machine.specs.Machine.{commands_of};
ghost use Rattle.mg_live.specs.Keeping.{IsRecordOf};
ghost use Rattle.mg_live.specs.Published.{Publishes, standing};
ghost use Rattle.mg_live.specs.Adding.{AddsAfter};
ghost use Rattle.mg_live.specs.Snapshots.{HasSnapshot, IsSnapshotOf, commits_of};
ghost use Rattle.mg_live.specs.View.{commits_view};

use crate::commit_log::{LogWriter, Prefix, Write};
use crate::database::{Database, Keeper};
use crate::publication::{SnapshotWriter, publish};
use crate::record::Record;
use crate::snapshot::Snapshot;
use crate::tally::Tally;
use core::mem::replace;
use left_right::Absorb;
use mg_engine::{Prepared, Reply};
use mg_shard::Placement;
use std::alloc::Global;
use std::marker::Model;
use std::sync::Wait;
use std::sync::ledger::{Book, Share};
use std::thread::Threads;

/// What the writer's lock guards: the right to add to the commit log, the writer, the book of the tallies, and what keeps the commits.
/// Contracts see the published commits, which are all commits of the log, and those that are kept.
pub struct Desk<D: Database, C: Keeper, P: Placement + Drop>
where
    Snapshot<P>: Absorb<(), State = ()>,
{
    log: LogWriter,
    writer: SnapshotWriter<D, P>,
    tally_book: Book<D>,
    keeper: C,
}

impl<D: Database, C: Keeper, P: Placement + Drop> Model for Desk<D, C, P>
where
    Snapshot<P>: Absorb<(), State = ()>,
{
    ghost use Rattle.std.specs.Prelude.{◌≡◌, List, length};
    ghost use Rattle.mg_live.specs.Code.{commits_code};
    ghost use Rattle.mg_machine.specs.Machine.{Commit, commands_of};

    ghost Value = { List Commit };

    ghost coded = { commits_code };

    ghost use Rattle.mg_live.specs.Adding.{AddsAfter};
    ghost use Rattle.mg_live.specs.Snapshots.{IsSnapshotOf, commits_of};

    ghost view = { λ d. commits_of d.writer.desk.shown.value };

    ghost invariant = { λ d. (d.tally_book.total ≡ length (commits_of d.writer.desk.shown.value))
        × IsSnapshotOf P.place D.commit_log D.db D.shards d.writer.desk.shown.value
        × AddsAfter d.log D.commit_log d.writer.desk.shown.value.prefix.seen.log
        × C.keeps d.keeper (commands_of (commits_of d.writer.desk.shown.value)) };
}

impl<D: Database, C: Keeper, P: Placement + Drop> Drop for Desk<D, C, P>
where
    Snapshot<P>: Absorb<(), State = ()>,
{
    fn drop(self) {
        let Desk {
            log: _,
            writer,
            tally_book: _,
            keeper,
        } = self;
        keeper.end(writer);
    }
}

impl<D: Database, C: Keeper, P: Placement + Drop> Desk<D, C, P>
where
    Snapshot<P>: Absorb<(), State = ()>,
{
    // Makes a desk with no commit.
    pub(crate) fn new(
        keeper: C,
        log: LogWriter,
        writer: SnapshotWriter<D, P>,
        tally_book: Book<D>,
    ) -> Desk<D, C, P>
        requires empty { (writer.desk.shown.value.prefix.seen.log ≡ []) × (tally_book.total ≡ 0) }
        requires log { AddsAfter log D.commit_log [] }
        requires keeps { C.keeps keeper [] }
        requires here { IsSnapshotOf P.place D.commit_log D.db D.shards writer.desk.shown.value }
        ensures { result ≡ [] }
    {
        Desk {
            log,
            writer,
            tally_book,
            keeper,
        }
    }

    // Executes a write of a seat, after all published commits, and returns its reply. If the write is accepted, it is kept, then published
    // in one step, and the seat's tally counts it. Unless the reply is `NoMemory`, the seat has then seen what is published. All memory is
    // taken before the write is kept, and nothing after that can fail. `publish` may wait for readers; the copy that it replaces comes back
    // with the reply, so that the caller can drop it without the lock. If nothing was published, `None` comes back.
    //
    // The reply is `NoMemory`, and nothing has changed, if an allocation fails, if there are too many references to the engine or to a part
    // of it, if the write may not be kept, or if the seat has seen more commits than are published.
    pub(crate) fn write<R: Wait + Threads + Sync>(
        &mut self,
        rt: &R,
        alloc: Global,
        write: Write,
        prepared: Prepared,
        text: Option<Record>,
        tally: &mut Tally<D>,
        prefix: &mut Prefix,
    ) -> (Reply, Option<Snapshot<P>>)
        requires write { is_write (command_view write.command.value) ≡ true }
        requires prepared { prepared ≡ command_view write.command.value }
        requires text { IfSome text (λ r. IsRecordOf r (command_view write.command.value)) }
        requires here { prefix.old.seen.book ≡ D.commit_log }
        ensures here { prefix.new.seen.book ≡ D.commit_log }
        ensures publishes { Publishes D.db (write.seat, command_view write.command.value)
            (standing self.old prefix.old tally.old) (reply_view result.0)
            (standing self.new prefix.new tally.new) }
    {
        let now = self.writer.published();
        if !prefix.begins(&now.prefix) {
            return (Reply::NoMemory, None);
        }
        let (reply, next) = now.next::<D, C, R>(
            rt,
            alloc,
            &mut self.log,
            &mut self.keeper,
            write,
            prepared,
            text,
        );
        match next {
            None => {
                see_answered(&reply, prefix, &now.prefix);
                (reply, None)
            }
            Some(next) => {
                *prefix = next.prefix.again();
                tally.add(&mut self.tally_book);
                let before = publish(rt, &mut self.writer, next);
                (reply, Some(before))
            }
        }
    }

    // Has another keeper keep the commits after those of this prefix, which it keeps already. Returns the keeper before.
    //
    // Errors: the keeper comes back, and nothing has changed, if the prefix has not all published commits.
    pub(crate) fn replace_keeper(&mut self, prefix: &Prefix, keeper: C) -> Result<C, C>
        requires here { prefix.now.seen.book ≡ D.commit_log }
        requires keeps { C.keeps keeper (commands_of (commits_view prefix.now.seen.log)) }
        ensures same { self.new ≡ self.old }
        ensures back { IfErr result (λ k. k ≡ keeper) }
    {
        let now = self.writer.published();
        if prefix.len() != now.prefix.len() || !prefix.begins(&now.prefix) {
            return Err(keeper);
        }
        Ok(replace(&mut self.keeper, keeper))
    }

    // Lets a seat catch up with all published commits, and returns true. If the seat has seen more commits than are published, returns
    // false and changes nothing.
    pub(crate) fn catch_up(&self, prefix: &mut Prefix) -> bool
        requires { prefix.old.seen.book ≡ D.commit_log }
        ensures here { prefix.new.seen.book ≡ D.commit_log }
        ensures caught_up { MatchBool result ((commits_view prefix.new.seen.log ≡ self.now)
            × IsPrefix (commits_view prefix.old.seen.log) self.now) (prefix.new ≡ prefix.old) }
        ensures published { HasSnapshot P.place D.db D.shards self.now }
    {
        let now = self.writer.published();
        if !prefix.begins(&now.prefix) {
            return false;
        }
        *prefix = now.prefix.again();
        true
    }

    // Returns the number of published commits, which all parts of the ledger count together. The prefix `seen` is at most as long, so the
    // published commits begin with it.
    pub(crate) fn count_commits(&mut self, all: &mut Share<D>, seen: &Prefix) -> u64
        requires parts { all.old.parts ≡ D.parts }
        requires here { seen.now.seen.book ≡ D.commit_log }
        requires within { length (commits_view seen.now.seen.log) ≤ all.old.amount }
        ensures same { self.new ≡ self.old }
        ensures commits { (result ≡ length self.old) × (result ≡ all.old.amount) }
        ensures begins { IsPrefix (commits_view seen.now.seen.log) self.old }
    {
        self.tally_book.audit(all);
        let now = self.writer.published();
        if !seen.begins(&now.prefix) {
            unreachable!();
        }
        now.prefix.len()
    }
}

// Lets a seat see what is published, unless the reply is `NoMemory`.
fn see_answered(reply: &Reply, prefix: &mut Prefix, published: &Prefix)
    ensures { MatchOption (reply_view reply.now) (prefix.new ≡ prefix.old) (λ a. prefix.new ≡ published.now) }
{
    match reply {
        Reply::NoMemory => {}
        Reply::Full { .. } => *prefix = published.again(),
    }
}
