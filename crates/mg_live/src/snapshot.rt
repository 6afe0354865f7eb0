//! Snapshots: a database as it stood after some of its commits.
ghost use Rattle.std.specs.Prelude.{◌≡◌, ◌≤◌, true, length, All, IfOk, IfSome, MatchOption, option_map};
ghost use Rattle.std.specs.Arc.{arc_value};
ghost use Rattle.mg_engine.specs.Commands.{is_write};
ghost use Rattle.mg_engine.specs.Questions.{doc_count};
ghost use Rattle.mg_engine.specs.Settled.{accepts};
ghost use Rattle.mg_engine.specs.Stands.{Stands};
ghost use Rattle.mg_engine.specs.View.{command_view, reply_view};
ghost use Rattle.mg_engine.specs.World.{World};
ghost use Rattle.mg_live.specs.Published.{WriteLeaves};
ghost use Rattle.mg_live.specs.Keeping.{IsRecordOf};
ghost use Rattle.mg_live.specs.Snapshots.{IsSnapshotOf, commits_of, state_of};
ghost use Rattle.mg_machine.specs.Machine.{commands_of};
ghost use Rattle.mg_shard.specs.Shard.{shards_view};
ghost use Rattle.mg_live.specs.Adding.{AddsAfter};

use crate::commit_log::{LogWriter, Prefix, Write};
use crate::database::{Database, Keeper};
use crate::record::Record;
use mg_engine::{Prepared, Reply};
use mg_index::Catalog;
use mg_machine::Point;
use mg_shard::{Md5Placement, Placement, Shard};
use std::alloc::{AllocError, Global};
use std::sync::Arc;
use std::thread::Threads;

/// A database as it stood after some of its commits. A snapshot never changes.
#[derive(Drop)]
pub struct Snapshot<P = Md5Placement> {
    pub(crate) point: Point<P>,
    pub(crate) prefix: Prefix,
}

impl<P: Placement + Drop> Snapshot<P> {
    /// Returns the catalog of the database's indexes. Takes no memory.
    pub fn catalog(&self) -> &Catalog
        ensures { result.now ≡ (state_of self.now).catalog }
    {
        self.point.engine.catalog()
    }

    /// Counts the documents that are not deleted; `None` if there are more than a `usize` counts. Takes no memory. Cost: the number of
    /// shards.
    pub fn count(&self) -> Option<usize>
        ensures { (w : World) → Stands P.place (arc_value self.now.point.engine) w
            → IfSome result (λ n. n ≡ doc_count w.docs) }
    {
        self.point.engine.count()
    }

    /// Returns the database's shards. Each has the rows of the indexes of the catalog, and of no other index. Takes no memory.
    pub fn shards(&self) -> &[Arc<Shard>]
        ensures shards { shards_view result.now ≡ (state_of self.now).shards }
        ensures number { length result.now ≡ length (state_of self.now).shards }
        ensures rows { All (λ s. s.definitions ≡ (state_of self.now).catalog) (shards_view result.now) }
    {
        self.point.engine.shards()
    }

    // Makes a copy of this snapshot, which shares the engine. Takes no memory.
    //
    // Errors: `AllocError` if there are too many references to the engine.
    pub(crate) fn again(&self) -> Result<Snapshot<P>, AllocError>
        ensures prefix { IfOk result (λ s. s.prefix ≡ self.now.prefix) }
        ensures engine { IfOk result (λ s. arc_value s.point.engine ≡ arc_value self.now.point.engine) }
        ensures commits { IfOk result (λ s. s.point.commits ≡ self.now.point.commits) }
    {
        let engine = self.point.engine.clone()?;
        let commits = self.point.commits;
        Ok(Snapshot {
            point: Point { engine, commits },
            prefix: self.prefix.again(),
        })
    }

    // Executes a write after the commits of this snapshot, which are all entries of the commit log, and returns its reply and the snapshot
    // after it; `None` unless the write is accepted. An accepted write is kept, and is then the next entry of the commit log. The reply is
    // `NoMemory`, and the commit log is unchanged, if an allocation fails, if there are too many references to the engine or to a part of
    // it, or if the write may not be kept. Cost: that of the engine's `commit_prepared`, and of keeping.
    pub(crate) fn next<D: Database, C: Keeper, R: Threads + Sync>(
        &self,
        rt: &R,
        alloc: Global,
        log: &mut LogWriter,
        keeper: &mut C,
        write: Write,
        prepared: Prepared,
        text: Option<Record>,
    ) -> (Reply, Option<Snapshot<P>>)
        requires write { is_write (command_view write.command.value) ≡ true }
        requires prepared { prepared ≡ command_view write.command.value }
        requires log { AddsAfter log.old D.commit_log self.now.prefix.seen.log }
        requires here { IsSnapshotOf P.place D.commit_log D.db D.shards self.now }
        requires text { IfSome text (λ r. IsRecordOf r (command_view write.command.value)) }
        requires keeps { C.keeps keeper.old (commands_of (commits_of self.now)) }
        ensures next { WriteLeaves D.db (commits_of self.now) (write.seat, command_view write.command.value)
            (reply_view result.0)
            (option_map commits_of result.1) }
        ensures log { MatchOption result.1 (log.new ≡ log.old)
            (λ s. AddsAfter log.new D.commit_log s.prefix.seen.log) }
        ensures keeps { MatchOption result.1 (C.keeps keeper.new (commands_of (commits_of self.now)))
            (λ s. C.keeps keeper.new (commands_of (commits_of s))) }
        ensures there { IfSome result.1 (λ s. IsSnapshotOf P.place D.commit_log D.db D.shards s) }
    {
        let Ok((reply, point)) = self
            .point
            .write_prepared(rt, alloc, prepared, write.workers)
        else {
            return (Reply::NoMemory, None);
        };
        if !accepts(&reply) {
            return (reply, None);
        }
        let Ok(()) = keeper.keep(text) else {
            return (Reply::NoMemory, None);
        };
        let prefix = log.add(&self.prefix, write);
        (reply, Some(Snapshot { point, prefix }))
    }
}

// Whether a reply says that its command was accepted: its status is 200 or 201.
fn accepts(reply: &Reply) -> bool
    ensures { result ≡ accepts reply.now }
{
    match reply {
        Reply::Full { status, body: _ } => *status == 200 || *status == 201,
        Reply::NoMemory => false,
    }
}
