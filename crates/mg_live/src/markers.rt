//! Types that are never constructed: proofs use them to name the entries, the rules and the steps.
use crate::commit_log::Addition;
use crate::database::Database;
use crate::snapshot::Snapshot;
use crossbeam_utils::rule::{Outcome, Protocol};
use logbook::{Gain, Plain, Play, Rule};
use mg_engine::Command;
use mg_shard::Placement;
use std::marker::PhantomData;

// ---- the commit log

/// An entry of the commit log: the seat that made the commit, its command, and the key of the pen for the entry after it.
pub struct Entry {
    pub seat: usize,
    pub command: Command,
    pub next: usize,
}

/// The rule of the commit log: its first word is the number of its entries, and the pen of each entry is used up.
pub struct LogRule;

impl Rule<Entry, u64> for LogRule {
    ghost use Rattle.std.specs.Prelude.{[]};
    ghost use base.Fml.{ftrue};
    ghost use Rattle.mg_live.specs.Rules.{IsKept};

    ghost holds = { λ cells log. IsKept cells log };

    ghost first = { [] };

    ghost hinted = { λ n log. Unit {0} };

    ghost shows = { λ log. [] };

    ghost keeps = { λ names log. ftrue };

    ghost moves = { λ ask before after answer. Unit {0} };
}

/// A seat gains nothing from a step.
pub(crate) struct NoGain;

impl Gain<Entry, u64> for NoGain {
    ghost use base.Fml.{ftrue};

    ghost after = { λ names about answer. ftrue };
}

/// A step that takes a new pen.
pub(crate) struct TakePen;

impl Play<Entry, u64> for TakePen {
    ghost use Rattle.mg_live.specs.Rules.{Takes};

    ghost then = { Takes };
}

impl Plain<(), Entry, u64> for TakePen {
    ghost use Rattle.std.specs.Prelude.{None};
    ghost use Rattle.mg_engine.specs.declared.command.Command.TheVariants.{ListIndexes};
    ghost use Rattle.mg_live.specs.Rules.{log_entry};

    // the step adds no entry
    ghost ask = { λ nothing. log_entry 0 ListIndexes 0 };

    ghost state = { λ nothing. None };
}

/// A step that adds an entry right after what had been seen of the log.
pub(crate) struct AddEntry;

impl Play<Entry, u64> for AddEntry {
    ghost use Rattle.mg_live.specs.Rules.{Adds};

    ghost then = { Adds };
}

impl Plain<Addition, Entry, u64> for AddEntry {
    ghost use Rattle.std.specs.Prelude.{None};
    ghost use Rattle.mg_live.specs.Rules.{log_entry};

    ghost ask = { λ a. log_entry a.write.seat a.write.command.value a.next.nib.key };

    ghost state = { λ a. None };
}

// ---- what is published

/// The rule of what is published: it is a snapshot of the database `D`, whose documents `P` places.
pub struct SnapshotRule<D, P> {
    of: PhantomData<D>,
    by: PhantomData<P>,
}

impl<D: Database, P: Placement> Protocol<Snapshot<P>, ()> for SnapshotRule<D, P> {
    ghost use Rattle.mg_live.specs.Snapshots.{IsSnapshotOf};

    ghost holds = { λ x views. IsSnapshotOf P.place D.commit_log D.db D.shards x };

    ghost first = { tt };
}

impl<D: Database, P: Placement> Outcome<Snapshot<P>, ()> for SnapshotRule<D, P> {
    ghost use Rattle.mg_live.specs.Snapshots.{IsSnapshotOf};

    ghost then = { λ v x y w. IsSnapshotOf P.place D.commit_log D.db D.shards y };
}
