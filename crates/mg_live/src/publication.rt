//! The published snapshot: readers take it without a lock, and one writer replaces it.
ghost use Rattle.std.specs.Prelude.{◌≡◌, IfOk};
ghost use Rattle.mg_live.specs.Snapshots.{IsSnapshotOf};

use crate::database::Database;
use crate::markers::SnapshotRule;
use crate::snapshot::Snapshot;
use core::mem::{replace, replace_with};
use left_right::Absorb;
use left_right::reader::Reader;
use left_right::writer::Writer;
use mg_shard::Placement;
use std::alloc::AllocError;
use std::sync::Wait;

// `left_right` asks how an operation changes a copy. Its writer never gets an operation here: a new snapshot replaces a whole copy.
// Every `Snapshot<P>` implements `Absorb`; a type that holds a writer repeats the bound, since the prover does not look for the impl
// of a generic type there.
impl<P> Absorb<()> for Snapshot<P> {
    type State = ();

    ghost state = { λ s. tt };

    ghost applied = { λ s operation. s };

    fn absorb_first(&mut self, _operation: &(), _other: &Snapshot<P>) -> Result<(), AllocError> {
        Ok(())
    }
}

/// Reads the published snapshot.
pub(crate) type SnapshotReader<D, P> = Reader<Snapshot<P>, (), SnapshotRule<D, P>>;

/// Replaces the published snapshot.
pub type SnapshotWriter<D, P> = Writer<Snapshot<P>, (), (), SnapshotRule<D, P>>;

/// Publishes a snapshot in one step. There are two copies: the published one, and the spare, which was published before that one. Waits
/// for the readers that still look at the spare, replaces it by the snapshot, and publishes the snapshot; the copy that was published
/// until then becomes the spare. Returns the replaced copy; dropping it frees what it alone holds. Takes no memory, and cannot fail.
pub(crate) fn publish<D: Database, P: Placement + Drop, R: Wait>(
    rt: &R,
    writer: &mut SnapshotWriter<D, P>,
    snapshot: Snapshot<P>,
) -> Snapshot<P>
where
    Snapshot<P>: Absorb<(), State = ()>,
    requires { IsSnapshotOf P.place D.commit_log D.db D.shards snapshot }
    ensures { writer.new.desk.shown.value ≡ snapshot }
{
    replace_with(writer, snapshot, |writer, snapshot| {
        show(rt, writer, snapshot)
    })
}

// Does what `publish` does, for a writer that is moved in and returned.
fn show<D: Database, P: Placement + Drop, R: Wait>(
    rt: &R,
    writer: SnapshotWriter<D, P>,
    snapshot: Snapshot<P>,
) -> (SnapshotWriter<D, P>, Snapshot<P>)
where
    Snapshot<P>: Absorb<(), State = ()>,
    requires { IsSnapshotOf P.place D.commit_log D.db D.shards snapshot }
    ensures { result.0.desk.shown.value ≡ snapshot }
{
    let mut writer = writer;
    let (open, mut spare) = writer.desk.open(rt);
    let before = replace(&mut *spare, snapshot);
    writer.desk = open.show_as::<SnapshotRule<D, P>>(spare);
    (writer, before)
}

/// Returns the reader, and a copy of the snapshot that is published now. Takes no memory, and waits for nobody.
///
/// Errors: `AllocError` if there are too many references to the engine, or if the writer has ended. It does not end while a seat exists.
pub(crate) fn copy_published<D: Database, P: Placement + Drop>(
    reader: SnapshotReader<D, P>,
) -> (SnapshotReader<D, P>, Result<Snapshot<P>, AllocError>)
    ensures { IfOk result.1 (λ s. IsSnapshotOf P.place D.commit_log D.db D.shards s) }
{
    match reader.enter_as::<SnapshotRule<D, P>>() {
        Ok(reading) => {
            let snapshot = reading.get().again();
            (reading.leave(), snapshot)
        }
        Err(reader) => (reader, Err(AllocError)),
    }
}
