//! One write or read of a session over a connection.
ghost use Rattle.std.specs.Prelude.{◌≡◌, ◌⊎◌, ◌↔◌, ◌<◌, ◌≤◌, ◌+◌, ℕ, List, [], ◌++◌, length, None, Some, false, IsTrue, IsErrOf, IfErr};
ghost use Rattle.std.specs.Io.KnownBytes.{Consumes, IsAtEnd};
ghost use Rattle.mg_server.specs.Turns.{HasWrote};
ghost use Rattle.mg_http.specs.declared.sessions.connection.Ending.TheVariants as ending;
ghost use Rattle.mg_http.specs.Connection.{sent, waiting, Transfers, Rests, EndsBy};
ghost use Rattle.mg_http.specs.Device.{inner_of, has_failed};

use crate::sessions::SessionEnd;
use crate::sessions::connection::Connection;
use crate::sessions::device::Device;
use std::io::{ErrorKind, Read, Write};

/// Writes once. If a signal interrupts the write, it is tried again next time.
///
/// Errors: `WriteFault` if the writer failed.
fn send<W: Write>(connection: &mut Connection<'_>, writer: &mut Device<W>) -> Result<(), SessionEnd>
    requires { has_failed writer.old ≡ false }
    ensures transfers { Transfers connection.old connection.new [] }
    ensures wrote { HasWrote (W.contents (inner_of writer.old)) (W.contents (inner_of writer.new)) (sent connection.old) (sent connection.new) }
    ensures write_fault { IsTrue (has_failed writer.new) ↔ IsErrOf result SessionEnd.WriteFault }
    ensures ends { IfErr result (λ end. end ≡ SessionEnd.WriteFault) }
{
    match writer.inner.write(connection.output.chunk()) {
        Ok(count) if count > 0 => {
            connection.count(count);
            Ok(())
        }
        Err(error) if error.kind() == ErrorKind::Interrupted => Ok(()),
        _ => {
            writer.failed = true;
            Err(SessionEnd::WriteFault)
        }
    }
}

/// Reads once. If a signal interrupts the read, it is tried again next time; such a read is not counted.
///
/// Errors: `Eof` at the end of the input, `ReadFault` if the reader failed, and `Limit` if the reader gave bytes 4,294,967,295 times.
fn fetch<R: Read>(
    connection: &mut Connection<'_>,
    reader: &mut Device<R>,
    reads: &mut u32,
) -> Result<(), SessionEnd>
    requires reading { has_failed reader.old ≡ false }
    requires goes_on { connection.old.end ≡ None }
    requires sent { waiting connection.old ≡ [] }
    ensures transfers { (came : List ℕ) × Consumes (R.remaining (inner_of reader.old)) (R.remaining (inner_of reader.new)) came
        × Transfers connection.old connection.new came × (reads.new ≤ reads.old + length came) }
    ensures sent { sent connection.new ≡ sent connection.old }
    ensures eof { IsErrOf result SessionEnd.Eof → IsAtEnd (R.remaining (inner_of reader.new)) }
    ensures read_fault { IsTrue (has_failed reader.new) ↔ IsErrOf result SessionEnd.ReadFault }
    ensures limit { IsErrOf result SessionEnd.Limit → reads.old ≡ 4294967295 }
    ensures ends { IfErr result (λ end. Rests connection.old → EndsBy connection.new end) }
    ensures write_fault { ¬ (IsErrOf result SessionEnd.WriteFault) }
{
    if *reads == u32::MAX {
        return Err(SessionEnd::Limit);
    }
    match connection.receive(&mut reader.inner) {
        Ok(Some(0)) => Err(SessionEnd::Eof),
        Ok(Some(_)) => {
            *reads += 1;
            Ok(())
        }
        Ok(None) => Ok(()),
        Err(error) if error.kind() == ErrorKind::Interrupted => Ok(()),
        Err(_) => {
            reader.failed = true;
            Err(SessionEnd::ReadFault)
        }
    }
}

/// Sends what waits to be sent. If nothing does, reads, or ends the session as the connection has ended.
///
/// Errors: how the session ends.
pub(crate) fn exchange<R: Read, W: Write>(
    connection: &mut Connection<'_>,
    reader: &mut Device<R>,
    writer: &mut Device<W>,
    reads: &mut u32,
) -> Result<(), SessionEnd>
    requires reading { has_failed reader.old ≡ false }
    requires writing { has_failed writer.old ≡ false }
    ensures transfers { (came : List ℕ) × Consumes (R.remaining (inner_of reader.old)) (R.remaining (inner_of reader.new)) came
        × Transfers connection.old connection.new came × (reads.new ≤ reads.old + length came) }
    ensures wrote { HasWrote (W.contents (inner_of writer.old)) (W.contents (inner_of writer.new)) (sent connection.old) (sent connection.new) }
    ensures eof { IsErrOf result SessionEnd.Eof → IsAtEnd (R.remaining (inner_of reader.new)) }
    ensures read_fault { IsTrue (has_failed reader.new) ↔ IsErrOf result SessionEnd.ReadFault }
    ensures write_fault { IsTrue (has_failed writer.new) ↔ IsErrOf result SessionEnd.WriteFault }
    ensures limit { IsErrOf result SessionEnd.Limit → (connection.old.end ≡ Some ending.Limit) ⊎ (reads.old ≡ 4294967295) }
    ensures ends { IfErr result (λ end. Rests connection.old → EndsBy connection.new end) }
{
    if !connection.output.is_empty() {
        return send(connection, writer);
    }
    match connection.end {
        Some(ending) => Err(ending.session_end()),
        None => fetch(connection, reader, reads),
    }
}
