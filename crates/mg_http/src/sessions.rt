//! A session: reads messages and writes their replies, until it ends in one of six ways.
ghost use Rattle.std.specs.Prelude.{◌≡◌, ◌↔◌, false, IsTrue};
ghost use Rattle.std.specs.Io.KnownBytes.{Appends, Consumes, IsAtEnd};
ghost use Rattle.mg_http.specs.Device.{inner_of, has_failed, was_starved};
ghost use Rattle.mg_http.specs.Transcript.{WroteTranscript};

mod answer;
mod connection;
mod conversation;
mod device;
mod exchange;
mod input;
mod output;
mod reply;
mod serve;
mod service;

pub use connection::Connection;
pub use device::Device;
use exchange::exchange;
pub use service::{SeatService, Service, Solo};
use std::alloc::Global;
use std::io::{Read, Write};
use std::sync::Wait;
use std::thread::Threads;

/// How a session ended.
#[derive(Clone, Copy, Debug, PartialEq, Eq)]
pub enum SessionEnd {
    /// The input ended: before the first message, after a message, or within one.
    Eof,
    /// The last message asked to close, or its version was 1.0; it is answered.
    Closed,
    /// A head was refused or is incomplete after 16,384 bytes, the bytes can never become a head, or memory ran out for a read or for the
    /// target of a message. The last reply gives the reason.
    Refused,
    /// The reader returned an error.
    ReadFault,
    /// The writer returned an error, or took no byte of a reply. The last commands may have been done.
    WriteFault,
    /// The session has answered 4,294,967,295 messages or its reader gave bytes 4,294,967,295 times, and would have to do it once more.
    Limit,
}

/// Answers message after message until the session ends. `db` is the database's name: a request for another one gets a refusal. Does
/// not flush the writer. Messages that came in one read are answered by one write, if their replies are short.
///
/// Errors: each error ends the session; see `SessionEnd`. Cost: that of the service, and one pass over the bytes; a head that arrives in
/// several pieces is parsed again for each piece. Holds at most one message and the bytes of one more read, and the replies to the whole
/// messages among them.
pub fn session<H: Wait + Threads + Sync, S: Service, R: Read, W: Write>(
    rt: &H,
    alloc: Global,
    db: &str,
    reader: &mut Device<R>,
    writer: &mut Device<W>,
    service: &mut S,
) -> SessionEnd
    requires reading { has_failed reader.old ≡ false }
    requires writing { has_failed writer.old ≡ false }

    // What was read, what was written, and how the two are related. Where no head has come, the session says that it is out of memory only
    // if its last read got none.
    ensures transcript { WroteTranscript S.answers db.now (record {
      read = Consumes (R.remaining (inner_of reader.old)) (R.remaining (inner_of reader.new));
      wrote = Appends (W.contents (inner_of writer.old)) (W.contents (inner_of writer.new));
      starved = was_starved reader.new;
      old = service.old;
      new = service.new;
      end = result;
    }) }
    ensures eof { result ≡ SessionEnd.Eof → IsAtEnd (R.remaining (inner_of reader.new)) }
    ensures read_fault { IsTrue (has_failed reader.new) ↔ (result ≡ SessionEnd.ReadFault) }
    ensures write_fault { IsTrue (has_failed writer.new) ↔ (result ≡ SessionEnd.WriteFault) }
{
    let mut connection = Connection::new(alloc, db);
    let mut reads = 0;
    for _ in rt.forever() {
        connection.run(rt, service);
        match exchange(&mut connection, reader, writer, &mut reads) {
            Ok(()) => {}
            Err(end) => {
                reader.starved = connection.is_starved;
                return end;
            }
        }
    }
    unreachable!()
}
