ghost use Rattle.std.specs.Prelude.{◌≡◌, ◌↔◌, false, IsTrue};
ghost use Rattle.std.specs.Io.KnownBytes.{Appends, Consumes, IsAtEnd};
ghost use Rattle.mg_engine.specs.Stands.{Stands};
ghost use Rattle.mg_engine.specs.World.{World};
ghost use Rattle.mg_http.specs.Device.{inner_of, has_failed, was_starved};
ghost use Rattle.mg_http.specs.AtWorld.{WroteTranscriptAt};
ghost use Rattle.mg_http.specs.SoloService.{SoloAnswers};
ghost use Rattle.mg_http.specs.Transcript.{WroteTranscript};

use crate::sessions::device::Device;
use crate::sessions::service::Solo;
use crate::sessions::{SessionEnd, session};
use mg_shard::Placement;
use std::alloc::Global;
use std::io::{Read, Write};
use std::sync::Wait;
use std::thread::Threads;

impl<P: Placement + Drop> Solo<P> {
    /// Serves one session of the database `db`: answers each message that it reads, one after another, from the engine. Does not flush
    /// the writer.
    ///
    /// If memory sufficed, the session writes a transcript of what it read; after a failed write, or at its limit, a prefix of one. A
    /// command whose reply is `out_of_memory` changes nothing. Afterwards the engine stands for the world that the commands leave.
    ///
    /// Errors: each error ends the session; see `SessionEnd`. Cost: that of the commands, and one pass over the bytes; a head that arrives
    /// in several pieces is parsed again for each piece. Holds what `session` holds.
    pub fn serve<H: Wait + Threads + Sync, R: Read, W: Write>(
        &mut self,
        rt: &H,
        alloc: Global,
        db: &str,
        reader: &mut Device<R>,
        writer: &mut Device<W>,
    ) -> SessionEnd
        requires reading { has_failed reader.old ≡ false }
        requires writing { has_failed writer.old ≡ false }
        ensures transcript { (w : World) → Stands P.place self.old.engine w
            → (u : World) × WroteTranscriptAt db.now (record {
              read = Consumes (R.remaining (inner_of reader.old)) (R.remaining (inner_of reader.new));
              wrote = Appends (W.contents (inner_of writer.old)) (W.contents (inner_of writer.new));
              starved = was_starved reader.new;
              old = w;
              new = u;
              end = result;
            })
            × Stands P.place self.new.engine u }

        // The replies are those of this service, whose engine has a number of shards, and which has a number of workers.
        ensures service { WroteTranscript (SoloAnswers P.place) db.now (record {
          read = Consumes (R.remaining (inner_of reader.old)) (R.remaining (inner_of reader.new));
          wrote = Appends (W.contents (inner_of writer.old)) (W.contents (inner_of writer.new));
          starved = was_starved reader.new;
          old = self.old;
          new = self.new;
          end = result;
        }) }
        ensures eof { result ≡ SessionEnd.Eof → IsAtEnd (R.remaining (inner_of reader.new)) }
        ensures read_fault { IsTrue (has_failed reader.new) ↔ (result ≡ SessionEnd.ReadFault) }
        ensures write_fault { IsTrue (has_failed writer.new) ↔ (result ≡ SessionEnd.WriteFault) }
    {
        session(rt, alloc, db, reader, writer, self)
    }
}
