//! Laws of messages and of transcripts.
ghost use Rattle.std.specs.Prelude.{◌≡◌, ℕ, Bool, List, ◌++◌};
ghost use Rattle.mg_engine.specs.World.{World};
ghost use Rattle.mg_http.specs.Device.{IsBytePrefix};
ghost use Rattle.mg_http.specs.Message.{Message, Begins};
ghost use Rattle.mg_http.specs.Session.{Exchange};
ghost use Rattle.mg_http.specs.AtWorld.{AtWorld, ConversesAt, IsTranscriptAt};
ghost use Rattle.mg_http.specs.Transcript.{IsAmple, WroteAll};
ghost use Rattle.mg_http.specs.declared.sessions.SessionEnd.{SessionEnd};

/// Bytes begin with at most one message: they determine the whole message and the bytes after it.
pub fn one_message()
    ensures { (db bytes : List ℕ) (m n : Message) (p q : List ℕ) → Begins db bytes m p → Begins db bytes n q
        → (m ≡ n) × (p ≡ q) }
{}

/// Wherever an input is cut, each transcript of its first part is a prefix of each transcript of the whole input.
pub fn any_cut()
    ensures { (db : List ℕ) (w : World) (bytes more text longer : List ℕ)
        → IsTranscriptAt db w bytes text → IsTranscriptAt db w (bytes ++ more) longer
        → IsBytePrefix text longer }
{}

/// A session for which memory sufficed writes a transcript of the bytes that it read, unless it ended at a write fault or at its limit.
/// However it ended, its text is a prefix of each transcript of these bytes and any bytes after them.
pub fn sessions_write_transcripts()
    ensures whole { (db : List ℕ) (starved : Bool) (end : SessionEnd) (all : Exchange World)
        (conversation : ConversesAt db starved end all)
        → IsAmple AtWorld db starved end all conversation → WroteAll end
        → IsTranscriptAt db all.old all.bytes all.text }
    ensures prefix { (db : List ℕ) (starved : Bool) (end : SessionEnd) (all : Exchange World)
        (conversation : ConversesAt db starved end all)
        → IsAmple AtWorld db starved end all conversation
        → (more text : List ℕ) → IsTranscriptAt db all.old (all.bytes ++ more) text
        → IsBytePrefix all.text text }
{}

/// Every input has a transcript, from every world. This is stated as a double negation, since the definition of a head gives no way to
/// decide whether some bytes can still become one.
pub fn every_input_has_a_transcript()
    ensures { (db : List ℕ) (w : World) (bytes : List ℕ)
        → ¬ ((text : List ℕ) → ¬ (IsTranscriptAt db w bytes text)) }
{}
