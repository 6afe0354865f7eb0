//! HTTP connections as values, and sessions over any reader and writer.
//!
//! Promises. src/request/ reads one request from bytes; src/sessions/ asks the service and says the replies.
//! A `Connection` reads and writes nothing: it is what an edge drives (`mg_server::Conversation`). What was sent
//! and waits to be is right for what was received (`told`), and it answers each whole message before it wants to
//! read (`rests`). `session` is a loop over it: it writes the replies of its service to the messages that it
//! read, in order, and ends for one of six reasons (`transcript`): `Eof` only if nothing is left unread (`eof`),
//! `ReadFault` and `WriteFault` exactly if that device failed. Where no head has come, a connection or a session
//! says that it is out of memory only if its last read got none (`LacksMemory`). The code's table of routes is
//! proved to be the definition's. `Solo` is the service of an engine at any placement, `SeatService` that of a
//! seat. Where memory suffices, what `Solo::serve` writes is a prefix of each transcript, from the engine's world,
//! of the bytes that it read and any further ones (`WroteTranscriptAt`). Laws: `one_message`, `any_cut`,
//! `sessions_write_transcripts`, `every_input_has_a_transcript`.
#![tactic(auto)]

pub mod laws;
mod request;
mod sessions;

pub use sessions::{Connection, Device, SeatService, Service, SessionEnd, Solo, session};
