//! Runs the program with its arguments, over an input and an output or over TCP.
ghost use Rattle.std.specs.Prelude.{◌≡◌, IfOk, false, option_map};
ghost use Rattle.std.specs.Io.KnownBytes.{Appends, Consumes};
ghost use Rattle.mg_http.specs.Device.{inner_of, has_failed, was_starved};
ghost use Rattle.mangod.specs.Arguments.{name_in, sessions_in, shards_in};
ghost use Rattle.mg_engine.specs.Stands.{Stands, shard_count};
ghost use Rattle.mg_engine.specs.World.{empty_world};
ghost use Rattle.mg_shard.specs.Placement.{md5_place};
ghost use Rattle.mangod.specs.Program.{IsEndOfListening, RunsOneSession, RunsWith};
ghost use Rattle.mangod.specs.View.{exit_view, settings_view};

use crate::config::Settings;
use crate::ends::{CANNOT_LISTEN, Exit, NO_MEMORY, WRONG_ARGUMENTS};
use crate::serving::serve;
use mg_engine::Engine;
use mg_http::{Device, Solo};
use mg_live::{CommitLog, Database, Live, WaitForReaders};
use mg_shard::Md5Placement;
use mg_value::NoMemory;
use std::io::{Eprint, Read, Write};
use std::net::{Net, TcpListener, TcpStream};
use std::sync::Wait;
use std::sync::ledger::Blank;
use std::thread::Threads;
use std::time::Clock;

/// Runs the program, and returns its exit. If the address is `-`, the program holds one session over the input and the output; otherwise it
/// listens at the address and holds sessions with the clients that connect. Wrong arguments (`asked` is `None`) end it at once. The
/// commit log (`commit_log`) and the ledger (`blank`) are those of the database `D`.
pub(crate) fn run<
    D: Database + Send + Sync,
    H: Wait
        + Threads
        + Send
        + Sync
        + Copy
        + Drop
        + AllocGlobal
        + Clock
        + Eprint
        + Net<Listener = TcpListener, Stream = TcpStream>,
    R: Read,
    W: Write,
>(
    rt: H,
    asked: Option<Settings<'_>>,
    blank: Blank,
    commit_log: CommitLog,
    reader: &mut Device<R>,
    writer: &mut Device<W>,
) -> Exit
    requires name { D.db ≡ name_in (option_map settings_view asked) }
    requires shards { D.shards ≡ shards_in (option_map settings_view asked) }
    requires commit_log { commit_log ≡ D.commit_log }
    requires ledger { (blank.name ≡ D.name) × (blank.parts ≡ D.parts) }
    requires parts { blank.parts ≡ sessions_in (option_map settings_view asked) }
    requires reading { has_failed reader.old ≡ false }
    requires writing { has_failed writer.old ≡ false }
    ensures { RunsWith (option_map settings_view asked.entry)
        (Consumes (R.remaining (inner_of reader.old)) (R.remaining (inner_of reader.new)))
        (Appends (W.contents (inner_of writer.old)) (W.contents (inner_of writer.new)))
        (was_starved reader.new) (exit_view result) }
{
    let Some(settings) = asked else {
        return WRONG_ARGUMENTS;
    };
    if settings.addr == "-" {
        return hold_session(&rt, settings, reader, writer);
    }
    listen::<D, H>(rt, settings, blank, commit_log)
}

// Holds one session, over a database that is empty at the start. Returns the exit after the session, or `NO_MEMORY` if the database could
// not be made.
fn hold_session<H: Wait + Threads + Sync + AllocGlobal, R: Read, W: Write>(
    rt: &H,
    settings: Settings<'_>,
    reader: &mut Device<R>,
    writer: &mut Device<W>,
) -> Exit
    requires reading { has_failed reader.old ≡ false }
    requires writing { has_failed writer.old ≡ false }
    ensures { RunsOneSession (settings_view settings.entry)
        (Consumes (R.remaining (inner_of reader.old)) (R.remaining (inner_of reader.new)))
        (Appends (W.contents (inner_of writer.old)) (W.contents (inner_of writer.new)))
        (was_starved reader.new) (exit_view result) }
{
    match solo(rt, &settings) {
        Ok(mut service) => {
            Exit::after(&service.serve(rt, rt.alloc(), settings.db, reader, writer))
        }
        Err(NoMemory) => NO_MEMORY,
    }
}

// Listens, and answers the clients that connect, at the seats of a database that is empty at the start. Returns only if memory runs out at
// the start or at the end, the address or the edge cannot be opened, or the listener or the poll fails.
fn listen<
    D: Database + Send + Sync,
    H: Wait
        + Threads
        + Send
        + Sync
        + Copy
        + Drop
        + AllocGlobal
        + Clock
        + Eprint
        + Net<Listener = TcpListener, Stream = TcpStream>,
>(rt: H, settings: Settings<'_>, blank: Blank, commit_log: CommitLog) -> Exit
    requires name { settings.db.now ≡ D.db }
    requires opened { settings.shards ≡ D.shards }
    requires commit_log { commit_log ≡ D.commit_log }
    requires ledger { (blank.name ≡ D.name) × (blank.parts ≡ D.parts) }
    requires parts { blank.parts ≡ settings.sessions }
    ensures { IsEndOfListening (exit_view result) }
{
    let opened = Live::<D, WaitForReaders<H>>::open(
        WaitForReaders(rt),
        rt.alloc(),
        blank,
        commit_log,
        settings.db,
        Md5Placement,
        settings.shards,
        settings.sessions,
    );
    let Ok((live, seats)) = opened else {
        return NO_MEMORY;
    };
    let Ok(listener) = TcpListener::bind(&rt, settings.addr) else {
        return CANNOT_LISTEN;
    };
    serve::<D, H>(
        rt,
        settings.db,
        listener,
        live,
        seats,
        settings.workers,
        None,
    )
}

// Makes a service of an empty database. Errors: `NoMemory` if an allocation fails.
fn solo<H: AllocGlobal>(rt: &H, settings: &Settings<'_>) -> Result<Solo<Md5Placement>, NoMemory>
    ensures stands { IfOk result
        (λ solo. Stands (λ p id shards. md5_place id shards) solo.engine (empty_world settings.now.db.now)) }
    ensures shards { IfOk result (λ solo. shard_count solo.engine ≡ settings.now.shards) }
    ensures workers { IfOk result (λ solo. solo.workers ≡ settings.now.workers) }
{
    let engine = Engine::new(rt.alloc(), settings.db, Md5Placement, settings.shards)?;
    let workers = settings.workers;
    Ok(Solo { engine, workers })
}
