//! Serves the clients of a listener with the seats of a database.
ghost use Rattle.std.specs.Prelude.{◌≡◌, ◌≤◌, IfErr};
ghost use Rattle.mangod.specs.Program.{IsEndOfListening};
ghost use Rattle.mangod.specs.View.{exit_view};

use crate::ends::{CANNOT_LISTEN, Exit, NO_MEMORY, STOPPED};
use crate::seats::{seats, services};
use mg_http::{Connection, SeatService};
use mg_live::{Database, Live, Seat, Seen, WaitForReaders};
use mg_server::{Edge, serve_in_turn};
use mg_value::NoMemory;
use std::io::{Eprint, ErrorKind};
use std::net::{Net, TcpListener};
use std::sync::Wait;
use std::thread::Threads;
use std::time::Clock;

/// Serves clients at all seats, each seat on a thread of its own, with this number of workers. Then closes the database. `turns`: each seat
/// serves this many connections, one after another, each to its end. `None`: any seat serves the connection on which something has come,
/// until the listener or the poll fails; `mangod: listening` is printed once connections are accepted.
///
/// Returns how the program ends: memory ran out at the start or at the end, the edge cannot be opened, or no more clients are served.
pub(crate) fn serve<
    D: Database + Send + Sync,
    H: Wait + Threads + Send + Sync + Copy + Drop + AllocGlobal + Clock + Eprint + Net,
>(
    rt: H,
    db: &str,
    listener: TcpListener,
    live: Live<D, WaitForReaders<H>>,
    seats: Vec<Seat<D, WaitForReaders<H>>>,
    workers: usize,
    turns: Option<u64>,
) -> Exit
    requires live { live ≡ D.parts }
    requires workers { (1 ≤ workers) × (workers ≤ 32) }
    ensures { IsEndOfListening (exit_view result) }
{
    let alloc = rt.alloc();
    let Ok(services) = services(alloc, seats, workers) else {
        return NO_MEMORY;
    };
    let first = Connection::new(alloc, db);
    match serve_with(&rt, listener, first, services, turns) {
        Ok(services) => close(&rt, live, services),
        Err(exit) => exit,
    }
}

// Serves the connections on which something has come, until the listener or the poll fails. Returns the services, or how the program ends.
fn serve_edge<
    D: Database + Send + Sync,
    H: Wait + Threads + Send + Sync + Copy + Drop + AllocGlobal + Clock + Eprint + Net,
>(
    rt: &H,
    listener: TcpListener,
    first: Connection<'_>,
    services: Vec<SeatService<D, WaitForReaders<H>>>,
) -> Result<Vec<SeatService<D, WaitForReaders<H>>>, Exit>
    ensures { IfErr result (λ exit. IsEndOfListening (exit_view exit)) }
{
    let edge = match Edge::<Connection<'_>, Seen<D>>::open(rt, rt.alloc(), listener, first) {
        Ok(edge) => edge,
        Err(error) => match error.kind() {
            ErrorKind::OutOfMemory => return Err(NO_MEMORY),
            _ => return Err(CANNOT_LISTEN),
        },
    };
    let _ = eprintln!(rt; "mangod: listening");
    let served = mg_server::serve::<H, SeatService<D, WaitForReaders<H>>, Connection<'_>>(
        rt, &edge, services,
    );
    match served {
        Ok(services) => Ok(services),
        Err(_) => Err(NO_MEMORY),
    }
}

// Serves this many connections at each seat; `None`: those of an edge. Returns the services, or how the program ends.
fn serve_with<
    D: Database + Send + Sync,
    H: Wait + Threads + Send + Sync + Copy + Drop + AllocGlobal + Clock + Eprint + Net,
>(
    rt: &H,
    listener: TcpListener,
    first: Connection<'_>,
    services: Vec<SeatService<D, WaitForReaders<H>>>,
    turns: Option<u64>,
) -> Result<Vec<SeatService<D, WaitForReaders<H>>>, Exit>
    ensures { IfErr result (λ exit. IsEndOfListening (exit_view exit)) }
{
    let Some(turns) = turns else {
        return serve_edge(rt, listener, first, services);
    };
    let served = serve_in_turn::<H, SeatService<D, WaitForReaders<H>>, Connection<'_>>(
        rt, &listener, first, services, turns,
    );
    match served {
        Ok(services) => Ok(services),
        Err(_) => Err(NO_MEMORY),
    }
}

// Closes the database with the seats of its services. Whether that succeeds does not change the exit: no more clients are served.
fn close<D: Database, H: Wait + Drop + AllocGlobal>(
    rt: &H,
    live: Live<D, WaitForReaders<H>>,
    services: Vec<SeatService<D, WaitForReaders<H>>>,
) -> Exit
    requires { live ≡ D.parts }
    ensures { IsEndOfListening (exit_view result) }
{
    match seats(rt.alloc(), services) {
        Ok(seats) => {
            let _closed = live.close(rt, seats);
            STOPPED
        }
        Err(NoMemory) => NO_MEMORY,
    }
}
