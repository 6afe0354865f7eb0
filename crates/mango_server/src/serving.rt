//! Opens the file and serves its database.
ghost use Rattle.std.specs.Prelude.{◌≡◌, ◌≤◌, ℕ, []};
ghost use Rattle.mg_live.specs.SeatView.{new_seats};

use crate::config::Settings;
use crate::ends::Exit;
use crate::keeper::FileKeeper;
use crate::replay::replayed;
use crate::service::StoredService;
use http1::Limits;
use mg_face::Face;
use mg_http::SeatService;
use mg_live::{CommitLog, Database, Keeper, Live, Seat};
use mg_server::{Edge, Learner};
use mg_shard::Md5Placement;
use mg_value::NoMemory;
use mg_wire::{Bounds, Connection, Service};
use std::alloc::Global;
use std::io::{Eprint, ErrorKind};
use std::net::{Net, TcpListener, TcpStream};
use std::random::RandomSource;
use std::sync::atomic::{AtomicBool, Ordering};
use std::sync::ledger::Blank;
use std::sync::{Arc, Wait};
use std::thread::Threads;
use std::time::Clock;

/// What a connection takes from its client: a head of 16 kB and a body of 8 MB, as `mangod` takes them, and so much for the extensions of
/// chunks and for trailers as for a head.
const BOUNDS: Bounds = Bounds {
    limits: Limits {
        max_head_len: 16_384,
        max_extensions_len: 16_384,
        max_trailers_len: 16_384,
    },
    max_body: 8_388_608,
    max_pending: 65_536,
};

/// What answers the requests of a client: the face over a seat whose commits are kept.
type StoredFace<D, C> = Face<D, StoredService<D, C>>;

/// Draws the seed from which a face draws ids. Errors: how the program ends.
fn drawn_seed<H: RandomSource>(rt: &H) -> Result<[u8; 32], Exit> {
    let mut seed = [0; 32];
    match rt.fill_bytes(&mut seed) {
        Ok(()) => Ok(seed),
        Err(_) => Err(Exit::NO_RANDOM),
    }
}

/// Makes the service of a seat. Errors: `NoMemory` if an allocation fails; then the seat is dropped.
fn service_of<D: Database, C: Keeper>(
    alloc: Global,
    host: HostRuntime,
    db: &str,
    seed: [u8; 32],
    seat: Seat<D, C>,
    workers: usize,
    lost: &Arc<AtomicBool>,
) -> Result<StoredFace<D, C>, NoMemory>
    requires name { db.now ≡ D.db }
    requires workers { (1 ≤ workers) × (workers ≤ 32) }
{
    let store = StoredService {
        service: SeatService { seat, workers },
        lost: Arc::try_clone(lost)?,
    };
    let db = String::from_str(alloc, db)?;
    Ok(Face::new(alloc, host, db, seed, store))
}

/// Makes a service for each seat; `host` says the time. Errors: how the program ends; then all seats are dropped.
fn services<D: Database, C: Keeper, H: AllocGlobal + RandomSource>(
    host: HostRuntime,
    rt: &H,
    db: &str,
    seats: Vec<Seat<D, C>>,
    workers: usize,
    lost: &Arc<AtomicBool>,
) -> Result<Vec<StoredFace<D, C>>, Exit>
    requires name { db.now ≡ D.db }
    requires workers { (1 ≤ workers) × (workers ≤ 32) }
{
    let mut services = Vec::new(rt.alloc());
    for seat in seats {
        let seed = drawn_seed(rt)?;
        let Ok(service) = service_of(rt.alloc(), host, db, seed, seat, workers, lost) else {
            return Err(Exit::NO_MEMORY);
        };
        if services.push(service).is_err() {
            return Err(Exit::NO_MEMORY);
        }
    }
    Ok(services)
}

/// Opens the file at a seat that has seen nothing, executes its commits there, and has it keep those that come. Returns the seat.
///
/// Errors: how the program ends.
fn stored<D: Database, H: Wait + Threads + Sync + Copy + Drop + AllocGlobal + Eprint>(
    host: HostRuntime,
    rt: H,
    settings: Settings<'_>,
    seat: Seat<D, FileKeeper<H>>,
    lost: Arc<AtomicBool>,
) -> Result<Seat<D, FileKeeper<H>>, Exit>
    requires fresh { seat.seen ≡ [] }
{
    let opened = replayed(host, rt, settings.file, settings.db, seat, settings.workers);
    let (log, seat) = match opened {
        Ok(opened) => opened,
        Err(error) => {
            let _ = eprintln!(rt; "mango_server: {}: {error}", settings.file);
            return Err(Exit::REFUSED);
        }
    };
    let commits = log.count();
    match seat.replace_keeper(&rt, FileKeeper::in_file(rt, log, lost)) {
        Ok(_) => Ok(announced(&rt, settings.file, seat, commits)),
        Err(_) => Err(Exit::STORAGE),
    }
}

/// Says what a file has, unless there are too many references to the database. Returns the seat.
fn announced<D: Database, C: Keeper, H: Eprint>(
    rt: &H,
    file: &str,
    mut seat: Seat<D, C>,
    commits: u32,
) -> Seat<D, C> {
    if let Ok(snapshot) = seat.snapshot() {
        let documents = snapshot.count().unwrap_or(usize::MAX);
        let indexes = snapshot.catalog().list().len();
        let _ = eprintln!(rt;
            "mango_server: {file} has {commits} commits, {documents} documents and {indexes} indexes"
        );
    }
    seat
}

/// Serves the database in a file, until the file can no longer be written or the listener fails. Returns how the program ends. The commit
/// log and the ledger are those of the database `D`.
pub(crate) fn serve_file<
    D: Database + Send + Sync,
    H: Wait
        + Threads
        + Send
        + Sync
        + Copy
        + Drop
        + AllocGlobal
        + Clock
        + Eprint
        + RandomSource
        + Net<Listener = TcpListener, Stream = TcpStream>,
>(host: HostRuntime, rt: H, settings: Settings<'_>, blank: Blank, commit_log: CommitLog) -> Exit
    requires name { settings.db.now ≡ D.db }
    requires opened { settings.shards ≡ D.shards }
    requires commit_log { commit_log ≡ D.commit_log }
    requires ledger { (blank.name ≡ D.name) × (blank.parts ≡ D.parts) }
    requires parts { blank.parts ≡ settings.sessions }
{
    let alloc = rt.alloc();
    let Ok(lost) = Arc::new(alloc, AtomicBool::new(false)) else {
        return Exit::NO_MEMORY;
    };
    let Ok(opening) = Arc::try_clone(&lost) else {
        return Exit::NO_MEMORY;
    };
    let opened = Live::<D, FileKeeper<H>>::open(
        FileKeeper::nowhere(rt, opening),
        alloc,
        blank,
        commit_log,
        settings.db,
        Md5Placement,
        settings.shards,
        settings.sessions,
    );
    let Ok((_live, seats)) = opened else {
        return Exit::NO_MEMORY;
    };
    match with_file(host, rt, settings, seats, &lost) {
        Ok(services) => listen::<D, FileKeeper<H>, H>(rt, settings, services, &lost),
        Err(exit) => exit,
    }
}

/// Opens the file at the last of the seats, which have seen nothing, and makes a service for each seat.
///
/// Errors: how the program ends.
fn with_file<
    D: Database,
    H: Wait + Threads + Sync + Copy + Drop + AllocGlobal + Eprint + RandomSource,
>(
    host: HostRuntime,
    rt: H,
    settings: Settings<'_>,
    mut seats: Vec<Seat<D, FileKeeper<H>>>,
    lost: &Arc<AtomicBool>,
) -> Result<Vec<StoredFace<D, FileKeeper<H>>>, Exit>
    requires name { settings.db.now ≡ D.db }
    requires fresh { (n : ℕ) × (seats.items ≡ new_seats n) }
{
    let (Some(seat), Ok(keeping)) = (seats.pop(), Arc::try_clone(lost)) else {
        return Err(Exit::NO_MEMORY);
    };
    let seat = stored(host, rt, settings, seat, keeping)?;
    if seats.push(seat).is_err() {
        return Err(Exit::NO_MEMORY);
    }
    services(host, &rt, settings.db, seats, settings.workers, lost)
}

/// Listens, and serves the clients that connect with these services.
fn serve_with<
    H: Wait
        + Threads
        + Send
        + Sync
        + Copy
        + Drop
        + AllocGlobal
        + Clock
        + Eprint
        + Net<Listener = TcpListener, Stream = TcpStream>,
    S: Service + Learner + Send + Drop,
>(rt: H, settings: Settings<'_>, services: Vec<S>, lost: &Arc<AtomicBool>) -> Exit
where
    S::Seen: Send,
{
    let Ok(listener) = TcpListener::bind(&rt, settings.listen) else {
        return Exit::CANNOT_LISTEN;
    };
    let first = Connection::new(rt.alloc(), BOUNDS);
    let edge = match Edge::<Connection, S::Seen>::open(&rt, rt.alloc(), listener, first) {
        Ok(edge) => edge,
        Err(error) => match error.kind() {
            ErrorKind::OutOfMemory => return Exit::NO_MEMORY,
            _ => return Exit::CANNOT_LISTEN,
        },
    };
    let _ = eprintln!(rt; "mango_server: listening at {}", settings.listen);
    match mg_server::serve::<H, S, Connection>(&rt, &edge, services) {
        Ok(_) if lost.load(Ordering::SeqCst) => Exit::STORAGE,
        Ok(_) => Exit::STOPPED,
        Err(_) => Exit::NO_MEMORY,
    }
}

/// Serves the database with a service for each seat, whatever keeps the commits.
fn listen<
    D: Database + Send + Sync,
    C: Keeper + Send,
    H: Wait
        + Threads
        + Send
        + Sync
        + Copy
        + Drop
        + AllocGlobal
        + Clock
        + Eprint
        + Net<Listener = TcpListener, Stream = TcpStream>,
>(rt: H, settings: Settings<'_>, services: Vec<StoredFace<D, C>>, lost: &Arc<AtomicBool>) -> Exit {
    serve_with::<H, StoredFace<D, C>>(rt, settings, services, lost)
}
