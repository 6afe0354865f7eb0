//! The command line.
ghost use Rattle.std.specs.Prelude.{◌≤◌};

use crate::config::Settings;
use clap::{Arg, ArgMatches, Command, Error, value_parser};
use std::alloc::Global;
use std::thread::{Threads, available_parallelism};

/// What the command line asks for.
pub(crate) enum Asked<'a> {
    /// To serve with these settings.
    Serve(Settings<'a>),
    /// The name of the database is not valid.
    WrongName,
    NoMemory,
}

/// Returns the command line of the program.
fn command<'a>(alloc: Global) -> Result<Command<'a>, Error> {
    let file = Arg::new(alloc, "file")
        .required(true)
        .value_name("FILE")
        .help("The file that keeps the database; it is made if it is not there");
    let db = Arg::new(alloc, "db").long("db").default_value("db").help(
        "The database's name: a lower case letter, then lower case letters, digits and _$()+-",
    );
    let listen = Arg::new(alloc, "listen")
        .long("listen")
        .default_value("127.0.0.1:5984")
        .help("The address at which the program listens");
    let shards = Arg::new(alloc, "shards")
        .long("shards")
        .value_parser(value_parser!(u16).range(1..65))
        .help("The number of shards, 1 to 64; one for each processor if it is not given");
    let workers = Arg::new(alloc, "workers")
        .long("workers")
        .value_parser(value_parser!(u16).range(1..33))
        .help(
            "The number of workers of a query, 1 to 32; one for each processor if it is not given",
        );
    let sessions = Arg::new(alloc, "sessions")
        .long("sessions")
        .default_value("16")
        .value_parser(value_parser!(u16).range(1..17))
        .help("The number of requests that are answered at a time, 1 to 16");
    Command::new(alloc, "mango_server")
        .version("1.0.0")
        .about("Serves one document database over HTTP, and keeps it in a file")
        .arg(file)?
        .arg(db)?
        .arg(listen)?
        .arg(shards)?
        .arg(workers)?
        .arg(sessions)
        .map_err(Error::from)
}

/// Parses the words of a command line.
pub(crate) fn parsed<'a>(alloc: Global, words: &'a [String]) -> Result<ArgMatches<'a>, Error> {
    command(alloc)?.try_get_matches_from(words)
}

/// The most shards, workers and sessions.
const MOST_SHARDS: usize = 64;

const MOST_WORKERS: usize = 32;

const MOST_SESSIONS: usize = 16;

/// Returns a number of the command line, or else the one for its absence, from 1 to `most`.
fn number(matches: &ArgMatches<'_>, name: &str, absent: usize, most: usize) -> usize
    requires { 1 ≤ most }
    ensures { (1 ≤ result) × (result ≤ most) }
{
    let number = match matches.get_one::<u16>(name) {
        Some(number) => usize::from(number),
        None => absent,
    };
    number.clamp(1, most)
}

fn is_name_byte(byte: u8) -> bool {
    byte.is_ascii_lowercase() || byte.is_ascii_digit() || b"_$()+-".contains(&byte)
}

// Whether a text is a database name.
fn is_database_name(text: &str) -> bool {
    match text.as_bytes().split_first() {
        Some((first, rest)) => {
            first.is_ascii_lowercase() && rest.iter().all(|byte| is_name_byte(*byte))
        }
        None => false,
    }
}

/// Returns what the parsed words ask for.
pub(crate) fn settings<'a, H: Threads>(rt: &H, matches: &ArgMatches<'a>) -> Asked<'a> {
    let processors = match available_parallelism(rt) {
        Ok(number) => number.get(),
        Err(_) => 1,
    };
    let (Some(file), Some(db), Some(listen)) = (
        matches.get_str("file"),
        matches.get_str("db"),
        matches.get_str("listen"),
    ) else {
        return Asked::NoMemory;
    };
    if !is_database_name(db) {
        return Asked::WrongName;
    }
    Asked::Serve(Settings {
        file,
        db,
        listen,
        shards: number(matches, "shards", processors, MOST_SHARDS),
        workers: number(matches, "workers", processors, MOST_WORKERS),
        sessions: number(matches, "sessions", MOST_SESSIONS, MOST_SESSIONS),
    })
}
