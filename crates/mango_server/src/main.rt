//! `mango_server FILE` serves one database, and keeps its commits in FILE, a SQLite database.
#![tactic(auto)]

mod arguments;
mod config;
mod ends;
mod keeper;
mod laws;
mod ready;
mod replay;
mod service;
mod serving;

use crate::arguments::{Asked, parsed, settings};
use crate::ends::Exit;
use crate::serving::serve_file;
use clap::Error;
use mg_live::CommitLog;
use std::alloc::AllocError;
use std::env;
use std::marker::Brand;
use std::process::ExitCode;
use std::sync::ledger::Blank;

/// Prints why the words are no command line, or the help or the version that they ask for.
fn explain(rt: &HostRuntime, error: Error) -> Exit {
    let _ = error.print(rt);
    Exit {
        status: error.exit_code() as u8,
        line: "",
    }
}

/// Returns the words of the command line. Errors: an allocation fails.
fn words(rt: &HostRuntime) -> Result<Vec<String>, AllocError> {
    match env::args(rt) {
        Ok(args) => args.collect::<Vec<String>>(rt.alloc()),
        Err(_) => Err(AllocError),
    }
}

fn main(rt: HostRuntime) -> ExitCode {
    let exit = match words(&rt) {
        Ok(words) => match parsed(rt.alloc(), words.as_slice()) {
            Ok(matches) => match settings(&rt, &matches) {
                Asked::Serve(settings) => serve_file::<Brand, _>(
                    rt,
                    rt,
                    settings,
                    Blank::new(settings.sessions as u64),
                    CommitLog::new(),
                ),
                Asked::WrongName => Exit::WRONG_NAME,
                Asked::NoMemory => Exit::NO_MEMORY,
            },
            Err(error) => explain(&rt, error),
        },
        Err(AllocError) => Exit::NO_MEMORY,
    };
    if !exit.line.is_empty() {
        let _ = eprintln!(rt; "{}", exit.line);
    }
    ExitCode::from(exit.status)
}
