//! `mangod DB SHARDS WORKERS SESSIONS ADDR` serves one database over TCP, or over standard input and output if ADDR is `-`.
#![tactic(auto)]

mod arguments;
mod config;
mod ends;
mod program;
mod seats;
mod serving;
#[cfg(test)]
mod tests;

use crate::arguments::{sessions, settings};
use crate::ends::{NO_MEMORY, WRONG_ARGUMENTS};
use crate::program::run;
use mg_http::Device;
use mg_live::CommitLog;
use std::env;
use std::io::ErrorKind;
use std::marker::Brand;
use std::process::ExitCode;
use std::sync::ledger::Blank;

fn main(rt: HostRuntime) -> ExitCode {
    let exit = match env::args(&rt) {
        Ok(args) => match args.skip(1).collect::<Vec<String>>(rt.alloc()) {
            Ok(args) => {
                let asked = settings(&args);
                run::<Brand, _, _, _>(
                    rt,
                    asked,
                    Blank::new(sessions(asked) as u64),
                    CommitLog::new(),
                    &mut Device::new(rt.stdin()),
                    &mut Device::new(rt.stdout()),
                )
            }
            Err(_) => NO_MEMORY,
        },
        Err(error) => match error.kind() {
            ErrorKind::OutOfMemory => NO_MEMORY,
            _ => WRONG_ARGUMENTS,
        },
    };
    if !exit.line.is_empty() {
        let _ = eprintln!(rt; "{}", exit.line);
    }
    ExitCode::from(exit.status)
}
