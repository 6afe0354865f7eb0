//! Tests of the libraries that need code, from shards to seats: states that share pages, a placement of the tests' own, lists of events, a call
//! of `run` that is refused memory, shards that several threads read at the same time, seats on threads, a seat that learns from another, a
//! write during a query, and public calls that the program does not make. Whole conversations with the program are data, in the folder tests/
//! at the top. Tests of the lower libraries are in mg_data_tests, those of files and connections in mg_edge_tests: each crate of tests is
//! compiled with all libraries below it. A failing test ends the process, and so does a call that is refused memory: no function needs an exit
//! for such a call, which keeps the proofs of the tests small.
#![tactic(auto)]

#[cfg(test)]
mod command_tests;
#[cfg(test)]
mod commit_tests;
#[cfg(test)]
mod engine_tests;
#[cfg(test)]
mod gate_tests;
#[cfg(test)]
mod given;
#[cfg(test)]
mod machine_tests;
#[cfg(test)]
mod placement_tests;
#[cfg(test)]
mod run_tests;
#[cfg(test)]
mod scan_tests;
#[cfg(test)]
mod seat_tests;
#[cfg(test)]
mod shard_tests;
#[cfg(test)]
mod workers_tests;
