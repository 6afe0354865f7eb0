//! Tests of what stands between the database and the world: files and disks that fail, and the bytes of conversations. A failing test ends the
//! process, and so does a call that is refused memory: no function needs an exit for such a call, which keeps the proofs of the tests small.
#![tactic(auto)]

#[cfg(test)]
mod given;
#[cfg(test)]
mod log_tests;
#[cfg(test)]
mod wire_tests;
