//! Tests of mg_log: what no clause says. That a call succeeds, which error a file gets, what the file shows to sqlite3, and what disks that
//! fail leave.

mod crashes;
mod disks;
mod files;
mod given;
mod reading;
mod refusals;
