//! The captures of a case as a step of a command.
//!
//! The layer above gets `load_captures`, which keeps to the course `captures_course` of
//! `specs/Files`: the files are read in their order, in at most 64 MiB together, and have at most
//! 100,000 packets, which carry at most 2,147,483,648 bytes over all switches that they pass.
//! `Lines` has the lines of refusals.
#![tactic(auto)]

mod files;
mod limits;
mod lines;

pub use files::load_captures;
