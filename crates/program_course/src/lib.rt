//! The file of a forwarding program as a step of a command.
//!
//! The layer above gets `load_program`, which keeps to the course `forwarding_program` of
//! `specs/Files`: the file is read, its text spells a program, which breaks no rule of names and
//! types and has at most 2,048 bytes of headers and 4,096 digests a passage. `Lines` has the lines of
//! refusals.
#![tactic(auto)]

mod files;
mod lines;

pub use files::load_program;
