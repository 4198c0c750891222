//! The parser of a P4 program over numbered slots.
//!
//! The layers above get `ParserCode`, a parser whose states have numbers, whose extracts are of headers by
//! their numbers and whose keys and key sets are terms; and `run_parser`, which runs it on a frame and
//! walks no name. `specs/Parses` says when it does what a program's parser means over slots that follow a
//! store, and the laws of `laws` that it is enough that each step, each `select` and each state does;
//! which steps and key sets do stands in `specs/Extracts` and `specs/Selects`. What makes the code of a
//! program's parser stands above this.
//!
//! Follows: P4_16 Language Specification and v1model, this project's subset.
//!
//! Each state is passed once at most. `run_parser` takes no memory: room for a flag for each state is
//! handed in.
#![tactic(auto)]

mod codes;
pub mod laws;
mod next;
mod running;
mod steps;

pub use codes::{Case, Key, Next, ParserCode, StateCode, Step};
pub use running::{End, run_parser};
