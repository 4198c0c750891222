//! What makes the code of a program's parser over numbered slots.
//!
//! The layers above get `parser_code`, which makes a `ParserCode` of a program's states once, by the
//! program's places. The code does what the program's parser means (`Parses` of `slot_parsers`).
//!
//! Follows: P4_16 Language Specification and v1model, this project's subset.
//!
//! States may be any tree, also ill-typed ones; there is no code (`Fault::Unknown`) where two states have
//! one name, or where a path that is read or written has no place.
#![tactic(auto)]

mod making;
mod selects;

pub use making::parser_code;
