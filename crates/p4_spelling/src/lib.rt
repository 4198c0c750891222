//! Which lists of lexemes spell a P4 program.
//!
//! The layers above get the relations of `specs/Expressions`, `Statements`, `Parsers`, `Controls`
//! and `Programs`, over those of `Lists` and `Types`: relations that follow the grammar, production by
//! production; and `op_of`, the binary operators with their levels.
//!
//! Follows: P4_16 Language Specification, grammar, this project's subset. Nothing is said of what a
//! reader answers.
#![tactic(auto)]

pub mod laws;
mod operator;
#[cfg(test)]
mod rows;

pub use operator::op_of;
