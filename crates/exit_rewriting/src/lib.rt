//! P4 programs of the same meaning without `exit` and `return`: the code that makes them.
//!
//! The layer above gets `rewritten`, the program of `exit_programs`, `program_without`, word for word,
//! and what holds of such a program's spelling (`laws`).
//!
//! Each statement is rewritten and asked whether it may leave in one step, so that neither length
//! nor depth costs more than once. What may exit is kept by the names that each control declares.
//!
//! Follows: P4_16 Language Specification, this project's subset.
#![tactic(auto)]

mod declarations;
mod exits;
mod flags;
mod groups;
pub mod laws;
mod leaves;
mod marks;
mod place;
mod statements;

pub use declarations::rewritten;
