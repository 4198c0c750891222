//! The reader of P4 statements.
//!
//! The layers above get `read_expr` and `read_stmts`: what stands at a token of a text, or the
//! first token with which nothing goes on (`specs/Answers`), and `is_left_out`, whether that token
//! is one that this subset leaves out (`specs/LeftOut`). The reader of declarations gets the readers
//! of what these share with statements: `type_of`, `variable`, `constant`, `expressions`,
//! `assignment` and `block`, each of which gives what `specs/Declaring` or `specs/Reading` reads, and
//! the laws of these in `proofs`.
//!
//! Follows: P4_16 Language Specification, grammar, this project's subset.
#![tactic(auto)]

mod declared;
mod found;
mod left_out;
mod read;
mod simple;
mod stmt;
mod stop;

pub use declared::{constant, expressions, type_of, variable, variable_behind};
pub use found::{FoundConstant, FoundVariable};
pub use left_out::is_left_out;
pub use read::{read_expr, read_stmts};
pub use simple::assignment;
pub use stmt::block;
pub use stop::ReadStop;
