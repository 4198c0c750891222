//! P4 programs as texts.
//!
//! The layers above get `print_program`, for programs that can be spelled (`specs/CanSpell`): the
//! text's tokens spell the same program but for places (`specs/Printed`). A text begins with the two
//! inclusions that other tools ask for, which are no part of the tree. Each statement, declaration, key
//! and action stands on a line of its own, four blanks further in for each block that is open, up to
//! twelve blocks, and an empty line stands between declarations at top level. Each operator's expression
//! but a slice stands in round brackets, and numbers are decimal, with their written width.
//! `specs/Programs` has the lexemes, `specs/Layout` what stands between them, and `laws` what holds of
//! trees that can be spelled.
//!
//! Follows: P4_16 Language Specification, grammar, this project's subset.
#![tactic(auto)]

mod declaration;
mod expression;
mod form;
mod key;
pub mod laws;
mod page;
mod parser;
mod place;
mod program;
mod statement;
mod table;
mod word;

pub use program::print_program;
