//! P4 programs with answers of rules in them.
//!
//! The layers above get `simplified_program`: each expression of a control that is a value is gone
//! through from the inside to the outside (`simplified` of `simplify_rules`), and nothing else changes
//! (`ProgramRewritten` of `rewritten_programs`). Constants, defaults, receivers, targets, headers,
//! tests that apply a table and parsers stay.
//!
//! Follows: P4_16 Language Specification, this project's subset. That the program means the same is
//! said above.
#![tactic(auto)]

mod arguments;
mod declarations;
mod programs;
mod statements;

pub use programs::simplified_program;
