//! P4 programs that keep the rules of names and types.
//!
//! The layer above gets `check_program`, which takes a program exactly where it breaks no rule, and
//! `TypedProgram`, whose invariant says so, so that nothing else makes one. Contracts see it as the
//! program. A program of which it is known that it breaks no rule becomes one without a test
//! (`TypedProgram::known`). It numbers tables, registers and actions, has the words of the constants
//! at top level, and answers the bytes of the headers, the most digests of a passage and the cells of
//! the registers. `laws` says what well-typedness says of a tree.
//!
//! The rules are those of `p4_rules`; `specs/Numbers`, `Constants`, `Counts` and `Faults` are the words of this
//! crate.
//!
//! Follows: P4_16 (version 1.2.4) and its v1model architecture; the subset is this project's profile.
#![tactic(auto)]

mod constants;
mod fault;
pub mod laws;
mod numbers;
mod typed;

pub use fault::ProgramTypeFault;
pub use p4_statement_rules::rule::ProgramRule;
pub use typed::{Counts, TypedProgram, check_program};
