//! What the statements of a control do, on maps by name.
//!
//! The layer above gets `Registers`, cells by the names of registers; `Run`, the words in sight with
//! registers and the digests so far; and `run_body`, which runs a control's variables and its body, over
//! what calls do: `NoCalls`, or `Held`, the actions of a program over what its tables hold. That is a
//! `Tables`, whatever answers what a table chooses; `Written` is one, where nothing is loaded. Contracts
//! see these as the `Run` and the `Calls` of the trees' meaning, by the words of `specs/`.
//!
//! Follows: P4_16 Language Specification and v1model, this project's subset; RFC 1071.
//!
//! Statements may be any tree, also an ill-typed one. Nothing is promised of speed: a path is found by
//! a walk over all paths. After want of memory what was worked on may have changed in part.
#![tactic(auto)]

mod acts;
mod calls;
mod dispatch;
mod outcome;
mod registers;
mod run;
mod statements;
mod sums;
mod tables;

pub use calls::{Calls, NoCalls};
pub use outcome::{Outcome, Tables, Written};
pub use registers::Registers;
pub use run::{Digest, Flow, Run, Tested};
pub use statements::{run_body, run_stmts};
pub use tables::Held;
