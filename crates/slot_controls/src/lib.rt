//! What a control of P4 runs over numbered slots: code, applications of tables, and the calls that v1model has.
//!
//! The layers above get `run_steps`, what a `Step` of each statement does to a `State` and to the `Externs` beside it, what
//! registers hold by their numbers and the digests so far. It goes over whatever tells by numbers what a table chooses
//! (`NumberedTables`); a call of an action has its body as steps, and an application those of the actions that its table may
//! run. There is to be room for as many keys as `most_keys` says and for as many digests as `most_digests` does.
//! `specs/StepRuns` says when steps do what statements mean, with the calls of the trees' meaning, and the laws of `laws` say
//! so of each step, by what its parts do.
//!
//! Follows: P4_16 Language Specification and v1model, this project's subset; RFC 1071.
//!
//! What runs takes no memory: digests go where there is room for them.
#![tactic(auto)]

mod application;
mod externs;
mod headers;
pub mod laws;
mod room;
mod step;
mod sums;
mod targets;
mod words;

pub use application::{ActionSlots, Application};
pub use externs::Externs;
pub use headers::HeaderSlots;
pub use room::{most_digests, most_keys};
pub use step::{Step, run_step, run_steps};
pub use targets::Target;
