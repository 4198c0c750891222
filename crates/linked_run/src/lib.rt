//! The run of a property's linked programs over a job, and what is written of it.
//!
//! The layer above gets `run_linked` and, for `wire`, `run_wire`, which put answers of rules into the
//! linked programs of a job and run these. Their contracts are the headline (`specs/Headline`): there are
//! linked programs which keep all that is claimed of them, and what is written is that of their run.
#![tactic(auto)]

mod run;
mod simplifying;
mod to_end;

pub use run::{run_linked, run_wire};
