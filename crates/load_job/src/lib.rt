//! The job of `load`: the made case of a number, read as `run` reads a case.
//!
//! The layer above gets `load_made`, which keeps to the course `load_course` of `specs/Course`: the
//! files of the case are made and held in memory, and read there as `run` reads a case from the store.
//! All files that the case names are among them (`proofs/Asked`), so that no file is missing.
#![tactic(auto)]

mod load;

pub use load::{MadeJob, load_made};
