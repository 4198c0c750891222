//! The job of `run`: the files of a case, read in their order, and what is linked.
//!
//! The layer above gets `load_run`, which keeps to the course `run_course` of `specs/Course`: the case,
//! the property, the program, the network and where the captures enter it, what these are linked to, the
//! entries, the contents of control variables, the captures, the schedule, and the number of table
//! items. A job that it gives is ready to be run. `load_linked` goes the same way up to what is linked
//! (`linked_course`).
#![tactic(auto)]

mod load;

pub use load::{Base, Site, load_linked, load_run};
