//! The job of `forward`: the files of a case, read in their order.
//!
//! The layer above gets `load_forward`, which keeps to the course `forward_course` of `specs/Course`:
//! the case, the program, the network and where the captures enter it, the entries, the captures and
//! the schedule. A job that it gives is ready to be run.
#![tactic(auto)]

mod load;

pub use load::load_forward;
