//! The job of `wire`: the files of a property and of a frame, read in their order, and what is linked.
//!
//! The layer above gets `load_wire`, which keeps to the course `wire_course` of `specs/Course`: the
//! property, which declares no control variable, the frame, and what the property and the built-in
//! wire program are linked to at three switches in a line. A job that it gives is ready to be run.
#![tactic(auto)]

mod line;
mod load;

pub use load::load_wire;
