//! Linking as a step of a command.
//!
//! The layer above gets `load_link`, which keeps to the course `link_course` of `specs/Links`: where
//! there is one of five refusals, its line, which `specs/Lines` says, and else the linked programs of a
//! network's switches with the tables of control variables.
#![tactic(auto)]

mod lines;
mod link;

pub use link::load_link;
