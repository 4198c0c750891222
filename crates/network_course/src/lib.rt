//! The files of a network as steps of a command: a case, a network, and where captures enter it.
//!
//! The layer above gets `load_value`, which reads a JSON file, `case_in` and `load_network`, and
//! `places_in`, where the frames of a case's captures enter. Each keeps to a course of
//! `specs/Files`, which says which file is asked for, which refusals there are, each with its line,
//! and what is given. `Lines` has the lines.
#![tactic(auto)]

mod files;
mod lines;
mod places;

pub use files::{case_in, load_network, load_value, places_in};
pub use lines::path_text;
pub use places::{Place, PlaceFault, places_of};
