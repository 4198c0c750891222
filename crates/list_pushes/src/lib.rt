//! Flat code of pushes onto lists, over numbered scalars.
//!
//! The layer above gets `push_to`, what is done in place of a push onto a list of so many places: where
//! there is room, the value is put behind the items and counted, and a full list stays as it is. It gets the
//! names of numbered scalars, too, and the expressions of which tests of counts and items are made.
//!
//! `specs/Names` has the names, `specs/Pushes` the code.
//!
//! Follows: "Hydra: Effective Runtime Network Verification", SIGCOMM 2023; the names are this project's
//! profile.
#![tactic(auto)]

mod names;
mod pushes;
mod terms;

pub use names::{count_name, item_name};
pub use pushes::push_to;
pub use terms::{binary, byte, count, item};
