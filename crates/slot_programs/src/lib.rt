//! What makes the code of a whole program over numbered slots.
//!
//! The layers above get `program_code`, which makes the `ProgramCode` of `slot_passages` of a program's `Parts`
//! once, with the program's places and the most keys that the application of a table has (`Coded`). The code is the
//! program's wherever tables choose by numbers what they choose by names (`specs/Chooses`, `IsCodeOf`), and
//! `specs/Known` says which programs have code.
//!
//! Follows: P4_16 Language Specification and v1model, this project's subset.
//!
//! Each control is compiled by the places of its own variables. Tables and actions keep the numbers that they
//! have in the whole program. Verify and compute checksum call no action and apply no table.
#![tactic(auto)]

mod coded;
mod controls;
mod emits;
mod keys;
mod program;
mod room;
mod source;

pub use coded::Coded;
pub use program::program_code;
