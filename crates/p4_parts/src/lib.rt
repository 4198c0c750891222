//! The parts of a P4 program that a switch runs.
//!
//! The layers above get `parts_of`: headers, registers, parser states, actions, tables and controls,
//! found by the names that `main` and the parameters give. What names stand for is written in their
//! place: paths begin with fixed roots, constants are their words, typedefs the types that they stand
//! for, and what a control or an action declares has its full name. Besides: words for the parameters
//! of an action (`args_of`), actions by a table of their names (`ActionTable`), which paths a program
//! declares, and how many values a packet has between the halves (`slots_of`).
//!
//! Follows: P4_16 Language Specification and v1model, this project's subset.
//!
//! Any tree has parts, an ill-typed one too: what a name does not stand for is empty.
#![tactic(auto)]

mod actions;
mod bodies;
mod build;
mod declared;
mod emits;
mod fields;
mod header;
mod parts;
mod places;
mod slots;
mod tables;

pub use actions::{action_named, args_of, params_of};
pub use build::parts_of;
pub use declared::{is_assignable, is_declared_header, is_declared_path};
pub use header::{Field, Header};
pub use parts::{Action, Body, Cells, Chosen, Key, Parts, Table, Taken};
pub use places::{ActionTable, action_places, add_place};
pub use slots::slots_of;
pub use tables::table_named;
