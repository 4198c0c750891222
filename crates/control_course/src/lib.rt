//! The contents of control variables as a step of a command, and the number of table items.
//!
//! The layer above gets `load_contents`, what the control variables of each switch hold, and
//! `items_in`, whether the tables of the switches have room for it. Each keeps to a course of
//! `specs/Files`, which says which file is asked for, which refusals there are, each with its line,
//! and what is given. `Lines` has the line of too many items.
#![tactic(auto)]

mod contents;
mod items;

pub use contents::load_contents;
pub use items::items_in;
