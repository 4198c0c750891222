//! The files of entries and of the schedule as steps of a command.
//!
//! The layer above gets `load_tables`, what the tables of each switch hold, and `load_events`, the
//! schedule. Each keeps to a course of `specs/Files`, which says which file is asked for, which
//! refusals there are, each with its line, and what is given. `Lines` has the lines, and `table_text`
//! is that of a refused file of tables or of contents.
#![tactic(auto)]

mod events;
mod lines;
mod tables;

pub use events::load_events;
pub use lines::table_text;
pub use tables::load_tables;
