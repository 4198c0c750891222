//! The tables of a linked switch before the first event of a run.
//!
//! The layer above gets `loaded`: the tables of a switch's linked program, which hold what the program
//! that was given holds in its own tables and the contents of control variables in the generated ones,
//! and the map of the generated tables by their numbers (`switch_map`), as a net takes both
//! (`path_runner`). `specs/Rows` says how the rows of a map are numbered, `specs/Loading` what is asked
//! of a map and of contents.
//!
//! Want of memory alone is a reason for an error. A table is found by its name with a walk over all
//! tables of the program.
#![tactic(auto)]

mod filling;
mod first_tables;
mod numbering;

pub use first_tables::loaded;
pub use numbering::{Mapped, switch_map};
