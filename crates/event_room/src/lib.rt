//! At no event are there too many table entries.
//!
//! The crate has definitions and laws, and no code. A schedule sets control variables, and each table that
//! is generated for a reading of a variable holds what the variable holds. Before a run all contents of the
//! schedule are counted, for each variable the greatest (`within_limits` of `table_items`). `specs/Room` says
//! that then no switch holds more than 65,536 entries after any of its events, `specs/Holding` what the
//! tables of a switch hold, and `specs/Jobs` that each event of a job can happen.
//!
//! Follows: Hydra, "Hydra: Effective Runtime Network Verification", SIGCOMM 2023.
#![tactic(auto)]

mod laws;

pub use laws::{contents_are_taken, jobs_have_room, tables_hold, there_is_room};
