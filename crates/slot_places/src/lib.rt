//! The slots of a whole P4 program.
//!
//! The layers above get `program_places`, the places of all paths that a program declares: the standard
//! metadata, the metadata and the fields of headers, with room for variables behind them; and
//! `slot_headers`, which says where the fields of each header begin. `specs/ProgramPlaces` says when the
//! places are a program's (`ArePlaced`), and the clauses that then no two paths have one slot, that the
//! paths are those that the program declares, and that each header is laid out, as the laws of
//! `slot_packets` ask.
//!
//! Follows: P4_16 Language Specification and v1model, this project's subset.
//!
//! There are no places where a path is declared twice, or where 32 bits don't number the slots; that no
//! path of a well-typed program is declared twice is not said here. Each path is compared with all others.
#![tactic(auto)]

mod apart;
mod begins;
mod declared;
mod header;
mod program;

pub use begins::slot_headers;
pub use header::SlotHeader;
pub use program::program_places;
