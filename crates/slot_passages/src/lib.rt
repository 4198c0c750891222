//! The two halves of a passage of a P4 program over numbered slots.
//!
//! The layers above get `enter` and `leave`, the two halves of a passage, by the code of a program
//! (`ProgramCode`), over whatever tells by numbers what a table chooses, the slots of a packet (`State`) and what
//! registers hold with the digests of the half (`Externs`). Contracts say what each does to the slots
//! (`specs/Halves`); `specs/Programs` says when code is that of a program, and the laws of `laws` that the
//! halves then do what `parts_enter` and `parts_leave` of the trees' meaning do: between them waits the
//! slots' own store.
//!
//! Follows: P4_16 Language Specification and v1model, this project's subset. What makes the code of a
//! program stands above this.
//!
//! No half takes memory: room for the parser's flags, for keys, for digests and for the frame that goes out
//! is handed in (`specs/Room`).
#![tactic(auto)]

mod codes;
mod controls;
pub mod laws;
mod passage;
mod work;

pub use codes::{ControlCode, ProgramCode};
pub use passage::{Out, enter, leave};
pub use work::Work;
