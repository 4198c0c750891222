//! A switch that runs a well-typed P4 program over numbered slots.
//!
//! The layers above get `SlotMachine`, a switch over slots, whose `enter`, `leave` and `pass` take no memory
//! and have no error; `SlotSwitch`, which meets the trait `Pass` for every well-typed program; and `SlotBench`,
//! which makes them. Contracts say what each call does as the halves of the trees' meaning, as those of
//! `Pass` do, and see switches and places as records (`specs/Machines`, `specs/SlotPlaces`). Switches of one program
//! share it with its code: `new` makes the first of them, and `another` each further one.
//!
//! A program that has no code over slots (`has_code` of `slot_programs`), whose code is not known to fit
//! a buffer (`IsSlotPlan`), that has more than 512 paths, actions or tables, or more than 64 registers, or whose
//! code would be made of more than 262,144 nodes of trees, where an action counts anew at each call and at each
//! application of a table that may run it, runs on the plain machine of `p4_machine` in a `SlotSwitch`: there a
//! passage takes memory. No law says yet which programs these are.
//!
//! Follows: P4_16 Language Specification and v1model, this project's subset.
#![tactic(auto)]

mod bench;
mod cells;
mod frames;
mod halves;
mod machine;
mod place;
mod plan;
mod room;
mod size;
mod switch;

pub use bench::SlotBench;
pub use machine::SlotMachine;
pub use place::SlotQueued;
pub use switch::{SlotPlace, SlotSwitch};
