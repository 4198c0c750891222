//! A switch that runs a well-typed P4 program, on maps by name.
//!
//! The layers above get the trait `Pass`, what a switch does with a packet, whatever keeps its program
//! and whatever a packet waits in between the halves (`Place`): `room`, `enter`, `leave`, `pass`,
//! `set_table` and `cell`; `Switch`, which meets it over the maps by name of `p4_passages`, with `Queued`
//! for its places; and `FrameBuf`, which is handed in, too. Contracts say what each call does as the
//! halves of the trees' meaning (`specs/Passages`), and see buffers and places as records
//! (`specs/Buffers`). Both are made for a program (`IsMadeFor`, `IsPlaceFor`). A buffer takes all its room
//! when it is made. Switches of one program share it and all that is reckoned of it: `new` makes the first of
//! them, and `another` each further one.
//!
//! Follows: P4_16 Language Specification and v1model, this project's subset.
//!
//! After want of memory in a half the switch and the packet's place are given up. Speed is not promised.
#![tactic(auto)]

mod buffer;
mod loaded;
mod needs;
mod pass;
mod plan;
mod queued;
mod switch;

pub use buffer::FrameBuf;
pub use p4_statements::Digest;
pub use pass::{Entered, Pass, Passed};
pub use queued::Queued;
pub use switch::Switch;
