//! The telemetry: the bytes in which the variables of a packet travel, in front of its frame.
//!
//! The layers above get `layout`, which says where each variable of a property stands, or that there
//! is no room; `write_tele`, which writes the bytes of a state and takes no memory; and `read_tele`,
//! which answers the state whose bytes a buffer holds, and nothing where it holds those of none.
//!
//! `specs/Telemetry` defines the bytes, by what the variables hold under their names. `specs/Layouts`
//! has the same by places, on which the calls work. `laws` ties both together, and both to the
//! telemetry of linked programs; that bytes tell their state is there too.
//!
//! Follows: "Hydra: Effective Runtime Network Verification", SIGCOMM 2023; the order of the bits is
//! this project's profile.
//!
//! Both calls take time that goes with the number of bits.
#![tactic(auto)]

mod fault;
pub mod laws;
mod places;
mod reading;
mod slots;
mod writing;

pub use fault::LayoutFault;
pub use places::layout;
pub use reading::read_tele;
pub use slots::{Layout, Slot};
pub use writing::write_tele;
