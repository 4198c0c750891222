//! Network files: the switches of a network and the links between them.
//!
//! The layers above get `read_network`, which reads a value as a network, and `Network`, which
//! contracts see as the names of its switches and its links. `specs/Named` says how a file is
//! written, `Network` what it says and which fault it has, `Wiring` how the network's run sees it.
//! `Event` is a step of a schedule.
//!
//! A network has 1 to 256 switches, whose ports are 0 to 510, and a port has one link at most.
#![tactic(auto)]

mod checks;
mod event;
mod fault;
mod named;
mod network;
mod numbered;

pub use event::Event;
pub use fault::NetworkFault;
pub use network::{Network, read_network};
