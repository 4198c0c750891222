//! A packet of the load.

use crate::fabric::Host;

/// A packet: its number, the hosts between which it goes, and the length of its payload.
#[derive(Clone, Copy, Debug)]
pub struct Packet {
    pub number: u16,
    pub source: Host,
    pub destination: Host,
    pub length: u8,
}
