//! Packets, and what becomes of them.

use p4_machine::Digest;

/// A packet at the start: the switch and the edge port to which it comes, and its frame.
#[derive(Drop)]
pub struct Packet {
    pub switch: u16,
    pub port: u16,
    pub bytes: Vec<u8>,
}

/// A frame that a switch sent by a port. Packets are numbered from 0.
pub struct Sent {
    pub packet: u32,
    pub switch: u16,
    pub port: u16,
    pub frame: Vec<u8>,
}

impl Drop for Sent {
    fn drop(self) {
        let Sent {
            packet: _,
            switch: _,
            port: _,
            frame: _frame,
        } = self;
    }
}

/// A digest, with the packet and the switch that it comes from.
pub struct Told {
    pub packet: u32,
    pub switch: u16,
    pub digest: Digest,
}

impl Drop for Told {
    fn drop(self) {
        let Told {
            packet: _,
            switch: _,
            digest: _digest,
        } = self;
    }
}
