//! Where a packet goes after egress.

/// A frame that leaves by a port, or a packet that is dropped.
#[derive(Drop)]
pub enum Gone {
    Out { port: u16, frame: Vec<u8> },
    Dropped,
}
