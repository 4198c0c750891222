//! What a capture has for each frame.

/// A captured frame: its time in whole seconds and the microseconds past them, and its captured
/// bytes, from the Ethernet header on.
#[derive(Debug, Drop)]
pub struct Captured {
    pub seconds: u32,
    pub micros: u32,
    pub bytes: Vec<u8>,
}
