//! What a case file says.

/// A capture: the switch and the port at which its frames enter, and its file. Whether there are
/// such a switch and such a port is tested with the network.
#[derive(Clone, Copy, Debug)]
pub struct Capture<'a> {
    pub switch: &'a str,
    pub port: u64,
    pub file: &'a str,
}

/// A case: the names of its files, and its limits.
#[derive(Debug, Drop)]
pub struct Case<'a> {
    pub captures: Vec<Capture<'a>>,
    pub control: Option<&'a str>,
    pub entries: Option<&'a str>,
    /// How many switches a packet may pass, from 1 to 255.
    pub hops: u8,
    pub network: &'a str,
    pub program: &'a str,
    pub property: Option<&'a str>,
    /// The bytes of telemetry that a frame may carry, from 1 to 256.
    pub room: u16,
    pub schedule: Option<&'a str>,
}
