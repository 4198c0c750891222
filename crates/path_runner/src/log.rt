//! What a run has done.

use crate::packet::{Sent, Told};
use network_file::Network;

/// What a run has done, in the order of events: the frames put on links, the frames that left by edge
/// ports and the digests; how many packets the switches dropped and the network lost; and the switches
/// and the network at the end.
#[derive(Drop)]
pub struct RunLog<P> {
    pub wires: Vec<Sent>,
    pub edges: Vec<Sent>,
    pub told: Vec<Told>,
    pub dropped: u32,
    pub lost: u32,
    pub switches: Vec<P>,
    pub net: Network,
}
