//! What `forward` is to do.

use network_file::{Event, Network};
use p4_tables::TableState;
use p4_types::TypedProgram;
use path_runner::Packet;
use run_captures::Time;

/// A program that runs at every switch of a network, how many switches a packet may pass, the tables of
/// each switch, the packets, each with the time of its capture, and the schedule.
#[derive(Drop)]
pub struct ForwardJob {
    pub program: TypedProgram,
    pub network: Network,
    pub hops: u8,
    pub tables: Vec<TableState>,
    pub packets: Vec<Packet>,
    pub times: Vec<Time>,
    pub events: Vec<Event>,
}
