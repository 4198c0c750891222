//! What `run` is to do.

use indus_types::TypedProperty;
use indus_values::ControlValue;
use network_file::{Event, Network};
use p4_tables::TableState;
use p4_types::TypedProgram;
use path_runner::Packet;
use program_linker::Linked;
use run_captures::Time;

/// A property and a program, what both are linked to on a network, how many switches a packet may pass,
/// and how many bytes of telemetry a frame may carry; the tables of the given program at each switch, and
/// the contents of all control variables there, in order of declaration; the packets, each with the time
/// of its capture, and the schedule.
#[derive(Drop)]
pub struct LinkedJob {
    pub property: TypedProperty,
    pub program: TypedProgram,
    pub linked: Linked,
    pub network: Network,
    pub hops: u8,
    pub room: u16,
    pub tables: Vec<TableState>,
    pub contents: Vec<Vec<ControlValue>>,
    pub packets: Vec<Packet>,
    pub times: Vec<Time>,
    pub events: Vec<Event>,
}
