//! The captures of the hosts.

ghost use Rattle.std.specs.Prelude.{◌≡◌, ◌≤◌, length, IfOk, string_bytes};
ghost use Rattle.pcap_io.specs.Record.{record_of};
ghost use Rattle.load_maker.specs.Captures as captures;

use crate::frames::frame;
use crate::packet::Packet;
use pcap_io::{Captured, write_capture};
use std::alloc::{AllocError, Global};

/// A packet as a record of a capture.
fn captured(alloc: Global, packet: &Packet) -> Result<Captured, AllocError>
    ensures record { IfOk result (λ c. record_of c ≡ captures.record_for packet.now) }
    ensures short { IfOk result (λ c. length c.bytes.items ≤ 289) }
{
    let bytes = frame(alloc, packet)?;
    Ok(Captured {
        seconds: u32::from(packet.number / 1000),
        micros: u32::from(packet.number % 1000),
        bytes,
    })
}

/// The capture of the packets that a host sends.
pub fn capture(alloc: Global, host: u8, packets: &[Packet]) -> Result<Vec<u8>, AllocError>
    ensures { IfOk result (λ v. v.items ≡ captures.capture host packets.now) }
{
    let mut records = Vec::new(alloc);
    for packet in packets {
        if packet.source.number == host {
            records.push(captured(alloc, packet)?)?;
        }
    }
    write_capture(alloc, &records)
}

/// The name of the capture of a host.
pub fn capture_name(alloc: Global, out: &str, host: u8) -> Result<String, AllocError>
    ensures { IfOk result (λ s. string_bytes s ≡ captures.capture_name out.now host) }
{
    format!(in alloc; "{out}.h{host}.pcap")
}
