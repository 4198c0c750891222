//! The frame of a packet.

ghost use Rattle.std.specs.Prelude.{◌≡◌, ◌≤◌, length, IfOk};
ghost use Rattle.load_maker.specs.Fabric.{hardware_bytes};
ghost use Rattle.load_maker.specs.Frames as frames;

use crate::fabric::Hardware;
use crate::packet::Packet;
use p4_values::csum16;
use std::alloc::{AllocError, Global};

fn hardware_bytes(hardware: Hardware) -> [u8; 6]
    ensures { result ≡ hardware_bytes hardware }
{
    [2, 0, 0, 0, hardware.high, hardware.low]
}

/// The IPv4 header of a packet, with this checksum.
fn header_with(packet: &Packet, checksum: u16) -> [u8; 20]
    ensures { result ≡ frames.header_with packet.now checksum }
{
    let length = 20 + packet.length as u16;
    let (source, destination) = (packet.source.address, packet.destination.address);
    [
        0x45,
        0,
        (length / 256) as u8,
        (length % 256) as u8,
        0,
        0,
        0x40,
        0,
        0x40,
        0x11,
        (checksum / 256) as u8,
        (checksum % 256) as u8,
        10,
        0,
        source.leaf,
        source.last,
        10,
        0,
        destination.leaf,
        destination.last,
    ]
}

/// The IPv4 header of a packet.
#[tactic(auto, unfolding(crate::specs::Frames::ipv4_header))]
fn ipv4_header(packet: &Packet) -> [u8; 20]
    ensures { result ≡ frames.ipv4_header packet.now }
{
    let checksum = csum16(&header_with(packet, 0));
    header_with(packet, checksum)
}

/// The frame of a packet.
pub fn frame(alloc: Global, packet: &Packet) -> Result<Vec<u8>, AllocError>
    ensures bytes { IfOk result (λ v. v.items ≡ frames.frame packet.now) }
    ensures short { IfOk result (λ v. length v.items ≤ 289) }
{
    let payload = vec![in alloc; 0; packet.length as usize]?;
    let mut frame = Vec::new(alloc);
    frame.extend_from_slice(&hardware_bytes(packet.destination.hardware))?;
    frame.extend_from_slice(&hardware_bytes(packet.source.hardware))?;
    frame.extend_from_slice(&[8, 0])?;
    frame.extend_from_slice(&ipv4_header(packet))?;
    frame.extend_from_slice(&payload)?;
    Ok(frame)
}
