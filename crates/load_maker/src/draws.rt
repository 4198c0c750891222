//! The packets that are drawn from a number.

ghost use Rattle.std.specs.Prelude.{◌≡◌, IfOk};
ghost use Rattle.load_maker.specs.Draws as draws;

use crate::fabric::host_at;
use crate::packet::Packet;
use std::alloc::{AllocError, Global};

/// How many packets are drawn.
const PACKETS: u16 = 2000;

const MULTIPLIER: u64 = 6_364_136_223_846_793_005;

const INCREMENT: u64 = 1_442_695_040_888_963_407;

/// Two to the power of 33: a draw gives the bits above the lowest 33.
const LOW_BITS: u64 = 8_589_934_592;

/// Numbers that are drawn one after another.
#[derive(Drop)]
struct Draws {
    state: u64,
}

impl Draws {
    #[tactic(auto, unfolding(crate::specs::Draws::next_state))]
    fn next(&mut self) -> u64
        ensures state { self.new.state ≡ draws.next_state self.old.state }
        ensures drawn { result ≡ draws.draw self.old.state }
    {
        self.state = self.state.wrapping_mul(MULTIPLIER).wrapping_add(INCREMENT);
        self.state / LOW_BITS
    }

    /// The next packet, of three draws.
    fn packet(&mut self, number: u16) -> Packet
        ensures state { self.new.state
            ≡ draws.next_state (draws.next_state (draws.next_state self.old.state)) }
        ensures drawn { result ≡ draws.packet number self.old.state }
    {
        let source = host_at((self.next() % 16) as u8);
        let destination = host_at((self.next() % 16) as u8);
        let length = (self.next() % 64) as u8;
        Packet {
            number,
            source,
            destination,
            length,
        }
    }
}

/// The packets that are drawn from a number.
pub fn packets(alloc: Global, number: u64) -> Result<Vec<Packet>, AllocError>
    ensures { IfOk result (λ v. v.items ≡ draws.packets number) }
{
    let mut draws = Draws { state: number };
    let mut packets = Vec::new(alloc);
    for i in 0..PACKETS {
        packets.push(draws.packet(i))?;
    }
    Ok(packets)
}
