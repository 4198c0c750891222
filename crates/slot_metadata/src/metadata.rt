//! The standard metadata in slots.

ghost use Rattle.std.specs.Prelude.{◌≡◌, length, replicate, false};
ghost use Rattle.bit_values.specs.Bits.{cast};
ghost use Rattle.p4_meaning.specs.Pass.{error_number};
ghost use Rattle.p4_packets.specs.Places.{error_of};
ghost use Rattle.slot_terms.specs.States.{state_of};
ghost use Rattle.slot_metadata.specs.Metadata.{drops, port_of, started, turned, with_error};

use p4_packets::ParserError;
use slot_terms::{State, number_in, put_number};

/// The slots of the standard metadata, which are the first ones of each program.
const INGRESS_PORT: u32 = 0;

const EGRESS_SPEC: u32 = 1;

const EGRESS_PORT: u32 = 2;

const PACKET_LENGTH: u32 = 3;

const PARSER_ERROR: u32 = 5;

/// The port to which dropped packets go.
const DROP: u128 = 511;

/// All slots are 0.
fn clear_slots(slots: &mut [u128])
    ensures { slots.new ≡ replicate (length slots.old) 0 }
{
    slots.fill(0);
}

/// No header is valid.
fn clear_valid(valid: &mut [bool])
    ensures { valid.new ≡ replicate (length valid.old) false }
{
    valid.fill(false);
}

/// The lowest 9 bits of a port.
fn port_bits(port: u16) -> u128
    ensures { result ≡ cast 9 port }
{
    (port % 512) as u128
}

/// The lowest 32 bits of a length.
fn length_bits(length: usize) -> u128
    ensures { result ≡ cast 32 length }
{
    (length % 4_294_967_296) as u128
}

/// Makes the slots before the parser, for a frame of a length that comes by a port.
pub fn start(port: u16, length: usize, s: &mut State)
    ensures { state_of s.new ≡ started port length (state_of s.old) }
{
    clear_slots(&mut s.slots);
    clear_valid(&mut s.valid);
    put_number(&mut s.slots, INGRESS_PORT, port_bits(port));
    put_number(&mut s.slots, PACKET_LENGTH, length_bits(length));
}

/// The number that stands for a parser's error.
fn error_number(e: ParserError) -> u128
    ensures { result ≡ error_number (error_of e) }
{
    match e {
        ParserError::NoError => 0,
        ParserError::PacketTooShort => 1,
        ParserError::NoMatch => 2,
    }
}

/// Sets the parser's error.
pub fn set_error(e: ParserError, s: &mut State)
    ensures { state_of s.new ≡ with_error (error_of e) (state_of s.old) }
{
    put_number(&mut s.slots, PARSER_ERROR, error_number(e));
}

/// Whether the packet is dropped.
pub fn drops(s: &State) -> bool
    ensures { result ≡ drops (state_of s.now) }
{
    number_in(&s.slots, EGRESS_SPEC) == DROP
}

/// The port that ingress chose becomes that by which the packet leaves.
pub fn turn(s: &mut State)
    ensures { state_of s.new ≡ turned (state_of s.old) }
{
    let port = number_in(&s.slots, EGRESS_SPEC);
    put_number(&mut s.slots, EGRESS_PORT, port);
    put_number(&mut s.slots, EGRESS_SPEC, 0);
}

/// The port by which a packet leaves, in 9 bits.
pub fn port_of(s: &State) -> u16
    ensures { result ≡ port_of (state_of s.now) }
{
    (number_in(&s.slots, EGRESS_PORT) % 512) as u16
}
