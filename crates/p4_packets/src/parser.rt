//! The parser of a program, on a frame.

ghost use Rattle.std.specs.Prelude.{◌≡◌, ◌^◌, ◌<◌, ◌≤◌, ◌*◌, length, drop, IfOk, OnOk};
ghost use Rattle.bit_values.specs.Bits.{cast};
ghost use Rattle.bit_values.specs.Bytes.{bits_of};
ghost use Rattle.p4_meaning.specs.Pass.{store_behind, error_number};
ghost use Rattle.p4_parts.specs.PartsIn.{parts_in};
ghost use Rattle.p4_packets.specs.Fields.{store_of};
ghost use Rattle.p4_packets.specs.Places.{error_of};
ghost use Rattle.p4_packets.specs.Ends.{parser_ends, parser_ends_from};

use crate::begin::store_before;
use crate::fields::Fields;
use crate::parse::ParserError;
use crate::standard::set_number;
use crate::states::run_states;
use lex_text::Name;
use p4_parts::Parts;
use std::alloc::{AllocError, Global};

fn error_number(e: ParserError) -> u128
    ensures value { result ≡ error_number (error_of e) }
    ensures small { cast 2 result ≡ error_number (error_of e) }
{
    match e {
        ParserError::NoError => 0,
        ParserError::PacketTooShort => 1,
        ParserError::NoMatch => 2,
    }
}

/// The parser on a frame, with this in sight before it: how far it came, in bits. How it ended is the
/// parser's error of the standard metadata behind it.
pub fn parse_from(
    alloc: Global,
    p: &Parts,
    frame: &[u8],
    s: &mut Fields,
) -> Result<usize, AllocError>
    requires { length frame.now < 2 ^ 29 }
    ensures store { OnOk result (store_of s.new ≡ store_behind (parser_ends_from (parts_in p.now) (store_of s.old) frame.now)) }
    ensures rest { IfOk result (λ at. drop at (bits_of frame.now) ≡ (parser_ends_from (parts_in p.now) (store_of s.old) frame.now).reading.rest) }
    ensures within { IfOk result (λ at. at ≤ 8 * length frame.now) }
{
    let start = Name::new(alloc, "start")?;
    let turns = p.states.len() + 1;
    let (at, e) = run_states(alloc, &p.headers, &p.states, &start, turns, frame, s)?;
    set_number(alloc, "parser_error", 2, error_number(e), s)?;
    Ok(at)
}

/// The parser on a frame that comes by a port: the store behind it, and how far it came, in bits.
pub fn parse_frame(
    alloc: Global,
    p: &Parts,
    port: u16,
    frame: &[u8],
) -> Result<(Fields, usize), AllocError>
    requires { length frame.now < 2 ^ 29 }
    ensures store { IfOk result (λ r. store_of r.0 ≡ store_behind (parser_ends (parts_in p.now) port frame.now)) }
    ensures rest { IfOk result (λ r. drop r.1 (bits_of frame.now) ≡ (parser_ends (parts_in p.now) port frame.now).reading.rest) }
    ensures within { IfOk result (λ r. r.1 ≤ 8 * length frame.now) }
{
    let mut s = store_before(alloc, p, port, frame.len() as u64)?;
    let at = parse_from(alloc, p, frame, &mut s)?;
    Ok((s, at))
}
