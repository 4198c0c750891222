//! The two halves of a passage.

ghost use Rattle.std.specs.Prelude.{◌≡◌, ◌+◌, ◌*◌, ◌≤◌, ◌<◌, ◌^◌, ◌++◌, length, take, drop, vec_len, vec_capacity, MatchOption, ℕ, List};
ghost use Rattle.bit_values.specs.Bytes.{bits_of};
ghost use Rattle.bit_writer.specs.Bytes.{bytes_of};
ghost use Rattle.slot_terms.specs.States.{state_of};
ghost use Rattle.slot_controls.specs.Steps.{slot_run};
ghost use Rattle.slot_parsers.specs.Code.{reading_at};
ghost use Rattle.slot_metadata.specs.Metadata.{drops};
ghost use Rattle.slot_deparsers.specs.Emits.{most_bits};
ghost use Rattle.slot_passages.specs.Codes.{program_of};
ghost use Rattle.slot_passages.specs.Room.{most_digests, HasRoom};
ghost use Rattle.slot_passages.specs.Halves.{behind_parser, computed, enter, entered_of, frame_of, going_if, leave, left_of, waiting};

use crate::codes::ProgramCode;
use crate::controls::{compute, run_control, run_entry};
use crate::work::Work;
use slot_controls::Externs;
use slot_deparsers::{emit_headers, emit_rest};
use slot_metadata::{drops, port_of, set_error, start, turn};
use slot_parsers::run_parser;
use slot_statements::NumberedTables;
use slot_terms::State;
use std::alloc::Global;

/// Where a packet goes: the port, and how many bytes of the buffer are the frame.
#[derive(Clone, Copy, Debug, PartialEq, Eq)]
pub struct Out {
    pub port: u16,
    pub length: usize,
}

/// The parser on a frame that comes by a port, and its error: how far it came, in bits.
fn parse(c: &ProgramCode, port: u16, frame: &[u8], passed: &mut [bool], s: &mut State) -> usize
    requires short { length frame.now < 2 ^ 29 }
    requires flags { length passed.old ≡ length (program_of c.now).parser.states }
    ensures parsed { reading_at (state_of s.new) frame.now result ≡ behind_parser (program_of c.now) port frame.now (state_of s.old) }
    ensures within { result ≤ 8 * length frame.now }
{
    start(port, frame.len(), s);
    let end = run_parser(&c.parser, &c.headers, frame, passed, s);
    set_error(end.error, s);
    end.at
}

/// What waits for egress, from bit `at` of the frame on; `None` where the packet is dropped.
fn queue(at: usize, s: &mut State) -> Option<usize>
    ensures queued { (x : Externs) (frame : List ℕ) → entered_of result (slot_run s.new x) frame ≡ waiting (slot_run s.old x) (drop at (bits_of frame)) }
    ensures at { MatchOption result (Unit {0}) (λ i. i ≡ at) }
{
    if drops(s) {
        None
    } else {
        turn(s);
        Some(at)
    }
}

/// A frame enters by a port: parser, verify checksum and ingress. Behind them the packet waits in the
/// slots, and the answer says from which bit of the frame on the parser left it; `None` says that the packet is
/// dropped. The digests go behind those that are there.
pub fn enter<T: NumberedTables>(
    tables: &T,
    c: &ProgramCode,
    port: u16,
    frame: &[u8],
    w: &mut Work,
    s: &mut State,
    x: &mut Externs,
) -> Option<usize>
    requires short { length frame.now < 2 ^ 29 }
    requires room { HasRoom (length w.old.passed.items) (length w.old.keys.items) (program_of c.now) }
    requires digests { vec_len x.old.digests + (most_digests (program_of c.now).verify + most_digests (program_of c.now).ingress) ≤ vec_capacity x.old.digests }
    ensures enters { entered_of result (slot_run s.new x.new) frame.now
        ≡ enter (T.chosen tables.now) (program_of c.now) port frame.now (slot_run s.old x.old) }
    ensures within { MatchOption result (Unit {0}) (λ i. i ≤ 8 * length frame.now) }
    ensures passed { length w.new.passed.items ≡ length w.old.passed.items }
    ensures keys { length w.new.keys.items ≡ length w.old.keys.items }
    ensures told { vec_len x.new.digests ≤ vec_len x.old.digests + (most_digests (program_of c.now).verify + most_digests (program_of c.now).ingress) }
    ensures room { vec_capacity x.new.digests ≡ vec_capacity x.old.digests }
{
    let at = parse(c, port, frame, &mut w.passed, s);
    run_entry(tables, c, &mut w.keys, s, x);
    queue(at, s)
}

/// The frame that the deparser makes of the slots and the bits behind the headers: how many bytes of the
/// buffer it is.
fn write_frame(c: &ProgramCode, rest: &[u8], skip: u8, s: &State, buffer: &mut [u8]) -> usize
    requires few { skip ≤ 7 }
    requires short { length buffer.old < 2 ^ 29 }
    requires within { most_bits (program_of c.now).headers (program_of c.now).emits + 8 * length rest.now ≤ 8 * length buffer.old }
    ensures frame { take result buffer.new ≡ frame_of (program_of c.now) (state_of s.now) (drop skip (bits_of rest.now)) }
    ensures within { result ≤ length buffer.new }
{
    let end = emit_headers(&c.headers, &c.emits, s, buffer);
    emit_rest(rest, skip, buffer, end)
}

/// What waits in the slots leaves: egress, compute checksum and deparser. The bits that the parser left are
/// those of bytes but for the first `skip` ones. The frame that goes out is written into the buffer; `None` says
/// that the packet is dropped. The digests go behind those that are there.
pub fn leave<T: NumberedTables>(
    alloc: Global,
    tables: &T,
    c: &ProgramCode,
    rest: &[u8],
    skip: u8,
    w: &mut Work,
    s: &mut State,
    x: &mut Externs,
    buffer: &mut [u8],
) -> Option<Out>
    requires few { skip ≤ 7 }
    requires short { length buffer.old < 2 ^ 29 }
    requires within { most_bits (program_of c.now).headers (program_of c.now).emits + 8 * length rest.now ≤ 8 * length buffer.old }
    requires room { HasRoom (length w.old.passed.items) (length w.old.keys.items) (program_of c.now) }
    requires digests { vec_len x.old.digests + most_digests (program_of c.now).egress ≤ vec_capacity x.old.digests }
    ensures leaves { left_of result (slot_run s.new x.new) buffer.new
        ≡ leave (T.chosen tables.now) (program_of c.now) (drop skip (bits_of rest.now)) (slot_run s.old x.old) }
    ensures within { MatchOption result (Unit {0}) (λ o. o.length ≤ length buffer.new) }
    ensures passed { length w.new.passed.items ≡ length w.old.passed.items }
    ensures keys { length w.new.keys.items ≡ length w.old.keys.items }
    ensures told { vec_len x.new.digests ≤ vec_len x.old.digests + most_digests (program_of c.now).egress }
    ensures room { vec_capacity x.new.digests ≡ vec_capacity x.old.digests }
{
    run_control(tables, &c.egress, &mut w.keys, s, x);
    if drops(s) {
        return None;
    }
    let port = port_of(s);
    compute(alloc, tables, c, &mut w.keys, s);
    let length = write_frame(c, rest, skip, s, buffer);
    Some(Out { port, length })
}
