//! What steps of a state do on a frame.

ghost use Rattle.std.specs.Prelude.{◌≡◌, ◌^◌, ◌<◌, ◌≤◌, ◌*◌, ◌-◌, length, map, nat_lt, slice_set, true};
ghost use Rattle.slot_terms.specs.States.{state_of};
ghost use Rattle.slot_packets.specs.Fields.{widths_sum};
ghost use Rattle.slot_places.specs.HeaderSlots.{header_slots_of};
ghost use Rattle.slot_parsers.specs.ParserCodes.{taken, step_done, steps_done};
ghost use Rattle.slot_parsers.specs.Code.{step_of, reading_at, stepped_of, StepsWithin};

use crate::codes::Step;
use p4_packets::ParserError;
use slot_packets::take_fields;
use slot_places::SlotHeader;
use slot_statements::exec;
use slot_terms::State;

/// Where a parser is in a frame, in bits, and whether it goes on.
#[derive(Clone, Copy)]
pub enum Stepped {
    On(usize),
    Halt(usize, ParserError),
}

/// Whether fields have more bits than there is room for.
fn is_short(widths: &[u8], room: usize) -> bool
    ensures { result ≡ nat_lt room (widths_sum widths.now) }
{
    let mut left = room;
    for width in widths {
        let bits = *width as usize;
        if bits > left {
            return true;
        }
        left -= bits;
    }
    false
}

/// The header of a number is valid; where there is no such header nothing is done.
fn make_valid(valid: &mut [bool], header: u32)
    ensures { valid.new ≡ slice_set valid.old header true }
{
    let header = header as usize;
    if header < valid.len() {
        valid[header] = true;
    }
}

/// Extracts the header of a number, if the frame is long enough.
fn take_header(h: &SlotHeader, number: u32, frame: &[u8], at: usize, s: &mut State) -> Stepped
    requires short { length frame.now < 2 ^ 29 }
    requires within { at ≤ 8 * length frame.now }
    ensures taken { stepped_of result (state_of s.new) frame.now ≡ taken (header_slots_of h.now) number (reading_at (state_of s.old) frame.now at) }
    ensures within { StepsWithin result (8 * length frame.now) }
{
    if is_short(&h.widths, 8 * frame.len() - at) {
        return Stepped::Halt(at, ParserError::PacketTooShort);
    }
    let end = take_fields(&h.widths, h.first, frame, at, &mut s.slots);
    make_valid(&mut s.valid, number);
    Stepped::On(end)
}

/// What a step does.
fn do_step(headers: &[SlotHeader], c: &Step, frame: &[u8], at: usize, s: &mut State) -> Stepped
    requires short { length frame.now < 2 ^ 29 }
    requires within { at ≤ 8 * length frame.now }
    ensures done { stepped_of result (state_of s.new) frame.now ≡ step_done (map header_slots_of headers.now) (step_of c.now) (reading_at (state_of s.old) frame.now at) }
    ensures within { StepsWithin result (8 * length frame.now) }
{
    match c {
        Step::Pass => Stepped::On(at),
        Step::Assigns(code) => {
            exec(code, s);
            Stepped::On(at)
        }
        Step::Takes(number) => {
            let i = *number as usize;
            if i < headers.len() {
                take_header(&headers[i], *number, frame, at, s)
            } else {
                Stepped::On(at)
            }
        }
    }
}

/// What the steps of a state do one after the other.
pub(crate) fn do_steps(
    headers: &[SlotHeader],
    steps: &[Step],
    frame: &[u8],
    at: usize,
    s: &mut State,
) -> Stepped
    requires short { length frame.now < 2 ^ 29 }
    requires within { at ≤ 8 * length frame.now }
    ensures done { stepped_of result (state_of s.new) frame.now ≡ steps_done (map header_slots_of headers.now) (map step_of steps.now) (reading_at (state_of s.old) frame.now at) }
    ensures within { StepsWithin result (8 * length frame.now) }
{
    let mut here = at;
    for c in steps {
        match do_step(headers, c, frame, here, s) {
            Stepped::Halt(end, e) => return Stepped::Halt(end, e),
            Stepped::On(next) => here = next,
        }
    }
    Stepped::On(here)
}
