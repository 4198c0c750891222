//! The run of a parser on a frame.

ghost use Rattle.std.specs.Prelude.{◌≡◌, ◌+◌, ◌^◌, ◌<◌, ◌≤◌, ◌*◌, length, map, replicate, false};
ghost use Rattle.slot_terms.specs.States.{state_of};
ghost use Rattle.slot_places.specs.HeaderSlots.{header_slots_of};
ghost use Rattle.slot_parsers.specs.ParserCodes.{turned, turns, steps_done, parsed};
ghost use Rattle.slot_parsers.specs.Code.{state_in, parser_in, reading_at, turn_of, end_of, TurnsWithin, IsSlotTurn};

use crate::codes::{ParserCode, StateCode};
use crate::next::{Led, next_of};
use crate::steps::{Stepped, do_steps};
use p4_packets::ParserError;
use slot_places::SlotHeader;
use slot_terms::State;

/// How a state ends: the parser ends, or another state follows.
pub(crate) enum Turn {
    End(usize, ParserError),
    Next(usize, Option<u32>),
}

/// How a parser ended: how far it came, in bits, and its error.
#[derive(Clone, Copy, Debug, PartialEq, Eq)]
pub struct End {
    pub at: usize,
    pub error: ParserError,
}

/// A state is passed.
fn pass_state(headers: &[SlotHeader], c: &StateCode, frame: &[u8], at: usize, s: &mut State) -> Turn
    requires short { length frame.now < 2 ^ 29 }
    requires within { at ≤ 8 * length frame.now }
    ensures turned { turn_of result (state_of s.new) frame.now ≡ turned (steps_done (map header_slots_of headers.now) (state_in c.now).steps (reading_at (state_of s.old) frame.now at)) (state_in c.now).next }
    ensures within { TurnsWithin result (8 * length frame.now) }
{
    match do_steps(headers, &c.steps, frame, at, s) {
        Stepped::Halt(end, e) => Turn::End(end, e),
        Stepped::On(end) => match next_of(&c.next, s) {
            Led::To(next) => Turn::Next(end, next),
            Led::Halt(e) => Turn::End(end, e),
        },
    }
}

/// One turn: the state of a number is passed, and gets its flag.
fn one_turn(
    headers: &[SlotHeader],
    states: &[StateCode],
    passed: &mut [bool],
    next: Option<u32>,
    frame: &[u8],
    at: usize,
    s: &mut State,
) -> Turn
    requires short { length frame.now < 2 ^ 29 }
    requires within { at ≤ 8 * length frame.now }
    ensures turned { IsSlotTurn (map header_slots_of headers.now) (map state_in states.now) passed.old next (reading_at (state_of s.old) frame.now at) (turn_of result (state_of s.new) frame.now) passed.new }
    ensures within { TurnsWithin result (8 * length frame.now) }
{
    match next {
        None => Turn::End(at, ParserError::NoError),
        Some(number) => {
            let i = number as usize;
            if i >= passed.len() || passed[i] {
                return Turn::End(at, ParserError::NoError);
            }
            passed[i] = true;
            if i < states.len() {
                pass_state(headers, &states[i], frame, at, s)
            } else {
                Turn::End(at, ParserError::NoError)
            }
        }
    }
}

/// No state was passed yet.
fn clear(passed: &mut [bool])
    ensures { passed.new ≡ replicate (length passed.old) false }
{
    for i in 0..passed.len() {
        passed[i] = false;
    }
}

/// The states from one on, each passed once at most, by the flags.
fn run_states(
    headers: &[SlotHeader],
    states: &[StateCode],
    passed: &mut [bool],
    start: Option<u32>,
    frame: &[u8],
    s: &mut State,
) -> End
    requires { length frame.now < 2 ^ 29 }
    ensures ends { end_of result (state_of s.new) frame.now ≡ turns (map header_slots_of headers.now) (map state_in states.now) (length states.now + 1) passed.old start (reading_at (state_of s.old) frame.now 0) }
    ensures within { result.at ≤ 8 * length frame.now }
{
    let count = states.len() + 1;
    let mut at = 0;
    let mut next = start;
    for i in 0..count {
        match one_turn(headers, states, passed, next, frame, at, s) {
            Turn::End(end, error) => return End { at: end, error },
            Turn::Next(end, target) => {
                at = end;
                next = target;
            }
        }
    }
    End {
        at,
        error: ParserError::NoError,
    }
}

/// Runs a parser on a frame, over the slots that its code was made for. `passed` is room for a flag for
/// each state.
pub fn run_parser(
    p: &ParserCode,
    headers: &[SlotHeader],
    frame: &[u8],
    passed: &mut [bool],
    s: &mut State,
) -> End
    requires short { length frame.now < 2 ^ 29 }
    requires flags { length passed.old ≡ length (parser_in p.now).states }
    ensures ends { end_of result (state_of s.new) frame.now ≡ parsed (map header_slots_of headers.now) (parser_in p.now) (reading_at (state_of s.old) frame.now 0) }
    ensures within { result.at ≤ 8 * length frame.now }
{
    clear(passed);
    run_states(headers, &p.states, passed, p.start, frame, s)
}
