//! The states of a parser, one after the other.

ghost use Rattle.std.specs.Prelude.{◌≡◌, ◌^◌, ◌<◌, ◌≤◌, ◌*◌, length, IfOk, map};
ghost use Rattle.p4_tree.specs.View.{state_of};
ghost use Rattle.p4_meaning.specs.Parsing.{body_parsed, found_state, turned, turns_of, parser_end};
ghost use Rattle.p4_parts.specs.Headers.{header_in};
ghost use Rattle.p4_packets.specs.Left.{states_in, found_in};
ghost use Rattle.p4_packets.specs.Places.{error_of, reading_of, turned_of, TurnsWithin, IsTurn};

use crate::fields::Fields;
use crate::parse::{ParserError, Step, parse_body};
use crate::select::{Led, state_after};
use lex_text::Name;
use p4_parts::Header;
use p4_tree::ParserState;
use p4_values::same_text;
use std::alloc::{AllocError, Global};

/// How a state ends: the parser ends, or another state follows.
pub enum Turn<'a> {
    End(usize, ParserError),
    Next(usize, &'a Name),
}

/// Takes the first state of a name from the states that were not passed yet.
fn take_state<'a>(left: &mut Vec<&'a ParserState>, name: &Name) -> Option<&'a ParserState>
    ensures { found_in result left.new.items ≡ found_state (states_in left.old.items) name.now }
{
    for i in 0..left.len() {
        if same_text(left[i].name.as_str(), name.as_str()) {
            return Some(left.remove(i));
        }
    }
    None
}

/// A state is passed.
fn pass_state<'a>(
    alloc: Global,
    headers: &[Header],
    st: &'a ParserState,
    frame: &[u8],
    at: usize,
    s: &mut Fields,
) -> Result<Turn<'a>, AllocError>
    requires short { length frame.now < 2 ^ 29 }
    requires within { at ≤ 8 * length frame.now }
    ensures turned { IfOk result (λ t. turned_of t s.new frame.now ≡ turned (body_parsed (map header_in headers.now) (state_of st.now).body (reading_of s.old frame.now at)) (state_of st.now).next) }
    ensures within { IfOk result (λ t. TurnsWithin t (8 * length frame.now)) }
{
    match parse_body(alloc, headers, &st.body, frame, at, s)? {
        Step::Stop(at, e) => Ok(Turn::End(at, e)),
        Step::On(at) => match state_after(alloc, &st.next, s)? {
            Led::To(next) => Ok(Turn::Next(at, next)),
            Led::Halt(e) => Ok(Turn::End(at, e)),
        },
    }
}

/// One turn: the state of a name is passed, and taken from those that are left.
fn one_turn<'a>(
    alloc: Global,
    headers: &[Header],
    left: &mut Vec<&'a ParserState>,
    name: &Name,
    frame: &[u8],
    at: usize,
    s: &mut Fields,
) -> Result<Turn<'a>, AllocError>
    requires short { length frame.now < 2 ^ 29 }
    requires within { at ≤ 8 * length frame.now }
    ensures turned { IfOk result (λ t. IsTurn (map header_in headers.now) (states_in left.old.items) name.now (reading_of s.old frame.now at) (turned_of t s.new frame.now) (states_in left.new.items)) }
    ensures within { IfOk result (λ t. TurnsWithin t (8 * length frame.now)) }
{
    if same_text(name.as_str(), "accept") || same_text(name.as_str(), "reject") {
        return Ok(Turn::End(at, ParserError::NoError));
    }
    match take_state(left, name) {
        None => Ok(Turn::End(at, ParserError::NoError)),
        Some(st) => pass_state(alloc, headers, st, frame, at, s),
    }
}

/// The states, none of which was passed yet.
fn all_left<'a>(
    alloc: Global,
    states: &'a [ParserState],
) -> Result<Vec<&'a ParserState>, AllocError>
    ensures { IfOk result (λ v. states_in v.items ≡ map state_of states.now) }
{
    let mut left = Vec::new(alloc);
    for st in states {
        left.push(st)?;
    }
    Ok(left)
}

/// The parser from a state on, at most so many turns: how far it came, and its error.
pub fn run_states(
    alloc: Global,
    headers: &[Header],
    states: &[ParserState],
    start: &Name,
    turns: usize,
    frame: &[u8],
    s: &mut Fields,
) -> Result<(usize, ParserError), AllocError>
    requires { length frame.now < 2 ^ 29 }
    ensures within { IfOk result (λ r. r.0 ≤ 8 * length frame.now) }
    ensures ends { IfOk result (λ r. parser_end (reading_of s.new frame.now r.0) (error_of r.1) ≡ turns_of turns (map header_in headers.now) (map state_of states.now) start.now (reading_of s.old frame.now 0)) }
{
    let mut left = all_left(alloc, states)?;
    let mut at = 0;
    let mut name = start;
    for i in 0..turns {
        match one_turn(alloc, headers, &mut left, name, frame, at, s)? {
            Turn::End(end, e) => return Ok((end, e)),
            Turn::Next(end, next) => {
                at = end;
                name = next;
            }
        }
    }
    Ok((at, ParserError::NoError))
}
