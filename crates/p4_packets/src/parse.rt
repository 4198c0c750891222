//! The parser.

ghost use Rattle.std.specs.Prelude.{◌≡◌, ◌^◌, ◌<◌, ◌≤◌, ◌*◌, ◌+◌, length, nat_le, IfOk, OnOk, map};
ghost use Rattle.p4_tree.specs.View.{arg_of, stmt_of};
ghost use Rattle.p4_meaning.specs.Parsing.{width_sum, field_taken, fields_taken, extracted, extracted_at, call_parsed, stmt_parsed, body_parsed};
ghost use Rattle.p4_packets.specs.Fields.{store_of};
ghost use Rattle.p4_parts.specs.Headers.{field_in, header_in};
ghost use Rattle.p4_packets.specs.Places.{reading_of, parsed_of, StepsWithin};

use crate::fields::Fields;
use crate::writes::assign;
use bit_values::take_bits;
use lex_text::Name;
use p4_parts::{Field, Header};
use p4_tree::{Arg, Expr, Stmt};
use p4_values::{same_path, value_of};
use std::alloc::{AllocError, Global};

/// How a parser ends.
#[derive(Clone, Copy, Debug, PartialEq, Eq)]
pub enum ParserError {
    NoError,
    PacketTooShort,
    NoMatch,
}

/// Whether the fields have room in so many bits.
fn has_room(fields: &[Field], room: usize) -> bool
    ensures { result ≡ nat_le (width_sum (map field_in fields.now)) room }
{
    let mut left = room;
    for f in fields {
        let width = f.width as usize;
        if width > left {
            return false;
        }
        left -= width;
    }
    true
}

/// Reads a field of a header.
fn take_field(
    alloc: Global,
    path: &[Name],
    f: &Field,
    frame: &[u8],
    at: usize,
    s: &mut Fields,
) -> Result<(), AllocError>
    requires within { at + f.now.width ≤ 8 * length frame.now }
    ensures { OnOk result (reading_of s.new frame.now (at + f.now.width) ≡ field_taken path.now (field_in f.now) (reading_of s.old frame.now at)) }
{
    let v = take_bits(frame, at, f.width);
    s.set_field(alloc, path, &f.name, v)?;
    Ok(())
}

/// Reads the fields of a header, and says where they end.
fn take_fields(
    alloc: Global,
    path: &[Name],
    fields: &[Field],
    frame: &[u8],
    at: usize,
    s: &mut Fields,
) -> Result<usize, AllocError>
    requires short { length frame.now < 2 ^ 29 }
    requires within { at + width_sum (map field_in fields.now) ≤ 8 * length frame.now }
    ensures taken { IfOk result (λ end. reading_of s.new frame.now end ≡ fields_taken path.now (map field_in fields.now) (reading_of s.old frame.now at)) }
    ensures end { IfOk result (λ end. end ≡ at + width_sum (map field_in fields.now)) }
{
    let mut end = at;
    for f in fields {
        take_field(alloc, path, f, frame, end, s)?;
        end += f.width as usize;
    }
    Ok(end)
}

/// Where the parser is, in bits from the frame's start, and whether it goes on.
#[derive(Clone, Copy)]
pub enum Step {
    On(usize),
    Stop(usize, ParserError),
}

/// Extracts a header.
fn extract(
    alloc: Global,
    h: &Header,
    frame: &[u8],
    at: usize,
    s: &mut Fields,
) -> Result<Step, AllocError>
    requires short { length frame.now < 2 ^ 29 }
    requires within { at ≤ 8 * length frame.now }
    ensures parsed { IfOk result (λ step. parsed_of step s.new frame.now ≡ extracted (header_in h.now) (reading_of s.old frame.now at)) }
    ensures within { IfOk result (λ step. StepsWithin step (8 * length frame.now)) }
{
    if has_room(&h.fields, 8 * frame.len() - at) {
        let end = take_fields(alloc, &h.path, &h.fields, frame, at, s)?;
        s.set_valid(alloc, &h.path, true)?;
        Ok(Step::On(end))
    } else {
        Ok(Step::Stop(at, ParserError::PacketTooShort))
    }
}

/// Extracts the header at a path.
fn extract_at(
    alloc: Global,
    headers: &[Header],
    path: &[Name],
    frame: &[u8],
    at: usize,
    s: &mut Fields,
) -> Result<Step, AllocError>
    requires short { length frame.now < 2 ^ 29 }
    requires within { at ≤ 8 * length frame.now }
    ensures parsed { IfOk result (λ step. parsed_of step s.new frame.now ≡ extracted_at (map header_in headers.now) path.now (reading_of s.old frame.now at)) }
    ensures within { IfOk result (λ step. StepsWithin step (8 * length frame.now)) }
{
    for h in headers {
        if same_path(&h.path, path) {
            return extract(alloc, h, frame, at, s);
        }
    }
    Ok(Step::On(at))
}

/// A call in a state.
fn parse_call(
    alloc: Global,
    headers: &[Header],
    args: &[Arg],
    frame: &[u8],
    at: usize,
    s: &mut Fields,
) -> Result<Step, AllocError>
    requires short { length frame.now < 2 ^ 29 }
    requires within { at ≤ 8 * length frame.now }
    ensures parsed { IfOk result (λ step. parsed_of step s.new frame.now ≡ call_parsed (map header_in headers.now) (map arg_of args.now) (reading_of s.old frame.now at)) }
    ensures within { IfOk result (λ step. StepsWithin step (8 * length frame.now)) }
{
    match args {
        [] => Ok(Step::On(at)),
        [first, rest @ ..] => match first {
            Arg::Many(_, _) => Ok(Step::On(at)),
            Arg::One(_, e) => match e {
                Expr::Path(_, path) => match rest {
                    [] => extract_at(alloc, headers, path, frame, at, s),
                    [_second, _others @ ..] => Ok(Step::On(at)),
                },
                Expr::Num(_, _) | Expr::Flag(_, _) | Expr::Valid(_, _) => Ok(Step::On(at)),
                Expr::Applied(_, _, _) | Expr::ErrorName(_, _) => Ok(Step::On(at)),
                Expr::Not(_, _) | Expr::Invert(_, _) | Expr::Negate(_, _) => Ok(Step::On(at)),
                Expr::Bin(_, _, _, _) | Expr::Choice(_, _, _, _) => Ok(Step::On(at)),
                Expr::Slice(_, _, _, _) | Expr::Cast(_, _, _) => Ok(Step::On(at)),
            },
        },
    }
}

/// A statement of a state.
fn parse_stmt(
    alloc: Global,
    headers: &[Header],
    st: &Stmt,
    frame: &[u8],
    at: usize,
    s: &mut Fields,
) -> Result<Step, AllocError>
    requires short { length frame.now < 2 ^ 29 }
    requires within { at ≤ 8 * length frame.now }
    ensures parsed { IfOk result (λ step. parsed_of step s.new frame.now ≡ stmt_parsed (map header_in headers.now) (stmt_of st.now) (reading_of s.old frame.now at)) }
    ensures within { IfOk result (λ step. StepsWithin step (8 * length frame.now)) }
{
    match st {
        Stmt::Assign(_, path, e) => {
            let v = value_of(e, s.value(path).width(), s);
            assign(alloc, path, v, s)?;
            Ok(Step::On(at))
        }
        Stmt::Call(_, _, args) => parse_call(alloc, headers, args, frame, at, s),
        _ => Ok(Step::On(at)),
    }
}

/// The statements of a state.
pub fn parse_body(
    alloc: Global,
    headers: &[Header],
    body: &[Stmt],
    frame: &[u8],
    at: usize,
    s: &mut Fields,
) -> Result<Step, AllocError>
    requires short { length frame.now < 2 ^ 29 }
    requires within { at ≤ 8 * length frame.now }
    ensures parsed { IfOk result (λ step. parsed_of step s.new frame.now ≡ body_parsed (map header_in headers.now) (map stmt_of body.now) (reading_of s.old frame.now at)) }
    ensures within { IfOk result (λ step. StepsWithin step (8 * length frame.now)) }
{
    let mut here = at;
    for st in body {
        match parse_stmt(alloc, headers, st, frame, here, s)? {
            Step::Stop(end, e) => return Ok(Step::Stop(end, e)),
            Step::On(next) => here = next,
        }
    }
    Ok(Step::On(here))
}
