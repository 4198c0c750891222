//! The value of an expression at a place of a program.

ghost use Rattle.std.specs.Prelude.{◌≡◌, ◌≤◌, Some, None};
ghost use Rattle.bit_values.specs.Bits.{cast, word};
ghost use Rattle.p4_tree.specs.View.{expr_of, program_of};
ghost use Rattle.p4_meaning.specs.Store.{Store};
ghost use Rattle.p4_meaning.specs.Scope.{Scope};
ghost use Rattle.p4_meaning.specs.Pass.{error_number};
ghost use Rattle.p4_meaning.specs.Under.{expr_under};
ghost use Rattle.p4_meaning.specs.Value.{value_of};
ghost use Rattle.p4_packets.specs.Fields.{look};
ghost use Rattle.p4_packets.specs.Places.{error_of};
ghost use Rattle.packet_parse.specs.Sight.{Shows, in_sight, standard_at, standard_field, top_constant, word_at};

use crate::fields::{Fields, StdMeta};
use bit_values::{Bits, truth};
use lex_text::Name;
use p4_packets::ParserError;
use p4_tree::Expr;
use p4_types::TypedProgram;
use p4_values::{Sight, parent, same_path, same_text, value_of};

/// What stands at a path first.
fn row_at<X: Copy>(rows: &[(Vec<Name>, X)], path: &[Name]) -> Option<X>
    ensures { result ≡ look None Some rows.now path.now }
{
    for row in rows {
        if same_path(&row.0, path) {
            return Some(row.1);
        }
    }
    None
}

/// The number of a parser's error.
pub(crate) fn error_word(e: ParserError) -> Bits
    ensures { result ≡ word 2 (error_number (error_of e)) }
{
    match e {
        ParserError::NoError => Bits::new(2, 0),
        ParserError::PacketTooShort => Bits::new(2, 1),
        ParserError::NoMatch => Bits::new(2, 2),
    }
}

/// A number, cut to so many bits.
pub(crate) fn cut(width: u8, value: u32) -> Bits
    requires wide { 1 ≤ width }
    requires narrow { width ≤ 128 }
    ensures { result ≡ word width (cast width value) }
{
    Bits::new(128, value as u128).cast(width)
}

/// The word of a field of the standard metadata.
fn standard_field(std: &StdMeta, field: &str) -> Option<Bits>
    ensures { result ≡ standard_field std.now field.now }
{
    if same_text(field, "ingress_port") {
        Some(cut(9, std.ingress_port as u32))
    } else if same_text(field, "egress_spec") {
        Some(cut(9, std.egress_spec as u32))
    } else if same_text(field, "egress_port") {
        Some(cut(9, std.egress_port as u32))
    } else if same_text(field, "packet_length") {
        Some(cut(32, std.packet_length))
    } else if same_text(field, "checksum_error") {
        Some(truth(std.checksum_error))
    } else if same_text(field, "parser_error") {
        Some(error_word(std.parser_error))
    } else {
        None
    }
}

/// The word of a path of the standard metadata.
fn standard_at(s: &Fields, path: &[Name]) -> Option<Bits>
    ensures { result ≡ standard_at s.now path.now }
{
    match path {
        [root, field] => {
            if same_text(s.std_name.as_str(), root.as_str()) {
                standard_field(&s.std, field.as_str())
            } else {
                None
            }
        }
        [] | [_] | [_, _, _, ..] => None,
    }
}

/// The word of the constant at top level that a path is.
fn top_constant(p: &TypedProgram, path: &[Name]) -> Option<Bits>
    ensures { result ≡ top_constant (program_of p.now) path.now }
{
    match path {
        [name] => p.constant(name.as_str()),
        [] | [_, _, ..] => None,
    }
}

/// What is in sight at a place of a program.
#[derive(Clone, Copy)]
struct InSight<'a> {
    program: &'a TypedProgram,
    fields: &'a Fields,
}

/// The word of a path, whether its header is valid or not.
fn word_at(p: &TypedProgram, s: &Fields, path: &[Name]) -> Bits
    ensures { result ≡ word_at (program_of p.now) s.now path.now }
{
    match standard_at(s, path) {
        Some(word) => word,
        None => match row_at(&s.values, path) {
            Some(word) => word,
            None => top_constant(p, path).unwrap_or_default(),
        },
    }
}

impl Sight for InSight<'_> {
    ghost store = { λ s. in_sight (program_of s.program.now) s.fields.now };

    fn read(&self, path: &[Name]) -> Bits {
        let word = word_at(self.program, self.fields, path);
        match self.header(parent(path)) {
            Some(false) => Bits::new(word.width(), 0),
            _ => word,
        }
    }

    fn header(&self, path: &[Name]) -> Option<bool> {
        row_at(&self.fields.valid, path)
    }
}

/// The value of an expression where this is in sight, and the place gives `width` bits, or 0 where it
/// gives none. Names stand for what is in sight: where the fields show what the names that it reads stand
/// for in a store, it is the value by the meaning there.
pub fn eval(p: &TypedProgram, e: &Expr, width: u8, s: &Fields) -> Bits
    ensures value { result ≡ value_of (expr_of e.now) width (in_sight (program_of p.now) s.now) }
    ensures meaning { (sc : Scope) (st : Store) → Shows (program_of p.now) s.now sc st (expr_of e.now) →
        result ≡ value_of (expr_under sc (expr_of e.now)) width st }
{
    value_of(
        e,
        width,
        &InSight {
            program: p,
            fields: s,
        },
    )
}
