//! What joins two operands.

ghost use Rattle.std.specs.Prelude.{◌≡◌};
ghost use Rattle.indus_spelling.specs.Operators.{join_at};

use indus_tree::Op;
use lex_words::Key;

/// What stands between a left side and a right side.
#[derive(Clone, Copy, Debug, PartialEq, Eq)]
pub enum Join {
    /// A binary operator.
    Binary(Op),
    /// `in`, whose right side is a name.
    Member,
}

/// What a key joins, with its level: 1 for the tightest, 10 for the loosest.
pub fn join_of(key: Key) -> Option<(u8, Join)>
    ensures { result ≡ join_at key }
{
    match key {
        Key::Times => Some((1, Join::Binary(Op::Mul))),
        Key::Plus => Some((2, Join::Binary(Op::Add))),
        Key::Minus => Some((2, Join::Binary(Op::Sub))),
        Key::ShiftLeft => Some((3, Join::Binary(Op::Shl))),
        Key::ShiftRight => Some((3, Join::Binary(Op::Shr))),
        Key::And => Some((4, Join::Binary(Op::BitAnd))),
        Key::Caret => Some((5, Join::Binary(Op::BitXor))),
        Key::Or => Some((6, Join::Binary(Op::BitOr))),
        Key::Less => Some((7, Join::Binary(Op::Less))),
        Key::LessEq => Some((7, Join::Binary(Op::LessEq))),
        Key::More => Some((7, Join::Binary(Op::More))),
        Key::MoreEq => Some((7, Join::Binary(Op::MoreEq))),
        Key::In => Some((7, Join::Member)),
        Key::Equal => Some((8, Join::Binary(Op::Equal))),
        Key::Differ => Some((8, Join::Binary(Op::Differ))),
        Key::Both => Some((9, Join::Binary(Op::Both))),
        Key::Either => Some((10, Join::Binary(Op::Either))),
        Key::Header
        | Key::Control
        | Key::Bit
        | Key::Bool
        | Key::True
        | Key::False
        | Key::If
        | Key::Else
        | Key::Tele
        | Key::Sensor
        | Key::Set
        | Key::Dict
        | Key::For
        | Key::Reject
        | Key::Report
        | Key::Length
        | Key::Edition
        | Key::Const
        | Key::Typedef
        | Key::Struct
        | Key::Register
        | Key::Parser
        | Key::Out
        | Key::Inout
        | Key::State
        | Key::Transition
        | Key::Select
        | Key::Default
        | Key::LowLine
        | Key::Action
        | Key::Table
        | Key::Return
        | Key::Exit
        | Key::Error
        | Key::V1Switch
        | Key::AddCapped
        | Key::SubCapped
        | Key::Mask
        | Key::Concat
        | Key::DotDot
        | Key::BraceOpen
        | Key::BraceClose
        | Key::Open
        | Key::Close
        | Key::SquareOpen
        | Key::SquareClose
        | Key::Semicolon
        | Key::Colon
        | Key::Comma
        | Key::Dot
        | Key::Assign
        | Key::Slash
        | Key::Percent
        | Key::Tilde
        | Key::Not
        | Key::Question
        | Key::At
        | Key::Hash => None,
    }
}
