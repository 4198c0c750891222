//! What joins two operands.

ghost use Rattle.std.specs.Prelude.{◌≡◌};
ghost use Rattle.p4_spelling.specs.Operators.{op_at};

use lex_words::Key;
use p4_tree::Op;

/// The binary operator that a key is, with its level: 1 for the tightest, 10 for the loosest.
pub fn op_of(key: Key) -> Option<(u8, Op)>
    ensures { result ≡ op_at key }
{
    match key {
        Key::Times => Some((1, Op::Mul)),
        Key::Plus => Some((2, Op::Add)),
        Key::Minus => Some((2, Op::Sub)),
        Key::Concat => Some((2, Op::Concat)),
        Key::ShiftLeft => Some((3, Op::Shl)),
        Key::ShiftRight => Some((3, Op::Shr)),
        Key::And => Some((4, Op::BitAnd)),
        Key::Caret => Some((5, Op::BitXor)),
        Key::Or => Some((6, Op::BitOr)),
        Key::Less => Some((7, Op::Less)),
        Key::LessEq => Some((7, Op::LessEq)),
        Key::More => Some((7, Op::More)),
        Key::MoreEq => Some((7, Op::MoreEq)),
        Key::Equal => Some((8, Op::Equal)),
        Key::Differ => Some((8, Op::Differ)),
        Key::Both => Some((9, Op::Both)),
        Key::Either => Some((10, Op::Either)),
        Key::Header
        | Key::Control
        | Key::Bit
        | Key::Bool
        | Key::True
        | Key::False
        | Key::If
        | Key::Else
        | Key::In
        | Key::Tele
        | Key::Sensor
        | Key::Set
        | Key::Dict
        | Key::For
        | Key::Reject
        | Key::Report
        | Key::Length
        | Key::Edition
        | Key::Const
        | Key::Typedef
        | Key::Struct
        | Key::Register
        | Key::Parser
        | Key::Out
        | Key::Inout
        | Key::State
        | Key::Transition
        | Key::Select
        | Key::Default
        | Key::LowLine
        | Key::Action
        | Key::Table
        | Key::Return
        | Key::Exit
        | Key::Error
        | Key::V1Switch
        | Key::AddCapped
        | Key::SubCapped
        | Key::Mask
        | Key::DotDot
        | Key::BraceOpen
        | Key::BraceClose
        | Key::Open
        | Key::Close
        | Key::SquareOpen
        | Key::SquareClose
        | Key::Semicolon
        | Key::Colon
        | Key::Comma
        | Key::Dot
        | Key::Assign
        | Key::Slash
        | Key::Percent
        | Key::Tilde
        | Key::Not
        | Key::Question
        | Key::At
        | Key::Hash => None,
    }
}
