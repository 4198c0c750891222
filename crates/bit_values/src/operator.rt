//! Binary operators on numbers.

ghost use Rattle.std.specs.Prelude.{◌≡◌};
ghost use Rattle.bit_values.specs.Operators.{AreAlike, class_of, concat_words, left_place, operate, own_of, right_place};

use crate::Bits;
use crate::widths::{either_width, holds, truth};

/// A binary operator of either language.
#[derive(Clone, Copy, Debug, PartialEq, Eq)]
pub enum Operator {
    Mul,
    Add,
    Sub,
    Concat,
    Shl,
    Shr,
    BitAnd,
    BitXor,
    BitOr,
    Less,
    LessEq,
    More,
    MoreEq,
    Equal,
    Differ,
    Both,
    Either,
}

impl Operator {
    /// The width of a result, where the operands have widths of their own, or 0 for none.
    pub fn own_width(self, v: u8, u: u8) -> u8
        ensures { result ≡ own_of (class_of self) v u }
    {
        match self {
            Operator::Mul | Operator::Add | Operator::Sub => either_width(v, u),
            Operator::BitAnd | Operator::BitXor | Operator::BitOr => either_width(v, u),
            Operator::Concat => { if v > 128 || u > 128 - v { 128 } else { v + u } }
            Operator::Shl | Operator::Shr => v,
            Operator::Less | Operator::LessEq | Operator::More | Operator::MoreEq => 1,
            Operator::Equal | Operator::Differ | Operator::Both | Operator::Either => 1,
        }
    }

    /// The width of the left operand's place, where the whole's place gives `w`.
    pub fn left_width(self, v: u8, u: u8, w: u8) -> u8
        ensures { result ≡ left_place (class_of self) v u w }
    {
        match self {
            Operator::Mul | Operator::Add | Operator::Sub => either_width(either_width(v, u), w),
            Operator::BitAnd | Operator::BitXor | Operator::BitOr => {
                either_width(either_width(v, u), w)
            }
            Operator::Concat => v,
            Operator::Shl | Operator::Shr => either_width(v, w),
            Operator::Less | Operator::LessEq | Operator::More | Operator::MoreEq => {
                either_width(v, u)
            }
            Operator::Equal | Operator::Differ => either_width(v, u),
            Operator::Both | Operator::Either => 1,
        }
    }

    /// The width of the right operand's place.
    pub fn right_width(self, v: u8, u: u8, w: u8) -> u8
        ensures { result ≡ right_place (class_of self) v u w }
    {
        match self {
            Operator::Mul | Operator::Add | Operator::Sub => either_width(either_width(v, u), w),
            Operator::BitAnd | Operator::BitXor | Operator::BitOr => {
                either_width(either_width(v, u), w)
            }
            Operator::Concat => u,
            Operator::Shl | Operator::Shr => either_width(u, 128),
            Operator::Less | Operator::LessEq | Operator::More | Operator::MoreEq => {
                either_width(v, u)
            }
            Operator::Equal | Operator::Differ => either_width(v, u),
            Operator::Both | Operator::Either => 1,
        }
    }

    /// What the operator makes of two numbers.
    pub fn apply(self, a: Bits, b: Bits) -> Bits
        requires { AreAlike (class_of self) a b }
        ensures { result ≡ operate self a b }
    {
        match self {
            Operator::Mul => a.mul(b),
            Operator::Add => a.add(b),
            Operator::Sub => a.sub(b),
            Operator::Concat => joined(a, b),
            Operator::Shl => a.shl(b.value),
            Operator::Shr => a.shr(b.value),
            Operator::BitAnd => a.bit_and(b),
            Operator::BitXor => a.bit_xor(b),
            Operator::BitOr => a.bit_or(b),
            Operator::Less => truth(a.value < b.value),
            Operator::LessEq => truth(a.value <= b.value),
            Operator::More => truth(b.value < a.value),
            Operator::MoreEq => truth(b.value <= a.value),
            Operator::Equal => truth(a.value == b.value),
            Operator::Differ => truth(a.value != b.value),
            Operator::Both => truth(holds(a) && holds(b)),
            Operator::Either => truth(holds(a) || holds(b)),
        }
    }
}

/// The bits of one number and behind them those of another, where they are 128 at most.
fn joined(a: Bits, b: Bits) -> Bits
    ensures { result ≡ concat_words a b }
{
    if a.width() <= 128 - b.width() {
        a.concat(b)
    } else {
        b
    }
}
