//! What an expression is, and what its place wants.

ghost use Rattle.std.specs.Prelude.{◌≡◌};
ghost use Rattle.indus_scopes.specs.Kinds.{kind_of, is_open, join, as_number, kinds_differ, widths_differ, like_want, left_want, right_want, width_in};

use indus_tree::{Op, Ty};

/// What an expression is, or what its place wants.
#[derive(Clone, Copy, Debug, PartialEq, Eq)]
pub enum Kind {
    /// A number of so many bits; 0 where it has no width.
    Number(u8),
    Truth,
    /// A missing name, or a place that takes either.
    Unknown,
}

/// A value of a type.
pub fn kind_of(t: Ty) -> Kind
    ensures { result ≡ kind_of t }
{
    match t {
        Ty::Bit(w) => Kind::Number(w),
        Ty::Bool => Kind::Truth,
    }
}

/// Whether it has no width, or is not known.
pub fn is_open(k: Kind) -> bool
    ensures { result ≡ is_open k }
{
    match k {
        Kind::Number(w) => w == 0,
        Kind::Truth => false,
        Kind::Unknown => true,
    }
}

/// The first, or the second where the first has no width.
pub fn join(a: Kind, b: Kind) -> Kind
    ensures { result ≡ join a b }
{
    if is_open(a) { b } else { a }
}

/// What is wanted where a number is.
pub fn as_number(k: Kind) -> Kind
    ensures { result ≡ as_number k }
{
    match k {
        Kind::Number(w) => Kind::Number(w),
        _ => Kind::Number(0),
    }
}

/// The width of a number, or 0.
pub fn width_in(k: Kind) -> u8
    ensures { result ≡ width_in k }
{
    match k {
        Kind::Number(w) => w,
        _ => 0,
    }
}

/// Whether one is a number and the other a truth value.
pub fn kinds_differ(a: Kind, b: Kind) -> bool
    ensures { result ≡ kinds_differ a b }
{
    match (a, b) {
        (Kind::Number(_), Kind::Truth) => true,
        (Kind::Truth, Kind::Number(_)) => true,
        _ => false,
    }
}

/// Whether both are numbers, of different widths.
pub fn widths_differ(a: Kind, b: Kind) -> bool
    ensures { result ≡ widths_differ a b }
{
    match (a, b) {
        (Kind::Number(v), Kind::Number(w)) => v != 0 && w != 0 && v != w,
        _ => false,
    }
}

/// What is wanted of both operands of `+`, `&` and the like.
fn like_want(a: Kind, b: Kind, want: Kind) -> Kind
    ensures { result ≡ like_want a b want }
{
    as_number(join(join(as_number(a), as_number(b)), want))
}

/// What is wanted of a left operand.
pub fn left_want(op: Op, a: Kind, b: Kind, want: Kind) -> Kind
    ensures { result ≡ left_want op a b want }
{
    match op {
        Op::Mul | Op::Add | Op::Sub => like_want(a, b, want),
        Op::BitAnd | Op::BitXor | Op::BitOr => like_want(a, b, want),
        Op::Shl | Op::Shr => as_number(join(a, want)),
        Op::Equal | Op::Differ => join(a, b),
        Op::Less | Op::LessEq | Op::More | Op::MoreEq => as_number(join(a, b)),
        Op::Both | Op::Either => Kind::Truth,
    }
}

/// What is wanted of a right operand.
pub fn right_want(op: Op, a: Kind, b: Kind, want: Kind) -> Kind
    ensures { result ≡ right_want op a b want }
{
    match op {
        Op::Mul | Op::Add | Op::Sub => like_want(a, b, want),
        Op::BitAnd | Op::BitXor | Op::BitOr => like_want(a, b, want),
        Op::Shl | Op::Shr => as_number(join(b, Kind::Number(128))),
        Op::Equal | Op::Differ => join(a, b),
        Op::Less | Op::LessEq | Op::More | Op::MoreEq => as_number(join(a, b)),
        Op::Both | Op::Either => Kind::Truth,
    }
}
