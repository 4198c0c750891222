//! What an expression is, and what its place wants.

ghost use Rattle.std.specs.Prelude.{◌≡◌};
ghost use Rattle.p4_scopes.specs.Kinds.{is_open, join, as_number, as_value, width_in, bits_in, kinds_differ, widths_differ, slice_width, joined_width, binary_kind, choice_kind, like_want, left_want, right_want, choice_want, index_want};

use p4_tree::Op;

/// What an expression is, or what its place wants.
#[derive(Clone, Copy, Debug, PartialEq, Eq)]
pub enum Kind {
    /// A number of so many bits; 0 where it has no width.
    Number(u8),
    Truth,
    /// An error of the parser.
    Error,
    /// A missing name, or a place that takes a number or a truth value.
    Unknown,
}

/// Whether it is a number without a width, or anything.
pub fn is_open(k: Kind) -> bool
    ensures { result ≡ is_open k }
{
    match k {
        Kind::Number(w) => w == 0,
        Kind::Truth => false,
        Kind::Error => false,
        Kind::Unknown => true,
    }
}

/// The first, or the second where the first has no width.
pub fn join(a: Kind, b: Kind) -> Kind
    ensures { result ≡ join a b }
{
    if is_open(a) { b } else { a }
}

/// What is wanted where a number is.
pub fn as_number(k: Kind) -> Kind
    ensures { result ≡ as_number k }
{
    match k {
        Kind::Number(w) => Kind::Number(w),
        _ => Kind::Number(0),
    }
}

/// What is wanted where a number or a truth value is.
pub fn as_value(k: Kind) -> Kind
    ensures { result ≡ as_value k }
{
    match k {
        Kind::Number(w) => Kind::Number(w),
        Kind::Truth => Kind::Truth,
        _ => Kind::Unknown,
    }
}

/// The width of a number, or 0.
pub fn width_in(k: Kind) -> u8
    ensures { result ≡ width_in k }
{
    match k {
        Kind::Number(w) => w,
        _ => 0,
    }
}

/// The bits of a value; a truth value is one bit.
pub fn bits_in(k: Kind) -> u8
    ensures { result ≡ bits_in k }
{
    match k {
        Kind::Number(w) => w,
        Kind::Truth => 1,
        _ => 0,
    }
}

/// Whether they are of other kinds: numbers, truth values, errors.
pub fn kinds_differ(a: Kind, b: Kind) -> bool
    ensures { result ≡ kinds_differ a b }
{
    match a {
        Kind::Number(_) => match b {
            Kind::Number(_) | Kind::Unknown => false,
            Kind::Truth | Kind::Error => true,
        },
        Kind::Truth => match b {
            Kind::Truth | Kind::Unknown => false,
            Kind::Number(_) | Kind::Error => true,
        },
        Kind::Error => match b {
            Kind::Error => false,
            Kind::Number(_) | Kind::Truth | Kind::Unknown => true,
        },
        Kind::Unknown => false,
    }
}

/// Whether both are numbers, of different widths.
pub fn widths_differ(a: Kind, b: Kind) -> bool
    ensures { result ≡ widths_differ a b }
{
    match (a, b) {
        (Kind::Number(v), Kind::Number(w)) => v != 0 && w != 0 && v != w,
        _ => false,
    }
}

/// The width of a slice, or 0 where there is none.
pub fn slice_width(high: u8, low: u8) -> u8
    ensures { result ≡ slice_width high low }
{
    if high < low || high > 127 {
        0
    } else {
        high - low + 1
    }
}

/// The width of two numbers joined, or 0 where one has none or they are too wide.
pub fn joined_width(v: u8, w: u8) -> u8
    ensures { result ≡ joined_width v w }
{
    if v == 0 || w == 0 || u16::from(v) + u16::from(w) > 128 {
        0
    } else {
        v + w
    }
}

/// What an operator with operands of these kinds is.
pub fn binary_kind(op: Op, a: Kind, b: Kind) -> Kind
    ensures { result ≡ binary_kind op a b }
{
    match op {
        Op::Mul | Op::Add | Op::Sub => as_number(join(a, b)),
        Op::BitAnd | Op::BitXor | Op::BitOr => as_number(join(a, b)),
        Op::Shl | Op::Shr => as_number(a),
        Op::Concat => Kind::Number(joined_width(width_in(a), width_in(b))),
        Op::Less | Op::LessEq | Op::More | Op::MoreEq => Kind::Truth,
        Op::Equal | Op::Differ | Op::Both | Op::Either => Kind::Truth,
    }
}

/// What a choice between values of these kinds is.
pub fn choice_kind(a: Kind, b: Kind) -> Kind
    ensures { result ≡ choice_kind a b }
{
    join(as_value(a), as_value(b))
}

/// What is wanted of both operands of `+`, `&` and the like.
fn like_want(a: Kind, b: Kind, want: Kind) -> Kind
    ensures { result ≡ like_want a b want }
{
    as_number(join(join(as_number(a), as_number(b)), want))
}

/// What is wanted of an operator's left operand.
pub fn left_want(op: Op, a: Kind, b: Kind, want: Kind) -> Kind
    ensures { result ≡ left_want op a b want }
{
    match op {
        Op::Mul | Op::Add | Op::Sub => like_want(a, b, want),
        Op::BitAnd | Op::BitXor | Op::BitOr => like_want(a, b, want),
        Op::Shl | Op::Shr => as_number(join(a, want)),
        Op::Concat => as_number(a),
        Op::Less | Op::LessEq | Op::More | Op::MoreEq => as_number(join(a, b)),
        Op::Equal | Op::Differ => join(a, b),
        Op::Both | Op::Either => Kind::Truth,
    }
}

/// What is wanted of an operator's right operand.
pub fn right_want(op: Op, a: Kind, b: Kind, want: Kind) -> Kind
    ensures { result ≡ right_want op a b want }
{
    match op {
        Op::Mul | Op::Add | Op::Sub => like_want(a, b, want),
        Op::BitAnd | Op::BitXor | Op::BitOr => like_want(a, b, want),
        Op::Shl | Op::Shr => as_number(join(b, Kind::Number(128))),
        Op::Concat => as_number(b),
        Op::Less | Op::LessEq | Op::More | Op::MoreEq => as_number(join(a, b)),
        Op::Equal | Op::Differ => join(a, b),
        Op::Both | Op::Either => Kind::Truth,
    }
}

/// What is wanted of both values of a choice.
pub fn choice_want(a: Kind, b: Kind, want: Kind) -> Kind
    ensures { result ≡ choice_want a b want }
{
    join(choice_kind(a, b), as_value(want))
}

/// What is wanted of an index.
pub fn index_want(k: Kind) -> Kind
    ensures { result ≡ index_want k }
{
    as_number(join(k, Kind::Number(128)))
}
