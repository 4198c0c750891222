//! The value of an expression.

ghost use Rattle.std.specs.Prelude.{◌≡◌, ◌≤◌, ◌+◌, ◌-◌, IfOk, map};
ghost use Rattle.std.specs.Option.{option_map};
ghost use Rattle.bit_values.specs.Bits.{word};
ghost use Rattle.bit_values.specs.Widths.{holds, sound_width, cast_word};
ghost use Rattle.p4_tree.specs.View.{expr_of};
ghost use Rattle.p4_meaning.specs.Value.{own_width, value_of, error_of, negated};
ghost use Rattle.p4_meaning.specs.Statements.{start_of};

use crate::names::same_text;
use crate::sight::Sight;
use crate::widths::width_of;
use bit_values::{Bits, either_width, holds, sound_width, truth};
use p4_tree::{Expr, PTy};
use std::alloc::{AllocError, Global};

/// The width that an expression has of its own, or 0.
fn own_width<S: Sight>(e: &Expr, s: &S) -> u8
    ensures { result ≡ own_width (expr_of e.now) (S.store s.now) }
{
    match e {
        Expr::Num(_, n) => n.width,
        Expr::Flag(_, _) => 1,
        Expr::Path(_, names) => s.read(names).width(),
        Expr::Valid(_, _) => 1,
        Expr::Applied(_, _, _) => 1,
        Expr::ErrorName(_, _) => 2,
        Expr::Not(_, _) => 1,
        Expr::Invert(_, a) => own_width(a, s),
        Expr::Negate(_, a) => own_width(a, s),
        Expr::Bin(_, op, a, b) => {
            let v = own_width(a, s);
            op.operator().own_width(v, own_width(b, s))
        }
        Expr::Choice(_, _, a, b) => {
            let v = own_width(a, s);
            either_width(v, own_width(b, s))
        }
        Expr::Slice(_, _, high, low) => slice_width(*high, *low),
        Expr::Cast(_, ty, _) => width_of(ty),
    }
}

/// The width itself where a number can have it, else 128.
fn sound_count(bits: u16) -> u8
    ensures value { result ≡ sound_width bits }
    ensures wide { 1 ≤ result }
    ensures narrow { result ≤ 128 }
{
    if bits == 0 || bits > 128 {
        128
    } else {
        bits as u8
    }
}

/// The bits from one down to another.
fn slice_width(high: u8, low: u8) -> u8
    ensures value { result ≡ sound_width (high + 1 - low) }
    ensures wide { 1 ≤ result }
    ensures narrow { result ≤ 128 }
{
    sound_count((high as u16 + 1).saturating_sub(low as u16))
}

/// The number that gives 0 with this one.
fn negated(x: Bits) -> Bits
    ensures { result ≡ negated x }
{
    Bits::default().cast(x.width()).sub(x)
}

/// The number of a parser's error.
fn error_word(name: &str) -> Bits
    ensures { result ≡ word 2 (error_of name.now) }
{
    if same_text(name, "NoError") {
        Bits::new(2, 0)
    } else if same_text(name, "PacketTooShort") {
        Bits::new(2, 1)
    } else if same_text(name, "NoMatch") {
        Bits::new(2, 2)
    } else {
        Bits::new(2, 3)
    }
}

/// The value of an expression, where its place gives `width` bits, or 0 where it gives none.
#[cycle(value)]
pub fn value_of<S: Sight>(e: &Expr, width: u8, s: &S) -> Bits
    ensures { result ≡ value_of (expr_of e.now) width (S.store s.now) }
{
    match e {
        Expr::Num(_, n) => {
            Bits::new(128, n.value).cast(sound_width(either_width(n.width, width)))
        }
        Expr::Flag(_, b) => truth(*b),
        Expr::Path(_, names) => s.read(names),
        Expr::Valid(_, header) => truth(s.header(header).unwrap_or(false)),
        Expr::Applied(_, _, _) => truth(false),
        Expr::ErrorName(_, name) => error_word(name.as_str()),
        Expr::Not(_, a) => truth(!holds(value_of(a, 1, s))),
        Expr::Invert(_, a) => in_place(a, either_width(own_width(a, s), width), s).invert(),
        Expr::Negate(_, a) => negated(in_place(a, either_width(own_width(a, s), width), s)),
        Expr::Bin(_, op, a, b) => {
            let v = own_width(a, s);
            let u = own_width(b, s);
            let x = in_place(a, op.operator().left_width(v, u, width), s);
            let y = in_place(b, op.operator().right_width(v, u, width), s);
            op.operator().apply(x, y)
        }
        Expr::Choice(_, test, a, b) => {
            let own = either_width(own_width(a, s), own_width(b, s));
            if holds(value_of(test, 1, s)) {
                in_place(a, either_width(own, width), s)
            } else {
                in_place(b, either_width(own, width), s)
            }
        }
        Expr::Slice(_, a, high, low) => {
            value_of(a, 0, s)
                .shr(*low as u128)
                .cast(slice_width(*high, *low))
        }
        Expr::Cast(_, ty, a) => value_of(a, 0, s).cast(sound_width(width_of(ty))),
    }
}

/// The value of an operand in the width of its place.
#[cycle(value)]
fn in_place<S: Sight>(e: &Expr, place: u8, s: &S) -> Bits
    ensures { result ≡ cast_word (sound_width place) (value_of (expr_of e.now) place (S.store s.now)) }
{
    value_of(e, place, s).cast(sound_width(place))
}

/// Whether an expression's value is true.
pub fn is_true<S: Sight>(e: &Expr, s: &S) -> bool
    ensures { result ≡ holds (value_of (expr_of e.now) 1 (S.store s.now)) }
{
    holds(value_of(e, 1, s))
}

/// The first word of a variable.
pub fn start_of<S: Sight>(ty: &PTy, start: &Option<Expr>, s: &S) -> Bits
    ensures { result ≡ start_of ty.now (option_map expr_of start.now) (S.store s.now) }
{
    match start {
        None => Bits::default().cast(sound_width(width_of(ty))),
        Some(e) => value_of(e, width_of(ty), s).cast(sound_width(width_of(ty))),
    }
}

/// The values of expressions, whose places give no width.
pub fn values_of<S: Sight>(alloc: Global, list: &[Expr], s: &S) -> Result<Vec<Bits>, AllocError>
    ensures { IfOk result (λ v. v.items ≡ map (λ e. value_of e 0 (S.store s.now)) (map expr_of list.now)) }
{
    let mut values = Vec::new(alloc);
    for e in list {
        values.push(value_of(e, 0, s))?;
    }
    Ok(values)
}
