//! Terms with the widths of their values.

ghost use Rattle.std.specs.Prelude.{◌≡◌, ◌≢◌, ◌≤◌, ◌+◌, ◌-◌, ◌/◌, ◌^◌, IfOk, not};
ghost use Rattle.bit_values.specs.Bits.{word};
ghost use Rattle.bit_values.specs.Widths.{bit, holds, cast_word};
ghost use Rattle.bit_values.specs.Operators.{class_of, concat_words, operate};
ghost use Rattle.bit_values.specs.declared.operator.Operator.TheVariants as operator;
ghost use Rattle.p4_meaning.specs.Value.{inverted, negated, sliced};
ghost use Rattle.slot_terms.specs.Typed.{typed_of, mask_of, IsConstant};
ghost use Rattle.slot_terms.specs.Nodes.{Makes, MakesTwo, MakesChoice, AreAlikeWidths, width_behind};
ghost use Rattle.slot_terms.specs.Terms.{term_of};

use crate::nodes::{binary_node, cut_node, inversion_node, join_node, opposite_node};
use crate::term::Term;
use bit_values::Operator;
use std::alloc::{AllocError, Global};

/// A term, and how many bits its value has.
#[derive(Drop)]
pub struct Typed {
    pub term: Term,
    pub width: u8,
}

/// As many ones as a width, which is 1 to 128.
pub fn mask(width: u8) -> u128
    requires wide { 1 ≤ width }
    requires narrow { width ≤ 128 }
    ensures { result ≡ mask_of width }
{
    u128::MAX >> (128 - width)
}

/// A word of this width.
pub fn constant(width: u8, value: u128) -> Typed
    ensures width { (typed_of result).width ≡ width }
    ensures value { IsConstant (typed_of result) (word width value) }
{
    Typed {
        term: Term::Word(value),
        width,
    }
}

/// Cut or widened to a width of 1 to 128.
pub fn cast(alloc: Global, a: Typed, width: u8) -> Result<Typed, AllocError>
    requires wide { 1 ≤ width }
    requires narrow { width ≤ 128 }
    ensures width { IfOk result (λ t. (typed_of t).width ≡ width) }
    ensures makes { IfOk result (λ t. Makes (typed_of t) (typed_of a) (cast_word width)) }
{
    if a.width <= width {
        Ok(Typed {
            term: a.term,
            width,
        })
    } else {
        let mask = mask(width);
        let term = cut_node(alloc, 0, mask, a.term)?;
        Ok(Typed { term, width })
    }
}

/// So many bits from a bit on, counted from the lowest one.
pub fn slice(alloc: Global, a: Typed, width: u8, low: u8) -> Result<Typed, AllocError>
    requires wide { 1 ≤ width }
    requires narrow { width ≤ 128 }
    ensures { IfOk result (λ t. Makes (typed_of t) (typed_of a) (sliced width low)) }
{
    let mask = mask(width);
    let term = cut_node(alloc, low, mask, a.term)?;
    Ok(Typed { term, width })
}

/// The opposite of a truth value.
pub fn negation(alloc: Global, a: Typed) -> Result<Typed, AllocError>
    ensures { IfOk result (λ t. Makes (typed_of t) (typed_of a) (λ x. bit (not (holds x)))) }
{
    Ok(Typed {
        term: Term::Not(Box::new(alloc, a.term)?),
        width: 1,
    })
}

/// Each bit turned round.
pub fn inversion(alloc: Global, a: Typed) -> Result<Typed, AllocError>
    requires wide { 1 ≤ (typed_of a).width }
    requires narrow { (typed_of a).width ≤ 128 }
    ensures { IfOk result (λ t. Makes (typed_of t) (typed_of a) inverted) }
{
    let width = a.width;
    let mask = mask(width);
    let term = inversion_node(alloc, mask, a.term)?;
    Ok(Typed { term, width })
}

/// The number that gives 0 with this one.
pub fn opposite(alloc: Global, a: Typed) -> Result<Typed, AllocError>
    requires wide { 1 ≤ (typed_of a).width }
    requires narrow { (typed_of a).width ≤ 128 }
    ensures { IfOk result (λ t. Makes (typed_of t) (typed_of a) negated) }
{
    let width = a.width;
    let mask = mask(width);
    let term = opposite_node(alloc, mask, a.term)?;
    Ok(Typed { term, width })
}

/// The bits of one and behind them those of another, where they are 128 at most; else those of the
/// other alone.
fn join(alloc: Global, a: Typed, b: Typed) -> Result<Typed, AllocError>
    requires narrow { (typed_of b).width ≤ 128 }
    ensures { IfOk result (λ t. MakesTwo (typed_of t) (typed_of a) (typed_of b) concat_words) }
{
    if a.width <= 128 - b.width {
        let low = b.width;
        let width = a.width + low;
        let term = join_node(alloc, low, a.term, b.term)?;
        Ok(Typed { term, width })
    } else {
        Ok(b)
    }
}

/// The width of what an operator makes, which is no concatenation.
fn width_behind(op: Operator, width: u8) -> u8
    ensures { result ≡ width_behind op width }
{
    match op {
        Operator::Mul | Operator::Add | Operator::Sub | Operator::Concat => width,
        Operator::Shl | Operator::Shr => width,
        Operator::BitAnd | Operator::BitXor | Operator::BitOr => width,
        Operator::Less | Operator::LessEq | Operator::More | Operator::MoreEq => 1,
        Operator::Equal | Operator::Differ | Operator::Both | Operator::Either => 1,
    }
}

/// What an operator makes of two operands, which is no concatenation.
fn operated(alloc: Global, op: Operator, a: Typed, b: Typed) -> Result<Typed, AllocError>
    requires wide { 1 ≤ (typed_of a).width }
    requires narrow { (typed_of a).width ≤ 128 }
    requires alike { AreAlikeWidths (class_of op) (typed_of a).width (typed_of b).width }
    requires other { op ≢ operator.Concat }
    ensures { IfOk result (λ t. MakesTwo (typed_of t) (typed_of a) (typed_of b) (operate op)) }
{
    let width = a.width;
    let mask = mask(width);
    let term = binary_node(alloc, op, mask, a.term, b.term)?;
    Ok(Typed {
        term,
        width: width_behind(op, width),
    })
}

/// What an operator makes of two operands.
pub fn binary(alloc: Global, op: Operator, a: Typed, b: Typed) -> Result<Typed, AllocError>
    requires wide { 1 ≤ (typed_of a).width }
    requires narrow { (typed_of a).width ≤ 128 }
    requires right { (typed_of b).width ≤ 128 }
    requires alike { AreAlikeWidths (class_of op) (typed_of a).width (typed_of b).width }
    ensures { IfOk result (λ t. MakesTwo (typed_of t) (typed_of a) (typed_of b) (operate op)) }
{
    if op == Operator::Concat {
        join(alloc, a, b)
    } else {
        operated(alloc, op, a, b)
    }
}

/// One of two operands of one width, by a test.
pub fn choice(alloc: Global, test: Typed, a: Typed, b: Typed) -> Result<Typed, AllocError>
    requires { (typed_of a).width ≡ (typed_of b).width }
    ensures { IfOk result (λ t. MakesChoice (typed_of t) (typed_of test) (typed_of a) (typed_of b)) }
{
    let width = a.width;
    let test = Box::new(alloc, test.term)?;
    let a = Box::new(alloc, a.term)?;
    let b = Box::new(alloc, b.term)?;
    Ok(Typed {
        term: Term::Choice(test, a, b),
        width,
    })
}
