//! The rule that puts what an operator makes of two numbers, or of two truth values, in its place.

ghost use Rattle.std.specs.Prelude.{◌≡◌, IfOk};
ghost use Rattle.std.specs.Result.{IsOkAnd};
ghost use Rattle.std.specs.Option.{option_map};
ghost use Rattle.p4_tree.specs.Operators.{class_of};
ghost use Rattle.p4_tree.specs.Tree.{num};
ghost use Rattle.p4_tree.specs.View.{expr_of};
ghost use Rattle.rewriting_laws.specs.Standing.{MayStandIfAny};
ghost use Rattle.simplify_rules.specs.FoldNumbers.{cut, right_width, takes_widths, takes_truths, made, words_folded, folded, fold_numbers};

use crate::operand::{Known, known_in};
use bit_values::{Bits, either_width, holds, truth};
use lex_text::Literal;
use p4_tree::{Expr, Op};
use std::alloc::{AllocError, Global};

/// A number that is cut to its width, where numbers can have that.
fn cut(width: u8, number: u128) -> Option<Bits>
    ensures { result ≡ cut width number }
{
    if width == 0 || width > 128 {
        None
    } else {
        Some(Bits::new(128, number).cast(width))
    }
}

/// The width of a right operand, by the one that is written.
fn right_width(op: Op, written: u8) -> u8
    ensures { result ≡ right_width (class_of op) written }
{
    match op {
        Op::Shl | Op::Shr => either_width(written, 128),
        Op::Mul | Op::Add | Op::Sub | Op::BitAnd | Op::BitXor | Op::BitOr | Op::Concat => written,
        Op::Less | Op::LessEq | Op::More | Op::MoreEq | Op::Equal | Op::Differ => written,
        Op::Both | Op::Either => written,
    }
}

/// Whether an operator takes two numbers, by their widths.
fn takes_widths(op: Op, a: Bits, b: Bits) -> bool
    ensures { result ≡ takes_widths (class_of op) a.width b.width }
{
    match op {
        Op::Mul | Op::Add | Op::Sub | Op::BitAnd | Op::BitXor | Op::BitOr => a.width == b.width,
        Op::Shl | Op::Shr => true,
        Op::Concat => a.width <= 128 - b.width,
        Op::Less | Op::LessEq | Op::More | Op::MoreEq => a.width == b.width,
        Op::Equal | Op::Differ => a.width == b.width,
        Op::Both | Op::Either => false,
    }
}

/// Whether an operator takes two truth values.
fn takes_truths(op: Op) -> bool
    ensures { result ≡ takes_truths op }
{
    match op {
        Op::Equal | Op::Differ | Op::Both | Op::Either => true,
        Op::Mul | Op::Add | Op::Sub | Op::BitAnd | Op::BitXor | Op::BitOr | Op::Concat => false,
        Op::Shl | Op::Shr | Op::Less | Op::LessEq | Op::More | Op::MoreEq => false,
    }
}

/// What an operator makes, as an expression.
fn made(op: Op, at: u32, word: Bits) -> Expr
    ensures { expr_of result ≡ made (class_of op) at word }
{
    match op {
        Op::Less | Op::LessEq | Op::More | Op::MoreEq => Expr::Flag(at, holds(word)),
        Op::Equal | Op::Differ | Op::Both | Op::Either => Expr::Flag(at, holds(word)),
        Op::Mul | Op::Add | Op::Sub | Op::BitAnd | Op::BitXor | Op::BitOr => number(at, word),
        Op::Concat | Op::Shl | Op::Shr => number(at, word),
    }
}

/// A number whose width is written.
fn number(at: u32, word: Bits) -> Expr
    ensures { expr_of result ≡ num at (record { width = word.width; value = word.value }) }
{
    Expr::Num(
        at,
        Literal {
            width: word.width,
            value: word.value,
        },
    )
}

/// What becomes of an operator on two numbers.
fn words_folded(op: Op, at: u32, a: Option<Bits>, b: Option<Bits>) -> Option<Expr>
    ensures { option_map expr_of result ≡ words_folded op at a b }
{
    match (a, b) {
        (Some(a), Some(b)) if takes_widths(op, a, b) => {
            Some(made(op, at, op.operator().apply(a, b)))
        }
        _ => None,
    }
}

/// What becomes of an operator, by what its operands say.
fn folded(op: Op, at: u32, a: Known, b: Known) -> Option<Expr>
    ensures { option_map expr_of result ≡ folded op at a b }
{
    match (a, b) {
        (Known::Number(m), Known::Number(n)) => {
            let right = cut(right_width(op, n.width), n.value);
            words_folded(op, at, cut(m.width, m.value), right)
        }
        (Known::Truth(a), Known::Truth(b)) if takes_truths(op) => {
            let word = op.operator().apply(truth(a), truth(b));
            Some(Expr::Flag(at, holds(word)))
        }
        _ => None,
    }
}

/// What the rule answers.
fn number_answer(e: &Expr) -> Option<Expr>
    ensures { option_map expr_of result ≡ fold_numbers (expr_of e.now) }
{
    match e {
        Expr::Bin(at, op, a, b) => folded(*op, *at, known_in(a), known_in(b)),
        Expr::Num(_, _) | Expr::Flag(_, _) | Expr::Path(_, _) | Expr::Valid(_, _) => None,
        Expr::Applied(_, _, _) | Expr::ErrorName(_, _) | Expr::Not(_, _) => None,
        Expr::Invert(_, _) | Expr::Negate(_, _) | Expr::Choice(_, _, _, _) => None,
        Expr::Slice(_, _, _, _) | Expr::Cast(_, _, _) => None,
    }
}

/// Answers a well-typed operator on two numbers with written widths, or on two truth values: the
/// number that it makes, with its width written, or the truth value. The right operand of a shift need
/// not have a width. It is called as the other rules are, and takes no memory.
pub fn fold_numbers(_alloc: Global, e: &Expr) -> Result<Option<Expr>, AllocError>
    ensures answer { IsOkAnd result (λ o. option_map expr_of o ≡ fold_numbers (expr_of e.now)) }
    ensures stands { IfOk result (MayStandIfAny (expr_of e.now)) }
{
    Ok(number_answer(e))
}
