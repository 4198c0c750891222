//! The rule that drops a number that changes nothing.

ghost use Rattle.std.specs.Prelude.{◌≡◌, IfOk};
ghost use Rattle.std.specs.Option.{option_map};
ghost use Rattle.p4_tree.specs.View.{expr_of};
ghost use Rattle.rewriting_laws.specs.Standing.{MayStandIfAny};
ghost use Rattle.simplify_rules.specs.DropNeutral.{right_neutral, left_neutral, is_neutral, kept, drop_neutral};

use crate::operand::{Known, known_in};
use crate::own_width::has_own;
use p4_tree::{Expr, Op};
use std::alloc::{AllocError, Global};

/// The number that changes nothing at the right of an operator.
fn right_neutral(op: Op) -> Option<u128>
    ensures { result ≡ right_neutral op }
{
    match op {
        Op::Add | Op::Sub | Op::BitOr | Op::BitXor | Op::Shl | Op::Shr => Some(0),
        Op::Mul => Some(1),
        Op::Concat | Op::BitAnd | Op::Less | Op::LessEq | Op::More | Op::MoreEq => None,
        Op::Equal | Op::Differ | Op::Both | Op::Either => None,
    }
}

/// The number that changes nothing at the left of an operator.
fn left_neutral(op: Op) -> Option<u128>
    ensures { result ≡ left_neutral op }
{
    match op {
        Op::Add | Op::BitOr | Op::BitXor => Some(0),
        Op::Mul => Some(1),
        Op::Sub | Op::Shl | Op::Shr | Op::Concat | Op::BitAnd => None,
        Op::Less | Op::LessEq | Op::More | Op::MoreEq => None,
        Op::Equal | Op::Differ | Op::Both | Op::Either => None,
    }
}

/// Whether an operand is that number, with or without a written width.
fn is_neutral(number: Option<u128>, operand: Known) -> bool
    ensures { result ≡ is_neutral number operand }
{
    match (number, operand) {
        (Some(v), Known::Number(n)) => n.value == v,
        _ => false,
    }
}

/// The operand that stays.
fn kept(alloc: Global, op: Op, a: &Expr, b: &Expr) -> Result<Option<Expr>, AllocError>
    ensures { IfOk result (λ o. option_map expr_of o ≡ kept op (expr_of a.now) (expr_of b.now)) }
{
    if is_neutral(right_neutral(op), known_in(b)) && has_own(a) {
        Ok(Some(a.copy(alloc)?))
    } else if is_neutral(left_neutral(op), known_in(a)) && has_own(b) {
        Ok(Some(b.copy(alloc)?))
    } else {
        Ok(None)
    }
}

/// What the rule answers.
fn neutral_answer(alloc: Global, e: &Expr) -> Result<Option<Expr>, AllocError>
    ensures { IfOk result (λ o. option_map expr_of o ≡ drop_neutral (expr_of e.now)) }
{
    match e {
        Expr::Bin(_, op, a, b) => kept(alloc, *op, a, b),
        Expr::Num(_, _) | Expr::Flag(_, _) | Expr::Path(_, _) | Expr::Valid(_, _) => Ok(None),
        Expr::Applied(_, _, _) | Expr::ErrorName(_, _) | Expr::Not(_, _) => Ok(None),
        Expr::Invert(_, _) | Expr::Negate(_, _) | Expr::Choice(_, _, _, _) => Ok(None),
        Expr::Slice(_, _, _, _) | Expr::Cast(_, _, _) => Ok(None),
    }
}

/// Answers `x + 0`, `x - 0`, `x | 0`, `x ^ 0`, `x << 0`, `x >> 0` and `x * 1`, and `0 + x`, `0 | x`,
/// `0 ^ x` and `1 * x`, where x has a width of its own: x. The first that fits decides.
pub fn drop_neutral(alloc: Global, e: &Expr) -> Result<Option<Expr>, AllocError>
    ensures answer { IfOk result (λ o. option_map expr_of o ≡ drop_neutral (expr_of e.now)) }
    ensures stands { IfOk result (MayStandIfAny (expr_of e.now)) }
{
    neutral_answer(alloc, e)
}
