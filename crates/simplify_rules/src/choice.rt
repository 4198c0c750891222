//! The rule that puts the operand that is taken in the place of a choice.

ghost use Rattle.std.specs.Prelude.{◌≡◌, IfOk};
ghost use Rattle.std.specs.Option.{option_map};
ghost use Rattle.p4_tree.specs.View.{expr_of};
ghost use Rattle.rewriting_laws.specs.Standing.{MayStandIfAny};
ghost use Rattle.simplify_rules.specs.FoldChoice.{taken, chosen, logic_folded, fold_choice};

use crate::operand::{Known, known_in};
use crate::own_width::has_own;
use p4_tree::{Expr, Op};
use std::alloc::{AllocError, Global};

/// The operand that is taken, where it has a width or a kind of its own.
fn taken(alloc: Global, e: &Expr) -> Result<Option<Expr>, AllocError>
    ensures { IfOk result (λ o. option_map expr_of o ≡ taken (expr_of e.now)) }
{
    if has_own(e) {
        Ok(Some(e.copy(alloc)?))
    } else {
        Ok(None)
    }
}

/// What becomes of a choice, by what its test says.
fn chosen(alloc: Global, test: Known, a: &Expr, b: &Expr) -> Result<Option<Expr>, AllocError>
    ensures { IfOk result (λ o. option_map expr_of o ≡ chosen test (expr_of a.now) (expr_of b.now)) }
{
    match test {
        Known::Truth(v) => taken(alloc, if v { a } else { b }),
        Known::Number(_) | Known::Nothing => Ok(None),
    }
}

/// What becomes of `&&` and `||`, by what the left operand says.
fn logic_folded(
    alloc: Global,
    said: Known,
    op: Op,
    a: &Expr,
    b: &Expr,
) -> Result<Option<Expr>, AllocError>
    ensures { IfOk result (λ o. option_map expr_of o ≡ logic_folded said op (expr_of a.now) (expr_of b.now)) }
{
    match (said, op) {
        (Known::Truth(v), Op::Both) => taken(alloc, if v { b } else { a }),
        (Known::Truth(v), Op::Either) => taken(alloc, if v { a } else { b }),
        _ => Ok(None),
    }
}

/// What the rule answers.
fn choice_answer(alloc: Global, e: &Expr) -> Result<Option<Expr>, AllocError>
    ensures { IfOk result (λ o. option_map expr_of o ≡ fold_choice (expr_of e.now)) }
{
    match e {
        Expr::Choice(_, test, a, b) => chosen(alloc, known_in(test), a, b),
        Expr::Bin(_, op, a, b) => logic_folded(alloc, known_in(a), *op, a, b),
        Expr::Num(_, _) | Expr::Flag(_, _) | Expr::Path(_, _) | Expr::Valid(_, _) => Ok(None),
        Expr::Applied(_, _, _) | Expr::ErrorName(_, _) | Expr::Not(_, _) => Ok(None),
        Expr::Invert(_, _) | Expr::Negate(_, _) => Ok(None),
        Expr::Slice(_, _, _, _) | Expr::Cast(_, _, _) => Ok(None),
    }
}

/// Answers a choice whose test is a truth value, and `&&` and `||` whose left operand is one, where
/// the operand that is taken has a width or a kind of its own: that operand.
pub fn fold_choice(alloc: Global, e: &Expr) -> Result<Option<Expr>, AllocError>
    ensures answer { IfOk result (λ o. option_map expr_of o ≡ fold_choice (expr_of e.now)) }
    ensures stands { IfOk result (MayStandIfAny (expr_of e.now)) }
{
    choice_answer(alloc, e)
}
