//! Expressions that are gone through from the inside to the outside, each part being offered once.

ghost use Rattle.std.specs.Prelude.{◌≡◌, ◌||◌, true, IfOk};
ghost use Rattle.p4_tree.specs.View.{expr_of};
ghost use Rattle.p4_statement_rules.specs.Expressions.{is_error_name};
ghost use Rattle.rewriting_laws.specs.Standing.{MayStandFor};
ghost use Rattle.simplify_rules.specs.Simplified.{is_offered, has_no_parts, IsAnswered, IsSimplified, HasSimplifiedParts};

use crate::offers::Offers;
use p4_tree::Expr;
use std::alloc::{AllocError, Global};

/// The expression with answers of the rules in it: each part that is a value is offered once, from the
/// inside to the outside, and what is answered is not offered again.
pub fn simplified<R: Offers>(alloc: Global, rules: &R, e: &Expr) -> Result<Expr, AllocError>
    ensures walked { IfOk result (λ f. IsSimplified (R.Answers rules.now) (expr_of e.now) (expr_of f)) }
    ensures stands { IfOk result (λ f. MayStandFor (expr_of e.now) (expr_of f)) }
{
    walked(alloc, rules, e)
}

/// Whether a part is a value of bits or a truth value.
fn is_offered(e: &Expr) -> bool
    ensures { result ≡ is_offered (expr_of e.now) }
{
    match e {
        Expr::Applied(_, _, _) | Expr::ErrorName(_, _) => false,
        Expr::Num(_, _) | Expr::Flag(_, _) | Expr::Path(_, _) | Expr::Valid(_, _) => true,
        Expr::Not(_, _) | Expr::Invert(_, _) | Expr::Negate(_, _) => true,
        Expr::Bin(_, _, _, _) | Expr::Choice(_, _, _, _) => true,
        Expr::Slice(_, _, _, _) | Expr::Cast(_, _, _) => true,
    }
}

/// Whether an operand is the name of an error of the parser.
fn is_error_name(e: &Expr) -> bool
    ensures { result ≡ is_error_name (expr_of e.now) }
{
    match e {
        Expr::ErrorName(_, _) => true,
        Expr::Num(_, _) | Expr::Flag(_, _) | Expr::Path(_, _) | Expr::Valid(_, _) => false,
        Expr::Applied(_, _, _) | Expr::Not(_, _) | Expr::Invert(_, _) => false,
        Expr::Negate(_, _) | Expr::Bin(_, _, _, _) | Expr::Choice(_, _, _, _) => false,
        Expr::Slice(_, _, _, _) | Expr::Cast(_, _, _) => false,
    }
}

/// Whether one operand is the name of an error of the parser, with which the other is compared.
fn compares_error(a: &Box<Expr>, b: &Box<Expr>) -> bool
    ensures { result ≡ (is_error_name (expr_of a.now.value) || is_error_name (expr_of b.now.value)) }
{
    is_error_name(a) || is_error_name(b)
}

/// A copy of an expression without parts that are offered.
fn whole(alloc: Global, e: &Expr) -> Result<Expr, AllocError>
    requires { has_no_parts (expr_of e.now) ≡ true }
    ensures whole { has_no_parts (expr_of e.now) ≡ true }
    ensures same { IfOk result (λ f. expr_of f ≡ expr_of e.now) }
{
    e.copy(alloc)
}

/// The answer of the rules, or the expression itself.
fn answered<R: Offers>(rules: &R, e: Expr) -> Result<Expr, AllocError>
    ensures { IfOk result (λ f. IsAnswered (R.Answers rules.now) (expr_of e) (expr_of f)) }
{
    match rules.answer(&e)? {
        Some(f) => Ok(f),
        None => Ok(e),
    }
}

#[cycle(walked)]
fn walked<R: Offers>(alloc: Global, rules: &R, e: &Expr) -> Result<Expr, AllocError>
    ensures { IfOk result (λ f. IsSimplified (R.Answers rules.now) (expr_of e.now) (expr_of f)) }
{
    if !is_offered(e) {
        return e.copy(alloc);
    }
    answered(rules, inside(alloc, rules, e)?)
}

#[cycle(walked)]
fn boxed<R: Offers>(alloc: Global, rules: &R, e: &Box<Expr>) -> Result<Box<Expr>, AllocError>
    ensures { IfOk result (λ f. IsSimplified (R.Answers rules.now) (expr_of e.now.value) (expr_of f.value)) }
{
    let f = walked(alloc, rules, e)?;
    Ok(Box::new(alloc, f)?)
}

/// The same expression, with what its parts become.
#[cycle(walked)]
fn inside<R: Offers>(alloc: Global, rules: &R, e: &Expr) -> Result<Expr, AllocError>
    ensures { IfOk result (λ f. HasSimplifiedParts (R.Answers rules.now) (expr_of e.now) (expr_of f)) }
{
    match e {
        Expr::Not(at, a) => Ok(Expr::Not(*at, boxed(alloc, rules, a)?)),
        Expr::Invert(at, a) => Ok(Expr::Invert(*at, boxed(alloc, rules, a)?)),
        Expr::Negate(at, a) => Ok(Expr::Negate(*at, boxed(alloc, rules, a)?)),
        Expr::Bin(at, op, a, b) => {
            if compares_error(a, b) {
                return whole(alloc, e);
            }
            let a = boxed(alloc, rules, a)?;
            let b = boxed(alloc, rules, b)?;
            Ok(Expr::Bin(*at, *op, a, b))
        }
        Expr::Choice(at, test, a, b) => {
            let test = boxed(alloc, rules, test)?;
            let a = boxed(alloc, rules, a)?;
            let b = boxed(alloc, rules, b)?;
            Ok(Expr::Choice(*at, test, a, b))
        }
        Expr::Slice(at, a, high, low) => {
            let a = boxed(alloc, rules, a)?;
            Ok(Expr::Slice(*at, a, *high, *low))
        }
        Expr::Cast(at, ty, a) => {
            let ty = ty.copy(alloc)?;
            let a = boxed(alloc, rules, a)?;
            Ok(Expr::Cast(*at, ty, a))
        }
        Expr::Num(_, _) | Expr::Flag(_, _) | Expr::Path(_, _) | Expr::Valid(_, _) => whole(
            alloc, e,
        ),
        Expr::Applied(_, _, _) | Expr::ErrorName(_, _) => whole(alloc, e),
    }
}
