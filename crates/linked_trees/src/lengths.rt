//! Expressions whose reads of the packet's length are rewritten: they read the length without
//! telemetry.

ghost use Rattle.std.specs.Prelude.{◌≡◌, IfOk, map};
ghost use Rattle.std.specs.Option.{option_map};
ghost use Rattle.p4_tree.specs.View.{expr_of};
ghost use Rattle.p4_resolved.specs.Scopes.{roots_in};
ghost use Rattle.linked_programs.specs.Rewritten.{expr_with, is_length, length_at, path_with};

use lex_text::Name;
use p4_resolved::Roots;
use p4_tree::Expr;
use p4_values::{copy_path, same_text};
use small_trees::two_names;
use std::alloc::{AllocError, Global};

/// Whether a path is the packet's length.
fn is_length(roots: &Roots, path: &[Name]) -> bool
    ensures { result ≡ is_length (roots_in roots.now) path.now }
{
    match path {
        [] => false,
        [root, rest @ ..] => match rest {
            [] => false,
            [field, more @ ..] => match more {
                [] => {
                    same_text(roots.standard.as_str(), root.as_str())
                        && same_text("packet_length", field.as_str())
                }
                [_third, _others @ ..] => false,
            },
        },
    }
}

/// The path of the length without telemetry.
pub(crate) fn length_at(alloc: Global, roots: &Roots) -> Result<Vec<Name>, AllocError>
    ensures { IfOk result (λ v. v.items ≡ length_at (roots_in roots.now)) }
{
    two_names(alloc, roots.metadata.as_str(), "hydra_length")
}

fn path_with(alloc: Global, roots: &Roots, path: &[Name]) -> Result<Vec<Name>, AllocError>
    ensures { IfOk result (λ v. v.items ≡ path_with (roots_in roots.now) path.now) }
{
    if is_length(roots, path) {
        length_at(alloc, roots)
    } else {
        copy_path(alloc, path)
    }
}

/// An expression.
#[cycle(expr_with)]
pub(crate) fn expr_with(alloc: Global, roots: &Roots, e: &Expr) -> Result<Expr, AllocError>
    ensures { IfOk result (λ t. expr_of t ≡ expr_with (roots_in roots.now) (expr_of e.now)) }
{
    match e {
        Expr::Num(at, n) => Ok(Expr::Num(*at, *n)),
        Expr::Flag(at, b) => Ok(Expr::Flag(*at, *b)),
        Expr::Path(at, path) => Ok(Expr::Path(*at, path_with(alloc, roots, path)?)),
        Expr::Valid(at, path) => Ok(Expr::Valid(*at, copy_path(alloc, path)?)),
        Expr::Applied(at, table, hit) => Ok(Expr::Applied(*at, table.copy(alloc)?, *hit)),
        Expr::ErrorName(at, name) => Ok(Expr::ErrorName(*at, name.copy(alloc)?)),
        Expr::Not(at, a) => Ok(Expr::Not(*at, boxed_with(alloc, roots, a)?)),
        Expr::Invert(at, a) => Ok(Expr::Invert(*at, boxed_with(alloc, roots, a)?)),
        Expr::Negate(at, a) => Ok(Expr::Negate(*at, boxed_with(alloc, roots, a)?)),
        Expr::Bin(at, op, a, b) => {
            let a = boxed_with(alloc, roots, a)?;
            let b = boxed_with(alloc, roots, b)?;
            Ok(Expr::Bin(*at, *op, a, b))
        }
        Expr::Choice(at, test, a, b) => {
            let test = boxed_with(alloc, roots, test)?;
            let a = boxed_with(alloc, roots, a)?;
            let b = boxed_with(alloc, roots, b)?;
            Ok(Expr::Choice(*at, test, a, b))
        }
        Expr::Slice(at, a, high, low) => {
            let a = boxed_with(alloc, roots, a)?;
            Ok(Expr::Slice(*at, a, *high, *low))
        }
        Expr::Cast(at, ty, a) => {
            let ty = ty.copy(alloc)?;
            let a = boxed_with(alloc, roots, a)?;
            Ok(Expr::Cast(*at, ty, a))
        }
    }
}

#[cycle(expr_with)]
fn boxed_with(alloc: Global, roots: &Roots, e: &Box<Expr>) -> Result<Box<Expr>, AllocError>
    ensures { IfOk result (λ b. expr_of b.value ≡ expr_with (roots_in roots.now) (expr_of e.now.value)) }
{
    let e = expr_with(alloc, roots, e)?;
    Ok(Box::new(alloc, e)?)
}

/// Expressions.
pub(crate) fn exprs_with(
    alloc: Global,
    roots: &Roots,
    list: &[Expr],
) -> Result<Vec<Expr>, AllocError>
    ensures { IfOk result (λ v. map expr_of v.items ≡ map (expr_with (roots_in roots.now)) (map expr_of list.now)) }
{
    let mut copies = Vec::with_capacity(alloc, list.len())?;
    for e in list {
        copies.push(expr_with(alloc, roots, e)?)?;
    }
    Ok(copies)
}

/// The first value of a variable.
pub(crate) fn start_with(
    alloc: Global,
    roots: &Roots,
    start: &Option<Expr>,
) -> Result<Option<Expr>, AllocError>
    ensures { IfOk result (λ o. option_map expr_of o ≡ option_map (expr_with (roots_in roots.now)) (option_map expr_of start.now)) }
{
    match start {
        None => Ok(None),
        Some(e) => Ok(Some(expr_with(alloc, roots, e)?)),
    }
}
