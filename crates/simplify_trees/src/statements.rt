//! Statements and blocks.

ghost use Rattle.std.specs.Prelude.{◌≡◌, IfOk};
ghost use Rattle.std.specs.Option.{option_map};
ghost use Rattle.simplify_trees.specs.Applied.{is_applied};
ghost use Rattle.p4_tree.specs.View.{arg_of, else_of, expr_of, stmt_of, stmts_of};
ghost use Rattle.p4_rule_laws.specs.Replaced.{is_outcome};
ghost use Rattle.rewritten_programs.specs.Rewritten.{BlockRewritten, ElseRewritten, StartRewritten, StmtRewritten, TestRewritten};
ghost use Rattle.simplify_rules.specs.Simplified.{IsSimplified};

use crate::arguments::args;
use lex_text::Name;
use p4_tree::{Arg, Expr, PTy, Stmt};
use p4_values::copy_path;
use simplify_rules::{Offers, simplified};
use std::alloc::{AllocError, Global};

/// A first value, where there is one.
pub(crate) fn start<R: Offers>(
    alloc: Global,
    rules: &R,
    e: &Option<Expr>,
) -> Result<Option<Expr>, AllocError>
    ensures { IfOk result (λ o. StartRewritten (IsSimplified (R.Answers rules.now))
        (option_map expr_of e.now) (option_map expr_of o)) }
{
    match e {
        None => Ok(None),
        Some(e) => Ok(Some(simplified(alloc, rules, e)?)),
    }
}

/// Whether an expression is the outcome of a table.
fn is_applied(e: &Expr) -> bool
    ensures { result ≡ is_applied (expr_of e.now) }
{
    match e {
        Expr::Applied(_, _, _) => true,
        Expr::Num(_, _) | Expr::Flag(_, _) | Expr::Path(_, _) | Expr::Valid(_, _) => false,
        Expr::ErrorName(_, _) | Expr::Not(_, _) | Expr::Invert(_, _) => false,
        Expr::Negate(_, _) | Expr::Bin(_, _, _, _) | Expr::Choice(_, _, _, _) => false,
        Expr::Slice(_, _, _, _) | Expr::Cast(_, _, _) => false,
    }
}

/// Whether a test is the outcome of a table, perhaps behind `!`.
fn is_outcome(e: &Expr) -> bool
    ensures { result ≡ is_outcome (expr_of e.now) }
{
    match e {
        Expr::Applied(_, _, _) => true,
        Expr::Not(_, a) => is_applied(a),
        Expr::Num(_, _) | Expr::Flag(_, _) | Expr::Path(_, _) | Expr::Valid(_, _) => false,
        Expr::ErrorName(_, _) | Expr::Invert(_, _) => false,
        Expr::Negate(_, _) | Expr::Bin(_, _, _, _) | Expr::Choice(_, _, _, _) => false,
        Expr::Slice(_, _, _, _) | Expr::Cast(_, _, _) => false,
    }
}

/// A test. One that applies a table stays.
fn test<R: Offers>(alloc: Global, rules: &R, e: &Expr) -> Result<Expr, AllocError>
    ensures { IfOk result (λ f. TestRewritten (IsSimplified (R.Answers rules.now))
        (expr_of e.now) (expr_of f)) }
{
    if is_outcome(e) {
        e.copy(alloc)
    } else {
        simplified(alloc, rules, e)
    }
}

fn in_box(alloc: Global, s: Stmt) -> Result<Box<Stmt>, AllocError>
    ensures { IfOk result (λ b. b.value ≡ s) }
{
    Ok(Box::new(alloc, s)?)
}

/// A statement.
#[cycle(rewritten)]
fn stmt<R: Offers>(alloc: Global, rules: &R, s: &Stmt) -> Result<Stmt, AllocError>
    ensures { IfOk result (λ d. StmtRewritten (IsSimplified (R.Answers rules.now))
        (stmt_of s.now) (stmt_of d)) }
{
    match s {
        Stmt::Block(at, body) => Ok(Stmt::Block(*at, stmts(alloc, rules, body)?)),
        Stmt::Var(at, ty, name, e) => {
            let ty = ty.copy(alloc)?;
            let name = name.copy(alloc)?;
            Ok(Stmt::Var(*at, ty, name, start(alloc, rules, e)?))
        }
        Stmt::Assign(at, path, e) => {
            let path = copy_path(alloc, path)?;
            Ok(Stmt::Assign(*at, path, simplified(alloc, rules, e)?))
        }
        Stmt::If(at, e, a, b) => {
            let a = boxed(alloc, rules, a)?;
            let b = other(alloc, rules, b)?;
            Ok(Stmt::If(*at, test(alloc, rules, e)?, a, b))
        }
        Stmt::Call(at, path, list) => {
            let list = args(alloc, rules, path, list)?;
            Ok(Stmt::Call(*at, copy_path(alloc, path)?, list))
        }
        Stmt::Nothing(at) => Ok(Stmt::Nothing(*at)),
        Stmt::Return(at) => Ok(Stmt::Return(*at)),
        Stmt::Exit(at) => Ok(Stmt::Exit(*at)),
    }
}

#[cycle(rewritten)]
fn boxed<R: Offers>(alloc: Global, rules: &R, s: &Box<Stmt>) -> Result<Box<Stmt>, AllocError>
    ensures { IfOk result (λ d. StmtRewritten (IsSimplified (R.Answers rules.now))
        (stmt_of s.now.value) (stmt_of d.value)) }
{
    let d = stmt(alloc, rules, s)?;
    in_box(alloc, d)
}

/// What an `else` holds.
#[cycle(rewritten)]
fn other<R: Offers>(
    alloc: Global,
    rules: &R,
    s: &Option<Box<Stmt>>,
) -> Result<Option<Box<Stmt>>, AllocError>
    ensures { IfOk result (λ d. ElseRewritten (IsSimplified (R.Answers rules.now))
        (else_of s.now) (else_of d)) }
{
    match s {
        None => Ok(None),
        Some(s) => {
            let d = stmt(alloc, rules, s)?;
            Ok(Some(in_box(alloc, d)?))
        }
    }
}

/// The statements of a block.
#[cycle(rewritten)]
pub(crate) fn stmts<R: Offers>(
    alloc: Global,
    rules: &R,
    list: &[Stmt],
) -> Result<Vec<Stmt>, AllocError>
    ensures { IfOk result (λ v. BlockRewritten (IsSimplified (R.Answers rules.now))
        (stmts_of list.now) (stmts_of v.items)) }
{
    let mut made = Vec::with_capacity(alloc, list.len())?;
    for s in list {
        made.push(stmt(alloc, rules, s)?)?;
    }
    Ok(made)
}
