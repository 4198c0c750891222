//! Trees under a scope: what their names stand for is written in their place.

ghost use Rattle.std.specs.Prelude.{◌≡◌, IfOk, map};
ghost use Rattle.std.specs.Option.{option_map};
ghost use Rattle.p4_tree.specs.Tree.{path, var};
ghost use Rattle.p4_tree.specs.View.{expr_of, arg_of, stmt_of, else_of, stmts_of};
ghost use Rattle.p4_meaning.specs.Under.{expr_under, arg_under, stmt_under, else_under, stmts_under};
ghost use Rattle.p4_resolved.specs.Scopes.{scope_of};

use crate::scope::{
    Scope, callee_under, constant_at, first_name, full_name, path_under, type_under,
};
use lex_text::{Literal, Name};
use p4_tree::{Arg, Expr, PTy, Stmt};
use std::alloc::{AllocError, Global};

/// A path, or the word of the constant that it is.
fn path_or_constant(alloc: Global, sc: &Scope, at: u32, names: &[Name]) -> Result<Expr, AllocError>
    ensures { IfOk result (λ t. expr_of t ≡ expr_under (scope_of sc.now) (path at names.now)) }
{
    match constant_at(sc, names) {
        None => Ok(Expr::Path(at, path_under(alloc, sc, names)?)),
        Some(w) => {
            let literal = Literal {
                width: w.width,
                value: w.value,
            };
            Ok(Expr::Num(at, literal))
        }
    }
}

/// An expression.
#[cycle(under_expr)]
pub fn expr_under(alloc: Global, sc: &Scope, e: &Expr) -> Result<Expr, AllocError>
    ensures { IfOk result (λ t. expr_of t ≡ expr_under (scope_of sc.now) (expr_of e.now)) }
{
    match e {
        Expr::Num(at, n) => Ok(Expr::Num(*at, *n)),
        Expr::Flag(at, b) => Ok(Expr::Flag(*at, *b)),
        Expr::Path(at, path) => path_or_constant(alloc, sc, *at, path),
        Expr::Valid(at, path) => Ok(Expr::Valid(*at, path_under(alloc, sc, path)?)),
        Expr::Applied(at, table, hit) => {
            Ok(Expr::Applied(*at, full_name(alloc, sc, table)?, *hit))
        }
        Expr::ErrorName(at, name) => Ok(Expr::ErrorName(*at, name.copy(alloc)?)),
        Expr::Not(at, a) => Ok(Expr::Not(*at, boxed_under(alloc, sc, a)?)),
        Expr::Invert(at, a) => Ok(Expr::Invert(*at, boxed_under(alloc, sc, a)?)),
        Expr::Negate(at, a) => Ok(Expr::Negate(*at, boxed_under(alloc, sc, a)?)),
        Expr::Bin(at, op, a, b) => {
            let a = boxed_under(alloc, sc, a)?;
            let b = boxed_under(alloc, sc, b)?;
            Ok(Expr::Bin(*at, *op, a, b))
        }
        Expr::Choice(at, test, a, b) => {
            let test = boxed_under(alloc, sc, test)?;
            let a = boxed_under(alloc, sc, a)?;
            let b = boxed_under(alloc, sc, b)?;
            Ok(Expr::Choice(*at, test, a, b))
        }
        Expr::Slice(at, a, high, low) => {
            let a = boxed_under(alloc, sc, a)?;
            Ok(Expr::Slice(*at, a, *high, *low))
        }
        Expr::Cast(at, ty, a) => {
            let ty = ty.copy(alloc)?;
            let a = boxed_under(alloc, sc, a)?;
            Ok(Expr::Cast(*at, ty, a))
        }
    }
}

#[cycle(under_expr)]
fn boxed_under(alloc: Global, sc: &Scope, e: &Box<Expr>) -> Result<Box<Expr>, AllocError>
    ensures { IfOk result (λ b. expr_of b.value ≡ expr_under (scope_of sc.now) (expr_of e.now.value)) }
{
    let e = expr_under(alloc, sc, e)?;
    Ok(Box::new(alloc, e)?)
}

/// Expressions.
pub fn exprs_under(alloc: Global, sc: &Scope, list: &[Expr]) -> Result<Vec<Expr>, AllocError>
    ensures { IfOk result (λ v. map expr_of v.items ≡ map (expr_under (scope_of sc.now)) (map expr_of list.now)) }
{
    let mut copies = Vec::new(alloc);
    for e in list {
        copies.push(expr_under(alloc, sc, e)?)?;
    }
    Ok(copies)
}

fn arg_under(alloc: Global, sc: &Scope, a: &Arg) -> Result<Arg, AllocError>
    ensures { IfOk result (λ t. arg_of t ≡ arg_under (scope_of sc.now) (arg_of a.now)) }
{
    match a {
        Arg::One(at, e) => Ok(Arg::One(*at, expr_under(alloc, sc, e)?)),
        Arg::Many(at, list) => Ok(Arg::Many(*at, exprs_under(alloc, sc, list)?)),
    }
}

fn args_under(alloc: Global, sc: &Scope, list: &[Arg]) -> Result<Vec<Arg>, AllocError>
    ensures { IfOk result (λ v. map arg_of v.items ≡ map (arg_under (scope_of sc.now)) (map arg_of list.now)) }
{
    let mut copies = Vec::new(alloc);
    for a in list {
        copies.push(arg_under(alloc, sc, a)?)?;
    }
    Ok(copies)
}

/// The first value of a variable.
pub fn start_under(
    alloc: Global,
    sc: &Scope,
    start: &Option<Expr>,
) -> Result<Option<Expr>, AllocError>
    ensures { IfOk result (λ o. option_map expr_of o ≡ option_map (expr_under (scope_of sc.now)) (option_map expr_of start.now)) }
{
    match start {
        None => Ok(None),
        Some(e) => Ok(Some(expr_under(alloc, sc, e)?)),
    }
}

/// A variable.
pub fn var_under(
    alloc: Global,
    sc: &Scope,
    at: u32,
    ty: &PTy,
    name: &Name,
    start: &Option<Expr>,
) -> Result<Stmt, AllocError>
    ensures { IfOk result (λ s. stmt_of s ≡ stmt_under (scope_of sc.now) (var at ty.now name.now (option_map expr_of start.now))) }
{
    let ty = type_under(alloc, sc, ty)?;
    let name = first_name(alloc, sc, name)?;
    let start = start_under(alloc, sc, start)?;
    Ok(Stmt::Var(at, ty, name, start))
}

/// A statement.
#[cycle(under)]
pub fn stmt_under(alloc: Global, sc: &Scope, s: &Stmt) -> Result<Stmt, AllocError>
    ensures { IfOk result (λ t. stmt_of t ≡ stmt_under (scope_of sc.now) (stmt_of s.now)) }
{
    match s {
        Stmt::Nothing(at) => Ok(Stmt::Nothing(*at)),
        Stmt::Block(at, body) => Ok(Stmt::Block(*at, stmts_under(alloc, sc, body)?)),
        Stmt::Var(at, ty, name, start) => { var_under(alloc, sc, *at, ty, name, start) }
        Stmt::Assign(at, path, e) => {
            let path = path_under(alloc, sc, path)?;
            let e = expr_under(alloc, sc, e)?;
            Ok(Stmt::Assign(*at, path, e))
        }
        Stmt::If(at, e, a, b) => {
            let e = expr_under(alloc, sc, e)?;
            let a = Box::new(alloc, stmt_under(alloc, sc, a)?)?;
            let b = else_under(alloc, sc, b)?;
            Ok(Stmt::If(*at, e, a, b))
        }
        Stmt::Return(at) => Ok(Stmt::Return(*at)),
        Stmt::Exit(at) => Ok(Stmt::Exit(*at)),
        Stmt::Call(at, path, args) => {
            let path = callee_under(alloc, sc, path)?;
            let args = args_under(alloc, sc, args)?;
            Ok(Stmt::Call(*at, path, args))
        }
    }
}

#[cycle(under)]
fn else_under(
    alloc: Global,
    sc: &Scope,
    other: &Option<Box<Stmt>>,
) -> Result<Option<Box<Stmt>>, AllocError>
    ensures { IfOk result (λ o. else_of o ≡ else_under (scope_of sc.now) (else_of other.now)) }
{
    match other {
        None => Ok(None),
        Some(s) => {
            let s = stmt_under(alloc, sc, s)?;
            Ok(Some(Box::new(alloc, s)?))
        }
    }
}

/// Statements.
#[cycle(under)]
pub fn stmts_under(alloc: Global, sc: &Scope, list: &[Stmt]) -> Result<Vec<Stmt>, AllocError>
    ensures { IfOk result (λ v. stmts_of v.items ≡ stmts_under (scope_of sc.now) (stmts_of list.now)) }
{
    let mut copies = Vec::new(alloc);
    for s in list {
        copies.push(stmt_under(alloc, sc, s)?)?;
    }
    Ok(copies)
}
