//! Statements whose reads of the packet's length are rewritten. What a statement writes to stays.

ghost use Rattle.std.specs.Prelude.{◌≡◌, IfOk, map};
ghost use Rattle.std.specs.Option.{option_map};
ghost use Rattle.p4_tree.specs.Tree as p4;
ghost use Rattle.p4_tree.specs.View.{arg_of, else_of, expr_of, stmt_of, stmts_of};
ghost use Rattle.p4_resolved.specs.Scopes.{roots_in};
ghost use Rattle.linked_programs.specs.Rewritten.{arg_with, else_with, expr_with, stmt_with, stmts_with};

use crate::lengths::{expr_with, exprs_with, start_with};
use lex_text::Name;
use p4_resolved::Roots;
use p4_tree::{Arg, Expr, PTy, Stmt};
use p4_values::copy_path;
use std::alloc::{AllocError, Global};

fn arg_with(alloc: Global, roots: &Roots, a: &Arg) -> Result<Arg, AllocError>
    ensures { IfOk result (λ t. arg_of t ≡ arg_with (roots_in roots.now) (arg_of a.now)) }
{
    match a {
        Arg::One(at, e) => Ok(Arg::One(*at, expr_with(alloc, roots, e)?)),
        Arg::Many(at, list) => Ok(Arg::Many(*at, exprs_with(alloc, roots, list)?)),
    }
}

fn args_with(alloc: Global, roots: &Roots, list: &[Arg]) -> Result<Vec<Arg>, AllocError>
    ensures { IfOk result (λ v. map arg_of v.items ≡ map (arg_with (roots_in roots.now)) (map arg_of list.now)) }
{
    let mut copies = Vec::with_capacity(alloc, list.len())?;
    for a in list {
        copies.push(arg_with(alloc, roots, a)?)?;
    }
    Ok(copies)
}

fn var_with(
    alloc: Global,
    roots: &Roots,
    at: u32,
    ty: &PTy,
    name: &Name,
    start: &Option<Expr>,
) -> Result<Stmt, AllocError>
    ensures { IfOk result (λ s. stmt_of s ≡ stmt_with (roots_in roots.now)
        (p4.var at ty.now name.now (option_map expr_of start.now))) }
{
    let ty = ty.copy(alloc)?;
    let name = name.copy(alloc)?;
    Ok(Stmt::Var(at, ty, name, start_with(alloc, roots, start)?))
}

/// What is assigned is rewritten.
pub(crate) fn assign_with(
    alloc: Global,
    roots: &Roots,
    at: u32,
    path: &[Name],
    e: &Expr,
) -> Result<Stmt, AllocError>
    ensures { IfOk result (λ s. stmt_of s
        ≡ p4.assign at path.now (expr_with (roots_in roots.now) (expr_of e.now))) }
{
    let path = copy_path(alloc, path)?;
    Ok(Stmt::Assign(at, path, expr_with(alloc, roots, e)?))
}

fn call_with(
    alloc: Global,
    roots: &Roots,
    at: u32,
    path: &[Name],
    args: &[Arg],
) -> Result<Stmt, AllocError>
    ensures { IfOk result (λ s. stmt_of s
        ≡ stmt_with (roots_in roots.now) (p4.call at path.now (map arg_of args.now))) }
{
    let path = copy_path(alloc, path)?;
    Ok(Stmt::Call(at, path, args_with(alloc, roots, args)?))
}

/// The test is rewritten, and the branches are given.
fn choice_with(
    alloc: Global,
    roots: &Roots,
    at: u32,
    test: &Expr,
    one: Box<Stmt>,
    other: Option<Box<Stmt>>,
) -> Result<Stmt, AllocError>
    ensures { IfOk result (λ s. stmt_of s ≡ p4.choice at
        (expr_with (roots_in roots.now) (expr_of test.now)) (stmt_of one.value) (else_of other)) }
{
    Ok(Stmt::If(at, expr_with(alloc, roots, test)?, one, other))
}

/// A statement.
#[cycle(stmts_with)]
fn stmt_with(alloc: Global, roots: &Roots, s: &Stmt) -> Result<Stmt, AllocError>
    ensures { IfOk result (λ t. stmt_of t ≡ stmt_with (roots_in roots.now) (stmt_of s.now)) }
{
    match s {
        Stmt::Nothing(at) => Ok(Stmt::Nothing(*at)),
        Stmt::Block(at, body) => Ok(Stmt::Block(*at, stmts_with(alloc, roots, body)?)),
        Stmt::Var(at, ty, name, start) => var_with(alloc, roots, *at, ty, name, start),
        Stmt::Assign(at, path, e) => assign_with(alloc, roots, *at, path, e),
        Stmt::If(at, e, a, b) => {
            let a = Box::new(alloc, stmt_with(alloc, roots, a)?)?;
            choice_with(alloc, roots, *at, e, a, else_with(alloc, roots, b)?)
        }
        Stmt::Return(at) => Ok(Stmt::Return(*at)),
        Stmt::Exit(at) => Ok(Stmt::Exit(*at)),
        Stmt::Call(at, path, args) => call_with(alloc, roots, *at, path, args),
    }
}

#[cycle(stmts_with)]
fn else_with(
    alloc: Global,
    roots: &Roots,
    other: &Option<Box<Stmt>>,
) -> Result<Option<Box<Stmt>>, AllocError>
    ensures { IfOk result (λ o. else_of o ≡ else_with (roots_in roots.now) (else_of other.now)) }
{
    match other {
        None => Ok(None),
        Some(s) => {
            let s = stmt_with(alloc, roots, s)?;
            Ok(Some(Box::new(alloc, s)?))
        }
    }
}

/// Statements.
#[cycle(stmts_with)]
pub(crate) fn stmts_with(
    alloc: Global,
    roots: &Roots,
    list: &[Stmt],
) -> Result<Vec<Stmt>, AllocError>
    ensures { IfOk result (λ v. stmts_of v.items ≡ stmts_with (roots_in roots.now) (stmts_of list.now)) }
{
    let mut copies = Vec::with_capacity(alloc, list.len())?;
    for s in list {
        copies.push(stmt_with(alloc, roots, s)?)?;
    }
    Ok(copies)
}
