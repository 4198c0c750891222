//! Flat statements and blocks.

ghost use Rattle.std.specs.Prelude.{◌≡◌, ◌∷◌, [], ◌++◌, IfOk, OnOk, map};
ghost use Rattle.indus_tree.specs.Tree.{assign, block_from, cell, choice, done, reject, report};
ghost use Rattle.indus_tree.specs.View.{block_of, expr_of, exprs_of, property_of, stmt_of};
ghost use Rattle.indus_types.specs.Sums.{smallest};
ghost use Rattle.lower_lists.specs.Flat.{all_have, flat_block, flat_stmt, list_number, turns};

use crate::expressions::{all_have, flat_expr, flat_exprs};
use crate::lists::{bound_in, distinct, flat_push, list_numbers, smallest};
use crate::names::target;
use crate::place::Bound;
use indus_tree::{Expr, Stmt};
use indus_types::TypedProperty;
use lex_text::Name;
use std::alloc::{AllocError, Global};

/// Adds a statement.
fn put(out: &mut Vec<Stmt>, s: Stmt) -> Result<(), AllocError>
    ensures { OnOk result (map stmt_of out.new.items ≡ map stmt_of out.old.items ++ stmt_of s ∷ []) }
{
    out.push(s)?;
    Ok(())
}

fn assign(at: u32, name: Name, e: Expr) -> Stmt
    ensures { stmt_of result ≡ assign at name (expr_of e) }
{
    Stmt::Assign(at, name, e)
}

fn cell(at: u32, name: Name, index: Expr, e: Expr) -> Stmt
    ensures { stmt_of result ≡ cell at name (expr_of index) (expr_of e) }
{
    Stmt::Cell(at, name, index, e)
}

fn choice(at: u32, test: Expr, a: Vec<Stmt>, b: Vec<Stmt>) -> Stmt
    ensures { stmt_of result ≡ choice at (expr_of test) (block_from (map stmt_of a.items)) (block_from (map stmt_of b.items)) }
{
    Stmt::If(at, test, a, b)
}

fn reject(at: u32) -> Stmt
    ensures { stmt_of result ≡ reject at }
{
    Stmt::Reject(at)
}

fn report(at: u32, number: u16, values: Vec<Expr>) -> Stmt
    ensures { stmt_of result ≡ report at number (exprs_of values.items) }
{
    Stmt::Report(at, number, values)
}

/// What is done in place of a turn of a loop over lists of these numbers.
fn turn_of(
    alloc: Global,
    at: u32,
    tested: &[usize],
    turn: u8,
    body: Vec<Stmt>,
) -> Result<Stmt, AllocError>
    ensures { IfOk result (λ s. stmt_of s ≡ choice at (all_have at tested.now turn) (block_from (map stmt_of body.items)) done) }
{
    let test = all_have(alloc, at, tested, turn)?;
    Ok(Stmt::If(at, test, body, Vec::new(alloc)))
}

/// What is done in place of a loop, behind what stands in `out`.
#[cycle(flat_block)]
fn flat_loop(
    alloc: Global,
    typed: &TypedProperty,
    bounds: &[Bound],
    at: u32,
    names: &[Name],
    lists: &[Name],
    body: &[Stmt],
    out: &mut Vec<Stmt>,
) -> Result<(), AllocError>
    ensures { let ds = (property_of typed.now).decls in
        OnOk result (map stmt_of out.new.items ≡ map stmt_of out.old.items ++ turns at (flat_block ds (block_of body.now)) names.now (map (list_number ds) lists.now) bounds.now (smallest ds lists.now)) }
{
    let numbers = list_numbers(alloc, typed, lists)?;
    let tested = distinct(alloc, &numbers)?;
    for turn in 0..smallest(typed, lists) {
        let inner = bound_in(alloc, bounds, names, &numbers, turn)?;
        let body = flat_block(alloc, typed, &inner, body)?;
        put(out, turn_of(alloc, at, &tested, turn, body)?)?;
    }
    Ok(())
}

/// What is done in place of a statement, behind what stands in `out`.
#[cycle(flat_block)]
fn flat_stmt(
    alloc: Global,
    typed: &TypedProperty,
    bounds: &[Bound],
    s: &Stmt,
    out: &mut Vec<Stmt>,
) -> Result<(), AllocError>
    ensures { OnOk result (map stmt_of out.new.items ≡ map stmt_of out.old.items ++ flat_stmt (property_of typed.now).decls (stmt_of s.now) bounds.now) }
{
    match s {
        Stmt::Assign(at, name, e) => {
            let name = target(alloc, typed, name)?;
            let e = flat_expr(alloc, typed, bounds, e)?;
            put(out, assign(*at, name, e))
        }
        Stmt::Cell(at, name, index, e) => {
            let name = name.copy(alloc)?;
            let index = flat_expr(alloc, typed, bounds, index)?;
            let e = flat_expr(alloc, typed, bounds, e)?;
            put(out, cell(*at, name, index, e))
        }
        Stmt::Push(at, name, e) => {
            let e = flat_expr(alloc, typed, bounds, e)?;
            flat_push(alloc, typed, *at, name, e, out)
        }
        Stmt::If(at, test, a, b) => {
            let test = flat_expr(alloc, typed, bounds, test)?;
            let a = flat_block(alloc, typed, bounds, a)?;
            let b = flat_block(alloc, typed, bounds, b)?;
            put(out, choice(*at, test, a, b))
        }
        Stmt::For(at, names, lists, body) => {
            flat_loop(alloc, typed, bounds, *at, names, lists, body, out)
        }
        Stmt::Reject(at) => put(out, reject(*at)),
        Stmt::Report(at, number, values) => {
            let values = flat_exprs(alloc, typed, bounds, values)?;
            put(out, report(*at, *number, values))
        }
    }
}

/// What is done in place of a block.
#[cycle(flat_block)]
pub fn flat_block(
    alloc: Global,
    typed: &TypedProperty,
    bounds: &[Bound],
    block: &[Stmt],
) -> Result<Vec<Stmt>, AllocError>
    ensures { IfOk result (λ v. map stmt_of v.items ≡ flat_block (property_of typed.now).decls (block_of block.now) bounds.now) }
{
    let mut out = Vec::new(alloc);
    for s in block {
        flat_stmt(alloc, typed, bounds, s, &mut out)?;
    }
    Ok(out)
}
