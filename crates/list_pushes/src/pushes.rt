//! Pushes.

ghost use Rattle.std.specs.Prelude.{◌≡◌, ◌++◌, IfOk, OnOk, map};
ghost use Rattle.indus_tree.specs.Tree.{assign, choice, done};
ghost use Rattle.indus_tree.specs.View.{expr_of, stmt_of};
ghost use Rattle.list_pushes.specs.Pushes.{clear, count_more, move, moves, nothing, only, push_to, pushed};

use crate::names::{count_name, item_name};
use crate::terms::{binary, byte, count, item};
use indus_tree::{Expr, Op, Stmt, Ty};
use lex_text::{Literal, Name};
use std::alloc::{AllocError, Global};

/// An assignment under a test.
fn guarded(alloc: Global, at: u32, test: Expr, name: Name, value: Expr) -> Result<Stmt, AllocError>
    ensures { IfOk result (λ s. stmt_of s ≡ choice at (expr_of test) (only (assign at name (expr_of value))) done) }
{
    let mut body = Vec::new(alloc);
    body.push(Stmt::Assign(at, name, value))?;
    Ok(Stmt::If(at, test, body, Vec::new(alloc)))
}

/// Moves the last place's value to a place, where the count is its number.
fn move_to(alloc: Global, at: u32, list: usize, last: u8, place: u8) -> Result<Stmt, AllocError>
    ensures { IfOk result (λ s. stmt_of s ≡ move at list last place) }
{
    let count = count(alloc, at, list)?;
    let test = binary(alloc, at, Op::Equal, count, byte(at, place))?;
    let value = item(alloc, at, list, last)?;
    guarded(alloc, at, test, item_name(alloc, list, place)?, value)
}

/// Moves the last place's value to the place whose number the count is.
fn moves(
    alloc: Global,
    at: u32,
    list: usize,
    last: u8,
    out: &mut Vec<Stmt>,
) -> Result<(), AllocError>
    ensures { OnOk result (map stmt_of out.new.items ≡ map stmt_of out.old.items ++ moves at list last last) }
{
    for place in 0..last {
        out.push(move_to(alloc, at, list, last, place)?)?;
    }
    Ok(())
}

/// 0 or false.
fn nothing(at: u32, ty: Ty) -> Expr
    ensures { expr_of result ≡ nothing at ty }
{
    match ty {
        Ty::Bit(width) => Expr::Num(at, Literal { width, value: 0 }),
        Ty::Bool => Expr::Flag(at, false),
    }
}

/// Empties the last place, where the new item stands in another.
fn clear(alloc: Global, at: u32, list: usize, last: u8, ty: Ty) -> Result<Stmt, AllocError>
    ensures { IfOk result (λ s. stmt_of s ≡ clear at list last ty) }
{
    let count = count(alloc, at, list)?;
    let test = binary(alloc, at, Op::Less, count, byte(at, last))?;
    guarded(
        alloc,
        at,
        test,
        item_name(alloc, list, last)?,
        nothing(at, ty),
    )
}

/// Counts one more item.
fn count_more(alloc: Global, at: u32, list: usize) -> Result<Stmt, AllocError>
    ensures { IfOk result (λ s. stmt_of s ≡ count_more at list) }
{
    let count = count(alloc, at, list)?;
    let more = binary(alloc, at, Op::Add, count, byte(at, 1))?;
    Ok(Stmt::Assign(at, count_name(alloc, list)?, more))
}

/// What a push does where there is room.
fn pushed(
    alloc: Global,
    at: u32,
    value: Expr,
    list: usize,
    last: u8,
    ty: Ty,
) -> Result<Vec<Stmt>, AllocError>
    ensures { IfOk result (λ v. map stmt_of v.items ≡ pushed at (expr_of value) list last ty) }
{
    let mut body = Vec::new(alloc);
    body.push(Stmt::Assign(at, item_name(alloc, list, last)?, value))?;
    moves(alloc, at, list, last, &mut body)?;
    body.push(clear(alloc, at, list, last, ty)?)?;
    body.push(count_more(alloc, at, list)?)?;
    Ok(body)
}

/// A push onto a list of at most so many items of a type.
pub fn push_to(
    alloc: Global,
    at: u32,
    value: Expr,
    list: usize,
    size: u8,
    ty: Ty,
    out: &mut Vec<Stmt>,
) -> Result<(), AllocError>
    ensures { OnOk result (map stmt_of out.new.items ≡ map stmt_of out.old.items ++ push_to at (expr_of value) list size ty) }
{
    if size > 0 {
        let count = count(alloc, at, list)?;
        let test = binary(alloc, at, Op::Less, count, byte(at, size))?;
        let body = pushed(alloc, at, value, list, size - 1, ty)?;
        out.push(Stmt::If(at, test, body, Vec::new(alloc)))?;
    }
    Ok(())
}
