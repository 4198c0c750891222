//! Expressions over counts and items.

ghost use Rattle.std.specs.Prelude.{◌≡◌, IfOk};
ghost use Rattle.indus_tree.specs.Tree.{binary, read};
ghost use Rattle.indus_tree.specs.View.{expr_of};
ghost use Rattle.list_pushes.specs.Names.{count_name, item_name};
ghost use Rattle.list_pushes.specs.Pushes.{byte};

use crate::names::{count_name, item_name};
use indus_tree::{Expr, Op};
use lex_text::Literal;
use std::alloc::{AllocError, Global};

/// An operator with its operands.
pub fn binary(alloc: Global, at: u32, op: Op, a: Expr, b: Expr) -> Result<Expr, AllocError>
    ensures { IfOk result (λ e. expr_of e ≡ binary at op (expr_of a) (expr_of b)) }
{
    Ok(Expr::Bin(at, op, Box::new(alloc, a)?, Box::new(alloc, b)?))
}

/// A number of 8 bits.
pub fn byte(at: u32, n: u8) -> Expr
    ensures { expr_of result ≡ byte at n }
{
    Expr::Num(
        at,
        Literal {
            width: 8,
            value: u128::from(n),
        },
    )
}

/// The count of a list.
pub fn count(alloc: Global, at: u32, list: usize) -> Result<Expr, AllocError>
    ensures { IfOk result (λ e. expr_of e ≡ read at (count_name list)) }
{
    Ok(Expr::Read(at, count_name(alloc, list)?))
}

/// The item at a place of a list.
pub fn item(alloc: Global, at: u32, list: usize, place: u8) -> Result<Expr, AllocError>
    ensures { IfOk result (λ e. expr_of e ≡ read at (item_name list place)) }
{
    Ok(Expr::Read(at, item_name(alloc, list, place)?))
}
