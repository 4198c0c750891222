//! Copies of types and expressions, with the same places.

ghost use Rattle.std.specs.Prelude.{◌≡◌, IfOk, map};
ghost use Rattle.std.specs.Option.{option_map};
ghost use Rattle.p4_tree.specs.View.{expr_of};

use crate::statement::{Expr, PTy};
use lex_text::Name;
use std::alloc::{AllocError, Global};

impl PTy {
    /// An equal type.
    pub fn copy(&self, alloc: Global) -> Result<PTy, AllocError>
        ensures { IfOk result (λ t. t ≡ self.now) }
    {
        match self {
            PTy::Bit(width) => Ok(PTy::Bit(*width)),
            PTy::Bool => Ok(PTy::Bool),
            PTy::Named(name) => Ok(PTy::Named(name.copy(alloc)?)),
        }
    }
}

pub(crate) fn copy_path(alloc: Global, path: &[Name]) -> Result<Vec<Name>, AllocError>
    ensures { IfOk result (λ v. v.items ≡ path.now) }
{
    let mut copies = Vec::with_capacity(alloc, path.len())?;
    for name in path {
        copies.push(name.copy(alloc)?)?;
    }
    Ok(copies)
}

impl Expr {
    /// An equal expression with the same places.
    #[cycle(copy_expr)]
    pub fn copy(&self, alloc: Global) -> Result<Expr, AllocError>
        ensures { IfOk result (λ e. expr_of e ≡ expr_of self.now) }
    {
        match self {
            Expr::Num(at, n) => Ok(Expr::Num(*at, *n)),
            Expr::Flag(at, b) => Ok(Expr::Flag(*at, *b)),
            Expr::Path(at, path) => Ok(Expr::Path(*at, copy_path(alloc, path)?)),
            Expr::Valid(at, path) => Ok(Expr::Valid(*at, copy_path(alloc, path)?)),
            Expr::Applied(at, table, hit) => Ok(Expr::Applied(*at, table.copy(alloc)?, *hit)),
            Expr::ErrorName(at, name) => Ok(Expr::ErrorName(*at, name.copy(alloc)?)),
            Expr::Not(at, a) => Ok(Expr::Not(*at, copy_boxed(alloc, a)?)),
            Expr::Invert(at, a) => Ok(Expr::Invert(*at, copy_boxed(alloc, a)?)),
            Expr::Negate(at, a) => Ok(Expr::Negate(*at, copy_boxed(alloc, a)?)),
            Expr::Bin(at, op, a, b) => {
                let a = copy_boxed(alloc, a)?;
                let b = copy_boxed(alloc, b)?;
                Ok(Expr::Bin(*at, *op, a, b))
            }
            Expr::Choice(at, test, a, b) => {
                let test = copy_boxed(alloc, test)?;
                let a = copy_boxed(alloc, a)?;
                let b = copy_boxed(alloc, b)?;
                Ok(Expr::Choice(*at, test, a, b))
            }
            Expr::Slice(at, a, high, low) => {
                let a = copy_boxed(alloc, a)?;
                Ok(Expr::Slice(*at, a, *high, *low))
            }
            Expr::Cast(at, ty, a) => {
                let ty = ty.copy(alloc)?;
                let a = copy_boxed(alloc, a)?;
                Ok(Expr::Cast(*at, ty, a))
            }
        }
    }
}

#[cycle(copy_expr)]
fn copy_boxed(alloc: Global, e: &Box<Expr>) -> Result<Box<Expr>, AllocError>
    ensures { IfOk result (λ b. expr_of b.value ≡ expr_of e.now.value) }
{
    let copy = e.copy(alloc)?;
    Ok(Box::new(alloc, copy)?)
}

pub(crate) fn copy_exprs(alloc: Global, list: &[Expr]) -> Result<Vec<Expr>, AllocError>
    ensures { IfOk result (λ v. map expr_of v.items ≡ map expr_of list.now) }
{
    let mut copies = Vec::with_capacity(alloc, list.len())?;
    for e in list {
        copies.push(e.copy(alloc)?)?;
    }
    Ok(copies)
}

pub(crate) fn copy_start(alloc: Global, start: &Option<Expr>) -> Result<Option<Expr>, AllocError>
    ensures { IfOk result (λ o. option_map expr_of o ≡ option_map expr_of start.now) }
{
    match start {
        None => Ok(None),
        Some(e) => Ok(Some(e.copy(alloc)?)),
    }
}
