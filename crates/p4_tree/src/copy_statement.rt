//! Copies of statements, with the same places.

ghost use Rattle.std.specs.Prelude.{◌≡◌, IfOk, map};
ghost use Rattle.p4_tree.specs.View.{arg_of, else_of, stmt_of};

use crate::copy_expression::{copy_exprs, copy_path, copy_start};
use crate::statement::{Arg, Stmt};
use std::alloc::{AllocError, Global};

impl Arg {
    /// An equal argument with the same places.
    pub fn copy(&self, alloc: Global) -> Result<Arg, AllocError>
        ensures { IfOk result (λ a. arg_of a ≡ arg_of self.now) }
    {
        match self {
            Arg::One(at, e) => Ok(Arg::One(*at, e.copy(alloc)?)),
            Arg::Many(at, list) => Ok(Arg::Many(*at, copy_exprs(alloc, list)?)),
        }
    }
}

fn copy_args(alloc: Global, args: &[Arg]) -> Result<Vec<Arg>, AllocError>
    ensures { IfOk result (λ v. map arg_of v.items ≡ map arg_of args.now) }
{
    let mut copies = Vec::with_capacity(alloc, args.len())?;
    for a in args {
        copies.push(a.copy(alloc)?)?;
    }
    Ok(copies)
}

impl Stmt {
    /// An equal statement with the same places.
    #[cycle(copy_stmt)]
    pub fn copy(&self, alloc: Global) -> Result<Stmt, AllocError>
        ensures { IfOk result (λ s. stmt_of s ≡ stmt_of self.now) }
    {
        match self {
            Stmt::Nothing(at) => Ok(Stmt::Nothing(*at)),
            Stmt::Block(at, body) => Ok(Stmt::Block(*at, copy_stmts(alloc, body)?)),
            Stmt::Var(at, ty, name, start) => {
                let ty = ty.copy(alloc)?;
                let name = name.copy(alloc)?;
                let start = copy_start(alloc, start)?;
                Ok(Stmt::Var(*at, ty, name, start))
            }
            Stmt::Assign(at, path, e) => {
                let path = copy_path(alloc, path)?;
                let e = e.copy(alloc)?;
                Ok(Stmt::Assign(*at, path, e))
            }
            Stmt::If(at, e, a, b) => {
                let e = e.copy(alloc)?;
                let a = Box::new(alloc, a.copy(alloc)?)?;
                let b = copy_else(alloc, b)?;
                Ok(Stmt::If(*at, e, a, b))
            }
            Stmt::Return(at) => Ok(Stmt::Return(*at)),
            Stmt::Exit(at) => Ok(Stmt::Exit(*at)),
            Stmt::Call(at, path, args) => {
                let path = copy_path(alloc, path)?;
                let args = copy_args(alloc, args)?;
                Ok(Stmt::Call(*at, path, args))
            }
        }
    }
}

#[cycle(copy_stmt)]
fn copy_else(alloc: Global, other: &Option<Box<Stmt>>) -> Result<Option<Box<Stmt>>, AllocError>
    ensures { IfOk result (λ o. else_of o ≡ else_of other.now) }
{
    match other {
        None => Ok(None),
        Some(s) => {
            let s = s.copy(alloc)?;
            Ok(Some(Box::new(alloc, s)?))
        }
    }
}

#[cycle(copy_stmt)]
pub(crate) fn copy_stmts(alloc: Global, list: &[Stmt]) -> Result<Vec<Stmt>, AllocError>
    ensures { IfOk result (λ v. map stmt_of v.items ≡ map stmt_of list.now) }
{
    let mut copies = Vec::with_capacity(alloc, list.len())?;
    for s in list {
        copies.push(s.copy(alloc)?)?;
    }
    Ok(copies)
}
