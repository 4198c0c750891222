//! Copies of trees, with the same places.

ghost use Rattle.std.specs.Prelude.{◌≡◌, IfOk, map};
ghost use Rattle.std.specs.Option.{option_map};
ghost use Rattle.indus_tree.specs.View.{decl_of, expr_of, property_of, shape_of, stmt_of};

use crate::tree::{Decl, DeclKind, Expr, Op, Property, Shape, Stmt, Ty};
use lex_text::Name;
use std::alloc::{AllocError, Global};

impl Ty {
    /// An equal type.
    pub fn copy(&self, _alloc: Global) -> Result<Ty, AllocError>
        ensures { IfOk result (λ t. t ≡ self.now) }
    {
        Ok(*self)
    }
}

impl DeclKind {
    /// An equal kind.
    pub fn copy(&self, _alloc: Global) -> Result<DeclKind, AllocError>
        ensures { IfOk result (λ k. k ≡ self.now) }
    {
        Ok(*self)
    }
}

impl Op {
    /// An equal operator.
    pub fn copy(&self, _alloc: Global) -> Result<Op, AllocError>
        ensures { IfOk result (λ o. o ≡ self.now) }
    {
        Ok(*self)
    }
}

impl Shape {
    /// An equal shape.
    pub fn copy(&self, alloc: Global) -> Result<Shape, AllocError>
        ensures { IfOk result (λ s. shape_of s ≡ shape_of self.now) }
    {
        match self {
            Shape::One(ty) => Ok(Shape::One(*ty)),
            Shape::List(ty, size) => Ok(Shape::List(*ty, *size)),
            Shape::SetOf(key) => Ok(Shape::SetOf(Vec::from_slice(alloc, key)?)),
            Shape::DictOf(key, ty) => Ok(Shape::DictOf(Vec::from_slice(alloc, key)?, *ty)),
        }
    }
}

impl Decl {
    /// An equal declaration with the same places.
    pub fn copy(&self, alloc: Global) -> Result<Decl, AllocError>
        ensures { IfOk result (λ d. decl_of d ≡ decl_of self.now) }
    {
        Ok(Decl {
            at: self.at,
            kind: self.kind,
            name: self.name.copy(alloc)?,
            shape: self.shape.copy(alloc)?,
            start: copy_start(alloc, &self.start)?,
            path: copy_names(alloc, &self.path)?,
            valid: self.valid,
        })
    }
}

fn copy_start(alloc: Global, start: &Option<Expr>) -> Result<Option<Expr>, AllocError>
    ensures { IfOk result (λ o. option_map expr_of o ≡ option_map expr_of start.now) }
{
    match start {
        None => Ok(None),
        Some(e) => Ok(Some(e.copy(alloc)?)),
    }
}

fn copy_names(alloc: Global, names: &[Name]) -> Result<Vec<Name>, AllocError>
    ensures { IfOk result (λ v. v.items ≡ names.now) }
{
    let mut copies = Vec::new(alloc);
    for name in names {
        copies.push(name.copy(alloc)?)?;
    }
    Ok(copies)
}

impl Expr {
    /// An equal expression with the same places.
    #[cycle(copy_expr)]
    pub fn copy(&self, alloc: Global) -> Result<Expr, AllocError>
        ensures { IfOk result (λ e. expr_of e ≡ expr_of self.now) }
    {
        match self {
            Expr::Num(at, n) => Ok(Expr::Num(*at, *n)),
            Expr::Flag(at, value) => Ok(Expr::Flag(*at, *value)),
            Expr::Read(at, name) => Ok(Expr::Read(*at, name.copy(alloc)?)),
            Expr::Length(at, name) => Ok(Expr::Length(*at, name.copy(alloc)?)),
            Expr::Index(at, name, key) => {
                let name = name.copy(alloc)?;
                let key = copy_all(alloc, key)?;
                Ok(Expr::Index(*at, name, key))
            }
            Expr::Member(at, key, name) => {
                let key = copy_all(alloc, key)?;
                let name = name.copy(alloc)?;
                Ok(Expr::Member(*at, key, name))
            }
            Expr::Not(at, a) => Ok(Expr::Not(*at, Box::new(alloc, a.copy(alloc)?)?)),
            Expr::Invert(at, a) => Ok(Expr::Invert(*at, Box::new(alloc, a.copy(alloc)?)?)),
            Expr::Bin(at, op, a, b) => {
                let a = Box::new(alloc, a.copy(alloc)?)?;
                let b = Box::new(alloc, b.copy(alloc)?)?;
                Ok(Expr::Bin(*at, *op, a, b))
            }
            Expr::Cast(at, width, a) => Ok(Expr::Cast(
                *at,
                *width,
                Box::new(alloc, a.copy(alloc)?)?,
            )),
        }
    }
}

#[cycle(copy_expr)]
fn copy_all(alloc: Global, all: &[Expr]) -> Result<Vec<Expr>, AllocError>
    ensures { IfOk result (λ v. map expr_of v.items ≡ map expr_of all.now) }
{
    let mut copies = Vec::new(alloc);
    for e in all {
        copies.push(e.copy(alloc)?)?;
    }
    Ok(copies)
}

/// Equal expressions with the same places.
fn copy_exprs(alloc: Global, all: &[Expr]) -> Result<Vec<Expr>, AllocError>
    ensures { IfOk result (λ v. map expr_of v.items ≡ map expr_of all.now) }
{
    copy_all(alloc, all)
}

impl Stmt {
    /// An equal statement with the same places.
    #[cycle(copy_stmt)]
    pub fn copy(&self, alloc: Global) -> Result<Stmt, AllocError>
        ensures { IfOk result (λ s. stmt_of s ≡ stmt_of self.now) }
    {
        match self {
            Stmt::Assign(at, name, e) => {
                let name = name.copy(alloc)?;
                let e = e.copy(alloc)?;
                Ok(Stmt::Assign(*at, name, e))
            }
            Stmt::Cell(at, name, index, e) => {
                let name = name.copy(alloc)?;
                let index = index.copy(alloc)?;
                let e = e.copy(alloc)?;
                Ok(Stmt::Cell(*at, name, index, e))
            }
            Stmt::Push(at, name, e) => {
                let name = name.copy(alloc)?;
                let e = e.copy(alloc)?;
                Ok(Stmt::Push(*at, name, e))
            }
            Stmt::If(at, e, a, b) => {
                let e = e.copy(alloc)?;
                let a = copy_block(alloc, a)?;
                let b = copy_block(alloc, b)?;
                Ok(Stmt::If(*at, e, a, b))
            }
            Stmt::For(at, names, lists, a) => {
                let names = copy_names(alloc, names)?;
                let lists = copy_names(alloc, lists)?;
                let a = copy_block(alloc, a)?;
                Ok(Stmt::For(*at, names, lists, a))
            }
            Stmt::Reject(at) => Ok(Stmt::Reject(*at)),
            Stmt::Report(at, number, values) => {
                Ok(Stmt::Report(*at, *number, copy_exprs(alloc, values)?))
            }
        }
    }
}

#[cycle(copy_stmt)]
fn copy_block(alloc: Global, block: &[Stmt]) -> Result<Vec<Stmt>, AllocError>
    ensures { IfOk result (λ v. map stmt_of v.items ≡ map stmt_of block.now) }
{
    let mut copies = Vec::new(alloc);
    for s in block {
        copies.push(s.copy(alloc)?)?;
    }
    Ok(copies)
}

impl Property {
    /// An equal property with the same places.
    pub fn copy(&self, alloc: Global) -> Result<Property, AllocError>
        ensures { IfOk result (λ p. property_of p ≡ property_of self.now) }
    {
        Ok(Property {
            at: self.at,
            edition: self.edition,
            decls: copy_decls(alloc, &self.decls)?,
            init: copy_block(alloc, &self.init)?,
            tele: copy_block(alloc, &self.tele)?,
            check: copy_block(alloc, &self.check)?,
        })
    }
}

fn copy_decls(alloc: Global, decls: &[Decl]) -> Result<Vec<Decl>, AllocError>
    ensures { IfOk result (λ v. map decl_of v.items ≡ map decl_of decls.now) }
{
    let mut copies = Vec::new(alloc);
    for d in decls {
        copies.push(d.copy(alloc)?)?;
    }
    Ok(copies)
}
