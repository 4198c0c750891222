//! Copies of what a program or a control declares, but for whole controls and parsers, with the same places.

ghost use Rattle.std.specs.Prelude.{◌≡◌, IfOk, map};
ghost use Rattle.std.specs.Option.{option_map};
ghost use Rattle.p4_tree.specs.View.{action_of, default_of, key_of, local_of, table_of};

use crate::copy_expression::{copy_exprs, copy_path, copy_start};
use crate::copy_statement::copy_stmts;
use crate::program::{Action, Local, Param, Register, Table};
use crate::statement::{Expr, PTy};
use lex_text::Name;
use std::alloc::{AllocError, Global};

impl Param {
    /// An equal parameter with the same place.
    pub fn copy(&self, alloc: Global) -> Result<Param, AllocError>
        ensures { IfOk result (λ p. p ≡ self.now) }
    {
        Ok(Param {
            at: self.at,
            way: self.way,
            ty: self.ty.copy(alloc)?,
            name: self.name.copy(alloc)?,
        })
    }
}

/// Equal parameters, with the same places.
pub fn copy_params(alloc: Global, list: &[Param]) -> Result<Vec<Param>, AllocError>
    ensures { IfOk result (λ v. v.items ≡ list.now) }
{
    let mut copies = Vec::with_capacity(alloc, list.len())?;
    for p in list {
        copies.push(p.copy(alloc)?)?;
    }
    Ok(copies)
}

impl Register {
    /// An equal register with the same place.
    pub fn copy(&self, alloc: Global) -> Result<Register, AllocError>
        ensures { IfOk result (λ r. r ≡ self.now) }
    {
        Ok(Register {
            at: self.at,
            ty: self.ty.copy(alloc)?,
            count: self.count,
            name: self.name.copy(alloc)?,
        })
    }
}

/// Equal fields of a header or struct, or parameters of an action: types with names.
pub fn copy_fields(alloc: Global, list: &[(PTy, Name)]) -> Result<Vec<(PTy, Name)>, AllocError>
    ensures { IfOk result (λ v. v.items ≡ list.now) }
{
    let mut copies = Vec::with_capacity(alloc, list.len())?;
    for field in list {
        copies.push(copy_field(alloc, field)?)?;
    }
    Ok(copies)
}

/// An equal field: a type with a name.
pub fn copy_field(alloc: Global, field: &(PTy, Name)) -> Result<(PTy, Name), AllocError>
    ensures { IfOk result (λ f. f ≡ field.now) }
{
    let ty = field.0.copy(alloc)?;
    let name = field.1.copy(alloc)?;
    Ok((ty, name))
}

impl Action {
    /// An equal action with the same places.
    pub fn copy(&self, alloc: Global) -> Result<Action, AllocError>
        ensures { IfOk result (λ a. action_of a ≡ action_of self.now) }
    {
        Ok(Action {
            at: self.at,
            name: self.name.copy(alloc)?,
            params: copy_fields(alloc, &self.params)?,
            body: copy_stmts(alloc, &self.body)?,
        })
    }
}

fn copy_key(alloc: Global, key: &(Expr, Name)) -> Result<(Expr, Name), AllocError>
    ensures { IfOk result (λ k. key_of k ≡ key_of key.now) }
{
    let e = key.0.copy(alloc)?;
    let kind = key.1.copy(alloc)?;
    Ok((e, kind))
}

fn copy_keys(alloc: Global, list: &[(Expr, Name)]) -> Result<Vec<(Expr, Name)>, AllocError>
    ensures { IfOk result (λ v. map key_of v.items ≡ map key_of list.now) }
{
    let mut copies = Vec::with_capacity(alloc, list.len())?;
    for key in list {
        copies.push(copy_key(alloc, key)?)?;
    }
    Ok(copies)
}

fn copy_default(
    alloc: Global,
    default: &Option<(Name, Vec<Expr>)>,
) -> Result<Option<(Name, Vec<Expr>)>, AllocError>
    ensures { IfOk result (λ d. option_map default_of d ≡ option_map default_of default.now) }
{
    match default {
        None => Ok(None),
        Some(d) => {
            let name = d.0.copy(alloc)?;
            let args = copy_exprs(alloc, &d.1)?;
            Ok(Some((name, args)))
        }
    }
}

impl Table {
    /// An equal table with the same places.
    pub fn copy(&self, alloc: Global) -> Result<Table, AllocError>
        ensures { IfOk result (λ t. table_of t ≡ table_of self.now) }
    {
        Ok(Table {
            at: self.at,
            name: self.name.copy(alloc)?,
            keys: copy_keys(alloc, &self.keys)?,
            actions: copy_path(alloc, &self.actions)?,
            default: copy_default(alloc, &self.default)?,
            fixed: self.fixed,
            size: self.size,
        })
    }
}

impl Local {
    /// An equal declaration with the same places.
    pub fn copy(&self, alloc: Global) -> Result<Local, AllocError>
        ensures { IfOk result (λ l. local_of l ≡ local_of self.now) }
    {
        match self {
            Local::Act(at, action) => Ok(Local::Act(*at, action.copy(alloc)?)),
            Local::Tab(at, table) => Ok(Local::Tab(*at, table.copy(alloc)?)),
            Local::Reg(at, register) => Ok(Local::Reg(*at, register.copy(alloc)?)),
            Local::Const(at, ty, name, e) => {
                let ty = ty.copy(alloc)?;
                let name = name.copy(alloc)?;
                let e = e.copy(alloc)?;
                Ok(Local::Const(*at, ty, name, e))
            }
            Local::Var(at, ty, name, start) => {
                let ty = ty.copy(alloc)?;
                let name = name.copy(alloc)?;
                let start = copy_start(alloc, start)?;
                Ok(Local::Var(*at, ty, name, start))
            }
        }
    }
}

pub(crate) fn copy_locals(alloc: Global, list: &[Local]) -> Result<Vec<Local>, AllocError>
    ensures { IfOk result (λ v. map local_of v.items ≡ map local_of list.now) }
{
    let mut copies = Vec::with_capacity(alloc, list.len())?;
    for l in list {
        copies.push(l.copy(alloc)?)?;
    }
    Ok(copies)
}
