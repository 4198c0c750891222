//! Copies of controls and programs, with the same places.

ghost use Rattle.std.specs.Prelude.{◌≡◌, IfOk, map};
ghost use Rattle.p4_tree.specs.View.{control_of, program_of, top_of};

use crate::copy_declaration::{copy_fields, copy_locals, copy_params};
use crate::copy_expression::copy_path;
use crate::copy_statement::copy_stmts;
use crate::program::{Control, Program, Top};
use std::alloc::{AllocError, Global};

impl Control {
    /// An equal control with the same places.
    pub fn copy(&self, alloc: Global) -> Result<Control, AllocError>
        ensures { IfOk result (λ c. control_of c ≡ control_of self.now) }
    {
        Ok(Control {
            at: self.at,
            name: self.name.copy(alloc)?,
            params: copy_params(alloc, &self.params)?,
            locals: copy_locals(alloc, &self.locals)?,
            apply: copy_stmts(alloc, &self.apply)?,
        })
    }
}

impl Top {
    /// An equal declaration with the same places.
    pub fn copy(&self, alloc: Global) -> Result<Top, AllocError>
        ensures { IfOk result (λ t. top_of t ≡ top_of self.now) }
    {
        match self {
            Top::Const(at, ty, name, e) => {
                let ty = ty.copy(alloc)?;
                let name = name.copy(alloc)?;
                let e = e.copy(alloc)?;
                Ok(Top::Const(*at, ty, name, e))
            }
            Top::Typedef(at, ty, name) => {
                let ty = ty.copy(alloc)?;
                let name = name.copy(alloc)?;
                Ok(Top::Typedef(*at, ty, name))
            }
            Top::Header(at, name, fields) => {
                let name = name.copy(alloc)?;
                let fields = copy_fields(alloc, fields)?;
                Ok(Top::Header(*at, name, fields))
            }
            Top::Struct(at, name, fields) => {
                let name = name.copy(alloc)?;
                let fields = copy_fields(alloc, fields)?;
                Ok(Top::Struct(*at, name, fields))
            }
            Top::Reg(at, register) => Ok(Top::Reg(*at, register.copy(alloc)?)),
            Top::Pars(at, parser) => Ok(Top::Pars(*at, parser.copy(alloc)?)),
            Top::Ctl(at, control) => Ok(Top::Ctl(*at, control.copy(alloc)?)),
        }
    }
}

fn copy_tops(alloc: Global, list: &[Top]) -> Result<Vec<Top>, AllocError>
    ensures { IfOk result (λ v. map top_of v.items ≡ map top_of list.now) }
{
    let mut copies = Vec::with_capacity(alloc, list.len())?;
    for t in list {
        copies.push(t.copy(alloc)?)?;
    }
    Ok(copies)
}

impl Program {
    /// An equal program with the same places.
    pub fn copy(&self, alloc: Global) -> Result<Program, AllocError>
        ensures { IfOk result (λ p. program_of p ≡ program_of self.now) }
    {
        Ok(Program {
            at: self.at,
            tops: copy_tops(alloc, &self.tops)?,
            main: copy_path(alloc, &self.main)?,
        })
    }
}
