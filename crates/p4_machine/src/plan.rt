//! What switches of one program share.

ghost use Rattle.std.specs.Prelude.{◌≡◌, ◌<◌, IfOk, OnOk};
ghost use Rattle.p4_tree.specs.View.{program_of};
ghost use Rattle.p4_machine.specs.Kept.{IsPlan};

use p4_parts::{Parts, parts_of};
use p4_types::TypedProgram;
use std::alloc::{AllocError, Global};
use std::rc::Rc;

/// A program with its parts.
pub(crate) struct Plan {
    pub program: TypedProgram,
    pub parts: Parts,
}

impl Drop for Plan {
    fn drop(self) {
        let Plan {
            program: _program,
            parts: _parts,
        } = self;
    }
}

/// So many tables are numbered by 32 bits. No memory holds more.
fn few(count: usize) -> Result<(), AllocError>
    ensures { OnOk result (count < 4294967296) }
{
    match u32::try_from(count) {
        Ok(_) => Ok(()),
        Err(_) => Err(AllocError),
    }
}

/// The plan of a program.
pub(crate) fn plan_of(alloc: Global, program: TypedProgram) -> Result<Rc<Plan>, AllocError>
    ensures program { IfOk result (λ plan. program_of plan.value.program ≡ program_of program) }
    ensures plan { IfOk result (λ plan. IsPlan plan.value) }
{
    let parts = parts_of(alloc, program.program())?;
    few(parts.tables.len())?;
    Ok(Rc::new(alloc, Plan { program, parts })?)
}
