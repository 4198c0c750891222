//! A program that is well typed.

ghost use Rattle.std.specs.Prelude.{◌≡◌, IfErr, IfOk};
ghost use Rattle.p4_tree.specs.View.{program_of};
ghost use Rattle.p4_rules.specs.Limits.{header_bytes, most_of_program, cells};
ghost use Rattle.p4_rules.specs.ProgramRules.{program_scope, IsWellTyped};
ghost use Rattle.p4_types.specs.Faults.{HasCause};
ghost use Rattle.p4_types.specs.Constants.{constant_of};
ghost use Rattle.p4_types.specs.Counts.{AreCounts};
ghost use Rattle.p4_types.specs.Numbers.{tables, registers, actions, names, number_in};

use crate::constants::{Constants, constants_of};
use crate::fault::ProgramTypeFault;
use crate::numbers::{Numbering, Sort, numbering_of};
use bit_values::Bits;
use p4_rules::check_rules;
use p4_tree::Program;
use std::alloc::{AllocError, Global};
use std::marker::Model;

/// A program with tables of what it declares, and what is counted of it.
#[derive(Drop)]
struct Tabled {
    program: Program,
    tables: Numbering,
    registers: Numbering,
    actions: Numbering,
    constants: Constants,
    counts: Counts,
}

/// A program that breaks no rule. Contracts see it as the program.
pub struct TypedProgram {
    tabled: Box<Tabled>,
}

impl Drop for TypedProgram {
    fn drop(self) {
        let TypedProgram { tabled: _tabled } = self;
    }
}

impl Model for TypedProgram {
    ghost use Rattle.p4_tree.specs.declared.program.Program.{Program};
    ghost use Rattle.std.specs.Coded.{codes};
    ghost use Rattle.p4_tree.specs.contracts.statement.Expr as expr;
    ghost use Rattle.p4_tree.specs.contracts.statement.Stmt as stmt;
    ghost use Rattle.p4_types.specs.Typed.{IsTyped};

    ghost Value = { Program };

    ghost coded = { Prim.hlevel (codes, expr.the_row.coded, stmt.the_row.coded) };

    ghost view = { λ t. t.tabled.value.program };

    ghost invariant = { λ t. IsTyped t.tabled.value };
}

/// What is counted of a program: the bytes of all headers in the struct of headers, the most digests
/// that a passage gives, and the cells of all registers.
#[derive(Clone, Copy, Debug, Drop)]
pub struct Counts {
    pub header_bytes: u32,
    pub digest_bound: u32,
    pub cells: u64,
}

/// The program itself, exactly where it breaks no rule.
pub fn check_program(alloc: Global, program: Program) -> Result<TypedProgram, ProgramTypeFault>
    ensures ok { IfOk result (λ t. program_of t ≡ program_of program) }
    ensures typed { IfOk result (λ _. IsWellTyped (program_of program)) }
    ensures cause { IfErr result (HasCause (program_of program)) }
{
    let checked = check_rules(alloc, &program)?;
    match checked.first {
        Some((at, rule)) => Err(ProgramTypeFault::Type_ { at, rule }),
        None => {
            let counts = Counts {
                header_bytes: checked.header_bytes,
                digest_bound: checked.digest_bound,
                cells: checked.cells,
            };
            Ok(TypedProgram::known(alloc, program, counts)?)
        }
    }
}

impl TypedProgram {
    /// A program of which it is known that it breaks no rule, and what is counted of it. Nothing is
    /// tested.
    pub fn known(
        alloc: Global,
        program: Program,
        counts: Counts,
    ) -> Result<TypedProgram, AllocError>
        requires typed { IsWellTyped (program_of program) }
        requires counted { AreCounts (program_of program) counts }
        ensures { IfOk result (λ t. program_of t ≡ program_of program) }
    {
        let tables = numbering_of(alloc, Sort::Tables, &program)?;
        let registers = numbering_of(alloc, Sort::Registers, &program)?;
        let actions = numbering_of(alloc, Sort::Actions, &program)?;
        let constants = constants_of(alloc, &program)?;
        let tabled = Tabled {
            program,
            tables,
            registers,
            actions,
            constants,
            counts,
        };
        Ok(TypedProgram {
            tabled: Box::new(alloc, tabled)?,
        })
    }

    /// The program.
    pub fn program(&self) -> &Program
        ensures same { result.now ≡ self.now }
        ensures typed { IsWellTyped (program_of self.now) }
    {
        &self.tabled.program
    }

    /// The number of the table of a name: `Control.name`.
    pub fn table_number(&self, name: &str) -> Option<u32>
        ensures { result ≡ number_in (names tables (program_of self.now)) name.now }
    {
        self.tabled.tables.number(name)
    }

    /// The number of the register of a name: `Control.name`, or the plain name at top level.
    pub fn register_number(&self, name: &str) -> Option<u32>
        ensures { result ≡ number_in (names registers (program_of self.now)) name.now }
    {
        self.tabled.registers.number(name)
    }

    /// The number of the action of a name: `Control.name`, and `NoAction` behind all others.
    pub fn action_number(&self, name: &str) -> Option<u32>
        ensures { result ≡ number_in (names actions (program_of self.now)) name.now }
    {
        self.tabled.actions.number(name)
    }

    /// The word of the constant of a name at top level.
    pub fn constant(&self, name: &str) -> Option<Bits>
        ensures { result ≡ constant_of (program_of self.now) name.now }
    {
        self.tabled.constants.word(name)
    }

    /// The bytes of all headers in the struct of headers.
    pub fn header_bytes(&self) -> u32
        ensures { result
            ≡ header_bytes (program_scope (program_of self.now)) (program_of self.now) }
    {
        self.tabled.counts.header_bytes
    }

    /// The most digests that a passage gives.
    pub fn digest_bound(&self) -> u32
        ensures { result ≡ most_of_program (program_of self.now) }
    {
        self.tabled.counts.digest_bound
    }

    /// The cells of all registers.
    pub fn cells(&self) -> u64
        ensures { result ≡ cells (program_of self.now) }
    {
        self.tabled.counts.cells
    }

    /// What is counted of the program.
    pub fn counts(&self) -> Counts
        ensures { AreCounts (program_of self.now) result }
    {
        self.tabled.counts
    }

    /// An equal program with the same places.
    pub fn copy(&self, alloc: Global) -> Result<TypedProgram, AllocError>
        ensures { IfOk result (λ t. program_of t ≡ program_of self.now) }
    {
        let program = self.tabled.program.copy(alloc)?;
        TypedProgram::known(alloc, program, self.counts())
    }
}
