//! What makes the switches of a run, and plain switches.

ghost use Rattle.std.specs.Prelude.{◌≡◌, IfOk};
ghost use Rattle.p4_tree.specs.View.{program_of};
ghost use Rattle.p4_meaning.specs.Parts.{parts_of};
ghost use Rattle.p4_meaning.specs.Pass.{start_cells};
ghost use Rattle.p4_printer.specs.CanSpell.{CanSpell};
ghost use Rattle.p4_tables.specs.Programs.{IsStateOf};

use p4_machine::{Pass, Switch};
use p4_tables::TableState;
use p4_types::TypedProgram;
use std::alloc::{AllocError, Global};

/// What makes switches of programs.
pub trait Bench {
    /// What runs a program.
    type Unit: Pass + Drop;

    /// A switch that runs a program, which some tokens spell, with these tables. The cells of its registers
    /// are 0.
    ///
    /// # Errors
    ///
    /// `AllocError` where memory runs out.
    fn build(
        &mut self,
        alloc: Global,
        program: TypedProgram,
        tables: TableState,
    ) -> Result<Self::Unit, AllocError>
        requires tables { IsStateOf (program_of program) tables }
        requires spelled { CanSpell (program_of program) }
        ensures program { IfOk result (λ u. Self.Unit.program u ≡ program_of program) }
        ensures tables { IfOk result (λ u. Self.Unit.tables u ≡ tables) }
        ensures cells { IfOk result (λ u. Self.Unit.cells u ≡ start_cells (parts_of (program_of program)).registers) };

    /// Another switch that runs the program of a unit, with these tables, as `build` makes it: units of one
    /// program may share what they have in common.
    ///
    /// # Errors
    ///
    /// `AllocError` where memory runs out.
    fn another(
        &mut self,
        alloc: Global,
        unit: &Self::Unit,
        program: &TypedProgram,
        tables: TableState,
    ) -> Result<Self::Unit, AllocError>
        requires runs { Self.Unit.program unit.now ≡ program_of program.now }
        requires tables { IsStateOf (program_of program.now) tables }
        requires spelled { CanSpell (program_of program.now) }
        ensures program { IfOk result (λ u. Self.Unit.program u ≡ program_of program.now) }
        ensures tables { IfOk result (λ u. Self.Unit.tables u ≡ tables) }
        ensures cells { IfOk result (λ u. Self.Unit.cells u ≡ start_cells (parts_of (program_of program.now)).registers) }
    {
        let _unit = unit;
        self.build(alloc, program.copy(alloc)?, tables)
    }
}

/// A bench of plain switches.
#[derive(Clone, Copy, Debug)]
pub struct SwitchBench;

impl Bench for SwitchBench {
    type Unit = Switch;

    fn build(
        &mut self,
        alloc: Global,
        program: TypedProgram,
        tables: TableState,
    ) -> Result<Switch, AllocError> {
        Switch::new(alloc, program, tables)
    }

    fn another(
        &mut self,
        alloc: Global,
        unit: &Switch,
        _program: &TypedProgram,
        tables: TableState,
    ) -> Result<Switch, AllocError> {
        unit.another(alloc, tables)
    }
}
