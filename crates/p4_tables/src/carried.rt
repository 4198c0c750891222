//! The tables of a program with what those of another one hold.

ghost use Rattle.std.specs.Prelude.{◌≤◌, IfOk};
ghost use Rattle.p4_tree.specs.View.{program_of};
ghost use Rattle.p4_meaning.specs.Parts.{parts_of};
ghost use Rattle.p4_tables.specs.State.{entries_in};
ghost use Rattle.p4_tables.specs.Programs.{state_before, IsStateOf};
ghost use Rattle.p4_tables.specs.Carried.{AreRefilled, HoldsCarried, StandsIn};

use crate::carry::carry;
use crate::start::state_before;
use crate::state::TableState;
use p4_parts::{ActionTable, action_places, parts_of};
use p4_types::TypedProgram;
use std::alloc::{AllocError, Global};

impl TableState {
    /// The tables of the program `to`, from those of the program `from`. Each table that `from` has holds
    /// what it holds here, by the names of tables and actions; any other is empty, and has the default
    /// that is written. Each table of `from` is to stand in `to` under its name, as `stands_in` tells:
    /// then want of memory alone is a reason for an error.
    pub fn carried(
        &self,
        alloc: Global,
        from: &TypedProgram,
        to: &TypedProgram,
    ) -> Result<TableState, AllocError>
        requires state { IsStateOf (program_of from.now) self.now }
        requires stands { StandsIn (program_of from.now) (program_of to.now) }
        ensures state { IfOk result (λ t. IsStateOf (program_of to.now) t) }
        ensures held { IfOk result (λ t. HoldsCarried (program_of from.now) self.now
            (program_of to.now) t) }
        ensures refilled { IfOk result (λ t. AreRefilled (parts_of (program_of from.now)) self.now
            (parts_of (program_of to.now)) (state_before (program_of to.now)) t) }
        ensures few { IfOk result (λ t. entries_in t ≤ entries_in self.now) }
    {
        let parts = parts_of(alloc, from.program())?;
        let target = parts_of(alloc, to.program())?;
        let mut tables = state_before(alloc, to.program())?;
        let list = target.actions.as_slice();
        let places = action_places(alloc, list)?;
        let actions = ActionTable {
            actions: list,
            places: &places,
        };
        carry(alloc, &parts, self.tables(), &target, &actions, &mut tables)?;
        Ok(TableState::of(tables))
    }
}
