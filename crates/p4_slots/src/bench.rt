//! A bench of switches over slots.

use crate::switch::SlotSwitch;
use p4_tables::TableState;
use p4_types::TypedProgram;
use std::alloc::{AllocError, Global};
use switch_benches::Bench;

/// A bench whose switches run over slots.
#[derive(Clone, Copy, Debug)]
pub struct SlotBench;

impl Bench for SlotBench {
    type Unit = SlotSwitch;

    fn build(
        &mut self,
        alloc: Global,
        program: TypedProgram,
        tables: TableState,
    ) -> Result<SlotSwitch, AllocError> {
        SlotSwitch::new(alloc, program, tables)
    }

    fn another(
        &mut self,
        alloc: Global,
        unit: &SlotSwitch,
        _program: &TypedProgram,
        tables: TableState,
    ) -> Result<SlotSwitch, AllocError> {
        unit.another(alloc, tables)
    }
}
