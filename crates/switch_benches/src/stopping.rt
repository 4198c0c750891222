//! A bench for tests: it keeps what it is handed, and one of its switches stops.

ghost use Rattle.p4_printer.specs.CanSpell.{CanSpell};
ghost use Rattle.p4_tree.specs.View.{program_of};
ghost use Rattle.p4_machine.specs.Buffers.{place_of};
ghost use Rattle.p4_statements.specs.Runs.{cells_in};

use crate::bench::Bench;
use bit_values::Bits;
use p4_machine::{Entered, FrameBuf, Pass, Passed, Queued, Switch};
use p4_printer::print_program;
use p4_tables::{Entry, TableState};
use p4_types::TypedProgram;
use std::alloc::{AllocError, Global};

/// A switch of which one entry answers want of memory, or none.
#[derive(Drop)]
pub struct StoppingSwitch {
    switch: Switch,
    /// How many entries come before that one.
    left: Option<u32>,
}

impl Pass for StoppingSwitch {
    type Place = Queued;

    ghost place = { place_of };

    ghost program = { λ s. program_of s.switch.program };

    ghost tables = { λ s. s.switch.tables };

    ghost cells = { λ s. cells_in s.switch.registers };

    fn room(&self, alloc: Global, bytes: u32) -> Result<Queued, AllocError> {
        self.switch.room(alloc, bytes)
    }

    fn enter(
        &mut self,
        alloc: Global,
        port: u16,
        frame: &[u8],
        buf: &mut FrameBuf,
        q: &mut Queued,
    ) -> Result<Entered, AllocError> {
        match self.left {
            Some(0) => return Err(AllocError),
            Some(left) => self.left = Some(left - 1),
            None => {}
        }
        self.switch.enter(alloc, port, frame, buf, q)
    }

    fn leave(
        &mut self,
        alloc: Global,
        q: &mut Queued,
        buf: &mut FrameBuf,
    ) -> Result<Passed, AllocError> {
        self.switch.leave(alloc, q, buf)
    }

    fn pass(
        &mut self,
        alloc: Global,
        port: u16,
        frame: &[u8],
        buf: &mut FrameBuf,
    ) -> Result<Passed, AllocError> {
        self.switch.pass(alloc, port, frame, buf)
    }

    fn set_table(
        &mut self,
        alloc: Global,
        table: u32,
        list: Vec<Entry>,
        default: Option<(u32, Vec<Bits>)>,
    ) -> Result<(), AllocError> {
        self.switch.set_table(alloc, table, list, default)
    }

    fn cell(&self, register: u32, index: u32) -> Bits {
        self.switch.cell(register, index)
    }
}

/// A bench that keeps the text of each program that it is handed, and of whose switches one stops, or none.
#[derive(Drop)]
pub struct StoppingBench {
    /// The texts of the programs that it was handed, in order.
    pub texts: Vec<String>,
    /// The number of a switch, counted from 0 as they are built, and the number of the entry there that answers
    /// want of memory, counted from 0.
    pub stop: Option<(usize, u32)>,
}

impl StoppingBench {
    /// Keeps the text of a program: how many entries of the switch that is built for it come before the one
    /// that answers want of memory.
    fn keep(&mut self, alloc: Global, program: &TypedProgram) -> Result<Option<u32>, AllocError>
        requires { CanSpell (program_of program.now) }
    {
        let left = match self.stop {
            Some((switch, entries)) if switch == self.texts.len() => Some(entries),
            _ => None,
        };
        self.texts.push(print_program(alloc, program.program())?)?;
        Ok(left)
    }
}

impl Bench for StoppingBench {
    type Unit = StoppingSwitch;

    fn build(
        &mut self,
        alloc: Global,
        program: TypedProgram,
        tables: TableState,
    ) -> Result<StoppingSwitch, AllocError> {
        let left = self.keep(alloc, &program)?;
        let switch = Switch::new(alloc, program, tables)?;
        Ok(StoppingSwitch { switch, left })
    }

    fn another(
        &mut self,
        alloc: Global,
        unit: &StoppingSwitch,
        program: &TypedProgram,
        tables: TableState,
    ) -> Result<StoppingSwitch, AllocError> {
        let left = self.keep(alloc, program)?;
        let switch = unit.switch.another(alloc, tables)?;
        Ok(StoppingSwitch { switch, left })
    }
}
