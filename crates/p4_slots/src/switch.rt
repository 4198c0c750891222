//! A switch for every well-typed program.

ghost use Rattle.std.specs.Prelude.{◌≡◌, IfOk};
ghost use Rattle.p4_tree.specs.View.{program_of};
ghost use Rattle.p4_meaning.specs.Parts.{parts_of};
ghost use Rattle.p4_meaning.specs.Pass.{start_cells};
ghost use Rattle.p4_tables.specs.Programs.{IsStateOf};
ghost use Rattle.p4_slots.specs.Kinds.{place_for, program_in, registers_in, tables_in};

use crate::machine::SlotMachine;
use crate::place::SlotQueued;
use crate::plan::{Planned, plan_of};
use bit_values::Bits;
use p4_machine::{Entered, FrameBuf, Pass, Passed, Queued, Switch};
use p4_tables::{Entry, TableState};
use p4_types::TypedProgram;
use std::alloc::{AllocError, Global};

/// What runs a program: slots, or maps by name.
pub(crate) enum Kind {
    Slots(SlotMachine),
    Names(Switch),
}

impl Drop for Kind {
    fn drop(self) {
        match self {
            Kind::Slots(_machine) => {}
            Kind::Names(_switch) => {}
        }
    }
}

/// A switch that runs a well-typed program, over slots where the program has code that fits.
pub struct SlotSwitch {
    kind: Kind,
}

impl Drop for SlotSwitch {
    fn drop(self) {
        let SlotSwitch { kind: _kind } = self;
    }
}

/// What a packet waits in.
pub(crate) enum PlaceKind {
    Slots(SlotQueued),
    Names(Queued),
}

impl Drop for PlaceKind {
    fn drop(self) {
        match self {
            PlaceKind::Slots(_queued) => {}
            PlaceKind::Names(_queued) => {}
        }
    }
}

/// A place for a packet of such a switch.
pub struct SlotPlace {
    kind: PlaceKind,
}

impl Drop for SlotPlace {
    fn drop(self) {
        let SlotPlace { kind: _kind } = self;
    }
}

impl SlotSwitch {
    /// A switch that runs this program with these tables; its registers are 0.
    pub fn new(
        alloc: Global,
        program: TypedProgram,
        tables: TableState,
    ) -> Result<SlotSwitch, AllocError>
        requires { IsStateOf (program_of program) tables }
        ensures program { IfOk result (λ s. program_in s.kind ≡ program_of program) }
        ensures tables { IfOk result (λ s. tables_in s.kind ≡ tables) }
        ensures cells { IfOk result (λ s. registers_in s.kind ≡ start_cells (parts_of (program_of program)).registers) }
    {
        match plan_of(alloc, program)? {
            Planned::Slots(plan) => Ok(SlotSwitch {
                kind: Kind::Slots(SlotMachine::on(alloc, plan, tables)?),
            }),
            Planned::Names(program) => Ok(SlotSwitch {
                kind: Kind::Names(Switch::new(alloc, program, tables)?),
            }),
        }
    }

    /// Another switch that runs the program of this one, with these tables; its registers are 0. The
    /// program is neither copied nor made code of again.
    pub fn another(&self, alloc: Global, tables: TableState) -> Result<SlotSwitch, AllocError>
        requires { IsStateOf (program_in self.now.kind) tables }
        ensures program { IfOk result (λ s. program_in s.kind ≡ program_in self.now.kind) }
        ensures tables { IfOk result (λ s. tables_in s.kind ≡ tables) }
        ensures cells { IfOk result (λ s. registers_in s.kind ≡ start_cells (parts_of (program_in self.now.kind)).registers) }
    {
        match &self.kind {
            Kind::Slots(machine) => Ok(SlotSwitch {
                kind: Kind::Slots(machine.another(alloc, tables)?),
            }),
            Kind::Names(switch) => Ok(SlotSwitch {
                kind: Kind::Names(switch.another(alloc, tables)?),
            }),
        }
    }
}

impl Pass for SlotSwitch {
    type Place = SlotPlace;

    ghost place = { λ q. place_for q.kind };

    ghost program = { λ s. program_in s.kind };

    ghost tables = { λ s. tables_in s.kind };

    ghost cells = { λ s. registers_in s.kind };

    fn room(&self, alloc: Global, bytes: u32) -> Result<SlotPlace, AllocError> {
        match &self.kind {
            Kind::Slots(machine) => Ok(SlotPlace {
                kind: PlaceKind::Slots(machine.room(alloc, bytes)?),
            }),
            Kind::Names(switch) => Ok(SlotPlace {
                kind: PlaceKind::Names(switch.room(alloc, bytes)?),
            }),
        }
    }

    fn enter(
        &mut self,
        alloc: Global,
        port: u16,
        frame: &[u8],
        buf: &mut FrameBuf,
        q: &mut SlotPlace,
    ) -> Result<Entered, AllocError> {
        match &mut self.kind {
            Kind::Slots(machine) => match &mut q.kind {
                PlaceKind::Slots(q) => Ok(machine.enter(port, frame, buf, q)),
                PlaceKind::Names(_) => Err(AllocError),
            },
            Kind::Names(switch) => match &mut q.kind {
                PlaceKind::Slots(_) => Err(AllocError),
                PlaceKind::Names(q) => switch.enter(alloc, port, frame, buf, q),
            },
        }
    }

    fn leave(
        &mut self,
        alloc: Global,
        q: &mut SlotPlace,
        buf: &mut FrameBuf,
    ) -> Result<Passed, AllocError> {
        match &mut self.kind {
            Kind::Slots(machine) => match &mut q.kind {
                PlaceKind::Slots(q) => Ok(machine.leave(q, buf)),
                PlaceKind::Names(q) => {
                    q.clear();
                    Err(AllocError)
                }
            },
            Kind::Names(switch) => match &mut q.kind {
                PlaceKind::Slots(q) => {
                    q.clear();
                    Err(AllocError)
                }
                PlaceKind::Names(q) => switch.leave(alloc, q, buf),
            },
        }
    }

    fn pass(
        &mut self,
        alloc: Global,
        port: u16,
        frame: &[u8],
        buf: &mut FrameBuf,
    ) -> Result<Passed, AllocError> {
        match &mut self.kind {
            Kind::Slots(machine) => Ok(machine.pass(port, frame, buf)),
            Kind::Names(switch) => switch.pass(alloc, port, frame, buf),
        }
    }

    fn set_table(
        &mut self,
        alloc: Global,
        table: u32,
        list: Vec<Entry>,
        default: Option<(u32, Vec<Bits>)>,
    ) -> Result<(), AllocError> {
        match &mut self.kind {
            Kind::Slots(machine) => machine.set_table(alloc, table, list, default),
            Kind::Names(switch) => switch.set_table(alloc, table, list, default),
        }
    }

    fn cell(&self, register: u32, index: u32) -> Bits {
        match &self.kind {
            Kind::Slots(machine) => machine.cell(register, index),
            Kind::Names(switch) => switch.cell(register, index),
        }
    }
}
