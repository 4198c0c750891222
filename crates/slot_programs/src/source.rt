//! A program as its controls are compiled.

ghost use Rattle.std.specs.Prelude.{◌≡◌, map};
ghost use Rattle.p4_parts.specs.PartsIn.{cells_decl, parts_in};
ghost use Rattle.slot_controls.specs.Steps.{slots_of};
ghost use Rattle.slot_control_codes.specs.Callees.{bare_of, callees_of};
ghost use Rattle.slot_programs.specs.Sight.{bare_callees, header_slots, program_callees};

use p4_parts::{Cells, Parts};
use slot_control_codes::{Bare, Callees};
use slot_controls::HeaderSlots;

/// A program, and the slots of its headers' fields.
#[derive(Clone, Copy)]
pub(crate) struct Source<'a> {
    pub parts: &'a Parts,
    pub headers: &'a [HeaderSlots],
    pub ghost slots: { map slots_of headers.now ≡ header_slots (parts_in parts.now) },
}

impl<'a> Source<'a> {
    /// What calls stand for where no action is called and no table applied, with these registers.
    pub fn bare(&self, registers: &'a [Cells]) -> Bare<'a>
        ensures { bare_of result ≡ bare_callees (parts_in self.now.parts.now) (map cells_decl registers.now) }
    {
        Bare {
            registers,
            headers: self.headers,
        }
    }

    /// What calls stand for in ingress and egress.
    pub fn callees(&self) -> Callees<'a>
        ensures { callees_of result ≡ program_callees (parts_in self.now.parts.now) }
    {
        Callees {
            actions: &self.parts.actions,
            tables: &self.parts.tables,
            registers: &self.parts.registers,
            headers: self.headers,
        }
    }
}
