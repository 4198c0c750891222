//! What controls do.

ghost use Rattle.std.specs.Prelude.{◌≡◌, ◌+◌, ◌≤◌, length, vec_len, vec_capacity};
ghost use Rattle.slot_terms.specs.States.{state_of};
ghost use Rattle.slot_controls.specs.Steps.{slot_run};
ghost use Rattle.slot_passages.specs.Codes.{control_of, program_of};
ghost use Rattle.slot_passages.specs.Room.{most_digests, HasFewKeys};
ghost use Rattle.slot_passages.specs.Halves.{computed, run_control, run_entry};

use crate::codes::{ControlCode, ProgramCode};
use bit_values::Bits;
use slot_controls::{Externs, run_steps};
use slot_statements::{Flow, NumberedTables};
use slot_terms::State;
use std::alloc::Global;

/// A control: its variables are set, and its body runs.
pub(crate) fn run_control<T: NumberedTables>(
    tables: &T,
    c: &ControlCode,
    keys: &mut [Bits],
    s: &mut State,
    x: &mut Externs,
)
    requires few { HasFewKeys (length keys.old) (control_of c.now) }
    requires room { vec_len x.old.digests + most_digests (control_of c.now) ≤ vec_capacity x.old.digests }
    ensures runs { slot_run s.new x.new ≡ run_control (T.chosen tables.now) (control_of c.now) (slot_run s.old x.old) }
    ensures told { vec_len x.new.digests ≤ vec_len x.old.digests + most_digests (control_of c.now) }
    ensures room { vec_capacity x.new.digests ≡ vec_capacity x.old.digests }
{
    match run_steps(tables, &c.settings, keys, s, x) {
        Flow::Go => {
            let _ = run_steps(tables, &c.body, keys, s, x);
        }
        Flow::Return => {}
        Flow::Exit => {}
    }
}

/// Verify checksum and ingress.
pub(crate) fn run_entry<T: NumberedTables>(
    tables: &T,
    c: &ProgramCode,
    keys: &mut [Bits],
    s: &mut State,
    x: &mut Externs,
)
    requires verify { HasFewKeys (length keys.old) (program_of c.now).verify }
    requires ingress { HasFewKeys (length keys.old) (program_of c.now).ingress }
    requires room { vec_len x.old.digests + (most_digests (program_of c.now).verify + most_digests (program_of c.now).ingress) ≤ vec_capacity x.old.digests }
    ensures runs { slot_run s.new x.new ≡ run_entry (T.chosen tables.now) (program_of c.now) (slot_run s.old x.old) }
    ensures told { vec_len x.new.digests ≤ vec_len x.old.digests + (most_digests (program_of c.now).verify + most_digests (program_of c.now).ingress) }
    ensures room { vec_capacity x.new.digests ≡ vec_capacity x.old.digests }
{
    run_control(tables, &c.verify, keys, s, x);
    run_control(tables, &c.ingress, keys, s, x);
}

/// Compute checksum, in which no register is in sight, and which gives no digests.
pub(crate) fn compute<T: NumberedTables>(
    alloc: Global,
    tables: &T,
    c: &ProgramCode,
    keys: &mut [Bits],
    s: &mut State,
)
    requires few { HasFewKeys (length keys.old) (program_of c.now).compute }
    requires silent { most_digests (program_of c.now).compute ≡ 0 }
    ensures { state_of s.new ≡ computed (T.chosen tables.now) (program_of c.now) (state_of s.old) }
{
    let mut none = Externs {
        registers: Vec::new(alloc),
        digests: Vec::new(alloc),
    };
    run_control(tables, &c.compute, keys, s, &mut none);
}
