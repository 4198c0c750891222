//! The halves of a passage by a plan, as those of its program.

ghost use Rattle.std.specs.Prelude.{◌≡◌, ◌+◌, ◌*◌, ◌≤◌, [], length, drop, vec_len, vec_capacity, MatchOption};
ghost use Rattle.bit_values.specs.Bytes.{bits_of};
ghost use Rattle.p4_tree.specs.View.{program_of};
ghost use Rattle.p4_meaning.specs.Parts.{parts_of};
ghost use Rattle.p4_meaning.specs.Pass.{parts_leave};
ghost use Rattle.p4_tables.specs.Programs.{IsStateOf};
ghost use Rattle.p4_tables.specs.Named.{tables_in};
ghost use Rattle.p4_machine.specs.Passages.{entry_in};
ghost use Rattle.p4_machine.specs.Buffers.{goes_out};
ghost use Rattle.p4_machine.specs.declared.pass.Passed.TheVariants as passed;
ghost use Rattle.slot_terms.specs.States.{state_of};
ghost use Rattle.slot_controls.specs.Steps.{slot_run};
ghost use Rattle.slot_metadata.specs.Laws.{IsStored};
ghost use Rattle.slot_passages.specs.Room.{most_digests};
ghost use Rattle.slot_passages.specs.Halves.{entered_of};
ghost use Rattle.slot_passages.specs.Laws.{EntersAlike, LeavesAlike};
ghost use Rattle.p4_slots.specs.SlotPlaces.{places_for, queued_by};
ghost use Rattle.p4_slots.specs.Machines.{cells_by};
ghost use Rattle.p4_slots.specs.Plans.{IsSlotPlan, code_in};
ghost use Rattle.p4_slots.specs.Kept.{IsReady};

use crate::frames::put_out;
use crate::plan::SlotPlan;
use p4_machine::{FrameBuf, Passed};
use p4_tables::{TableState, actions_are_listed};
use slot_controls::Externs;
use slot_passages::laws::{entries_agree, exits_agree};
use slot_passages::{Work, enter, leave};
use slot_tables::SlotTables;
use slot_tables::laws::tables_choose;
use slot_terms::State;
use std::alloc::Global;

/// The entry half: from which bit of the frame on the parser left it, or `None` where the packet is
/// dropped.
pub(crate) fn go_in(
    plan: &SlotPlan,
    tables: &TableState,
    port: u16,
    frame: &[u8],
    w: &mut Work,
    s: &mut State,
    x: &mut Externs,
) -> Option<usize>
    requires plan { IsSlotPlan plan.now }
    requires tables { IsStateOf (program_of plan.now.program) tables.now }
    requires ready { IsReady plan.now w.old s.old x.old }
    requires short { length frame.now ≤ 65791 }
    ensures enters { EntersAlike (parts_of (program_of plan.now.program)) (places_for (parts_of (program_of plan.now.program)))
        (entered_of result (slot_run s.new x.new) frame.now)
        (entry_in (program_of plan.now.program) tables.now (cells_by plan.now.program x.old.registers.items) port frame.now) }
    ensures within { MatchOption result (Unit {0}) (λ i. i ≤ 8 * length frame.now) }
    ensures passed { length w.new.passed.items ≡ length w.old.passed.items }
    ensures keys { length w.new.keys.items ≡ length w.old.keys.items }
    ensures told { vec_len x.new.digests ≤ most_digests (code_in plan.now).verify + most_digests (code_in plan.now).ingress }
    ensures room { vec_capacity x.new.digests ≡ vec_capacity x.old.digests }
{
    entries_agree();
    tables_choose();
    actions_are_listed(tables);
    let tables = SlotTables { state: tables };
    enter(&tables, &plan.coded.code, port, frame, w, s, x)
}

/// The exit half of what waits in the slots, with a rest. The frame that goes out is written into the bytes,
/// and then comes into the buffer; it is empty where the packet is dropped.
pub(crate) fn go_out(
    alloc: Global,
    plan: &SlotPlan,
    tables: &TableState,
    rest: &[u8],
    skip: u8,
    w: &mut Work,
    s: &mut State,
    x: &mut Externs,
    bytes: &mut [u8],
    buf: &mut FrameBuf,
) -> Passed
    requires plan { IsSlotPlan plan.now }
    requires tables { IsStateOf (program_of plan.now.program) tables.now }
    requires ready { IsReady plan.now w.old s.old x.old }
    requires stored { IsStored (places_for (parts_of (program_of plan.now.program))) (state_of s.old) }
    requires few { skip ≤ 7 }
    requires short { length rest.now ≤ 65791 }
    requires bytes { length bytes.old ≡ plan.now.header_bytes + 65791 }
    requires empty { buf.old.frame ≡ [] }
    requires fits { buf.old.needs.header_bytes ≡ plan.now.header_bytes }
    ensures leaves { LeavesAlike (parts_of (program_of plan.now.program)) (places_for (parts_of (program_of plan.now.program)))
        (record { run = slot_run s.new x.new; going = goes_out result buf.new.frame })
        (parts_leave (parts_of (program_of plan.now.program)) (tables_in (parts_of (program_of plan.now.program)) tables.now) (cells_by plan.now.program x.old.registers.items)
        (queued_by plan.now.program (state_of s.old) (drop skip (bits_of rest.now)))) }
    ensures dropped { result ≡ passed.Dropped → buf.new.frame ≡ [] }
    ensures digests { buf.new.digests ≡ buf.old.digests }
    ensures needs { buf.new.needs ≡ buf.old.needs }
    ensures passed { length w.new.passed.items ≡ length w.old.passed.items }
    ensures keys { length w.new.keys.items ≡ length w.old.keys.items }
    ensures told { vec_len x.new.digests ≤ most_digests (code_in plan.now).egress }
    ensures room { vec_capacity x.new.digests ≡ vec_capacity x.old.digests }
{
    exits_agree();
    tables_choose();
    actions_are_listed(tables);
    let tables = SlotTables { state: tables };
    let out = leave(alloc, &tables, &plan.coded.code, rest, skip, w, s, x, bytes);
    put_out(buf, out, bytes)
}
