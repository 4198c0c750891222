//! What passages work in.

ghost use Rattle.std.specs.Prelude.{◌≡◌, ◌+◌, ◌≤◌, [], false, length, map, replicate, IfOk, vec_capacity};
ghost use Rattle.bit_values.specs.Widths.{sound_width};
ghost use Rattle.p4_tree.specs.View.{program_of};
ghost use Rattle.p4_meaning.specs.Parts.{parts_of};
ghost use Rattle.p4_meaning.specs.Pass.{start_cells, zero_cells};
ghost use Rattle.p4_parts.specs.PartsIn.{cells_decl};
ghost use Rattle.p4_statements.specs.Cells.{cells_in};
ghost use Rattle.slot_terms.specs.States.{state_of};
ghost use Rattle.slot_controls.specs.Callees.{AreWide, named_cells};
ghost use Rattle.slot_passages.specs.Laws.{HasSize};
ghost use Rattle.p4_slots.specs.SlotPlaces.{places_for};
ghost use Rattle.p4_slots.specs.Plans.{IsSlotPlan, code_in};

use crate::plan::SlotPlan;
use bit_values::{Bits, sound_width};
use p4_parts::Cells as Declared;
use p4_registers::Cells;
use slot_controls::Externs;
use slot_passages::Work;
use slot_terms::State;
use std::alloc::{AllocError, Global};

/// The cells of a register at the start. No memory holds as many as 32 bits don't count.
fn cells_before(alloc: Global, declared: &Declared) -> Result<Cells, AllocError>
    ensures { IfOk result (λ c. c ≡ zero_cells (sound_width declared.now.width) declared.now.count) }
{
    match u32::try_from(declared.count) {
        Ok(count) => Cells::new(alloc, sound_width(declared.width), count),
        Err(_) => Err(AllocError),
    }
}

/// The registers at the start, by their numbers.
fn registers_before(alloc: Global, list: &[Declared]) -> Result<Vec<Cells>, AllocError>
    ensures named { IfOk result (λ v. cells_in (named_cells (map cells_decl list.now) v.items) ≡ start_cells (map cells_decl list.now)) }
    ensures wide { IfOk result (λ v. AreWide (map cells_decl list.now) v.items) }
{
    let mut registers = Vec::new(alloc);
    for declared in list {
        registers.push(cells_before(alloc, declared)?)?;
    }
    Ok(registers)
}

/// So many zeros.
fn zeros(alloc: Global, count: usize) -> Result<Vec<u128>, AllocError>
    ensures { IfOk result (λ v. length v.items ≡ count) }
{
    let mut all = Vec::with_capacity(alloc, count)?;
    all.resize(count, 0)?;
    Ok(all)
}

/// So many flags, none of which is set.
fn flags(alloc: Global, count: usize) -> Result<Vec<bool>, AllocError>
    ensures { IfOk result (λ v. length v.items ≡ count) }
{
    let mut all = Vec::with_capacity(alloc, count)?;
    all.resize(count, false)?;
    Ok(all)
}

/// So many words.
fn words(alloc: Global, count: usize) -> Result<Vec<Bits>, AllocError>
    ensures { IfOk result (λ v. length v.items ≡ count) }
{
    let mut all = Vec::with_capacity(alloc, count)?;
    all.resize(count, Bits::default())?;
    Ok(all)
}

/// So many bytes.
pub(crate) fn bytes(alloc: Global, count: usize) -> Result<Vec<u8>, AllocError>
    ensures { IfOk result (λ v. length v.items ≡ count) }
{
    let mut all = Vec::with_capacity(alloc, count)?;
    all.resize(count, 0)?;
    Ok(all)
}

/// The slots of a program.
pub(crate) fn empty_state(alloc: Global, plan: &SlotPlan) -> Result<State, AllocError>
    requires { IsSlotPlan plan.now }
    ensures { IfOk result (λ s. HasSize (places_for (parts_of (program_of plan.now.program))) (state_of s)) }
{
    let slots = zeros(alloc, plan.coded.places.size as usize)?;
    let valid = flags(alloc, plan.coded.places.headers.len())?;
    Ok(State { slots, valid })
}

/// Room for a passage: a flag for each state of the parser, and the words of a table's keys.
pub(crate) fn work_for(alloc: Global, plan: &SlotPlan) -> Result<Work, AllocError>
    ensures flags { IfOk result (λ w. length w.passed.items ≡ length (code_in plan.now).parser.states) }
    ensures keys { IfOk result (λ w. length w.keys.items ≡ plan.now.coded.keys) }
{
    let passed = flags(alloc, plan.coded.code.parser.states.len())?;
    let keys = words(alloc, plan.coded.keys)?;
    Ok(Work { passed, keys })
}

/// Registers whose cells are 0, and room for the most digests of a passage.
pub(crate) fn externs_for(alloc: Global, plan: &SlotPlan) -> Result<Externs, AllocError>
    requires { IsSlotPlan plan.now }
    ensures cells { IfOk result (λ x. cells_in (named_cells (parts_of (program_of plan.now.program)).registers x.registers.items) ≡ start_cells (parts_of (program_of plan.now.program)).registers) }
    ensures wide { IfOk result (λ x. AreWide (parts_of (program_of plan.now.program)).registers x.registers.items) }
    ensures none { IfOk result (λ x. x.digests.items ≡ []) }
    ensures digests { IfOk result (λ x. plan.now.most_digests ≤ vec_capacity x.digests) }
{
    let registers = registers_before(alloc, &plan.parts.registers)?;
    let digests = Vec::with_capacity(alloc, plan.most_digests as usize)?;
    Ok(Externs { registers, digests })
}
