//! What switches of one program share.

ghost use Rattle.std.specs.Prelude.{◌≡◌, ◌+◌, true, IfOk, IfSome};
ghost use Rattle.p4_tree.specs.View.{program_of as tree_of};
ghost use Rattle.p4_meaning.specs.Parts.{parts_of};
ghost use Rattle.p4_rules.specs.Limits.{header_bytes, most_of_program};
ghost use Rattle.p4_rules.specs.ProgramRules.{program_scope};
ghost use Rattle.p4_parts.specs.PartsIn.{parts_in};
ghost use Rattle.slot_passages.specs.Codes.{control_of, program_of};
ghost use Rattle.slot_passages.specs.Room.{most_digests};
ghost use Rattle.p4_slots.specs.Plans.{FitsIn, IsCoded, IsPlanned, IsSlotPlan, digests_in};

use crate::size::is_small;
use p4_parts::{Parts, parts_of};
use p4_types::TypedProgram;
use slot_controls::most_digests;
use slot_deparsers::most_bits;
use slot_passages::{ControlCode, ProgramCode};
use slot_programs::{Coded, program_code};
use slot_terms::Fault;
use std::alloc::{AllocError, Global};
use std::rc::Rc;

/// A program with its parts, its code over slots, and what is counted of it.
pub(crate) struct SlotPlan {
    pub program: TypedProgram,
    pub parts: Parts,
    pub coded: Coded,
    pub header_bytes: u32,
    pub most_digests: u32,
}

impl Drop for SlotPlan {
    fn drop(self) {
        let SlotPlan {
            program: _program,
            parts: _parts,
            coded: _coded,
            header_bytes: _,
            most_digests: _,
        } = self;
    }
}

/// Two numbers together. What 64 bits do not count no memory holds: that is told as want of memory.
fn together(a: usize, b: usize) -> Result<usize, AllocError>
    ensures { IfOk result (λ n. n ≡ a + b) }
{
    match a.checked_add(b) {
        Some(n) => Ok(n),
        None => Err(AllocError),
    }
}

/// The most digests that a control gives.
fn control_digests(c: &ControlCode) -> Result<usize, AllocError>
    ensures { IfOk result (λ n. n ≡ most_digests (control_of c.now)) }
{
    together(most_digests(&c.settings)?, most_digests(&c.body)?)
}

/// The most digests that a passage by this code gives.
fn digests_in(c: &ProgramCode) -> Result<usize, AllocError>
    ensures { IfOk result (λ n. n ≡ digests_in (program_of c.now)) }
{
    let before = together(control_digests(&c.verify)?, control_digests(&c.ingress)?)?;
    together(before, control_digests(&c.egress)?)
}

/// Whether a passage by this code gives so many digests at the most, and its deparser emits so many bytes at
/// the most, which are not too many for a frame.
fn fits(c: &ProgramCode, header_bytes: u32, most: u32) -> Result<bool, AllocError>
    ensures { IfOk result (λ b. b ≡ true → FitsIn (program_of c.now) header_bytes most) }
{
    let digests = digests_in(c)?;
    let bits = most_bits(&c.headers, &c.emits)?;
    Ok(
        digests <= most as usize
            && bits <= 8 * (header_bytes as usize)
            && header_bytes < 268_435_456,
    )
}

/// How many paths, actions and tables a program may have that is made code of: what makes code looks at all
/// of them for each name, so its time is bounded by this and by the length of the program's text.
const MOST_NAMES: usize = 512;

/// How many registers such a program may have: a cell that is asked for is looked for by its register's name.
const MOST_REGISTERS: usize = 64;

/// Whether a program has few paths, actions, tables and registers.
fn has_few_names(p: &Parts) -> bool {
    let mut paths = p.metadata.len();
    for header in &p.headers {
        if paths > MOST_NAMES || header.fields.len() > MOST_NAMES {
            return false;
        }
        paths += header.fields.len();
    }
    paths <= MOST_NAMES
        && p.actions.len() <= MOST_NAMES
        && p.tables.len() <= MOST_NAMES
        && p.registers.len() <= MOST_REGISTERS
}

/// The code of a program, where it has one, few names, and code that is not too much.
fn code_of(alloc: Global, p: &Parts) -> Result<Option<Coded>, AllocError>
    ensures { IfOk result (λ c. IfSome c (IsCoded (parts_in p.now))) }
{
    if !has_few_names(p) || !is_small(alloc, p)? {
        return Ok(None);
    }
    match program_code(alloc, p) {
        Ok(coded) => Ok(Some(coded)),
        Err(Fault::Unknown) => Ok(None),
        Err(Fault::NoMemory) => Err(AllocError),
    }
}

/// The code of a program, where it has one that fits.
fn fitting_code(
    alloc: Global,
    p: &Parts,
    header_bytes: u32,
    most: u32,
) -> Result<Option<Coded>, AllocError>
    ensures coded { IfOk result (λ c. IfSome c (IsCoded (parts_in p.now))) }
    ensures fits { IfOk result (λ c. IfSome c (λ x. FitsIn (program_of x.code) header_bytes most)) }
{
    match code_of(alloc, p)? {
        None => Ok(None),
        Some(coded) => {
            if fits(&coded.code, header_bytes, most)? {
                Ok(Some(coded))
            } else {
                Ok(None)
            }
        }
    }
}

/// The plan of a program whose code this is.
fn plan_with(program: TypedProgram, parts: Parts, coded: Coded) -> SlotPlan
    requires parts { parts_in parts ≡ parts_of (tree_of program) }
    requires coded { IsCoded (parts_in parts) coded }
    requires fits { FitsIn (program_of coded.code) (header_bytes (program_scope (tree_of program)) (tree_of program)) (most_of_program (tree_of program)) }
    ensures plan { IsSlotPlan result }
    ensures program { result.program ≡ program }
{
    let header_bytes = program.header_bytes();
    let most_digests = program.digest_bound();
    SlotPlan {
        program,
        parts,
        coded,
        header_bytes,
        most_digests,
    }
}

/// What becomes of a program: a plan, where it has code over slots that fits; or else the program itself.
#[derive(Drop)]
pub(crate) enum Planned {
    Slots(Rc<SlotPlan>),
    Names(TypedProgram),
}

/// The plan of a program.
pub(crate) fn plan_of(alloc: Global, program: TypedProgram) -> Result<Planned, AllocError>
    ensures { IfOk result (IsPlanned program) }
{
    let parts = parts_of(alloc, program.program())?;
    match fitting_code(
        alloc,
        &parts,
        program.header_bytes(),
        program.digest_bound(),
    )? {
        None => Ok(Planned::Names(program)),
        Some(coded) => Ok(Planned::Slots(Rc::new(alloc, plan_with(program, parts, coded))?)),
    }
}
