//! A switch that runs a well-typed program.

ghost use Rattle.std.specs.Prelude.{◌≡◌, ◌<◌, ◌≤◌, ◌++◌, [], true, None, length, map, slice_get, IfOk, OnOk};
ghost use Rattle.std.specs.Option.{option_map};
ghost use Rattle.p4_tree.specs.View.{program_of};
ghost use Rattle.p4_meaning.specs.Parts.{parts_of};
ghost use Rattle.p4_meaning.specs.Pass.{start_cells, parts_enter};
ghost use Rattle.p4_parts.specs.PartsIn.{cells_decl, parts_in};
ghost use Rattle.p4_statements.specs.Runs.{cells_in, digest_of};
ghost use Rattle.p4_passages.specs.Waiting.{gone_of, waiting_of};
ghost use Rattle.p4_tables.specs.Programs.{IsStateOf, shapes};
ghost use Rattle.p4_tables.specs.Named.{tables_in};
ghost use Rattle.p4_machine.specs.Kept.{IsPlan};
ghost use Rattle.p4_machine.specs.Loaded.{fits_in};
ghost use Rattle.p4_machine.specs.Passages.{name_or, exit_from};
ghost use Rattle.p4_machine.specs.Buffers.{goes_out, is_queued, is_some_packet, place_of};
ghost use Rattle.p4_machine.specs.declared.pass.Passed.TheVariants as passed;

use crate::buffer::FrameBuf;
use crate::loaded::Loaded;
use crate::pass::{Entered, Pass, Passed};
use crate::plan::{Plan, plan_of};
use crate::queued::Queued;
use bit_values::Bits;
use p4_parts::{Cells as Declared, Parts};
use p4_passages::{Gone, Waiting, enter, leave, start_cells};
use p4_statements::{Digest, Registers};
use p4_tables::{Entry, TableState};
use p4_types::TypedProgram;
use std::alloc::{AllocError, Global};
use std::marker::Model;
use std::mem;
use std::rc::Rc;

/// A switch that runs a well-typed program, on maps by name. Switches of one program share its plan.
pub struct Switch {
    plan: Rc<Plan>,
    registers: Registers,
    tables: TableState,
}

impl Drop for Switch {
    fn drop(self) {
        let Switch {
            plan: _plan,
            registers: _registers,
            tables: _tables,
        } = self;
    }
}

impl Model for Switch {
    ghost use Rattle.std.specs.Coded.{codes};
    ghost use Rattle.p4_tree.specs.contracts.statement.Expr as expr;
    ghost use Rattle.p4_tree.specs.contracts.statement.Stmt as stmt;
    ghost use Rattle.p4_machine.specs.State.{State, state_of};
    ghost use Rattle.p4_machine.specs.Kept.{IsSwitch};

    ghost Value = { State };

    ghost coded = { Prim.hlevel (codes, expr.the_row.coded, stmt.the_row.coded) };

    ghost view = { state_of };

    ghost invariant = { IsSwitch };
}

/// A packet comes to its place, or is dropped.
fn put(q: &mut Queued, waiting: Option<Waiting>) -> Entered
    ensures waiting { (place_of q.new).waiting ≡ option_map waiting_of waiting }
    ensures answer { is_queued result ≡ is_some_packet (place_of q.new).waiting }
    ensures program { (place_of q.new).program ≡ (place_of q.old).program }
    ensures room { (place_of q.new).room ≡ (place_of q.old).room }
{
    match waiting {
        Some(waiting) => {
            q.waiting = Some(waiting);
            Entered::Queued
        }
        None => {
            q.waiting = None;
            Entered::Dropped
        }
    }
}

/// Takes what waits from its place.
fn take(q: &mut Queued) -> Option<Waiting>
    ensures taken { option_map waiting_of result ≡ (place_of q.old).waiting }
    ensures empty { (place_of q.new).waiting ≡ None }
    ensures program { (place_of q.new).program ≡ (place_of q.old).program }
    ensures room { (place_of q.new).room ≡ (place_of q.old).room }
{
    mem::replace(&mut q.waiting, None)
}

/// A packet goes out by the buffer, or is dropped.
fn put_out(buf: &mut FrameBuf, gone: Gone) -> Passed
    requires { buf.old.frame ≡ [] }
    ensures out { goes_out result buf.new.frame ≡ gone_of gone }
    ensures dropped { result ≡ passed.Dropped → buf.new.frame ≡ [] }
    ensures digests { buf.new.digests ≡ buf.old.digests }
    ensures needs { buf.new.needs ≡ buf.old.needs }
{
    match gone {
        Gone::Dropped => Passed::Dropped,
        Gone::Out { port, frame } => {
            buf.take_frame(frame);
            Passed::Out { port }
        }
    }
}

/// The entry half; the digests go behind those that are there.
fn go_in(
    alloc: Global,
    p: &Parts,
    tables: &TableState,
    registers: &mut Registers,
    port: u16,
    frame: &[u8],
    told: &mut Vec<Digest>,
) -> Result<Option<Waiting>, AllocError>
    requires fits { fits_in (parts_in p.now).tables (shapes tables.now) ≡ true }
    requires short { length frame.now ≤ 65791 }
    ensures registers { OnOk result (cells_in registers.new ≡ (parts_enter (parts_in p.now)
        (tables_in (parts_in p.now) tables.now) (cells_in registers.old) port frame.now).registers) }
    ensures told { OnOk result (map digest_of told.new.items ≡ map digest_of told.old.items ++ (parts_enter (parts_in p.now)
        (tables_in (parts_in p.now) tables.now) (cells_in registers.old) port frame.now).digests) }
    ensures queued { IfOk result (λ q. option_map waiting_of q ≡ (parts_enter (parts_in p.now)
        (tables_in (parts_in p.now) tables.now) (cells_in registers.old) port frame.now).queued) }
{
    let tables = Loaded { state: tables };
    enter(alloc, p, &tables, registers, port, frame, told)
}

/// The exit half of what may wait; the digests go behind those that are there.
fn go_out(
    alloc: Global,
    p: &Parts,
    tables: &TableState,
    registers: &mut Registers,
    waiting: Option<Waiting>,
    buf: &mut FrameBuf,
    told: &mut Vec<Digest>,
) -> Result<Passed, AllocError>
    requires fits { fits_in (parts_in p.now).tables (shapes tables.now) ≡ true }
    requires empty { buf.old.frame ≡ [] }
    ensures registers { OnOk result (cells_in registers.new ≡ (exit_from (parts_in p.now) (tables_in
        (parts_in p.now) tables.now) (cells_in registers.old) (map digest_of told.old.items) (option_map waiting_of waiting)).registers) }
    ensures out { IfOk result (λ x. goes_out x buf.new.frame ≡ (exit_from (parts_in p.now) (tables_in
        (parts_in p.now) tables.now) (cells_in registers.old) (map digest_of told.old.items) (option_map waiting_of waiting)).out) }
    ensures told { OnOk result (map digest_of told.new.items ≡ (exit_from (parts_in p.now) (tables_in
        (parts_in p.now) tables.now) (cells_in registers.old) (map digest_of told.old.items) (option_map waiting_of waiting)).digests) }
    ensures dropped { IfOk result (λ x. x ≡ passed.Dropped → buf.new.frame ≡ []) }
    ensures needs { buf.new.needs ≡ buf.old.needs }
{
    match waiting {
        None => Ok(Passed::Dropped),
        Some(waiting) => {
            let tables = Loaded { state: tables };
            let gone = leave(alloc, p, &tables, registers, waiting, told)?;
            Ok(put_out(buf, gone))
        }
    }
}

/// The full name of the register of a number; nothing where there is none.
fn register_name(declared: &[Declared], number: u32) -> &str
    ensures { result.now ≡ name_or (slice_get (map cells_decl declared.now) number) }
{
    match declared.get(number as usize) {
        Some(cells) => cells.name.as_str(),
        None => "",
    }
}

impl Switch {
    /// A switch on a plan; its registers are 0.
    fn on(alloc: Global, plan: Rc<Plan>, tables: TableState) -> Result<Switch, AllocError>
        requires plan { IsPlan plan.value }
        requires tables { IsStateOf (program_of plan.value.program) tables }
        ensures program { IfOk result (λ s. program_of s.program ≡ program_of plan.value.program) }
        ensures tables { IfOk result (λ s. s.tables ≡ tables) }
        ensures cells { IfOk result (λ s. cells_in s.registers
            ≡ start_cells (parts_of (program_of plan.value.program)).registers) }
    {
        let registers = start_cells(alloc, &plan.as_ref().parts.registers)?;
        Ok(Switch {
            plan,
            registers,
            tables,
        })
    }

    /// A switch that runs this program with these tables; its registers are 0.
    pub fn new(
        alloc: Global,
        program: TypedProgram,
        tables: TableState,
    ) -> Result<Switch, AllocError>
        requires { IsStateOf (program_of program) tables }
        ensures program { IfOk result (λ s. program_of s.program ≡ program_of program) }
        ensures tables { IfOk result (λ s. s.tables ≡ tables) }
        ensures cells { IfOk result (λ s. cells_in s.registers
            ≡ start_cells (parts_of (program_of program)).registers) }
    {
        Switch::on(alloc, plan_of(alloc, program)?, tables)
    }

    /// Another switch that runs the program of this one, with these tables; its registers are 0. The
    /// program is neither copied nor taken apart again.
    pub fn another(&self, alloc: Global, tables: TableState) -> Result<Switch, AllocError>
        requires { IsStateOf (program_of self.now.program) tables }
        ensures program { IfOk result (λ s. program_of s.program ≡ program_of self.now.program) }
        ensures tables { IfOk result (λ s. s.tables ≡ tables) }
        ensures cells { IfOk result (λ s. cells_in s.registers
            ≡ start_cells (parts_of (program_of self.now.program)).registers) }
    {
        Switch::on(alloc, self.plan.clone()?, tables)
    }
}

impl Pass for Switch {
    type Place = Queued;

    ghost place = { place_of };

    ghost program = { λ s. program_of s.program };

    ghost tables = { λ s. s.tables };

    ghost cells = { λ s. cells_in s.registers };

    fn room(&self, _alloc: Global, bytes: u32) -> Result<Queued, AllocError> {
        Ok(Queued::new(self.plan.clone()?, bytes))
    }

    fn enter(
        &mut self,
        alloc: Global,
        port: u16,
        frame: &[u8],
        buf: &mut FrameBuf,
        q: &mut Queued,
    ) -> Result<Entered, AllocError> {
        let plan = self.plan.as_ref();
        buf.clear();
        let mut told = Vec::new(alloc);
        let waiting = go_in(
            alloc,
            &plan.parts,
            &self.tables,
            &mut self.registers,
            port,
            frame,
            &mut told,
        )?;
        buf.take_digests(told);
        Ok(put(q, waiting))
    }

    fn leave(
        &mut self,
        alloc: Global,
        q: &mut Queued,
        buf: &mut FrameBuf,
    ) -> Result<Passed, AllocError> {
        let plan = self.plan.as_ref();
        buf.clear();
        let waiting = take(q);
        let mut told = Vec::new(alloc);
        let passed = go_out(
            alloc,
            &plan.parts,
            &self.tables,
            &mut self.registers,
            waiting,
            buf,
            &mut told,
        )?;
        buf.take_digests(told);
        Ok(passed)
    }

    fn pass(
        &mut self,
        alloc: Global,
        port: u16,
        frame: &[u8],
        buf: &mut FrameBuf,
    ) -> Result<Passed, AllocError> {
        let plan = self.plan.as_ref();
        buf.clear();
        let mut told = Vec::new(alloc);
        let waiting = go_in(
            alloc,
            &plan.parts,
            &self.tables,
            &mut self.registers,
            port,
            frame,
            &mut told,
        )?;
        let passed = go_out(
            alloc,
            &plan.parts,
            &self.tables,
            &mut self.registers,
            waiting,
            buf,
            &mut told,
        )?;
        buf.take_digests(told);
        Ok(passed)
    }

    fn set_table(
        &mut self,
        alloc: Global,
        table: u32,
        list: Vec<Entry>,
        default: Option<(u32, Vec<Bits>)>,
    ) -> Result<(), AllocError> {
        self.tables.replace(alloc, table, list, default)?;
        Ok(())
    }

    fn cell(&self, register: u32, index: u32) -> Bits {
        let name = register_name(&self.plan.as_ref().parts.registers, register);
        self.registers.read(name, u128::from(index))
    }
}
