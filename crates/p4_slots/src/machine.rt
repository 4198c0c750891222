//! A switch over slots.

ghost use Rattle.std.specs.Prelude.{◌≡◌, ◌<◌, ◌≤◌, [], None, length, map, IfOk, OnOk, OnErr};
ghost use Rattle.std.specs.Option.{option_map};
ghost use Rattle.p4_tree.specs.View.{program_of};
ghost use Rattle.p4_meaning.specs.Statements.{cell_at};
ghost use Rattle.p4_meaning.specs.Parts.{parts_of};
ghost use Rattle.p4_meaning.specs.Pass.{start_cells};
ghost use Rattle.p4_tables.specs.State.{replaced};
ghost use Rattle.p4_tables.specs.Faults.{IsReplaceable};
ghost use Rattle.p4_tables.specs.Programs.{IsStateOf};
ghost use Rattle.table_entries.specs.View.{entry_of, given_act};
ghost use Rattle.p4_machine.specs.Passages.{entry_in, exit_in, passage_in, register_name};
ghost use Rattle.p4_machine.specs.Buffers.{IsMadeFor, IsPlaceFor, goes_out, is_queued, is_some_packet};
ghost use Rattle.p4_machine.specs.declared.pass.Passed.TheVariants as passed;
ghost use Rattle.p4_slots.specs.SlotPlaces.{place_in, waiting_in};
ghost use Rattle.p4_slots.specs.Machines.{cells_of};
ghost use Rattle.p4_slots.specs.Plans.{IsSlotPlan};

use crate::cells::{read_named, register_name};
use crate::halves::{go_in, go_out};
use crate::place::{SlotQueued, bytes_from};
use crate::plan::SlotPlan;
use crate::room::{bytes, empty_state, externs_for, work_for};
use bit_values::Bits;
use p4_machine::{Entered, FrameBuf, Passed};
use p4_tables::{Entry, TableState};
use slot_controls::Externs;
use slot_passages::Work;
use slot_terms::State;
use std::alloc::{AllocError, Global};
use std::marker::Model;
use std::rc::Rc;

/// A switch that runs a program over numbered slots. It has all its room from the start.
pub struct SlotMachine {
    plan: Rc<SlotPlan>,
    tables: TableState,
    externs: Externs,
    work: Work,
    state: State,
    frame: Vec<u8>,
    alloc: Global,
}

impl Drop for SlotMachine {
    fn drop(self) {
        let SlotMachine {
            plan: _plan,
            tables: _tables,
            externs: _externs,
            work: _work,
            state: _state,
            frame: _frame,
            alloc: _,
        } = self;
    }
}

impl Model for SlotMachine {
    ghost use Rattle.std.specs.Coded.{codes};
    ghost use Rattle.p4_tree.specs.contracts.statement.Expr as expr;
    ghost use Rattle.p4_tree.specs.contracts.statement.Stmt as stmt;
    ghost use Rattle.p4_slots.specs.Machines.{MachineState, machine_of};
    ghost use Rattle.p4_slots.specs.Kept.{IsSlotMachine};

    ghost Value = { MachineState };

    ghost coded = { Prim.hlevel (codes, expr.the_row.coded, stmt.the_row.coded) };

    ghost view = { machine_of };

    ghost invariant = { IsSlotMachine };
}

impl SlotMachine {
    /// A switch on a plan; its registers are 0.
    pub(crate) fn on(
        alloc: Global,
        plan: Rc<SlotPlan>,
        tables: TableState,
    ) -> Result<SlotMachine, AllocError>
        requires plan { IsSlotPlan plan.value }
        requires tables { IsStateOf (program_of plan.value.program) tables }
        ensures program { IfOk result (λ s. s.program ≡ plan.value.program) }
        ensures tables { IfOk result (λ s. s.tables ≡ tables) }
        ensures cells { IfOk result (λ s. cells_of s ≡ start_cells (parts_of (program_of plan.value.program)).registers) }
    {
        let externs = externs_for(alloc, plan.as_ref())?;
        let work = work_for(alloc, plan.as_ref())?;
        let state = empty_state(alloc, plan.as_ref())?;
        let frame = bytes(alloc, plan.as_ref().header_bytes as usize + 65_791)?;
        Ok(SlotMachine {
            plan,
            tables,
            externs,
            work,
            state,
            frame,
            alloc,
        })
    }

    /// Another switch that runs the program of this one, with these tables; its registers are 0. The
    /// program and its code are neither copied nor made again.
    pub fn another(&self, alloc: Global, tables: TableState) -> Result<SlotMachine, AllocError>
        requires { IsStateOf (program_of self.now.program) tables }
        ensures program { IfOk result (λ s. s.program ≡ self.now.program) }
        ensures tables { IfOk result (λ s. s.tables ≡ tables) }
        ensures cells { IfOk result (λ s. cells_of s ≡ start_cells (parts_of (program_of self.now.program)).registers) }
    {
        SlotMachine::on(alloc, self.plan.clone()?, tables)
    }

    /// A place for a packet of this switch, with room for so many bytes that the parser does not
    /// consume.
    pub fn room(&self, alloc: Global, bytes: u32) -> Result<SlotQueued, AllocError>
        ensures made { IfOk result (λ q. IsPlaceFor (program_of self.now.program) (place_in q)) }
        ensures room { IfOk result (λ q. (place_in q).room ≡ bytes) }
        ensures empty { IfOk result (λ q. (place_in q).waiting ≡ None) }
    {
        SlotQueued::new(alloc, self.plan.clone()?, bytes)
    }

    /// A frame enters by a port: parser, verify checksum and ingress. Then the packet waits in the
    /// place, or is dropped. The buffer has the digests of this half, and no frame. It takes no memory.
    pub fn enter(
        &mut self,
        port: u16,
        frame: &[u8],
        buf: &mut FrameBuf,
        q: &mut SlotQueued,
    ) -> Entered
        requires short { length frame.now ≤ 65791 }
        requires buffer { IsMadeFor (program_of self.old.program) buf.old.needs }
        requires place { IsPlaceFor (program_of self.old.program) (place_in q.old) }
        requires empty { (place_in q.old).waiting ≡ None }
        requires room { length frame.now ≤ (place_in q.old).room }
        ensures program { self.new.program ≡ self.old.program }
        ensures tables { self.new.tables ≡ self.old.tables }
        ensures cells { cells_of self.new
            ≡ (entry_in (program_of self.old.program) self.old.tables (cells_of self.old) port frame.now).registers }
        ensures queued { (place_in q.new).waiting
            ≡ (entry_in (program_of self.old.program) self.old.tables (cells_of self.old) port frame.now).queued }
        ensures answer { is_queued result ≡ is_some_packet (place_in q.new).waiting }
        ensures frame { buf.new.frame ≡ [] }
        ensures digests { buf.new.digests
            ≡ (entry_in (program_of self.old.program) self.old.tables (cells_of self.old) port frame.now).digests }
        ensures needs { buf.new.needs ≡ buf.old.needs }
        ensures place { q.new.program ≡ q.old.program }
        ensures room { q.new.room ≡ q.old.room }
    {
        buf.clear();
        let plan = self.plan.as_ref();
        let at = go_in(
            plan,
            &self.tables,
            port,
            frame,
            &mut self.work,
            &mut self.state,
            &mut self.externs,
        );
        buf.add_digests(&mut self.externs.digests);
        match at {
            Some(at) => {
                q.hold(&mut self.state, frame, at);
                Entered::Queued
            }
            None => Entered::Dropped,
        }
    }

    /// The packet that waits leaves: egress, compute checksum and deparser. The buffer has the frame
    /// that goes out, which is empty where the packet is dropped, and the digests of this half. Where
    /// nothing waits, nothing happens. It takes no memory.
    pub fn leave(&mut self, q: &mut SlotQueued, buf: &mut FrameBuf) -> Passed
        requires buffer { IsMadeFor (program_of self.old.program) buf.old.needs }
        requires place { IsPlaceFor (program_of self.old.program) (place_in q.old) }
        ensures program { self.new.program ≡ self.old.program }
        ensures tables { self.new.tables ≡ self.old.tables }
        ensures cells { cells_of self.new
            ≡ (exit_in (program_of self.old.program) self.old.tables (cells_of self.old) [] (place_in q.old).waiting).registers }
        ensures out { goes_out result buf.new.frame
            ≡ (exit_in (program_of self.old.program) self.old.tables (cells_of self.old) [] (place_in q.old).waiting).out }
        ensures dropped { result ≡ passed.Dropped → buf.new.frame ≡ [] }
        ensures digests { buf.new.digests
            ≡ (exit_in (program_of self.old.program) self.old.tables (cells_of self.old) [] (place_in q.old).waiting).digests }
        ensures empty { (place_in q.new).waiting ≡ None }
        ensures needs { buf.new.needs ≡ buf.old.needs }
        ensures place { q.new.program ≡ q.old.program }
        ensures room { q.new.room ≡ q.old.room }
    {
        buf.clear();
        if q.full() {
            q.release(&mut self.state);
            let plan = self.plan.as_ref();
            let passed = go_out(
                self.alloc,
                plan,
                &self.tables,
                q.rest(),
                q.skip(),
                &mut self.work,
                &mut self.state,
                &mut self.externs,
                &mut self.frame,
                buf,
            );
            buf.add_digests(&mut self.externs.digests);
            passed
        } else {
            Passed::Dropped
        }
    }

    /// A passage: the entry half, and then the exit half. It takes no memory.
    pub fn pass(&mut self, port: u16, frame: &[u8], buf: &mut FrameBuf) -> Passed
        requires short { length frame.now ≤ 65791 }
        requires buffer { IsMadeFor (program_of self.old.program) buf.old.needs }
        ensures program { self.new.program ≡ self.old.program }
        ensures tables { self.new.tables ≡ self.old.tables }
        ensures cells { cells_of self.new
            ≡ (passage_in (program_of self.old.program) self.old.tables (cells_of self.old) port frame.now).registers }
        ensures out { goes_out result buf.new.frame
            ≡ (passage_in (program_of self.old.program) self.old.tables (cells_of self.old) port frame.now).out }
        ensures dropped { result ≡ passed.Dropped → buf.new.frame ≡ [] }
        ensures digests { buf.new.digests
            ≡ (passage_in (program_of self.old.program) self.old.tables (cells_of self.old) port frame.now).digests }
        ensures needs { buf.new.needs ≡ buf.old.needs }
    {
        buf.clear();
        let plan = self.plan.as_ref();
        let at = go_in(
            plan,
            &self.tables,
            port,
            frame,
            &mut self.work,
            &mut self.state,
            &mut self.externs,
        );
        buf.add_digests(&mut self.externs.digests);
        match at {
            None => Passed::Dropped,
            Some(at) => {
                let rest = bytes_from(frame, at / 8);
                let passed = go_out(
                    self.alloc,
                    plan,
                    &self.tables,
                    rest,
                    (at % 8) as u8,
                    &mut self.work,
                    &mut self.state,
                    &mut self.externs,
                    &mut self.frame,
                    buf,
                );
                buf.add_digests(&mut self.externs.digests);
                passed
            }
        }
    }

    /// One table holds these entries, and, where one is given, this default. After want of memory the
    /// tables are as they were.
    pub fn set_table(
        &mut self,
        alloc: Global,
        table: u32,
        list: Vec<Entry>,
        default: Option<(u32, Vec<Bits>)>,
    ) -> Result<(), AllocError>
        requires there { table < length self.old.tables }
        requires accepted { IsReplaceable self.old.tables table (map entry_of list.items) (option_map given_act default) }
        ensures program { self.new.program ≡ self.old.program }
        ensures cells { self.new.registers ≡ self.old.registers }
        ensures tables { OnOk result (self.new.tables
            ≡ replaced self.old.tables table (map entry_of list.items) (option_map given_act default)) }
        ensures kept { OnErr result (self.new.tables ≡ self.old.tables) }
    {
        self.tables.replace(alloc, table, list, default)?;
        Ok(())
    }

    /// A cell of the register of a number.
    pub fn cell(&self, register: u32, index: u32) -> Bits
        ensures { result ≡ cell_at (cells_of self.now (register_name (program_of self.now.program) register)) index }
    {
        let declared = &self.plan.as_ref().parts.registers;
        let name = register_name(declared, register);
        read_named(declared, &self.externs.registers, name, u128::from(index))
    }
}
