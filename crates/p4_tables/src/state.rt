//! The tables of a switch.

ghost use Rattle.std.specs.Prelude.{◌≡◌, ◌≢◌, ◌<◌, ◌≤◌, None, Some, map, length, nat_lt, IfOk, IfErr, OnOk, OnErr};
ghost use Rattle.std.specs.Bool.{OnTrue, OnFalse};
ghost use Rattle.std.specs.Option.{option_map};
ghost use Rattle.p4_tree.specs.View.{program_of};
ghost use Rattle.p4_tables.specs.State.{held_at, entries_in, inserted, with_default, replaced};
ghost use Rattle.p4_tables.specs.Faults.{entry_fault, default_fault, IsReplaceable};
ghost use Rattle.p4_tables.specs.Answers.{IsHit, IsMiss};
ghost use Rattle.p4_tables.specs.Programs.{shapes, state_before};
ghost use Rattle.p4_tables.specs.Kept.{AreSound};
ghost use Rattle.p4_tables.specs.Laws.{ChoicesAreUnique, RunsListed};
ghost use Rattle.table_entries.specs.View.{entry_of, act_of, given_act, chosen_act};
ghost use Rattle.table_shapes.specs.View.{shape_of};

use crate::faults::default_fault_in;
use crate::held::{Held, copy_tables, put_all, put_default, put_entry};
use crate::start::state_before;
use bit_values::Bits;
use p4_types::TypedProgram;
use std::alloc::{AllocError, Global};
use std::marker::Model;
use table_entries::{Act, Chosen, Entry};
use table_faults::EntryFault;
use table_shapes::Shape;

/// All tables of a switch. Contracts see what each of them takes and holds, by its number.
#[derive(Debug)]
pub struct TableState {
    tables: Vec<Held>,
    /// The number of all entries.
    count: u32,
}

impl Drop for TableState {
    fn drop(self) {
        let TableState {
            tables: _tables,
            count: _,
        } = self;
    }
}

impl Model for TableState {
    ghost use Rattle.std.specs.Prelude.{List};
    ghost use Rattle.p4_tables.specs.State.{Held};

    ghost Value = { List Held };

    ghost use Rattle.p4_tables.specs.Kept.{IsKept};

    ghost view = { λ s. s.tables.items };

    ghost invariant = { IsKept };
}

/// The number of entries of all tables.
fn count_in(tables: &[Held]) -> u32
    requires { entries_in tables.now ≤ 65536 }
    ensures { result ≡ entries_in tables.now }
{
    let mut count: u32 = 0;
    for held in tables {
        count += held.listed().len() as u32;
    }
    count
}

impl TableState {
    /// The tables of a program before anything is loaded.
    pub fn new(alloc: Global, p: &TypedProgram) -> Result<TableState, AllocError>
        ensures { IfOk result (λ t. t ≡ state_before (program_of p.now)) }
    {
        let tables = state_before(alloc, p.program())?;
        Ok(TableState { tables, count: 0 })
    }

    /// Tables that are sound.
    pub(crate) fn of(tables: Vec<Held>) -> TableState
        requires { AreSound tables.items }
        ensures { result ≡ tables.items }
    {
        let count = count_in(&tables);
        TableState { tables, count }
    }

    /// What each table takes and holds.
    pub(crate) fn tables(&self) -> &[Held]
        ensures same { result.now ≡ self.now }
        ensures sound { AreSound self.now }
    {
        &self.tables
    }

    /// The number of entries of all tables.
    pub fn entries(&self) -> u32
        ensures { result ≡ entries_in self.now }
    {
        self.count
    }

    /// Whether there is a table of a number.
    pub fn has(&self, table: u32) -> bool
        ensures { result ≡ nat_lt table (length self.now) }
    {
        (table as usize) < self.tables.len()
    }

    /// What the table of a number takes.
    pub fn shape(&self, table: u32) -> &Shape
        requires { table < length self.now }
        ensures { shape_of result.now ≡ (held_at self.now table).shape }
    {
        self.tables[table as usize].shape()
    }

    /// The entries of the table of a number, in the order in which they came.
    pub fn listed(&self, table: u32) -> &[Entry]
        requires { table < length self.now }
        ensures { map entry_of result.now ≡ (held_at self.now table).listed }
    {
        self.tables[table as usize].listed()
    }

    /// What the table of a number runs where no entry fits.
    pub fn default(&self, table: u32) -> &Act
        requires { table < length self.now }
        ensures { act_of result.now ≡ (held_at self.now table).default }
    {
        self.tables[table as usize].default()
    }

    /// Puts an entry behind those of the table of a number.
    pub fn insert(&mut self, alloc: Global, table: u32, e: Entry) -> Result<(), EntryFault>
        requires { table < length self.old }
        ensures ok { OnOk result (self.new ≡ inserted self.old table (entry_of e)) }
        ensures free { OnOk result (entry_fault self.old table (entry_of e) ≡ None) }
        ensures cause { IfErr result (λ fault.
            fault ≢ EntryFault.NoMemory → entry_fault self.old table (entry_of e) ≡ Some fault) }
        ensures kept { OnErr result (self.new ≡ self.old) }
        ensures shapes { shapes self.new ≡ shapes self.old }
    {
        match self.tables[table as usize].fault_in(alloc, self.count, &e)? {
            Some(fault) => Err(fault),
            None => {
                put_entry(alloc, &mut self.tables, table as usize, e)?;
                self.count += 1;
                Ok(())
            }
        }
    }

    /// Gives the table of a number a default.
    pub fn set_default(
        &mut self,
        _alloc: Global,
        table: u32,
        action: u32,
        args: Vec<Bits>,
    ) -> Result<(), EntryFault>
        requires { table < length self.old }
        ensures ok { OnOk result (self.new
            ≡ with_default self.old table (record { action = action; args = args.items })) }
        ensures free { OnOk result (default_fault self.old table
            (record { action = action; args = args.items }) ≡ None) }
        ensures cause { IfErr result (λ fault. default_fault self.old table
            (record { action = action; args = args.items }) ≡ Some fault) }
        ensures kept { OnErr result (self.new ≡ self.old) }
        ensures shapes { shapes self.new ≡ shapes self.old }
    {
        let default = Act { action, args };
        match default_fault_in(self.tables[table as usize].shape(), &default) {
            Some(fault) => Err(fault),
            None => {
                put_default(&mut self.tables, table as usize, default);
                Ok(())
            }
        }
    }

    /// Puts other entries into the place of those of the table of a number, and, where a default is
    /// given, that into the place of its default.
    pub fn replace(
        &mut self,
        alloc: Global,
        table: u32,
        list: Vec<Entry>,
        default: Option<(u32, Vec<Bits>)>,
    ) -> Result<(), AllocError>
        requires number { table < length self.old }
        requires free { IsReplaceable self.old table
            (map entry_of list.items) (option_map given_act default) }
        ensures ok { OnOk result (self.new
            ≡ replaced self.old table (map entry_of list.items) (option_map given_act default)) }
        ensures kept { OnErr result (self.new ≡ self.old) }
        ensures shapes { shapes self.new ≡ shapes self.old }
    {
        put_all(alloc, &mut self.tables, table as usize, list, default)?;
        self.count = count_in(&self.tables);
        Ok(())
    }

    /// What the table of a number chooses for its keys.
    pub fn choose(&self, table: u32, keys: &[Bits]) -> Chosen<'_>
        requires { table < length self.now }
        ensures hit { OnTrue result.hit
            (IsHit (held_at self.now table) keys.now (chosen_act result)) }
        ensures miss { OnFalse result.hit
            (IsMiss (held_at self.now table) keys.now (chosen_act result)) }
    {
        let held = &self.tables[table as usize];
        match held.choose(keys) {
            Some(chosen) => chosen,
            None => {
                let default = held.default();
                Chosen {
                    action: default.action,
                    args: &default.args,
                    hit: false,
                }
            }
        }
    }

    /// An equal state.
    pub fn copy(&self, alloc: Global) -> Result<TableState, AllocError>
        ensures { IfOk result (λ t. t ≡ self.now) }
    {
        let tables = copy_tables(alloc, &self.tables)?;
        Ok(TableState {
            tables,
            count: self.count,
        })
    }
}

/// At most one entry of a table is chosen.
pub fn choices_are_unique(state: &TableState)
    ensures { ChoicesAreUnique state.now }
{
    let _tables = &state.tables;
}

/// Tables run actions of their lists alone, and as a default also the one that is written; where the
/// default is `const`, that one alone, with its words.
pub fn actions_are_listed(state: &TableState)
    ensures { RunsListed state.now }
{
    let _tables = &state.tables;
}
