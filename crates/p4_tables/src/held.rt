//! What one table holds.

ghost use Rattle.std.specs.Prelude.{◌≡◌, ◌<◌, ◌∷◌, ◌++◌, [], map, length, true, IfOk, IfSome, OnOk, OnErr};
ghost use Rattle.std.specs.Option.{option_map};
ghost use Rattle.table_shapes.specs.Shapes.{has_ternary};
ghost use Rattle.p4_tables.specs.State.{inserted, with_default, with_listed, replaced};
ghost use Rattle.p4_tables.specs.Faults.{takes_entry, fault_in};
ghost use Rattle.p4_tables.specs.Kept.{IsSound};
ghost use Rattle.table_entries.specs.View.{entry_of, act_of, given_act, chosen_act};
ghost use Rattle.table_shapes.specs.View.{shape_of};
ghost use Rattle.table_entries.specs.Entries.{act_in};
ghost use Rattle.table_entries.specs.Walk.{found_in};
ghost use Rattle.p4_tables.specs.Indexed.{clash_in};

use crate::faults::takes_entry;
use bit_values::Bits;
use std::alloc::{AllocError, Global};
use std::marker::Model;
use table_entries::{
    Act, Chosen, Entry, Index, copy_entries, find, first_fit, index_of, longest_act, of_act,
    of_entry, priority_place, same_keys, sign_of,
};
use table_faults::EntryFault;
use table_shapes::{Shape, copy_shape, has_action};

/// A table: what it takes, its entries and where they stand, and what it runs where none fits.
#[derive(Debug, Drop)]
pub(crate) struct Held {
    shape: Shape,
    listed: Vec<Entry>,
    index: Index,
    default: Act,
}

impl Model for Held {
    ghost use Rattle.p4_tables.specs.State as spec;

    ghost Value = { spec.Held };

    ghost use Rattle.std.specs.Prelude.{map};
    ghost use Rattle.table_entries.specs.View.{entry_of, act_of};
    ghost use Rattle.table_shapes.specs.View.{shape_of};
    ghost use Rattle.p4_tables.specs.Indexed.{IsIndexed};

    ghost view = { λ h. record { shape = shape_of h.shape; listed = map entry_of h.listed.items; default = act_of h.default } };

    ghost invariant = { IsIndexed };
}

impl Held {
    /// A table with no entry.
    pub fn new(alloc: Global, shape: Shape, default: Act) -> Held
        ensures { result ≡ record { shape = shape_of shape; listed = []; default = act_of default } }
    {
        let index = Index::new(alloc, shape.has_ternary());
        Held {
            shape,
            listed: Vec::new(alloc),
            index,
            default,
        }
    }

    /// What it takes.
    pub fn shape(&self) -> &Shape
        ensures { shape_of result.now ≡ self.now.shape }
    {
        &self.shape
    }

    /// Its entries, in the order in which they came.
    pub fn listed(&self) -> &[Entry]
        ensures { map entry_of result.now ≡ self.now.listed }
    {
        &self.listed
    }

    /// What it runs where no entry fits.
    pub fn default(&self) -> &Act
        ensures { act_of result.now ≡ self.now.default }
    {
        &self.default
    }

    /// An equal table.
    fn copy(&self, alloc: Global) -> Result<Held, AllocError>
        ensures { IfOk result (λ h. h ≡ self.now) }
    {
        let shape = copy_shape(alloc, &self.shape)?;
        let listed = copy_entries(alloc, &self.listed)?;
        let index = index_of(alloc, &shape.keys, shape.has_ternary(), &listed)?;
        let default = self.default.copy(alloc)?;
        Ok(Held {
            shape,
            listed,
            index,
            default,
        })
    }

    /// What the entry runs that one walk over all entries finds.
    pub fn choose(&self, keys: &[Bits]) -> Option<Chosen<'_>>
        requires { IsSound self.now }
        ensures acts { option_map chosen_act result
            ≡ option_map act_in (found_in (has_ternary self.now.shape.keys) self.now.listed keys.now) }
        ensures hit { IfSome result (λ c. c.hit ≡ true) }
    {
        match &self.index {
            Index::Priorities(places) => of_entry(first_fit(places, &self.listed, keys)),
            Index::Signs(signs) => match longest_act(signs, &self.shape.keys, keys) {
                Some(told) => of_act(told),
                None => of_entry(find(false, &self.listed, keys)),
            },
        }
    }

    /// The first reason for which an entry that the table takes clashes with those that it holds.
    fn clash(&self, alloc: Global, e: &Entry) -> Result<Option<EntryFault>, AllocError>
        requires sound { IsSound self.now }
        requires taken { takes_entry self.now.shape (entry_of e.now) ≡ true }
        ensures { IfOk result (λ fault. fault ≡ clash_in self.now (entry_of e.now)) }
    {
        match &self.index {
            Index::Signs(signs) => {
                let sign = sign_of(alloc, &e.keys)?;
                if signs.act(&self.shape.keys, sign.as_slice()).is_some() {
                    Ok(Some(EntryFault::SameEntry))
                } else {
                    Ok(None)
                }
            }
            Index::Priorities(places) => match priority_place(places, e.priority) {
                Some(place) => {
                    if same_keys(&self.listed[place].keys, &e.keys) {
                        Ok(Some(EntryFault::SameEntry))
                    } else {
                        Ok(Some(EntryFault::SamePriority))
                    }
                }
                None => Ok(None),
            },
        }
    }

    /// The first reason for which the table refuses an entry, where all tables hold so many.
    pub fn fault_in(
        &self,
        alloc: Global,
        count: u32,
        e: &Entry,
    ) -> Result<Option<EntryFault>, AllocError>
        requires { IsSound self.now }
        ensures { IfOk result (λ fault. fault ≡ fault_in self.now count (entry_of e.now)) }
    {
        if !has_action(&self.shape.actions, e.action) {
            Ok(Some(EntryFault::NoSuchAction))
        } else if !takes_entry(&self.shape, e) {
            Ok(Some(EntryFault::WidthDiffers))
        } else if let Some(fault) = self.clash(alloc, e)? {
            Ok(Some(fault))
        } else if count >= 65_536 {
            Ok(Some(EntryFault::TableLimit))
        } else {
            Ok(None)
        }
    }

    /// An entry goes behind those that the table holds.
    fn push(&mut self, alloc: Global, e: Entry) -> Result<(), AllocError>
        ensures ok { OnOk result (self.new
            ≡ record self.old { listed = self.old.listed ++ entry_of e ∷ [] }) }
        ensures err { OnErr result (self.new ≡ self.old) }
    {
        let place = self.listed.len();
        self.listed.push(e)?;
        match self
            .index
            .note(alloc, &self.shape.keys, &self.listed[place], place)
        {
            Ok(()) => Ok(()),
            Err(error) => {
                self.listed.pop();
                Err(error)
            }
        }
    }

    /// The table has these entries.
    fn set_listed(&mut self, alloc: Global, list: Vec<Entry>) -> Result<(), AllocError>
        ensures ok { OnOk result (self.new ≡ record self.old { listed = map entry_of list.items }) }
        ensures err { OnErr result (self.new ≡ self.old) }
    {
        let has_ternary = self.shape.has_ternary();
        let index = index_of(alloc, &self.shape.keys, has_ternary, &list)?;
        self.listed = list;
        self.index = index;
        Ok(())
    }

    /// The table has this default.
    fn set_default(&mut self, default: Act)
        ensures { self.new ≡ record self.old { default = act_of default } }
    {
        self.default = default;
    }
}

/// Equal tables.
pub(crate) fn copy_tables(alloc: Global, list: &[Held]) -> Result<Vec<Held>, AllocError>
    ensures { IfOk result (λ v. v.items ≡ list.now) }
{
    let mut copies = Vec::new(alloc);
    for h in list {
        copies.push(h.copy(alloc)?)?;
    }
    Ok(copies)
}

/// An entry goes behind those that the table of a number holds.
pub(crate) fn put_entry(
    alloc: Global,
    tables: &mut Vec<Held>,
    table: usize,
    e: Entry,
) -> Result<(), AllocError>
    requires { table < length tables.old.items }
    ensures ok { OnOk result (tables.new.items ≡ inserted tables.old.items table (entry_of e)) }
    ensures err { OnErr result (tables.new.items ≡ tables.old.items) }
{
    tables[table].push(alloc, e)
}

/// The table of a number has these entries.
fn put_listed(
    alloc: Global,
    tables: &mut Vec<Held>,
    table: usize,
    list: Vec<Entry>,
) -> Result<(), AllocError>
    requires { table < length tables.old.items }
    ensures ok { OnOk result (tables.new.items
        ≡ with_listed tables.old.items table (map entry_of list.items)) }
    ensures err { OnErr result (tables.new.items ≡ tables.old.items) }
{
    tables[table].set_listed(alloc, list)
}

/// The table of a number has this default.
pub(crate) fn put_default(tables: &mut Vec<Held>, table: usize, default: Act)
    requires { table < length tables.old.items }
    ensures { tables.new.items ≡ with_default tables.old.items table (act_of default) }
{
    tables[table].set_default(default);
}

/// The table of a number has these entries, and, where one is given, this default.
pub(crate) fn put_all(
    alloc: Global,
    tables: &mut Vec<Held>,
    table: usize,
    list: Vec<Entry>,
    default: Option<(u32, Vec<Bits>)>,
) -> Result<(), AllocError>
    requires { table < length tables.old.items }
    ensures ok { OnOk result (tables.new.items ≡ replaced tables.old.items table
        (map entry_of list.items) (option_map given_act default)) }
    ensures err { OnErr result (tables.new.items ≡ tables.old.items) }
{
    put_listed(alloc, tables, table, list)?;
    match default {
        Some((action, args)) => put_default(tables, table, Act { action, args }),
        None => {}
    }
    Ok(())
}
