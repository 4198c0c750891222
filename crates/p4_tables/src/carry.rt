//! Tables of one program into those of another.

ghost use Rattle.std.specs.Prelude.{◌≡◌, length, map, IfOk, OnOk};
ghost use Rattle.p4_parts.specs.PartsIn.{action_in, parts_in, table_in};
ghost use Rattle.table_entries.specs.View.{entry_of};
ghost use Rattle.p4_tables.specs.Named.{table_place};
ghost use Rattle.p4_tables.specs.Carried.{renumbered, same_number};
ghost use Rattle.p4_tables.specs.CarriedWalk.{all_refilled, with_refilled};

use crate::actions::{same_default, same_entry};
use crate::held::{Held, put_all};
use p4_parts::{Action, ActionTable, Parts, Table};
use p4_values::same_text;
use std::alloc::{AllocError, Global};
use table_entries::Entry;

/// Entries that run the actions of the same names.
fn same_entries(
    alloc: Global,
    from: &[Action],
    to: &ActionTable,
    entries: &[Entry],
) -> Result<Vec<Entry>, AllocError>
    ensures { IfOk result (λ v. map entry_of v.items ≡ map (renumbered
        (same_number (map action_in from.now) (map action_in to.now.actions.now))) (map entry_of entries.now)) }
{
    let mut same = Vec::new(alloc);
    for e in entries {
        same.push(same_entry(alloc, from, to, e)?)?;
    }
    Ok(same)
}

/// How many tables stand before the first of a full name.
pub(crate) fn table_place(tables: &[Table], name: &str) -> usize
    ensures { result ≡ table_place (map table_in tables.now) name.now }
{
    for i in 0..tables.len() {
        if same_text(tables[i].name.as_str(), name) {
            return i;
        }
    }
    tables.len()
}

/// The table of this full name, if there is one, holds what a table of another program holds.
fn refill(
    alloc: Global,
    from: &Parts,
    held: &Held,
    to: &Parts,
    actions: &ActionTable,
    tables: &mut Vec<Held>,
    name: &str,
) -> Result<(), AllocError>
    requires { actions.now.actions.now ≡ to.now.actions.items }
    ensures { OnOk result (tables.new.items ≡ with_refilled (parts_in from.now)
        (parts_in to.now) name.now held.now tables.old.items) }
{
    let place = table_place(&to.tables, name);
    if place < tables.len() {
        let list = same_entries(alloc, &from.actions, actions, held.listed())?;
        let default = same_default(alloc, &from.actions, actions, held.default())?;
        put_all(
            alloc,
            tables,
            place,
            list,
            Some((default.action, default.args)),
        )?;
    }
    Ok(())
}

/// Tables hold what those of the same names hold in another program.
pub(crate) fn carry(
    alloc: Global,
    from: &Parts,
    held: &[Held],
    to: &Parts,
    actions: &ActionTable,
    tables: &mut Vec<Held>,
) -> Result<(), AllocError>
    requires actions { actions.now.actions.now ≡ to.now.actions.items }
    requires count { length (parts_in from.now).tables ≡ length held.now }
    ensures { OnOk result (tables.new.items ≡ all_refilled (parts_in from.now) (parts_in to.now)
        (parts_in from.now).tables held.now tables.old.items) }
{
    let mut left = from.tables.len();
    while left > 0 {
        left -= 1;
        refill(
            alloc,
            from,
            &held[left],
            to,
            actions,
            tables,
            from.tables[left].name.as_str(),
        )?;
    }
    Ok(())
}
