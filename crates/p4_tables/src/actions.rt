//! Actions of one program by the numbers of another.

ghost use Rattle.std.specs.Prelude.{◌≡◌, map, IfOk};
ghost use Rattle.p4_parts.specs.PartsIn.{action_in};
ghost use Rattle.p4_tables.specs.Carried.{act_renumbered, renumbered, same_number};
ghost use Rattle.p4_tables.specs.Named.{action_name};
ghost use Rattle.table_entries.specs.View.{act_of, entry_of};

use crate::start::action_place;
use p4_parts::{Action, ActionTable};
use std::alloc::{AllocError, Global};
use table_entries::{Act, Entry};

/// The full name of the action of a number; behind all actions it is `NoAction`.
pub(crate) fn action_name(actions: &[Action], number: u32) -> &str
    ensures { result.now ≡ action_name (map action_in actions.now) number }
{
    if (number as usize) < actions.len() {
        actions[number as usize].name.as_str()
    } else {
        "NoAction"
    }
}

/// The number of the action of the same name.
pub(crate) fn same_action(from: &[Action], to: &ActionTable, number: u32) -> Result<u32, AllocError>
    ensures { IfOk result (λ n. n
        ≡ same_number (map action_in from.now) (map action_in to.now.actions.now) number) }
{
    action_place(to, action_name(from, number))
}

/// An entry that runs the action of the same name.
pub(crate) fn same_entry(
    alloc: Global,
    from: &[Action],
    to: &ActionTable,
    e: &Entry,
) -> Result<Entry, AllocError>
    ensures { IfOk result (λ f. entry_of f ≡ renumbered
        (same_number (map action_in from.now) (map action_in to.now.actions.now)) (entry_of e.now)) }
{
    let action = same_action(from, to, e.action)?;
    let mut copy = e.copy(alloc)?;
    copy.action = action;
    Ok(copy)
}

/// A default that runs the action of the same name.
pub(crate) fn same_default(
    alloc: Global,
    from: &[Action],
    to: &ActionTable,
    d: &Act,
) -> Result<Act, AllocError>
    ensures { IfOk result (λ a. act_of a ≡ act_renumbered
        (same_number (map action_in from.now) (map action_in to.now.actions.now)) (act_of d.now)) }
{
    let action = same_action(from, to, d.action)?;
    let mut copy = d.copy(alloc)?;
    copy.action = action;
    Ok(copy)
}
