//! Whether a program has a place for all that another one's tables hold.

ghost use Rattle.std.specs.Prelude.{◌≡◌, length, map, IfOk};
ghost use Rattle.std.specs.Bool.{OnTrue, OnFalse};
ghost use Rattle.std.specs.Cmp.Lexicographic.{pointwise};
ghost use Rattle.p4_tree.specs.View.{program_of};
ghost use Rattle.p4_parts.specs.PartsIn.{action_in, table_in};
ghost use Rattle.table_shapes.specs.View.{action_shape_of, shape_of};
ghost use Rattle.p4_tables.specs.Carried.{StandsIn};
ghost use Rattle.p4_tables.specs.StandsTests.{action_stands, is_listed, table_stands, tables_stand, takes_same};

use crate::actions::{action_name, same_action};
use crate::carry::table_place;
use crate::held::Held;
use crate::start::{action_place, state_before};
use p4_parts::{ActionTable, Table, action_places, parts_of};
use p4_types::TypedProgram;
use p4_values::same_text;
use std::alloc::{AllocError, Global};
use table_shapes::{ActionShape, Shape};

/// Whether the action of a number is the first of its name, and one of this name stands in the other
/// program.
fn action_stands(from: &ActionTable, to: &ActionTable, number: u32) -> Result<bool, AllocError>
    ensures { IfOk result (λ b. b
        ≡ action_stands (map action_in from.now.actions.now) (map action_in to.now.actions.now) number) }
{
    let name = action_name(from.actions, number);
    let first = action_place(from, name)?;
    let place = same_action(from.actions, to, number)?;
    Ok(first == number && same_text(action_name(to.actions, place), name))
}

/// Whether an action of another program's list is this one.
fn is_listed(
    from: &ActionTable,
    to: &ActionTable,
    other: &ActionShape,
    own: &ActionShape,
) -> Result<bool, AllocError>
    ensures { IfOk result (λ b. b ≡ is_listed (map action_in from.now.actions.now) (map action_in to.now.actions.now)
        (action_shape_of other.now) (action_shape_of own.now)) }
{
    let stands = action_stands(from, to, own.number)?;
    let number = same_action(from.actions, to, own.number)?;
    Ok(stands && other.number == number && other.params == own.params)
}

/// Whether another program's list is this one.
fn are_listed(
    from: &ActionTable,
    to: &ActionTable,
    others: &[ActionShape],
    own: &[ActionShape],
) -> Result<bool, AllocError>
    ensures { IfOk result (λ b. b ≡ pointwise
        (is_listed (map action_in from.now.actions.now) (map action_in to.now.actions.now))
        (map action_shape_of others.now) (map action_shape_of own.now)) }
{
    if others.len() != own.len() {
        return Ok(false);
    }
    for i in 0..others.len() {
        if !is_listed(from, to, &others[i], &own[i])? {
            return Ok(false);
        }
    }
    Ok(true)
}

/// Whether what another program's table takes is this.
fn takes_same(
    from: &ActionTable,
    to: &ActionTable,
    other: &Shape,
    own: &Shape,
) -> Result<bool, AllocError>
    ensures { IfOk result (λ b. b ≡ takes_same (map action_in from.now.actions.now) (map action_in to.now.actions.now)
        (shape_of other.now) (shape_of own.now)) }
{
    let stands = action_stands(from, to, own.written)?;
    let listed = are_listed(from, to, &other.actions, &own.actions)?;
    let written = same_action(from.actions, to, own.written)?;
    let same_default = other.written == written
        && other.written_args == own.written_args
        && other.fixed == own.fixed;
    Ok(stands && listed && other.keys == own.keys && same_default)
}

/// Whether a table that takes this stands in the other program, whose tables hold this at first.
fn table_stands(
    from: &ActionTable,
    to: &ActionTable,
    tables: &[Table],
    others: &[Held],
    name: &str,
    own: &Shape,
) -> Result<bool, AllocError>
    ensures { IfOk result (λ b. b ≡ table_stands (map action_in from.now.actions.now) (map action_in to.now.actions.now)
        (map table_in tables.now) others.now name.now (shape_of own.now)) }
{
    let place = table_place(tables, name);
    if place < others.len() {
        takes_same(from, to, others[place].shape(), own)
    } else {
        Ok(false)
    }
}

/// Whether all tables do.
fn tables_stand(
    from: &ActionTable,
    own_tables: &[Table],
    to: &ActionTable,
    tables: &[Table],
    others: &[Held],
    own: &[Held],
) -> Result<bool, AllocError>
    requires { length own_tables.now ≡ length own.now }
    ensures { IfOk result (λ b. b ≡ tables_stand (map action_in from.now.actions.now) (map action_in to.now.actions.now)
        (map table_in tables.now) others.now (map table_in own_tables.now) own.now) }
{
    for i in 0..own.len() {
        let name = own_tables[i].name.as_str();
        if !table_stands(from, to, tables, others, name, own[i].shape())? {
            return Ok(false);
        }
    }
    Ok(true)
}

/// Whether each table of the program `from` stands in the program `to` under its name, with keys of the
/// same kinds and widths, the same list of actions with the same parameters, and the same default,
/// `const` or not. Then the program `to` has a place for all that its tables hold.
pub fn stands_in(alloc: Global, from: &TypedProgram, to: &TypedProgram) -> Result<bool, AllocError>
    ensures yes { IfOk result (λ b. OnTrue b (StandsIn (program_of from.now) (program_of to.now))) }
    ensures no { IfOk result (λ b. OnFalse b
        (StandsIn (program_of from.now) (program_of to.now) → ⊥)) }
{
    let parts = parts_of(alloc, from.program())?;
    let target = parts_of(alloc, to.program())?;
    let own = state_before(alloc, from.program())?;
    let others = state_before(alloc, to.program())?;
    let own_list = parts.actions.as_slice();
    let own_places = action_places(alloc, own_list)?;
    let from = ActionTable {
        actions: own_list,
        places: &own_places,
    };
    let list = target.actions.as_slice();
    let places = action_places(alloc, list)?;
    let to = ActionTable {
        actions: list,
        places: &places,
    };
    tables_stand(&from, &parts.tables, &to, &target.tables, &others, &own)
}
