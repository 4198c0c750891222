//! What the tables of a program take, and what they hold before anything is loaded.

ghost use Rattle.std.specs.Prelude.{◌≡◌, get_or, map, IfOk};
ghost use Rattle.p4_tree.specs.View.{program_of};
ghost use Rattle.p4_parts.specs.PartsIn.{action_in, chosen_in, key_in, table_in};
ghost use Rattle.p4_tables.specs.Programs.{kind_of, no_value, values_at, key_shapes, action_place, action_shape, numbered, table_shape, table_before, tables_before, state_before};
ghost use Rattle.table_entries.specs.View.{act_of};
ghost use Rattle.table_shapes.specs.View.{action_shape_of, shape_of};
ghost use Rattle.value_shapes.specs.Values.{lists_in};

use crate::held::Held;
use lex_text::Name;
use p4_parts::{ActionTable, Chosen, Key, Table, action_places, parts_of};
use p4_tree::Program;
use std::alloc::{AllocError, Global};
use table_entries::Act;
use table_shapes::{ActionShape, KeyKind, KeyShape, Shape, copy_values, copy_words};
use value_shapes::{Holder, ValueShape, values_of};

/// How a key is matched, by the name of that.
fn kind_of(name: &Name) -> KeyKind
    ensures { result ≡ kind_of name.now }
{
    if name.as_str() == "ternary" {
        KeyKind::Ternary
    } else if name.as_str() == "lpm" {
        KeyKind::Lpm
    } else {
        KeyKind::Exact
    }
}

/// What the key of a number holds.
fn value_at(values: &[ValueShape], i: usize) -> ValueShape
    ensures { result ≡ get_or values.now i no_value }
{
    match values.get(i) {
        Some(value) => *value,
        None => ValueShape {
            width: 0,
            is_truth: false,
        },
    }
}

/// Keys with what they hold.
#[tactic(auto, using(crate::proofs::Steps::keys_step))]
fn key_shapes(
    alloc: Global,
    keys: &[Key],
    values: &[ValueShape],
) -> Result<Vec<KeyShape>, AllocError>
    ensures { IfOk result (λ v. v.items ≡ key_shapes (map key_in keys.now) values.now) }
{
    let mut shapes = Vec::new(alloc);
    for i in 0..keys.len() {
        let kind = kind_of(&keys[i].kind);
        let value = value_at(values, i);
        shapes.push(KeyShape { kind, value })?;
    }
    Ok(shapes)
}

/// So many actions are numbered by 32 bits. No memory holds more.
fn number(place: usize) -> Result<u32, AllocError>
    ensures { IfOk result (λ n. n ≡ place) }
{
    match u32::try_from(place) {
        Ok(number) => Ok(number),
        Err(_) => Err(AllocError),
    }
}

/// The number of the action of a full name.
pub(crate) fn action_place(actions: &ActionTable, name: &str) -> Result<u32, AllocError>
    ensures { IfOk result (λ n. n ≡ action_place (map action_in actions.now.actions.now) name.now) }
{
    match actions.place(name) {
        Some(place) => number(place),
        None => number(actions.actions.len()),
    }
}

/// What the table or the action of a number holds.
fn values_at(lists: &[Vec<ValueShape>], i: usize) -> &[ValueShape]
    ensures { result.now ≡ values_at (lists_in lists.now) i }
{
    match lists.get(i) {
        Some(list) => list,
        None => &[],
    }
}

/// The action of a full name in the list of a table.
fn action_shape(
    alloc: Global,
    actions: &ActionTable,
    params: &[Vec<ValueShape>],
    name: &Name,
) -> Result<ActionShape, AllocError>
    ensures { IfOk result (λ a. action_shape_of a
        ≡ action_shape (map action_in actions.now.actions.now) (lists_in params.now) name.now) }
{
    let number = action_place(actions, name.as_str())?;
    let params = copy_values(alloc, values_at(params, number as usize))?;
    Ok(ActionShape { number, params })
}

fn action_shapes(
    alloc: Global,
    actions: &ActionTable,
    params: &[Vec<ValueShape>],
    names: &[Name],
) -> Result<Vec<ActionShape>, AllocError>
    ensures { IfOk result (λ v. map action_shape_of v.items
        ≡ map (action_shape (map action_in actions.now.actions.now) (lists_in params.now)) names.now) }
{
    let mut shapes = Vec::new(alloc);
    for name in names {
        shapes.push(action_shape(alloc, actions, params, name)?)?;
    }
    Ok(shapes)
}

/// An action by its number.
fn numbered(alloc: Global, actions: &ActionTable, c: &Chosen) -> Result<Act, AllocError>
    ensures { IfOk result (λ a. act_of a ≡ numbered (map action_in actions.now.actions.now) (chosen_in c.now)) }
{
    let action = action_place(actions, c.action.as_str())?;
    let args = copy_words(alloc, &c.args)?;
    Ok(Act { action, args })
}

/// What a table takes, where its keys hold `keys`, and the parameters of the actions `params`.
fn table_shape(
    alloc: Global,
    actions: &ActionTable,
    params: &[Vec<ValueShape>],
    table: &Table,
    keys: &[ValueShape],
) -> Result<Shape, AllocError>
    ensures { IfOk result (λ s. shape_of s
        ≡ table_shape (map action_in actions.now.actions.now) (lists_in params.now) (table_in table.now) keys.now) }
{
    let keys = key_shapes(alloc, &table.keys, keys)?;
    let list = action_shapes(alloc, actions, params, &table.actions)?;
    let written = action_place(actions, table.default.action.as_str())?;
    let written_args = copy_words(alloc, &table.default.args)?;
    Ok(Shape {
        keys,
        actions: list,
        written,
        written_args,
        fixed: table.fixed,
    })
}

/// A table with no entry and the default that is written.
fn table_before(
    alloc: Global,
    actions: &ActionTable,
    params: &[Vec<ValueShape>],
    table: &Table,
    keys: &[ValueShape],
) -> Result<Held, AllocError>
    ensures { IfOk result (λ h. h
        ≡ table_before (map action_in actions.now.actions.now) (lists_in params.now) (table_in table.now) keys.now) }
{
    let shape = table_shape(alloc, actions, params, table, keys)?;
    let default = numbered(alloc, actions, &table.default)?;
    Ok(Held::new(alloc, shape, default))
}

/// Tables with what their keys hold.
#[tactic(auto, using(crate::proofs::Steps::tables_step))]
fn tables_before(
    alloc: Global,
    actions: &ActionTable,
    params: &[Vec<ValueShape>],
    tables: &[Table],
    keys: &[Vec<ValueShape>],
) -> Result<Vec<Held>, AllocError>
    ensures { IfOk result (λ v. v.items
        ≡ tables_before (map action_in actions.now.actions.now) (lists_in params.now)
        (map table_in tables.now) (lists_in keys.now)) }
{
    let mut held = Vec::new(alloc);
    for i in 0..tables.len() {
        held.push(table_before(alloc, actions, params, &tables[i], values_at(keys, i))?)?;
    }
    Ok(held)
}

/// What the tables of a program hold before anything is loaded.
pub(crate) fn state_before(alloc: Global, p: &Program) -> Result<Vec<Held>, AllocError>
    ensures { IfOk result (λ v. v.items ≡ state_before (program_of p.now)) }
{
    let parts = parts_of(alloc, p)?;
    let params = values_of(alloc, Holder::Params, &p.tops)?;
    let keys = values_of(alloc, Holder::Keys, &p.tops)?;
    let list = parts.actions.as_slice();
    let places = action_places(alloc, list)?;
    let actions = ActionTable {
        actions: list,
        places: &places,
    };
    tables_before(alloc, &actions, &params, &parts.tables, &keys)
}
