//! The tables of all switches.

ghost use Rattle.std.specs.Prelude.{◌≡◌, ◌<◌, length, map, Some, IfOk};
ghost use Rattle.serde_json.specs.View.{view};
ghost use Rattle.json_parts.specs.Turns.{each_in_turn};
ghost use Rattle.json_parts.specs.Views.{fields};
ghost use Rattle.json_values.specs.Views.{Gives};
ghost use Rattle.p4_tree.specs.View.{program_of};
ghost use Rattle.p4_tables.specs.Programs.{shapes, IsStateOf};
ghost use Rattle.table_file.specs.Tables.{with_table};
ghost use Rattle.table_file.specs.Entries as entries;
ghost use Rattle.table_file.specs.Laws.{AreOf};

use crate::table::table;
use json_parts::member_path;
use json_values::object_at;
use network_file::Network;
use p4_tables::TableState;
use p4_types::TypedProgram;
use serde_json::{Map, Value};
use std::alloc::{AllocError, Global};
use table_faults::TableFault;

/// The tables of each switch of a network that run a program, in the order of the switches, before the
/// first entry.
pub fn states_before(
    alloc: Global,
    program: &TypedProgram,
    network: &Network,
) -> Result<Vec<TableState>, AllocError>
    ensures states { IfOk result (λ states. states.items
        ≡ entries.states_before (program_of program.now) network.now.names) }
    ensures kept { IfOk result (λ states.
        AreOf (program_of program.now) network.now.names states.items) }
{
    let first = TableState::new(alloc, program)?;
    let mut states = Vec::new(alloc);
    for _switch in 0..network.count() {
        states.push(first.copy(alloc)?)?;
    }
    Ok(states)
}

/// What a file says of the tables of a switch, at a path.
fn each_table(
    alloc: Global,
    program: &TypedProgram,
    path: &str,
    state: &mut TableState,
    object: &Map<String, Value>,
) -> Result<(), TableFault>
    requires { IsStateOf (program_of program.now) state.old }
    ensures answer { Gives (λ _. state.new) result (each_in_turn
        (with_table (program_of program.now) path.now) state.old (fields object.now.entries)) }
    ensures shapes { shapes state.new ≡ shapes state.old }
{
    for (name, value) in object {
        table(alloc, program, path, state, name.as_str(), value)?;
    }
    Ok(())
}

#[tactic(auto, unfolding(crate::specs::Entries::with_tables))]
fn all_tables(
    alloc: Global,
    program: &TypedProgram,
    path: &str,
    state: &mut TableState,
    value: &Value,
) -> Result<(), TableFault>
    requires { IsStateOf (program_of program.now) state.old }
    ensures answer { Gives (λ _. state.new) result
        (entries.with_tables (program_of program.now) path.now state.old (view value.now)) }
    ensures shapes { shapes state.new ≡ shapes state.old }
{
    let object = object_at(alloc, path, value)?;
    each_table(alloc, program, path, state, object)
}

/// What a file says of the tables of the switch of a number.
fn at_switch(
    alloc: Global,
    program: &TypedProgram,
    path: &str,
    states: &mut Vec<TableState>,
    switch: usize,
    value: &Value,
) -> Result<(), TableFault>
    requires within { switch < length states.old.items }
    requires state { IsStateOf (program_of program.now) (entries.state_at states.old.items switch) }
    ensures answer { Gives (λ _. states.new.items) result (entries.switch_from
        (program_of program.now) path.now states.old.items (view value.now) (Some switch)) }
    ensures shapes { map shapes states.new.items ≡ map shapes states.old.items }
{
    all_tables(alloc, program, path, &mut states[switch], value)
}

/// What a file says of the tables of the switch of a name.
#[tactic(auto, unfolding(crate::specs::Entries::with_switch))]
fn switch(
    alloc: Global,
    program: &TypedProgram,
    network: &Network,
    states: &mut Vec<TableState>,
    name: &str,
    value: &Value,
) -> Result<(), TableFault>
    requires { AreOf (program_of program.now) network.now.names states.old.items }
    ensures answer { Gives (λ _. states.new.items) result
        (entries.with_switch (program_of program.now) network.now.names states.old.items
        (name.now, view value.now)) }
    ensures kept { AreOf (program_of program.now) network.now.names states.new.items }
{
    let path = member_path(alloc, "", name)?;
    match network.number(name) {
        Some(switch) => at_switch(
            alloc,
            program,
            path.as_str(),
            states,
            switch as usize,
            value,
        ),
        None => Err(TableFault::NoSuchSwitch { path }),
    }
}

/// What a file says of the tables of all switches.
fn each_switch(
    alloc: Global,
    program: &TypedProgram,
    network: &Network,
    states: &mut Vec<TableState>,
    object: &Map<String, Value>,
) -> Result<(), TableFault>
    requires { AreOf (program_of program.now) network.now.names states.old.items }
    ensures answer { Gives (λ _. states.new.items) result
        (each_in_turn (entries.with_switch (program_of program.now) network.now.names)
        states.old.items (fields object.now.entries)) }
    ensures kept { AreOf (program_of program.now) network.now.names states.new.items }
{
    for (name, value) in object {
        switch(alloc, program, network, states, name.as_str(), value)?;
    }
    Ok(())
}

/// The tables of each switch of a network that run a program, in the order of the switches: those of
/// the program, with the entries and the defaults that a value says.
///
/// # Errors
///
/// The value's first fault, exactly where it has one; else `NoMemory` alone, where memory runs out.
#[tactic(auto, unfolding(crate::specs::Entries::entries_of))]
pub fn load_entries(
    alloc: Global,
    value: &Value,
    program: &TypedProgram,
    network: &Network,
) -> Result<Vec<TableState>, TableFault>
    ensures entries { Gives (λ states. states.items) result
        (entries.entries_of (program_of program.now) network.now.names (view value.now)) }
    ensures kept { IfOk result (λ states.
        AreOf (program_of program.now) network.now.names states.items) }
{
    let object = object_at(alloc, "", value)?;
    let mut states = states_before(alloc, program, network)?;
    each_switch(alloc, program, network, &mut states, object)?;
    Ok(states)
}
