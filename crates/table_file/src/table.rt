//! One table of a switch.

ghost use Rattle.std.specs.Prelude.{◌≡◌, ◌≢◌, ◌<◌, codes, length, map, option_map};
ghost use Rattle.std.specs.List.{before_first};
ghost use Rattle.serde_json.specs.View.{view};
ghost use Rattle.json_parts.specs.Views.{object_seen};
ghost use Rattle.json_values.specs.Views.{Gives};
ghost use Rattle.table_faults.specs.declared.table.TableFault.TheVariants.{NoMemory, Entry as Refused};
ghost use Rattle.p4_tree.specs.View.{program_of};
ghost use Rattle.p4_tables.specs.Programs.{shapes, IsStateOf};
ghost use Rattle.table_entries.specs.View.{act_of, entry_of};
ghost use Rattle.table_file.specs.Tables as tables;
ghost use Rattle.table_file.specs.Views.{place_view};

use entry_parts::{entry_refused, read_default, read_entry};
use json_parts::{Members, item_path, member_path};
use json_values::{in_table, list_at};
use p4_tables::{Act, Entry, TableState};
use p4_types::TypedProgram;
use serde_json::Value;
use std::alloc::Global;
use table_faults::{EntryFault, TableFault};

/// A table of a program: its number, and the name of its control.
#[derive(Clone, Copy)]
pub(crate) struct Place<'a> {
    pub program: &'a TypedProgram,
    pub control: &'a str,
    pub table: u32,
}

/// The table refuses what is at the path, or memory runs out.
fn refused(alloc: Global, path: &str, fault: EntryFault) -> TableFault
    ensures memory { (result ≡ NoMemory → ⊥) → fault ≢ EntryFault.NoMemory }
    ensures refused { (result ≡ NoMemory → ⊥) → result ≡ Refused path.now fault }
{
    match fault {
        EntryFault::NoMemory => TableFault::NoMemory,
        fault => entry_refused(alloc, path, fault),
    }
}

fn put_entry(
    alloc: Global,
    path: &str,
    state: &mut TableState,
    table: u32,
    entry: Entry,
) -> Result<(), TableFault>
    requires { table < length (shapes state.old) }
    ensures answer { Gives (λ _. state.new) result
        (tables.put_entry path.now table state.old (entry_of entry)) }
    ensures shapes { shapes state.new ≡ shapes state.old }
{
    match state.insert(alloc, table, entry) {
        Ok(()) => Ok(()),
        Err(fault) => Err(refused(alloc, path, fault)),
    }
}

fn put_default(
    alloc: Global,
    path: &str,
    state: &mut TableState,
    table: u32,
    default: Act,
) -> Result<(), TableFault>
    requires { table < length (shapes state.old) }
    ensures answer { Gives (λ _. state.new) result
        (tables.put_default path.now table state.old (act_of default)) }
    ensures shapes { shapes state.new ≡ shapes state.old }
{
    match state.set_default(alloc, table, default.action, default.args) {
        Ok(()) => Ok(()),
        Err(fault) => Err(refused(alloc, path, fault)),
    }
}

/// The entry of a number in the array at a path.
#[tactic(auto, unfolding(crate::specs::Tables::with_entry))]
fn entry(
    alloc: Global,
    place: Place<'_>,
    path: &str,
    state: &mut TableState,
    number: usize,
    value: &Value,
) -> Result<(), TableFault>
    requires { place.table < length (shapes state.old) }
    ensures answer { Gives (λ _. state.new) result
        (tables.with_entry (place_view place.entry) path.now state.old number (view value.now)) }
    ensures shapes { shapes state.new ≡ shapes state.old }
{
    let path = item_path(alloc, path, number)?;
    let shape = state.shape(place.table);
    let entry = read_entry(
        alloc,
        place.program,
        place.control,
        shape,
        path.as_str(),
        value,
    )?;
    put_entry(alloc, path.as_str(), state, place.table, entry)
}

/// The entries of the array at a path.
fn list(
    alloc: Global,
    place: Place<'_>,
    path: &str,
    state: &mut TableState,
    list: &[Value],
) -> Result<(), TableFault>
    requires { place.table < length (shapes state.old) }
    ensures answer { Gives (λ _. state.new) result
        (tables.with_list (place_view place.entry) path.now state.old (map view list.now)) }
    ensures shapes { shapes state.new ≡ shapes state.old }
{
    for (i, value) in list.iter().enumerate() {
        entry(alloc, place, path, state, i, value)?;
    }
    Ok(())
}

/// The entries of the table at a path.
#[tactic(auto, unfolding(crate::specs::Tables::with_entries))]
fn entries(
    alloc: Global,
    place: Place<'_>,
    path: &str,
    members: &Members<'_, '_>,
    state: &mut TableState,
) -> Result<(), TableFault>
    requires { place.table < length (shapes state.old) }
    ensures answer { Gives (λ _. state.new) result
        (tables.with_entries (place_view place.entry) path.now (object_seen members.now) state.old) }
    ensures shapes { shapes state.new ≡ shapes state.old }
{
    let value = in_table(members.maybe(alloc, "entries"))?;
    let path = member_path(alloc, path, "entries")?;
    match value {
        Some(value) => {
            let elements = list_at(alloc, path.as_str(), value)?;
            list(alloc, place, path.as_str(), state, elements)
        }
        None => Ok(()),
    }
}

/// The default of the table at a path.
#[tactic(auto, unfolding(crate::specs::Tables::with_default_of))]
fn default(
    alloc: Global,
    place: Place<'_>,
    path: &str,
    members: &Members<'_, '_>,
    state: &mut TableState,
) -> Result<(), TableFault>
    requires { place.table < length (shapes state.old) }
    ensures answer { Gives (λ _. state.new) result
        (tables.with_default_of (place_view place.entry) path.now (object_seen members.now) state.old) }
    ensures shapes { shapes state.new ≡ shapes state.old }
{
    let value = in_table(members.maybe(alloc, "default"))?;
    let path = member_path(alloc, path, "default")?;
    match value {
        Some(value) => {
            let shape = state.shape(place.table);
            let default = read_default(
                alloc,
                place.program,
                place.control,
                shape,
                path.as_str(),
                value,
            )?;
            put_default(alloc, path.as_str(), state, place.table, default)
        }
        None => Ok(()),
    }
}

/// The entries of the table at a path, where they are there.
fn entries_if(
    alloc: Global,
    there: bool,
    place: Place<'_>,
    path: &str,
    members: &Members<'_, '_>,
    state: &mut TableState,
) -> Result<(), TableFault>
    requires { place.table < length (shapes state.old) }
    ensures answer { Gives (λ _. state.new) result
        (tables.with_entries_if there (place_view place.entry) path.now (object_seen members.now) state.old) }
    ensures shapes { shapes state.new ≡ shapes state.old }
{
    if there {
        entries(alloc, place, path, members, state)
    } else {
        Ok(())
    }
}

/// What the object at a path says of a table.
#[tactic(auto, unfolding(crate::specs::Tables::with_members))]
fn members(
    alloc: Global,
    place: Place<'_>,
    path: &str,
    state: &mut TableState,
    value: &Value,
) -> Result<(), TableFault>
    requires { place.table < length (shapes state.old) }
    ensures answer { Gives (λ _. state.new) result
        (tables.with_members (place_view place.entry) path.now state.old (view value.now)) }
    ensures shapes { shapes state.new ≡ shapes state.old }
{
    let members = in_table(Members::new(alloc, path, &["default", "entries"], value))?;
    entries_if(
        alloc,
        value.get("entries").is_some(),
        place,
        path,
        &members,
        state,
    )?;
    default(alloc, place, path, &members, state)?;
    in_table(members.end(alloc))
}

/// The control of a table's name, `Control.table`.
fn control_of(name: &str) -> &str
    ensures { result.now ≡ tables.control_of name.now }
{
    match name.split_once('.') {
        Some((control, _)) => control,
        None => name,
    }
}

/// What a file says of the table of a name, at the path of its switch.
#[tactic(auto, unfolding(crate::specs::Tables::with_table))]
pub(crate) fn table(
    alloc: Global,
    program: &TypedProgram,
    path: &str,
    state: &mut TableState,
    name: &str,
    value: &Value,
) -> Result<(), TableFault>
    requires { IsStateOf (program_of program.now) state.old }
    ensures answer { Gives (λ _. state.new) result
        (tables.with_table (program_of program.now) path.now state.old (name.now, view value.now)) }
    ensures shapes { shapes state.new ≡ shapes state.old }
{
    let path = member_path(alloc, path, name)?;
    match program.table_number(name) {
        Some(table) => {
            let place = Place {
                program,
                control: control_of(name),
                table,
            };
            members(alloc, place, path.as_str(), state, value)
        }
        None => Err(TableFault::NoSuchTable { path }),
    }
}
