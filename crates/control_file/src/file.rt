//! A file of contents.

ghost use Rattle.std.specs.Prelude.{◌≡◌, map, IfOk};
ghost use Rattle.serde_json.specs.View.{view};
ghost use Rattle.json_parts.specs.Turns.{each_in_turn};
ghost use Rattle.json_parts.specs.Views.{fields};
ghost use Rattle.json_values.specs.Views.{Gives};
ghost use Rattle.indus_tree.specs.View.{decl_of};
ghost use Rattle.indus_values.specs.View.{contents_of};
ghost use Rattle.control_file.specs.Contents as contents;
ghost use Rattle.control_file.specs.Control as control;
ghost use Rattle.control_file.specs.Seats.{seat_numbers};
ghost use Rattle.control_file.specs.Views.{decls_of, switches_view};

use crate::contents::contents_at;
use crate::variables::{all_unset, put, seats, variables_at};
use indus_tree::Decl;
use indus_types::TypedProperty;
use indus_values::ControlValue;
use json_parts::member_path;
use json_values::object_at;
use network_file::Network;
use serde_json::{Map, Value};
use std::alloc::{AllocError, Global};
use table_faults::TableFault;

/// The contents of a control variable.
///
/// # Errors
///
/// The value's first fault, its path being below that of the value, exactly where it has one; else
/// `NoMemory` alone, where memory runs out. `KeyTwice` comes at the later key, before its value is
/// looked at.
pub fn read_contents(
    alloc: Global,
    path: &str,
    value: &Value,
    decl: &Decl,
) -> Result<ControlValue, TableFault>
    ensures { Gives contents_of result
        (contents.contents_at path.now (decl_of decl.now).shape (view value.now)) }
{
    contents_at(alloc, path, &decl.shape, value)
}

/// What all switches of a network hold until their variables are set.
pub fn contents_before(
    alloc: Global,
    property: &TypedProperty,
    network: &Network,
) -> Result<Vec<Vec<ControlValue>>, AllocError>
    ensures { IfOk result (λ v. switches_view v
        ≡ map (λ name. control.all_unset (decls_of property.now)) network.now.names) }
{
    let mut held = Vec::new(alloc);
    for i in 0..network.count() {
        held.push(all_unset(alloc, &property.property().decls)?)?;
    }
    Ok(held)
}

/// Sets the variables of a switch.
fn set_switch(
    alloc: Global,
    property: &TypedProperty,
    seats: &[usize],
    network: &Network,
    held: &mut Vec<Vec<ControlValue>>,
    name: &str,
    value: &Value,
) -> Result<(), TableFault>
    requires { seats.now ≡ seat_numbers 0 (decls_of property.now) }
    ensures { Gives (λ _. switches_view held.new) result (control.set_switch (decls_of property.now)
        network.now.names (switches_view held.old) (name.now, view value.now)) }
{
    let path = member_path(alloc, "", name)?;
    let Some(switch) = network.number(name) else {
        return Err(TableFault::NoSuchSwitch { path });
    };
    let contents = variables_at(alloc, property, seats, path.as_str(), value)?;
    put(held, switch as usize, contents);
    Ok(())
}

/// Sets the variables of all switches that the file names.
fn set_switches(
    alloc: Global,
    property: &TypedProperty,
    network: &Network,
    object: &Map<String, Value>,
) -> Result<Vec<Vec<ControlValue>>, TableFault>
    ensures { Gives switches_view result (each_in_turn
        (control.set_switch (decls_of property.now) network.now.names)
        (map (λ name. control.all_unset (decls_of property.now)) network.now.names)
        (fields object.now.entries)) }
{
    let seats = seats(alloc, &property.property().decls)?;
    let mut held = contents_before(alloc, property, network)?;
    for (name, value) in object {
        set_switch(
            alloc,
            property,
            &seats,
            network,
            &mut held,
            name.as_str(),
            value,
        )?;
    }
    Ok(held)
}

/// The contents of the control variables at each switch of the network, in order of declaration. A
/// variable that the file does not name holds 0, false or no keys there.
///
/// # Errors
///
/// The file's first fault, with its path, exactly where it has one: members in the byte order of
/// their names, arrays in order. Else `NoMemory` alone, where memory runs out.
#[tactic(auto, unfolding(crate::specs::Control::control_of))]
pub fn load_control(
    alloc: Global,
    value: &Value,
    property: &TypedProperty,
    network: &Network,
) -> Result<Vec<Vec<ControlValue>>, TableFault>
    ensures { Gives switches_view result
        (control.control_of (decls_of property.now) network.now.names (view value.now)) }
{
    let object = object_at(alloc, "", value)?;
    set_switches(alloc, property, network, object)
}
