//! What a member of a schedule sets.

ghost use Rattle.std.specs.Prelude.{◌≡◌, codes, option_map};
ghost use Rattle.serde_json.specs.View.{view};
ghost use Rattle.json_parts.specs.Views.{object_seen};
ghost use Rattle.json_values.specs.Views.{Gives};
ghost use Rattle.control_file.specs.Control as control;
ghost use Rattle.control_file.specs.Views.{decls_of, variable_view};
ghost use Rattle.indus_values.specs.View.{contents_of};
ghost use Rattle.schedule_file.specs.Sets as sets;
ghost use Rattle.schedule_file.specs.Views.{set_view};

use control_file::{Variable, read_contents, variable_of};
use indus_types::TypedProperty;
use indus_values::ControlValue;
use json_parts::{Members, member_path};
use json_values::{in_table, shape_refused};
use network_file::Network;
use serde_json::Value;
use std::alloc::Global;
use table_faults::TableFault;

/// The contents that a control variable gets at a switch.
#[derive(Debug, Drop)]
pub(crate) struct Setting {
    pub switch: u16,
    pub variable: u32,
    pub contents: ControlValue,
}

/// The switch that the object names.
fn switch(alloc: Global, members: &Members<'_, '_>, network: &Network) -> Result<u16, TableFault>
    ensures { Gives (λ s. s) result (sets.switch_in network.now.names (object_seen members.now)) }
{
    let name = in_table(members.text(alloc, "switch"))?;
    match network.number(name) {
        Some(switch) => Ok(switch),
        None => {
            let path = member_path(alloc, "/set", "switch")?;
            Err(TableFault::NoSuchSwitch { path })
        }
    }
}

/// The value that the object has.
fn value<'a>(alloc: Global, members: &Members<'a, '_>) -> Result<&'a Value, TableFault>
    ensures { Gives (λ v. view v.now) result (sets.value_in (object_seen members.now)) }
{
    match in_table(members.maybe(alloc, "value"))? {
        Some(value) => Ok(value),
        None => Err(shape_refused(alloc, "/set/value")),
    }
}

/// The control variable that the object names, wherever its name stands among the members.
fn named<'p>(value: &Value, property: &'p TypedProperty) -> Option<Variable<'p>>
    ensures { option_map variable_view result
        ≡ sets.named_in (decls_of property.now) (view value.now) }
{
    let name = value.get("variable")?.as_str()?;
    variable_of(property, name)
}

/// What the variable is set to.
fn setting_to(
    alloc: Global,
    members: &Members<'_, '_>,
    switch: u16,
    value: &Value,
    variable: Variable<'_>,
) -> Result<Setting, TableFault>
    ensures { Gives set_view result
        (sets.setting_to (object_seen members.now) switch (view value.now) (variable_view variable.entry)) }
{
    let contents = read_contents(alloc, "/set/value", value, variable.decl)?;
    in_table(members.text(alloc, "variable"))?;
    Ok(Setting {
        switch,
        variable: variable.number,
        contents,
    })
}

/// Why the object names no control variable.
fn unnamed(alloc: Global, members: &Members<'_, '_>) -> Result<Setting, TableFault>
    ensures { Gives set_view result (sets.unnamed (object_seen members.now)) }
{
    in_table(members.text(alloc, "variable"))?;
    let path = member_path(alloc, "/set", "variable")?;
    Err(TableFault::NoSuchVariable { path })
}

/// What the object sets, with the variable that it names.
fn setting_by(
    alloc: Global,
    members: &Members<'_, '_>,
    named: Option<Variable<'_>>,
    network: &Network,
) -> Result<Setting, TableFault>
    ensures { Gives set_view result
        (sets.setting_by network.now.names (object_seen members.now) (option_map variable_view named.entry)) }
{
    let switch = switch(alloc, members, network)?;
    let value = value(alloc, members)?;
    match named {
        Some(variable) => setting_to(alloc, members, switch, value, variable),
        None => unnamed(alloc, members),
    }
}

/// What the value at `/set` of a member sets.
pub(crate) fn read_set(
    alloc: Global,
    value: &Value,
    property: &TypedProperty,
    network: &Network,
) -> Result<Setting, TableFault>
    ensures { Gives set_view result
        (sets.setting_of (decls_of property.now) network.now.names (view value.now)) }
{
    let members = in_table(Members::new(alloc, "/set", &["switch", "value", "variable"], value))?;
    let setting = setting_by(alloc, &members, named(value, property), network)?;
    in_table(members.end(alloc))?;
    Ok(setting)
}
