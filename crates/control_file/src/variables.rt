//! Control variables by their names, and the variables of a switch.

ghost use Rattle.std.specs.Prelude.{◌≡◌, ◌<◌, ◌≤◌, ◌^◌, ◌++◌, true, map, option_map, slice_set, IfOk};
ghost use Rattle.serde_json.specs.View.{view};
ghost use Rattle.json_parts.specs.Turns.{each_in_turn};
ghost use Rattle.json_parts.specs.Views.{fields};
ghost use Rattle.json_values.specs.Views.{Gives};
ghost use Rattle.indus_tree.specs.Hops.{same_kind};
ghost use Rattle.indus_tree.specs.View.{decl_of};
ghost use Rattle.indus_tree.specs.declared.tree.DeclKind.TheVariants.{Control};
ghost use Rattle.indus_values.specs.View.{contents_of};
ghost use Rattle.control_file.specs.Control as control;
ghost use Rattle.control_file.specs.Seats.{one_if_control, seat_numbers, seat_of};
ghost use Rattle.control_file.specs.Views.{variable_view, decls_of, contents_view};

use crate::contents::{contents_at, unset};
use indus_tree::{Decl, DeclKind};
use indus_types::TypedProperty;
use indus_values::ControlValue;
use json_parts::member_path;
use json_values::object_at;
use serde_json::{Map, Value};
use std::alloc::{AllocError, Global};
use table_faults::TableFault;

/// A control variable.
#[derive(Clone, Copy, Debug)]
pub struct Variable<'p> {
    /// Its number among all declarations.
    pub number: u32,
    pub decl: &'p Decl,
}

fn is_control(kind: DeclKind) -> bool
    ensures { result ≡ same_kind Control kind }
{
    match kind {
        DeclKind::Control => true,
        DeclKind::Tele | DeclKind::Sensor | DeclKind::Header => false,
    }
}

/// Whether the declaration of a number is of a control variable that files can set.
fn is_numbered(kind: DeclKind, number: usize) -> bool
    ensures value { result ≡ control.is_numbered kind number }
    ensures small { result ≡ true → number < 2 ^ 32 }
{
    is_control(kind) && number < 1 << 32
}

fn if_control(number: usize, decl: &Decl) -> Option<Variable<'_>>
    ensures { option_map variable_view result ≡ control.if_control number (decl_of decl.now) }
{
    if !is_numbered(decl.kind, number) {
        return None;
    }
    Some(Variable {
        number: number as u32,
        decl,
    })
}

/// The control variable of a name.
pub fn variable_of<'p>(property: &'p TypedProperty, name: &str) -> Option<Variable<'p>>
    ensures { option_map variable_view result ≡ control.variable_of (decls_of property.now) name.now }
{
    let number = property.number(name)?;
    if_control(number, property.property().decls.get(number)?)
}

/// Adds what the variable holds until it is set, where it is a control variable.
fn add_unset(alloc: Global, all: &mut Vec<ControlValue>, decl: &Decl) -> Result<(), AllocError>
    ensures { IfOk result (λ _. contents_view all.new
        ≡ contents_view all.old ++ control.unset_if_control (decl_of decl.now)) }
{
    if is_control(decl.kind) {
        all.push(unset(alloc, &decl.shape))?;
    }
    Ok(())
}

/// What the control variables of a switch hold until they are set.
pub(crate) fn all_unset(alloc: Global, decls: &[Decl]) -> Result<Vec<ControlValue>, AllocError>
    ensures { IfOk result (λ v. contents_view v ≡ control.all_unset (map decl_of decls.now)) }
{
    let mut all = Vec::new(alloc);
    for decl in decls {
        add_unset(alloc, &mut all, decl)?;
    }
    Ok(all)
}

fn one_if_control(kind: DeclKind) -> usize
    ensures value { result ≡ one_if_control kind }
    ensures small { result ≤ 1 }
{
    if is_control(kind) { 1 } else { 0 }
}

/// For each declaration, how many control variables stand before it.
pub(crate) fn seats(alloc: Global, decls: &[Decl]) -> Result<Vec<usize>, AllocError>
    ensures { IfOk result (λ v. v.items ≡ seat_numbers 0 (map decl_of decls.now)) }
{
    let mut seats = Vec::new(alloc);
    let mut next = 0;
    for decl in decls {
        seats.push(next)?;
        next += one_if_control(decl.kind);
    }
    Ok(seats)
}

/// The place of a control variable among them, and its declaration.
fn seated<'p>(property: &'p TypedProperty, seats: &[usize], name: &str) -> Option<(usize, &'p Decl)>
    requires { seats.now ≡ seat_numbers 0 (decls_of property.now) }
    ensures { option_map (λ v. (v.0, decl_of v.1.now)) result
        ≡ option_map (seat_of (decls_of property.now))
        (control.variable_of (decls_of property.now) name.now) }
{
    let variable = variable_of(property, name)?;
    let seat = seats.get(variable.number as usize)?;
    Some((*seat, variable.decl))
}

/// Puts an item in the place of another.
pub(crate) fn put<T: Drop>(list: &mut Vec<T>, place: usize, item: T)
    ensures { list.new.items ≡ slice_set list.old.items place item }
{
    if place < list.len() {
        list[place] = item;
    }
}

/// Sets a variable of the switch whose object is at the path.
fn set_variable(
    alloc: Global,
    property: &TypedProperty,
    seats: &[usize],
    path: &str,
    held: &mut Vec<ControlValue>,
    name: &str,
    value: &Value,
) -> Result<(), TableFault>
    requires { seats.now ≡ seat_numbers 0 (decls_of property.now) }
    ensures { Gives (λ _. contents_view held.new) result (control.set_variable path.now
        (decls_of property.now) (contents_view held.old) (name.now, view value.now)) }
{
    let path = member_path(alloc, path, name)?;
    let Some((seat, decl)) = seated(property, seats, name) else {
        return Err(TableFault::NoSuchVariable { path });
    };
    let contents = contents_at(alloc, path.as_str(), &decl.shape, value)?;
    put(held, seat, contents);
    Ok(())
}

/// What the members of a switch's object set.
fn set_variables(
    alloc: Global,
    property: &TypedProperty,
    seats: &[usize],
    path: &str,
    object: &Map<String, Value>,
) -> Result<Vec<ControlValue>, TableFault>
    requires { seats.now ≡ seat_numbers 0 (decls_of property.now) }
    ensures { Gives contents_view result (each_in_turn
        (control.set_variable path.now (decls_of property.now))
        (control.all_unset (decls_of property.now)) (fields object.now.entries)) }
{
    let mut held = all_unset(alloc, &property.property().decls)?;
    for (name, value) in object {
        set_variable(
            alloc,
            property,
            seats,
            path,
            &mut held,
            name.as_str(),
            value,
        )?;
    }
    Ok(held)
}

/// The contents of all control variables of the switch whose object is at the path.
pub(crate) fn variables_at(
    alloc: Global,
    property: &TypedProperty,
    seats: &[usize],
    path: &str,
    value: &Value,
) -> Result<Vec<ControlValue>, TableFault>
    requires { seats.now ≡ seat_numbers 0 (decls_of property.now) }
    ensures { Gives contents_view result
        (control.variables_at path.now (decls_of property.now) (view value.now)) }
{
    let object = object_at(alloc, path, value)?;
    set_variables(alloc, property, seats, path, object)
}
