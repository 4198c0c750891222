//! The members of a schedule.

ghost use Rattle.std.specs.Prelude.{◌≡◌, option_map};
ghost use Rattle.serde_json.specs.View.{view};
ghost use Rattle.schedule_file.specs.Members as members;
ghost use Rattle.schedule_file.specs.Views.{Gives, around_view, member_view, decls_in};

use crate::fault::ScheduleFault;
use crate::set::{Setting, read_set};
use indus_types::TypedProperty;
use json_parts::object_of;
use network_file::Network;
use serde_json::Value;
use std::alloc::Global;
use table_faults::TableFault;

/// For what a schedule is read.
#[derive(Clone, Copy)]
pub(crate) struct Around<'a> {
    /// How many packets there are.
    pub packets: u32,
    pub property: Option<&'a TypedProperty>,
    pub network: &'a Network,
}

/// What a member of a schedule says.
#[derive(Debug, Drop)]
pub(crate) enum Member {
    /// A packet's whole passage of a switch.
    Passage(u32),
    /// Its entry half.
    Enter(u32),
    /// Its exit half.
    Leave(u32),
    /// New contents of a control variable.
    Set(Setting),
    /// The same, which nobody reads, since there is no property.
    Unread,
}

fn known_packet(around: Around<'_>, at: u32, number: u64) -> Result<u32, ScheduleFault>
    ensures { result ≡ members.known_packet (around_view around.entry) at number }
{
    if number < around.packets as u64 {
        Ok(number as u32)
    } else {
        Err(ScheduleFault::NoSuchPacket { at })
    }
}

fn packet(around: Around<'_>, at: u32, value: &Value) -> Result<u32, ScheduleFault>
    ensures { result ≡ members.packet_at (around_view around.entry) at (view value.now) }
{
    match value.as_u64() {
        Some(number) => known_packet(around, at, number),
        None => Err(ScheduleFault::Shape { at }),
    }
}

fn control_fault(at: u32, fault: TableFault) -> ScheduleFault
    ensures { result ≡ members.control_fault at fault }
{
    match fault {
        TableFault::NoMemory => ScheduleFault::NoMemory,
        fault => ScheduleFault::Control { at, fault },
    }
}

fn set(alloc: Global, around: Around<'_>, at: u32, value: &Value) -> Result<Member, ScheduleFault>
    ensures { Gives member_view result (members.set_for (decls_in around.entry.property)
        around.entry.network.now.names at (view value.now)) }
{
    let Some(property) = around.property else {
        return Ok(Member::Unread);
    };
    match read_set(alloc, value, property, around.network) {
        Ok(setting) => Ok(Member::Set(setting)),
        Err(fault) => Err(control_fault(at, fault)),
    }
}

fn named_member(
    alloc: Global,
    around: Around<'_>,
    at: u32,
    name: &str,
    value: &Value,
) -> Result<Member, ScheduleFault>
    ensures { Gives member_view result
        (members.named_member (around_view around.entry) at name.now (view value.now)) }
{
    if name == "enter" {
        Ok(Member::Enter(packet(around, at, value)?))
    } else if name == "leave" {
        Ok(Member::Leave(packet(around, at, value)?))
    } else if name == "set" {
        set(alloc, around, at, value)
    } else {
        Err(ScheduleFault::Shape { at })
    }
}

/// The name and the value of an object's only member.
fn only_member(value: &Value) -> Option<(&str, &Value)>
    ensures { option_map (λ m. (m.0.now, view m.1.now)) result
        ≡ members.only_member (view value.now) }
{
    let mut members = object_of(value)?.iter();
    let (name, value) = members.next()?;
    if members.next().is_some() {
        return None;
    }
    Some((name.as_str(), value))
}

/// The member of a number.
pub(crate) fn read_member(
    alloc: Global,
    around: Around<'_>,
    at: u32,
    value: &Value,
) -> Result<Member, ScheduleFault>
    ensures { Gives member_view result
        (members.member_of (around_view around.entry) at (view value.now)) }
{
    if let Some(number) = value.as_u64() {
        return Ok(Member::Passage(known_packet(around, at, number)?));
    }
    let Some((name, value)) = only_member(value) else {
        return Err(ScheduleFault::Shape { at });
    };
    named_member(alloc, around, at, name, value)
}
