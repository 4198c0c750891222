//! A case as it is read, member by member.

ghost use Rattle.std.specs.Prelude.{◌≡◌, map, option_map};
ghost use Rattle.std.specs.Prelude.{codes};
ghost use Rattle.serde_json.specs.View.{view};
ghost use Rattle.json_parts.specs.Object.{number_at};
ghost use Rattle.json_parts.specs.Views.{Gives, object_seen};
ghost use Rattle.case_file.specs.Case as spec;
ghost use Rattle.case_file.specs.Views.{capture_view, capture_views, front_view, case_view};

use crate::case::{Capture, Case};
use json_parts::{Members, ShapeFault, item_path, member_path};
use serde_json::Value;
use std::alloc::Global;

/// The members up to `hops`.
#[derive(Debug, Drop)]
pub(crate) struct Front<'a> {
    pub captures: Vec<Capture<'a>>,
    pub control: Option<&'a str>,
    pub entries: Option<&'a str>,
    pub hops: u8,
}

fn port(alloc: Global, path: &str, members: &Members<'_, '_>) -> Result<u64, ShapeFault>
    ensures { Gives (λ n. n) result (spec.port_at path.now (object_seen members.now)) }
{
    let port = members.maybe(alloc, "port")?;
    match port.and_then(Value::as_u64) {
        Some(port) => Ok(port),
        None => Err(ShapeFault::Shape {
            path: member_path(alloc, path, "port")?,
        }),
    }
}

#[tactic(auto, unfolding(crate::specs::Case::capture_at))]
fn capture_at(alloc: Global, number: usize, value: &Value) -> Result<Capture<'_>, ShapeFault>
    ensures { Gives capture_view result (spec.capture_at number (view value.now)) }
{
    let path = item_path(alloc, "/captures", number)?;
    let members = Members::new(alloc, path.as_str(), &["file", "port", "switch"], value)?;
    let file = members.text(alloc, "file")?;
    let port = port(alloc, path.as_str(), &members)?;
    let switch = members.text(alloc, "switch")?;
    members.end(alloc)?;
    Ok(Capture { switch, port, file })
}

fn captures(alloc: Global, list: &[Value]) -> Result<Vec<Capture<'_>>, ShapeFault>
    ensures { Gives (λ v. capture_views v.items) result (spec.captures_of (map view list.now)) }
{
    let mut captures = Vec::new(alloc);
    for (i, value) in list.iter().enumerate() {
        captures.push(capture_at(alloc, i, value)?)?;
    }
    Ok(captures)
}

fn hops(alloc: Global, members: &Members<'_, '_>) -> Result<u8, ShapeFault>
    ensures { Gives (λ n. n) result (number_at (object_seen members.now) (codes "hops") 1 255 64) }
{
    let hops = members.number(alloc, "hops", 1, 255, 64)?;
    Ok(hops as u8)
}

fn room(alloc: Global, members: &Members<'_, '_>) -> Result<u16, ShapeFault>
    ensures { Gives (λ n. n) result (number_at (object_seen members.now) (codes "room") 1 256 128) }
{
    let room = members.number(alloc, "room", 1, 256, 128)?;
    Ok(room as u16)
}

#[tactic(auto, unfolding(crate::specs::Case::front_of))]
fn front_members<'a>(alloc: Global, members: &Members<'a, '_>) -> Result<Front<'a>, ShapeFault>
    ensures { Gives front_view result (spec.front_of (object_seen members.now)) }
{
    let captures = captures(alloc, members.list(alloc, "captures")?)?;
    let control = members.maybe_text(alloc, "control")?;
    let entries = members.maybe_text(alloc, "entries")?;
    let hops = hops(alloc, members)?;
    Ok(Front {
        captures,
        control,
        entries,
        hops,
    })
}

/// The file of the property, which has to be named where it is needed.
fn property<'a>(
    alloc: Global,
    members: &Members<'a, '_>,
    needed: bool,
) -> Result<Option<&'a str>, ShapeFault>
    ensures { Gives (option_map (λ s. s.now)) result
        (spec.property_at needed (object_seen members.now)) }
{
    if needed {
        Ok(Some(members.text(alloc, "property")?))
    } else {
        members.maybe_text(alloc, "property")
    }
}

#[tactic(auto, unfolding(crate::specs::Case::case_from))]
fn case_from<'a>(
    alloc: Global,
    members: &Members<'a, '_>,
    front: Front<'a>,
    needs_property: bool,
) -> Result<Case<'a>, ShapeFault>
    ensures { Gives case_view result
        (spec.case_from needs_property (object_seen members.now) (front_view front.entry)) }
{
    let network = members.text(alloc, "network")?;
    let program = members.text(alloc, "program")?;
    let property = property(alloc, members, needs_property)?;
    let room = room(alloc, members)?;
    let schedule = members.maybe_text(alloc, "schedule")?;
    members.end(alloc)?;
    Ok(Case {
        captures: front.captures,
        control: front.control,
        entries: front.entries,
        hops: front.hops,
        network,
        program,
        property,
        room,
        schedule,
    })
}

/// The case that a value says. A command that links a property needs one: then `property` has to be
/// there.
///
/// # Errors
///
/// `Shape` exactly where a member is unknown, missing or ill-formed, with the path of the first,
/// members in byte order of their names; else `NoMemory` alone, where memory runs out.
#[tactic(auto, unfolding(crate::specs::Case::case_of))]
pub fn read_case(alloc: Global, value: &Value, needs_property: bool) -> Result<Case<'_>, ShapeFault>
    ensures { Gives case_view result (spec.case_of needs_property (view value.now)) }
{
    let members = Members::new(
        alloc,
        "",
        &[
            "captures", "control", "entries", "hops", "network", "program", "property", "room",
            "schedule",
        ],
        value,
    )?;
    let front = front_members(alloc, &members)?;
    case_from(alloc, &members, front, needs_property)
}
