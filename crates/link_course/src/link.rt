//! The linked programs of a network, or why there are none.

ghost use Rattle.std.specs.Prelude.{◌≤◌, ◌^◌, All, IfOk};
ghost use Rattle.indus_tree.specs.View.{property_of};
ghost use Rattle.indus_tree.specs.Reports.{HasReportsBelow};
ghost use Rattle.flat_laws.specs.Meaning.{IsPlainProperty};
ghost use Rattle.tele_layout.specs.Layouts.{IsLayoutOf};
ghost use Rattle.p4_tree.specs.View.{program_of};
ghost use Rattle.p4_printer.specs.CanSpell.{CanSpell};
ghost use Rattle.faultless_programs.specs.Within.{LeavesRoom};
ghost use Rattle.linked_properties.specs.Linked.{AreTextNames};
ghost use Rattle.job_course.specs.Steps.{Judged};
ghost use Rattle.link_course.specs.Links.{IsNotLinked, LinksTo};
ghost use Rattle.link_course.specs.Views.{linked_of};

use crate::lines::{name_text, room_text, weight_text};
use indus_types::TypedProperty;
use job_course::{Refusal, Status, Stop};
use network_file::Network;
use p4_types::TypedProgram;
use program_linker::{LinkFault, Linked, link};
use std::alloc::Global;

/// The linked programs of a forwarding program and a property, one for each switch of a network, with
/// telemetry of at most `room` bytes.
pub fn load_link(
    alloc: Global,
    f: &TypedProgram,
    p: &TypedProperty,
    network: &Network,
    room: u16,
) -> Result<Linked, Stop>
    requires room { room ≤ 256 }
    requires text { CanSpell (program_of f.now) }
    requires leaves { LeavesRoom (program_of f.now) }
    requires plain { IsPlainProperty (property_of p.now) }
    requires reports { HasReportsBelow (2 ^ 16) (property_of p.now) }
    ensures judged { Judged (LinksTo (program_of f.now) (property_of p.now) network.now room) (IsNotLinked (program_of f.now) (property_of p.now) room) linked_of result }
    ensures spelled { IfOk result (λ o. AreTextNames (property_of p.now).decls → All (λ t. CanSpell (program_of t)) o.programs.items) }
    ensures layout { IfOk result (λ o. IsLayoutOf (property_of p.now) o.layout) }
{
    match link(alloc, f, p, network, room) {
        Ok(linked) => Ok(linked),
        Err(LinkFault::NoMemory) => Err(Stop::Starved),
        Err(LinkFault::NoSuchField { name }) => Err(Stop::Refused(Refusal {
            status: Status::NotLinked,
            line: name_text(alloc, "NoSuchField", name.as_str())?,
        })),
        Err(LinkFault::FieldWidth { name }) => Err(Stop::Refused(Refusal {
            status: Status::NotLinked,
            line: name_text(alloc, "FieldWidth", name.as_str())?,
        })),
        Err(LinkFault::NameTaken { name }) => Err(Stop::Refused(Refusal {
            status: Status::NotLinked,
            line: name_text(alloc, "NameTaken", name.as_str())?,
        })),
        Err(LinkFault::RoomShort { need, room }) => Err(Stop::Refused(Refusal {
            status: Status::NotLinked,
            line: room_text(alloc, need, room)?,
        })),
        Err(LinkFault::TooLarge { weight }) => Err(Stop::Refused(Refusal {
            status: Status::NotLinked,
            line: weight_text(alloc, weight)?,
        })),
    }
}
