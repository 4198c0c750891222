//! The linked programs of a network.

ghost use Rattle.std.specs.Prelude.{◌≡◌, ◌≤◌, ◌^◌, All, IfErr, IfOk, None, map};
ghost use Rattle.indus_tree.specs.View.{property_of};
ghost use Rattle.indus_tree.specs.Reports.{HasReportsBelow};
ghost use Rattle.flat_laws.specs.Meaning.{IsPlainProperty};
ghost use Rattle.tele_layout.specs.Layouts.{IsLayoutOf};
ghost use Rattle.p4_tree.specs.View.{program_of};
ghost use Rattle.p4_printer.specs.CanSpell.{CanSpell};
ghost use Rattle.link_faults.specs.Faults.{link_fault};
ghost use Rattle.link_checks.specs.Faults.{IsRefused};
ghost use Rattle.faultless_programs.specs.Within.{LeavesRoom};
ghost use Rattle.lower_blocks.specs.Results.{rows_of};
ghost use Rattle.linked_properties.specs.Linked.{AreTextNames};
ghost use Rattle.program_linker.specs.Linked.{AreLinked};

use crate::form::linked_form;
use crate::parts::monitor_of;
use crate::programs::linked_switches;
use control_tables::ControlMap;
use indus_types::TypedProperty;
use link_checks::{LinkFault, check_link};
use network_file::Network;
use p4_parser_states::laws::reaches_is_exact;
use p4_types::TypedProgram;
use std::alloc::Global;
use tele_layout::Layout;

/// What a forwarding program and a property are linked to.
#[derive(Drop)]
pub struct Linked {
    /// The program of each switch, in the network's order.
    pub programs: Vec<TypedProgram>,
    /// The table of each lookup of a control variable, the same at all switches.
    pub map: ControlMap,
    /// Where the telemetry's variables stand.
    pub layout: Layout,
}

/// The linked programs of a forwarding program and a property, one for each switch of a network, with
/// telemetry of at most `room` bytes.
///
/// # Errors
///
/// The first of five refusals, exactly where there is one: a field of a header variable that the program
/// has not, or has otherwise, in order of declaration; a name of the program that is taken; telemetry
/// without room; a property that is too large. Else `NoMemory` alone, where memory runs out.
pub fn link(
    alloc: Global,
    f: &TypedProgram,
    p: &TypedProperty,
    net: &Network,
    room: u16,
) -> Result<Linked, LinkFault>
    requires room { room ≤ 256 }
    requires text { CanSpell (program_of f.now) }
    requires leaves { LeavesRoom (program_of f.now) }
    requires plain { IsPlainProperty (property_of p.now) }
    requires reports { HasReportsBelow (2 ^ 16) (property_of p.now) }
    ensures none { IfOk result (λ _. link_fault (program_of f.now) (property_of p.now) room ≡ None) }
    ensures refused { IfErr result (IsRefused (link_fault (program_of f.now) (property_of p.now) room)) }
    ensures linked { IfOk result (λ o. AreLinked (program_of f.now) (property_of p.now) net.now
        (map program_of o.programs.items) (rows_of o.map)) }
    ensures spelled { IfOk result (λ o. AreTextNames (property_of p.now).decls → All (λ t. CanSpell (program_of t)) o.programs.items) }
    ensures layout { IfOk result (λ o. IsLayoutOf (property_of p.now) o.layout) }
{
    reaches_is_exact();
    let (layout, flat) = check_link(alloc, f.program(), p, room)?;
    let program = linked_form(alloc, f)?;
    let (parts, map) = monitor_of(alloc, p, &flat, &layout, &program)?;
    let count = net.count();
    let programs = linked_switches(alloc, &parts, layout.bytes, net, count, &program)?;
    Ok(Linked {
        programs,
        map,
        layout,
    })
}
