//! The five refusals, in their order.

ghost use Rattle.std.specs.Prelude.{◌≡◌, IfErr, IfOk, None};
ghost use Rattle.indus_tree.specs.View.{property_of};
ghost use Rattle.p4_tree.specs.View.{program_of};
ghost use Rattle.lower_lists.specs.FlatProperty.{IsFlatOf};
ghost use Rattle.tele_layout.specs.Layouts.{IsLayoutOf};
ghost use Rattle.link_faults.specs.Faults.{link_fault, room_fault, weight_fault};
ghost use Rattle.link_checks.specs.Faults.{IsRefused};

use crate::fault::LinkFault;
use crate::fields::check_fields;
use crate::text::check_names;
use indus_types::TypedProperty;
use lower_lists::{FlatProperty, LowerFault, flatten};
use p4_tree::Program;
use std::alloc::Global;
use tele_layout::{Layout, LayoutFault, layout};

/// The layout of a property, where it fits the room.
fn check_room(alloc: Global, p: &TypedProperty, room: u16) -> Result<Layout, LinkFault>
    ensures none { IfOk result (λ _. room_fault (property_of p.now) room ≡ None) }
    ensures layout { IfOk result (IsLayoutOf (property_of p.now)) }
    ensures cause { IfErr result (IsRefused (room_fault (property_of p.now) room)) }
{
    match layout(alloc, p, room) {
        Ok(l) => Ok(l),
        Err(LayoutFault::RoomShort { need, room }) => Err(LinkFault::RoomShort { need, room }),
        Err(LayoutFault::NoMemory) => Err(LinkFault::NoMemory),
    }
}

/// The flat code of a property, where it is not too large.
fn check_weight(alloc: Global, p: &TypedProperty) -> Result<FlatProperty, LinkFault>
    ensures none { IfOk result (λ _. weight_fault (property_of p.now) ≡ None) }
    ensures flat { IfOk result (IsFlatOf (property_of p.now)) }
    ensures cause { IfErr result (IsRefused (weight_fault (property_of p.now))) }
{
    match flatten(alloc, p) {
        Ok(flat) => Ok(flat),
        Err(LowerFault::TooLarge { weight }) => Err(LinkFault::TooLarge { weight }),
        Err(LowerFault::NoMemory) => Err(LinkFault::NoMemory),
    }
}

/// The layout and the flat code of a property that a program can be linked with, in a room of so many
/// bytes.
///
/// # Errors
///
/// The refusal that there is, and none where there is none; else `NoMemory` alone.
#[tactic(auto, using(crate::proofs::Orders::refused_first, crate::proofs::Orders::refused_then, crate::proofs::Orders::none_then))]
pub fn check_link(
    alloc: Global,
    f: &Program,
    p: &TypedProperty,
    room: u16,
) -> Result<(Layout, FlatProperty), LinkFault>
    ensures none { IfOk result (λ _. link_fault (program_of f.now) (property_of p.now) room ≡ None) }
    ensures layout { IfOk result (λ r. IsLayoutOf (property_of p.now) r.0) }
    ensures flat { IfOk result (λ r. IsFlatOf (property_of p.now) r.1) }
    ensures cause { IfErr result (IsRefused (link_fault (program_of f.now) (property_of p.now) room)) }
{
    check_fields(alloc, f, &p.property().decls)?;
    check_names(alloc, f)?;
    let l = check_room(alloc, p, room)?;
    let flat = check_weight(alloc, p)?;
    Ok((l, flat))
}
