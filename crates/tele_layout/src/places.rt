//! Where the variables of a property stand.

ghost use Rattle.std.specs.Prelude.{◌≡◌, ◌+◌, ◌≤◌, map, IfErr, IfOk};
ghost use Rattle.indus_tree.specs.State.{shape_width, shape_size, width_of};
ghost use Rattle.indus_tree.specs.View.{decl_of, property_of, shape_of};
ghost use Rattle.indus_types.specs.Sums.{decls_bits};
ghost use Rattle.tele_layout.specs.TeleDecls.{AreTele};
ghost use Rattle.tele_layout.specs.Faults.{HasCause};
ghost use Rattle.tele_layout.specs.Layouts.{slot_of, slots_of, IsLayout, IsLayoutOf};
ghost use Rattle.tele_layout.specs.Telemetry.{first_byte};

use crate::fault::LayoutFault;
use crate::slots::{Layout, Slot, length_of};
use indus_tree::{Decl, DeclKind, Shape, Ty};
use indus_types::TypedProperty;
use std::alloc::{AllocError, Global};

/// The first byte of the telemetry.
fn first_byte(edition: u8) -> u8
    ensures { result ≡ first_byte edition }
{
    if edition == 2 { 0x49 } else { 0x48 }
}

fn width_of(t: Ty) -> u8
    ensures { result ≡ width_of t }
{
    match t {
        Ty::Bit(w) => w,
        Ty::Bool => 1,
    }
}

/// The bits of a value, and how many items there is room for.
fn sizes_of(shape: &Shape) -> (u8, u8)
    ensures width { result.0 ≡ shape_width (shape_of shape.now) }
    ensures count { result.1 ≡ shape_size (shape_of shape.now) }
{
    match shape {
        Shape::One(t) => (width_of(*t), 0),
        Shape::List(t, n) => (width_of(*t), *n),
        Shape::SetOf(_) => (1, 0),
        Shape::DictOf(_, t) => (width_of(*t), 0),
    }
}

/// Where a variable of a shape stands.
fn slot_of(number: usize, at: u32, shape: &Shape) -> Slot
    ensures { result ≡ slot_of number at (shape_of shape.now) }
{
    let (width, count) = sizes_of(shape);
    Slot {
        variable: number.min(u32::MAX as usize) as u32,
        at,
        width,
        count,
    }
}

/// Where the variables that travel stand, one behind the other.
fn slots_of(alloc: Global, decls: &[Decl]) -> Result<Vec<Slot>, AllocError>
    requires declared { AreTele (map decl_of decls.now) }
    requires short { 8 + decls_bits (map decl_of decls.now) ≤ 524280 }
    ensures { IfOk result (λ v. v.items ≡ slots_of 0 8 (map decl_of decls.now)) }
{
    let mut slots = Vec::new(alloc);
    let mut at: u32 = 8;
    for (number, d) in decls.iter().enumerate() {
        match d.kind {
            DeclKind::Tele => {
                let slot = slot_of(number, at, &d.shape);
                slots.push(slot)?;
                at += length_of(slot);
            }
            DeclKind::Sensor => {}
            DeclKind::Header => {}
            DeclKind::Control => {}
        }
    }
    Ok(slots)
}

/// Where the variables of a property stand, where they need no more bytes than there is room for.
pub fn layout(alloc: Global, p: &TypedProperty, room: u16) -> Result<Layout, LayoutFault>
    ensures ok { IfOk result (IsLayoutOf (property_of p.now)) }
    ensures placed { IfOk result IsLayout }
    ensures fits { IfOk result (λ l. l.bytes ≤ room) }
    ensures cause { IfErr result (HasCause (property_of p.now) room) }
{
    let need = p.tele_bits().div_ceil(8);
    if need > room as u64 {
        return Err(LayoutFault::RoomShort { need, room });
    }
    let property = p.property();
    let slots = slots_of(alloc, &property.decls)?;
    Ok(Layout {
        first: first_byte(property.edition),
        bytes: need as u16,
        slots,
    })
}
