//! The register of a sensor, and what its cells hold.

ghost use Rattle.std.specs.Prelude.{◌≡◌, IfOk};
ghost use Rattle.indus_tree.specs.View.{decl_of, shape_of};
ghost use Rattle.sensor_registers.specs.Registers.{cell_type, cells_type, cell_count, register_of, cell_value};

use bit_values::Bits;
use indus_tree::{Decl, Shape, Ty};
use lex_text::Name;
use p4_tree::{PTy, Register};
use std::alloc::{AllocError, Global};

/// The type of a cell that holds values of a type.
fn cell_type(ty: Ty) -> PTy
    ensures { result ≡ cell_type ty }
{
    match ty {
        Ty::Bit(width) => PTy::Bit(width),
        Ty::Bool => PTy::Bit(1),
    }
}

/// The type of the cells of what has a shape.
fn cells_type(shape: &Shape) -> PTy
    ensures { result ≡ cells_type (shape_of shape.now) }
{
    match shape {
        Shape::One(ty) => cell_type(*ty),
        Shape::List(ty, _) => cell_type(*ty),
        Shape::SetOf(_) | Shape::DictOf(_, _) => PTy::Bit(1),
    }
}

/// How many cells there are for what has a shape.
fn cell_count(shape: &Shape) -> u128
    ensures { result ≡ cell_count (shape_of shape.now) }
{
    match shape {
        Shape::One(_) => 1,
        Shape::List(_, count) => u128::from(*count),
        Shape::SetOf(_) | Shape::DictOf(_, _) => 0,
    }
}

/// The register of a sensor.
pub fn register_for(alloc: Global, sensor: &Decl) -> Result<Register, AllocError>
    ensures { IfOk result (λ r. r ≡ register_of (decl_of sensor.now)) }
{
    let name = Name::joined(alloc, "hydra_s_", sensor.name.as_str())?;
    Ok(Register {
        at: 0,
        ty: cells_type(&sensor.shape),
        count: cell_count(&sensor.shape),
        name,
    })
}

/// What a cell holds where the sensor has `value` and began with `start`, and likewise the value of
/// what a cell holds: the xor of both.
pub fn cell_value(start: Bits, value: Bits) -> Bits
    requires { start.width ≡ value.width }
    ensures { result ≡ cell_value start value }
{
    value.bit_xor(start)
}
