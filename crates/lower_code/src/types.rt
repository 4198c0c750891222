//! The types of what lowered code holds.

ghost use Rattle.std.specs.Prelude.{◌≡◌};
ghost use Rattle.indus_tree.specs.View.{shape_of};
ghost use Rattle.lookup_names.specs.Keys.{key_types};
ghost use Rattle.lowered_code.specs.Expressions as code;

use indus_tree::{Shape, Ty};
use p4_tree::PTy;

/// The type of one value of a shape.
pub fn value_type(shape: &Shape) -> Ty
    ensures { result ≡ code.value_type (shape_of shape.now) }
{
    match shape {
        Shape::One(ty) | Shape::List(ty, _) | Shape::DictOf(_, ty) => *ty,
        Shape::SetOf(_) => Ty::Bool,
    }
}

/// The type of a field, a cell or a variable that holds values of a type.
pub fn bits_type(ty: Ty) -> PTy
    ensures { result ≡ code.bits_type ty }
{
    match ty {
        Ty::Bit(width) => PTy::Bit(width),
        Ty::Bool => PTy::Bit(1),
    }
}

/// The types of the parts of a key.
pub fn key_types(shape: &Shape) -> &[Ty]
    ensures { result.now ≡ key_types (shape_of shape.now) }
{
    match shape {
        Shape::One(_) | Shape::List(_, _) => &[],
        Shape::SetOf(types) | Shape::DictOf(types, _) => types,
    }
}
