//! Names and what stands in their place.

ghost use Rattle.std.specs.Prelude.{◌≡◌, IfOk};
ghost use Rattle.std.specs.Option.{option_map};
ghost use Rattle.indus_tree.specs.State.{lookup};
ghost use Rattle.indus_tree.specs.View.{decl_of, property_of, shape_of};
ghost use Rattle.lower_lists.specs.Flat.{list_number, list_of, list_of_shape, name_of_kind, source, target};

use crate::place::{Bound, ListPlace};
use indus_tree::{Decl, DeclKind, Shape};
use indus_types::TypedProperty;
use lex_text::Name;
use list_pushes::item_name;
use std::alloc::{AllocError, Global};

/// The declaration of a name.
pub fn find<'a>(typed: &'a TypedProperty, name: &Name) -> Option<&'a Decl>
    ensures { option_map (λ d. decl_of d.now) result ≡ lookup (property_of typed.now).decls name.now }
{
    match typed.number(name.as_str()) {
        Some(number) => typed.property().decls.get(number),
        None => None,
    }
}

/// The list that a shape is.
fn list_of_shape(number: usize, shape: &Shape) -> Option<ListPlace>
    ensures { result ≡ list_of_shape number (shape_of shape.now) }
{
    match shape {
        Shape::List(item, size) => Some(ListPlace {
            number,
            item: *item,
            size: *size,
        }),
        Shape::One(_) | Shape::SetOf(_) | Shape::DictOf(_, _) => None,
    }
}

/// The list of a name.
pub fn list_of(typed: &TypedProperty, name: &Name) -> Option<ListPlace>
    ensures { result ≡ list_of (property_of typed.now).decls name.now }
{
    let number = typed.number(name.as_str())?;
    let declaration = find(typed, name)?;
    list_of_shape(number, &declaration.shape)
}

/// The number of a list, and 0 where the name is of none.
pub fn list_number(typed: &TypedProperty, name: &Name) -> usize
    ensures { result ≡ list_number (property_of typed.now).decls name.now }
{
    match list_of(typed, name) {
        Some(list) => list.number,
        None => 0,
    }
}

/// The name that stands in place of the name of a variable of a kind.
fn name_of_kind(
    alloc: Global,
    kind: DeclKind,
    number: usize,
    name: &Name,
) -> Result<Name, AllocError>
    ensures { IfOk result (λ n. n ≡ name_of_kind kind number name.now) }
{
    match kind {
        DeclKind::Tele => item_name(alloc, number, 0),
        DeclKind::Sensor => name.copy(alloc),
        DeclKind::Header => name.copy(alloc),
        DeclKind::Control => name.copy(alloc),
    }
}

/// The name that stands in place of a name outside loops.
pub fn target(alloc: Global, typed: &TypedProperty, name: &Name) -> Result<Name, AllocError>
    ensures { IfOk result (λ n. n ≡ target (property_of typed.now).decls name.now) }
{
    match typed.number(name.as_str()) {
        None => name.copy(alloc),
        Some(number) => match find(typed, name) {
            None => name.copy(alloc),
            Some(declaration) => name_of_kind(alloc, declaration.kind, number, name),
        },
    }
}

/// The name that stands in place of a name that is read.
pub fn source(
    alloc: Global,
    typed: &TypedProperty,
    bounds: &[Bound],
    name: &Name,
) -> Result<Name, AllocError>
    ensures { IfOk result (λ n. n ≡ source (property_of typed.now).decls bounds.now name.now) }
{
    for b in bounds {
        if b.name.as_str() == name.as_str() {
            return item_name(alloc, b.list, b.turn);
        }
    }
    target(alloc, typed, name)
}
