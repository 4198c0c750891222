//! The declarations of flat code: numbered scalars in the place of the packet's variables.

ghost use Rattle.std.specs.Prelude.{◌≡◌, ◌++◌, ◌∷◌, [], map, IfOk, OnOk};
ghost use Rattle.indus_tree.specs.View.{decl_of, shape_of};
ghost use Rattle.flat_laws.specs.Numbered.{item_decls, numbered, numbered_kind, numbered_shape, scalar_decl};
ghost use Rattle.lower_reads.specs.View.{declared};

use indus_tree::{Decl, DeclKind, Shape, Ty};
use lex_text::Name;
use lower_lists::{count_name, item_name};
use lower_reads::Declarations;
use std::alloc::{AllocError, Global};

/// One scalar of the packet's more.
fn add_scalar(
    alloc: Global,
    at: u32,
    name: Name,
    ty: Ty,
    out: &mut Vec<Decl>,
) -> Result<(), AllocError>
    ensures { OnOk result (map decl_of out.new.items ≡ map decl_of out.old.items ++ scalar_decl at name ty ∷ []) }
{
    out.push(Decl {
        at,
        kind: DeclKind::Tele,
        name,
        shape: Shape::One(ty),
        start: None,
        path: Vec::new(alloc),
        valid: false,
    })?;
    Ok(())
}

/// The items of a list.
fn add_items(
    alloc: Global,
    at: u32,
    number: usize,
    ty: Ty,
    size: u8,
    out: &mut Vec<Decl>,
) -> Result<(), AllocError>
    ensures { OnOk result (map decl_of out.new.items ≡ map decl_of out.old.items ++ item_decls at number ty size) }
{
    for item in 0..size {
        add_scalar(alloc, at, item_name(alloc, number, item)?, ty, out)?;
    }
    Ok(())
}

/// What stands for a variable of the packet's.
fn add_shape(
    alloc: Global,
    at: u32,
    number: usize,
    shape: &Shape,
    out: &mut Vec<Decl>,
) -> Result<(), AllocError>
    ensures { OnOk result (map decl_of out.new.items ≡ map decl_of out.old.items ++ numbered_shape at number (shape_of shape.now)) }
{
    match shape {
        Shape::One(ty) => add_scalar(alloc, at, item_name(alloc, number, 0)?, *ty, out),
        Shape::List(ty, size) => {
            add_scalar(alloc, at, count_name(alloc, number)?, Ty::Bit(8), out)?;
            add_items(alloc, at, number, *ty, *size, out)
        }
        Shape::SetOf(_) | Shape::DictOf(_, _) => Ok(()),
    }
}

/// What stands for a declaration.
fn add_kind(alloc: Global, number: usize, d: &Decl, out: &mut Vec<Decl>) -> Result<(), AllocError>
    ensures { OnOk result (map decl_of out.new.items ≡ map decl_of out.old.items ++ numbered_kind d.now.kind number (decl_of d.now)) }
{
    match d.kind {
        DeclKind::Tele => add_shape(alloc, d.at, number, &d.shape, out),
        DeclKind::Sensor | DeclKind::Header | DeclKind::Control => {
            out.push(d.copy(alloc)?)?;
            Ok(())
        }
    }
}

fn numbered_list(alloc: Global, decls: &[Decl]) -> Result<Vec<Decl>, AllocError>
    ensures { IfOk result (λ v. map decl_of v.items ≡ numbered (map decl_of decls.now)) }
{
    let mut out = Vec::new(alloc);
    for number in 0..decls.len() {
        add_kind(alloc, number, &decls[number], &mut out)?;
    }
    Ok(out)
}

/// The declarations of a property's flat code.
pub(crate) fn numbered(alloc: Global, decls: &[Decl]) -> Result<Declarations, AllocError>
    ensures { IfOk result (λ ds. declared ds ≡ numbered (map decl_of decls.now)) }
{
    Declarations::new(alloc, numbered_list(alloc, decls)?)
}
