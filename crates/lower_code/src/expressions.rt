//! Expressions of flat code in P4.

ghost use Rattle.std.specs.Prelude.{◌≡◌, map, IfOk};
ghost use Rattle.std.specs.Option.{option_map};
ghost use Rattle.indus_tree.specs.View.{decl_of, expr_of as indus_expr, exprs_of as indus_exprs};
ghost use Rattle.p4_tree.specs.Tree as p4;
ghost use Rattle.p4_tree.specs.declared.statement.PTy.TheVariants as type;
ghost use Rattle.p4_tree.specs.View.{expr_of};
ghost use Rattle.lowered_code.specs.Environment.{in_control, rooted_view, tele_path};
ghost use Rattle.lowered_code.specs.Expressions as code;
ghost use Rattle.indus_tree.specs.State.{lookup};
ghost use Rattle.lower_code.specs.Bits.{bit_again, path_again};
ghost use Rattle.lower_code.specs.View.{environment_of, roots_of};
ghost use Rattle.lower_reads.specs.View.{declared, lent};

use crate::roots::{Roots, rooted_path};
use crate::tree::{binary, cast, number, variable};
use crate::types::value_type;
use indus_tree::{Decl, DeclKind, Expr, Op, Ty};
use lex_text::Name;
use lookup_names::found_name;
use lower_reads::{Declarations, number_at, place_in};
use p4_tree::{Expr as P4Expr, Op as P4Op, PTy};
use p4_values::parent;
use std::alloc::{AllocError, Global};

/// The same operator in P4.
pub(crate) fn lowered_op(op: Op) -> P4Op
    ensures { result ≡ code.lowered_op op }
{
    match op {
        Op::Mul => P4Op::Mul,
        Op::Add => P4Op::Add,
        Op::Sub => P4Op::Sub,
        Op::Shl => P4Op::Shl,
        Op::Shr => P4Op::Shr,
        Op::BitAnd => P4Op::BitAnd,
        Op::BitXor => P4Op::BitXor,
        Op::BitOr => P4Op::BitOr,
        Op::Less => P4Op::Less,
        Op::LessEq => P4Op::LessEq,
        Op::More => P4Op::More,
        Op::MoreEq => P4Op::MoreEq,
        Op::Equal => P4Op::Equal,
        Op::Differ => P4Op::Differ,
        Op::Both => P4Op::Both,
        Op::Either => P4Op::Either,
    }
}

/// Bits as a value of a type.
fn of_bits(alloc: Global, ty: Ty, bits: P4Expr) -> Result<P4Expr, AllocError>
    ensures { IfOk result (λ e. expr_of e ≡ code.of_bits ty (expr_of bits)) }
{
    match ty {
        Ty::Bit(_) => Ok(bits),
        Ty::Bool => cast(alloc, PTy::Bool, bits),
    }
}

/// What is read, where that is a path.
fn path_again(alloc: Global, made: &P4Expr) -> Result<Option<P4Expr>, AllocError>
    ensures { IfOk result (λ o. option_map expr_of o ≡ path_again (expr_of made.now)) }
{
    match made {
        P4Expr::Path(..) => Ok(Some(made.copy(alloc)?)),
        P4Expr::Num(..) | P4Expr::Flag(..) | P4Expr::Valid(..) | P4Expr::Applied(..) => Ok(None),
        P4Expr::ErrorName(..) | P4Expr::Not(..) | P4Expr::Invert(..) | P4Expr::Negate(..) => Ok(
            None,
        ),
        P4Expr::Bin(..) | P4Expr::Choice(..) | P4Expr::Slice(..) | P4Expr::Cast(..) => Ok(None),
    }
}

/// A truth value as one bit, where it is written, or where it is one bit that was read.
fn bit_again(alloc: Global, value: &P4Expr) -> Result<Option<P4Expr>, AllocError>
    ensures { IfOk result (λ o. option_map expr_of o ≡ bit_again (expr_of value.now)) }
{
    match value {
        P4Expr::Flag(_, written) => Ok(Some(number(1, u128::from(*written)))),
        P4Expr::Cast(_, PTy::Bool, made) => path_again(alloc, made),
        P4Expr::Cast(_, PTy::Bit(_), _) | P4Expr::Cast(_, PTy::Named(_), _) => Ok(None),
        P4Expr::Num(..) | P4Expr::Path(..) | P4Expr::Valid(..) | P4Expr::Applied(..) => Ok(None),
        P4Expr::ErrorName(..) | P4Expr::Not(..) | P4Expr::Invert(..) | P4Expr::Negate(..) => Ok(
            None,
        ),
        P4Expr::Bin(..) | P4Expr::Choice(..) | P4Expr::Slice(..) => Ok(None),
    }
}

/// A truth value as one bit.
fn as_bit(alloc: Global, value: P4Expr) -> Result<P4Expr, AllocError>
    ensures { IfOk result (λ e. expr_of e ≡ code.as_bit (expr_of value)) }
{
    match bit_again(alloc, &value)? {
        Some(bit) => Ok(bit),
        None => cast(alloc, PTy::Bit(1), value),
    }
}

/// A value of a type as bits.
pub(crate) fn to_bits(alloc: Global, ty: Ty, value: P4Expr) -> Result<P4Expr, AllocError>
    ensures { IfOk result (λ e. expr_of e ≡ code.to_bits ty (expr_of value)) }
{
    match ty {
        Ty::Bit(_) => Ok(value),
        Ty::Bool => as_bit(alloc, value),
    }
}

/// The field of a numbered scalar.
pub(crate) fn tele_path(alloc: Global, roots: &Roots, name: &Name) -> Result<Vec<Name>, AllocError>
    ensures { IfOk result (λ v. v.items ≡ tele_path (in_control (roots_of roots.now)) name.now) }
{
    let mut path = Vec::new(alloc);
    path.push(roots.headers.copy(alloc)?)?;
    path.push(Name::new(alloc, "hydra_tele")?)?;
    path.push(Name::joined(alloc, "hydra_v_", name.as_str())?)?;
    Ok(path)
}

/// What a header variable reads.
fn view_of(alloc: Global, roots: &Roots, d: &Decl) -> Result<P4Expr, AllocError>
    ensures { IfOk result (λ e. expr_of e ≡ rooted_view (roots_of roots.now) (decl_of d.now)) }
{
    if d.valid {
        return Ok(P4Expr::Valid(0, rooted_path(alloc, roots, parent(&d.path))?));
    }
    Ok(P4Expr::Path(0, rooted_path(alloc, roots, &d.path)?))
}

/// Where an expression stands: the names around it, the declarations, and what was read before its
/// statement, with the number of the first of these.
#[derive(Clone, Copy)]
pub(crate) struct Place<'a> {
    pub roots: &'a Roots,
    pub decls: &'a Declarations,
    pub base: u32,
    pub reads: &'a [&'a Expr],
}

/// The variable of what was read before.
fn found(alloc: Global, place: &Place<'_>, e: &Expr, ty: Ty) -> Result<P4Expr, AllocError>
    ensures { IfOk result (λ r. expr_of r
        ≡ code.found (environment_of place.now.roots.now) (declared place.now.decls.now) place.now.base (lent place.now.reads.now) (indus_expr e.now) ty) }
{
    let number = number_at(place.base, place_in(place.reads, e))?;
    let name = found_name(alloc, number)?;
    of_bits(alloc, ty, variable(alloc, name)?)
}

/// What the language itself names.
fn built_in(alloc: Global, name: &Name) -> Result<P4Expr, AllocError>
    ensures { (r : Roots) → IfOk result (λ e. expr_of e ≡ code.built_in (environment_of r) name.now) }
{
    let text = if name.as_str() == "first_hop" {
        "hydra_first"
    } else if name.as_str() == "last_hop" {
        "hydra_last"
    } else {
        "hydra_switch"
    };
    variable(alloc, Name::new(alloc, text)?)
}

/// A name that is read.
fn lowered_name(
    alloc: Global,
    place: &Place<'_>,
    e: &Expr,
    name: &Name,
) -> Result<P4Expr, AllocError>
    ensures { IfOk result (λ r. expr_of r
        ≡ code.name_for (environment_of place.now.roots.now) (declared place.now.decls.now) place.now.base (lent place.now.reads.now)
        (lookup (declared place.now.decls.now) name.now) (indus_expr e.now) name.now) }
{
    match place.decls.find(name) {
        None => built_in(alloc, name),
        Some(d) => match d.kind {
            DeclKind::Tele => {
                let path = tele_path(alloc, place.roots, name)?;
                of_bits(alloc, value_type(&d.shape), P4Expr::Path(0, path))
            }
            DeclKind::Header => view_of(alloc, place.roots, d),
            DeclKind::Sensor | DeclKind::Control => found(alloc, place, e, value_type(&d.shape)),
        },
    }
}

/// What a cell, a dict or a set gives, which was read before.
fn lowered_found(
    alloc: Global,
    place: &Place<'_>,
    e: &Expr,
    name: &Name,
) -> Result<P4Expr, AllocError>
    ensures { IfOk result (λ r. expr_of r
        ≡ code.found_for (environment_of place.now.roots.now) (declared place.now.decls.now) place.now.base (lent place.now.reads.now)
        (lookup (declared place.now.decls.now) name.now) (indus_expr e.now)) }
{
    match place.decls.find(name) {
        None => Ok(P4Expr::Flag(0, false)),
        Some(d) => found(alloc, place, e, value_type(&d.shape)),
    }
}

/// An expression in P4.
pub(crate) fn lowered(alloc: Global, place: &Place<'_>, e: &Expr) -> Result<P4Expr, AllocError>
    ensures { IfOk result (λ r. expr_of r
        ≡ code.lowered (environment_of place.now.roots.now) (declared place.now.decls.now) place.now.base (lent place.now.reads.now) (indus_expr e.now)) }
{
    match e {
        Expr::Num(_, n) => Ok(P4Expr::Num(0, *n)),
        Expr::Flag(_, value) => Ok(P4Expr::Flag(0, *value)),
        Expr::Read(_, name) => lowered_name(alloc, place, e, name),
        Expr::Length(_, _) => Ok(P4Expr::Flag(0, false)),
        Expr::Index(_, name, _) => lowered_found(alloc, place, e, name),
        Expr::Member(_, _, name) => lowered_found(alloc, place, e, name),
        Expr::Not(_, a) => {
            let a = lowered(alloc, place, a)?;
            Ok(P4Expr::Not(0, Box::new(alloc, a)?))
        }
        Expr::Invert(_, a) => {
            let a = lowered(alloc, place, a)?;
            Ok(P4Expr::Invert(0, Box::new(alloc, a)?))
        }
        Expr::Bin(_, op, a, b) => {
            let a = lowered(alloc, place, a)?;
            let b = lowered(alloc, place, b)?;
            binary(alloc, lowered_op(*op), a, b)
        }
        Expr::Cast(_, width, a) => {
            let a = lowered(alloc, place, a)?;
            cast(alloc, PTy::Bit(*width), a)
        }
    }
}

/// Expressions in P4.
pub(crate) fn lowered_all(
    alloc: Global,
    place: &Place<'_>,
    all: &[Expr],
) -> Result<Vec<P4Expr>, AllocError>
    ensures { IfOk result (λ v. map expr_of v.items
        ≡ code.lowered_all (environment_of place.now.roots.now) (declared place.now.decls.now) place.now.base (lent place.now.reads.now) (indus_exprs all.now)) }
{
    let mut out = Vec::new(alloc);
    for e in all {
        out.push(lowered(alloc, place, e)?)?;
    }
    Ok(out)
}

/// Whether an expression has no width of its own.
fn is_bare(e: &Expr) -> bool
    ensures { result ≡ code.is_bare (indus_expr e.now) }
{
    match e {
        Expr::Num(_, n) => n.width == 0,
        Expr::Invert(_, a) => is_bare(a),
        Expr::Bin(_, op, a, b) => match op {
            Op::Mul | Op::Add | Op::Sub => is_bare(a) && is_bare(b),
            Op::BitAnd | Op::BitXor | Op::BitOr => is_bare(a) && is_bare(b),
            Op::Shl | Op::Shr => is_bare(a),
            Op::Less | Op::LessEq | Op::More | Op::MoreEq => false,
            Op::Equal | Op::Differ | Op::Both | Op::Either => false,
        },
        Expr::Flag(_, _) | Expr::Read(_, _) | Expr::Length(_, _) => false,
        Expr::Index(_, _, _) | Expr::Member(_, _, _) => false,
        Expr::Not(_, _) | Expr::Cast(_, _, _) => false,
    }
}

/// An index in 128 bits.
pub(crate) fn as_index(alloc: Global, e: &Expr, index: P4Expr) -> Result<P4Expr, AllocError>
    ensures { IfOk result (λ r. expr_of r ≡ code.as_index (indus_expr e.now) (expr_of index)) }
{
    if is_bare(e) {
        return Ok(index);
    }
    cast(alloc, PTy::Bit(128), index)
}
