//! The first rule that is broken at a declaration, but for its initial value.

ghost use Rattle.std.specs.Prelude.{◌≡◌, map};
ghost use Rattle.std.specs.Option.{option_map};
ghost use Rattle.indus_tree.specs.View.{decl_of, expr_of, shape_of};
ghost use Rattle.indus_rules.specs.Sites.{at_decl};
ghost use Rattle.indus_rules.specs.Rules.{rule_at, declared_twice, bad_width, bad_widths, bad_shape, misshapen, is_literal, ill_started, is_truth, bad_path, ill_headed, ill_declared};

use crate::expr_rules::bad_bits;
use crate::rule::Rule;
use indus_scopes::declared::Declared;
use indus_scopes::scope::{builtin_of, is};
use indus_tree::{Decl, DeclKind, Expr, Shape, Ty};
use lex_text::Name;

fn declared_twice(before: &Declared, name: &Name) -> bool
    ensures { result ≡ declared_twice (map decl_of before.now.decls.now) name.now }
{
    before.find(name).is_some() || builtin_of(name).is_some()
}

fn bad_width(t: Ty) -> bool
    ensures { result ≡ bad_width t }
{
    match t {
        Ty::Bit(w) => bad_bits(w),
        Ty::Bool => false,
    }
}

fn bad_widths(types: &[Ty]) -> bool
    ensures { result ≡ bad_widths types.now }
{
    for t in types {
        if bad_width(*t) {
            return true;
        }
    }
    false
}

fn bad_shape(s: &Shape) -> bool
    ensures { result ≡ bad_shape (shape_of s.now) }
{
    match s {
        Shape::One(t) => bad_width(*t),
        Shape::List(t, n) => bad_width(*t) || *n == 0,
        Shape::SetOf(keys) => bad_widths(keys) || keys.len() > 4,
        Shape::DictOf(keys, t) => bad_widths(keys) || keys.len() > 4 || bad_width(*t),
    }
}

fn is_truth(s: &Shape) -> bool
    ensures { result ≡ is_truth (shape_of s.now) }
{
    match s {
        Shape::One(Ty::Bool) => true,
        _ => false,
    }
}

/// A variable of a kind that has no such shape.
fn misshapen(k: DeclKind, s: &Shape) -> bool
    ensures { result ≡ misshapen k (shape_of s.now) }
{
    match (s, k) {
        (Shape::One(_), _) => false,
        (Shape::List(_, _), DeclKind::Tele | DeclKind::Sensor) => false,
        (Shape::SetOf(_), DeclKind::Control) => false,
        (Shape::DictOf(_, _), DeclKind::Control) => false,
        _ => true,
    }
}

fn is_literal(e: &Expr) -> bool
    ensures { result ≡ is_literal (expr_of e.now) }
{
    match e {
        Expr::Num(_, _) => true,
        Expr::Flag(_, _) => true,
        _ => false,
    }
}

/// An initial value that is no literal, or not of a sensor.
fn ill_started(k: DeclKind, start: &Option<Expr>) -> bool
    ensures { result ≡ ill_started k (option_map expr_of start.now) }
{
    match start {
        None => false,
        Some(e) => match k {
            DeclKind::Sensor => !is_literal(e),
            _ => true,
        },
    }
}

fn bad_path(path: &[Name], valid: bool) -> bool
    ensures { result ≡ bad_path path.now valid }
{
    match (path, valid) {
        ([r, _h, f], true) => !(is(r, "hdr") && is(f, "isValid")),
        ([r, _f], false) => !(is(r, "meta") || is(r, "standard_metadata")),
        ([r, _h, _f], false) => !is(r, "hdr"),
        _ => true,
    }
}

/// A header variable whose path or type does not fit.
fn ill_headed(k: DeclKind, s: &Shape, path: &[Name], valid: bool) -> bool
    ensures { result ≡ ill_headed k (shape_of s.now) path.now valid }
{
    match k {
        DeclKind::Header => bad_path(path, valid) || is_truth(s) != valid,
        _ => false,
    }
}

fn ill_declared(d: &Decl) -> bool
    ensures { result ≡ ill_declared (decl_of d.now) }
{
    misshapen(d.kind, &d.shape)
        || ill_started(d.kind, &d.start)
        || ill_headed(d.kind, &d.shape, &d.path, d.valid)
}

/// The first rule that is broken at a declaration behind others.
pub fn rule_of_decl(before: &Declared, d: &Decl) -> Option<Rule>
    ensures { result ≡ rule_at (at_decl (map decl_of before.now.decls.now) (decl_of d.now)) }
{
    if declared_twice(before, &d.name) {
        Some(Rule::NameTwice)
    } else if ill_declared(d) {
        Some(Rule::KindDiffers)
    } else if bad_shape(&d.shape) {
        Some(Rule::BadSize)
    } else {
        None
    }
}
