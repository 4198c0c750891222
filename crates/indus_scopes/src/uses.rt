//! As what a name may be used.

ghost use Rattle.std.specs.Prelude.{◌≡◌};
ghost use Rattle.indus_tree.specs.View.{exprs_of, shape_of};
ghost use Rattle.indus_scopes.specs.Scopes.{stands};
ghost use Rattle.indus_scopes.specs.Uses.{is_missing, is_hop, as_many, is_one, is_scalar, is_list, is_array, is_dict, reads, counts, shape_indexed, indexed, shape_holds, may_hold, may_index, kind_writable, writable};

use crate::kind::Kind;
use crate::scope::Role;
use indus_tree::{DeclKind, Expr, Shape, Ty};

pub fn is_missing(r: &Role) -> bool
    ensures { result ≡ is_missing (stands r.now) }
{
    match r {
        Role::Missing => true,
        _ => false,
    }
}

pub fn is_hop(r: &Role) -> bool
    ensures { result ≡ is_hop (stands r.now) }
{
    match r {
        Role::Builtin(Kind::Truth) => true,
        _ => false,
    }
}

fn as_many(keys: &[Expr], types: &[Ty]) -> bool
    ensures { result ≡ as_many (exprs_of keys.now) types.now }
{
    keys.len() == types.len()
}

fn is_one(keys: &[Expr]) -> bool
    ensures { result ≡ is_one (exprs_of keys.now) }
{
    match keys {
        [] => false,
        [_k, rest @ ..] => match rest {
            [] => true,
            [_l, _rest @ ..] => false,
        },
    }
}

fn is_scalar(s: &Shape) -> bool
    ensures { result ≡ is_scalar (shape_of s.now) }
{
    match s {
        Shape::One(_) => true,
        _ => false,
    }
}

fn is_list(k: DeclKind, s: &Shape) -> bool
    ensures { result ≡ is_list k (shape_of s.now) }
{
    match (k, s) {
        (DeclKind::Tele, Shape::List(_, _)) => true,
        _ => false,
    }
}

fn is_array(k: DeclKind, s: &Shape) -> bool
    ensures { result ≡ is_array k (shape_of s.now) }
{
    match (k, s) {
        (DeclKind::Sensor, Shape::List(_, _)) => true,
        _ => false,
    }
}

fn is_dict(s: &Shape) -> bool
    ensures { result ≡ is_dict (shape_of s.now) }
{
    match s {
        Shape::DictOf(_, _) => true,
        _ => false,
    }
}

pub fn reads(r: &Role) -> bool
    ensures { result ≡ reads (stands r.now) }
{
    match r {
        Role::Variable(d) => is_scalar(&d.shape),
        _ => true,
    }
}

pub fn counts(r: &Role) -> bool
    ensures { result ≡ counts (stands r.now) }
{
    match r {
        Role::Missing => true,
        Role::Variable(d) => is_list(d.kind, &d.shape),
        _ => false,
    }
}

fn shape_indexed(k: DeclKind, s: &Shape, keys: &[Expr]) -> bool
    ensures { result ≡ shape_indexed k (shape_of s.now) (exprs_of keys.now) }
{
    match s {
        Shape::DictOf(types, _) => as_many(keys, types),
        _ => is_array(k, s) && is_one(keys),
    }
}

pub fn indexed(r: &Role, keys: &[Expr]) -> bool
    ensures { result ≡ indexed (stands r.now) (exprs_of keys.now) }
{
    match r {
        Role::Missing => true,
        Role::Variable(d) => shape_indexed(d.kind, &d.shape, keys),
        _ => false,
    }
}

fn shape_holds(k: DeclKind, s: &Shape, keys: &[Expr]) -> bool
    ensures { result ≡ shape_holds k (shape_of s.now) (exprs_of keys.now) }
{
    match s {
        Shape::SetOf(types) => as_many(keys, types),
        _ => is_list(k, s) && is_one(keys),
    }
}

pub fn may_hold(r: &Role, keys: &[Expr]) -> bool
    ensures { result ≡ may_hold (stands r.now) (exprs_of keys.now) }
{
    match r {
        Role::Missing => true,
        Role::Variable(d) => shape_holds(d.kind, &d.shape, keys),
        _ => false,
    }
}

pub fn may_index(r: &Role) -> bool
    ensures { result ≡ may_index (stands r.now) }
{
    match r {
        Role::Variable(d) => is_array(d.kind, &d.shape) || is_dict(&d.shape),
        _ => true,
    }
}

fn kind_writable(k: DeclKind) -> bool
    ensures { result ≡ kind_writable k }
{
    match k {
        DeclKind::Tele | DeclKind::Sensor => true,
        DeclKind::Header | DeclKind::Control => false,
    }
}

pub fn writable(r: &Role) -> bool
    ensures { result ≡ writable (stands r.now) }
{
    match r {
        Role::Missing => true,
        Role::Variable(d) => kind_writable(d.kind),
        _ => false,
    }
}
