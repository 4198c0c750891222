//! Flat expressions.

ghost use Rattle.std.specs.Prelude.{◌≡◌, ◌+◌, ◌<◌, ◌≤◌, false, true, length, map, slice_index, IfOk};
ghost use Rattle.indus_tree.specs.View.{expr_of, exprs_of, property_of};
ghost use Rattle.indus_tree.specs.declared.tree.Op.TheVariants.{Both, Either};
ghost use Rattle.lower_lists.specs.Flat.{all_have, any_item, flat_expr, flat_exprs, flat_member, halves, has_item, is_item, list_of};

use crate::names::{list_number, list_of, source};
use crate::place::{Bound, ListPlace};
use indus_tree::{Expr, Op};
use indus_types::TypedProperty;
use lex_text::Name;
use list_pushes::{binary, byte, count, item};
use std::alloc::{AllocError, Global};

/// Whether a list has an item at a place.
fn has_item(alloc: Global, at: u32, list: usize, place: u8) -> Result<Expr, AllocError>
    ensures { IfOk result (λ e. expr_of e ≡ has_item at list place) }
{
    let count = count(alloc, at, list)?;
    binary(alloc, at, Op::Less, byte(at, place), count)
}

/// Whether a list has an equal item at a place.
fn is_item(alloc: Global, at: u32, e: &Expr, list: usize, place: u8) -> Result<Expr, AllocError>
    ensures { IfOk result (λ r. expr_of r ≡ is_item at (expr_of e.now) list place) }
{
    let there = has_item(alloc, at, list, place)?;
    let item = item(alloc, at, list, place)?;
    let equal = binary(alloc, at, Op::Equal, item, e.copy(alloc)?)?;
    binary(alloc, at, Op::Both, there, equal)
}

/// Whether one of so many items is equal, from the first on.
#[tactic(auto, using(crate::proofs::Halves::halves_one, crate::proofs::Halves::halves_more))]
fn one_equal(
    alloc: Global,
    at: u32,
    e: &Expr,
    list: usize,
    first: u8,
    many: u8,
) -> Result<Expr, AllocError>
    requires { first + many ≤ 255 }
    ensures { IfOk result (λ r. expr_of r ≡ halves at Either (is_item at (expr_of e.now) list) many first many) }
{
    if many <= 1 {
        return is_item(alloc, at, e, list, first);
    }
    let half = many / 2;
    let left = one_equal(alloc, at, e, list, first, half)?;
    let right = one_equal(alloc, at, e, list, first + half, many - half)?;
    binary(alloc, at, Op::Either, left, right)
}

/// Whether one of a list's items is equal.
fn any_item(alloc: Global, at: u32, e: &Expr, list: ListPlace) -> Result<Expr, AllocError>
    ensures { IfOk result (λ r. expr_of r ≡ any_item at (expr_of e.now) list) }
{
    if list.size == 0 {
        return Ok(Expr::Flag(at, false));
    }
    one_equal(alloc, at, e, list.number, 0, list.size)
}

/// Whether each of so many lists has an item at a place, from the first on.
#[tactic(auto, using(crate::proofs::Halves::halves_one, crate::proofs::Halves::halves_more))]
fn each_has(
    alloc: Global,
    at: u32,
    lists: &[usize],
    place: u8,
    first: usize,
    many: usize,
) -> Result<Expr, AllocError>
    requires some { 0 < many }
    requires within { first + many ≤ length lists.now }
    ensures { IfOk result (λ r. expr_of r ≡ halves at Both (λ k. has_item at (slice_index lists.now k) place) many first many) }
{
    if many <= 1 {
        return has_item(alloc, at, lists[first], place);
    }
    let half = many / 2;
    let left = each_has(alloc, at, lists, place, first, half)?;
    let right = each_has(alloc, at, lists, place, first + half, many - half)?;
    binary(alloc, at, Op::Both, left, right)
}

/// Whether each of the lists has an item at a place.
pub fn all_have(alloc: Global, at: u32, lists: &[usize], place: u8) -> Result<Expr, AllocError>
    ensures { IfOk result (λ r. expr_of r ≡ all_have at lists.now place) }
{
    if lists.is_empty() {
        return Ok(Expr::Flag(at, true));
    }
    each_has(alloc, at, lists, place, 0, lists.len())
}

/// Whether a key is in a set, or a value in a list.
fn member(
    alloc: Global,
    typed: &TypedProperty,
    at: u32,
    key: Vec<Expr>,
    name: &Name,
) -> Result<Expr, AllocError>
    ensures { IfOk result (λ r. expr_of r ≡ flat_member at (exprs_of key.items) name.now (list_of (property_of typed.now).decls name.now)) }
{
    match list_of(typed, name) {
        None => Ok(Expr::Member(at, key, name.copy(alloc)?)),
        Some(list) => match key.as_slice() {
            [] => Ok(Expr::Flag(at, false)),
            [e, _rest @ ..] => any_item(alloc, at, e, list),
        },
    }
}

/// A flat expression.
#[cycle(flat_expr)]
pub fn flat_expr(
    alloc: Global,
    typed: &TypedProperty,
    bounds: &[Bound],
    e: &Expr,
) -> Result<Expr, AllocError>
    ensures { IfOk result (λ r. expr_of r ≡ flat_expr (property_of typed.now).decls bounds.now (expr_of e.now)) }
{
    match e {
        Expr::Num(at, n) => Ok(Expr::Num(*at, *n)),
        Expr::Flag(at, value) => Ok(Expr::Flag(*at, *value)),
        Expr::Read(at, name) => Ok(Expr::Read(*at, source(alloc, typed, bounds, name)?)),
        Expr::Length(at, name) => count(alloc, *at, list_number(typed, name)),
        Expr::Index(at, name, key) => {
            let name = name.copy(alloc)?;
            let key = flat_exprs(alloc, typed, bounds, key)?;
            Ok(Expr::Index(*at, name, key))
        }
        Expr::Member(at, key, name) => {
            let key = flat_exprs(alloc, typed, bounds, key)?;
            member(alloc, typed, *at, key, name)
        }
        Expr::Not(at, a) => {
            let a = flat_expr(alloc, typed, bounds, a)?;
            Ok(Expr::Not(*at, Box::new(alloc, a)?))
        }
        Expr::Invert(at, a) => {
            let a = flat_expr(alloc, typed, bounds, a)?;
            Ok(Expr::Invert(*at, Box::new(alloc, a)?))
        }
        Expr::Bin(at, op, a, b) => {
            let a = flat_expr(alloc, typed, bounds, a)?;
            let b = flat_expr(alloc, typed, bounds, b)?;
            binary(alloc, *at, *op, a, b)
        }
        Expr::Cast(at, width, a) => {
            let a = flat_expr(alloc, typed, bounds, a)?;
            Ok(Expr::Cast(*at, *width, Box::new(alloc, a)?))
        }
    }
}

#[cycle(flat_expr)]
pub fn flat_exprs(
    alloc: Global,
    typed: &TypedProperty,
    bounds: &[Bound],
    all: &[Expr],
) -> Result<Vec<Expr>, AllocError>
    ensures { IfOk result (λ v. exprs_of v.items ≡ flat_exprs (property_of typed.now).decls bounds.now (exprs_of all.now)) }
{
    let mut flat = Vec::new(alloc);
    for e in all {
        flat.push(flat_expr(alloc, typed, bounds, e)?)?;
    }
    Ok(flat)
}
