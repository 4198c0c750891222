//! The value of an expression.

ghost use Rattle.std.specs.Prelude.{◌≡◌, ◌≤◌, map, IfOk};
ghost use Rattle.indus_tree.specs.View.{decl_of, expr_of, exprs_of};
ghost use Rattle.indus_tree.specs.Value.{key_of, own_width, value_of, values_of};
ghost use Rattle.indus_tree.specs.Tree.{exprs_count};
ghost use Rattle.indus_values.specs.View.{cells_in, hop_in, seen_in, seen_of};

use crate::names::cells;
use crate::reads::{
    at_key, first_width, has, held_width, index_widths, member_widths, name_word, other_widths,
};
use crate::state::{Env, HopView, SensorState, TeleState};
use crate::words::cut;
use arrayvec::ArrayVec;
use bit_values::{Bits, either_width, holds, sound_width, truth};
use indus_tree::{DeclKind, Expr, Property};
use lex_text::Name;
use std::alloc::{AllocError, Global};

/// The value of an expression of the property, where its place gives `width`, or 0 where it gives
/// none. `values` are the header variables, and `items` the items of the loops around.
pub fn eval_expr(
    alloc: Global,
    p: &Property,
    e: &Expr,
    width: u8,
    view: &HopView,
    values: &[Bits],
    tele: &TeleState,
    sensors: &SensorState,
    items: &[(Name, Bits)],
) -> Result<Bits, AllocError>
    ensures { let ds = map decl_of p.now.decls.items in
        IfOk result (λ v. v ≡ value_of (seen_in (hop_in ds view.now view.now.last values.now) items.now tele.now sensors.now) (expr_of e.now) width) }
{
    let env = Env {
        decls: &p.decls,
        view,
        last: view.last,
        values,
    };
    value_of(alloc, e, width, &env, items, tele, sensors)
}

/// The width that an expression has of its own, or 0.
pub fn own_width(
    e: &Expr,
    env: &Env,
    items: &[(Name, Bits)],
    tele: &TeleState,
    sensors: &SensorState,
) -> u8
    ensures { result ≡ own_width (seen_of env.now items.now tele.now sensors.now) (expr_of e.now) }
{
    match e {
        Expr::Num(_, n) => n.width,
        Expr::Flag(_, _) => 1,
        Expr::Read(_, x) => name_word(env, items, tele, sensors, x).width,
        Expr::Length(_, _) => 8,
        Expr::Index(_, x, _) => held_width(env.decls, x),
        Expr::Member(_, _, _) => 1,
        Expr::Not(_, _) => 1,
        Expr::Invert(_, a) => own_width(a, env, items, tele, sensors),
        Expr::Bin(_, op, a, b) => {
            let left = own_width(a, env, items, tele, sensors);
            op.operator()
                .own_width(left, own_width(b, env, items, tele, sensors))
        }
        Expr::Cast(_, w, _) => *w,
    }
}

/// The value of an expression.
#[cycle(value_of)]
pub fn value_of(
    alloc: Global,
    e: &Expr,
    width: u8,
    env: &Env,
    items: &[(Name, Bits)],
    tele: &TeleState,
    sensors: &SensorState,
) -> Result<Bits, AllocError>
    ensures { IfOk result (λ v. v ≡ value_of (seen_of env.now items.now tele.now sensors.now) (expr_of e.now) width) }
{
    match e {
        Expr::Num(_, n) => Ok(cut(sound_width(either_width(n.width, width)), n.value)),
        Expr::Flag(_, value) => Ok(truth(*value)),
        Expr::Read(_, x) => Ok(name_word(env, items, tele, sensors, x)),
        Expr::Length(_, x) => {
            let list = cells(DeclKind::Tele, env.decls, &tele.items, x);
            Ok(cut(8, list.len() as u128))
        }
        Expr::Index(_, x, key) => {
            let widths = index_widths(alloc, env.decls, x)?;
            let key = key_of(alloc, key, &widths, env, items, tele, sensors)?;
            Ok(at_key(env, items, tele, sensors, x, &key))
        }
        Expr::Member(_, key, x) => {
            let widths = member_widths(alloc, env.decls, x)?;
            let key = key_of(alloc, key, &widths, env, items, tele, sensors)?;
            Ok(truth(has(env, items, tele, sensors, x, &key)))
        }
        Expr::Not(_, a) => {
            let v = value_of(alloc, a, 1, env, items, tele, sensors)?;
            Ok(truth(!holds(v)))
        }
        Expr::Invert(_, a) => {
            let v = value_of(alloc, a, width, env, items, tele, sensors)?;
            Ok(v.invert())
        }
        Expr::Bin(_, op, a, b) => {
            let v = own_width(a, env, items, tele, sensors);
            let u = own_width(b, env, items, tele, sensors);
            let left = op.operator().left_width(v, u, width);
            let right = op.operator().right_width(v, u, width);
            let x = value_of(alloc, a, left, env, items, tele, sensors)?;
            let y = value_of(alloc, b, right, env, items, tele, sensors)?;
            Ok(
                op.operator()
                    .apply(x.cast(sound_width(left)), y.cast(sound_width(right))),
            )
        }
        Expr::Cast(_, w, a) => {
            let v = value_of(alloc, a, 0, env, items, tele, sensors)?;
            Ok(v.cast(sound_width(*w)))
        }
    }
}

/// The parts of a key, each in the width that its place gives.
#[cycle(value_of)]
pub fn key_of(
    alloc: Global,
    key: &[Expr],
    widths: &[u8],
    env: &Env,
    items: &[(Name, Bits)],
    tele: &TeleState,
    sensors: &SensorState,
) -> Result<Vec<Bits>, AllocError>
    ensures { IfOk result (λ v. v.items ≡ key_of (seen_of env.now items.now tele.now sensors.now) (exprs_of key.now) widths.now) }
{
    let mut words = Vec::new(alloc);
    let mut rest = widths;
    for e in key {
        let width = first_width(rest, own_width(e, env, items, tele, sensors));
        let v = value_of(alloc, e, width, env, items, tele, sensors)?;
        words.push(v.cast(sound_width(width)))?;
        rest = other_widths(rest);
    }
    Ok(words)
}

/// The values of a report.
pub fn values_of(
    alloc: Global,
    values: &[Expr],
    env: &Env,
    items: &[(Name, Bits)],
    tele: &TeleState,
    sensors: &SensorState,
) -> Result<ArrayVec<Bits, 8>, AllocError>
    requires { exprs_count (exprs_of values.now) ≤ 8 }
    ensures { IfOk result (λ v. v.items ≡ values_of (seen_of env.now items.now tele.now sensors.now) (exprs_of values.now)) }
{
    let mut words = ArrayVec::new();
    for e in values {
        let v = value_of(alloc, e, 0, env, items, tele, sensors)?;
        words.push(v);
    }
    Ok(words)
}
