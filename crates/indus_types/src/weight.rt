//! The weight of a property.

ghost use Rattle.std.specs.Prelude.{◌≡◌, ◌+◌, ◌*◌, map};
ghost use Rattle.indus_tree.specs.View.{block_of, decl_of, expr_of, exprs_of, property_of, shape_of, stmt_of};
ghost use Rattle.indus_scopes.specs.NameTable.{names_of, texts};
ghost use Rattle.indus_types.specs.Sums.{cut, expr_weight, exprs_weight, stmt_weight, block_weight, cells_in, sensor_cells, property_weight};

use crate::lists::{is_list, size_of, smallest};
use indexmap::IndexSet;
use indus_scopes::declared::Declared;
use indus_tree::{Decl, DeclKind, Expr, Property, Shape, Stmt};

/// The weight of something done n times, each of the given weight and 1 more.
#[tactic(auto, using(crate::proofs::Cuts::cut_plain))]
fn repeated(n: u8, each: u32) -> u32
    ensures { result ≡ cut (n * (each + 1) + 1) }
{
    each.saturating_add(1)
        .saturating_mul(n as u32)
        .saturating_add(1)
}

/// The weight of an expression.
#[tactic(auto, using(crate::proofs::Cuts::cut_turns))]
#[cycle(expr_weight)]
fn expr_weight(e: &Expr, decls: &Declared) -> u32
    ensures { result ≡ cut (expr_weight (map decl_of decls.now.decls.now) (expr_of e.now)) }
{
    match e {
        Expr::Num(_, _) => 1,
        Expr::Flag(_, _) => 1,
        Expr::Read(_, _) => 1,
        Expr::Length(_, _) => 1,
        Expr::Index(_, _, keys) => exprs_weight(keys, decls).saturating_add(1),
        Expr::Member(_, keys, x) => {
            if is_list(decls, x) {
                repeated(size_of(decls, x), exprs_weight(keys, decls))
            } else {
                exprs_weight(keys, decls).saturating_add(1)
            }
        }
        Expr::Not(_, a) => expr_weight(a, decls).saturating_add(1),
        Expr::Invert(_, a) => expr_weight(a, decls).saturating_add(1),
        Expr::Bin(_, _, a, b) => expr_weight(a, decls)
            .saturating_add(expr_weight(b, decls))
            .saturating_add(1),
        Expr::Cast(_, _, a) => expr_weight(a, decls).saturating_add(1),
    }
}

#[cycle(expr_weight)]
fn exprs_weight(all: &[Expr], decls: &Declared) -> u32
    ensures { result ≡ cut (exprs_weight (map decl_of decls.now.decls.now) (exprs_of all.now)) }
{
    let mut sum: u32 = 0;
    for e in all {
        sum = sum.saturating_add(expr_weight(e, decls));
    }
    sum
}

/// The weight of a statement.
#[tactic(auto, using(crate::proofs::Cuts::cut_turns))]
#[cycle(stmt_weight)]
fn stmt_weight(s: &Stmt, decls: &Declared) -> u32
    ensures { result ≡ cut (stmt_weight (map decl_of decls.now.decls.now) (stmt_of s.now)) }
{
    match s {
        Stmt::Assign(_, _, e) => expr_weight(e, decls).saturating_add(1),
        Stmt::Cell(_, _, i, e) => expr_weight(i, decls)
            .saturating_add(expr_weight(e, decls))
            .saturating_add(1),
        Stmt::Push(_, x, e) => expr_weight(e, decls)
            .saturating_add(size_of(decls, x) as u32)
            .saturating_add(1),
        Stmt::If(_, t, a, b) => expr_weight(t, decls)
            .saturating_add(block_weight(a, decls))
            .saturating_add(block_weight(b, decls))
            .saturating_add(1),
        Stmt::For(_, _, lists, a) => repeated(smallest(decls, lists), block_weight(a, decls)),
        Stmt::Reject(_) => 1,
        Stmt::Report(_, _, values) => exprs_weight(values, decls).saturating_add(1),
    }
}

#[cycle(stmt_weight)]
fn block_weight(all: &[Stmt], decls: &Declared) -> u32
    ensures { result ≡ cut (block_weight (map decl_of decls.now.decls.now) (block_of all.now)) }
{
    let mut sum: u32 = 0;
    for s in all {
        sum = sum.saturating_add(stmt_weight(s, decls));
    }
    sum
}

fn decl_cells(d: &Decl) -> u32
    ensures { result ≡ cells_in d.now.kind (shape_of d.now.shape) }
{
    match d.kind {
        DeclKind::Sensor => match &d.shape {
            Shape::List(_, n) => *n as u32,
            _ => 1,
        },
        _ => 0,
    }
}

fn sensor_cells(decls: &[Decl]) -> u32
    ensures { result ≡ cut (sensor_cells (map decl_of decls.now)) }
{
    let mut sum: u32 = 0;
    for d in decls {
        sum = sum.saturating_add(decl_cells(d));
    }
    sum
}

/// The weight of a property with the table of its names.
pub fn property_weight(p: &Property, names: &IndexSet<String>) -> u32
    requires { texts names.now.keys ≡ names_of (map decl_of p.now.decls.items) }
    ensures { result ≡ cut (property_weight (property_of p.now)) }
{
    let decls = Declared {
        decls: &p.decls,
        names,
    };
    block_weight(&p.init, &decls)
        .saturating_add(block_weight(&p.tele, &decls))
        .saturating_add(block_weight(&p.check, &decls))
        .saturating_add(sensor_cells(&p.decls))
}
