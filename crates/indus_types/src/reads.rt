//! How often a control variable is read.

ghost use Rattle.std.specs.Prelude.{◌≡◌, ◌*◌, map};
ghost use Rattle.indus_tree.specs.View.{block_of, decl_of, expr_of, exprs_of, property_of, stmt_of};
ghost use Rattle.indus_scopes.specs.NameTable.{names_of, texts};
ghost use Rattle.indus_types.specs.Sums.{cut, is_v, expr_reads, exprs_reads, stmt_reads, block_reads, nth_lookups, IsControl};

use crate::lists::smallest;
use indexmap::IndexSet;
use indus_scopes::declared::Declared;
use indus_scopes::scope::same;
use indus_tree::{Expr, Property, Stmt};
use lex_text::Name;

/// 1 where the name is the variable's.
fn is_v(variable: &Name, name: &Name) -> u32
    ensures { result ≡ is_v variable.now name.now }
{
    if same(name, variable) { 1 } else { 0 }
}

/// Reads that are done n times.
#[tactic(auto, using(crate::proofs::Cuts::cut_product))]
fn times(n: u8, each: u32) -> u32
    ensures { result ≡ cut (n * each) }
{
    each.saturating_mul(n as u32)
}

/// The reads of an expression.
#[cycle(expr_reads)]
fn expr_reads(e: &Expr, variable: &Name) -> u32
    ensures { result ≡ cut (expr_reads variable.now (expr_of e.now)) }
{
    match e {
        Expr::Num(_, _) => 0,
        Expr::Flag(_, _) => 0,
        Expr::Read(_, x) => is_v(variable, x),
        Expr::Length(_, _) => 0,
        Expr::Index(_, x, keys) => exprs_reads(keys, variable).saturating_add(is_v(variable, x)),
        Expr::Member(_, keys, x) => exprs_reads(keys, variable).saturating_add(is_v(variable, x)),
        Expr::Not(_, a) => expr_reads(a, variable),
        Expr::Invert(_, a) => expr_reads(a, variable),
        Expr::Bin(_, _, a, b) => expr_reads(a, variable).saturating_add(expr_reads(b, variable)),
        Expr::Cast(_, _, a) => expr_reads(a, variable),
    }
}

#[cycle(expr_reads)]
fn exprs_reads(all: &[Expr], variable: &Name) -> u32
    ensures { result ≡ cut (exprs_reads variable.now (exprs_of all.now)) }
{
    let mut sum: u32 = 0;
    for e in all {
        sum = sum.saturating_add(expr_reads(e, variable));
    }
    sum
}

/// The reads of a statement.
#[tactic(auto, using(crate::proofs::Cuts::cut_times))]
#[cycle(stmt_reads)]
fn stmt_reads(s: &Stmt, decls: &Declared, variable: &Name) -> u32
    ensures { result ≡ cut (stmt_reads (map decl_of decls.now.decls.now) variable.now (stmt_of s.now)) }
{
    match s {
        Stmt::Assign(_, _, e) => expr_reads(e, variable),
        Stmt::Cell(_, _, i, e) => expr_reads(i, variable).saturating_add(expr_reads(e, variable)),
        Stmt::Push(_, _, e) => expr_reads(e, variable),
        Stmt::If(_, t, a, b) => expr_reads(t, variable)
            .saturating_add(block_reads(a, decls, variable))
            .saturating_add(block_reads(b, decls, variable)),
        Stmt::For(_, _, lists, a) => times(smallest(decls, lists), block_reads(a, decls, variable)),
        Stmt::Reject(_) => 0,
        Stmt::Report(_, _, values) => exprs_reads(values, variable),
    }
}

#[cycle(stmt_reads)]
fn block_reads(all: &[Stmt], decls: &Declared, variable: &Name) -> u32
    ensures { result ≡ cut (block_reads (map decl_of decls.now.decls.now) variable.now (block_of all.now)) }
{
    let mut sum: u32 = 0;
    for s in all {
        sum = sum.saturating_add(stmt_reads(s, decls, variable));
    }
    sum
}

/// How often the control variable at this place among the declarations is read, where the names have
/// this table.
#[tactic(auto, using(crate::proofs::Places::nth_decl))]
pub fn lookups(p: &Property, names: &IndexSet<String>, variable: u32) -> u32
    requires named { texts names.now.keys ≡ names_of (map decl_of p.now.decls.items) }
    requires control { IsControl (property_of p.now) variable }
    ensures { result ≡ cut (nth_lookups (property_of p.now) variable) }
{
    let decls = Declared {
        decls: &p.decls,
        names,
    };
    match p.decls.get(variable as usize) {
        Some(d) => block_reads(&p.init, &decls, &d.name)
            .saturating_add(block_reads(&p.tele, &decls, &d.name))
            .saturating_add(block_reads(&p.check, &decls, &d.name)),
        None => 0,
    }
}
