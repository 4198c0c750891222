//! Tests of what the evaluator needs.

ghost use Rattle.std.specs.Prelude.{◌≡◌, ◌↔◌, map, IsTrue};
ghost use Rattle.indus_tree.specs.View.{block_of, decl_of, exprs_of, property_of, stmt_of};
ghost use Rattle.indus_tree.specs.Tree.{exprs_count};
ghost use Rattle.indus_tree.specs.Reports.{HasShortReports};
ghost use Rattle.indus_run.specs.Reports.{all_short, are_short, is_short};
ghost use Rattle.indus_values.specs.View.{IsShaped};

use indus_tree::{DeclKind, Expr, Property, Stmt};
use indus_values::{SensorState, TeleState, seats};

/// Whether the states have a list for each variable of their kind.
pub fn is_shaped(p: &Property, tele: &TeleState, sensors: &SensorState) -> bool
    ensures { IsTrue result ↔ IsShaped (map decl_of p.now.decls.items) tele.now sensors.now }
{
    tele.items.len() == seats(DeclKind::Tele, &p.decls)
        && sensors.cells.len() == seats(DeclKind::Sensor, &p.decls)
}

/// Whether no report of the property has more than eight values.
pub fn has_short_reports(p: &Property) -> bool
    ensures { IsTrue result ↔ HasShortReports (property_of p.now) }
{
    all_short(p)
}

fn all_short(p: &Property) -> bool
    ensures { result ≡ all_short (property_of p.now) }
{
    are_short(&p.init) && are_short(&p.tele) && are_short(&p.check)
}

#[tactic(auto, using(indus_tree::proofs::Counts::counted))]
fn exprs_count(all: &[Expr]) -> usize
    ensures { result ≡ exprs_count (exprs_of all.now) }
{
    all.len()
}

#[cycle(short)]
fn is_short(s: &Stmt) -> bool
    ensures { result ≡ is_short (stmt_of s.now) }
{
    match s {
        Stmt::Assign(_, _, _) => true,
        Stmt::Cell(_, _, _, _) => true,
        Stmt::Push(_, _, _) => true,
        Stmt::If(_, _, a, b) => are_short(a) && are_short(b),
        Stmt::For(_, _, _, a) => are_short(a),
        Stmt::Reject(_) => true,
        Stmt::Report(_, _, values) => exprs_count(values) <= 8,
    }
}

#[cycle(short)]
fn are_short(block: &[Stmt]) -> bool
    ensures { result ≡ are_short (block_of block.now) }
{
    for s in block {
        if !is_short(s) {
            return false;
        }
    }
    true
}
