//! What a statement reads before it does anything.

ghost use Rattle.std.specs.Prelude.{◌≡◌, [], OnOk, IfOk};
ghost use Rattle.std.specs.Option.{option_map};
ghost use Rattle.indus_tree.specs.View.{decl_of, expr_of, exprs_of, stmt_of};
ghost use Rattle.indus_tree.specs.State.{lookup};
ghost use Rattle.lowered_code.specs.Expressions as expressions;
ghost use Rattle.lowered_code.specs.Reads as code;
ghost use Rattle.lowered_code.specs.Statements.{stmt_reads};
ghost use Rattle.lower_reads.specs.View.{declared, lent};

use crate::declarations::Declarations;
use crate::same::same_expr;
use indus_tree::{Decl, DeclKind, Expr, Stmt};
use lex_text::Name;
use std::alloc::{AllocError, Global};

/// The place of an expression among those that were read before.
pub fn place_in(reads: &[&Expr], e: &Expr) -> usize
    ensures { result ≡ expressions.place_in (lent reads.now) (expr_of e.now) }
{
    for i in 0..reads.len() {
        if same_expr(reads[i], e) {
            return i;
        }
    }
    reads.len()
}

/// Whether an expression is among those.
fn is_in(reads: &[&Expr], e: &Expr) -> bool
    ensures { result ≡ expressions.is_in (lent reads.now) (expr_of e.now) }
{
    for r in reads {
        if same_expr(*r, e) {
            return true;
        }
    }
    false
}

/// The declaration of what is read.
pub fn read_decl<'a>(decls: &'a Declarations, e: &Expr) -> Option<&'a Decl>
    ensures { option_map (λ d. decl_of d.now) result ≡ expressions.read_decl (declared decls.now) (expr_of e.now) }
{
    match e {
        Expr::Read(_, name) => decls.find(name),
        Expr::Index(_, name, _) => decls.find(name),
        Expr::Member(_, _, name) => decls.find(name),
        Expr::Num(_, _) | Expr::Flag(_, _) | Expr::Length(_, _) => None,
        Expr::Not(_, _) | Expr::Invert(_, _) | Expr::Bin(_, _, _, _) | Expr::Cast(_, _, _) => None,
    }
}

/// A read goes behind others, if it is not among them.
fn with_read<'a>(reads: &mut Vec<&'a Expr>, e: &'a Expr) -> Result<(), AllocError>
    ensures { OnOk result (lent reads.new.items ≡ code.with_read (lent reads.old.items) (expr_of e.now)) }
{
    if !is_in(reads, e) {
        reads.push(e)?;
    }
    Ok(())
}

/// A name that is read.
fn name_reads<'a>(
    decls: &Declarations,
    reads: &mut Vec<&'a Expr>,
    e: &'a Expr,
    name: &Name,
) -> Result<(), AllocError>
    ensures { OnOk result (lent reads.new.items
        ≡ code.name_reads (lookup (declared decls.now) name.now) (expr_of e.now) (lent reads.old.items)) }
{
    match decls.find(name) {
        None => Ok(()),
        Some(d) => match d.kind {
            DeclKind::Tele | DeclKind::Header => Ok(()),
            DeclKind::Sensor | DeclKind::Control => with_read(reads, e),
        },
    }
}

/// What an expression reads.
#[cycle(reads)]
fn expr_reads<'a>(
    decls: &Declarations,
    reads: &mut Vec<&'a Expr>,
    e: &'a Expr,
) -> Result<(), AllocError>
    ensures { OnOk result (lent reads.new.items ≡ code.reads (declared decls.now) (expr_of e.now) (lent reads.old.items)) }
{
    match e {
        Expr::Num(_, _) | Expr::Flag(_, _) | Expr::Length(_, _) => Ok(()),
        Expr::Read(_, name) => name_reads(decls, reads, e, name),
        Expr::Index(_, _, key) => {
            exprs_reads(decls, reads, key)?;
            with_read(reads, e)
        }
        Expr::Member(_, key, _) => {
            exprs_reads(decls, reads, key)?;
            with_read(reads, e)
        }
        Expr::Not(_, a) => expr_reads(decls, reads, a),
        Expr::Invert(_, a) => expr_reads(decls, reads, a),
        Expr::Bin(_, _, a, b) => {
            expr_reads(decls, reads, a)?;
            expr_reads(decls, reads, b)
        }
        Expr::Cast(_, _, a) => expr_reads(decls, reads, a),
    }
}

#[cycle(reads)]
fn exprs_reads<'a>(
    decls: &Declarations,
    reads: &mut Vec<&'a Expr>,
    all: &'a [Expr],
) -> Result<(), AllocError>
    ensures { OnOk result (lent reads.new.items ≡ code.all_reads (declared decls.now) (exprs_of all.now) (lent reads.old.items)) }
{
    for e in all {
        expr_reads(decls, reads, e)?;
    }
    Ok(())
}

/// What a statement reads.
pub fn stmt_reads<'a>(
    alloc: Global,
    decls: &Declarations,
    s: &'a Stmt,
) -> Result<Vec<&'a Expr>, AllocError>
    ensures { IfOk result (λ v. lent v.items ≡ stmt_reads (declared decls.now) (stmt_of s.now)) }
{
    let mut reads = Vec::new(alloc);
    match s {
        Stmt::Assign(_, _, e) => expr_reads(decls, &mut reads, e)?,
        Stmt::Cell(_, _, i, e) => {
            expr_reads(decls, &mut reads, i)?;
            expr_reads(decls, &mut reads, e)?;
        }
        Stmt::Push(_, _, _) | Stmt::For(_, _, _, _) | Stmt::Reject(_) => {}
        Stmt::If(_, e, _, _) => expr_reads(decls, &mut reads, e)?,
        Stmt::Report(_, _, all) => exprs_reads(decls, &mut reads, all)?,
    }
    Ok(reads)
}
