//! Statements of flat code in P4.

ghost use Rattle.std.specs.Prelude.{◌≡◌, ◌+◌, ◌∷◌, [], false, length, map, IfOk};
ghost use Rattle.indus_tree.specs.State.{lookup};
ghost use Rattle.indus_tree.specs.View.{block_of as indus_block, decl_of, expr_of as indus_expr, stmt_of as indus_stmt};
ghost use Rattle.p4_tree.specs.Tree as p4;
ghost use Rattle.p4_tree.specs.View.{else_of, expr_of, stmt_of, stmts_of};
ghost use Rattle.monitor_laws.specs.Names.{last_name, rejected_name};
ghost use Rattle.monitor_laws.specs.Trees as trees;
ghost use Rattle.lookup_names.specs.Keys as keys;
ghost use Rattle.lowered_code.specs.Statements as code;
ghost use Rattle.lower_code.specs.Bodies.{body_code, body_end};
ghost use Rattle.lower_code.specs.View.{environment_of};
ghost use Rattle.lower_reads.specs.View.{declared, lent};

use crate::expressions::{Place, lowered, lowered_all, tele_path, to_bits};
use crate::read_code::{reads_stmts, turned};
use crate::roots::Roots;
use crate::tree::{assign, before, block, call_two, number, only_if, variable};
use crate::types::value_type;
use indus_tree::{Decl, DeclKind, Expr, Stmt};
use lex_text::Name;
use lower_reads::{Declarations, number_at, stmt_reads};
use p4_tree::{Arg, Expr as P4Expr, Stmt as P4Stmt};
use std::alloc::{AllocError, Global};

/// The receiver of reports.
const RECEIVER: u128 = 1_213_809_746;

/// A cell of a sensor is given a value.
fn put_sensor(
    alloc: Global,
    d: &Decl,
    index: P4Expr,
    value: P4Expr,
) -> Result<Vec<P4Stmt>, AllocError>
    ensures { IfOk result (λ v. stmts_of v.items ≡ code.put_sensor (decl_of d.now) (expr_of index) (expr_of value)) }
{
    let register = Name::joined(alloc, "hydra_s_", d.name.as_str())?;
    let bits = to_bits(alloc, value_type(&d.shape), value)?;
    let cell = turned(alloc, d, bits)?;
    let mut out = Vec::new(alloc);
    out.push(call_two(alloc, register, "write", index, cell)?)?;
    Ok(out)
}

/// A variable is given a value.
fn set_name(
    alloc: Global,
    roots: &Roots,
    decls: &Declarations,
    name: &Name,
    value: P4Expr,
) -> Result<Vec<P4Stmt>, AllocError>
    ensures { IfOk result (λ v. stmts_of v.items
        ≡ code.set_name (environment_of roots.now) (lookup (declared decls.now) name.now) name.now (expr_of value)) }
{
    let mut out = Vec::new(alloc);
    if let Some(d) = decls.find(name) {
        match d.kind {
            DeclKind::Tele => {
                let path = tele_path(alloc, roots, name)?;
                let bits = to_bits(alloc, value_type(&d.shape), value)?;
                out.push(P4Stmt::Assign(0, path, bits))?;
            }
            DeclKind::Sensor => return put_sensor(alloc, d, number(1, 0), value),
            DeclKind::Header | DeclKind::Control => {}
        }
    }
    Ok(out)
}

/// A cell of an array is given a value.
fn set_array(
    alloc: Global,
    decls: &Declarations,
    name: &Name,
    index: P4Expr,
    value: P4Expr,
) -> Result<Vec<P4Stmt>, AllocError>
    ensures { IfOk result (λ v. stmts_of v.items
        ≡ code.set_array (lookup (declared decls.now) name.now) (expr_of index) (expr_of value)) }
{
    match decls.find(name) {
        None => Ok(Vec::new(alloc)),
        Some(d) => put_sensor(alloc, d, index, value),
    }
}

/// A report is told.
fn tell(alloc: Global, report: u16, mut values: Vec<P4Expr>) -> Result<P4Stmt, AllocError>
    ensures { IfOk result (λ s. stmt_of s ≡ code.tell report (map expr_of values.items)) }
{
    let mut list = Vec::new(alloc);
    list.push(number(16, u128::from(report)))?;
    list.append(&mut values)?;
    let mut callee = Vec::new(alloc);
    callee.push(Name::new(alloc, "digest")?)?;
    let mut args = Vec::new(alloc);
    args.push(Arg::One(0, number(32, RECEIVER)))?;
    args.push(Arg::Many(0, list))?;
    Ok(P4Stmt::Call(0, callee, args))
}

/// An `else` with statements, where there are any.
fn maybe_else(alloc: Global, list: Vec<P4Stmt>) -> Result<Option<Box<P4Stmt>>, AllocError>
    ensures { IfOk result (λ o. else_of o ≡ code.maybe_else (stmts_of list.items)) }
{
    if list.is_empty() {
        return Ok(None);
    }
    Ok(Some(block(alloc, list)?))
}

/// A flag is set.
fn flag(alloc: Global, name: &str, value: bool) -> Result<P4Stmt, AllocError>
    ensures { IfOk result (λ s. stmt_of s ≡ p4.assign 0 (name.now ∷ []) (p4.flag 0 value)) }
{
    assign(alloc, Name::new(alloc, name)?, P4Expr::Flag(0, value))
}

/// Code, with the number of the next read behind it.
#[derive(Drop)]
pub struct Code {
    pub stmts: Vec<P4Stmt>,
    pub end: u32,
}

/// What a statement does behind its reads.
#[cycle(code)]
fn stmt_body(alloc: Global, place: &Place<'_>, s: &Stmt, end: u32) -> Result<Code, AllocError>
    requires { end ≡ place.now.base + length (lent place.now.reads.now) }
    ensures stmts { IfOk result (λ c. stmts_of c.stmts.items
        ≡ body_code (environment_of place.now.roots.now) (declared place.now.decls.now) (indus_stmt s.now) place.now.base (lent place.now.reads.now)) }
    ensures end { IfOk result (λ c. c.end ≡ body_end (declared place.now.decls.now) (indus_stmt s.now) end) }
{
    let roots = place.roots;
    let mut stmts = Vec::new(alloc);
    match s {
        Stmt::Assign(_, name, e) => {
            let value = lowered(alloc, place, e)?;
            let stmts = set_name(alloc, roots, place.decls, name, value)?;
            Ok(Code { stmts, end })
        }
        Stmt::Cell(_, name, i, e) => {
            let index = lowered(alloc, place, i)?;
            let value = lowered(alloc, place, e)?;
            let stmts = set_array(alloc, place.decls, name, index, value)?;
            Ok(Code { stmts, end })
        }
        Stmt::Push(_, _, _) | Stmt::For(_, _, _, _) => Ok(Code { stmts, end }),
        Stmt::If(_, e, a, b) => {
            let test = lowered(alloc, place, e)?;
            let then = block_code(alloc, roots, place.decls, a, end)?;
            let other = block_code(alloc, roots, place.decls, b, then.end)?;
            let then_block = block(alloc, then.stmts)?;
            let other_block = maybe_else(alloc, other.stmts)?;
            stmts.push(P4Stmt::If(0, test, then_block, other_block))?;
            Ok(Code {
                stmts,
                end: other.end,
            })
        }
        Stmt::Reject(_) => {
            stmts.push(flag(alloc, "hydra_rejected", true)?)?;
            Ok(Code { stmts, end })
        }
        Stmt::Report(_, report, all) => {
            let values = lowered_all(alloc, place, all)?;
            stmts.push(tell(alloc, *report, values)?)?;
            Ok(Code { stmts, end })
        }
    }
}

/// A statement, whose first read has the number `base`.
#[cycle(code)]
fn stmt_code(
    alloc: Global,
    roots: &Roots,
    decls: &Declarations,
    s: &Stmt,
    base: u32,
) -> Result<Code, AllocError>
    ensures stmts { IfOk result (λ c. stmts_of c.stmts.items
        ≡ code.stmt_code (environment_of roots.now) (declared decls.now) (indus_stmt s.now) base) }
    ensures end { IfOk result (λ c. c.end ≡ code.stmt_end (declared decls.now) (indus_stmt s.now) base) }
{
    let reads = stmt_reads(alloc, decls, s)?;
    let place = Place {
        roots,
        decls,
        base,
        reads: &reads,
    };
    let end = number_at(base, reads.len())?;
    let mut stmts = reads_stmts(alloc, &place)?;
    let mut body = stmt_body(alloc, &place, s, end)?;
    stmts.append(&mut body.stmts)?;
    Ok(Code {
        stmts,
        end: body.end,
    })
}

/// A block, whose first read has the number `base`.
#[cycle(code)]
pub fn block_code(
    alloc: Global,
    roots: &Roots,
    decls: &Declarations,
    list: &[Stmt],
    base: u32,
) -> Result<Code, AllocError>
    ensures stmts { IfOk result (λ c. stmts_of c.stmts.items
        ≡ code.block_code (environment_of roots.now) (declared decls.now) (indus_block list.now) base) }
    ensures end { IfOk result (λ c. c.end ≡ code.block_end (declared decls.now) (indus_block list.now) base) }
{
    let mut stmts = Vec::new(alloc);
    let mut end = base;
    for s in list {
        let mut more = stmt_code(alloc, roots, decls, s, end)?;
        stmts.append(&mut more.stmts)?;
        end = more.end;
    }
    Ok(Code { stmts, end })
}

/// The checker at the last hop, which begins with nothing rejected.
pub fn checker(alloc: Global, check: Vec<P4Stmt>) -> Result<P4Stmt, AllocError>
    ensures { IfOk result (λ s. stmt_of s
        ≡ trees.only_if (keys.variable last_name) (p4.next (p4.assign 0 (rejected_name ∷ []) (p4.flag 0 false)) (stmts_of check.items))) }
{
    let begin = flag(alloc, "hydra_rejected", false)?;
    let test = variable(alloc, Name::new(alloc, "hydra_last")?)?;
    only_if(alloc, test, before(alloc, begin, check)?)
}
