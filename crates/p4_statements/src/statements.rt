//! What statements do.

ghost use Rattle.std.specs.Prelude.{◌≡◌, not, IfOk};
ghost use Rattle.std.specs.Option.{option_map};
ghost use Rattle.p4_tree.specs.View.{expr_of, stmt_of, else_of, stmts_of};
ghost use Rattle.p4_meaning.specs.Statements.{application, tested, meaning_of_stmt, meaning_of_else, meaning_of};
ghost use Rattle.p4_meaning.specs.Parts.{whole};
ghost use Rattle.p4_parts.specs.PartsIn.{body_in};
ghost use Rattle.p4_statements.specs.Runs.{ended, flow_of, run_of, tested_of};
ghost use Rattle.p4_statements.specs.Calls.{asked_of};

use crate::calls::Calls;
use crate::dispatch::call;
use crate::run::{Flow, Run, Tested};
use p4_packets::assign;
use p4_parts::Body;
use p4_tree::{Expr, Stmt};
use p4_values::{is_true, start_of, value_of};
use std::alloc::{AllocError, Global};

/// The table that a test applies, and whether it asks for a hit.
#[derive(Clone, Copy)]
pub(crate) struct Asked<'a> {
    pub table: &'a str,
    pub hit: bool,
}

/// What a test asks of a table, perhaps behind `!`; `None` where it applies none.
fn application(e: &Expr) -> Option<Asked<'_>>
    ensures { option_map asked_of result ≡ application (expr_of e.now) }
{
    match e {
        Expr::Applied(_, table, hit) => Some(Asked {
            table: table.as_str(),
            hit: *hit,
        }),
        Expr::Not(_, e) => turned(application(e)),
        Expr::Num(_, _) | Expr::Flag(_, _) | Expr::Path(_, _) | Expr::Valid(_, _) => None,
        Expr::ErrorName(_, _) | Expr::Invert(_, _) | Expr::Negate(_, _) => None,
        Expr::Bin(_, _, _, _) | Expr::Choice(_, _, _, _) => None,
        Expr::Slice(_, _, _, _) | Expr::Cast(_, _, _) => None,
    }
}

/// The opposite of what is asked.
fn turned(asked: Option<Asked<'_>>) -> Option<Asked<'_>>
    ensures { option_map asked_of result ≡ option_map (λ t. record { 0 = t.0; 1 = not t.1 }) (option_map asked_of asked.entry) }
{
    match asked {
        None => None,
        Some(a) => Some(Asked {
            table: a.table,
            hit: !a.hit,
        }),
    }
}

/// How the test of an `if` ends.
fn test<C: Calls>(alloc: Global, calls: &C, e: &Expr, r: &mut Run) -> Result<Tested, AllocError>
    ensures { IfOk result (λ t. tested_of (run_of r.new) t ≡ tested (C.means calls.now) (expr_of e.now) (run_of r.old)) }
{
    match application(e) {
        None => Ok(Tested {
            flow: Flow::Go,
            hit: is_true(e, &r.fields),
        }),
        Some(asked) => {
            let applied = calls.apply_table(alloc, asked.table, r)?;
            Ok(Tested {
                flow: applied.flow,
                hit: if asked.hit { applied.hit } else { !applied.hit },
            })
        }
    }
}

/// Runs a statement, and says how it ends.
#[cycle(run)]
fn run_stmt<C: Calls>(alloc: Global, calls: &C, s: &Stmt, r: &mut Run) -> Result<Flow, AllocError>
    ensures { IfOk result (λ flow. ended (run_of r.new) (flow_of flow) ≡ meaning_of_stmt (C.means calls.now) (stmt_of s.now) (run_of r.old)) }
{
    match s {
        Stmt::Nothing(_) => Ok(Flow::Go),
        Stmt::Block(_, body) => run_stmts(alloc, calls, body, r),
        Stmt::Var(_, ty, name, start) => {
            let v = start_of(ty, start, &r.fields);
            r.fields.declare(alloc, name, v)?;
            Ok(Flow::Go)
        }
        Stmt::Assign(_, path, e) => {
            let v = value_of(e, r.fields.value(path).width(), &r.fields);
            assign(alloc, path, v, &mut r.fields)?;
            Ok(Flow::Go)
        }
        Stmt::If(_, e, a, b) => {
            let tested = test(alloc, calls, e, r)?;
            match tested.flow {
                Flow::Go => {
                    if tested.hit {
                        run_stmt(alloc, calls, a, r)
                    } else {
                        run_else(alloc, calls, b, r)
                    }
                }
                Flow::Return => Ok(Flow::Return),
                Flow::Exit => Ok(Flow::Exit),
            }
        }
        Stmt::Return(_) => Ok(Flow::Return),
        Stmt::Exit(_) => Ok(Flow::Exit),
        Stmt::Call(_, callee, args) => call(alloc, calls, callee, args, r),
    }
}

/// Runs what an `else` holds.
#[cycle(run)]
fn run_else<C: Calls>(
    alloc: Global,
    calls: &C,
    other: &Option<Box<Stmt>>,
    r: &mut Run,
) -> Result<Flow, AllocError>
    ensures { IfOk result (λ flow. ended (run_of r.new) (flow_of flow) ≡ meaning_of_else (C.means calls.now) (else_of other.now) (run_of r.old)) }
{
    match other {
        None => Ok(Flow::Go),
        Some(s) => run_stmt(alloc, calls, s, r),
    }
}

/// Runs statements one after the other, and says how they end.
#[cycle(run)]
pub fn run_stmts<C: Calls>(
    alloc: Global,
    calls: &C,
    list: &[Stmt],
    r: &mut Run,
) -> Result<Flow, AllocError>
    ensures { IfOk result (λ flow. ended (run_of r.new) (flow_of flow) ≡ meaning_of (C.means calls.now) (stmts_of list.now) (run_of r.old)) }
{
    for s in list {
        match run_stmt(alloc, calls, s, r)? {
            Flow::Go => {}
            Flow::Return => return Ok(Flow::Return),
            Flow::Exit => return Ok(Flow::Exit),
        }
    }
    Ok(Flow::Go)
}

/// Runs what a control runs: its variables and its body.
pub fn run_body<C: Calls>(
    alloc: Global,
    calls: &C,
    body: &Body,
    r: &mut Run,
) -> Result<Flow, AllocError>
    ensures { IfOk result (λ flow. ended (run_of r.new) (flow_of flow) ≡ meaning_of (C.means calls.now) (whole (body_in body.now)) (run_of r.old)) }
{
    match run_stmts(alloc, calls, &body.locals, r)? {
        Flow::Go => run_stmts(alloc, calls, &body.body, r),
        Flow::Return => Ok(Flow::Return),
        Flow::Exit => Ok(Flow::Exit),
    }
}
