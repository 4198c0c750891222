//! Statements without `exit` and `return`.

ghost use Rattle.std.specs.Prelude.{◌≡◌, false, IfOk};
ghost use Rattle.p4_tree.specs.View.{else_of, stmt_of, stmts_of};
ghost use Rattle.exit_statements.specs.Without.{else_leaves, else_without, in_branch, stmt_leaves, stmt_without, stmts_leave, stmts_without};
ghost use Rattle.exit_programs.specs.Programs.{flags};
ghost use Rattle.exit_rewriting.specs.Exiting.{body_of, exits_by};

use crate::exits::Exiting;
use crate::flags::{Body, exit_in, flag_name, in_branch, in_list, raise};
use crate::leaves::{call_leaves, either, is_var, test_leaves};
use crate::place::Place;
use p4_tree::Stmt;
use std::alloc::{AllocError, Global};

/// A statement, and whether the given one may leave.
#[cycle(without)]
fn stmt_without(
    alloc: Global,
    exiting: &Exiting,
    place: &Place,
    body: Body,
    s: &Stmt,
) -> Result<(Stmt, bool), AllocError>
    ensures without { IfOk result (λ r. stmt_of r.0
        ≡ stmt_without flags (exits_by exiting.now place.now) (body_of body) (stmt_of s.now)) }
    ensures leaves { IfOk result (λ r. r.1
        ≡ stmt_leaves (exits_by exiting.now place.now) (stmt_of s.now)) }
{
    match s {
        Stmt::Nothing(at) => Ok((Stmt::Nothing(*at), false)),
        Stmt::Block(at, list) => {
            let list = stmts_without(alloc, exiting, place, body, list)?;
            Ok((Stmt::Block(*at, list.0), list.1))
        }
        Stmt::Var(_, _, _, _) => Ok((s.copy(alloc)?, false)),
        Stmt::Assign(_, _, _) => Ok((s.copy(alloc)?, false)),
        Stmt::If(at, e, a, b) => {
            let left = test_leaves(alloc, exiting, place, e)?;
            let e = e.copy(alloc)?;
            let a = branch_without(alloc, exiting, place, body, left, a)?;
            let b = else_without(alloc, exiting, place, body, left, b)?;
            let leaves = either(left, either(a.1, b.1));
            Ok((Stmt::If(*at, e, a.0, b.0), leaves))
        }
        Stmt::Return(_) => Ok((raise(alloc, flag_name(body))?, true)),
        Stmt::Exit(_) => Ok((exit_in(alloc, body)?, true)),
        Stmt::Call(_, callee, _) => {
            let leaves = call_leaves(alloc, exiting, place, callee)?;
            Ok((s.copy(alloc)?, leaves))
        }
    }
}

/// A branch, where the test may have left, and whether the given one may leave.
#[cycle(without)]
fn branch_without(
    alloc: Global,
    exiting: &Exiting,
    place: &Place,
    body: Body,
    left: bool,
    s: &Stmt,
) -> Result<(Box<Stmt>, bool), AllocError>
    ensures without { IfOk result (λ r. stmt_of r.0.value
        ≡ in_branch flags (exits_by exiting.now place.now) (body_of body) left
        (stmt_without flags (exits_by exiting.now place.now) (body_of body)
        (stmt_of s.now))) }
    ensures leaves { IfOk result (λ r. r.1
        ≡ stmt_leaves (exits_by exiting.now place.now) (stmt_of s.now)) }
{
    let s = stmt_without(alloc, exiting, place, body, s)?;
    let branch = in_branch(alloc, body, left, s.0)?;
    Ok((Box::new(alloc, branch)?, s.1))
}

#[cycle(without)]
fn else_without(
    alloc: Global,
    exiting: &Exiting,
    place: &Place,
    body: Body,
    left: bool,
    other: &Option<Box<Stmt>>,
) -> Result<(Option<Box<Stmt>>, bool), AllocError>
    ensures without { IfOk result (λ r. else_of r.0
        ≡ else_without flags (exits_by exiting.now place.now) (body_of body) left
        (else_of other.now)) }
    ensures leaves { IfOk result (λ r. r.1
        ≡ else_leaves (exits_by exiting.now place.now) (else_of other.now)) }
{
    match other {
        None => Ok((None, false)),
        Some(s) => {
            let s = branch_without(alloc, exiting, place, body, left, s)?;
            Ok((Some(s.0), s.1))
        }
    }
}

/// The statements of a list, and whether a given one may leave.
#[cycle(without)]
pub(crate) fn stmts_without(
    alloc: Global,
    exiting: &Exiting,
    place: &Place,
    body: Body,
    list: &[Stmt],
) -> Result<(Vec<Stmt>, bool), AllocError>
    ensures without { IfOk result (λ r. stmts_of r.0.items
        ≡ stmts_without flags (exits_by exiting.now place.now) (body_of body) false
        (stmts_of list.now)) }
    ensures leaves { IfOk result (λ r. r.1
        ≡ stmts_leave (exits_by exiting.now place.now) (stmts_of list.now)) }
{
    let mut out = Vec::new(alloc);
    let mut left = false;
    for s in list {
        let new = stmt_without(alloc, exiting, place, body, s)?;
        out.push(in_list(alloc, body, left, is_var(s), new.0)?)?;
        left = either(left, new.1);
    }
    Ok((out, left))
}
