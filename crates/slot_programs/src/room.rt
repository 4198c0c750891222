//! How many slots variables and parameters need.

ghost use Rattle.std.specs.Prelude.{◌≡◌, ◌+◌, max, map, IfOk};
ghost use Rattle.p4_tree.specs.View.{else_of, stmt_of, stmts_of};
ghost use Rattle.p4_meaning.specs.Parts.{whole};
ghost use Rattle.p4_parts.specs.PartsIn.{action_in, body_in, parts_in};
ghost use Rattle.slot_programs.specs.Room.{action_room, actions_room, room_of, variables_else, variables_in, variables_of};

use p4_parts::{Action, Body, Parts};
use p4_tree::Stmt;
use std::alloc::AllocError;

/// The greater of two numbers.
fn greater(a: u32, b: u32) -> u32
    ensures { result ≡ max a b }
{
    if a < b { b } else { a }
}

/// Two numbers together. What 32 bits do not count no memory holds: that is told as want of memory.
fn together(a: u32, b: u32) -> Result<u32, AllocError>
    ensures { IfOk result (λ n. n ≡ a + b) }
{
    match a.checked_add(b) {
        Some(n) => Ok(n),
        None => Err(AllocError),
    }
}

/// A number of 32 bits.
fn small_number(n: usize) -> Result<u32, AllocError>
    ensures { IfOk result (λ m. m ≡ n) }
{
    match u32::try_from(n) {
        Ok(m) => Ok(m),
        Err(_) => Err(AllocError),
    }
}

/// The variables that a statement declares.
#[cycle(room)]
fn variables_of(s: &Stmt) -> Result<u32, AllocError>
    ensures { IfOk result (λ n. n ≡ variables_of (stmt_of s.now)) }
{
    match s {
        Stmt::Nothing(_) | Stmt::Assign(_, _, _) | Stmt::Call(_, _, _) => Ok(0),
        Stmt::Return(_) | Stmt::Exit(_) => Ok(0),
        Stmt::Var(_, _, _, _) => Ok(1),
        Stmt::Block(_, body) => variables_in(body),
        Stmt::If(_, _, a, b) => {
            let first = variables_of(a)?;
            let second = variables_else(b)?;
            Ok(greater(first, second))
        }
    }
}

/// The variables that an `else` declares that may be there.
#[cycle(room)]
fn variables_else(other: &Option<Box<Stmt>>) -> Result<u32, AllocError>
    ensures { IfOk result (λ n. n ≡ variables_else (else_of other.now)) }
{
    match other {
        None => Ok(0),
        Some(s) => variables_of(s),
    }
}

/// The variables that statements declare.
#[cycle(room)]
fn variables_in(list: &[Stmt]) -> Result<u32, AllocError>
    ensures { IfOk result (λ n. n ≡ variables_in (stmts_of list.now)) }
{
    let mut total = 0;
    for s in list {
        total = together(total, variables_of(s)?)?;
    }
    Ok(total)
}

/// The variables that a control declares.
fn body_room(b: &Body) -> Result<u32, AllocError>
    ensures { IfOk result (λ n. n ≡ variables_in (whole (body_in b.now))) }
{
    let locals = variables_in(&b.locals)?;
    let body = variables_in(&b.body)?;
    let both = together(locals, body)?;
    Ok(both)
}

/// The parameters and the variables of an action.
fn action_room(a: &Action) -> Result<u32, AllocError>
    ensures { IfOk result (λ n. n ≡ action_room (action_in a.now)) }
{
    let params = small_number(a.params.len())?;
    let body = variables_in(&a.body)?;
    together(params, body)
}

/// The most parameters and variables that one of some actions has.
fn actions_room(actions: &[Action]) -> Result<u32, AllocError>
    ensures { IfOk result (λ n. n ≡ actions_room (map action_in actions.now)) }
{
    let mut most = 0;
    for a in actions {
        most = greater(most, action_room(a)?);
    }
    Ok(most)
}

/// The most variables that a control of a program has at once, with those of an action.
pub(crate) fn room_of(p: &Parts) -> Result<u32, AllocError>
    ensures { IfOk result (λ n. n ≡ room_of (parts_in p.now)) }
{
    let checksums = greater(body_room(&p.verify)?, body_room(&p.compute)?);
    let bodies = greater(body_room(&p.ingress)?, body_room(&p.egress)?);
    let actions = actions_room(&p.actions)?;
    Ok(greater(checksums, together(bodies, actions)?))
}
