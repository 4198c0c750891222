//! What controls declare, and controls.

ghost use Rattle.std.specs.Prelude.{IfOk, map};
ghost use Rattle.std.specs.List.{AllZip};
ghost use Rattle.p4_tree.specs.View.{action_of, control_of, key_of, local_of, table_of};
ghost use Rattle.rewritten_programs.specs.Rewritten.{ActionRewritten, ControlRewritten, KeyRewritten, LocalRewritten, TableRewritten};
ghost use Rattle.simplify_rules.specs.Simplified.{IsSimplified};

use crate::statements::{start, stmts};
use lex_text::Name;
use p4_tree::{Action, Control, Expr, Local, Table, copy_fields, copy_params};
use simplify_rules::{Offers, simplified};
use std::alloc::{AllocError, Global};

/// An action.
fn action<R: Offers>(alloc: Global, rules: &R, a: &Action) -> Result<Action, AllocError>
    ensures { IfOk result (λ b. ActionRewritten (IsSimplified (R.Answers rules.now))
        (action_of a.now) (action_of b)) }
{
    Ok(Action {
        at: a.at,
        name: a.name.copy(alloc)?,
        params: copy_fields(alloc, &a.params)?,
        body: stmts(alloc, rules, &a.body)?,
    })
}

/// A key, which is matched in the same way.
fn key<R: Offers>(alloc: Global, rules: &R, k: &(Expr, Name)) -> Result<(Expr, Name), AllocError>
    ensures { IfOk result (λ l. KeyRewritten (IsSimplified (R.Answers rules.now))
        (key_of k.now) (key_of l)) }
{
    let kind = k.1.copy(alloc)?;
    Ok((simplified(alloc, rules, &k.0)?, kind))
}

fn keys<R: Offers>(
    alloc: Global,
    rules: &R,
    list: &[(Expr, Name)],
) -> Result<Vec<(Expr, Name)>, AllocError>
    ensures { IfOk result (λ v. AllZip (KeyRewritten (IsSimplified (R.Answers rules.now)))
        (map key_of list.now) (map key_of v.items)) }
{
    let mut made = Vec::with_capacity(alloc, list.len())?;
    for k in list {
        made.push(key(alloc, rules, k)?)?;
    }
    Ok(made)
}

/// A table.
fn table<R: Offers>(alloc: Global, rules: &R, t: &Table) -> Result<Table, AllocError>
    ensures { IfOk result (λ u. TableRewritten (IsSimplified (R.Answers rules.now))
        (table_of t.now) (table_of u)) }
{
    let keys = keys(alloc, rules, &t.keys)?;
    let mut made = t.copy(alloc)?;
    made.keys = keys;
    Ok(made)
}

/// A declaration of a control. Registers and constants stay.
fn local<R: Offers>(alloc: Global, rules: &R, l: &Local) -> Result<Local, AllocError>
    ensures { IfOk result (λ d. LocalRewritten (IsSimplified (R.Answers rules.now))
        (local_of l.now) (local_of d)) }
{
    match l {
        Local::Act(at, a) => Ok(Local::Act(*at, action(alloc, rules, a)?)),
        Local::Tab(at, t) => Ok(Local::Tab(*at, table(alloc, rules, t)?)),
        Local::Var(at, ty, name, e) => {
            let ty = ty.copy(alloc)?;
            let name = name.copy(alloc)?;
            Ok(Local::Var(*at, ty, name, start(alloc, rules, e)?))
        }
        Local::Reg(_, _) => l.copy(alloc),
        Local::Const(_, _, _, _) => l.copy(alloc),
    }
}

fn locals<R: Offers>(alloc: Global, rules: &R, list: &[Local]) -> Result<Vec<Local>, AllocError>
    ensures { IfOk result (λ v. AllZip (LocalRewritten (IsSimplified (R.Answers rules.now)))
        (map local_of list.now) (map local_of v.items)) }
{
    let mut made = Vec::with_capacity(alloc, list.len())?;
    for l in list {
        made.push(local(alloc, rules, l)?)?;
    }
    Ok(made)
}

/// A control.
pub(crate) fn control<R: Offers>(
    alloc: Global,
    rules: &R,
    c: &Control,
) -> Result<Control, AllocError>
    ensures { IfOk result (λ d. ControlRewritten (IsSimplified (R.Answers rules.now))
        (control_of c.now) (control_of d)) }
{
    Ok(Control {
        at: c.at,
        name: c.name.copy(alloc)?,
        params: copy_params(alloc, &c.params)?,
        locals: locals(alloc, rules, &c.locals)?,
        apply: stmts(alloc, rules, &c.apply)?,
    })
}
