//! What a control declares, with reads of the packet's length rewritten.

ghost use Rattle.std.specs.Prelude.{◌≡◌, ◌++◌, IfOk, map};
ghost use Rattle.std.specs.Option.{option_map};
ghost use Rattle.p4_tree.specs.Tree as p4;
ghost use Rattle.p4_tree.specs.View.{action_of, expr_of, key_of, local_of, table_of};
ghost use Rattle.p4_resolved.specs.Scopes.{roots_in};
ghost use Rattle.linked_programs.specs.Rewritten.{action_with, key_with, local_with, table_with};

use crate::lengths::{expr_with, start_with};
use crate::statements::stmts_with;
use lex_text::Name;
use p4_resolved::Roots;
use p4_tree::{Action, Expr, Local, PTy, Table, copy_fields};
use std::alloc::{AllocError, Global};

fn action_with(alloc: Global, roots: &Roots, a: &Action) -> Result<Action, AllocError>
    ensures { IfOk result (λ r. action_of r ≡ action_with (roots_in roots.now) (action_of a.now)) }
{
    Ok(Action {
        at: a.at,
        name: a.name.copy(alloc)?,
        params: copy_fields(alloc, &a.params)?,
        body: stmts_with(alloc, roots, &a.body)?,
    })
}

fn key_with(alloc: Global, roots: &Roots, key: &(Expr, Name)) -> Result<(Expr, Name), AllocError>
    ensures { IfOk result (λ k. key_of k ≡ key_with (roots_in roots.now) (key_of key.now)) }
{
    let kind = key.1.copy(alloc)?;
    Ok((expr_with(alloc, roots, &key.0)?, kind))
}

fn keys_with(
    alloc: Global,
    roots: &Roots,
    keys: &[(Expr, Name)],
) -> Result<Vec<(Expr, Name)>, AllocError>
    ensures { IfOk result (λ v. map key_of v.items ≡ map (key_with (roots_in roots.now)) (map key_of keys.now)) }
{
    let mut copies = Vec::with_capacity(alloc, keys.len())?;
    for key in keys {
        copies.push(key_with(alloc, roots, key)?)?;
    }
    Ok(copies)
}

/// A table. What stands for the arguments of its default reads nothing.
fn table_with(alloc: Global, roots: &Roots, t: &Table) -> Result<Table, AllocError>
    ensures { IfOk result (λ r. table_of r ≡ table_with (roots_in roots.now) (table_of t.now)) }
{
    let mut copy = t.copy(alloc)?;
    copy.keys = keys_with(alloc, roots, &t.keys)?;
    Ok(copy)
}

fn var_with(
    alloc: Global,
    roots: &Roots,
    at: u32,
    ty: &PTy,
    name: &Name,
    start: &Option<Expr>,
) -> Result<Local, AllocError>
    ensures { IfOk result (λ l. local_of l ≡ local_with (roots_in roots.now)
        (p4.local_var at ty.now name.now (option_map expr_of start.now))) }
{
    let ty = ty.copy(alloc)?;
    let name = name.copy(alloc)?;
    Ok(Local::Var(at, ty, name, start_with(alloc, roots, start)?))
}

fn local_with(alloc: Global, roots: &Roots, l: &Local) -> Result<Local, AllocError>
    ensures { IfOk result (λ r. local_of r ≡ local_with (roots_in roots.now) (local_of l.now)) }
{
    match l {
        Local::Act(at, a) => Ok(Local::Act(*at, action_with(alloc, roots, a)?)),
        Local::Tab(at, t) => Ok(Local::Tab(*at, table_with(alloc, roots, t)?)),
        Local::Reg(_, _) => l.copy(alloc),
        Local::Const(_, _, _, _) => l.copy(alloc),
        Local::Var(at, ty, name, start) => var_with(alloc, roots, *at, ty, name, start),
    }
}

/// Declarations go behind those that are there.
fn add_locals(
    alloc: Global,
    roots: &Roots,
    list: &[Local],
    all: &mut Vec<Local>,
) -> Result<(), AllocError>
    ensures { IfOk result (λ _. map local_of all.new.items
        ≡ map local_of all.old.items ++ map (local_with (roots_in roots.now)) (map local_of list.now)) }
{
    for l in list {
        all.push(local_with(alloc, roots, l)?)?;
    }
    Ok(())
}

/// Some declarations and then others.
pub(crate) fn locals_with(
    alloc: Global,
    roots: &Roots,
    front: &[Local],
    back: &[Local],
) -> Result<Vec<Local>, AllocError>
    ensures { IfOk result (λ v. map local_of v.items
        ≡ map (local_with (roots_in roots.now)) (map local_of front.now ++ map local_of back.now)) }
{
    let mut all = Vec::new(alloc);
    add_locals(alloc, roots, front, &mut all)?;
    add_locals(alloc, roots, back, &mut all)?;
    Ok(all)
}
