//! Actions, controls and programs without `exit` and `return`.

ghost use Rattle.std.specs.Prelude.{◌≡◌, IfOk, map};
ghost use Rattle.std.specs.List.{list_any};
ghost use Rattle.p4_tree.specs.View.{action_of, control_of, local_of, program_of, stmts_of, top_of};
ghost use Rattle.exit_statements.specs.Actions.{body_without};
ghost use Rattle.exit_programs.specs.Programs.{action_without, control_without, exits_at, exits_in, flags, local_exits, local_without, program_without, top_without, with_flag};
ghost use Rattle.exit_rewriting.specs.Exiting.{exits_from};

use crate::exits::{Exiting, stmts_exit};
use crate::flags::{Body, flag_local, flagged};
use crate::leaves::either;
use crate::place::Place;
use crate::statements::stmts_without;
use lex_text::Name;
use p4_tree::{Action, Control, Local, Program, Stmt, Top, copy_fields, copy_params};
use p4_values::copy_path;
use std::alloc::{AllocError, Global};

/// An action's body. One that cannot leave stays as it is.
fn body_without(alloc: Global, place: &Place, body: &[Stmt]) -> Result<Vec<Stmt>, AllocError>
    ensures { IfOk result (λ v. stmts_of v.items ≡ body_without flags (stmts_of body.now)) }
{
    let nothing = Exiting::none(alloc);
    let body = stmts_without(alloc, &nothing, place, Body::InAction, body)?;
    if body.1 {
        flagged(alloc, body.0)
    } else {
        Ok(body.0)
    }
}

/// An action.
fn action_without(alloc: Global, place: &Place, a: &Action) -> Result<Action, AllocError>
    ensures { IfOk result (λ r. action_of r ≡ action_without (action_of a.now)) }
{
    Ok(Action {
        at: a.at,
        name: a.name.copy(alloc)?,
        params: copy_fields(alloc, &a.params)?,
        body: body_without(alloc, place, &a.body)?,
    })
}

/// A declaration of a control.
fn local_without(alloc: Global, place: &Place, l: &Local) -> Result<Local, AllocError>
    ensures { IfOk result (λ r. local_of r ≡ local_without (local_of l.now)) }
{
    match l {
        Local::Act(at, action) => Ok(Local::Act(*at, action_without(alloc, place, action)?)),
        Local::Tab(_, _) => l.copy(alloc),
        Local::Reg(_, _) => l.copy(alloc),
        Local::Const(_, _, _, _) => l.copy(alloc),
        Local::Var(_, _, _, _) => l.copy(alloc),
    }
}

/// An action that may exit.
fn local_exits(l: &Local) -> bool
    ensures { result ≡ local_exits (local_of l.now) }
{
    match l {
        Local::Act(_, action) => stmts_exit(&action.body),
        Local::Tab(_, _) => false,
        Local::Reg(_, _) => false,
        Local::Const(_, _, _, _) => false,
        Local::Var(_, _, _, _) => false,
    }
}

/// Whether an action of a control may exit.
fn some_exits(locals: &[Local]) -> bool
    ensures { result ≡ list_any local_exits (map local_of locals.now) }
{
    for l in locals {
        if local_exits(l) {
            return true;
        }
    }
    false
}

/// The declarations of a control, with its flag before them where it may be left.
fn locals_without(
    alloc: Global,
    place: &Place,
    leaves: bool,
    locals: &[Local],
) -> Result<Vec<Local>, AllocError>
    ensures { IfOk result (λ v. map local_of v.items
        ≡ with_flag leaves (map local_without (map local_of locals.now))) }
{
    let mut new = Vec::new(alloc);
    if leaves {
        new.push(flag_local(alloc)?)?;
    }
    for l in locals {
        new.push(local_without(alloc, place, l)?)?;
    }
    Ok(new)
}

/// A control.
fn control_without(alloc: Global, exiting: &Exiting, c: &Control) -> Result<Control, AllocError>
    ensures { IfOk result (λ r. control_of r
        ≡ control_without (exits_from exiting.now) (control_of c.now)) }
{
    let place = Place::new(alloc, c)?;
    let apply = stmts_without(alloc, exiting, &place, Body::InControl, &c.apply)?;
    let leaves = either(apply.1, some_exits(&c.locals));
    let locals = locals_without(alloc, &place, leaves, &c.locals)?;
    Ok(Control {
        at: c.at,
        name: c.name.copy(alloc)?,
        params: copy_params(alloc, &c.params)?,
        locals,
        apply: apply.0,
    })
}

/// A declaration at top level.
fn top_without(alloc: Global, exiting: &Exiting, top: &Top) -> Result<Top, AllocError>
    ensures { IfOk result (λ t. top_of t ≡ top_without (exits_from exiting.now) (top_of top.now)) }
{
    match top {
        Top::Ctl(at, c) => Ok(Top::Ctl(*at, control_without(alloc, exiting, c)?)),
        Top::Const(_, _, _, _) => top.copy(alloc),
        Top::Typedef(_, _, _) => top.copy(alloc),
        Top::Header(_, _, _) => top.copy(alloc),
        Top::Struct(_, _, _) => top.copy(alloc),
        Top::Reg(_, _) => top.copy(alloc),
        Top::Pars(_, _) => top.copy(alloc),
    }
}

fn tops_without(alloc: Global, exiting: &Exiting, tops: &[Top]) -> Result<Vec<Top>, AllocError>
    ensures { IfOk result (λ v. map top_of v.items
        ≡ map (top_without (exits_from exiting.now)) (map top_of tops.now)) }
{
    let mut new = Vec::new(alloc);
    for top in tops {
        new.push(top_without(alloc, exiting, top)?)?;
    }
    Ok(new)
}

/// The program of the same meaning without `exit` and `return`.
pub fn rewritten(alloc: Global, program: &Program) -> Result<Program, AllocError>
    ensures { IfOk result (λ q. program_of q ≡ program_without (program_of program.now)) }
{
    let exiting = Exiting::new(alloc, program)?;
    let tops = tops_without(alloc, &exiting, &program.tops)?;
    let main = copy_path(alloc, &program.main)?;
    Ok(Program {
        at: program.at,
        tops,
        main,
    })
}
