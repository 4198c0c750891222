//! Which actions and tables of a program may exit.

ghost use Rattle.std.specs.Prelude.{◌≡◌, IfOk, map, List};
ghost use Rattle.std.specs.List.{list_any};
ghost use Rattle.p4_tree.specs.Tree.{local_table};
ghost use Rattle.p4_tree.specs.View.{control_of, else_of, local_of, program_of, stmt_of, stmts_of, table_of, top_of};
ghost use Rattle.exit_statements.specs.Without.{no_exits};
ghost use Rattle.exit_statements.specs.Actions.{else_exits, stmt_exits, stmts_exit};
ghost use Rattle.exit_programs.specs.Programs.{exits_in};
ghost use Rattle.exit_rewriting.specs.Marks.{AreMarks, Adds, from_each};
ghost use Rattle.exit_rewriting.specs.Groups.{AreGroups, Grows, is_marked_in};
ghost use Rattle.exit_rewriting.specs.Exiting.{action_marks, all_action_marks, all_table_marks, control_action_marks, control_table_marks, exits_from, name_at, table_marks};

use crate::groups::{Group, Groups};
use crate::marks::Marks;
use crate::place::Place;
use lex_text::Name;
use p4_tree::{Control, Local, Program, Stmt, Table, Top};
use std::alloc::{AllocError, Global};

/// The actions and tables of a program by their full names, each with whether it may exit.
#[derive(Drop)]
pub(crate) struct Exiting {
    pub(crate) actions: Groups,
    pub(crate) tables: Groups,
}

/// Whether a statement of an action may exit.
#[cycle(exits)]
fn stmt_exits(s: &Stmt) -> bool
    ensures { result ≡ stmt_exits (stmt_of s.now) }
{
    match s {
        Stmt::Nothing(_) => false,
        Stmt::Block(_, body) => stmts_exit(body),
        Stmt::Var(_, _, _, _) => false,
        Stmt::Assign(_, _, _) => false,
        Stmt::If(_, _, a, b) => stmt_exits(a) || else_exits(b),
        Stmt::Return(_) => false,
        Stmt::Exit(_) => true,
        Stmt::Call(_, _, _) => false,
    }
}

#[cycle(exits)]
fn else_exits(other: &Option<Box<Stmt>>) -> bool
    ensures { result ≡ else_exits (else_of other.now) }
{
    match other {
        None => false,
        Some(s) => stmt_exits(s),
    }
}

/// Whether a statement of a list may exit.
#[cycle(exits)]
pub(crate) fn stmts_exit(list: &[Stmt]) -> bool
    ensures { result ≡ stmts_exit (stmts_of list.now) }
{
    for s in list {
        if stmt_exits(s) {
            return true;
        }
    }
    false
}

/// Whether an action of a control may exit goes behind those before.
fn add_action(alloc: Global, local: &Local, marks: &mut Marks) -> Result<(), AllocError>
    ensures { IfOk result (λ _. Adds marks.old marks.new (action_marks (local_of local.now))) }
{
    match local {
        Local::Act(_, a) => marks.add_name(alloc, &a.name, stmts_exit(&a.body)),
        Local::Tab(_, _) => Ok(()),
        Local::Reg(_, _) => Ok(()),
        Local::Const(_, _, _, _) => Ok(()),
        Local::Var(_, _, _, _) => Ok(()),
    }
}

/// The actions of a control.
fn actions_in(alloc: Global, locals: &[Local]) -> Result<Marks, AllocError>
    ensures { IfOk result (λ m. AreMarks m (from_each action_marks (map local_of locals.now))) }
{
    let mut marks = Marks::new(alloc);
    for local in locals {
        add_action(alloc, local, &mut marks)?;
    }
    Ok(marks)
}

/// The actions of a control go behind those before.
fn add_actions(alloc: Global, c: &Control, groups: &mut Groups) -> Result<(), AllocError>
    ensures { IfOk result (λ _. Grows groups.old groups.new
        (control_action_marks (control_of c.now))) }
{
    let marks = actions_in(alloc, &c.locals)?;
    let control = c.name.copy(alloc)?;
    groups.add(Group { control, marks })?;
    Ok(())
}

fn add_top_actions(alloc: Global, top: &Top, groups: &mut Groups) -> Result<(), AllocError>
    ensures { IfOk result (λ _. Grows groups.old groups.new (all_action_marks (top_of top.now))) }
{
    match top {
        Top::Ctl(_, c) => add_actions(alloc, c, groups),
        Top::Const(_, _, _, _) => Ok(()),
        Top::Typedef(_, _, _) => Ok(()),
        Top::Header(_, _, _) => Ok(()),
        Top::Struct(_, _, _) => Ok(()),
        Top::Reg(_, _) => Ok(()),
        Top::Pars(_, _) => Ok(()),
    }
}

/// The actions of a program.
fn actions_of(alloc: Global, tops: &[Top]) -> Result<Groups, AllocError>
    ensures { IfOk result (λ g. AreGroups g (from_each all_action_marks (map top_of tops.now))) }
{
    let mut groups = Groups::new(alloc);
    for top in tops {
        add_top_actions(alloc, top, &mut groups)?;
    }
    Ok(groups)
}

/// Whether one of these actions may exit.
fn any_exits(
    alloc: Global,
    actions: &Groups,
    place: &Place,
    names: &[Name],
) -> Result<bool, AllocError>
    ensures { IfOk result (λ b. b
        ≡ list_any (λ x. is_marked_in actions.now (name_at place.now x)) names.now) }
{
    for x in names {
        if place.is_marked(alloc, actions, x)? {
            return Ok(true);
        }
    }
    Ok(false)
}

/// Whether a table may run an action that may exit goes behind those before.
fn add_table(
    alloc: Global,
    actions: &Groups,
    place: &Place,
    t: &Table,
    marks: &mut Marks,
) -> Result<(), AllocError>
    ensures { IfOk result (λ _. Adds marks.old marks.new
        (table_marks (is_marked_in actions.now) (name_at place.now)
        (local_table 0 (table_of t.now)))) }
{
    let exits = any_exits(alloc, actions, place, &t.actions)?;
    marks.add_name(alloc, &t.name, exits)
}

fn add_local_table(
    alloc: Global,
    actions: &Groups,
    place: &Place,
    local: &Local,
    marks: &mut Marks,
) -> Result<(), AllocError>
    ensures { IfOk result (λ _. Adds marks.old marks.new
        (table_marks (is_marked_in actions.now) (name_at place.now) (local_of local.now))) }
{
    match local {
        Local::Tab(_, t) => add_table(alloc, actions, place, t, marks),
        Local::Act(_, _) => Ok(()),
        Local::Reg(_, _) => Ok(()),
        Local::Const(_, _, _, _) => Ok(()),
        Local::Var(_, _, _, _) => Ok(()),
    }
}

/// The tables of a control.
fn tables_in(
    alloc: Global,
    actions: &Groups,
    place: &Place,
    locals: &[Local],
) -> Result<Marks, AllocError>
    ensures { IfOk result (λ m. AreMarks m
        (from_each (table_marks (is_marked_in actions.now) (name_at place.now))
        (map local_of locals.now))) }
{
    let mut marks = Marks::new(alloc);
    for local in locals {
        add_local_table(alloc, actions, place, local, &mut marks)?;
    }
    Ok(marks)
}

/// The tables of a control go behind those before.
fn add_tables(
    alloc: Global,
    actions: &Groups,
    c: &Control,
    groups: &mut Groups,
) -> Result<(), AllocError>
    ensures { IfOk result (λ _. Grows groups.old groups.new
        (control_table_marks (is_marked_in actions.now) (control_of c.now))) }
{
    let place = Place::new(alloc, c)?;
    let marks = tables_in(alloc, actions, &place, &c.locals)?;
    let control = c.name.copy(alloc)?;
    groups.add(Group { control, marks })?;
    Ok(())
}

fn add_top_tables(
    alloc: Global,
    actions: &Groups,
    top: &Top,
    groups: &mut Groups,
) -> Result<(), AllocError>
    ensures { IfOk result (λ _. Grows groups.old groups.new
        (all_table_marks (is_marked_in actions.now) (top_of top.now))) }
{
    match top {
        Top::Ctl(_, c) => add_tables(alloc, actions, c, groups),
        Top::Const(_, _, _, _) => Ok(()),
        Top::Typedef(_, _, _) => Ok(()),
        Top::Header(_, _, _) => Ok(()),
        Top::Struct(_, _, _) => Ok(()),
        Top::Reg(_, _) => Ok(()),
        Top::Pars(_, _) => Ok(()),
    }
}

/// The tables of a program with these actions.
fn tables_of(alloc: Global, actions: &Groups, tops: &[Top]) -> Result<Groups, AllocError>
    ensures { IfOk result (λ g. AreGroups g
        (from_each (all_table_marks (is_marked_in actions.now)) (map top_of tops.now))) }
{
    let mut groups = Groups::new(alloc);
    for top in tops {
        add_top_tables(alloc, actions, top, &mut groups)?;
    }
    Ok(groups)
}

impl Exiting {
    /// What of a program may exit.
    pub(crate) fn new(alloc: Global, program: &Program) -> Result<Exiting, AllocError>
        ensures { IfOk result (λ e. exits_from e ≡ exits_in (program_of program.now)) }
    {
        let actions = actions_of(alloc, &program.tops)?;
        let tables = tables_of(alloc, &actions, &program.tops)?;
        Ok(Exiting { actions, tables })
    }

    /// Nothing may exit.
    pub(crate) fn none(alloc: Global) -> Exiting
        ensures { exits_from result ≡ no_exits }
    {
        Exiting {
            actions: Groups::new(alloc),
            tables: Groups::new(alloc),
        }
    }
}
