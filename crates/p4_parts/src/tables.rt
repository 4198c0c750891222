//! The tables of a program.

ghost use Rattle.std.specs.Prelude.{◌≡◌, ◌++◌, IfOk, OnOk, map};
ghost use Rattle.std.specs.Option.{option_map};
ghost use Rattle.p4_tree.specs.View.{control_of, default_of, key_of, local_of, table_of, top_of};
ghost use Rattle.p4_meaning.specs.Scope.{full_name};
ghost use Rattle.p4_meaning.specs.Under.{in_control, no_scope};
ghost use Rattle.p4_meaning.specs.Tables.{default_under, key_under, table_under, table_named, tables_in, tables_of};
ghost use Rattle.p4_resolved.specs.Lent.{lent};
ghost use Rattle.p4_parts.specs.PartsIn.{action_in, chosen_in, key_in, table_in};
ghost use Rattle.p4_resolved.specs.Scopes.{at_part, at_top, scope_of};

use crate::actions::{params_of, words_of};
use crate::parts::{Action, Chosen, Key, Table};
use crate::places::{ActionTable, action_places};
use lex_text::Name;
use p4_resolved::{Layer, Scope, expr_under, exprs_under, full_name};
use p4_tree::{Control, Expr, Local, Top};
use p4_values::{Nowhere, same_text};
use std::alloc::{AllocError, Global};

fn key_under(alloc: Global, sc: &Scope, k: &(Expr, Name)) -> Result<Key, AllocError>
    ensures { IfOk result (λ t. key_in t ≡ key_under (scope_of sc.now) (key_of k.now)) }
{
    let value = expr_under(alloc, sc, &k.0)?;
    let kind = k.1.copy(alloc)?;
    Ok(Key { value, kind })
}

fn keys_under(alloc: Global, sc: &Scope, list: &[(Expr, Name)]) -> Result<Vec<Key>, AllocError>
    ensures { IfOk result (λ v. map key_in v.items ≡ map (key_under (scope_of sc.now)) (map key_of list.now)) }
{
    let mut keys = Vec::new(alloc);
    for k in list {
        keys.push(key_under(alloc, sc, k)?)?;
    }
    Ok(keys)
}

fn full_names(alloc: Global, sc: &Scope, list: &[Name]) -> Result<Vec<Name>, AllocError>
    ensures { IfOk result (λ v. v.items ≡ map (full_name (scope_of sc.now)) list.now) }
{
    let mut names = Vec::new(alloc);
    for x in list {
        names.push(full_name(alloc, sc, x)?)?;
    }
    Ok(names)
}

/// The default that is written, which is `NoAction` where none is. Its words are found once, here.
fn default_under(
    alloc: Global,
    sc: &Scope,
    actions: &ActionTable,
    default: &Option<(Name, Vec<Expr>)>,
) -> Result<Chosen, AllocError>
    ensures { IfOk result (λ c. chosen_in c ≡ default_under (scope_of sc.now) (map action_in actions.now.actions.now) (option_map default_of default.now)) }
{
    match default {
        None => Ok(Chosen {
            action: Name::new(alloc, "NoAction")?,
            args: Vec::new(alloc),
        }),
        Some(d) => {
            let action = full_name(alloc, sc, &d.0)?;
            let list = exprs_under(alloc, sc, &d.1)?;
            let params = params_of(actions.named(action.as_str()));
            let args = words_of(alloc, params, &list, &Nowhere)?;
            Ok(Chosen { action, args })
        }
    }
}

fn table_under(
    alloc: Global,
    sc: &Scope,
    actions: &ActionTable,
    t: &p4_tree::Table,
) -> Result<Table, AllocError>
    ensures { IfOk result (λ u. table_in u ≡ table_under (scope_of sc.now) (map action_in actions.now.actions.now) (table_of t.now)) }
{
    Ok(Table {
        name: full_name(alloc, sc, &t.name)?,
        keys: keys_under(alloc, sc, &t.keys)?,
        actions: full_names(alloc, sc, &t.actions)?,
        default: default_under(alloc, sc, actions, &t.default)?,
        fixed: t.fixed,
    })
}

/// The tables among a control's declarations go behind those that are there.
fn push_tables_in(
    alloc: Global,
    top: &Layer,
    layer: &mut Layer,
    actions: &ActionTable,
    locals: &[Local],
    tables: &mut Vec<Table>,
) -> Result<(), AllocError>
    ensures { OnOk result (map table_in tables.new.items ≡ map table_in tables.old.items ++ tables_in (at_part top.now layer.old) (map action_in actions.now.actions.now) (map local_of locals.now)) }
{
    for local in locals {
        match local {
            Local::Tab(_, t) => tables.push(table_under(alloc, &layer.within(top), actions, t)?)?,
            Local::Act(_, _) => layer.pass_local(alloc, top, local)?,
            Local::Reg(_, _) => layer.pass_local(alloc, top, local)?,
            Local::Const(_, _, _, _) => layer.pass_local(alloc, top, local)?,
            Local::Var(_, _, _, _) => layer.pass_local(alloc, top, local)?,
        }
    }
    Ok(())
}

/// The tables of a control go behind those that are there.
fn push_tables_of(
    alloc: Global,
    top: &Layer,
    actions: &ActionTable,
    control: &Control,
    tables: &mut Vec<Table>,
) -> Result<(), AllocError>
    ensures { OnOk result (map table_in tables.new.items ≡ map table_in tables.old.items ++ tables_in (in_control 0 1 2 (at_top top.now) (control_of control.now)) (map action_in actions.now.actions.now) (control_of control.now).locals) }
{
    let mut layer = Layer::of_control(alloc, 0, 1, 2, control)?;
    push_tables_in(alloc, top, &mut layer, actions, &control.locals, tables)
}

/// The tables of a program with these actions, in the order of the text.
pub fn tables_of(alloc: Global, actions: &[Action], tops: &[Top]) -> Result<Vec<Table>, AllocError>
    ensures { IfOk result (λ v. map table_in v.items ≡ tables_of no_scope (map action_in actions.now) (map top_of tops.now)) }
{
    let places = action_places(alloc, actions)?;
    let named = ActionTable {
        actions,
        places: &places,
    };
    let mut layer = Layer::outside(alloc)?;
    let mut tables = Vec::new(alloc);
    for top in tops {
        match top {
            Top::Ctl(_, c) => push_tables_of(alloc, &layer, &named, c, &mut tables)?,
            Top::Const(_, _, _, _) => layer.pass_top(alloc, top)?,
            Top::Typedef(_, _, _) => layer.pass_top(alloc, top)?,
            Top::Header(_, _, _) => layer.pass_top(alloc, top)?,
            Top::Struct(_, _, _) => layer.pass_top(alloc, top)?,
            Top::Reg(_, _) => layer.pass_top(alloc, top)?,
            Top::Pars(_, _) => layer.pass_top(alloc, top)?,
        }
    }
    Ok(tables)
}

/// The table of a full name.
pub fn table_named<'a>(tables: &'a [Table], x: &str) -> Option<&'a Table>
    ensures { option_map table_in (lent result) ≡ table_named (map table_in tables.now) x.now }
{
    for t in tables {
        if same_text(t.name.as_str(), x) {
            return Some(t);
        }
    }
    None
}
