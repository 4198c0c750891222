//! The actions of a program, and words for their parameters.

ghost use Rattle.std.specs.Prelude.{◌≡◌, ◌++◌, IfOk, OnOk, map};
ghost use Rattle.std.specs.Option.{option_map};
ghost use Rattle.p4_tree.specs.View.{action_of, arg_of, control_of, expr_of, local_of, top_of};
ghost use Rattle.p4_meaning.specs.Statements.{values_in};
ghost use Rattle.p4_meaning.specs.Under.{in_control, no_scope};
ghost use Rattle.p4_meaning.specs.Actions.{param_under, action_under, actions_in, actions_of, action_named, params_of, args_of};
ghost use Rattle.p4_resolved.specs.Lent.{lent};
ghost use Rattle.p4_parts.specs.PartsIn.{action_in, param_in};
ghost use Rattle.p4_resolved.specs.Scopes.{at_part, at_top, scope_of};

use crate::parts::{Action, Taken};
use bit_values::Bits;
use lex_text::Name;
use p4_resolved::{Inner, Layer, Scope, first_name, full_name, stmts_under, width_under};
use p4_tree::{Arg, Control, Expr, Local, PTy, Top};
use p4_values::{Sight, same_text, value_of};
use std::alloc::{AllocError, Global};

fn param_under(alloc: Global, sc: &Scope, p: &(PTy, Name)) -> Result<Taken, AllocError>
    ensures { IfOk result (λ t. param_in t ≡ param_under (scope_of sc.now) p.now) }
{
    let name = first_name(alloc, sc, &p.1)?;
    let width = width_under(sc, &p.0);
    Ok(Taken { name, width })
}

fn params_under(alloc: Global, sc: &Scope, list: &[(PTy, Name)]) -> Result<Vec<Taken>, AllocError>
    ensures { IfOk result (λ v. map param_in v.items ≡ map (param_under (scope_of sc.now)) list.now) }
{
    let mut params = Vec::new(alloc);
    for p in list {
        params.push(param_under(alloc, sc, p)?)?;
    }
    Ok(params)
}

/// An action of a control with this layer.
fn action_under(
    alloc: Global,
    top: &Layer,
    layer: &Layer,
    a: &p4_tree::Action,
) -> Result<Action, AllocError>
    ensures { IfOk result (λ t. action_in t ≡ action_under (at_part top.now layer.now) (action_of a.now)) }
{
    let inner = Inner::of(alloc, a)?;
    let name = full_name(alloc, &layer.within(top), &a.name)?;
    let sc = inner.within(top, layer);
    let params = params_under(alloc, &sc, &a.params)?;
    let body = stmts_under(alloc, &sc, &a.body)?;
    Ok(Action { name, params, body })
}

/// The actions among a control's declarations go behind those that are there.
fn push_actions_in(
    alloc: Global,
    top: &Layer,
    layer: &mut Layer,
    locals: &[Local],
    actions: &mut Vec<Action>,
) -> Result<(), AllocError>
    ensures { OnOk result (map action_in actions.new.items ≡ map action_in actions.old.items ++ actions_in (at_part top.now layer.old) (map local_of locals.now)) }
{
    for local in locals {
        match local {
            Local::Act(_, a) => actions.push(action_under(alloc, top, layer, a)?)?,
            Local::Tab(_, _) => layer.pass_local(alloc, top, local)?,
            Local::Reg(_, _) => layer.pass_local(alloc, top, local)?,
            Local::Const(_, _, _, _) => layer.pass_local(alloc, top, local)?,
            Local::Var(_, _, _, _) => layer.pass_local(alloc, top, local)?,
        }
    }
    Ok(())
}

/// The actions of a control go behind those that are there.
fn push_actions_of(
    alloc: Global,
    top: &Layer,
    control: &Control,
    actions: &mut Vec<Action>,
) -> Result<(), AllocError>
    ensures { OnOk result (map action_in actions.new.items ≡ map action_in actions.old.items ++ actions_in (in_control 0 1 2 (at_top top.now) (control_of control.now)) (control_of control.now).locals) }
{
    let mut layer = Layer::of_control(alloc, 0, 1, 2, control)?;
    push_actions_in(alloc, top, &mut layer, &control.locals, actions)
}

/// The actions of a program, in the order of the text.
pub fn actions_of(alloc: Global, tops: &[Top]) -> Result<Vec<Action>, AllocError>
    ensures { IfOk result (λ v. map action_in v.items ≡ actions_of no_scope (map top_of tops.now)) }
{
    let mut layer = Layer::outside(alloc)?;
    let mut actions = Vec::new(alloc);
    for top in tops {
        match top {
            Top::Ctl(_, c) => push_actions_of(alloc, &layer, c, &mut actions)?,
            Top::Const(_, _, _, _) => layer.pass_top(alloc, top)?,
            Top::Typedef(_, _, _) => layer.pass_top(alloc, top)?,
            Top::Header(_, _, _) => layer.pass_top(alloc, top)?,
            Top::Struct(_, _, _) => layer.pass_top(alloc, top)?,
            Top::Reg(_, _) => layer.pass_top(alloc, top)?,
            Top::Pars(_, _) => layer.pass_top(alloc, top)?,
        }
    }
    Ok(actions)
}

/// The action of a full name.
pub fn action_named<'a>(actions: &'a [Action], x: &str) -> Option<&'a Action>
    ensures { option_map action_in (lent result) ≡ action_named (map action_in actions.now) x.now }
{
    for a in actions {
        if same_text(a.name.as_str(), x) {
            return Some(a);
        }
    }
    None
}

/// The parameters of an action that may be there.
pub fn params_of<'a>(action: Option<&'a Action>) -> &'a [Taken]
    ensures { map param_in result.now ≡ params_of (option_map action_in (lent action.entry)) }
{
    match action {
        None => &[],
        Some(a) => &a.params,
    }
}

/// The words of expressions, each taken at the width of its parameter.
pub fn words_of<S: Sight>(
    alloc: Global,
    params: &[Taken],
    list: &[Expr],
    s: &S,
) -> Result<Vec<Bits>, AllocError>
    ensures { IfOk result (λ v. v.items ≡ args_of (map param_in params.now) (map expr_of list.now) (S.store s.now)) }
{
    let mut words = Vec::new(alloc);
    for i in 0..params.len() {
        if i >= list.len() {
            return Ok(words);
        }
        words.push(value_of(&list[i], params[i].width, s))?;
    }
    Ok(words)
}

/// The words of a call's arguments, each taken at the width of its parameter.
pub fn args_of<S: Sight>(
    alloc: Global,
    params: &[Taken],
    args: &[Arg],
    s: &S,
) -> Result<Vec<Bits>, AllocError>
    ensures { IfOk result (λ v. v.items ≡ args_of (map param_in params.now) (values_in (map arg_of args.now)) (S.store s.now)) }
{
    let mut words = Vec::new(alloc);
    let mut n = 0;
    for a in args {
        match a {
            Arg::One(_, e) => {
                if n >= params.len() {
                    return Ok(words);
                }
                words.push(value_of(e, params[n].width, s))?;
                n += 1;
            }
            Arg::Many(_, _) => {}
        }
    }
    Ok(words)
}
