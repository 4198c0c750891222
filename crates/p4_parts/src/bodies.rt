//! What the controls and the parser of a program run.

ghost use Rattle.std.specs.Prelude.{◌≡◌, Some, IfOk, OnOk, map};
ghost use Rattle.std.specs.Option.{option_map};
ghost use Rattle.p4_tree.specs.View.{control_of, local_of, parser_of, program_of, state_of, stmt_of, top_of};
ghost use Rattle.p4_meaning.specs.Parts as meaning;
ghost use Rattle.p4_meaning.specs.Parts.{body_of, parser_in, parser_type, scope_at_control, scope_at_parser, states_in, states_of};
ghost use Rattle.p4_meaning.specs.Under.{behind_locals, behind_tops, no_scope};
ghost use Rattle.p4_resolved.specs.Lent.{lent};
ghost use Rattle.p4_parts.specs.Locals.{settings};
ghost use Rattle.p4_parts.specs.PartsIn.{body_in};
ghost use Rattle.p4_resolved.specs.Scopes.{at_part, at_top};

use crate::parts::Body;
use p4_resolved::{
    Layer, control_named, named_in, param_type, parser_named, states_under, stmts_under, var_under,
};
use p4_tree::{Control, Local, Parser, ParserState, Program, Stmt, Top};
use p4_values::same_text;
use std::alloc::{AllocError, Global};

/// The layer behind all declarations.
pub fn layer_behind(alloc: Global, tops: &[Top]) -> Result<Box<Layer>, AllocError>
    ensures { IfOk result (λ l. at_top l.value ≡ behind_tops no_scope (map top_of tops.now)) }
{
    let mut layer = Layer::outside(alloc)?;
    for top in tops {
        layer.pass_top(alloc, top)?;
    }
    Ok(layer)
}

/// The layer of the program at the control of a name.
fn layer_at_control(alloc: Global, tops: &[Top], name: &str) -> Result<Box<Layer>, AllocError>
    ensures { IfOk result (λ l. at_top l.value ≡ scope_at_control no_scope (map top_of tops.now) name.now) }
{
    let mut layer = Layer::outside(alloc)?;
    for top in tops {
        match top {
            Top::Ctl(_, c) => {
                if same_text(c.name.as_str(), name) {
                    return Ok(layer);
                }
            }
            Top::Const(_, _, _, _) => layer.pass_top(alloc, top)?,
            Top::Typedef(_, _, _) => layer.pass_top(alloc, top)?,
            Top::Header(_, _, _) => layer.pass_top(alloc, top)?,
            Top::Struct(_, _, _) => layer.pass_top(alloc, top)?,
            Top::Reg(_, _) => layer.pass_top(alloc, top)?,
            Top::Pars(_, _) => layer.pass_top(alloc, top)?,
        }
    }
    Ok(layer)
}

/// The layer of the program at the parser of a name.
fn layer_at_parser(alloc: Global, tops: &[Top], name: &str) -> Result<Box<Layer>, AllocError>
    ensures { IfOk result (λ l. at_top l.value ≡ scope_at_parser no_scope (map top_of tops.now) name.now) }
{
    let mut layer = Layer::outside(alloc)?;
    for top in tops {
        match top {
            Top::Pars(_, p) => {
                if same_text(p.name.as_str(), name) {
                    return Ok(layer);
                }
            }
            Top::Const(_, _, _, _) => layer.pass_top(alloc, top)?,
            Top::Typedef(_, _, _) => layer.pass_top(alloc, top)?,
            Top::Header(_, _, _) => layer.pass_top(alloc, top)?,
            Top::Struct(_, _, _) => layer.pass_top(alloc, top)?,
            Top::Reg(_, _) => layer.pass_top(alloc, top)?,
            Top::Ctl(_, _) => layer.pass_top(alloc, top)?,
        }
    }
    Ok(layer)
}

/// The statements that set a control's variables. Its layer is behind its declarations then.
fn settings_under(
    alloc: Global,
    top: &Layer,
    layer: &mut Layer,
    locals: &[Local],
) -> Result<Vec<Stmt>, AllocError>
    ensures settings { IfOk result (λ v. map stmt_of v.items ≡ settings (at_part top.now layer.old) (map local_of locals.now)) }
    ensures behind { OnOk result (at_part top.now layer.new ≡ behind_locals (at_part top.now layer.old) (map local_of locals.now)) }
{
    let mut body = Vec::new(alloc);
    for local in locals {
        match local {
            Local::Var(at, ty, name, start) => {
                body.push(var_under(alloc, &layer.within(top), *at, ty, name, start)?)?;
            }
            Local::Act(_, _) => layer.pass_local(alloc, top, local)?,
            Local::Tab(_, _) => layer.pass_local(alloc, top, local)?,
            Local::Reg(_, _) => layer.pass_local(alloc, top, local)?,
            Local::Const(_, _, _, _) => layer.pass_local(alloc, top, local)?,
        }
    }
    Ok(body)
}

/// A control's variables and body, where the three parameters stand at these places.
#[tactic(auto, using(crate::proofs::SettingsLemmas::settings_list))]
fn body_under(
    alloc: Global,
    headers: u8,
    metadata: u8,
    standard: u8,
    top: &Layer,
    control: &Control,
) -> Result<Body, AllocError>
    ensures { IfOk result (λ b. body_in b ≡ body_of headers metadata standard (at_top top.now) (Some (control_of control.now))) }
{
    let mut layer = Layer::of_control(alloc, headers, metadata, standard, control)?;
    let locals = settings_under(alloc, top, &mut layer, &control.locals)?;
    let body = stmts_under(alloc, &layer.within(top), &control.apply)?;
    Ok(Body { locals, body })
}

/// What a control that may be there runs.
fn body_of(
    alloc: Global,
    headers: u8,
    metadata: u8,
    standard: u8,
    top: &Layer,
    control: Option<&Control>,
) -> Result<Body, AllocError>
    ensures { IfOk result (λ b. body_in b ≡ body_of headers metadata standard (at_top top.now) (option_map control_of (lent control.entry))) }
{
    match control {
        None => Ok(Body {
            locals: Vec::new(alloc),
            body: Vec::new(alloc),
        }),
        Some(c) => body_under(alloc, headers, metadata, standard, top, c),
    }
}

/// What the control that `main` names at a place runs.
pub fn body_at(
    alloc: Global,
    headers: u8,
    metadata: u8,
    standard: u8,
    p: &Program,
    n: usize,
) -> Result<Body, AllocError>
    ensures { IfOk result (λ b. body_in b ≡ meaning.body_in headers metadata standard (program_of p.now) n) }
{
    let name = named_in(&p.main, n);
    let top = layer_at_control(alloc, &p.tops, name)?;
    body_of(
        alloc,
        headers,
        metadata,
        standard,
        &top,
        control_named(&p.tops, name),
    )
}

/// The states of a parser that may be there.
fn states_of(
    alloc: Global,
    top: &Layer,
    parser: Option<&Parser>,
) -> Result<Vec<ParserState>, AllocError>
    ensures { IfOk result (λ v. map state_of v.items ≡ states_of (at_top top.now) (option_map parser_of (lent parser.entry))) }
{
    match parser {
        None => Ok(Vec::new(alloc)),
        Some(p) => {
            let layer = Layer::of_parser(alloc, top, p)?;
            states_under(alloc, &layer.within(top), &p.states)
        }
    }
}

/// The parser that `main` names.
pub fn parser_in(p: &Program) -> Option<&Parser>
    ensures { option_map parser_of (lent result) ≡ parser_in (program_of p.now) }
{
    parser_named(&p.tops, named_in(&p.main, 0))
}

/// The states of the parser that `main` names.
pub fn states_in(alloc: Global, p: &Program) -> Result<Vec<ParserState>, AllocError>
    ensures { IfOk result (λ v. map state_of v.items ≡ states_in (program_of p.now)) }
{
    let top = layer_at_parser(alloc, &p.tops, named_in(&p.main, 0))?;
    states_of(alloc, &top, parser_in(p))
}

/// The name of the type of a parser's parameter.
pub fn parser_type<'a>(parser: Option<&'a Parser>, n: u8) -> &'a str
    ensures { result.now ≡ parser_type (option_map parser_of (lent parser.entry)) n }
{
    match parser {
        None => "",
        Some(p) => param_type(&p.params, n),
    }
}
