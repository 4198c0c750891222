//! The parser of a linked program: it asks how the frame arrived, takes the telemetry where it stands,
//! and goes on with the program's own states. All new places are 0.

ghost use Rattle.std.specs.Prelude.{◌≡◌, ◌∷◌, ◌++◌, [], IfOk, codes, map};
ghost use Rattle.p4_tree.specs.Tree as p4;
ghost use Rattle.p4_tree.specs.View.{case_of, expr_of, keyset_of, parser_of, state_of, stmt_of, transition_of};
ghost use Rattle.p4_tree.specs.declared.statement.Op.TheVariants as op;
ghost use Rattle.p4_meaning.specs.Scope.{param_at, param_name};
ghost use Rattle.p4_resolved.specs.Scopes.{roots_in};
ghost use Rattle.monitor_laws.specs.Trees as monitor;
ghost use Rattle.linked_halves.specs.ParserStates.{link_cases, own_name, renamed_case, renamed_transition};
ghost use Rattle.linked_programs.specs.Rewritten.{case_with, keyset_with, parse_with, transition_with};
ghost use Rattle.linked_programs.specs.Linked.{first_state, linked_parser, own_state, standard_at, taken_state};

use crate::around::on_packet;
use crate::lengths::{expr_with, exprs_with, length_at};
use crate::roots::parser_roots;
use crate::statements::assign_with;
use lex_text::Name;
use p4_resolved::Roots;
use p4_tree::{Expr, Keyset, Op, Param, Parser, ParserState, Stmt, Transition, copy_params};
use p4_values::same_text;
use port_tests::link_cases;
use small_trees::{assign, at_path, binary, number, two_names};
use std::alloc::{AllocError, Global};

/// The program's own first state has another name.
fn own_name(alloc: Global, x: &Name) -> Result<Name, AllocError>
    ensures { IfOk result (λ n. n ≡ own_name x.now) }
{
    if same_text(x.as_str(), "start") {
        Name::new(alloc, "hydra_start")
    } else {
        x.copy(alloc)
    }
}

fn masked_with(
    alloc: Global,
    roots: &Roots,
    at: u32,
    e: &Expr,
    mask: &Expr,
) -> Result<Keyset, AllocError>
    ensures { IfOk result (λ t. keyset_of t
        ≡ keyset_with (roots_in roots.now) (p4.masked at (expr_of e.now) (expr_of mask.now))) }
{
    let e = expr_with(alloc, roots, e)?;
    Ok(Keyset::Masked(at, e, expr_with(alloc, roots, mask)?))
}

fn keyset_with(alloc: Global, roots: &Roots, k: &Keyset) -> Result<Keyset, AllocError>
    ensures { IfOk result (λ t. keyset_of t ≡ keyset_with (roots_in roots.now) (keyset_of k.now)) }
{
    match k {
        Keyset::Any(at) => Ok(Keyset::Any(*at)),
        Keyset::One(at, e) => Ok(Keyset::One(*at, expr_with(alloc, roots, e)?)),
        Keyset::Masked(at, e, m) => masked_with(alloc, roots, *at, e, m),
    }
}

fn keysets_with(alloc: Global, roots: &Roots, list: &[Keyset]) -> Result<Vec<Keyset>, AllocError>
    ensures { IfOk result (λ v. map keyset_of v.items ≡ map (keyset_with (roots_in roots.now)) (map keyset_of list.now)) }
{
    let mut copies = Vec::with_capacity(alloc, list.len())?;
    for k in list {
        copies.push(keyset_with(alloc, roots, k)?)?;
    }
    Ok(copies)
}

fn own_case(
    alloc: Global,
    roots: &Roots,
    case: &(Vec<Keyset>, Name),
) -> Result<(Vec<Keyset>, Name), AllocError>
    ensures { IfOk result (λ c. case_of c ≡ renamed_case (case_with (roots_in roots.now) (case_of case.now))) }
{
    let keys = keysets_with(alloc, roots, &case.0)?;
    let next = own_name(alloc, &case.1)?;
    Ok((keys, next))
}

fn own_cases(
    alloc: Global,
    roots: &Roots,
    list: &[(Vec<Keyset>, Name)],
) -> Result<Vec<(Vec<Keyset>, Name)>, AllocError>
    ensures { IfOk result (λ v. map case_of v.items
        ≡ map renamed_case (map (case_with (roots_in roots.now)) (map case_of list.now))) }
{
    let mut copies = Vec::with_capacity(alloc, list.len())?;
    for case in list {
        copies.push(own_case(alloc, roots, case)?)?;
    }
    Ok(copies)
}

fn own_select(
    alloc: Global,
    roots: &Roots,
    at: u32,
    list: &[Expr],
    cases: &[(Vec<Keyset>, Name)],
) -> Result<Transition, AllocError>
    ensures { IfOk result (λ t. transition_of t ≡ renamed_transition
        (transition_with (roots_in roots.now) (p4.select at (map expr_of list.now) (map case_of cases.now)))) }
{
    let list = exprs_with(alloc, roots, list)?;
    Ok(Transition::Select(at, list, own_cases(alloc, roots, cases)?))
}

fn own_transition(alloc: Global, roots: &Roots, next: &Transition) -> Result<Transition, AllocError>
    ensures { IfOk result (λ t. transition_of t
        ≡ renamed_transition (transition_with (roots_in roots.now) (transition_of next.now))) }
{
    match next {
        Transition::None(at) => Ok(Transition::None(*at)),
        Transition::To(at, name) => Ok(Transition::To(*at, own_name(alloc, name)?)),
        Transition::Select(at, list, cases) => own_select(alloc, roots, *at, list, cases),
    }
}

/// A statement of a state. What an extract names stays.
fn parse_with(alloc: Global, roots: &Roots, s: &Stmt) -> Result<Stmt, AllocError>
    ensures { IfOk result (λ t. stmt_of t ≡ parse_with (roots_in roots.now) (stmt_of s.now)) }
{
    match s {
        Stmt::Assign(at, path, e) => assign_with(alloc, roots, *at, path, e),
        Stmt::Nothing(_) => s.copy(alloc),
        Stmt::Block(_, _) => s.copy(alloc),
        Stmt::Var(_, _, _, _) => s.copy(alloc),
        Stmt::If(_, _, _, _) => s.copy(alloc),
        Stmt::Return(_) => s.copy(alloc),
        Stmt::Exit(_) => s.copy(alloc),
        Stmt::Call(_, _, _) => s.copy(alloc),
    }
}

fn body_with(alloc: Global, roots: &Roots, list: &[Stmt]) -> Result<Vec<Stmt>, AllocError>
    ensures { IfOk result (λ v. map stmt_of v.items ≡ map (parse_with (roots_in roots.now)) (map stmt_of list.now)) }
{
    let mut copies = Vec::with_capacity(alloc, list.len())?;
    for s in list {
        copies.push(parse_with(alloc, roots, s)?)?;
    }
    Ok(copies)
}

/// A state of the program's own.
fn own_state(alloc: Global, roots: &Roots, s: &ParserState) -> Result<ParserState, AllocError>
    ensures { IfOk result (λ t. state_of t ≡ own_state (roots_in roots.now) (state_of s.now)) }
{
    Ok(ParserState {
        at: s.at,
        name: own_name(alloc, &s.name)?,
        body: body_with(alloc, roots, &s.body)?,
        next: own_transition(alloc, roots, &s.next)?,
    })
}

/// What the packet's length holds, with its telemetry.
fn whole_length(alloc: Global, roots: &Roots) -> Result<Expr, AllocError>
    ensures { IfOk result (λ e. expr_of e ≡ p4.path 0 (standard_at (roots_in roots.now) (codes "packet_length"))) }
{
    Ok(at_path(two_names(alloc, roots.standard.as_str(), "packet_length")?))
}

/// The port by which the frame came says what follows.
fn by_port(alloc: Global, roots: &Roots, linked_ports: &[u16]) -> Result<Transition, AllocError>
    ensures { IfOk result (λ t. transition_of t
        ≡ p4.select 0 (p4.path 0 (standard_at (roots_in roots.now) (codes "ingress_port")) ∷ []) (link_cases linked_ports.now)) }
{
    let mut keys = Vec::new(alloc);
    keys.push(at_path(two_names(alloc, roots.standard.as_str(), "ingress_port")?))?;
    let cases = link_cases(alloc, linked_ports)?;
    Ok(Transition::Select(0, keys, cases))
}

/// A state of a name, at place 0.
fn new_state(
    alloc: Global,
    name: &str,
    body: Vec<Stmt>,
    next: Transition,
) -> Result<ParserState, AllocError>
    ensures { IfOk result (λ s. state_of s ≡ record {
      at = 0;
      name = name.now;
      body = map stmt_of body.items;
      next = transition_of next;
    }) }
{
    Ok(ParserState {
        at: 0,
        name: Name::new(alloc, name)?,
        body,
        next,
    })
}

/// The length is kept as it came.
fn first_body(alloc: Global, roots: &Roots) -> Result<Vec<Stmt>, AllocError>
    ensures { IfOk result (λ v. map stmt_of v.items ≡ (first_state (roots_in roots.now) []).body) }
{
    let path = length_at(alloc, roots)?;
    let mut body = Vec::new(alloc);
    body.push(assign(path, whole_length(alloc, roots)?))?;
    Ok(body)
}

/// How the frame arrived.
fn first_state(
    alloc: Global,
    roots: &Roots,
    linked_ports: &[u16],
) -> Result<ParserState, AllocError>
    ensures { IfOk result (λ s. state_of s ≡ first_state (roots_in roots.now) linked_ports.now) }
{
    let body = first_body(alloc, roots)?;
    new_state(alloc, "start", body, by_port(alloc, roots, linked_ports)?)
}

/// What the packet's length holds, less so many bytes.
fn less_length(alloc: Global, roots: &Roots, size: u16) -> Result<Expr, AllocError>
    ensures { IfOk result (λ e. expr_of e ≡ p4.binary 0 op.Sub
        (p4.path 0 (standard_at (roots_in roots.now) (codes "packet_length"))) (monitor.number 0 size)) }
{
    let whole = whole_length(alloc, roots)?;
    binary(alloc, Op::Sub, whole, number(0, u128::from(size)))
}

/// The telemetry, of so many bytes, is taken off the frame, and the length is less by them.
fn taken_body(
    alloc: Global,
    packet: &str,
    roots: &Roots,
    size: u16,
) -> Result<Vec<Stmt>, AllocError>
    ensures { IfOk result (λ v. map stmt_of v.items ≡ (taken_state packet.now (roots_in roots.now) size).body) }
{
    let mut body = Vec::new(alloc);
    body.push(on_packet(alloc, packet, "extract", roots.headers.as_str())?)?;
    let path = length_at(alloc, roots)?;
    body.push(assign(path, less_length(alloc, roots, size)?))?;
    Ok(body)
}

/// The state that takes the telemetry.
fn taken_state(
    alloc: Global,
    packet: &str,
    roots: &Roots,
    size: u16,
) -> Result<ParserState, AllocError>
    ensures { IfOk result (λ s. state_of s ≡ taken_state packet.now (roots_in roots.now) size) }
{
    let next = Transition::To(0, Name::new(alloc, "hydra_start")?);
    new_state(
        alloc,
        "hydra_taken",
        taken_body(alloc, packet, roots, size)?,
        next,
    )
}

/// The name of the first parameter.
fn first_name(params: &[Param]) -> &str
    ensures { result.now ≡ param_name (param_at params.now 0) }
{
    match params.first() {
        None => "",
        Some(p) => p.name.as_str(),
    }
}

/// The program's own states go behind those that are there.
fn add_states(
    alloc: Global,
    roots: &Roots,
    list: &[ParserState],
    all: &mut Vec<ParserState>,
) -> Result<(), AllocError>
    ensures { IfOk result (λ _. map state_of all.new.items
        ≡ map state_of all.old.items ++ map (own_state (roots_in roots.now)) (map state_of list.now)) }
{
    for s in list {
        all.push(own_state(alloc, roots, s)?)?;
    }
    Ok(())
}

/// How the frame arrived, and the telemetry where it stands.
fn new_states(
    alloc: Global,
    packet: &str,
    roots: &Roots,
    size: u16,
    linked_ports: &[u16],
) -> Result<Vec<ParserState>, AllocError>
    ensures { IfOk result (λ v. map state_of v.items ≡ first_state (roots_in roots.now) linked_ports.now
        ∷ taken_state packet.now (roots_in roots.now) size ∷ []) }
{
    let mut states = Vec::new(alloc);
    states.push(first_state(alloc, roots, linked_ports)?)?;
    states.push(taken_state(alloc, packet, roots, size)?)?;
    Ok(states)
}

/// How the frame arrived, the telemetry where it stands, and the program's own states.
fn linked_states(
    alloc: Global,
    size: u16,
    linked_ports: &[u16],
    d: &Parser,
) -> Result<Vec<ParserState>, AllocError>
    ensures { IfOk result (λ v. map state_of v.items ≡ (linked_parser size linked_ports.now (parser_of d.now)).states) }
{
    let roots = parser_roots(alloc, d)?;
    let packet = first_name(&d.params);
    let mut states = new_states(alloc, packet, &roots, size, linked_ports)?;
    add_states(alloc, &roots, &d.states, &mut states)?;
    Ok(states)
}

/// The parser of a linked program.
pub(crate) fn linked_parser(
    alloc: Global,
    size: u16,
    linked_ports: &[u16],
    d: &Parser,
) -> Result<Parser, AllocError>
    ensures { IfOk result (λ p. parser_of p ≡ linked_parser size linked_ports.now (parser_of d.now)) }
{
    let name = d.name.copy(alloc)?;
    let params = copy_params(alloc, &d.params)?;
    Ok(Parser {
        at: d.at,
        name,
        params,
        states: linked_states(alloc, size, linked_ports, d)?,
    })
}
