//! The controls of a linked program.

ghost use Rattle.std.specs.Prelude.{◌≡◌, IfOk, map};
ghost use Rattle.p4_tree.specs.Tree as p4;
ghost use Rattle.p4_tree.specs.View.{control_of, local_of, stmt_of, stmts_of};
ghost use Rattle.p4_resolved.specs.Scopes.{roots_in};
ghost use Rattle.linked_programs.specs.Rewritten.{stmts_with};
ghost use Rattle.linked_programs.specs.Linked as linked;
ghost use Rattle.linked_programs.specs.Linked.{control_at, emit_call, entry_stmt, exit_stmt, place_in};
ghost use Rattle.linked_trees.specs.View.{lowered_of, place_of};

use crate::around::{entry_stmt, exit_stmt, on_packet};
use crate::declarations::Parts;
use crate::locals::locals_with;
use crate::roots::control_roots;
use crate::statements::stmts_with;
use lex_text::Name;
use p4_resolved::{Roots, named_in};
use p4_tree::{Control, Local, Stmt, copy_params};
use p4_values::same_text;
use small_trees::{both, single};
use std::alloc::{AllocError, Global};

/// Where a control stands in `main`.
#[derive(Clone, Copy, Debug)]
pub(crate) enum Place {
    Ingress,
    Egress,
    Deparser,
    Other,
}

pub(crate) fn place_in(main: &[Name], x: &Name) -> Place
    ensures { place_of result ≡ place_in main.now x.now }
{
    if same_text(named_in(main, 2), x.as_str()) {
        Place::Ingress
    } else if same_text(named_in(main, 3), x.as_str()) {
        Place::Egress
    } else if same_text(named_in(main, 5), x.as_str()) {
        Place::Deparser
    } else {
        Place::Other
    }
}

/// Copies of statements.
fn copy_stmts(alloc: Global, list: &[Stmt]) -> Result<Vec<Stmt>, AllocError>
    ensures { IfOk result (λ v. stmts_of v.items ≡ stmts_of list.now) }
{
    let mut copies = Vec::with_capacity(alloc, list.len())?;
    for s in list {
        copies.push(s.copy(alloc)?)?;
    }
    Ok(copies)
}

/// The telemetry header is written.
fn emit_stmts(alloc: Global, c: &Control) -> Result<Vec<Stmt>, AllocError>
    ensures { IfOk result (λ v. stmts_of v.items ≡ p4.next (emit_call (control_of c.now)) p4.done) }
{
    let roots = control_roots(alloc, c)?;
    let packet = roots.headers.as_str();
    single(
        alloc,
        on_packet(alloc, packet, "emit", roots.metadata.as_str())?,
    )
}

/// The telemetry header is written first.
fn deparser_apply(alloc: Global, c: &Control) -> Result<Vec<Stmt>, AllocError>
    ensures { IfOk result (λ v. stmts_of v.items
        ≡ p4.next (emit_call (control_of c.now)) (stmts_of c.now.apply.items)) }
{
    let first = emit_stmts(alloc, c)?;
    both(first, copy_stmts(alloc, &c.apply)?)
}

/// Some statements and then others, with reads of the packet's length rewritten.
#[tactic(auto, using(crate::proofs::BlockLists::with_both))]
fn both_with(
    alloc: Global,
    roots: &Roots,
    front: &[Stmt],
    back: &[Stmt],
) -> Result<Vec<Stmt>, AllocError>
    ensures { IfOk result (λ v. stmts_of v.items
        ≡ stmts_with (roots_in roots.now) (p4.and_then (stmts_of front.now) (stmts_of back.now))) }
{
    let front = stmts_with(alloc, roots, front)?;
    both(front, stmts_with(alloc, roots, back)?)
}

/// A control with other declarations and statements.
fn control_with(
    alloc: Global,
    c: &Control,
    locals: Vec<Local>,
    apply: Vec<Stmt>,
) -> Result<Control, AllocError>
    ensures { IfOk result (λ k. control_of k ≡ record {
      at = c.now.at;
      name = c.now.name;
      params = c.now.params.items;
      locals = map local_of locals.items;
      apply = stmts_of apply.items;
    }) }
{
    Ok(Control {
        at: c.at,
        name: c.name.copy(alloc)?,
        params: copy_params(alloc, &c.params)?,
        locals,
        apply,
    })
}

/// What stands before ingress.
fn entry_stmts(
    alloc: Global,
    parts: &Parts,
    roots: &Roots,
    linked_ports: &[u16],
) -> Result<Vec<Stmt>, AllocError>
    ensures { IfOk result (λ v. stmts_of v.items ≡ p4.next (entry_stmt (roots_in roots.now)
        linked_ports.now parts.now.mark (stmts_of parts.now.entry.items)) p4.done) }
{
    let entry = copy_stmts(alloc, &parts.entry)?;
    single(
        alloc,
        entry_stmt(alloc, roots, linked_ports, parts.mark, entry)?,
    )
}

/// What stands behind egress.
fn exit_stmts(
    alloc: Global,
    parts: &Parts,
    roots: &Roots,
    linked_ports: &[u16],
) -> Result<Vec<Stmt>, AllocError>
    ensures { IfOk result (λ v. stmts_of v.items ≡ p4.next (exit_stmt (roots_in roots.now)
        linked_ports.now (stmts_of parts.now.exit.items)) p4.done) }
{
    let exit = copy_stmts(alloc, &parts.exit)?;
    single(alloc, exit_stmt(alloc, roots, linked_ports, exit)?)
}

/// A control with other statements.
fn with_apply(alloc: Global, c: &Control, apply: Vec<Stmt>) -> Result<Control, AllocError>
    ensures { IfOk result (λ k. control_of k
        ≡ record (control_of c.now) { apply = stmts_of apply.items }) }
{
    let mut copy = c.copy(alloc)?;
    copy.apply = apply;
    Ok(copy)
}

/// Init stands before ingress.
fn linked_ingress(
    alloc: Global,
    parts: &Parts,
    linked_ports: &[u16],
    c: &Control,
) -> Result<Control, AllocError>
    ensures { IfOk result (λ k. control_of k
        ≡ control_at (lowered_of parts.now) linked_ports.now linked.is_ingress (control_of c.now)) }
{
    let roots = control_roots(alloc, c)?;
    let first = entry_stmts(alloc, parts, &roots, linked_ports)?;
    let apply = both_with(alloc, &roots, &first, &c.apply)?;
    let locals = locals_with(alloc, &roots, &parts.entry_locals, &c.locals)?;
    control_with(alloc, c, locals, apply)
}

/// Telemetry and checker stand behind egress.
fn linked_egress(
    alloc: Global,
    parts: &Parts,
    linked_ports: &[u16],
    c: &Control,
) -> Result<Control, AllocError>
    ensures { IfOk result (λ k. control_of k
        ≡ control_at (lowered_of parts.now) linked_ports.now linked.is_egress (control_of c.now)) }
{
    let roots = control_roots(alloc, c)?;
    let last = exit_stmts(alloc, parts, &roots, linked_ports)?;
    let apply = both_with(alloc, &roots, &c.apply, &last)?;
    let locals = locals_with(alloc, &roots, &parts.exit_locals, &c.locals)?;
    control_with(alloc, c, locals, apply)
}

fn linked_deparser(
    alloc: Global,
    parts: &Parts,
    linked_ports: &[u16],
    c: &Control,
) -> Result<Control, AllocError>
    ensures { IfOk result (λ k. control_of k
        ≡ control_at (lowered_of parts.now) linked_ports.now linked.is_deparser (control_of c.now)) }
{
    with_apply(alloc, c, deparser_apply(alloc, c)?)
}

fn linked_other(
    alloc: Global,
    parts: &Parts,
    linked_ports: &[u16],
    c: &Control,
) -> Result<Control, AllocError>
    ensures { IfOk result (λ k. control_of k
        ≡ control_at (lowered_of parts.now) linked_ports.now linked.is_other (control_of c.now)) }
{
    let roots = control_roots(alloc, c)?;
    with_apply(alloc, c, stmts_with(alloc, &roots, &c.apply)?)
}

/// A control of a linked program.
pub(crate) fn control_at(
    alloc: Global,
    parts: &Parts,
    linked_ports: &[u16],
    place: Place,
    c: &Control,
) -> Result<Control, AllocError>
    ensures { IfOk result (λ k. control_of k
        ≡ control_at (lowered_of parts.now) linked_ports.now (place_of place) (control_of c.now)) }
{
    match place {
        Place::Ingress => linked_ingress(alloc, parts, linked_ports, c),
        Place::Egress => linked_egress(alloc, parts, linked_ports, c),
        Place::Deparser => linked_deparser(alloc, parts, linked_ports, c),
        Place::Other => linked_other(alloc, parts, linked_ports, c),
    }
}
