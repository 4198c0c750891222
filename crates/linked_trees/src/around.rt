//! The statements that stand around a monitor's parts, by the names of a control's parameters. All
//! places are 0.

ghost use Rattle.std.specs.Prelude.{◌≡◌, ◌∷◌, [], IfOk, None, codes, map};
ghost use Rattle.p4_tree.specs.Tree as p4;
ghost use Rattle.p4_tree.specs.View.{arg_of, expr_of, stmt_of, stmts_of};
ghost use Rattle.p4_tree.specs.declared.statement.Op.TheVariants as op;
ghost use Rattle.p4_tree.specs.declared.statement.PTy.TheVariants as type;
ghost use Rattle.p4_resolved.specs.Scopes.{roots_in};
ghost use Rattle.monitor_laws.specs.Names.{first_name, last_name, mark_name};
ghost use Rattle.monitor_laws.specs.Trees as monitor;
ghost use Rattle.monitor_laws.specs.Trees.{only_if};
ghost use Rattle.linked_halves.specs.Statements as halves;
ghost use Rattle.linked_programs.specs.Linked.{drop_packet, end_stmts, entry_stmt, exit_stmt, header_at, last_test, on_header, reject_stmts, standard_at};

use lex_text::Name;
use p4_resolved::Roots;
use p4_tree::{Arg, Expr, Op, PTy, Stmt};
use port_tests::none_of;
use small_trees::{
    assign, at_path, binary, both, call, number, one_arg, one_name, single, three_names, two_args,
    two_names, when,
};
use std::alloc::{AllocError, Global};

/// A call without arguments on the telemetry header.
fn on_header(alloc: Global, roots: &Roots, verb: &str) -> Result<Stmt, AllocError>
    ensures { IfOk result (λ s. stmt_of s ≡ on_header (roots_in roots.now) verb.now) }
{
    let path = three_names(alloc, roots.headers.as_str(), "hydra_tele", verb)?;
    Ok(call(path, Vec::new(alloc)))
}

/// A call on the packet, of which the telemetry header is the argument.
pub(crate) fn on_packet(
    alloc: Global,
    packet: &str,
    verb: &str,
    headers: &str,
) -> Result<Stmt, AllocError>
    ensures { IfOk result (λ s. stmt_of s ≡ p4.call 0 (packet.now ∷ verb.now ∷ [])
        (p4.one 0 (p4.path 0 (headers.now ∷ codes "hydra_tele" ∷ [])) ∷ [])) }
{
    let path = two_names(alloc, packet, verb)?;
    let header = at_path(two_names(alloc, headers, "hydra_tele")?);
    Ok(call(path, one_arg(alloc, header)?))
}

/// Whether a port of the standard metadata has no link.
fn at_edge(
    alloc: Global,
    roots: &Roots,
    field: &str,
    linked_ports: &[u16],
) -> Result<Expr, AllocError>
    ensures { IfOk result (λ e. expr_of e
        ≡ halves.none_of (standard_at (roots_in roots.now) field.now) linked_ports.now) }
{
    none_of(alloc, roots.standard.as_str(), field, linked_ports)
}

/// The telemetry's first byte is set.
fn marked(alloc: Global, roots: &Roots, mark: u8) -> Result<Stmt, AllocError>
    ensures { IfOk result (λ s. stmt_of s
        ≡ p4.assign 0 ((roots_in roots.now).headers ∷ codes "hydra_tele" ∷ mark_name ∷ [])
        (monitor.number 8 mark)) }
{
    let path = three_names(alloc, roots.headers.as_str(), "hydra_tele", "hydra_mark")?;
    Ok(assign(path, number(8, u128::from(mark))))
}

/// The header is made and marked.
fn header_made(alloc: Global, roots: &Roots, mark: u8) -> Result<Vec<Stmt>, AllocError>
    ensures { IfOk result (λ v. stmts_of v.items
        ≡ p4.next (on_header (roots_in roots.now) (codes "setValid"))
        (p4.next (p4.assign 0 ((roots_in roots.now).headers ∷ codes "hydra_tele" ∷ mark_name ∷ [])
        (monitor.number 8 mark)) p4.done)) }
{
    let made = single(alloc, on_header(alloc, roots, "setValid")?)?;
    both(made, single(alloc, marked(alloc, roots, mark)?)?)
}

/// What is done where the port of arrival has no link.
fn at_first(
    alloc: Global,
    roots: &Roots,
    linked_ports: &[u16],
    body: Vec<Stmt>,
) -> Result<Stmt, AllocError>
    ensures { IfOk result (λ s. stmt_of s
        ≡ only_if (halves.none_of (standard_at (roots_in roots.now) (codes "ingress_port")) linked_ports.now)
        (stmts_of body.items)) }
{
    let test = at_edge(alloc, roots, "ingress_port", linked_ports)?;
    when(alloc, test, body)
}

/// At the first hop the header is made and marked, and the entry part follows.
pub(crate) fn entry_stmt(
    alloc: Global,
    roots: &Roots,
    linked_ports: &[u16],
    mark: u8,
    entry: Vec<Stmt>,
) -> Result<Stmt, AllocError>
    ensures { IfOk result (λ s. stmt_of s
        ≡ entry_stmt (roots_in roots.now) linked_ports.now mark (stmts_of entry.items)) }
{
    let made = header_made(alloc, roots, mark)?;
    at_first(alloc, roots, linked_ports, both(made, entry)?)
}

/// What the count of rejected packets holds.
fn count(alloc: Global) -> Result<Expr, AllocError>
    ensures { IfOk result (λ e. expr_of e ≡ p4.path 0 (codes "hydra_count" ∷ [])) }
{
    Ok(at_path(one_name(alloc, "hydra_count")?))
}

/// A call on the register of rejected packets.
fn on_rejects(alloc: Global, verb: &str, args: Vec<Arg>) -> Result<Stmt, AllocError>
    ensures { IfOk result (λ s. stmt_of s
        ≡ p4.call 0 (codes "hydra_rejects" ∷ verb.now ∷ []) (map arg_of args.items)) }
{
    Ok(call(two_names(alloc, "hydra_rejects", verb)?, args))
}

fn read_count(alloc: Global) -> Result<Stmt, AllocError>
    ensures { IfOk result (λ s. stmt_of s ≡ halves.read_count) }
{
    let count = count(alloc)?;
    on_rejects(alloc, "read", two_args(alloc, count, number(0, 0))?)
}

fn write_count(alloc: Global) -> Result<Stmt, AllocError>
    ensures { IfOk result (λ s. stmt_of s ≡ halves.write_count) }
{
    let count = count(alloc)?;
    let more = binary(alloc, Op::Add, count, number(0, 1))?;
    on_rejects(alloc, "write", two_args(alloc, number(0, 0), more)?)
}

/// The register's one cell is read, and is written with one more.
fn count_one_more(alloc: Global) -> Result<Vec<Stmt>, AllocError>
    ensures { IfOk result (λ v. stmts_of v.items
        ≡ p4.next halves.read_count (p4.next halves.write_count p4.done)) }
{
    let read = single(alloc, read_count(alloc)?)?;
    both(read, single(alloc, write_count(alloc)?)?)
}

fn drop_packet(alloc: Global, roots: &Roots) -> Result<Stmt, AllocError>
    ensures { IfOk result (λ s. stmt_of s ≡ drop_packet (roots_in roots.now)) }
{
    let path = one_name(alloc, "mark_to_drop")?;
    let packet = at_path(one_name(alloc, roots.standard.as_str())?);
    Ok(call(path, one_arg(alloc, packet)?))
}

/// The variable of the count.
fn count_var(alloc: Global) -> Result<Vec<Stmt>, AllocError>
    ensures { IfOk result (λ v. stmts_of v.items
        ≡ p4.next (p4.var 0 (type.Bit 32) (codes "hydra_count") None) p4.done) }
{
    let name = Name::new(alloc, "hydra_count")?;
    single(alloc, Stmt::Var(0, PTy::Bit(32), name, None))
}

/// A rejected packet is counted and dropped.
fn reject_stmts(alloc: Global, roots: &Roots) -> Result<Vec<Stmt>, AllocError>
    ensures { IfOk result (λ v. stmts_of v.items ≡ reject_stmts (roots_in roots.now)) }
{
    let front = both(count_var(alloc)?, count_one_more(alloc)?)?;
    both(front, single(alloc, drop_packet(alloc, roots)?)?)
}

/// What is done where a flag is set.
fn flagged(alloc: Global, flag: &str, body: Vec<Stmt>) -> Result<Stmt, AllocError>
    ensures { IfOk result (λ s. stmt_of s
        ≡ only_if (p4.path 0 (flag.now ∷ [])) (stmts_of body.items)) }
{
    let flag = at_path(one_name(alloc, flag)?);
    when(alloc, flag, body)
}

/// The header goes, and a rejected packet too.
fn end_stmts(alloc: Global, roots: &Roots) -> Result<Vec<Stmt>, AllocError>
    ensures { IfOk result (λ v. stmts_of v.items ≡ end_stmts (roots_in roots.now)) }
{
    let gone = single(alloc, on_header(alloc, roots, "setInvalid")?)?;
    let rejects = reject_stmts(alloc, roots)?;
    both(
        gone,
        single(alloc, flagged(alloc, "hydra_rejected", rejects)?)?,
    )
}

/// At the last hop the header goes, and a rejected packet too.
fn last_test(alloc: Global, roots: &Roots) -> Result<Vec<Stmt>, AllocError>
    ensures { IfOk result (λ v. stmts_of v.items ≡ last_test (roots_in roots.now)) }
{
    single(
        alloc,
        flagged(alloc, "hydra_last", end_stmts(alloc, roots)?)?,
    )
}

/// A flag says whether a port has no link.
fn flag_set(
    alloc: Global,
    roots: &Roots,
    flag: &str,
    field: &str,
    linked_ports: &[u16],
) -> Result<Stmt, AllocError>
    ensures { IfOk result (λ s. stmt_of s ≡ p4.assign 0 (flag.now ∷ [])
        (halves.none_of (standard_at (roots_in roots.now) field.now) linked_ports.now)) }
{
    let path = one_name(alloc, flag)?;
    Ok(assign(path, at_edge(alloc, roots, field, linked_ports)?))
}

/// The flags of the first and the last hop are set.
fn flags(alloc: Global, roots: &Roots, linked_ports: &[u16]) -> Result<Vec<Stmt>, AllocError>
    ensures { IfOk result (λ v. stmts_of v.items
        ≡ p4.next (p4.assign 0 (first_name ∷ []) (halves.none_of (standard_at (roots_in roots.now) (codes "ingress_port")) linked_ports.now))
        (p4.next (p4.assign 0 (last_name ∷ []) (halves.none_of (standard_at (roots_in roots.now) (codes "egress_port")) linked_ports.now)) p4.done)) }
{
    let first = flag_set(alloc, roots, "hydra_first", "ingress_port", linked_ports)?;
    let first = single(alloc, first)?;
    let last = flag_set(alloc, roots, "hydra_last", "egress_port", linked_ports)?;
    both(first, single(alloc, last)?)
}

/// What is done where forwarding does not drop the packet.
fn where_forwarded(alloc: Global, roots: &Roots, body: Vec<Stmt>) -> Result<Stmt, AllocError>
    ensures { IfOk result (λ s. stmt_of s
        ≡ only_if (p4.binary 0 op.Differ (p4.path 0 (standard_at (roots_in roots.now) (codes "egress_spec"))) (monitor.number 0 511))
        (stmts_of body.items)) }
{
    let port = at_path(two_names(alloc, roots.standard.as_str(), "egress_spec")?);
    let test = binary(alloc, Op::Differ, port, number(0, 511))?;
    when(alloc, test, body)
}

/// Where forwarding does not drop the packet: the flags are set, the exit part follows, and at the
/// last hop the header goes.
pub(crate) fn exit_stmt(
    alloc: Global,
    roots: &Roots,
    linked_ports: &[u16],
    exit: Vec<Stmt>,
) -> Result<Stmt, AllocError>
    ensures { IfOk result (λ s. stmt_of s
        ≡ exit_stmt (roots_in roots.now) linked_ports.now (stmts_of exit.items)) }
{
    let back = both(exit, last_test(alloc, roots)?)?;
    let body = both(flags(alloc, roots, linked_ports)?, back)?;
    where_forwarded(alloc, roots, body)
}
