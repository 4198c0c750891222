//! Which call a statement is.

ghost use Rattle.std.specs.Prelude.{◌≡◌, IfOk, map};
ghost use Rattle.p4_tree.specs.View.{arg_of};
ghost use Rattle.p4_meaning.specs.Statements.{act_of, act_named, act_on, act_on_header, applies, digest_of, done_by, drops, read_of, sum_of, write_of};
ghost use Rattle.p4_statements.specs.Runs.{ended, flow_of, run_of};

use crate::acts::{call_on_header, drop_packet, read_register, tell, write_register};
use crate::calls::Calls;
use crate::run::{Flow, Run};
use crate::sums::sum;
use lex_text::Name;
use p4_tree::Arg;
use p4_values::{parent, same_text};
use std::alloc::{AllocError, Global};

/// mark_to_drop, as a statement.
fn on_drop<C: Calls>(alloc: Global, calls: &C, r: &mut Run) -> Result<Flow, AllocError>
    ensures { IfOk result (λ flow. ended (run_of r.new) (flow_of flow) ≡ done_by (C.means calls.now) (drops) (run_of r.old)) }
{
    drop_packet(alloc, r)?;
    Ok(Flow::Go)
}

/// A digest, as a statement.
fn on_digest<C: Calls>(calls: &C, args: &[Arg], r: &mut Run) -> Result<Flow, AllocError>
    ensures { IfOk result (λ flow. ended (run_of r.new) (flow_of flow) ≡ done_by (C.means calls.now) (digest_of (map arg_of args.now)) (run_of r.old)) }
{
    tell(args, r)?;
    Ok(Flow::Go)
}

/// A checksum call, as a statement.
fn on_sum<C: Calls>(
    alloc: Global,
    calls: &C,
    verifies: bool,
    args: &[Arg],
    r: &mut Run,
) -> Result<Flow, AllocError>
    ensures { IfOk result (λ flow. ended (run_of r.new) (flow_of flow) ≡ done_by (C.means calls.now) (sum_of verifies (map arg_of args.now)) (run_of r.old)) }
{
    sum(alloc, verifies, args, r)?;
    Ok(Flow::Go)
}

/// A register's read, as a statement.
fn on_read<C: Calls>(
    alloc: Global,
    calls: &C,
    name: &str,
    args: &[Arg],
    r: &mut Run,
) -> Result<Flow, AllocError>
    ensures { IfOk result (λ flow. ended (run_of r.new) (flow_of flow) ≡ done_by (C.means calls.now) (read_of name.now (map arg_of args.now)) (run_of r.old)) }
{
    read_register(alloc, name, args, r)?;
    Ok(Flow::Go)
}

/// A register's write, as a statement.
fn on_write<C: Calls>(calls: &C, name: &str, args: &[Arg], r: &mut Run) -> Result<Flow, AllocError>
    ensures { IfOk result (λ flow. ended (run_of r.new) (flow_of flow) ≡ done_by (C.means calls.now) (write_of name.now (map arg_of args.now)) (run_of r.old)) }
{
    write_register(name, args, r);
    Ok(Flow::Go)
}

/// A call on a header, as a statement.
fn on_header<C: Calls>(
    alloc: Global,
    calls: &C,
    header: &[Name],
    verb: &str,
    r: &mut Run,
) -> Result<Flow, AllocError>
    ensures { IfOk result (λ flow. ended (run_of r.new) (flow_of flow) ≡ done_by (C.means calls.now) (act_on_header header.now verb.now) (run_of r.old)) }
{
    call_on_header(alloc, header, verb, r)?;
    Ok(Flow::Go)
}

/// The application of a table, as a statement.
fn on_table<C: Calls>(alloc: Global, calls: &C, name: &str, r: &mut Run) -> Result<Flow, AllocError>
    ensures { IfOk result (λ flow. ended (run_of r.new) (flow_of flow) ≡ done_by (C.means calls.now) (applies name.now) (run_of r.old)) }
{
    let tested = calls.apply_table(alloc, name, r)?;
    Ok(tested.flow)
}

/// A call by one name.
fn call_named<C: Calls>(
    alloc: Global,
    calls: &C,
    name: &str,
    args: &[Arg],
    r: &mut Run,
) -> Result<Flow, AllocError>
    ensures { IfOk result (λ flow. ended (run_of r.new) (flow_of flow) ≡ done_by (C.means calls.now) (act_named name.now (map arg_of args.now)) (run_of r.old)) }
{
    if same_text(name, "mark_to_drop") {
        on_drop(alloc, calls, r)
    } else if same_text(name, "digest") {
        on_digest(calls, args, r)
    } else if same_text(name, "verify_checksum") {
        on_sum(alloc, calls, true, args, r)
    } else if same_text(name, "update_checksum") {
        on_sum(alloc, calls, false, args, r)
    } else {
        calls.run_action(alloc, name, args, r)
    }
}

/// A call on a register or a table.
fn call_on<C: Calls>(
    alloc: Global,
    calls: &C,
    name: &str,
    verb: &str,
    args: &[Arg],
    r: &mut Run,
) -> Result<Flow, AllocError>
    ensures { IfOk result (λ flow. ended (run_of r.new) (flow_of flow) ≡ done_by (C.means calls.now) (act_on name.now verb.now (map arg_of args.now)) (run_of r.old)) }
{
    if same_text(verb, "read") {
        on_read(alloc, calls, name, args, r)
    } else if same_text(verb, "write") {
        on_write(calls, name, args, r)
    } else if same_text(verb, "apply") {
        on_table(alloc, calls, name, r)
    } else {
        Ok(Flow::Go)
    }
}

/// What a call does, and how it ends.
pub fn call<C: Calls>(
    alloc: Global,
    calls: &C,
    callee: &[Name],
    args: &[Arg],
    r: &mut Run,
) -> Result<Flow, AllocError>
    ensures { IfOk result (λ flow. ended (run_of r.new) (flow_of flow) ≡ done_by (C.means calls.now) (act_of callee.now (map arg_of args.now)) (run_of r.old)) }
{
    match callee {
        [] => Ok(Flow::Go),
        [x, rest @ ..] => match rest {
            [] => call_named(alloc, calls, x.as_str(), args, r),
            [y, rest @ ..] => match rest {
                [] => call_on(alloc, calls, x.as_str(), y.as_str(), args, r),
                [verb, rest @ ..] => match rest {
                    [] => on_header(alloc, calls, parent(callee), verb.as_str(), r),
                    [_fourth, _others @ ..] => Ok(Flow::Go),
                },
            },
        },
    }
}
