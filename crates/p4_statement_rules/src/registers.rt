//! What is tested of reads and writes of registers.

ghost use Rattle.std.specs.Prelude.{◌≡◌, IfOk, map};
ghost use Rattle.p4_tree.specs.View.{arg_of, expr_of};
ghost use Rattle.p4_scopes.specs.View.{scope_of};
ghost use Rattle.p4_statement_rules.specs.Ranks.{first_from};
ghost use Rattle.p4_statement_rules.specs.Forms.{path_in};
ghost use Rattle.p4_statement_rules.specs.Calls.{cell_target, target_arg, index_arg, cell_read, cell_write};

use crate::calls::{check_arg, check_target, misfit};
use crate::expressions::{check_fit, check_index};
use crate::forms::path_in;
use crate::found::Found;
use p4_scopes::kind::Kind;
use p4_scopes::scope::Scope;
use p4_tree::{Arg, Expr};
use std::alloc::AllocError;

/// The target of a read, where `kind` is read.
fn check_cell_target(found: &mut Found, at: u32, scope: &Scope, kind: Kind, e: &Expr)
    ensures { found.new.first
        ≡ first_from found.old.first
        (cell_target at (scope_of scope.now) kind (path_in (expr_of e.now))) }
{
    match path_in(e) {
        None => misfit(found, at),
        Some((place, names)) => {
            let stands = scope.find(names);
            check_target(found, place, &stands);
            check_fit(found, place, stands.value_kind(), kind);
        }
    }
}

fn check_target_arg(found: &mut Found, scope: &Scope, kind: Kind, arg: &Arg)
    ensures { found.new.first
        ≡ first_from found.old.first (target_arg (scope_of scope.now) kind (arg_of arg.now)) }
{
    match arg {
        Arg::One(at, e) => check_cell_target(found, *at, scope, kind, e),
        Arg::Many(at, _) => misfit(found, *at),
    }
}

fn check_index_arg(found: &mut Found, scope: &Scope, arg: &Arg) -> Result<(), AllocError>
    ensures { IfOk result (λ _. found.new.first
        ≡ first_from found.old.first (index_arg (scope_of scope.now) (arg_of arg.now))) }
{
    match arg {
        Arg::One(_, e) => check_index(found, scope, e),
        Arg::Many(at, _) => {
            misfit(found, *at);
            Ok(())
        }
    }
}

/// Adds the tests of the arguments of a read of a register whose cells are of a kind.
pub(crate) fn check_cell_read(
    found: &mut Found,
    at: u32,
    scope: &Scope,
    kind: Kind,
    args: &[Arg],
) -> Result<(), AllocError>
    ensures { IfOk result (λ _. found.new.first
        ≡ first_from found.old.first
        (cell_read at (scope_of scope.now) kind (map arg_of args.now))) }
{
    match args {
        [target, index] => {
            check_target_arg(found, scope, kind, target);
            check_index_arg(found, scope, index)
        }
        [] | [_] | [_, _, _, ..] => {
            misfit(found, at);
            Ok(())
        }
    }
}

/// The same of a write.
pub(crate) fn check_cell_write(
    found: &mut Found,
    at: u32,
    scope: &Scope,
    kind: Kind,
    args: &[Arg],
) -> Result<(), AllocError>
    ensures { IfOk result (λ _. found.new.first
        ≡ first_from found.old.first
        (cell_write at (scope_of scope.now) kind (map arg_of args.now))) }
{
    match args {
        [index, value] => {
            check_index_arg(found, scope, index)?;
            check_arg(found, scope, kind, value)
        }
        [] | [_] | [_, _, _, ..] => {
            misfit(found, at);
            Ok(())
        }
    }
}
