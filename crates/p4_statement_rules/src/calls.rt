//! What is tested of calls.

ghost use Rattle.std.specs.Prelude.{◌≡◌, IfOk, map};
ghost use Rattle.p4_tree.specs.View.{arg_of, expr_of};
ghost use Rattle.p4_scopes.specs.View.{scope_of, stands_of};
ghost use Rattle.p4_statement_rules.specs.Ranks.{first_from};
ghost use Rattle.p4_statement_rules.specs.Forms.{path_in};
ghost use Rattle.p4_statement_rules.specs.Calls.{misfit, arg_tests, args_tests, target_tests, path_tests, path_arg, single_tests, none_tests, action_args, form_tests};
ghost use Rattle.p4_statement_rules.specs.View.{form_view, fits_of};

use crate::digests::check_digest;
use crate::expressions::check_expr;
use crate::forms::{Form, path_in};
use crate::found::Found;
use crate::registers::{check_cell_read, check_cell_write};
use crate::rule::ProgramRule;
use crate::sums::check_sum;
use lex_text::Name;
use p4_scopes::kind::Kind;
use p4_scopes::scope::Scope;
use p4_scopes::stands::Stands;
use p4_tree::{Arg, Expr};
use std::alloc::AllocError;

/// An argument or a list in braces where the other is wanted, or arguments that are too few or too
/// many.
pub(crate) fn misfit(found: &mut Found, at: u32)
    ensures { found.new.first ≡ first_from found.old.first (misfit at) }
{
    found.test(at, ProgramRule::KindDiffers, true);
}

/// Adds the tests of an argument of which `want` is wanted.
pub(crate) fn check_arg(
    found: &mut Found,
    scope: &Scope,
    want: Kind,
    arg: &Arg,
) -> Result<(), AllocError>
    ensures { IfOk result (λ _. found.new.first
        ≡ first_from found.old.first (arg_tests (scope_of scope.now) want (arg_of arg.now))) }
{
    match arg {
        Arg::One(_, e) => check_expr(found, scope, want, e),
        Arg::Many(at, _) => {
            misfit(found, *at);
            Ok(())
        }
    }
}

/// Adds the tests of arguments of which these kinds are wanted.
fn check_args(
    found: &mut Found,
    scope: &Scope,
    kinds: &[Kind],
    args: &[Arg],
) -> Result<(), AllocError>
    ensures { IfOk result (λ _. found.new.first
        ≡ first_from found.old.first
        (args_tests (scope_of scope.now) kinds.now (map arg_of args.now))) }
{
    for (i, kind) in kinds.iter().enumerate() {
        match args.get(i) {
            Some(arg) => check_arg(found, scope, *kind, arg)?,
            None => return Ok(()),
        }
    }
    Ok(())
}

/// Adds the tests of a path that is written.
pub(crate) fn check_target(found: &mut Found, at: u32, stands: &Stands)
    ensures { found.new.first
        ≡ first_from found.old.first (target_tests at (stands_of stands.now)) }
{
    found.test(at, ProgramRule::NoSuchName, stands.is_missing());
    found.test(at, ProgramRule::KindDiffers, !stands.reads());
    found.test(at, ProgramRule::NotWritable, !stands.is_writable());
}

/// To what a path leads that is an argument.
#[derive(Clone, Copy, PartialEq, Eq)]
pub(crate) enum Wanted {
    Header,
    Standard,
    Algorithm,
}

impl Wanted {
    fn fits(self, stands: &Stands) -> bool
        ensures { result ≡ fits_of self (stands_of stands.now) }
    {
        match self {
            Wanted::Header => stands.holds_header(),
            Wanted::Standard => stands.holds_standard(),
            Wanted::Algorithm => stands.is_algorithm(),
        }
    }
}

fn check_path(found: &mut Found, at: u32, wanted: Wanted, scope: &Scope, e: &Expr)
    ensures { found.new.first
        ≡ first_from found.old.first
        (path_tests at (fits_of wanted) (scope_of scope.now) (path_in (expr_of e.now))) }
{
    match path_in(e) {
        None => misfit(found, at),
        Some((place, names)) => {
            let stands = scope.find(names);
            found.test(place, ProgramRule::NoSuchName, stands.is_missing());
            found.test(place, ProgramRule::KindDiffers, !wanted.fits(&stands));
        }
    }
}

/// Adds the tests of an argument that is a path.
pub(crate) fn check_path_arg(found: &mut Found, wanted: Wanted, scope: &Scope, arg: &Arg)
    ensures { found.new.first
        ≡ first_from found.old.first
        (path_arg (fits_of wanted) (scope_of scope.now) (arg_of arg.now)) }
{
    match arg {
        Arg::One(at, e) => check_path(found, *at, wanted, scope, e),
        Arg::Many(at, _) => misfit(found, *at),
    }
}

/// The one argument of a call.
fn check_single(found: &mut Found, at: u32, wanted: Wanted, scope: &Scope, args: &[Arg])
    ensures { found.new.first
        ≡ first_from found.old.first
        (single_tests at (fits_of wanted) (scope_of scope.now) (map arg_of args.now)) }
{
    match args {
        [arg] => check_path_arg(found, wanted, scope, arg),
        [] | [_, _, ..] => misfit(found, at),
    }
}

/// A call without arguments.
fn check_none(found: &mut Found, at: u32, args: &[Arg])
    ensures { found.new.first ≡ first_from found.old.first (none_tests at (map arg_of args.now)) }
{
    match args {
        [] => {}
        [_, ..] => misfit(found, at),
    }
}

/// A call of an action that takes these kinds.
#[tactic(auto, using(crate::proofs::Counts::many_by_lengths, crate::proofs::Counts::args_counted))]
fn check_action(
    found: &mut Found,
    at: u32,
    scope: &Scope,
    kinds: &[Kind],
    args: &[Arg],
) -> Result<(), AllocError>
    ensures { IfOk result (λ _. found.new.first
        ≡ first_from found.old.first
        (action_args at (scope_of scope.now) kinds.now (map arg_of args.now))) }
{
    found.test(at, ProgramRule::KindDiffers, kinds.len() != args.len());
    check_args(found, scope, kinds, args)
}

/// Adds the tests of the arguments of a call of this form.
pub(crate) fn check_form(
    found: &mut Found,
    at: u32,
    scope: &Scope,
    form: &Form,
    args: &[Arg],
) -> Result<(), AllocError>
    ensures { IfOk result (λ _. found.new.first
        ≡ first_from found.old.first
        (form_tests at (scope_of scope.now) (form_view form.now) (map arg_of args.now))) }
{
    match form {
        Form::Unknown => found.test(at, ProgramRule::NoSuchName, true),
        Form::Ill => misfit(found, at),
        Form::Drops => check_single(found, at, Wanted::Standard, scope, args),
        Form::Digests => check_digest(found, at, scope, args)?,
        Form::Sums(verifies) => check_sum(found, at, *verifies, scope, args)?,
        Form::Extracts => check_single(found, at, Wanted::Header, scope, args),
        Form::Emits => check_single(found, at, Wanted::Header, scope, args),
        Form::Applies => check_none(found, at, args),
        Form::ReadsCell(kind) => check_cell_read(found, at, scope, *kind, args)?,
        Form::WritesCell(kind) => check_cell_write(found, at, scope, *kind, args)?,
        Form::MakesValid => check_none(found, at, args),
        Form::Acts(kinds) => check_action(found, at, scope, kinds, args)?,
    }
    Ok(())
}
