//! What is tested of checksums.

ghost use Rattle.std.specs.Prelude.{◌≡◌, IfOk, map};
ghost use Rattle.p4_tree.specs.View.{arg_of, expr_of};
ghost use Rattle.p4_scopes.specs.View.{scope_of, stands_of};
ghost use Rattle.p4_statement_rules.specs.Ranks.{first_from};
ghost use Rattle.p4_statement_rules.specs.Forms.{path_in};
ghost use Rattle.p4_statement_rules.specs.Calls.{bits_over, have_bits, summed_arg, is_known, summed_path, summed_field, field_arg, sum_tests};

use crate::calls::{Wanted, check_arg, check_path_arg, check_target, misfit};
use crate::expressions::{check_all_free, check_fit};
use crate::forms::path_in;
use crate::found::Found;
use crate::rule::ProgramRule;
use p4_scopes::kind::{Kind, bits_in};
use p4_scopes::scope::Scope;
use p4_scopes::stands::Stands;
use p4_tree::{Arg, Expr};
use std::alloc::AllocError;

/// The bits of the values of a list, over what fills 16 bits.
#[tactic(auto, using(crate::proofs::SumsLemmas::bits_next))]
fn bits_over(scope: &Scope, values: &[Expr]) -> u16
    ensures { result ≡ bits_over (scope_of scope.now) (map expr_of values.now) }
{
    let mut bits = 0;
    for e in values {
        bits = (bits + u16::from(bits_in(scope.own(e)))) % 16;
    }
    bits
}

/// Whether the width of each value of a list is known.
fn have_bits(scope: &Scope, values: &[Expr]) -> bool
    ensures { result ≡ have_bits (scope_of scope.now) (map expr_of values.now) }
{
    for e in values {
        if bits_in(scope.own(e)) == 0 {
            return false;
        }
    }
    true
}

/// A list of numbers and truth values that fill 16 bits each time.
fn check_summed(found: &mut Found, scope: &Scope, arg: &Arg) -> Result<(), AllocError>
    ensures { IfOk result (λ _. found.new.first
        ≡ first_from found.old.first (summed_arg (scope_of scope.now) (arg_of arg.now))) }
{
    match arg {
        Arg::One(at, _) => {
            misfit(found, *at);
            Ok(())
        }
        Arg::Many(at, values) => {
            let odd = have_bits(scope, values) && bits_over(scope, values) != 0;
            found.test(*at, ProgramRule::BadSize, odd);
            check_all_free(found, scope, values)
        }
    }
}

/// Whether it is a constant.
fn is_known(stands: &Stands) -> bool
    ensures { result ≡ is_known (stands_of stands.now) }
{
    stands.is_constant() && !stands.is_missing()
}

/// What is compared with a checksum, or takes it.
fn check_summed_path(found: &mut Found, at: u32, verifies: bool, stands: &Stands)
    ensures { found.new.first
        ≡ first_from found.old.first (summed_path at verifies (stands_of stands.now)) }
{
    if verifies {
        found.test(at, ProgramRule::NoSuchName, stands.is_missing());
        found.test(
            at,
            ProgramRule::KindDiffers,
            !stands.reads() || is_known(stands),
        );
    } else {
        check_target(found, at, stands);
    }
}

fn check_summed_field(found: &mut Found, at: u32, verifies: bool, scope: &Scope, e: &Expr)
    ensures { found.new.first
        ≡ first_from found.old.first
        (summed_field at verifies (scope_of scope.now) (path_in (expr_of e.now))) }
{
    match path_in(e) {
        None => misfit(found, at),
        Some((place, names)) => {
            let stands = scope.find(names);
            check_summed_path(found, place, verifies, &stands);
            check_fit(found, place, stands.value_kind(), Kind::Number(16));
        }
    }
}

fn check_field_arg(found: &mut Found, verifies: bool, scope: &Scope, arg: &Arg)
    ensures { found.new.first
        ≡ first_from found.old.first (field_arg verifies (scope_of scope.now) (arg_of arg.now)) }
{
    match arg {
        Arg::One(at, e) => check_summed_field(found, *at, verifies, scope, e),
        Arg::Many(at, _) => misfit(found, *at),
    }
}

/// Adds the tests of the arguments of a call that verifies or updates a checksum.
pub(crate) fn check_sum(
    found: &mut Found,
    at: u32,
    verifies: bool,
    scope: &Scope,
    args: &[Arg],
) -> Result<(), AllocError>
    ensures { IfOk result (λ _. found.new.first
        ≡ first_from found.old.first
        (sum_tests at verifies (scope_of scope.now) (map arg_of args.now))) }
{
    match args {
        [condition, values, field, algorithm] => {
            check_arg(found, scope, Kind::Truth, condition)?;
            check_summed(found, scope, values)?;
            check_field_arg(found, verifies, scope, field);
            check_path_arg(found, Wanted::Algorithm, scope, algorithm);
        }
        [] | [_] | [_, _] | [_, _, _] | [_, _, _, _, _, ..] => misfit(found, at),
    }
    Ok(())
}
