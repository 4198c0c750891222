//! What is tested of digests.

ghost use Rattle.std.specs.Prelude.{◌≡◌, IfOk, map};
ghost use Rattle.p4_tree.specs.View.{arg_of, expr_of};
ghost use Rattle.p4_scopes.specs.View.{scope_of};
ghost use Rattle.p4_statement_rules.specs.Ranks.{first_from};
ghost use Rattle.p4_statement_rules.specs.Calls.{literal_value, receiver_tests, receiver_arg, digest_values, digest_tests};

use crate::calls::misfit;
use crate::expressions::check_all_free;
use crate::found::Found;
use crate::rule::ProgramRule;
use bit_values::{Bits, sound_width};
use lex_text::Literal;
use p4_scopes::scope::Scope;
use p4_tree::{Arg, Expr};
use std::alloc::AllocError;

/// The number that a literal is: a written width cuts it.
fn literal_value(n: Literal) -> u128
    ensures { result ≡ literal_value n }
{
    Bits::new(128, n.value).cast(sound_width(n.width)).value
}

/// A receiver is a number below 2^32.
fn check_receiver(found: &mut Found, at: u32, e: &Expr)
    ensures { found.new.first ≡ first_from found.old.first (receiver_tests at (expr_of e.now)) }
{
    match e {
        Expr::Num(place, n) => {
            let bad = literal_value(*n) >= 4_294_967_296;
            found.test(*place, ProgramRule::BadSize, bad);
        }
        Expr::Flag(_, _) | Expr::Path(_, _) | Expr::Valid(_, _) | Expr::Applied(_, _, _) => {
            found.test(at, ProgramRule::BadSize, true);
        }
        Expr::ErrorName(_, _) | Expr::Not(_, _) | Expr::Invert(_, _) | Expr::Negate(_, _) => {
            found.test(at, ProgramRule::BadSize, true);
        }
        Expr::Bin(_, _, _, _) | Expr::Choice(_, _, _, _) => {
            found.test(at, ProgramRule::BadSize, true);
        }
        Expr::Slice(_, _, _, _) | Expr::Cast(_, _, _) => {
            found.test(at, ProgramRule::BadSize, true);
        }
    }
}

fn check_receiver_arg(found: &mut Found, arg: &Arg)
    ensures { found.new.first ≡ first_from found.old.first (receiver_arg (arg_of arg.now)) }
{
    match arg {
        Arg::One(at, e) => check_receiver(found, *at, e),
        Arg::Many(at, _) => found.test(*at, ProgramRule::BadSize, true),
    }
}

/// There are 1 to 9 values.
#[tactic(auto, using(crate::proofs::Counts::exprs_counted))]
fn check_values(found: &mut Found, scope: &Scope, arg: &Arg) -> Result<(), AllocError>
    ensures { IfOk result (λ _. found.new.first
        ≡ first_from found.old.first (digest_values (scope_of scope.now) (arg_of arg.now))) }
{
    match arg {
        Arg::One(at, _) => {
            misfit(found, *at);
            Ok(())
        }
        Arg::Many(at, values) => {
            let bad = values.len() == 0 || values.len() > 9;
            found.test(*at, ProgramRule::BadSize, bad);
            check_all_free(found, scope, values)
        }
    }
}

/// Adds the tests of the arguments of a digest.
pub(crate) fn check_digest(
    found: &mut Found,
    at: u32,
    scope: &Scope,
    args: &[Arg],
) -> Result<(), AllocError>
    ensures { IfOk result (λ _. found.new.first
        ≡ first_from found.old.first
        (digest_tests at (scope_of scope.now) (map arg_of args.now))) }
{
    match args {
        [receiver, values] => {
            check_receiver_arg(found, receiver);
            check_values(found, scope, values)
        }
        [] | [_] | [_, _, _, ..] => {
            misfit(found, at);
            Ok(())
        }
    }
}
