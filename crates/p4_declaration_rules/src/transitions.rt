//! What is tested of how states go on.

ghost use Rattle.std.specs.Prelude.{◌≡◌, List, IfOk, map};
ghost use Rattle.p4_tree.specs.Tree as tree;
ghost use Rattle.p4_tree.specs.View.{expr_of, keyset_of, case_of, transition_of};
ghost use Rattle.p4_scopes.specs.View.{scope_of, stands_of};
ghost use Rattle.p4_statement_rules.specs.Ranks.{first_from};
ghost use Rattle.p4_declaration_rules.specs.Parsers.{is_state_name, onto_tests, simple_tests, key_tests, keyset_tests, each_keyset, keysets_tests, cases_tests, transition_tests};
ghost use Rattle.p4_declaration_rules.specs.Loops.{named, is_default, wanted_kinds, each_wanted, all_wanted};

use crate::names::is_in;
use indexmap::IndexSet;
use lex_text::Name;
use p4_scopes::kind::{Kind, as_number, as_value};
use p4_scopes::scope::Scope;
use p4_scopes::stands::Stands;
use p4_statement_rules::expressions::{check_all_free, check_expr, expr_at};
use p4_statement_rules::found::Found;
use p4_statement_rules::rule::ProgramRule;
use p4_tree::{Expr, Keyset, Transition};
use std::alloc::{AllocError, Global};

/// The names of the states that each parser has.
pub(crate) const ACCEPT: &str = "accept";

pub(crate) const REJECT: &str = "reject";

/// Whether it is a name of a state, where a parser's own have these.
pub(crate) fn is_state_name(names: &IndexSet<&str>, name: &Name) -> bool
    ensures { result ≡ is_state_name (named names.now.keys) name.now }
{
    name.as_str() == ACCEPT || name.as_str() == REJECT || is_in(names, name)
}

/// Adds the tests of a name that has to be a state's.
pub(crate) fn check_onto(found: &mut Found, at: u32, is_name: bool, stands: &Stands)
    ensures { found.new.first
        ≡ first_from found.old.first (onto_tests at is_name (stands_of stands.now)) }
{
    let missing = stands.is_missing();
    found.test(at, ProgramRule::NoSuchName, !is_name && missing);
    found.test(at, ProgramRule::KindDiffers, !is_name && !missing);
}

/// A key is a number, a truth value or a constant.
fn check_simple(found: &mut Found, scope: &Scope, e: &Expr)
    ensures { found.new.first
        ≡ first_from found.old.first (simple_tests (scope_of scope.now) (expr_of e.now)) }
{
    match e {
        Expr::Num(_, _) | Expr::Flag(_, _) => {}
        Expr::Path(at, names) => {
            let known = scope.find(names).is_constant();
            found.test(*at, ProgramRule::KindDiffers, !known);
        }
        Expr::Valid(_, _) | Expr::Applied(_, _, _) | Expr::ErrorName(_, _) => {
            found.test(expr_at(e), ProgramRule::KindDiffers, true);
        }
        Expr::Not(_, _) | Expr::Invert(_, _) | Expr::Negate(_, _) => {
            found.test(expr_at(e), ProgramRule::KindDiffers, true);
        }
        Expr::Bin(_, _, _, _) | Expr::Choice(_, _, _, _) => {
            found.test(expr_at(e), ProgramRule::KindDiffers, true);
        }
        Expr::Slice(_, _, _, _) | Expr::Cast(_, _, _) => {
            found.test(expr_at(e), ProgramRule::KindDiffers, true);
        }
    }
}

fn check_key(found: &mut Found, scope: &Scope, want: Kind, e: &Expr) -> Result<(), AllocError>
    ensures { IfOk result (λ _. found.new.first
        ≡ first_from found.old.first (key_tests (scope_of scope.now) want (expr_of e.now))) }
{
    check_expr(found, scope, want, e)?;
    check_simple(found, scope, e);
    Ok(())
}

/// Adds the tests of a key for a value of a kind.
fn check_keyset(
    found: &mut Found,
    scope: &Scope,
    want: Kind,
    key: &Keyset,
) -> Result<(), AllocError>
    ensures { IfOk result (λ _. found.new.first
        ≡ first_from found.old.first
        (keyset_tests (scope_of scope.now) want (keyset_of key.now))) }
{
    match key {
        Keyset::Any(_) => Ok(()),
        Keyset::One(_, e) => check_key(found, scope, want, e),
        Keyset::Masked(_, e, mask) => {
            check_key(found, scope, as_number(want), e)?;
            check_key(found, scope, as_number(want), mask)
        }
    }
}

/// Adds the tests of keys for values of these kinds.
fn check_each(
    found: &mut Found,
    scope: &Scope,
    wants: &[Kind],
    keys: &[Keyset],
) -> Result<(), AllocError>
    ensures { IfOk result (λ _. found.new.first
        ≡ first_from found.old.first
        (each_wanted (scope_of scope.now) wants.now (map keyset_of keys.now))) }
{
    for (i, want) in wants.iter().enumerate() {
        match keys.get(i) {
            Some(key) => check_keyset(found, scope, *want, key)?,
            None => return Ok(()),
        }
    }
    Ok(())
}

/// Adds the tests of keys of which there are as many as values.
#[tactic(auto, using(p4_statement_rules::proofs::Counts::many_by_lengths, crate::proofs::Keys::keysets_counted))]
fn check_all(
    found: &mut Found,
    at: u32,
    scope: &Scope,
    wants: &[Kind],
    keys: &[Keyset],
) -> Result<(), AllocError>
    ensures { IfOk result (λ _. found.new.first
        ≡ first_from found.old.first
        (all_wanted at (scope_of scope.now) wants.now (map keyset_of keys.now))) }
{
    found.test(at, ProgramRule::KindDiffers, wants.len() != keys.len());
    check_each(found, scope, wants, keys)
}

/// Whether the keys are one `default` alone, which fits all values.
fn is_default(keys: &[Keyset]) -> bool
    ensures { result ≡ is_default (map keyset_of keys.now) }
{
    match keys {
        [Keyset::Any(..)] => true,
        [Keyset::One(..)] | [Keyset::Masked(..)] | [] | [_, _, ..] => false,
    }
}

/// Adds the tests of the keys of a case.
fn check_keysets(
    found: &mut Found,
    at: u32,
    scope: &Scope,
    wants: &[Kind],
    keys: &[Keyset],
) -> Result<(), AllocError>
    ensures { IfOk result (λ _. (es : List tree.Expr) → wants.now ≡ wanted_kinds (scope_of scope.now) es
        → found.new.first ≡ first_from found.old.first
        (keysets_tests at (scope_of scope.now) es (map keyset_of keys.now))) }
{
    if is_default(keys) {
        return Ok(());
    }
    check_all(found, at, scope, wants, keys)?;
    Ok(())
}

/// Adds the tests of the cases of a `select` on values of these kinds.
fn check_cases(
    found: &mut Found,
    at: u32,
    scope: &Scope,
    names: &IndexSet<&str>,
    wants: &[Kind],
    cases: &[(Vec<Keyset>, Name)],
) -> Result<(), AllocError>
    ensures { IfOk result (λ _. (es : List tree.Expr) → wants.now ≡ wanted_kinds (scope_of scope.now) es
        → found.new.first ≡ first_from found.old.first
        (cases_tests (is_state_name (named names.now.keys)) at (scope_of scope.now) es (map case_of cases.now))) }
{
    for case in cases {
        check_keysets(found, at, scope, wants, &case.0)?;
        let is_name = is_state_name(names, &case.1);
        check_onto(found, at, is_name, &scope.find_name(&case.1));
    }
    Ok(())
}

/// What the values of a `select` are.
fn wanted_kinds(alloc: Global, scope: &Scope, values: &[Expr]) -> Result<Vec<Kind>, AllocError>
    ensures { IfOk result (λ kinds. kinds.items
        ≡ wanted_kinds (scope_of scope.now) (map expr_of values.now)) }
{
    let mut kinds = Vec::new(alloc);
    for e in values {
        kinds.push(as_value(scope.own(e)))?;
    }
    Ok(kinds)
}

/// Adds the tests of how a state goes on.
pub(crate) fn check_transition(
    found: &mut Found,
    scope: &Scope,
    names: &IndexSet<&str>,
    next: &Transition,
) -> Result<(), AllocError>
    ensures { IfOk result (λ _. found.new.first
        ≡ first_from found.old.first
        (transition_tests (is_state_name (named names.now.keys)) (scope_of scope.now) (transition_of next.now))) }
{
    match next {
        Transition::None(_) => {}
        Transition::To(at, name) => {
            check_onto(
                found,
                *at,
                is_state_name(names, name),
                &scope.find_name(name),
            );
        }
        Transition::Select(at, values, cases) => {
            check_all_free(found, scope, values)?;
            let wants = wanted_kinds(found.alloc(), scope, values)?;
            check_cases(found, *at, scope, names, &wants, cases)?;
        }
    }
    Ok(())
}
