//! What is tested of tables.

ghost use Rattle.std.specs.Prelude.{◌≡◌, IfOk, map, codes};
ghost use Rattle.std.specs.Option.{option_map};
ghost use Rattle.p4_tree.specs.View.{expr_of, key_of, default_of, table_of};
ghost use Rattle.p4_scopes.specs.View.{scope_of, stands_of};
ghost use Rattle.p4_statement_rules.specs.Ranks.{first_from};
ghost use Rattle.p4_declaration_rules.specs.Tables.{keys_tests, is_key_kind, all_key_kinds, has_key_kind, has_two_prefixes, ill_matched, listed_tests, known_args, default_args, default_tests, table_tests};

use crate::names::{has_twice, is_among};
use lex_text::Name;
use p4_scopes::kind::Kind;
use p4_scopes::scope::Scope;
use p4_scopes::stands::Stands;
use p4_statement_rules::expressions::{check_constant, check_free};
use p4_statement_rules::found::Found;
use p4_statement_rules::rule::ProgramRule;
use p4_statement_rules::types::check_new;
use p4_tree::{Expr, Table};
use std::alloc::AllocError;

/// Adds the tests of keys.
fn check_keys(found: &mut Found, scope: &Scope, keys: &[(Expr, Name)]) -> Result<(), AllocError>
    ensures { IfOk result (λ _. found.new.first
        ≡ first_from found.old.first (keys_tests (scope_of scope.now) (map key_of keys.now))) }
{
    for key in keys {
        check_free(found, scope, &key.0)?;
    }
    Ok(())
}

fn is_key_kind(name: &Name) -> bool
    ensures { result ≡ is_key_kind name.now }
{
    let text = name.as_str();
    text == "exact" || text == "lpm" || text == "ternary"
}

/// Whether each key is matched in a way that there is.
fn all_key_kinds(keys: &[(Expr, Name)]) -> bool
    ensures { result ≡ all_key_kinds (map key_of keys.now) }
{
    for key in keys {
        if !is_key_kind(&key.1) {
            return false;
        }
    }
    true
}

/// Whether some key is matched in this way.
fn has_key_kind(keys: &[(Expr, Name)], kind: &str) -> bool
    ensures { result ≡ has_key_kind (map key_of keys.now) kind.now }
{
    for key in keys {
        if key.1.as_str() == kind {
            return true;
        }
    }
    false
}

/// Whether two keys are matched by prefixes.
#[tactic(auto, using(crate::proofs::Prefixes::first_prefix))]
fn has_two_prefixes(keys: &[(Expr, Name)]) -> bool
    ensures { result ≡ has_two_prefixes (map key_of keys.now) }
{
    for (i, key) in keys.iter().enumerate() {
        if key.1.as_str() == "lpm" {
            return has_key_kind(&keys[i + 1..], "lpm");
        }
    }
    false
}

fn ill_matched(keys: &[(Expr, Name)]) -> bool
    ensures { result ≡ ill_matched (map key_of keys.now) }
{
    let mixed = has_key_kind(keys, "lpm") && has_key_kind(keys, "ternary");
    !all_key_kinds(keys) || has_two_prefixes(keys) || mixed
}

/// Adds the tests of the actions of a table.
fn check_listed(found: &mut Found, at: u32, scope: &Scope, actions: &[Name])
    ensures { found.new.first
        ≡ first_from found.old.first (listed_tests at (scope_of scope.now) actions.now) }
{
    for action in actions {
        let stands = scope.find_name(action);
        found.test(at, ProgramRule::NoSuchName, stands.is_missing());
        found.test(at, ProgramRule::KindDiffers, !stands.is_action());
    }
}

/// Adds the tests of arguments that are known before the program runs.
fn check_known_args(
    found: &mut Found,
    scope: &Scope,
    kinds: &[Kind],
    args: &[Expr],
) -> Result<(), AllocError>
    ensures { IfOk result (λ _. found.new.first
        ≡ first_from found.old.first
        (known_args (scope_of scope.now) kinds.now (map expr_of args.now))) }
{
    for (i, kind) in kinds.iter().enumerate() {
        match args.get(i) {
            Some(arg) => check_constant(found, scope, *kind, arg)?,
            None => return Ok(()),
        }
    }
    Ok(())
}

/// Adds the tests of the arguments of a default action.
#[tactic(auto, using(p4_statement_rules::proofs::Counts::many_by_lengths, p4_statement_rules::proofs::Counts::exprs_counted))]
fn check_default_args(
    found: &mut Found,
    at: u32,
    scope: &Scope,
    stands: &Stands,
    args: &[Expr],
) -> Result<(), AllocError>
    ensures { IfOk result (λ _. found.new.first
        ≡ first_from found.old.first
        (default_args at (scope_of scope.now) (stands_of stands.now) (map expr_of args.now))) }
{
    match stands {
        Stands::Missing => found.test(at, ProgramRule::NoSuchName, true),
        Stands::Act(kinds, _) => {
            found.test(at, ProgramRule::KindDiffers, kinds.len() != args.len());
            check_known_args(found, scope, kinds, args)?;
        }
        Stands::Typed(_, _) | Stands::Held(_, _) | Stands::Cells(_) | Stands::Rows(_) => {
            found.test(at, ProgramRule::KindDiffers, true);
        }
        Stands::State | Stands::Function(_) | Stands::Algorithm | Stands::Other => {
            found.test(at, ProgramRule::KindDiffers, true);
        }
    }
    Ok(())
}

/// Adds the tests of a default action.
fn check_default(
    found: &mut Found,
    at: u32,
    scope: &Scope,
    actions: &[Name],
    default: &Option<(Name, Vec<Expr>)>,
) -> Result<(), AllocError>
    ensures { IfOk result (λ _. found.new.first
        ≡ first_from found.old.first
        (default_tests at (scope_of scope.now) actions.now (option_map default_of default.now))) }
{
    match default {
        None => Ok(()),
        Some(d) => {
            found.test(at, ProgramRule::WrongPlace, !is_among(actions, &d.0));
            check_default_args(found, at, scope, &scope.find_name(&d.0), &d.1)
        }
    }
}

/// Adds the tests of a table.
pub(crate) fn check_table(found: &mut Found, scope: &Scope, table: &Table) -> Result<(), AllocError>
    ensures { IfOk result (λ _. found.new.first
        ≡ first_from found.old.first (table_tests (scope_of scope.now) (table_of table.now))) }
{
    check_new(found, table.at, scope, &table.name);
    found.test(table.at, ProgramRule::KeyKinds, ill_matched(&table.keys));
    check_keys(found, scope, &table.keys)?;
    let twice = has_twice(found.alloc(), &table.actions)?;
    found.test(table.at, ProgramRule::NameTwice, twice);
    check_listed(found, table.at, scope, &table.actions);
    check_default(found, table.at, scope, &table.actions, &table.default)
}
