//! What is tested of statements.

ghost use Rattle.std.specs.Prelude.{◌≡◌, ◌≤◌, IfOk, length, take};
ghost use Rattle.std.specs.Option.{option_map};
ghost use Rattle.p4_tree.specs.View.{else_of, expr_of, stmt_of, stmts_of};
ghost use Rattle.p4_scopes.specs.View.{scope_of};
ghost use Rattle.p4_statement_rules.specs.Ranks.{first_from};
ghost use Rattle.p4_statement_rules.specs.Statements.{negated_tests, if_tests, start_tests, var_tests, after, stands_tests, stmt_tests, block_tests, else_tests};

use crate::calls::{check_form, check_target};
use crate::expressions::{check_applied, check_expr, check_fit};
use crate::forms::form_of;
use crate::found::Found;
use crate::rule::{Part, ProgramRule};
use crate::types::{check_new, check_scalar};
use lex_text::Name;
use p4_scopes::kind::Kind;
use p4_scopes::scope::Scope;
use p4_scopes::thing::Access;
use p4_scopes::what::What;
use p4_tree::{Expr, PTy, Stmt};
use std::alloc::AllocError;

/// What stands behind the `!` of an `if`.
fn check_negated(
    found: &mut Found,
    part: Part,
    scope: &Scope,
    at: u32,
    e: &Expr,
) -> Result<(), AllocError>
    ensures { IfOk result (λ _. found.new.first
        ≡ first_from found.old.first
        (negated_tests part (scope_of scope.now) at (expr_of e.now))) }
{
    match e {
        Expr::Applied(place, t, _) => {
            check_applied(found, *place, part.takes_runs(), &scope.find_name(t));
            Ok(())
        }
        Expr::Num(_, _) | Expr::Flag(_, _) | Expr::Path(_, _) | Expr::Valid(_, _) => {
            check_fit(found, at, Kind::Truth, Kind::Truth);
            check_expr(found, scope, Kind::Truth, e)
        }
        Expr::ErrorName(_, _) | Expr::Not(_, _) | Expr::Invert(_, _) | Expr::Negate(_, _) => {
            check_fit(found, at, Kind::Truth, Kind::Truth);
            check_expr(found, scope, Kind::Truth, e)
        }
        Expr::Bin(_, _, _, _) | Expr::Choice(_, _, _, _) => {
            check_fit(found, at, Kind::Truth, Kind::Truth);
            check_expr(found, scope, Kind::Truth, e)
        }
        Expr::Slice(_, _, _, _) | Expr::Cast(_, _, _) => {
            check_fit(found, at, Kind::Truth, Kind::Truth);
            check_expr(found, scope, Kind::Truth, e)
        }
    }
}

/// The test of an `if`, which may be the outcome of a table.
fn check_if(found: &mut Found, part: Part, scope: &Scope, e: &Expr) -> Result<(), AllocError>
    ensures { IfOk result (λ _. found.new.first
        ≡ first_from found.old.first (if_tests part (scope_of scope.now) (expr_of e.now))) }
{
    match e {
        Expr::Applied(at, t, _) => {
            check_applied(found, *at, part.takes_runs(), &scope.find_name(t));
            Ok(())
        }
        Expr::Not(at, a) => check_negated(found, part, scope, *at, a),
        Expr::Num(_, _) | Expr::Flag(_, _) | Expr::Path(_, _) | Expr::Valid(_, _) => {
            check_expr(found, scope, Kind::Truth, e)
        }
        Expr::ErrorName(_, _) | Expr::Invert(_, _) | Expr::Negate(_, _) => {
            check_expr(found, scope, Kind::Truth, e)
        }
        Expr::Bin(_, _, _, _) | Expr::Choice(_, _, _, _) => {
            check_expr(found, scope, Kind::Truth, e)
        }
        Expr::Slice(_, _, _, _) | Expr::Cast(_, _, _) => check_expr(found, scope, Kind::Truth, e),
    }
}

/// A first value of which `want` is wanted, where there is one.
fn check_start(
    found: &mut Found,
    scope: &Scope,
    want: Kind,
    start: &Option<Expr>,
) -> Result<(), AllocError>
    ensures { IfOk result (λ _. found.new.first
        ≡ first_from found.old.first
        (start_tests (scope_of scope.now) want (option_map expr_of start.now))) }
{
    match start {
        None => Ok(()),
        Some(e) => check_expr(found, scope, want, e),
    }
}

/// Adds the tests of a variable with its type, its name and perhaps its first value.
pub fn check_var(
    found: &mut Found,
    at: u32,
    scope: &Scope,
    t: &PTy,
    name: &Name,
    start: &Option<Expr>,
) -> Result<(), AllocError>
    ensures { IfOk result (λ _. found.new.first
        ≡ first_from found.old.first
        (var_tests at (scope_of scope.now) t.now name.now (option_map expr_of start.now))) }
{
    check_new(found, at, scope, name);
    check_scalar(found, at, scope, t);
    check_start(found, scope, scope.kind_in(t), start)
}

/// A statement stands where it may.
fn check_place(found: &mut Found, at: u32, may: bool)
    ensures { found.new.first ≡ first_from found.old.first (stands_tests at may) }
{
    found.test(at, ProgramRule::WrongPlace, !may);
}

/// Puts into sight what a statement declares.
fn declare_var<'a>(scope: &mut Scope<'a>, s: &'a Stmt) -> Result<(), AllocError>
    ensures declared { IfOk result (λ _. scope_of scope.new
        ≡ after (scope_of scope.old) (stmt_of s.now)) }
    ensures kept { IfOk result (λ _. take (length scope.old) scope.new ≡ scope.old) }
    ensures longer { IfOk result (λ _. length scope.old ≤ length scope.new) }
{
    match s {
        Stmt::Var(_, t, name, _) => scope.declare(name, What::Value(Access::Writable, t)),
        Stmt::Nothing(_) | Stmt::Block(_, _) | Stmt::Assign(_, _, _) => Ok(()),
        Stmt::If(_, _, _, _) | Stmt::Return(_) | Stmt::Exit(_) | Stmt::Call(_, _, _) => Ok(()),
    }
}

/// Adds the tests of a statement. The names in sight stay as they were.
#[cycle(stmt)]
pub fn check_stmt<'a>(
    found: &mut Found,
    part: Part,
    scope: &mut Scope<'a>,
    s: &'a Stmt,
) -> Result<(), AllocError>
    ensures found { IfOk result (λ _. found.new.first
        ≡ first_from found.old.first (stmt_tests part (scope_of scope.old) (stmt_of s.now))) }
    ensures kept { IfOk result (λ _. scope.new ≡ scope.old) }
{
    match s {
        Stmt::Nothing(at) => check_place(found, *at, part.takes_any()),
        Stmt::Block(at, body) => {
            check_place(found, *at, part.takes_any());
            check_block(found, part, scope, body)?;
        }
        Stmt::Var(at, t, name, start) => {
            check_place(found, *at, part.takes_any());
            check_var(found, *at, scope, t, name, start)?;
        }
        Stmt::Assign(at, target, e) => {
            check_place(found, *at, part.takes_assignments());
            let stands = scope.find(target);
            check_target(found, *at, &stands);
            check_expr(found, scope, stands.value_kind(), e)?;
        }
        Stmt::If(at, test, a, b) => {
            check_place(found, *at, part.takes_any());
            check_if(found, part, scope, test)?;
            check_stmt(found, part, scope, a)?;
            check_else(found, part, scope, b)?;
        }
        Stmt::Return(at) => check_place(found, *at, part.takes_effects()),
        Stmt::Exit(at) => check_place(found, *at, part.takes_effects()),
        Stmt::Call(at, callee, args) => {
            let form = form_of(scope, callee);
            check_place(found, *at, part.takes_call(&form));
            check_form(found, *at, scope, &form, args)?;
        }
    }
    Ok(())
}

/// What an `else` holds.
#[cycle(stmt)]
fn check_else<'a>(
    found: &mut Found,
    part: Part,
    scope: &mut Scope<'a>,
    s: &'a Option<Box<Stmt>>,
) -> Result<(), AllocError>
    ensures found { IfOk result (λ _. found.new.first
        ≡ first_from found.old.first (else_tests part (scope_of scope.old) (else_of s.now))) }
    ensures kept { IfOk result (λ _. scope.new ≡ scope.old) }
{
    match s {
        None => Ok(()),
        Some(s) => check_stmt(found, part, scope, s),
    }
}

/// Adds the tests of the statements of a block. The names in sight stay as they were.
#[cycle(stmt)]
pub fn check_block<'a>(
    found: &mut Found,
    part: Part,
    scope: &mut Scope<'a>,
    body: &'a [Stmt],
) -> Result<(), AllocError>
    ensures found { IfOk result (λ _. found.new.first
        ≡ first_from found.old.first
        (block_tests part (scope_of scope.old) (stmts_of body.now))) }
    ensures kept { IfOk result (λ _. scope.new ≡ scope.old) }
{
    let before = scope.mark();
    for s in body {
        check_stmt(found, part, scope, s)?;
        declare_var(scope, s)?;
    }
    scope.back(before);
    Ok(())
}
