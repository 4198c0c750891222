//! The most digests that statements give.

ghost use Rattle.std.specs.Prelude.{◌≡◌};
ghost use Rattle.std.specs.Option.{option_map};
ghost use Rattle.lex_text.specs.Names.{parent};
ghost use Rattle.p4_tree.specs.Tree.{negation};
ghost use Rattle.p4_tree.specs.View.{expr_of, stmt_of, stmts_of, else_of, table_of, default_of};
ghost use Rattle.p4_scopes.specs.Uses.{most_in};
ghost use Rattle.p4_scopes.specs.View.{scope_of};
ghost use Rattle.p4_statement_rules.specs.Forms.{form_of};
ghost use Rattle.p4_declaration_rules.specs.Digests.{most_of_form, most_of_test, most_of_stmt, most_of_else, most_of, greatest, most_of_default, most_of_table};

use lex_text::Name;
use p4_scopes::scope::Scope;
use p4_statement_rules::forms::{Form, form_of};
use p4_tree::{Expr, Stmt, Table};

/// The digests of the application of the table that a call names before its last name.
fn most_of_rows(scope: &Scope, path: &[Name]) -> u32
    ensures { result ≡ most_in (scope_of scope.now (parent path.now)) }
{
    match path.split_last() {
        None => scope.find(path).most(),
        Some((_, front)) => scope.find(front).most(),
    }
}

/// The digests of a call.
fn most_of_call(scope: &Scope, path: &[Name]) -> u32
    ensures { result
        ≡ most_of_form (scope_of scope.now) (form_of (scope_of scope.now) path.now) path.now }
{
    match form_of(scope, path) {
        Form::Digests => 1,
        Form::Acts(_) => scope.find(path).most(),
        Form::Applies => most_of_rows(scope, path),
        Form::Unknown | Form::Ill | Form::Drops | Form::Sums(_) | Form::Extracts => 0,
        Form::Emits | Form::ReadsCell(_) | Form::WritesCell(_) | Form::MakesValid => 0,
    }
}

/// The digests of what stands behind the `!` of an `if`.
fn most_of_negated(scope: &Scope, at: u32, e: &Expr) -> u32
    ensures { result ≡ most_of_test (scope_of scope.now) (negation at (expr_of e.now)) }
{
    match e {
        Expr::Applied(_, table, _) => scope.find_name(table).most(),
        Expr::Num(_, _) | Expr::Flag(_, _) | Expr::Path(_, _) | Expr::Valid(_, _) => 0,
        Expr::ErrorName(_, _) | Expr::Not(_, _) | Expr::Invert(_, _) | Expr::Negate(_, _) => 0,
        Expr::Bin(_, _, _, _) | Expr::Choice(_, _, _, _) => 0,
        Expr::Slice(_, _, _, _) | Expr::Cast(_, _, _) => 0,
    }
}

/// The digests that the test of an `if` gives, which may apply a table.
fn most_of_test(scope: &Scope, e: &Expr) -> u32
    ensures { result ≡ most_of_test (scope_of scope.now) (expr_of e.now) }
{
    match e {
        Expr::Applied(_, table, _) => scope.find_name(table).most(),
        Expr::Not(at, a) => most_of_negated(scope, *at, a),
        Expr::Num(_, _) | Expr::Flag(_, _) | Expr::Path(_, _) | Expr::Valid(_, _) => 0,
        Expr::ErrorName(_, _) | Expr::Invert(_, _) | Expr::Negate(_, _) => 0,
        Expr::Bin(_, _, _, _) | Expr::Choice(_, _, _, _) => 0,
        Expr::Slice(_, _, _, _) | Expr::Cast(_, _, _) => 0,
    }
}

/// The most digests that a statement gives.
#[cycle(most)]
fn most_of_stmt(scope: &Scope, s: &Stmt) -> u32
    ensures { result ≡ most_of_stmt (scope_of scope.now) (stmt_of s.now) }
{
    match s {
        Stmt::Block(_, body) => most_of(scope, body),
        Stmt::If(_, test, a, b) => {
            let branches = most_of_stmt(scope, a).max(most_of_else(scope, b));
            most_of_test(scope, test).saturating_add(branches)
        }
        Stmt::Call(_, path, _) => most_of_call(scope, path),
        Stmt::Nothing(_) | Stmt::Var(_, _, _, _) | Stmt::Assign(_, _, _) => 0,
        Stmt::Return(_) | Stmt::Exit(_) => 0,
    }
}

/// The most that an `else` gives.
#[cycle(most)]
fn most_of_else(scope: &Scope, s: &Option<Box<Stmt>>) -> u32
    ensures { result ≡ most_of_else (scope_of scope.now) (else_of s.now) }
{
    match s {
        None => 0,
        Some(s) => most_of_stmt(scope, s),
    }
}

/// The most digests that statements give, behind what is in sight.
#[cycle(most)]
pub(crate) fn most_of(scope: &Scope, body: &[Stmt]) -> u32
    ensures { result ≡ most_of (scope_of scope.now) (stmts_of body.now) }
{
    let mut most: u32 = 0;
    for s in body {
        most = most.saturating_add(most_of_stmt(scope, s));
    }
    most
}

/// The greatest of what some actions give.
fn greatest(scope: &Scope, actions: &[Name]) -> u32
    ensures { result ≡ greatest (scope_of scope.now) actions.now }
{
    let mut most: u32 = 0;
    for action in actions {
        most = most.max(scope.find_name(action).most());
    }
    most
}

/// The most that a table's default gives.
fn most_of_default(scope: &Scope, default: &Option<(Name, Vec<Expr>)>) -> u32
    ensures { result
        ≡ most_of_default (scope_of scope.now) (option_map default_of default.now) }
{
    match default {
        None => 0,
        Some(d) => scope.find_name(&d.0).most(),
    }
}

/// The most that the application of a table gives.
pub(crate) fn most_of_table(scope: &Scope, table: &Table) -> u32
    ensures { result
        ≡ most_of_table (scope_of scope.now) (table_of table.now).actions (table_of table.now).default }
{
    most_of_default(scope, &table.default).max(greatest(scope, &table.actions))
}
