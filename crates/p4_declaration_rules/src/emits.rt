//! What is tested of a deparser: it emits each header once.

ghost use Rattle.std.specs.Prelude.{◌≡◌, ℕ, List, [], ◌∷◌, IfOk, IfSome, map};
ghost use Rattle.std.specs.Option.{option_map};
ghost use Rattle.p4_tree.specs.View.{arg_of, stmt_of, stmts_of};
ghost use Rattle.p4_scopes.specs.View.{scope_of};
ghost use Rattle.p4_statement_rules.specs.Ranks.{first_from};
ghost use Rattle.p4_statement_rules.specs.Forms.{form_of};
ghost use Rattle.p4_declaration_rules.specs.Controls.{arg_path, form_emits, stmt_emits, emit_at, is_one_of, emit_tests, emits_tests};
ghost use Rattle.p4_declaration_rules.specs.Loops.{as_list, path_in, paths_in};

use indexmap::IndexSet;
use lex_text::Name;
use p4_scopes::scope::Scope;
use p4_statement_rules::forms::{Form, form_of, path_in};
use p4_statement_rules::found::Found;
use p4_statement_rules::rule::ProgramRule;
use p4_tree::{Arg, Stmt};
use std::alloc::{AllocError, Global};

/// What an argument names that is a path and stands alone.
fn arg_path(args: &[Arg]) -> Option<&[Name]>
    ensures { as_list (option_map (λ x. x.now) result) ≡ arg_path (map arg_of args.now) }
{
    match args {
        [Arg::One(_, e)] => match path_in(e) {
            Some((_, path)) => Some(path),
            None => None,
        },
        [Arg::Many(..)] | [] | [_, _, ..] => None,
    }
}

/// The header that a call emits.
fn call_emits<'t>(scope: &Scope, callee: &[Name], args: &'t [Arg]) -> Option<&'t [Name]>
    ensures { as_list (option_map (λ x. x.now) result)
        ≡ form_emits (form_of (scope_of scope.now) callee.now) (map arg_of args.now) }
{
    match form_of(scope, callee) {
        Form::Emits => arg_path(args),
        Form::Unknown | Form::Ill | Form::Drops | Form::Digests | Form::Sums(_) => None,
        Form::Extracts | Form::Applies | Form::ReadsCell(_) | Form::WritesCell(_) => None,
        Form::MakesValid | Form::Acts(_) => None,
    }
}

/// The header that a statement emits, with the place of the statement.
fn stmt_emits<'t>(scope: &Scope, s: &'t Stmt) -> Option<(u32, &'t [Name])>
    ensures emits { as_list (option_map (λ x. x.1.now) result)
        ≡ stmt_emits (scope_of scope.now) (stmt_of s.now) }
    ensures place { IfSome result (λ x. x.0 ≡ emit_at (stmt_of s.now)) }
{
    match s {
        Stmt::Call(at, callee, args) => match call_emits(scope, callee, args) {
            Some(path) => Some((*at, path)),
            None => None,
        },
        Stmt::Nothing(_) | Stmt::Block(_, _) | Stmt::Var(_, _, _, _) => None,
        Stmt::Assign(_, _, _) | Stmt::If(_, _, _, _) => None,
        Stmt::Return(_) | Stmt::Exit(_) => None,
    }
}

/// The texts of the names of a path.
fn texts<'t>(alloc: Global, path: &'t [Name]) -> Result<Vec<&'t str>, AllocError>
    ensures { IfOk result (λ texts. path_in texts ≡ path.now) }
{
    let mut texts = Vec::new(alloc);
    for name in path {
        texts.push(name.as_str())?;
    }
    Ok(texts)
}

/// Adds the test of a header that is emitted behind others.
fn check_emit<'t>(
    found: &mut Found,
    at: u32,
    emitted: &mut IndexSet<Vec<&'t str>>,
    path: &'t [Name],
) -> Result<(), AllocError>
    ensures found { IfOk result (λ _. found.new.first ≡ first_from found.old.first
        (emit_tests (paths_in emitted.old.keys) at (path.now ∷ []))) }
    ensures emitted { IfOk result (λ _. (x : List (List ℕ)) → is_one_of (paths_in emitted.new.keys) x
        ≡ is_one_of (path.now ∷ paths_in emitted.old.keys) x) }
{
    let path = texts(found.alloc(), path)?;
    let fresh = emitted.insert(path)?;
    found.test(at, ProgramRule::NameTwice, !fresh);
    Ok(())
}

/// Adds the tests of what the statements of a deparser emit.
pub(crate) fn check_emits(found: &mut Found, scope: &Scope, body: &[Stmt]) -> Result<(), AllocError>
    ensures { IfOk result (λ _. found.new.first ≡ first_from found.old.first
        (emits_tests (scope_of scope.now) [] (stmts_of body.now))) }
{
    let mut emitted = IndexSet::new(found.alloc());
    for s in body {
        match stmt_emits(scope, s) {
            Some((at, path)) => check_emit(found, at, &mut emitted, path)?,
            None => {}
        }
    }
    Ok(())
}
