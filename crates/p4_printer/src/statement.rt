//! Statements as lexemes.

ghost use Rattle.std.specs.Prelude.{◌≡◌, List, ◌++◌, ◌∷◌, [], IfOk, map};
ghost use Rattle.std.specs.Option.{option_map};
ghost use Rattle.lex_words.specs.Seen.{key};
ghost use Rattle.lex_words.specs.declared.key.Key.TheVariants as k;
ghost use Rattle.p4_tree.specs.View.{expr_of, arg_of, stmt_of, stmts_of, else_of};
ghost use Rattle.p4_printer.specs.Layout.{written, bracketed, braced};
ghost use Rattle.p4_printer.specs.Expressions.{lexemes_of_path, lexemes_of_expr, lexemes_of_args};
ghost use Rattle.p4_printer.specs.Statements.{lexemes_of_start, lexemes_of_var, lexemes_of_stmt, lexemes_of_else, lexemes_of_stmts};

use crate::expression::{put_args, put_expr, put_path, put_type};
use crate::page::Page;
use crate::word::{put, put_name};
use lex_text::Name;
use lex_words::Key;
use p4_tree::{Arg, Expr, PTy, Stmt};
use std::alloc::{AllocError, Global};

#[tactic(auto, using(crate::proofs::Texts::texts))]
fn put_start(alloc: Global, out: &mut Page, start: &Option<Expr>) -> Result<(), AllocError>
    ensures { IfOk result (λ _. out.new ≡ written out.old (lexemes_of_start (option_map expr_of start.now))) }
{
    if let Some(e) = start {
        put(out, Key::Assign)?;
        put_expr(alloc, out, e)?;
    }
    Ok(())
}

/// Puts a variable's declaration.
#[tactic(auto, using(crate::proofs::Texts::texts))]
pub fn put_var(
    alloc: Global,
    out: &mut Page,
    ty: &PTy,
    name: &Name,
    start: &Option<Expr>,
) -> Result<(), AllocError>
    ensures { IfOk result (λ _. out.new ≡ written out.old (lexemes_of_var ty.now name.now (option_map expr_of start.now))) }
{
    put_type(alloc, out, ty)?;
    put_name(out, name)?;
    put_start(alloc, out, start)?;
    put(out, Key::Semicolon)?;
    Ok(())
}

#[tactic(auto, using(crate::proofs::Texts::texts))]
fn put_assign(alloc: Global, out: &mut Page, target: &[Name], e: &Expr) -> Result<(), AllocError>
    ensures { IfOk result (λ _. out.new ≡ written out.old (lexemes_of_path target.now ++ key k.Assign ∷ (lexemes_of_expr (expr_of e.now) ++ key k.Semicolon ∷ []))) }
{
    put_path(out, target)?;
    put(out, Key::Assign)?;
    put_expr(alloc, out, e)?;
    put(out, Key::Semicolon)?;
    Ok(())
}

#[tactic(auto, using(crate::proofs::Texts::texts))]
fn put_call(alloc: Global, out: &mut Page, callee: &[Name], args: &[Arg]) -> Result<(), AllocError>
    ensures { IfOk result (λ _. out.new ≡ written out.old (lexemes_of_path callee.now ++ key k.Open ∷ (lexemes_of_args (map arg_of args.now) ++ key k.Close ∷ key k.Semicolon ∷ []))) }
{
    put_path(out, callee)?;
    put(out, Key::Open)?;
    put_args(alloc, out, args)?;
    put(out, Key::Close)?;
    put(out, Key::Semicolon)?;
    Ok(())
}

#[tactic(auto, using(crate::proofs::Texts::texts))]
fn put_test(alloc: Global, out: &mut Page, e: &Expr) -> Result<(), AllocError>
    ensures { IfOk result (λ _. out.new ≡ written out.old (key k.If ∷ bracketed (lexemes_of_expr (expr_of e.now)))) }
{
    put(out, Key::If)?;
    put(out, Key::Open)?;
    put_expr(alloc, out, e)?;
    put(out, Key::Close)?;
    Ok(())
}

/// Puts a statement of one key.
#[tactic(auto, using(crate::proofs::Texts::texts))]
fn put_end(out: &mut Page, mark: Key) -> Result<(), AllocError>
    ensures { IfOk result (λ _. out.new ≡ written out.old (key mark ∷ key k.Semicolon ∷ [])) }
{
    put(out, mark)?;
    put(out, Key::Semicolon)?;
    Ok(())
}

/// Puts a statement.
#[tactic(auto, using(crate::proofs::Texts::texts))]
#[cycle(put_stmt)]
pub fn put_stmt(alloc: Global, out: &mut Page, s: &Stmt) -> Result<(), AllocError>
    ensures { IfOk result (λ _. out.new ≡ written out.old (lexemes_of_stmt (stmt_of s.now))) }
{
    match s {
        Stmt::Nothing(_) => put(out, Key::Semicolon)?,
        Stmt::Block(_, body) => put_block(alloc, out, body)?,
        Stmt::Var(_, ty, name, start) => put_var(alloc, out, ty, name, start)?,
        Stmt::Assign(_, target, e) => put_assign(alloc, out, target, e)?,
        Stmt::If(_, e, a, b) => {
            put_test(alloc, out, e)?;
            put_stmt(alloc, out, a)?;
            put_else(alloc, out, b)?;
        }
        Stmt::Return(_) => put_end(out, Key::Return)?,
        Stmt::Exit(_) => put_end(out, Key::Exit)?,
        Stmt::Call(_, callee, args) => put_call(alloc, out, callee, args)?,
    }
    Ok(())
}

#[tactic(auto, using(crate::proofs::Texts::texts))]
#[cycle(put_stmt)]
fn put_else(alloc: Global, out: &mut Page, other: &Option<Box<Stmt>>) -> Result<(), AllocError>
    ensures { IfOk result (λ _. out.new ≡ written out.old (lexemes_of_else (else_of other.now))) }
{
    if let Some(s) = other {
        put(out, Key::Else)?;
        put_stmt(alloc, out, s)?;
    }
    Ok(())
}

/// Puts statements in braces.
#[tactic(auto, using(crate::proofs::Texts::texts))]
#[cycle(put_stmt)]
pub fn put_block(alloc: Global, out: &mut Page, body: &[Stmt]) -> Result<(), AllocError>
    ensures { IfOk result (λ _. out.new ≡ written out.old (braced (lexemes_of_stmts (stmts_of body.now)))) }
{
    put(out, Key::BraceOpen)?;
    put_stmts(alloc, out, body)?;
    put(out, Key::BraceClose)?;
    Ok(())
}

/// Puts statements in a row.
#[tactic(auto, using(crate::proofs::Texts::texts))]
#[cycle(put_stmt)]
pub fn put_stmts(alloc: Global, out: &mut Page, list: &[Stmt]) -> Result<(), AllocError>
    ensures { IfOk result (λ _. out.new ≡ written out.old (lexemes_of_stmts (stmts_of list.now))) }
{
    for s in list {
        put_stmt(alloc, out, s)?;
    }
    Ok(())
}
