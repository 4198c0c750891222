//! Constants, typedefs, registers and actions as lexemes.

ghost use Rattle.std.specs.Prelude.{◌≡◌, List, ◌++◌, ◌∷◌, [], IfOk, map};
ghost use Rattle.lex_words.specs.Seen.{number, key};
ghost use Rattle.lex_words.specs.declared.key.Key.TheVariants as k;
ghost use Rattle.p4_tree.specs.View.{expr_of, action_of};
ghost use Rattle.p4_printer.specs.Layout.{written, bare, each_after, bracketed};
ghost use Rattle.p4_printer.specs.Expressions.{lexemes_of_type};
ghost use Rattle.p4_printer.specs.Programs.{lexemes_of_typedef, lexemes_of_register, lexemes_of_constant, lexemes_of_action_param, lexemes_of_action_params, lexemes_of_action};

use crate::expression::{put_expr, put_type};
use crate::page::Page;
use crate::statement::put_block;
use crate::word::{put, put_decimal, put_name};
use lex_text::Name;
use lex_words::Key;
use p4_tree::{Action, Expr, PTy, Register};
use std::alloc::{AllocError, Global};

/// Puts a constant.
#[tactic(auto, using(crate::proofs::Texts::texts))]
pub fn put_constant(
    alloc: Global,
    out: &mut Page,
    ty: &PTy,
    name: &Name,
    e: &Expr,
) -> Result<(), AllocError>
    ensures { IfOk result (λ _. out.new ≡ written out.old (lexemes_of_constant ty.now name.now (expr_of e.now))) }
{
    put(out, Key::Const)?;
    put_type(alloc, out, ty)?;
    put_name(out, name)?;
    put(out, Key::Assign)?;
    put_expr(alloc, out, e)?;
    put(out, Key::Semicolon)?;
    Ok(())
}

/// Puts a typedef.
#[tactic(auto, using(crate::proofs::Texts::texts))]
pub fn put_typedef(alloc: Global, out: &mut Page, ty: &PTy, name: &Name) -> Result<(), AllocError>
    ensures { IfOk result (λ _. out.new ≡ written out.old (lexemes_of_typedef ty.now name.now)) }
{
    put(out, Key::Typedef)?;
    put_type(alloc, out, ty)?;
    put_name(out, name)?;
    put(out, Key::Semicolon)?;
    Ok(())
}

/// Puts the end of a register's type, and its count.
#[tactic(auto, using(crate::proofs::Texts::texts))]
fn put_count(alloc: Global, out: &mut Page, count: u128) -> Result<(), AllocError>
    ensures { IfOk result (λ _. out.new ≡ written out.old (key k.More ∷ key k.Open ∷ number (bare count) ∷ key k.Close ∷ [])) }
{
    put(out, Key::More)?;
    put(out, Key::Open)?;
    put_decimal(alloc, out, count)?;
    put(out, Key::Close)?;
    Ok(())
}

/// Puts a register.
#[tactic(auto, using(crate::proofs::Texts::texts))]
pub fn put_register(alloc: Global, out: &mut Page, register: &Register) -> Result<(), AllocError>
    ensures { IfOk result (λ _. out.new ≡ written out.old (lexemes_of_register register.now)) }
{
    put(out, Key::Register)?;
    put(out, Key::Less)?;
    put_type(alloc, out, &register.ty)?;
    put_count(alloc, out, register.count)?;
    put_name(out, &register.name)?;
    put(out, Key::Semicolon)?;
    Ok(())
}

#[tactic(auto, using(crate::proofs::Texts::texts))]
fn put_param(alloc: Global, out: &mut Page, param: &(PTy, Name)) -> Result<(), AllocError>
    ensures { IfOk result (λ _. out.new ≡ written out.old (lexemes_of_action_param param.now)) }
{
    put_type(alloc, out, &param.0)?;
    put_name(out, &param.1)?;
    Ok(())
}

#[tactic(auto, using(crate::proofs::Texts::texts))]
fn put_more_params(alloc: Global, out: &mut Page, params: &[(PTy, Name)]) -> Result<(), AllocError>
    ensures { IfOk result (λ _. out.new ≡ written out.old (each_after (key k.Comma) (map lexemes_of_action_param params.now))) }
{
    for param in params {
        put(out, Key::Comma)?;
        put_param(alloc, out, param)?;
    }
    Ok(())
}

#[tactic(auto, using(crate::proofs::Texts::texts))]
fn put_params(alloc: Global, out: &mut Page, params: &[(PTy, Name)]) -> Result<(), AllocError>
    ensures { IfOk result (λ _. out.new ≡ written out.old (lexemes_of_action_params params.now)) }
{
    if let [first, rest @ ..] = params {
        put_param(alloc, out, first)?;
        put_more_params(alloc, out, rest)?;
    }
    Ok(())
}

#[tactic(auto, using(crate::proofs::Texts::texts))]
fn put_signature(alloc: Global, out: &mut Page, params: &[(PTy, Name)]) -> Result<(), AllocError>
    ensures { IfOk result (λ _. out.new ≡ written out.old (bracketed (lexemes_of_action_params params.now))) }
{
    put(out, Key::Open)?;
    put_params(alloc, out, params)?;
    put(out, Key::Close)?;
    Ok(())
}

/// Puts an action.
#[tactic(auto, using(crate::proofs::Texts::texts))]
pub fn put_action(alloc: Global, out: &mut Page, action: &Action) -> Result<(), AllocError>
    ensures { IfOk result (λ _. out.new ≡ written out.old (lexemes_of_action (action_of action.now))) }
{
    put(out, Key::Action)?;
    put_name(out, &action.name)?;
    put_signature(alloc, out, &action.params)?;
    put_block(alloc, out, &action.body)?;
    Ok(())
}
