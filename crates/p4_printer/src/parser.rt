//! Parsers as lexemes.

ghost use Rattle.std.specs.Prelude.{◌≡◌, List, ◌++◌, ◌∷◌, [], IfOk, map};
ghost use Rattle.lex_words.specs.Seen.{key};
ghost use Rattle.lex_words.specs.declared.key.Key.TheVariants as k;
ghost use Rattle.p4_tree.specs.View.{expr_of, keyset_of, case_of, transition_of, state_of, parser_of};
ghost use Rattle.p4_printer.specs.Layout.{written, in_row, each_after, separated, bracketed};
ghost use Rattle.p4_printer.specs.Expressions.{lexemes_of_expr, lexemes_of_exprs};
ghost use Rattle.p4_printer.specs.Programs.{lexemes_of_way, lexemes_of_param, lexemes_of_params, lexemes_of_keyset, lexemes_of_keys, lexemes_of_case, lexemes_of_next, lexemes_of_select, lexemes_of_transition, lexemes_of_state, lexemes_of_parser};

use crate::expression::{put_expr, put_exprs, put_type};
use crate::page::Page;
use crate::statement::put_stmts;
use crate::word::{put, put_name};
use lex_text::Name;
use lex_words::Key;
use p4_tree::{Expr, Keyset, Param, Parser, ParserState, Transition, Way};
use std::alloc::{AllocError, Global};

#[tactic(auto, using(crate::proofs::Texts::texts))]
fn put_way(out: &mut Page, way: Way) -> Result<(), AllocError>
    ensures { IfOk result (λ _. out.new ≡ written out.old (lexemes_of_way way)) }
{
    match way {
        Way::Plain => {}
        Way::Into => put(out, Key::In)?,
        Way::Out => put(out, Key::Out)?,
        Way::Both => put(out, Key::Inout)?,
    }
    Ok(())
}

#[tactic(auto, using(crate::proofs::Texts::texts))]
fn put_param(alloc: Global, out: &mut Page, param: &Param) -> Result<(), AllocError>
    ensures { IfOk result (λ _. out.new ≡ written out.old (lexemes_of_param param.now)) }
{
    put_way(out, param.way)?;
    put_type(alloc, out, &param.ty)?;
    put_name(out, &param.name)?;
    Ok(())
}

#[tactic(auto, using(crate::proofs::Texts::texts))]
fn put_more_params(alloc: Global, out: &mut Page, params: &[Param]) -> Result<(), AllocError>
    ensures { IfOk result (λ _. out.new ≡ written out.old (each_after (key k.Comma) (map lexemes_of_param params.now))) }
{
    for param in params {
        put(out, Key::Comma)?;
        put_param(alloc, out, param)?;
    }
    Ok(())
}

/// Puts parameters with commas between.
#[tactic(auto, using(crate::proofs::Texts::texts))]
pub fn put_params(alloc: Global, out: &mut Page, params: &[Param]) -> Result<(), AllocError>
    ensures { IfOk result (λ _. out.new ≡ written out.old (lexemes_of_params params.now)) }
{
    if let [first, rest @ ..] = params {
        put_param(alloc, out, first)?;
        put_more_params(alloc, out, rest)?;
    }
    Ok(())
}

#[tactic(auto, using(crate::proofs::Texts::texts))]
fn put_masked(alloc: Global, out: &mut Page, e: &Expr, mask: &Expr) -> Result<(), AllocError>
    ensures { IfOk result (λ _. out.new ≡ written out.old (lexemes_of_expr (expr_of e.now) ++ key k.Mask ∷ lexemes_of_expr (expr_of mask.now))) }
{
    put_expr(alloc, out, e)?;
    put(out, Key::Mask)?;
    put_expr(alloc, out, mask)?;
    Ok(())
}

#[tactic(auto, using(crate::proofs::Texts::texts))]
fn put_keyset(alloc: Global, out: &mut Page, key: &Keyset) -> Result<(), AllocError>
    ensures { IfOk result (λ _. out.new ≡ written out.old (lexemes_of_keyset (keyset_of key.now))) }
{
    match key {
        Keyset::Any(_) => put(out, Key::Default)?,
        Keyset::One(_, e) => put_expr(alloc, out, e)?,
        Keyset::Masked(_, e, mask) => put_masked(alloc, out, e, mask)?,
    }
    Ok(())
}

#[tactic(auto, using(crate::proofs::Texts::texts))]
fn put_more_keysets(alloc: Global, out: &mut Page, keys: &[Keyset]) -> Result<(), AllocError>
    ensures { IfOk result (λ _. out.new ≡ written out.old (each_after (key k.Comma) (map lexemes_of_keyset (map keyset_of keys.now)))) }
{
    for key in keys {
        put(out, Key::Comma)?;
        put_keyset(alloc, out, key)?;
    }
    Ok(())
}

/// Puts keys with commas between.
#[tactic(auto, using(crate::proofs::Texts::texts))]
fn put_keysets(alloc: Global, out: &mut Page, keys: &[Keyset]) -> Result<(), AllocError>
    ensures { IfOk result (λ _. out.new ≡ written out.old (separated (key k.Comma) (map lexemes_of_keyset (map keyset_of keys.now)))) }
{
    if let [first, rest @ ..] = keys {
        put_keyset(alloc, out, first)?;
        put_more_keysets(alloc, out, rest)?;
    }
    Ok(())
}

#[tactic(auto, using(crate::proofs::Texts::texts))]
fn put_several(alloc: Global, out: &mut Page, keys: &[Keyset]) -> Result<(), AllocError>
    ensures { IfOk result (λ _. out.new ≡ written out.old (bracketed (separated (key k.Comma) (map lexemes_of_keyset (map keyset_of keys.now))))) }
{
    put(out, Key::Open)?;
    put_keysets(alloc, out, keys)?;
    put(out, Key::Close)?;
    Ok(())
}

#[tactic(auto, using(crate::proofs::Keys::keys))]
fn put_keys(alloc: Global, out: &mut Page, keys: &[Keyset]) -> Result<(), AllocError>
    ensures { IfOk result (λ _. out.new ≡ written out.old (lexemes_of_keys (map keyset_of keys.now))) }
{
    if keys.len() == 1 {
        put_keysets(alloc, out, keys)?;
    } else {
        put_several(alloc, out, keys)?;
    }
    Ok(())
}

#[tactic(auto, using(crate::proofs::Texts::texts))]
fn put_case(alloc: Global, out: &mut Page, case: &(Vec<Keyset>, Name)) -> Result<(), AllocError>
    ensures { IfOk result (λ _. out.new ≡ written out.old (lexemes_of_case (case_of case.now))) }
{
    put_keys(alloc, out, &case.0)?;
    put(out, Key::Colon)?;
    put_name(out, &case.1)?;
    put(out, Key::Semicolon)?;
    Ok(())
}

#[tactic(auto, using(crate::proofs::Texts::texts))]
fn put_cases(alloc: Global, out: &mut Page, cases: &[(Vec<Keyset>, Name)]) -> Result<(), AllocError>
    ensures { IfOk result (λ _. out.new ≡ written out.old (in_row (map lexemes_of_case (map case_of cases.now)))) }
{
    for case in cases {
        put_case(alloc, out, case)?;
    }
    Ok(())
}

/// Puts the head of a `select`.
#[tactic(auto, using(crate::proofs::Texts::texts))]
fn put_values(alloc: Global, out: &mut Page, list: &[Expr]) -> Result<(), AllocError>
    ensures { IfOk result (λ _. out.new ≡ written out.old (key k.Transition ∷ key k.Select ∷ bracketed (lexemes_of_exprs (map expr_of list.now)))) }
{
    put(out, Key::Transition)?;
    put(out, Key::Select)?;
    put(out, Key::Open)?;
    put_exprs(alloc, out, list)?;
    put(out, Key::Close)?;
    Ok(())
}

#[tactic(auto, using(crate::proofs::Texts::texts))]
fn put_next(out: &mut Page, name: &Name) -> Result<(), AllocError>
    ensures { IfOk result (λ _. out.new ≡ written out.old (lexemes_of_next name.now)) }
{
    put(out, Key::Transition)?;
    put_name(out, name)?;
    put(out, Key::Semicolon)?;
    Ok(())
}

#[tactic(auto, using(crate::proofs::Texts::texts))]
fn put_select(
    alloc: Global,
    out: &mut Page,
    list: &[Expr],
    cases: &[(Vec<Keyset>, Name)],
) -> Result<(), AllocError>
    ensures { IfOk result (λ _. out.new ≡ written out.old (lexemes_of_select (map expr_of list.now) (map case_of cases.now))) }
{
    put_values(alloc, out, list)?;
    put(out, Key::BraceOpen)?;
    put_cases(alloc, out, cases)?;
    put(out, Key::BraceClose)?;
    Ok(())
}

#[tactic(auto, using(crate::proofs::Texts::texts))]
fn put_transition(alloc: Global, out: &mut Page, next: &Transition) -> Result<(), AllocError>
    ensures { IfOk result (λ _. out.new ≡ written out.old (lexemes_of_transition (transition_of next.now))) }
{
    match next {
        Transition::None(_) => {}
        Transition::To(_, name) => put_next(out, name)?,
        Transition::Select(_, list, cases) => put_select(alloc, out, list, cases)?,
    }
    Ok(())
}

#[tactic(auto, using(crate::proofs::Texts::texts))]
fn put_state(alloc: Global, out: &mut Page, state: &ParserState) -> Result<(), AllocError>
    ensures { IfOk result (λ _. out.new ≡ written out.old (lexemes_of_state (state_of state.now))) }
{
    put(out, Key::State)?;
    put_name(out, &state.name)?;
    put(out, Key::BraceOpen)?;
    put_stmts(alloc, out, &state.body)?;
    put_transition(alloc, out, &state.next)?;
    put(out, Key::BraceClose)?;
    Ok(())
}

#[tactic(auto, using(crate::proofs::Texts::texts))]
fn put_states(alloc: Global, out: &mut Page, states: &[ParserState]) -> Result<(), AllocError>
    ensures { IfOk result (λ _. out.new ≡ written out.old (in_row (map lexemes_of_state (map state_of states.now)))) }
{
    for state in states {
        put_state(alloc, out, state)?;
    }
    Ok(())
}

/// Puts a parser.
#[tactic(auto, using(crate::proofs::Texts::texts))]
pub fn put_parser(alloc: Global, out: &mut Page, parser: &Parser) -> Result<(), AllocError>
    ensures { IfOk result (λ _. out.new ≡ written out.old (lexemes_of_parser (parser_of parser.now))) }
{
    put(out, Key::Parser)?;
    put_name(out, &parser.name)?;
    put(out, Key::Open)?;
    put_params(alloc, out, &parser.params)?;
    put(out, Key::Close)?;
    put(out, Key::BraceOpen)?;
    put_states(alloc, out, &parser.states)?;
    put(out, Key::BraceClose)?;
    Ok(())
}
