//! Tables as lexemes.

ghost use Rattle.std.specs.Prelude.{◌≡◌, List, ◌++◌, ◌∷◌, [], IfOk, map};
ghost use Rattle.std.specs.Option.{option_map};
ghost use Rattle.p4_tree.specs.View.{expr_of, key_of, default_of, table_of};
ghost use Rattle.p4_printer.specs.Layout.{written, in_row};
ghost use Rattle.p4_printer.specs.Programs.{lexemes_of_key_list, lexemes_of_action_list, lexemes_of_key, lexemes_of_listed, lexemes_of_size, lexemes_of_fixed, lexemes_of_given, lexemes_of_default, lexemes_of_properties, lexemes_of_table};

use crate::expression::{put_expr, put_exprs};
use crate::page::Page;
use crate::word::{put, put_decimal, put_name, put_word};
use lex_text::Name;
use lex_words::Key;
use p4_tree::{Expr, Table};
use std::alloc::{AllocError, Global};

#[tactic(auto, using(crate::proofs::Texts::texts))]
fn put_key(alloc: Global, out: &mut Page, key: &(Expr, Name)) -> Result<(), AllocError>
    ensures { IfOk result (λ _. out.new ≡ written out.old (lexemes_of_key (key_of key.now))) }
{
    put_expr(alloc, out, &key.0)?;
    put(out, Key::Colon)?;
    put_name(out, &key.1)?;
    put(out, Key::Semicolon)?;
    Ok(())
}

#[tactic(auto, using(crate::proofs::Texts::texts))]
fn put_key_row(alloc: Global, out: &mut Page, keys: &[(Expr, Name)]) -> Result<(), AllocError>
    ensures { IfOk result (λ _. out.new ≡ written out.old (in_row (map lexemes_of_key (map key_of keys.now)))) }
{
    for key in keys {
        put_key(alloc, out, key)?;
    }
    Ok(())
}

#[tactic(auto, using(crate::proofs::Texts::texts))]
fn put_keys(alloc: Global, out: &mut Page, keys: &[(Expr, Name)]) -> Result<(), AllocError>
    ensures { IfOk result (λ _. out.new ≡ written out.old (lexemes_of_key_list (map key_of keys.now))) }
{
    put_word(out, "key")?;
    put(out, Key::Assign)?;
    put(out, Key::BraceOpen)?;
    put_key_row(alloc, out, keys)?;
    put(out, Key::BraceClose)?;
    Ok(())
}

#[tactic(auto, using(crate::proofs::Texts::texts))]
fn put_listed(out: &mut Page, action: &Name) -> Result<(), AllocError>
    ensures { IfOk result (λ _. out.new ≡ written out.old (lexemes_of_listed action.now)) }
{
    put_name(out, action)?;
    put(out, Key::Semicolon)?;
    Ok(())
}

#[tactic(auto, using(crate::proofs::Texts::texts))]
fn put_action_row(out: &mut Page, actions: &[Name]) -> Result<(), AllocError>
    ensures { IfOk result (λ _. out.new ≡ written out.old (in_row (map lexemes_of_listed actions.now))) }
{
    for action in actions {
        put_listed(out, action)?;
    }
    Ok(())
}

#[tactic(auto, using(crate::proofs::Texts::texts))]
fn put_actions(out: &mut Page, actions: &[Name]) -> Result<(), AllocError>
    ensures { IfOk result (λ _. out.new ≡ written out.old (lexemes_of_action_list actions.now)) }
{
    put_word(out, "actions")?;
    put(out, Key::Assign)?;
    put(out, Key::BraceOpen)?;
    put_action_row(out, actions)?;
    put(out, Key::BraceClose)?;
    Ok(())
}

#[tactic(auto, using(crate::proofs::Texts::texts))]
fn put_size(alloc: Global, out: &mut Page, size: Option<u128>) -> Result<(), AllocError>
    ensures { IfOk result (λ _. out.new ≡ written out.old (lexemes_of_size size)) }
{
    if let Some(count) = size {
        put_word(out, "size")?;
        put(out, Key::Assign)?;
        put_decimal(alloc, out, count)?;
        put(out, Key::Semicolon)?;
    }
    Ok(())
}

#[tactic(auto, using(crate::proofs::Texts::texts))]
fn put_fixed(out: &mut Page, fixed: bool) -> Result<(), AllocError>
    ensures { IfOk result (λ _. out.new ≡ written out.old (lexemes_of_fixed fixed)) }
{
    if fixed {
        put(out, Key::Const)?;
    }
    Ok(())
}

#[tactic(auto, using(crate::proofs::Texts::texts))]
fn put_given(alloc: Global, out: &mut Page, given: &(Name, Vec<Expr>)) -> Result<(), AllocError>
    ensures { IfOk result (λ _. out.new ≡ written out.old (lexemes_of_given (default_of given.now))) }
{
    put_name(out, &given.0)?;
    put(out, Key::Open)?;
    put_exprs(alloc, out, &given.1)?;
    put(out, Key::Close)?;
    put(out, Key::Semicolon)?;
    Ok(())
}

#[tactic(auto, using(crate::proofs::Texts::texts))]
fn put_default(
    alloc: Global,
    out: &mut Page,
    fixed: bool,
    default: &Option<(Name, Vec<Expr>)>,
) -> Result<(), AllocError>
    ensures { IfOk result (λ _. out.new ≡ written out.old (lexemes_of_default fixed (option_map default_of default.now))) }
{
    if let Some(given) = default {
        put_fixed(out, fixed)?;
        put_word(out, "default_action")?;
        put(out, Key::Assign)?;
        put_given(alloc, out, given)?;
    }
    Ok(())
}

#[tactic(auto, using(crate::proofs::Texts::texts))]
fn put_properties(alloc: Global, out: &mut Page, table: &Table) -> Result<(), AllocError>
    ensures { IfOk result (λ _. out.new ≡ written out.old (lexemes_of_properties (table_of table.now))) }
{
    put_keys(alloc, out, &table.keys)?;
    put_actions(out, &table.actions)?;
    put_size(alloc, out, table.size)?;
    put_default(alloc, out, table.fixed, &table.default)?;
    Ok(())
}

/// Puts a table.
#[tactic(auto, using(crate::proofs::Texts::texts))]
pub fn put_table(alloc: Global, out: &mut Page, table: &Table) -> Result<(), AllocError>
    ensures { IfOk result (λ _. out.new ≡ written out.old (lexemes_of_table (table_of table.now))) }
{
    put(out, Key::Table)?;
    put_name(out, &table.name)?;
    put(out, Key::BraceOpen)?;
    put_properties(alloc, out, table)?;
    put(out, Key::BraceClose)?;
    Ok(())
}
