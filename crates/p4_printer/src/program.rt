//! Controls, declarations and whole programs as texts.

ghost use Rattle.std.specs.Prelude.{◌≡◌, List, ◌++◌, ◌∷◌, [], IfOk, string_bytes, map};
ghost use Rattle.lex_words.specs.Seen.{key};
ghost use Rattle.lex_words.specs.declared.key.Key.TheVariants as k;
ghost use Rattle.p4_tree.specs.View.{local_of, control_of, top_of, program_of};
ghost use Rattle.p4_printer.specs.Layout.{written, in_row, each_after, separated};
ghost use Rattle.p4_printer.specs.CanSpell.{CanSpell};
ghost use Rattle.p4_printer.specs.Printed.{IsPrinted};
ghost use Rattle.p4_printer.specs.Programs.{lexemes_of_inside, lexemes_of_includes, program_text, lexemes_of_local, lexemes_of_control, lexemes_of_field, lexemes_of_fields, lexemes_of_top, lexemes_of_part, lexemes_of_main};

use crate::declaration::{put_action, put_constant, put_register, put_typedef};
use crate::expression::put_type;
use crate::form::Form;
use crate::page::Page;
use crate::parser::{put_params, put_parser};
use crate::statement::{put_block, put_var};
use crate::table::put_table;
use crate::word::{put, put_name, put_word};
use lex_text::Name;
use lex_words::Key;
use p4_tree::{Control, Local, PTy, Program, Top};
use std::alloc::{AllocError, Global};

#[tactic(auto, using(crate::proofs::Texts::texts))]
fn put_local(alloc: Global, out: &mut Page, local: &Local) -> Result<(), AllocError>
    ensures { IfOk result (λ _. out.new ≡ written out.old (lexemes_of_local (local_of local.now))) }
{
    match local {
        Local::Act(_, action) => put_action(alloc, out, action)?,
        Local::Tab(_, table) => put_table(alloc, out, table)?,
        Local::Reg(_, register) => put_register(alloc, out, register)?,
        Local::Const(_, ty, name, e) => put_constant(alloc, out, ty, name, e)?,
        Local::Var(_, ty, name, start) => put_var(alloc, out, ty, name, start)?,
    }
    Ok(())
}

#[tactic(auto, using(crate::proofs::Texts::texts))]
fn put_locals(alloc: Global, out: &mut Page, locals: &[Local]) -> Result<(), AllocError>
    ensures { IfOk result (λ _. out.new ≡ written out.old (in_row (map lexemes_of_local (map local_of locals.now)))) }
{
    for local in locals {
        put_local(alloc, out, local)?;
    }
    Ok(())
}

/// Puts the inside of a control.
#[tactic(auto, using(crate::proofs::Texts::texts))]
fn put_inside(alloc: Global, out: &mut Page, control: &Control) -> Result<(), AllocError>
    ensures { IfOk result (λ _. out.new ≡ written out.old (lexemes_of_inside (control_of control.now).locals (control_of control.now).apply)) }
{
    put_locals(alloc, out, &control.locals)?;
    put_word(out, "apply")?;
    put_block(alloc, out, &control.apply)?;
    put(out, Key::BraceClose)?;
    Ok(())
}

#[tactic(auto, using(crate::proofs::Texts::texts))]
fn put_control(alloc: Global, out: &mut Page, control: &Control) -> Result<(), AllocError>
    ensures { IfOk result (λ _. out.new ≡ written out.old (lexemes_of_control (control_of control.now))) }
{
    put(out, Key::Control)?;
    put_name(out, &control.name)?;
    put(out, Key::Open)?;
    put_params(alloc, out, &control.params)?;
    put(out, Key::Close)?;
    put(out, Key::BraceOpen)?;
    put_inside(alloc, out, control)?;
    Ok(())
}

#[tactic(auto, using(crate::proofs::Texts::texts))]
fn put_field(alloc: Global, out: &mut Page, field: &(PTy, Name)) -> Result<(), AllocError>
    ensures { IfOk result (λ _. out.new ≡ written out.old (lexemes_of_field field.now)) }
{
    put_type(alloc, out, &field.0)?;
    put_name(out, &field.1)?;
    put(out, Key::Semicolon)?;
    Ok(())
}

#[tactic(auto, using(crate::proofs::Texts::texts))]
fn put_fields(alloc: Global, out: &mut Page, fields: &[(PTy, Name)]) -> Result<(), AllocError>
    ensures { IfOk result (λ _. out.new ≡ written out.old (in_row (map lexemes_of_field fields.now))) }
{
    for field in fields {
        put_field(alloc, out, field)?;
    }
    Ok(())
}

/// Puts a header type or a struct, as `kind` says.
#[tactic(auto, using(crate::proofs::Texts::texts))]
fn put_record(
    alloc: Global,
    out: &mut Page,
    kind: Key,
    name: &Name,
    fields: &[(PTy, Name)],
) -> Result<(), AllocError>
    ensures { IfOk result (λ _. out.new ≡ written out.old (lexemes_of_fields kind name.now fields.now)) }
{
    put(out, kind)?;
    put_name(out, name)?;
    put(out, Key::BraceOpen)?;
    put_fields(alloc, out, fields)?;
    put(out, Key::BraceClose)?;
    Ok(())
}

#[tactic(auto, using(crate::proofs::Texts::texts))]
fn put_top(alloc: Global, out: &mut Page, top: &Top) -> Result<(), AllocError>
    ensures { IfOk result (λ _. out.new ≡ written out.old (lexemes_of_top (top_of top.now))) }
{
    match top {
        Top::Const(_, ty, name, e) => put_constant(alloc, out, ty, name, e)?,
        Top::Typedef(_, ty, name) => put_typedef(alloc, out, ty, name)?,
        Top::Header(_, name, fields) => put_record(alloc, out, Key::Header, name, fields)?,
        Top::Struct(_, name, fields) => put_record(alloc, out, Key::Struct, name, fields)?,
        Top::Reg(_, register) => put_register(alloc, out, register)?,
        Top::Pars(_, parser) => put_parser(alloc, out, parser)?,
        Top::Ctl(_, control) => put_control(alloc, out, control)?,
    }
    Ok(())
}

#[tactic(auto, using(crate::proofs::Texts::texts))]
fn put_tops(alloc: Global, out: &mut Page, tops: &[Top]) -> Result<(), AllocError>
    ensures { IfOk result (λ _. out.new ≡ written out.old (in_row (map lexemes_of_top (map top_of tops.now)))) }
{
    for top in tops {
        put_top(alloc, out, top)?;
    }
    Ok(())
}

/// Puts a parser or control that `main` names.
#[tactic(auto, using(crate::proofs::Texts::texts))]
fn put_part(out: &mut Page, name: &Name) -> Result<(), AllocError>
    ensures { IfOk result (λ _. out.new ≡ written out.old (lexemes_of_part name.now)) }
{
    put_name(out, name)?;
    put(out, Key::Open)?;
    put(out, Key::Close)?;
    Ok(())
}

#[tactic(auto, using(crate::proofs::Texts::texts))]
fn put_more_parts(out: &mut Page, names: &[Name]) -> Result<(), AllocError>
    ensures { IfOk result (λ _. out.new ≡ written out.old (each_after (key k.Comma) (map lexemes_of_part names.now))) }
{
    for name in names {
        put(out, Key::Comma)?;
        put_part(out, name)?;
    }
    Ok(())
}

/// Puts what `main` names, with commas between.
#[tactic(auto, using(crate::proofs::Texts::texts))]
fn put_parts(out: &mut Page, names: &[Name]) -> Result<(), AllocError>
    ensures { IfOk result (λ _. out.new ≡ written out.old (separated (key k.Comma) (map lexemes_of_part names.now))) }
{
    if let [first, rest @ ..] = names {
        put_part(out, first)?;
        put_more_parts(out, rest)?;
    }
    Ok(())
}

#[tactic(auto, using(crate::proofs::Texts::texts))]
fn put_main(out: &mut Page, names: &[Name]) -> Result<(), AllocError>
    ensures { IfOk result (λ _. out.new ≡ written out.old (lexemes_of_main names.now)) }
{
    put(out, Key::V1Switch)?;
    put(out, Key::Open)?;
    put_parts(out, names)?;
    put(out, Key::Close)?;
    put_word(out, "main")?;
    put(out, Key::Semicolon)?;
    Ok(())
}

/// Puts the two lines that begin a program.
#[tactic(auto, using(crate::proofs::Texts::texts), unfolding(crate::specs::Layout::written))]
fn put_includes(out: &mut Page) -> Result<(), AllocError>
    ensures { IfOk result (λ _. out.new ≡ written out.old lexemes_of_includes) }
{
    out.put(Form::Include, "#include <core.p4>")?;
    out.put(Form::Include, "#include <v1model.p4>")?;
    Ok(())
}

#[tactic(auto, using(crate::proofs::Texts::texts))]
fn text_of(alloc: Global, p: &Program) -> Result<String, AllocError>
    ensures { IfOk result (λ text. string_bytes text ≡ program_text (program_of p.now)) }
{
    let mut out = Page::new(alloc);
    put_includes(&mut out)?;
    put_tops(alloc, &mut out, &p.tops)?;
    put_main(&mut out, &p.main)?;
    Ok(out.end()?)
}

/// The text of a program, whose tokens spell the same program but for places.
pub fn print_program(alloc: Global, p: &Program) -> Result<String, AllocError>
    requires { CanSpell (program_of p.now) }
    ensures says { IfOk result (λ text. IsPrinted (program_of p.now) (string_bytes text)) }
    // it does not rest on places
    ensures text { IfOk result (λ text. string_bytes text ≡ program_text (program_of p.now)) }
{
    let text = text_of(alloc, p)?;
    Ok(text)
}
