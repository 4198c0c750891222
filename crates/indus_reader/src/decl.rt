//! Reading declarations.

ghost use Rattle.std.specs.Prelude.{◌≡◌, ◌+◌, ◌≤◌, length, map, []};
ghost use Rattle.std.specs.Option.{option_map};
ghost use Rattle.lex_words.specs.Moving.{Moves, Stays};
ghost use Rattle.indus_tree.specs.View.{decl_of, expr_of, shape_of};
ghost use Rattle.indus_reader.specs.Declaring.{call_at, control_at, decl_at, decls_at, header_at, is_decl, path_at, path_of, sensor_at, start_at, tele_at, value_at};

use crate::found::FoundPath;
use crate::types::{held, shape, type_of};
use indus_tree::{Decl, DeclKind, Expr, Shape};
use lex_words::{Cursor, Halt, Key};
use std::alloc::Global;

/// A number or a truth value.
#[tactic(auto, unfolding(crate::specs::Declaring::value_at))]
fn value(tokens: &mut Cursor) -> Result<Expr, Halt>
    ensures { Moves expr_of value_at tokens.old result tokens.new }
{
    let at = tokens.at();
    if tokens.eat(Key::True) {
        Ok(Expr::Flag(at, true))
    } else if tokens.eat(Key::False) {
        Ok(Expr::Flag(at, false))
    } else {
        Ok(Expr::Num(at, tokens.number()?))
    }
}

/// An initial value, where there is one.
#[tactic(auto, unfolding(crate::specs::Declaring::start_at))]
fn start(tokens: &mut Cursor) -> Result<Option<Expr>, Halt>
    ensures { Stays (λ x. option_map expr_of x) start_at tokens.old result tokens.new }
{
    if tokens.eat(Key::Assign) {
        Ok(Some(value(tokens)?))
    } else {
        Ok(None)
    }
}

/// Whether a call stands here.
#[tactic(auto, unfolding(crate::specs::Declaring::call_at))]
fn call(tokens: &mut Cursor) -> Result<bool, Halt>
    ensures { Stays (λ x. x) call_at tokens.old result tokens.new }
{
    if tokens.eat(Key::Open) {
        tokens.expect(Key::Close)?;
        Ok(true)
    } else {
        Ok(false)
    }
}

/// A path.
#[tactic(auto, unfolding(crate::specs::Declaring::path_at, crate::specs::Declaring::path_behind))]
fn path(alloc: Global, tokens: &mut Cursor) -> Result<FoundPath, Halt>
    ensures { Moves path_of path_at tokens.old result tokens.new }
{
    let first = tokens.name(alloc)?;
    tokens.expect(Key::Dot)?;
    let second = tokens.name(alloc)?;
    let mut names = Vec::new(alloc);
    names.push(first)?;
    names.push(second)?;
    if tokens.eat(Key::Dot) {
        let third = tokens.name(alloc)?;
        names.push(third)?;
        let valid = call(tokens)?;
        Ok(FoundPath { names, valid })
    } else {
        Ok(FoundPath {
            names,
            valid: false,
        })
    }
}

/// A tele variable.
#[tactic(auto, unfolding(crate::specs::Declaring::tele_at))]
fn tele(alloc: Global, tokens: &mut Cursor) -> Result<Decl, Halt>
    ensures { Moves decl_of tele_at tokens.old result tokens.new }
{
    let at = tokens.at();
    tokens.expect(Key::Tele)?;
    let shape = shape(tokens)?;
    let name = tokens.name(alloc)?;
    tokens.expect(Key::Semicolon)?;
    Ok(Decl {
        at,
        kind: DeclKind::Tele,
        name,
        shape,
        start: None,
        path: Vec::new(alloc),
        valid: false,
    })
}

/// A sensor variable.
#[tactic(auto, unfolding(crate::specs::Declaring::sensor_at))]
fn sensor(alloc: Global, tokens: &mut Cursor) -> Result<Decl, Halt>
    ensures { Moves decl_of sensor_at tokens.old result tokens.new }
{
    let at = tokens.at();
    tokens.expect(Key::Sensor)?;
    let shape = shape(tokens)?;
    let name = tokens.name(alloc)?;
    let start = start(tokens)?;
    tokens.expect(Key::Semicolon)?;
    Ok(Decl {
        at,
        kind: DeclKind::Sensor,
        name,
        shape,
        start,
        path: Vec::new(alloc),
        valid: false,
    })
}

/// A header variable.
#[tactic(auto, unfolding(crate::specs::Declaring::header_at))]
fn header(alloc: Global, tokens: &mut Cursor) -> Result<Decl, Halt>
    ensures { Moves decl_of header_at tokens.old result tokens.new }
{
    let at = tokens.at();
    tokens.expect(Key::Header)?;
    let item = type_of(tokens)?;
    let name = tokens.name(alloc)?;
    tokens.expect(Key::Assign)?;
    let found = path(alloc, tokens)?;
    tokens.expect(Key::Semicolon)?;
    Ok(Decl {
        at,
        kind: DeclKind::Header,
        name,
        shape: Shape::One(item),
        start: None,
        path: found.names,
        valid: found.valid,
    })
}

/// A control variable.
#[tactic(auto, unfolding(crate::specs::Declaring::control_at))]
fn control(alloc: Global, tokens: &mut Cursor) -> Result<Decl, Halt>
    ensures { Moves decl_of control_at tokens.old result tokens.new }
{
    let at = tokens.at();
    tokens.expect(Key::Control)?;
    let shape = held(alloc, tokens)?;
    let name = tokens.name(alloc)?;
    tokens.expect(Key::Semicolon)?;
    Ok(Decl {
        at,
        kind: DeclKind::Control,
        name,
        shape,
        start: None,
        path: Vec::new(alloc),
        valid: false,
    })
}

/// A declaration.
#[tactic(auto, unfolding(crate::specs::Declaring::decl_at))]
fn declaration(alloc: Global, tokens: &mut Cursor) -> Result<Decl, Halt>
    ensures { Moves decl_of decl_at tokens.old result tokens.new }
{
    if tokens.is(Key::Tele) {
        tele(alloc, tokens)
    } else if tokens.is(Key::Sensor) {
        sensor(alloc, tokens)
    } else if tokens.is(Key::Header) {
        header(alloc, tokens)
    } else {
        control(alloc, tokens)
    }
}

/// Whether a declaration begins here.
#[tactic(auto, unfolding(crate::specs::Declaring::is_decl))]
fn begins(tokens: &Cursor) -> bool
    ensures value { result ≡ is_decl tokens.now.lexemes (length tokens.now.lexemes + 1) tokens.now.at }
    ensures inside { tokens.now.at ≤ length tokens.now.lexemes }
{
    tokens.is(Key::Tele)
        || tokens.is(Key::Sensor)
        || tokens.is(Key::Header)
        || tokens.is(Key::Control)
}

/// As many declarations as stand here.
pub fn declarations(alloc: Global, tokens: &mut Cursor) -> Result<Vec<Decl>, Halt>
    ensures { Stays (λ x. map decl_of x.items) (λ ws n. decls_at ws n n []) tokens.old result tokens.new }
{
    let mut decls = Vec::new(alloc);
    'items: while begins(tokens) {
        decls.push(declaration(alloc, tokens)?)?;
    }
    Ok(decls)
}
