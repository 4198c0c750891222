//! Reading types, variables, constants and lists of expressions.

ghost use Rattle.std.specs.Prelude.{◌≡◌, ◌+◌, ◌≤◌, ◌<◌, length, map, slice_get};
ghost use Rattle.std.specs.Option.{option_map};
ghost use Rattle.lex_words.specs.Moving.{Moves, Stays};
ghost use Rattle.p4_tree.specs.View.{expr_of};
ghost use Rattle.p4_expressions.specs.Reading.{is_scalar};
ghost use Rattle.p4_reader.specs.Declaring.{const_at, exprs_at, exprs_from, start_at, type_at, value_at, var_at, var_from};
ghost use Rattle.p4_reader.specs.Reading.{constant_of, variable_of};

use crate::found::{FoundConstant, FoundVariable};
use lex_words::{Cursor, Halt, Key};
use p4_expressions::{expr, scalar};
use p4_tree::{Expr, PTy};
use std::alloc::Global;

/// Whether a type of numbers or of truth values begins here.
pub fn at_scalar(tokens: &Cursor) -> bool
    ensures value { result ≡ is_scalar (slice_get tokens.now.lexemes tokens.now.at) }
    ensures inside { tokens.now.at ≤ length tokens.now.lexemes }
{
    tokens.is(Key::Bit) || tokens.is(Key::Bool)
}

/// A type.
#[tactic(auto, unfolding(crate::specs::Declaring::type_at))]
pub fn type_of(alloc: Global, tokens: &mut Cursor) -> Result<PTy, Halt>
    ensures { Moves (λ x. x) type_at tokens.old result tokens.new }
{
    if at_scalar(tokens) {
        scalar(tokens)
    } else {
        Ok(PTy::Named(tokens.name(alloc)?))
    }
}

/// Expressions behind a first one, with a comma before each.
fn more_expressions(
    alloc: Global,
    tokens: &mut Cursor,
    first: Expr,
    height: u16,
    brackets: u16,
) -> Result<Vec<Expr>, Halt>
    requires { height ≤ 256 }
    ensures { Stays (λ x. map expr_of x.items) (λ ws n. exprs_from ws n brackets height (expr_of first)) tokens.old result tokens.new }
{
    let mut list = Vec::new(alloc);
    list.push(first)?;
    'items: while tokens.eat(Key::Comma) {
        let found = expr(alloc, tokens, 11, height, brackets)?;
        list.push(found.tree)?;
    }
    Ok(list)
}

/// Expressions with commas between them, each at most so high, with at most so many more round
/// brackets open.
#[tactic(auto, unfolding(crate::specs::Declaring::exprs_at))]
pub fn expressions(
    alloc: Global,
    tokens: &mut Cursor,
    height: u16,
    brackets: u16,
) -> Result<Vec<Expr>, Halt>
    requires { height ≤ 256 }
    ensures { Moves (λ x. map expr_of x.items) (λ ws n. exprs_at ws n brackets height) tokens.old result tokens.new }
{
    let first = expr(alloc, tokens, 11, height, brackets)?;
    more_expressions(alloc, tokens, first.tree, height, brackets)
}

/// `=` and an expression.
#[tactic(auto, unfolding(crate::specs::Declaring::value_at))]
pub fn value(alloc: Global, tokens: &mut Cursor, height: u16) -> Result<Expr, Halt>
    requires { height ≤ 256 }
    ensures { Moves expr_of (λ ws n. value_at ws n 256 height) tokens.old result tokens.new }
{
    tokens.expect(Key::Assign)?;
    let found = expr(alloc, tokens, 11, height, 256)?;
    Ok(found.tree)
}

/// The first value of a variable, where there is one.
#[tactic(auto, unfolding(crate::specs::Declaring::start_at))]
fn start(alloc: Global, tokens: &mut Cursor, height: u16) -> Result<Option<Expr>, Halt>
    requires { height ≤ 256 }
    ensures { Stays (λ x. option_map expr_of x) (λ ws n. start_at ws n 256 height) tokens.old result tokens.new }
{
    if tokens.is(Key::Assign) {
        tokens.room(height, 2)?;
        Ok(Some(value(alloc, tokens, height - 1)?))
    } else {
        Ok(None)
    }
}

/// A variable behind its type.
#[tactic(auto, unfolding(crate::specs::Declaring::var_from))]
pub fn variable_behind(
    alloc: Global,
    tokens: &mut Cursor,
    ty: PTy,
    height: u16,
) -> Result<FoundVariable, Halt>
    requires { height ≤ 256 }
    ensures { Moves variable_of (λ ws n. var_from ws n 256 height ty) tokens.old result tokens.new }
{
    let name = tokens.name(alloc)?;
    let start = start(alloc, tokens, height)?;
    tokens.expect(Key::Semicolon)?;
    Ok(FoundVariable { ty, name, start })
}

/// A variable, where what is declared may be so high.
#[tactic(auto, unfolding(crate::specs::Declaring::var_at))]
pub fn variable(alloc: Global, tokens: &mut Cursor, height: u16) -> Result<FoundVariable, Halt>
    requires { height ≤ 256 }
    ensures { Moves variable_of (λ ws n. var_at ws n 256 height) tokens.old result tokens.new }
{
    let ty = type_of(alloc, tokens)?;
    variable_behind(alloc, tokens, ty, height)
}

/// A constant, where what is declared may be so high.
#[tactic(auto, unfolding(crate::specs::Declaring::const_at))]
pub fn constant(alloc: Global, tokens: &mut Cursor, height: u16) -> Result<FoundConstant, Halt>
    requires some { 1 ≤ height }
    requires low { height ≤ 256 }
    ensures { Moves constant_of (λ ws n. const_at ws n 256 height) tokens.old result tokens.new }
{
    tokens.expect(Key::Const)?;
    let ty = type_of(alloc, tokens)?;
    let name = tokens.name(alloc)?;
    let value = value(alloc, tokens, height - 1)?;
    tokens.expect(Key::Semicolon)?;
    Ok(FoundConstant { ty, name, value })
}
