//! Reading statements and blocks.

ghost use Rattle.std.specs.Prelude.{◌≡◌, ◌≤◌, map, IfOk, IfErr};
ghost use Rattle.lex_words.specs.Moving.{Moves, Stays};
ghost use Rattle.lex_words.specs.Reading.{until};
ghost use Rattle.lex_words.specs.declared.key.Key.TheVariants.{BraceClose};
ghost use Rattle.lex_words.specs.declared.halt.Halt.TheVariants.{NoMemory};
ghost use Rattle.p4_tree.specs.Tree.{choice as choice_tree};
ghost use Rattle.p4_tree.specs.View.{else_of, expr_of, stmt_of};
ghost use Rattle.p4_reader.specs.Reading.{body_at, else_at, if_at, item_at, nested_at, other_at, rest_at, stmt_at};

use crate::declared::at_scalar;
use crate::simple::{exit_here, nothing, return_here, scalar_variable, variable_or_write, write};
use lex_words::{Cursor, Halt, Key};
use p4_expressions::expr;
use p4_tree::{Expr, Stmt};
use std::alloc::Global;

/// Variables and statements up to a closing brace.
#[cycle(stmt)]
fn items(alloc: Global, tokens: &mut Cursor, height: u16) -> Result<Vec<Stmt>, Halt>
    requires { height ≤ 256 }
    ensures { Stays (λ x. map stmt_of x.items) (λ ws n. until ws BraceClose (item_at ws n 256 height) n) tokens.old result tokens.new }
{
    let mut list = Vec::new(alloc);
    'turns: while !tokens.is(Key::BraceClose) {
        let found = item(alloc, tokens, height)?;
        list.push(found)?;
    }
    Ok(list)
}

/// A block, whose variables and statements may be so high.
#[tactic(auto, unfolding(crate::specs::Reading::body_at, crate::specs::Reading::block_at))]
#[cycle(stmt)]
pub fn block(alloc: Global, tokens: &mut Cursor, height: u16) -> Result<Vec<Stmt>, Halt>
    requires { height ≤ 256 }
    ensures { Moves (λ x. map stmt_of x.items) (λ ws n. body_at ws n 256 height) tokens.old result tokens.new }
{
    tokens.expect(Key::BraceOpen)?;
    let list = items(alloc, tokens, height)?;
    tokens.expect(Key::BraceClose)?;
    Ok(list)
}

/// A block that is a statement.
#[tactic(auto, unfolding(crate::specs::Reading::nested_at, crate::specs::Reading::body_at))]
#[cycle(stmt)]
fn nested(alloc: Global, tokens: &mut Cursor, height: u16) -> Result<Stmt, Halt>
    requires { height ≤ 256 }
    ensures { Moves stmt_of (λ ws n. nested_at ws n 256 (item_at ws n 256 height)) tokens.old result tokens.new }
{
    let at = tokens.at();
    let list = block(alloc, tokens, height)?;
    Ok(Stmt::Block(at, list))
}

/// What stands behind `else`, if it stands here.
#[tactic(auto, unfolding(crate::specs::Reading::else_at))]
#[cycle(stmt)]
fn else_part(alloc: Global, tokens: &mut Cursor, height: u16) -> Result<Option<Box<Stmt>>, Halt>
    requires { height ≤ 256 }
    ensures { Stays else_of (λ ws n. else_at ws n 256 (stmt_at ws n 256 height)) tokens.old result tokens.new }
{
    if tokens.eat(Key::Else) {
        let inner = statement(alloc, tokens, height)?;
        Ok(Some(Box::new(alloc, inner)?))
    } else {
        Ok(None)
    }
}

/// The node of a test with what holds there and elsewhere.
fn choice(
    alloc: Global,
    start: u32,
    test: Expr,
    yes: Stmt,
    other: Option<Box<Stmt>>,
) -> Result<Stmt, Halt>
    ensures tree { IfOk result (λ x. stmt_of x ≡ choice_tree start (expr_of test) (stmt_of yes) (else_of other)) }
    ensures only { IfErr result (λ halt. halt ≡ NoMemory) }
{
    let first = Box::new(alloc, yes)?;
    Ok(Stmt::If(start, test, first, other))
}

/// `if` with its parts.
#[tactic(auto, unfolding(crate::specs::Reading::if_at))]
#[cycle(stmt)]
fn test(alloc: Global, tokens: &mut Cursor, height: u16) -> Result<Stmt, Halt>
    requires { height ≤ 256 }
    ensures { Moves stmt_of (λ ws n. if_at ws n 256 (stmt_at ws n 256 height) height) tokens.old result tokens.new }
{
    let at = tokens.at();
    tokens.expect(Key::If)?;
    tokens.open(256)?;
    let found = expr(alloc, tokens, 11, height, 255)?;
    tokens.expect(Key::Close)?;
    let yes = statement(alloc, tokens, height)?;
    let other = else_part(alloc, tokens, height)?;
    choice(alloc, at, found.tree, yes, other)
}

/// A statement without statements in it.
#[tactic(auto, unfolding(crate::specs::Reading::other_at))]
fn other(alloc: Global, tokens: &mut Cursor, height: u16) -> Result<Stmt, Halt>
    requires { height ≤ 256 }
    ensures { Moves stmt_of (λ ws n. other_at ws n 256 height) tokens.old result tokens.new }
{
    if tokens.is(Key::Semicolon) {
        tokens.room(height, 1)?;
        nothing(tokens)
    } else if tokens.is(Key::Return) {
        tokens.room(height, 1)?;
        return_here(tokens)
    } else if tokens.is(Key::Exit) {
        tokens.room(height, 1)?;
        exit_here(tokens)
    } else if tokens.has_name() {
        tokens.room(height, 1)?;
        write(alloc, tokens, height)
    } else {
        Err(Halt::Wrong(tokens.at()))
    }
}

/// A statement.
#[tactic(auto, unfolding(crate::specs::Reading::layer), using(crate::proofs::Layers::stmt_layers))]
#[cycle(stmt)]
fn statement(alloc: Global, tokens: &mut Cursor, height: u16) -> Result<Stmt, Halt>
    requires { height ≤ 256 }
    ensures { Moves stmt_of (λ ws n. stmt_at ws n 256 height) tokens.old result tokens.new }
{
    if tokens.is(Key::If) {
        tokens.room(height, 2)?;
        test(alloc, tokens, height - 1)
    } else if tokens.is(Key::BraceOpen) {
        tokens.room(height, 1)?;
        nested(alloc, tokens, height - 1)
    } else {
        other(alloc, tokens, height)
    }
}

/// A variable or a statement.
#[tactic(auto, using(crate::proofs::Layers::item_layers))]
#[cycle(stmt)]
fn item(alloc: Global, tokens: &mut Cursor, height: u16) -> Result<Stmt, Halt>
    requires { height ≤ 256 }
    ensures { Moves stmt_of (λ ws n. item_at ws n 256 height) tokens.old result tokens.new }
{
    if at_scalar(tokens) {
        tokens.room(height, 1)?;
        scalar_variable(alloc, tokens, height)
    } else if tokens.has_name() {
        tokens.room(height, 1)?;
        variable_or_write(alloc, tokens, height)
    } else {
        statement(alloc, tokens, height)
    }
}

/// Variables and statements up to a closing brace, and the brace.
#[tactic(auto, unfolding(crate::specs::Reading::rest_at))]
pub fn rest(alloc: Global, tokens: &mut Cursor, height: u16) -> Result<Vec<Stmt>, Halt>
    requires { height ≤ 256 }
    ensures { Moves (λ x. map stmt_of x.items) (λ ws n. rest_at ws n 256 height) tokens.old result tokens.new }
{
    let list = items(alloc, tokens, height)?;
    tokens.expect(Key::BraceClose)?;
    Ok(list)
}
