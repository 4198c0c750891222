//! Reading statements that have no statements in them.

ghost use Rattle.std.specs.Prelude.{◌≡◌, ◌+◌, ◌-◌, ◌≤◌, ◌<◌, length, map};
ghost use Rattle.lex_words.specs.Moving.{Moves, Stays};
ghost use Rattle.p4_tree.specs.View.{arg_of, stmt_of};
ghost use Rattle.p4_reader.specs.Reading.{arg_at, args_at, args_from, assign_from, call_from, declared_from, either_from, exit_at, nothing_at, path_from, return_at, scalar_from, several_at, write_at, write_from};

use crate::declared::{expressions, value, variable_behind};
use lex_text::Name;
use lex_words::{Cursor, Halt, Key};
use p4_expressions::{expr, more_names, scalar};
use p4_tree::{Arg, PTy, Stmt};
use std::alloc::Global;

/// Expressions in braces, each at most so high.
#[tactic(auto, unfolding(crate::specs::Reading::several_at))]
fn several(alloc: Global, tokens: &mut Cursor, height: u16) -> Result<Arg, Halt>
    requires { height ≤ 256 }
    ensures { Moves arg_of (λ ws n. several_at ws n 255 height) tokens.old result tokens.new }
{
    let at = tokens.at();
    tokens.expect(Key::BraceOpen)?;
    let list = expressions(alloc, tokens, height, 255)?;
    tokens.expect(Key::BraceClose)?;
    Ok(Arg::Many(at, list))
}

/// An argument.
#[tactic(auto, unfolding(crate::specs::Reading::arg_at))]
fn argument(alloc: Global, tokens: &mut Cursor, height: u16) -> Result<Arg, Halt>
    requires { height ≤ 256 }
    ensures { Moves arg_of (λ ws n. arg_at ws n 255 height) tokens.old result tokens.new }
{
    if tokens.is(Key::BraceOpen) {
        tokens.room(height, 2)?;
        several(alloc, tokens, height - 1)
    } else {
        let at = tokens.at();
        let found = expr(alloc, tokens, 11, height.saturating_sub(1), 255)?;
        Ok(Arg::One(at, found.tree))
    }
}

/// Arguments behind a first one, with a comma before each.
fn more_arguments(
    alloc: Global,
    tokens: &mut Cursor,
    first: Arg,
    height: u16,
) -> Result<Vec<Arg>, Halt>
    requires { height ≤ 256 }
    ensures { Stays (λ x. map arg_of x.items) (λ ws n. args_from ws n 255 height (arg_of first)) tokens.old result tokens.new }
{
    let mut list = Vec::new(alloc);
    list.push(first)?;
    'items: while tokens.eat(Key::Comma) {
        let found = argument(alloc, tokens, height)?;
        list.push(found)?;
    }
    Ok(list)
}

/// Arguments up to a closing bracket, each at most so high.
#[tactic(auto, unfolding(crate::specs::Reading::args_at))]
fn arguments(alloc: Global, tokens: &mut Cursor, height: u16) -> Result<Vec<Arg>, Halt>
    requires { height ≤ 256 }
    ensures { Stays (λ x. map arg_of x.items) (λ ws n. args_at ws n 255 height) tokens.old result tokens.new }
{
    if tokens.is(Key::Close) {
        return Ok(Vec::new(alloc));
    }
    let first = argument(alloc, tokens, height)?;
    more_arguments(alloc, tokens, first, height)
}

/// `= expr;` behind a path, which begins at `start`. The expression may be so high.
#[tactic(auto, unfolding(crate::specs::Reading::assign_from))]
pub fn assignment(
    alloc: Global,
    tokens: &mut Cursor,
    start: u32,
    path: Vec<Name>,
    height: u16,
) -> Result<Stmt, Halt>
    requires { height ≤ 256 }
    ensures { Moves stmt_of (λ ws n. assign_from ws n 256 height start path.items) tokens.old result tokens.new }
{
    let value = value(alloc, tokens, height)?;
    tokens.expect(Key::Semicolon)?;
    Ok(Stmt::Assign(start, path, value))
}

/// A call behind its path, which begins at `start`. Each argument may be so high.
#[tactic(auto, unfolding(crate::specs::Reading::call_from))]
fn call(
    alloc: Global,
    tokens: &mut Cursor,
    start: u32,
    path: Vec<Name>,
    height: u16,
) -> Result<Stmt, Halt>
    requires { height ≤ 256 }
    ensures { Moves stmt_of (λ ws n. call_from ws n 256 height start path.items) tokens.old result tokens.new }
{
    tokens.open(256)?;
    let list = arguments(alloc, tokens, height)?;
    tokens.expect(Key::Close)?;
    tokens.expect(Key::Semicolon)?;
    Ok(Stmt::Call(start, path, list))
}

/// An assignment or a call behind its path, which begins at `start`.
#[tactic(auto, unfolding(crate::specs::Reading::write_from))]
fn write_behind(
    alloc: Global,
    tokens: &mut Cursor,
    start: u32,
    path: Vec<Name>,
    height: u16,
) -> Result<Stmt, Halt>
    requires some { 1 ≤ height }
    requires low { height ≤ 256 }
    ensures { Moves stmt_of (λ ws n. write_from ws n 256 height start path.items) tokens.old result tokens.new }
{
    if tokens.is(Key::Assign) {
        tokens.room(height, 2)?;
        assignment(alloc, tokens, start, path, height - 1)
    } else {
        call(alloc, tokens, start, path, height - 1)
    }
}

/// The same behind the first name of its path, which stands at `start`.
#[tactic(auto, unfolding(crate::specs::Reading::path_from))]
fn path_behind(
    alloc: Global,
    tokens: &mut Cursor,
    start: u32,
    first: Name,
    height: u16,
) -> Result<Stmt, Halt>
    requires some { 1 ≤ height }
    requires low { height ≤ 256 }
    ensures { Moves stmt_of (λ ws n. path_from ws n 256 height start first) tokens.old result tokens.new }
{
    let path = more_names(alloc, tokens, first)?;
    write_behind(alloc, tokens, start, path, height)
}

/// An assignment or a call.
#[tactic(auto, unfolding(crate::specs::Reading::write_at))]
pub fn write(alloc: Global, tokens: &mut Cursor, height: u16) -> Result<Stmt, Halt>
    requires some { 1 ≤ height }
    requires low { height ≤ 256 }
    ensures { Moves stmt_of (λ ws n. write_at ws n 256 height) tokens.old result tokens.new }
{
    let at = tokens.at();
    let first = tokens.name(alloc)?;
    path_behind(alloc, tokens, at, first, height)
}

/// A variable behind its type, which begins at `start`.
#[tactic(auto, unfolding(crate::specs::Reading::declared_from))]
fn declared(
    alloc: Global,
    tokens: &mut Cursor,
    start: u32,
    ty: PTy,
    height: u16,
) -> Result<Stmt, Halt>
    requires { height ≤ 256 }
    ensures { Moves stmt_of (λ ws n. declared_from ws n 256 height start ty) tokens.old result tokens.new }
{
    let found = variable_behind(alloc, tokens, ty, height)?;
    Ok(Stmt::Var(start, found.ty, found.name, found.start))
}

/// A variable that begins with a type of numbers or of truth values.
#[tactic(auto, unfolding(crate::specs::Reading::scalar_from))]
pub fn scalar_variable(alloc: Global, tokens: &mut Cursor, height: u16) -> Result<Stmt, Halt>
    requires { height ≤ 256 }
    ensures { Moves stmt_of (λ ws n. scalar_from ws n 256 height) tokens.old result tokens.new }
{
    let at = tokens.at();
    let ty = scalar(tokens)?;
    declared(alloc, tokens, at, ty, height)
}

/// A variable whose type is a name, or an assignment or a call.
#[tactic(auto, unfolding(crate::specs::Reading::either_from))]
pub fn variable_or_write(alloc: Global, tokens: &mut Cursor, height: u16) -> Result<Stmt, Halt>
    requires some { 1 ≤ height }
    requires low { height ≤ 256 }
    ensures { Moves stmt_of (λ ws n. either_from ws n 256 height) tokens.old result tokens.new }
{
    let at = tokens.at();
    let first = tokens.name(alloc)?;
    if tokens.has_name() {
        declared(alloc, tokens, at, PTy::Named(first), height)
    } else {
        path_behind(alloc, tokens, at, first, height)
    }
}

/// `;`
#[tactic(auto, unfolding(crate::specs::Reading::nothing_at))]
pub fn nothing(tokens: &mut Cursor) -> Result<Stmt, Halt>
    ensures { Moves stmt_of (λ ws n. nothing_at ws n 256) tokens.old result tokens.new }
{
    let at = tokens.at();
    tokens.expect(Key::Semicolon)?;
    Ok(Stmt::Nothing(at))
}

/// `return;`
#[tactic(auto, unfolding(crate::specs::Reading::return_at))]
pub fn return_here(tokens: &mut Cursor) -> Result<Stmt, Halt>
    ensures { Moves stmt_of (λ ws n. return_at ws n 256) tokens.old result tokens.new }
{
    let at = tokens.at();
    tokens.expect(Key::Return)?;
    tokens.expect(Key::Semicolon)?;
    Ok(Stmt::Return(at))
}

/// `exit;`
#[tactic(auto, unfolding(crate::specs::Reading::exit_at))]
pub fn exit_here(tokens: &mut Cursor) -> Result<Stmt, Halt>
    ensures { Moves stmt_of (λ ws n. exit_at ws n 256) tokens.old result tokens.new }
{
    let at = tokens.at();
    tokens.expect(Key::Exit)?;
    tokens.expect(Key::Semicolon)?;
    Ok(Stmt::Exit(at))
}
