//! Reading statements that have no statements in them.

ghost use Rattle.std.specs.Prelude.{◌≡◌, ◌≤◌, ◌<◌, length, map, IfOk};
ghost use Rattle.lex_words.specs.Moving.{Moves, Stays};
ghost use Rattle.indus_tree.specs.View.{expr_of, stmt_of};
ghost use Rattle.indus_spelling.specs.Properties.{reports_in};
ghost use Rattle.indus_reader.specs.Reading.{HasCounted, assign_at, cell_at, more_names_at, names_at, push_at, reject_at, report_at, values_at, write_at};

use indus_expressions::{expr, list_of};
use indus_tree::{Expr, Stmt};
use lex_text::Name;
use lex_words::{Cursor, Halt, Key};
use std::alloc::Global;

/// `= expr;` behind a name, which stands at `start`.
#[tactic(auto, unfolding(crate::specs::Reading::assign_at))]
fn assign(
    alloc: Global,
    tokens: &mut Cursor,
    start: u32,
    target: Name,
    height: u16,
) -> Result<Stmt, Halt>
    requires { height ≤ 256 }
    ensures reads { Moves stmt_of (λ ws n. assign_at ws n 256 height start target) tokens.old result tokens.new }
    ensures silent { IfOk result (λ x. reports_in (stmt_of x) ≡ 0) }
{
    tokens.expect(Key::Assign)?;
    let value = expr(alloc, tokens, 10, height, 256)?;
    tokens.expect(Key::Semicolon)?;
    Ok(Stmt::Assign(start, target, value.tree))
}

/// `[expr] = expr;` behind a name, which stands at `start`.
#[tactic(auto, unfolding(crate::specs::Reading::cell_at))]
fn cell(
    alloc: Global,
    tokens: &mut Cursor,
    start: u32,
    target: Name,
    height: u16,
) -> Result<Stmt, Halt>
    requires { height ≤ 256 }
    ensures reads { Moves stmt_of (λ ws n. cell_at ws n 256 height start target) tokens.old result tokens.new }
    ensures silent { IfOk result (λ x. reports_in (stmt_of x) ≡ 0) }
{
    tokens.expect(Key::SquareOpen)?;
    let index = expr(alloc, tokens, 10, height, 256)?;
    tokens.expect(Key::SquareClose)?;
    tokens.expect(Key::Assign)?;
    let value = expr(alloc, tokens, 10, height, 256)?;
    tokens.expect(Key::Semicolon)?;
    Ok(Stmt::Cell(start, target, index.tree, value.tree))
}

/// `.push(expr);` behind a name, which stands at `start`.
#[tactic(auto, unfolding(crate::specs::Reading::push_at))]
fn push(
    alloc: Global,
    tokens: &mut Cursor,
    start: u32,
    target: Name,
    height: u16,
) -> Result<Stmt, Halt>
    requires { height ≤ 256 }
    ensures reads { Moves stmt_of (λ ws n. push_at ws n 256 height start target) tokens.old result tokens.new }
    ensures silent { IfOk result (λ x. reports_in (stmt_of x) ≡ 0) }
{
    tokens.expect(Key::Dot)?;
    tokens.expect_name(b"push")?;
    tokens.open(256)?;
    let value = expr(alloc, tokens, 10, height, 255)?;
    tokens.expect(Key::Close)?;
    tokens.expect(Key::Semicolon)?;
    Ok(Stmt::Push(start, target, value.tree))
}

/// A statement that begins with a name.
#[tactic(auto, unfolding(crate::specs::Reading::write_at))]
pub fn write(alloc: Global, tokens: &mut Cursor, height: u16) -> Result<Stmt, Halt>
    requires { height ≤ 256 }
    ensures reads { Moves stmt_of (λ ws n. write_at ws n 256 height) tokens.old result tokens.new }
    ensures silent { IfOk result (λ x. reports_in (stmt_of x) ≡ 0) }
{
    let at = tokens.at();
    let target = tokens.name(alloc)?;
    if tokens.is(Key::SquareOpen) {
        cell(alloc, tokens, at, target, height)
    } else if tokens.is(Key::Dot) {
        push(alloc, tokens, at, target, height)
    } else {
        assign(alloc, tokens, at, target, height)
    }
}

/// `reject;`
#[tactic(auto, unfolding(crate::specs::Reading::reject_at))]
pub fn reject(tokens: &mut Cursor) -> Result<Stmt, Halt>
    ensures reads { Moves stmt_of (λ ws n. reject_at ws n 256) tokens.old result tokens.new }
    ensures silent { IfOk result (λ x. reports_in (stmt_of x) ≡ 0) }
{
    let at = tokens.at();
    tokens.expect(Key::Reject)?;
    tokens.expect(Key::Semicolon)?;
    Ok(Stmt::Reject(at))
}

/// Expressions up to a closing bracket.
#[tactic(auto, unfolding(crate::specs::Reading::values_at))]
fn values(alloc: Global, tokens: &mut Cursor, height: u16) -> Result<Vec<Expr>, Halt>
    requires { height ≤ 256 }
    ensures { Stays (λ x. map expr_of x.items) (λ ws n. values_at ws n 256 height) tokens.old result tokens.new }
{
    if tokens.is(Key::Close) {
        return Ok(Vec::new(alloc));
    }
    let found = list_of(alloc, tokens, height, 255)?;
    Ok(found.trees)
}

/// A report, whose number is `reports`.
#[tactic(auto, unfolding(crate::specs::Reading::report_at))]
pub fn report(alloc: Global, tokens: &mut Cursor, height: u16, reports: u32) -> Result<Stmt, Halt>
    requires low { height ≤ 256 }
    requires counted { HasCounted reports tokens.old }
    ensures reads { Moves stmt_of (λ ws n. report_at ws n 256 height reports) tokens.old result tokens.new }
    ensures counts { IfOk result (λ x. reports_in (stmt_of x) ≡ 1) }
{
    let at = tokens.at();
    tokens.expect(Key::Report)?;
    tokens.open(256)?;
    let found = values(alloc, tokens, height)?;
    tokens.expect(Key::Close)?;
    tokens.expect(Key::Semicolon)?;
    Ok(Stmt::Report(at, reports as u16, found))
}

/// Names behind others, with commas before each.
fn more_names(alloc: Global, tokens: &mut Cursor, names: Vec<Name>) -> Result<Vec<Name>, Halt>
    ensures { Stays (λ x. x.items) (λ ws n. more_names_at ws n 256 names.items) tokens.old result tokens.new }
{
    let mut names = names;
    'items: while tokens.eat(Key::Comma) {
        names.push(tokens.name(alloc)?)?;
    }
    Ok(names)
}

/// Names with commas between them.
#[tactic(auto, unfolding(crate::specs::Reading::names_at))]
pub fn names(alloc: Global, tokens: &mut Cursor) -> Result<Vec<Name>, Halt>
    ensures { Moves (λ x. x.items) (λ ws n. names_at ws n 256) tokens.old result tokens.new }
{
    let first = tokens.name(alloc)?;
    let mut names = Vec::new(alloc);
    names.push(first)?;
    more_names(alloc, tokens, names)
}
