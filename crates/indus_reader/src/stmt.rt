//! Reading statements and blocks.

ghost use Rattle.std.specs.Prelude.{◌≤◌, IfOk};
ghost use Rattle.lex_words.specs.Moving.{Moves, Stays};
ghost use Rattle.indus_reader.specs.Reading.{HasCounted, IsBlock, IsStmt, block_at, block_in, else_at, if_at, ifs_at, loop_at, many_at, other_at, stmt_at, stmt_in};

use crate::found::{FoundBlock, FoundStmt};
use crate::simple::{names, reject, report, write};
use indus_expressions::expr;
use indus_tree::Stmt;
use lex_words::{Cursor, Halt, Key};
use std::alloc::Global;

/// A loop.
#[tactic(auto, unfolding(crate::specs::Reading::loop_at))]
#[cycle(stmt)]
fn walk(alloc: Global, tokens: &mut Cursor, height: u16, reports: u32) -> Result<FoundStmt, Halt>
    requires low { height ≤ 255 }
    requires counted { HasCounted reports tokens.old }
    ensures reads { Moves stmt_in (λ ws n. loop_at ws n 256 (stmt_at ws n 256 height) reports) tokens.old result tokens.new }
    ensures counts { IfOk result (IsStmt reports tokens.new) }
{
    let at = tokens.at();
    tokens.expect(Key::For)?;
    tokens.open(256)?;
    let items = names(alloc, tokens)?;
    tokens.expect(Key::In)?;
    let lists = names(alloc, tokens)?;
    tokens.expect(Key::Close)?;
    let body = block(alloc, tokens, height, reports)?;
    Ok(FoundStmt {
        stmt: Stmt::For(at, items, lists, body.stmts),
        reports: body.reports,
    })
}

/// `if` with its parts.
#[tactic(auto, unfolding(crate::specs::Reading::if_at))]
#[cycle(stmt)]
fn choice(alloc: Global, tokens: &mut Cursor, height: u16, reports: u32) -> Result<FoundStmt, Halt>
    requires low { height ≤ 255 }
    requires counted { HasCounted reports tokens.old }
    ensures reads { Moves stmt_in (λ ws n. if_at ws n 256 (stmt_at ws n 256 height) (ifs_at ws n 256 height) height reports) tokens.old result tokens.new }
    ensures counts { IfOk result (IsStmt reports tokens.new) }
{
    let at = tokens.at();
    tokens.expect(Key::If)?;
    tokens.open(256)?;
    let test = expr(alloc, tokens, 10, height, 255)?;
    tokens.expect(Key::Close)?;
    let yes = block(alloc, tokens, height, reports)?;
    let other = else_part(alloc, tokens, height, yes.reports)?;
    Ok(FoundStmt {
        stmt: Stmt::If(at, test.tree, yes.stmts, other.stmts),
        reports: other.reports,
    })
}

/// What stands behind `else`, if it stands here.
#[tactic(auto, unfolding(crate::specs::Reading::else_at))]
#[cycle(stmt)]
fn else_part(
    alloc: Global,
    tokens: &mut Cursor,
    height: u16,
    reports: u32,
) -> Result<FoundBlock, Halt>
    requires low { height ≤ 255 }
    requires counted { HasCounted reports tokens.old }
    ensures reads { Stays block_in (λ ws n. else_at ws n 256 (stmt_at ws n 256 height) (ifs_at ws n 256 height) reports) tokens.old result tokens.new }
    ensures counts { IfOk result (IsBlock reports tokens.new) }
{
    let mut stmts = Vec::new(alloc);
    if !tokens.eat(Key::Else) {
        return Ok(FoundBlock { stmts, reports });
    }
    if tokens.is(Key::If) {
        let inner = ifs(alloc, tokens, height, reports)?;
        stmts.push(inner.stmt)?;
        Ok(FoundBlock {
            stmts,
            reports: inner.reports,
        })
    } else {
        block(alloc, tokens, height, reports)
    }
}

/// Statements in braces.
#[tactic(auto, unfolding(crate::specs::Reading::block_at))]
#[cycle(stmt)]
pub fn block(
    alloc: Global,
    tokens: &mut Cursor,
    height: u16,
    reports: u32,
) -> Result<FoundBlock, Halt>
    requires low { height ≤ 255 }
    requires counted { HasCounted reports tokens.old }
    ensures reads { Moves block_in (λ ws n. block_at ws n 256 (stmt_at ws n 256 height) reports) tokens.old result tokens.new }
    ensures counts { IfOk result (IsBlock reports tokens.new) }
{
    tokens.expect(Key::BraceOpen)?;
    let inner = statements(alloc, tokens, height, reports)?;
    tokens.expect(Key::BraceClose)?;
    Ok(inner)
}

/// Statements up to a closing brace.
#[cycle(stmt)]
fn statements(
    alloc: Global,
    tokens: &mut Cursor,
    height: u16,
    reports: u32,
) -> Result<FoundBlock, Halt>
    requires low { height ≤ 255 }
    requires counted { HasCounted reports tokens.old }
    ensures reads { Stays block_in (λ ws n. many_at ws n 256 (stmt_at ws n 256 height) n reports) tokens.old result tokens.new }
    ensures counts { IfOk result (IsBlock reports tokens.new) }
{
    let mut stmts = Vec::new(alloc);
    let mut number = reports;
    'items: while !tokens.is(Key::BraceClose) {
        let one = statement(alloc, tokens, height, number)?;
        stmts.push(one.stmt)?;
        number = one.reports;
    }
    Ok(FoundBlock {
        stmts,
        reports: number,
    })
}

/// A statement that begins with a name.
#[tactic(auto, unfolding(crate::specs::Reading::other_at))]
fn other(alloc: Global, tokens: &mut Cursor, height: u16, reports: u32) -> Result<FoundStmt, Halt>
    requires low { height ≤ 255 }
    requires counted { HasCounted reports tokens.old }
    ensures reads { Moves stmt_in (λ ws n. other_at ws n 256 height) tokens.old result tokens.new }
    ensures counts { IfOk result (IsStmt reports tokens.new) }
{
    if tokens.has_name() {
        tokens.room(height, 2)?;
        let stmt = write(alloc, tokens, height - 1)?;
        Ok(FoundStmt { stmt, reports })
    } else {
        Err(Halt::Wrong(tokens.at()))
    }
}

/// A statement.
#[tactic(auto, unfolding(crate::specs::Reading::layer), using(crate::proofs::Layers::stmt_layers))]
#[cycle(stmt)]
fn statement(
    alloc: Global,
    tokens: &mut Cursor,
    height: u16,
    reports: u32,
) -> Result<FoundStmt, Halt>
    requires low { height ≤ 255 }
    requires counted { HasCounted reports tokens.old }
    ensures reads { Moves stmt_in (λ ws n. stmt_at ws n 256 height reports) tokens.old result tokens.new }
    ensures counts { IfOk result (IsStmt reports tokens.new) }
{
    if tokens.is(Key::If) {
        ifs(alloc, tokens, height, reports)
    } else if tokens.is(Key::For) {
        tokens.room(height, 1)?;
        walk(alloc, tokens, height - 1, reports)
    } else if tokens.is(Key::Reject) {
        tokens.room(height, 1)?;
        let stmt = reject(tokens)?;
        Ok(FoundStmt { stmt, reports })
    } else if tokens.is(Key::Report) {
        tokens.room(height, 1)?;
        let stmt = report(alloc, tokens, height - 1, reports)?;
        Ok(FoundStmt {
            stmt,
            reports: reports + 1,
        })
    } else {
        other(alloc, tokens, height, reports)
    }
}

/// A statement that begins with `if`.
#[tactic(auto, using(crate::proofs::Layers::ifs_layers))]
#[cycle(stmt)]
fn ifs(alloc: Global, tokens: &mut Cursor, height: u16, reports: u32) -> Result<FoundStmt, Halt>
    requires low { height ≤ 255 }
    requires counted { HasCounted reports tokens.old }
    ensures reads { Moves stmt_in (λ ws n. ifs_at ws n 256 height reports) tokens.old result tokens.new }
    ensures counts { IfOk result (IsStmt reports tokens.new) }
{
    tokens.room(height, 2)?;
    choice(alloc, tokens, height - 1, reports)
}
