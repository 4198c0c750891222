//! Reading what is joined.

ghost use Rattle.std.specs.Prelude.{◌≡◌, ◌+◌, ◌≤◌, ◌<◌, length, slice_get, IfOk, IfErr, OnSome};
ghost use Rattle.lex_words.specs.Moving.{Moves, Stays};
ghost use Rattle.lex_words.specs.Seen.{key_in};
ghost use Rattle.lex_words.specs.declared.halt.Halt.TheVariants.{NoMemory};
ghost use Rattle.p4_tree.specs.Tree.{conditional as conditional_tree};
ghost use Rattle.p4_tree.specs.View.{expr_of};
ghost use Rattle.p4_expressions.specs.Reading.{IsLow, behind_at, below_of, branches_at, chain as chain_at, conditional_at, expr_at, op_in, right_at, tree_of};

use crate::found::Found;
use crate::operand::operand;
use lex_words::{Cursor, Halt, Key};
use p4_spelling::op_of;
use p4_tree::{Expr, Op};
use std::alloc::Global;

/// The operator on this level, if it stands here.
fn join(tokens: &Cursor, level: u8) -> Option<Op>
    ensures value { result ≡ op_in level (key_in (slice_get tokens.now.lexemes tokens.now.at)) }
    ensures inside { OnSome result (tokens.now.at < length tokens.now.lexemes) }
    ensures within { tokens.now.at ≤ length tokens.now.lexemes }
{
    let (found, op) = op_of(tokens.key()?)?;
    if found == level { Some(op) } else { None }
}

/// The right side behind an operator, with the left side, which begins at `start`. `level` is that
/// of right sides.
#[tactic(auto, unfolding(crate::specs::Reading::right_at))]
#[cycle(read)]
fn right(
    alloc: Global,
    tokens: &mut Cursor,
    start: u32,
    left: Found,
    op: Op,
    level: u8,
    height: u16,
    brackets: u16,
) -> Result<Found, Halt>
    requires low { height ≤ 256 }
    requires level { level ≤ 10 }
    requires left { IsLow height left }
    ensures reads { Moves tree_of (λ ws n. right_at ws n (expr_at ws n height brackets) level start (expr_of left.tree) op) tokens.old result tokens.new }
    ensures low { IfOk result (IsLow (height + 1)) }
{
    let other = expr(alloc, tokens, level, height, brackets)?;
    let tall = left.height.max(other.height) + 1;
    let a = Box::new(alloc, left.tree)?;
    let b = Box::new(alloc, other.tree)?;
    Ok(Found {
        tree: Expr::Bin(start, op, a, b),
        height: tall,
    })
}

/// What operators join behind a left side, which begins at `start`. `level` is that of right sides.
#[cycle(read)]
fn chain(
    alloc: Global,
    tokens: &mut Cursor,
    start: u32,
    first: Found,
    level: u8,
    height: u16,
    brackets: u16,
) -> Result<Found, Halt>
    requires low { height ≤ 256 }
    requires level { level ≤ 10 }
    requires first { IsLow height first }
    ensures reads { Stays tree_of (λ ws n. chain_at ws n (below_of ws n height brackets) height level start n (expr_of first.tree)) tokens.old result tokens.new }
    ensures low { IfOk result (IsLow height) }
{
    let mut left = first;
    'turns: while let Some(found) = join(tokens, level + 1) {
        if height <= left.height {
            return Err(Halt::High(tokens.at()));
        }
        tokens.skip();
        left = right(
            alloc,
            tokens,
            start,
            left,
            found,
            level,
            height - 1,
            brackets,
        )?;
    }
    Ok(left)
}

/// The node of a test with its two values.
fn choice(
    alloc: Global,
    start: u32,
    test: Found,
    one: Found,
    other: Found,
    height: u16,
) -> Result<Found, Halt>
    requires few { height ≤ 256 }
    requires test { IsLow height test }
    requires one { IsLow height one }
    requires other { IsLow height other }
    ensures tree { IfOk result (λ x. expr_of x.tree ≡ conditional_tree start (expr_of test.tree) (expr_of one.tree) (expr_of other.tree)) }
    ensures low { IfOk result (IsLow (height + 1)) }
    ensures only { IfErr result (λ halt. halt ≡ NoMemory) }
{
    let tall = test.height.max(one.height.max(other.height)) + 1;
    let a = Box::new(alloc, test.tree)?;
    let b = Box::new(alloc, one.tree)?;
    let c = Box::new(alloc, other.tree)?;
    Ok(Found {
        tree: Expr::Choice(start, a, b, c),
        height: tall,
    })
}

/// The two values of a condition behind its test, which begins at `start`.
#[tactic(auto, unfolding(crate::specs::Reading::branches_at))]
#[cycle(read)]
fn branches(
    alloc: Global,
    tokens: &mut Cursor,
    start: u32,
    test: Found,
    height: u16,
    brackets: u16,
) -> Result<Found, Halt>
    requires low { height ≤ 256 }
    requires test { IsLow height test }
    ensures reads { Moves tree_of (λ ws n. branches_at ws n (expr_at ws n height brackets) start (expr_of test.tree)) tokens.old result tokens.new }
    ensures low { IfOk result (IsLow (height + 1)) }
{
    tokens.expect(Key::Question)?;
    let one = expr(alloc, tokens, 11, height, brackets)?;
    tokens.expect(Key::Colon)?;
    let other = expr(alloc, tokens, 11, height, brackets)?;
    choice(alloc, start, test, one, other, height)
}

/// What `? :` joins behind a test, which begins at `start`.
#[tactic(auto, unfolding(crate::specs::Reading::conditional_at), using(crate::proofs::Layers::expr_layers))]
#[cycle(read)]
fn conditional(
    alloc: Global,
    tokens: &mut Cursor,
    start: u32,
    first: Found,
    height: u16,
    brackets: u16,
) -> Result<Found, Halt>
    requires low { height ≤ 256 }
    requires first { IsLow height first }
    ensures reads { Stays tree_of (λ ws n. conditional_at ws n (below_of ws n height brackets) height start (expr_of first.tree)) tokens.old result tokens.new }
    ensures low { IfOk result (IsLow height) }
{
    if tokens.is(Key::Question) {
        tokens.room(height, first.height + 1)?;
        branches(alloc, tokens, start, first, height - 1, brackets)
    } else {
        Ok(first)
    }
}

/// What is joined behind a left side, which begins at `start`. `level` is that of the left side.
#[cycle(read)]
fn behind(
    alloc: Global,
    tokens: &mut Cursor,
    start: u32,
    first: Found,
    level: u8,
    height: u16,
    brackets: u16,
) -> Result<Found, Halt>
    requires low { height ≤ 256 }
    requires level { level ≤ 10 }
    requires first { IsLow height first }
    ensures reads { Stays tree_of (λ ws n. behind_at ws n (below_of ws n height brackets) height level start n (expr_of first.tree)) tokens.old result tokens.new }
    ensures low { IfOk result (IsLow height) }
{
    if level == 10 {
        conditional(alloc, tokens, start, first, height, brackets)
    } else {
        chain(alloc, tokens, start, first, level, height, brackets)
    }
}

/// An expression whose operators outside brackets are of this level at most, at most so high, with at
/// most so many more round brackets open.
#[tactic(auto, using(crate::proofs::Layers::level_layers))]
#[cycle(read)]
pub fn expr(
    alloc: Global,
    tokens: &mut Cursor,
    level: u8,
    height: u16,
    brackets: u16,
) -> Result<Found, Halt>
    requires low { height ≤ 256 }
    requires level { level ≤ 11 }
    ensures reads { Moves tree_of (λ ws n. expr_at ws n height brackets level) tokens.old result tokens.new }
    ensures low { IfOk result (IsLow height) }
{
    let at = tokens.at();
    if level == 0 {
        return operand(alloc, tokens, height, brackets);
    }
    let left = expr(alloc, tokens, level - 1, height, brackets)?;
    behind(alloc, tokens, at, left, level - 1, height, brackets)
}
