//! Reading what is joined.

ghost use Rattle.std.specs.Prelude.{◌≡◌, ◌+◌, ◌≤◌, ◌<◌, length, slice_get, IfOk, OnSome};
ghost use Rattle.lex_words.specs.Moving.{Moves, Stays};
ghost use Rattle.lex_words.specs.Seen.{key_in};
ghost use Rattle.indus_tree.specs.View.{expr_of};
ghost use Rattle.indus_expressions.specs.Reading.{AreLow, IsLow, all_of, below_of, rest_of, chain as chain_at, climb as climb_at, expr_at, group_at, head_at, inside_of, join_in, listed_at, right_at, tree_of, trees_of, tuple_at, under_of};

use crate::found::{Found, FoundAll};
use crate::operand::operand;
use indus_spelling::{Join, join_of};
use indus_tree::Expr;
use lex_words::{Cursor, Halt, Key};
use std::alloc::Global;

/// What joins on this level, if it stands here.
fn join(tokens: &Cursor, level: u8) -> Option<Join>
    ensures value { result ≡ join_in level (key_in (slice_get tokens.now.lexemes tokens.now.at)) }
    ensures inside { OnSome result (tokens.now.at < length tokens.now.lexemes) }
    ensures within { tokens.now.at ≤ length tokens.now.lexemes }
{
    let (found, join) = join_of(tokens.key()?)?;
    if found == level { Some(join) } else { None }
}

/// The right side behind an operator, with the left side, which begins at `start`. `level` is that
/// of right sides.
#[tactic(auto, unfolding(crate::specs::Reading::right_at))]
#[cycle(read)]
fn right(
    alloc: Global,
    tokens: &mut Cursor,
    start: u32,
    left: Found,
    join: Join,
    level: u8,
    height: u16,
    brackets: u16,
) -> Result<Found, Halt>
    requires low { height ≤ 256 }
    requires level { level ≤ 10 }
    requires left { IsLow height left }
    ensures reads { Moves tree_of (λ ws n. right_at ws n (expr_at ws n height brackets) level start (expr_of left.tree) join) tokens.old result tokens.new }
    ensures low { IfOk result (IsLow (height + 1)) }
{
    match join {
        Join::Binary(op) => {
            let other = expr(alloc, tokens, level, height, brackets)?;
            let tall = left.height.max(other.height) + 1;
            let a = Box::new(alloc, left.tree)?;
            let b = Box::new(alloc, other.tree)?;
            Ok(Found {
                tree: Expr::Bin(start, op, a, b),
                height: tall,
            })
        }
        Join::Member => {
            let set = tokens.name(alloc)?;
            let tall = left.height + 1;
            let mut keys = Vec::new(alloc);
            keys.push(left.tree)?;
            Ok(Found {
                tree: Expr::Member(start, keys, set),
                height: tall,
            })
        }
    }
}

/// What is joined behind a left side, which begins at `start`. `level` is that of right sides.
#[cycle(read)]
fn chain(
    alloc: Global,
    tokens: &mut Cursor,
    start: u32,
    first: Found,
    level: u8,
    height: u16,
    brackets: u16,
) -> Result<Found, Halt>
    requires low { height ≤ 256 }
    requires level { level ≤ 9 }
    requires first { IsLow height first }
    ensures reads { Stays tree_of (λ ws n. chain_at ws n (below_of ws n height brackets) height level start n (expr_of first.tree)) tokens.old result tokens.new }
    ensures low { IfOk result (IsLow height) }
{
    let mut left = first;
    'turns: while let Some(found) = join(tokens, level + 1) {
        if height <= left.height {
            return Err(Halt::High(tokens.at()));
        }
        tokens.skip();
        left = right(
            alloc,
            tokens,
            start,
            left,
            found,
            level,
            height - 1,
            brackets,
        )?;
    }
    Ok(left)
}

/// What is joined behind an operand on the levels from 1 to `level`.
#[tactic(auto, using(crate::proofs::Layers::climb_layers))]
#[cycle(read)]
fn climb(
    alloc: Global,
    tokens: &mut Cursor,
    start: u32,
    first: Found,
    level: u8,
    height: u16,
    brackets: u16,
) -> Result<Found, Halt>
    requires low { height ≤ 256 }
    requires level { level ≤ 6 }
    requires first { IsLow height first }
    ensures reads { Stays tree_of (λ ws n. climb_at ws n (below_of ws n height brackets) height start level (expr_of first.tree)) tokens.old result tokens.new }
    ensures low { IfOk result (IsLow height) }
{
    if level == 0 {
        let _ = tokens.at();
        return Ok(first);
    }
    let left = climb(alloc, tokens, start, first, level - 1, height, brackets)?;
    chain(alloc, tokens, start, left, level - 1, height, brackets)
}

/// The rest of a tuple behind its first value, and `in` with a name. The tuple's bracket is at
/// `start`.
#[tactic(auto, unfolding(crate::specs::Reading::listed_at))]
#[cycle(read)]
fn listed(
    alloc: Global,
    tokens: &mut Cursor,
    start: u32,
    first: Found,
    height: u16,
    brackets: u16,
) -> Result<Found, Halt>
    requires low { height ≤ 256 }
    requires first { IsLow height first }
    ensures reads { Moves tree_of (λ ws n. listed_at ws n (expr_at ws n height brackets) start (expr_of first.tree)) tokens.old result tokens.new }
    ensures low { IfOk result (IsLow (height + 1)) }
{
    let keys = others(alloc, tokens, first, height, brackets)?;
    tokens.expect(Key::Close)?;
    tokens.expect(Key::In)?;
    let set = tokens.name(alloc)?;
    Ok(Found {
        tree: Expr::Member(start, keys.trees, set),
        height: keys.height + 1,
    })
}

/// The same, where the whole may be so high.
#[tactic(auto, unfolding(crate::specs::Reading::tuple_at), using(crate::proofs::Layers::expr_layers))]
#[cycle(read)]
fn tuple(
    alloc: Global,
    tokens: &mut Cursor,
    start: u32,
    first: Found,
    height: u16,
    brackets: u16,
) -> Result<Found, Halt>
    requires low { height ≤ 256 }
    requires first { IsLow height first }
    ensures reads { Moves tree_of (λ ws n. tuple_at ws n (below_of ws n height brackets) height start (expr_of first.tree)) tokens.old result tokens.new }
    ensures low { IfOk result (IsLow height) }
{
    tokens.room(height, first.height + 1)?;
    listed(alloc, tokens, start, first, height - 1, brackets)
}

/// What stands behind a first expression, with commas before each.
#[cycle(read)]
fn others(
    alloc: Global,
    tokens: &mut Cursor,
    first: Found,
    height: u16,
    brackets: u16,
) -> Result<FoundAll, Halt>
    requires low { height ≤ 256 }
    requires first { IsLow height first }
    ensures reads { Stays trees_of (λ ws n. rest_of ws n (expr_at ws n height brackets) (expr_of first.tree)) tokens.old result tokens.new }
    ensures low { IfOk result (AreLow height) }
{
    let mut tall = first.height;
    let mut trees = Vec::new(alloc);
    trees.push(first.tree)?;
    'items: while tokens.eat(Key::Comma) {
        let other = expr(alloc, tokens, 10, height, brackets)?;
        trees.push(other.tree)?;
        tall = tall.max(other.height);
    }
    Ok(FoundAll {
        trees,
        height: tall,
    })
}

/// Expressions with commas between them.
#[tactic(auto, unfolding(crate::specs::Reading::all_of))]
#[cycle(read)]
pub fn list_of(
    alloc: Global,
    tokens: &mut Cursor,
    height: u16,
    brackets: u16,
) -> Result<FoundAll, Halt>
    requires { height ≤ 256 }
    ensures reads { Moves trees_of (λ ws n. all_of ws n (expr_at ws n height brackets)) tokens.old result tokens.new }
    ensures low { IfOk result (AreLow height) }
{
    let first = expr(alloc, tokens, 10, height, brackets)?;
    others(alloc, tokens, first, height, brackets)
}

/// An expression in brackets and what is joined behind it up to level 6, or a tuple and `in`.
#[tactic(auto, unfolding(crate::specs::Reading::group_at), using(crate::proofs::Layers::expr_layers))]
#[cycle(read)]
fn group(alloc: Global, tokens: &mut Cursor, height: u16, brackets: u16) -> Result<Found, Halt>
    requires { height ≤ 256 }
    ensures reads { Moves tree_of (λ ws n. group_at ws n (inside_of ws n height brackets) (below_of ws n height brackets) (under_of ws n height brackets) height brackets) tokens.old result tokens.new }
    ensures low { IfOk result (IsLow height) }
{
    let at = tokens.at();
    tokens.room(height, 1)?;
    tokens.open(brackets)?;
    let inner = expr(alloc, tokens, 10, height, brackets - 1)?;
    if tokens.is(Key::Comma) {
        tuple(alloc, tokens, at, inner, height, brackets - 1)
    } else {
        tokens.expect(Key::Close)?;
        climb(alloc, tokens, at, inner, 6, height, brackets)
    }
}

/// The left side of a comparison, or of `in`.
#[tactic(auto, unfolding(crate::specs::Reading::head_at))]
#[cycle(read)]
fn head(alloc: Global, tokens: &mut Cursor, height: u16, brackets: u16) -> Result<Found, Halt>
    requires { height ≤ 256 }
    ensures reads { Moves tree_of (λ ws n i. head_at ws n (inside_of ws n height brackets) (below_of ws n height brackets) (under_of ws n height brackets) height brackets (expr_at ws n height brackets 6 i) i) tokens.old result tokens.new }
    ensures low { IfOk result (IsLow height) }
{
    if tokens.is(Key::Open) {
        if tokens.is_second(Key::Bit) {
            expr(alloc, tokens, 6, height, brackets)
        } else {
            group(alloc, tokens, height, brackets)
        }
    } else {
        expr(alloc, tokens, 6, height, brackets)
    }
}

/// An expression whose operators outside brackets are of this level at most, at most so high, with at
/// most so many more round brackets open.
#[tactic(auto, using(crate::proofs::Layers::level_layers))]
#[cycle(read)]
pub fn expr(
    alloc: Global,
    tokens: &mut Cursor,
    level: u8,
    height: u16,
    brackets: u16,
) -> Result<Found, Halt>
    requires low { height ≤ 256 }
    requires level { level ≤ 10 }
    ensures reads { Moves tree_of (λ ws n. expr_at ws n height brackets level) tokens.old result tokens.new }
    ensures low { IfOk result (IsLow height) }
{
    let at = tokens.at();
    if level == 0 {
        return operand(alloc, tokens, height, brackets);
    }
    if level == 7 {
        let left = head(alloc, tokens, height, brackets)?;
        return chain(alloc, tokens, at, left, 6, height, brackets);
    }
    let left = expr(alloc, tokens, level - 1, height, brackets)?;
    chain(alloc, tokens, at, left, level - 1, height, brackets)
}
