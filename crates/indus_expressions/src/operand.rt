//! Reading operands.

ghost use Rattle.std.specs.Prelude.{◌+◌, ◌≤◌, ◌<◌, length, IfOk};
ghost use Rattle.lex_words.specs.Moving.{Moves};
ghost use Rattle.indus_expressions.specs.Reading.{IsLow, below_of, bracket_at, cast_at, count_at, expr_at, flag_at, index_at, inside_of, inversion_at, leaf_at, negation_at, numeral_at, opened_at, operand_at, tree_of, variable_at};

use crate::chain::{expr, list_of};
use crate::found::Found;
use crate::number::size;
use indus_tree::Expr;
use lex_text::Name;
use lex_words::{Cursor, Halt, Key};
use std::alloc::Global;

/// `true` or `false`, which stands here.
#[tactic(auto, unfolding(crate::specs::Reading::flag_at))]
fn flag(tokens: &mut Cursor, height: u16, value: bool) -> Result<Found, Halt>
    requires { tokens.old.at < length tokens.old.lexemes }
    ensures reads { Moves tree_of (λ ws n. flag_at ws n value height) tokens.old result tokens.new }
    ensures low { IfOk result (IsLow height) }
{
    let at = tokens.at();
    tokens.room(height, 1)?;
    tokens.skip();
    Ok(Found {
        tree: Expr::Flag(at, value),
        height: 1,
    })
}

/// A number.
#[tactic(auto, unfolding(crate::specs::Reading::numeral_at))]
fn numeral(tokens: &mut Cursor, height: u16) -> Result<Found, Halt>
    requires { 1 ≤ height }
    ensures reads { Moves tree_of (λ ws n. numeral_at ws n height) tokens.old result tokens.new }
    ensures low { IfOk result (IsLow height) }
{
    let at = tokens.at();
    let value = tokens.number()?;
    Ok(Found {
        tree: Expr::Num(at, value),
        height: 1,
    })
}

/// The keys in square brackets behind a name, which stands at `start`.
#[tactic(auto, unfolding(crate::specs::Reading::index_at))]
#[cycle(read)]
fn index(
    alloc: Global,
    tokens: &mut Cursor,
    start: u32,
    target: Name,
    height: u16,
    brackets: u16,
) -> Result<Found, Halt>
    requires { height ≤ 256 }
    ensures reads { Moves tree_of (λ ws n. index_at ws n (expr_at ws n height brackets) start target) tokens.old result tokens.new }
    ensures low { IfOk result (IsLow (height + 1)) }
{
    tokens.expect(Key::SquareOpen)?;
    let keys = list_of(alloc, tokens, height, brackets)?;
    tokens.expect(Key::SquareClose)?;
    Ok(Found {
        tree: Expr::Index(start, target, keys.trees),
        height: keys.height + 1,
    })
}

/// A name, perhaps with an index.
#[tactic(auto, unfolding(crate::specs::Reading::variable_at), using(crate::proofs::Layers::expr_layers))]
#[cycle(read)]
fn variable(alloc: Global, tokens: &mut Cursor, height: u16, brackets: u16) -> Result<Found, Halt>
    requires some { 1 ≤ height }
    requires low { height ≤ 256 }
    ensures reads { Moves tree_of (λ ws n. variable_at ws n (below_of ws n height brackets) height) tokens.old result tokens.new }
    ensures low { IfOk result (IsLow height) }
{
    let at = tokens.at();
    let target = tokens.name(alloc)?;
    if tokens.is(Key::SquareOpen) {
        tokens.room(height, 2)?;
        index(alloc, tokens, at, target, height - 1, brackets)
    } else {
        Ok(Found {
            tree: Expr::Read(at, target),
            height: 1,
        })
    }
}

/// `length` and a name in brackets.
#[tactic(auto, unfolding(crate::specs::Reading::count_at))]
fn count(alloc: Global, tokens: &mut Cursor, height: u16, brackets: u16) -> Result<Found, Halt>
    requires { 1 ≤ height }
    ensures reads { Moves tree_of (λ ws n. count_at ws n brackets) tokens.old result tokens.new }
    ensures low { IfOk result (IsLow height) }
{
    let at = tokens.at();
    tokens.expect(Key::Length)?;
    tokens.open(brackets)?;
    let target = tokens.name(alloc)?;
    tokens.expect(Key::Close)?;
    Ok(Found {
        tree: Expr::Length(at, target),
        height: 1,
    })
}

/// `!` and an operand.
#[tactic(auto, unfolding(crate::specs::Reading::negation_at))]
#[cycle(read)]
fn negation(alloc: Global, tokens: &mut Cursor, height: u16, brackets: u16) -> Result<Found, Halt>
    requires { height ≤ 256 }
    ensures reads { Moves tree_of (λ ws n. negation_at ws n (expr_at ws n height brackets)) tokens.old result tokens.new }
    ensures low { IfOk result (IsLow (height + 1)) }
{
    let at = tokens.at();
    tokens.expect(Key::Not)?;
    let inner = expr(alloc, tokens, 0, height, brackets)?;
    Ok(Found {
        tree: Expr::Not(at, Box::new(alloc, inner.tree)?),
        height: inner.height + 1,
    })
}

/// `~` and an operand.
#[tactic(auto, unfolding(crate::specs::Reading::inversion_at))]
#[cycle(read)]
fn inversion(alloc: Global, tokens: &mut Cursor, height: u16, brackets: u16) -> Result<Found, Halt>
    requires { height ≤ 256 }
    ensures reads { Moves tree_of (λ ws n. inversion_at ws n (expr_at ws n height brackets)) tokens.old result tokens.new }
    ensures low { IfOk result (IsLow (height + 1)) }
{
    let at = tokens.at();
    tokens.expect(Key::Tilde)?;
    let inner = expr(alloc, tokens, 0, height, brackets)?;
    Ok(Found {
        tree: Expr::Invert(at, Box::new(alloc, inner.tree)?),
        height: inner.height + 1,
    })
}

/// What of a cast stands behind its first bracket, which stands at `start`.
#[tactic(auto, unfolding(crate::specs::Reading::cast_at))]
#[cycle(read)]
fn cast(
    alloc: Global,
    tokens: &mut Cursor,
    start: u32,
    height: u16,
    brackets: u16,
) -> Result<Found, Halt>
    requires { height ≤ 256 }
    ensures reads { Moves tree_of (λ ws n. cast_at ws n (expr_at ws n height brackets) start) tokens.old result tokens.new }
    ensures low { IfOk result (IsLow (height + 1)) }
{
    tokens.expect(Key::Bit)?;
    tokens.expect(Key::Less)?;
    let width = size(tokens)?;
    tokens.expect(Key::More)?;
    tokens.expect(Key::Close)?;
    let inner = expr(alloc, tokens, 0, height, brackets)?;
    Ok(Found {
        tree: Expr::Cast(start, width, Box::new(alloc, inner.tree)?),
        height: inner.height + 1,
    })
}

/// An expression and the bracket behind it.
#[tactic(auto, unfolding(crate::specs::Reading::bracket_at))]
#[cycle(read)]
fn bracket(alloc: Global, tokens: &mut Cursor, height: u16, brackets: u16) -> Result<Found, Halt>
    requires { height ≤ 256 }
    ensures reads { Moves tree_of (λ ws n. bracket_at ws n (expr_at ws n height brackets)) tokens.old result tokens.new }
    ensures low { IfOk result (IsLow height) }
{
    let inner = expr(alloc, tokens, 10, height, brackets)?;
    tokens.expect(Key::Close)?;
    Ok(inner)
}

/// A cast, or an expression in brackets.
#[tactic(auto, unfolding(crate::specs::Reading::opened_at), using(crate::proofs::Layers::expr_layers))]
#[cycle(read)]
fn opened(alloc: Global, tokens: &mut Cursor, height: u16, brackets: u16) -> Result<Found, Halt>
    requires { height ≤ 256 }
    ensures reads { Moves tree_of (λ ws n. opened_at ws n (inside_of ws n height brackets) (below_of ws n height brackets) height brackets) tokens.old result tokens.new }
    ensures low { IfOk result (IsLow height) }
{
    let at = tokens.at();
    tokens.open(brackets)?;
    if tokens.is(Key::Bit) {
        tokens.room(height, 2)?;
        cast(alloc, tokens, at, height - 1, brackets)
    } else {
        bracket(alloc, tokens, height, brackets - 1)
    }
}

/// A name or a number.
#[tactic(auto, unfolding(crate::specs::Reading::leaf_at))]
#[cycle(read)]
fn leaf(alloc: Global, tokens: &mut Cursor, height: u16, brackets: u16) -> Result<Found, Halt>
    requires { height ≤ 256 }
    ensures reads { Moves tree_of (λ ws n. leaf_at ws n (below_of ws n height brackets) height) tokens.old result tokens.new }
    ensures low { IfOk result (IsLow height) }
{
    if tokens.has_name() {
        tokens.room(height, 1)?;
        variable(alloc, tokens, height, brackets)
    } else if tokens.has_number() {
        tokens.room(height, 1)?;
        numeral(tokens, height)
    } else {
        Err(Halt::Wrong(tokens.at()))
    }
}

/// An operand.
#[tactic(auto, unfolding(crate::specs::Reading::operand_at), using(crate::proofs::Layers::expr_layers))]
#[cycle(read)]
pub fn operand(
    alloc: Global,
    tokens: &mut Cursor,
    height: u16,
    brackets: u16,
) -> Result<Found, Halt>
    requires { height ≤ 256 }
    ensures reads { Moves tree_of (λ ws n. operand_at ws n (inside_of ws n height brackets) (below_of ws n height brackets) height brackets) tokens.old result tokens.new }
    ensures low { IfOk result (IsLow height) }
{
    if tokens.is(Key::True) {
        flag(tokens, height, true)
    } else if tokens.is(Key::False) {
        flag(tokens, height, false)
    } else if tokens.is(Key::Not) {
        tokens.room(height, 2)?;
        negation(alloc, tokens, height - 1, brackets)
    } else if tokens.is(Key::Tilde) {
        tokens.room(height, 2)?;
        inversion(alloc, tokens, height - 1, brackets)
    } else if tokens.is(Key::Length) {
        tokens.room(height, 1)?;
        count(alloc, tokens, height, brackets)
    } else if tokens.is(Key::Open) {
        tokens.room(height, 1)?;
        opened(alloc, tokens, height, brackets)
    } else {
        leaf(alloc, tokens, height, brackets)
    }
}
