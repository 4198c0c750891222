//! Reading operands.

ghost use Rattle.std.specs.Prelude.{◌≡◌, ◌+◌, ◌≤◌, ◌<◌, length, slice_get, IfOk};
ghost use Rattle.lex_words.specs.Moving.{Moves, Stays};
ghost use Rattle.p4_tree.specs.View.{expr_of};
ghost use Rattle.p4_expressions.specs.Reading.{IsLow, below_of, bounds_at, bracket_at, cast_at, error_at, expr_at, flag_at, inside_of, inversion_at, is_scalar, leaf_at, negation_at, numeral_at, opened_at, operand_at, opposite_at, path_at, postfix_at, slices_at, tree_of};

use crate::chain::expr;
use crate::found::Found;
use crate::paths::path;
use crate::types::{scalar, small};
use lex_words::{Cursor, Halt, Key};
use p4_tree::Expr;
use std::alloc::Global;

/// `true` or `false`, which stands here.
#[tactic(auto, unfolding(crate::specs::Reading::flag_at))]
fn flag(tokens: &mut Cursor, height: u16, value: bool) -> Result<Found, Halt>
    requires { tokens.old.at < length tokens.old.lexemes }
    ensures reads { Moves tree_of (λ ws n. flag_at ws n value height) tokens.old result tokens.new }
    ensures low { IfOk result (IsLow height) }
{
    let at = tokens.at();
    tokens.room(height, 1)?;
    tokens.skip();
    Ok(Found {
        tree: Expr::Flag(at, value),
        height: 1,
    })
}

/// A number.
#[tactic(auto, unfolding(crate::specs::Reading::numeral_at))]
fn numeral(tokens: &mut Cursor) -> Result<Found, Halt>
    ensures reads { Moves tree_of numeral_at tokens.old result tokens.new }
    ensures low { IfOk result (IsLow 1) }
{
    let at = tokens.at();
    let value = tokens.number()?;
    Ok(Found {
        tree: Expr::Num(at, value),
        height: 1,
    })
}

/// `error.` and a name.
#[tactic(auto, unfolding(crate::specs::Reading::error_at))]
fn error(alloc: Global, tokens: &mut Cursor) -> Result<Found, Halt>
    ensures reads { Moves tree_of error_at tokens.old result tokens.new }
    ensures low { IfOk result (IsLow 1) }
{
    let at = tokens.at();
    tokens.expect(Key::Error)?;
    tokens.expect(Key::Dot)?;
    let name = tokens.name(alloc)?;
    Ok(Found {
        tree: Expr::ErrorName(at, name),
        height: 1,
    })
}

/// An operand that begins with no bracket, without slices.
#[tactic(auto, unfolding(crate::specs::Reading::leaf_at))]
fn leaf(alloc: Global, tokens: &mut Cursor, height: u16, brackets: u16) -> Result<Found, Halt>
    ensures reads { Moves tree_of (λ ws n. leaf_at ws n height brackets) tokens.old result tokens.new }
    ensures low { IfOk result (IsLow height) }
{
    if tokens.is(Key::True) {
        flag(tokens, height, true)
    } else if tokens.is(Key::False) {
        flag(tokens, height, false)
    } else if tokens.is(Key::Error) {
        tokens.room(height, 1)?;
        error(alloc, tokens)
    } else if tokens.has_name() {
        tokens.room(height, 1)?;
        path(alloc, tokens, brackets)
    } else if tokens.has_number() {
        tokens.room(height, 1)?;
        numeral(tokens)
    } else {
        Err(Halt::Wrong(tokens.at()))
    }
}

/// The bounds of a slice behind an operand and `[`.
#[tactic(auto, unfolding(crate::specs::Reading::bounds_at))]
fn bounds(
    alloc: Global,
    tokens: &mut Cursor,
    start: u32,
    sliced: Found,
    height: u16,
) -> Result<Found, Halt>
    requires low { height ≤ 256 }
    requires sliced { IsLow height sliced }
    ensures reads { Moves tree_of (λ ws n. bounds_at ws n start (expr_of sliced.tree)) tokens.old result tokens.new }
    ensures low { IfOk result (IsLow (height + 1)) }
{
    let high = small(tokens)?;
    tokens.expect(Key::Colon)?;
    let low = small(tokens)?;
    tokens.expect(Key::SquareClose)?;
    Ok(Found {
        tree: Expr::Slice(start, Box::new(alloc, sliced.tree)?, high, low),
        height: sliced.height + 1,
    })
}

/// The slices behind an operand, which begins at `start`.
fn slices(
    alloc: Global,
    tokens: &mut Cursor,
    start: u32,
    first: Found,
    height: u16,
) -> Result<Found, Halt>
    requires low { height ≤ 256 }
    requires first { IsLow height first }
    ensures reads { Stays tree_of (λ ws n. slices_at ws n height start n (expr_of first.tree)) tokens.old result tokens.new }
    ensures low { IfOk result (IsLow height) }
{
    let mut left = first;
    'turns: while tokens.is(Key::SquareOpen) {
        if height <= left.height {
            return Err(Halt::High(tokens.at()));
        }
        tokens.skip();
        left = bounds(alloc, tokens, start, left, height - 1)?;
    }
    Ok(left)
}

/// An operand that begins with no bracket, perhaps with slices.
#[tactic(auto, unfolding(crate::specs::Reading::postfix_at))]
fn postfix(alloc: Global, tokens: &mut Cursor, height: u16, brackets: u16) -> Result<Found, Halt>
    requires { height ≤ 256 }
    ensures reads { Moves tree_of (λ ws n. postfix_at ws n height brackets) tokens.old result tokens.new }
    ensures low { IfOk result (IsLow height) }
{
    let at = tokens.at();
    let first = leaf(alloc, tokens, height, brackets)?;
    slices(alloc, tokens, at, first, height)
}

/// `!` and an operand.
#[tactic(auto, unfolding(crate::specs::Reading::negation_at))]
#[cycle(read)]
fn negation(alloc: Global, tokens: &mut Cursor, height: u16, brackets: u16) -> Result<Found, Halt>
    requires { height ≤ 256 }
    ensures reads { Moves tree_of (λ ws n. negation_at ws n (expr_at ws n height brackets)) tokens.old result tokens.new }
    ensures low { IfOk result (IsLow (height + 1)) }
{
    let at = tokens.at();
    tokens.expect(Key::Not)?;
    let inner = expr(alloc, tokens, 0, height, brackets)?;
    Ok(Found {
        tree: Expr::Not(at, Box::new(alloc, inner.tree)?),
        height: inner.height + 1,
    })
}

/// `~` and an operand.
#[tactic(auto, unfolding(crate::specs::Reading::inversion_at))]
#[cycle(read)]
fn inversion(alloc: Global, tokens: &mut Cursor, height: u16, brackets: u16) -> Result<Found, Halt>
    requires { height ≤ 256 }
    ensures reads { Moves tree_of (λ ws n. inversion_at ws n (expr_at ws n height brackets)) tokens.old result tokens.new }
    ensures low { IfOk result (IsLow (height + 1)) }
{
    let at = tokens.at();
    tokens.expect(Key::Tilde)?;
    let inner = expr(alloc, tokens, 0, height, brackets)?;
    Ok(Found {
        tree: Expr::Invert(at, Box::new(alloc, inner.tree)?),
        height: inner.height + 1,
    })
}

/// `-` and an operand.
#[tactic(auto, unfolding(crate::specs::Reading::opposite_at))]
#[cycle(read)]
fn opposite(alloc: Global, tokens: &mut Cursor, height: u16, brackets: u16) -> Result<Found, Halt>
    requires { height ≤ 256 }
    ensures reads { Moves tree_of (λ ws n. opposite_at ws n (expr_at ws n height brackets)) tokens.old result tokens.new }
    ensures low { IfOk result (IsLow (height + 1)) }
{
    let at = tokens.at();
    tokens.expect(Key::Minus)?;
    let inner = expr(alloc, tokens, 0, height, brackets)?;
    Ok(Found {
        tree: Expr::Negate(at, Box::new(alloc, inner.tree)?),
        height: inner.height + 1,
    })
}

/// What of a cast stands behind its first bracket, which stands at `start`.
#[tactic(auto, unfolding(crate::specs::Reading::cast_at))]
#[cycle(read)]
fn cast(
    alloc: Global,
    tokens: &mut Cursor,
    start: u32,
    height: u16,
    brackets: u16,
) -> Result<Found, Halt>
    requires { height ≤ 256 }
    ensures reads { Moves tree_of (λ ws n. cast_at ws n (expr_at ws n height brackets) start) tokens.old result tokens.new }
    ensures low { IfOk result (IsLow (height + 1)) }
{
    let ty = scalar(tokens)?;
    tokens.expect(Key::Close)?;
    let inner = expr(alloc, tokens, 0, height, brackets)?;
    Ok(Found {
        tree: Expr::Cast(start, ty, Box::new(alloc, inner.tree)?),
        height: inner.height + 1,
    })
}

/// An expression and the bracket behind it, perhaps with slices. Its first bracket stands at
/// `start`.
#[tactic(auto, unfolding(crate::specs::Reading::bracket_at))]
#[cycle(read)]
fn bracket(
    alloc: Global,
    tokens: &mut Cursor,
    start: u32,
    height: u16,
    brackets: u16,
) -> Result<Found, Halt>
    requires { height ≤ 256 }
    ensures reads { Moves tree_of (λ ws n. bracket_at ws n (expr_at ws n height brackets) height start) tokens.old result tokens.new }
    ensures low { IfOk result (IsLow height) }
{
    let inner = expr(alloc, tokens, 11, height, brackets)?;
    tokens.expect(Key::Close)?;
    slices(alloc, tokens, start, inner, height)
}

/// Whether a type of numbers or of truth values begins here.
fn at_scalar(tokens: &Cursor) -> bool
    ensures value { result ≡ is_scalar (slice_get tokens.now.lexemes tokens.now.at) }
    ensures inside { tokens.now.at ≤ length tokens.now.lexemes }
{
    tokens.is(Key::Bit) || tokens.is(Key::Bool)
}

/// A cast, or an expression in brackets.
#[tactic(auto, unfolding(crate::specs::Reading::opened_at), using(crate::proofs::Layers::expr_layers))]
#[cycle(read)]
fn opened(alloc: Global, tokens: &mut Cursor, height: u16, brackets: u16) -> Result<Found, Halt>
    requires { height ≤ 256 }
    ensures reads { Moves tree_of (λ ws n. opened_at ws n (inside_of ws n height brackets) (below_of ws n height brackets) height brackets) tokens.old result tokens.new }
    ensures low { IfOk result (IsLow height) }
{
    let at = tokens.at();
    tokens.open(brackets)?;
    if at_scalar(tokens) {
        tokens.room(height, 2)?;
        cast(alloc, tokens, at, height - 1, brackets)
    } else {
        bracket(alloc, tokens, at, height, brackets - 1)
    }
}

/// An operand, perhaps with signs and casts before it and slices behind it.
#[tactic(auto, unfolding(crate::specs::Reading::operand_at), using(crate::proofs::Layers::expr_layers))]
#[cycle(read)]
pub fn operand(
    alloc: Global,
    tokens: &mut Cursor,
    height: u16,
    brackets: u16,
) -> Result<Found, Halt>
    requires { height ≤ 256 }
    ensures reads { Moves tree_of (λ ws n. operand_at ws n (inside_of ws n height brackets) (below_of ws n height brackets) height brackets) tokens.old result tokens.new }
    ensures low { IfOk result (IsLow height) }
{
    if tokens.is(Key::Not) {
        tokens.room(height, 2)?;
        negation(alloc, tokens, height - 1, brackets)
    } else if tokens.is(Key::Tilde) {
        tokens.room(height, 2)?;
        inversion(alloc, tokens, height - 1, brackets)
    } else if tokens.is(Key::Minus) {
        tokens.room(height, 2)?;
        opposite(alloc, tokens, height - 1, brackets)
    } else if tokens.is(Key::Open) {
        tokens.room(height, 1)?;
        opened(alloc, tokens, height, brackets)
    } else {
        postfix(alloc, tokens, height, brackets)
    }
}
