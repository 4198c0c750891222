//! Reading types of numbers and of truth values.

ghost use Rattle.std.specs.Prelude.{◌≡◌, Some, None, if◌then◌else◌, nat_le};
ghost use Rattle.lex_words.specs.Moving.{Moves};
ghost use Rattle.p4_expressions.specs.Reading.{bits_at, scalar_at, small_at, truth_at, width_at};

use lex_text::Literal;
use lex_words::{Cursor, Halt, Key};
use p4_tree::PTy;

/// The value, as a number of a type or a slice has it.
fn cut(value: Literal) -> Option<u8>
    ensures { result ≡ (if nat_le value.value 255 then Some value.value else None) }
{
    if value.value <= 255 {
        Some(value.value as u8)
    } else {
        None
    }
}

/// A number of a type or a slice, at most 255. A written width has no effect.
#[tactic(auto, unfolding(crate::specs::Reading::small_at, lex_words::specs::Reading::numbered_at))]
pub fn small(tokens: &mut Cursor) -> Result<u8, Halt>
    ensures { Moves (λ x. x) small_at tokens.old result tokens.new }
{
    let at = tokens.at();
    match cut(tokens.number()?) {
        Some(number) => Ok(number),
        None => Err(Halt::Wrong(at)),
    }
}

/// `<`, a number and `>`, behind `bit`.
#[tactic(auto, unfolding(crate::specs::Reading::width_at))]
fn width(tokens: &mut Cursor) -> Result<PTy, Halt>
    ensures { Moves (λ x. x) width_at tokens.old result tokens.new }
{
    tokens.expect(Key::Less)?;
    let width = small(tokens)?;
    tokens.expect(Key::More)?;
    Ok(PTy::Bit(width))
}

/// `bit`, perhaps with a width.
#[tactic(auto, unfolding(crate::specs::Reading::bits_at))]
fn bits(tokens: &mut Cursor) -> Result<PTy, Halt>
    ensures { Moves (λ x. x) bits_at tokens.old result tokens.new }
{
    tokens.expect(Key::Bit)?;
    if tokens.is(Key::Less) {
        width(tokens)
    } else {
        Ok(PTy::Bit(1))
    }
}

/// `bool`.
#[tactic(auto, unfolding(crate::specs::Reading::truth_at))]
fn truth(tokens: &mut Cursor) -> Result<PTy, Halt>
    ensures { Moves (λ x. x) truth_at tokens.old result tokens.new }
{
    tokens.expect(Key::Bool)?;
    Ok(PTy::Bool)
}

/// A type of numbers or of truth values.
#[tactic(auto, unfolding(crate::specs::Reading::scalar_at))]
pub fn scalar(tokens: &mut Cursor) -> Result<PTy, Halt>
    ensures { Moves (λ x. x) scalar_at tokens.old result tokens.new }
{
    if tokens.is(Key::Bool) {
        truth(tokens)
    } else {
        bits(tokens)
    }
}
