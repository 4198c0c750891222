//! Reading the numbers of types, sizes and casts.

ghost use Rattle.std.specs.Prelude.{◌≡◌, Some, None, if◌then◌else◌};
ghost use Rattle.lex_words.specs.Moving.{Moves};
ghost use Rattle.indus_expressions.specs.Reading.{is_size, sized_at};

use lex_text::Literal;
use lex_words::{Cursor, Halt};

/// The value, as a number of a type, a size or a cast has it.
fn small(value: Literal) -> Option<u8>
    ensures { result ≡ (if is_size value then Some value.value else None) }
{
    if value.width == 0 && value.value <= 255 {
        Some(value.value as u8)
    } else {
        None
    }
}

/// A number of a type, a size or a cast.
#[tactic(auto, unfolding(crate::specs::Reading::sized_at, lex_words::specs::Reading::numbered_at))]
pub fn size(tokens: &mut Cursor) -> Result<u8, Halt>
    ensures { Moves (λ x. x) sized_at tokens.old result tokens.new }
{
    let at = tokens.at();
    match small(tokens.number()?) {
        Some(size) => Ok(size),
        None => Err(Halt::Wrong(at)),
    }
}
