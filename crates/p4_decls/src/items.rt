//! Reading the same again and again.

ghost use Rattle.std.specs.Prelude.{◌≡◌, ◌≤◌, Option, Bool, map, length, slice_get};
ghost use Rattle.lex_words.specs.Moving.{Moves, Reader, Stays};
ghost use Rattle.lex_words.specs.Seen.{Lexeme};
ghost use Rattle.p4_decls.specs.Repeating.{each_at, list_at, more_at, some_at};

use lex_words::{Cursor, Halt, Key};
use std::alloc::Global;

/// What may stand more than once.
pub trait Item {
    type Found: Drop;

    /// What contracts see of one.
    ghost Tree: { Type 0 };

    ghost view: { Self.Found → Tree };

    /// How one is read.
    ghost reader: { Reader Tree };

    /// Reads one.
    fn read(alloc: Global, tokens: &mut Cursor) -> Result<Self::Found, Halt>
        ensures { Moves view reader tokens.old result tokens.new };
}

/// What stands one behind the other.
pub trait Items: Item {
    /// The lexemes that end them.
    ghost stop: { Option Lexeme → Bool };

    /// Whether they end here.
    fn end(tokens: &Cursor) -> bool
        ensures value { result ≡ stop (slice_get tokens.now.lexemes tokens.now.at) }
        ensures inside { tokens.now.at ≤ length tokens.now.lexemes };
}

/// As many as stand here.
pub fn each<I: Items>(alloc: Global, tokens: &mut Cursor) -> Result<Vec<I::Found>, Halt>
    ensures { Stays (λ x. map I.view x.items) (λ ws n. each_at ws I.stop (I.reader ws n) n) tokens.old result tokens.new }
{
    let mut items = Vec::new(alloc);
    'items: while !I::end(tokens) {
        items.push(I::read(alloc, tokens)?)?;
    }
    Ok(items)
}

/// More behind one, each behind a comma.
fn more<I: Item>(alloc: Global, tokens: &mut Cursor, first: I::Found) -> Result<Vec<I::Found>, Halt>
    ensures { Stays (λ x. map I.view x.items) (λ ws n. more_at ws (I.reader ws n) n (I.view first)) tokens.old result tokens.new }
{
    let mut items = Vec::new(alloc);
    items.push(first)?;
    'items: while tokens.eat(Key::Comma) {
        items.push(I::read(alloc, tokens)?)?;
    }
    Ok(items)
}

/// One or more, with commas between them.
#[tactic(auto, unfolding(crate::specs::Repeating::list_at))]
pub fn listed<I: Item>(alloc: Global, tokens: &mut Cursor) -> Result<Vec<I::Found>, Halt>
    ensures { Moves (λ x. map I.view x.items) (λ ws n. list_at ws (I.reader ws n) n) tokens.old result tokens.new }
{
    let first = I::read(alloc, tokens)?;
    more::<I>(alloc, tokens, first)
}

/// The same, or nothing where a bracket closes.
#[tactic(auto, unfolding(crate::specs::Repeating::some_at))]
pub fn some<I: Item>(alloc: Global, tokens: &mut Cursor) -> Result<Vec<I::Found>, Halt>
    ensures { Stays (λ x. map I.view x.items) (λ ws n. some_at ws (I.reader ws n) n) tokens.old result tokens.new }
{
    if tokens.is(Key::Close) {
        Ok(Vec::new(alloc))
    } else {
        listed::<I>(alloc, tokens)
    }
}
