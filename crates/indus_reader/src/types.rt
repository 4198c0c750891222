//! Reading types, keys and shapes.

ghost use Rattle.lex_words.specs.Moving.{Moves, Stays};
ghost use Rattle.indus_tree.specs.View.{shape_of};
ghost use Rattle.indus_reader.specs.Declaring.{bit_at, closed_at, closed_bit_at, dict_at, held_at, key_at, others_at, parts_at, set_at, shape_at, size_at, type_at, width_at};

use indus_expressions::size;
use indus_tree::{Shape, Ty};
use lex_words::{Cursor, Halt, Key};
use std::alloc::Global;

/// `bit`, `<` and a width.
#[tactic(auto, unfolding(crate::specs::Declaring::width_at))]
fn width(tokens: &mut Cursor) -> Result<u8, Halt>
    ensures { Moves (λ x. x) width_at tokens.old result tokens.new }
{
    tokens.expect(Key::Bit)?;
    tokens.expect(Key::Less)?;
    size(tokens)
}

/// `bit` with its width in angle brackets.
#[tactic(auto, unfolding(crate::specs::Declaring::bit_at))]
fn bit(tokens: &mut Cursor) -> Result<Ty, Halt>
    ensures { Moves (λ x. x) bit_at tokens.old result tokens.new }
{
    let bits = width(tokens)?;
    tokens.expect(Key::More)?;
    Ok(Ty::Bit(bits))
}

/// A type.
#[tactic(auto, unfolding(crate::specs::Declaring::type_at))]
pub fn type_of(tokens: &mut Cursor) -> Result<Ty, Halt>
    ensures { Moves (λ x. x) type_at tokens.old result tokens.new }
{
    if tokens.eat(Key::Bool) {
        Ok(Ty::Bool)
    } else {
        bit(tokens)
    }
}

/// `bit` with its width, and `>` behind it; the mark `>>` closes both.
#[tactic(auto, unfolding(crate::specs::Declaring::closed_bit_at))]
fn closed_bit(tokens: &mut Cursor) -> Result<Ty, Halt>
    ensures { Moves (λ x. x) closed_bit_at tokens.old result tokens.new }
{
    let bits = width(tokens)?;
    if tokens.eat(Key::ShiftRight) {
        return Ok(Ty::Bit(bits));
    }
    tokens.expect(Key::More)?;
    tokens.expect(Key::More)?;
    Ok(Ty::Bit(bits))
}

/// A type and `>` behind it.
#[tactic(auto, unfolding(crate::specs::Declaring::closed_at))]
fn closed(tokens: &mut Cursor) -> Result<Ty, Halt>
    ensures { Moves (λ x. x) closed_at tokens.old result tokens.new }
{
    if tokens.eat(Key::Bool) {
        tokens.expect(Key::More)?;
        Ok(Ty::Bool)
    } else {
        closed_bit(tokens)
    }
}

/// Types behind the first two, with commas before each.
fn other_types(tokens: &mut Cursor, types: Vec<Ty>) -> Result<Vec<Ty>, Halt>
    ensures { Stays (λ x. x.items) (λ ws n. others_at ws n types.items) tokens.old result tokens.new }
{
    let mut types = types;
    'items: while tokens.eat(Key::Comma) {
        types.push(type_of(tokens)?)?;
    }
    Ok(types)
}

/// Two types or more and a closing bracket.
#[tactic(auto, unfolding(crate::specs::Declaring::parts_at))]
fn parts(alloc: Global, tokens: &mut Cursor) -> Result<Vec<Ty>, Halt>
    ensures { Moves (λ x. x.items) parts_at tokens.old result tokens.new }
{
    let first = type_of(tokens)?;
    tokens.expect(Key::Comma)?;
    let second = type_of(tokens)?;
    let mut types = Vec::new(alloc);
    types.push(first)?;
    types.push(second)?;
    let types = other_types(tokens, types)?;
    tokens.expect(Key::Close)?;
    Ok(types)
}

/// A key's parts.
#[tactic(auto, unfolding(crate::specs::Declaring::key_at))]
fn key(alloc: Global, tokens: &mut Cursor) -> Result<Vec<Ty>, Halt>
    ensures { Moves (λ x. x.items) key_at tokens.old result tokens.new }
{
    if tokens.eat(Key::Open) {
        parts(alloc, tokens)
    } else {
        let one = type_of(tokens)?;
        let mut types = Vec::new(alloc);
        types.push(one)?;
        Ok(types)
    }
}

/// The size behind a type, or one value of that type.
#[tactic(auto, unfolding(crate::specs::Declaring::size_at))]
fn sized(tokens: &mut Cursor, item: Ty) -> Result<Shape, Halt>
    ensures { Stays shape_of (λ ws n. size_at ws n item) tokens.old result tokens.new }
{
    if tokens.eat(Key::SquareOpen) {
        let number = size(tokens)?;
        tokens.expect(Key::SquareClose)?;
        Ok(Shape::List(item, number))
    } else {
        Ok(Shape::One(item))
    }
}

/// A type, perhaps with a size.
#[tactic(auto, unfolding(crate::specs::Declaring::shape_at))]
pub fn shape(tokens: &mut Cursor) -> Result<Shape, Halt>
    ensures { Moves shape_of shape_at tokens.old result tokens.new }
{
    let item = type_of(tokens)?;
    sized(tokens, item)
}

/// A set.
#[tactic(auto, unfolding(crate::specs::Declaring::set_at))]
fn set(alloc: Global, tokens: &mut Cursor) -> Result<Shape, Halt>
    ensures { Moves shape_of set_at tokens.old result tokens.new }
{
    tokens.expect(Key::Set)?;
    tokens.expect(Key::Less)?;
    if tokens.eat(Key::Open) {
        let types = parts(alloc, tokens)?;
        tokens.expect(Key::More)?;
        Ok(Shape::SetOf(types))
    } else {
        let one = closed(tokens)?;
        let mut types = Vec::new(alloc);
        types.push(one)?;
        Ok(Shape::SetOf(types))
    }
}

/// A dict.
#[tactic(auto, unfolding(crate::specs::Declaring::dict_at))]
fn dict(alloc: Global, tokens: &mut Cursor) -> Result<Shape, Halt>
    ensures { Moves shape_of dict_at tokens.old result tokens.new }
{
    tokens.expect(Key::Dict)?;
    tokens.expect(Key::Less)?;
    let types = key(alloc, tokens)?;
    tokens.expect(Key::Comma)?;
    let value = closed(tokens)?;
    Ok(Shape::DictOf(types, value))
}

/// What a control variable holds.
#[tactic(auto, unfolding(crate::specs::Declaring::held_at))]
pub fn held(alloc: Global, tokens: &mut Cursor) -> Result<Shape, Halt>
    ensures { Moves shape_of held_at tokens.old result tokens.new }
{
    if tokens.is(Key::Set) {
        set(alloc, tokens)
    } else if tokens.is(Key::Dict) {
        dict(alloc, tokens)
    } else {
        Ok(Shape::One(type_of(tokens)?))
    }
}
