//! Reading registers, parameters and fields.

ghost use Rattle.std.specs.Prelude.{ℕ, List, map};
ghost use Rattle.lex_words.specs.Moving.{Moves, Stays};
ghost use Rattle.p4_tree.specs.declared.statement.PTy.{PTy as Ty};
ghost use Rattle.p4_tree.specs.declared.program.Param.{Param as Parameter};
ghost use Rattle.p4_decls.specs.Repeating.{list_at};
ghost use Rattle.p4_decls.specs.Declaring.{argument_at, closed_at, closed_bits_at, closed_width_at, field_at, param_at, register_at, way_at};

use crate::items::{Item, listed};
use lex_text::Name;
use lex_words::{Cursor, Halt, Key};
use p4_expressions::small;
use p4_reader::type_of;
use p4_tree::{PTy, Param, Register, Way};
use std::alloc::Global;

/// `<`, a number, and what closes two angle brackets, behind `bit`.
#[tactic(auto, unfolding(crate::specs::Declaring::closed_width_at))]
fn closed_width(tokens: &mut Cursor) -> Result<PTy, Halt>
    ensures { Moves (λ x. x) closed_width_at tokens.old result tokens.new }
{
    tokens.expect(Key::Less)?;
    let width = small(tokens)?;
    if tokens.eat(Key::ShiftRight) {
        return Ok(PTy::Bit(width));
    }
    tokens.expect(Key::More)?;
    tokens.expect(Key::More)?;
    Ok(PTy::Bit(width))
}

/// `bit`, perhaps with a width, and `>`.
#[tactic(auto, unfolding(crate::specs::Declaring::closed_bits_at))]
fn closed_bits(tokens: &mut Cursor) -> Result<PTy, Halt>
    ensures { Moves (λ x. x) closed_bits_at tokens.old result tokens.new }
{
    tokens.expect(Key::Bit)?;
    if tokens.is(Key::Less) {
        closed_width(tokens)
    } else {
        tokens.expect(Key::More)?;
        Ok(PTy::Bit(1))
    }
}

/// A type and `>`; the mark `>>` closes the type's own `<` too.
#[tactic(auto, unfolding(crate::specs::Declaring::closed_at))]
fn closed(alloc: Global, tokens: &mut Cursor) -> Result<PTy, Halt>
    ensures { Moves (λ x. x) closed_at tokens.old result tokens.new }
{
    if tokens.is(Key::Bit) {
        closed_bits(tokens)
    } else {
        let found = type_of(alloc, tokens)?;
        tokens.expect(Key::More)?;
        Ok(found)
    }
}

/// A register.
#[tactic(auto, unfolding(crate::specs::Declaring::register_at))]
pub fn register(alloc: Global, tokens: &mut Cursor) -> Result<Register, Halt>
    ensures { Moves (λ x. x) register_at tokens.old result tokens.new }
{
    let at = tokens.at();
    tokens.expect(Key::Register)?;
    tokens.expect(Key::Less)?;
    let ty = closed(alloc, tokens)?;
    tokens.expect(Key::Open)?;
    let count = tokens.number()?;
    tokens.expect(Key::Close)?;
    let name = tokens.name(alloc)?;
    tokens.expect(Key::Semicolon)?;
    Ok(Register {
        at,
        ty,
        count: count.value,
        name,
    })
}

/// How a parameter passes its value.
#[tactic(auto, unfolding(crate::specs::Declaring::way_at))]
fn way(tokens: &mut Cursor) -> Result<Way, Halt>
    ensures { Stays (λ x. x) way_at tokens.old result tokens.new }
{
    if tokens.eat(Key::In) {
        Ok(Way::Into)
    } else if tokens.eat(Key::Out) {
        Ok(Way::Out)
    } else if tokens.eat(Key::Inout) {
        Ok(Way::Both)
    } else {
        Ok(Way::Plain)
    }
}

/// A parameter of a parser or a control.
#[tactic(auto, unfolding(crate::specs::Declaring::param_at))]
fn parameter(alloc: Global, tokens: &mut Cursor) -> Result<Param, Halt>
    ensures { Moves (λ x. x) param_at tokens.old result tokens.new }
{
    let at = tokens.at();
    let way = way(tokens)?;
    let ty = type_of(alloc, tokens)?;
    let name = tokens.name(alloc)?;
    Ok(Param { at, way, ty, name })
}

/// Parameters of a parser or a control.
struct Params;

impl Item for Params {
    type Found = Param;

    ghost Tree = { Parameter };

    ghost view = { λ x. x };

    ghost reader = { param_at };

    fn read(alloc: Global, tokens: &mut Cursor) -> Result<Param, Halt> {
        parameter(alloc, tokens)
    }
}

/// Parameters with commas between them.
pub fn parameters(alloc: Global, tokens: &mut Cursor) -> Result<Vec<Param>, Halt>
    ensures { Moves (λ x. map (λ y. y) x.items) (λ ws n. list_at ws (param_at ws n) n) tokens.old result tokens.new }
{
    listed::<Params>(alloc, tokens)
}

/// A type and a name.
#[tactic(auto, unfolding(crate::specs::Declaring::argument_at))]
fn argument(alloc: Global, tokens: &mut Cursor) -> Result<(PTy, Name), Halt>
    ensures { Moves (λ x. x) argument_at tokens.old result tokens.new }
{
    let ty = type_of(alloc, tokens)?;
    let name = tokens.name(alloc)?;
    Ok((ty, name))
}

/// Parameters of an action.
pub struct Arguments;

impl Item for Arguments {
    type Found = (PTy, Name);

    ghost Tree = { Ty × List ℕ };

    ghost view = { λ x. x };

    ghost reader = { argument_at };

    fn read(alloc: Global, tokens: &mut Cursor) -> Result<(PTy, Name), Halt> {
        argument(alloc, tokens)
    }
}

/// A type, a name and a semicolon.
#[tactic(auto, unfolding(crate::specs::Declaring::field_at))]
pub fn field(alloc: Global, tokens: &mut Cursor) -> Result<(PTy, Name), Halt>
    ensures { Moves (λ x. x) field_at tokens.old result tokens.new }
{
    let found = argument(alloc, tokens)?;
    tokens.expect(Key::Semicolon)?;
    Ok(found)
}
