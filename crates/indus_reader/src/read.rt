//! Reading a whole text.

ghost use Rattle.std.specs.Prelude.{◌≡◌, ◌+◌, ◌≤◌, ◌^◌, length, IfOk, IfErr};
ghost use Rattle.lex_text.specs.Tokens.{FaultOf};
ghost use Rattle.lex_text.specs.declared.fault.LexFault.{LexFault as Fault};
ghost use Rattle.lex_text.specs.Places.{AreIn};
ghost use Rattle.lex_text.specs.declared.token.Words.TheVariants.{Indus};
ghost use Rattle.lex_words.specs.Seen.{lexemes_of};
ghost use Rattle.lex_words.specs.Written.{AreLexemes};
ghost use Rattle.lex_words.specs.Moving.{Moves, Stays};
ghost use Rattle.lex_words.specs.Reading.{Gives};
ghost use Rattle.indus_tree.specs.Reports.{HasReportsBelow};
ghost use Rattle.indus_tree.specs.Tree.{Property as Tree};
ghost use Rattle.indus_tree.specs.View.{property_of};
ghost use Rattle.indus_reader.specs.Faults.{HasCause, IsAnswer, IsProperty, IsRefusal};
ghost use Rattle.indus_reader.specs.Reading.{edition_at, is_two, property_at, property_read, second_at};

use crate::decl::declarations;
use crate::fault::PropertyFault;
use crate::stmt::block;
use indus_tree::Property;
use lex_text::{LexFault, Literal, Token, Words, tokens};
use lex_words::{Cursor, Halt, Key};
use std::alloc::Global;

/// Whether a number is 2, without a written width.
fn is_two(value: Literal) -> bool
    ensures { result ≡ is_two value }
{
    value.width == 0 && value.value == 2
}

/// The number of the second edition.
#[tactic(auto, unfolding(crate::specs::Reading::second_at, lex_words::specs::Reading::numbered_at))]
fn second(tokens: &mut Cursor) -> Result<u8, Halt>
    ensures { Moves (λ x. x) (λ ws n. second_at ws n 256) tokens.old result tokens.new }
{
    let at = tokens.at();
    if is_two(tokens.number()?) {
        Ok(2)
    } else {
        Err(Halt::Wrong(at))
    }
}

/// The edition: 2 behind `edition 2;`, and else 1.
#[tactic(auto, unfolding(crate::specs::Reading::edition_at))]
fn edition(tokens: &mut Cursor) -> Result<u8, Halt>
    ensures { Stays (λ x. x) (λ ws n. edition_at ws n 256) tokens.old result tokens.new }
{
    if tokens.eat(Key::Edition) {
        let number = second(tokens)?;
        tokens.expect(Key::Semicolon)?;
        Ok(number)
    } else {
        Ok(1)
    }
}

/// The property that all tokens spell.
#[tactic(auto, unfolding(crate::specs::Reading::property_at, crate::specs::Reading::whole_at, lex_words::specs::Reading::all_read))]
fn whole(alloc: Global, tokens: &mut Cursor) -> Result<Property, Halt>
    requires start { tokens.old.at ≡ 0 }
    requires short { length tokens.old.lexemes ≤ 65536 }
    ensures { Gives property_of result (property_at tokens.old.lexemes (length tokens.old.lexemes + 1) 256 255) }
{
    let edition = edition(tokens)?;
    let decls = declarations(alloc, tokens)?;
    let init = block(alloc, tokens, 255, 0)?;
    let tele = block(alloc, tokens, 255, init.reports)?;
    let check = block(alloc, tokens, 255, tele.reports)?;
    if !tokens.is_end() {
        return Err(Halt::Wrong(tokens.at()));
    }
    Ok(Property {
        at: 0,
        edition,
        decls,
        init: init.stmts,
        tele: tele.stmts,
        check: check.stmts,
    })
}

/// The same, of a list of tokens.
fn property(alloc: Global, text: &[u8], list: &[Token]) -> Result<Property, Halt>
    requires fits { AreIn text.now list.now }
    requires fair { AreLexemes Indus (lexemes_of Indus text.now list.now) }
    requires short { length list.now ≤ 65536 }
    ensures { Gives property_of result (property_read (lexemes_of Indus text.now list.now)) }
{
    let mut tokens = Cursor::new(Words::Indus, text, list);
    whole(alloc, &mut tokens)
}

/// The property that a text spells.
pub fn read_property(alloc: Global, text: &[u8]) -> Result<Property, PropertyFault>
    requires { length text.now ≤ 65536 }
    // What is given is spelled by the text, within the limits.
    ensures found { IfOk result (λ p. IsProperty text.now (property_of p)) }
    // Reports are numbered from 0 in the order of the text, and a number has 16 bits.
    ensures numbers { IfOk result (λ p. HasReportsBelow (2 ^ 16) (property_of p)) }
    // A text that spells a property within the limits is refused for want of memory alone.
    ensures only { (t : Tree) → IsProperty text.now t → IsAnswer result t }
    // A text that has no tokens is refused for its first fault, or for want of memory.
    ensures lexed { (f : Fault) → FaultOf Indus text.now f → IsRefusal result f }
    // Each refusal has its cause in the text.
    ensures cause { IfErr result (λ fault. HasCause text.now fault) }
{
    let list = match tokens(alloc, text, Words::Indus) {
        Ok(list) => list,
        Err(LexFault::NoMemory) => return Err(PropertyFault::NoMemory),
        Err(fault) => return Err(PropertyFault::Lex(fault)),
    };
    match property(alloc, text, &list) {
        Ok(found) => Ok(found),
        Err(Halt::Wrong(at)) => Err(PropertyFault::Syntax { at }),
        Err(Halt::High(at)) => Err(PropertyFault::TooDeep { at }),
        Err(Halt::Deep(at)) => Err(PropertyFault::TooDeep { at }),
        Err(Halt::NoMemory) => Err(PropertyFault::NoMemory),
    }
}
