//! Reading a whole text.

ghost use Rattle.std.specs.Prelude.{◌≡◌, ◌≤◌, length, slice_get, true, IfOk, IfErr};
ghost use Rattle.lex_text.specs.Tokens.{FaultOf};
ghost use Rattle.lex_text.specs.declared.fault.LexFault.{LexFault as Fault};
ghost use Rattle.std.specs.Option.{option_copied};
ghost use Rattle.lex_text.specs.Places.{AreIn, bytes_of};
ghost use Rattle.lex_text.specs.declared.token.Words.TheVariants.{P4};
ghost use Rattle.lex_words.specs.Keys.{bytes_of_key};
ghost use Rattle.lex_words.specs.Seen.{lexemes_of};
ghost use Rattle.lex_words.specs.Written.{AreLexemes};
ghost use Rattle.p4_tree.specs.Tree.{Program as Tree};
ghost use Rattle.p4_tree.specs.View.{program_of};
ghost use Rattle.p4_reader.specs.LeftOut.{is_left_out as leaves_out, is_left_out_key};
ghost use Rattle.p4_decls.specs.Faults.{HasCause, IsAnswer, IsProgram, IsRefusal, IsRefused, written_at};

use crate::fault::ProgramFault;
use crate::program::read_tokens;
use lex_text::{LexFault, Name, Token, Words, tokens};
use lex_words::{Halt, Key, key_at, name_at};
use p4_reader::is_left_out;
use p4_tree::Program;
use std::alloc::{AllocError, Global};

/// How a reserved word or a mark that is left out is written.
fn key_text(key: Key) -> &'static str
    requires { is_left_out_key key ≡ true }
    ensures { result.now ≡ bytes_of_key key }
{
    match key {
        Key::Error => "error",
        Key::AddCapped => "|+|",
        Key::SubCapped => "|-|",
        Key::DotDot => "..",
        Key::Slash => "/",
        Key::Percent => "%",
        Key::At => "@",
        Key::Hash => "#",
        _ => unreachable!(),
    }
}

/// The token at a place.
fn token_at(list: &[Token], at: usize) -> Option<&Token>
    ensures { option_copied result ≡ slice_get list.now at }
{
    list.get(at)
}

/// The bytes of a token.
fn token_bytes<'a>(text: &'a [u8], token: &Token) -> &'a [u8]
    requires rising { token.now.start ≤ token.now.end }
    requires inside { token.now.end ≤ length text.now }
    ensures { result.now ≡ bytes_of text.now token.now }
{
    &text[token.start as usize..token.end as usize]
}

/// How the token at a place is written, which is left out.
fn written(alloc: Global, text: &[u8], list: &[Token], at: usize) -> Result<Name, AllocError>
    requires fits { AreIn text.now list.now }
    requires fair { AreLexemes P4 (lexemes_of P4 text.now list.now) }
    requires left_out { leaves_out (slice_get (lexemes_of P4 text.now list.now) at) ≡ true }
    ensures { IfOk result (λ x. x ≡ written_at (slice_get (lexemes_of P4 text.now list.now) at)) }
{
    match key_at(Words::P4, text, list, at) {
        Some(key) => Name::new(alloc, key_text(key)),
        None => match name_at(Words::P4, text, list, at) {
            Some(bytes) => Name::from_ascii(alloc, bytes),
            None => match token_at(list, at) {
                Some(token) => Name::from_ascii(alloc, token_bytes(text, token)),
                None => unreachable!(),
            },
        },
    }
}

/// The refusal of a text with whose token at `at` no program goes on.
fn refusal(alloc: Global, text: &[u8], list: &[Token], at: u32) -> ProgramFault
    requires fits { AreIn text.now list.now }
    requires fair { AreLexemes P4 (lexemes_of P4 text.now list.now) }
    ensures { IsRefused (lexemes_of P4 text.now list.now) at result }
{
    if is_left_out(text, list, at as usize) {
        match written(alloc, text, list, at as usize) {
            Ok(what) => ProgramFault::LeftOut { at, what },
            Err(AllocError) => ProgramFault::NoMemory,
        }
    } else {
        ProgramFault::Syntax { at }
    }
}

/// The program that a text spells.
pub fn read_program(alloc: Global, text: &[u8]) -> Result<Program, ProgramFault>
    requires { length text.now ≤ 16777216 }
    // What is given is spelled by the text, within the limits.
    ensures found { IfOk result (λ p. IsProgram text.now (program_of p)) }
    // A text that spells a program within the limits is refused for want of memory alone.
    ensures only { (t : Tree) → IsProgram text.now t → IsAnswer result t }
    // A text that has no tokens is refused for its first fault, or for want of memory.
    ensures lexed { (f : Fault) → FaultOf P4 text.now f → IsRefusal result f }
    // Each refusal has its cause in the text.
    ensures cause { IfErr result (λ fault. HasCause text.now fault) }
{
    let list = match tokens(alloc, text, Words::P4) {
        Ok(list) => list,
        Err(LexFault::NoMemory) => return Err(ProgramFault::NoMemory),
        Err(fault) => return Err(ProgramFault::Lex(fault)),
    };
    match read_tokens(alloc, text, &list) {
        Ok(found) => Ok(found),
        Err(Halt::Wrong(at)) => Err(refusal(alloc, text, &list, at)),
        Err(Halt::High(at)) => Err(ProgramFault::TooDeep { at }),
        Err(Halt::Deep(at)) => Err(ProgramFault::TooDeep { at }),
        Err(Halt::NoMemory) => Err(ProgramFault::NoMemory),
    }
}
