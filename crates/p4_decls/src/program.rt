//! Reading the declarations of a program, and what names its parts.

ghost use Rattle.std.specs.Prelude.{◌≡◌, ◌+◌, ◌≤◌, Ok, ℕ, List, length, map};
ghost use Rattle.lex_text.specs.Places.{AreIn};
ghost use Rattle.lex_text.specs.declared.token.Words.TheVariants.{P4};
ghost use Rattle.lex_words.specs.Moving.{Moves, Stays};
ghost use Rattle.lex_words.specs.Reading.{Gives};
ghost use Rattle.lex_words.specs.Seen.{lexemes_of};
ghost use Rattle.lex_words.specs.Written.{AreLexemes};
ghost use Rattle.p4_tree.specs.Tree.{Top as TopTree};
ghost use Rattle.p4_tree.specs.View.{program_of, top_of};
ghost use Rattle.p4_tree.specs.declared.statement.PTy.{PTy as Ty};
ghost use Rattle.p4_decls.specs.Declaring.{field_at};
ghost use Rattle.p4_decls.specs.Parsing.{closes_brace};
ghost use Rattle.p4_decls.specs.Programs.{ends_tops, header_at, includes_at, main_at, part_at, parts_at, program_at, program_read, struct_at, top_at, typedef_at};

use crate::control::control;
use crate::decl::{field, register};
use crate::items::{Item, Items, each, listed};
use crate::parser::parser;
use lex_text::{Name, Token, Words};
use lex_words::{Cursor, Halt, Key, is_inclusion};
use p4_reader::constant;
use p4_tree::{PTy, Program, Top};
use std::alloc::Global;

/// A type's new name.
#[tactic(auto, unfolding(crate::specs::Programs::typedef_at))]
fn typedef(alloc: Global, tokens: &mut Cursor) -> Result<Top, Halt>
    ensures { Moves top_of (λ ws n. typedef_at ws n 256 255) tokens.old result tokens.new }
{
    let at = tokens.at();
    tokens.expect(Key::Typedef)?;
    let (ty, name) = field(alloc, tokens)?;
    Ok(Top::Typedef(at, ty, name))
}

/// The fields of a header or a struct.
struct Fields;

impl Item for Fields {
    type Found = (PTy, Name);

    ghost Tree = { Ty × List ℕ };

    ghost view = { λ x. x };

    ghost reader = { field_at };

    fn read(alloc: Global, tokens: &mut Cursor) -> Result<(PTy, Name), Halt> {
        field(alloc, tokens)
    }
}

impl Items for Fields {
    ghost stop = { closes_brace };

    fn end(tokens: &Cursor) -> bool {
        tokens.is(Key::BraceClose)
    }
}

/// A header type.
#[tactic(auto, unfolding(crate::specs::Programs::header_at), using(crate::proofs::Lists::same_maps))]
fn header(alloc: Global, tokens: &mut Cursor) -> Result<Top, Halt>
    ensures { Moves top_of (λ ws n. header_at ws n 256 255) tokens.old result tokens.new }
{
    let at = tokens.at();
    tokens.expect(Key::Header)?;
    let name = tokens.name(alloc)?;
    tokens.expect(Key::BraceOpen)?;
    let fields = each::<Fields>(alloc, tokens)?;
    tokens.expect(Key::BraceClose)?;
    Ok(Top::Header(at, name, fields))
}

/// A struct type.
#[tactic(auto, unfolding(crate::specs::Programs::struct_at), using(crate::proofs::Lists::same_maps))]
fn structure(alloc: Global, tokens: &mut Cursor) -> Result<Top, Halt>
    ensures { Moves top_of (λ ws n. struct_at ws n 256 255) tokens.old result tokens.new }
{
    let at = tokens.at();
    tokens.expect(Key::Struct)?;
    let name = tokens.name(alloc)?;
    tokens.expect(Key::BraceOpen)?;
    let fields = each::<Fields>(alloc, tokens)?;
    tokens.expect(Key::BraceClose)?;
    Ok(Top::Struct(at, name, fields))
}

/// A declaration.
#[tactic(auto, unfolding(crate::specs::Programs::top_at))]
fn declaration(alloc: Global, tokens: &mut Cursor) -> Result<Top, Halt>
    ensures { Moves top_of (λ ws n. top_at ws n 256 255) tokens.old result tokens.new }
{
    let at = tokens.at();
    if tokens.is(Key::Const) {
        let found = constant(alloc, tokens, 255)?;
        Ok(Top::Const(at, found.ty, found.name, found.value))
    } else if tokens.is(Key::Typedef) {
        typedef(alloc, tokens)
    } else if tokens.is(Key::Register) {
        Ok(Top::Reg(at, register(alloc, tokens)?))
    } else if tokens.is(Key::Parser) {
        Ok(Top::Pars(at, parser(alloc, tokens)?))
    } else if tokens.is(Key::Control) {
        Ok(Top::Ctl(at, control(alloc, tokens)?))
    } else if tokens.is(Key::Header) {
        header(alloc, tokens)
    } else {
        structure(alloc, tokens)
    }
}

/// The declarations of a program.
struct Declarations;

impl Item for Declarations {
    type Found = Top;

    ghost Tree = { TopTree };

    ghost view = { top_of };

    ghost reader = { λ ws n. top_at ws n 256 255 };

    fn read(alloc: Global, tokens: &mut Cursor) -> Result<Top, Halt> {
        declaration(alloc, tokens)
    }
}

impl Items for Declarations {
    ghost stop = { ends_tops };

    fn end(tokens: &Cursor) -> bool {
        tokens.is(Key::V1Switch)
    }
}

/// A parser or control that `main` names.
#[tactic(auto, unfolding(crate::specs::Programs::part_at))]
fn part(alloc: Global, tokens: &mut Cursor) -> Result<Name, Halt>
    ensures { Moves (λ x. x) (λ ws n. part_at ws n 256 255) tokens.old result tokens.new }
{
    let name = tokens.name(alloc)?;
    tokens.expect(Key::Open)?;
    tokens.expect(Key::Close)?;
    Ok(name)
}

/// The parser and the controls that `main` names.
struct Parts;

impl Item for Parts {
    type Found = Name;

    ghost Tree = { List ℕ };

    ghost view = { λ x. x };

    ghost reader = { λ ws n. part_at ws n 256 255 };

    fn read(alloc: Global, tokens: &mut Cursor) -> Result<Name, Halt> {
        part(alloc, tokens)
    }
}

/// The names of the parts in their brackets.
#[tactic(auto, unfolding(crate::specs::Programs::parts_at), using(crate::proofs::Lists::same_maps))]
fn part_names(alloc: Global, tokens: &mut Cursor) -> Result<Vec<Name>, Halt>
    ensures { Moves (λ x. x.items) (λ ws n. parts_at ws n 256 255) tokens.old result tokens.new }
{
    tokens.expect(Key::V1Switch)?;
    tokens.expect(Key::Open)?;
    let names = listed::<Parts>(alloc, tokens)?;
    tokens.expect(Key::Close)?;
    Ok(names)
}

/// What names the parts.
#[tactic(auto, unfolding(crate::specs::Programs::main_at))]
fn main_parts(alloc: Global, tokens: &mut Cursor) -> Result<Vec<Name>, Halt>
    ensures { Moves (λ x. x.items) (λ ws n. main_at ws n 256 255) tokens.old result tokens.new }
{
    let names = part_names(alloc, tokens)?;
    tokens.expect_name(b"main")?;
    tokens.expect(Key::Semicolon)?;
    Ok(names)
}

/// Passes over the inclusions at the front.
fn inclusions(tokens: &mut Cursor, text: &[u8], list: &[Token])
    requires { tokens.old.lexemes ≡ lexemes_of P4 text.now list.now }
    ensures { Stays (λ _. tt) (λ ws n. includes_at ws n 256 255 n) tokens.old (Ok result) tokens.new }
{
    'items: while is_inclusion(list, tokens.at() as usize) {
        tokens.skip();
    }
}

/// The program that all tokens spell.
#[tactic(auto, unfolding(crate::specs::Programs::program_at, crate::specs::Programs::whole_at, lex_words::specs::Reading::all_read))]
fn whole(alloc: Global, tokens: &mut Cursor, text: &[u8], list: &[Token]) -> Result<Program, Halt>
    requires start { tokens.old.at ≡ 0 }
    requires lexemes { tokens.old.lexemes ≡ lexemes_of P4 text.now list.now }
    ensures { Gives program_of result (program_at tokens.old.lexemes (length tokens.old.lexemes + 1) 256 255) }
{
    inclusions(tokens, text, list);
    let tops = each::<Declarations>(alloc, tokens)?;
    let main = main_parts(alloc, tokens)?;
    if !tokens.is_end() {
        return Err(Halt::Wrong(tokens.at()));
    }
    Ok(Program { at: 0, tops, main })
}

/// The same, of a list of tokens.
pub fn read_tokens(alloc: Global, text: &[u8], list: &[Token]) -> Result<Program, Halt>
    requires fits { AreIn text.now list.now }
    requires fair { AreLexemes P4 (lexemes_of P4 text.now list.now) }
    requires short { length list.now ≤ 16777216 }
    ensures { Gives program_of result (program_read (lexemes_of P4 text.now list.now)) }
{
    let mut tokens = Cursor::new(Words::P4, text, list);
    whole(alloc, &mut tokens, text, list)
}
