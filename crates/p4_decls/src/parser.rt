//! Reading parsers.

ghost use Rattle.std.specs.Prelude.{◌≡◌, ◌≤◌, ◌||◌, List, length, map, slice_get};
ghost use Rattle.lex_words.specs.Moving.{Moves, Stays};
ghost use Rattle.lex_words.specs.Seen.{at_key};
ghost use Rattle.p4_tree.specs.Tree.{Case, Expr as ExprTree, Keyset as KeysetTree, ParserState as StateTree, Stmt as StmtTree};
ghost use Rattle.p4_tree.specs.View.{case_of, expr_of, keyset_of, parser_of, state_of, stmt_of, transition_of};
ghost use Rattle.p4_spelling.specs.Operators.{top};
ghost use Rattle.p4_expressions.specs.Reading.{expr_at};
ghost use Rattle.p4_decls.specs.Repeating.{each_at, list_at};
ghost use Rattle.p4_decls.specs.Parsing.{case_at, closes_brace, ends_steps, keys_at, keyset_at, masked_at, next_at, one_name_at, parser_at, select_at, simple_at, state_at, step_at, taken_at, to_at, transition_at};

use crate::decl::parameters;
use crate::items::{Item, Items, each, listed};
use lex_text::Name;
use lex_words::{Cursor, Halt, Key};
use p4_expressions::{expr, names};
use p4_reader::assignment;
use p4_tree::{Arg, Expr, Keyset, Parser, ParserState, Stmt, Transition};
use std::alloc::Global;

/// A path in brackets behind a path, which begins at `start`.
#[tactic(auto, unfolding(crate::specs::Parsing::taken_at))]
fn taken(alloc: Global, tokens: &mut Cursor, start: u32, path: Vec<Name>) -> Result<Stmt, Halt>
    ensures { Moves stmt_of (λ ws n. taken_at ws n 256 251 start path.items) tokens.old result tokens.new }
{
    tokens.expect(Key::Open)?;
    let at = tokens.at();
    let taken = names(alloc, tokens)?;
    tokens.expect(Key::Close)?;
    tokens.expect(Key::Semicolon)?;
    let mut args = Vec::new(alloc);
    args.push(Arg::One(at, Expr::Path(at, taken)))?;
    Ok(Stmt::Call(start, path, args))
}

/// A statement of a state.
#[tactic(auto, unfolding(crate::specs::Parsing::step_at))]
fn step(alloc: Global, tokens: &mut Cursor) -> Result<Stmt, Halt>
    ensures { Moves stmt_of (λ ws n. step_at ws n 256 251) tokens.old result tokens.new }
{
    let at = tokens.at();
    let path = names(alloc, tokens)?;
    if tokens.is(Key::Open) {
        taken(alloc, tokens, at, path)
    } else {
        assignment(alloc, tokens, at, path, 251)
    }
}

/// The statements of a state.
struct Steps;

impl Item for Steps {
    type Found = Stmt;

    ghost Tree = { StmtTree };

    ghost view = { stmt_of };

    ghost reader = { λ ws n. step_at ws n 256 251 };

    fn read(alloc: Global, tokens: &mut Cursor) -> Result<Stmt, Halt> {
        step(alloc, tokens)
    }
}

impl Items for Steps {
    ghost stop = { ends_steps };

    fn end(tokens: &Cursor) -> bool {
        tokens.is(Key::Transition) || tokens.is(Key::BraceClose)
    }
}

/// The path of one name.
#[tactic(auto, unfolding(crate::specs::Parsing::one_name_at))]
fn named(alloc: Global, tokens: &mut Cursor) -> Result<Vec<Name>, Halt>
    ensures { Moves (λ x. x.items) (λ ws n. one_name_at ws n 256 251) tokens.old result tokens.new }
{
    let name = tokens.name(alloc)?;
    let mut names = Vec::new(alloc);
    names.push(name)?;
    Ok(names)
}

/// A number, a name or a truth value.
#[tactic(auto, unfolding(crate::specs::Parsing::simple_at))]
fn simple(alloc: Global, tokens: &mut Cursor) -> Result<Expr, Halt>
    ensures { Moves expr_of (λ ws n. simple_at ws n 256 251) tokens.old result tokens.new }
{
    let at = tokens.at();
    if tokens.eat(Key::True) {
        Ok(Expr::Flag(at, true))
    } else if tokens.eat(Key::False) {
        Ok(Expr::Flag(at, false))
    } else if tokens.has_name() {
        let name = named(alloc, tokens)?;
        Ok(Expr::Path(at, name))
    } else {
        Ok(Expr::Num(at, tokens.number()?))
    }
}

/// A value, perhaps with a mask.
#[tactic(auto, unfolding(crate::specs::Parsing::masked_at))]
fn masked(alloc: Global, tokens: &mut Cursor) -> Result<Keyset, Halt>
    ensures { Moves keyset_of (λ ws n. masked_at ws n 256 251) tokens.old result tokens.new }
{
    let at = tokens.at();
    let value = simple(alloc, tokens)?;
    if tokens.eat(Key::Mask) {
        let mask = simple(alloc, tokens)?;
        Ok(Keyset::Masked(at, value, mask))
    } else {
        Ok(Keyset::One(at, value))
    }
}

/// What a key has to be.
#[tactic(auto, unfolding(crate::specs::Parsing::keyset_at))]
fn keyset(alloc: Global, tokens: &mut Cursor) -> Result<Keyset, Halt>
    ensures { Moves keyset_of (λ ws n. keyset_at ws n 256 251) tokens.old result tokens.new }
{
    let at = tokens.at();
    if tokens.eat(Key::Default) {
        Ok(Keyset::Any(at))
    } else if tokens.eat(Key::LowLine) {
        Ok(Keyset::Any(at))
    } else {
        masked(alloc, tokens)
    }
}

/// What keys have to be.
struct Keysets;

impl Item for Keysets {
    type Found = Keyset;

    ghost Tree = { KeysetTree };

    ghost view = { keyset_of };

    ghost reader = { λ ws n. keyset_at ws n 256 251 };

    fn read(alloc: Global, tokens: &mut Cursor) -> Result<Keyset, Halt> {
        keyset(alloc, tokens)
    }
}

/// The keys of a case.
#[tactic(auto, unfolding(crate::specs::Parsing::keys_at))]
fn keys(alloc: Global, tokens: &mut Cursor) -> Result<Vec<Keyset>, Halt>
    ensures { Moves (λ x. map keyset_of x.items) (λ ws n. keys_at ws n 256 251) tokens.old result tokens.new }
{
    if tokens.eat(Key::Open) {
        let found = listed::<Keysets>(alloc, tokens)?;
        tokens.expect(Key::Close)?;
        Ok(found)
    } else {
        let one = keyset(alloc, tokens)?;
        let mut found = Vec::new(alloc);
        found.push(one)?;
        Ok(found)
    }
}

/// A case.
#[tactic(auto, unfolding(crate::specs::Parsing::case_at))]
fn case(alloc: Global, tokens: &mut Cursor) -> Result<(Vec<Keyset>, Name), Halt>
    ensures { Moves case_of (λ ws n. case_at ws n 256 251) tokens.old result tokens.new }
{
    let keys = keys(alloc, tokens)?;
    tokens.expect(Key::Colon)?;
    let next = tokens.name(alloc)?;
    tokens.expect(Key::Semicolon)?;
    Ok((keys, next))
}

/// The cases of a `select`.
struct Cases;

impl Item for Cases {
    type Found = (Vec<Keyset>, Name);

    ghost Tree = { Case };

    ghost view = { case_of };

    ghost reader = { λ ws n. case_at ws n 256 251 };

    fn read(alloc: Global, tokens: &mut Cursor) -> Result<(Vec<Keyset>, Name), Halt> {
        case(alloc, tokens)
    }
}

impl Items for Cases {
    ghost stop = { closes_brace };

    fn end(tokens: &Cursor) -> bool {
        tokens.is(Key::BraceClose)
    }
}

/// The expressions of a `select`, and the arguments of a default action.
pub struct Values;

impl Item for Values {
    type Found = Expr;

    ghost Tree = { ExprTree };

    ghost view = { expr_of };

    ghost reader = { λ ws n. expr_at ws n 251 255 top };

    fn read(alloc: Global, tokens: &mut Cursor) -> Result<Expr, Halt> {
        let found = expr(alloc, tokens, 11, 251, 255)?;
        Ok(found.tree)
    }
}

/// A `select` behind `transition`, which stands at `start`.
#[tactic(auto, unfolding(crate::specs::Parsing::select_at))]
fn select(alloc: Global, tokens: &mut Cursor, start: u32) -> Result<Transition, Halt>
    ensures { Moves transition_of (λ ws n. select_at ws n 256 251 start) tokens.old result tokens.new }
{
    tokens.expect(Key::Select)?;
    tokens.expect(Key::Open)?;
    let values = listed::<Values>(alloc, tokens)?;
    tokens.expect(Key::Close)?;
    tokens.expect(Key::BraceOpen)?;
    let cases = each::<Cases>(alloc, tokens)?;
    tokens.expect(Key::BraceClose)?;
    Ok(Transition::Select(start, values, cases))
}

/// The name of a state behind `transition`, which stands at `start`.
#[tactic(auto, unfolding(crate::specs::Parsing::to_at))]
fn to(alloc: Global, tokens: &mut Cursor, start: u32) -> Result<Transition, Halt>
    ensures { Moves transition_of (λ ws n. to_at ws n 256 251 start) tokens.old result tokens.new }
{
    let name = tokens.name(alloc)?;
    tokens.expect(Key::Semicolon)?;
    Ok(Transition::To(start, name))
}

/// A transition.
#[tactic(auto, unfolding(crate::specs::Parsing::transition_at))]
fn transition(alloc: Global, tokens: &mut Cursor) -> Result<Transition, Halt>
    ensures { Moves transition_of (λ ws n. transition_at ws n 256 251) tokens.old result tokens.new }
{
    let at = tokens.at();
    tokens.expect(Key::Transition)?;
    if tokens.is(Key::Select) {
        select(alloc, tokens, at)
    } else {
        to(alloc, tokens, at)
    }
}

/// How a state goes on.
#[tactic(auto, unfolding(crate::specs::Parsing::next_at))]
fn next(alloc: Global, tokens: &mut Cursor) -> Result<Transition, Halt>
    ensures { Stays transition_of (λ ws n. next_at ws n 256 251) tokens.old result tokens.new }
{
    if tokens.is(Key::Transition) {
        transition(alloc, tokens)
    } else {
        Ok(Transition::None(tokens.at()))
    }
}

/// A state.
#[tactic(auto, unfolding(crate::specs::Parsing::state_at))]
fn state(alloc: Global, tokens: &mut Cursor) -> Result<ParserState, Halt>
    ensures { Moves state_of (λ ws n. state_at ws n 256 251) tokens.old result tokens.new }
{
    let at = tokens.at();
    tokens.expect(Key::State)?;
    let name = tokens.name(alloc)?;
    tokens.expect(Key::BraceOpen)?;
    let body = each::<Steps>(alloc, tokens)?;
    let next = next(alloc, tokens)?;
    tokens.expect(Key::BraceClose)?;
    Ok(ParserState {
        at,
        name,
        body,
        next,
    })
}

/// The states of a parser.
struct States;

impl Item for States {
    type Found = ParserState;

    ghost Tree = { StateTree };

    ghost view = { state_of };

    ghost reader = { λ ws n. state_at ws n 256 251 };

    fn read(alloc: Global, tokens: &mut Cursor) -> Result<ParserState, Halt> {
        state(alloc, tokens)
    }
}

impl Items for States {
    ghost stop = { closes_brace };

    fn end(tokens: &Cursor) -> bool {
        tokens.is(Key::BraceClose)
    }
}

/// A parser.
#[tactic(auto, unfolding(crate::specs::Parsing::parser_at), using(crate::proofs::Lists::same_maps))]
pub fn parser(alloc: Global, tokens: &mut Cursor) -> Result<Parser, Halt>
    ensures { Moves parser_of (λ ws n. parser_at ws n 256 251) tokens.old result tokens.new }
{
    let at = tokens.at();
    tokens.expect(Key::Parser)?;
    let name = tokens.name(alloc)?;
    tokens.expect(Key::Open)?;
    let params = parameters(alloc, tokens)?;
    tokens.expect(Key::Close)?;
    tokens.expect(Key::BraceOpen)?;
    let states = each::<States>(alloc, tokens)?;
    tokens.expect(Key::BraceClose)?;
    Ok(Parser {
        at,
        name,
        params,
        states,
    })
}
