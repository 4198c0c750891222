//! Reading paths and the two calls of expressions.

ghost use Rattle.std.specs.Prelude.{◌≡◌, ◌≤◌, ◌<◌, ◌+◌, length, Some, IfOk};
ghost use Rattle.lex_text.specs.Names.{parent};
ghost use Rattle.lex_words.specs.Moving.{Moves, Stays};
ghost use Rattle.p4_expressions.specs.Reading.{IsLow, application_at, applied_at, call_of, called_at, calls, is_called, last_of, more_names_at, names_at, outcome_at, path_at, tree_of, validity_at};

use crate::found::Found;
use lex_text::Name;
use lex_words::{Cursor, Halt, Key};
use p4_tree::Expr;
use std::alloc::Global;

/// A first name and the names behind it, with a point before each.
pub fn more_names(alloc: Global, tokens: &mut Cursor, first: Name) -> Result<Vec<Name>, Halt>
    ensures { Stays (λ x. x.items) (λ ws n. more_names_at ws n first) tokens.old result tokens.new }
{
    let mut names = Vec::new(alloc);
    names.push(first)?;
    'items: while tokens.eat(Key::Dot) {
        let name = tokens.name(alloc)?;
        names.push(name)?;
    }
    Ok(names)
}

/// A name, or several with points between them.
#[tactic(auto, unfolding(crate::specs::Reading::names_at))]
pub fn names(alloc: Global, tokens: &mut Cursor) -> Result<Vec<Name>, Halt>
    ensures { Moves (λ x. x.items) names_at tokens.old result tokens.new }
{
    let first = tokens.name(alloc)?;
    more_names(alloc, tokens, first)
}

/// `()` behind the path of a header and `isValid`.
#[tactic(auto, unfolding(crate::specs::Reading::validity_at))]
fn validity(
    tokens: &mut Cursor,
    start: u32,
    header: Vec<Name>,
    brackets: u16,
) -> Result<Found, Halt>
    ensures reads { Moves tree_of (λ ws n. validity_at ws n brackets start header.items) tokens.old result tokens.new }
    ensures low { IfOk result (IsLow 1) }
{
    tokens.open(brackets)?;
    tokens.expect(Key::Close)?;
    Ok(Found {
        tree: Expr::Valid(start, header),
        height: 1,
    })
}

/// `hit` or `miss`.
#[tactic(auto, unfolding(crate::specs::Reading::outcome_at, lex_words::specs::Reading::named_at))]
fn outcome(alloc: Global, tokens: &mut Cursor) -> Result<bool, Halt>
    ensures { Moves (λ x. x) outcome_at tokens.old result tokens.new }
{
    let at = tokens.at();
    let name = tokens.name(alloc)?;
    if name.as_str() == "hit" {
        Ok(true)
    } else if name.as_str() == "miss" {
        Ok(false)
    } else {
        Err(Halt::Wrong(at))
    }
}

/// `().hit` or `().miss` behind the name of a table and `apply`.
#[tactic(auto, unfolding(crate::specs::Reading::application_at))]
fn application(
    alloc: Global,
    tokens: &mut Cursor,
    start: u32,
    table: Name,
    brackets: u16,
) -> Result<Found, Halt>
    ensures reads { Moves tree_of (λ ws n. application_at ws n brackets start table) tokens.old result tokens.new }
    ensures low { IfOk result (IsLow 1) }
{
    tokens.open(brackets)?;
    tokens.expect(Key::Close)?;
    tokens.expect(Key::Dot)?;
    let hit = outcome(alloc, tokens)?;
    Ok(Found {
        tree: Expr::Applied(start, table, hit),
        height: 1,
    })
}

/// The same, behind some names and `apply`.
#[tactic(auto, unfolding(crate::specs::Reading::applied_at), using(crate::proofs::LastNames::last_names))]
fn applied(
    alloc: Global,
    tokens: &mut Cursor,
    start: u32,
    front: Vec<Name>,
    brackets: u16,
) -> Result<Found, Halt>
    ensures reads { Moves tree_of (λ ws n. applied_at ws n brackets start (last_of front.items)) tokens.old result tokens.new }
    ensures low { IfOk result (IsLow 1) }
{
    let mut names = front;
    match names.pop() {
        Some(table) => application(alloc, tokens, start, table, brackets),
        None => Err(Halt::Wrong(tokens.at())),
    }
}

/// A call of the last name behind some others, which begin at `start`.
#[tactic(auto, unfolding(crate::specs::Reading::called_at))]
fn called(
    alloc: Global,
    tokens: &mut Cursor,
    start: u32,
    front: Vec<Name>,
    last: Name,
    brackets: u16,
) -> Result<Found, Halt>
    ensures reads { Moves tree_of (λ ws n. called_at ws n brackets start front.items last) tokens.old result tokens.new }
    ensures low { IfOk result (IsLow 1) }
{
    if last.as_str() == "isValid" {
        validity(tokens, start, front, brackets)
    } else {
        applied(alloc, tokens, start, front, brackets)
    }
}

/// A call of a path, which begins at `start`.
#[tactic(auto, unfolding(crate::specs::Reading::call_of), using(crate::proofs::LastNames::last_names))]
fn call(
    alloc: Global,
    tokens: &mut Cursor,
    start: u32,
    path: Vec<Name>,
    brackets: u16,
) -> Result<Found, Halt>
    ensures reads { Moves tree_of (λ ws n. call_of ws n brackets start (parent path.items) (last_of path.items)) tokens.old result tokens.new }
    ensures low { IfOk result (IsLow 1) }
{
    let mut names = path;
    match names.pop() {
        Some(last) => called(alloc, tokens, start, names, last, brackets),
        None => Err(Halt::Wrong(tokens.at())),
    }
}

/// Whether a bracket goes on behind so many names, of which this is the last.
fn calls(count: usize, last: &Name) -> bool
    ensures { result ≡ calls count (Some last.now) }
{
    if last.as_str() == "isValid" {
        true
    } else if last.as_str() == "apply" {
        count == 2
    } else {
        false
    }
}

/// Whether a bracket goes on behind these names.
fn is_called(names: &[Name]) -> bool
    ensures { result ≡ is_called names.now }
{
    if names.len() < 2 {
        return false;
    }
    match names.get(names.len() - 1) {
        None => false,
        Some(last) => calls(names.len(), last),
    }
}

/// A path, perhaps with a call.
#[tactic(auto, unfolding(crate::specs::Reading::path_at))]
pub fn path(alloc: Global, tokens: &mut Cursor, brackets: u16) -> Result<Found, Halt>
    ensures reads { Moves tree_of (λ ws n. path_at ws n brackets) tokens.old result tokens.new }
    ensures low { IfOk result (IsLow 1) }
{
    let start = tokens.at();
    let path = names(alloc, tokens)?;
    if tokens.is(Key::Open) {
        if is_called(&path) {
            return call(alloc, tokens, start, path, brackets);
        }
    }
    Ok(Found {
        tree: Expr::Path(start, path),
        height: 1,
    })
}
