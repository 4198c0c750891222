//! Pushes and the turns of loops.

ghost use Rattle.std.specs.Prelude.{◌≡◌, ◌∷◌, ◌++◌, [], IfOk, OnOk, map, nat_eq, if◌then◌else◌};
ghost use Rattle.std.specs.List.{list_any};
ghost use Rattle.indus_tree.specs.View.{expr_of, property_of, stmt_of};
ghost use Rattle.indus_types.specs.Sums.{size_of, smallest};
ghost use Rattle.lower_lists.specs.Flat.{bound_to, distinct, flat_push, list_number, list_of};

use crate::names::{find, list_number, list_of};
use crate::place::Bound;
use indus_tree::{Expr, Shape, Stmt};
use indus_types::TypedProperty;
use lex_text::Name;
use list_pushes::push_to;
use std::alloc::{AllocError, Global};

/// A push.
pub fn flat_push(
    alloc: Global,
    typed: &TypedProperty,
    at: u32,
    name: &Name,
    value: Expr,
    out: &mut Vec<Stmt>,
) -> Result<(), AllocError>
    ensures { OnOk result (map stmt_of out.new.items ≡ map stmt_of out.old.items ++ flat_push at (expr_of value) (list_of (property_of typed.now).decls name.now)) }
{
    match list_of(typed, name) {
        None => Ok(()),
        Some(list) => push_to(alloc, at, value, list.number, list.size, list.item, out),
    }
}

/// The numbers of some lists.
pub fn list_numbers(
    alloc: Global,
    typed: &TypedProperty,
    lists: &[Name],
) -> Result<Vec<usize>, AllocError>
    ensures { IfOk result (λ v. v.items ≡ map (list_number (property_of typed.now).decls) lists.now) }
{
    let mut numbers = Vec::new(alloc);
    for list in lists {
        numbers.push(list_number(typed, list))?;
    }
    Ok(numbers)
}

/// Whether the number is among these.
fn is_among(kept: &[usize], number: usize) -> bool
    ensures { result ≡ list_any (λ k. nat_eq k number) kept.now }
{
    kept.iter().any(|k| *k == number)
}

/// Adds a number, unless it is there.
fn keep(kept: &mut Vec<usize>, number: usize) -> Result<(), AllocError>
    ensures { OnOk result (kept.new.items ≡ (if list_any (λ k. nat_eq k number) kept.old.items then kept.old.items else kept.old.items ++ number ∷ [])) }
{
    if is_among(kept, number) {
        Ok(())
    } else {
        kept.push(number)?;
        Ok(())
    }
}

/// The numbers in turn, each once.
pub fn distinct(alloc: Global, numbers: &[usize]) -> Result<Vec<usize>, AllocError>
    ensures { IfOk result (λ v. v.items ≡ distinct numbers.now) }
{
    let mut kept = Vec::new(alloc);
    for number in numbers {
        keep(&mut kept, *number)?;
    }
    Ok(kept)
}

/// The smallest size of some lists.
pub fn smallest(typed: &TypedProperty, lists: &[Name]) -> u8
    ensures { result ≡ smallest (property_of typed.now).decls lists.now }
{
    let mut least: Option<u8> = None;
    for x in lists {
        least = Some(match least {
            None => size_of(typed, x),
            Some(n) => n.min(size_of(typed, x)),
        });
    }
    least.unwrap_or(0)
}

/// The size of a list, and 0 where the name is of none.
fn size_of(typed: &TypedProperty, name: &Name) -> u8
    ensures { result ≡ size_of (property_of typed.now).decls name.now }
{
    match find(typed, name) {
        Some(d) => match &d.shape {
            Shape::List(_, n) => *n,
            Shape::One(_) | Shape::SetOf(_) | Shape::DictOf(_, _) => 0,
        },
        None => 0,
    }
}

/// The items of the loops around, and behind them those of one turn.
pub fn bound_in(
    alloc: Global,
    bounds: &[Bound],
    names: &[Name],
    lists: &[usize],
    turn: u8,
) -> Result<Vec<Bound>, AllocError>
    ensures { IfOk result (λ v. v.items ≡ bounds.now ++ bound_to names.now lists.now turn) }
{
    let mut inner = Vec::new(alloc);
    for b in bounds {
        inner.push(Bound {
            name: b.name.copy(alloc)?,
            list: b.list,
            turn: b.turn,
        })?;
    }
    for (name, list) in names.iter().zip(lists) {
        inner.push(Bound {
            name: name.copy(alloc)?,
            list: *list,
            turn,
        })?;
    }
    Ok(inner)
}
