//! Lists of expressions, and arguments of calls.

ghost use Rattle.std.specs.Prelude.{◌≡◌, IfOk, map};
ghost use Rattle.std.specs.List.{AllZip};
ghost use Rattle.p4_tree.specs.View.{arg_of, expr_of};
ghost use Rattle.rewritten_programs.specs.Rewritten.{ArgRewritten, ArgsRewritten};
ghost use Rattle.rewritten_programs.specs.Values.{is_behind_first, is_in_first_two, is_value, is_value_at, is_value_for};
ghost use Rattle.simplify_rules.specs.Simplified.{IsSimplified};

use lex_text::Name;
use p4_tree::{Arg, Expr};
use p4_values::same_text;
use simplify_rules::{Offers, simplified};
use std::alloc::{AllocError, Global};

/// Each expression of a list.
fn exprs<R: Offers>(alloc: Global, rules: &R, list: &[Expr]) -> Result<Vec<Expr>, AllocError>
    ensures { IfOk result (λ v. AllZip (IsSimplified (R.Answers rules.now))
        (map expr_of list.now) (map expr_of v.items)) }
{
    let mut made = Vec::with_capacity(alloc, list.len())?;
    for e in list {
        made.push(simplified(alloc, rules, e)?)?;
    }
    Ok(made)
}

/// Whether an argument of a call by one name is a value.
fn is_value_for(name: &Name, number: usize) -> bool
    ensures { result ≡ is_value_for name.now number }
{
    if same_text(name.as_str(), "mark_to_drop") {
        false
    } else if same_text(name.as_str(), "digest") {
        is_behind_first(number)
    } else if same_text(name.as_str(), "verify_checksum") {
        is_in_first_two(number)
    } else if same_text(name.as_str(), "update_checksum") {
        is_in_first_two(number)
    } else {
        true
    }
}

fn is_behind_first(number: usize) -> bool
    ensures { result ≡ is_behind_first number }
{
    number > 0
}

fn is_in_first_two(number: usize) -> bool
    ensures { result ≡ is_in_first_two number }
{
    number < 2
}

/// Whether an argument of a call on what a name stands for is a value.
fn is_value_at(verb: &Name, number: usize) -> bool
    ensures { result ≡ is_value_at verb.now number }
{
    if same_text(verb.as_str(), "read") {
        is_behind_first(number)
    } else {
        same_text(verb.as_str(), "write")
    }
}

/// Whether the argument of a number, from 0, of a call by a path is a value.
fn is_value(callee: &[Name], number: usize) -> bool
    ensures { result ≡ is_value callee.now number }
{
    match callee {
        [name] => is_value_for(name, number),
        [_, verb] => is_value_at(verb, number),
        _ => false,
    }
}

/// An argument. One that is no value stays.
fn arg<R: Offers>(alloc: Global, rules: &R, value: bool, a: &Arg) -> Result<Arg, AllocError>
    ensures { IfOk result (λ b. ArgRewritten (IsSimplified (R.Answers rules.now)) value
        (arg_of a.now) (arg_of b)) }
{
    if !value {
        return a.copy(alloc);
    }
    match a {
        Arg::One(at, e) => Ok(Arg::One(*at, simplified(alloc, rules, e)?)),
        Arg::Many(at, list) => Ok(Arg::Many(*at, exprs(alloc, rules, list)?)),
    }
}

/// The arguments of a call by a path.
pub(crate) fn args<R: Offers>(
    alloc: Global,
    rules: &R,
    callee: &[Name],
    list: &[Arg],
) -> Result<Vec<Arg>, AllocError>
    ensures { IfOk result (λ v. ArgsRewritten (IsSimplified (R.Answers rules.now))
        (is_value callee.now) 0 (map arg_of list.now) (map arg_of v.items)) }
{
    let mut made = Vec::with_capacity(alloc, list.len())?;
    for (number, a) in list.iter().enumerate() {
        made.push(arg(alloc, rules, is_value(callee, number), a)?)?;
    }
    Ok(made)
}
