//! Types, paths, expressions and arguments as lexemes.

ghost use Rattle.std.specs.Prelude.{◌≡◌, List, ◌++◌, ◌∷◌, [], IfOk, map};
ghost use Rattle.lex_words.specs.Seen.{key};
ghost use Rattle.lex_words.specs.declared.key.Key.TheVariants as k;
ghost use Rattle.p4_tree.specs.View.{expr_of, arg_of};
ghost use Rattle.p4_spelling.specs.Words.{outcome_name};
ghost use Rattle.p4_printer.specs.Layout.{written, each_after, bracketed};
ghost use Rattle.p4_printer.specs.Expressions.{key_of_op, key_of_flag, lexemes_of_type, lexemes_of_name, lexemes_of_path, lexemes_of_valid, lexemes_of_applied, lexemes_of_error, lexemes_of_bounds, lexemes_of_expr, lexemes_of_exprs, lexemes_of_arg, lexemes_of_args};

use crate::page::Page;
use crate::word::{put, put_decimal, put_name, put_number, put_word};
use lex_text::Name;
use lex_words::Key;
use p4_tree::{Arg, Expr, Op, PTy};
use std::alloc::{AllocError, Global};

fn mark_of(op: Op) -> Key
    ensures { result ≡ key_of_op op }
{
    match op {
        Op::Mul => Key::Times,
        Op::Add => Key::Plus,
        Op::Sub => Key::Minus,
        Op::Concat => Key::Concat,
        Op::Shl => Key::ShiftLeft,
        Op::Shr => Key::ShiftRight,
        Op::BitAnd => Key::And,
        Op::BitXor => Key::Caret,
        Op::BitOr => Key::Or,
        Op::Less => Key::Less,
        Op::LessEq => Key::LessEq,
        Op::More => Key::More,
        Op::MoreEq => Key::MoreEq,
        Op::Equal => Key::Equal,
        Op::Differ => Key::Differ,
        Op::Both => Key::Both,
        Op::Either => Key::Either,
    }
}

fn flag_key(flag: bool) -> Key
    ensures { result ≡ key_of_flag flag }
{
    if flag { Key::True } else { Key::False }
}

/// Puts the lexemes of a type.
#[tactic(auto, using(crate::proofs::Texts::texts))]
pub fn put_type(alloc: Global, out: &mut Page, ty: &PTy) -> Result<(), AllocError>
    ensures { IfOk result (λ _. out.new ≡ written out.old (lexemes_of_type ty.now)) }
{
    match ty {
        PTy::Bit(width) => {
            put(out, Key::Bit)?;
            put(out, Key::Less)?;
            put_decimal(alloc, out, *width as u128)?;
            put(out, Key::More)?;
        }
        PTy::Bool => put(out, Key::Bool)?,
        PTy::Named(name) => put_name(out, name)?,
    }
    Ok(())
}

#[tactic(auto, using(crate::proofs::Texts::texts))]
fn put_parts(out: &mut Page, names: &[Name]) -> Result<(), AllocError>
    ensures { IfOk result (λ _. out.new ≡ written out.old (each_after (key k.Dot) (map lexemes_of_name names.now))) }
{
    for name in names {
        put(out, Key::Dot)?;
        put_name(out, name)?;
    }
    Ok(())
}

/// Puts the lexemes of a path.
#[tactic(auto, using(crate::proofs::Texts::texts))]
pub fn put_path(out: &mut Page, names: &[Name]) -> Result<(), AllocError>
    ensures { IfOk result (λ _. out.new ≡ written out.old (lexemes_of_path names.now)) }
{
    if let [first, rest @ ..] = names {
        put_name(out, first)?;
        put_parts(out, rest)?;
    }
    Ok(())
}

/// Puts the lexemes of an expression.
#[tactic(auto, using(crate::proofs::Texts::texts))]
#[cycle(put_expr)]
pub fn put_expr(alloc: Global, out: &mut Page, e: &Expr) -> Result<(), AllocError>
    ensures { IfOk result (λ _. out.new ≡ written out.old (lexemes_of_expr (expr_of e.now))) }
{
    match e {
        Expr::Num(_, n) => put_number(alloc, out, *n)?,
        Expr::Flag(_, flag) => put(out, flag_key(*flag))?,
        Expr::Path(_, names) => put_path(out, names)?,
        Expr::Valid(_, header) => put_valid(out, header)?,
        Expr::Applied(_, table, hit) => put_applied(out, table, *hit)?,
        Expr::ErrorName(_, name) => put_error(out, name)?,
        Expr::Not(_, a) => put_unary(alloc, out, Key::Not, a)?,
        Expr::Invert(_, a) => put_unary(alloc, out, Key::Tilde, a)?,
        Expr::Negate(_, a) => put_unary(alloc, out, Key::Minus, a)?,
        Expr::Bin(_, op, a, b) => {
            put_left(alloc, out, a)?;
            put_right(alloc, out, *op, b)?;
        }
        Expr::Choice(_, test, a, b) => {
            put_left(alloc, out, test)?;
            put_held(alloc, out, a)?;
            put_elsewhere(alloc, out, b)?;
        }
        Expr::Slice(_, a, high, low) => put_slice(alloc, out, a, *high, *low)?,
        Expr::Cast(_, ty, a) => put_cast(alloc, out, ty, a)?,
    }
    Ok(())
}

#[tactic(auto, using(crate::proofs::Texts::texts))]
fn put_valid(out: &mut Page, header: &[Name]) -> Result<(), AllocError>
    ensures { IfOk result (λ _. out.new ≡ written out.old (lexemes_of_valid header.now)) }
{
    put_path(out, header)?;
    put(out, Key::Dot)?;
    put_word(out, "isValid")?;
    put(out, Key::Open)?;
    put(out, Key::Close)?;
    Ok(())
}

fn outcome_text(hit: bool) -> &'static str
    ensures { result.now ≡ outcome_name hit }
{
    if hit { "hit" } else { "miss" }
}

#[tactic(auto, using(crate::proofs::Texts::texts))]
fn put_applied(out: &mut Page, table: &Name, hit: bool) -> Result<(), AllocError>
    ensures { IfOk result (λ _. out.new ≡ written out.old (lexemes_of_applied table.now hit)) }
{
    put_name(out, table)?;
    put(out, Key::Dot)?;
    put_word(out, "apply")?;
    put(out, Key::Open)?;
    put(out, Key::Close)?;
    put(out, Key::Dot)?;
    put_word(out, outcome_text(hit))?;
    Ok(())
}

#[tactic(auto, using(crate::proofs::Texts::texts))]
fn put_error(out: &mut Page, name: &Name) -> Result<(), AllocError>
    ensures { IfOk result (λ _. out.new ≡ written out.old (lexemes_of_error name.now)) }
{
    put(out, Key::Error)?;
    put(out, Key::Dot)?;
    put_name(out, name)?;
    Ok(())
}

/// Puts an operator before its operand, in brackets.
#[tactic(auto, using(crate::proofs::Texts::texts))]
#[cycle(put_expr)]
fn put_unary(alloc: Global, out: &mut Page, mark: Key, a: &Expr) -> Result<(), AllocError>
    ensures { IfOk result (λ _. out.new ≡ written out.old (bracketed (key mark ∷ lexemes_of_expr (expr_of a.now)))) }
{
    put(out, Key::Open)?;
    put(out, mark)?;
    put_expr(alloc, out, a)?;
    put(out, Key::Close)?;
    Ok(())
}

/// Puts the value that a choice has where its test holds.
#[tactic(auto, using(crate::proofs::Texts::texts))]
#[cycle(put_expr)]
fn put_held(alloc: Global, out: &mut Page, a: &Expr) -> Result<(), AllocError>
    ensures { IfOk result (λ _. out.new ≡ written out.old (key k.Question ∷ lexemes_of_expr (expr_of a.now))) }
{
    put(out, Key::Question)?;
    put_expr(alloc, out, a)?;
    Ok(())
}

/// Puts the value that a choice has elsewhere, and the closing bracket.
#[tactic(auto, using(crate::proofs::Texts::texts))]
#[cycle(put_expr)]
fn put_elsewhere(alloc: Global, out: &mut Page, b: &Expr) -> Result<(), AllocError>
    ensures { IfOk result (λ _. out.new ≡ written out.old (key k.Colon ∷ (lexemes_of_expr (expr_of b.now) ++ key k.Close ∷ []))) }
{
    put(out, Key::Colon)?;
    put_expr(alloc, out, b)?;
    put(out, Key::Close)?;
    Ok(())
}

/// Puts the first and the last bit of a slice, in brackets.
#[tactic(auto, using(crate::proofs::Texts::texts))]
fn put_bounds(alloc: Global, out: &mut Page, high: u8, low: u8) -> Result<(), AllocError>
    ensures { IfOk result (λ _. out.new ≡ written out.old (lexemes_of_bounds high low)) }
{
    put(out, Key::SquareOpen)?;
    put_decimal(alloc, out, high as u128)?;
    put(out, Key::Colon)?;
    put_decimal(alloc, out, low as u128)?;
    put(out, Key::SquareClose)?;
    Ok(())
}

#[tactic(auto, using(crate::proofs::Texts::texts))]
#[cycle(put_expr)]
fn put_slice(alloc: Global, out: &mut Page, a: &Expr, high: u8, low: u8) -> Result<(), AllocError>
    ensures { IfOk result (λ _. out.new ≡ written out.old (lexemes_of_expr (expr_of a.now) ++ lexemes_of_bounds high low)) }
{
    put_expr(alloc, out, a)?;
    put_bounds(alloc, out, high, low)?;
    Ok(())
}

/// Puts an opening bracket, and an operator's left operand or a choice's test.
#[tactic(auto, using(crate::proofs::Texts::texts))]
#[cycle(put_expr)]
fn put_left(alloc: Global, out: &mut Page, a: &Expr) -> Result<(), AllocError>
    ensures { IfOk result (λ _. out.new ≡ written out.old (key k.Open ∷ lexemes_of_expr (expr_of a.now))) }
{
    put(out, Key::Open)?;
    put_expr(alloc, out, a)?;
    Ok(())
}

/// Puts an operator, its right operand and the closing bracket.
#[tactic(auto, using(crate::proofs::Texts::texts))]
#[cycle(put_expr)]
fn put_right(alloc: Global, out: &mut Page, op: Op, b: &Expr) -> Result<(), AllocError>
    ensures { IfOk result (λ _. out.new ≡ written out.old (key (key_of_op op) ∷ (lexemes_of_expr (expr_of b.now) ++ key k.Close ∷ []))) }
{
    put(out, mark_of(op))?;
    put_expr(alloc, out, b)?;
    put(out, Key::Close)?;
    Ok(())
}

#[tactic(auto, using(crate::proofs::Texts::texts))]
#[cycle(put_expr)]
fn put_cast(alloc: Global, out: &mut Page, ty: &PTy, a: &Expr) -> Result<(), AllocError>
    ensures { IfOk result (λ _. out.new ≡ written out.old (bracketed (key k.Open ∷ (lexemes_of_type ty.now ++ key k.Close ∷ lexemes_of_expr (expr_of a.now))))) }
{
    put(out, Key::Open)?;
    put(out, Key::Open)?;
    put_type(alloc, out, ty)?;
    put(out, Key::Close)?;
    put_expr(alloc, out, a)?;
    put(out, Key::Close)?;
    Ok(())
}

#[tactic(auto, using(crate::proofs::Texts::texts))]
fn put_more_exprs(alloc: Global, out: &mut Page, exprs: &[Expr]) -> Result<(), AllocError>
    ensures { IfOk result (λ _. out.new ≡ written out.old (each_after (key k.Comma) (map lexemes_of_expr (map expr_of exprs.now)))) }
{
    for expr in exprs {
        put(out, Key::Comma)?;
        put_expr(alloc, out, expr)?;
    }
    Ok(())
}

/// Puts expressions with commas between.
#[tactic(auto, using(crate::proofs::Texts::texts))]
pub fn put_exprs(alloc: Global, out: &mut Page, exprs: &[Expr]) -> Result<(), AllocError>
    ensures { IfOk result (λ _. out.new ≡ written out.old (lexemes_of_exprs (map expr_of exprs.now))) }
{
    if let [first, rest @ ..] = exprs {
        put_expr(alloc, out, first)?;
        put_more_exprs(alloc, out, rest)?;
    }
    Ok(())
}

#[tactic(auto, using(crate::proofs::Texts::texts))]
fn put_arg(alloc: Global, out: &mut Page, arg: &Arg) -> Result<(), AllocError>
    ensures { IfOk result (λ _. out.new ≡ written out.old (lexemes_of_arg (arg_of arg.now))) }
{
    match arg {
        Arg::One(_, e) => put_expr(alloc, out, e)?,
        Arg::Many(_, list) => {
            put(out, Key::BraceOpen)?;
            put_exprs(alloc, out, list)?;
            put(out, Key::BraceClose)?;
        }
    }
    Ok(())
}

#[tactic(auto, using(crate::proofs::Texts::texts))]
fn put_more_args(alloc: Global, out: &mut Page, args: &[Arg]) -> Result<(), AllocError>
    ensures { IfOk result (λ _. out.new ≡ written out.old (each_after (key k.Comma) (map lexemes_of_arg (map arg_of args.now)))) }
{
    for arg in args {
        put(out, Key::Comma)?;
        put_arg(alloc, out, arg)?;
    }
    Ok(())
}

/// Puts arguments with commas between.
#[tactic(auto, using(crate::proofs::Texts::texts))]
pub fn put_args(alloc: Global, out: &mut Page, args: &[Arg]) -> Result<(), AllocError>
    ensures { IfOk result (λ _. out.new ≡ written out.old (lexemes_of_args (map arg_of args.now))) }
{
    if let [first, rest @ ..] = args {
        put_arg(alloc, out, first)?;
        put_more_args(alloc, out, rest)?;
    }
    Ok(())
}
