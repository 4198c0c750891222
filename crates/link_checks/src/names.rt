//! Taken names of types, expressions and statements.

ghost use Rattle.std.specs.Prelude.{◌≡◌, ◌∷◌, ◌++◌, [], codes, map};
ghost use Rattle.std.specs.Option.{option_map};
ghost use Rattle.p4_tree.specs.Tree.{one};
ghost use Rattle.p4_tree.specs.View.{arg_of, else_of, expr_of, stmt_of, stmts_of};
ghost use Rattle.p4_meaning.specs.Statements.{receiver_of};
ghost use Rattle.link_faults.specs.WrittenNames.{Names, first_taken, names_of_arg, names_of_args, names_of_else, names_of_expr, names_of_exprs, names_of_start, names_of_stmt, names_of_stmts, names_of_type, receiver_names};
ghost use Rattle.link_checks.specs.View.{text_of};

use crate::first::{first, in_name, in_names};
use bit_values::{Bits, sound_width};
use lex_text::{Literal, Name};
use p4_tree::{Arg, Expr, PTy, Stmt};
use p4_values::same_text;

pub(crate) fn in_type(ty: &PTy) -> Option<&str>
    ensures { text_of result ≡ first_taken (names_of_type ty.now) }
{
    match ty {
        PTy::Bit(_) => None,
        PTy::Bool => None,
        PTy::Named(x) => in_name(x),
    }
}

pub(crate) fn in_expr(e: &Expr) -> Option<&str>
    ensures { text_of result ≡ first_taken (names_of_expr (expr_of e.now)) }
{
    match e {
        Expr::Num(_, _) => None,
        Expr::Flag(_, _) => None,
        Expr::Path(_, names) => in_names(names),
        Expr::Valid(_, header) => in_names(header),
        Expr::Applied(_, table, _) => in_name(table),
        Expr::ErrorName(_, name) => in_name(name),
        Expr::Not(_, a) => in_expr(a),
        Expr::Invert(_, a) => in_expr(a),
        Expr::Negate(_, a) => in_expr(a),
        Expr::Bin(_, _, a, b) => first(in_expr(a), in_expr(b)),
        Expr::Choice(_, test, a, b) => first(in_expr(test), first(in_expr(a), in_expr(b))),
        Expr::Slice(_, a, _, _) => in_expr(a),
        Expr::Cast(_, ty, a) => first(in_type(ty), in_expr(a)),
    }
}

pub(crate) fn in_exprs(list: &[Expr]) -> Option<&str>
    ensures { text_of result ≡ first_taken (names_of_exprs (map expr_of list.now)) }
{
    for e in list {
        let taken = in_expr(e);
        if taken.is_some() {
            return taken;
        }
    }
    None
}

pub(crate) fn in_start(start: &Option<Expr>) -> Option<&str>
    ensures { text_of result ≡ first_taken (names_of_start (option_map expr_of start.now)) }
{
    match start {
        None => None,
        Some(e) => in_expr(e),
    }
}

/// The receiver that a number is: a written width cuts it.
fn receiver_of(n: &Literal) -> u32
    ensures { result ≡ receiver_of n.now }
{
    let number = Bits::new(128, n.value).cast(sound_width(n.width));
    number.cast(32).value as u32
}

/// The digits of the receiver of reports, where the expression is that number.
fn receiver_in(e: &Expr) -> Option<&'static str>
    ensures { text_of result ≡ first_taken (receiver_names (codes "digest" ∷ []) (one 0 (expr_of e.now) ∷ [])) }
{
    match e {
        Expr::Num(_, n) => {
            if receiver_of(n) == 1_213_809_746 {
                Some("1213809746")
            } else {
                None
            }
        }
        Expr::Flag(_, _) | Expr::Path(_, _) | Expr::Valid(_, _) | Expr::Applied(_, _, _) => None,
        Expr::ErrorName(_, _) | Expr::Not(_, _) | Expr::Invert(_, _) | Expr::Negate(_, _) => None,
        Expr::Bin(_, _, _, _) | Expr::Choice(_, _, _, _) => None,
        Expr::Slice(_, _, _, _) | Expr::Cast(_, _, _) => None,
    }
}

/// The same of the first argument of `digest`.
fn receiver_of_digest(args: &[Arg]) -> Option<&'static str>
    ensures { text_of result ≡ first_taken (receiver_names (codes "digest" ∷ []) (map arg_of args.now)) }
{
    match args {
        [] => None,
        [first, _rest @ ..] => match first {
            Arg::One(_, e) => receiver_in(e),
            Arg::Many(_, _) => None,
        },
    }
}

/// The digits of the receiver of reports, where a call tells it a digest.
fn receiver(callee: &[Name], args: &[Arg]) -> Option<&'static str>
    ensures { text_of result ≡ first_taken (receiver_names callee.now (map arg_of args.now)) }
{
    match callee {
        [] => None,
        [x, more @ ..] => match more {
            [] => {
                if same_text(x.as_str(), "digest") {
                    receiver_of_digest(args)
                } else {
                    None
                }
            }
            [_second, _others @ ..] => None,
        },
    }
}

fn in_arg(arg: &Arg) -> Option<&str>
    ensures { text_of result ≡ first_taken (names_of_arg (arg_of arg.now)) }
{
    match arg {
        Arg::One(_, e) => in_expr(e),
        Arg::Many(_, list) => in_exprs(list),
    }
}

fn in_args(args: &[Arg]) -> Option<&str>
    ensures { text_of result ≡ first_taken (names_of_args (map arg_of args.now)) }
{
    for arg in args {
        let taken = in_arg(arg);
        if taken.is_some() {
            return taken;
        }
    }
    None
}

/// A variable or a constant.
pub(crate) fn in_var<'a>(ty: &'a PTy, x: &'a Name, start: Option<&'a str>) -> Option<&'a str>
    ensures { (ns : Names) → text_of start.entry ≡ first_taken ns
        → text_of result ≡ first_taken (names_of_type ty.now ++ x.now ∷ ns) }
{
    first(in_type(ty), first(in_name(x), start))
}

#[cycle(in_stmts)]
fn in_stmt(s: &Stmt) -> Option<&str>
    ensures { text_of result ≡ first_taken (names_of_stmt (stmt_of s.now)) }
{
    match s {
        Stmt::Nothing(_) => None,
        Stmt::Block(_, body) => in_stmts(body),
        Stmt::Var(_, ty, x, start) => in_var(ty, x, in_start(start)),
        Stmt::Assign(_, target, e) => first(in_names(target), in_expr(e)),
        Stmt::If(_, e, a, b) => first(in_expr(e), first(in_stmt(a), in_else(b))),
        Stmt::Return(_) => None,
        Stmt::Exit(_) => None,
        Stmt::Call(_, callee, args) => {
            first(
                in_names(callee),
                first(receiver(callee, args), in_args(args)),
            )
        }
    }
}

#[cycle(in_stmts)]
fn in_else(other: &Option<Box<Stmt>>) -> Option<&str>
    ensures { text_of result ≡ first_taken (names_of_else (else_of other.now)) }
{
    match other {
        None => None,
        Some(s) => in_stmt(s),
    }
}

#[cycle(in_stmts)]
pub(crate) fn in_stmts(list: &[Stmt]) -> Option<&str>
    ensures { text_of result ≡ first_taken (names_of_stmts (stmts_of list.now)) }
{
    for s in list {
        let taken = in_stmt(s);
        if taken.is_some() {
            return taken;
        }
    }
    None
}
