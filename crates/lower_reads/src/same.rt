//! Whether two expressions are one tree, places and all.

ghost use Rattle.std.specs.Prelude.{◌≡◌};
ghost use Rattle.indus_tree.specs.Tree.{cast, count, flag, index, inversion, member, negation, num, read};
ghost use Rattle.indus_tree.specs.View.{expr_of, exprs_of};
ghost use Rattle.lowered_code.specs.Same as same;
ghost use Rattle.lower_reads.specs.Sides.{same_left, same_right};

use indus_tree::{Expr, Op};
use lex_text::{Literal, Name};

fn same_literal(n: Literal, m: Literal) -> bool
    ensures { result ≡ same.same_literal n m }
{
    n.width == m.width && n.value == m.value
}

fn is_num(at: u32, n: Literal, f: &Expr) -> bool
    ensures { result ≡ same.same_expr (num at n) (expr_of f.now) }
{
    match f {
        Expr::Num(q, m) => at == *q && same_literal(n, *m),
        Expr::Flag(_, _)
        | Expr::Read(_, _)
        | Expr::Length(_, _)
        | Expr::Index(_, _, _)
        | Expr::Member(_, _, _)
        | Expr::Not(_, _)
        | Expr::Invert(_, _)
        | Expr::Bin(_, _, _, _)
        | Expr::Cast(_, _, _) => false,
    }
}

fn is_flag(at: u32, value: bool, f: &Expr) -> bool
    ensures { result ≡ same.same_expr (flag at value) (expr_of f.now) }
{
    match f {
        Expr::Flag(q, other) => at == *q && value == *other,
        Expr::Num(_, _)
        | Expr::Read(_, _)
        | Expr::Length(_, _)
        | Expr::Index(_, _, _)
        | Expr::Member(_, _, _)
        | Expr::Not(_, _)
        | Expr::Invert(_, _)
        | Expr::Bin(_, _, _, _)
        | Expr::Cast(_, _, _) => false,
    }
}

fn is_read(at: u32, name: &Name, f: &Expr) -> bool
    ensures { result ≡ same.same_expr (read at name.now) (expr_of f.now) }
{
    match f {
        Expr::Read(q, other) => at == *q && name.as_str() == other.as_str(),
        Expr::Num(_, _)
        | Expr::Flag(_, _)
        | Expr::Length(_, _)
        | Expr::Index(_, _, _)
        | Expr::Member(_, _, _)
        | Expr::Not(_, _)
        | Expr::Invert(_, _)
        | Expr::Bin(_, _, _, _)
        | Expr::Cast(_, _, _) => false,
    }
}

fn is_length(at: u32, name: &Name, f: &Expr) -> bool
    ensures { result ≡ same.same_expr (count at name.now) (expr_of f.now) }
{
    match f {
        Expr::Length(q, other) => at == *q && name.as_str() == other.as_str(),
        Expr::Num(_, _)
        | Expr::Flag(_, _)
        | Expr::Read(_, _)
        | Expr::Index(_, _, _)
        | Expr::Member(_, _, _)
        | Expr::Not(_, _)
        | Expr::Invert(_, _)
        | Expr::Bin(_, _, _, _)
        | Expr::Cast(_, _, _) => false,
    }
}

#[cycle(same)]
fn is_index(at: u32, name: &Name, key: &[Expr], f: &Expr) -> bool
    ensures { result ≡ same.same_expr (index at name.now (exprs_of key.now)) (expr_of f.now) }
{
    match f {
        Expr::Index(q, other, keys) => at == *q
            && name.as_str() == other.as_str()
            && same_exprs(key, keys),
        Expr::Num(_, _)
        | Expr::Flag(_, _)
        | Expr::Read(_, _)
        | Expr::Length(_, _)
        | Expr::Member(_, _, _)
        | Expr::Not(_, _)
        | Expr::Invert(_, _)
        | Expr::Bin(_, _, _, _)
        | Expr::Cast(_, _, _) => false,
    }
}

#[cycle(same)]
fn is_member(at: u32, key: &[Expr], name: &Name, f: &Expr) -> bool
    ensures { result ≡ same.same_expr (member at (exprs_of key.now) name.now) (expr_of f.now) }
{
    match f {
        Expr::Member(q, keys, other) => at == *q
            && name.as_str() == other.as_str()
            && same_exprs(key, keys),
        Expr::Num(_, _)
        | Expr::Flag(_, _)
        | Expr::Read(_, _)
        | Expr::Length(_, _)
        | Expr::Index(_, _, _)
        | Expr::Not(_, _)
        | Expr::Invert(_, _)
        | Expr::Bin(_, _, _, _)
        | Expr::Cast(_, _, _) => false,
    }
}

#[cycle(same)]
fn is_not(at: u32, a: &Expr, f: &Expr) -> bool
    ensures { result ≡ same.same_expr (negation at (expr_of a.now)) (expr_of f.now) }
{
    match f {
        Expr::Not(q, b) => at == *q && same_expr(a, b),
        Expr::Num(_, _)
        | Expr::Flag(_, _)
        | Expr::Read(_, _)
        | Expr::Length(_, _)
        | Expr::Index(_, _, _)
        | Expr::Member(_, _, _)
        | Expr::Invert(_, _)
        | Expr::Bin(_, _, _, _)
        | Expr::Cast(_, _, _) => false,
    }
}

#[cycle(same)]
fn is_invert(at: u32, a: &Expr, f: &Expr) -> bool
    ensures { result ≡ same.same_expr (inversion at (expr_of a.now)) (expr_of f.now) }
{
    match f {
        Expr::Invert(q, b) => at == *q && same_expr(a, b),
        Expr::Num(_, _)
        | Expr::Flag(_, _)
        | Expr::Read(_, _)
        | Expr::Length(_, _)
        | Expr::Index(_, _, _)
        | Expr::Member(_, _, _)
        | Expr::Not(_, _)
        | Expr::Bin(_, _, _, _)
        | Expr::Cast(_, _, _) => false,
    }
}

#[cycle(same)]
fn is_left(at: u32, op: Op, a: &Expr, f: &Expr) -> bool
    ensures { result ≡ same_left at op (expr_of a.now) (expr_of f.now) }
{
    match f {
        Expr::Bin(q, other, c, _) => at == *q && op == *other && same_expr(a, c),
        Expr::Num(_, _)
        | Expr::Flag(_, _)
        | Expr::Read(_, _)
        | Expr::Length(_, _)
        | Expr::Index(_, _, _)
        | Expr::Member(_, _, _)
        | Expr::Not(_, _)
        | Expr::Invert(_, _)
        | Expr::Cast(_, _, _) => false,
    }
}

#[cycle(same)]
fn is_right(b: &Expr, f: &Expr) -> bool
    ensures { result ≡ same_right (expr_of b.now) (expr_of f.now) }
{
    match f {
        Expr::Bin(_, _, _, d) => same_expr(b, d),
        Expr::Num(_, _)
        | Expr::Flag(_, _)
        | Expr::Read(_, _)
        | Expr::Length(_, _)
        | Expr::Index(_, _, _)
        | Expr::Member(_, _, _)
        | Expr::Not(_, _)
        | Expr::Invert(_, _)
        | Expr::Cast(_, _, _) => false,
    }
}

#[cycle(same)]
fn is_cast(at: u32, width: u8, a: &Expr, f: &Expr) -> bool
    ensures { result ≡ same.same_expr (cast at width (expr_of a.now)) (expr_of f.now) }
{
    match f {
        Expr::Cast(q, other, b) => at == *q && width == *other && same_expr(a, b),
        Expr::Num(_, _)
        | Expr::Flag(_, _)
        | Expr::Read(_, _)
        | Expr::Length(_, _)
        | Expr::Index(_, _, _)
        | Expr::Member(_, _, _)
        | Expr::Not(_, _)
        | Expr::Invert(_, _)
        | Expr::Bin(_, _, _, _) => false,
    }
}

/// Whether the expressions are one.
#[cycle(same)]
pub(crate) fn same_expr(e: &Expr, f: &Expr) -> bool
    ensures { result ≡ same.same_expr (expr_of e.now) (expr_of f.now) }
{
    match e {
        Expr::Num(at, n) => is_num(*at, *n, f),
        Expr::Flag(at, value) => is_flag(*at, *value, f),
        Expr::Read(at, name) => is_read(*at, name, f),
        Expr::Length(at, name) => is_length(*at, name, f),
        Expr::Index(at, name, key) => is_index(*at, name, key, f),
        Expr::Member(at, key, name) => is_member(*at, key, name, f),
        Expr::Not(at, a) => is_not(*at, a, f),
        Expr::Invert(at, a) => is_invert(*at, a, f),
        Expr::Bin(at, op, a, b) => is_left(*at, *op, a, f) && is_right(b, f),
        Expr::Cast(at, width, a) => is_cast(*at, *width, a, f),
    }
}

#[cycle(same)]
fn same_exprs(es: &[Expr], fs: &[Expr]) -> bool
    ensures { result ≡ same.same_exprs (exprs_of es.now) (exprs_of fs.now) }
{
    let mut right = fs;
    for a in es {
        match right {
            [] => return false,
            [b, others @ ..] => {
                if !same_expr(a, b) {
                    return false;
                }
                right = others;
            }
        }
    }
    right.is_empty()
}
