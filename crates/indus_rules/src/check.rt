//! The first broken rule of expressions and statements, in their order in the text.

ghost use Rattle.std.specs.Prelude.{◌≡◌, IfNone, IfOk};
ghost use Rattle.indus_tree.specs.View.{block_of, expr_of, exprs_of, shape_of, stmt_of};
ghost use Rattle.indus_scopes.specs.Scopes.{own, stands};
ghost use Rattle.indus_scopes.specs.Sights.{scope_of};
ghost use Rattle.indus_rules.specs.Sites.{wants_of, head_want, tail_wants, index_wants, member_wants, push_want, shape_index_wants, shape_member_wants, expr_sites, all_sites, stmt_sites, block_sites};
ghost use Rattle.indus_rules.specs.Rules.{first};

use crate::expr_rules::{place_of_expr, rule_of_expr};
use crate::rule::Rule;
use crate::stmt_rules::{place_of_stmt, rule_of_stmt};
use indus_scopes::kind::{Kind, as_number, join, kind_of, left_want, right_want};
use indus_scopes::loops::{enter, leave};
use indus_scopes::scope::{Role, index_kind, read_kind, shape_item};
use indus_scopes::sight::Scope;
use indus_tree::{Expr, Shape, Stmt, Ty};
use std::alloc::{AllocError, Global};

/// What is wanted of the expressions of a list.
#[derive(Clone, Copy)]
pub enum Wants<'a> {
    AnyWidth,
    Keys(&'a [Ty]),
    Each(Kind),
    Free,
}

fn head_want(w: Wants, own: Kind) -> Kind
    ensures { result ≡ head_want (wants_of w.entry) own }
{
    match w {
        Wants::AnyWidth => as_number(join(own, Kind::Number(128))),
        Wants::Keys(types) => match types {
            [] => Kind::Unknown,
            [t, _types @ ..] => kind_of(*t),
        },
        Wants::Each(k) => k,
        Wants::Free => Kind::Unknown,
    }
}

fn tail_wants<'a>(w: Wants<'a>) -> Wants<'a>
    ensures { wants_of result ≡ tail_wants (wants_of w.entry) }
{
    match w {
        Wants::Keys(types) => match types {
            [] => w,
            [_t, types @ ..] => Wants::Keys(types),
        },
        _ => w,
    }
}

fn shape_index_wants<'a>(s: &'a Shape) -> Wants<'a>
    ensures { wants_of result ≡ shape_index_wants (shape_of s.now) }
{
    match s {
        Shape::List(_, _) => Wants::AnyWidth,
        Shape::DictOf(types, _) => Wants::Keys(types),
        _ => Wants::Free,
    }
}

fn index_wants<'a>(r: &Role<'a>) -> Wants<'a>
    ensures { wants_of result ≡ index_wants (stands r.now) }
{
    match r {
        Role::Variable(d) => shape_index_wants(&d.shape),
        _ => Wants::Free,
    }
}

fn shape_member_wants<'a>(s: &'a Shape) -> Wants<'a>
    ensures { wants_of result ≡ shape_member_wants (shape_of s.now) }
{
    match s {
        Shape::SetOf(types) => Wants::Keys(types),
        Shape::List(t, _) => Wants::Each(kind_of(*t)),
        _ => Wants::Free,
    }
}

fn member_wants<'a>(r: &Role<'a>) -> Wants<'a>
    ensures { wants_of result ≡ member_wants (stands r.now) }
{
    match r {
        Role::Variable(d) => shape_member_wants(&d.shape),
        _ => Wants::Free,
    }
}

fn push_want(r: &Role) -> Kind
    ensures { result ≡ push_want (stands r.now) }
{
    match r {
        Role::Variable(d) => shape_item(&d.shape),
        _ => Kind::Unknown,
    }
}

/// The first broken rule of an expression of whose place `want` is wanted.
pub fn check_expr(scope: &Scope, want: Kind, e: &Expr) -> Option<(u32, Rule)>
    ensures { result ≡ first (expr_sites (scope_of scope.now) want (expr_of e.now)) }
{
    check_known(scope, scope.own(e), want, e)
}

/// The same, where it is known what the expression is of its own. So this is asked once at each level
/// of an expression.
#[cycle(expr)]
fn check_known(scope: &Scope, kind: Kind, want: Kind, e: &Expr) -> Option<(u32, Rule)>
    requires { kind ≡ own (scope_of scope.now) (expr_of e.now) }
    ensures { result ≡ first (expr_sites (scope_of scope.now) want (expr_of e.now)) }
{
    if let Some(rule) = rule_of_expr(scope, kind, want, e) {
        return Some((place_of_expr(e), rule));
    }
    match e {
        Expr::Num(_, _) => None,
        Expr::Flag(_, _) => None,
        Expr::Read(_, _) => None,
        Expr::Length(_, _) => None,
        Expr::Index(_, x, keys) => check_all(scope, index_wants(&scope.role(x)), keys),
        Expr::Member(_, keys, x) => check_all(scope, member_wants(&scope.role(x)), keys),
        Expr::Not(_, a) => check_known(scope, scope.own(a), Kind::Truth, a),
        Expr::Invert(_, a) => {
            let kind = scope.own(a);
            check_known(scope, kind, as_number(join(kind, want)), a)
        }
        Expr::Bin(_, op, a, b) => {
            let left = scope.own(a);
            let right = scope.own(b);
            match check_known(scope, left, left_want(*op, left, right, want), a) {
                Some(fault) => Some(fault),
                None => check_known(scope, right, right_want(*op, left, right, want), b),
            }
        }
        Expr::Cast(_, _, a) => {
            let kind = scope.own(a);
            check_known(scope, kind, as_number(kind), a)
        }
    }
}

#[cycle(expr)]
fn check_all(scope: &Scope, wants: Wants, all: &[Expr]) -> Option<(u32, Rule)>
    ensures { result ≡ first (all_sites (scope_of scope.now) (wants_of wants.entry) (exprs_of all.now)) }
{
    let mut wants = wants;
    for e in all {
        let kind = scope.own(e);
        match check_known(scope, kind, head_want(wants, kind), e) {
            Some(fault) => return Some(fault),
            None => {}
        }
        wants = tail_wants(wants);
    }
    None
}

#[cycle(stmt)]
pub fn check_stmt<'a>(
    alloc: Global,
    scope: &mut Scope<'a>,
    s: &'a Stmt,
) -> Result<Option<(u32, Rule)>, AllocError>
    ensures found { IfOk result (λ o. o ≡ first (stmt_sites (scope_of scope.old) (stmt_of s.now))) }
    ensures kept { IfOk result (λ o. IfNone o (scope_of scope.new ≡ scope_of scope.old)) }
{
    if let Some(rule) = rule_of_stmt(alloc, scope, s)? {
        return Ok(Some((place_of_stmt(s), rule)));
    }
    match s {
        Stmt::Assign(_, x, e) => Ok(check_expr(scope, read_kind(&scope.role(x)), e)),
        Stmt::Cell(_, x, i, e) => {
            let wide = as_number(join(scope.own(i), Kind::Number(128)));
            match check_expr(scope, wide, i) {
                Some(fault) => Ok(Some(fault)),
                None => Ok(check_expr(scope, index_kind(&scope.role(x)), e)),
            }
        }
        Stmt::Push(_, x, e) => Ok(check_expr(scope, push_want(&scope.role(x)), e)),
        Stmt::If(_, t, a, b) => match check_expr(scope, Kind::Truth, t) {
            Some(fault) => Ok(Some(fault)),
            None => match check_block(alloc, scope, a)? {
                Some(fault) => Ok(Some(fault)),
                None => check_block(alloc, scope, b),
            },
        },
        Stmt::For(_, names, lists, a) => {
            enter(alloc, scope, names, lists)?;
            match check_block(alloc, scope, a)? {
                Some(fault) => Ok(Some(fault)),
                None => {
                    leave(alloc, scope);
                    Ok(None)
                }
            }
        }
        Stmt::Reject(_) => Ok(None),
        Stmt::Report(_, _, values) => Ok(check_all(scope, Wants::Free, values)),
    }
}

#[cycle(stmt)]
pub fn check_block<'a>(
    alloc: Global,
    scope: &mut Scope<'a>,
    all: &'a [Stmt],
) -> Result<Option<(u32, Rule)>, AllocError>
    ensures found { IfOk result (λ o. o ≡ first (block_sites (scope_of scope.old) (block_of all.now))) }
    ensures kept { IfOk result (λ o. IfNone o (scope_of scope.new ≡ scope_of scope.old)) }
{
    for s in all {
        match check_stmt(alloc, scope, s)? {
            Some(fault) => return Ok(Some(fault)),
            None => {}
        }
    }
    Ok(None)
}
