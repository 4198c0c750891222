//! The first rule that is broken at a statement, but for its parts.

ghost use Rattle.std.specs.Prelude.{◌≡◌, IfOk, map, nat_lt};
ghost use Rattle.indus_tree.specs.View.{exprs_of, stmt_of};
ghost use Rattle.indus_scopes.specs.Items.{among};
ghost use Rattle.indus_scopes.specs.Scopes.{loop_of};
ghost use Rattle.indus_scopes.specs.Sights.{scope_of};
ghost use Rattle.indus_rules.specs.Sites.{at_stmt};
ghost use Rattle.indus_tree.specs.Tree.{exprs_count};
ghost use Rattle.indus_rules.specs.Rules.{is_check, any_missing, sets_missing, paired, same_count, all_count, ill_set, sets_fixed, answers_early, walked, pushes_walked, names_again, tells_much, rule_at, stmt_place};

use crate::rule::Rule;
use indus_scopes::loops::repeats;
use indus_scopes::scope::{Block, Loop, same};
use indus_scopes::sight::Scope;
use indus_scopes::uses::{counts, is_missing, may_index, reads, writable};
use indus_tree::{Expr, Stmt};
use lex_text::Name;
use std::alloc::{AllocError, Global};

fn is_check(b: Block) -> bool
    ensures { result ≡ is_check b }
{
    match b {
        Block::Check => true,
        _ => false,
    }
}

fn any_missing(scope: &Scope, lists: &[Name]) -> bool
    ensures { result ≡ any_missing (scope_of scope.now) lists.now }
{
    for x in lists {
        if is_missing(&scope.role(x)) {
            return true;
        }
    }
    false
}

fn sets_missing(scope: &Scope, s: &Stmt) -> bool
    ensures { result ≡ sets_missing (scope_of scope.now) (stmt_of s.now) }
{
    match s {
        Stmt::Assign(_, x, _) => is_missing(&scope.role(x)),
        Stmt::Cell(_, x, _, _) => is_missing(&scope.role(x)),
        Stmt::Push(_, x, _) => is_missing(&scope.role(x)),
        Stmt::For(_, _, lists, _) => any_missing(scope, lists),
        _ => false,
    }
}

fn all_count(scope: &Scope, lists: &[Name]) -> bool
    ensures { result ≡ all_count (scope_of scope.now) lists.now }
{
    for x in lists {
        if !counts(&scope.role(x)) {
            return false;
        }
    }
    true
}

fn paired(names: &[Name], lists: &[Name]) -> bool
    ensures { result ≡ paired names.now lists.now }
{
    match names {
        [] => false,
        [_n, names @ ..] => match lists {
            [] => false,
            [_l, lists @ ..] => same_count(names, lists),
        },
    }
}

fn same_count(names: &[Name], lists: &[Name]) -> bool
    ensures { result ≡ same_count names.now lists.now }
{
    names.len() == lists.len()
}

fn ill_set(scope: &Scope, s: &Stmt) -> bool
    ensures { result ≡ ill_set (scope_of scope.now) (stmt_of s.now) }
{
    match s {
        Stmt::Assign(_, x, _) => !reads(&scope.role(x)),
        Stmt::Cell(_, x, _, _) => !may_index(&scope.role(x)),
        Stmt::Push(_, x, _) => !counts(&scope.role(x)),
        Stmt::For(_, names, lists, _) => !(paired(names, lists) && all_count(scope, lists)),
        _ => false,
    }
}

fn sets_fixed(scope: &Scope, s: &Stmt) -> bool
    ensures { result ≡ sets_fixed (scope_of scope.now) (stmt_of s.now) }
{
    match s {
        Stmt::Assign(_, x, _) => !writable(&scope.role(x)),
        Stmt::Cell(_, x, _, _) => !writable(&scope.role(x)),
        _ => false,
    }
}

fn answers_early(scope: &Scope, s: &Stmt) -> bool
    ensures { result ≡ answers_early (scope_of scope.now) (stmt_of s.now) }
{
    match s {
        Stmt::Reject(_) => !is_check(scope.block),
        Stmt::Report(_, _, _) => scope.edition == 1 && !is_check(scope.block),
        _ => false,
    }
}

fn among(names: &[Name], x: &Name) -> bool
    ensures { result ≡ among names.now x.now }
{
    for y in names {
        if same(y, x) {
            return true;
        }
    }
    false
}

fn walked(loops: &[Loop], x: &Name) -> bool
    ensures { result ≡ walked (map loop_of loops.now) x.now }
{
    for l in loops {
        if among(l.lists, x) {
            return true;
        }
    }
    false
}

fn pushes_walked(scope: &Scope, s: &Stmt) -> bool
    ensures { result ≡ pushes_walked (scope_of scope.now) (stmt_of s.now) }
{
    match s {
        Stmt::Push(_, x, _) => walked(&scope.loops, x),
        _ => false,
    }
}

fn names_again(alloc: Global, scope: &Scope, s: &Stmt) -> Result<bool, AllocError>
    ensures { IfOk result (λ b. b ≡ names_again (scope_of scope.now) (stmt_of s.now)) }
{
    match s {
        Stmt::For(_, names, _, _) => repeats(alloc, scope, names),
        _ => Ok(false),
    }
}

#[tactic(auto, using(indus_tree::proofs::Counts::counted))]
fn over_eight(values: &[Expr]) -> bool
    ensures { result ≡ nat_lt 8 (exprs_count (exprs_of values.now)) }
{
    values.len() > 8
}

fn tells_much(s: &Stmt) -> bool
    ensures { result ≡ tells_much (stmt_of s.now) }
{
    match s {
        Stmt::Report(_, _, values) => over_eight(values),
        _ => false,
    }
}

/// The first rule that is broken at a statement.
pub fn rule_of_stmt(alloc: Global, scope: &Scope, s: &Stmt) -> Result<Option<Rule>, AllocError>
    ensures { IfOk result (λ o. o ≡ rule_at (at_stmt (scope_of scope.now) (stmt_of s.now))) }
{
    Ok(if names_again(alloc, scope, s)? {
        Some(Rule::NameTwice)
    } else if sets_missing(scope, s) {
        Some(Rule::NoSuchName)
    } else if ill_set(scope, s) {
        Some(Rule::KindDiffers)
    } else if sets_fixed(scope, s) {
        Some(Rule::NotWritable)
    } else if answers_early(scope, s) {
        Some(Rule::WrongBlock)
    } else if pushes_walked(scope, s) {
        Some(Rule::LoopListChanged)
    } else if tells_much(s) {
        Some(Rule::BadSize)
    } else {
        None
    })
}

/// The number of a statement's first token.
pub fn place_of_stmt(s: &Stmt) -> u32
    ensures { result ≡ stmt_place (stmt_of s.now) }
{
    match s {
        Stmt::Assign(at, _, _) => *at,
        Stmt::Cell(at, _, _, _) => *at,
        Stmt::Push(at, _, _) => *at,
        Stmt::If(at, _, _, _) => *at,
        Stmt::For(at, _, _, _) => *at,
        Stmt::Reject(at) => *at,
        Stmt::Report(at, _, _) => *at,
    }
}
