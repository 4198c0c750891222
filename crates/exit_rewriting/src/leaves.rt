//! Which calls and tests may leave the action or the control that they stand in.

ghost use Rattle.std.specs.Prelude.{◌≡◌, ◌∷◌, [], ◌||◌, IfOk};
ghost use Rattle.p4_tree.specs.View.{expr_of, stmt_of};
ghost use Rattle.exit_statements.specs.Without.{is_var, test_leaves};
ghost use Rattle.exit_rewriting.specs.Exiting.{callee_leaves, exits_by};

use crate::exits::Exiting;
use crate::place::Place;
use lex_text::Name;
use p4_tree::{Expr, Stmt};
use p4_values::same_text;
use std::alloc::{AllocError, Global};

/// Whether a test may leave.
pub(crate) fn test_leaves(
    alloc: Global,
    exiting: &Exiting,
    place: &Place,
    e: &Expr,
) -> Result<bool, AllocError>
    ensures { IfOk result (λ b. b ≡ test_leaves (exits_by exiting.now place.now) (expr_of e.now)) }
{
    match e {
        Expr::Applied(_, table, _) => place.is_marked(alloc, &exiting.tables, table),
        Expr::Not(_, a) => test_leaves(alloc, exiting, place, a),
        Expr::Num(_, _) | Expr::Flag(_, _) | Expr::Path(_, _) | Expr::Valid(_, _) => Ok(false),
        Expr::ErrorName(_, _) | Expr::Invert(_, _) | Expr::Negate(_, _) => Ok(false),
        Expr::Bin(_, _, _, _) | Expr::Choice(_, _, _, _) => Ok(false),
        Expr::Slice(_, _, _, _) | Expr::Cast(_, _, _) => Ok(false),
    }
}

/// Whether a call by one name may leave.
fn named_leaves(
    alloc: Global,
    exiting: &Exiting,
    place: &Place,
    x: &Name,
) -> Result<bool, AllocError>
    ensures { IfOk result (λ b. b ≡ callee_leaves (exits_by exiting.now place.now) (x.now ∷ [])) }
{
    if same_text(x.as_str(), "mark_to_drop") {
        Ok(false)
    } else if same_text(x.as_str(), "digest") {
        Ok(false)
    } else if same_text(x.as_str(), "verify_checksum") {
        Ok(false)
    } else if same_text(x.as_str(), "update_checksum") {
        Ok(false)
    } else {
        place.is_marked(alloc, &exiting.actions, x)
    }
}

/// Whether a call on a register or a table may leave.
fn verb_leaves(
    alloc: Global,
    exiting: &Exiting,
    place: &Place,
    x: &Name,
    verb: &Name,
) -> Result<bool, AllocError>
    ensures { IfOk result (λ b. b
        ≡ callee_leaves (exits_by exiting.now place.now) (x.now ∷ verb.now ∷ [])) }
{
    if same_text(verb.as_str(), "read") {
        Ok(false)
    } else if same_text(verb.as_str(), "write") {
        Ok(false)
    } else if same_text(verb.as_str(), "apply") {
        place.is_marked(alloc, &exiting.tables, x)
    } else {
        Ok(false)
    }
}

/// Whether a call may leave.
pub(crate) fn call_leaves(
    alloc: Global,
    exiting: &Exiting,
    place: &Place,
    callee: &[Name],
) -> Result<bool, AllocError>
    ensures { IfOk result (λ b. b ≡ callee_leaves (exits_by exiting.now place.now) callee.now) }
{
    match callee {
        [] => Ok(false),
        [x, rest @ ..] => match rest {
            [] => named_leaves(alloc, exiting, place, x),
            [verb, more @ ..] => match more {
                [] => verb_leaves(alloc, exiting, place, x, verb),
                [_third, _others @ ..] => Ok(false),
            },
        },
    }
}

/// Whether a statement is a declaration.
pub(crate) fn is_var(s: &Stmt) -> bool
    ensures { result ≡ is_var (stmt_of s.now) }
{
    match s {
        Stmt::Nothing(_) => false,
        Stmt::Block(_, _) => false,
        Stmt::Var(_, _, _, _) => true,
        Stmt::Assign(_, _, _) => false,
        Stmt::If(_, _, _, _) => false,
        Stmt::Return(_) => false,
        Stmt::Exit(_) => false,
        Stmt::Call(_, _, _) => false,
    }
}

/// Whether one of the two holds.
pub(crate) fn either(a: bool, b: bool) -> bool
    ensures { result ≡ (a || b) }
{
    a || b
}
