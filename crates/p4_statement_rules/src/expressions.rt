//! What is tested of expressions.

ghost use Rattle.std.specs.Prelude.{◌≡◌, [], ◌∷◌, IfOk, map};
ghost use Rattle.p4_tree.specs.Operators.{class_of};
ghost use Rattle.p4_tree.specs.View.{expr_of};
ghost use Rattle.p4_scopes.specs.View.{scope_of, stands_of};
ghost use Rattle.p4_statement_rules.specs.Ranks.{first_from};
ghost use Rattle.p4_statement_rules.specs.Expressions.{expr_at, fit_tests, number_width, number_tests, read_tests, valid_tests, applied_tests, is_error, error_tests, is_held_error, is_error_name, ill_compared, class_tests, slice_tests, cast_differs, expr_tests, free_tests, all_free, index_tests, known_tests, constant_tests};
ghost use Rattle.p4_statement_rules.specs.Operands.{left, IsNoted};

use crate::found::Found;
use crate::operands::{Operands, note};
use crate::rule::ProgramRule;
use crate::types::check_cast_type;
use lex_text::{Literal, Name};
use p4_scopes::kind::{
    Kind, as_number, as_value, binary_kind, choice_kind, choice_want, index_want, join,
    joined_width, kinds_differ, left_want, right_want, slice_width, width_in, widths_differ,
};
use p4_scopes::scope::{Scope, cast_kind};
use p4_scopes::stands::Stands;
use p4_tree::{Expr, Op};
use std::alloc::AllocError;

/// The number of the first token of an expression.
pub fn expr_at(e: &Expr) -> u32
    ensures { result ≡ expr_at (expr_of e.now) }
{
    match e {
        Expr::Num(at, _) => *at,
        Expr::Flag(at, _) => *at,
        Expr::Path(at, _) => *at,
        Expr::Valid(at, _) => *at,
        Expr::Applied(at, _, _) => *at,
        Expr::ErrorName(at, _) => *at,
        Expr::Not(at, _) => *at,
        Expr::Invert(at, _) => *at,
        Expr::Negate(at, _) => *at,
        Expr::Bin(at, _, _, _) => *at,
        Expr::Choice(at, _, _, _) => *at,
        Expr::Slice(at, _, _, _) => *at,
        Expr::Cast(at, _, _) => *at,
    }
}

/// What is of a kind stands where a kind is wanted.
pub fn check_fit(found: &mut Found, at: u32, kind: Kind, want: Kind)
    ensures { found.new.first ≡ first_from found.old.first (fit_tests at kind want) }
{
    found.test(at, ProgramRule::WidthDiffers, widths_differ(kind, want));
    found.test(at, ProgramRule::KindDiffers, kinds_differ(kind, want));
}

fn number_width(n: Literal, want: Kind) -> u8
    ensures { result ≡ number_width n want }
{
    if n.width == 0 {
        width_in(want)
    } else {
        n.width
    }
}

fn check_number(found: &mut Found, at: u32, n: Literal, want: Kind)
    ensures { found.new.first ≡ first_from found.old.first (number_tests at n want) }
{
    check_fit(found, at, Kind::Number(n.width), want);
    found.test(at, ProgramRule::KindDiffers, number_width(n, want) == 0);
    found.test(at, ProgramRule::BadSize, n.width > 128);
}

fn check_read(found: &mut Found, at: u32, stands: &Stands, want: Kind)
    ensures { found.new.first
        ≡ first_from found.old.first (read_tests at (stands_of stands.now) want) }
{
    found.test(at, ProgramRule::NoSuchName, stands.is_missing());
    found.test(at, ProgramRule::KindDiffers, !stands.reads());
    check_fit(found, at, stands.value_kind(), want);
}

fn check_valid(found: &mut Found, at: u32, stands: &Stands, want: Kind)
    ensures { found.new.first
        ≡ first_from found.old.first (valid_tests at (stands_of stands.now) want) }
{
    found.test(at, ProgramRule::NoSuchName, stands.is_missing());
    found.test(at, ProgramRule::KindDiffers, !stands.holds_header());
    check_fit(found, at, Kind::Truth, want);
}

/// Adds the tests of the application of a table, where one may stand or not.
pub fn check_applied(found: &mut Found, at: u32, may: bool, stands: &Stands)
    ensures { found.new.first
        ≡ first_from found.old.first (applied_tests at may (stands_of stands.now)) }
{
    found.test(at, ProgramRule::NoSuchName, stands.is_missing());
    found.test(at, ProgramRule::KindDiffers, !stands.is_table());
    found.test(at, ProgramRule::WrongPlace, !may);
}

fn is_error(name: &Name) -> bool
    ensures { result ≡ is_error name.now }
{
    let text = name.as_str();
    text == "NoError" || text == "PacketTooShort" || text == "NoMatch"
}

fn check_error(found: &mut Found, at: u32, name: &Name, want: Kind)
    ensures { found.new.first ≡ first_from found.old.first (error_tests at name.now want) }
{
    found.test(at, ProgramRule::NoSuchName, !is_error(name));
    check_fit(found, at, Kind::Error, want);
}

fn is_held_error(kind: Kind, e: &Expr) -> bool
    ensures { result ≡ is_held_error kind (expr_of e.now) }
{
    match e {
        Expr::Path(_, _) => kind == Kind::Error,
        Expr::Num(_, _) | Expr::Flag(_, _) | Expr::Valid(_, _) | Expr::Applied(_, _, _) => false,
        Expr::ErrorName(_, _) | Expr::Not(_, _) | Expr::Invert(_, _) | Expr::Negate(_, _) => false,
        Expr::Bin(_, _, _, _) | Expr::Choice(_, _, _, _) => false,
        Expr::Slice(_, _, _, _) | Expr::Cast(_, _, _) => false,
    }
}

fn is_error_name(e: &Expr) -> bool
    ensures { result ≡ is_error_name (expr_of e.now) }
{
    match e {
        Expr::ErrorName(_, _) => true,
        Expr::Num(_, _) | Expr::Flag(_, _) | Expr::Path(_, _) | Expr::Valid(_, _) => false,
        Expr::Applied(_, _, _) | Expr::Not(_, _) | Expr::Invert(_, _) => false,
        Expr::Negate(_, _) | Expr::Bin(_, _, _, _) | Expr::Choice(_, _, _, _) => false,
        Expr::Slice(_, _, _, _) | Expr::Cast(_, _, _) => false,
    }
}

fn ill_compared(kind: Kind, a: &Expr, b: &Expr) -> bool
    ensures { result ≡ ill_compared kind (expr_of a.now) (expr_of b.now) }
{
    is_held_error(kind, a) && !is_error_name(b)
}

/// The two operands of an operator, of these kinds.
fn check_operands(found: &mut Found, at: u32, op: Op, left: Kind, right: Kind, a: &Expr, b: &Expr)
    ensures { found.new.first
        ≡ first_from found.old.first
        (class_tests at (class_of op) left right (expr_of a.now) (expr_of b.now)) }
{
    match op {
        Op::Concat => {
            let v = width_in(left);
            let w = width_in(right);
            found.test(
                at,
                ProgramRule::BadSize,
                v != 0 && w != 0 && joined_width(v, w) == 0,
            );
        }
        Op::Less | Op::LessEq | Op::More | Op::MoreEq | Op::Equal | Op::Differ => {
            let ill = ill_compared(left, a, b) || ill_compared(right, b, a);
            found.test(at, ProgramRule::KindDiffers, ill);
        }
        Op::Mul | Op::Add | Op::Sub | Op::BitAnd | Op::BitXor | Op::BitOr => {}
        Op::Shl | Op::Shr | Op::Both | Op::Either => {}
    }
}

fn check_slice(found: &mut Found, at: u32, kind: Kind, high: u8, low: u8)
    ensures { found.new.first ≡ first_from found.old.first (slice_tests at kind high low) }
{
    let width = width_in(kind);
    let bad = slice_width(high, low) == 0 || (width != 0 && high >= width);
    found.test(at, ProgramRule::BadSize, bad);
}

fn cast_differs(to: Kind, from: Kind) -> bool
    ensures { result ≡ cast_differs to from }
{
    match (to, from) {
        (Kind::Number(w), Kind::Truth) => w != 1,
        (Kind::Truth, Kind::Number(v)) => v != 0 && v != 1,
        _ => false,
    }
}

/// Adds the tests of an expression of whose place `want` is wanted.
#[tactic(auto, using(crate::proofs::OperandsLemmas::is_noted))]
pub fn check_expr(found: &mut Found, scope: &Scope, want: Kind, e: &Expr) -> Result<(), AllocError>
    ensures { IfOk result (λ _. found.new.first
        ≡ first_from found.old.first (expr_tests (scope_of scope.now) want (expr_of e.now))) }
{
    let mut operands = Operands::new(found.alloc());
    note(scope, e, &mut operands)?;
    check_noted(found, scope, want, e, &mut operands);
    Ok(())
}

/// The same, where it is noted what the operands are.
fn check_noted(found: &mut Found, scope: &Scope, want: Kind, e: &Expr, operands: &mut Operands)
    requires { IsNoted (scope_of scope.now) (expr_of e.now) operands.old }
    ensures found { found.new.first
        ≡ first_from found.old.first (expr_tests (scope_of scope.now) want (expr_of e.now)) }
    ensures left { operands.new ≡ left (expr_of e.now) operands.old }
{
    match e {
        Expr::Num(at, n) => check_number(found, *at, *n, want),
        Expr::Flag(at, _) => check_fit(found, *at, Kind::Truth, want),
        Expr::Path(at, x) => check_read(found, *at, &scope.find(x), want),
        Expr::Valid(at, x) => check_valid(found, *at, &scope.find(x), want),
        Expr::Applied(at, t, _) => check_applied(found, *at, false, &scope.find_name(t)),
        Expr::ErrorName(at, x) => check_error(found, *at, x, want),
        Expr::Not(at, a) => {
            check_fit(found, *at, Kind::Truth, want);
            check_noted(found, scope, Kind::Truth, a, operands);
        }
        Expr::Invert(at, a) | Expr::Negate(at, a) => {
            let kind = operands.pop();
            check_fit(found, *at, as_number(kind), want);
            check_noted(found, scope, as_number(join(kind, want)), a, operands);
        }
        Expr::Bin(at, op, a, b) => {
            let left = operands.pop();
            let right = operands.pop();
            check_fit(found, *at, binary_kind(*op, left, right), want);
            check_operands(found, *at, *op, left, right, a, b);
            check_noted(found, scope, left_want(*op, left, right, want), a, operands);
            check_noted(
                found,
                scope,
                right_want(*op, left, right, want),
                b,
                operands,
            );
        }
        Expr::Choice(at, c, a, b) => {
            let left = operands.pop();
            let right = operands.pop();
            check_fit(found, *at, choice_kind(left, right), want);
            check_noted(found, scope, Kind::Truth, c, operands);
            check_noted(found, scope, choice_want(left, right, want), a, operands);
            check_noted(found, scope, choice_want(left, right, want), b, operands);
        }
        Expr::Slice(at, a, high, low) => {
            let kind = operands.pop();
            check_fit(found, *at, Kind::Number(slice_width(*high, *low)), want);
            check_slice(found, *at, kind, *high, *low);
            check_noted(found, scope, as_number(kind), a, operands);
        }
        Expr::Cast(at, t, a) => {
            let kind = operands.pop();
            check_fit(found, *at, cast_kind(t), want);
            check_cast_type(found, *at, t);
            found.test(
                *at,
                ProgramRule::KindDiffers,
                cast_differs(cast_kind(t), kind),
            );
            check_noted(found, scope, as_value(kind), a, operands);
        }
    }
}

/// Adds the tests of an expression whose place gives no width.
pub fn check_free(found: &mut Found, scope: &Scope, e: &Expr) -> Result<(), AllocError>
    ensures { IfOk result (λ _. found.new.first
        ≡ first_from found.old.first (free_tests (scope_of scope.now) (expr_of e.now))) }
{
    check_expr(found, scope, as_value(scope.own(e)), e)
}

/// The same of each expression of a list.
pub fn check_all_free(found: &mut Found, scope: &Scope, all: &[Expr]) -> Result<(), AllocError>
    ensures { IfOk result (λ _. found.new.first
        ≡ first_from found.old.first (all_free (scope_of scope.now) (map expr_of all.now))) }
{
    for e in all {
        check_free(found, scope, e)?;
    }
    Ok(())
}

/// Adds the tests of an index.
pub fn check_index(found: &mut Found, scope: &Scope, e: &Expr) -> Result<(), AllocError>
    ensures { IfOk result (λ _. found.new.first
        ≡ first_from found.old.first (index_tests (scope_of scope.now) (expr_of e.now))) }
{
    check_expr(found, scope, index_want(scope.own(e)), e)
}

/// Adds the tests of what has to be known before the program runs.
fn check_known(found: &mut Found, scope: &Scope, e: &Expr)
    ensures { found.new.first
        ≡ first_from found.old.first (known_tests (scope_of scope.now) (expr_of e.now)) }
{
    match e {
        Expr::Num(_, _) => {}
        Expr::Flag(_, _) => {}
        Expr::Path(at, x) => {
            found.test(*at, ProgramRule::KindDiffers, !scope.find(x).is_constant());
        }
        Expr::Valid(at, _) => found.test(*at, ProgramRule::KindDiffers, true),
        Expr::Applied(at, _, _) => found.test(*at, ProgramRule::KindDiffers, true),
        Expr::ErrorName(at, _) => found.test(*at, ProgramRule::KindDiffers, true),
        Expr::Not(_, a) => check_known(found, scope, a),
        Expr::Invert(_, a) => check_known(found, scope, a),
        Expr::Negate(_, a) => check_known(found, scope, a),
        Expr::Bin(_, _, a, b) => {
            check_known(found, scope, a);
            check_known(found, scope, b);
        }
        Expr::Choice(_, c, a, b) => {
            check_known(found, scope, c);
            check_known(found, scope, a);
            check_known(found, scope, b);
        }
        Expr::Slice(_, a, _, _) => check_known(found, scope, a),
        Expr::Cast(_, _, a) => check_known(found, scope, a),
    }
}

/// Adds the tests of a value of which `want` is wanted, and which is known before the program runs.
pub fn check_constant(
    found: &mut Found,
    scope: &Scope,
    want: Kind,
    e: &Expr,
) -> Result<(), AllocError>
    ensures { IfOk result (λ _. found.new.first
        ≡ first_from found.old.first (constant_tests (scope_of scope.now) want (expr_of e.now))) }
{
    check_expr(found, scope, want, e)?;
    check_known(found, scope, e);
    Ok(())
}
