//! The steps of statements.

ghost use Rattle.std.specs.Prelude.{◌≡◌, ◌++◌, ◌∷◌, [], map, not, true, false, is_some, if◌then◌else◌, IfOk, IfErr, OnOk, Some, None};
ghost use Rattle.std.specs.Option.{option_map};
ghost use Rattle.p4_tree.specs.Tree.{block};
ghost use Rattle.p4_tree.specs.View.{else_of, expr_of, stmt_of, stmts_of};
ghost use Rattle.p4_meaning.specs.DigestBound.{most_applied, most_named, most_of, most_of_else, most_of_stmt, most_of_test};
ghost use Rattle.p4_meaning.specs.Statements.{application};
ghost use Rattle.slot_terms.specs.Places.{IsLaid, places_of};
ghost use Rattle.slot_terms.specs.Terms.{constant};
ghost use Rattle.slot_terms.specs.Typed.{typed_of};
ghost use Rattle.slot_terms.specs.declared.fault.Fault.TheVariants.{Unknown};
ghost use Rattle.slot_statements.specs.Known.{places_behind};
ghost use Rattle.slot_statements.specs.Runs.{Grows};
ghost use Rattle.slot_controls.specs.Steps.{branch, group, most_told, most_told_all, step_of, steps_of};
ghost use Rattle.slot_controls.specs.StepRuns.{DoAllSteps, DoesStep, DoesStepElse, Widens};
ghost use Rattle.slot_control_codes.specs.Callees.{applied_of};
ghost use Rattle.slot_control_codes.specs.Found.{table_branch, test_branch, test_in, test_told, IsTest};
ghost use Rattle.slot_control_codes.specs.Known.{asked_of, can_test, has_step_else, known_calls, steps_behind, steps_behind_all};

use crate::acts::{act_step, plain_step};
use crate::callees::{Applied, CallSteps};
use crate::calls::act_of;
use p4_tree::{Expr, Stmt};
use slot_controls::Step;
use slot_statements::{Code, stmt_code};
use slot_terms::{Fault, Places, Term, Typed, cut_back, row_count, typed_term};
use std::alloc::{AllocError, Global};

/// The table that a test applies, and whether it asks for a hit.
#[derive(Clone, Copy)]
pub struct Asked<'a> {
    pub table: &'a str,
    pub hit: bool,
}

/// The opposite of what is asked.
fn turned(asked: Option<Asked<'_>>) -> Option<Asked<'_>>
    ensures { option_map asked_of result ≡ option_map (λ t. record { 0 = t.0; 1 = not t.1 }) (option_map asked_of asked.entry) }
{
    match asked {
        None => None,
        Some(a) => Some(Asked {
            table: a.table,
            hit: !a.hit,
        }),
    }
}

/// What a test asks of a table, perhaps behind `!`; `None` where it applies none.
pub fn asked_by(e: &Expr) -> Option<Asked<'_>>
    ensures { option_map asked_of result ≡ application (expr_of e.now) }
{
    match e {
        Expr::Applied(_, table, hit) => Some(Asked {
            table: table.as_str(),
            hit: *hit,
        }),
        Expr::Not(_, e) => turned(asked_by(e)),
        Expr::Num(_, _) | Expr::Flag(_, _) | Expr::Path(_, _) | Expr::Valid(_, _) => None,
        Expr::ErrorName(_, _) | Expr::Invert(_, _) | Expr::Negate(_, _) => None,
        Expr::Bin(_, _, _, _) | Expr::Choice(_, _, _, _) => None,
        Expr::Slice(_, _, _, _) | Expr::Cast(_, _, _) => None,
    }
}

/// A step behind others.
fn push_step(steps: &mut Vec<Step>, c: Step) -> Result<(), AllocError>
    ensures { OnOk result (map step_of steps.new.items ≡ map step_of steps.old.items ++ step_of c ∷ []) }
{
    steps.push(c)?;
    Ok(())
}

/// One of two steps, by a term.
fn branch_step(alloc: Global, t: Typed, a: Step, b: Step) -> Result<Step, AllocError>
    ensures { IfOk result (λ c. step_of c ≡ branch (typed_of t).term (step_of a) (step_of b)) }
{
    let a = Box::new(alloc, a)?;
    let b = Box::new(alloc, b)?;
    Ok(Step::If(t.term, a, b))
}

/// One of two steps, by an application of none, which is a miss.
fn none_branch(alloc: Global, hit: bool, a: Step, b: Step) -> Result<Step, AllocError>
    ensures { IfOk result (λ c. step_of c ≡ branch (constant (if hit then 0 else 1)) (step_of a) (step_of b)) }
{
    let a = Box::new(alloc, a)?;
    let b = Box::new(alloc, b)?;
    Ok(Step::If(Term::Word(if hit { 0 } else { 1 }), a, b))
}

/// One of two steps, by an application. That of none is a miss.
fn table_branch(
    alloc: Global,
    applied: Option<Applied>,
    hit: bool,
    a: Step,
    b: Step,
) -> Result<Step, AllocError>
    ensures { IfOk result (λ c. step_of c ≡ table_branch (option_map applied_of applied) hit (step_of a) (step_of b)) }
{
    match applied {
        None => none_branch(alloc, hit, a, b),
        Some(x) => x.step(alloc, hit, a, b),
    }
}

/// The test of an `if`: a term, or whether an application is a hit, or a miss.
#[derive(Drop)]
pub(crate) enum Test {
    Term(Typed),
    Table(Option<Applied>, bool),
}

/// The test that an expression is.
fn test_of<K: CallSteps>(alloc: Global, places: &mut Places, k: &K, e: &Expr) -> Result<Test, Fault>
    requires { IsLaid (places_of places.old) }
    ensures same { OnOk result (places_of places.new ≡ places_of places.old) }
    ensures known { OnOk result (can_test (known_calls (K.callees k.now)) (application (expr_of e.now)) (expr_of e.now) (places_of places.old) ≡ true) }
    ensures is { IfOk result (λ t. IsTest (K.callees k.now) (places_of places.old) (expr_of e.now) (test_in t)) }
    ensures told { IfOk result (λ t. test_told (test_in t) ≡ most_of_test (most_named (K.callees k.now).actions) (most_applied (K.callees k.now).actions (K.callees k.now).tables) (application (expr_of e.now))) }
    ensures blames { IfErr result (λ f. f ≡ Unknown → can_test (known_calls (K.callees k.now)) (application (expr_of e.now)) (expr_of e.now) (places_of places.old) ≡ false) }
{
    match asked_by(e) {
        None => {
            let t = typed_term(alloc, places, e, 1)?;
            Ok(Test::Term(t))
        }
        Some(asked) => {
            let applied = k.application(alloc, places, asked.table)?;
            Ok(Test::Table(applied, asked.hit))
        }
    }
}

/// One of two steps, by a test.
fn test_step(alloc: Global, t: Test, a: Step, b: Step) -> Result<Step, AllocError>
    ensures { IfOk result (λ c. step_of c ≡ test_branch (test_in t) (step_of a) (step_of b)) }
{
    match t {
        Test::Term(t) => branch_step(alloc, t, a, b),
        Test::Table(applied, hit) => table_branch(alloc, applied, hit, a, b),
    }
}

/// One after the other, as one step.
pub(crate) fn group_step(steps: Vec<Step>) -> Step
    ensures { step_of result ≡ group (steps_of steps.items) }
{
    Step::Group(steps)
}

/// The step of a statement that is no call and has no parts.
fn code_step<K: CallSteps>(
    alloc: Global,
    places: &mut Places,
    k: &K,
    s: &Stmt,
) -> Result<Step, Fault>
    requires { IsLaid (places_of places.old) }
    ensures laid { OnOk result (IsLaid (places_of places.new)) }
    ensures grows { OnOk result (Grows (places_of places.old) (places_of places.new)) }
    ensures widens { OnOk result (Widens (places_of places.old) (places_of places.new)) }
    ensures known { OnOk result (places_behind (stmt_of s.now) (places_of places.old) ≡ Some (places_of places.new)) }
    ensures does { IfOk result (λ c. DoesStep (K.callees k.now) (places_of places.old) (places_of places.new) (step_of c) (stmt_of s.now)) }
    ensures told { IfOk result (λ c. most_told (step_of c) ≡ 0) }
    ensures blames { IfErr result (λ f. f ≡ Unknown → places_behind (stmt_of s.now) (places_of places.old) ≡ None) }
{
    let c = stmt_code(alloc, places, s)?;
    Ok(plain_step(c))
}

/// The step of a statement of a control; behind it the places of what it declares are in sight. `Unknown`
/// where `stmt_code` of `slot_statements` says so of what is no call; for an action's call, and for a
/// table that has the action in its list or as its default, where a parameter's name has a place, no slot
/// is left, or this is said of the body; for an action's call also where the arguments are more or fewer
/// than the parameters; for an application where a path of a key has no place; for setValid and setInvalid
/// of what has no number or no slots; for another call where a path has no place, for mark_to_drop the port
/// one of 9 bits, and for verify_checksum the error one of one bit. After an `Err` nothing is said of the
/// places.
#[cycle(steps)]
pub fn stmt_step<K: CallSteps>(
    alloc: Global,
    places: &mut Places,
    k: &K,
    s: &Stmt,
) -> Result<Step, Fault>
    requires { IsLaid (places_of places.old) }
    ensures laid { OnOk result (IsLaid (places_of places.new)) }
    ensures grows { OnOk result (Grows (places_of places.old) (places_of places.new)) }
    ensures widens { OnOk result (Widens (places_of places.old) (places_of places.new)) }
    ensures known { OnOk result (steps_behind (known_calls (K.callees k.now)) (stmt_of s.now) (places_of places.old) ≡ Some (places_of places.new)) }
    ensures does { IfOk result (λ c. DoesStep (K.callees k.now) (places_of places.old) (places_of places.new) (step_of c) (stmt_of s.now)) }
    ensures told { IfOk result (λ c. most_told (step_of c) ≡ most_of_stmt (most_named (K.callees k.now).actions) (most_applied (K.callees k.now).actions (K.callees k.now).tables) (stmt_of s.now)) }
    ensures blames { IfErr result (λ f. f ≡ Unknown → steps_behind (known_calls (K.callees k.now)) (stmt_of s.now) (places_of places.old) ≡ None) }
{
    match s {
        Stmt::Nothing(_) => code_step(alloc, places, k, s),
        Stmt::Return(_) => code_step(alloc, places, k, s),
        Stmt::Exit(_) => code_step(alloc, places, k, s),
        Stmt::Assign(_, _, _) => code_step(alloc, places, k, s),
        Stmt::Var(_, _, _, _) => code_step(alloc, places, k, s),
        Stmt::Block(_, body) => {
            let c = in_block(alloc, places, k, body)?;
            Ok(c)
        }
        Stmt::If(_, e, a, b) => {
            let t = test_of(alloc, places, k, e)?;
            let a = in_branch(alloc, places, k, a)?;
            let b = in_else(alloc, places, k, b)?;
            Ok(test_step(alloc, t, a, b)?)
        }
        Stmt::Call(_, callee, args) => {
            let c = act_step(alloc, places, k, act_of(callee, args))?;
            Ok(c)
        }
    }
}

/// The step of a statement whose variables are forgotten behind it.
#[cycle(steps)]
fn in_branch<K: CallSteps>(
    alloc: Global,
    places: &mut Places,
    k: &K,
    s: &Stmt,
) -> Result<Step, Fault>
    requires { IsLaid (places_of places.old) }
    ensures same { OnOk result (places_of places.new ≡ places_of places.old) }
    ensures known { OnOk result (is_some (steps_behind (known_calls (K.callees k.now)) (stmt_of s.now) (places_of places.old)) ≡ true) }
    ensures does { IfOk result (λ c. DoesStep (K.callees k.now) (places_of places.old) (places_of places.old) (step_of c) (stmt_of s.now)) }
    ensures told { IfOk result (λ c. most_told (step_of c) ≡ most_of_stmt (most_named (K.callees k.now).actions) (most_applied (K.callees k.now).actions (K.callees k.now).tables) (stmt_of s.now)) }
    ensures blames { IfErr result (λ f. f ≡ Unknown → is_some (steps_behind (known_calls (K.callees k.now)) (stmt_of s.now) (places_of places.old)) ≡ false) }
{
    let count = row_count(places);
    let next = places.next;
    let c = stmt_step(alloc, places, k, s)?;
    cut_back(places, count, next);
    Ok(c)
}

/// The step of an `else` that may be there.
#[cycle(steps)]
fn in_else<K: CallSteps>(
    alloc: Global,
    places: &mut Places,
    k: &K,
    other: &Option<Box<Stmt>>,
) -> Result<Step, Fault>
    requires { IsLaid (places_of places.old) }
    ensures same { OnOk result (places_of places.new ≡ places_of places.old) }
    ensures known { OnOk result (has_step_else (known_calls (K.callees k.now)) (else_of other.now) (places_of places.old) ≡ true) }
    ensures does { IfOk result (λ c. DoesStepElse (K.callees k.now) (places_of places.old) (step_of c) (else_of other.now)) }
    ensures told { IfOk result (λ c. most_told (step_of c) ≡ most_of_else (most_named (K.callees k.now).actions) (most_applied (K.callees k.now).actions (K.callees k.now).tables) (else_of other.now)) }
    ensures blames { IfErr result (λ f. f ≡ Unknown → has_step_else (known_calls (K.callees k.now)) (else_of other.now) (places_of places.old) ≡ false) }
{
    match other {
        None => Ok(plain_step(Code::Skip)),
        Some(s) => {
            let c = in_branch(alloc, places, k, s)?;
            Ok(c)
        }
    }
}

/// The step of a block.
#[cycle(steps)]
fn in_block<K: CallSteps>(
    alloc: Global,
    places: &mut Places,
    k: &K,
    body: &[Stmt],
) -> Result<Step, Fault>
    requires { IsLaid (places_of places.old) }
    ensures same { OnOk result (places_of places.new ≡ places_of places.old) }
    ensures known { OnOk result (is_some (steps_behind_all (known_calls (K.callees k.now)) (stmts_of body.now) (places_of places.old)) ≡ true) }
    ensures does { IfOk result (λ c. DoesStep (K.callees k.now) (places_of places.old) (places_of places.old) (step_of c) (block 0 (stmts_of body.now))) }
    ensures told { IfOk result (λ c. most_told (step_of c) ≡ most_of (most_named (K.callees k.now).actions) (most_applied (K.callees k.now).actions (K.callees k.now).tables) (stmts_of body.now)) }
    ensures blames { IfErr result (λ f. f ≡ Unknown → is_some (steps_behind_all (known_calls (K.callees k.now)) (stmts_of body.now) (places_of places.old)) ≡ false) }
{
    let count = row_count(places);
    let next = places.next;
    let steps = stmts_steps(alloc, places, k, body)?;
    cut_back(places, count, next);
    Ok(group_step(steps))
}

/// The steps of statements one after the other; behind them the places of what they declare are in sight.
/// Faults are those of `stmt_step`.
#[cycle(steps)]
pub fn stmts_steps<K: CallSteps>(
    alloc: Global,
    places: &mut Places,
    k: &K,
    list: &[Stmt],
) -> Result<Vec<Step>, Fault>
    requires { IsLaid (places_of places.old) }
    ensures laid { OnOk result (IsLaid (places_of places.new)) }
    ensures grows { OnOk result (Grows (places_of places.old) (places_of places.new)) }
    ensures widens { OnOk result (Widens (places_of places.old) (places_of places.new)) }
    ensures known { OnOk result (steps_behind_all (known_calls (K.callees k.now)) (stmts_of list.now) (places_of places.old) ≡ Some (places_of places.new)) }
    ensures do_all { IfOk result (λ v. DoAllSteps (K.callees k.now) (places_of places.old) (places_of places.new) (steps_of v.items) (stmts_of list.now)) }
    ensures told { IfOk result (λ v. most_told_all (steps_of v.items) ≡ most_of (most_named (K.callees k.now).actions) (most_applied (K.callees k.now).actions (K.callees k.now).tables) (stmts_of list.now)) }
    ensures blames { IfErr result (λ f. f ≡ Unknown → steps_behind_all (known_calls (K.callees k.now)) (stmts_of list.now) (places_of places.old) ≡ None) }
{
    let mut steps = Vec::new(alloc);
    for s in list {
        let c = stmt_step(alloc, places, k, s)?;
        push_step(&mut steps, c)?;
    }
    Ok(steps)
}
