//! The steps of registers and digests.

ghost use Rattle.std.specs.Prelude.{◌≡◌, ◌++◌, ◌∷◌, [], map, true, false, ◌&&◌, is_some, IfOk, IfErr, OnOk};
ghost use Rattle.p4_tree.specs.View.{expr_of};
ghost use Rattle.p4_meaning.specs.Statements.{reads as tree_reads, tells as tree_tells, writes as tree_writes};
ghost use Rattle.slot_terms.specs.Known.{is_known};
ghost use Rattle.slot_terms.specs.Places as sight;
ghost use Rattle.slot_terms.specs.Places.{IsLaid, place_of, places_of};
ghost use Rattle.slot_terms.specs.Typed.{typed_of};
ghost use Rattle.slot_terms.specs.declared.fault.Fault.TheVariants.{Unknown};
ghost use Rattle.slot_statements.specs.Known.{is_known_target};
ghost use Rattle.slot_controls.specs.Steps.{most_told, reads, step_of, target_of, tells, writes};
ghost use Rattle.slot_controls.specs.StepRuns.{DoesAct, MeanAll, target_at};
ghost use Rattle.slot_control_codes.specs.Found.{IsTargetOf};
ghost use Rattle.slot_control_codes.specs.Known.{are_known};

use crate::acts::skip_step;
use crate::callees::{CallSteps, register_number, register_width};
use bit_values::sound_width;
use lex_text::Name;
use p4_parts::is_assignable;
use p4_tree::Expr;
use slot_controls::{Step, Target};
use slot_terms::{Fault, Place, Places, Typed, mask, place_at, typed_term};
use std::alloc::{AllocError, Global};

/// Where a place is written.
fn target_at(row: &Place) -> Target
    ensures { target_of result ≡ target_at (place_of row.now) }
{
    Target {
        slot: row.slot,
        header: row.header,
        mask: mask(sound_width(row.width)),
    }
}

/// Where a path is written.
pub fn target_in(places: &Places, path: &[Name]) -> Result<Target, Fault>
    ensures known { OnOk result (is_some (sight.place_at (places_of places.now).rows path.now) ≡ true) }
    ensures at { IfOk result (λ t. IsTargetOf (places_of places.now) path.now (target_of t)) }
    ensures blames { IfErr result (λ f. f ≡ Unknown → is_some (sight.place_at (places_of places.now).rows path.now) ≡ false) }
{
    match place_at(places, path) {
        None => Err(Fault::Unknown),
        Some(row) => Ok(target_at(row)),
    }
}

/// A term behind others.
fn push_term(terms: &mut Vec<Typed>, t: Typed) -> Result<(), AllocError>
    ensures { OnOk result (map typed_of terms.new.items ≡ map typed_of terms.old.items ++ typed_of t ∷ []) }
{
    terms.push(t)?;
    Ok(())
}

/// The terms of expressions, whose places give no width.
pub fn terms_of(alloc: Global, places: &Places, list: &[Expr]) -> Result<Vec<Typed>, Fault>
    ensures known { OnOk result (are_known (places_of places.now) (map expr_of list.now) ≡ true) }
    ensures mean { IfOk result (λ v. MeanAll (places_of places.now) (map expr_of list.now) (map typed_of v.items)) }
    ensures blames { IfErr result (λ f. f ≡ Unknown → are_known (places_of places.now) (map expr_of list.now) ≡ false) }
{
    let mut terms = Vec::new(alloc);
    for e in list {
        let t = typed_term(alloc, places, e, 0)?;
        push_term(&mut terms, t)?;
    }
    Ok(terms)
}

/// A register's read as a step.
fn read_node(register: u32, target: Target, index: Typed) -> Step
    ensures { step_of result ≡ reads register (target_of target) (typed_of index).term }
{
    Step::Read(register, target, index.term)
}

/// A register's write as a step.
fn write_node(register: u32, index: Typed, value: Typed) -> Step
    ensures { step_of result ≡ writes register (typed_of index).term (typed_of value) }
{
    Step::Write(register, index.term, value)
}

/// A digest as a step.
fn tell_node(receiver: u32, values: Vec<Typed>) -> Step
    ensures { step_of result ≡ tells receiver (map typed_of values.items) }
{
    Step::Tell(receiver, values)
}

/// The step of a register's read. Into what no statement may write it does nothing.
pub fn read_step<K: CallSteps>(
    alloc: Global,
    places: &Places,
    k: &K,
    x: &str,
    target: &[Name],
    index: &Expr,
) -> Result<Step, Fault>
    requires { IsLaid (places_of places.now) }
    ensures known { OnOk result (is_known_target (places_of places.now) target.now (expr_of index.now) ≡ true) }
    ensures does { IfOk result (λ c. DoesAct (K.callees k.now) (places_of places.now) (step_of c) (tree_reads x.now target.now (expr_of index.now))) }
    ensures told { IfOk result (λ c. most_told (step_of c) ≡ 0) }
    ensures blames { IfErr result (λ f. f ≡ Unknown → is_known_target (places_of places.now) target.now (expr_of index.now) ≡ false) }
{
    if is_assignable(target) {
        let target = target_in(places, target)?;
        let index = typed_term(alloc, places, index, 128)?;
        let all = k.registers();
        let register = register_number(all, x)?;
        Ok(read_node(register, target, index))
    } else {
        Ok(skip_step())
    }
}

/// The step of a register's write.
pub fn write_step<K: CallSteps>(
    alloc: Global,
    places: &Places,
    k: &K,
    x: &str,
    index: &Expr,
    value: &Expr,
) -> Result<Step, Fault>
    ensures known { OnOk result ((is_known (places_of places.now) (expr_of index.now) && is_known (places_of places.now) (expr_of value.now)) ≡ true) }
    ensures does { IfOk result (λ c. DoesAct (K.callees k.now) (places_of places.now) (step_of c) (tree_writes x.now (expr_of index.now) (expr_of value.now))) }
    ensures told { IfOk result (λ c. most_told (step_of c) ≡ 0) }
    ensures blames { IfErr result (λ f. f ≡ Unknown → (is_known (places_of places.now) (expr_of index.now) && is_known (places_of places.now) (expr_of value.now)) ≡ false) }
{
    let all = k.registers();
    let width = register_width(all, x);
    let index = typed_term(alloc, places, index, 128)?;
    let value = typed_term(alloc, places, value, width)?;
    let register = register_number(all, x)?;
    Ok(write_node(register, index, value))
}

/// The step of a digest.
pub fn tell_step<K: CallSteps>(
    alloc: Global,
    places: &Places,
    k: &K,
    receiver: u32,
    values: &[Expr],
) -> Result<Step, Fault>
    ensures known { OnOk result (are_known (places_of places.now) (map expr_of values.now) ≡ true) }
    ensures does { IfOk result (λ c. DoesAct (K.callees k.now) (places_of places.now) (step_of c) (tree_tells receiver (map expr_of values.now))) }
    ensures told { IfOk result (λ c. most_told (step_of c) ≡ 1) }
    ensures blames { IfErr result (λ f. f ≡ Unknown → are_known (places_of places.now) (map expr_of values.now) ≡ false) }
{
    let values = terms_of(alloc, places, values)?;
    Ok(tell_node(receiver, values))
}
