//! The steps of checksums.

ghost use Rattle.std.specs.Prelude.{◌≡◌, map, true, false, is_some, IfOk, IfErr, OnOk};
ghost use Rattle.p4_tree.specs.Tree.{path};
ghost use Rattle.p4_tree.specs.View.{expr_of};
ghost use Rattle.p4_meaning.specs.Standard.{checksum_error};
ghost use Rattle.p4_meaning.specs.Statements.{sums};
ghost use Rattle.slot_terms.specs.Places as sight;
ghost use Rattle.slot_terms.specs.Places.{IsLaid, Means, places_of};
ghost use Rattle.slot_terms.specs.Typed.{typed_of};
ghost use Rattle.slot_terms.specs.declared.fault.Fault.TheVariants.{Unknown};
ghost use Rattle.slot_statements.specs.Codes.{skip};
ghost use Rattle.slot_controls.specs.Steps.{branch, most_told, plain, step_of, target_of, updates, verifies};
ghost use Rattle.slot_controls.specs.StepRuns.{DoesAct};
ghost use Rattle.slot_control_codes.specs.Found.{IsErrorSlot};
ghost use Rattle.slot_control_codes.specs.Known.{has_act, has_error, known_calls};

use crate::acts::skip_step;
use crate::callees::CallSteps;
use crate::externs::{target_in, terms_of};
use lex_text::Name;
use p4_packets::standard_path;
use p4_parts::is_assignable;
use p4_tree::Expr;
use p4_values::copy_path;
use slot_controls::{Step, Target};
use slot_terms::{Fault, Places, Term, Typed, place_at, typed_term};
use std::alloc::{AllocError, Global};

/// The step that is done where a term is 1.
fn if_step(alloc: Global, test: Typed, step: Step) -> Result<Step, AllocError>
    ensures { IfOk result (λ c. step_of c ≡ branch (typed_of test).term (step_of step) (plain skip)) }
{
    let step = Box::new(alloc, step)?;
    let other = Box::new(alloc, skip_step())?;
    Ok(Step::If(test.term, step, other))
}

/// verify_checksum as a step, where its condition holds.
fn verify_node(values: Vec<Typed>, field: Typed, error: u32) -> Step
    ensures { step_of result ≡ verifies (map typed_of values.items) (typed_of field).term error }
{
    Step::Verify(values, field.term, error)
}

/// update_checksum as a step, where its condition holds.
fn update_node(values: Vec<Typed>, field: Target) -> Step
    ensures { step_of result ≡ updates (map typed_of values.items) (target_of field) }
{
    Step::Update(values, field)
}

/// The term of a path.
fn path_term(alloc: Global, places: &Places, names: &[Name]) -> Result<Typed, Fault>
    ensures known { OnOk result (is_some (sight.place_at (places_of places.now).rows names.now) ≡ true) }
    ensures means { IfOk result (λ t. Means (places_of places.now) (path 0 names.now) 16 (typed_of t)) }
    ensures blames { IfErr result (λ f. f ≡ Unknown → is_some (sight.place_at (places_of places.now).rows names.now) ≡ false) }
{
    let names = copy_path(alloc, names)?;
    let e = Expr::Path(0, names);
    let t = typed_term(alloc, places, &e, 16)?;
    Ok(t)
}

/// The slot of the error of checksums. `Unknown` where it has no place of one bit.
fn error_slot(alloc: Global, places: &Places) -> Result<u32, Fault>
    ensures known { OnOk result (has_error (sight.place_at (places_of places.now).rows checksum_error) ≡ true) }
    ensures at { IfOk result (λ n. IsErrorSlot (places_of places.now) n) }
    ensures blames { IfErr result (λ f. f ≡ Unknown → has_error (sight.place_at (places_of places.now).rows checksum_error) ≡ false) }
{
    let path = standard_path(alloc, "checksum_error")?;
    match place_at(places, &path) {
        None => Err(Fault::Unknown),
        Some(row) => {
            if row.width == 1 {
                Ok(row.slot)
            } else {
                Err(Fault::Unknown)
            }
        }
    }
}

/// The step of verify_checksum.
pub fn verify_step<K: CallSteps>(
    alloc: Global,
    places: &Places,
    k: &K,
    condition: &Expr,
    list: &[Expr],
    field: &[Name],
) -> Result<Step, Fault>
    requires { IsLaid (places_of places.now) }
    ensures known { OnOk result (has_act (known_calls (K.callees k.now)) (sums true (expr_of condition.now) (map expr_of list.now) field.now) (places_of places.now) ≡ true) }
    ensures does { IfOk result (λ c. DoesAct (K.callees k.now) (places_of places.now) (step_of c) (sums true (expr_of condition.now) (map expr_of list.now) field.now)) }
    ensures told { IfOk result (λ c. most_told (step_of c) ≡ 0) }
    ensures blames { IfErr result (λ f. f ≡ Unknown → has_act (known_calls (K.callees k.now)) (sums true (expr_of condition.now) (map expr_of list.now) field.now) (places_of places.now) ≡ false) }
{
    let error = error_slot(alloc, places)?;
    let test = typed_term(alloc, places, condition, 1)?;
    let values = terms_of(alloc, places, list)?;
    let found = path_term(alloc, places, field)?;
    let step = if_step(alloc, test, verify_node(values, found, error))?;
    Ok(step)
}

/// The step of update_checksum. Of what no statement may write it does nothing.
pub fn update_step<K: CallSteps>(
    alloc: Global,
    places: &Places,
    k: &K,
    condition: &Expr,
    list: &[Expr],
    field: &[Name],
) -> Result<Step, Fault>
    requires { IsLaid (places_of places.now) }
    ensures known { OnOk result (has_act (known_calls (K.callees k.now)) (sums false (expr_of condition.now) (map expr_of list.now) field.now) (places_of places.now) ≡ true) }
    ensures does { IfOk result (λ c. DoesAct (K.callees k.now) (places_of places.now) (step_of c) (sums false (expr_of condition.now) (map expr_of list.now) field.now)) }
    ensures told { IfOk result (λ c. most_told (step_of c) ≡ 0) }
    ensures blames { IfErr result (λ f. f ≡ Unknown → has_act (known_calls (K.callees k.now)) (sums false (expr_of condition.now) (map expr_of list.now) field.now) (places_of places.now) ≡ false) }
{
    if is_assignable(field) {
        let target = target_in(places, field)?;
        let test = typed_term(alloc, places, condition, 1)?;
        let values = terms_of(alloc, places, list)?;
        let step = if_step(alloc, test, update_node(values, target))?;
        Ok(step)
    } else {
        Ok(skip_step())
    }
}
