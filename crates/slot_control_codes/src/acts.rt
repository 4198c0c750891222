//! The steps of calls, by what they are for.

ghost use Rattle.std.specs.Prelude.{◌≡◌, true, false, IfOk, IfErr, OnOk};
ghost use Rattle.p4_meaning.specs.DigestBound.{most_applied, most_named, most_of_act};
ghost use Rattle.p4_meaning.specs.Standard.{egress_spec};
ghost use Rattle.p4_meaning.specs.Statements.{applies as tree_applies, drops, idle, makes as tree_makes};
ghost use Rattle.p4_meaning.specs.Tables as tables;
ghost use Rattle.slot_terms.specs.Places as sight;
ghost use Rattle.slot_terms.specs.Places.{IsLaid, places_of};
ghost use Rattle.slot_terms.specs.declared.fault.Fault.TheVariants.{Unknown};
ghost use Rattle.slot_statements.specs.Codes.{code_of, skip};
ghost use Rattle.slot_statements.specs.Known.{has_port};
ghost use Rattle.slot_controls.specs.Steps.{makes, most_told, plain, slots_of, step_of};
ghost use Rattle.slot_controls.specs.StepRuns.{DoesAct};
ghost use Rattle.slot_control_codes.specs.Acts.{act_in};
ghost use Rattle.slot_control_codes.specs.Known.{can_apply, has_act, has_slots, known_calls};

use crate::callees::CallSteps;
use crate::calls::Act;
use crate::externs::{read_step, tell_step, write_step};
use crate::sums::{update_step, verify_step};
use lex_text::Name;
use slot_controls::{HeaderSlots, Step};
use slot_statements::{Code, drop_code};
use slot_terms::{Fault, Places, header_number};
use std::alloc::Global;

/// Code as a step.
pub fn plain_step(c: Code) -> Step
    ensures { step_of result ≡ plain (code_of c) }
{
    Step::Plain(c)
}

/// The step that does nothing.
pub fn skip_step() -> Step
    ensures { step_of result ≡ plain skip }
{
    plain_step(Code::Skip)
}

/// A header's setValid or setInvalid as a step.
fn make_step(number: u32, slots: HeaderSlots, valid: bool) -> Step
    ensures { step_of result ≡ makes number (slots_of slots) valid }
{
    Step::Make(number, slots, valid)
}

/// The step of a call that does nothing.
fn idle_step<K: CallSteps>(_places: &Places, _k: &K) -> Step
    ensures told { most_told (step_of result) ≡ 0 }
    ensures does { DoesAct (K.callees _k.now) (places_of _places.now) (step_of result) idle }
{
    plain_step(Code::Skip)
}

/// The step of a table's application. That of none is a miss, and does nothing.
fn apply_step<K: CallSteps>(
    alloc: Global,
    places: &mut Places,
    k: &K,
    x: &str,
) -> Result<Step, Fault>
    requires { IsLaid (places_of places.old) }
    ensures same { OnOk result (places_of places.new ≡ places_of places.old) }
    ensures known { OnOk result (can_apply (K.callees k.now) (tables.table_named (K.callees k.now).tables x.now) (places_of places.old) ≡ true) }
    ensures does { IfOk result (λ c. DoesAct (K.callees k.now) (places_of places.old) (step_of c) (tree_applies x.now)) }
    ensures told { IfOk result (λ c. most_told (step_of c) ≡ most_applied (K.callees k.now).actions (K.callees k.now).tables x.now) }
    ensures blames { IfErr result (λ f. f ≡ Unknown → can_apply (K.callees k.now) (tables.table_named (K.callees k.now).tables x.now) (places_of places.old) ≡ false) }
{
    match k.application(alloc, places, x)? {
        None => Ok(skip_step()),
        Some(a) => {
            let c = a.step(alloc, true, skip_step(), skip_step())?;
            Ok(c)
        }
    }
}

/// The step of mark_to_drop.
fn drop_step<K: CallSteps>(alloc: Global, places: &Places, k: &K) -> Result<Step, Fault>
    requires { IsLaid (places_of places.now) }
    ensures known { OnOk result (has_port (sight.place_at (places_of places.now).rows egress_spec) ≡ true) }
    ensures does { IfOk result (λ c. DoesAct (K.callees k.now) (places_of places.now) (step_of c) drops) }
    ensures told { IfOk result (λ c. most_told (step_of c) ≡ 0) }
    ensures blames { IfErr result (λ f. f ≡ Unknown → has_port (sight.place_at (places_of places.now).rows egress_spec) ≡ false) }
{
    let c = drop_code(alloc, places)?;
    Ok(plain_step(c))
}

/// The step of setValid or setInvalid.
fn validity_step<K: CallSteps>(
    places: &Places,
    k: &K,
    header: &[Name],
    valid: bool,
) -> Result<Step, Fault>
    requires { IsLaid (places_of places.now) }
    ensures known { OnOk result (has_slots (known_calls (K.callees k.now)) (sight.header_number (places_of places.now).headers header.now) ≡ true) }
    ensures does { IfOk result (λ c. DoesAct (K.callees k.now) (places_of places.now) (step_of c) (tree_makes header.now valid)) }
    ensures told { IfOk result (λ c. most_told (step_of c) ≡ 0) }
    ensures blames { IfErr result (λ f. f ≡ Unknown → has_slots (known_calls (K.callees k.now)) (sight.header_number (places_of places.now).headers header.now) ≡ false) }
{
    let all = k.headers();
    match header_number(&places.headers, header)? {
        None => Err(Fault::Unknown),
        Some(number) => match all.get(number as usize) {
            None => Err(Fault::Unknown),
            Some(slots) => Ok(make_step(number, *slots, valid)),
        },
    }
}

/// The step of what a call is for.
pub fn act_step<K: CallSteps>(
    alloc: Global,
    places: &mut Places,
    k: &K,
    act: Act<'_>,
) -> Result<Step, Fault>
    requires { IsLaid (places_of places.old) }
    ensures same { OnOk result (places_of places.new ≡ places_of places.old) }
    ensures known { OnOk result (has_act (known_calls (K.callees k.now)) (act_in act.entry) (places_of places.old) ≡ true) }
    ensures does { IfOk result (λ c. DoesAct (K.callees k.now) (places_of places.old) (step_of c) (act_in act.entry)) }
    ensures told { IfOk result (λ c. most_told (step_of c) ≡ most_of_act (most_named (K.callees k.now).actions) (most_applied (K.callees k.now).actions (K.callees k.now).tables) (act_in act.entry)) }
    ensures blames { IfErr result (λ f. f ≡ Unknown → has_act (known_calls (K.callees k.now)) (act_in act.entry) (places_of places.old) ≡ false) }
{
    match act {
        Act::Make(header, valid) => validity_step(places, k, header, valid),
        Act::Drop => drop_step(alloc, places, k),
        Act::Read(x, target, index) => read_step(alloc, places, k, x, target, index),
        Act::Write(x, index, value) => write_step(alloc, places, k, x, index, value),
        Act::Tell(receiver, values) => tell_step(alloc, places, k, receiver, values),
        Act::Sum(verifies, condition, list, field) => {
            if verifies {
                verify_step(alloc, places, k, condition, list, field)
            } else {
                update_step(alloc, places, k, condition, list, field)
            }
        }
        Act::Run(x, args) => k.run(alloc, places, x, args),
        Act::Apply(x) => apply_step(alloc, places, k, x),
        Act::Idle => Ok(idle_step(places, k)),
    }
}
