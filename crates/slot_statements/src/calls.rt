//! The parameters of actions, and what they get of the arguments of a call.

ghost use Rattle.std.specs.Prelude.{◌≡◌, ◌++◌, ◌∷◌, [], length, map, true, false, IfOk, IfErr, OnOk};
ghost use Rattle.p4_tree.specs.View.{expr_of};
ghost use Rattle.p4_meaning.specs.Actions.{flow_behind};
ghost use Rattle.p4_parts.specs.PartsIn.{param_in};
ghost use Rattle.p4_statements.specs.Runs.{flow_of};
ghost use Rattle.slot_terms.specs.Terms.{term_of};
ghost use Rattle.slot_terms.specs.Typed.{typed_of};
ghost use Rattle.slot_terms.specs.Places.{places_of};
ghost use Rattle.slot_terms.specs.States.{state_of};
ghost use Rattle.slot_terms.specs.declared.fault.Fault.TheVariants.{Unknown};
ghost use Rattle.slot_statements.specs.Actions.{bind};
ghost use Rattle.slot_statements.specs.Parameters.{FillAll, slots_from, with_params};
ghost use Rattle.slot_statements.specs.Known.{are_free, are_known_args};

use crate::statements::variable_slot;
use bit_values::sound_width;
use p4_parts::Taken;
use p4_statements::Flow;
use p4_tree::Expr;
use slot_terms::{Fault, Places, State, Term, Typed, eval, put_number, term_in_place};
use std::alloc::{AllocError, Global};

/// How a call of an action ends, by how its body ends: `return` ends the action alone.
pub fn flow_behind(flow: Flow) -> Flow
    ensures { flow_of result ≡ flow_behind (flow_of flow) }
{
    match flow {
        Flow::Go => Flow::Go,
        Flow::Return => Flow::Go,
        Flow::Exit => Flow::Exit,
    }
}

/// Slots get the values of terms, one after the other.
pub fn bind(slots: &[u32], args: &[Term], s: &mut State)
    ensures { state_of s.new ≡ bind slots.now (map term_of args.now) (state_of s.old) }
{
    for (slot, t) in slots.iter().zip(args) {
        let number = eval(t, &s.slots, &s.valid);
        put_number(&mut s.slots, *slot, number);
    }
}

/// A term behind others.
fn push_term(terms: &mut Vec<Term>, t: Typed) -> Result<(), AllocError>
    ensures { OnOk result (map term_of terms.new.items ≡ map term_of terms.old.items ++ (typed_of t).term ∷ []) }
{
    terms.push(t.term)?;
    Ok(())
}

/// A slot behind others.
fn push_slot(slots: &mut Vec<u32>, slot: u32) -> Result<(), AllocError>
    ensures { OnOk result (slots.new.items ≡ slots.old.items ++ slot ∷ []) }
{
    slots.push(slot)?;
    Ok(())
}

/// The terms of a call's arguments, in the widths of the parameters. `Unknown` where there are more or
/// fewer arguments than parameters, and where a path has no place.
pub fn arguments(
    alloc: Global,
    places: &Places,
    params: &[Taken],
    args: &[Expr],
) -> Result<Vec<Term>, Fault>
    ensures known { OnOk result (are_known_args (places_of places.now) (map param_in params.now) (map expr_of args.now) ≡ true) }
    ensures fill { IfOk result (λ v. FillAll (places_of places.now) (map param_in params.now) (map expr_of args.now) (map term_of v.items)) }
    ensures blames { IfErr result (λ f. f ≡ Unknown → are_known_args (places_of places.now) (map param_in params.now) (map expr_of args.now) ≡ false) }
{
    let mut terms = Vec::new(alloc);
    if params.len() != args.len() {
        return Err(Fault::Unknown);
    }
    for i in 0..params.len() {
        let t = term_in_place(alloc, places, &args[i], params[i].width)?;
        push_term(&mut terms, t)?;
    }
    Ok(terms)
}

/// The parameters get the next slots, which go behind others. `Unknown` where a name has a place or no slot
/// is left. After an `Err` nothing is said of the places.
pub fn parameters(
    alloc: Global,
    places: &mut Places,
    params: &[Taken],
    slots: &mut Vec<u32>,
) -> Result<(), Fault>
    ensures places { OnOk result (places_of places.new ≡ with_params (places_of places.old) (map param_in params.now)) }
    ensures free { OnOk result (are_free (places_of places.old) (map param_in params.now) ≡ true) }
    ensures slots { OnOk result (slots.new.items ≡ slots.old.items ++ slots_from (places_of places.old).next (map param_in params.now)) }
    ensures blames { IfErr result (λ f. f ≡ Unknown → are_free (places_of places.old) (map param_in params.now) ≡ false) }
{
    for p in params {
        let slot = variable_slot(alloc, places, &p.name, sound_width(p.width))?;
        push_slot(slots, slot)?;
    }
    Ok(())
}
