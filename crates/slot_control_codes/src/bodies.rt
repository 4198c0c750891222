//! The bodies of actions, where they are called and where tables are applied.

ghost use Rattle.std.specs.Prelude.{◌≡◌, ◌+◌, ◌<◌, ◌++◌, ◌∷◌, [], length, map, max, not, true, false, ◌&&◌, ◌||◌, if◌then◌else◌, IfOk, IfErr, OnOk, Some, slice_get};
ghost use Rattle.std.specs.Option.{option_map};
ghost use Rattle.p4_tree.specs.View.{arg_of, expr_of};
ghost use Rattle.p4_meaning.specs.Actions as actions;
ghost use Rattle.p4_meaning.specs.DigestBound.{most_applied, most_named, most_of, none_told};
ghost use Rattle.p4_meaning.specs.Scope.{is_among};
ghost use Rattle.p4_meaning.specs.Statements.{runs, values_in};
ghost use Rattle.p4_meaning.specs.Tables as tables;
ghost use Rattle.p4_parts.specs.PartsIn.{action_in, table_in};
ghost use Rattle.slot_terms.specs.Terms.{term_of};
ghost use Rattle.slot_terms.specs.Typed.{typed_of};
ghost use Rattle.slot_terms.specs.Places.{IsLaid, places_of};
ghost use Rattle.slot_terms.specs.declared.fault.Fault.TheVariants.{Unknown};
ghost use Rattle.slot_statements.specs.Known.{are_known_args};
ghost use Rattle.slot_controls.specs.Steps.{action_slots_of, calls, most_told, most_told_one, step_of, steps_of};
ghost use Rattle.slot_controls.specs.Callees.{bare, lists, table_number};
ghost use Rattle.slot_controls.specs.StepRuns.{Applies, DoesAct, HaveBodies, IsApplication};
ghost use Rattle.slot_control_codes.specs.Callees.{applied_of, bare_of, callees_of};
ghost use Rattle.slot_control_codes.specs.Known.{can_apply, can_run, has_bodies, has_body, has_body_if};
ghost use Rattle.slot_control_codes.specs.Found.{applied_told, IsBodyMore, IsCallOf, most_listed};

use crate::acts::skip_step;
use crate::callees::{Applied, Bare, CallSteps, Callees, small_number, table_number};
use crate::statements::{group_step, stmts_steps};
use lex_text::Name;
use p4_parts::{Action, Cells, Table, action_named, table_named};
use p4_tree::{Arg, Expr};
use p4_values::same_text;
use slot_controls::{ActionSlots, Application, HeaderSlots, Step};
use slot_statements::{arguments, key_terms, masked, parameters};
use slot_terms::{Fault, Places, Term, Typed, cut_back, row_count};
use std::alloc::{AllocError, Global};

impl CallSteps for Bare<'_> {
    ghost callees = { bare_of };

    fn registers(&self) -> &[Cells] {
        self.registers
    }

    fn headers(&self) -> &[HeaderSlots] {
        self.headers
    }

    fn run(
        &self,
        _alloc: Global,
        _places: &mut Places,
        _x: &str,
        _args: &[Arg],
    ) -> Result<Step, Fault> {
        Ok(skip_step())
    }

    fn application(
        &self,
        _alloc: Global,
        _places: &mut Places,
        _x: &str,
    ) -> Result<Option<Applied>, Fault> {
        Ok(None)
    }
}

impl Callees<'_> {
    /// What is in sight in an action.
    fn bare(&self) -> Bare<'_>
        ensures { bare_of result ≡ bare (callees_of self.now) }
    {
        Bare {
            registers: self.registers,
            headers: self.headers,
        }
    }
}

/// An expression behind others.
fn push_value(alloc: Global, values: &mut Vec<Expr>, e: &Expr) -> Result<(), AllocError>
    ensures { OnOk result (map expr_of values.new.items ≡ map expr_of values.old.items ++ expr_of e.now ∷ []) }
{
    values.push(e.copy(alloc)?)?;
    Ok(())
}

/// The expressions among some arguments.
fn values_in(alloc: Global, args: &[Arg]) -> Result<Vec<Expr>, AllocError>
    ensures { IfOk result (λ v. map expr_of v.items ≡ values_in (map arg_of args.now)) }
{
    let mut values = Vec::new(alloc);
    for arg in args {
        match arg {
            Arg::One(_, e) => push_value(alloc, &mut values, e)?,
            Arg::Many(_, _) => {}
        }
    }
    Ok(values)
}

/// The call of an action, of its parts.
fn call_node(slots: Vec<u32>, args: Vec<Term>, body: Vec<Step>) -> Step
    ensures { step_of result ≡ calls slots.items (map term_of args.items) (steps_of body.items) }
{
    Step::Call(slots, args, body)
}

/// The step of an action on the arguments of a call.
fn called(
    alloc: Global,
    places: &mut Places,
    k: &Callees<'_>,
    a: &Action,
    args: &[Expr],
) -> Result<Step, Fault>
    requires { IsLaid (places_of places.old) }
    ensures same { OnOk result (places_of places.new ≡ places_of places.old) }
    ensures args { OnOk result (are_known_args (places_of places.old) (action_in a.now).params (map expr_of args.now) ≡ true) }
    ensures body { OnOk result (has_body (callees_of k.now).headers (action_in a.now) (places_of places.old) ≡ true) }
    ensures is { IfOk result (λ c. IsCallOf (callees_of k.now) (places_of places.old) (action_in a.now) (map expr_of args.now) (step_of c)) }
    ensures told { IfOk result (λ c. most_told (step_of c) ≡ most_of none_told none_told (action_in a.now).body) }
    ensures blames { IfErr result (λ f. f ≡ Unknown → (are_known_args (places_of places.old) (action_in a.now).params (map expr_of args.now) && has_body (callees_of k.now).headers (action_in a.now) (places_of places.old)) ≡ false) }
{
    let count = row_count(places);
    let next = places.next;
    let terms = arguments(alloc, places, &a.params, args)?;
    let mut slots = Vec::new(alloc);
    parameters(alloc, places, &a.params, &mut slots)?;
    let bare = k.bare();
    let body = stmts_steps(alloc, places, &bare, &a.body)?;
    cut_back(places, count, next);
    Ok(call_node(slots, terms, body))
}

/// The step of an action's call. That of none does nothing.
fn run_step(
    alloc: Global,
    places: &mut Places,
    k: &Callees<'_>,
    x: &str,
    args: &[Arg],
) -> Result<Step, Fault>
    requires { IsLaid (places_of places.old) }
    ensures same { OnOk result (places_of places.new ≡ places_of places.old) }
    ensures known { OnOk result (can_run (callees_of k.now) (actions.action_named (callees_of k.now).actions x.now) (values_in (map arg_of args.now)) (places_of places.old) ≡ true) }
    ensures does { IfOk result (λ c. DoesAct (callees_of k.now) (places_of places.old) (step_of c) (runs x.now (values_in (map arg_of args.now)))) }
    ensures told { IfOk result (λ c. most_told (step_of c) ≡ most_named (callees_of k.now).actions x.now) }
    ensures blames { IfErr result (λ f. f ≡ Unknown → can_run (callees_of k.now) (actions.action_named (callees_of k.now).actions x.now) (values_in (map arg_of args.now)) (places_of places.old) ≡ false) }
{
    match action_named(k.actions, x) {
        None => Ok(skip_step()),
        Some(a) => {
            let values = values_in(alloc, args)?;
            let c = called(alloc, places, k, a, &values)?;
            Ok(c)
        }
    }
}

/// Bodies of actions, with the slots of their parameters.
#[derive(Drop)]
struct Bodies {
    slots: Vec<ActionSlots>,
    steps: Vec<Step>,
}

/// A body behind others.
fn push_body(
    bodies: &mut Bodies,
    number: u32,
    params: Vec<(u32, u128)>,
    step: Step,
) -> Result<(), AllocError>
    ensures slots { OnOk result (map action_slots_of bodies.new.slots.items ≡ map action_slots_of bodies.old.slots.items ++ record { number = number; params = params.items } ∷ []) }
    ensures steps { OnOk result (map step_of bodies.new.steps.items ≡ map step_of bodies.old.steps.items ++ step_of step ∷ []) }
{
    bodies.slots.push(ActionSlots { number, params })?;
    bodies.steps.push(step)?;
    Ok(())
}

/// The body of an action of a number behind others.
fn add_body(
    alloc: Global,
    places: &mut Places,
    k: &Callees<'_>,
    number: u32,
    a: &Action,
    bodies: &mut Bodies,
) -> Result<(), Fault>
    requires { IsLaid (places_of places.old) }
    ensures same { OnOk result (places_of places.new ≡ places_of places.old) }
    ensures known { OnOk result (has_body (callees_of k.now).headers (action_in a.now) (places_of places.old) ≡ true) }
    ensures more { OnOk result (IsBodyMore (callees_of k.now) (places_of places.old) (action_in a.now) number (map action_slots_of bodies.old.slots.items) (map action_slots_of bodies.new.slots.items) (map step_of bodies.old.steps.items) (map step_of bodies.new.steps.items)) }
    ensures told { OnOk result (most_told_one (steps_of bodies.new.steps.items) ≡ max (most_told_one (steps_of bodies.old.steps.items)) (most_of none_told none_told (action_in a.now).body)) }
    ensures blames { IfErr result (λ f. f ≡ Unknown → has_body (callees_of k.now).headers (action_in a.now) (places_of places.old) ≡ false) }
{
    let count = row_count(places);
    let next = places.next;
    let mut slots = Vec::new(alloc);
    masked(alloc, places, &a.params, &mut slots)?;
    let bare = k.bare();
    let body = stmts_steps(alloc, places, &bare, &a.body)?;
    cut_back(places, count, next);
    push_body(bodies, number, slots, group_step(body))?;
    Ok(())
}

/// Whether a name is one of these.
fn is_among(names: &[Name], x: &str) -> bool
    ensures { result ≡ is_among names.now x.now }
{
    for name in names {
        if same_text(name.as_str(), x) {
            return true;
        }
    }
    false
}

/// Whether a table has an action of this name in its list, or as its default.
fn lists(t: &Table, x: &str) -> bool
    ensures { result ≡ lists (table_in t.now) x.now }
{
    same_text(t.default.action.as_str(), x) || is_among(&t.actions, x)
}

/// The body of an action, where a table may run what has its name: that of the first of this name.
fn add_listed(
    alloc: Global,
    places: &mut Places,
    k: &Callees<'_>,
    t: &Table,
    i: usize,
    item: &Action,
    bodies: &mut Bodies,
) -> Result<(), Fault>
    requires laid { IsLaid (places_of places.old) }
    requires at { slice_get (callees_of k.now).actions i ≡ Some (action_in item.now) }
    ensures same { OnOk result (places_of places.new ≡ places_of places.old) }
    ensures known { OnOk result ((not (lists (table_in t.now) (action_in item.now).name) || has_body_if (callees_of k.now).headers (actions.action_named (callees_of k.now).actions (action_in item.now).name) (places_of places.old)) ≡ true) }
    ensures have { OnOk result (HaveBodies (callees_of k.now) (places_of places.old) (table_in t.now) i (map action_slots_of bodies.old.slots.items) (steps_of bodies.old.steps.items)
        → HaveBodies (callees_of k.now) (places_of places.old) (table_in t.now) (i + 1) (map action_slots_of bodies.new.slots.items) (steps_of bodies.new.steps.items)) }
    ensures told { OnOk result (most_told_one (steps_of bodies.new.steps.items) ≡ max (most_told_one (steps_of bodies.old.steps.items)) (if lists (table_in t.now) (action_in item.now).name then most_named (callees_of k.now).actions (action_in item.now).name else 0)) }
    ensures blames { IfErr result (λ f. f ≡ Unknown → (not (lists (table_in t.now) (action_in item.now).name) || has_body_if (callees_of k.now).headers (actions.action_named (callees_of k.now).actions (action_in item.now).name) (places_of places.old)) ≡ false) }
{
    let name = item.name.as_str();
    if lists(t, name) {
        match action_named(k.actions, name) {
            None => Ok(()),
            Some(a) => {
                let number = small_number(i)?;
                add_body(alloc, places, k, number, a, bodies)?;
                Ok(())
            }
        }
    } else {
        Ok(())
    }
}

/// The bodies of the actions that a table may run.
fn bodies_of(
    alloc: Global,
    places: &mut Places,
    k: &Callees<'_>,
    t: &Table,
) -> Result<Bodies, Fault>
    requires { IsLaid (places_of places.old) }
    ensures same { OnOk result (places_of places.new ≡ places_of places.old) }
    ensures known { OnOk result (has_bodies (callees_of k.now) (table_in t.now) (callees_of k.now).actions (places_of places.old) ≡ true) }
    ensures have { IfOk result (λ b. HaveBodies (callees_of k.now) (places_of places.old) (table_in t.now) (length (callees_of k.now).actions) (map action_slots_of b.slots.items) (steps_of b.steps.items)) }
    ensures told { IfOk result (λ b. most_told_one (steps_of b.steps.items) ≡ most_listed (callees_of k.now).actions (table_in t.now) (callees_of k.now).actions) }
    ensures blames { IfErr result (λ f. f ≡ Unknown → has_bodies (callees_of k.now) (table_in t.now) (callees_of k.now).actions (places_of places.old) ≡ false) }
{
    let mut bodies = Bodies {
        slots: Vec::new(alloc),
        steps: Vec::new(alloc),
    };
    for (i, item) in k.actions.iter().enumerate() {
        add_listed(alloc, places, k, t, i, item, &mut bodies)?;
    }
    Ok(bodies)
}

/// An application, of its parts.
fn applied_node(table: u32, keys: Vec<Typed>, bodies: Bodies) -> Applied
    ensures { applied_of result ≡ record {
      0 = steps_of bodies.steps.items;
      1 = record { table = table; keys = map typed_of keys.items; actions = map action_slots_of bodies.slots.items };
    } }
{
    let Bodies { slots, steps } = bodies;
    Applied {
        bodies: steps,
        application: Application {
            table,
            keys,
            actions: slots,
        },
    }
}

/// The application of a table's number, with the terms of its keys and the bodies of its actions.
fn numbered(
    alloc: Global,
    places: &mut Places,
    k: &Callees<'_>,
    x: &str,
    t: &Table,
) -> Result<Applied, Fault>
    requires { IsLaid (places_of places.old) }
    ensures same { OnOk result (places_of places.new ≡ places_of places.old) }
    ensures known { OnOk result (can_apply (callees_of k.now) (Some (table_in t.now)) (places_of places.old) ≡ true) }
    ensures is { IfOk result (λ a. IsApplication (callees_of k.now) (places_of places.old) (table_number (callees_of k.now).tables x.now) (Some (table_in t.now)) (Some (applied_of a))) }
    ensures told { IfOk result (λ a. most_told_one (steps_of a.bodies.items) ≡ most_listed (callees_of k.now).actions (table_in t.now) (callees_of k.now).actions) }
    ensures blames { IfErr result (λ f. f ≡ Unknown → can_apply (callees_of k.now) (Some (table_in t.now)) (places_of places.old) ≡ false) }
{
    let keys = key_terms(alloc, places, &t.keys)?;
    let bodies = bodies_of(alloc, places, k, t)?;
    let table = table_number(k.tables, x)?;
    Ok(applied_node(table, keys, bodies))
}

/// The application of a table, or `None` where there is no such table.
fn application(
    alloc: Global,
    places: &mut Places,
    k: &Callees<'_>,
    x: &str,
) -> Result<Option<Applied>, Fault>
    requires { IsLaid (places_of places.old) }
    ensures same { OnOk result (places_of places.new ≡ places_of places.old) }
    ensures known { OnOk result (can_apply (callees_of k.now) (tables.table_named (callees_of k.now).tables x.now) (places_of places.old) ≡ true) }
    ensures applies { IfOk result (λ a. Applies (callees_of k.now) (places_of places.old) x.now (option_map applied_of a)) }
    ensures told { IfOk result (λ a. applied_told (option_map applied_of a) ≡ most_applied (callees_of k.now).actions (callees_of k.now).tables x.now) }
    ensures blames { IfErr result (λ f. f ≡ Unknown → can_apply (callees_of k.now) (tables.table_named (callees_of k.now).tables x.now) (places_of places.old) ≡ false) }
{
    match table_named(k.tables, x) {
        None => Ok(None),
        Some(t) => {
            let a = numbered(alloc, places, k, x, t)?;
            Ok(Some(a))
        }
    }
}

impl CallSteps for Callees<'_> {
    ghost callees = { callees_of };

    fn registers(&self) -> &[Cells] {
        self.registers
    }

    fn headers(&self) -> &[HeaderSlots] {
        self.headers
    }

    fn run(
        &self,
        alloc: Global,
        places: &mut Places,
        x: &str,
        args: &[Arg],
    ) -> Result<Step, Fault> {
        run_step(alloc, places, self, x, args)
    }

    fn application(
        &self,
        alloc: Global,
        places: &mut Places,
        x: &str,
    ) -> Result<Option<Applied>, Fault> {
        application(alloc, places, self, x)
    }
}
