//! What the calls of a control stand for, and of an action in it.

ghost use Rattle.std.specs.Prelude.{◌≡◌, map, true, false, IfOk, IfErr, OnOk};
ghost use Rattle.std.specs.Option.{option_map};
ghost use Rattle.p4_tree.specs.View.{arg_of};
ghost use Rattle.p4_meaning.specs.Actions.{action_named};
ghost use Rattle.p4_meaning.specs.DigestBound.{most_applied, most_named};
ghost use Rattle.p4_meaning.specs.Statements.{runs, values_in};
ghost use Rattle.p4_meaning.specs.Tables.{table_named};
ghost use Rattle.p4_parts.specs.PartsIn.{cells_decl, table_in};
ghost use Rattle.slot_terms.specs.Places.{IsLaid, places_of};
ghost use Rattle.slot_terms.specs.declared.fault.Fault.TheVariants.{Unknown};
ghost use Rattle.slot_controls.specs.Steps.{applies, application_of, most_told, slots_of, step_of, steps_of};
ghost use Rattle.slot_controls.specs.Callees as control;
ghost use Rattle.slot_controls.specs.Callees.{register_number, register_width, table_number};
ghost use Rattle.slot_controls.specs.StepRuns.{Applies, DoesAct};
ghost use Rattle.slot_control_codes.specs.Callees.{applied_of, bare_of, callees_of};
ghost use Rattle.slot_control_codes.specs.Known.{can_apply, can_run};
ghost use Rattle.slot_control_codes.specs.Found.{applied_told};

use bit_values::sound_width;
use p4_parts::{Action, Cells, Table};
use p4_tree::Arg;
use p4_values::same_text;
use slot_controls::{Application, HeaderSlots, Step};
use slot_terms::{Fault, Places};
use std::alloc::{AllocError, Global};

/// What the calls of a control stand for: the actions, tables and registers of its program, and the slots
/// of the headers' fields by the headers' numbers.
#[derive(Clone, Copy)]
pub struct Callees<'a> {
    pub actions: &'a [Action],
    pub tables: &'a [Table],
    pub registers: &'a [Cells],
    pub headers: &'a [HeaderSlots],
}

/// The same where no action is called and no table applied, as in an action.
#[derive(Clone, Copy)]
pub struct Bare<'a> {
    pub registers: &'a [Cells],
    pub headers: &'a [HeaderSlots],
}

/// The application of a table, with the bodies of its actions.
#[derive(Drop)]
pub struct Applied {
    pub bodies: Vec<Step>,
    pub application: Application,
}

impl Applied {
    /// The step of an application, behind which one of two steps is done.
    pub(crate) fn step(
        self,
        alloc: Global,
        asked: bool,
        a: Step,
        b: Step,
    ) -> Result<Step, AllocError>
        ensures { IfOk result (λ c. step_of c ≡ applies (steps_of self.bodies.items) (application_of self.application) asked (step_of a) (step_of b)) }
    {
        let a = Box::new(alloc, a)?;
        let b = Box::new(alloc, b)?;
        Ok(Step::Apply(self.bodies, self.application, asked, a, b))
    }
}

/// What makes steps of calls of actions and of applications of tables.
pub trait CallSteps {
    /// What these stand for.
    ghost callees: { Self → control.Callees };

    /// The registers in sight.
    fn registers(&self) -> &[Cells]
        ensures { map cells_decl result.now ≡ (callees self.now).registers };

    /// The slots of the headers' fields.
    fn headers(&self) -> &[HeaderSlots]
        ensures { map slots_of result.now ≡ (callees self.now).headers };

    /// The step of an action's call. That of none does nothing.
    fn run(&self, alloc: Global, places: &mut Places, x: &str, args: &[Arg]) -> Result<Step, Fault>
        requires { IsLaid (places_of places.old) }
        ensures same { OnOk result (places_of places.new ≡ places_of places.old) }
        ensures known { OnOk result (can_run (callees self.now) (action_named (callees self.now).actions x.now) (values_in (map arg_of args.now)) (places_of places.old) ≡ true) }
        ensures does { IfOk result (λ c. DoesAct (callees self.now) (places_of places.old) (step_of c) (runs x.now (values_in (map arg_of args.now)))) }
        ensures told { IfOk result (λ c. most_told (step_of c) ≡ most_named (callees self.now).actions x.now) }
        ensures blames { IfErr result (λ f. f ≡ Unknown → can_run (callees self.now) (action_named (callees self.now).actions x.now) (values_in (map arg_of args.now)) (places_of places.old) ≡ false) };

    /// The application of a table, or `None` where there is no such table.
    fn application(
        &self,
        alloc: Global,
        places: &mut Places,
        x: &str,
    ) -> Result<Option<Applied>, Fault>
        requires { IsLaid (places_of places.old) }
        ensures same { OnOk result (places_of places.new ≡ places_of places.old) }
        ensures known { OnOk result (can_apply (callees self.now) (table_named (callees self.now).tables x.now) (places_of places.old) ≡ true) }
        ensures applies { IfOk result (λ a. Applies (callees self.now) (places_of places.old) x.now (option_map applied_of a)) }
        ensures told { IfOk result (λ a. applied_told (option_map applied_of a) ≡ most_applied (callees self.now).actions (callees self.now).tables x.now) }
        ensures blames { IfErr result (λ f. f ≡ Unknown → can_apply (callees self.now) (table_named (callees self.now).tables x.now) (places_of places.old) ≡ false) };
}

/// A number as 32 bits. What they do not count no memory holds: that is told as want of memory.
pub(crate) fn small_number(n: usize) -> Result<u32, AllocError>
    ensures { IfOk result (λ m. m ≡ n) }
{
    match u32::try_from(n) {
        Ok(m) => Ok(m),
        Err(_) => Err(AllocError),
    }
}

/// How many tables stand before the first of a name.
pub(crate) fn table_number(tables: &[Table], x: &str) -> Result<u32, AllocError>
    ensures { IfOk result (λ n. n ≡ table_number (map table_in tables.now) x.now) }
{
    for i in 0..tables.len() {
        if same_text(tables[i].name.as_str(), x) {
            return small_number(i);
        }
    }
    small_number(tables.len())
}

/// How many registers stand before the first of a name.
pub(crate) fn register_number(registers: &[Cells], x: &str) -> Result<u32, AllocError>
    ensures { IfOk result (λ n. n ≡ register_number (map cells_decl registers.now) x.now) }
{
    for i in 0..registers.len() {
        if same_text(registers[i].name.as_str(), x) {
            return small_number(i);
        }
    }
    small_number(registers.len())
}

/// How many bits a cell of the first register of a name has; where there is none, one.
pub(crate) fn register_width(registers: &[Cells], x: &str) -> u8
    ensures { result ≡ register_width (map cells_decl registers.now) x.now }
{
    for register in registers {
        if same_text(register.name.as_str(), x) {
            return sound_width(register.width);
        }
    }
    1
}
