//! Steps, and what they do.

ghost use Rattle.std.specs.Prelude.{◌≡◌, ◌+◌, ◌≤◌, length, vec_len, vec_capacity};
ghost use Rattle.p4_statements.specs.Runs.{flow_of};
ghost use Rattle.slot_terms.specs.States.{state_of};
ghost use Rattle.slot_controls.specs.Steps.{most_told, most_told_all, most_told_one, run, run_all, run_ended, run_nth, slot_run, step_of, steps_of, HasFewKeys, HaveFewKeys};

use crate::application::{Application, bind_chosen, is_asked, outcome_for};
use crate::externs::{Externs, read_number, tell, write_cell};
use crate::headers::HeaderSlots;
use crate::sums::words_checksum;
use crate::targets::{Target, store, verify};
use crate::words::word_of;
use bit_values::Bits;
use slot_packets::set_validity;
use slot_statements::{Code, Flow, NumberedTables, bind, exec, flow_behind};
use slot_terms::{State, Term, Typed, eval};

/// A step of a control.
#[derive(Drop)]
pub enum Step {
    /// Code, in which there are no calls.
    Plain(Code),
    /// One after the other.
    Group(Vec<Step>),
    If(Term, Box<Step>, Box<Step>),
    /// A call of an action: the slots of its parameters, the terms of its arguments, and its body.
    Call(Vec<u32>, Vec<Term>, Vec<Step>),
    /// The application of a table, with the bodies of its actions, one for each. Behind it the first step is
    /// done where it hits, or where it misses, as is asked; and else the second.
    Apply(Vec<Step>, Application, bool, Box<Step>, Box<Step>),
    /// The header of a number is made valid, or invalid.
    Make(u32, HeaderSlots, bool),
    /// The cell of a register, by its number and the index, goes to a place.
    Read(u32, Target, Term),
    /// A cell of a register, by its number and the index, gets a value.
    Write(u32, Term, Typed),
    /// A digest, by its receiver and its values.
    Tell(u32, Vec<Typed>),
    /// Where a field has another checksum than values have, the slot of the error is set.
    Verify(Vec<Typed>, Term, u32),
    /// A field gets the checksum of values.
    Update(Vec<Typed>, Target),
}

/// What a step does, and how it ends, by what tables choose. The words of keys go into the buffer, and
/// digests behind those that are there, for which there is room.
#[cycle(run)]
pub fn run_step<T: NumberedTables>(
    tables: &T,
    step: &Step,
    buffer: &mut [Bits],
    s: &mut State,
    x: &mut Externs,
) -> Flow
    requires few { HasFewKeys (length buffer.old) (step_of step.now) }
    requires room { vec_len x.old.digests + most_told (step_of step.now) ≤ vec_capacity x.old.digests }
    ensures does { run_ended (slot_run s.new x.new) (flow_of result)
        ≡ run (T.chosen tables.now) (step_of step.now) (slot_run s.old x.old) }
    ensures told { vec_len x.new.digests ≤ vec_len x.old.digests + most_told (step_of step.now) }
    ensures room { vec_capacity x.new.digests ≡ vec_capacity x.old.digests }
{
    match step {
        Step::Plain(c) => exec(c, s),
        Step::Group(list) => run_steps(tables, list, buffer, s, x),
        Step::If(t, a, b) => {
            if eval(t, &s.slots, &s.valid) == 1 {
                run_step(tables, a, buffer, s, x)
            } else {
                run_step(tables, b, buffer, s, x)
            }
        }
        Step::Call(slots, args, body) => {
            bind(slots, args, s);
            flow_behind(run_steps(tables, body, buffer, s, x))
        }
        Step::Apply(bodies, application, asked, a, b) => {
            let outcome = outcome_for(tables, application, buffer, s);
            let at = bind_chosen(&application.actions, outcome.action, outcome.args, s);
            match flow_behind(run_nth(tables, bodies, at, buffer, s, x)) {
                Flow::Go => {
                    if is_asked(*asked, outcome.hit) {
                        run_step(tables, a, buffer, s, x)
                    } else {
                        run_step(tables, b, buffer, s, x)
                    }
                }
                Flow::Return => Flow::Return,
                Flow::Exit => Flow::Exit,
            }
        }
        Step::Make(header, slots, valid) => {
            set_validity(s, *header, slots.first, slots.count, *valid);
            Flow::Go
        }
        Step::Read(register, target, index) => {
            let index = eval(index, &s.slots, &s.valid);
            let number = read_number(&x.registers, *register, index);
            store(target, number, s);
            Flow::Go
        }
        Step::Write(register, index, value) => {
            let index = eval(index, &s.slots, &s.valid);
            write_cell(&mut x.registers, *register, index, word_of(value, s));
            Flow::Go
        }
        Step::Tell(receiver, values) => {
            tell(&mut x.digests, *receiver, values, s);
            Flow::Go
        }
        Step::Verify(values, field, error) => {
            let wanted = words_checksum(values, s);
            let found = eval(field, &s.slots, &s.valid);
            verify(found, wanted, *error, s);
            Flow::Go
        }
        Step::Update(values, field) => {
            let sum = words_checksum(values, s);
            store(field, sum as u128, s);
            Flow::Go
        }
    }
}

/// What steps do one after the other, and how they end.
#[cycle(run)]
pub fn run_steps<T: NumberedTables>(
    tables: &T,
    list: &[Step],
    buffer: &mut [Bits],
    s: &mut State,
    x: &mut Externs,
) -> Flow
    requires few { HaveFewKeys (length buffer.old) (steps_of list.now) }
    requires room { vec_len x.old.digests + most_told_all (steps_of list.now) ≤ vec_capacity x.old.digests }
    ensures does { run_ended (slot_run s.new x.new) (flow_of result)
        ≡ run_all (T.chosen tables.now) (steps_of list.now) (slot_run s.old x.old) }
    ensures told { vec_len x.new.digests ≤ vec_len x.old.digests + most_told_all (steps_of list.now) }
    ensures room { vec_capacity x.new.digests ≡ vec_capacity x.old.digests }
{
    for step in list {
        match run_step(tables, step, buffer, s, x) {
            Flow::Go => {}
            Flow::Return => return Flow::Return,
            Flow::Exit => return Flow::Exit,
        }
    }
    Flow::Go
}

/// What one of some steps does, by how many stand before it, and how it ends; where it is none of them,
/// nothing is done.
#[cycle(run)]
fn run_nth<T: NumberedTables>(
    tables: &T,
    list: &[Step],
    at: usize,
    buffer: &mut [Bits],
    s: &mut State,
    x: &mut Externs,
) -> Flow
    requires few { HaveFewKeys (length buffer.old) (steps_of list.now) }
    requires room { vec_len x.old.digests + most_told_one (steps_of list.now) ≤ vec_capacity x.old.digests }
    ensures does { run_ended (slot_run s.new x.new) (flow_of result)
        ≡ run_nth (T.chosen tables.now) (steps_of list.now) at (slot_run s.old x.old) }
    ensures told { vec_len x.new.digests ≤ vec_len x.old.digests + most_told_one (steps_of list.now) }
    ensures room { vec_capacity x.new.digests ≡ vec_capacity x.old.digests }
{
    let mut before = at;
    for step in list {
        if before == 0 {
            return run_step(tables, step, buffer, s, x);
        }
        before -= 1;
    }
    Flow::Go
}
