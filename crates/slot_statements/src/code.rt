//! Code, and what it does.

ghost use Rattle.std.specs.Prelude.{◌≡◌};
ghost use Rattle.p4_statements.specs.Runs.{flow_of};
ghost use Rattle.slot_terms.specs.States.{state_of};
ghost use Rattle.slot_statements.specs.Codes.{code_of, codes_of, ended, writes, exec, exec_all};

use p4_statements::Flow;
use slot_terms::{State, Term, eval, is_valid, put_number};

/// A statement over slots.
#[derive(Drop)]
pub enum Code {
    Skip,
    /// One after the other.
    Group(Vec<Code>),
    /// A slot gets the value of a term, unless it is a field of a header that is not valid.
    Set(u32, Option<u32>, Term),
    If(Term, Box<Code>, Box<Code>),
    Return,
    Exit,
}

/// Whether a write to a place does anything: to a field of an invalid header it does nothing.
fn writes(header: Option<u32>, valid: &[bool]) -> bool
    ensures { result ≡ writes header valid.now }
{
    match header {
        None => true,
        Some(n) => is_valid(valid, n),
    }
}

/// What code does, and how it ends.
#[cycle(exec)]
pub fn exec(c: &Code, s: &mut State) -> Flow
    ensures { ended (state_of s.new) (flow_of result) ≡ exec (code_of c.now) (state_of s.old) }
{
    match c {
        Code::Skip => Flow::Go,
        Code::Group(list) => exec_all(list, s),
        Code::Set(slot, header, t) => {
            if writes(*header, &s.valid) {
                let number = eval(t, &s.slots, &s.valid);
                put_number(&mut s.slots, *slot, number);
            }
            Flow::Go
        }
        Code::If(t, a, b) => {
            if eval(t, &s.slots, &s.valid) == 1 {
                exec(a, s)
            } else {
                exec(b, s)
            }
        }
        Code::Return => Flow::Return,
        Code::Exit => Flow::Exit,
    }
}

/// What codes do one after the other, and how they end.
#[cycle(exec)]
pub fn exec_all(list: &[Code], s: &mut State) -> Flow
    ensures { ended (state_of s.new) (flow_of result) ≡ exec_all (codes_of list.now) (state_of s.old) }
{
    for c in list {
        match exec(c, s) {
            Flow::Go => {}
            Flow::Return => return Flow::Return,
            Flow::Exit => return Flow::Exit,
        }
    }
    Flow::Go
}
