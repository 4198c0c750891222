//! How many keys the applications of a program have at the most.

ghost use Rattle.std.specs.Prelude.{◌≡◌, ◌≤◌, IfOk, nat_eq};
ghost use Rattle.slot_passages.specs.Codes.{control_of, program_of};
ghost use Rattle.slot_passages.specs.Room.{most_digests, HasFewKeys};

use slot_controls::{most_digests, most_keys};
use slot_passages::{ControlCode, ProgramCode};
use std::alloc::AllocError;

/// The greater of two numbers.
fn greater(a: usize, b: usize) -> usize
    ensures left { a ≤ result }
    ensures right { b ≤ result }
{
    if a < b { b } else { a }
}

/// The most keys that an application in a control has.
fn control_keys(c: &ControlCode) -> usize
    ensures { HasFewKeys result (control_of c.now) }
{
    greater(most_keys(&c.settings), most_keys(&c.body))
}

/// The most keys that an application in a program has.
pub(crate) fn program_keys(c: &ProgramCode) -> usize
    ensures verify { HasFewKeys result (program_of c.now).verify }
    ensures ingress { HasFewKeys result (program_of c.now).ingress }
    ensures egress { HasFewKeys result (program_of c.now).egress }
    ensures compute { HasFewKeys result (program_of c.now).compute }
{
    let checksums = greater(control_keys(&c.verify), control_keys(&c.compute));
    let bodies = greater(control_keys(&c.ingress), control_keys(&c.egress));
    greater(checksums, bodies)
}

/// Whether a control gives no digest.
pub(crate) fn gives_none(c: &ControlCode) -> Result<bool, AllocError>
    ensures { IfOk result (λ b. b ≡ nat_eq (most_digests (control_of c.now)) 0) }
{
    let settings = most_digests(&c.settings)?;
    let body = most_digests(&c.body)?;
    match settings.checked_add(body) {
        Some(most) => Ok(most == 0),
        None => Err(AllocError),
    }
}
