//! What waits between the halves of a pass.

ghost use Rattle.std.specs.Prelude.{◌≡◌, ◌≤◌, ◌*◌, length, drop, IfOk, OnOk};
ghost use Rattle.std.specs.Option.{option_map};
ghost use Rattle.bit_values.specs.Bytes.{bits_of};
ghost use Rattle.p4_meaning.specs.Pass.{is_dropped, to_egress, unless_dropped};
ghost use Rattle.p4_parts.specs.PartsIn.{parts_in};
ghost use Rattle.p4_packets.specs.Fields.{store_of};
ghost use Rattle.p4_packets.specs.Rests.{rest_in};
ghost use Rattle.p4_passages.specs.Waiting.{waiting_of};

use crate::halves::is_dropped;
use p4_packets::{Fields, Rest, number, set_number, standard_value};
use p4_parts::Parts;
use std::alloc::{AllocError, Global};

/// A packet that waits for egress: its store, and the bits that the parser did not consume.
#[derive(Drop)]
pub struct Waiting {
    fields: Fields,
    rest: Rest,
}

/// The bytes of a frame from one on.
fn from_byte(frame: &[u8], first: usize) -> &[u8]
    requires { first ≤ length frame.now }
    ensures { result.now ≡ drop first frame.now }
{
    &frame[first..]
}

fn copy_bytes(alloc: Global, bytes: &[u8]) -> Result<Vec<u8>, AllocError>
    ensures { IfOk result (λ v. v.items ≡ bytes.now) }
{
    let copy = bytes.to_vec(alloc)?;
    Ok(copy)
}

/// The bits of a frame from a place on.
fn rest_from(alloc: Global, frame: &[u8], at: usize) -> Result<Rest, AllocError>
    requires { at ≤ 8 * length frame.now }
    ensures { IfOk result (λ r. rest_in r ≡ drop at (bits_of frame.now)) }
{
    let bytes = copy_bytes(alloc, from_byte(frame, at / 8))?;
    let skip = (at % 8) as u8;
    Ok(Rest { bytes, skip })
}

/// `egress_spec` when egress begins.
const NO_PORT: u128 = 0;

/// The store that waits for egress.
fn to_egress(alloc: Global, p: &Parts, s: &mut Fields) -> Result<(), AllocError>
    ensures { OnOk result (store_of s.new ≡ to_egress (parts_in p.now) (store_of s.old)) }
{
    let spec = standard_value(alloc, "egress_spec", s)?;
    s.keep_declared(p);
    set_number(alloc, "egress_port", 9, number(spec), s)?;
    set_number(alloc, "egress_spec", 9, NO_PORT, s)?;
    Ok(())
}

/// What waits for egress after ingress; `None` where the packet is dropped.
pub(crate) fn queue(
    alloc: Global,
    p: &Parts,
    mut fields: Fields,
    frame: &[u8],
    at: usize,
) -> Result<Option<Waiting>, AllocError>
    requires { at ≤ 8 * length frame.now }
    ensures { IfOk result (λ q. option_map waiting_of q ≡ unless_dropped (is_dropped (store_of fields)) (record { store = to_egress (parts_in p.now) (store_of fields); rest = drop at (bits_of frame.now) })) }
{
    let drops = is_dropped(alloc, &fields)?;
    if drops {
        return Ok(None);
    }
    to_egress(alloc, p, &mut fields)?;
    let rest = rest_from(alloc, frame, at)?;
    Ok(Some(Waiting { fields, rest }))
}

/// The store and the rest that wait.
pub(crate) fn taken(waiting: Waiting) -> (Fields, Rest)
    ensures store { store_of result.0 ≡ (waiting_of waiting).store }
    ensures rest { rest_in result.1 ≡ (waiting_of waiting).rest }
{
    let Waiting { fields, rest } = waiting;
    (fields, rest)
}
