//! The two halves of a passage, on the parts of a program, over what its tables hold and the cells of
//! its registers.

ghost use Rattle.std.specs.Prelude.{◌≡◌, ◌≤◌, ◌++◌, true, length, IfOk, OnOk, map};
ghost use Rattle.std.specs.Option.{option_map};
ghost use Rattle.bit_values.specs.Bits.{cast};
ghost use Rattle.p4_meaning.specs.Pass.{parts_enter, parts_leave};
ghost use Rattle.p4_parts.specs.PartsIn.{parts_in};
ghost use Rattle.p4_statements.specs.Runs.{cells_in, digest_of};
ghost use Rattle.p4_passages.specs.Waiting.{goes_to, gone_of, waiting_of};

use crate::gone::Gone;
use crate::halves::{computed, egress, ingress, is_dropped};
use crate::waiting::{Waiting, queue, taken};
use bit_values::Bits;
use p4_packets::{parse_frame, standard_value, write_frame};
use p4_parts::Parts;
use p4_statements::{Digest, Registers, Tables};
use std::alloc::{AllocError, Global};

/// A frame enters by a port: parser, verify checksum and ingress. `None` says that the packet is
/// dropped. The digests go behind those that are there.
///
/// After want of memory the registers may have changed in part.
pub fn enter<T: Tables>(
    alloc: Global,
    p: &Parts,
    tables: &T,
    registers: &mut Registers,
    port: u16,
    frame: &[u8],
    told: &mut Vec<Digest>,
) -> Result<Option<Waiting>, AllocError>
    requires fits { T.fits tables.now (parts_in p.now) ≡ true }
    requires short { length frame.now ≤ 65791 }
    ensures registers { OnOk result (cells_in registers.new ≡ (parts_enter (parts_in p.now) (T.held tables.now (parts_in p.now)) (cells_in registers.old) port frame.now).registers) }
    ensures told { OnOk result (map digest_of told.new.items ≡ map digest_of told.old.items ++ (parts_enter (parts_in p.now) (T.held tables.now (parts_in p.now)) (cells_in registers.old) port frame.now).digests) }
    ensures queued { IfOk result (λ q. option_map waiting_of q ≡ (parts_enter (parts_in p.now) (T.held tables.now (parts_in p.now)) (cells_in registers.old) port frame.now).queued) }
{
    let (fields, at) = parse_frame(alloc, p, port, frame)?;
    let fields = ingress(alloc, p, tables, fields, registers, told)?;
    let queued = queue(alloc, p, fields, frame, at)?;
    Ok(queued)
}

/// A packet leaves: egress, compute checksum and deparser. The digests go behind those that are
/// there.
///
/// After want of memory the registers may have changed in part.
pub fn leave<T: Tables>(
    alloc: Global,
    p: &Parts,
    tables: &T,
    registers: &mut Registers,
    waiting: Waiting,
    told: &mut Vec<Digest>,
) -> Result<Gone, AllocError>
    requires { T.fits tables.now (parts_in p.now) ≡ true }
    ensures registers { OnOk result (cells_in registers.new ≡ (parts_leave (parts_in p.now) (T.held tables.now (parts_in p.now)) (cells_in registers.old) (waiting_of waiting)).registers) }
    ensures told { OnOk result (map digest_of told.new.items ≡ map digest_of told.old.items ++ (parts_leave (parts_in p.now) (T.held tables.now (parts_in p.now)) (cells_in registers.old) (waiting_of waiting)).digests) }
    ensures gone { IfOk result (λ x. gone_of x ≡ goes_to (parts_leave (parts_in p.now) (T.held tables.now (parts_in p.now)) (cells_in registers.old) (waiting_of waiting)).going) }
{
    let (fields, rest) = taken(waiting);
    let left = egress(alloc, p, tables, fields, registers, told)?;
    let drops = is_dropped(alloc, &left)?;
    if drops {
        return Ok(Gone::Dropped);
    }
    let spec = standard_value(alloc, "egress_port", &left)?;
    let port = port_of(spec);
    let behind = computed(alloc, p, left)?;
    let frame = write_frame(alloc, p, &behind, &rest)?;
    Ok(Gone::Out { port, frame })
}

/// The 9 bits of a port.
fn port_of(port: Bits) -> u16
    ensures { result ≡ cast 9 port.value }
{
    port.cast(9).value as u16
}
