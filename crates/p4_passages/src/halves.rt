//! What ingress, egress and the computing of checksums do, on the parts of a program.

ghost use Rattle.std.specs.Prelude.{◌≡◌, ◌++◌, true, IfOk, OnOk, map};
ghost use Rattle.p4_meaning.specs.Statements.{no_calls, meaning_of};
ghost use Rattle.p4_meaning.specs.Parts.{whole};
ghost use Rattle.p4_meaning.specs.Pass.{calls_of, is_dropped, run_from};
ghost use Rattle.p4_parts.specs.PartsIn.{parts_in};
ghost use Rattle.p4_packets.specs.Fields.{store_of};
ghost use Rattle.p4_statements.specs.Runs.{run_of, cells_in, digest_of};
ghost use Rattle.p4_passages.specs.Halves.{ingress_run, egress_run, computed};

use p4_packets::{Fields, number, standard_value};
use p4_parts::Parts;
use p4_statements::{Digest, Held, NoCalls, Registers, Run, Tables, run_body};
use std::alloc::{AllocError, Global};
use std::mem;

/// A run that begins. It takes the registers, which come back at its end.
fn run_from(alloc: Global, fields: Fields, registers: &mut Registers) -> Run
    ensures { run_of result ≡ run_from (store_of fields) (cells_in registers.old) }
{
    Run {
        fields,
        registers: mem::replace(registers, Registers::none(alloc)),
        digests: Vec::new(alloc),
    }
}

/// Digests go behind those that are there.
fn append(told: &mut Vec<Digest>, digests: Vec<Digest>) -> Result<(), AllocError>
    ensures { OnOk result (map digest_of told.new.items ≡ map digest_of told.old.items ++ map digest_of digests.items) }
{
    for digest in digests {
        told.push(digest)?;
    }
    Ok(())
}

fn run_ingress<T: Tables>(
    alloc: Global,
    p: &Parts,
    tables: &T,
    r: &mut Run,
) -> Result<(), AllocError>
    requires { T.fits tables.now (parts_in p.now) ≡ true }
    ensures { OnOk result (run_of r.new ≡ (meaning_of (calls_of (parts_in p.now) (T.held tables.now (parts_in p.now))) (whole (parts_in p.now).ingress) (meaning_of no_calls (parts_in p.now).verify (run_of r.old)).0).0) }
{
    let _ = run_body(alloc, &NoCalls, &p.verify, r)?;
    let _ = run_body(alloc, &Held { parts: p, tables }, &p.ingress, r)?;
    Ok(())
}

fn run_egress<T: Tables>(
    alloc: Global,
    p: &Parts,
    tables: &T,
    r: &mut Run,
) -> Result<(), AllocError>
    requires { T.fits tables.now (parts_in p.now) ≡ true }
    ensures { OnOk result (run_of r.new ≡ (meaning_of (calls_of (parts_in p.now) (T.held tables.now (parts_in p.now))) (whole (parts_in p.now).egress) (run_of r.old)).0) }
{
    let _ = run_body(alloc, &Held { parts: p, tables }, &p.egress, r)?;
    Ok(())
}

/// Verify checksum and ingress. The digests go behind those that are there.
pub(crate) fn ingress<T: Tables>(
    alloc: Global,
    p: &Parts,
    tables: &T,
    fields: Fields,
    registers: &mut Registers,
    told: &mut Vec<Digest>,
) -> Result<Fields, AllocError>
    requires { T.fits tables.now (parts_in p.now) ≡ true }
    ensures store { IfOk result (λ s. store_of s ≡ (ingress_run (parts_in p.now) (T.held tables.now (parts_in p.now)) (store_of fields) (cells_in registers.old)).store) }
    ensures cells { OnOk result (cells_in registers.new ≡ (ingress_run (parts_in p.now) (T.held tables.now (parts_in p.now)) (store_of fields) (cells_in registers.old)).cells) }
    ensures told { OnOk result (map digest_of told.new.items ≡ map digest_of told.old.items ++ (ingress_run (parts_in p.now) (T.held tables.now (parts_in p.now)) (store_of fields) (cells_in registers.old)).digests) }
{
    let mut r = run_from(alloc, fields, registers);
    let ran = run_ingress(alloc, p, tables, &mut r);
    let Run {
        fields,
        registers: left,
        digests,
    } = r;
    *registers = left;
    ran?;
    append(told, digests)?;
    Ok(fields)
}

/// Egress. The digests go behind those that are there.
pub(crate) fn egress<T: Tables>(
    alloc: Global,
    p: &Parts,
    tables: &T,
    fields: Fields,
    registers: &mut Registers,
    told: &mut Vec<Digest>,
) -> Result<Fields, AllocError>
    requires { T.fits tables.now (parts_in p.now) ≡ true }
    ensures store { IfOk result (λ s. store_of s ≡ (egress_run (parts_in p.now) (T.held tables.now (parts_in p.now)) (store_of fields) (cells_in registers.old)).store) }
    ensures cells { OnOk result (cells_in registers.new ≡ (egress_run (parts_in p.now) (T.held tables.now (parts_in p.now)) (store_of fields) (cells_in registers.old)).cells) }
    ensures told { OnOk result (map digest_of told.new.items ≡ map digest_of told.old.items ++ (egress_run (parts_in p.now) (T.held tables.now (parts_in p.now)) (store_of fields) (cells_in registers.old)).digests) }
{
    let mut r = run_from(alloc, fields, registers);
    let ran = run_egress(alloc, p, tables, &mut r);
    let Run {
        fields,
        registers: left,
        digests,
    } = r;
    *registers = left;
    ran?;
    append(told, digests)?;
    Ok(fields)
}

/// Compute checksum, in which no register is in sight.
pub(crate) fn computed(alloc: Global, p: &Parts, fields: Fields) -> Result<Fields, AllocError>
    ensures { IfOk result (λ s. store_of s ≡ computed (parts_in p.now) (store_of fields)) }
{
    let mut r = Run {
        fields,
        registers: Registers::none(alloc),
        digests: Vec::new(alloc),
    };
    let _ = run_body(alloc, &NoCalls, &p.compute, &mut r)?;
    Ok(r.fields)
}

/// Whether the packet is dropped.
pub(crate) fn is_dropped(alloc: Global, s: &Fields) -> Result<bool, AllocError>
    ensures { IfOk result (λ b. b ≡ is_dropped (store_of s.now)) }
{
    let spec = standard_value(alloc, "egress_spec", s)?;
    Ok(number(spec) == 511)
}
