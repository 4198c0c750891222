//! The codes of a program's controls.

ghost use Rattle.std.specs.Prelude.{◌≡◌, [], map, true, false, ◌&&◌, IfOk, IfErr, OnOk};
ghost use Rattle.p4_meaning.specs.Parts.{whole};
ghost use Rattle.p4_meaning.specs.DigestBound.{most_applied, most_named, most_of, none_told};
ghost use Rattle.p4_parts.specs.PartsIn.{body_in, cells_decl, parts_in};
ghost use Rattle.slot_terms.specs.Places.{IsLaid, places_of};
ghost use Rattle.slot_terms.specs.declared.fault.Fault.TheVariants.{Unknown};
ghost use Rattle.slot_places.specs.HeaderSlots.{header_slots_of};
ghost use Rattle.slot_places.specs.ProgramPlaces.{AreProgramPlaces};
ghost use Rattle.slot_parsers.specs.Code.{parser_in};
ghost use Rattle.slot_passages.specs.Codes.{control_of, program_of};
ghost use Rattle.slot_passages.specs.Room.{most_digests};
ghost use Rattle.slot_programs.specs.Sight.{bare_callees, program_callees};
ghost use Rattle.slot_programs.specs.Known.{has_control, has_controls, is_silent};
ghost use Rattle.slot_programs.specs.CodesOf.{AreControlsOf, AreStepsOf, IsChecksumOf, IsControlOf};

use crate::keys::gives_none;
use crate::source::Source;
use p4_parts::{Body, Cells};
use slot_control_codes::{CallSteps, stmts_steps};
use slot_parsers::ParserCode;
use slot_passages::{ControlCode, ProgramCode};
use slot_places::SlotHeader;
use slot_terms::{Fault, Places, cut_back, row_count};
use std::alloc::Global;

/// The codes of a program's controls.
pub(crate) struct Controls {
    pub verify: ControlCode,
    pub ingress: ControlCode,
    pub egress: ControlCode,
    pub compute: ControlCode,
}

impl Drop for Controls {
    fn drop(self) {
        let Controls {
            verify: _verify,
            ingress: _ingress,
            egress: _egress,
            compute: _compute,
        } = self;
    }
}

impl Controls {
    /// The code of a program that has these controls.
    pub fn program(
        self,
        headers: Vec<SlotHeader>,
        parser: ParserCode,
        emits: Vec<u32>,
    ) -> ProgramCode
        ensures { program_of result ≡ record {
          headers = map header_slots_of headers.items;
          parser = parser_in parser;
          verify = control_of self.verify;
          ingress = control_of self.ingress;
          egress = control_of self.egress;
          compute = control_of self.compute;
          emits = emits.items;
        } }
    {
        let Controls {
            verify,
            ingress,
            egress,
            compute,
        } = self;
        ProgramCode {
            headers,
            parser,
            verify,
            ingress,
            egress,
            compute,
            emits,
        }
    }
}

/// The code of a control, by what its calls stand for. `Unknown` where it has none. After an `Err` nothing is
/// said of the places.
fn control_steps<K: CallSteps>(
    alloc: Global,
    places: &mut Places,
    k: &K,
    b: &Body,
) -> Result<ControlCode, Fault>
    requires { IsLaid (places_of places.old) }
    ensures same { OnOk result (places_of places.new ≡ places_of places.old) }
    ensures known { OnOk result (has_control (K.callees k.now) (places_of places.old) (whole (body_in b.now)) ≡ true) }
    ensures steps { IfOk result (λ c. AreStepsOf (K.callees k.now) (places_of places.old) (body_in b.now) (control_of c)) }
    ensures told { IfOk result (λ c. most_digests (control_of c) ≡ most_of (most_named (K.callees k.now).actions) (most_applied (K.callees k.now).actions (K.callees k.now).tables) (whole (body_in b.now))) }
    ensures blames { IfErr result (λ f. f ≡ Unknown → has_control (K.callees k.now) (places_of places.old) (whole (body_in b.now)) ≡ false) }
{
    let count = row_count(places);
    let next = places.next;
    let settings = stmts_steps(alloc, places, k, &b.locals)?;
    let body = stmts_steps(alloc, places, k, &b.body)?;
    cut_back(places, count, next);
    Ok(ControlCode { settings, body })
}

/// The code of ingress or egress. `Unknown` where it has none. After an `Err` nothing is said of the places.
fn control_code(
    alloc: Global,
    p: &Source<'_>,
    places: &mut Places,
    b: &Body,
) -> Result<ControlCode, Fault>
    requires { AreProgramPlaces (parts_in p.now.parts.now) (places_of places.old) }
    ensures same { OnOk result (places_of places.new ≡ places_of places.old) }
    ensures known { OnOk result (has_control (program_callees (parts_in p.now.parts.now)) (places_of places.old) (whole (body_in b.now)) ≡ true) }
    ensures control { IfOk result (λ c. IsControlOf (parts_in p.now.parts.now) (places_of places.old) (body_in b.now) (control_of c)) }
    ensures told { IfOk result (λ c. most_digests (control_of c) ≡ most_of (most_named (parts_in p.now.parts.now).actions) (most_applied (parts_in p.now.parts.now).actions (parts_in p.now.parts.now).tables) (whole (body_in b.now))) }
    ensures blames { IfErr result (λ f. f ≡ Unknown → has_control (program_callees (parts_in p.now.parts.now)) (places_of places.old) (whole (body_in b.now)) ≡ false) }
{
    let k = p.callees();
    let c = control_steps(alloc, places, &k, b)?;
    Ok(c)
}

/// The code of verify or compute checksum, over these registers. `Unknown` where it has none. After an `Err`
/// nothing is said of the places.
fn checksum_code(
    alloc: Global,
    p: &Source<'_>,
    registers: &[Cells],
    places: &mut Places,
    b: &Body,
) -> Result<ControlCode, Fault>
    requires { AreProgramPlaces (parts_in p.now.parts.now) (places_of places.old) }
    ensures same { OnOk result (places_of places.new ≡ places_of places.old) }
    ensures known { OnOk result (has_control (bare_callees (parts_in p.now.parts.now) (map cells_decl registers.now)) (places_of places.old) (whole (body_in b.now)) ≡ true) }
    ensures control { IfOk result (λ c. IsChecksumOf (parts_in p.now.parts.now) (map cells_decl registers.now) (places_of places.old) (whole (body_in b.now)) (control_of c)) }
    ensures told { IfOk result (λ c. most_digests (control_of c) ≡ most_of none_told none_told (whole (body_in b.now))) }
    ensures blames { IfErr result (λ f. f ≡ Unknown → has_control (bare_callees (parts_in p.now.parts.now) (map cells_decl registers.now)) (places_of places.old) (whole (body_in b.now)) ≡ false) }
{
    let k = p.bare(registers);
    let c = control_steps(alloc, places, &k, b)?;
    Ok(c)
}

/// The code of compute checksum, in which no register is in sight, and which gives no digest. `Unknown` where it
/// has none, or gives one.
fn compute_code(alloc: Global, p: &Source<'_>, places: &mut Places) -> Result<ControlCode, Fault>
    requires { AreProgramPlaces (parts_in p.now.parts.now) (places_of places.old) }
    ensures same { OnOk result (places_of places.new ≡ places_of places.old) }
    ensures known { OnOk result ((has_control (bare_callees (parts_in p.now.parts.now) []) (places_of places.old) (parts_in p.now.parts.now).compute && is_silent (parts_in p.now.parts.now).compute) ≡ true) }
    ensures control { IfOk result (λ c. IsChecksumOf (parts_in p.now.parts.now) [] (places_of places.old) (parts_in p.now.parts.now).compute (control_of c)) }
    ensures silent { IfOk result (λ c. most_digests (control_of c) ≡ 0) }
    ensures blames { IfErr result (λ f. f ≡ Unknown → (has_control (bare_callees (parts_in p.now.parts.now) []) (places_of places.old) (parts_in p.now.parts.now).compute && is_silent (parts_in p.now.parts.now).compute) ≡ false) }
{
    let c = checksum_code(alloc, p, &[], places, &p.parts.compute)?;
    let silent = gives_none(&c)?;
    if silent { Ok(c) } else { Err(Fault::Unknown) }
}

/// The codes of a program's controls. `Unknown` where one has none.
pub(crate) fn controls_code(
    alloc: Global,
    p: &Source<'_>,
    places: &mut Places,
) -> Result<Controls, Fault>
    requires { AreProgramPlaces (parts_in p.now.parts.now) (places_of places.old) }
    ensures same { OnOk result (places_of places.new ≡ places_of places.old) }
    ensures known { OnOk result (has_controls (parts_in p.now.parts.now) (places_of places.old) ≡ true) }
    ensures codes { IfOk result (λ c. AreControlsOf (parts_in p.now.parts.now) (places_of places.old) (control_of c.verify) (control_of c.ingress) (control_of c.egress) (control_of c.compute)) }
    ensures blames { IfErr result (λ f. f ≡ Unknown → has_controls (parts_in p.now.parts.now) (places_of places.old) ≡ false) }
{
    let verify = checksum_code(alloc, p, &p.parts.registers, places, &p.parts.verify)?;
    let ingress = control_code(alloc, p, places, &p.parts.ingress)?;
    let egress = control_code(alloc, p, places, &p.parts.egress)?;
    let compute = compute_code(alloc, p, places)?;
    Ok(Controls {
        verify,
        ingress,
        egress,
        compute,
    })
}
