//! The code of a program.

ghost use Rattle.std.specs.Prelude.{◌≡◌, ◌+◌, ◌≤◌, length, true, false, IfOk, IfErr, OnOk};
ghost use Rattle.p4_meaning.specs.DigestBound.{enter_bound, leave_bound};
ghost use Rattle.p4_parts.specs.PartsIn.{parts_in};
ghost use Rattle.slot_terms.specs.Places.{places_of};
ghost use Rattle.slot_terms.specs.declared.fault.Fault.TheVariants.{Unknown};
ghost use Rattle.slot_places.specs.ProgramPlaces.{AreProgramPlaces, ArePlaced};
ghost use Rattle.slot_passages.specs.Codes.{program_of};
ghost use Rattle.slot_passages.specs.Room.{most_digests, HasRoom};
ghost use Rattle.slot_programs.specs.Room.{room_of};
ghost use Rattle.slot_programs.specs.Known.{has_code, has_code_at};
ghost use Rattle.slot_programs.specs.CodesOf.{IsCodeAt, IsCodeOf};

use crate::coded::Coded;
use crate::controls::controls_code;
use crate::emits::{emit_numbers, header_slots};
use crate::keys::program_keys;
use crate::room::room_of;
use crate::source::Source;
use p4_parts::Parts;
use slot_parser_codes::parser_code;
use slot_passages::ProgramCode;
use slot_places::{program_places, slot_headers};
use slot_terms::{Fault, Places};
use std::alloc::Global;

/// The code of a program by its places. `Unknown` where it has none.
fn code_at(alloc: Global, p: &Parts, places: &mut Places) -> Result<ProgramCode, Fault>
    requires { AreProgramPlaces (parts_in p.now) (places_of places.old) }
    ensures same { OnOk result (places_of places.new ≡ places_of places.old) }
    ensures known { OnOk result (has_code_at (parts_in p.now) (places_of places.old) ≡ true) }
    ensures code { IfOk result (λ c. IsCodeAt (parts_in p.now) (places_of places.old) (program_of c)) }
    ensures blames { IfErr result (λ f. f ≡ Unknown → has_code_at (parts_in p.now) (places_of places.old) ≡ false) }
{
    let parser = parser_code(alloc, p, places)?;
    let headers = slot_headers(alloc, p)?;
    let slots = header_slots(alloc, &headers)?;
    let source = Source {
        parts: p,
        headers: &slots,
    };
    let controls = controls_code(alloc, &source, places)?;
    let emits = emit_numbers(alloc, places, p)?;
    Ok(controls.program(headers, parser, emits))
}

/// The code of a program, with its places and the most keys that the application of a table has. `Unknown`
/// where a path of the program is declared twice or 32 bits do not number the slots; where two states of the parser
/// have one name, or what a state reads or writes has no place; where statements or actions of a control have
/// no code by the places of its variables (`specs/Known`); and where compute checksum gives a digest.
pub fn program_code(alloc: Global, p: &Parts) -> Result<Coded, Fault>
    ensures code { IfOk result (λ c. IsCodeOf (parts_in p.now) (room_of (parts_in p.now)) (places_of c.places) (program_of c.code)) }
    ensures placed { IfOk result (λ c. ArePlaced (parts_in p.now) (room_of (parts_in p.now)) (places_of c.places)) }
    ensures program { IfOk result (λ c. AreProgramPlaces (parts_in p.now) (places_of c.places)) }
    ensures room { IfOk result (λ c. HasRoom (length (program_of c.code).parser.states) c.keys (program_of c.code)) }
    ensures enter_told { IfOk result (λ c. most_digests (program_of c.code).verify + most_digests (program_of c.code).ingress ≤ enter_bound (parts_in p.now)) }
    ensures leave_told { IfOk result (λ c. most_digests (program_of c.code).egress ≤ leave_bound (parts_in p.now)) }
    ensures known { OnOk result (has_code (parts_in p.now) ≡ true) }
    ensures blames { IfErr result (λ f. f ≡ Unknown → has_code (parts_in p.now) ≡ false) }
{
    let room = room_of(p)?;
    let mut places = program_places(alloc, p, room)?;
    let code = code_at(alloc, p, &mut places)?;
    let keys = program_keys(&code);
    Ok(Coded { code, places, keys })
}
