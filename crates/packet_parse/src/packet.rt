//! The parser and the deparser by themselves.

ghost use Rattle.std.specs.Prelude.{◌≡◌, ◌<◌, ◌≤◌, ◌*◌, ◌^◌, length, drop, map, IfOk, OnOk};
ghost use Rattle.std.specs.Option.{option_map};
ghost use Rattle.bit_values.specs.Bytes.{bits_of};
ghost use Rattle.p4_tree.specs.View.{control_of, parser_of, program_of};
ghost use Rattle.p4_meaning.specs.Parts.{control_in, parser_in};
ghost use Rattle.p4_packets.specs.Fields.{store_of};
ghost use Rattle.p4_resolved.specs.Lent.{lent};
ghost use Rattle.p4_resolved.specs.Scopes.{at_part, at_top};
ghost use Rattle.p4_meaning.specs.Under.{no_scope};
ghost use Rattle.packet_parse.specs.Stores.{behind_parser, consumed, deparsed, deparser_scope, parser_end, parser_scope, shown_standard, shown_valid, shown_value, store_under};

use crate::fields::Fields;
use crate::stores::{show, store_under};
use p4_packets::{Fields as Store, Rest, parse_from, write_frame};
use p4_parts::parts_of;
use p4_resolved::{Layer, control_named, named_in, parser_named};
use p4_tree::{Control, Parser, Program};
use p4_types::TypedProgram;
use std::alloc::{AllocError, Global};

/// The layer of a parser, in a program where nothing is declared.
#[tactic(auto, using(crate::proofs::Layers::outside_twice))]
fn parser_layer(
    alloc: Global,
    top: &Layer,
    parser: Option<&Parser>,
) -> Result<Box<Layer>, AllocError>
    requires { at_top top.now ≡ no_scope }
    ensures { IfOk result (λ l. at_part top.now l.value ≡ parser_scope (option_map parser_of (lent parser.entry))) }
{
    match parser {
        None => Layer::outside(alloc),
        Some(parser) => Layer::of_parser(alloc, top, parser),
    }
}

/// The layer of a deparser, in a program where nothing is declared.
#[tactic(auto, using(crate::proofs::Layers::outside_twice))]
fn deparser_layer(
    alloc: Global,
    top: &Layer,
    deparser: Option<&Control>,
) -> Result<Box<Layer>, AllocError>
    requires { at_top top.now ≡ no_scope }
    ensures { IfOk result (λ l. at_part top.now l.value ≡ deparser_scope (option_map control_of (lent deparser.entry))) }
{
    match deparser {
        None => Layer::outside(alloc),
        Some(deparser) => Layer::of_control(alloc, 1, 9, 9, deparser),
    }
}

/// The parser that `main` names.
fn parser_in(p: &Program) -> Option<&Parser>
    ensures { option_map parser_of (lent result) ≡ parser_in (program_of p.now) }
{
    parser_named(&p.tops, named_in(&p.main, 0))
}

/// The deparser that `main` names.
fn deparser_in(p: &Program) -> Option<&Control>
    ensures { option_map control_of (lent result) ≡ control_in (program_of p.now) 5 }
{
    control_named(&p.tops, named_in(&p.main, 5))
}

/// The parser on a frame, where this is in sight before it: how far it came, in bits.
fn run_on(alloc: Global, p: &Program, s: &mut Fields, frame: &[u8]) -> Result<usize, AllocError>
    requires { length frame.now < 2 ^ 29 }
    ensures rest { IfOk result (λ at. drop at (bits_of frame.now)
        ≡ (parser_end (program_of p.now) s.old frame.now).reading.rest) }
    ensures within { IfOk result (λ at. at ≤ 8 * length frame.now) }
    ensures valid { OnOk result (s.new.valid.items ≡ map (shown_valid (parser_scope (parser_in (program_of p.now)))
        (behind_parser (program_of p.now) s.old frame.now)) s.old.valid.items) }
    ensures values { OnOk result (s.new.values.items ≡ map (shown_value (parser_scope (parser_in (program_of p.now)))
        (behind_parser (program_of p.now) s.old frame.now)) s.old.values.items) }
    ensures name { s.new.std_name ≡ s.old.std_name }
    ensures standard { OnOk result (s.new.std
        ≡ shown_standard (behind_parser (program_of p.now) s.old frame.now)) }
{
    let top = Layer::outside(alloc)?;
    let layer = parser_layer(alloc, &top, parser_in(p))?;
    let sc = layer.within(&top);
    let parts = parts_of(alloc, p)?;
    let mut store = store_under(alloc, &sc, s)?;
    let at = parse_from(alloc, &parts, frame, &mut store)?;
    show(alloc, &sc, &store, s)?;
    Ok(at)
}

/// Runs the parser on a frame, where this is in sight before it, by the paths as the parser writes
/// them; answers the bytes that it consumed. Then the fields show what stands behind it, and how it
/// ended. After want of memory some of them may. A frame of 2^29 bytes or more, whose bits have no
/// numbers of 32 bits, is answered as if memory were wanting.
pub fn run_parser(
    alloc: Global,
    p: &TypedProgram,
    s: &mut Fields,
    frame: &[u8],
) -> Result<u32, AllocError>
    ensures consumed { IfOk result (λ n. n ≡ consumed (program_of p.now) s.old frame.now) }
    ensures valid { OnOk result (s.new.valid.items ≡ map (shown_valid (parser_scope (parser_in (program_of p.now)))
        (behind_parser (program_of p.now) s.old frame.now)) s.old.valid.items) }
    ensures values { OnOk result (s.new.values.items ≡ map (shown_value (parser_scope (parser_in (program_of p.now)))
        (behind_parser (program_of p.now) s.old frame.now)) s.old.values.items) }
    ensures name { s.new.std_name ≡ s.old.std_name }
    ensures standard { OnOk result (s.new.std
        ≡ shown_standard (behind_parser (program_of p.now) s.old frame.now)) }
{
    if frame.len() >= 1 << 29 {
        return Err(AllocError);
    }
    let at = run_on(alloc, p.program(), s, frame)?;
    Ok((at / 8) as u32)
}

/// What the deparser has in sight, as a store.
fn deparser_store(alloc: Global, p: &Program, s: &Fields) -> Result<Store, AllocError>
    ensures { IfOk result (λ t. store_of t
        ≡ store_under (deparser_scope (control_in (program_of p.now) 5)) s.now) }
{
    let top = Layer::outside(alloc)?;
    let layer = deparser_layer(alloc, &top, deparser_in(p))?;
    let store = store_under(alloc, &layer.within(&top), s)?;
    Ok(store)
}

fn copy_bytes(alloc: Global, bytes: &[u8]) -> Result<Vec<u8>, AllocError>
    ensures { IfOk result (λ v. v.items ≡ bytes.now) }
{
    let copy = bytes.to_vec(alloc)?;
    Ok(copy)
}

/// The frame that the deparser makes.
fn deparse(alloc: Global, p: &Program, s: &Fields, rest: &[u8]) -> Result<Vec<u8>, AllocError>
    ensures { IfOk result (λ v. v.items ≡ deparsed (program_of p.now) s.now rest.now) }
{
    let parts = parts_of(alloc, p)?;
    let store = deparser_store(alloc, p, s)?;
    let bytes = copy_bytes(alloc, rest)?;
    let frame = write_frame(alloc, &parts, &store, &Rest { bytes, skip: 0 })?;
    Ok(frame)
}

/// The frame that the deparser makes of the headers that are in sight, by the paths as it writes
/// them, and of the bytes that the parser left.
pub fn run_deparser(
    alloc: Global,
    p: &TypedProgram,
    s: &Fields,
    rest: &[u8],
) -> Result<Vec<u8>, AllocError>
    ensures { IfOk result (λ v. v.items ≡ deparsed (program_of p.now) s.now rest.now) }
{
    let frame = deparse(alloc, p.program(), s, rest)?;
    Ok(frame)
}
