//! What a linked program declares at top level, and the whole.

ghost use Rattle.std.specs.Prelude.{◌≡◌, ◌∷◌, ◌++◌, [], IfOk, map};
ghost use Rattle.p4_tree.specs.View.{program_of, top_of};
ghost use Rattle.p4_meaning.specs.Parts.{parser_in, parser_type};
ghost use Rattle.linked_programs.specs.Linked.{front, headers_type, linked, linked_top, metadata_type, more_fields, rejects_top, switch_top};
ghost use Rattle.linked_trees.specs.View.{lowered_of};

use crate::controls::{control_at, place_in};
use crate::parsers::linked_parser;
use lex_text::Name;
use p4_resolved::{named_in, param_type, parser_named};
use p4_tree::{Local, PTy, Program, Register, Stmt, Top, copy_fields};
use p4_values::{copy_path, same_text};
use small_trees::number;
use std::alloc::{AllocError, Global};

/// The parts of a monitor, written by the names that ingress and egress give their parameters.
#[derive(Debug, Drop)]
pub struct Parts {
    /// The telemetry's first byte.
    pub mark: u8,
    /// The telemetry's header type, and the sensors' registers.
    pub tops: Vec<Top>,
    pub entry_locals: Vec<Local>,
    pub exit_locals: Vec<Local>,
    /// What init does.
    pub entry: Vec<Stmt>,
    /// What telemetry does, and at the last hop the checker.
    pub exit: Vec<Stmt>,
}

/// The register that counts rejected packets.
fn rejects_top(alloc: Global) -> Result<Top, AllocError>
    ensures { IfOk result (λ t. top_of t ≡ rejects_top) }
{
    let register = Register {
        at: 0,
        ty: PTy::Bit(32),
        count: 1,
        name: Name::new(alloc, "hydra_rejects")?,
    };
    Ok(Top::Reg(0, register))
}

/// The constant that holds the switch's number.
fn switch_top(alloc: Global, switch: u16) -> Result<Top, AllocError>
    ensures { IfOk result (λ t. top_of t ≡ switch_top switch) }
{
    let name = Name::new(alloc, "hydra_switch")?;
    Ok(Top::Const(0, PTy::Bit(16), name, number(16, u128::from(switch))))
}

/// What stands in front of the program's own declarations.
fn front(alloc: Global, parts: &Parts, switch: u16) -> Result<Vec<Top>, AllocError>
    ensures { IfOk result (λ v. map top_of v.items ≡ front (lowered_of parts.now) switch) }
{
    let mut tops = Vec::new(alloc);
    tops.push(rejects_top(alloc)?)?;
    for top in &parts.tops {
        tops.push(top.copy(alloc)?)?;
    }
    tops.push(switch_top(alloc, switch)?)?;
    Ok(tops)
}

/// The struct of headers: the type of a parameter of the parser that `main` names.
pub(crate) fn struct_at(program: &Program, at: u8) -> &str
    ensures { result.now ≡ parser_type (parser_in (program_of program.now)) at }
{
    match parser_named(&program.tops, named_in(&program.main, 0)) {
        None => "",
        Some(parser) => param_type(&parser.params, at),
    }
}

/// A struct's fields behind one more.
fn behind(
    alloc: Global,
    ty: PTy,
    name: &str,
    fields: &[(PTy, Name)],
) -> Result<Vec<(PTy, Name)>, AllocError>
    ensures { IfOk result (λ v. v.items ≡ (ty, name.now) ∷ fields.now) }
{
    let mut all = Vec::new(alloc);
    all.push((ty, Name::new(alloc, name)?))?;
    let mut rest = copy_fields(alloc, fields)?;
    all.append(&mut rest)?;
    Ok(all)
}

/// The fields of a struct, with the telemetry's header among headers and the length without telemetry
/// among metadata.
fn linked_fields(
    alloc: Global,
    program: &Program,
    name: &Name,
    fields: &[(PTy, Name)],
) -> Result<Vec<(PTy, Name)>, AllocError>
    ensures { IfOk result (λ v. v.items ≡ more_fields (program_of program.now) name.now ++ fields.now) }
{
    if same_text(struct_at(program, 1), name.as_str()) {
        let header = PTy::Named(Name::new(alloc, "hydra_tele_t")?);
        behind(alloc, header, "hydra_tele", fields)
    } else if same_text(struct_at(program, 2), name.as_str()) {
        behind(alloc, PTy::Bit(32), "hydra_length", fields)
    } else {
        copy_fields(alloc, fields)
    }
}

/// A declaration of the program's.
fn linked_top(
    alloc: Global,
    parts: &Parts,
    size: u16,
    linked_ports: &[u16],
    program: &Program,
    top: &Top,
) -> Result<Top, AllocError>
    ensures { IfOk result (λ t. top_of t
        ≡ linked_top (lowered_of parts.now) size linked_ports.now (program_of program.now) (top_of top.now)) }
{
    match top {
        Top::Struct(at, name, fields) => {
            let fields = linked_fields(alloc, program, name, fields)?;
            Ok(Top::Struct(*at, name.copy(alloc)?, fields))
        }
        Top::Pars(at, d) => Ok(Top::Pars(*at, linked_parser(alloc, size, linked_ports, d)?)),
        Top::Ctl(at, c) => {
            let place = place_in(&program.main, &c.name);
            Ok(Top::Ctl(*at, control_at(alloc, parts, linked_ports, place, c)?))
        }
        Top::Const(_, _, _, _) => top.copy(alloc),
        Top::Typedef(_, _, _) => top.copy(alloc),
        Top::Header(_, _, _) => top.copy(alloc),
        Top::Reg(_, _) => top.copy(alloc),
    }
}

/// The linked program of a switch. `size`: the bytes of the telemetry; `linked_ports`: the switch's
/// ports with links.
pub fn linked(
    alloc: Global,
    parts: &Parts,
    size: u16,
    switch: u16,
    linked_ports: &[u16],
    program: &Program,
) -> Result<Program, AllocError>
    ensures { IfOk result (λ q. program_of q
        ≡ linked (lowered_of parts.now) size switch linked_ports.now (program_of program.now)) }
{
    let mut tops = front(alloc, parts, switch)?;
    for top in &program.tops {
        tops.push(linked_top(alloc, parts, size, linked_ports, program, top)?)?;
    }
    let main = copy_path(alloc, &program.main)?;
    Ok(Program {
        at: program.at,
        tops,
        main,
    })
}
