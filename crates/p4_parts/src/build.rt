//! The parts of a program.

ghost use Rattle.std.specs.Prelude.{◌≡◌, IfOk, map};
ghost use Rattle.p4_tree.specs.View.{program_of};
ghost use Rattle.p4_meaning.specs.Parts as meaning;
ghost use Rattle.p4_meaning.specs.Parts.{parts_of};
ghost use Rattle.p4_parts.specs.Headers.{field_in, header_in};
ghost use Rattle.p4_parts.specs.PartsIn.{action_in, cells_decl, parts_in, table_in};

use crate::actions::actions_of;
use crate::bodies::{body_at, layer_behind, parser_in, parser_type, states_in};
use crate::emits::emits_in;
use crate::fields::{fields_of, headers_of, registers_of};
use crate::header::{Field, Header};
use crate::parts::{Action, Cells, Parts, Table};
use crate::tables::tables_of;
use lex_text::Name;
use p4_resolved::struct_fields;
use p4_tree::{PTy, Program};
use std::alloc::{AllocError, Global};

/// The fields of the struct that is the type of a parameter of the parser.
pub(crate) fn struct_at(p: &Program, n: u8) -> &[(PTy, Name)]
    ensures { result.now ≡ meaning.struct_fields (program_of p.now).tops (meaning.parser_type (meaning.parser_in (program_of p.now)) n) }
{
    struct_fields(&p.tops, parser_type(parser_in(p), n))
}

/// The headers and the metadata of a program.
fn declared_in(alloc: Global, p: &Program) -> Result<(Vec<Header>, Vec<Field>), AllocError>
    ensures headers { IfOk result (λ r. map header_in r.0.items ≡ (parts_of (program_of p.now)).headers) }
    ensures metadata { IfOk result (λ r. map field_in r.1.items ≡ (parts_of (program_of p.now)).metadata) }
{
    let layer = layer_behind(alloc, &p.tops)?;
    let headers = headers_of(alloc, &layer.scope(), &p.tops, struct_at(p, 1))?;
    let metadata = fields_of(alloc, &layer.scope(), struct_at(p, 2))?;
    Ok((headers, metadata))
}

/// The actions and the tables of a program.
fn acting_in(alloc: Global, p: &Program) -> Result<(Vec<Action>, Vec<Table>), AllocError>
    ensures actions { IfOk result (λ r. map action_in r.0.items ≡ (parts_of (program_of p.now)).actions) }
    ensures tables { IfOk result (λ r. map table_in r.1.items ≡ (parts_of (program_of p.now)).tables) }
{
    let actions = actions_of(alloc, &p.tops)?;
    let tables = tables_of(alloc, &actions, &p.tops)?;
    Ok((actions, tables))
}

/// The registers of a program.
fn registers_in(alloc: Global, p: &Program) -> Result<Vec<Cells>, AllocError>
    ensures { IfOk result (λ v. map cells_decl v.items ≡ (parts_of (program_of p.now)).registers) }
{
    registers_of(alloc, &p.tops)
}

/// The parts of a program.
pub fn parts_of(alloc: Global, p: &Program) -> Result<Parts, AllocError>
    ensures { IfOk result (λ x. parts_in x ≡ parts_of (program_of p.now)) }
{
    let (headers, metadata) = declared_in(alloc, p)?;
    let (actions, tables) = acting_in(alloc, p)?;
    Ok(Parts {
        registers: registers_in(alloc, p)?,
        headers,
        metadata,
        states: states_in(alloc, p)?,
        actions,
        tables,
        verify: body_at(alloc, 0, 1, 9, p, 1)?,
        ingress: body_at(alloc, 0, 1, 2, p, 2)?,
        egress: body_at(alloc, 0, 1, 2, p, 3)?,
        compute: body_at(alloc, 0, 1, 9, p, 4)?,
        emits: emits_in(alloc, p)?,
    })
}
