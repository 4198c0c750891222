//! Headers, metadata and registers of a program.

ghost use Rattle.std.specs.Prelude.{◌≡◌, ◌++◌, IfOk, OnOk, map};
ghost use Rattle.p4_tree.specs.View.{control_of, local_of, top_of};
ghost use Rattle.p4_meaning.specs.Parts.{field_of, cells_under, registers_in, registers_of};
ghost use Rattle.p4_meaning.specs.Under.{in_control, no_scope};
ghost use Rattle.p4_parts.specs.Headers.{field_in, header_in, header_with};
ghost use Rattle.p4_parts.specs.PartsIn.{cells_decl};
ghost use Rattle.p4_resolved.specs.Scopes.{at_top, scope_of};

use crate::header::{Field, Header};
use crate::parts::Cells;
use bit_values::sound_width;
use lex_text::Name;
use p4_resolved::{Layer, Scope, full_name, header_fields, type_name, width_under};
use p4_tree::{Control, Local, PTy, Register, Top};
use p4_values::path_of_two;
use std::alloc::{AllocError, Global};

/// A field of a header or of the metadata.
fn field_of(alloc: Global, sc: &Scope, f: &(PTy, Name)) -> Result<Field, AllocError>
    ensures { IfOk result (λ x. field_in x ≡ field_of (scope_of sc.now).types f.now) }
{
    let name = f.1.copy(alloc)?;
    let width = sound_width(width_under(sc, &f.0));
    Ok(Field { name, width })
}

/// Fields of a header or of the metadata.
pub fn fields_of(alloc: Global, sc: &Scope, list: &[(PTy, Name)]) -> Result<Vec<Field>, AllocError>
    ensures { IfOk result (λ v. map field_in v.items ≡ map (field_of (scope_of sc.now).types) list.now) }
{
    let mut fields = Vec::new(alloc);
    for f in list {
        fields.push(field_of(alloc, sc, f)?)?;
    }
    Ok(fields)
}

/// A header of the struct of headers.
fn header_of(alloc: Global, sc: &Scope, tops: &[Top], f: &(PTy, Name)) -> Result<Header, AllocError>
    ensures { IfOk result (λ h. header_in h ≡ header_with (scope_of sc.now).types (map top_of tops.now) f.now) }
{
    let path = path_of_two(alloc, "hdr", f.1.as_str())?;
    let fields = fields_of(alloc, sc, header_fields(tops, type_name(&f.0)))?;
    Ok(Header { path, fields })
}

/// Headers of the struct of headers.
pub fn headers_of(
    alloc: Global,
    sc: &Scope,
    tops: &[Top],
    list: &[(PTy, Name)],
) -> Result<Vec<Header>, AllocError>
    ensures { IfOk result (λ v. map header_in v.items ≡ map (header_with (scope_of sc.now).types (map top_of tops.now)) list.now) }
{
    let mut headers = Vec::new(alloc);
    for f in list {
        headers.push(header_of(alloc, sc, tops, f)?)?;
    }
    Ok(headers)
}

/// A register.
fn cells_under(alloc: Global, sc: &Scope, r: &Register) -> Result<Cells, AllocError>
    ensures { IfOk result (λ c. cells_decl c ≡ cells_under (scope_of sc.now) r.now) }
{
    let name = full_name(alloc, sc, &r.name)?;
    let width = width_under(sc, &r.ty);
    let count = r.count;
    Ok(Cells { name, width, count })
}

/// The registers among a control's declarations go behind those that are there.
fn push_registers_in(
    alloc: Global,
    sc: &Scope,
    locals: &[Local],
    registers: &mut Vec<Cells>,
) -> Result<(), AllocError>
    ensures { OnOk result (map cells_decl registers.new.items ≡ map cells_decl registers.old.items ++ registers_in (scope_of sc.now) (map local_of locals.now)) }
{
    for local in locals {
        match local {
            Local::Reg(_, r) => registers.push(cells_under(alloc, sc, r)?)?,
            Local::Act(_, _) => {}
            Local::Tab(_, _) => {}
            Local::Const(_, _, _, _) => {}
            Local::Var(_, _, _, _) => {}
        }
    }
    Ok(())
}

/// The registers of a control go behind those that are there.
fn push_registers_of(
    alloc: Global,
    top: &Layer,
    control: &Control,
    registers: &mut Vec<Cells>,
) -> Result<(), AllocError>
    ensures { OnOk result (map cells_decl registers.new.items ≡ map cells_decl registers.old.items ++ registers_in (in_control 0 1 2 (at_top top.now) (control_of control.now)) (control_of control.now).locals) }
{
    let layer = Layer::of_control(alloc, 0, 1, 2, control)?;
    push_registers_in(alloc, &layer.within(top), &control.locals, registers)
}

/// The registers of a program.
pub fn registers_of(alloc: Global, tops: &[Top]) -> Result<Vec<Cells>, AllocError>
    ensures { IfOk result (λ v. map cells_decl v.items ≡ registers_of no_scope (map top_of tops.now)) }
{
    let mut layer = Layer::outside(alloc)?;
    let mut registers = Vec::new(alloc);
    for top in tops {
        match top {
            Top::Reg(_, r) => registers.push(cells_under(alloc, &layer.scope(), r)?)?,
            Top::Ctl(_, c) => push_registers_of(alloc, &layer, c, &mut registers)?,
            Top::Const(_, _, _, _) => layer.pass_top(alloc, top)?,
            Top::Typedef(_, _, _) => layer.pass_top(alloc, top)?,
            Top::Header(_, _, _) => layer.pass_top(alloc, top)?,
            Top::Struct(_, _, _) => layer.pass_top(alloc, top)?,
            Top::Pars(_, _) => layer.pass_top(alloc, top)?,
        }
    }
    Ok(registers)
}
