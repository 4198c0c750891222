//! Whole properties.

ghost use Rattle.std.specs.Prelude.{◌≡◌, ◌+◌, ◌-◌, ◌*◌, ◌++◌, ◌∷◌, codes, map, Some, IfOk, OnOk};
ghost use Rattle.p4_tree.specs.Tree as p4;
ghost use Rattle.indus_tree.specs.Hops.{variable_number};
ghost use Rattle.indus_tree.specs.View.{decl_of, property_of};
ghost use Rattle.p4_tree.specs.View.{local_of, top_of};
ghost use Rattle.lower_lists.specs.FlatProperty.{IsFlatOf};
ghost use Rattle.tele_layout.specs.Layouts.{IsLayoutOf};
ghost use Rattle.monitor_laws.specs.Monitor.{flag_locals};
ghost use Rattle.monitor_laws.specs.Telemetry.{mark_field};
ghost use Rattle.p4_meaning.specs.Parsing.{width_sum};
ghost use Rattle.lowered_code.specs.Statements as code;
ghost use Rattle.whole_properties.specs.Whole as whole;
ghost use Rattle.lower_blocks.specs.Results.{given_of, lowered_of, rows_of};
ghost use Rattle.lower_blocks.specs.Trees as trees;
ghost use Rattle.lower_reads.specs.View.{decl_read, declared, reads_of};
ghost use Rattle.lower_code.specs.View.{environment_of};

use crate::locals::{actions, looked_up, tables, vars};
use crate::lowered::Lowered;
use crate::numbered::numbered;
use control_tables::{ControlMap, value_width};
use indus_tree::{Decl, DeclKind};
use indus_types::TypedProperty;
use lex_text::Name;
use lookup_names::table_name;
use lower_code::{Roots, block_code, checker};
use lower_lists::FlatProperty;
use lower_reads::{Declarations, Read, block_numbers, number_at};
use p4_tree::{Local, PTy, Top};
use sensor_registers::register_for;
use std::alloc::{AllocError, Global};
use tele_layout::Layout;

/// The field of a numbered scalar; the answer is its width.
fn add_field(alloc: Global, d: &Decl, out: &mut Vec<(PTy, Name)>) -> Result<u8, AllocError>
    ensures fields { OnOk result (out.new.items ≡ out.old.items ++ map trees.field_tree (whole.tele_field d.now.kind (decl_of d.now))) }
    ensures width { IfOk result (λ n. n ≡ width_sum (whole.tele_field d.now.kind (decl_of d.now))) }
{
    match d.kind {
        DeclKind::Tele => {
            let width = value_width(&d.shape);
            let name = Name::joined(alloc, "hydra_v_", d.name.as_str())?;
            out.push((PTy::Bit(width), name))?;
            Ok(width)
        }
        DeclKind::Sensor | DeclKind::Header | DeclKind::Control => Ok(0),
    }
}

/// The fields of numbered scalars; the answer is the sum of their widths and the mark's.
fn add_fields(alloc: Global, decls: &[Decl], out: &mut Vec<(PTy, Name)>) -> Result<u32, AllocError>
    ensures fields { OnOk result (out.new.items ≡ out.old.items ++ map trees.field_tree (whole.tele_fields (map decl_of decls.now))) }
    ensures width { IfOk result (λ n. n ≡ 8 + width_sum (whole.tele_fields (map decl_of decls.now))) }
{
    let mut sum: u32 = 8;
    for d in decls {
        let width = add_field(alloc, d, out)?;
        sum = number_at(sum, usize::from(width))?;
    }
    Ok(sum)
}

/// The bits that are left of the last byte.
fn add_fill(
    alloc: Global,
    bytes: u16,
    sum: u32,
    out: &mut Vec<(PTy, Name)>,
) -> Result<(), AllocError>
    ensures { OnOk result (out.new.items ≡ out.old.items ++ map trees.field_tree (whole.fill_field (bytes * 8 - sum))) }
{
    let left = (u32::from(bytes) * 8).saturating_sub(sum);
    if left > 0 {
        let width = u8::try_from(left).map_err(|_| AllocError)?;
        out.push((PTy::Bit(width), Name::new(alloc, "hydra_fill")?))?;
    }
    Ok(())
}

/// The fields of the telemetry's header: the mark, one for each scalar, and the bits that are left of
/// the last byte.
fn fields(alloc: Global, decls: &Declarations, bytes: u16) -> Result<Vec<(PTy, Name)>, AllocError>
    requires { bytes ≡ whole.tele_room (whole.tele_fields (declared decls.now)) }
    ensures { IfOk result (λ v. v.items ≡ map trees.field_tree
        (mark_field ∷ (whole.tele_fields (declared decls.now) ++ whole.fill_fields (whole.tele_fields (declared decls.now))))) }
{
    let mut out = Vec::new(alloc);
    out.push((PTy::Bit(8), Name::new(alloc, "hydra_mark")?))?;
    let sum = add_fields(alloc, &decls.decls, &mut out)?;
    add_fill(alloc, bytes, sum, &mut out)?;
    Ok(out)
}

/// The register of a sensor.
fn add_register(alloc: Global, d: &Decl, out: &mut Vec<Top>) -> Result<(), AllocError>
    ensures { OnOk result (map top_of out.new.items ≡ map top_of out.old.items ++ trees.register_tops d.now.kind (decl_of d.now)) }
{
    match d.kind {
        DeclKind::Sensor => {
            out.push(Top::Reg(0, register_for(alloc, d)?))?;
            Ok(())
        }
        DeclKind::Tele | DeclKind::Header | DeclKind::Control => Ok(()),
    }
}

/// The telemetry's header type, and a register for each sensor.
fn tops(
    alloc: Global,
    given: &[Decl],
    decls: &Declarations,
    bytes: u16,
) -> Result<Vec<Top>, AllocError>
    requires { bytes ≡ whole.tele_room (whole.tele_fields (declared decls.now)) }
    ensures { IfOk result (λ v. map top_of v.items ≡ p4.header_type 0 (codes "hydra_tele_t") (map trees.field_tree
        (mark_field ∷ (whole.tele_fields (declared decls.now) ++ whole.fill_fields (whole.tele_fields (declared decls.now)))))
        ∷ trees.registers_of (map decl_of given.now)) }
{
    let mut out = Vec::new(alloc);
    let list = fields(alloc, decls, bytes)?;
    out.push(Top::Header(0, Name::new(alloc, "hydra_tele_t")?, list))?;
    for d in given {
        add_register(alloc, d, &mut out)?;
    }
    Ok(out)
}

/// Variables, actions and tables of reads.
fn locals(alloc: Global, reads: &[Read<'_>], out: &mut Vec<Local>) -> Result<(), AllocError>
    ensures { OnOk result (map local_of out.new.items ≡ map local_of out.old.items
        ++ trees.locals_for (code.vars_in (reads_of reads.now)) (code.lookups_in (reads_of reads.now))) }
{
    vars(alloc, reads, out)?;
    actions(alloc, reads, out)?;
    tables(alloc, reads, out)
}

/// The flags of the exit part.
fn flags(alloc: Global) -> Result<Vec<Local>, AllocError>
    ensures { IfOk result (λ v. map local_of v.items ≡ map trees.var_tree flag_locals) }
{
    let mut out = Vec::new(alloc);
    out.push(Local::Var(0, PTy::Bool, Name::new(alloc, "hydra_first")?, None))?;
    out.push(Local::Var(0, PTy::Bool, Name::new(alloc, "hydra_last")?, None))?;
    out.push(Local::Var(0, PTy::Bool, Name::new(alloc, "hydra_rejected")?, None))?;
    Ok(out)
}

/// The number of a control variable; there is one for each declared name, and no memory holds more
/// than 32 bits number.
fn variable_of(p: &TypedProperty, d: &Decl) -> Result<u32, AllocError>
    ensures { IfOk result (λ n. Some n ≡ variable_number (property_of p.now).decls d.now.name) }
{
    match p.number(d.name.as_str()) {
        None => Err(AllocError),
        Some(place) => u32::try_from(place).map_err(|_| AllocError),
    }
}

/// The table of a read that is a lookup goes into the map.
fn add_row(
    alloc: Global,
    p: &TypedProperty,
    control: &Name,
    read: &Read<'_>,
    map: &mut ControlMap,
) -> Result<(), AllocError>
    ensures { OnOk result (rows_of map.new ≡ rows_of map.old
        ++ trees.mapped (property_of p.now) control.now (code.read_lookups read.now.number (decl_read read.now))) }
{
    match looked_up(read) {
        None => Ok(()),
        Some(d) => {
            let variable = variable_of(p, d)?;
            let table = table_name(alloc, read.number)?;
            map.tables.push((control.copy(alloc)?, table, variable))?;
            Ok(())
        }
    }
}

/// The tables of lookups in a control go into the map.
fn add_rows(
    alloc: Global,
    p: &TypedProperty,
    control: &Name,
    reads: &[Read<'_>],
    map: &mut ControlMap,
) -> Result<(), AllocError>
    ensures { OnOk result (rows_of map.new ≡ rows_of map.old ++ trees.mapped (property_of p.now) control.now (code.lookups_in (reads_of reads.now))) }
{
    for read in reads {
        add_row(alloc, p, control, read, map)?;
    }
    Ok(())
}

/// What a property lowers to, over its flat code and its layout. `ingress` and `egress` have the names
/// that the forwarding program's controls give their parameters.
///
/// # Errors
///
/// `AllocError` where memory is wanting.
pub fn lower(
    alloc: Global,
    p: &TypedProperty,
    flat: &FlatProperty,
    l: &Layout,
    ingress: &Roots,
    egress: &Roots,
) -> Result<Lowered, AllocError>
    requires flat { IsFlatOf (property_of p.now) flat.now }
    requires layout { IsLayoutOf (property_of p.now) l.now }
    ensures trees { IfOk result (λ o. lowered_of o
        ≡ trees.lowered_trees (given_of (property_of p.now) ingress.now egress.now) (environment_of ingress.now) (environment_of egress.now)) }
    ensures map { IfOk result (λ o. rows_of o.map
        ≡ trees.mapped (property_of p.now) ingress.now.control (trees.entry_lookups (given_of (property_of p.now) ingress.now egress.now))
        ++ trees.mapped (property_of p.now) egress.now.control (trees.exit_lookups (given_of (property_of p.now) ingress.now egress.now))) }
{
    let given = &p.property().decls;
    let decls = numbered(alloc, given)?;
    let mut first = Vec::new(alloc);
    let tele_first = block_numbers(alloc, &decls, &flat.init, 0, &mut first)?;
    let mut second = Vec::new(alloc);
    let check_first = block_numbers(alloc, &decls, &flat.tele, tele_first, &mut second)?;
    block_numbers(alloc, &decls, &flat.check, check_first, &mut second)?;
    let mut entry_locals = Vec::new(alloc);
    locals(alloc, &first, &mut entry_locals)?;
    let mut exit_locals = flags(alloc)?;
    locals(alloc, &second, &mut exit_locals)?;
    let mut map = ControlMap {
        tables: Vec::new(alloc),
    };
    add_rows(alloc, p, &ingress.control, &first, &mut map)?;
    add_rows(alloc, p, &egress.control, &second, &mut map)?;
    let entry = block_code(alloc, ingress, &decls, &flat.init, 0)?.stmts;
    let mut exit = block_code(alloc, egress, &decls, &flat.tele, tele_first)?.stmts;
    let check = block_code(alloc, egress, &decls, &flat.check, check_first)?.stmts;
    exit.push(checker(alloc, check)?)?;
    Ok(Lowered {
        entry,
        exit,
        entry_locals,
        exit_locals,
        tops: tops(alloc, given, &decls, l.bytes)?,
        map,
    })
}
