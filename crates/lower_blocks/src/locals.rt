//! What lowered code declares in its control: variables, actions and tables.

ghost use Rattle.std.specs.Prelude.{◌≡◌, ◌++◌, ◌∷◌, [], map, OnOk};
ghost use Rattle.indus_tree.specs.View.{shape_of};
ghost use Rattle.p4_tree.specs.View.{local_of};
ghost use Rattle.lowered_code.specs.Statements as code;
ghost use Rattle.lower_blocks.specs.Trees as trees;
ghost use Rattle.lower_reads.specs.View.{decl_read, reads_of};
ghost use Rattle.lower_blocks.specs.View.{as_lookups};

use control_tables::table_for;
use indus_tree::{Decl, DeclKind, Shape, Ty};
use lex_text::Name;
use lookup_names::{found_name, key_name};
use lower_code::{bits_type, key_types, value_type};
use lower_reads::Read;
use p4_tree::{Local, PTy};
use std::alloc::{AllocError, Global};

fn variable(ty: PTy, name: Name, out: &mut Vec<Local>) -> Result<(), AllocError>
    ensures { OnOk result (map local_of out.new.items ≡ map local_of out.old.items ++ trees.var_tree (ty, name) ∷ []) }
{
    out.push(Local::Var(0, ty, name, None))?;
    Ok(())
}

/// The variables of the parts of a key.
fn key_vars(
    alloc: Global,
    number: u32,
    types: &[Ty],
    out: &mut Vec<Local>,
) -> Result<(), AllocError>
    ensures { OnOk result (map local_of out.new.items ≡ map local_of out.old.items ++ map trees.var_tree (code.key_vars number 0 types.now)) }
{
    for part in 0..types.len() {
        variable(bits_type(types[part]), key_name(alloc, number, part)?, out)?;
    }
    Ok(())
}

/// The variables of the key of a read; an index has 128 bits.
fn kept_vars(alloc: Global, number: u32, d: &Decl, out: &mut Vec<Local>) -> Result<(), AllocError>
    ensures { OnOk result (map local_of out.new.items ≡ map local_of out.old.items
        ++ map trees.var_tree (code.key_vars number 0 (code.kept_types d.now.kind (shape_of d.now.shape)))) }
{
    match d.kind {
        DeclKind::Sensor => match &d.shape {
            Shape::List(_, _) => key_vars(alloc, number, &[Ty::Bit(128)], out),
            Shape::One(_) => Ok(()),
            Shape::SetOf(types) | Shape::DictOf(types, _) => key_vars(alloc, number, types, out),
        },
        DeclKind::Tele | DeclKind::Header | DeclKind::Control => {
            key_vars(alloc, number, key_types(&d.shape), out)
        }
    }
}

/// The variables of a read.
fn read_vars(alloc: Global, read: &Read<'_>, out: &mut Vec<Local>) -> Result<(), AllocError>
    ensures { OnOk result (map local_of out.new.items ≡ map local_of out.old.items
        ++ map trees.var_tree (code.read_vars read.now.number (decl_read read.now))) }
{
    match read.decl {
        None => Ok(()),
        Some(d) => {
            let name = found_name(alloc, read.number)?;
            variable(bits_type(value_type(&d.shape)), name, out)?;
            kept_vars(alloc, read.number, d, out)
        }
    }
}

/// The variables of reads.
pub(crate) fn vars(
    alloc: Global,
    reads: &[Read<'_>],
    out: &mut Vec<Local>,
) -> Result<(), AllocError>
    ensures { OnOk result (map local_of out.new.items ≡ map local_of out.old.items ++ map trees.var_tree (code.vars_in (reads_of reads.now))) }
{
    for read in reads {
        read_vars(alloc, read, out)?;
    }
    Ok(())
}

/// The control variable that a read looks up, if it does.
pub(crate) fn looked_up<'a>(read: &Read<'a>) -> Option<&'a Decl>
    ensures { as_lookups read.now.number result ≡ code.read_lookups read.now.number (decl_read read.now) }
{
    match read.decl {
        None => None,
        Some(d) => match d.kind {
            DeclKind::Control => Some(d),
            DeclKind::Tele | DeclKind::Sensor | DeclKind::Header => None,
        },
    }
}

/// The action of a read that is a lookup.
fn action(alloc: Global, read: &Read<'_>, out: &mut Vec<Local>) -> Result<(), AllocError>
    ensures { OnOk result (map local_of out.new.items ≡ map local_of out.old.items
        ++ map trees.action_tree (code.read_lookups read.now.number (decl_read read.now))) }
{
    match looked_up(read) {
        None => Ok(()),
        Some(d) => {
            let pair = table_for(alloc, d, read.number)?;
            out.push(Local::Act(0, pair.1))?;
            Ok(())
        }
    }
}

/// The actions of lookups.
pub(crate) fn actions(
    alloc: Global,
    reads: &[Read<'_>],
    out: &mut Vec<Local>,
) -> Result<(), AllocError>
    ensures { OnOk result (map local_of out.new.items ≡ map local_of out.old.items ++ map trees.action_tree (code.lookups_in (reads_of reads.now))) }
{
    for read in reads {
        action(alloc, read, out)?;
    }
    Ok(())
}

/// The table of a read that is a lookup.
fn table(alloc: Global, read: &Read<'_>, out: &mut Vec<Local>) -> Result<(), AllocError>
    ensures { OnOk result (map local_of out.new.items ≡ map local_of out.old.items
        ++ map trees.table_tree (code.read_lookups read.now.number (decl_read read.now))) }
{
    match looked_up(read) {
        None => Ok(()),
        Some(d) => {
            let pair = table_for(alloc, d, read.number)?;
            out.push(Local::Tab(0, pair.0))?;
            Ok(())
        }
    }
}

/// The tables of lookups.
pub(crate) fn tables(
    alloc: Global,
    reads: &[Read<'_>],
    out: &mut Vec<Local>,
) -> Result<(), AllocError>
    ensures { OnOk result (map local_of out.new.items ≡ map local_of out.old.items ++ map trees.table_tree (code.lookups_in (reads_of reads.now))) }
{
    for read in reads {
        table(alloc, read, out)?;
    }
    Ok(())
}
