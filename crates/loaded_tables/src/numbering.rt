//! The rows of a map by the numbers of their program's tables.

ghost use Rattle.std.specs.Prelude.{◌≡◌, ◌<◌, length, map, IfOk};
ghost use Rattle.indus_tree.specs.View.{decl_of};
ghost use Rattle.p4_tree.specs.View.{program_of};
ghost use Rattle.p4_meaning.specs.Scope.{full};
ghost use Rattle.p4_parts.specs.PartsIn.{parts_in, table_in};
ghost use Rattle.p4_tables.specs.State.{held_at};
ghost use Rattle.p4_tables.specs.Named.{table_place};
ghost use Rattle.p4_tables.specs.Programs.{shapes, IsStateOf};
ghost use Rattle.set_contents.specs.Maps.{map_of, numbered_of};
ghost use Rattle.loaded_tables.specs.Rows.{row_place, first_action, numbered_row, numbered_rows, IsNumberedMap};
ghost use Rattle.loaded_tables.specs.Steps.{IsNumberable};

use control_tables::ControlMap;
use indus_tree::Decl;
use lex_text::Name;
use p4_parts::{Parts, Table, parts_of};
use p4_tables::TableState;
use p4_types::TypedProgram;
use p4_values::same_text;
use std::alloc::{AllocError, Global};

/// A table that holds a control variable: its number, that of its first action, that of the variable, and
/// the variable's declaration.
pub type Mapped = (u32, u32, u32, Decl);

/// The full name of what is declared in a control.
fn full(alloc: Global, control: &Name, name: &Name) -> Result<Name, AllocError>
    ensures { IfOk result (λ n. n ≡ full control.now name.now) }
{
    let behind = Name::joined(alloc, ".", control.as_str())?;
    Name::joined(alloc, name.as_str(), behind.as_str())
}

/// How many tables stand before the first of a full name.
fn place_of(tables: &[Table], name: &str) -> usize
    ensures { result ≡ table_place (map table_in tables.now) name.now }
{
    for i in 0..tables.len() {
        if same_text(tables[i].name.as_str(), name) {
            return i;
        }
    }
    tables.len()
}

/// The number of a row's table. No memory holds more tables than 32 bits number.
fn table_of(alloc: Global, parts: &Parts, row: &(Name, Name, u32)) -> Result<u32, AllocError>
    ensures { IfOk result (λ n. n ≡ row_place (parts_in parts.now).tables row.now) }
{
    let name = full(alloc, &row.0, &row.1)?;
    let place = place_of(&parts.tables, name.as_str());
    u32::try_from(place).map_err(|_| AllocError)
}

/// The number of a table's first action.
fn first_action(tables: &TableState, table: u32) -> u32
    requires there { table < length tables.now }
    requires acts { 0 < length (held_at tables.now table).shape.actions }
    ensures { result ≡ first_action (held_at tables.now table).shape }
{
    tables.shape(table).actions[0].number
}

/// One row of the map.
fn mapped(
    alloc: Global,
    parts: &Parts,
    tables: &TableState,
    decls: &[Decl],
    row: &(Name, Name, u32),
) -> Result<Mapped, AllocError>
    requires { IsNumberable (parts_in parts.now).tables tables.now (map decl_of decls.now) row.now }
    ensures { IfOk result (λ m. numbered_of m
        ≡ numbered_row (parts_in parts.now).tables (shapes tables.now) (map decl_of decls.now) row.now) }
{
    let table = table_of(alloc, parts, row)?;
    let action = first_action(tables, table);
    let decl = decls[row.2 as usize].copy(alloc)?;
    Ok((table, action, row.2, decl))
}

/// The tables of a map in their program, whose tables these are.
pub fn switch_map(
    alloc: Global,
    program: &TypedProgram,
    tables: &TableState,
    rows: &ControlMap,
    decls: &[Decl],
) -> Result<Vec<Mapped>, AllocError>
    requires state { IsStateOf (program_of program.now) tables.now }
    requires map { IsNumberedMap (program_of program.now) (map decl_of decls.now) rows.now.tables.items }
    ensures { IfOk result (λ v. map_of v.items
        ≡ numbered_rows (program_of program.now) (map decl_of decls.now) rows.now.tables.items) }
{
    let parts = parts_of(alloc, program.program())?;
    let mut all = Vec::new(alloc);
    for row in &rows.tables {
        all.push(mapped(alloc, &parts, tables, decls, row)?)?;
    }
    Ok(all)
}
