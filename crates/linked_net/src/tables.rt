//! The tables of all switches, loaded.

ghost use Rattle.std.specs.Prelude.{length, map, IfOk};
ghost use Rattle.indus_tree.specs.View.{decl_of};
ghost use Rattle.indus_values.specs.View.{contents_of};
ghost use Rattle.p4_tree.specs.View.{program_of};
ghost use Rattle.control_file.specs.Views.{contents_view};
ghost use Rattle.set_contents.specs.Maps.{map_of, maps_of};
ghost use Rattle.linked_net.specs.Loading.{AreLoadedTo, AreLoadedWith, CanLoad, CanLoadAll};

use control_tables::ControlMap;
use indus_tree::Decl;
use indus_values::ControlValue;
use loaded_tables::{Mapped, loaded};
use p4_tables::TableState;
use p4_types::TypedProgram;
use std::alloc::{AllocError, Global};

/// The tables of one switch, and its map.
fn loaded_switch(
    alloc: Global,
    given: &TypedProgram,
    held: &TableState,
    program: &TypedProgram,
    rows: &ControlMap,
    decls: &[Decl],
    contents: &[ControlValue],
) -> Result<(TableState, Vec<Mapped>), AllocError>
    requires { CanLoad (program_of given.now) (map decl_of decls.now) rows.now.tables.items
        (program_of program.now) held.now (map contents_of contents.now) }
    ensures { IfOk result (λ r. AreLoadedWith (program_of given.now) (map decl_of decls.now) rows.now.tables.items
        (program_of program.now) held.now (map contents_of contents.now) r.0 (map_of r.1.items)) }
{
    loaded(alloc, given, held, program, rows, decls, contents)
}

/// The tables of each switch's linked program, and its map. The tables of the given program hold what they
/// hold in `tables`, and those of the map the contents of their control variables.
pub(crate) fn loaded_switches(
    alloc: Global,
    given: &TypedProgram,
    tables: &[TableState],
    programs: &[TypedProgram],
    rows: &ControlMap,
    decls: &[Decl],
    contents: &[Vec<ControlValue>],
) -> Result<(Vec<TableState>, Vec<Vec<Mapped>>), AllocError>
    requires { CanLoadAll (program_of given.now) (map decl_of decls.now) rows.now.tables.items
        (map program_of programs.now) tables.now (map contents_view contents.now) }
    ensures { IfOk result (λ r. AreLoadedTo (program_of given.now) (map decl_of decls.now) rows.now.tables.items
        (map program_of programs.now) tables.now (map contents_view contents.now)
        (length programs.now) r.0.items (maps_of r.1.items)) }
{
    let mut states = Vec::new(alloc);
    let mut maps = Vec::new(alloc);
    for i in 0..programs.len() {
        let (state, map) = loaded_switch(
            alloc,
            given,
            &tables[i],
            &programs[i],
            rows,
            decls,
            &contents[i],
        )?;
        states.push(state)?;
        maps.push(map)?;
    }
    Ok((states, maps))
}
