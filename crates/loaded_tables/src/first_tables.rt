//! The tables of a switch's linked program, loaded.

ghost use Rattle.std.specs.Prelude.{◌≡◌, ◌≤◌, ◌+◌, map, IfOk};
ghost use Rattle.indus_tree.specs.View.{decl_of};
ghost use Rattle.indus_values.specs.View.{contents_from};
ghost use Rattle.p4_tree.specs.View.{program_of};
ghost use Rattle.p4_meaning.specs.Parts.{parts_of};
ghost use Rattle.p4_tables.specs.State.{entries_in};
ghost use Rattle.p4_tables.specs.Named.{tables_in};
ghost use Rattle.p4_tables.specs.Programs.{IsStateOf};
ghost use Rattle.p4_tables.specs.Carried.{StandsIn};
ghost use Rattle.control_maps.specs.Numbers.{IsMapOf};
ghost use Rattle.set_contents.specs.Maps.{map_of};
ghost use Rattle.path_runner.specs.Starts.{IsLoaded};
ghost use Rattle.loaded_tables.specs.Rows.{numbered_rows, IsNumberedMap};
ghost use Rattle.loaded_tables.specs.Loading.{AddsOnly, AreNew, AreTaken, carried_entries, keys_in, switch_before};

use crate::filling::load;
use crate::numbering::{Mapped, switch_map};
use control_tables::ControlMap;
use indus_tree::Decl;
use indus_values::ControlValue;
use p4_tables::TableState;
use p4_types::TypedProgram;
use std::alloc::{AllocError, Global};

/// The tables of a switch's linked program before the first event, and the map of its generated tables.
/// The tables of the program that was given hold what they hold there, those of the map the contents of
/// their control variables. `contents` has those of all control variables, in order of declaration.
pub fn loaded(
    alloc: Global,
    given: &TypedProgram,
    held: &TableState,
    program: &TypedProgram,
    rows: &ControlMap,
    decls: &[Decl],
    contents: &[ControlValue],
) -> Result<(TableState, Vec<Mapped>), AllocError>
    requires state { IsStateOf (program_of given.now) held.now }
    requires stands { StandsIn (program_of given.now) (program_of program.now) }
    requires map { IsNumberedMap (program_of program.now) (map decl_of decls.now) rows.now.tables.items }
    requires new { AreNew (parts_of (program_of given.now)).tables rows.now.tables.items }
    requires taken { AreTaken (entries_in held.now)
        (numbered_rows (program_of program.now) (map decl_of decls.now) rows.now.tables.items)
        (contents_from (map decl_of decls.now) contents.now) }
    ensures state { IfOk result (λ r. IsStateOf (program_of program.now) r.0) }
    ensures map { IfOk result (λ r. map_of r.1.items
        ≡ numbered_rows (program_of program.now) (map decl_of decls.now) rows.now.tables.items) }
    ensures mapped { IfOk result (λ r. IsMapOf (parts_of (program_of program.now)) r.0 (map_of r.1.items)) }
    ensures loaded { IfOk result (λ r. IsLoaded (switch_before (program_of program.now) r.0) (map_of r.1.items)
        (carried_entries (program_of given.now) held.now (program_of program.now))
        (contents_from (map decl_of decls.now) contents.now)) }
    // the entries that are held in the given program's tables, and one for each key
    ensures entries { IfOk result (λ r. entries_in r.0 ≤ entries_in held.now
        + keys_in (numbered_rows (program_of program.now) (map decl_of decls.now) rows.now.tables.items)
        (contents_from (map decl_of decls.now) contents.now)) }
    // where the program has no table beside those of the map and those of the program that was given
    ensures own { AddsOnly (parts_of (program_of given.now)).tables (parts_of (program_of program.now)).tables rows.now.tables.items
        → IfOk result (λ r. IsLoaded (switch_before (program_of program.now) r.0) (map_of r.1.items)
        (tables_in (parts_of (program_of given.now)) held.now)
        (contents_from (map decl_of decls.now) contents.now)) }
{
    let mut tables = held.carried(alloc, given, program)?;
    let mapped = switch_map(alloc, program, &tables, rows, decls)?;
    load(alloc, &mut tables, &mapped, decls, contents)?;
    Ok((tables, mapped))
}
