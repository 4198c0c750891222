//! The files of what is linked.

ghost use Rattle.std.specs.Prelude.{◌≡◌, ◌++◌, ◌∷◌, [], codes, length, map, All, OnOk};
ghost use Rattle.indus_tree.specs.View.{decl_of};
ghost use Rattle.p4_tree.specs.View.{program_of};
ghost use Rattle.p4_printer.specs.CanSpell.{CanSpell};
ghost use Rattle.job_course.specs.Output.{files_of};
ghost use Rattle.run_texts.specs.Files.{linked_files};
ghost use Rattle.run_texts.specs.Tables.{tables_lines};

use crate::programs::{put_own_programs, put_programs};
use crate::tables::tables_text;
use control_tables::ControlMap;
use forward_texts::put_text;
use indus_tree::Decl;
use network_file::Network;
use p4_types::TypedProgram;
use std::alloc::{AllocError, Global};

/// The file of the tables that hold control variables goes behind the others.
fn put_tables(
    alloc: Global,
    files: &mut Vec<(String, Vec<u8>)>,
    out: &str,
    rows: &ControlMap,
    decls: &[Decl],
) -> Result<(), AllocError>
    ensures { OnOk result (files_of files.new.items ≡ files_of files.old.items
        ++ (out.now ++ codes ".tables.txt", tables_lines (map decl_of decls.now) rows.now.tables.items) ∷ []) }
{
    let tables = tables_text(alloc, rows, decls)?;
    put_text(alloc, files, out, ".tables.txt", tables)?;
    Ok(())
}

/// The files of the programs of all switches, in the network's order, and of the tables in them that hold
/// control variables, go behind the others.
pub fn put_linked(
    alloc: Global,
    files: &mut Vec<(String, Vec<u8>)>,
    out: &str,
    network: &Network,
    programs: &[TypedProgram],
    rows: &ControlMap,
    decls: &[Decl],
) -> Result<(), AllocError>
    requires count { length programs.now ≡ length network.now.names }
    requires spelled { All (λ t. CanSpell (program_of t)) programs.now }
    ensures { OnOk result (files_of files.new.items ≡ files_of files.old.items ++ linked_files out.now
        (map program_of programs.now) rows.now.tables.items (map decl_of decls.now) network.now.names) }
{
    put_programs(alloc, files, out, network, programs)?;
    put_tables(alloc, files, out, rows, decls)?;
    Ok(())
}

/// The same of programs that are handed over: each is let go of when its text is made.
pub fn put_own_linked(
    alloc: Global,
    files: &mut Vec<(String, Vec<u8>)>,
    out: &str,
    network: &Network,
    programs: Vec<TypedProgram>,
    rows: &ControlMap,
    decls: &[Decl],
) -> Result<(), AllocError>
    requires count { length programs.items ≡ length network.now.names }
    requires spelled { All (λ t. CanSpell (program_of t)) programs.items }
    ensures { OnOk result (files_of files.new.items ≡ files_of files.old.items ++ linked_files out.now
        (map program_of programs.items) rows.now.tables.items (map decl_of decls.now) network.now.names) }
{
    put_own_programs(alloc, files, out, network, programs)?;
    put_tables(alloc, files, out, rows, decls)?;
    Ok(())
}
